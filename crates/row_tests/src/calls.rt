// The numbers of the instrumentation's calls, by their names without `__tsan_` and `mutex_`.

static CALLS: [(&str, u8); 31] = [
    ("read1", 16),
    ("read2", 17),
    ("read4", 18),
    ("read8", 19),
    ("read16", 20),
    ("write1", 21),
    ("write2", 22),
    ("write4", 23),
    ("write8", 24),
    ("write16", 25),
    ("unaligned_read2", 26),
    ("unaligned_read4", 27),
    ("unaligned_read8", 28),
    ("unaligned_read16", 29),
    ("unaligned_write2", 30),
    ("unaligned_write4", 31),
    ("unaligned_write8", 32),
    ("unaligned_write16", 33),
    ("read_range", 34),
    ("write_range", 35),
    ("func_entry", 36),
    ("func_exit", 37),
    ("vptr_update", 38),
    ("vptr_read", 39),
    ("acquire", 40),
    ("release", 41),
    ("create", 42),
    ("destroy", 43),
    ("post_lock", 44),
    ("pre_unlock", 45),
    ("atomic_thread_fence", 46),
];

/// What the width of an atomic call adds to its number.
static WIDTHS: [(&str, u8); 4] = [("8", 0), ("16", 16), ("32", 32), ("64", 48)];

static OPERATIONS: [(&str, u8); 9] = [
    ("load", 0),
    ("store", 1),
    ("exchange", 2),
    ("fetch_add", 3),
    ("fetch_sub", 4),
    ("fetch_and", 5),
    ("fetch_or", 6),
    ("fetch_xor", 7),
    ("compare_exchange_val", 8),
];

fn find(table: &[(&str, u8)], name: &str) -> Option<u32> {
    for (known, number) in table {
        if *known == name {
            return Some(u32::from(*number));
        }
    }
    None
}

/// The number of an atomic call, as `atomic64_fetch_add`.
fn atomic_number(name: &str) -> Option<u32> {
    let (width, operation) = name.strip_prefix("atomic")?.split_once('_')?;
    let base = find(&WIDTHS, width)?;
    let number = find(&OPERATIONS, operation)?;
    base.checked_add(number)?.checked_add(64)
}

/// The number of a call.
pub fn call_number(name: &str) -> Option<u32> {
    match find(&CALLS, name) {
        Some(number) => Some(number),
        None => atomic_number(name),
    }
}
