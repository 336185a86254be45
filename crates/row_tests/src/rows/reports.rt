// Races that are reported, and accesses that are ordered.
use super::*;

/// How the two accesses of the first example are told.
pub const BY_T1: &str = "Write of size 8 at 0x0000000001000000 by thread T1";

pub const BY_MAIN: &str = "write of size 8 at 0x0000000001000000 by main thread";

/// Two threads write the same eight bytes.
pub const RACING_PROGRAM: &str = "main: N(a) E(write8,0) T; a: E(write8,0) T";

pub const RACING: Row<'static> = Row {
    program: RACING_PROGRAM,
    races: &[Race {
        mine: BY_T1,
        stack: &[(UNKNOWN, 0x10054)],
        previous: BY_MAIN,
        previous_stack: &[(UNKNOWN, 0x10028)],
    }],
    summary: (1, 0, 0, 2, "all ended"),
    status: 66,
    ..ROW
};

/// The report of them.
pub const RACING_REPORT: &str = "==================
WARNING: ThreadSanitizer: data race
  Write of size 8 at 0x0000000001000000 by thread T1:
    #0 ?? ??:0 (0x0000000000010054)
  Previous write of size 8 at 0x0000000001000000 by main thread:
    #0 ?? ??:0 (0x0000000000010028)
==================
";

/// All that is told of them.
pub const RACING_TEXT: &str = "==================
WARNING: ThreadSanitizer: data race
  Write of size 8 at 0x0000000001000000 by thread T1:
    #0 ?? ??:0 (0x0000000000010054)
  Previous write of size 8 at 0x0000000001000000 by main thread:
    #0 ?? ??:0 (0x0000000000010028)
==================
tsanrun: 1 reports, 0 suppressed, 0 equal, 2 threads, all ended
";

#[test]
fn two_writes_are_told_byte_for_byte(rt: HostRuntime) -> Result<(), Fail> {
    let alloc = rt.alloc();
    let file = assemble(alloc, RACING.program, &Form::PLAIN)?;
    let answer = call(alloc, &["step", "p"], &file)?;
    check(&rt, alloc, &answer, b"", RACING_TEXT, 66)?;
    let words = words_by(alloc, "run", &RACING)?;
    let at_once = call_whole(&rt, alloc, &words, &ports_by(&file, ""))?;
    check(&rt, alloc, &at_once, b"", RACING_TEXT, 66)?;
    let text = told(alloc, &RACING)?;
    assert_eq!(rt; text.as_str(), RACING_TEXT);
    Ok(())
}

/// What is ordered, and what races.
static ACCESSES: [Row<'static>; 12] = [
    RACING,
    // Creating a thread orders what stands before it.
    Row {
        program: "main: E(write8,0) N(a) T; a: E(read8,0) T",
        summary: (0, 0, 0, 2, "all ended"),
        ..ROW
    },
    // A release by a store, and an acquire by a load, order what stands round them.
    Row {
        program: "main: N(a) E(write8,0) E(atomic64_store,8,1,3) T; a: E(atomic64_load,8,2) E(read8,0) T",
        summary: (0, 0, 0, 2, "all ended"),
        ..ROW
    },
    // A relaxed store doesn't release.
    Row {
        program: "main: N(a) E(write8,0) E(atomic64_store,8,1,0) T; a: E(atomic64_load,8,2) E(read8,0) T",
        races: &[Race {
            mine: "Read of size 8 at 0x0000000001000000 by thread T1",
            stack: &[(UNKNOWN, 0x1009c)],
            previous: BY_MAIN,
            previous_stack: &[(UNKNOWN, 0x10028)],
        }],
        summary: (1, 0, 0, 2, "all ended"),
        status: 66,
        ..ROW
    },
    // An atomic and a plain write race.
    Row {
        program: "main: N(a) E(write8,0) T; a: E(atomic64_store,0,1,0) T",
        races: &[Race {
            mine: "Atomic write of size 8 at 0x0000000001000000 by thread T1",
            stack: &[(UNKNOWN, 0x10054)],
            previous: BY_MAIN,
            previous_stack: &[(UNKNOWN, 0x10028)],
        }],
        summary: (1, 0, 0, 2, "all ended"),
        status: 66,
        ..ROW
    },
    // Two atomic writes don't.
    Row {
        program: "main: N(a) E(atomic64_store,0,1,0) T; a: E(atomic64_store,0,1,0) T",
        summary: (0, 0, 0, 2, "all ended"),
        ..ROW
    },
    // Bytes beside one another in a granule don't.
    Row {
        program: "main: N(a) E(write1,0) T; a: E(write1,1) T",
        summary: (0, 0, 0, 2, "all ended"),
        ..ROW
    },
    // Sizes that share a byte do.
    Row {
        program: "main: N(a) E(write1,0) T; a: E(write2,0) T",
        races: &[Race {
            mine: "Write of size 2 at 0x0000000001000000 by thread T1",
            stack: &[(UNKNOWN, 0x10054)],
            previous: "write of size 1 at 0x0000000001000000 by main thread",
            previous_stack: &[(UNKNOWN, 0x10028)],
        }],
        summary: (1, 0, 0, 2, "all ended"),
        status: 66,
        ..ROW
    },
    // An access over two granules has one report, of the first.
    Row {
        program: "main: N(a) E(write8,0) E(write8,8) T; a: E(unaligned_write8,4) T",
        races: &[Race {
            mine: "Write of size 8 at 0x0000000001000004 by thread T1",
            stack: &[(UNKNOWN, 0x10078)],
            previous: BY_MAIN,
            previous_stack: &[(UNKNOWN, 0x10028)],
        }],
        summary: (1, 0, 0, 2, "all ended"),
        status: 66,
        ..ROW
    },
    // The first of two accesses with one word is told.
    Row {
        program: "main: N(a) E(read8,0) E(acquire,8) E(read8,0) T; a: E(write8,0) T",
        races: &[Race {
            mine: BY_T1,
            stack: &[(UNKNOWN, 0x1009c)],
            previous: "read of size 8 at 0x0000000001000000 by main thread",
            previous_stack: &[(UNKNOWN, 0x10028)],
        }],
        summary: (1, 0, 0, 2, "all ended"),
        status: 66,
        ..ROW
    },
    // A relaxed store takes back what an earlier store released.
    Row {
        program: "main: N(a) E(write8,0) E(atomic64_store,8,1,3) E(atomic64_store,8,2,0) T; a: E(atomic64_load,8,2) E(read8,0) T",
        races: &[Race {
            mine: "Read of size 8 at 0x0000000001000000 by thread T1",
            stack: &[(UNKNOWN, 0x100c0)],
            previous: BY_MAIN,
            previous_stack: &[(UNKNOWN, 0x10028)],
        }],
        summary: (1, 0, 0, 2, "all ended"),
        status: 66,
        ..ROW
    },
    // A relaxed addition leaves it.
    Row {
        program: "main: N(a) E(write8,0) E(atomic64_store,8,1,3) E(atomic64_fetch_add,8,2,0) T; a: E(atomic64_load,8,2) E(read8,0) T",
        summary: (0, 0, 0, 2, "all ended"),
        ..ROW
    },
];

#[test]
fn ordered_and_racing_accesses_are_told(rt: HostRuntime) -> Result<(), Fail> {
    for row in ACCESSES.iter() {
        check_both(&rt, rt.alloc(), row)?;
    }
    Ok(())
}

/// A race of the same two stacks is told once. Threads at once find it in one order or the other.
#[test]
fn equal_races_are_told_once(rt: HostRuntime) -> Result<(), Fail> {
    let row = Row {
        program: "main: N(a) N(a) E(write8,0) T; a: E(write8,0) T",
        races: &[Race {
            mine: BY_T1,
            stack: &[(UNKNOWN, 0x10064)],
            previous: BY_MAIN,
            previous_stack: &[(UNKNOWN, 0x10038)],
        }],
        summary: (1, 0, 1, 3, "all ended"),
        status: 66,
        ..ROW
    };
    check_row(&rt, rt.alloc(), &row)
}

static LOCKS: [Row<'static>; 4] = [
    Row {
        program: "main: N(a) E(post_lock,8) E(write8,0) E(pre_unlock,8) T; a: E(write8,0) T",
        races: &[Race {
            mine: BY_T1,
            stack: &[(UNKNOWN, 0x1009c)],
            previous: "write of size 8 at 0x0000000001000000 by main thread (mutexes: write 0x0000000001000008)",
            previous_stack: &[(UNKNOWN, 0x1004c)],
        }],
        summary: (1, 0, 0, 2, "all ended"),
        status: 66,
        ..ROW
    },
    // A lock that is taken to read.
    Row {
        program: "main: N(a) E(post_lock,8,8) E(write8,0) E(pre_unlock,8,8) T; a: E(write8,0) T",
        races: &[Race {
            mine: BY_T1,
            stack: &[(UNKNOWN, 0x1009c)],
            previous: "write of size 8 at 0x0000000001000000 by main thread (mutexes: read 0x0000000001000008)",
            previous_stack: &[(UNKNOWN, 0x1004c)],
        }],
        summary: (1, 0, 0, 2, "all ended"),
        status: 66,
        ..ROW
    },
    // A lock that is taken twice round another: the last one goes.
    Row {
        program: "main: N(a) E(post_lock,8) E(post_lock,16) E(post_lock,8) E(pre_unlock,8) E(write8,0) T; a: E(write8,0) T",
        races: &[Race {
            mine: BY_T1,
            stack: &[(UNKNOWN, 0x100e4)],
            previous: "write of size 8 at 0x0000000001000000 by main thread (mutexes: write 0x0000000001000008, write 0x0000000001000010)",
            previous_stack: &[(UNKNOWN, 0x100b8)],
        }],
        summary: (1, 0, 0, 2, "all ended"),
        status: 66,
        ..ROW
    },
    // A lock that is given back twice.
    Row {
        program: "main: N(a) E(post_lock,8) E(pre_unlock,8) E(pre_unlock,8) E(write8,0) T; a: E(write8,0) T",
        races: &[Race {
            mine: BY_T1,
            stack: &[(UNKNOWN, 0x100c0)],
            previous: BY_MAIN,
            previous_stack: &[(UNKNOWN, 0x10094)],
        }],
        summary: (1, 0, 0, 2, "all ended"),
        status: 66,
        ..ROW
    },
];

#[test]
fn kept_locks_are_told(rt: HostRuntime) -> Result<(), Fail> {
    for row in LOCKS.iter() {
        check_both(&rt, rt.alloc(), row)?;
    }
    Ok(())
}

/// The address at which `E(func_entry,260)` says that its function was called.
const CALLED_AT: u64 = 0x1000100;

/// Looks at a race of the main thread's access under so many frames, and a later one of a second thread.
fn check_depth<R: Abort + Threads + Wait + Sync>(
    rt: &R,
    alloc: Global,
    program: &str,
    depth: u32,
    places: (u64, u64),
) -> Result<(), Fail> {
    let (mine, previous) = places;
    let mut frames = vec![in alloc; (UNKNOWN, previous)]?;
    for _ in 0..depth {
        frames.push((UNKNOWN, CALLED_AT))?;
    }
    let row = Row {
        program,
        races: &[Race {
            mine: BY_T1,
            stack: &[(UNKNOWN, mine)],
            previous: BY_MAIN,
            previous_stack: &frames,
        }],
        summary: (1, 0, 0, 2, "all ended"),
        status: 66,
        ..ROW
    };
    check_both(rt, alloc, &row)
}

#[test]
fn a_race_under_200_frames(rt: HostRuntime) -> Result<(), Fail> {
    let program =
        "a: addi x8,x0,2000 w: addi x8,x8,-1 bne x8,x0,w E(write8,0) T; main: N(a) 200*E(func_entry,260) E(write8,0) T";
    check_depth(&rt, rt.alloc(), program, 200, (0x10024, 0x11c80))
}

#[test]
fn a_race_under_the_most_frames(rt: HostRuntime) -> Result<(), Fail> {
    // The release gives the access a label that its trace still holds.
    let program =
        "a: lui x8,0x5 w: addi x8,x8,-1 bne x8,x0,w E(write8,0) T; main: N(a) 4096*E(func_entry,260) E(release,64) E(write8,0) T";
    check_depth(&rt, rt.alloc(), program, 4096, (0x10024, 0x34084))
}
