// Words and files by hand, from the instruction formats of the RISC-V unprivileged manual and from
// the layout of ELF64.
use crate::{AssemblyError, DebugSection, Form, assemble};
use std::test::Fail;

fn word_at(bytes: &[u8], at: u16) -> Option<u32> {
    let at = usize::from(at);
    match bytes.get(at..at + 4)? {
        [a, b, c, d] => Some(u32::from_le_bytes([*a, *b, *c, *d])),
        _ => None,
    }
}

fn long_at(bytes: &[u8], at: u16) -> Option<u64> {
    let low = word_at(bytes, at)?;
    let high = word_at(bytes, at.checked_add(4)?)?;
    Some(u64::from(high) << 32 | u64::from(low))
}

/// Where the code begins in a file.
const CODE: u16 = 176;

static INSTRUCTIONS: [(&str, u32); 20] = [
    ("lui x10,0x1000", 0x0100_0537),
    ("auipc x5,1", 0x0000_1297),
    ("addi x8,x0,3", 0x0030_0413),
    ("addi x8,x8,-1", 0xfff4_0413),
    ("add x1,x2,x3", 0x0031_00b3),
    ("div x10,x11,x12", 0x02c5_c533),
    ("srai x10,x10,63", 0x43f5_5513),
    ("jal x1,+4", 0x0040_00ef),
    ("jal x0,-16", 0xff1f_f06f),
    ("jalr x0,0(x1)", 0x0000_8067),
    ("bne x8,x0,-4", 0xfe04_1ee3),
    ("beq x0,x0,8", 0x0000_0463),
    ("ld x10,0(x10)", 0x0005_3503),
    ("lw x15,-20(x8)", 0xfec4_2783),
    ("sd x21,0(x20)", 0x015a_3023),
    ("sw x15,-20(x8)", 0xfef4_2623),
    ("lr.d x10,(x11)", 0x1005_b52f),
    ("sc.d x10,x12,(x11)", 0x18c5_b52f),
    ("amoadd.d x10,x11,(x12)", 0x00b6_352f),
    ("ebreak", 0x0010_0073),
];

#[test]
fn instructions_have_the_manuals_words(rt: HostRuntime) -> Result<(), Fail> {
    let alloc = rt.alloc();
    for (text, word) in INSTRUCTIONS.iter() {
        let program = format!(in alloc; "main: {text}")?;
        let bytes = assemble(alloc, program.as_str(), &Form::PLAIN)?;
        assert_eq!(rt; bytes.len(), 180);
        assert_eq!(rt; word_at(&bytes, CODE), Some(*word), "{text}");
    }
    Ok(())
}

static CALLS: [(&str, u32); 12] = [
    ("read1", 16),
    ("read16", 20),
    ("write8", 24),
    ("unaligned_write16", 33),
    ("func_entry", 36),
    ("post_lock", 44),
    ("pre_unlock", 45),
    ("atomic_thread_fence", 46),
    ("atomic8_load", 64),
    ("atomic16_store", 81),
    ("atomic32_exchange", 98),
    ("atomic64_compare_exchange_val", 120),
];

#[test]
fn calls_have_their_numbers(rt: HostRuntime) -> Result<(), Fail> {
    let alloc = rt.alloc();
    for (name, number) in CALLS.iter() {
        let program = format!(in alloc; "main: E({name},0)")?;
        let bytes = assemble(alloc, program.as_str(), &Form::PLAIN)?;
        // `addi x17,x0,number`, the eighth word.
        assert_eq!(rt;
            word_at(&bytes, CODE + 28),
            Some(*number << 20 | 0x893),
            "{name}"
        );
    }
    Ok(())
}

/// The words of `N(a) E(write8,0) T`, where a stands at 0x1003c.
static BLOCKS: [u32; 15] = [
    0x0001_0537,
    0x03c5_0513,
    0x0030_0893,
    0x73,
    0x0100_0537,
    0x0005_0513,
    0x593,
    0x613,
    0x693,
    0x713,
    0x0040_00ef,
    0x0180_0893,
    0x73,
    0x0040_0893,
    0x73,
];

#[test]
fn a_plain_file_holds_its_blocks(rt: HostRuntime) -> Result<(), Fail> {
    let text = "main: N(a) E(write8,0) T; a: E(write8,0) T";
    let bytes = assemble(rt.alloc(), text, &Form::PLAIN)?;
    assert_eq!(rt; bytes.len(), 280);
    for (place, long) in [
        (24, 0x10000),
        (32, 64),
        (40, 0),
        (80, 0x10000),
        (96, 104),
        (104, 104),
        (128, 280),
        (136, 0x100_0000),
        (152, 0),
        (160, 2048),
    ] {
        assert_eq!(rt; long_at(&bytes, place), Some(long), "at {place}");
    }
    let mut at = CODE;
    for word in BLOCKS.iter() {
        assert_eq!(rt; word_at(&bytes, at), Some(*word), "at {at}");
        at = at.wrapping_add(4);
    }
    Ok(())
}

#[test]
fn labels_are_reached(rt: HostRuntime) -> Result<(), Fail> {
    // The thread begins at 0x10978, whose low part is negative, and the jump goes back by 2,424 bytes.
    let text = "b: T main: N(a) 600*I a: jal x0,b bne x8,x0,a";
    let bytes = assemble(rt.alloc(), text, &Form::PLAIN)?;
    assert_eq!(rt; long_at(&bytes, 24), Some(0x10008));
    for (at, word) in [
        (184, 0x0001_1537),
        (188, 0x9785_0513),
        (2600, 0xe88f_f06f),
        (2604, 0xfe04_1ee3),
    ] {
        assert_eq!(rt; word_at(&bytes, at), Some(word), "at {at}");
    }
    Ok(())
}

#[test]
fn a_named_file_has_its_sections(rt: HostRuntime) -> Result<(), Fail> {
    let text = "main: N(a) E(write8,0) T; a: E(write8,0) T";
    let bytes = assemble(
        rt.alloc(),
        text,
        &Form::Named {
            debug: &[(DebugSection::Line, b"12345".as_slice())],
        },
    )?;
    // The file, its five section headers, three symbols, and 8, 66 and 5 bytes.
    assert_eq!(rt; bytes.len(), 280 + 320 + 72 + 79);
    for (place, long) in [
        (40, 280),
        // .symtab and .strtab
        (368, 600),
        (376, 72),
        (432, 672),
        (440, 8),
        // .shstrtab and .debug_line
        (496, 680),
        (504, 66),
        (560, 746),
        (568, 5),
        // main and a
        (632, 0x10000),
        (640, 60),
        (656, 0x1003c),
        (664, 44),
    ] {
        assert_eq!(rt; long_at(&bytes, place), Some(long), "at {place}");
    }
    assert_eq!(rt;
        bytes.get(672..680).ok_or("names")?,
        b"\0main\0a\0".as_slice()
    );
    assert_eq!(rt; bytes.get(746..).ok_or("lines")?, b"12345".as_slice());
    Ok(())
}

static FAULTS: [(&str, AssemblyError); 11] = [
    ("main: foo", AssemblyError::UnknownWord),
    ("main: Y(1)", AssemblyError::UnknownWord),
    ("main: E(write3,0)", AssemblyError::UnknownCall),
    ("main: N(b)", AssemblyError::UnknownLabel),
    ("a: T", AssemblyError::UnknownLabel),
    ("main: addi", AssemblyError::BadOperands),
    ("main: addi x8,x0", AssemblyError::BadOperands),
    ("main: add x32,x0,x0", AssemblyError::BadOperands),
    ("main: addi x8,x0,2048", AssemblyError::BadNumber),
    ("main: jal x0,+3", AssemblyError::BadNumber),
    ("main: 65535*T 65535*T 65535*T", AssemblyError::TooLong),
];

#[test]
fn other_texts_are_refused(rt: HostRuntime) {
    for (text, fault) in FAULTS.iter() {
        match assemble(rt.alloc(), text, &Form::PLAIN) {
            Ok(_) => assert!(rt; false, "{text}"),
            Err(found) => assert_eq!(rt; found, *fault, "{text}"),
        }
    }
}
