// Files made by hand, and the frames of their places.
use crate::{FileText, Frames, Names};
use elf_image::load;
use std::alloc::{AllocError, Global};
use std::test::Fail;

// One unit of version 4: line 10 of src/a.c from 0x10000 on, line 20 from 0x1003c on, and the end at 0x10068. The
// directories begin at 28, the files at 33 and the program at 41.
const LINES: [u8; 65] = [
    0x3d, 0, 0, 0, 4, 0, 0x1f, 0, 0, 0, 1, 1, 1, 0xfb, 0x0e, 0x0d, 0, 1, 1, 1, 1, 0, 0, 0, 1, 0, 0,
    1, 0x73, 0x72, 0x63, 0, 0, 0x61, 0x2e, 0x63, 0, 1, 0, 0, 0, 0, 9, 2, 0, 0, 1, 0, 0, 0, 0, 0, 3,
    9, 1, 2, 0x3c, 3, 0x0a, 1, 2, 0x2c, 0, 1, 1,
];

const NAMES: &[u8] =
    b"\0.symtab\0.strtab\0.debug_line\0.shstrtab\0.debug_line_str\0\0\0\0\0\0\0\0\0\0";

// Where the section headers stand in a file, and the bytes behind the six of them.
const HEADERS: usize = 400;

const BEHIND_HEADERS: u64 = 784;

const STRINGS: &[u8] = b"\0main\0a\0";

// The texts of the unit of version 5, at 0, 3, 7 and 11. The last one can't be shown.
const TEXTS: &[u8] = b"/w\0src\0a.c\0b\x1f.c\0";

fn put_halves(bytes: &mut Vec<u8>, values: &[u16]) -> Result<(), AllocError> {
    for value in values {
        bytes.extend_from_slice(&value.to_le_bytes())?;
    }
    Ok(())
}

fn put_words(bytes: &mut Vec<u8>, values: &[u32]) -> Result<(), AllocError> {
    for value in values {
        bytes.extend_from_slice(&value.to_le_bytes())?;
    }
    Ok(())
}

fn put_longs(bytes: &mut Vec<u8>, values: &[u64]) -> Result<(), AllocError> {
    for value in values {
        bytes.extend_from_slice(&value.to_le_bytes())?;
    }
    Ok(())
}

// Type, offset, size and link.
fn put_section(
    bytes: &mut Vec<u8>,
    words: [u32; 2],
    range: [u64; 2],
    link: u32,
) -> Result<(), AllocError> {
    let [offset, size] = range;
    put_words(bytes, &words)?;
    put_longs(bytes, &[0, 0, offset, size])?;
    put_words(bytes, &[link, 0])?;
    put_longs(bytes, &[1, 0])
}

// The name's offset, the type, the start and the size of a symbol.
fn put_symbol(
    bytes: &mut Vec<u8>,
    name: u32,
    kind: u8,
    start: u64,
    size: u64,
) -> Result<(), AllocError> {
    put_words(bytes, &[name])?;
    bytes.extend_from_slice(&[kind, 0, 1, 0])?;
    put_longs(bytes, &[start, size])
}

// An executable with code from 0x10000 to 0x10068, these symbols, these line units and these texts in .debug_line_str.
fn file(
    alloc: Global,
    symbols: &[(u32, u8, u64, u64)],
    strings: &[u8],
    lines: &[u8],
    texts: &[u8],
) -> Result<Vec<u8>, AllocError> {
    let mut bytes = Vec::new(alloc);
    bytes.extend_from_slice(&[0x7f, 0x45, 0x4c, 0x46, 2, 1, 1, 0, 0, 0, 0, 0, 0, 0, 0, 0])?;
    put_halves(&mut bytes, &[2, 243])?;
    put_words(&mut bytes, &[1])?;
    put_longs(&mut bytes, &[0x1_0000, 64, HEADERS as u64])?;
    put_words(&mut bytes, &[0])?;
    put_halves(&mut bytes, &[64, 56, 1, 64, 6, 4])?;
    put_words(&mut bytes, &[1, 5])?;
    put_longs(&mut bytes, &[176, 0x1_0000, 0x1_0000, 104, 104, 8])?;
    bytes.extend_from_slice(&[0; 216])?;
    bytes.extend_from_slice(NAMES)?;
    let size = 24u64.wrapping_mul(symbols.len() as u64);
    let text = strings.len() as u64;
    let strings_at = BEHIND_HEADERS.wrapping_add(size);
    let lines_at = strings_at.wrapping_add(text);
    let texts_at = lines_at.wrapping_add(lines.len() as u64);
    put_section(&mut bytes, [0, 0], [0, 0], 0)?;
    put_section(&mut bytes, [1, 2], [BEHIND_HEADERS, size], 2)?;
    put_section(&mut bytes, [9, 3], [strings_at, text], 0)?;
    put_section(&mut bytes, [17, 1], [lines_at, lines.len() as u64], 0)?;
    put_section(&mut bytes, [29, 3], [336, 55], 0)?;
    put_section(&mut bytes, [39, 1], [texts_at, texts.len() as u64], 0)?;
    for (name, kind, start, size) in symbols {
        put_symbol(&mut bytes, *name, *kind, *start, *size)?;
    }
    bytes.extend_from_slice(strings)?;
    bytes.extend_from_slice(lines)?;
    bytes.extend_from_slice(texts)?;
    Ok(bytes)
}

const FUNCTIONS: [(u32, u8, u64, u64); 2] = [(1, 0x12, 0x1_0000, 60), (6, 0x12, 0x1_003c, 44)];

fn name_over(
    alloc: Global,
    symbols: &[(u32, u8, u64, u64)],
    strings: &[u8],
    place: u64,
    name: &str,
) -> Result<bool, Fail> {
    let bytes = file(alloc, symbols, strings, b"", b"")?;
    let image = load(alloc, bytes.as_slice())?;
    let names = Names::read(alloc, &image)?;
    let frame = names.frame(place);
    Ok(frame.name == name && frame.file.is_empty() && frame.line == 0)
}

#[test]
fn names_functions(rt: HostRuntime) -> Result<(), Fail> {
    let places = [
        (0xffff, ""),
        (0x1_0000, "main"),
        (0x1_0028, "main"),
        (0x1_003b, "main"),
        (0x1_003c, "a"),
        (0x1_0054, "a"),
        (0x1_0067, "a"),
        (0x1_0068, ""),
        (u64::MAX, ""),
    ];
    for (place, name) in places {
        assert!(rt;
            name_over(rt.alloc(), &FUNCTIONS, STRINGS, place, name)?,
            "at {place}"
        );
    }
    Ok(())
}

fn is_text(file: FileText<'_>, text: &str) -> bool {
    match file.directory {
        None => file.name == text,
        Some(directory) => {
            let rest = text.strip_prefix(directory).unwrap_or("");
            rest.strip_prefix("/") == Some(file.name)
        }
    }
}

fn frame_is(
    alloc: Global,
    lines: &[u8],
    place: u64,
    expected: (&str, &str, u64),
) -> Result<bool, Fail> {
    let bytes = file(alloc, &FUNCTIONS, STRINGS, lines, TEXTS)?;
    let image = load(alloc, bytes.as_slice())?;
    let names = Names::read(alloc, &image)?;
    let frame = names.frame(place);
    let (name, text, line) = expected;
    Ok(frame.name == name && is_text(frame.file, text) && frame.line == line)
}

#[test]
fn frames_of_the_worked_table(rt: HostRuntime) -> Result<(), Fail> {
    let places = [
        (0xffff, ("", "", 0)),
        (0x1_0000, ("main", "src/a.c", 10)),
        (0x1_0028, ("main", "src/a.c", 10)),
        (0x1_003b, ("main", "src/a.c", 10)),
        (0x1_003c, ("a", "src/a.c", 20)),
        (0x1_0054, ("a", "src/a.c", 20)),
        (0x1_0067, ("a", "src/a.c", 20)),
        (0x1_0068, ("", "", 0)),
        (u64::MAX, ("", "", 0)),
    ];
    for (place, expected) in places {
        assert!(rt;
            frame_is(rt.alloc(), &LINES, place, expected)?,
            "at {place}"
        );
    }
    Ok(())
}

// One byte of the worked table is another one: the file and the line at 0x10054.
#[test]
fn reads_changed_tables(rt: HostRuntime) -> Result<(), Fail> {
    let changes = [
        // The program ends in the middle of an operation, and the unit reaches past the section.
        (0, 0x3c, "", 0),
        (0, 0x3e, "", 0),
        // Versions 1 and 6 are passed over. In versions 2 and 3 the fields from 11 on stand one byte before.
        (4, 1, "", 0),
        (4, 2, "src/a.c", 20),
        (4, 3, "src/a.c", 20),
        (4, 6, "", 0),
        // The program begins at its second byte, at the unit's end and past it; instructions of two bytes, and of two
        // operations.
        (6, 0x20, "", 0),
        (6, 0x37, "", 0),
        (6, 0x38, "", 0),
        (10, 2, "src/a.c", 10),
        (11, 2, "", 0),
        // No range of lines, and no opcodes.
        (14, 0, "", 0),
        (15, 0, "", 0),
        // A directory and names that can't be shown, and a name that begins with '/'.
        (29, 0x1f, "", 0),
        (33, 0xff, "", 0),
        (33, 0x2f, "/.c", 20),
        // The file is in directory 0, and in one that isn't there.
        (37, 0, "a.c", 20),
        (37, 2, "", 0),
        // An address of seven bytes; a line before the first one; the second row is above the place, and the end below it.
        (42, 8, "", 0),
        (53, 0x7f, "src/a.c", 10),
        (56, 0x60, "src/a.c", 10),
        (61, 2, "", 0),
    ];
    for (offset, value, text, line) in changes {
        let mut lines = LINES;
        if let Some(byte) = lines.get_mut(offset) {
            *byte = value;
        }
        let expected = ("a", text, line);
        assert!(rt;
            frame_is(rt.alloc(), &lines, 0x1_0054, expected)?,
            "at {offset} is {value}"
        );
    }
    Ok(())
}

// A length of four bytes.
fn put_len(bytes: &mut Vec<u8>, len: usize) -> Result<(), AllocError> {
    bytes.extend_from_slice(&(len as u64).to_le_bytes()[..4])
}

// A unit with the header of the worked table, whose list of files ends with this byte, and this program.
fn unit(alloc: Global, end: u8, program: &[&[u8]]) -> Result<Vec<u8>, AllocError> {
    let mut bytes = Vec::new(alloc);
    let mut len = 37usize;
    for part in program {
        len = len.wrapping_add(part.len());
    }
    put_len(&mut bytes, len)?;
    bytes.extend_from_slice(&LINES[4..40])?;
    bytes.extend_from_slice(&[end])?;
    for part in program {
        bytes.extend_from_slice(*part)?;
    }
    Ok(bytes)
}

// From 0x10000 on, and lines 10 and 20 up to 0x10068.
const ADVANCE: &[u8] = &[2, 0x80, 0x80, 4];

const ROWS: &[u8] = &[3, 9, 1, 2, 0x3c, 3, 0x0a, 1, 2, 0x2c, 0, 1, 1];

const NINE_LOW: &[u8] = &[0x80, 0x80, 0x80, 0x80, 0x80, 0x80, 0x80, 0x80, 0x80];

const NINE_HIGH: &[u8] = &[0xff, 0xff, 0xff, 0xff, 0xff, 0xff, 0xff, 0xff, 0xff];

// The last byte of a list of files, programs in parts, and whether the unit has lines.
static UNITS: [(u8, &[&[u8]], bool); 12] = [
    (0, &[ADVANCE, ROWS], true),
    // The list of files has no end.
    (0x61, &[ADVANCE, ROWS], false),
    // Unsigned numbers of ten and eleven bytes, and of 64 and 65 bits.
    (0, &[ADVANCE, &[2], NINE_LOW, &[0], ROWS], true),
    (0, &[ADVANCE, &[2], NINE_LOW, &[0x80, 0], ROWS], false),
    (0, &[ADVANCE, &[4], NINE_HIGH, &[1, 4, 1], ROWS], true),
    (0, &[ADVANCE, &[4], NINE_HIGH, &[2, 4, 1], ROWS], false),
    (
        0,
        &[ADVANCE, &[4], NINE_HIGH, &[0x81, 0, 4, 1], ROWS],
        false,
    ),
    // Signed ones: the tenth byte only repeats the sign.
    (0, &[ADVANCE, &[3], NINE_LOW, &[0], ROWS], true),
    (0, &[ADVANCE, &[3], NINE_LOW, &[0x80, 0], ROWS], false),
    (0, &[ADVANCE, &[3], NINE_LOW, &[1], ROWS], false),
    (0, &[ADVANCE, &[3], NINE_HIGH, &[0x7f, 3, 1], ROWS], true),
    (0, &[ADVANCE, &[3], NINE_HIGH, &[0x7e, 3, 1], ROWS], false),
];

#[test]
fn takes_no_lines_of_malformed_units(rt: HostRuntime) -> Result<(), Fail> {
    for (end, program, has_lines) in UNITS.iter() {
        let lines = unit(rt.alloc(), *end, program)?;
        let expected = if *has_lines {
            ("a", "src/a.c", 20)
        } else {
            ("a", "", 0)
        };
        assert!(rt;
            frame_is(rt.alloc(), lines.as_slice(), 0x1_0054, expected)?,
            "{lines:?}"
        );
    }
    Ok(())
}

// One directory of 1,000,000 bytes with 300 files, of which the last one has the lines.
#[test]
fn keeps_one_long_directory(rt: HostRuntime) -> Result<(), Fail> {
    let alloc = rt.alloc();
    let mut unit = Vec::new(alloc);
    unit.extend_from_slice(&LINES[4..28])?;
    for _ in 0..10_000 {
        unit.extend_from_slice(&[b'd'; 100])?;
    }
    unit.extend_from_slice(&[0, 0])?;
    for _ in 0..300 {
        unit.extend_from_slice(&[b'f', 0, 1, 0, 0])?;
    }
    unit.extend_from_slice(&[0])?;
    let header = unit.len().wrapping_sub(6);
    unit.extend_from_slice(ADVANCE)?;
    unit.extend_from_slice(&[4, 0xac, 2])?;
    unit.extend_from_slice(ROWS)?;
    let mut lines = Vec::new(alloc);
    put_len(&mut lines, unit.len())?;
    lines.extend_from_slice(&LINES[4..6])?;
    put_len(&mut lines, header)?;
    lines.extend_from_slice(unit.get(6..).ok_or("no unit")?)?;
    let bytes = file(alloc, &FUNCTIONS, STRINGS, lines.as_slice(), b"")?;
    let image = load(alloc, bytes.as_slice())?;
    let names = Names::read(alloc, &image)?;
    let frame = names.frame(0x1_0054);
    let directory = frame.file.directory.ok_or("no directory")?;
    assert_eq!(rt; directory.len(), 1_000_000);
    assert_eq!(rt; frame.file.name, "f");
    assert_eq!(rt; frame.line, 20);
    Ok(())
}

// A unit with a length of 64 bits, and one of version 6.
const PASSED_OVER: [u8; 21] = [
    0xff, 0xff, 0xff, 0xff, 3, 0, 0, 0, 0, 0, 0, 0, 0x61, 0x62, 0x63, 2, 0, 0, 0, 6, 0,
];

// A unit of version 3 with each operation: instructions of two bytes, special opcodes from 14 on, directories d and e,
// and files e/x.c, /y.c, z.c and then d/w.c. Its second sequence overlaps the end of the first.
const OPERATIONS: [u8; 144] = [
    0x8c, 0, 0, 0, 3, 0, 0x2e, 0, 0, 0, 2, 1, 0xfd, 0x0c, 0x0e, 0, 1, 1, 1, 1, 0, 0, 0, 1, 0, 0, 1,
    2, 0x64, 0, 0x65, 0, 0, 0x78, 0x2e, 0x63, 0, 2, 0, 0, 0x2f, 0x79, 0x2e, 0x63, 0, 1, 0, 0, 0x7a,
    0x2e, 0x63, 0, 0, 0, 0, 0, 0, 9, 2, 0, 0, 1, 0, 0, 0, 0, 0, 0x0d, 0x80, 1, 5, 4, 2, 5, 7, 3, 4,
    1, 8, 2, 1, 0x37, 0x0c, 1, 9, 0x0c, 0, 4, 1, 1, 0, 8, 3, 0x77, 0x2e, 0x63, 0, 1, 0, 0, 4, 4,
    0x0e, 0, 3, 0x80, 0x61, 0x62, 0, 0, 4, 3, 2, 0x0a, 1, 4, 9, 2, 4, 1, 2, 4, 0, 1, 1, 0, 9, 2,
    0x58, 0, 1, 0, 0, 0, 0, 0, 4, 3, 1, 2, 8, 0, 1, 1,
];

#[test]
fn reads_all_units(rt: HostRuntime) -> Result<(), Fail> {
    let mut malformed = LINES;
    malformed[0] = 0x3c;
    let mut behind = LINES;
    behind[44] = 0x68;
    let mut unread = LINES;
    unread[46] = 2;
    let mut lines = Vec::new(rt.alloc());
    lines.extend_from_slice(&PASSED_OVER)?;
    lines.extend_from_slice(&malformed[..64])?;
    lines.extend_from_slice(&OPERATIONS)?;
    lines.extend_from_slice(&behind)?;
    // Reading ends at a reserved length.
    lines.extend_from_slice(&[0xf0, 0xff, 0xff, 0xff])?;
    lines.extend_from_slice(&unread)?;
    let places = [
        (0xffff, ("", "", 0)),
        (0x1_0000, ("main", "/y.c", 5)),
        (0x1_002f, ("main", "/y.c", 5)),
        (0x1_0030, ("main", "/y.c", 7)),
        (0x1_003c, ("a", "d/w.c", 4)),
        (0x1_004f, ("a", "d/w.c", 4)),
        (0x1_0050, ("a", "z.c", 4)),
        (0x1_0058, ("a", "", 0)),
        (0x1_0060, ("a", "z.c", 1)),
        (0x1_0068, ("", "src/a.c", 10)),
        (0x1_00cf, ("", "src/a.c", 20)),
        (0x1_00d0, ("", "", 0)),
        (0x2_0000, ("", "", 0)),
    ];
    for (place, expected) in places {
        assert!(rt;
            frame_is(rt.alloc(), lines.as_slice(), place, expected)?,
            "at {place}"
        );
    }
    Ok(())
}

// A unit of version 5. Its directories are /w, src, one that can't be shown, and src again; its files are src/a.c, one that
// can't be shown, src/ and no name, one in the third directory, and one in a directory that isn't there. Each file tells two
// paths, and fields that are passed over. The program defines a file, which version 5 doesn't read.
const VERSION_5: [u8; 279] = [
    0x13, 1, 0, 0, 5, 0, 8, 0, 0xd8, 0, 0, 0, 1, 1, 1, 0xfb, 0x0e, 0x0d, 0, 1, 1, 1, 1, 0, 0, 0, 1,
    0, 0, 1, 2, 1, 0x1f, 2, 0x0f, 4, 0, 0, 0, 0, 0, 3, 0, 0, 0, 0, 0x0b, 0, 0, 0, 0, 3, 0, 0, 0, 0,
    7, 1, 8, 1, 0x1f, 2, 5, 5, 0x1e, 4, 0x0f, 3, 9, 0x81, 0x40, 8, 5, 0x78, 0, 7, 0, 0, 0, 1, 0, 0,
    0, 0, 0, 0, 0, 0, 0, 0, 0, 0, 0, 0, 0, 0, 0, 0xac, 2, 2, 0x68, 0x69, 0x76, 0, 0x79, 0, 0x0b, 0,
    0, 0, 1, 0, 0, 0, 0, 0, 0, 0, 0, 0, 0, 0, 0, 0, 0, 0, 0, 0, 0xac, 2, 2, 0x68, 0x69, 0x76, 0,
    0x7a, 0, 2, 0, 0, 0, 3, 0, 0, 0, 0, 0, 0, 0, 0, 0, 0, 0, 0, 0, 0, 0, 0, 0, 0xac, 2, 2, 0x68,
    0x69, 0x76, 0, 0x71, 0, 7, 0, 0, 0, 2, 0, 0, 0, 0, 0, 0, 0, 0, 0, 0, 0, 0, 0, 0, 0, 0, 0, 0xac,
    2, 2, 0x68, 0x69, 0x76, 0, 0x72, 0, 7, 0, 0, 0, 9, 0, 0, 0, 0, 0, 0, 0, 0, 0, 0, 0, 0, 0, 0, 0,
    0, 0, 0xac, 2, 2, 0x68, 0x69, 0x76, 0, 0, 9, 2, 0, 0, 1, 0, 0, 0, 0, 0, 1, 2, 0x10, 4, 0, 3, 4,
    1, 2, 0x10, 4, 2, 3, 1, 1, 2, 0x1c, 4, 3, 1, 2, 4, 4, 4, 1, 2, 4, 0, 3, 3, 0x61, 0x62, 4, 5, 1,
    2, 4, 0, 1, 1,
];

#[test]
fn reads_units_of_two_versions(rt: HostRuntime) -> Result<(), Fail> {
    let mut behind = LINES;
    behind[44] = 0x48;
    let mut lines = Vec::new(rt.alloc());
    lines.extend_from_slice(&VERSION_5)?;
    lines.extend_from_slice(&behind)?;
    let places = [
        (0x1_0000, ("main", "", 0)),
        (0x1_0010, ("main", "src/a.c", 5)),
        (0x1_0020, ("main", "src/", 6)),
        (0x1_003c, ("a", "", 0)),
        (0x1_0040, ("a", "", 0)),
        (0x1_0044, ("a", "", 0)),
        (0x1_0048, ("a", "src/a.c", 10)),
    ];
    for (place, expected) in places {
        assert!(rt;
            frame_is(rt.alloc(), lines.as_slice(), place, expected)?,
            "at {place}"
        );
    }
    Ok(())
}

#[test]
fn takes_the_inner_function(rt: HostRuntime) -> Result<(), Fail> {
    // a stands in main, in both orders of the table; of two with one start the first counts; an object is none.
    let inner = (6, 0x12, 0x1_003c, 8);
    let outer = (1, 0x12, 0x1_0000, 104);
    let object = (6, 0x11, 0x1_0044, 8);
    let last = (6, 0x12, u64::MAX - 3, 8);
    for symbols in [[inner, outer, object], [outer, inner, object]] {
        for (place, name) in [
            (0x1_0000, "main"),
            (0x1_003c, "a"),
            (0x1_0043, "a"),
            (0x1_0044, "main"),
        ] {
            assert!(rt;
                name_over(rt.alloc(), &symbols, STRINGS, place, name)?,
                "at {place}"
            );
        }
    }
    let twice = [(6, 2, 0x1_0000, 8), (1, 2, 0x1_0000, 16), last];
    for (place, name) in [
        (0x1_0007, "a"),
        (0x1_0008, "main"),
        (u64::MAX - 4, ""),
        (u64::MAX, "a"),
    ] {
        assert!(rt;
            name_over(rt.alloc(), &twice, STRINGS, place, name)?,
            "at {place}"
        );
    }
    Ok(())
}

#[test]
fn takes_bad_names_for_none(rt: HostRuntime) -> Result<(), Fail> {
    let tables: [(&[u8], &str); 6] = [
        (b"\0main\0a\0", "main"),
        (b"\0main\0", "main"),
        (b"\0main", ""),
        (b"\0ma\x1fn\0", ""),
        (b"\0ma\xffn\0", ""),
        (b"", ""),
    ];
    for (strings, name) in tables {
        assert!(rt;
            name_over(rt.alloc(), &FUNCTIONS, strings, 0x1_0000, name)?,
            "for {name}"
        );
    }
    Ok(())
}

#[test]
fn takes_bad_tables_for_none(rt: HostRuntime) -> Result<(), Fail> {
    let changes = [
        (58, 63, ""),
        (42, 1, ""),
        (62, 6, ""),
        (HEADERS + 64 * 1 + 4, 3, ""),
        (HEADERS + 64 * 1 + 9, 8, ""),
        (HEADERS + 64 * 1 + 34, 1, ""),
        (HEADERS + 64 * 1 + 40, 3, ""),
        (HEADERS + 64 * 1 + 40, 9, ""),
        (HEADERS + 64 * 1 + 32, 47, "main"),
        (HEADERS + 64 * 1 + 32, 23, ""),
        (HEADERS + 64 * 2 + 4, 1, ""),
        (HEADERS + 64 * 2 + 33, 1, ""),
        (HEADERS + 64 * 3 + 33, 200, "main"),
    ];
    for (offset, value, name) in changes {
        let mut bytes = file(rt.alloc(), &FUNCTIONS, STRINGS, b"", b"")?;
        if let Some(byte) = bytes.get_mut(offset) {
            *byte = value;
        }
        let image = load(rt.alloc(), bytes.as_slice())?;
        let names = Names::read(rt.alloc(), &image)?;
        assert!(rt; names.frame(0x1_0000).name == name, "at {offset}");
    }
    Ok(())
}
