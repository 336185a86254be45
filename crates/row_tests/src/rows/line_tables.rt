// Line tables of DWARF 5: the same frames as by version 4, and tables that are malformed.
use super::named::{NAMED_RACE, RACE_WITHOUT_LINES};
use super::reports::RACING;
use super::*;
use crate::DebugSection;

/// One unit of version 5 with the lines of the unit of version 4. Its directories are /w and src, and file 1 is a.c in
/// directory 1. The format of the directories begins at 30, that of the files at 41, and the program at 57.
const VERSION_5: &[u8; 81] = &[
    0x4d, 0, 0, 0, 5, 0, 8, 0, 0x2d, 0, 0, 0, 1, 1, 1, 0xfb, 0x0e, 0x0d, 0, 1, 1, 1, 1, 0, 0, 0, 1,
    0, 0, 1, 1, 1, 8, 2, 0x2f, 0x77, 0, 0x73, 0x72, 0x63, 0, 2, 1, 8, 2, 0x0b, 2, 0x61, 0x2e, 0x63,
    0, 1, 0x61, 0x2e, 0x63, 0, 1, 0, 9, 2, 0, 0, 1, 0, 0, 0, 0, 0, 3, 9, 1, 2, 0x3c, 3, 0x0a, 1, 2,
    0x2c, 0, 1, 1,
];

/// The same with its paths in .debug_line_str, and with its paths in .debug_str.
const BY_LINE_STR: &[u8] = &[
    0x4e, 0, 0, 0, 5, 0, 8, 0, 0x2e, 0, 0, 0, 1, 1, 1, 0xfb, 0x0e, 0x0d, 0, 1, 1, 1, 1, 0, 0, 0, 1,
    0, 0, 1, 1, 1, 0x1f, 2, 0, 0, 0, 0, 3, 0, 0, 0, 2, 1, 0x1f, 2, 0x0b, 2, 7, 0, 0, 0, 1, 7, 0, 0,
    0, 1, 0, 9, 2, 0, 0, 1, 0, 0, 0, 0, 0, 3, 9, 1, 2, 0x3c, 3, 0x0a, 1, 2, 0x2c, 0, 1, 1,
];

const BY_STR: &[u8] = &[
    0x50, 0, 0, 0, 5, 0, 8, 0, 0x30, 0, 0, 0, 1, 1, 1, 0xfb, 0x0e, 0x0d, 0, 1, 1, 1, 1, 0, 0, 0, 1,
    0, 0, 1, 1, 1, 0x0e, 2, 0, 0, 0, 0, 3, 0, 0, 0, 2, 1, 0x0e, 2, 5, 2, 7, 0, 0, 0, 1, 0, 7, 0, 0,
    0, 1, 0, 0, 9, 2, 0, 0, 1, 0, 0, 0, 0, 0, 3, 9, 1, 2, 0x3c, 3, 0x0a, 1, 2, 0x2c, 0, 1, 1,
];

/// The texts of both. The names of files are the text at 7.
const TEXTS: &[u8] = b"/w\0src\0a.c\0";

const TEXTS_WITHOUT_END: &[u8] = b"/w\0src\0a.c";

/// Whether the unit has lines, and its sections.
static UNITS: [(bool, &[(DebugSection, &[u8])]); 7] = [
    (true, &[(DebugSection::Line, VERSION_5)]),
    (
        true,
        &[
            (DebugSection::Line, BY_LINE_STR),
            (DebugSection::LineStr, TEXTS),
        ],
    ),
    (
        true,
        &[(DebugSection::Line, BY_STR), (DebugSection::Str, TEXTS)],
    ),
    // The section of the texts isn't there, or is the other one.
    (false, &[(DebugSection::Line, BY_LINE_STR)]),
    (
        false,
        &[(DebugSection::Line, BY_STR), (DebugSection::LineStr, TEXTS)],
    ),
    // The last text has no end.
    (
        false,
        &[
            (DebugSection::Line, BY_LINE_STR),
            (DebugSection::LineStr, TEXTS_WITHOUT_END),
        ],
    ),
    (
        false,
        &[
            (DebugSection::Line, BY_STR),
            (DebugSection::Str, TEXTS_WITHOUT_END),
        ],
    ),
];

fn row_of<'a>(has_lines: bool, debug: &'a [(DebugSection, &'a [u8])]) -> Row<'a> {
    Row {
        form: Form::Named { debug },
        races: if has_lines {
            NAMED_RACE
        } else {
            RACE_WITHOUT_LINES
        },
        ..RACING
    }
}

#[test]
fn paths_stand_in_the_unit_or_in_sections(rt: HostRuntime) -> Result<(), Fail> {
    for (has_lines, debug) in UNITS.iter() {
        check_both(&rt, rt.alloc(), &row_of(*has_lines, *debug))?;
    }
    Ok(())
}

/// A byte of the unit of version 5 that makes it malformed.
static CAUSES: [(usize, u8); 16] = [
    // The program ends in the middle of an operation, and a field passes the unit.
    (0, 0x4c),
    (33, 0x7f),
    (46, 0x7f),
    (8, 0xff),
    // The size of an address, and that of a segment selector; two operations in an instruction.
    (6, 4),
    (7, 1),
    (13, 2),
    // No range of lines, and no opcodes.
    (16, 0),
    (17, 0),
    // Directories without a field.
    (30, 0),
    // A form that isn't known, a path that is a number, an offset outside its section.
    (32, 0x01),
    (43, 0x0b),
    (43, 0x0e),
    // A directory whose number is a path or has four bytes.
    (45, 0x08),
    (45, 0x06),
    // set_address with an address of seven bytes.
    (58, 8),
];

#[test]
fn malformed_units_have_no_lines(rt: HostRuntime) -> Result<(), Fail> {
    for (offset, value) in CAUSES.iter() {
        let mut lines = *VERSION_5;
        if let Some(byte) = lines.get_mut(*offset) {
            *byte = *value;
        }
        let debug = [(DebugSection::Line, lines.as_slice())];
        check_both(&rt, rt.alloc(), &row_of(false, debug.as_slice()))?;
    }
    Ok(())
}
