// Names, files and lines of places, and rules that suppress reports by them.
use super::reports::{BY_MAIN, BY_T1, RACING};
use super::*;
use crate::DebugSection;

/// One unit of version 4: line 10 of src/a.c from 0x10000 on, line 20 from 0x1003c on, and the end at
/// 0x10068. The byte at 14 is the unit's line_range.
const LINES: &[u8] = &[
    0x3d, 0, 0, 0, 4, 0, 0x1f, 0, 0, 0, 1, 1, 1, 0xfb, 0x0e, 0x0d, 0, 1, 1, 1, 1, 0, 0, 0, 1, 0, 0,
    1, 0x73, 0x72, 0x63, 0, 0, 0x61, 0x2e, 0x63, 0, 1, 0, 0, 0, 0, 9, 2, 0, 0, 1, 0, 0, 0, 0, 0, 3,
    9, 1, 2, 0x3c, 3, 0x0a, 1, 2, 0x2c, 0, 1, 1,
];

/// The same with a line_range of 0, which is malformed.
const MALFORMED: &[u8] = &[
    0x3d, 0, 0, 0, 4, 0, 0x1f, 0, 0, 0, 1, 1, 1, 0xfb, 0, 0x0d, 0, 1, 1, 1, 1, 0, 0, 0, 1, 0, 0, 1,
    0x73, 0x72, 0x63, 0, 0, 0x61, 0x2e, 0x63, 0, 1, 0, 0, 0, 0, 9, 2, 0, 0, 1, 0, 0, 0, 0, 0, 3, 9,
    1, 2, 0x3c, 3, 0x0a, 1, 2, 0x2c, 0, 1, 1,
];

const LINE_TABLE: &[(DebugSection, &[u8])] = &[(DebugSection::Line, LINES)];

const MALFORMED_TABLE: &[(DebugSection, &[u8])] = &[(DebugSection::Line, MALFORMED)];

/// The race with functions, files and lines.
pub const NAMED_RACE: &[Race<'static>] = &[Race {
    mine: BY_T1,
    stack: &[("a src/a.c:20", 0x10054)],
    previous: BY_MAIN,
    previous_stack: &[("main src/a.c:10", 0x10028)],
}];

/// The race with functions alone.
pub const RACE_WITHOUT_LINES: &[Race<'static>] = &[Race {
    mine: BY_T1,
    stack: &[("a ??:0", 0x10054)],
    previous: BY_MAIN,
    previous_stack: &[("main ??:0", 0x10028)],
}];

static NAMED: [Row<'static>; 3] = [
    Row {
        form: Form::Named { debug: LINE_TABLE },
        races: NAMED_RACE,
        ..RACING
    },
    // A malformed unit gives no lines, and the names stay.
    Row {
        form: Form::Named {
            debug: MALFORMED_TABLE,
        },
        races: RACE_WITHOUT_LINES,
        ..RACING
    },
    // A file without lines.
    Row {
        form: Form::NAMED,
        races: RACE_WITHOUT_LINES,
        ..RACING
    },
];

#[test]
fn places_have_names_and_lines(rt: HostRuntime) -> Result<(), Fail> {
    for row in NAMED.iter() {
        check_both(&rt, rt.alloc(), row)?;
    }
    Ok(())
}

const WITH_RULES: &[&str] = &["--suppressions=rules"];

/// The report of a race of `foo1` with `main`.
const FOO: &[Race<'static>] = &[Race {
    mine: BY_T1,
    stack: &[("foo1 src/a.c:20", 0x10054)],
    previous: BY_MAIN,
    previous_stack: &[("main src/a.c:10", 0x10028)],
}];

const FOO_ROW: Row<'static> = Row {
    program: "main: N(foo1) E(write8,0) T; foo1: E(write8,0) T",
    form: Form::Named { debug: LINE_TABLE },
    options: WITH_RULES,
    summary: (0, 1, 0, 2, "all ended"),
    ..ROW
};

const REPORTED: Row<'static> = Row {
    races: FOO,
    summary: (1, 0, 0, 2, "all ended"),
    status: 66,
    ..FOO_ROW
};

/// Rules that suppress the report, and rules that don't.
static SUPPRESSED: [Row<'static>; 8] = [
    Row {
        rules: "race:foo*",
        ..FOO_ROW
    },
    Row {
        rules: "# a comment\n\nrace:^bar$\n race_top:^main$ \r\n",
        ..FOO_ROW
    },
    Row {
        rules: "race:^src/*.c$",
        ..FOO_ROW
    },
    Row {
        rules: "race:",
        ..FOO_ROW
    },
    Row {
        rules: "",
        ..REPORTED
    },
    Row {
        rules: "race:^oo1",
        ..REPORTED
    },
    Row {
        rules: "race:foo$",
        ..REPORTED
    },
    Row {
        rules: "thread:foo1\nmutex:main",
        ..REPORTED
    },
];

#[test]
fn rules_suppress_reports(rt: HostRuntime) -> Result<(), Fail> {
    for row in SUPPRESSED.iter() {
        check_both(&rt, rt.alloc(), row)?;
    }
    Ok(())
}

/// Races of two pairs of functions, of which a rule suppresses one.
#[test]
fn other_reports_are_told_beside_suppressed_ones(rt: HostRuntime) -> Result<(), Fail> {
    let row = Row {
        program: "main: N(foo) N(bar) E(write8,0) E(write8,8) T; foo: E(write8,0) T; bar: E(write8,8) T",
        form: Form::NAMED,
        options: WITH_RULES,
        rules: "race:^foo$",
        races: &[Race {
            mine: "Write of size 8 at 0x0000000001000008 by thread T2",
            stack: &[("bar ??:0", 0x100b4)],
            previous: "write of size 8 at 0x0000000001000008 by main thread",
            previous_stack: &[("main ??:0", 0x1005c)],
        }],
        summary: (1, 1, 0, 3, "all ended"),
        status: 66,
        ..ROW
    };
    check_both(&rt, rt.alloc(), &row)
}

const LOOPS: &str =
    "main: N(foo1) addi x8,x0,60 main_loop: E(write8,0) addi x8,x8,-1 bne x8,x0,main_loop T; foo1: addi x8,x0,60 foo1_loop: E(write8,0) addi x8,x8,-1 bne x8,x0,foo1_loop T";

/// Sixty races of one pair of stacks: under a rule that suppresses them, and under one that doesn't.
static SIXTY: [Row<'static>; 2] = [
    Row {
        program: LOOPS,
        form: Form::NAMED,
        options: WITH_RULES,
        rules: "thread:*\nrace:^foo1$\nrace_top:^main_loop$",
        summary: (0, 60, 0, 2, "all ended"),
        ..ROW
    },
    Row {
        program: LOOPS,
        form: Form::NAMED,
        options: WITH_RULES,
        rules: "race:^foo1$",
        races: &[Race {
            mine: BY_T1,
            stack: &[("foo1_loop ??:0", 0x10064)],
            previous: BY_MAIN,
            previous_stack: &[("main_loop ??:0", 0x1002c)],
        }],
        summary: (1, 0, 59, 2, "all ended"),
        status: 66,
        ..ROW
    },
];

#[test]
fn each_race_of_a_suppressed_pair_is_counted(rt: HostRuntime) -> Result<(), Fail> {
    for row in SIXTY.iter() {
        check_both(&rt, rt.alloc(), row)?;
    }
    Ok(())
}
