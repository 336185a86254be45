// Words of the command line, and what the command makes of them.
use super::*;
use tsanrun_cli::{End, UsageFault};

const EXITS: &str = "tsanrun: 0 reports, 0 suppressed, 0 equal, 1 threads, exit 0\n";

/// Spellings of one call, which runs the file.
static SPELLINGS: [&[&str]; 6] = [
    &["step", "p"],
    &["step", "p", "--harts=2", "--slots", "3"],
    &["--steps=0000001000", "step", "--quantum", "1", "p"],
    &["step", "--", "p"],
    &["--seed=7", "step", "p", "--size=0", "--plan=0:1,5:8000000"],
    &[
        "step",
        "p",
        "--parts",
        "2",
        "--part-words",
        "64",
        "--epochs",
        "2",
    ],
];

#[test]
fn spellings_run_the_file(rt: HostRuntime) -> Result<(), Fail> {
    let alloc = rt.alloc();
    let file = assemble(alloc, "main: X(0)", &Form::PLAIN)?;
    for words in SPELLINGS.iter() {
        let answer = call(alloc, words, &file)?;
        check(&rt, alloc, &answer, b"", EXITS, 0)?;
    }
    Ok(())
}

const USAGE: &str = "usage: tsanrun run|step FILE [options] or tsanrun gen [options]\n";

/// Words that are refused, and why: of several faults the first in the order of the tests.
static REFUSED: [(&[&str], UsageFault); 15] = [
    (&[], UsageFault::Words),
    (&["step", "p", "--harts=1", "--harts=1"], UsageFault::Words),
    (&["step", "p", "--slots"], UsageFault::Words),
    (&["step", "p", "q"], UsageFault::Words),
    (&["--help"], UsageFault::Words),
    (&["stop", "p", "--harts=0"], UsageFault::Command),
    // It has no threads that run at once.
    (&["run", "p"], UsageFault::Command),
    (&["step", "--harts=0"], UsageFault::File),
    (&["run"], UsageFault::File),
    (&["gen", "p"], UsageFault::File),
    (&["step", "p", "--steps=+1", "--plan=x"], UsageFault::Number),
    (&["gen", "--size=10001"], UsageFault::Number),
    (&["step", "p", "--harts=00000000001"], UsageFault::Number),
    (
        &["step", "p", "--plan=1024:1", "--slots=2"],
        UsageFault::Plan,
    ),
    (&["step", "p", "--slots=2"], UsageFault::FewSlots),
];

#[test]
fn refused_words_have_their_cause(rt: HostRuntime) -> Result<(), Fail> {
    let alloc = rt.alloc();
    let file = assemble(alloc, "main: X(0)", &Form::PLAIN)?;
    for (words, fault) in REFUSED.iter() {
        let answer = call(alloc, words, &file)?;
        check(&rt, alloc, &answer, b"", USAGE, 2)?;
        assert_eq!(rt; answer.ended.end, End::Usage(*fault));
        assert!(rt; answer.ended.kept.is_none());
    }
    Ok(())
}

/// The rules, and what is told of them.
static OTHER_RULES: [(&[u8], &str); 4] = [
    (b"race foo", "tsanrun: rules fault 1 in line 1\n"),
    (b"# x\nhush:x", "tsanrun: rules fault 2 in line 2\n"),
    (b"race:\n\n\nhush:\nx", "tsanrun: rules fault 2 in line 4\n"),
    (b"race:\xff", "tsanrun: rules fault 3 in line 0\n"),
];

#[test]
fn other_rules_are_refused(rt: HostRuntime) -> Result<(), Fail> {
    let alloc = rt.alloc();
    let file = assemble(alloc, "main: X(0)", &Form::PLAIN)?;
    for (rules, line) in OTHER_RULES.iter() {
        let ports = Ports {
            file: &file,
            rules,
            failing_reads: &[],
            failing_puts: &[],
        };
        let answer = call_over(alloc, &["step", "p", "--suppressions=rules"], &ports)?;
        check(&rt, alloc, &answer, b"", line, 4)?;
    }
    Ok(())
}

/// The number of the read that fails, and whether the rules are those of a missing file.
#[test]
fn unread_rules_are_told(rt: HostRuntime) -> Result<(), Fail> {
    let alloc = rt.alloc();
    let file = assemble(alloc, "main: X(0)", &Form::PLAIN)?;
    let ports = Ports {
        file: &file,
        rules: b"",
        failing_reads: &[2],
        failing_puts: &[],
    };
    let failing = call_over(alloc, &["step", "p", "--suppressions=rules"], &ports)?;
    check(&rt, alloc, &failing, b"", "tsanrun: read failed\n", 5)?;
    let missing = call(alloc, &["step", "p", "--suppressions=none"], &file)?;
    check(&rt, alloc, &missing, b"", "tsanrun: read failed\n", 5)?;
    let unused = call(alloc, &["gen", "--size=0", "--suppressions=none"], &file)?;
    assert_eq!(rt; unused.ended.status, 0);
    Ok(())
}

/// A faulty or too long executable is told before the rules are read, and long rules before their faults.
#[test]
fn files_are_refused_in_order(rt: HostRuntime) -> Result<(), Fail> {
    let alloc = rt.alloc();
    let words = ["step", "p", "--suppressions=rules"];
    let faulty = Ports {
        file: b"",
        rules: b"race foo",
        failing_reads: &[],
        failing_puts: &[],
    };
    let line = "tsanrun: executable fault 1: NotElf\n";
    check(
        &rt,
        alloc,
        &call_over(alloc, &words, &faulty)?,
        b"",
        line,
        3,
    )?;
    let beside_none = ["step", "p", "--suppressions=none"];
    let refused = call(alloc, &beside_none, b"")?;
    check(&rt, alloc, &refused, b"", line, 3)?;
    let long = vec![in alloc; b'x'; 25_165_825]?;
    let too_long = call(alloc, &beside_none, &long)?;
    check(&rt, alloc, &too_long, b"", "tsanrun: file too long\n", 3)?;
    let file = assemble(alloc, "main: X(0)", &Form::PLAIN)?;
    let ports = Ports {
        file: &file,
        rules: &long,
        failing_reads: &[],
        failing_puts: &[],
    };
    let answer = call_over(alloc, &words, &ports)?;
    check(&rt, alloc, &answer, b"", "tsanrun: file too long\n", 3)
}
