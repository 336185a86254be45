// Calls that are refused, and calls whose files or sinks fail.
use super::reports::{RACING_REPORT, RACING_TEXT};
use super::*;

const STEP: [&str; 2] = ["step", "p"];

fn racing_file(alloc: Global) -> Result<Vec<u8>, AssemblyError> {
    let text = "main: N(a) E(write8,0) T; a: E(write8,0) T";
    assemble(alloc, text, &Form::PLAIN)
}

const NOT_ELF: &str = "tsanrun: executable fault 1: NotElf\n";

/// A place of the file, the byte that is put there, and what is told of it: no ELF file, one for
/// another machine, and one with compressed instructions.
static OTHER_FILES: [(usize, u8, &str); 3] = [
    (0, 0, NOT_ELF),
    (18, 62, "tsanrun: executable fault 4: NotRiscv\n"),
    (48, 1, "tsanrun: executable fault 5: Compressed\n"),
];

/// How many bytes of the file are left, and what is told of them: no whole header, no whole table,
/// and no whole code.
static SHORT_FILES: [(usize, &str); 4] = [
    (0, NOT_ELF),
    (63, NOT_ELF),
    (175, "tsanrun: executable fault 6: BadTable\n"),
    (279, "tsanrun: executable fault 8: SegmentOutside\n"),
];

#[test]
fn other_files_are_refused(rt: HostRuntime) -> Result<(), Fail> {
    let alloc = rt.alloc();
    let file = racing_file(alloc)?;
    for (place, byte, line) in OTHER_FILES.iter() {
        let mut other = file.clone()?;
        if let Some(there) = other.get_mut(*place) {
            *there = *byte;
        }
        let answer = call(alloc, &STEP, &other)?;
        check(&rt, alloc, &answer, b"", line, 3)?;
    }
    for (size, line) in SHORT_FILES.iter() {
        let mut short = file.clone()?;
        short.truncate(*size);
        let answer = call(alloc, &STEP, &short)?;
        check(&rt, alloc, &answer, b"", line, 3)?;
    }
    Ok(())
}

#[test]
fn much_data_is_refused(rt: HostRuntime) -> Result<(), Fail> {
    let alloc = rt.alloc();
    let file = assemble(alloc, "main: X(0)", &Form::Plain { room: 4_194_312 })?;
    let answer = call(alloc, &STEP, &file)?;
    let line = "tsanrun: executable fault 11: TooMuchMemory\n";
    check(&rt, alloc, &answer, b"", line, 3)
}

#[test]
fn long_files_are_refused(rt: HostRuntime) -> Result<(), Fail> {
    let alloc = rt.alloc();
    let mut long = vec![in alloc; 0u8; 25_165_825]?;
    let answer = call(alloc, &STEP, &long)?;
    check(&rt, alloc, &answer, b"", "tsanrun: file too long\n", 3)?;
    long.truncate(25_165_824);
    let answer = call(alloc, &STEP, &long)?;
    check(&rt, alloc, &answer, b"", NOT_ELF, 3)
}

#[test]
fn failed_reads_are_told(rt: HostRuntime) -> Result<(), Fail> {
    let alloc = rt.alloc();
    let file = racing_file(alloc)?;
    let missing = call(alloc, &["step", "q"], &file)?;
    check(&rt, alloc, &missing, b"", "tsanrun: read failed\n", 5)?;
    let ports = Ports {
        file: &file,
        rules: b"",
        failing_reads: &[1],
        failing_puts: &[],
    };
    let failing = call_over(alloc, &STEP, &ports)?;
    check(&rt, alloc, &failing, b"", "tsanrun: read failed\n", 5)
}

/// The put that fails and how many bytes it takes, and what stands then on `err`.
static CUT_SUMMARIES: [([(u32, u32); 1], &str); 3] = [
    ([(1, 0)], ""),
    ([(1, 9)], "tsanrun: "),
    (
        [(1, 1000)],
        "tsanrun: 0 reports, 0 suppressed, 0 equal, 1 threads, exit 3\n",
    ),
];

#[test]
fn failed_puts_end_a_run(rt: HostRuntime) -> Result<(), Fail> {
    let alloc = rt.alloc();
    let file = assemble(alloc, "main: X(3)", &Form::PLAIN)?;
    for (failing_puts, told) in CUT_SUMMARIES.iter() {
        let ports = Ports {
            file: &file,
            rules: b"",
            failing_reads: &[],
            failing_puts,
        };
        let answer = call_over(alloc, &STEP, &ports)?;
        check(&rt, alloc, &answer, b"", told, 6)?;
    }
    Ok(())
}

/// The same of a run with a report, whose text is the first put and whose last line is the second.
static CUT_REPORTS: [([(u32, u32); 1], &str); 4] = [
    ([(1, 0)], ""),
    ([(1, 9)], "========="),
    ([(2, 0)], RACING_REPORT),
    ([(2, 1000)], RACING_TEXT),
];

#[test]
fn failed_puts_end_a_run_with_reports(rt: HostRuntime) -> Result<(), Fail> {
    let alloc = rt.alloc();
    let file = racing_file(alloc)?;
    for (failing_puts, told) in CUT_REPORTS.iter() {
        let ports = Ports {
            file: &file,
            rules: b"",
            failing_reads: &[],
            failing_puts,
        };
        let answer = call_over(alloc, &STEP, &ports)?;
        check(&rt, alloc, &answer, b"", told, 6)?;
        assert!(rt; answer.ended.kept.is_none());
    }
    Ok(())
}

#[test]
fn failed_puts_leave_a_refusal(rt: HostRuntime) -> Result<(), Fail> {
    let alloc = rt.alloc();
    let ports = Ports {
        file: b"",
        rules: b"",
        failing_reads: &[],
        failing_puts: &[(1, 9)],
    };
    let answer = call_over(alloc, &STEP, &ports)?;
    check(&rt, alloc, &answer, b"", "tsanrun: ", 3)
}
