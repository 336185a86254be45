// Runs of the command over files and sinks in memory.
mod audits;
mod closure;
mod counted;
mod endings;
mod gates;
mod line_tables;
mod locks;
mod made;
mod named;
mod plans;
mod random;
mod refusals;
mod reports;
mod rounds;
mod threads;
mod words;

use crate::{AssemblyError, Form, assemble};
use std::alloc::{AllocError, Global};
use std::process::Abort;
use std::sync::Wait;
use std::test::Fail;
use std::thread::Threads;
use tool_ports::{Gate, MemoryFiles, MemorySink, OpenGate};
use tsanrun_cli::{Ended, tool, tool_step};

/// What a call of the command leaves.
#[derive(Drop)]
struct Answer {
    out: MemorySink,
    err: MemorySink,
    ended: Ended,
}

/// The files of a call, and what fails in it.
#[derive(Clone, Copy)]
struct Ports<'a> {
    /// The bytes of the file `p`.
    file: &'a [u8],
    /// The bytes of the file `rules`.
    rules: &'a [u8],
    /// The numbers of the reads that fail.
    failing_reads: &'a [u32],
    /// The numbers of the puts on `err` that fail, and how many bytes they take.
    failing_puts: &'a [(u32, u32)],
}

/// How many bytes each sink takes.
const ROOM: usize = 0x40000;

/// Calls the command over the file `p`, and nothing that fails.
fn call(alloc: Global, words: &[&str], file: &[u8]) -> Result<Answer, Fail> {
    let ports = Ports {
        file,
        rules: b"",
        failing_reads: &[],
        failing_puts: &[],
    };
    call_over(alloc, words, &ports)
}

fn call_over(alloc: Global, words: &[&str], ports: &Ports<'_>) -> Result<Answer, Fail> {
    let mut given = Vec::new(alloc);
    for word in words {
        given.push(String::from_str(alloc, word)?)?;
    }
    call_words(alloc, &given, ports)
}

fn files_of(alloc: Global, ports: &Ports<'_>) -> Result<MemoryFiles, Fail> {
    let mut files = MemoryFiles::new(alloc, ports.failing_reads)?;
    files.add("p", ports.file)?;
    files.add("rules", ports.rules)?;
    Ok(files)
}

fn call_words(alloc: Global, given: &[String], ports: &Ports<'_>) -> Result<Answer, Fail> {
    let mut files = files_of(alloc, ports)?;
    let mut out = MemorySink::new(alloc, ROOM, &[])?;
    let mut err = MemorySink::new(alloc, ROOM, ports.failing_puts)?;
    let ended = tool_step(alloc, given, &mut files, &mut out, &mut err);
    Ok(Answer { out, err, ended })
}

/// Calls the command that also runs threads at once, which that gate holds back.
fn call_gated<R: Threads + Wait + Sync, G: Gate + Sync>(
    rt: &R,
    alloc: Global,
    given: &[String],
    ports: &Ports<'_>,
    gate: &G,
) -> Result<Answer, Fail> {
    let mut files = files_of(alloc, ports)?;
    let mut out = MemorySink::new(alloc, ROOM, &[])?;
    let mut err = MemorySink::new(alloc, ROOM, ports.failing_puts)?;
    let ended = tool(rt, alloc, given, &mut files, &mut out, &mut err, gate);
    Ok(Answer { out, err, ended })
}

/// The same with nobody held back.
fn call_whole<R: Threads + Wait + Sync>(
    rt: &R,
    alloc: Global,
    given: &[String],
    ports: &Ports<'_>,
) -> Result<Answer, Fail> {
    call_gated(rt, alloc, given, ports, &OpenGate)
}

/// Looks at both sinks and at the status.
fn check<R: Abort>(
    rt: &R,
    alloc: Global,
    answer: &Answer,
    out: &[u8],
    err: &str,
    status: u8,
) -> Result<(), Fail> {
    let told = String::from_utf8_lossy(alloc, answer.err.bytes())?;
    assert_eq!(rt; told.as_str(), err);
    assert_eq!(rt; answer.out.bytes(), out, "beside {err}");
    assert_eq!(rt; answer.ended.status, status, "beside {err}");
    Ok(())
}

/// A frame of a stack: its name, file and line, and its place.
type Frame<'a> = (&'a str, u64);

/// How a frame without a name, a file and a line is told.
const UNKNOWN: &str = "?? ??:0";

/// A report: its two accesses as they are told, and their stacks. A stack that was lost is empty.
#[derive(Clone, Copy)]
struct Race<'a> {
    mine: &'a str,
    stack: &'a [Frame<'a>],
    previous: &'a str,
    previous_stack: &'a [Frame<'a>],
}

/// A worked row: a program, and what `step p` with some options writes and answers.
#[derive(Clone, Copy)]
struct Row<'a> {
    program: &'a str,
    form: Form<'a>,
    options: &'a [&'a str],
    rules: &'a str,
    out: &'a [u8],
    races: &'a [Race<'a>],
    /// How many reports there are, how many were suppressed and how many were equal to another, how
    /// many threads there were, and the run's end.
    summary: (u32, u32, u32, u32, &'a str),
    status: u8,
}

/// A row of which a table says what differs.
const ROW: Row<'static> = Row {
    program: "",
    form: Form::PLAIN,
    options: &[],
    rules: "",
    out: b"",
    races: &[],
    summary: (0, 0, 0, 1, "all ended"),
    status: 0,
};

const BAR: &str = "==================\n";

fn add_stack(text: &mut String, stack: &[Frame<'_>]) -> Result<(), AllocError> {
    if stack.is_empty() {
        return text.push_str("    [failed to restore the stack]\n");
    }
    for (number, (name, place)) in stack.iter().enumerate() {
        write!(text, "    #{number} {name} (0x{place:016x})\n")?;
    }
    Ok(())
}

fn add_race(text: &mut String, race: &Race<'_>) -> Result<(), AllocError> {
    let mine = race.mine;
    let previous = race.previous;
    write!(
        text,
        "{BAR}WARNING: ThreadSanitizer: data race\n  {mine}:\n"
    )?;
    add_stack(text, race.stack)?;
    write!(text, "  Previous {previous}:\n")?;
    add_stack(text, race.previous_stack)?;
    text.push_str(BAR)
}

/// What a row has on `err`.
fn told(alloc: Global, row: &Row<'_>) -> Result<String, AllocError> {
    let mut text = String::new(alloc);
    for race in row.races {
        add_race(&mut text, race)?;
    }
    let (reports, suppressed, equal, threads, end) = row.summary;
    write!(
        text,
        "tsanrun: {reports} reports, {suppressed} suppressed, {equal} equal, {threads} threads, {end}\n"
    )?;
    Ok(text)
}

/// The words of a row's call by that command.
fn words_by(alloc: Global, command: &str, row: &Row<'_>) -> Result<Vec<String>, AllocError> {
    let mut words = Vec::new(alloc);
    words.push(String::from_str(alloc, command)?)?;
    words.push(String::from_str(alloc, "p")?)?;
    for option in row.options {
        words.push(String::from_str(alloc, option)?)?;
    }
    Ok(words)
}

/// The files of a row's call.
fn ports_by<'a>(file: &'a [u8], rules: &'a str) -> Ports<'a> {
    Ports {
        file,
        rules: rules.as_bytes(),
        failing_reads: &[],
        failing_puts: &[],
    }
}

/// Looks at what a row's call wrote and answered.
fn check_answer<R: Abort>(
    rt: &R,
    alloc: Global,
    row: &Row<'_>,
    answer: &Answer,
) -> Result<(), Fail> {
    let told = told(alloc, row)?;
    check(rt, alloc, answer, row.out, told.as_str(), row.status)
}

/// A row by `step`.
fn check_row<R: Abort>(rt: &R, alloc: Global, row: &Row<'_>) -> Result<(), Fail> {
    let file = assemble(alloc, row.program, &row.form)?;
    let words = words_by(alloc, "step", row)?;
    let answer = call_words(alloc, &words, &ports_by(&file, row.rules))?;
    check_answer(rt, alloc, row, &answer)
}

/// Calls `run` for a row, whose threads that gate holds back.
fn call_row<R: Threads + Wait + Sync, G: Gate + Sync>(
    rt: &R,
    alloc: Global,
    row: &Row<'_>,
    gate: &G,
) -> Result<Answer, Fail> {
    let file = assemble(alloc, row.program, &row.form)?;
    let words = words_by(alloc, "run", row)?;
    call_gated(rt, alloc, &words, &ports_by(&file, row.rules), gate)
}

/// A row by `run`.
fn check_at_once<R: Abort + Threads + Wait + Sync>(
    rt: &R,
    alloc: Global,
    row: &Row<'_>,
) -> Result<(), Fail> {
    let answer = call_row(rt, alloc, row, &OpenGate)?;
    check_answer(rt, alloc, row, &answer)
}

/// A row whose answer no schedule changes, by both commands.
fn check_both<R: Abort + Threads + Wait + Sync>(
    rt: &R,
    alloc: Global,
    row: &Row<'_>,
) -> Result<(), Fail> {
    check_row(rt, alloc, row)?;
    check_at_once(rt, alloc, row)
}
