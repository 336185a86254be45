//! Runs the executables of `examples/` and prints the words of each run, what it wrote, and its status.
//!
//! Below it stand the top call (`tsanrun_cli`) and files and sinks (`tool_ports`). No layer stands above.
//! The executables lie in `data/`, and what the program prints is compared with the file `stdout`, whose
//! lines were read against the C sources.
#![tactic(auto)]

use std::alloc::{AllocError, Global};
use std::io;
use std::io::Write;
use std::rt::Files as FileSystem;
use std::sync::Wait;
use std::thread::Threads;
use tool_ports::{Files, HostFiles, MemorySink, OpenGate};
use tsanrun_cli::tool;

/// Each run: its command, an executable, and an option or none. By `run` only those whose bytes no schedule changes.
const RUNS: [(&str, &str, &str); 13] = [
    ("step", "counter.elf", ""),
    ("step", "counter_mutex.elf", ""),
    ("step", "message.elf", ""),
    ("step", "message_relaxed.elf", ""),
    ("step", "bounded_queue.elf", ""),
    ("step", "bounded_queue_mistake.elf", ""),
    ("step", "use_after_free.elf", ""),
    ("step", "lazy.elf", ""),
    ("step", "lazy_right.elf", ""),
    ("step", "sometimes.elf", ""),
    ("step", "sometimes.elf", "--quantum=100"),
    ("run", "counter_mutex.elf", ""),
    ("run", "message.elf", ""),
];

/// How many bytes a run may put on a sink; one that puts more ends with status 6.
const ROOM: usize = 8192;

/// What a run put on its two sinks, and its status.
#[derive(Drop)]
struct Written {
    output: MemorySink,
    reports: MemorySink,
    status: u8,
}

/// The command, the file, and the option behind them.
fn words_of(
    alloc: Global,
    command: &str,
    file: &str,
    option: &str,
) -> Result<Vec<String>, AllocError> {
    let mut words = Vec::new(alloc);
    words.push(String::from_str(alloc, command)?)?;
    words.push(String::from_str(alloc, file)?)?;
    if !option.is_empty() {
        words.push(String::from_str(alloc, option)?)?;
    }
    Ok(words)
}

fn run<R: Threads + Wait + Sync, F: Files>(
    rt: &R,
    alloc: Global,
    command: &str,
    file: &str,
    option: &str,
    files: &mut F,
) -> Result<Written, AllocError> {
    let words = words_of(alloc, command, file, option)?;
    let mut output = MemorySink::new(alloc, ROOM, &[])?;
    let mut reports = MemorySink::new(alloc, ROOM, &[])?;
    let ended = tool(
        rt,
        alloc,
        words.as_slice(),
        files,
        &mut output,
        &mut reports,
        &OpenGate,
    );
    Ok(Written {
        output,
        reports,
        status: ended.status,
    })
}

fn print<W: Write>(
    to: &mut W,
    command: &str,
    file: &str,
    option: &str,
    written: &Written,
) -> io::Result<()> {
    let space = if option.is_empty() { "" } else { " " };
    writeln!(to, "words: {command} {file}{space}{option}\noutput:")?;
    to.write_all(written.output.bytes())?;
    writeln!(to, "reports:")?;
    to.write_all(written.reports.bytes())?;
    writeln!(to, "status: {}\n", written.status)
}

fn run_all<R: FileSystem + Print + AllocGlobal + Threads + Wait + Sync>(rt: &R) -> io::Result<()> {
    let mut files = HostFiles::new(rt, rt.alloc());
    for (command, file, option) in RUNS {
        let written = run(rt, rt.alloc(), command, file, option, &mut files)?;
        print(&mut io::writer(rt), command, file, option, &written)?;
    }
    Ok(())
}

fn main(rt: HostRuntime) -> io::Result<()> {
    run_all(&rt)
}
