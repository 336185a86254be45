// What is written of a run.
ghost use Rattle.std.specs.Prelude.{◌≡◌, ◌++◌, OnOk, IfOk, ℕ, string_bytes};
ghost use Rattle.report_text.specs.Texts as texts;
ghost use Rattle.symbol_lines.specs.FileTexts.{text_of as file_text};

use run_record::{Finished, GuestEnd, KeptLock, NoMemory, Places, Report, Side};
use std::alloc::{AllocError, Global};
use symbol_lines::{FileText, Frame, Frames};

fn write_who(text: &mut String, tid: u32) -> Result<(), AllocError>
    ensures { OnOk result (string_bytes text.new ≡ string_bytes text.old ++ texts.who tid) }
{
    if tid == 0 {
        text.push_str("main thread")
    } else {
        write!(text, "thread T{tid}")
    }
}

fn kind_of(side: &Side) -> &'static str
    ensures { result.now ≡ texts.kind side.now }
{
    match (side.atomic, side.read) {
        (true, true) => "Atomic read",
        (true, false) => "Atomic write",
        (false, true) => "Read",
        (false, false) => "Write",
    }
}

fn previous_kind_of(side: &Side) -> &'static str
    ensures { result.now ≡ texts.previous_kind side.now }
{
    match (side.atomic, side.read) {
        (true, true) => "atomic read",
        (true, false) => "atomic write",
        (false, true) => "read",
        (false, false) => "write",
    }
}

fn write_lock(text: &mut String, before: &str, lock: KeptLock) -> Result<(), AllocError>
    ensures { OnOk result (string_bytes text.new ≡ string_bytes text.old ++ (before.now ++ texts.lock_text lock)) }
{
    let addr = lock.addr;
    if lock.read {
        write!(text, "{before}read 0x{addr:016x}")
    } else {
        write!(text, "{before}write 0x{addr:016x}")
    }
}

fn write_locks(text: &mut String, locks: &[KeptLock]) -> Result<(), AllocError>
    ensures { OnOk result (string_bytes text.new ≡ string_bytes text.old ++ texts.locks_text locks.now) }
{
    let Some((first, rest)) = locks.split_first() else {
        return Ok(());
    };
    write_lock(text, " (mutexes: ", *first)?;
    for lock in rest {
        write_lock(text, ", ", *lock)?;
    }
    text.push_str(")")
}

fn write_line(text: &mut String, file: FileText<'_>, line: u64) -> Result<(), AllocError>
    ensures { OnOk result (string_bytes text.new ≡ string_bytes text.old ++ texts.line_text (file_text file.entry) line) }
{
    let name = file.name;
    match file.directory {
        Some(directory) => write!(text, "{directory}/{name}:{line}"),
        None => {
            if name.is_empty() {
                text.push_str("??:0")
            } else {
                write!(text, "{name}:{line}")
            }
        }
    }
}

/// A code place: its function, file and line, and its address.
pub(crate) fn write_place(text: &mut String, place: u64, frame: Frame<'_>) -> Result<(), AllocError>
    ensures { OnOk result (string_bytes text.new ≡ string_bytes text.old
        ++ texts.place_text place (record { name = frame.entry.name.now; file = file_text frame.entry.file; line = frame.entry.line })) }
{
    let Frame { name, file, line } = frame;
    let name = if name.is_empty() { "??" } else { name };
    write!(text, "{name} ")?;
    write_line(text, file, line)?;
    write!(text, " (0x{place:016x})")
}

fn write_frame(
    text: &mut String,
    number: usize,
    place: u64,
    frame: Frame<'_>,
) -> Result<(), AllocError>
    ensures { OnOk result (string_bytes text.new ≡ string_bytes text.old
        ++ texts.frame_line number place (record { name = frame.entry.name.now; file = file_text frame.entry.file; line = frame.entry.line })) }
{
    write!(text, "    #{number} ")?;
    write_place(text, place, frame)?;
    text.push_str("\n")
}

fn write_stack<F: Frames>(
    text: &mut String,
    frames: &F,
    stack: &Option<Places>,
) -> Result<(), AllocError>
    ensures { OnOk result (string_bytes text.new ≡ string_bytes text.old ++ texts.stack_text (F.frame_of frames.now) stack.now) }
{
    let Some(places) = stack else {
        return text.push_str("    [failed to restore the stack]\n");
    };
    let places = places.as_slice();
    for (number, place) in places.iter().enumerate() {
        write_frame(text, number, *place, frames.frame(*place))?;
    }
    Ok(())
}

fn write_side<F: Frames>(
    text: &mut String,
    frames: &F,
    kind: &str,
    side: &Side,
) -> Result<(), AllocError>
    ensures { OnOk result (string_bytes text.new ≡ string_bytes text.old ++ texts.side_text (F.frame_of frames.now) kind.now side.now) }
{
    let size = side.size;
    let addr = side.addr;
    write!(text, "{kind} of size {size} at 0x{addr:016x} by ")?;
    write_who(text, side.tid)?;
    if side.stack.is_some() {
        write_locks(text, side.locks.as_slice())?;
    }
    text.push_str(":\n")?;
    write_stack(text, frames, &side.stack)
}

/// A warning of two accesses, whose lines each end with a newline.
pub(crate) fn warning_text<F: Frames>(
    alloc: Global,
    warning: &str,
    mine: &Side,
    previous: &Side,
    frames: &F,
) -> Result<Vec<u8>, NoMemory>
    ensures { IfOk result (λ text. text.items
        ≡ texts.warning_text (F.frame_of frames.now) warning.now mine.now previous.now) }
{
    let mut text = format!(in alloc; "==================\nWARNING: {warning}\n  ")?;
    write_side(&mut text, frames, kind_of(mine), mine)?;
    text.push_str("  Previous ")?;
    write_side(&mut text, frames, previous_kind_of(previous), previous)?;
    text.push_str("==================\n")?;
    Ok(text.into_bytes())
}

/// The text of a report, whose lines each end with a newline.
pub fn text_of<F: Frames>(alloc: Global, report: &Report, frames: &F) -> Result<Vec<u8>, NoMemory>
    ensures { IfOk result (λ text. text.items ≡ texts.report_text (F.frame_of frames.now) report.now) }
{
    warning_text(
        alloc,
        "ThreadSanitizer: data race",
        &report.mine,
        &report.previous,
        frames,
    )
}

fn write_end(text: &mut String, end: GuestEnd) -> Result<(), AllocError>
    ensures { OnOk result (string_bytes text.new ≡ string_bytes text.old ++ texts.end_text end) }
{
    match end {
        GuestEnd::Exit(status) => write!(text, "exit {status}"),
        GuestEnd::Fault { fault, pc, tid } => {
            write!(text, "fault {fault} at 0x{pc:016x} by ")?;
            write_who(text, tid)
        }
        GuestEnd::AllEnded => text.push_str("all ended"),
        GuestEnd::Budget => text.push_str("budget spent"),
    }
}

/// The last line of a run, with its newline: how many reports, suppressed and equal races, and threads
/// there were, and how the run ended.
pub fn summary(alloc: Global, finished: &Finished) -> Result<Vec<u8>, NoMemory>
    ensures { IfOk result (λ text. text.items ≡ texts.summary_of finished.now) }
{
    let reports = finished.reports.len();
    let suppressed = finished.suppressed;
    let equal = finished.equal;
    let threads = finished.last.threads;
    let mut text = format!(in alloc;
        "tsanrun: {reports} reports, {suppressed} suppressed, {equal} equal, {threads} threads, "
    )?;
    write_end(&mut text, finished.last.end)?;
    text.push_str("\n")?;
    Ok(text.into_bytes())
}
