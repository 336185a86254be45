// The top call.
ghost use Rattle.std.specs.Prelude.{◌≡◌, ◌≢◌, ◌⊎◌, OnOk, OnErr, IfErr, IsSomeAnd, MatchResult, ℕ, List, Some, true, false};
ghost use Rattle.std.specs.List.{flat_map};
ghost use Rattle.tool_ports.specs.Ports.{Appends, AppendsPart, Rose, HasCause};
ghost use Rattle.tsanrun_cli.specs.Ends as ends;
ghost use Rattle.tsanrun_cli.specs.Ends.{Call, Refuses, IsCause, IsDone, IsCutOff, end_of, is_refusal, unread_words_end};
ghost use Rattle.tsanrun_cli.specs.Work.{HasRun, call_of, whole_call_of, bytes_of, out_bytes, err_bytes};
ghost use Rattle.tsanrun_cli.specs.Texts.{refusal_line, is_rules};

use crate::refusals::{status_of as refusal_status, told_refusal, unread_words_end};
use crate::work::{Told, whole_work, work};
use crate::{End, Ended};
use std::alloc::Global;
use std::io::ErrorKind;
use std::sync::Wait;
use std::thread::Threads;
use tool_ports::{Files, Gate, Sink, SinkFailed};

/// Puts bytes, if there are any.
fn put_some<O: Sink>(out: &mut O, bytes: &[u8]) -> Result<(), SinkFailed>
    ensures ok { OnOk result (Appends (O.contents out.old) (O.contents out.new) bytes.now) }
    ensures err { OnErr result (AppendsPart (O.contents out.old) (O.contents out.new) bytes.now) }
    ensures cause { HasCause (O.faults out.old) (O.faults out.new) result }
{
    if bytes.is_empty() {
        return Ok(());
    }
    out.put(bytes)
}

/// Puts a line as far as it goes.
#[tactic(auto, using(crate::proofs::Complete::part_from_all))]
fn put_line<E: Sink>(err: &mut E, line: &str)
    ensures part { AppendsPart (E.contents err.old) (E.contents err.new) line.now }
    ensures whole { (Rose (E.faults err.old) (E.faults err.new) → ⊥) → Appends (E.contents err.old) (E.contents err.new) line.now }
{
    match put_some(err, line.as_bytes()) {
        Ok(()) => return,
        Err(_) => return,
    }
}

/// Puts pieces, one after another, up to the first that fails.
fn put_all<O: Sink>(out: &mut O, pieces: &[Vec<u8>]) -> Result<(), SinkFailed>
    ensures ok { OnOk result (Appends (O.contents out.old) (O.contents out.new) (flat_map bytes_of pieces.now)) }
    ensures err { OnErr result (AppendsPart (O.contents out.old) (O.contents out.new) (flat_map bytes_of pieces.now)) }
    ensures cause { HasCause (O.faults out.old) (O.faults out.new) result }
{
    for piece in pieces {
        put_some(out, piece.as_slice())?;
    }
    Ok(())
}

/// Puts a run's output on one sink, and what tells of it on the other; or what tells of it, alone, on the first.
fn write<O: Sink, E: Sink>(told: &Told, out: &mut O, err: &mut E) -> Result<(), SinkFailed>
    ensures output { OnOk result (Appends (O.contents out.old) (O.contents out.new) (out_bytes told.now)) }
    ensures texts { OnOk result (Appends (E.contents err.old) (E.contents err.new) (err_bytes told.now)) }
    ensures cause { OnErr result (Rose (O.faults out.old) (O.faults out.new) ⊎ Rose (E.faults err.old) (E.faults err.new)) }
    ensures cut { OnErr result ((AppendsPart (O.contents out.old) (O.contents out.new) (out_bytes told.now) × (E.contents err.new ≡ E.contents err.old)) ⊎ (Appends (O.contents out.old) (O.contents out.new) (out_bytes told.now) × AppendsPart (E.contents err.old) (E.contents err.new) (err_bytes told.now))) }
{
    if told.alone {
        return put_all(out, &told.texts);
    }
    if put_some(out, told.finished.output.as_slice()).is_err() {
        return Err(SinkFailed);
    }
    put_all(err, &told.texts)
}

/// What a refused call answers, once its line is put.
fn refuse<E: Sink>(alloc: Global, end: End, err: &mut E) -> Ended
    requires { is_refusal end ≡ true }
    ensures end { (result.end ≡ end) ⊎ (result.end ≡ End.NoMemory) }
    ensures fixed { is_rules end ≡ false → result.end ≡ end }
    ensures line { AppendsPart (E.contents err.old) (E.contents err.new) (refusal_line result.end) }
    ensures whole { (Rose (E.faults err.old) (E.faults err.new) → ⊥) → Appends (E.contents err.old) (E.contents err.new) (refusal_line result.end) }
    ensures kept { (result.kept ≡ None) × (result.status ≡ ends.refusal_status result.end) }
{
    let refused = told_refusal(alloc, end);
    put_line(err, refused.line.as_str());
    Ended {
        status: refusal_status(refused.end),
        end: refused.end,
        kept: None,
    }
}

/// What is answered where the words of the command line can't be read, by the kind of that error: want of
/// memory, or else the usage, since a word that isn't UTF-8 is a faulty command line.
pub fn refuse_words<E: Sink>(alloc: Global, kind: ErrorKind, err: &mut E) -> Ended
    ensures end { result.end ≡ unread_words_end kind }
    ensures line { AppendsPart (E.contents err.old) (E.contents err.new) (refusal_line result.end) }
    ensures whole { (Rose (E.faults err.old) (E.faults err.new) → ⊥)
        → Appends (E.contents err.old) (E.contents err.new) (refusal_line result.end) }
    ensures kept { (result.kept ≡ None) × (result.status ≡ ends.refusal_status result.end) }
{
    refuse(alloc, unread_words_end(kind), err)
}

/// What a call answers once its run is written, or the line that refuses it.
#[tactic(auto, using(crate::proofs::Complete::complete_from))]
fn answer<O: Sink, E: Sink>(
    alloc: Global,
    worked: Result<Told, End>,
    out: &mut O,
    err: &mut E,
) -> Ended
    requires { IfErr worked (λ end. is_refusal end ≡ true) }

    // Of each call of which that was worked out these hold.
    ensures cause { (call : Call) → MatchResult worked (HasRun call) (Refuses call)
        → IsCause call (O.faults out.old) (O.faults out.new) (E.faults err.old) (E.faults err.new) result.end }
    ensures done { (call : Call) → MatchResult worked (HasRun call) (Refuses call) → result.end ≡ End.Done
        → IsSomeAnd result.kept (IsDone call (O.contents out.old) (O.contents out.new) (E.contents err.old) (E.contents err.new) result.status) }
    ensures cut { (call : Call) → MatchResult worked (HasRun call) (Refuses call) → result.end ≡ End.WriteFault
        → IsCutOff call (O.contents out.old) (O.contents out.new) (E.contents err.old) (E.contents err.new) }
    ensures complete { (call : Call) → MatchResult worked (HasRun call) (Refuses call)
        → (told : List (List ℕ × List ℕ)) (end : End) → call.told ≡ Some told → end_of told call.asked ≡ Some end
        → (Rose call.reads_before call.reads_after → ⊥) → (Rose (O.faults out.old) (O.faults out.new) → ⊥) → (Rose (E.faults err.old) (E.faults err.new) → ⊥)
        → (result.end ≡ end) ⊎ (result.end ≡ End.NoMemory) }

    ensures output { is_refusal result.end ≡ true → O.contents out.new ≡ O.contents out.old }
    ensures line { is_refusal result.end ≡ true → AppendsPart (E.contents err.old) (E.contents err.new) (refusal_line result.end) }
    ensures whole { is_refusal result.end ≡ true → (Rose (E.faults err.old) (E.faults err.new) → ⊥) → Appends (E.contents err.old) (E.contents err.new) (refusal_line result.end) }
    ensures refused { result.end ≢ End.Done → (result.kept ≡ None) × (result.status ≡ ends.refusal_status result.end) }
{
    match worked {
        Err(end) => refuse(alloc, end, err),
        Ok(told) => match write(&told, out, err) {
            Ok(()) => Ended {
                status: told.status,
                end: End::Done,
                kept: Some(told.finished),
            },
            Err(_) => Ended {
                status: 6,
                end: End::WriteFault,
                kept: None,
            },
        },
    }
}

/// The tool's commands that wait for nobody: `run` is refused as no command.
pub fn tool_step<F: Files, O: Sink, E: Sink>(
    alloc: Global,
    words: &[String],
    files: &mut F,
    out: &mut O,
    err: &mut E,
) -> Ended
    // Why it ends so.
    ensures cause { IsCause (call_of words.now (F.contents files.old) (F.faults files.old) (F.faults files.new) (F.failed files.new))
        (O.faults out.old) (O.faults out.new) (E.faults err.old) (E.faults err.new) result.end }

    // Files that are told stay as they were.
    ensures files { F.contents files.new ≡ F.contents files.old }

    // A call that is done keeps a run that its words ask for, each of whose reports stands for a race. The guest's output was
    // appended to one sink, and the text of each report and the last line to the other; of a made program two lines to the first,
    // and so what `audit` and `locks` found.
    ensures done { result.end ≡ End.Done → IsSomeAnd result.kept (IsDone
        (call_of words.now (F.contents files.old) (F.faults files.old) (F.faults files.new) (F.failed files.new))
        (O.contents out.old) (O.contents out.new) (E.contents err.old) (E.contents err.new) result.status) }

    // Where writing failed, each sink has a part of what tells of such a run, in order.
    ensures cut { result.end ≡ End.WriteFault → IsCutOff
        (call_of words.now (F.contents files.old) (F.faults files.old) (F.faults files.new) (F.failed files.new))
        (O.contents out.old) (O.contents out.new) (E.contents err.old) (E.contents err.new) }

    // Where no read or put fails the call ends as its words and the told files say, unless memory runs out.
    ensures complete { (told : List (List ℕ × List ℕ)) (end : End)
        → F.contents files.old ≡ Some told
        → end_of told (call_of words.now (F.contents files.old) (F.faults files.old) (F.faults files.new) (F.failed files.new)).asked ≡ Some end
        → (Rose (F.faults files.old) (F.faults files.new) → ⊥) → (Rose (O.faults out.old) (O.faults out.new) → ⊥) → (Rose (E.faults err.old) (E.faults err.new) → ⊥)
        → (result.end ≡ end) ⊎ (result.end ≡ End.NoMemory) }

    // A refusal leaves the output as it was, and puts its line on the other sink, or a part of it where the put fails.
    ensures output { is_refusal result.end ≡ true → O.contents out.new ≡ O.contents out.old }
    ensures line { is_refusal result.end ≡ true → AppendsPart (E.contents err.old) (E.contents err.new) (refusal_line result.end) }
    ensures whole { is_refusal result.end ≡ true → (Rose (E.faults err.old) (E.faults err.new) → ⊥) → Appends (E.contents err.old) (E.contents err.new) (refusal_line result.end) }

    // Every other call keeps nothing, and its status is that of its end.
    ensures refused { result.end ≢ End.Done → (result.kept ≡ None) × (result.status ≡ ends.refusal_status result.end) }
{
    let worked = work(alloc, words, files);
    answer(alloc, worked, out, err)
}

/// All of the tool's commands. Those of `tool_step` are served as there, and `run` with its threads at once, which wait for one another:
/// the clauses are of what is answered.
pub fn tool<R: Threads + Wait + Sync, F: Files, O: Sink, E: Sink, G: Gate + Sync>(
    rt: &R,
    alloc: Global,
    words: &[String],
    files: &mut F,
    out: &mut O,
    err: &mut E,
    gate: &G,
) -> Ended
    // Why it ends so.
    ensures cause { IsCause (whole_call_of words.now (F.contents files.old) (F.faults files.old) (F.faults files.new) (F.failed files.new))
        (O.faults out.old) (O.faults out.new) (E.faults err.old) (E.faults err.new) result.end }

    // Files that are told stay as they were.
    ensures files { F.contents files.new ≡ F.contents files.old }

    // A call that is done keeps a run that its words ask for, each of whose reports stands for a race. The guest's output was
    // appended to one sink, and the text of each report and the last line to the other; of a made program two lines to the first,
    // and so what `audit` and `locks` found.
    ensures done { result.end ≡ End.Done → IsSomeAnd result.kept (IsDone
        (whole_call_of words.now (F.contents files.old) (F.faults files.old) (F.faults files.new) (F.failed files.new))
        (O.contents out.old) (O.contents out.new) (E.contents err.old) (E.contents err.new) result.status) }

    // Where writing failed, each sink has a part of what tells of such a run, in order.
    ensures cut { result.end ≡ End.WriteFault → IsCutOff
        (whole_call_of words.now (F.contents files.old) (F.faults files.old) (F.faults files.new) (F.failed files.new))
        (O.contents out.old) (O.contents out.new) (E.contents err.old) (E.contents err.new) }

    // Where no read or put fails the call ends as its words and the told files say, unless memory runs out.
    ensures complete { (told : List (List ℕ × List ℕ)) (end : End)
        → F.contents files.old ≡ Some told
        → end_of told (whole_call_of words.now (F.contents files.old) (F.faults files.old) (F.faults files.new) (F.failed files.new)).asked ≡ Some end
        → (Rose (F.faults files.old) (F.faults files.new) → ⊥) → (Rose (O.faults out.old) (O.faults out.new) → ⊥) → (Rose (E.faults err.old) (E.faults err.new) → ⊥)
        → (result.end ≡ end) ⊎ (result.end ≡ End.NoMemory) }

    // A refusal leaves the output as it was, and puts its line on the other sink, or a part of it where the put fails.
    ensures output { is_refusal result.end ≡ true → O.contents out.new ≡ O.contents out.old }
    ensures line { is_refusal result.end ≡ true → AppendsPart (E.contents err.old) (E.contents err.new) (refusal_line result.end) }
    ensures whole { is_refusal result.end ≡ true → (Rose (E.faults err.old) (E.faults err.new) → ⊥) → Appends (E.contents err.old) (E.contents err.new) (refusal_line result.end) }

    // Every other call keeps nothing, and its status is that of its end.
    ensures refused { result.end ≢ End.Done → (result.kept ≡ None) × (result.status ≡ ends.refusal_status result.end) }
{
    let worked = whole_work(rt, alloc, words, files, gate);
    answer(alloc, worked, out, err)
}
