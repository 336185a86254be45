// Rounds of threads at once: what stands in the record where the schedule decides.
use super::threads::COUNTER;
use super::*;
use run_record::{Event, Finished, GuestEnd};

/// Four threads under a lock, each round of few instructions: how often they wait for it depends on the schedule, and
/// their count doesn't.
#[test]
fn a_lock_keeps_a_count_at_once(rt: HostRuntime) -> Result<(), Fail> {
    let row = Row {
        program: COUNTER,
        form: Form::NAMED,
        options: &["--quantum=100", "--steps=8000000"],
        out: b"\xa0\x0f",
        summary: (0, 0, 0, 4, "exit 0"),
        ..ROW
    };
    check_at_once(&rt, rt.alloc(), &row)
}

/// The places and threads of the entries in which a thread ended: round, stamp and thread.
fn ends_in(alloc: Global, finished: &Finished) -> Result<Vec<(u32, u64, u32)>, Fail> {
    let mut ends = Vec::new(alloc);
    for entry in finished.history.entries.to_vec(alloc)?.as_slice() {
        if entry.events.as_slice().contains(&Event::End) {
            ends.push((entry.round, entry.stamp, entry.tid))?;
        }
    }
    Ok(ends)
}

/// The main thread's exit and the other's fault stand in one round, and the run's end is the one that stands first.
#[test]
fn the_first_end_of_a_round_counts(rt: HostRuntime) -> Result<(), Fail> {
    let alloc = rt.alloc();
    let row = Row {
        program: "main: N(a) X(3); a: I",
        options: &["--quantum=4"],
        ..ROW
    };
    let answer = call_row(&rt, alloc, &row, &OpenGate)?;
    let Some(finished) = &answer.ended.kept else {
        panic!(rt; "nothing is kept");
    };
    let ends = ends_in(alloc, finished)?;
    let [(round, stamp, tid), (other_round, other_stamp, other_tid)] = ends.as_slice() else {
        panic!(rt; "there aren't two ends");
    };
    assert_eq!(rt; (*round, *other_round), (1, 1));
    let is_main_first = if (*stamp, *tid) < (*other_stamp, *other_tid) {
        *tid == 0
    } else {
        *other_tid == 0
    };
    let fault = GuestEnd::Fault {
        fault: 1,
        pc: 0x1001c,
        tid: 1,
    };
    let (end, status) = if is_main_first {
        (GuestEnd::Exit(3), 1)
    } else {
        (fault, 9)
    };
    assert_eq!(rt; finished.last.end, end);
    assert_eq!(rt; answer.ended.status, status);
    Ok(())
}
