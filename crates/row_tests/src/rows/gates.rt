// Runs whose threads are held back until others come as far as they can only where all go at once.
use super::reports::RACING_PROGRAM;
use super::*;
use std::sync::atomic::AtomicBool;
use std::sync::atomic::Ordering::SeqCst;
use std::thread::yield_now;
use tool_ports::Point;
use tsanrun_cli::End;

/// For how many turns a thread waits for another. Where it waits for longer the test fails.
const TURNS: u32 = 10_000_000;

/// Whether the flag is set within that many turns.
fn is_set_soon(flag: &AtomicBool) -> bool {
    for _ in 0..TURNS {
        if flag.load(SeqCst) {
            return true;
        }
        yield_now();
    }
    false
}

/// Keeps a thread until the flag is set. Where it waits in vain this is told, and nobody waits any more.
fn keep_until(flag: &AtomicBool, missed: &AtomicBool) {
    if !missed.load(SeqCst) && !is_set_soon(flag) {
        missed.store(true, SeqCst);
    }
}

/// Keeps two threads where their parts of round 1 begin until both are there.
#[derive(Drop)]
struct BothBegin {
    /// The main thread began its part of round 0.
    first_round: AtomicBool,
    /// It began its part of round 1.
    main_thread: AtomicBool,
    /// The other thread began its first part.
    other_thread: AtomicBool,
    missed: AtomicBool,
}

impl BothBegin {
    fn new() -> BothBegin {
        BothBegin {
            first_round: AtomicBool::new(false),
            main_thread: AtomicBool::new(false),
            other_thread: AtomicBool::new(false),
            missed: AtomicBool::new(false),
        }
    }

    /// Whether both threads were there, and neither waited in vain.
    fn have_met(&self) -> bool {
        self.main_thread.load(SeqCst) && self.other_thread.load(SeqCst) && !self.missed.load(SeqCst)
    }
}

impl Gate for BothBegin {
    fn at(&self, point: Point) {
        match point {
            Point::Quantum(0) => {
                if self.first_round.swap(true, SeqCst) {
                    self.main_thread.store(true, SeqCst);
                    keep_until(&self.other_thread, &self.missed);
                }
            }
            Point::Quantum(1) => {
                self.other_thread.store(true, SeqCst);
                keep_until(&self.main_thread, &self.missed);
            }
            _ => {}
        }
    }
}

/// In round 0 the main thread only makes the other, so that both have a part of round 1. The parts of that round aren't
/// made one after another.
#[test]
fn parts_of_a_round_begin_at_once(rt: HostRuntime) -> Result<(), Fail> {
    let gate = BothBegin::new();
    let row = Row {
        program: RACING_PROGRAM,
        options: &["--quantum=4"],
        ..ROW
    };
    let answer = call_row(&rt, rt.alloc(), &row, &gate)?;
    assert_eq!(rt; answer.ended.end, End::Done);
    assert!(rt; gate.have_met());
    Ok(())
}

/// Keeps thread 1 where it begins until the main thread holds stripe 0, and the main thread there until stripes 1 and 2
/// were held.
#[derive(Drop)]
struct StripesAtOnce {
    first_stripe: AtomicBool,
    second_stripe: AtomicBool,
    third_stripe: AtomicBool,
    missed: AtomicBool,
}

impl StripesAtOnce {
    fn new() -> StripesAtOnce {
        StripesAtOnce {
            first_stripe: AtomicBool::new(false),
            second_stripe: AtomicBool::new(false),
            third_stripe: AtomicBool::new(false),
            missed: AtomicBool::new(false),
        }
    }

    /// Whether the three stripes were held, and nobody waited in vain.
    fn were_held(&self) -> bool {
        self.first_stripe.load(SeqCst)
            && self.second_stripe.load(SeqCst)
            && self.third_stripe.load(SeqCst)
            && !self.missed.load(SeqCst)
    }
}

impl Gate for StripesAtOnce {
    fn at(&self, point: Point) {
        match point {
            Point::Quantum(1) => keep_until(&self.first_stripe, &self.missed),
            Point::Holding(0) => {
                self.first_stripe.store(true, SeqCst);
                keep_until(&self.second_stripe, &self.missed);
                keep_until(&self.third_stripe, &self.missed);
            }
            Point::Holding(1) => self.second_stripe.store(true, SeqCst),
            Point::Holding(2) => self.third_stripe.store(true, SeqCst),
            _ => {}
        }
    }
}

/// In round 1 the main thread announces its write at offset 48 and then stores in stripe 0, and thread 1 stores in stripes
/// 1 and 2 and then announces the same write. So one lock of all stripes doesn't do, and the race of that round is told,
/// which a copy of the cells for each thread would hide.
#[test]
fn stripes_are_held_at_once_and_cells_are_shared(rt: HostRuntime) -> Result<(), Fail> {
    let gate = StripesAtOnce::new();
    let row = Row {
        program: "main: N(a) E(write8,32) E(write8,40) E(write8,48) E(atomic64_store,0,1,3) T; a: E(atomic64_store,8,1,3) E(atomic64_store,16,1,3) E(write8,48) T",
        options: &["--quantum=30"],
        races: &[Race {
            mine: "Write of size 8 at 0x0000000001000030 by thread T1",
            stack: &[(UNKNOWN, 0x10108)],
            previous: "write of size 8 at 0x0000000001000030 by main thread",
            previous_stack: &[(UNKNOWN, 0x10070)],
        }],
        summary: (1, 0, 0, 2, "all ended"),
        status: 66,
        ..ROW
    };
    let answer = call_row(&rt, rt.alloc(), &row, &gate)?;
    assert!(rt; gate.were_held());
    check_answer(&rt, rt.alloc(), &row, &answer)
}
