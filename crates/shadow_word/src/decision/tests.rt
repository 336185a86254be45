// Checks of an access of slot 1 at epoch 5 in era 2, whose thread knows epoch 4 of slot 2.
ghost use Rattle.std.specs.Prelude.{◌≡◌, ◌<◌, ◌↔◌, length, All, IsTrue, IfOk};
ghost use Rattle.run_laws.specs.Words.{sid};

use super::*;
use crate::pack;
use run_record::NoMemory;
use std::alloc::Global;
use std::process::Abort;

const WRITE: Cell = Cell {
    mask: 0x0f,
    sid: 1,
    epoch: 5,
    read: false,
    atomic: false,
    era: 2,
};

const READ: Cell = Cell {
    mask: 0x0f,
    sid: 1,
    epoch: 5,
    read: true,
    atomic: false,
    era: 2,
};

fn knowing(alloc: Global) -> Result<Clock, NoMemory>
    ensures { IfOk result (λ clock. length clock ≡ 8) }
{
    let mut clock = Clock::new(alloc, 8)?;
    clock.set(2, 4);
    Ok(clock)
}

fn are_in_clock(words: &[u64; 4]) -> bool
    ensures { IsTrue result ↔ All (λ w. sid w < 8) words.now }
{
    words.iter().all(|word| sid_of(*word) < 8)
}

// The race, the place and the repeat, where it is cell 3's turn.
fn found(
    rt: &impl Abort,
    clock: &Clock,
    current: Cell,
    words: [u64; 4],
) -> (Option<u8>, Option<u8>, bool)
    requires { length clock.now ≡ 8 }
{
    assert!(rt; are_in_clock(&words));
    let decision = decide(current, words, clock, 3);
    (decision.race, decision.store, decision.repeat)
}

#[test]
fn finds_the_first_race(rt: HostRuntime) -> Result<(), NoMemory> {
    let clock = knowing(rt.alloc())?;
    let unknown = pack(Cell { sid: 2, ..WRITE });
    let known = pack(Cell {
        sid: 2,
        epoch: 4,
        ..WRITE
    });
    let never_met = pack(Cell {
        sid: 3,
        epoch: 1,
        ..WRITE
    });
    assert_eq!(rt;
        found(&rt, &clock, WRITE, [unknown, 0, 0, 0]),
        (Some(0), Some(1), false)
    );
    assert_eq!(rt;
        found(&rt, &clock, WRITE, [known, 0, 0, 0]),
        (None, Some(1), false)
    );
    assert_eq!(rt;
        found(&rt, &clock, WRITE, [known, unknown, never_met, 0]),
        (Some(1), Some(3), false)
    );
    Ok(())
}

#[test]
fn passes_over_what_cannot_race(rt: HostRuntime) -> Result<(), NoMemory> {
    let clock = knowing(rt.alloc())?;
    let apart = pack(Cell {
        sid: 3,
        mask: 0xf0,
        ..WRITE
    });
    let own = pack(Cell {
        epoch: 9,
        mask: 0x01,
        ..WRITE
    });
    let reader = pack(Cell { sid: 3, ..READ });
    let atomic = Cell {
        atomic: true,
        ..WRITE
    };
    let atomic_of_other = pack(Cell { sid: 3, ..atomic });
    let older = pack(Cell {
        sid: 3,
        era: 1,
        ..WRITE
    });
    assert_eq!(rt;
        found(&rt, &clock, WRITE, [apart, own, 0, 0]),
        (None, Some(2), false)
    );
    assert_eq!(rt;
        found(&rt, &clock, READ, [reader, 0, 0, 0]),
        (None, Some(1), false)
    );
    assert_eq!(rt;
        found(&rt, &clock, WRITE, [reader, 0, 0, 0]),
        (Some(0), Some(1), false)
    );
    assert_eq!(rt;
        found(&rt, &clock, atomic, [atomic_of_other, 0, 0, 0]),
        (None, Some(1), false)
    );
    assert_eq!(rt;
        found(&rt, &clock, WRITE, [atomic_of_other, 0, 0, 0]),
        (Some(0), Some(1), false)
    );
    assert_eq!(rt;
        found(&rt, &clock, WRITE, [older, 0, 0, 0]),
        (None, Some(0), false)
    );
    Ok(())
}

#[test]
fn repeats_what_is_told(rt: HostRuntime) -> Result<(), NoMemory> {
    let clock = knowing(rt.alloc())?;
    let older = pack(Cell { era: 1, ..WRITE });
    assert_eq!(rt;
        found(&rt, &clock, WRITE, [0, pack(WRITE), 0, 0]),
        (None, None, true)
    );
    assert_eq!(rt;
        found(&rt, &clock, READ, [pack(WRITE), 0, 0, 0]),
        (None, None, true)
    );
    assert_eq!(rt;
        found(&rt, &clock, WRITE, [pack(READ), 0, 0, 0]),
        (None, Some(1), false)
    );
    assert_eq!(rt;
        found(&rt, &clock, WRITE, [older, 0, 0, 0]),
        (None, Some(0), false)
    );
    Ok(())
}

#[test]
fn overwrites_what_is_no_stronger(rt: HostRuntime) -> Result<(), NoMemory> {
    let clock = knowing(rt.alloc())?;
    let reader = pack(Cell { sid: 3, ..READ });
    let weaker = pack(Cell { epoch: 4, ..READ });
    let stronger = pack(Cell { epoch: 4, ..WRITE });
    assert_eq!(rt;
        found(&rt, &clock, READ, [reader, weaker, reader, reader]),
        (None, Some(1), false)
    );
    assert_eq!(rt;
        found(&rt, &clock, READ, [reader, stronger, reader, reader]),
        (None, Some(3), false)
    );
    assert_eq!(rt;
        found(&rt, &clock, READ, [reader, reader, reader, reader]),
        (None, Some(3), false)
    );
    Ok(())
}
