ghost use Rattle.std.specs.Prelude.{◌≡◌};

use super::*;
use std::test::Fail;

fn limits(harts: u32, slots: u32, epochs: u16) -> Limits
    ensures harts { result.harts ≡ harts }
    ensures slots { result.slots ≡ slots }
    ensures epochs { result.epochs ≡ epochs }
{
    Limits {
        harts,
        slots,
        epochs,
        steps: 1_000_000,
        quantum: 1_000,
        parts: 8,
        part_words: 512,
    }
}

// The calls with conditions, each made only where its condition is seen to hold.

fn attach(desk: &mut Desk, tid: u32, clock: &mut Clock) -> Attached {
    if !desk.lives(tid) || desk.held(tid).is_some() || clock.slots() != desk.slots.len() {
        return Attached::None;
    }
    desk.attach(tid, clock)
}

// The thread makes a release, and leaves its slot where the greatest epoch is over.
fn release(desk: &mut Desk, tid: u32, clock: &mut Clock) {
    let Some((sid, _)) = desk.held(tid) else {
        return;
    };
    if !desk.lives(tid) || clock.slots() != desk.slots.len() {
        return;
    }
    let epoch = clock.get(sid);
    if epoch == desk.greatest {
        desk.detach(tid, clock);
    } else if epoch < desk.greatest {
        clock.set(sid, epoch + 1);
    }
}

fn create(desk: &mut Desk, by: u32, clock: &Clock) -> Created {
    if !desk.lives(by) || clock.slots() != desk.slots.len() {
        return Created::Full;
    }
    desk.create(by, clock)
}

fn begin(desk: &mut Desk, tid: u32, clock: &mut Clock) {
    if desk.lives(tid) && clock.slots() == desk.slots.len() {
        desk.begin(tid, clock);
    }
}

fn end(desk: &mut Desk, tid: u32, clock: &Clock) {
    let Some((sid, since)) = desk.held(tid) else {
        return;
    };
    if !desk.lives(tid) || clock.slots() != desk.slots.len() {
        return;
    }
    let epoch = clock.get(sid);
    if since <= epoch && epoch <= desk.greatest {
        desk.end(tid, clock);
    }
}

fn join(desk: &mut Desk, of: u64, clock: &mut Clock) -> Joined {
    if clock.slots() != desk.slots.len() {
        return Joined::NoSuch;
    }
    desk.join_thread(of, clock)
}

#[test]
fn spent_slots_are_left(rt: HostRuntime) -> Result<(), Fail> {
    let mut desk = Desk::new(rt.alloc(), &limits(1, 3, 2))?;
    let mut clock = Clock::new(rt.alloc(), 3)?;
    assert_eq!(rt; attach(&mut desk, 0, &mut clock), Attached::Slot(0, 1));
    release(&mut desk, 0, &mut clock);
    release(&mut desk, 0, &mut clock);
    assert_eq!(rt; desk.held(0), None);
    assert_eq!(rt; attach(&mut desk, 0, &mut clock), Attached::Slot(1, 1));
    release(&mut desk, 0, &mut clock);
    release(&mut desk, 0, &mut clock);
    assert_eq!(rt; attach(&mut desk, 0, &mut clock), Attached::Slot(2, 1));
    assert_eq!(rt; desk.held(0), Some((2, 1)));
    assert_eq!(rt;
        (
            desk.owner_of(0, 1),
            desk.owner_of(1, 2),
            desk.owner_of(2, 0)
        ),
        (Some(0), Some(0), None)
    );
    Ok(())
}

#[test]
fn a_slot_goes_on_to_the_next_thread(rt: HostRuntime) -> Result<(), Fail> {
    let mut desk = Desk::new(rt.alloc(), &limits(2, 2, 9))?;
    let mut main = Clock::new(rt.alloc(), 2)?;
    let mut first = Clock::new(rt.alloc(), 2)?;
    let mut second = Clock::new(rt.alloc(), 2)?;
    assert_eq!(rt; attach(&mut desk, 0, &mut main), Attached::Slot(0, 1));
    assert_eq!(rt; create(&mut desk, 0, &main), Created::Thread(1));
    release(&mut desk, 0, &mut main);
    assert_eq!(rt; create(&mut desk, 0, &main), Created::Full);
    assert_eq!(rt; attach(&mut desk, 1, &mut first), Attached::Slot(1, 1));
    begin(&mut desk, 1, &mut first);
    assert_eq!(rt;
        (first.slots(), join(&mut desk, 1, &mut main)),
        (2, Joined::Living)
    );
    release(&mut desk, 1, &mut first);
    release(&mut desk, 1, &mut first);
    end(&mut desk, 1, &first);
    assert_eq!(rt; join(&mut desk, 1, &mut main), Joined::Done);
    assert_eq!(rt; (desk.living(), desk.lives_if_made(2)), (1, None));
    assert_eq!(rt; create(&mut desk, 0, &main), Created::Thread(2));
    assert_eq!(rt; (desk.living(), desk.lives_if_made(2)), (2, Some(true)));
    assert_eq!(rt; desk.lives_if_made(1), Some(false));
    assert_eq!(rt; attach(&mut desk, 2, &mut second), Attached::Slot(1, 4));
    assert_eq!(rt;
        (
            desk.owner_of(1, 0),
            desk.owner_of(1, 3),
            desk.owner_of(1, 4)
        ),
        (None, Some(1), Some(2))
    );
    assert_eq!(rt; (main.slots(), second.slots()), (2, 2));
    assert_eq!(rt;
        (main.get(0), main.get(1), second.get(0), second.get(1)),
        (2, 3, 1, 4)
    );
    Ok(())
}

// How often an era ends where threads end one after another, of which each slot has two.
fn eras_of_all_threads(alloc: Global, desk: &mut Desk, main: &mut Clock) -> Result<u32, NoMemory> {
    let mut eras = 1u32;
    for tid in 1..1024 {
        let mut clock = Clock::new(alloc, 2)?;
        if create(desk, 0, main) != Created::Thread(tid) {
            return Ok(0);
        }
        if attach(desk, tid, &mut clock) == Attached::None {
            desk.reset();
            main.clear();
            clock.clear();
            attach(desk, 0, main);
            attach(desk, tid, &mut clock);
            eras = eras.saturating_add(1);
        }
        end(desk, tid, &clock);
    }
    Ok(eras)
}

#[test]
fn all_threads_come_and_go(rt: HostRuntime) -> Result<(), Fail> {
    let mut desk = Desk::new(rt.alloc(), &limits(2, 2, 2))?;
    let mut main = Clock::new(rt.alloc(), 2)?;
    attach(&mut desk, 0, &mut main);
    assert_eq!(rt; eras_of_all_threads(rt.alloc(), &mut desk, &mut main)?, 512);
    assert_eq!(rt; create(&mut desk, 0, &main), Created::Full);
    assert_eq!(rt;
        (desk.lives(0), desk.lives(1023), desk.lives(1024)),
        (true, false, false)
    );
    assert_eq!(rt; join(&mut desk, 1023, &mut main), Joined::Done);
    assert_eq!(rt; join(&mut desk, 1024, &mut main), Joined::NoSuch);
    Ok(())
}
