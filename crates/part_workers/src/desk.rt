// Turns of the desk in which the thread takes a slot, or leaves it.
ghost use Rattle.std.specs.Prelude.{◌≡◌, true, false, length, IfOk};
ghost use Rattle.shared_table.specs.Past.{IsDeskOf, HasThreads};
ghost use Rattle.shared_table.specs.Seats.{IsSeatOf, IsFree};
ghost use Rattle.part_workers.specs.Turns.{IsDeskIn, IsEmptyClock, TakesOf, FindsNone, TakesIn, FindsNoneIn, TakesAtDesk, TriesAtDesk, LeavesOf, LeavesIn, LeavesAtDesk};

use crate::part::{PartSoFar, Post};
use hart_events::Attaching;
use hart_turns::{ThreadState, leave_slot, take_slot};
use race_core::Watcher;
use run_record::{DeskNote, Label, Limits, NoMemory};
use shared_table::{DeskState, Object, Shared, SharedSeat};
use std::sync::Wait;
use tool_ports::{Gate, Point};
use vector_clock::Clock;

// The number of the desk.
pub(crate) const DESK: u32 = 64;

// The thread takes a slot of the desk, which is told.
fn take_of(
    desk: &mut DeskState,
    limits: &Limits,
    post: &Post,
    state: &mut ThreadState,
    given: &mut Clock,
    part: &mut PartSoFar,
) -> Result<bool, NoMemory>
    requires desk { IsDeskOf limits.now desk.old.desk }
    requires threads { HasThreads desk.old }
    requires greatest { limits.now.epochs ≡ state.old.watcher.greatest }
    requires given { IsEmptyClock limits.now given.old }
    ensures desk { IsDeskOf limits.now desk.new.desk }
    ensures threads { HasThreads desk.new }
    ensures took { IfOk result (λ took. took ≡ true → TakesOf limits.now post.now state.old state.new desk.old desk.new part.old part.new given.new) }
    ensures none { IfOk result (λ took. took ≡ false → FindsNone state.old state.new desk.old desk.new part.old part.new) }
{
    match take_slot(state, desk, limits, post.tid, given)? {
        Attaching::Took(label) => {
            let stamp = part.next_stamp(desk.last)?;
            part.tell_note(post, DeskNote::Attach(label), stamp)?;
            desk.last = stamp;
            Ok(true)
        }
        Attaching::NoneFree => Ok(false),
        Attaching::Refused => Err(NoMemory),
    }
}

// The same, where the object is the desk.
fn take_in(
    object: &mut Object,
    limits: &Limits,
    post: &Post,
    state: &mut ThreadState,
    given: &mut Clock,
    part: &mut PartSoFar,
) -> Result<bool, NoMemory>
    requires desk { IsDeskIn limits.now object.old }
    requires greatest { limits.now.epochs ≡ state.old.watcher.greatest }
    requires given { IsEmptyClock limits.now given.old }
    ensures desk { IsDeskIn limits.now object.new }
    ensures took { IfOk result (λ took. took ≡ true → TakesIn limits.now post.now state.old state.new object.old object.new part.old part.new given.new) }
    ensures none { IfOk result (λ took. took ≡ false → FindsNoneIn limits.now state.old state.new object.old object.new part.old part.new) }
{
    match object {
        Object::Desk(desk) => take_of(desk, limits, post, state, given, part),
        _ => Err(NoMemory),
    }
}

/// The thread takes a slot in a turn of the desk, if one is free, and `given`, an empty clock, becomes what its creator left for it.
/// It tells whether one was free.
pub fn take_at_desk<R: Wait, G: Gate>(
    rt: &R,
    shared: &Shared,
    seat: &mut SharedSeat,
    gate: &G,
    limits: &Limits,
    post: &Post,
    state: &mut ThreadState,
    given: &mut Clock,
    part: &mut PartSoFar,
) -> Result<bool, NoMemory>
    requires own { IsSeatOf shared.now seat.old }
    requires free { IsFree seat.old.me }
    requires limits { shared.now.layout.limits ≡ limits.now }
    requires greatest { limits.now.epochs ≡ state.old.watcher.greatest }
    requires given { IsEmptyClock limits.now given.old }
    ensures own { IsSeatOf shared.now seat.new }
    ensures free { IsFree seat.new.me }
    ensures number { seat.new.me.0.number ≡ seat.old.me.0.number }
    ensures took { IfOk result (λ took. took ≡ true →
        TakesAtDesk limits.now post.now state.old state.new part.old part.new given.new seat.old.me.0.log seat.new.me.0.log) }
    ensures none { IfOk result (λ took. took ≡ false →
        TriesAtDesk limits.now state.old state.new part.old part.new seat.old.me.0.log seat.new.me.0.log) }
{
    let mut object = shared.take(rt, seat, DESK);
    gate.at(Point::Holding(DESK));
    let took = take_in(&mut object, limits, post, state, given, part);
    shared.give(seat, DESK, object);
    took
}

// The thread leaves the slot of the label, which is told.
fn leave_of(
    desk: &mut DeskState,
    limits: &Limits,
    post: &Post,
    watcher: &Watcher,
    label: Label,
    part: &mut PartSoFar,
) -> Result<(), NoMemory>
    requires desk { IsDeskOf limits.now desk.old.desk }
    requires threads { HasThreads desk.old }
    requires slots { length watcher.now.clock ≡ limits.now.slots }
    ensures desk { IsDeskOf limits.now desk.new.desk }
    ensures threads { HasThreads desk.new }
    ensures left { IfOk result (λ done. LeavesOf limits.now post.now label watcher.now desk.old desk.new part.old part.new) }
{
    if !leave_slot(watcher, desk, limits, post.tid, label) {
        return Err(NoMemory);
    }
    let stamp = part.next_stamp(desk.last)?;
    part.tell_note(post, DeskNote::Leave(label), stamp)?;
    desk.last = stamp;
    Ok(())
}

// The same, where the object is the desk.
fn leave_in(
    object: &mut Object,
    limits: &Limits,
    post: &Post,
    watcher: &Watcher,
    label: Label,
    part: &mut PartSoFar,
) -> Result<(), NoMemory>
    requires desk { IsDeskIn limits.now object.old }
    requires slots { length watcher.now.clock ≡ limits.now.slots }
    ensures desk { IsDeskIn limits.now object.new }
    ensures left { IfOk result (λ done. LeavesIn limits.now post.now label watcher.now object.old object.new part.old part.new) }
{
    match object {
        Object::Desk(desk) => leave_of(desk, limits, post, watcher, label, part),
        _ => Err(NoMemory),
    }
}

/// The thread leaves the slot of the label that it spent, in a turn of the desk.
pub fn leave_at_desk<R: Wait, G: Gate>(
    rt: &R,
    shared: &Shared,
    seat: &mut SharedSeat,
    gate: &G,
    limits: &Limits,
    post: &Post,
    watcher: &Watcher,
    label: Label,
    part: &mut PartSoFar,
) -> Result<(), NoMemory>
    requires own { IsSeatOf shared.now seat.old }
    requires free { IsFree seat.old.me }
    requires limits { shared.now.layout.limits ≡ limits.now }
    requires slots { length watcher.now.clock ≡ limits.now.slots }
    ensures own { IsSeatOf shared.now seat.new }
    ensures free { IsFree seat.new.me }
    ensures number { seat.new.me.0.number ≡ seat.old.me.0.number }
    ensures left { IfOk result (λ done.
        LeavesAtDesk limits.now post.now label watcher.now part.old part.new seat.old.me.0.log seat.new.me.0.log) }
{
    let mut object = shared.take(rt, seat, DESK);
    gate.at(Point::Holding(DESK));
    let left = leave_in(&mut object, limits, post, watcher, label, part);
    shared.give(seat, DESK, object);
    left
}
