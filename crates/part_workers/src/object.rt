// Turns of an object in which the thread makes an instruction.
ghost use Rattle.std.specs.Prelude.{◌≡◌, ◌<◌, ◌≤◌, Some, IfOk};
ghost use Rattle.bare_machine.specs.Asked.{IsSound as IsSoundRequest, IsShallow, IsWithin};
ghost use Rattle.bare_machine.specs.Step.{desk};
ghost use Rattle.hart_steps.specs.Asked.{UsesDesk};
ghost use Rattle.shared_table.specs.Layouts.{IsTableOf};
ghost use Rattle.shared_table.specs.Past.{IsSoundSlot};
ghost use Rattle.shared_table.specs.Seats.{IsSeatOf, IsFree, Holds};
ghost use Rattle.hart_turns.specs.Serves.{UsesStripe, HasAsked};
ghost use Rattle.part_workers.specs.Objects.{last_at, stamped, IsStamped, GaveBack, TellsTurn};
ghost use Rattle.part_workers.specs.Makes.{MakesAtObject};
ghost use Rattle.part_workers.specs.Begin.{BeginsFirst};

use crate::begin::begins_first;
use crate::desk::DESK;
use crate::part::{PartSoFar, Post};
use bare_machine::Request;
use elf_image::Image;
use entry_calls::CallEvents;
use hart_steps::Hart;
use hart_turns::{Hearing, make_at_desk, make_at_stripe};
use race_core::Watcher;
use run_record::{Label, Limits, NoMemory};
use shared_table::{Object, Shared, SharedSeat};
use std::alloc::Global;
use std::sync::Wait;
use tool_ports::{Gate, Point};
use vector_clock::Clock;

// The last stamp of the object, if there is one.
fn last_stamp(place: &Option<Object>) -> u64
    ensures { result ≡ last_at place.now }
{
    match place {
        Some(Object::Stripe(stripe)) => stripe.last,
        Some(Object::Desk(desk)) => desk.last,
        None => 0,
    }
}

// The object gets that stamp.
fn put_stamp(place: &mut Option<Object>, stamp: u64)
    ensures { place.new ≡ stamped place.old stamp }
{
    match place {
        Some(Object::Stripe(stripe)) => stripe.last = stamp,
        Some(Object::Desk(desk)) => desk.last = stamp,
        None => {}
    }
}

// Gives back what was taken.
fn give_back(shared: &Shared, seat: &mut SharedSeat, number: u32, place: Option<Object>)
    requires own { IsSeatOf shared.now seat.old }
    requires holds { Holds seat.old.me number }
    requires object { number ≤ 64 }
    requires sound { IsSoundSlot shared.now.layout number place }
    ensures own { IsSeatOf shared.now seat.new }
    ensures gave { GaveBack seat.old.me place seat.new.me }
{
    match place {
        Some(object) => shared.give(seat, number, object),
        None => unreachable!(),
    }
}

// Tells the instruction that was made at the object, whose events those are, with what was gathered.
fn tell_turn(
    alloc: Global,
    post: &Post,
    hearing: Result<Hearing, NoMemory>,
    began: bool,
    events: &CallEvents,
    place: &mut Option<Object>,
    part: &mut PartSoFar,
) -> Result<Option<Label>, NoMemory>
    ensures place { IsStamped place.old place.new }
    ensures told { IfOk result (λ spent. TellsTurn post.now hearing spent began events.now place.old place.new part.old part.new) }
{
    let Hearing::Heard(spent) = hearing? else {
        return Err(NoMemory);
    };
    if !begins_first(began, events.as_slice()) {
        return Err(NoMemory);
    }
    part.gather(events)?;
    let stamp = part.next_stamp(last_stamp(place))?;
    part.tell_gathered(alloc, post, stamp)?;
    put_stamp(place, stamp);
    Ok(spent)
}

/// The thread makes the instruction that it asked for in a turn of the stripe of that number, which it uses, and it is told with what was
/// gathered. `given` is what was left for a thread that begins. It tells the label that the instruction spent.
pub fn make_in_stripe<R: Wait, G: Gate>(
    rt: &R,
    alloc: Global,
    shared: &Shared,
    seat: &mut SharedSeat,
    gate: &G,
    image: &Image<'_>,
    limits: &Limits,
    post: &Post,
    hart: &mut Hart,
    watcher: &mut Watcher,
    given: &Clock,
    request: &Request,
    number: u32,
    part: &mut PartSoFar,
) -> Result<Option<Label>, NoMemory>
    requires own { IsSeatOf shared.now seat.old }
    requires free { IsFree seat.old.me }
    requires table { IsTableOf image.now limits.now shared.now }
    requires object { number ≤ 64 }
    requires uses { UsesStripe number request.now }
    requires asked { HasAsked image.now post.now.tid hart.old request.now }
    requires sound { IsSoundRequest request.now }
    requires shallow { IsShallow request.now hart.old.thread.depth }
    requires within { IsWithin image.now request.now }
    ensures own { IsSeatOf shared.now seat.new }
    ensures free { IsFree seat.new.me }
    ensures number { seat.new.me.0.number ≡ seat.old.me.0.number }
    ensures made { IfOk result (MakesAtObject image.now limits.now post.now number given.now request.now hart.old hart.new
        watcher.old watcher.new part.old part.new seat.old.me.0.log seat.new.me.0.log) }
{
    let base = part.count()?;
    let began = hart.thread.began;
    let mut place = Some(shared.take(rt, seat, number));
    gate.at(Point::Holding(number));
    let mut events = CallEvents::new();
    let found = &mut part.found;
    let hearing = make_at_stripe(
        shared,
        seat,
        image,
        limits,
        post.tid,
        hart,
        watcher,
        given,
        request,
        &mut place,
        number,
        &mut events,
        base,
        found,
    );
    let told = tell_turn(alloc, post, hearing, began, &events, &mut place, part);
    give_back(shared, seat, number, place);
    told
}

/// The same in a turn of the desk, for an instruction that uses it.
pub fn make_in_desk<R: Wait, G: Gate>(
    rt: &R,
    alloc: Global,
    shared: &Shared,
    seat: &mut SharedSeat,
    gate: &G,
    image: &Image<'_>,
    limits: &Limits,
    post: &Post,
    hart: &mut Hart,
    watcher: &mut Watcher,
    given: &Clock,
    request: &Request,
    part: &mut PartSoFar,
) -> Result<Option<Label>, NoMemory>
    requires own { IsSeatOf shared.now seat.old }
    requires free { IsFree seat.old.me }
    requires table { IsTableOf image.now limits.now shared.now }
    requires uses { UsesDesk request.now }
    requires asked { HasAsked image.now post.now.tid hart.old request.now }
    requires sound { IsSoundRequest request.now }
    ensures own { IsSeatOf shared.now seat.new }
    ensures free { IsFree seat.new.me }
    ensures number { seat.new.me.0.number ≡ seat.old.me.0.number }
    ensures made { IfOk result (MakesAtObject image.now limits.now post.now desk given.now request.now hart.old hart.new
        watcher.old watcher.new part.old part.new seat.old.me.0.log seat.new.me.0.log) }
{
    let base = part.count()?;
    let began = hart.thread.began;
    let mut place = Some(shared.take(rt, seat, DESK));
    gate.at(Point::Holding(DESK));
    let mut events = CallEvents::new();
    let found = &mut part.found;
    let hearing = make_at_desk(
        shared,
        seat,
        image,
        limits,
        post.tid,
        hart,
        watcher,
        given,
        request,
        &mut place,
        &mut events,
        base,
        found,
    );
    let told = tell_turn(alloc, post, hearing, began, &events, &mut place, part);
    give_back(shared, seat, DESK, place);
    told
}
