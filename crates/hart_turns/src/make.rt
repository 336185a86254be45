// Whole instructions: what the thread asked for is served, and the events are heard.
ghost use Rattle.std.specs.Prelude.{◌≡◌, [], IfOk};
ghost use Rattle.bare_machine.specs.Asked.{IsSound, IsShallow, IsWithin};
ghost use Rattle.elf_image.specs.File.{granules_of};
ghost use Rattle.shared_table.specs.Seats.{IsSeatOf};
ghost use Rattle.hart_turns.specs.Checks.{MadeSteps};
ghost use Rattle.hart_turns.specs.Hearing.{IsHeard};
ghost use Rattle.hart_turns.specs.Places.{IsPlace, SameBare};
ghost use Rattle.hart_turns.specs.Instructions.{HearsAll};
ghost use Rattle.hart_turns.specs.Makes.{UsesNothing, MakesAlone, MakesAtStripe};
ghost use Rattle.hart_turns.specs.Serves.{UsesStripe, HasAsked};
ghost use Rattle.shared_table.specs.Layouts.{IsTableOf};
ghost use Rattle.shared_table.specs.Past.{IsSoundSlot};

use crate::check::Findings;
use crate::hear::Hearing;
use crate::instruction::hear_all;
use crate::serve::serve_at_place;
use bare_machine::Request;
use elf_image::Image;
use entry_calls::CallEvents;
use hart_steps::Hart;
use race_core::Watcher;
use run_record::{Limits, NoMemory};
use shared_table::{Object, Shared, SharedSeat};
use vector_clock::Clock;

// A number that no object has.
const NOWHERE: u32 = 65;

// Hears the events that the thread's instruction told, if its entry has room for them.
pub(crate) fn hear_told(
    shared: &Shared,
    seat: &mut SharedSeat,
    image: &Image<'_>,
    limits: &Limits,
    tid: u32,
    watcher: &mut Watcher,
    given: &Clock,
    place: &mut Option<Object>,
    number: u32,
    events: &CallEvents,
    base: u32,
    findings: &mut Findings,
) -> Result<Hearing, NoMemory>
    requires own { IsSeatOf shared.now seat.old }
    requires granules { shared.now.layout.granules ≡ granules_of image.now }
    requires limits { shared.now.layout.limits ≡ limits.now }
    requires place { IsPlace limits.now number place.old }
    ensures own { IsSeatOf shared.now seat.new }
    ensures seat { MadeSteps seat.old.me seat.new.me }
    ensures place { IsPlace limits.now number place.new }
    ensures bare { SameBare place.old place.new }
    ensures heard { IfOk result (IsHeard (HearsAll image.now limits.now number tid given.now events.now base watcher.old watcher.new place.old place.new
        findings.old.checks findings.new.checks findings.old.waiting.items findings.new.waiting.items seat.old.me seat.new.me)) }
{
    let told = events.as_slice();
    if told.len() >= (u32::MAX - base) as usize {
        return Ok(Hearing::Refused);
    }
    hear_all(
        shared, seat, image, limits, tid, watcher, given, place, number, told, base, findings,
    )
}

/// The thread makes the instruction that it asked for, which uses no object. Its events become `events`, of which the first is the
/// event of the place `base` in its entry, and what their checks find is appended.
pub fn make_alone(
    shared: &Shared,
    seat: &mut SharedSeat,
    image: &Image<'_>,
    limits: &Limits,
    tid: u32,
    hart: &mut Hart,
    watcher: &mut Watcher,
    given: &Clock,
    request: &Request,
    events: &mut CallEvents,
    base: u32,
    findings: &mut Findings,
) -> Result<Hearing, NoMemory>
    requires own { IsSeatOf shared.now seat.old }
    requires granules { shared.now.layout.granules ≡ granules_of image.now }
    requires limits { shared.now.layout.limits ≡ limits.now }
    requires alone { UsesNothing request.now }
    requires sound { IsSound request.now }
    requires shallow { IsShallow request.now hart.old.thread.depth }
    requires empty { events.old ≡ [] }
    ensures own { IsSeatOf shared.now seat.new }
    ensures seat { MadeSteps seat.old.me seat.new.me }
    ensures made { IfOk result (IsHeard (MakesAlone image.now limits.now tid given.now base request.now hart.old hart.new watcher.old watcher.new events.new
        findings.old.checks findings.new.checks findings.old.waiting.items findings.new.waiting.items seat.old.me seat.new.me)) }
{
    hart.serve_alone(request, events);
    let mut place = None;
    let place = &mut place;
    hear_told(
        shared, seat, image, limits, tid, watcher, given, place, NOWHERE, events, base, findings,
    )
}

/// The same for one that uses the stripe of that number, which the thread has taken. Whatever comes of it, the stripe is one that
/// can be given back.
pub fn make_at_stripe(
    shared: &Shared,
    seat: &mut SharedSeat,
    image: &Image<'_>,
    limits: &Limits,
    tid: u32,
    hart: &mut Hart,
    watcher: &mut Watcher,
    given: &Clock,
    request: &Request,
    place: &mut Option<Object>,
    number: u32,
    events: &mut CallEvents,
    base: u32,
    findings: &mut Findings,
) -> Result<Hearing, NoMemory>
    requires own { IsSeatOf shared.now seat.old }
    requires table { IsTableOf image.now limits.now shared.now }
    requires place { IsSoundSlot shared.now.layout number place.old }
    requires uses { UsesStripe number request.now }
    requires asked { HasAsked image.now tid hart.old request.now }
    requires sound { IsSound request.now }
    requires shallow { IsShallow request.now hart.old.thread.depth }
    requires within { IsWithin image.now request.now }
    requires empty { events.old ≡ [] }
    ensures own { IsSeatOf shared.now seat.new }
    ensures seat { MadeSteps seat.old.me seat.new.me }
    ensures made { IfOk result (IsHeard (MakesAtStripe image.now limits.now shared.now.layout number tid given.now base request.now hart.old hart.new
        watcher.old watcher.new place.old place.new events.new findings.old.checks findings.new.checks
        findings.old.waiting.items findings.new.waiting.items seat.old.me seat.new.me)) }
    ensures sound { IsSoundSlot shared.now.layout number place.new }
{
    if !serve_at_place(shared, image, tid, hart, request, place, number, events)? {
        return Ok(Hearing::Refused);
    }
    hear_told(
        shared, seat, image, limits, tid, watcher, given, place, number, events, base, findings,
    )
}
