// Instructions that use the desk.
ghost use Rattle.std.specs.Prelude.{◌≡◌, [], true, IfOk};
ghost use Rattle.bare_machine.specs.Asked.{IsSound};
ghost use Rattle.elf_image.specs.File.{granules_of};
ghost use Rattle.shared_table.specs.Layouts.{IsTableOf};
ghost use Rattle.shared_table.specs.Past.{IsSoundSlot};
ghost use Rattle.shared_table.specs.Seats.{IsSeatOf};
ghost use Rattle.hart_steps.specs.Asked.{UsesDesk};
ghost use Rattle.hart_turns.specs.Checks.{MadeSteps};
ghost use Rattle.hart_turns.specs.Hearing.{IsHeard};
ghost use Rattle.hart_turns.specs.Serves.{HasAsked};
ghost use Rattle.hart_turns.specs.AtDesk.{MayUse, IsLoose, IsWhole, ServedInDesk, HeardAtDesk, MakesAtDesk};

use crate::check::Findings;
use crate::desk::serve_at_desk;
use crate::hear::Hearing;
use crate::make::hear_told;
use crate::unheard::settle;
use bare_machine::Request;
use elf_image::Image;
use entry_calls::CallEvents;
use hart_steps::Hart;
use race_core::Watcher;
use run_record::{Limits, NoMemory};
use shared_table::{Object, Shared, SharedSeat};
use slot_desk::Desk;
use vector_clock::Clock;

// The number of the desk.
const DESK: u32 = 64;

// Whether the desk has it that a thread that stops holds a slot.
fn may_use(desk: &Desk, tid: u32, request: &Request) -> bool
    ensures { result ≡ true → MayUse desk.now tid request.now }
{
    match request {
        Request::Stop(_) => desk.held(tid).is_some(),
        _ => true,
    }
}

// Serves what the thread asked for at the object that it has taken, if that is the desk.
#[tactic(auto, using(crate::proofs::DeskTurns::loose_whole))]
fn serve_in_desk(
    image: &Image<'_>,
    limits: &Limits,
    tid: u32,
    hart: &mut Hart,
    request: &Request,
    place: &mut Option<Object>,
    events: &mut CallEvents,
) -> Result<bool, NoMemory>
    requires place { IsWhole limits.now place.old }
    requires uses { UsesDesk request.now }
    requires asked { HasAsked image.now tid hart.old request.now }
    requires sound { IsSound request.now }
    requires empty { events.old ≡ [] }
    ensures loose { IsLoose limits.now place.new }
    ensures served { IfOk result (λ served. served ≡ true →
        ServedInDesk limits.now.harts tid request.now hart.old hart.new place.old place.new events.new) }
{
    match place {
        Some(Object::Desk(desk)) => {
            if !may_use(&desk.desk, tid, request) {
                return Ok(false);
            }
            serve_at_desk(desk, limits.harts, tid, hart, request, events)?;
            Ok(true)
        }
        _ => unreachable!(),
    }
}

// Serves it and hears the events.
#[tactic(auto, using(crate::proofs::DeskTurns::place_loose, crate::proofs::DeskTurns::loose_kept))]
fn serve_and_hear(
    shared: &Shared,
    seat: &mut SharedSeat,
    image: &Image<'_>,
    limits: &Limits,
    tid: u32,
    hart: &mut Hart,
    watcher: &mut Watcher,
    given: &Clock,
    request: &Request,
    place: &mut Option<Object>,
    events: &mut CallEvents,
    base: u32,
    findings: &mut Findings,
) -> Result<Hearing, NoMemory>
    requires own { IsSeatOf shared.now seat.old }
    requires granules { shared.now.layout.granules ≡ granules_of image.now }
    requires limits { shared.now.layout.limits ≡ limits.now }
    requires place { IsWhole limits.now place.old }
    requires uses { UsesDesk request.now }
    requires asked { HasAsked image.now tid hart.old request.now }
    requires sound { IsSound request.now }
    requires empty { events.old ≡ [] }
    ensures own { IsSeatOf shared.now seat.new }
    ensures seat { MadeSteps seat.old.me seat.new.me }
    ensures loose { IsLoose limits.now place.new }
    ensures heard { IfOk result (IsHeard (HeardAtDesk image.now limits.now tid given.now base request.now hart.old hart.new watcher.old watcher.new
        place.old place.new events.new findings.old.checks findings.new.checks
        findings.old.waiting.items findings.new.waiting.items seat.old.me seat.new.me)) }
{
    if !serve_in_desk(image, limits, tid, hart, request, place, events)? {
        return Ok(Hearing::Refused);
    }
    hear_told(
        shared, seat, image, limits, tid, watcher, given, place, DESK, events, base, findings,
    )
}

/// The same for one that uses the desk, which the thread has taken. Whatever comes of it, the desk is one that can be given back.
#[tactic(auto, using(crate::proofs::DeskTurns::whole_of, crate::proofs::DeskTurns::sound_of))]
pub fn make_at_desk(
    shared: &Shared,
    seat: &mut SharedSeat,
    image: &Image<'_>,
    limits: &Limits,
    tid: u32,
    hart: &mut Hart,
    watcher: &mut Watcher,
    given: &Clock,
    request: &Request,
    place: &mut Option<Object>,
    events: &mut CallEvents,
    base: u32,
    findings: &mut Findings,
) -> Result<Hearing, NoMemory>
    requires own { IsSeatOf shared.now seat.old }
    requires table { IsTableOf image.now limits.now shared.now }
    requires place { IsSoundSlot shared.now.layout 64 place.old }
    requires uses { UsesDesk request.now }
    requires asked { HasAsked image.now tid hart.old request.now }
    requires sound { IsSound request.now }
    requires empty { events.old ≡ [] }
    ensures own { IsSeatOf shared.now seat.new }
    ensures seat { MadeSteps seat.old.me seat.new.me }
    ensures made { IfOk result (IsHeard (MakesAtDesk image.now limits.now shared.now.layout tid given.now base request.now hart.old hart.new
        watcher.old watcher.new place.old place.new events.new findings.old.checks findings.new.checks
        findings.old.waiting.items findings.new.waiting.items seat.old.me seat.new.me)) }
    ensures sound { IsSoundSlot shared.now.layout 64 place.new }
{
    let heard = serve_and_hear(
        shared, seat, image, limits, tid, hart, watcher, given, request, place, events, base,
        findings,
    );
    if settle(place, limits) {
        return heard;
    }
    heard?;
    Ok(Hearing::Refused)
}
