// An event of a thread at its place.
ghost use Rattle.std.specs.Prelude.{◌≡◌, ◌≤◌, ◌+◌, ℕ, true, List, Option, length, IfOk};
ghost use Rattle.run_record.specs.declared.entry.Check.{Check};
ghost use Rattle.run_record.specs.declared.event.Event.TheVariants.{Begin};
ghost use Rattle.elf_image.specs.File.{granules_of};
ghost use Rattle.race_core.specs.declared.watcher.Candidate.{Candidate};
ghost use Rattle.shared_table.specs.Seats.{IsSeatOf};
ghost use Rattle.shared_table.specs.Steps.{Mine};
ghost use Rattle.hart_events.specs.Events.{IsAlone, IsOfChannel, IsOfDesk};
ghost use Rattle.shared_table.specs.declared.object.Object.{Object};
ghost use Rattle.hart_turns.specs.Checks.{MadeSteps};
ghost use Rattle.hart_turns.specs.Hearing.{IsReady, IsHeard, IsAccess, IsQuiet, made_by};
ghost use Rattle.hart_turns.specs.Places.{HasAllMade, IsPlace, SameBare, HearsOne};

use crate::check::Findings;
use crate::hear::{
    Hearing, hear_access, hear_at_stripe, hear_begin, hear_desk, hear_own, is_ready,
};
use crate::unheard::has_unheard;
use elf_image::Image;
use race_core::Watcher;
use run_record::{Event, Limits, NoMemory};
use shared_table::{DeskState, Object, Shared, SharedSeat};
use vector_clock::Clock;

// An event of a channel, at the object that the thread has, if that is a stripe.
fn hear_channel(
    watcher: &mut Watcher,
    limits: &Limits,
    place: &mut Option<Object>,
    number: u32,
    event: &Event,
) -> Result<Hearing, NoMemory>
    requires channel { IsOfChannel event.now }
    requires place { IsPlace limits.now number place.old }
    requires ready { IsReady limits.now.slots watcher.old event.now }
    ensures heard { IfOk result (IsHeard (λ spent. (file : List ℕ) (t at : ℕ) (clock : List ℕ) (checks : List Check)
        (waiting : List Candidate) (me : Mine) →
        HearsOne file limits.now number t clock event.now at watcher.old watcher.new place.old place.new checks checks waiting waiting me me spent)) }
    ensures place { IsPlace limits.now number place.new }
    ensures bare { SameBare place.old place.new }
{
    match place {
        Some(Object::Stripe(stripe)) => hear_at_stripe(watcher, &mut stripe.sync, number, event),
        _ => Ok(Hearing::Refused),
    }
}

// Whether the machine has made a thread that the desk's slots haven't heard of, where the event tells one.
fn is_made(desk: &DeskState, event: &Event) -> bool
    requires all { HasAllMade desk.now }
    ensures { result ≡ true → desk.now.desk.made + made_by event.now ≤ length desk.now.machine.made }
{
    match *event {
        Event::Create(_) => has_unheard(&desk.desk, desk.machine.made.len()),
        _ => true,
    }
}

// An event at the desk, if that is the object that the thread has.
fn hear_of_desk(
    watcher: &mut Watcher,
    limits: &Limits,
    place: &mut Option<Object>,
    number: u32,
    tid: u32,
    event: &Event,
) -> Result<Hearing, NoMemory>
    requires of_desk { IsOfDesk event.now }
    requires place { IsPlace limits.now number place.old }
    requires ready { IsReady limits.now.slots watcher.old event.now }
    ensures heard { IfOk result (IsHeard (λ spent. (file : List ℕ) (at : ℕ) (clock : List ℕ) (checks : List Check)
        (waiting : List Candidate) (me : Mine) →
        HearsOne file limits.now number tid clock event.now at watcher.old watcher.new place.old place.new checks checks waiting waiting me me spent)) }
    ensures place { IsPlace limits.now number place.new }
    ensures bare { SameBare place.old place.new }
{
    match place {
        Some(Object::Desk(desk)) => {
            if !is_made(desk, event) {
                return Ok(Hearing::Refused);
            }
            hear_desk(watcher, &mut desk.desk, limits, tid, event)
        }
        _ => Ok(Hearing::Refused),
    }
}

// An event of the thread's stack or locks.
fn hear_quiet(watcher: &mut Watcher, limits: &Limits, event: &Event) -> Result<Hearing, NoMemory>
    requires quiet { IsQuiet event.now }
    requires ready { IsReady limits.now.slots watcher.old event.now }
    ensures { IfOk result (IsHeard (λ spent. (file : List ℕ) (k t at : ℕ) (clock : List ℕ) (place : Option Object) (checks : List Check)
        (waiting : List Candidate) (me : Mine) →
        HearsOne file limits.now k t clock event.now at watcher.old watcher.new place place checks checks waiting waiting me me spent)) }
{
    hear_own(watcher, event)
}

// An access, with its checks.
fn hear_checked(
    shared: &Shared,
    seat: &mut SharedSeat,
    image: &Image<'_>,
    limits: &Limits,
    watcher: &mut Watcher,
    event: &Event,
    at: u32,
    findings: &mut Findings,
) -> Result<Hearing, NoMemory>
    requires own { IsSeatOf shared.now seat.old }
    requires granules { shared.now.layout.granules ≡ granules_of image.now }
    requires limits { shared.now.layout.limits ≡ limits.now }
    requires access { IsAccess event.now }
    requires ready { IsReady limits.now.slots watcher.old event.now }
    ensures own { IsSeatOf shared.now seat.new }
    ensures seat { MadeSteps seat.old.me seat.new.me }
    ensures heard { IfOk result (IsHeard (λ spent. (k t : ℕ) (clock : List ℕ) (place : Option Object) →
        HearsOne image.now limits.now k t clock event.now at watcher.old watcher.new place place findings.old.checks findings.new.checks
        findings.old.waiting.items findings.new.waiting.items seat.old.me seat.new.me spent)) }
{
    hear_access(shared, seat, image, watcher, event, at, findings)
}

// The thread begins.
fn hear_first(watcher: &mut Watcher, limits: &Limits, given: &Clock) -> Hearing
    requires slots { length watcher.old.clock ≡ limits.now.slots }
    requires ready { IsReady limits.now.slots watcher.old Begin }
    ensures { IsHeard (λ spent. (file : List ℕ) (k t at : ℕ) (place : Option Object) (checks : List Check) (waiting : List Candidate) (me : Mine) →
        HearsOne file limits.now k t given.now Begin at watcher.old watcher.new place place checks checks waiting waiting me me spent) result }
{
    if given.slots() != limits.slots as usize {
        return Hearing::Refused;
    }
    hear_begin(watcher, given)
}

/// Hears an event of the thread at a place: at an object of that number, which the thread has taken, or at none. It is the event of
/// that place in its entry, and what its checks find is appended. `given` is what was left for a thread that begins.
pub fn hear_event(
    shared: &Shared,
    seat: &mut SharedSeat,
    image: &Image<'_>,
    limits: &Limits,
    tid: u32,
    watcher: &mut Watcher,
    given: &Clock,
    place: &mut Option<Object>,
    number: u32,
    event: &Event,
    at: u32,
    findings: &mut Findings,
) -> Result<Hearing, NoMemory>
    requires own { IsSeatOf shared.now seat.old }
    requires granules { shared.now.layout.granules ≡ granules_of image.now }
    requires limits { shared.now.layout.limits ≡ limits.now }
    requires place { IsPlace limits.now number place.old }
    ensures own { IsSeatOf shared.now seat.new }
    ensures seat { MadeSteps seat.old.me seat.new.me }
    ensures place { IsPlace limits.now number place.new }
    ensures bare { SameBare place.old place.new }
    ensures heard { IfOk result (IsHeard (HearsOne image.now limits.now number tid given.now event.now at watcher.old watcher.new place.old place.new
        findings.old.checks findings.new.checks findings.old.waiting.items findings.new.waiting.items seat.old.me seat.new.me)) }
{
    if let Event::Put { .. } = *event {
        return Ok(Hearing::Heard(None));
    }
    if !is_ready(watcher, limits.slots, event) {
        return Ok(Hearing::Refused);
    }
    match *event {
        Event::Begin => Ok(hear_first(watcher, limits, given)),
        Event::Access { .. } => {
            hear_checked(shared, seat, image, limits, watcher, event, at, findings)
        }
        Event::Acquire { .. }
        | Event::Release { .. }
        | Event::Destroy { .. }
        | Event::Clear { .. } => hear_channel(watcher, limits, place, number, event),
        Event::Create(_) | Event::End | Event::Join(_) => {
            hear_of_desk(watcher, limits, place, number, tid, event)
        }
        _ => hear_quiet(watcher, limits, event),
    }
}
