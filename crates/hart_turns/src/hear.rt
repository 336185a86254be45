// The events of a thread at one place.
ghost use Rattle.std.specs.Prelude.{◌≡◌, ◌+◌, ◌*◌, ◌<◌, ◌≤◌, ◌-◌, ◌^◌, ℕ, true, List, Option, Some, length, IfOk};
ghost use Rattle.run_record.specs.declared.event.Event.TheVariants.{Begin};
ghost use Rattle.elf_image.specs.File.{granules_of};
ghost use Rattle.slot_desk.specs.Desks.{DeskContents};
ghost use Rattle.sync_slab.specs.Objects.{SyncObjects};
ghost use Rattle.race_core.specs.Watched.{CanBeNoted};
ghost use Rattle.shared_table.specs.Past.{IsDeskOf};
ghost use Rattle.shared_table.specs.Seats.{IsSeatOf};
ghost use Rattle.hart_events.specs.Events.{IsAlone, IsOfChannel, IsOfDesk};
ghost use Rattle.bare_machine.specs.Memory.{stripe as stripe_of};
ghost use Rattle.thread_events.specs.Heard.{IsAtKeeper};
ghost use Rattle.hart_turns.specs.Checks.{MadeSteps};
ghost use Rattle.hart_turns.specs.Hearing.{IsReady, MayHear, made_by, IsHeard, HearsAlone, HearsBegin, HearsAccess, HearsAtStripe, HearsAtDesk, IsAccess};

use crate::check::{Findings, check_access};
use bare_machine::stripe;
use elf_image::Image;
use hart_events::{begin, hear_alone, hear_at_desk, hear_at_object};
use race_core::Watcher;
use run_record::{Event, Label, Limits, NoMemory};
use shared_table::{Shared, SharedSeat};
use slot_desk::Desk;
use sync_slab::SyncSet;
use vector_clock::Clock;

/// What came of an event: it was heard, and spent that label if any; or it was one that the thread, or its place, can't have made.
#[derive(Clone, Copy)]
pub enum Hearing {
    Heard(Option<Label>),
    Refused,
}

// Whether an event of that kind may be noted of a thread with so many frames.
fn can_be_noted(depth: u32, event: &Event) -> bool
    ensures { result ≡ true → CanBeNoted depth event.now }
{
    match *event {
        Event::Access { size, .. } => size <= 65_536,
        Event::Enter(_) => depth < 4096,
        _ => true,
    }
}

// Whether the thread has a label of one of so many slots, and its watcher can note the event.
pub(crate) fn is_ready(watcher: &Watcher, slots: u32, event: &Event) -> bool
    ensures { result ≡ true → IsReady slots watcher.now event.now }
{
    let Some(label) = watcher.label() else {
        return false;
    };
    if watcher.clock_ref().slots() != slots as usize || u32::from(label.sid) >= slots {
        return false;
    }
    watcher.trace().count() < u64::MAX && can_be_noted(watcher.depth(), event)
}

// An event that reaches nothing but its thread's stack, locks and trace.
pub(crate) fn hear_own(watcher: &mut Watcher, event: &Event) -> Result<Hearing, NoMemory>
    requires alone { IsAlone event.now }
    requires can { CanBeNoted (length watcher.old.frames) event.now }
    requires count { watcher.old.trace.count < 2 ^ 64 - 1 }
    ensures { IfOk result (IsHeard (HearsAlone event.now watcher.old watcher.new)) }
{
    watcher.room()?;
    hear_alone(watcher, event);
    Ok(Hearing::Heard(None))
}

// The event is of the addresses of that stripe.
fn is_at(number: u32, event: &Event) -> bool
    ensures { result ≡ true → IsAtKeeper stripe_of number event.now }
{
    match *event {
        Event::Acquire { addr, .. } => stripe(addr) == number,
        Event::Release { addr, .. } => stripe(addr) == number,
        Event::Destroy { addr } => stripe(addr) == number,
        Event::Clear { addr } => stripe(addr) == number,
        _ => true,
    }
}

// An event of a channel, at the stripe that keeps its address.
pub(crate) fn hear_at_stripe(
    watcher: &mut Watcher,
    set: &mut SyncSet,
    number: u32,
    event: &Event,
) -> Result<Hearing, NoMemory>
    requires channel { IsOfChannel event.now }
    requires ready { IsReady set.old.slots watcher.old event.now }
    ensures heard { IfOk result (IsHeard (HearsAtStripe number event.now watcher.old watcher.new set.old set.new)) }
    ensures slots { set.new.slots ≡ set.old.slots }
{
    if !is_at(number, event) {
        return Ok(Hearing::Refused);
    }
    watcher.room()?;
    set.reserve_one()?;
    let spent = hear_at_object(watcher, set, event);
    Ok(Hearing::Heard(spent))
}

// Whether the desk has it that the thread lives and, where it ends, that it holds a slot in an epoch that its clock has.
fn may_hear(watcher: &Watcher, desk: &Desk, tid: u32, greatest: u16, event: &Event) -> bool
    requires slots { length watcher.now.clock ≡ length desk.now.slots }
    requires greatest { greatest ≡ desk.now.greatest }
    ensures { result ≡ true → MayHear watcher.now desk.now tid event.now }
{
    if !desk.lives(tid) {
        return false;
    }
    let Event::End = *event else {
        return true;
    };
    let Some((sid, since)) = desk.held(tid) else {
        return false;
    };
    let epoch = watcher.clock_ref().get(sid);
    since <= epoch && epoch <= greatest
}

// An event of the desk.
pub(crate) fn hear_desk(
    watcher: &mut Watcher,
    desk: &mut Desk,
    limits: &Limits,
    tid: u32,
    event: &Event,
) -> Result<Hearing, NoMemory>
    requires of_desk { IsOfDesk event.now }
    requires ready { IsReady limits.now.slots watcher.old event.now }
    requires desk { IsDeskOf limits.now desk.old }
    ensures heard { IfOk result (IsHeard (HearsAtDesk tid event.now watcher.old watcher.new desk.old desk.new)) }
    ensures desk { IsDeskOf limits.now desk.new }
    ensures made { desk.new.made ≤ desk.old.made + made_by event.now }
{
    if !may_hear(watcher, desk, tid, limits.epochs, event) {
        return Ok(Hearing::Refused);
    }
    watcher.room()?;
    let heard = hear_at_desk(watcher, desk, tid, event);
    if heard.granted {
        Ok(Hearing::Heard(heard.spent))
    } else {
        Ok(Hearing::Refused)
    }
}

// The thread begins with what its creator left for it.
pub(crate) fn hear_begin(watcher: &mut Watcher, given: &Clock) -> Hearing
    requires slots { length watcher.old.clock ≡ length given.now }
    ensures { IsHeard (HearsBegin given.now watcher.old watcher.new) result }
{
    begin(watcher, given);
    Hearing::Heard(None)
}

// An access, the event of that place in its entry, with its checks. Its stack and locks are told before it is noted.
pub(crate) fn hear_access(
    shared: &Shared,
    seat: &mut SharedSeat,
    image: &Image<'_>,
    watcher: &mut Watcher,
    event: &Event,
    place: u32,
    findings: &mut Findings,
) -> Result<Hearing, NoMemory>
    requires own { IsSeatOf shared.now seat.old }
    requires granules { shared.now.layout.granules ≡ granules_of image.now }
    requires access { IsAccess event.now }
    requires ready { IsReady shared.now.layout.limits.slots watcher.old event.now }
    ensures own { IsSeatOf shared.now seat.new }
    ensures seat { MadeSteps seat.old.me seat.new.me }
    ensures heard { IfOk result (IsHeard (HearsAccess image.now event.now place watcher.old watcher.new findings.old.checks findings.new.checks
        findings.old.waiting.items findings.new.waiting.items seat.old.me seat.new.me)) }
{
    check_access(shared, seat, image, watcher, event, place, findings)?;
    hear_own(watcher, event)
}
