// The events of an instruction at one place.
ghost use Rattle.std.specs.Prelude.{◌≡◌, ◌+◌, ◌<◌, ◌^◌, length, IfOk};
ghost use Rattle.elf_image.specs.File.{granules_of};
ghost use Rattle.shared_table.specs.Seats.{IsSeatOf};
ghost use Rattle.hart_turns.specs.Checks.{MadeSteps};
ghost use Rattle.hart_turns.specs.Hearing.{IsHeard};
ghost use Rattle.hart_turns.specs.Places.{IsPlace, SameBare};
ghost use Rattle.hart_turns.specs.Instructions.{HearsAll};

use crate::check::Findings;
use crate::events::hear_event;
use crate::hear::Hearing;
use elf_image::Image;
use race_core::Watcher;
use run_record::{Event, Limits, NoMemory};
use shared_table::{Object, Shared, SharedSeat};
use vector_clock::Clock;

/// Hears all events of an instruction at a place, one after another: at an object of that number, which the thread has taken, or at
/// none. The first of them is the event of the place `base` in its entry, and what their checks find is appended. Tells the label that
/// the last of them spent.
pub fn hear_all(
    shared: &Shared,
    seat: &mut SharedSeat,
    image: &Image<'_>,
    limits: &Limits,
    tid: u32,
    watcher: &mut Watcher,
    given: &Clock,
    place: &mut Option<Object>,
    number: u32,
    events: &[Event],
    base: u32,
    findings: &mut Findings,
) -> Result<Hearing, NoMemory>
    requires own { IsSeatOf shared.now seat.old }
    requires granules { shared.now.layout.granules ≡ granules_of image.now }
    requires limits { shared.now.layout.limits ≡ limits.now }
    requires place { IsPlace limits.now number place.old }
    requires few { base + length events.now < 2 ^ 32 }
    ensures own { IsSeatOf shared.now seat.new }
    ensures seat { MadeSteps seat.old.me seat.new.me }
    ensures place { IsPlace limits.now number place.new }
    ensures bare { SameBare place.old place.new }
    ensures heard { IfOk result (IsHeard (HearsAll image.now limits.now number tid given.now events.now base watcher.old watcher.new place.old place.new
        findings.old.checks findings.new.checks findings.old.waiting.items findings.new.waiting.items seat.old.me seat.new.me)) }
{
    let mut at = base;
    let mut spent = None;
    for event in events {
        let heard = hear_event(
            shared, seat, image, limits, tid, watcher, given, place, number, event, at, findings,
        )?;
        match heard {
            Hearing::Heard(label) => spent = label,
            Hearing::Refused => return Ok(Hearing::Refused),
        }
        at += 1;
    }
    Ok(Hearing::Heard(spent))
}
