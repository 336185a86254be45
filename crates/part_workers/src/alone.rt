// Instructions that use no object, which are gathered.
ghost use Rattle.std.specs.Prelude.{◌≡◌, ◌≤◌, ◌+◌, [], None, length, IfOk};
ghost use Rattle.elf_image.specs.File.{granules_of};
ghost use Rattle.bare_machine.specs.Asked.{IsSound, IsShallow};
ghost use Rattle.shared_table.specs.Seats.{IsSeatOf, IsFree};
ghost use Rattle.hart_turns.specs.Checks.{MadeSteps};
ghost use Rattle.hart_turns.specs.Makes.{UsesNothing};
ghost use Rattle.part_workers.specs.Makes.{GathersPlain, GathersAlone};

use crate::begin::begins_first;
use crate::part::PartSoFar;
use bare_machine::Request;
use elf_image::Image;
use entry_calls::CallEvents;
use guest_code::Code;
use hart_steps::Hart;
use hart_turns::{Hearing, make_alone};
use race_core::Watcher;
use run_record::{Limits, NoMemory};
use shared_table::{Shared, SharedSeat};
use vector_clock::Clock;

/// The thread makes instructions that touch its registers alone, at most so many, and they are gathered. It tells how many.
pub fn make_plain(
    hart: &mut Hart,
    code: &Code<'_>,
    most: u32,
    part: &mut PartSoFar,
) -> Result<u32, NoMemory>
    ensures { IfOk result (λ n. (n ≤ most) × GathersPlain code.now hart.old hart.new part.old part.new n) }
{
    let made = hart.run_locals(code, most);
    let Some(steps) = part.steps.checked_add(made) else {
        return Err(NoMemory);
    };
    part.steps = steps;
    Ok(made)
}

// The thread makes the instruction that it asked for, which uses no object, and it is gathered. The first of its events has the number `base`
// among those that were gathered.
fn make_from(
    shared: &Shared,
    seat: &mut SharedSeat,
    image: &Image<'_>,
    limits: &Limits,
    tid: u32,
    hart: &mut Hart,
    watcher: &mut Watcher,
    given: &Clock,
    request: &Request,
    part: &mut PartSoFar,
    base: u32,
) -> Result<(), NoMemory>
    requires own { IsSeatOf shared.now seat.old }
    requires granules { shared.now.layout.granules ≡ granules_of image.now }
    requires limits { shared.now.layout.limits ≡ limits.now }
    requires alone { UsesNothing request.now }
    requires sound { IsSound request.now }
    requires shallow { IsShallow request.now hart.old.thread.depth }
    requires base { base ≡ length part.old.events }
    ensures own { IsSeatOf shared.now seat.new }
    ensures seat { MadeSteps seat.old.me seat.new.me }
    ensures made { IfOk result (λ done. GathersAlone image.now limits.now tid given.now request.now hart.old hart.new watcher.old watcher.new
        part.old part.new seat.old.me seat.new.me None) }
{
    let began = hart.thread.began;
    let mut events = CallEvents::new();
    let found = &mut part.found;
    let hearing = make_alone(
        shared,
        seat,
        image,
        limits,
        tid,
        hart,
        watcher,
        given,
        request,
        &mut events,
        base,
        found,
    )?;
    let Hearing::Heard(None) = hearing else {
        return Err(NoMemory);
    };
    if !begins_first(began, events.as_slice()) {
        return Err(NoMemory);
    }
    part.gather(&events)
}

/// The thread makes the instruction that it asked for, which uses no object, and it is gathered. `given` is what was left for a thread that
/// begins. It spends no label.
pub fn make_gathered(
    shared: &Shared,
    seat: &mut SharedSeat,
    image: &Image<'_>,
    limits: &Limits,
    tid: u32,
    hart: &mut Hart,
    watcher: &mut Watcher,
    given: &Clock,
    request: &Request,
    part: &mut PartSoFar,
) -> Result<(), NoMemory>
    requires own { IsSeatOf shared.now seat.old }
    requires free { IsFree seat.old.me }
    requires granules { shared.now.layout.granules ≡ granules_of image.now }
    requires limits { shared.now.layout.limits ≡ limits.now }
    requires alone { UsesNothing request.now }
    requires sound { IsSound request.now }
    requires shallow { IsShallow request.now hart.old.thread.depth }
    ensures own { IsSeatOf shared.now seat.new }
    ensures free { IsFree seat.new.me }
    ensures number { seat.new.me.0.number ≡ seat.old.me.0.number }
    ensures made { IfOk result (λ done. GathersAlone image.now limits.now tid given.now request.now hart.old hart.new watcher.old watcher.new
        part.old part.new seat.old.me seat.new.me None) }
{
    let base = part.count()?;
    make_from(
        shared, seat, image, limits, tid, hart, watcher, given, request, part, base,
    )
}
