// The next instruction of a worker's thread, wherever it is made.
ghost use Rattle.std.specs.Prelude.{◌≡◌, Some, IfOk};
ghost use Rattle.bare_machine.specs.Asked.{IsSound, IsShallow, IsWithin};
ghost use Rattle.bare_machine.specs.Preview.{thread_needs};
ghost use Rattle.shared_table.specs.Layouts.{IsTableOf};
ghost use Rattle.shared_table.specs.Seats.{IsSeatOf, IsFree};
ghost use Rattle.hart_steps.specs.Asked.{Asks};
ghost use Rattle.hart_turns.specs.Serves.{HasAsked};
ghost use Rattle.part_workers.specs.Makes.{Serves};
ghost use Rattle.part_workers.specs.Places.{IsMadeAt};
ghost use Rattle.part_workers.specs.Standing.{MakesTurn};

use crate::alone::make_gathered;
use crate::desk::{DESK, leave_at_desk};
use crate::object::{make_in_desk, make_in_stripe};
use crate::part::{PartSoFar, Post};
use bare_machine::{Request, stripe};
use elf_image::Image;
use guest_code::Code;
use hart_steps::Hart;
use race_core::Watcher;
use run_record::{Label, Limits, NoMemory};
use shared_table::{Shared, SharedSeat};
use std::alloc::Global;
use std::sync::Wait;
use tool_ports::Gate;
use vector_clock::Clock;

/// What the thread asks for next, and whether only a thread with a slot makes it.
pub fn ask(hart: &mut Hart, code: &Code<'_>, tid: u32) -> (Request, bool)
    ensures asks { Asks code.now tid hart.old hart.new result.0 }
    ensures sound { IsSound result.0 }
    ensures shallow { IsShallow result.0 hart.new.thread.depth }
    ensures within { IsWithin code.now result.0 }
    ensures needs { result.1 ≡ thread_needs code.now tid (Some hart.old.thread) }
{
    let began = hart.thread.began;
    let request = hart.ask(code, tid);
    let needs = !began || request.needs_slot();
    (request, needs)
}

// Where an instruction is made.
#[derive(Clone, Copy)]
pub(crate) enum Place {
    Nowhere,
    Stripe(u32),
    Desk,
}

// Where the instruction is made that the request is for.
fn place_of(request: &Request) -> Place
    ensures { IsMadeAt request.now result }
{
    match request {
        Request::Done => Place::Nowhere,
        Request::Return(call) => match call.object {
            None => Place::Nowhere,
            Some(number) => Place::Stripe(number),
        },
        Request::Touch(touch) => Place::Stripe(stripe(touch.addr)),
        Request::Operate(operation) => Place::Stripe(stripe(operation.addr)),
        Request::Put { .. } | Request::Create { .. } | Request::Join { .. } | Request::Stop(_) =>
            Place::Desk,
    }
}

// The thread makes the instruction that it asked for. It tells the label that this spent.
fn serve<R: Wait, G: Gate>(
    rt: &R,
    alloc: Global,
    shared: &Shared,
    seat: &mut SharedSeat,
    gate: &G,
    image: &Image<'_>,
    limits: &Limits,
    post: &Post,
    hart: &mut Hart,
    watcher: &mut Watcher,
    given: &Clock,
    request: &Request,
    part: &mut PartSoFar,
) -> Result<Option<Label>, NoMemory>
    requires own { IsSeatOf shared.now seat.old }
    requires free { IsFree seat.old.me }
    requires table { IsTableOf image.now limits.now shared.now }
    requires asked { HasAsked image.now post.now.tid hart.old request.now }
    requires sound { IsSound request.now }
    requires shallow { IsShallow request.now hart.old.thread.depth }
    requires within { IsWithin image.now request.now }
    ensures own { IsSeatOf shared.now seat.new }
    ensures free { IsFree seat.new.me }
    ensures number { seat.new.me.0.number ≡ seat.old.me.0.number }
    ensures served { IfOk result (Serves image.now limits.now post.now given.now request.now hart.old hart.new watcher.old watcher.new
        part.old part.new seat.old.me seat.new.me) }
{
    let number = match place_of(request) {
        Place::Nowhere => {
            make_gathered(
                shared, seat, image, limits, post.tid, hart, watcher, given, request, part,
            )?;
            return Ok(None);
        }
        Place::Desk => {
            return make_in_desk(
                rt, alloc, shared, seat, gate, image, limits, post, hart, watcher, given, request,
                part,
            );
        }
        Place::Stripe(number) => number,
    };
    if number > DESK {
        return Err(NoMemory);
    }
    make_in_stripe(
        rt, alloc, shared, seat, gate, image, limits, post, hart, watcher, given, request, number,
        part,
    )
}

/// The thread makes the instruction that it asked for, wherever that is made, and leaves its slot, where the instruction spent that.
pub fn make<R: Wait, G: Gate>(
    rt: &R,
    alloc: Global,
    shared: &Shared,
    seat: &mut SharedSeat,
    gate: &G,
    image: &Image<'_>,
    limits: &Limits,
    post: &Post,
    hart: &mut Hart,
    watcher: &mut Watcher,
    given: &Clock,
    request: &Request,
    part: &mut PartSoFar,
) -> Result<(), NoMemory>
    requires own { IsSeatOf shared.now seat.old }
    requires free { IsFree seat.old.me }
    requires table { IsTableOf image.now limits.now shared.now }
    requires asked { HasAsked image.now post.now.tid hart.old request.now }
    requires sound { IsSound request.now }
    requires shallow { IsShallow request.now hart.old.thread.depth }
    requires within { IsWithin image.now request.now }
    ensures own { IsSeatOf shared.now seat.new }
    ensures free { IsFree seat.new.me }
    ensures number { seat.new.me.0.number ≡ seat.old.me.0.number }
    ensures made { IfOk result (λ done. MakesTurn image.now limits.now post.now given.now request.now hart.old hart.new watcher.old watcher.new
        part.old part.new seat.old.me.0.log seat.new.me.0.log) }
{
    let spent = serve(
        rt, alloc, shared, seat, gate, image, limits, post, hart, watcher, given, request, part,
    )?;
    let label = match spent {
        None => return Ok(()),
        Some(label) => label,
    };
    if watcher.clock_ref().slots() != limits.slots as usize {
        return Err(NoMemory);
    }
    leave_at_desk(rt, shared, seat, gate, limits, post, watcher, label, part)
}
