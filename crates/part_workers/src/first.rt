// The first instruction of a thread that hasn't arrived. It needs a slot.
ghost use Rattle.std.specs.Prelude.{◌≡◌, true, false, IfOk};
ghost use Rattle.shared_table.specs.Layouts.{IsTableOf};
ghost use Rattle.shared_table.specs.Seats.{IsSeatOf, IsFree};
ghost use Rattle.part_workers.specs.Needs.{Goes, FindsNoSlot};

use crate::part::{PartSoFar, Post};
use crate::slots::with_slot;
use crate::turn::{ask, make};
use elf_image::Image;
use guest_code::Code;
use hart_turns::ThreadState;
use run_record::{Limits, NoMemory};
use shared_table::{Shared, SharedSeat};
use std::alloc::Global;
use std::sync::Wait;
use tool_ports::Gate;
use vector_clock::Clock;

/// The thread, which hasn't arrived, takes a slot, arrives with what its creator left for it, and makes its first instruction. It tells
/// whether it made it: not where no slot is free.
pub fn make_first<R: Wait, G: Gate>(
    rt: &R,
    alloc: Global,
    shared: &Shared,
    seat: &mut SharedSeat,
    gate: &G,
    image: &Image<'_>,
    code: &Code<'_>,
    limits: &Limits,
    post: &Post,
    state: &mut ThreadState,
    given: &mut Clock,
    part: &mut PartSoFar,
) -> Result<bool, NoMemory>
    requires own { IsSeatOf shared.now seat.old }
    requires free { IsFree seat.old.me }
    requires table { IsTableOf image.now limits.now shared.now }
    requires code { code.now ≡ image.now }
    requires greatest { limits.now.epochs ≡ state.old.watcher.greatest }
    ensures own { IsSeatOf shared.now seat.new }
    ensures free { IsFree seat.new.me }
    ensures number { seat.new.me.0.number ≡ seat.old.me.0.number }
    ensures goes { IfOk result (λ r. r ≡ true → Goes image.now limits.now post.now state.old state.new part.old part.new
        seat.old.me.0.log seat.new.me.0.log) }
    ensures none { IfOk result (λ r. r ≡ false → FindsNoSlot image.now limits.now post.now state.old state.new part.old part.new
        seat.old.me.0.log seat.new.me.0.log) }
{
    if state.hart.is_some() {
        return Err(NoMemory);
    }
    if !with_slot(
        rt, shared, seat, gate, limits, post, state, given, part, true,
    )? {
        return Ok(false);
    }
    let _label = state.watcher.label();
    let Some(hart) = &mut state.hart else {
        return Err(NoMemory);
    };
    if !hart.thread.lives || hart.thread.began {
        return Err(NoMemory);
    }
    let (request, _needs) = ask(hart, code, post.tid);
    make(
        rt,
        alloc,
        shared,
        seat,
        gate,
        image,
        limits,
        post,
        hart,
        &mut state.watcher,
        given,
        &request,
        part,
    )?;
    Ok(true)
}
