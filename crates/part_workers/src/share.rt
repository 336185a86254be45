// A worker's thread makes its share, one instruction after another.
ghost use Rattle.std.specs.Prelude.{◌≡◌, ◌≤◌, [], true, false, None, IfOk};
ghost use Rattle.turn_orders.specs.LineUp.{with_stamp};
ghost use Rattle.shared_table.specs.Layouts.{IsTableOf};
ghost use Rattle.shared_table.specs.Seats.{IsSeatOf, IsFree};
ghost use Rattle.hart_parts.specs.Parts.{HasEnded};
ghost use Rattle.hart_turns.specs.Slots.{local_in, hand_of};
ghost use Rattle.part_workers.specs.Needs.{IsLiving, Goes, FindsNoSlot};
ghost use Rattle.part_workers.specs.Shares.{GoesAlong, HasStopped};
ghost use Rattle.part_workers.specs.Standing.{IsOfPart};
ghost use Rattle.part_workers.specs.Works.{IsUntold};

use crate::alone::make_plain;
use crate::first::make_first;
use crate::next::go_on;
use crate::part::{PartSoFar, Post};
use elf_image::Image;
use guest_code::Code;
use hart_turns::ThreadState;
use run_record::{Limits, NoMemory};
use shared_table::{Shared, SharedSeat};
use std::alloc::Global;
use std::sync::Wait;
use tool_ports::Gate;
use vector_clock::Clock;

// Whether the thread has ended.
fn has_ended(state: &ThreadState) -> bool
    ensures ended { result ≡ true → HasEnded (local_in state.now.hart).thread }
    ensures living { result ≡ false → IsLiving state.now.hart }
{
    match &state.hart {
        Some(hart) => !hart.thread.lives,
        None => false,
    }
}

// The thread makes instructions that touch its registers alone, at most so many, if it has arrived and lives. It tells how many.
fn make_some(
    state: &mut ThreadState,
    code: &Code<'_>,
    most: u32,
    part: &mut PartSoFar,
) -> Result<u32, NoMemory>
    ensures few { IfOk result (λ n. n ≤ most) }
    ensures goes { IfOk result (GoesAlong code.now state.old state.new part.old part.new) }
{
    match &mut state.hart {
        Some(hart) => {
            if !hart.thread.lives {
                return Ok(0);
            }
            make_plain(hart, code, most, part)
        }
        None => Ok(0),
    }
}

// The thread makes its next instruction, be it the first one or not. It tells whether it made it: not where no slot is free.
fn make_next<R: Wait, G: Gate>(
    rt: &R,
    alloc: Global,
    shared: &Shared,
    seat: &mut SharedSeat,
    gate: &G,
    image: &Image<'_>,
    code: &Code<'_>,
    limits: &Limits,
    post: &Post,
    state: &mut ThreadState,
    given: &mut Clock,
    part: &mut PartSoFar,
) -> Result<bool, NoMemory>
    requires own { IsSeatOf shared.now seat.old }
    requires free { IsFree seat.old.me }
    requires table { IsTableOf image.now limits.now shared.now }
    requires code { code.now ≡ image.now }
    requires greatest { limits.now.epochs ≡ state.old.watcher.greatest }
    ensures own { IsSeatOf shared.now seat.new }
    ensures free { IsFree seat.new.me }
    ensures number { seat.new.me.0.number ≡ seat.old.me.0.number }
    ensures goes { IfOk result (λ r. r ≡ true → Goes image.now limits.now post.now state.old state.new part.old part.new
        seat.old.me.0.log seat.new.me.0.log) }
    ensures none { IfOk result (λ r. r ≡ false → FindsNoSlot image.now limits.now post.now state.old state.new part.old part.new
        seat.old.me.0.log seat.new.me.0.log) }
{
    if state.hart.is_none() {
        return make_first(
            rt, alloc, shared, seat, gate, image, code, limits, post, state, given, part,
        );
    }
    go_on(
        rt, alloc, shared, seat, gate, image, code, limits, post, state, given, part,
    )
}

// The thread makes its part of a round: instructions, until they are as many as its share, or it ends, or it needs a slot and none is free.
// It tells whether it was starved so.
pub(crate) fn make_share<R: Wait, G: Gate>(
    rt: &R,
    alloc: Global,
    shared: &Shared,
    seat: &mut SharedSeat,
    gate: &G,
    image: &Image<'_>,
    code: &Code<'_>,
    limits: &Limits,
    post: &Post,
    share: u32,
    state: &mut ThreadState,
    given: &mut Clock,
    part: &mut PartSoFar,
) -> Result<bool, NoMemory>
    requires own { IsSeatOf shared.now seat.old }
    requires free { IsFree seat.old.me }
    requires new { seat.old.me.0.log ≡ [] }
    requires table { IsTableOf image.now limits.now shared.now }
    requires code { code.now ≡ image.now }
    requires of_part { IsOfPart limits.now post.now state.old }
    requires untold { IsUntold part.old }
    ensures own { IsSeatOf shared.now seat.new }
    ensures free { IsFree seat.new.me }
    ensures number { seat.new.me.0.number ≡ seat.old.me.0.number }
    ensures stopped { IfOk result (HasStopped image.now limits.now post.now share (with_stamp (hand_of state.old None) part.old.last)
        seat.new.me.0.log state.new part.new) }
{
    let mut left = share;
    for _ in 0..share {
        left -= make_some(state, code, left, part)?;
        if left == 0 || has_ended(state) {
            return Ok(false);
        }
        if !make_next(
            rt, alloc, shared, seat, gate, image, code, limits, post, state, given, part,
        )? {
            return Ok(true);
        }
        left -= 1;
    }
    Ok(false)
}
