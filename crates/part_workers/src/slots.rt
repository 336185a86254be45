// A slot for the next instruction, where that needs one.
ghost use Rattle.std.specs.Prelude.{◌≡◌, ◌≢◌, true, false, None, IfOk};
ghost use Rattle.shared_table.specs.Seats.{IsSeatOf, IsFree};
ghost use Rattle.part_workers.specs.Needs.{HasSlot, Lacks};

use crate::desk::take_at_desk;
use crate::part::{PartSoFar, Post};
use hart_turns::ThreadState;
use race_core::Watcher;
use run_record::{Limits, NoMemory};
use shared_table::{Shared, SharedSeat};
use std::sync::Wait;
use tool_ports::Gate;
use vector_clock::Clock;

// Whether the thread needs a slot and has none.
fn is_without(watcher: &Watcher, needs: bool) -> bool
    ensures lacks { result ≡ true → (needs ≡ true) × (watcher.now.label ≡ None) }
    ensures has { result ≡ false → needs ≡ true → watcher.now.label ≢ None }
{
    needs && watcher.label().is_none()
}

/// The thread has a slot, where its next instruction needs one: it had one, or takes one in a turn of the desk, and `given` becomes what its
/// creator left for it. It tells whether the thread has one, where it needs one.
pub fn with_slot<R: Wait, G: Gate>(
    rt: &R,
    shared: &Shared,
    seat: &mut SharedSeat,
    gate: &G,
    limits: &Limits,
    post: &Post,
    state: &mut ThreadState,
    given: &mut Clock,
    part: &mut PartSoFar,
    needs: bool,
) -> Result<bool, NoMemory>
    requires own { IsSeatOf shared.now seat.old }
    requires free { IsFree seat.old.me }
    requires limits { shared.now.layout.limits ≡ limits.now }
    requires greatest { limits.now.epochs ≡ state.old.watcher.greatest }
    ensures own { IsSeatOf shared.now seat.new }
    ensures free { IsFree seat.new.me }
    ensures number { seat.new.me.0.number ≡ seat.old.me.0.number }
    ensures has { IfOk result (λ has. has ≡ true → HasSlot limits.now post.now needs state.old part.old seat.old.me.0.log state.new part.new
        seat.new.me.0.log given.new) }
    ensures lacks { IfOk result (λ has. has ≡ false → Lacks limits.now needs state.old state.new part.old part.new seat.old.me.0.log
        seat.new.me.0.log) }
{
    if !is_without(&state.watcher, needs) {
        return Ok(true);
    }
    if given.slots() != limits.slots as usize {
        return Err(NoMemory);
    }
    given.clear();
    take_at_desk(rt, shared, seat, gate, limits, post, state, given, part)
}
