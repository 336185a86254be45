// Threads that the machine has made, and that the desk's slots haven't heard of.
ghost use Rattle.std.specs.Prelude.{◌≡◌, ◌<◌, ◌≤◌, true, false, length};
ghost use Rattle.run_record.specs.declared.limits.Limits.{Limits as RunLimits};
ghost use Rattle.shared_table.specs.Past.{HasThreads};
ghost use Rattle.hart_turns.specs.Places.{HasAllMade};
ghost use Rattle.hart_turns.specs.AtDesk.{IsLoose, IsWhole};

use bare_machine::Thread;
use run_record::{Items, Limits};
use shared_table::{DeskState, Object};
use slot_desk::Desk;
use std::alloc::Global;

// Whether of so many threads one was never heard of at the desk.
pub(crate) fn has_unheard(desk: &Desk, made: usize) -> bool
    requires few { made ≤ 1024 }
    ensures some { result ≡ true → desk.now.made < made }
    ensures none { result ≡ false → made ≤ desk.now.made }
{
    if made == 0 {
        return false;
    }
    let _living = desk.living();
    desk.lives_if_made(made as u64 - 1).is_none()
}

// The machine forgets the threads that the desk's slots haven't heard of.
fn forget_unheard(desk: &mut DeskState, alloc: Global)
    requires all { HasAllMade desk.old }
    ensures threads { HasThreads desk.new }
    ensures desk { desk.new.desk ≡ desk.old.desk }
{
    let mut made: Vec<Thread> = std::mem::replace(
        &mut desk.machine.made,
        Items::new(alloc),
    ).into_vec();
    while has_unheard(&desk.desk, made.len()) {
        let _last = made.pop();
    }
    desk.machine.made = Items::from_vec(made);
}

// After a turn at the desk that may have failed in the middle, the machine has the threads of which the slots have heard, and no
// others. Tells whether that was so.
pub(crate) fn settle(place: &mut Option<Object>, limits: &Limits) -> bool
    requires loose { IsLoose limits.now place.old }
    ensures whole { IsWhole limits.now place.new }
    ensures same { result ≡ true → place.new ≡ place.old }
{
    match place {
        Some(Object::Desk(desk)) => {
            if !has_unheard(&desk.desk, desk.machine.made.len()) {
                return true;
            }
            let alloc = *Box::allocator(desk);
            forget_unheard(desk, alloc);
            false
        }
        _ => unreachable!(),
    }
}
