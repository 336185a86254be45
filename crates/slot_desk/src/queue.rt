// The queue of free slots.
ghost use Rattle.std.specs.Prelude.{◌≡◌, ◌≤◌, [], length};
ghost use Rattle.std.specs.VecDeque.{deque_capacity};
ghost use Rattle.run_laws.specs.Numbers.{up_from};

use std::collections::VecDeque;

// Each slot once, in the order of their numbers.
pub fn refill(queue: &mut VecDeque<u8>, slots: u8)
    requires { slots ≤ deque_capacity queue.old }
    ensures items { queue.new.items ≡ up_from 0 slots }
    ensures capacity { deque_capacity queue.new ≡ deque_capacity queue.old }
{
    queue.clear();
    for sid in 0..slots {
        queue.push_back_reserved(sid);
    }
}
