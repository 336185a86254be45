//! What a thread's watcher and one object make of an event, and of a slot that is taken.
//!
//! Each call is given the watcher of a thread and, where the event reaches one, the synchronisation objects of a place or the desk; it
//! knows neither the machine nor how objects are shared. `slot_desk`, `sync_slab` and `race_core` stand below this crate with their
//! calls, and `thread_events` with the definitions. The layers above use the clauses, which are in the terms of `thread_events`:
//! what the watcher is after the event (`watcher_after`), and what is left at its place (`ObjectsAfter`, `desk_after`, `Attaches`).
//! So its laws hold of whoever calls, one thread at a time or many at once.
//! What the checks of an access find waits for the end of its round by `wait_for`.
//! `hear_at_object` and `hear_at_desk` choose by the event's kind; who has chosen already makes the call of that kind.
#![tactic(auto)]

mod checks;
mod hear;
mod slots;

pub use checks::{Raced, first_raced, raced_word, stored_word, wait_for};
pub use hear::{
    Heard, acquire, begin, create, end, hear_alone, hear_at_desk, hear_at_object, join, release,
};
pub use slots::{Attaching, attach};
