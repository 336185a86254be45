//! One thread's watcher: its label, its clock, its stack, the locks that it keeps and its trace, and
//! what a check of one of its accesses finds.
//!
//! Below stand `run_record` and `run_laws` with events and the definitions over histories,
//! `vector_clock`, `shadow_word` with the decision of a check, `elf_image` with the granules of
//! addresses, and `trace_parts`. The layer above uses one clause of each call of `Watcher`, which
//! says by a function of specs/Watched.antt what the watcher is after it; the laws, by which that is
//! what the definitions over histories say of the thread; and two clauses more: `plan_access` gives
//! the parts of an access, and `check_part` the word of a part and the decision over its four cells.
//! Only `new`, `room` and `side_now` take memory.
#![tactic(auto)]

mod laws;
mod parts;
mod watcher;

pub use laws::{
    attach_law, beyond_law, end_law, enter_law, era_law, event_law, first_law, other_law, own_law,
    parts_law, quiet_law, raise_law, room_law, side_law, whole_clock_law,
};
pub use parts::Parts;
pub use watcher::{Candidate, Watcher};
