//! What one thread's turns make of the thread's own state and of one object of the shared table.
//!
//! A thread has its registers and its watcher (`Hand`). It takes a slot at the desk or leaves it, and makes an instruction: alone, at a
//! stripe of memory, or at the desk. Its events are heard one after another, each access with its checks at the shadow cells, which
//! are loaded and stored through the seat without a lock. An access whose checks loaded a word that races by the thread's clock waits
//! for the end of the round (`Findings`).
//!
//! `hart_steps` and `hart_events` stand below this crate with what they do to one object, `shared_table` with the cells, and
//! `placed_detector` with the definitions. The layer above takes and gives the objects, and uses the clauses: what each turn makes
//! is what a worker has to say of it (`TakesSlot`, `LeavesSlot`, `HearsEvents`, `AwaitsInstruction`).
#![tactic(auto)]

mod at_desk;
mod check;
mod desk;
mod events;
mod hear;
mod instruction;
mod make;
mod serve;
mod slots;
mod unheard;

pub use at_desk::make_at_desk;
pub use check::{Findings, check_access};
pub use desk::serve_at_desk;
pub use events::hear_event;
pub use hear::Hearing;
pub use instruction::hear_all;
pub use make::{make_alone, make_at_stripe};
pub use slots::{ThreadState, leave_slot, take_slot};
