//! A turn of one thread: some instructions of the bare machine, whose events the detector hears, become
//! entries of a history.
//!
//! Below stand the machine (`bare_machine`) and the detector (`detector`), which know nothing of one
//! another, and the laws of `turn_laws` and `machine_laws`. The layer above uses one clause: where
//! machine and detector follow a history, they follow it with the entries that `take_turn` appends
//! (`Follows`, `TakesTurn`).
#![tactic(auto)]

mod entries;
mod part;
mod turn;
mod watched;

pub use part::Part;
pub use watched::{TurnEnd, WatchedMachine};
