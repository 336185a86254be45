//! A worker of a round: what its thread makes, one turn after another, and what it tells of that.
//!
//! A worker keeps its thread's state, and what it has told so far (`PartSoFar`). Instructions without an object are gathered. One at an
//! object is made in a turn of that: the worker takes it, makes the instruction with its checks, draws a stamp, tells the entry of what
//! was gathered and of this one, and gives the object back. A slot is taken, or left, in a turn of the desk.
//!
//! `HartWorker` goes on so until its thread has made its share, or ends, or needs a slot where none is free: first what touches registers
//! alone, as many at once as there are, then one instruction of any kind. A thread that hasn't arrived takes a slot first, and arrives.
//! After each of these nothing is owed, so the part may end there; and then the worker tells what was gathered last.
//!
//! `hart_turns` stands below this crate with what a turn makes of the thread and of one object, `shared_table` with the objects, and
//! `part_growth` with the laws, whose premises are the clauses of these functions: `IsTurn`, `TakesSlot`, `LeavesSlot`,
//! `AwaitsInstruction`, `IsEntryWith`, `TellsNote`. The layer above uses the clause of `HartWorker` as a worker of the table, `Works`: that it
//! tells a whole part (`TellsPart`) and keeps its entries and what awaits, unless it failed.
#![tactic(auto)]

mod alone;
mod begin;
mod desk;
mod first;
mod laws;
mod next;
mod object;
mod part;
mod rest;
mod share;
mod slots;
#[cfg(test)]
mod tests;
mod turn;
mod worker;

pub use alone::{make_gathered, make_plain};
pub use desk::{leave_at_desk, take_at_desk};
pub use first::make_first;
pub use laws::{ends_law, first_law, making_law, slots_law};
pub use next::go_on;
pub use object::{make_in_desk, make_in_stripe};
pub use part::{PartSoFar, Post, Waiting};
pub use rest::tell_rest;
pub use slots::with_slot;
pub use turn::{ask, make};
pub use worker::HartWorker;
