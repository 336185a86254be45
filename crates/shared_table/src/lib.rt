//! The table that the workers of a run share: 64 memory stripes and the desk, each under a lock, and
//! the shadow cells as words without a lock.
//!
//! Below stand `atomic_table` for the atomic steps, `slot_desk`, `machine_desk` and `sync_slab` for what
//! lies under the locks, `guest_memory` for reservations, `elf_image` for the granules and first words, `run_record`
//! for limits and lists, and `shadow_word` for the words of cells. Each step appends its item to its
//! seat's log. Where no seat is out the opening seat has all logs, there is one order of all their
//! items, and each turn found what the turn of its object before it left: this is the clause that the
//! layer above uses, of `join`, `close` and `take`.
#![tactic(auto)]

mod closing;
pub mod laws;
mod object;
mod opening;
mod plays;
mod shared;
#[cfg(test)]
mod tests;
mod view;
mod workers;

pub use guest_memory::Reservations;
pub use object::{DeskState, GuestWords, Object, Stripe};
pub use plays::SharedSeat;
pub use shared::{CellWords, Closed, Shared, Stripes};
pub use workers::{Worker, round, useful_threads};
