//! Synchronisation objects: the clocks that releases leave at addresses, for later acquires.
//!
//! Below stand `vector_clock` for the clocks, `run_record` for the parts of an address, and `run_laws`
//! for what was left at a channel in a history. Objects lie in a `slab` and are found through an
//! `indexmap`. The layers above use the clauses of `SyncSet`, which name the object that each call
//! changes, and the laws that a set keeps the channels of a history along its events.
#![tactic(auto)]

mod channels;
mod id;
mod index;
mod object;
mod set;
#[cfg(test)]
mod tests;

pub use channels::{
    acquire_law, clear_law, destroy_law, empty_law, release_law, reserve_law, rest_law,
};
pub use set::SyncSet;
