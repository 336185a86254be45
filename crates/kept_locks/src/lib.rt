//! Which mutexes each thread keeps, and in which way, at each moment of a recorded history.
//!
//! Below stand `run_record`, with events, `run_laws`, with the locks that a thread keeps at each position of a history, and
//! `trace_parts`, whose laws of such locks the proofs use. The locks of all threads are one list; `note` takes it past one event
//! of a thread, and `locks_of` lists those of one thread, the first taken first.
#![tactic(auto)]

mod held;
#[cfg(test)]
mod tests;

pub use held::{Held, locks_of, note};
