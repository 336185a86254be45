//! The calls of a guest: services of the machine, and the `__tsan_` entry functions of compiler-rt
//! by which an instrumented program announces its accesses, locks and atomics.
//!
//! Which numbers and arguments a call has stands in specs/Calls.antt, and which events it has and
//! what it stores and answers in specs/Effects.antt, one row a call. `rv_exec` has the registers and
//! `run_record` the events. The machine above uses that the call is a function of the registers, and
//! its events of the call and its outcome.
#![tactic(auto)]

mod announcing;
mod call;
mod events;
mod memory;
mod reading;

pub use announcing::{events_of, needs_slot};
pub use call::{AtomicOp, Call, Outcome};
pub use events::CallEvents;
pub use memory::{atomic_answer, atomic_word};
pub use reading::read_call;

#[cfg(test)]
mod tests;
