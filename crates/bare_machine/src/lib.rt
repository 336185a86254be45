//! The bare machine: threads that step over an executable and its memory, without a detector.
//!
//! It stands on the loader (`elf_image`), on instructions (`rv_decode`, `rv_exec`), on calls
//! (`entry_calls`), on guest words (`guest_memory`) and on the types of the record. The layer above uses three clauses: `step` is
//! the bare step of its definition, for every world, with its events and the object that it uses, where the thread has a slot or
//! needs none; `run_locals` and `make_plain` are such steps without events. The pieces of a step that
//! touch one thread or one word are public too, for a layer that steps a thread over a part of memory.
#![tactic(auto)]

mod asking;
mod machine;
mod memory;
mod plain;
mod request;
mod serving;
mod thread;
pub mod touch;

pub use machine::{DESK, Machine, Preview, Stepped, events_before, fault_number, first_end};
pub use memory::{Memory, stripe};
pub use plain::Plain;
pub use request::{Operation, Request, Return, Touch};
pub use serving::{
    answer_thread, begin_thread, depth_after, finish_call, minus, outcome, replaced, return_thread,
};
pub use thread::{Thread, new_thread};
pub use touch::{Touched, offset};
