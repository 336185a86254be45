//! Laws of the bare machine's steps: which events a step has, and how they change the threads.
//!
//! `bare_machine` says what a step is, `run_laws` what a history is, and `slot_desk` what a desk keeps. The
//! definitions in specs/ stand between them: the machine in the form that histories are told of (`bare_of`),
//! its threads (`threads_in`), the events that a thread may make (`AreAllowed`), and the desk that keeps the same
//! threads (`Agrees`). The functions do nothing: the contract of each is a law. The layer above cites `step_law`
//! and `needs_law` of each instruction that it runs, and the laws of `desks` at each event.
#![tactic(auto)]

mod desks;
mod steps;

pub use desks::{
    attach_agrees, create_agrees, detach_agrees, end_agrees, full_law, join_law, new_agrees,
    reset_agrees, stay_agrees, step_agrees,
};
pub use steps::{
    alive_law, allowed_law, depth_law, kept_law, local_law, needs_law, start_law, step_law,
};
