//! Runs of one thread at a time, by a plan of turns.
//!
//! It stands on a machine and the detector that watches it (`thread_turns`), on the laws of rounds
//! (`run_laws`) and of reports (`report_laws`), and on what a run is (`whole_runs`). A run goes by rounds:
//! each gives one live thread so many instructions, and its reports are told at its end; where the thread
//! was starved of a slot a new era begins. The command above uses one clause: what `run_plan` gives is a
//! run of the file by the limits and the plan, with the reports of its history.
#![tactic(auto)]

mod engine;
mod turns;

pub use engine::run_plan;
