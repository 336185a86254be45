//! The words of a command line: what they ask for, or why they are refused.
//!
//! Below stand `run_record`, with limits and plans, and the kit's `clap`, which takes words apart
//! into a command, a file and options. The layer above uses the clauses of `read_words`: its answer
//! is the one of the definition `request_of`, unless memory runs out, and the limits of an accepted
//! request are in their ranges. `laws` says what the definition makes of some words.
#![tactic(auto)]

mod command;
pub mod laws;
mod numbers;
mod plans;
mod reader;
mod request;
#[cfg(test)]
mod tests;

pub use reader::read_words;
pub use request::{Refusal, Request, Search, Task, UsageFault};
