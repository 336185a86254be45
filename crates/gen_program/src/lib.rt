//! Programs made from a number, to try the tool on: three threads that each do so many operations
//! on shared data, which a random number generator chooses.
//!
//! It stands on the definitions of `elf_image` and `rv_decode`, and calls neither; `run_record` has
//! its error. The layer above uses the clauses of `make`: the bytes are exactly those of
//! `specs/Program.antt`, and the loader accepts them. `laws.rt` says that each word is the
//! instruction that it is named for, and that the words are fetched from the file one after another.
#![tactic(auto)]

mod draws;
mod encoding;
mod executable;
mod generator;
mod laws;
mod notation;
#[cfg(test)]
mod tests;

pub use generator::make;
pub use laws::{address_law, code_law, fetch_law, word_law};
