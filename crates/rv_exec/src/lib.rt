//! One instruction of RV64I, M or A on the registers of a thread, after the RISC-V unprivileged
//! manual.
//!
//! What each instruction does stands in specs/Meaning.antt, one row an instruction, over the words
//! of specs/Words.antt. `rv_decode` stands below it. What runs threads uses that `begin`, and then
//! `finish` with the value that memory gave, do what the instruction's row says.
#![tactic(auto)]

mod atomics;
mod exec;
mod fault;
mod outcome;
mod regs;
mod words;

pub use atomics::amo;
pub use exec::{Effect, begin};
pub use fault::GuestFault;
pub use outcome::finish;
pub use regs::Regs;

#[cfg(test)]
mod tests;
