//! Tests that cross crates: an example program is written as a short text, assembled into an
//! executable, and handed to the command over files and sinks in memory.
//!
//! Below it stand the command with all that it uses. No layer stands above. What it promises is
//! that assembling is safe on every text; its tests say what the command writes.
#![tactic(auto)]

mod assembler;
mod blocks;
mod calls;
mod elf_file;
mod encoding;
mod error;
mod instruction;
mod mnemonics;
mod numbers;
#[cfg(test)]
mod rows;

pub use assembler::assemble;
pub use elf_file::{DebugSection, Form};
pub use error::AssemblyError;
