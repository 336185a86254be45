//! The instruction words of RV64I with the extensions M and A, after the RISC-V unprivileged manual.
//!
//! The table of instructions stands in specs/Table.antt, one row an instruction. It stands on no
//! other crate. What executes instructions uses that `decode` answers the instruction of the row
//! that matches the word, and `None` exactly where no row does.
#![tactic(auto)]

mod decoder;
mod fields;
mod instr;
mod laws;

pub use decoder::decode;
pub use instr::{Instr, Op};
pub use laws::one_row;
