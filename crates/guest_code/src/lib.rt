//! The instructions of an executable, decoded once, and the loop of those that touch registers alone.
//!
//! `Code` borrows an image and keeps, for each executable region, the instructions of the bytes that the file has for it:
//! instructions are read from the file, so that no store changes them. What threads keep is lent to it a call at a time. Below
//! stand the loader (`elf_image`) and instructions (`rv_decode`, `rv_exec`). The machine above uses two clauses: `run_locals`
//! makes so many instructions of the file, one after another, none of which touches more than registers (`locals`), and an
//! instruction that `instr` tells is the file's at that address (`IsKnown`).
#![tactic(auto)]

mod block;
mod code;

pub use code::Code;

#[cfg(test)]
mod tests;
