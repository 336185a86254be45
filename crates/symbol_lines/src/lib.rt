//! Function names, files and lines of code places.
//!
//! `Names::read` takes the symbol table and the sections .debug_line, .debug_str and .debug_line_str of an accepted file
//! (`elf_image`), and `Names::frame` gives what is known of a place: its function, of those that have it the one with the
//! greatest start and the first of these in the table (System V ABI, "Symbol Table"), and its file and line, those of the
//! last row at or below it in the first sequence that has it (DWARF 2 to 5, "Line Number Information"). Units of different
//! versions may stand in one file. `run_record` names want of memory. A table that is malformed gives no names; a unit that
//! is malformed or of another version gives no lines.
//!
//! In contracts names are the tables that they were read from, `tables_of` of `specs/Frames.antt`; a frame is `frame_in`
//! there: its name is `name_of` of `specs/Symbols.antt`, and its file and line are `position_at` of `specs/Lines.antt`. The
//! layers above use the clauses of these two calls, and know names as `Frames`. `read` sorts functions and sequences, also
//! where they nest or overlap, into tables of steps, keeps of each sequence the rows that a place can have, and finds where
//! each text of the string table and of the two sections of texts ends. Texts stay parts of the executable: a file's text is
//! a `FileText`, its directory and its name apart, so that no table refuses a file. `read` tests each text once, however many
//! symbols, directories and files share it, and takes memory in proportion to the file; `frame` is a binary search in each
//! table and takes no memory.
#![tactic(auto)]

mod entries;
mod frames;
mod machine;
mod name_table;
mod names;
mod operations;
mod paths;
mod positions;
mod program;
mod reading;
mod rows;
mod sequences;
mod spans;
mod symbols;
#[cfg(test)]
mod tests;
mod text_sections;
mod units;

pub use frames::{FileText, Frame, Frames, Unnamed};
pub use names::Names;
