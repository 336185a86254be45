//! Shadow cells: the word that an access leaves in one of a granule's four cells, and what a check
//! of the four finds.
//!
//! Below stand `vector_clock` for the clock of a check, and the words of `run_laws`. The layers
//! above use two clauses: `pack` and `unpack` are each other's inverse, and `decide` answers by
//! the tests of `run_laws` where the check's own word is that of its cell. Nothing here takes
//! memory.
#![tactic(auto)]

mod cell;
mod decision;
mod fields;

pub use cell::{Cell, distinct_law, pack, unpack, word_law};
pub use decision::{Decision, decide};
