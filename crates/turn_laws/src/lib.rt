//! How a lawful history grows by one turn of a thread, where threads run one at a time.
//!
//! `run_record` and `run_laws` stand below this crate. Its definitions stand in specs/: histories that are
//! lawful so far, turns with what they add and need, and moments that are still going on. Its functions do
//! nothing: the contract of each is a law about these definitions. The layer above keeps a history lawful
//! turn by turn with `turn_law`, an event at a time with `push_law` and `spend_law`, takes a label late with
//! `only_puts_law`, and ends with `whole_law`.
#![tactic(auto)]

mod going;
mod steps;
mod still;
mod turns;

pub use going::{alike_law, era_step, grouped_law, push_law, same_items_law, spend_law};
pub use steps::{instruction_law, moments_law, next_turn_law, part_law};
pub use still::{only_puts_law, still_law};
pub use turns::{start_law, turn_law, whole_law};
