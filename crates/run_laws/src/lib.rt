//! What a lawful history is, and which reports it has.
//!
//! Only `run_record` stands below this crate. Its definitions stand in specs/: order, labels, clocks, words,
//! checks, loads, candidates, stacks, traces, reports, rounds and lawful histories, over a bare machine that is
//! left open. Its functions do nothing: the contract of each is a law about these definitions. The layers above
//! cite the definitions in their contracts and the laws in their proofs, `clock_law`, `candidate_law` and
//! `conflict_law` above all. `rows`, `channel_rows` and `cell_rows` show the definitions
//! at work on small histories.
#![tactic(auto)]

mod candidates;
pub mod cell_rows;
pub mod channel_rows;
mod frames;
mod loads;
mod order;
mod reports;
pub mod rows;

pub use candidates::{candidate_law, race_law};
pub use frames::{label_frame, left_clock_frame, thread_clock_frame};
pub use loads::last_store_law;
pub use order::{clock_law, era_law, queue_law, slot_law, slot_order_extends};
pub use reports::{conflict_law, report_law, reports_law};
