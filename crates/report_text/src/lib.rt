//! Reports that are kept, and the texts of a run.
//!
//! Below stand `run_record` for the types of a report and of a whole run, `run_laws` for what a history reports,
//! and `symbol_lines` for the names of places. Earlier pairs of stacks are found through one `indexmap`, which keeps what
//! became of the first race with each. The layers above use the clause of `offer`, that one more report is one more step
//! of what is kept, by whatever rules suppress races (`Suppressions`), which it asks once about each pair of stacks; and
//! those of `text_of`, `summary` and `status_of`, which give each text byte for byte and a run's status. `pair_text` and
//! `hybrid_text` do so for two code places that race, by their names alone or with two accesses at them.
#![tactic(auto)]

mod fates;
mod pair;
mod reporter;
mod stack_pair;
mod status;
mod suppressions;
#[cfg(test)]
mod tests;
mod texts;

pub use pair::{Hybrid, Hybrids, Pair, Pairs, hybrid_text, pair_text};
pub use reporter::{Offered, Reporter};
pub use status::{end_status, status_of};
pub use suppressions::{Suppressions, Unsuppressed};
pub use texts::{summary, text_of};
