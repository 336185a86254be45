//! What is kept of a run that wasn't finished, and what is put of a run while it goes on.
//!
//! `run_laws` says what a lawful history is, `one_history` that threads which run one at a time have one, and `whole_runs`
//! what a run is (`IsRun`). The definitions in specs/ say the same of a run that stopped at the end of one of its rounds
//! (`IsPartial`), and what a call leaves on its sinks that puts each round's output and reports at the round's end
//! (`LeavesRun`). The functions do nothing: the contract of each is a law. An engine cites `no_rounds_law`, `lawful_start_law` and
//! `put_law` in its rounds, `whole_law` at its end, and the layer above `part_put_law`.
#![tactic(auto)]

mod partial;
mod partials;
mod puts;
mod starts;

pub use partial::{Partial, RunFault};
pub use partials::{no_rounds_law, partial_law, partial_races_law, round_end_law, whole_law};
pub use puts::{answer_law, cut_law, cut_part_law, part_put_law, put_law};
pub use starts::{first_reports_law, lawful_start_law, output_grows, start_law};
