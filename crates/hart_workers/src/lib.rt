//! A run whose threads go at once: rounds of workers over the shared table.
//!
//! Between two rounds all threads are idle (`crew`) and the desk is free. In a round each thread that lives has a worker, which makes its
//! share of instructions, while the others make theirs (`making`). At the round's end the entries of all workers are merged, and the accesses
//! that raced are sorted as the entries are (`pending`). Then, in a turn of the desk, their reports are told (`telling`), the next era begins
//! where a thread was starved, and it is read whether one more round is due (`closing`, `reading`).
//!
//! `part_workers` stands below this crate with the worker, `shared_table` with the table and its rounds, `detector` with what a report is
//! told from, and `made_rounds` with the laws: what is carried from round to round is a run when it is over. The command above uses one
//! clause: what `run_rounds` gives is a run of the file by the limits, whatever order the steps of its threads had, with the reports of its
//! history.
#![tactic(auto)]

mod closing;
mod crew;
mod making;
mod pending;
mod reading;
mod rounds;
mod run;
mod telling;

pub use run::run_rounds;
