//! Reports found along a growing history are the reports of the history.
//!
//! Below stand `run_record`, with entries and reports, `run_laws`, with the definitions of candidates and
//! reports, and `trace_parts`, with what a trace holds. The functions here do nothing: the contract of each
//! is a law. The layer above keeps a `Finds` while it steps threads: along a round it collects what the
//! threads' clocks find by `checks_law` and `collects_law`; at the round's end it tells the reports of these
//! from traces, with the premise of a call of `restore` by `previous_law`, and goes on by `next_round_law`.
//! The other laws are the steps to that. `stands_law` and `races_law` say what reports stand for, and
//! `offered_law` that no access which loads the word of a race is passed over. The premises
//! of all of them are those of a lawful history, by `sound_law`.
#![tactic(auto)]

mod candidates;
mod collected;
mod grown;
mod offered;
mod previous;
mod reports;
mod rounds;
mod sound;

pub use candidates::{checks_law, quiet_law, race_law};
pub use collected::{collected_law, collects_law};
pub use grown::{awaits_law, candidate_law, found_law, round_law};
pub use offered::offered_law;
pub use previous::{owner_law, previous_law};
pub use reports::{kept_law, races_law, reports_law, stands_law};
pub use rounds::next_round_law;
pub use sound::sound_law;
