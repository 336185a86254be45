//! The detector of threads that run one at a time: what stands after the moments of a history, kept along
//! them.
//!
//! Below stand the desk of slots (`slot_desk`), synchronisation objects (`sync_slab`), one watcher a thread
//! (`race_core`) and the words of shadow cells (`shadow_word`), each with laws by which it goes with the
//! moments of a history, and what an event makes of them (`hart_events`). Here they stand side by side.
//! The layer above uses one clause of each call: a detector that stands as a history leaves it (`Stands`)
//! stands so after one more moment, with the checks that the moment is told to have. At the end of a round
//! `tell` offers the reports of its races to the reporter of `report_text`; each stands as the laws of
//! `report_laws` ask for, and by `round_law` the next round begins. `find_owner` and `tell_previous` tell the
//! earlier access of a report by a desk and a trace alone, where these stand without a detector.
#![tactic(auto)]

mod access;
mod clocks;
mod detector;
mod event;
mod previous;

pub use detector::Detector;
pub use previous::{find_owner, round_law, tell_previous};
