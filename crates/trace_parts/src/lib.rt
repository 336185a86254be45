//! Bounded traces: what one thread did lately, in few words, so that an earlier access can be told
//! with its stack and locks.
//!
//! Below stand `run_record`, with labels, places and locks, and `run_laws`, with the definitions of
//! a trace, its parts and the folds. The layer above uses the clauses of `Trace`: after `room` four
//! calls of `push` take no memory, each `push` is one step of the cutting rule, and `restore` gives
//! the first access with a cell word, or `Lost` exactly where the label's event is held no more.
#![tactic(auto)]

mod event;
mod label_range;
mod restored;
mod ring;
mod spell;
mod standing;
mod trace;

pub use event::TraceEvent;
pub use restored::Restored;
pub use spell::{Words, decode, encode};
pub use trace::Trace;
