//! Vector clocks: for each slot, the last epoch of it whose releases are known.
//!
//! Of the crates below, `run_record` gives want of memory its name. Contracts see a clock as the
//! list of its epochs, slot 0 first. The layers above use one clause of each call, which says that
//! list pointwise: `join` leaves the greater epoch of each slot. Only `Clock::new` takes memory.
#![tactic(auto)]

mod clock;

pub use clock::Clock;
