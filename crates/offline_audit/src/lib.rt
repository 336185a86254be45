//! What happens before what in a recorded run, and all its races, whatever the shadow cells forgot.
//!
//! Below stand `run_record`, with histories, `run_laws`, with accesses, their conflicts and happens-before over a history's
//! moments, without slots, `elf_image`, which tells the granules, and `report_text` and `symbol_lines`, by which pairs of
//! code places are written with their names. An `Order` tells of any two events of a history whether
//! one happens before the other (`Order::before`), also where the events are left out by which mutexes order threads
//! (`Order::without_mutexes`). The history needn't be lawful. It keeps for each thread when it first knew how much of each
//! other one, so it grows with what threads hear of each other.
//!
//! `pairs` lists the pairs of code places of which some two accesses conflict and are in no order: by its clause `exact`, on
//! which the layer above stands, those and no others, and by `rising` each once and in order. It puts accesses of one thread,
//! place, range and manner into one group, whose events come one after another. Two groups are compared only where they touch
//! a common byte, by one passage through both, and only until their pair of places is found. `pair_texts` gives all that the
//! command `audit` tells of a history.
#![tactic(auto)]

mod access;
mod clock;
mod earliest;
mod group;
mod heard;
mod known;
mod laws;
mod mutex;
mod order;
mod pair;
#[cfg(test)]
mod race_tests;
mod races;
mod sweep;
#[cfg(test)]
mod tests;
mod text;

pub use laws::pair_text_law;

mod walked;

pub use order::{EventName, Order};
pub use races::pairs;
pub use text::{PairTexts, pair_texts};
