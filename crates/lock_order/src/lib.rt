//! The order in which threads take mutexes. Where it has a cycle, another run may end in a deadlock.
//!
//! Below stand `run_record`, with histories, `run_laws`, with the locks that a thread keeps at each moment,
//! `kept_locks`, which keeps those of all threads while a history goes on, `report_text`, whose words for an address and a
//! thread are used, and `graph_search`, whose `knots` are those of mutexes and whose `distances` those of shortest ways from
//! one mutex to another. `edges` lists each pair of mutexes of which one was taken while the other was kept; `cycles` gives
//! for each knot of them, a set of which each reaches each, its first shortest cycle; `cycle_text` writes one, and
//! `lock_text` all of a history, which `tsanrun_cli` tells for the command `locks`.
#![tactic(auto)]

mod cycle;
mod edge;
mod found;
mod knot;
mod laws;
#[cfg(test)]
mod tests;
mod text;

pub use cycle::{Cycle, cycle_text};
pub use edge::{Edge, Edges, edges};
pub use knot::{Cycles, cycles};
pub use laws::lock_text_law;
pub use text::{LockText, lock_text};
