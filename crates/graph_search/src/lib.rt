//! Directed graphs over numbered nodes, how few links lead from one node to each, and which are reached from one another.
//!
//! It stands on nothing. `Graph::new` puts the links of a graph in order, and `Graph::turned` turns them round; of
//! `distances` the crate above uses that each number is that of a shortest walk, and 0 where there is none, and of `knots`
//! that two nodes have the same number exactly where each is reached from the other. Each takes time and memory in
//! proportion to nodes and links.
#![tactic(auto)]

mod descent;
mod graph;
mod knot;
mod search;

pub use graph::{Graph, Link};
pub use knot::knots;
pub use search::distances;
