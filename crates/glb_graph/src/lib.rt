//! Directed graphs, read from text, and the distances in them.
#![tactic(auto)]

mod dist;
mod graph;
pub mod laws;
mod limits;
mod ranged;
mod search;
#[cfg(test)]
mod tests;
mod text;

pub use dist::{Dist, Spot};
pub use graph::Graph;
pub use limits::{MOST_EDGES, MOST_VERTICES};
pub use text::{GraphFault, read_graph, read_pair};
