//! The limits of a graph.

/// The greatest number of vertices.
pub const MOST_VERTICES: u64 = 20_000;

/// The greatest number of edges.
pub const MOST_EDGES: u64 = 1_000_000;
