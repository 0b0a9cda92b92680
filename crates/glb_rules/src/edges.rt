//! The edges of a place as it sees them.
use super::kinds::{Edge, Kind, Mark};

/// An edge whose victim the place is.
#[derive(Clone, Copy, Debug, PartialEq, Eq)]
pub struct InEdge {
    pub thief: u32,
    pub kind: Kind,
    pub mark: Mark,
    pub edge: Edge,
}

/// A lifeline of the place.
#[derive(Clone, Copy, Debug, PartialEq, Eq)]
pub struct OutEdge {
    pub victim: u32,
    pub edge: Edge,
}
