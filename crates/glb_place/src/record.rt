//! What a fabric keeps for one place, as clauses speak of it. No value of these types is made, so a
//! number in them has no last value.
use glb_core::{Edge, EdgeName, Local, Params};
use glb_cube::Lines;
use std::collections::LinkedList;

/// The state of an edge as it was last known.
pub struct KnownEdge {
    pub name: EdgeName,
    pub edge: Edge,
}

/// A place's number, the parameters and the lifelines of the run, the place's local state,
/// its edges as last known (of two states of one edge the first in the list counts), the total that
/// its last settle answered, whether it has read live as 0, and the greatest code that it has read
/// or set.
pub struct Record<I> {
    pub place: u32,
    pub params: Params,
    pub lines: Lines,
    pub local: Local<I>,
    pub known: LinkedList<KnownEdge>,
    pub last: u64,
    pub over: bool,
    pub code: u64,
}
