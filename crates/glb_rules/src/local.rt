//! A place's local state, as clauses speak of it. No value of these types is made, so a
//! number in them has no last value.
use super::kinds::{Credit, Kind, Mark, Phase};
use std::collections::LinkedList;

/// What a place counts.
pub struct Counts {
    pub items: u64,
    pub asks: u64,
    pub shrugs: u64,
    pub denied: u64,
    pub given: u64,
    pub got: u64,
    pub line_asks: u64,
    pub line_given: u64,
    pub line_got: u64,
    pub sent_units: u64,
    pub got_units: u64,
    pub sleeps: u64,
    pub wakes: u64,
}

/// An edge, by its kind and its ends.
pub struct EdgeName {
    pub kind: Kind,
    pub thief: u64,
    pub victim: u64,
}

/// A mark that was put on an in-edge.
pub struct MarkOn {
    pub kind: Kind,
    pub thief: u64,
    pub mark: Mark,
}

/// All that a world has for a place, its local state. The marks are kept as they were put there, the
/// newest first: of two on one in-edge the first counts, and the older one says nothing.
pub struct Local<I> {
    pub phase: Phase,
    pub credit: Credit,
    pub tries: u64,
    pub bag: LinkedList<I>,
    pub marks: LinkedList<MarkOn>,
    pub done: LinkedList<I>,
    pub count: Counts,
}
