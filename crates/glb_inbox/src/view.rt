//! What a seat of the table of three words counts for. No value of these types is made.
use glb_core::Kind;
use glb_place::Record;
use std::collections::LinkedList;

/// A place: its record, the record that it had before its last message was split off, what its bag
/// keeps where a part is split off next, how many steps it made, and the word that the last one
/// found.
pub struct Seated<I> {
    pub kept: Record<I>,
    pub before: Option<Record<I>>,
    pub rest: LinkedList<I>,
    pub steps: u64,
    pub found: u64,
}

/// A place, or what a message carries.
pub enum Member<I> {
    Place(Seated<I>),
    Request(Kind),
    Refusal,
    Parcel { kind: Kind, items: LinkedList<I> },
}
