//! What a place knows of itself.
use super::kinds::{Credit, Phase};

/// A place's own state, from which it decides. `victim` is the next random victim, and 0 at one
/// place; `size` counts the items of its bag, up to 2^64 - 1.
#[derive(Clone, Copy, Debug, PartialEq, Eq)]
pub struct PlaceState {
    pub place: u32,
    pub phase: Phase,
    pub credit: Credit,
    pub tries: u32,
    pub victim: u32,
    pub size: u64,
}
