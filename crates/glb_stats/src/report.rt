//! The outcome of a run with its counters.
use super::counters::Counters;

/// How many items a run expanded, what their values combine to, and each place's counters.
#[derive(Debug, Drop)]
pub struct Report<V> {
    pub items: u64,
    pub value: V,
    pub counters: Vec<Counters>,
}
