//! What a desk keeps of its place.
use super::lane::Lane;
use super::rule::Slip;
use glb_stats::Counters;

/// The place's seat and number, a lane of each kind for each other place, what the place counted,
/// whether it sleeps, and how often it looked at live and at stop.
#[derive(Drop)]
pub struct Books<B, I> {
    pub seat: Slip<I>,
    pub place: u32,
    pub lanes: Vec<Lane<B, I>>,
    pub counters: Counters,
    pub is_asleep: bool,
    pub live_looks: u64,
    pub stop_looks: u64,
}
