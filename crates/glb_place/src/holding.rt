//! What a place holds.
use glb_core::{Params, PlaceState, Seen};
use glb_stats::Counters;
use rand_pcg::Pcg32;

/// A place's fabric, its bag, the part that it split off and has not given, the combination of
/// the values of its items done, its own state, what it has seen, the first in-edge that it may not
/// have looked at since its last batch, the generator of its random victims, and its counters.
#[derive(Drop)]
pub struct Holding<B, F, V> {
    pub params: Params,
    pub fabric: F,
    pub bag: B,
    pub spare: Option<B>,
    pub value: V,
    pub state: PlaceState,
    pub seen: Seen,
    pub first: usize,
    pub words: Pcg32,
    pub counters: Counters,
}
