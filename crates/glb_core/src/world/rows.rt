//! What a world keeps of a place and of an edge.
ghost use Rattle.std.specs.Prelude.{◌≡◌};
ghost use Rattle.glb_core.specs.inner.Effects.{row_state};

use crate::{Credit, Edge, Mark, Phase};
use glb_stats::Counters;
use rand_pcg::Pcg32;

/// What a world keeps of a place: its local state, and the generator of its random victims with the
/// next one.
#[derive(Drop)]
pub struct PlaceRow<B> {
    pub phase: Phase,
    pub credit: Credit,
    pub tries: u32,
    pub bag: B,
    pub marks: Vec<Mark>,
    pub counters: Counters,
    pub words: Pcg32,
    pub victim: u32,
}

/// What a world keeps of an edge. With `Loot` lies the part that travels.
#[derive(Drop)]
pub enum EdgeRow<B> {
    Idle,
    Asked,
    Refused,
    Loot(B),
}

impl<B> EdgeRow<B> {
    /// The state of the edge, without the part.
    pub(crate) fn state(&self) -> Edge
        ensures { result ≡ row_state self.now }
    {
        match self {
            EdgeRow::Idle => Edge::Idle,
            EdgeRow::Asked => Edge::Asked,
            EdgeRow::Refused => Edge::Refused,
            EdgeRow::Loot(_) => Edge::Loot,
        }
    }
}
