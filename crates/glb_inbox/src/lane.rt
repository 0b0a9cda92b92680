//! What a place keeps of its edges with another place: as they are known, and the messages that
//! came over them and are not known yet, or not used up.
ghost use Rattle.std.specs.Prelude.{◌≡◌};
ghost use Rattle.glb_inbox.specs.inner.Firsts.{lane_with};
ghost use Rattle.glb_inbox.specs.inner.Lanes.{told};

use super::rule::Slip;
use glb_core::Edge;

/// The two edges of one kind with another place. Inward this place is the victim.
#[derive(Drop)]
pub struct Lane<B, I> {
    pub inward: Edge,
    pub request: Option<Slip<I>>,
    pub outward: Edge,
    pub answer: Answer<B, I>,
    pub inward_looks: u64,
    pub outward_looks: u64,
}

/// What came over an edge from its victim. A part that follows a lifeline's refusal takes its
/// place.
#[derive(Drop)]
pub enum Answer<B, I> {
    Nothing,
    Refusal(Slip<I>),
    LineRefusal,
    Part { part: B, seat: Slip<I> },
}

impl<B, I> Lane<B, I> {
    /// A lane over which nothing came.
    pub fn new(inward: Edge, outward: Edge) -> Lane<B, I>
        ensures { result ≡ lane_with inward outward }
    {
        Lane {
            inward,
            request: None,
            outward,
            answer: Answer::Nothing,
            inward_looks: 0,
            outward_looks: 0,
        }
    }

    /// What the outward edge is, by the answer that is kept, or else as it is known.
    pub fn told(&self) -> Edge
        ensures { result ≡ told self.now.outward self.now.answer }
    {
        match &self.answer {
            Answer::Nothing => self.outward,
            Answer::Refusal(_) | Answer::LineRefusal => Edge::Refused,
            Answer::Part { .. } => Edge::Loot,
        }
    }
}
