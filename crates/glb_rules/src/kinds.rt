//! The states of places and of the edges between them.
ghost use Rattle.std.specs.Prelude.{◌≡◌};
ghost use Rattle.glb_rules.specs.Effects.{mark_after_look, credit_after_take, wake_count};

/// Whether a request goes to a random victim or over a lifeline.
#[derive(Clone, Copy, Debug, PartialEq, Eq)]
pub enum Kind {
    Steal,
    Line,
}

/// Which end of an edge a place is: its victim, or its thief.
#[derive(Clone, Copy, Debug, PartialEq, Eq)]
pub enum Side {
    Inward,
    Outward,
}

/// What a place is doing.
#[derive(Clone, Copy, Debug, PartialEq, Eq)]
pub enum Phase {
    Working,
    Idle,
    Waiting { victim: u32, kind: Kind },
    Asleep,
    Gone,
}

/// A place's share of the number live, by which the end of the run is detected.
#[derive(Clone, Copy, Debug, PartialEq, Eq)]
pub enum Credit {
    Zero,
    One,
    /// One more, for a part that is to be handed over.
    Minted,
    /// One more, which came with a part.
    Taken,
}

/// What a place knows of the request on an in-edge, since its last batch: nothing yet, that there is
/// none to answer, or that one waits.
#[derive(Clone, Copy, Debug, PartialEq, Eq)]
pub enum Mark {
    Unseen,
    Clear,
    Pending,
}

/// The state of an edge, from a thief to a victim. A part travels on an edge in state `Loot`. A
/// lifeline stays `Refused` as long as its request is remembered.
#[derive(Clone, Copy, Debug, PartialEq, Eq)]
pub enum Edge {
    Idle,
    Asked,
    Refused,
    Loot,
}

impl Phase {
    /// 1 for a place that a part wakes, else 0.
    pub fn wake_count(self) -> u64
        ensures { result ≡ wake_count self }
    {
        match self {
            Phase::Asleep => 1,
            Phase::Working | Phase::Idle | Phase::Waiting { .. } | Phase::Gone => 0,
        }
    }
}

impl Credit {
    /// The credit of a place that took a part.
    pub fn after_take(self) -> Credit
        ensures { result ≡ credit_after_take self }
    {
        match self {
            Credit::Zero => Credit::One,
            Credit::One => Credit::Taken,
            Credit::Minted | Credit::Taken => self,
        }
    }
}

impl Edge {
    /// The mark that a look leaves where it finds the edge in this state.
    pub fn mark_after_look(self) -> Mark
        ensures { result ≡ mark_after_look self }
    {
        match self {
            Edge::Asked => Mark::Pending,
            Edge::Idle | Edge::Refused | Edge::Loot => Mark::Clear,
        }
    }
}
