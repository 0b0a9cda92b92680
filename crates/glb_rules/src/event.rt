//! The events of a world. Each is one atomic action of one place.
ghost use Rattle.std.specs.Prelude.{◌≡◌};
ghost use Rattle.glb_rules.specs.Events.{actor, other_end};

use super::kinds::Kind;

/// What one place does in one step.
#[derive(Clone, Copy, Debug, PartialEq, Eq)]
pub enum Event {
    Look { place: u32, thief: u32, kind: Kind },
    Batch { place: u32 },
    Ask { place: u32, victim: u32, kind: Kind },
    Deny { place: u32, thief: u32, kind: Kind },
    Mint { place: u32 },
    Give { place: u32, thief: u32, kind: Kind },
    Take { place: u32, victim: u32, kind: Kind },
    Burn { place: u32 },
    Shrug { place: u32, victim: u32, kind: Kind },
    Sleep { place: u32 },
    Leave { place: u32 },
    Halt { place: u32, code: u64 },
}

impl Event {
    /// The place whose event it is.
    pub fn place(self) -> u32
        ensures { result ≡ actor self }
    {
        match self {
            Event::Look { place, .. }
            | Event::Batch { place }
            | Event::Ask { place, .. }
            | Event::Deny { place, .. }
            | Event::Mint { place }
            | Event::Give { place, .. }
            | Event::Take { place, .. }
            | Event::Burn { place }
            | Event::Shrug { place, .. }
            | Event::Sleep { place }
            | Event::Leave { place }
            | Event::Halt { place, .. } => place,
        }
    }

    /// The place at the other end of the edge that the event changes; its own place where it
    /// changes none.
    pub fn other_end(self) -> u32
        ensures { result ≡ other_end self }
    {
        match self {
            Event::Ask { victim, .. } | Event::Take { victim, .. } | Event::Shrug { victim, .. } =>
                { victim }
            Event::Deny { thief, .. } | Event::Give { thief, .. } => thief,
            Event::Look { place, .. }
            | Event::Batch { place }
            | Event::Mint { place }
            | Event::Burn { place }
            | Event::Sleep { place }
            | Event::Leave { place }
            | Event::Halt { place, .. } => place,
        }
    }
}

/// What a place is to do next. A place that polls looks again at what it waits for.
#[derive(Clone, Copy, Debug, PartialEq, Eq)]
pub enum Action {
    Do(Event),
    Poll,
}

/// Why an event did not happen.
#[derive(Clone, Copy, Debug, PartialEq, Eq)]
pub enum StepFault {
    NotEnabled,
    NoMemory,
}
