//! Where the tables keep what they keep. A place has two rows of marks, of its steal edges and of
//! the lifelines that lead to it, each by thief; the rows of the edges to one victim stand side by
//! side: the edge of kind k from t to v is at (2 v + k) P + t, where k is 0 for a steal and 1 for a
//! lifeline.
ghost use Rattle.std.specs.Prelude.{◌≡◌, ◌<◌, ◌≤◌};
ghost use Rattle.glb_rules.specs.Events.{NamesBelow};
ghost use Rattle.glb_core.specs.Tables.{mark_index as spec_mark_index};
ghost use Rattle.glb_core.specs.Tables.{edge_index as spec_edge_index};
ghost use Rattle.glb_core.specs.inner.Effects.{named_edge_index};

use crate::{Event, Kind};

/// Where a place keeps the mark of an in-edge.
pub(crate) fn mark_index(places: u32, kind: Kind, thief: u32) -> usize
    requires places { places ≤ 64 }
    requires thief { thief < places }
    ensures { result ≡ spec_mark_index places kind thief }
{
    match kind {
        Kind::Steal => thief as usize,
        Kind::Line => places as usize + thief as usize,
    }
}

/// Where the row of an edge is.
pub(crate) fn edge_index(places: u32, kind: Kind, thief: u32, victim: u32) -> usize
    requires places { places ≤ 64 }
    requires thief { thief < places }
    requires victim { victim < places }
    ensures { result ≡ spec_edge_index places kind thief victim }
{
    let row = match kind {
        Kind::Steal => victim * 2,
        Kind::Line => victim * 2 + 1,
    };
    (row * places + thief) as usize
}

/// Where the row of the edge is that the event names. For an event without one it is that of an
/// edge which is never there.
pub(crate) fn edge_index_of(places: u32, event: Event) -> usize
    requires places { places ≤ 64 }
    requires places_named { NamesBelow places event }
    ensures { result ≡ named_edge_index places event }
{
    match event {
        Event::Look { place, thief, kind }
        | Event::Deny { place, thief, kind }
        | Event::Give { place, thief, kind } => edge_index(places, kind, thief, place),
        Event::Ask {
            place,
            victim,
            kind,
        }
        | Event::Take {
            place,
            victim,
            kind,
        }
        | Event::Shrug {
            place,
            victim,
            kind,
        } => edge_index(places, kind, place, victim),
        Event::Batch { place }
        | Event::Mint { place }
        | Event::Burn { place }
        | Event::Sleep { place }
        | Event::Leave { place }
        | Event::Halt { place, .. } => edge_index(places, Kind::Steal, place, place),
    }
}
