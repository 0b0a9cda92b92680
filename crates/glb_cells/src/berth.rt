//! The token of one place.
ghost use Rattle.std.specs.Prelude.{◌≡◌, ◌<◌, [], ◌∷◌, length, true, min, ◌^◌, ◌-◌};
ghost use Rattle.glb_rules.specs.World.{has_edge};
ghost use Rattle.glb_place.specs.Calls.{IsOwn, edge_with};
ghost use Rattle.glb_place.specs.Looks.{LooksAt, LooksAtLive, LooksAtStop};
ghost use Rattle.glb_core.specs.Counters.{counters_of};
ghost use Rattle.glb_cells.specs.Looking.{looks_of};
ghost use Rattle.glb_cells.specs.Berths.{IsStateOf};
ghost use Rattle.glb_cells.specs.inner.Keeping.{IsKept, edge_in, first_state, no_counters, table_of};

use super::looks::LookCounts;
use super::rule::PlaceSeat;
use glb_core::{Credit, Kind, Phase, PlaceState, Side};
use glb_laws::{Bag, Program};
use glb_stats::Counters;
use std::marker::Model;

/// The seat of a place, and beside it what the place has to know when it runs. Only the calls of
/// the object that it was made with move it.
#[derive(Drop)]
pub struct Berth<P: Program, B: Bag<P>> {
    pub(crate) seat: PlaceSeat<P, B, P::Item>,
    pub(crate) state: PlaceState,
    pub(crate) counters: Counters,
    pub(crate) held: Vec<bool>,
    pub(crate) looks: LookCounts,
}

impl<P: Program, B: Bag<P>> Model for Berth<P, B> {
    ghost use Rattle.glb_cells.specs.Berths.{BerthView};

    ghost Value = { BerthView P P.Item };

    ghost use Rattle.glb_cells.specs.inner.Keeping.{IsKept, berth_view, table_of};

    ghost view = { λ b. berth_view b.seat.table_id b.seat.me.0 b.state b.counters
        (table_of b.looks) };

    ghost invariant = { λ b. IsKept b.seat.me b.state b.counters b.held.items
        (table_of b.looks) };
}

fn zero_counters() -> Counters
    ensures { result ≡ no_counters }
{
    Counters {
        items: 0,
        asks: 0,
        shrugs: 0,
        denied: 0,
        given: 0,
        got: 0,
        line_asks: 0,
        line_given: 0,
        line_got: 0,
        sent_units: 0,
        got_units: 0,
        sleeps: 0,
        wakes: 0,
    }
}

/// The state of a place at the start, with so many items.
fn state_at_start(place: u32, tries: u32, size: u64) -> PlaceState
    ensures { result ≡ first_state place tries size }
{
    let (phase, credit) = if size == 0 {
        (Phase::Asleep, Credit::Zero)
    } else {
        (Phase::Working, Credit::One)
    };
    PlaceState {
        place,
        phase,
        credit,
        tries,
        victim: 0,
        size,
    }
}

/// The berth of a place at the start.
pub(crate) fn berth_at_start<P: Program, B: Bag<P>>(
    seat: PlaceSeat<P, B, P::Item>,
    place: u32,
    tries: u32,
    size: u64,
    held: Vec<bool>,
    looks: LookCounts,
) -> Berth<P, B>
    requires kept { IsKept seat.me (first_state place tries size) no_counters held.items
        (table_of looks) }
    ensures object { result.object ≡ seat.table_id }
    ensures view { (r : _) → seat.me.0 ≡ r ∷ [] → (result.program ≡ Some r.program)
        × (result.kept ≡ r.own) × (result.steps ≡ r.steps) × (result.slot ≡ edge_in r.hand) }
{
    Berth {
        seat,
        state: state_at_start(place, tries, size),
        counters: zero_counters(),
        held,
        looks,
    }
}

impl<P: Program, B: Bag<P>> Berth<P, B> {
    /// The place's own state. The next random victim is not known to it.
    pub fn state(&self) -> PlaceState
        ensures state { result ≡ self.now.state }
        ensures told { IsStateOf self.now.kept result }
    {
        self.state
    }

    pub fn counters(&self) -> Counters
        ensures counters { result ≡ self.now.counters }
        ensures told { result ≡ counters_of self.now.kept.local.count }
    {
        self.counters
    }

    /// The place is about to look at its edge with the other one.
    pub(crate) fn note_look(&mut self, other: u32, kind: Kind, side: Side)
        requires own { IsOwn self.old.kept other kind side }
        ensures looks { LooksAt (edge_with self.old.kept.place other kind side)
            (looks_of self.old.kept.place self.old.looks)
            (looks_of self.old.kept.place self.new.looks) }
        ensures same { self.new ≡ record self.old { looks = self.new.looks } }
    {
        self.looks.raise_edge(other, kind, side);
    }

    /// It is about to read live.
    pub(crate) fn note_live(&mut self)
        ensures looks { LooksAtLive (looks_of self.old.kept.place self.old.looks)
            (looks_of self.old.kept.place self.new.looks) }
        ensures same { self.new ≡ record self.old { looks = self.new.looks } }
    {
        self.looks.live = self.looks.live.saturating_add(1);
    }

    /// It is about to read stop.
    pub(crate) fn note_stop(&mut self)
        ensures looks { LooksAtStop (looks_of self.old.kept.place self.old.looks)
            (looks_of self.old.kept.place self.new.looks) }
        ensures same { self.new ≡ record self.old { looks = self.new.looks } }
    {
        self.looks.stop = self.looks.stop.saturating_add(1);
    }
}
