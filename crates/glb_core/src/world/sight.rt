//! What a world tells of a place.
ghost use Rattle.std.specs.Prelude.{◌≡◌, ◌≢◌, ℕ, ◌+◌, ◌-◌, ◌*◌, ◌^◌, ◌<◌, ◌≤◌, List, map, length};
ghost use Rattle.std.specs.Prelude.{get_or, vec_len, min, All};
ghost use Rattle.glb_rules.specs.declared.kinds.Kind.{Kind};
ghost use Rattle.glb_rules.specs.World.{Setup, World as AbstractWorld};
ghost use Rattle.glb_core.specs.Seen.{sight as sight_of, IsMadeFor};
ghost use Rattle.glb_rules.specs.Sight.{sight_at, state_at};
ghost use Rattle.glb_core.specs.Tables.{view_of};
ghost use Rattle.glb_core.specs.Standing.{IsSound, Represents};
ghost use Rattle.glb_core.specs.inner.Sights.{in_seen, out_seen, waited_seen, AllThieves};
ghost use Rattle.glb_core.specs.inner.Sights.{AllVictims};

use super::layout::{edge_index, mark_index};
use super::rows::{EdgeRow, PlaceRow};
use super::tables::Tables;
use crate::{Edge, InEdge, Kind, OutEdge, Phase, PlaceState, Seen};
use glb_laws::{Bag, Program};

pub(crate) fn state<P: Program, B: Bag<P>>(tables: &Tables<B, P::Value>, place: u32) -> PlaceState
    requires sound { IsSound {I = P.Item} B.items (view_of tables.now) }
    requires place { place < tables.now.lines.places }
    ensures { (s : Setup) (w : AbstractWorld P.Item) → Represents B.items s (view_of tables.now) w →
        result ≡ state_at tables.now.params.seed s w place }
{
    let place_rows = tables.place_rows.as_slice();
    let place_row = &place_rows[place as usize];
    PlaceState {
        place,
        phase: place_row.phase,
        credit: place_row.credit,
        tries: place_row.tries,
        victim: place_row.victim,
        size: place_row.bag.len(),
    }
}

fn see_ins<B>(
    ins: &mut [InEdge],
    place_row: &PlaceRow<B>,
    edge_rows: &[EdgeRow<B>],
    places: u32,
    place: u32,
)
    requires few { places ≤ 64 }
    requires place { place < places }
    requires thieves { AllThieves places ins.old }
    requires marks { vec_len place_row.now.marks ≡ 2 * places }
    requires edge_rows { length edge_rows.now ≡ places * 2 * places }
    ensures { ins.new ≡ map (in_seen place_row.now edge_rows.now places place) ins.old }
{
    for edge in ins.iter_mut() {
        edge.mark = place_row.marks[mark_index(places, edge.kind, edge.thief)];
        edge.edge = edge_rows[edge_index(places, edge.kind, edge.thief, place)].state();
    }
}

fn see_outs<B>(outs: &mut [OutEdge], edge_rows: &[EdgeRow<B>], places: u32, place: u32)
    requires few { places ≤ 64 }
    requires place { place < places }
    requires victims { AllVictims places outs.old }
    requires edge_rows { length edge_rows.now ≡ places * 2 * places }
    ensures { outs.new ≡ map (out_seen edge_rows.now places place) outs.old }
{
    for edge in outs.iter_mut() {
        edge.edge = edge_rows[edge_index(places, Kind::Line, place, edge.victim)].state();
    }
}

/// The edge that the place waits on.
fn see_waited<B>(phase: Phase, edge_rows: &[EdgeRow<B>], places: u32, place: u32) -> Edge
    requires few { places ≤ 64 }
    requires place { place < places }
    requires near { (v : ℕ) (k : Kind) → phase ≡ Phase.Waiting v k → v < places }
    requires edge_rows { length edge_rows.now ≡ places * 2 * places }
    ensures { result ≡ waited_seen edge_rows.now places place phase }
{
    match phase {
        Phase::Waiting { victim, kind } => edge_rows[edge_index(
            places, kind, place, victim,
        )].state(),
        _ => Edge::Idle,
    }
}

pub(crate) fn look_round<P: Program, B: Bag<P>>(
    tables: &Tables<B, P::Value>,
    place: u32,
    seen: &mut Seen,
)
    requires sound { IsSound {I = P.Item} B.items (view_of tables.now) }
    requires place { place < tables.now.lines.places }
    requires made { IsMadeFor tables.now.lines place (sight_of seen.old) }
    ensures seen { (s : Setup) (w : AbstractWorld P.Item)
        → Represents B.items s (view_of tables.now) w →
        sight_of seen.new ≡ sight_at s w place }
    ensures made { IsMadeFor tables.now.lines place (sight_of seen.new) }
{
    let places = tables.lines.places();
    let edge_rows = tables.edge_rows.as_slice();
    let place_rows = tables.place_rows.as_slice();
    let place_row = &place_rows[place as usize];
    see_ins(&mut seen.ins, place_row, edge_rows, places, place);
    see_outs(&mut seen.outs, edge_rows, places, place);
    seen.waited = see_waited(place_row.phase, edge_rows, places, place);
    seen.ended = tables.live == 0;
    seen.stop = tables.stop;
}
