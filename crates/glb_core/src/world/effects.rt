//! What each event that moves and expands no items does to the row of its place and to the row of
//! the edge that it names.
ghost use Rattle.std.specs.Prelude.{◌≡◌, ◌+◌, ◌-◌, ◌*◌, ◌^◌, ◌<◌, ◌≤◌, vec_len};
ghost use Rattle.std.specs.Vec.{with_item};
ghost use Rattle.glb_rules.specs.Effects.{mark_after_look};
ghost use Rattle.glb_rules.specs.Effects.{live_after, stop_after};
ghost use Rattle.glb_core.specs.inner.Effects.{capped};
ghost use Rattle.glb_rules.specs.Events.{NamesBelow};
ghost use Rattle.glb_core.specs.inner.Effects.{AsksAnother, row_state, place_row_after_ask};
ghost use Rattle.glb_core.specs.inner.Effects.{count_denied as denied_counters, count_shrug};
ghost use Rattle.glb_core.specs.inner.Effects.{place_row_after, edge_row_after};
ghost use Rattle.glb_core.specs.inner.Effects.{edge_row_after_shrug};

use super::layout::mark_index;
use super::rows::{EdgeRow, PlaceRow};
use crate::{Credit, Event, Kind, Mark, Phase, victim};
use glb_stats::Counters;
use rand_core::utils::NextWord;

fn look<B>(place_row: &mut PlaceRow<B>, edge_row: &EdgeRow<B>, at: usize)
    requires { at < vec_len place_row.old.marks }
    ensures { place_row.new ≡ record place_row.old {
      marks = with_item place_row.old.marks at
          (mark_after_look (row_state edge_row.now));
    } }
{
    place_row.marks[at] = edge_row.state().mark_after_look();
}

/// The place waits for an answer. A random victim is replaced by the next one.
fn ask<B: Drop>(
    place_row: &mut PlaceRow<B>,
    edge_row: &mut EdgeRow<B>,
    places: u32,
    place: u32,
    asked: u32,
    kind: Kind,
)
    requires places { 2 ≤ places }
    requires place { place < places }
    ensures place_row { place_row.new ≡ place_row_after_ask places place asked kind place_row.old }
    ensures edge_row { edge_row.new ≡ EdgeRow.Asked }
{
    *edge_row = EdgeRow::Asked;
    place_row.phase = Phase::Waiting {
        victim: asked,
        kind,
    };
    match kind {
        Kind::Steal => {
            place_row.tries = place_row.tries.saturating_sub(1);
            place_row.counters.asks = place_row.counters.asks.saturating_add(1);
            place_row.victim = victim(place_row.words.next_word(), places, place);
        }
        Kind::Line => {
            place_row.counters.line_asks = place_row.counters.line_asks.saturating_add(1);
        }
    }
}

fn count_denied(counters: &mut Counters, kind: Kind)
    ensures { counters.new ≡ denied_counters kind counters.old }
{
    match kind {
        Kind::Steal => counters.denied = counters.denied.saturating_add(1),
        Kind::Line => {}
    }
}

/// The request is refused. One over a lifeline stays remembered.
fn deny<B: Drop>(place_row: &mut PlaceRow<B>, edge_row: &mut EdgeRow<B>, at: usize, kind: Kind)
    requires { at < vec_len place_row.old.marks }
    ensures place_row { place_row.new ≡ record place_row.old {
      marks = with_item place_row.old.marks at Mark.Clear;
      counters = denied_counters kind place_row.old.counters;
    } }
    ensures edge_row { edge_row.new ≡ EdgeRow.Refused }
{
    *edge_row = EdgeRow::Refused;
    place_row.marks[at] = Mark::Clear;
    count_denied(&mut place_row.counters, kind);
}

/// The thief gives a refused request up, but for one over a lifeline.
fn shrug<B: Drop>(place_row: &mut PlaceRow<B>, edge_row: &mut EdgeRow<B>, kind: Kind)
    ensures place_row { place_row.new ≡ record place_row.old {
      phase = Phase.Idle;
      counters = count_shrug kind place_row.old.counters;
    } }
    ensures edge_row { edge_row.new ≡ edge_row_after_shrug kind edge_row.old }
{
    place_row.phase = Phase::Idle;
    match kind {
        Kind::Steal => {
            *edge_row = EdgeRow::Idle;
            place_row.counters.shrugs = place_row.counters.shrugs.saturating_add(1);
        }
        Kind::Line => {}
    }
}

fn sleep<B>(place_row: &mut PlaceRow<B>)
    ensures { place_row.new ≡ record place_row.old {
      phase = Phase.Asleep;
      credit = Credit.Zero;
      counters = record (place_row.old.counters) {
        sleeps = capped
            (place_row.old.counters.sleeps + 1);
      };
    } }
{
    place_row.phase = Phase::Asleep;
    place_row.credit = Credit::Zero;
    place_row.counters.sleeps = place_row.counters.sleeps.saturating_add(1);
}

/// The effect of an event that moves and expands no items.
pub(crate) fn effect<B: Drop>(
    place_row: &mut PlaceRow<B>,
    edge_row: &mut EdgeRow<B>,
    places: u32,
    event: Event,
)
    requires places { places ≤ 64 }
    requires places_named { NamesBelow places event }
    requires marks { vec_len place_row.old.marks ≡ 2 * places }
    requires two { AsksAnother places event }
    ensures place_row { place_row.new ≡ place_row_after places event edge_row.old place_row.old }
    ensures edge_row { edge_row.new ≡ edge_row_after event edge_row.old }
{
    match event {
        Event::Look { thief, kind, .. } => look(
            place_row,
            edge_row,
            mark_index(places, kind, thief),
        ),
        Event::Ask {
            place,
            victim,
            kind,
        } => ask(place_row, edge_row, places, place, victim, kind),
        Event::Deny { thief, kind, .. } => deny(
            place_row,
            edge_row,
            mark_index(places, kind, thief),
            kind,
        ),
        Event::Mint { .. } => place_row.credit = Credit::Minted,
        Event::Burn { .. } => place_row.credit = Credit::One,
        Event::Shrug { kind, .. } => shrug(place_row, edge_row, kind),
        Event::Sleep { .. } => sleep(place_row),
        Event::Leave { .. } => place_row.phase = Phase::Gone,
        Event::Halt { .. } | Event::Batch { .. } | Event::Give { .. } | Event::Take { .. } => {}
    }
}

/// The number live after the event.
pub(crate) fn next_live(event: Event, live: u64) -> u64
    requires { live < 2 ^ 63 }
    ensures { result ≡ live_after event live }
{
    match event {
        Event::Mint { .. } => live + 1,
        Event::Burn { .. } | Event::Sleep { .. } => live.saturating_sub(1),
        _ => live,
    }
}

/// The stop code after the event.
pub(crate) fn next_stop(event: Event, stop: u64) -> u64
    ensures { result ≡ stop_after event stop }
{
    match event {
        Event::Halt { code, .. } => stop.max(code),
        _ => stop,
    }
}
