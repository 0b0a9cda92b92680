//! Where each event is enabled.
ghost use Rattle.std.specs.Prelude.{◌≡◌, ◌≢◌, ℕ, ◌+◌, ◌*◌, ◌^◌, ◌<◌, ◌≤◌, ◌↔◌, ◌⊎◌, Bool, true};
ghost use Rattle.std.specs.Prelude.{false, IsTrue, length, get_or, vec_len, All};
ghost use Rattle.glb_laws.specs.Numbers.{has_number};
ghost use Rattle.glb_cube.specs.Lines.{outs_of};
ghost use Rattle.glb_core.specs.Tables.{mark_index as spec_mark_index};
ghost use Rattle.glb_core.specs.Tables.{edge_index as spec_edge_index, view_of};
ghost use Rattle.glb_core.specs.Standing.{IsSound};
ghost use Rattle.glb_core.specs.inner.Conditions.{HasCaseExactly};
ghost use Rattle.glb_core.specs.inner.Conditions.{HoldsPart, IsWantedRow, IsArmedRow, EachIn};
ghost use Rattle.glb_core.specs.inner.Conditions.{AllOthers, IsWantedIn, MayMint, MayBatch};
ghost use Rattle.glb_core.specs.inner.Conditions.{MaySleep};
ghost use Rattle.glb_rules.specs.Events.{NamesBelow};

use super::layout::{edge_index, edge_index_of, mark_index};
use super::rows::{EdgeRow, PlaceRow};
use super::tables::Tables;
use crate::{Credit, Event, Kind, Mark, Phase};
use glb_cube::Lines;
use glb_laws::{Bag, Program};

/// Whether the thief has a lifeline to the victim.
pub(crate) fn is_line(lines: &Lines, thief: u32, victim: u32) -> bool
    requires { thief < lines.now.places }
    ensures { result ≡ has_number victim (outs_of lines.now thief) }
{
    for target in lines.out(thief) {
        if *target == victim {
            return true;
        }
    }
    false
}

/// Whether the edge is there.
fn is_there(lines: &Lines, kind: Kind, thief: u32, victim: u32) -> bool
    requires { thief < lines.now.places }
    ensures steal { kind ≡ Kind.Steal → (IsTrue result ↔ thief ≢ victim) }
    ensures line { kind ≡ Kind.Line → result ≡ has_number victim (outs_of lines.now thief) }
{
    match kind {
        Kind::Steal => thief != victim,
        Kind::Line => is_line(lines, thief, victim),
    }
}

/// Whether the request asks for work, or is remembered.
fn is_wanted<B>(edge_row: &EdgeRow<B>, kind: Kind) -> bool
    ensures { IsTrue result ↔ (edge_row.now ≡ EdgeRow.Asked)
        ⊎ ((kind ≡ Kind.Line) × (edge_row.now ≡ EdgeRow.Refused)) }
{
    matches!(edge_row, EdgeRow::Asked)
        || (kind == Kind::Line && matches!(edge_row, EdgeRow::Refused))
}

fn may_look<B>(place_row: &PlaceRow<B>, there: bool, at: usize) -> bool
    requires { at < vec_len place_row.now.marks }
    ensures { IsTrue result ↔ (place_row.now.phase ≡ Phase.Working) × (there ≡ true)
        × (get_or place_row.now.marks.items at Mark.Unseen ≡ Mark.Unseen) }
{
    place_row.phase == Phase::Working && there && place_row.marks[at] == Mark::Unseen
}

fn may_ask<B>(place_row: &PlaceRow<B>, edge_row: &EdgeRow<B>, there: bool, kind: Kind) -> bool
    ensures steal { kind ≡ Kind.Steal
        → (IsTrue result ↔ (place_row.now.phase ≡ Phase.Idle)
        × (0 < place_row.now.tries) × (there ≡ true) × (edge_row.now ≡ EdgeRow.Idle)) }
    ensures line { kind ≡ Kind.Line → (IsTrue result ↔ (place_row.now.phase ≡ Phase.Idle)
        × (place_row.now.tries ≡ 0) × (there ≡ true) × (edge_row.now ≡ EdgeRow.Idle)) }
{
    let has_tries = place_row.tries > 0;
    let of_kind = match kind {
        Kind::Steal => has_tries,
        Kind::Line => !has_tries,
    };
    place_row.phase == Phase::Idle && of_kind && there && matches!(edge_row, EdgeRow::Idle)
}

fn may_deny<P: Program, B: Bag<P>>(place_row: &PlaceRow<B>, edge_row: &EdgeRow<B>) -> bool
    ensures { IsTrue result ↔ (edge_row.now ≡ EdgeRow.Asked) × (place_row.now.phase ≢ Phase.Gone)
        × ((place_row.now.phase ≢ Phase.Working) ⊎ (length (B.items place_row.now.bag) < 2)) }
{
    matches!(edge_row, EdgeRow::Asked)
        && place_row.phase != Phase::Gone
        && (place_row.phase != Phase::Working || !place_row.bag.can_split())
}

fn may_give<B>(place_row: &PlaceRow<B>, edge_row: &EdgeRow<B>, kind: Kind) -> bool
    ensures { IsTrue result ↔ (place_row.now.phase ≡ Phase.Working)
        × (place_row.now.credit ≡ Credit.Minted)
        × ((edge_row.now ≡ EdgeRow.Asked) ⊎
        ((kind ≡ Kind.Line) × (edge_row.now ≡ EdgeRow.Refused))) }
{
    place_row.phase == Phase::Working
        && place_row.credit == Credit::Minted
        && is_wanted(edge_row, kind)
}

fn is_ready<B>(place_row: &PlaceRow<B>) -> bool
    ensures { IsTrue result ↔ (place_row.now.phase ≡ Phase.Asleep)
        ⊎ (place_row.now.phase ≡ Phase.Idle)
        ⊎ ((place_row.now.phase ≡ Phase.Working) × (place_row.now.credit ≡ Credit.One)) }
{
    place_row.phase == Phase::Asleep
        || place_row.phase == Phase::Idle
        || (place_row.phase == Phase::Working && place_row.credit == Credit::One)
}

fn may_take<B>(place_row: &PlaceRow<B>, edge_row: &EdgeRow<B>, victim: u32, kind: Kind) -> bool
    ensures { IsTrue result ↔ HoldsPart edge_row.now
        × (((place_row.now.phase ≡ Phase.Waiting victim kind)
        × (place_row.now.credit ≡ Credit.One))
        ⊎ ((kind ≡ Kind.Line)
        × ((place_row.now.phase ≡ Phase.Asleep) ⊎ (place_row.now.phase ≡ Phase.Idle)
        ⊎ ((place_row.now.phase ≡ Phase.Working) × (place_row.now.credit ≡ Credit.One))))) }
{
    matches!(edge_row, EdgeRow::Loot(_))
        && ((place_row.phase == Phase::Waiting { victim, kind } && place_row.credit == Credit::One)
            || (kind == Kind::Line && is_ready(place_row)))
}

fn may_burn<B>(place_row: &PlaceRow<B>) -> bool
    ensures { IsTrue result ↔ place_row.now.credit ≡ Credit.Taken }
{
    place_row.credit == Credit::Taken
}

fn may_shrug<B>(place_row: &PlaceRow<B>, edge_row: &EdgeRow<B>, victim: u32, kind: Kind) -> bool
    ensures { IsTrue result ↔ (place_row.now.phase ≡ Phase.Waiting victim kind)
        × (edge_row.now ≡ EdgeRow.Refused) }
{
    place_row.phase == Phase::Waiting { victim, kind } && matches!(edge_row, EdgeRow::Refused)
}

fn may_leave<B>(place_row: &PlaceRow<B>, live: u64, stop: u64) -> bool
    ensures { IsTrue result ↔ (place_row.now.phase ≢ Phase.Gone) × ((live ≡ 0) ⊎ (stop ≢ 0)) }
{
    place_row.phase != Phase::Gone && (live == 0 || stop != 0)
}

fn may_halt<B>(place_row: &PlaceRow<B>, code: u64) -> bool
    ensures { IsTrue result ↔ (place_row.now.phase ≢ Phase.Gone) × ((code ≡ 1) ⊎ (code ≡ 2)) }
{
    place_row.phase != Phase::Gone && (code == 1 || code == 2)
}

/// Whether each steal edge to the place has the mark Clear.
fn clear_of_steals<B>(place_row: &PlaceRow<B>, places: u32, place: u32) -> bool
    requires few { places ≤ 64 }
    requires marks { vec_len place_row.now.marks ≡ 2 * places }
    ensures { IsTrue result ↔ AllOthers places place
        (λ t. get_or place_row.now.marks.items (spec_mark_index places Kind.Steal t) Mark.Unseen
        ≡ Mark.Clear) }
{
    for thief in 0..places {
        if thief != place
            && place_row.marks[mark_index(places, Kind::Steal, thief)] != Mark::Clear
        {
            return false;
        }
    }
    true
}

/// Whether each of the thieves' lifelines has the mark Clear.
fn clear_of_lines<B>(place_row: &PlaceRow<B>, places: u32, thieves: &[u32]) -> bool
    requires few { places ≤ 64 }
    requires thieves { All (λ t. t < places) thieves.now }
    requires marks { vec_len place_row.now.marks ≡ 2 * places }
    ensures { IsTrue result ↔ EachIn thieves.now
        (λ t. get_or place_row.now.marks.items (spec_mark_index places Kind.Line t) Mark.Unseen
        ≡ Mark.Clear) }
{
    for thief in thieves {
        if place_row.marks[mark_index(places, Kind::Line, *thief)] != Mark::Clear {
            return false;
        }
    }
    true
}

/// Whether a steal edge to the place is Asked.
fn is_asked_by_steals<B>(edge_rows: &[EdgeRow<B>], places: u32, place: u32) -> bool
    requires few { places ≤ 64 }
    requires place { place < places }
    requires edge_rows { length edge_rows.now ≡ places * 2 * places }
    ensures found { result ≡ true → (t : ℕ) × (t < places) × (t ≢ place)
        × (get_or edge_rows.now (spec_edge_index places Kind.Steal t place) EdgeRow.Idle
        ≡ EdgeRow.Asked) }
    ensures none { result ≡ false → AllOthers places place
        (λ t. get_or edge_rows.now
        (spec_edge_index places Kind.Steal t place) EdgeRow.Idle ≢ EdgeRow.Asked) }
{
    for thief in 0..places {
        let edge_row = &edge_rows[edge_index(places, Kind::Steal, thief, place)];
        if thief != place && matches!(edge_row, EdgeRow::Asked) {
            return true;
        }
    }
    false
}

/// Whether one of the thieves' lifelines to the place is Asked or Refused.
fn is_asked_by_lines<B>(edge_rows: &[EdgeRow<B>], places: u32, place: u32, thieves: &[u32]) -> bool
    requires few { places ≤ 64 }
    requires place { place < places }
    requires thieves { All (λ t. t < places) thieves.now }
    requires edge_rows { length edge_rows.now ≡ places * 2 * places }
    ensures found { result ≡ true → (i : ℕ) × (i < length thieves.now)
        × IsWantedRow (get_or edge_rows.now
        (spec_edge_index places Kind.Line (get_or thieves.now i 0) place)
        EdgeRow.Idle) }
    ensures none { result ≡ false → EachIn thieves.now
        (λ t. IsWantedRow (get_or edge_rows.now
        (spec_edge_index places Kind.Line t place) EdgeRow.Idle) → ⊥) }
{
    for thief in thieves {
        if is_wanted(
            &edge_rows[edge_index(places, Kind::Line, *thief, place)],
            Kind::Line,
        ) {
            return true;
        }
    }
    false
}

/// Whether the request of one of the thieves' lifelines to the place is remembered.
fn holds_request<B>(edge_rows: &[EdgeRow<B>], places: u32, place: u32, thieves: &[u32]) -> bool
    requires few { places ≤ 64 }
    requires place { place < places }
    requires thieves { All (λ t. t < places) thieves.now }
    requires edge_rows { length edge_rows.now ≡ places * 2 * places }
    ensures found { result ≡ true → (i : ℕ) × (i < length thieves.now)
        × (get_or edge_rows.now (spec_edge_index places Kind.Line (get_or thieves.now i 0) place)
        EdgeRow.Idle ≡ EdgeRow.Refused) }
    ensures none { result ≡ false → EachIn thieves.now
        (λ t. get_or edge_rows.now
        (spec_edge_index places Kind.Line t place) EdgeRow.Idle ≢ EdgeRow.Refused) }
{
    for thief in thieves {
        let edge_row = &edge_rows[edge_index(places, Kind::Line, *thief, place)];
        if matches!(edge_row, EdgeRow::Refused) {
            return true;
        }
    }
    false
}

fn is_armed<B>(edge_row: &EdgeRow<B>) -> bool
    ensures { IsTrue result ↔ IsArmedRow edge_row.now }
{
    matches!(edge_row, EdgeRow::Refused | EdgeRow::Loot(_))
}

/// Whether each of the place's lifelines is armed.
fn all_armed<B>(edge_rows: &[EdgeRow<B>], places: u32, place: u32, victims: &[u32]) -> bool
    requires few { places ≤ 64 }
    requires place { place < places }
    requires victims { All (λ v. v < places) victims.now }
    requires edge_rows { length edge_rows.now ≡ places * 2 * places }
    ensures { IsTrue result ↔ EachIn victims.now
        (λ v. IsArmedRow (get_or edge_rows.now
        (spec_edge_index places Kind.Line place v) EdgeRow.Idle)) }
{
    for victim in victims {
        if !is_armed(&edge_rows[edge_index(places, Kind::Line, place, *victim)]) {
            return false;
        }
    }
    true
}

fn is_wanted_by_any<B>(edge_rows: &[EdgeRow<B>], places: u32, place: u32, thieves: &[u32]) -> bool
    requires few { places ≤ 64 }
    requires place { place < places }
    requires thieves { All (λ t. t < places) thieves.now }
    requires edge_rows { length edge_rows.now ≡ places * 2 * places }
    ensures found { result ≡ true → IsWantedIn edge_rows.now places place thieves.now }
    ensures none { IsWantedIn edge_rows.now places place thieves.now → result ≡ true }
{
    is_asked_by_steals(edge_rows, places, place)
        || is_asked_by_lines(edge_rows, places, place, thieves)
}

/// The thieves are the places that have a lifeline to this one.
fn may_mint<P: Program, B: Bag<P>>(
    place_row: &PlaceRow<B>,
    edge_rows: &[EdgeRow<B>],
    places: u32,
    place: u32,
    thieves: &[u32],
) -> bool
    requires few { places ≤ 64 }
    requires place { place < places }
    requires thieves { All (λ t. t < places) thieves.now }
    requires edge_rows { length edge_rows.now ≡ places * 2 * places }
    ensures { IsTrue result ↔ MayMint B.items place_row.now edge_rows.now places place thieves.now }
{
    place_row.phase == Phase::Working
        && place_row.credit == Credit::One
        && place_row.bag.can_split()
        && is_wanted_by_any(edge_rows, places, place, thieves)
}

fn may_batch<P: Program, B: Bag<P>>(
    place_row: &PlaceRow<B>,
    edge_rows: &[EdgeRow<B>],
    places: u32,
    place: u32,
    thieves: &[u32],
) -> bool
    requires few { places ≤ 64 }
    requires place { place < places }
    requires thieves { All (λ t. t < places) thieves.now }
    requires edge_rows { length edge_rows.now ≡ places * 2 * places }
    requires marks { vec_len place_row.now.marks ≡ 2 * places }
    ensures { IsTrue result ↔ MayBatch B.items place_row.now edge_rows.now places place thieves.now }
{
    place_row.phase == Phase::Working
        && place_row.credit == Credit::One
        && clear_of_steals(place_row, places, place)
        && clear_of_lines(place_row, places, thieves)
        && (!place_row.bag.can_split() || !holds_request(edge_rows, places, place, thieves))
}

/// The victims are those of the place's lifelines.
fn may_sleep<B>(
    place_row: &PlaceRow<B>,
    edge_rows: &[EdgeRow<B>],
    places: u32,
    place: u32,
    victims: &[u32],
) -> bool
    requires few { places ≤ 64 }
    requires place { place < places }
    requires victims { All (λ v. v < places) victims.now }
    requires edge_rows { length edge_rows.now ≡ places * 2 * places }
    ensures { IsTrue result ↔ MaySleep place_row.now edge_rows.now places place victims.now }
{
    place_row.phase == Phase::Idle
        && place_row.tries == 0
        && all_armed(edge_rows, places, place, victims)
}

/// Whether the event has a case.
pub(crate) fn is_enabled<P: Program, B: Bag<P>>(tables: &Tables<B, P::Value>, event: Event) -> bool
    requires sound { IsSound {I = P.Item} B.items (view_of tables.now) }
    requires named { NamesBelow tables.now.lines.places event }
    ensures { HasCaseExactly {I = P.Item} B.items (view_of tables.now) event (result ≡ true) }
{
    let lines = &tables.lines;
    let places = lines.places();
    let edge_rows = tables.edge_rows.as_slice();
    let place_rows = tables.place_rows.as_slice();
    let place_row = &place_rows[event.place() as usize];
    let edge_row = &edge_rows[edge_index_of(places, event)];
    match event {
        Event::Look { place, thief, kind } => may_look(
            place_row,
            is_there(lines, kind, thief, place),
            mark_index(places, kind, thief),
        ),
        Event::Batch { place } => {
            may_batch::<P, B>(place_row, edge_rows, places, place, lines.into(place))
        }
        Event::Ask {
            place,
            victim,
            kind,
        } => may_ask(
            place_row,
            edge_row,
            is_there(lines, kind, place, victim),
            kind,
        ),
        Event::Deny { .. } => may_deny::<P, B>(place_row, edge_row),
        Event::Mint { place } => may_mint::<P, B>(
            place_row,
            edge_rows,
            places,
            place,
            lines.into(place),
        ),
        Event::Give { kind, .. } => may_give(place_row, edge_row, kind),
        Event::Take { victim, kind, .. } => may_take(place_row, edge_row, victim, kind),
        Event::Burn { .. } => may_burn(place_row),
        Event::Shrug { victim, kind, .. } => may_shrug(place_row, edge_row, victim, kind),
        Event::Sleep { place } => may_sleep(place_row, edge_rows, places, place, lines.out(place)),
        Event::Leave { .. } => may_leave(place_row, tables.live, tables.stop),
        Event::Halt { code, .. } => may_halt(place_row, code),
    }
}
