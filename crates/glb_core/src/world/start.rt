//! The tables of a world at the start. All memory is taken before a bag is moved.
ghost use Rattle.std.specs.Prelude.{◌≡◌, ◌≢◌, ℕ, ◌+◌, ◌*◌, ◌^◌, ◌<◌, ◌≤◌, Bool, not, List, [], map};
ghost use Rattle.std.specs.Prelude.{length, get_or, replicate, vec_len, IfOk, OnOk, ◌++◌};
ghost use Rattle.std.specs.List.{range_with_len};
ghost use Rattle.glb_cube.specs.Lines.{outs_of};
ghost use Rattle.glb_laws.specs.Numbers.{has_number};
ghost use Rattle.glb_laws.specs.Sums.{sum_to};
ghost use Rattle.glb_rules.specs.Setups.{IsWithinLimits, has_items, bit, tries_of as spec_tries_of};
ghost use Rattle.glb_core.specs.declared.world.rows.PlaceRow.{PlaceRow};
ghost use Rattle.glb_core.specs.Tables.{ShowsLocal};
ghost use Rattle.glb_core.specs.inner.Start.{FirstEdgeRows, FirstPlaceRows, FirstTables};
ghost use Rattle.glb_core.specs.inner.Start.{AllAsleep, with_bag};
ghost use Rattle.glb_rules.specs.History.{first_local};
ghost use Rattle.glb_core.specs.inner.Start.{first_edge_row};

use super::conditions::is_line;
use super::rows::{EdgeRow, PlaceRow};
use super::tables::Tables;
use crate::{Credit, Mark, Params, Phase, first_victim, tries_of};
use glb_cube::{Lines, cube};
use glb_laws::{Bag, Monoid, NoMemory, Program};
use glb_stats::Counters;
use rand_pcg::Pcg32;
use std::alloc::Global;

fn unseen_marks(alloc: Global, count: u32) -> Result<Vec<Mark>, NoMemory>
    ensures { IfOk result (λ v. v.items ≡ replicate count Mark.Unseen) }
{
    let mut marks = Vec::new(alloc);
    for _i in 0..count {
        marks.push(Mark::Unseen)?;
    }
    Ok(marks)
}

/// The row of a place without items.
fn first_place_row<P: Program, B: Bag<P>>(
    alloc: Global,
    program: &P,
    params: &Params,
    place: u32,
) -> Result<PlaceRow<B>, NoMemory>
    requires limits { IsWithinLimits params.now }
    requires place { place < params.now.places }
    ensures { IfOk result (λ r. ShowsLocal B.items params.now.seed params.now.places place r
        (first_local (spec_tries_of params.now) [])) }
{
    let marks = unseen_marks(alloc, params.places * 2)?;
    let mut words = Pcg32::new(params.seed, u64::from(place));
    let victim = first_victim(&mut words, params.places, place);
    Ok(PlaceRow {
        phase: Phase::Asleep,
        credit: Credit::Zero,
        tries: tries_of(params),
        bag: B::empty(alloc, program),
        marks,
        counters: Counters::ZERO,
        words,
        victim,
    })
}

fn first_place_rows<P: Program, B: Bag<P>>(
    alloc: Global,
    program: &P,
    params: &Params,
) -> Result<Vec<PlaceRow<B>>, NoMemory>
    requires limits { IsWithinLimits params.now }
    ensures { IfOk result (λ v. FirstPlaceRows B.items params.now
        (λ _. []) params.now.places v.items) }
{
    let mut place_rows = Vec::new(alloc);
    for place in 0..params.places {
        place_rows.push(first_place_row::<P, B>(alloc, program, params, place)?)?;
    }
    Ok(place_rows)
}

fn is_empty<P: Program, B: Bag<P>>(bag: &B) -> bool
    ensures { result ≡ not (has_items (B.items bag.now)) }
{
    bag.len() == 0
}

fn is_awake<P: Program, B: Bag<P>>(bags: &[B], place: u32) -> bool
    requires { place < length bags.now }
    ensures { result ≡ has_items (get_or (map B.items bags.now) place []) }
{
    !is_empty::<P, B>(&bags[place as usize])
}

/// The row of a lifeline at the start.
fn row_of_line<B>(awake: bool, there: bool) -> EdgeRow<B>
    ensures { result ≡ first_edge_row awake there }
{
    if !awake && there {
        EdgeRow::Refused
    } else {
        EdgeRow::Idle
    }
}

fn push_steals<B: Drop>(edge_rows: &mut Vec<EdgeRow<B>>, places: u32) -> Result<(), NoMemory>
    ensures { OnOk result (edge_rows.new.items ≡ edge_rows.old.items
        ++ replicate places EdgeRow.Idle) }
{
    for _thief in 0..places {
        edge_rows.push(EdgeRow::Idle)?;
    }
    Ok(())
}

/// The lifelines to one victim.
fn push_lines<P: Program, B: Bag<P>>(
    edge_rows: &mut Vec<EdgeRow<B>>,
    lines: &Lines,
    bags: &[B],
    victim: u32,
) -> Result<(), NoMemory>
    requires { length bags.now ≡ lines.now.places }
    ensures { OnOk result (edge_rows.new.items ≡ edge_rows.old.items ++ map
        (λ t. first_edge_row (has_items (get_or (map B.items bags.now) t []))
        (has_number victim (outs_of lines.now t)))
        (range_with_len 0 lines.now.places)) }
{
    for thief in 0..lines.places() {
        let awake = is_awake::<P, B>(bags, thief);
        edge_rows.push(row_of_line(awake, is_line(lines, thief, victim)))?;
    }
    Ok(())
}

fn first_edge_rows<P: Program, B: Bag<P>>(
    alloc: Global,
    lines: &Lines,
    bags: &[B],
) -> Result<Vec<EdgeRow<B>>, NoMemory>
    requires { length bags.now ≡ lines.now.places }
    ensures { IfOk result (λ v. FirstEdgeRows lines.now
        (λ p. has_items (get_or (map B.items bags.now) p [])) lines.now.places
        lines.now.places v.items) }
{
    let mut edge_rows = Vec::new(alloc);
    for victim in 0..lines.places() {
        push_steals(&mut edge_rows, lines.places())?;
        push_lines::<P, B>(&mut edge_rows, lines, bags, victim)?;
    }
    Ok(edge_rows)
}

fn one_if(holds: bool) -> u64
    ensures bit { result ≡ bit holds }
    ensures small { result ≤ 1 }
{
    if holds { 1 } else { 0 }
}

/// How many bags have items.
fn count_awake<P: Program, B: Bag<P>>(bags: &[B], places: u32) -> u64
    requires bags { length bags.now ≡ places }
    requires few { places ≤ 64 }
    ensures { result ≡ sum_to places (λ p. bit (has_items (get_or (map B.items bags.now) p []))) }
{
    let mut awake = 0;
    for place in 0..places {
        awake += one_if(is_awake::<P, B>(bags, place));
    }
    awake
}

fn no_counters(alloc: Global, places: u32) -> Result<Vec<Counters>, NoMemory>
    ensures { IfOk result (λ v. vec_len v ≡ places) }
{
    let mut counters = Vec::new(alloc);
    for _place in 0..places {
        counters.push(Counters::ZERO)?;
    }
    Ok(counters)
}

/// The tables of the start of the bags, but that the bags are not in them yet, and room for the
/// counters of a report.
pub(crate) fn make<P: Program, B: Bag<P>>(
    alloc: Global,
    program: &P,
    params: &Params,
    bags: &[B],
) -> Result<(Tables<B, P::Value>, Vec<Counters>), NoMemory>
    requires limits { IsWithinLimits params.now }
    requires bags { length bags.now ≡ params.now.places }
    ensures tables { IfOk result
        (λ t. FirstTables B.items P.Value.unit params.now (map B.items bags.now) t.0) }
    ensures report { IfOk result (λ t. vec_len t.1 ≡ params.now.places) }
{
    let lines = cube(alloc, params.places, params.base)?;
    let edge_rows = first_edge_rows::<P, B>(alloc, &lines, bags)?;
    let place_rows = first_place_rows::<P, B>(alloc, program, params)?;
    let report = no_counters(alloc, params.places)?;
    Ok((
        Tables {
            lines,
            params: *params,
            place_rows,
            edge_rows,
            live: count_awake::<P, B>(bags, params.places),
            stop: 0,
            total: 0,
            value: P::Value::unit(),
        },
        report,
    ))
}

/// Lays a bag into the row of a place that has none yet.
fn give_bag<P: Program, B: Bag<P>>(place_row: &mut PlaceRow<B>, bag: B)
    requires phase { place_row.old.phase ≡ Phase.Asleep }
    requires credit { place_row.old.credit ≡ Credit.Zero }
    ensures { place_row.new ≡ with_bag B.items bag place_row.old }
{
    if !is_empty::<P, B>(&bag) {
        place_row.phase = Phase::Working;
        place_row.credit = Credit::One;
    }
    place_row.bag = bag;
}

/// Lays the bags into the rows of their places.
pub(crate) fn fill<P: Program, B: Bag<P>>(place_rows: &mut Vec<PlaceRow<B>>, bags: Vec<B>)
    requires number { length place_rows.old.items ≡ length bags.items }
    requires asleep { AllAsleep place_rows.old.items }
    ensures number { length place_rows.new.items ≡ length place_rows.old.items }
    ensures place_rows { (i : ℕ) (d : PlaceRow B) (e : B) → i < length bags.items →
        get_or place_rows.new.items i d
        ≡ with_bag B.items (get_or bags.items i e) (get_or place_rows.old.items i d) }
{
    let mut bags = bags;
    while let Some(bag) = bags.pop() {
        give_bag::<P, B>(&mut place_rows[bags.len()], bag);
    }
}
