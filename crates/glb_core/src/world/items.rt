//! What the events that move or expand items do to the rows of a place and of an edge.
ghost use Rattle.std.specs.Prelude.{◌≡◌, ◌≢◌, ℕ, ◌+◌, ◌-◌, ◌*◌, ◌^◌, ◌<◌, ◌≤◌, List, length};
ghost use Rattle.std.specs.Prelude.{vec_len, replicate, min, IfOk, IfErr, OnOk, OnErr};
ghost use Rattle.std.specs.Prelude.{IsPermutation};
ghost use Rattle.glb_laws.specs.Bag.{KeepsFit};
ghost use Rattle.glb_laws.specs.Expansion.{Expands};
ghost use Rattle.glb_core.specs.inner.Conditions.{HoldsPart};
ghost use Rattle.glb_core.specs.inner.ItemEffects.{GivesPart, TakesPart, AfterBatch, SameEdge};
ghost use Rattle.glb_core.specs.inner.ItemEffects.{count_given as given_counters};
ghost use Rattle.glb_core.specs.inner.ItemEffects.{count_got as got_counters};
ghost use Rattle.glb_core.specs.Standing.{EdgeRowFits};

use super::rows::{EdgeRow, PlaceRow};
use crate::{Credit, Kind, Mark, Phase};
use glb_laws::{Bag, Monoid, NoMemory, Program, Stopped};
use glb_stats::Counters;
use std::mem;

fn count_given(counters: &mut Counters, kind: Kind, units: u64)
    ensures { counters.new ≡ given_counters kind units counters.old }
{
    match kind {
        Kind::Steal => counters.given = counters.given.saturating_add(1),
        Kind::Line => counters.line_given = counters.line_given.saturating_add(1),
    }
    counters.sent_units = counters.sent_units.saturating_add(u128::from(units));
}

fn count_got(counters: &mut Counters, kind: Kind, units: u64, woken: u64)
    ensures { counters.new ≡ got_counters kind units woken counters.old }
{
    match kind {
        Kind::Steal => counters.got = counters.got.saturating_add(1),
        Kind::Line => counters.line_got = counters.line_got.saturating_add(1),
    }
    counters.got_units = counters.got_units.saturating_add(u128::from(units));
    counters.wakes = counters.wakes.saturating_add(woken);
}

/// Splits the bag, and lays the part into the row of the edge.
pub(crate) fn give_part<P: Program, B: Bag<P>>(
    place_row: &mut PlaceRow<B>,
    edge_row: &mut EdgeRow<B>,
    at: usize,
    kind: Kind,
) -> Result<(), NoMemory>
    requires two { 1 < length (B.items place_row.old.bag) }
    requires at { at < vec_len place_row.old.marks }
    ensures given { OnOk result
        (GivesPart B.items kind at place_row.old place_row.new edge_row.new) }
    ensures place_row_stays { OnErr result
        (place_row.new ≡ record place_row.old { bag = place_row.new.bag }) }
    ensures bag_stays { OnErr result (B.items place_row.new.bag ≡ B.items place_row.old.bag) }
    ensures edge_row_stays { OnErr result (edge_row.new ≡ edge_row.old) }
    ensures fits { KeepsFit (B.fits place_row.old.bag) (B.fits place_row.new.bag) }
    ensures edge_row_fits { (p : P) → B.fits place_row.old.bag p → EdgeRowFits B.fits p edge_row.old
        → EdgeRowFits B.fits p edge_row.new }
{
    match place_row.bag.split()? {
        Some(part) => {
            count_given(&mut place_row.counters, kind, part.len());
            *edge_row = EdgeRow::Loot(part);
            place_row.marks[at] = Mark::Clear;
            place_row.credit = Credit::One;
            Ok(())
        }
        None => unreachable!(),
    }
}

/// Merges the part from the row of the edge into the bag.
pub(crate) fn take_part<P: Program, B: Bag<P>>(
    place_row: &mut PlaceRow<B>,
    edge_row: &mut EdgeRow<B>,
    kind: Kind,
) -> Result<(), NoMemory>
    requires loot { HoldsPart edge_row.old }
    requires fits { (p : P) × (B.fits place_row.old.bag p × EdgeRowFits B.fits p edge_row.old) }
    ensures taken { OnOk result (TakesPart B.items kind place_row.old place_row.new edge_row.old) }
    ensures edge_row { OnOk result (edge_row.new ≡ EdgeRow.Idle) }
    ensures place_row_stays { OnErr result
        (place_row.new ≡ record place_row.old { bag = place_row.new.bag }) }
    ensures bag_stays { OnErr result (B.items place_row.new.bag ≡ B.items place_row.old.bag) }
    ensures edge_row_stays { OnErr result (SameEdge B.items edge_row.old edge_row.new) }
    ensures fits { KeepsFit (B.fits place_row.old.bag) (B.fits place_row.new.bag) }
    ensures edge_row_fits { (p : P) → EdgeRowFits B.fits p edge_row.old
        → EdgeRowFits B.fits p edge_row.new }
{
    match mem::replace(edge_row, EdgeRow::Idle) {
        EdgeRow::Loot(part) => {
            let units = part.len();
            match place_row.bag.merge(part) {
                Ok(()) => {
                    count_got(
                        &mut place_row.counters,
                        kind,
                        units,
                        place_row.phase.wake_count(),
                    );
                    place_row.phase = Phase::Working;
                    place_row.credit = place_row.credit.after_take();
                    Ok(())
                }
                Err((no_memory, part)) => {
                    *edge_row = EdgeRow::Loot(part);
                    Err(no_memory)
                }
            }
        }
        EdgeRow::Idle | EdgeRow::Asked | EdgeRow::Refused => unreachable!(),
    }
}

fn forget_marks(marks: &mut [Mark])
    ensures { marks.new ≡ replicate (length marks.old) Mark.Unseen }
{
    for mark in marks.iter_mut() {
        *mark = Mark::Unseen;
    }
}

/// The row of a place after a batch. A place whose bag is empty has its tries again.
fn settle<P: Program, B: Bag<P>>(place_row: &mut PlaceRow<B>, tries: u32, count: u64)
    requires { place_row.old.phase ≡ Phase.Working }
    ensures settled { AfterBatch B.items tries count place_row.old place_row.new }
    ensures bag { place_row.new.bag ≡ place_row.old.bag }
{
    if place_row.bag.len() == 0 {
        place_row.phase = Phase::Idle;
        place_row.tries = tries;
    }
    forget_marks(&mut place_row.marks);
    place_row.counters.items = place_row.counters.items.saturating_add(count);
}

/// Expands up to `most` items of the bag, and combines their values into `value`. Where memory runs
/// out before the first one, the row stays.
pub(crate) fn work<P: Program, B: Bag<P>>(
    place_row: &mut PlaceRow<B>,
    program: &P,
    most: u64,
    tries: u32,
    value: &mut P::Value,
) -> Result<u64, Stopped>
    requires working { place_row.old.phase ≡ Phase.Working }
    requires items { 0 < length (B.items place_row.old.bag) }
    requires some { 1 ≤ most }
    requires fits { B.fits place_row.old.bag program.now }
    ensures done { IfOk result
        (λ k. Expands (P.children program.now) (P.value program.now) P.Value.combine
        (B.items place_row.old.bag) value.old k (B.items place_row.new.bag) value.new) }
    ensures whole { IfOk result
        (λ k. (1 ≤ k) × (k ≤ most) × (k < most → length (B.items place_row.new.bag) ≡ 0)) }
    ensures settled { IfOk result (λ k. AfterBatch B.items tries k place_row.old place_row.new) }
    ensures stopped { IfErr result
        (λ e. Expands (P.children program.now) (P.value program.now) P.Value.combine
        (B.items place_row.old.bag) value.old e.done (B.items place_row.new.bag) value.new) }
    ensures cut { IfErr result
        (λ e. (e.done < most) × (0 < length (B.items place_row.new.bag)) ×
        (1 ≤ e.done → AfterBatch B.items tries e.done place_row.old place_row.new)
        × (e.done ≡ 0 → place_row.new ≡ record place_row.old { bag = place_row.new.bag })) }
    ensures fits { KeepsFit (B.fits place_row.old.bag) (B.fits place_row.new.bag) }
{
    match place_row.bag.process(program, most, value) {
        Ok(count) => {
            settle::<P, B>(place_row, tries, count);
            Ok(count)
        }
        Err(stopped) => {
            if stopped.done > 0 {
                settle::<P, B>(place_row, tries, stopped.done);
            }
            Err(stopped)
        }
    }
}
