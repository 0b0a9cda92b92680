//! How the shared object is made, with a berth for each place.
ghost use Rattle.std.specs.Prelude.{◌≡◌, ◌<◌, ◌≤◌, [], length, map, get_or, IfOk};
ghost use Rattle.glb_cube.specs.Lines.{IsCube};
ghost use Rattle.glb_rules.specs.Setups.{IsWithinLimits, tries_of};
ghost use Rattle.glb_cells.specs.Shows.{Sound};
ghost use Rattle.glb_cells.specs.Starts.{first_views, setup_from};
ghost use Rattle.glb_cells.specs.Berths.{IsFirstBerth};
ghost use Rattle.glb_cells.specs.inner.Numbers.{are_empty};
ghost use Rattle.glb_cells.specs.inner.Seats.{HasFirst};

use super::berth::{Berth, berth_at_start};
use super::cells::{CellTable, Cells};
use super::key::Start;
use super::looks::LookCounts;
use super::numbers::{count_awake, first_words, line_numbers};
use super::rule::{PlaceSeat, Steps};
use super::seats::deal;
use glb_core::Params;
use glb_cube::Lines;
use glb_laws::{Bag, NoMemory, Program};
use glb_place::APART;
use std::alloc::Global;
use std::snapshot::Snapshot;

fn snapshots<B>(alloc: Global, bags: &[B]) -> Result<Vec<Snapshot<B>>, NoMemory>
    ensures { IfOk result (λ v. map (λ s. s.value) v.items ≡ bags.now) }
{
    let mut all = Vec::new(alloc);
    for bag in bags {
        all.push(Snapshot::of(bag))?;
    }
    Ok(all)
}

/// Of each place, whether it begins without items: then its lines begin as Refused.
fn empty_places<P: Program, B: Bag<P>>(alloc: Global, bags: &[B]) -> Result<Vec<bool>, NoMemory>
    ensures { IfOk result (λ v. v.items ≡ map (λ b. are_empty (B.items b)) bags.now) }
{
    let mut empty = Vec::new(alloc);
    for bag in bags {
        empty.push(bag.len() == 0)?;
    }
    empty.reserve(APART)?;
    Ok(empty)
}

fn deal_all<P: Program, B: Bag<P>>(
    alloc: Global,
    cells: &Steps<P, B, P::Item>,
    mut dealer: PlaceSeat<P, B, P::Item>,
    bags: &[B],
    tries: u32,
) -> Result<Vec<Berth<P, B>>, NoMemory>
    requires table { (dealer.table_id ≡ cells.now.table_id) × (0 < cells.now.table_id.words) }
    requires all { (dealer.me.0
        ≡ first_views (setup_from B.items B.fits P.children cells.now.key)) × (dealer.me.1 ≡ []) }
    requires bags { (map (λ s. s.value) cells.now.key.bags.items ≡ bags.now)
        × (length bags.now ≡ cells.now.key.lines.value.places) × (length bags.now ≤ 64) }
    requires tries { tries ≡ tries_of cells.now.key.params }
    requires cube { IsCube cells.now.key.lines.value }
    requires sound { Sound (setup_from B.items B.fits P.children cells.now.key) }
    ensures many { IfOk result (λ v. length v.items ≡ length bags.now) }
    ensures first { IfOk result (λ v. (p : _) (d : _) → p < length v.items
        → HasFirst (setup_from B.items B.fits P.children cells.now.key) cells.now.table_id p
        (get_or v.items p d)) }
{
    let mut berths = Vec::with_capacity(alloc, bags.len())?;
    for place in 0..bags.len() {
        let held = empty_places::<P, B>(alloc, bags)?;
        let looks = LookCounts::new(alloc, bags.len() as u32)?;
        let seat = deal(cells, &mut dealer);
        let berth = berth_at_start::<P, B>(
            seat,
            place as u32,
            tries,
            bags[place].len(),
            held,
            looks,
        );
        berths.push(berth)?;
    }
    Ok(berths)
}

impl<P: Program, B: Bag<P>> Cells<P, B> {
    /// The object, and by place number a berth for each place. All memory of the fabric is taken
    /// here.
    pub fn new(
        alloc: Global,
        program: &P,
        params: &Params,
        lines: &Lines,
        bags: &[B],
    ) -> Result<(Cells<P, B>, Vec<Berth<P, B>>), NoMemory>
        requires limits { IsWithinLimits params.now }
        requires places { (params.now.places ≡ lines.now.places)
            × (length bags.now ≡ lines.now.places) }
        ensures made { IfOk result (λ r. r.0 ≡ record {
          object = r.0.object;
          program = program.now;
          params = params.now;
          lines = lines.now;
          bags = map B.items bags.now;
        }) }
        ensures many { IfOk result (λ r. length r.1.items ≡ lines.now.places) }
        ensures berths { IfOk result (λ r. (p : _) (d : _) → p < length r.1.items
            → IsFirstBerth r.0 p (get_or r.1.items p d)) }
    {
        let about = Start {
            program: Snapshot::of(program),
            bags: snapshots(alloc, bags)?,
            params: *params,
            lines: Snapshot::of(lines),
        };
        let places = lines.places();
        let tries = if places == 1 { 0 } else { params.tries };
        let line_numbers = line_numbers(alloc, lines)?;
        let live = count_awake::<P, B>(bags);
        let words = first_words::<P, B>(alloc, live, lines, bags)?;
        let edges = words.len() - 3;
        let (table, dealer) = CellTable::<P, B, P::Item>::vacant(
            alloc,
            words.as_slice(),
            edges,
            &about,
        )?;
        let berths = deal_all(alloc, &table.shared, dealer, bags, tries)?;
        Ok((
            Cells {
                table,
                places,
                tries,
                line_numbers,
            },
            berths,
        ))
    }
}
