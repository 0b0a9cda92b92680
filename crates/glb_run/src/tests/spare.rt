//! Places that are refused memory keep what they split off or took, beside what they had.
ghost use Rattle.std.specs.Prelude.{◌≡◌, All, map, vec_len};
ghost use Rattle.glb_rules.specs.Setups.{IsWithinLimits};
ghost use Rattle.glb_run.specs.inner.CellRuns.{AreFirstBerths};

use super::pairs::both_of;
use super::refused::{Bags, ShyQueens, shy_queens};
use crate::over_cells::stands_of;
use crate::played::places_of;
use crate::roots::bags_of;
use glb_cells::{Berth, Cells};
use glb_core::Params;
use glb_cube::{Lines, cube};
use glb_laws::{Bag, Monoid, Program};
use glb_place::{Ended, Fabric, Parts, Place, Turn};
use std::alloc::Global;
use std::sync::Wait;
use std::test::Fail;

/// What places left: how many items they did, how many are in their bags, how many beside them, and
/// how many nodes the trees of these have.
#[derive(Clone, Copy)]
struct Tally {
    done: u64,
    in_bags: u64,
    beside: u64,
    nodes: u64,
}

/// Expands all that is in the bag, as far as memory lasts. How many items it was.
fn nodes_of<P: Program, B: Bag<P>>(program: &P, bag: B) -> u64
    requires { B.fits bag program.now }
{
    let mut bag = bag;
    let mut value = P::Value::unit();
    match bag.process(program, 1000, &mut value) {
        Ok(nodes) => nodes,
        Err(stopped) => stopped.done,
    }
}

/// Adds what a place left.
fn add_place<P: Program, B: Bag<P>, F: Fabric<P, B>>(
    tally: Tally,
    program: &P,
    place: Place<P, B, F>,
) -> Tally
    requires { program.now ≡ F.program place.fabric }
{
    let Parts {
        bag,
        spare,
        counters,
        ..
    } = place.finish();
    let in_bag = bag.len();
    let nodes = nodes_of(program, bag);
    let (beside, more) = match spare {
        Some(part) => (part.len(), nodes_of(program, part)),
        None => (0, 0),
    };
    Tally {
        done: tally.done.saturating_add(counters.items),
        in_bags: tally.in_bags.saturating_add(in_bag),
        beside: tally.beside.saturating_add(beside),
        nodes: tally.nodes.saturating_add(nodes).saturating_add(more),
    }
}

/// Plays two places by turns until both are closed. What they read, if they were.
fn play<P: Program, B: Bag<P>, F: Fabric<P, B>>(
    rt: &impl Wait,
    program: &P,
    first: &mut Place<P, B, F>,
    second: &mut Place<P, B, F>,
) -> Option<(Ended, Ended)>
    requires first { program.now ≡ F.program first.old.fabric }
    requires second { program.now ≡ F.program second.old.fabric }
    ensures first { program.now ≡ F.program first.new.fabric }
    ensures second { program.now ≡ F.program second.new.fabric }
{
    for _ in 0..1000 {
        let turns = (first.turn(rt, program), second.turn(rt, program));
        if let (Turn::Closed(one), Turn::Closed(other)) = turns {
            return Some((one, other));
        }
    }
    None
}

/// What two places leave, which want of memory ends.
fn tally_of<P: Program, B: Bag<P>, F: Fabric<P, B>>(
    rt: &impl Wait,
    program: &P,
    places: Vec<Place<P, B, F>>,
) -> Result<Tally, Fail>
    requires two { vec_len places ≡ 2 }
    requires programs { All (λ f. program.now ≡ F.program f) (map (λ p. p.fabric) places.items) }
{
    let (mut first, mut second) = both_of(places);
    match play(rt, program, &mut first, &mut second) {
        Some((Ended::Halted { code: 2 }, Ended::Halted { code: 2 })) => {}
        _ => return Err(Fail::new("want of memory did not end the places")),
    }
    let none = Tally {
        done: 0,
        in_bags: 0,
        beside: 0,
        nodes: 0,
    };
    Ok(add_place(add_place(none, program, first), program, second))
}

/// What two places of these bags over the cells leave.
fn play_over<P: Program, B: Bag<P>>(
    rt: &impl Wait,
    alloc: Global,
    program: &P,
    params: &Params,
    lines: &Lines,
    bags: Vec<B>,
    cells: &Cells<P, B>,
    berths: Vec<Berth<P, B>>,
) -> Result<Tally, Fail>
    requires limits { IsWithinLimits params.now }
    requires two { params.now.places ≡ 2 }
    requires places { lines.now.places ≡ params.now.places }
    requires base { lines.now.base ≡ params.now.base }
    requires bags { vec_len bags ≡ params.now.places }
    requires first { AreFirstBerths cells.now program.now params.now lines.now
        (map B.items bags.items) berths.items }
    requires fits { All (λ b. B.fits b program.now) bags.items }
{
    let stands = stands_of(alloc, cells, berths)?;
    let places = places_of(alloc, program, params, lines, bags, stands)?;
    tally_of(rt, program, places)
}

/// What two places leave that begin with these roots.
fn run<P: Program, B: Bag<P>>(
    rt: &impl Wait,
    alloc: Global,
    program: &P,
    params: &Params,
    roots: Vec<Vec<P::Item>>,
) -> Result<Tally, Fail>
    requires limits { IsWithinLimits params.now }
    requires two { params.now.places ≡ 2 }
    requires lists { vec_len roots ≡ params.now.places }
{
    let Ok(lines) = cube(alloc, params.places, params.base) else {
        return Err(Fail::new("no memory"));
    };
    let Ok(bags) = bags_of::<P, B>(alloc, program, roots) else {
        return Err(Fail::new("no memory"));
    };
    let Ok((cells, berths)) = Cells::new(alloc, program, params, &lines, &bags) else {
        return Err(Fail::new("no memory"));
    };
    play_over(rt, alloc, program, params, &lines, bags, &cells, berths)
}

/// A run of four queens, of which the first place has the root, and which is refused memory so.
fn run_refused(rt: &impl Wait, alloc: Global, case: (bool, bool, bool)) -> Result<Tally, Fail> {
    let queens = shy_queens(case);
    let params = Params {
        places: 2,
        batch: 1,
        tries: 0,
        base: 2,
        seed: 0,
        limit: 1_099_511_627_776,
    };
    let roots = vec![in alloc; vec![in alloc; queens.inner.root()]?, Vec::new(alloc)]?;
    run::<ShyQueens, Bags>(rt, alloc, &queens, &params, roots)
}

#[test]
fn a_bag_that_is_not_split_keeps_its_items(rt: HostRuntime) -> Result<(), Fail> {
    let tally = run_refused(&rt, rt.alloc(), (false, true, false))?;
    assert!(rt; tally.in_bags > 1);
    assert_eq!(rt; tally.beside, 0);
    assert_eq!(rt; tally.done.saturating_add(tally.nodes), 17);
    Ok(())
}

#[test]
fn a_part_that_is_not_merged_stays_beside_the_bag(rt: HostRuntime) -> Result<(), Fail> {
    let tally = run_refused(&rt, rt.alloc(), (false, false, true))?;
    assert!(rt; tally.beside > 0);
    assert_eq!(rt; tally.done.saturating_add(tally.nodes), 17);
    Ok(())
}
