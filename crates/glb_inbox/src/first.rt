//! Desks at the start.
ghost use Rattle.std.specs.Prelude.{◌≡◌, ◌++◌, ◌<◌, [], length, get_or, map, Some, OnOk, IfOk};
ghost use Rattle.std.specs.List.{range_with_len};
ghost use Rattle.std.specs.Arc.{arc_value};
ghost use Rattle.glb_cube.specs.Lines.{outs_of};
ghost use Rattle.glb_laws.specs.Numbers.{has_number};
ghost use Rattle.glb_rules.specs.Setups.{has_items};
ghost use Rattle.glb_inbox.specs.inner.Books.{AreWays};
ghost use Rattle.glb_inbox.specs.inner.Firsts.{first_known, first_lane};
ghost use Rattle.glb_inbox.specs.inner.Posted.{tie};

use super::lane::Lane;
use super::rule::{Slip, Words};
use super::way::Way;
use glb_core::{Edge, Kind};
use glb_cube::Lines;
use glb_laws::{Bag, NoMemory, Program};
use glb_place::APART;
use std::alloc::Global;

fn edge_of(is_awake: bool, there: bool) -> Edge
    ensures { result ≡ first_known is_awake there }
{
    match (is_awake, there) {
        (false, true) => Edge::Refused,
        _ => Edge::Idle,
    }
}

/// Whether a lifeline leads from the one place to the other.
fn has_line(lines: &Lines, thief: u32, victim: u32) -> bool
    requires { thief < lines.now.places }
    ensures { result ≡ has_number victim (outs_of lines.now thief) }
{
    let targets = lines.out(thief);
    for target in targets {
        if victim == *target {
            return true;
        }
    }
    false
}

/// Whether the place has items.
pub fn is_awake<P: Program, B: Bag<P>>(bags: &[B], place: usize) -> bool
    requires { place < length bags.now }
    ensures { result ≡ has_items (get_or (map B.items bags.now) place []) }
{
    bags[place].len() > 0
}

fn first_lane<P: Program, B: Bag<P>>(
    lines: &Lines,
    bags: &[B],
    place: u32,
    kind: Kind,
    other: u32,
) -> Lane<B, P::Item>
    requires near { (place < lines.now.places) × (other < lines.now.places) }
    requires bags { length bags.now ≡ lines.now.places }
    ensures { result ≡ first_lane lines.now (λ p. has_items (get_or (map B.items bags.now) p []))
        place kind other }
{
    match kind {
        Kind::Steal => Lane::new(Edge::Idle, Edge::Idle),
        Kind::Line => {
            let inward = edge_of(
                is_awake::<P, B>(bags, other as usize),
                has_line(lines, other, place),
            );
            let outward = edge_of(
                is_awake::<P, B>(bags, place as usize),
                has_line(lines, place, other),
            );
            Lane::new(inward, outward)
        }
    }
}

fn add_lanes<P: Program, B: Bag<P>>(
    lanes: &mut Vec<Lane<B, P::Item>>,
    lines: &Lines,
    bags: &[B],
    place: u32,
    kind: Kind,
) -> Result<(), NoMemory>
    requires near { place < lines.now.places }
    requires bags { length bags.now ≡ lines.now.places }
    ensures { OnOk result (lanes.new.items ≡ lanes.old.items ++ map (first_lane lines.now
        (λ p. has_items (get_or (map B.items bags.now) p [])) place kind)
        (range_with_len 0 lines.now.places)) }
{
    for other in 0..lines.places() {
        lanes.push(first_lane::<P, B>(lines, bags, place, kind, other))?;
    }
    Ok(())
}

/// The lanes of a place at the start.
pub fn first_lanes<P: Program, B: Bag<P>>(
    alloc: Global,
    lines: &Lines,
    bags: &[B],
    place: u32,
) -> Result<Vec<Lane<B, P::Item>>, NoMemory>
    requires near { place < lines.now.places }
    requires bags { length bags.now ≡ lines.now.places }
    ensures { IfOk result (λ v. v.items ≡ map (first_lane lines.now
        (λ p. has_items (get_or (map B.items bags.now) p [])) place Kind.Steal)
        (range_with_len 0 lines.now.places) ++ map (first_lane lines.now
        (λ p. has_items (get_or (map B.items bags.now) p [])) place Kind.Line)
        (range_with_len 0 lines.now.places)) }
{
    let places = lines.places() as usize;
    let mut lanes = Vec::with_capacity(alloc, 2 * places)?;
    add_lanes::<P, B>(&mut lanes, lines, bags, place, Kind::Steal)?;
    add_lanes::<P, B>(&mut lanes, lines, bags, place, Kind::Line)?;
    // A lane has two counts of eight bytes, and more.
    lanes.reserve(APART / 16)?;
    Ok(lanes)
}

fn tied_way<P: Program, B: Bag<P>>(
    alloc: Global,
    program: &P,
    seat: &Slip<P::Item>,
) -> Result<Way<P, B>, NoMemory>
    ensures { IfOk result (λ w. w ≡ Some (tie program.now seat.now.table_id)) }
{
    match Way::<P, B>::new(alloc) {
        Ok(mut way) => {
            way.tie_to(program, seat);
            Ok(way)
        }
        Err(no_memory) => Err(no_memory),
    }
}

/// A way to a new inbox for each place.
pub fn open_inboxes<P: Program, B: Bag<P>>(
    alloc: Global,
    program: &P,
    seat: &Slip<P::Item>,
    places: usize,
) -> Result<Vec<Way<P, B>>, NoMemory>
    ensures { IfOk result (λ v. AreWays seat.now.table_id program.now places v.items) }
{
    let mut ways = Vec::with_capacity(alloc, places)?;
    for _ in 0..places {
        ways.push(tied_way::<P, B>(alloc, program, seat)?)?;
    }
    Ok(ways)
}

/// Another way to a place's inbox.
pub fn way_to<P: Program, B: Bag<P>>(
    words: &Words<P, B, P::Item>,
    inboxes: &mut Vec<Way<P, B>>,
    place: usize,
) -> Result<Way<P, B>, NoMemory>
    requires inboxes { AreWays words.now.table_id words.now.key.program.value
        words.now.key.lines.value.places inboxes.old.items }
    requires near { place < words.now.key.lines.value.places }
    ensures inboxes { AreWays words.now.table_id words.now.key.program.value
        words.now.key.lines.value.places inboxes.new.items }
    ensures way { IfOk result (λ w. w ≡ Some (tie words.now.key.program.value words.now.table_id)) }
{
    let _ = words;
    inboxes[place].another()
}

/// Another way to each inbox.
pub fn ways_to_all<P: Program, B: Bag<P>>(
    alloc: Global,
    words: &Words<P, B, P::Item>,
    inboxes: &mut Vec<Way<P, B>>,
) -> Result<Vec<Way<P, B>>, NoMemory>
    requires { AreWays words.now.table_id words.now.key.program.value
        words.now.key.lines.value.places inboxes.old.items }
    ensures inboxes { AreWays words.now.table_id words.now.key.program.value
        words.now.key.lines.value.places inboxes.new.items }
    ensures ways { IfOk result
        (λ v. AreWays words.now.table_id words.now.key.program.value
        words.now.key.lines.value.places v.items) }
{
    let mut ways = Vec::with_capacity(alloc, inboxes.len())?;
    for place in 0..inboxes.len() {
        let way = way_to::<P, B>(words, inboxes, place)?;
        ways.push(way)?;
    }
    Ok(ways)
}
