//! The end of the shared object, when all berths have come back.
ghost use Rattle.std.specs.Prelude.{◌≡◌, ◌<◌, [], ◌∷◌, length, map, All, None};
ghost use Rattle.std.specs.Mem.Slots.{IsFull};
ghost use Rattle.glb_rules.specs.Joins.{join_to};
ghost use Rattle.glb_core.specs.Counters.{all_awake, all_degrees};
ghost use Rattle.glb_place.specs.Close.{Closes};
ghost use Rattle.glb_cells.specs.Berths.{AreBerthsOf, bag_of, setup_of_cells};
ghost use Rattle.glb_cells.specs.Ends.{IsLastOf};

use super::berth::Berth;
use super::cells::Cells;
use super::rule::{PlaceSeat, Steps};
use super::seats::gather;
use atomic_table::Closed as ClosedTable;
use glb_laws::{Bag, Program};
use std::alloc::Global;

/// The three words at the end: live, the number of items done, and the stop code, 0 for none.
#[derive(Clone, Copy, Debug, PartialEq, Eq)]
pub struct Closed {
    pub live: u64,
    pub items: u64,
    pub stop: u64,
}

/// Drops each slot's value.
fn drop_all<B: Drop>(mut closed: ClosedTable<Option<B>, Global>)
    requires { IsFull closed.slots }
{
    let mut i = 0;
    while i < closed.slot_count() {
        drop(closed.take(i));
        i += 1;
    }
    closed.free();
}

/// The views of all berths, in one seat.
fn gather_all<P: Program, B: Bag<P>>(
    cells: &Steps<P, B, P::Item>,
    mut berths: Vec<Berth<P, B>>,
) -> PlaceSeat<P, B, P::Item>
    requires table { (0 < cells.now.table_id.words) × (0 < length berths.items) }
    requires berths { All (λ b. (b.object ≡ cells.now.table_id) × (b.slot ≡ None)) berths.items }
    ensures table { result.table_id ≡ cells.now.table_id }
    ensures views { map (λ r. r.own) result.me.0 ≡ map (λ b. b.kept) berths.items }
{
    let mut all = seat_of(berths.pop().unwrap());
    while let Some(berth) = berths.pop() {
        let mut seat = seat_of(berth);
        gather(cells, &mut seat, all);
        all = seat;
    }
    all
}

/// The seat of a berth that holds no slot, with its one view.
fn seat_of<P: Program, B: Bag<P>>(berth: Berth<P, B>) -> PlaceSeat<P, B, P::Item>
    requires free { berth.slot ≡ None }
    ensures table { result.table_id ≡ berth.object }
    ensures view { map (λ r. r.own) result.me.0 ≡ berth.kept ∷ [] }
    ensures free { result.me.1 ≡ [] }
{
    let Berth {
        seat,
        state: _,
        counters: _,
        held: _,
        looks: _,
    } = berth;
    seat
}

impl<P: Program, B: Bag<P>> Cells<P, B> {
    /// The words at the end, when all berths have come back.
    pub fn close(self, berths: Vec<Berth<P, B>>) -> Closed
        requires all { AreBerthsOf self berths.items }
        ensures last { IsLastOf (P.children self.program) (setup_of_cells self) (bag_of self)
            result.live result.items result.stop (map (λ b. b.kept) berths.items) }
        ensures closes { Closes (P.children self.program) (all_degrees (setup_of_cells self))
            (all_awake (setup_of_cells self)) self.params.limit
            (join_to self.lines.places (bag_of self)) (map (λ b. b.kept) berths.items)
            result.live result.items result.stop }
    {
        let Cells {
            table,
            places: _,
            tries: _,
            line_numbers: _,
        } = self;
        let all = gather_all(&table.shared, berths);
        let closed = table.close_with(all);
        let live = closed.word(0);
        let items = closed.word(1);
        let stop = closed.word(2);
        drop_all(closed);
        Closed { live, items, stop }
    }
}
