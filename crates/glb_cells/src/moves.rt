//! How items move: a batch, a gift and its taking. A gift and a taking are two operations on the
//! edge's word, between which the part goes into the slot or out of it. None of these calls waits
//! or takes memory.
ghost use Rattle.std.specs.Prelude.{◌≡◌, ◌+◌, ◌<◌, ◌≤◌, ◌++◌, length};
ghost use Rattle.glb_laws.specs.Expansion.{Expands};
ghost use Rattle.glb_rules.specs.World.{units_of};
ghost use Rattle.glb_rules.specs.declared.event.Event.TheVariants as event;
ghost use Rattle.glb_place.specs.Records.{May};
ghost use Rattle.glb_place.specs.Calls.{Settles, Gives, HasMore};
ghost use Rattle.glb_place.specs.Rows.{give_row, take_row};
ghost use Rattle.glb_cells.specs.inner.Numbers.{word_of_gift};
ghost use Rattle.glb_cells.specs.Berths.{IsOf, Makes, size_after_gift, size_after_take};

use super::berth::Berth;
use super::cells::Cells;
use super::gifts::{give_as, settle_as, take_as};
use super::states;
use glb_core::Kind;
use glb_laws::{Bag, Program};
use glb_place::counts::{count_given, count_got, count_items};
use std::marker::Brand;

impl<P: Program, B: Bag<P>> Cells<P, B> {
    /// Counts a batch that left this bag. The number of items that all places have done after it.
    pub fn settle(&self, berth: &mut Berth<P, B>, bag: &B, done: u64, gain: &P::Value) -> u64
        requires here { IsOf self.now berth.old }
        requires may { May berth.old.kept (event.Batch berth.old.kept.place) }
        requires batch { (1 ≤ done) × (done ≤ berth.old.kept.params.batch) }
        requires last { berth.old.kept.last ≤ berth.old.kept.params.limit }
        requires moves { Expands (P.children self.now.program) (P.value self.now.program)
            P.Value.combine berth.old.kept.local.bag P.Value.unit done (B.items bag.now) gain.now }
        ensures here { IsOf self.now berth.new }
        ensures makes { Makes 1 berth.old berth.new }
        ensures kept { Settles (P.children self.now.program) (P.value self.now.program)
            P.Value.unit P.Value.combine done (B.items bag.now) gain.now result berth.old.kept
            berth.new.kept }
        ensures found { result ≡ berth.new.found + done }
        ensures size { berth.new.state.size ≡ units_of (B.items bag.now) }
    {
        let before = settle_as::<Brand, Brand, P, B>(
            &self.table.shared,
            &mut berth.seat,
            bag,
            done,
            gain,
        );
        states::settle(&mut berth.state, self.tries, bag.len());
        count_items(&mut berth.counters, done);
        before + done
    }

    /// Gives the part to the thief that asked.
    pub fn give(&self, berth: &mut Berth<P, B>, thief: u32, kind: Kind, part: B)
        requires here { IsOf self.now berth.old }
        requires may { May berth.old.kept (event.Give berth.old.kept.place thief kind) }
        requires part { 0 < length (B.items part) }
        requires fits { B.fits part self.now.program }
        requires rest { HasMore (B.items part) berth.old.kept }
        ensures here { IsOf self.now berth.new }
        ensures makes { Makes 2 berth.old berth.new }
        ensures kept { Gives (give_row thief kind) (B.items part) berth.old.kept berth.new.kept }
        ensures size { berth.new.state.size
            ≡ size_after_gift (units_of (B.items part)) berth.old.state.size }
    {
        let place = berth.state.place;
        let units = part.len();
        let edge = self.number(thief, place, kind);
        let word = begin_word(&berth.held, thief, kind);
        give_as::<Brand, P, B>(
            &self.table.shared,
            &mut berth.seat,
            edge,
            part,
            thief,
            place,
            kind,
            word,
        );
        states::give(&mut berth.state, units);
        states::hold(&mut berth.held, thief, kind, false);
        count_given(&mut berth.counters, kind, units);
    }

    /// The part that waits on the edge.
    pub fn take(&self, berth: &mut Berth<P, B>, victim: u32, kind: Kind) -> B
        requires here { IsOf self.now berth.old }
        requires may { May berth.old.kept (event.Take berth.old.kept.place victim kind) }
        ensures here { IsOf self.now berth.new }
        ensures makes { Makes 2 berth.old berth.new }
        ensures kept { berth.new.kept ≡ take_row victim kind (B.items result)
            (B.items result ++ berth.old.kept.local.bag) berth.old.kept }
        ensures some { 0 < length (B.items result) }
        ensures fits { B.fits result self.now.program }
        ensures size { berth.new.state.size
            ≡ size_after_take (units_of (B.items result)) berth.old.state.size }
    {
        let place = berth.state.place;
        let phase = berth.state.phase;
        let edge = self.number(place, victim, kind);
        let part = take_as::<Brand, P, B>(
            &self.table.shared,
            &mut berth.seat,
            edge,
            place,
            victim,
            kind,
        );
        let units = part.len();
        states::take(&mut berth.state, units);
        count_got(&mut berth.counters, kind, units, phase);
        part
    }
}

/// The word by which a gift begins: that of a part for a refused request, or for one that waits.
fn begin_word(held: &Vec<bool>, thief: u32, kind: Kind) -> u64
    requires { thief < length held.now.items }
    ensures { result ≡ word_of_gift kind thief held.now.items }
{
    match kind {
        Kind::Steal => 3,
        Kind::Line => { if held[thief as usize] { 4 } else { 3 } }
    }
}
