//! The steps at one edge: a request, its refusal, and looks at both ends. Each is one operation on
//! the edge's word. None of them waits or takes memory.
ghost use Rattle.std.specs.Prelude.{◌≡◌, true, false};
ghost use Rattle.glb_rules.specs.Events.{name_of};
ghost use Rattle.glb_rules.specs.declared.event.Event.TheVariants as event;
ghost use Rattle.glb_rules.specs.declared.kinds.Kind.TheVariants as kinds;
ghost use Rattle.glb_rules.specs.declared.kinds.Side.TheVariants as sides;
ghost use Rattle.glb_rules.specs.declared.kinds.Edge.TheVariants as seen;
ghost use Rattle.glb_place.specs.Records.{May};
ghost use Rattle.glb_place.specs.Rows.{ask_row, deny_row, shrug_row, known_row};
ghost use Rattle.glb_place.specs.Calls.{IsOwn, MayFind, look_row};
ghost use Rattle.glb_cells.specs.Words.{read};
ghost use Rattle.glb_cells.specs.Berths.{Belongs, IsOf, Moved};

use super::berth::Berth;
use super::cells::Cells;
use super::states;
use super::steps::{ask_as, deny_as, give_up_as, look_in_as, look_out_as, shrug_as};
use glb_core::{Edge, Kind, Side};
use glb_laws::{Bag, Program};
use glb_place::counts::{count_ask, count_denied, count_shrug};
use std::marker::Brand;

impl<P: Program, B: Bag<P>> Cells<P, B> {
    /// The place asks the victim: the edge's word goes from Idle to Asked.
    pub fn ask(&self, berth: &mut Berth<P, B>, victim: u32, kind: Kind)
        requires here { IsOf self.now berth.old }
        requires may { May berth.old.kept (event.Ask berth.old.kept.place victim kind) }
        ensures here { IsOf self.now berth.new }
        ensures moved { Moved 1 (ask_row victim kind) berth.old berth.new }
        ensures found { berth.new.found ≡ 0 }
    {
        let place = berth.state.place;
        let edge = self.number(place, victim, kind);
        ask_as::<Brand, P, B>(
            &self.table.shared,
            &mut berth.seat,
            edge,
            place,
            victim,
            kind,
        );
        states::ask(&mut berth.state, victim, kind);
        count_ask(&mut berth.counters, kind);
    }

    /// The place refuses the thief's request: the edge's word goes from Asked to Refused.
    pub fn deny(&self, berth: &mut Berth<P, B>, thief: u32, kind: Kind)
        requires here { IsOf self.now berth.old }
        requires may { May berth.old.kept (event.Deny berth.old.kept.place thief kind) }
        ensures here { IsOf self.now berth.new }
        ensures moved { Moved 1 (deny_row thief kind) berth.old berth.new }
        ensures found { berth.new.found ≡ 1 }
    {
        let place = berth.state.place;
        let edge = self.number(thief, place, kind);
        deny_as::<Brand, P, B>(
            &self.table.shared,
            &mut berth.seat,
            edge,
            thief,
            place,
            kind,
        );
        states::hold(&mut berth.held, thief, kind, true);
        count_denied(&mut berth.counters, kind);
    }

    fn look_in(&self, berth: &mut Berth<P, B>, other: u32, kind: Kind) -> Edge
        requires here { Belongs self.now berth.old }
        requires own { IsOwn berth.old.kept other kind sides.Inward }
        ensures here { Belongs self.now berth.new }
        ensures moved { Moved 1 (look_row other kind sides.Inward result) berth.old berth.new }
        ensures found { result ≡ read berth.new.found }
        ensures possible { MayFind berth.old.kept other kind sides.Inward result }
    {
        let place = berth.state.place;
        let edge = self.number(other, place, kind);
        let word = look_in_as::<Brand, P, B>(
            &self.table.shared,
            &mut berth.seat,
            edge,
            other,
            place,
            kind,
        );
        edge_of_word(word)
    }

    fn look_out(&self, berth: &mut Berth<P, B>, other: u32, kind: Kind) -> Edge
        requires here { Belongs self.now berth.old }
        requires own { IsOwn berth.old.kept other kind sides.Outward }
        ensures here { Belongs self.now berth.new }
        ensures moved { Moved 1 (look_row other kind sides.Outward result) berth.old berth.new }
        ensures found { result ≡ read berth.new.found }
        ensures possible { MayFind berth.old.kept other kind sides.Outward result }
    {
        let place = berth.state.place;
        let edge = self.number(place, other, kind);
        let word = look_out_as::<Brand, P, B>(
            &self.table.shared,
            &mut berth.seat,
            edge,
            place,
            other,
            kind,
        );
        edge_of_word(word)
    }

    /// The edge as its word reads.
    pub fn look(&self, berth: &mut Berth<P, B>, other: u32, kind: Kind, side: Side) -> Edge
        requires here { Belongs self.now berth.old }
        requires own { IsOwn berth.old.kept other kind side }
        ensures here { Belongs self.now berth.new }
        ensures moved { Moved 1 (look_row other kind side result) berth.old berth.new }
        ensures found { result ≡ read berth.new.found }
        ensures possible { MayFind berth.old.kept other kind side result }
    {
        match side {
            Side::Inward => self.look_in(berth, other, kind),
            Side::Outward => self.look_out(berth, other, kind),
        }
    }

    fn shrug_steal(&self, berth: &mut Berth<P, B>, victim: u32)
        requires here { IsOf self.now berth.old }
        requires may { May berth.old.kept (event.Shrug berth.old.kept.place victim kinds.Steal) }
        ensures here { IsOf self.now berth.new }
        ensures moved { Moved 1 (shrug_row victim kinds.Steal) berth.old berth.new }
        ensures found { berth.new.found ≡ 2 }
    {
        let place = berth.state.place;
        let edge = self.number(place, victim, Kind::Steal);
        give_up_as::<Brand, P, B>(
            &self.table.shared,
            &mut berth.seat,
            edge,
            place,
            victim,
            Kind::Steal,
        );
        states::rest_unless(&mut berth.state, false);
        count_shrug(&mut berth.counters, Kind::Steal);
    }

    fn shrug_line(&self, berth: &mut Berth<P, B>, victim: u32) -> bool
        requires here { IsOf self.now berth.old }
        requires may { May berth.old.kept (event.Shrug berth.old.kept.place victim kinds.Line) }
        ensures here { IsOf self.now berth.new }
        ensures shrugged { result ≡ true → Moved 1 (shrug_row victim kinds.Line) berth.old berth.new
            × (read berth.new.found ≡ seen.Refused) }
        ensures loot { result ≡ false → Moved 1 (λ r. known_row (name_of kinds.Line r.place victim)
            seen.Loot r) berth.old berth.new × (berth.new.found ≡ 5) }
    {
        let place = berth.state.place;
        let edge = self.number(place, victim, Kind::Line);
        let word = shrug_as::<Brand, P, B>(
            &self.table.shared,
            &mut berth.seat,
            edge,
            place,
            victim,
            Kind::Line,
        );
        states::rest_unless(&mut berth.state, word == 5);
        word != 5
    }

    /// The thief takes note of a refusal. True where the word read Refused; of a line it is false
    /// where a part waits there already.
    pub fn shrug(&self, berth: &mut Berth<P, B>, victim: u32, kind: Kind) -> bool
        requires here { IsOf self.now berth.old }
        requires may { May berth.old.kept (event.Shrug berth.old.kept.place victim kind) }
        ensures here { IsOf self.now berth.new }
        ensures shrugged { result ≡ true → Moved 1 (shrug_row victim kind) berth.old berth.new
            × (read berth.new.found ≡ seen.Refused) }
        ensures loot { result ≡ false → (kind ≡ kinds.Line)
            × Moved 1 (λ r. known_row (name_of kind r.place victim) seen.Loot r) berth.old berth.new
            × (berth.new.found ≡ 5) }
    {
        match kind {
            Kind::Steal => {
                self.shrug_steal(berth, victim);
                true
            }
            Kind::Line => self.shrug_line(berth, victim),
        }
    }
}

/// A word of an edge, read.
fn edge_of_word(word: u64) -> Edge
    ensures { result ≡ read word }
{
    match word {
        1 | 3 => Edge::Asked,
        2 | 4 => Edge::Refused,
        5 => Edge::Loot,
        _ => Edge::Idle,
    }
}
