//! A place's handle.
ghost use Rattle.std.specs.Prelude.{◌≡◌, ◌≢◌, ◌+◌, ◌≤◌, ◌==◌, true, false};
ghost use Rattle.glb_laws.specs.Expansion.{Expands};
ghost use Rattle.glb_core.specs.Counters.{counters_of};
ghost use Rattle.glb_rules.specs.declared.event.Event.TheVariants as event;
ghost use Rattle.glb_rules.specs.declared.kinds.Phase.TheVariants as phases;
ghost use Rattle.glb_place.specs.Records.{May};
ghost use Rattle.glb_place.specs.Calls.{IsOwn, MayFind, Settles, edge_with, look_row};
ghost use Rattle.glb_place.specs.Looks.{LooksAt, LooksAtLive, LooksAtStop, SameLooks};
ghost use Rattle.glb_place.specs.Rows.{halted_row, over_row, sleep_row};
ghost use Rattle.glb_inbox.specs.Posts.{AnswersLook, FindsWord, SameDesk, looks_of};

use super::books::Books;
use super::home::DeskHome;
use super::rule::{WordTable, Words};
use super::way::Way;
use super::{looking, moves, trades};
use glb_core::{Edge, Kind, Side};
use glb_laws::{Bag, NoMemory, Program};
use glb_place::Fabric;
use glb_stats::Counters;
use std::marker::Model;
use std::sync::{Arc, Wait};

/// The handle of one place: the words of all, what is kept of the place, the way to its own inbox,
/// and a way to each.
#[derive(Drop)]
pub struct Desk<P: Program, B: Bag<P>> {
    pub(crate) words: Arc<WordTable<P, B, P::Item>>,
    pub(crate) books: Books<B, P::Item>,
    pub(crate) own: Way<P, B>,
    pub(crate) ways: Vec<Way<P, B>>,
}

impl<P: Program, B: Bag<P>> Model for Desk<P, B> {
    ghost use Rattle.std.specs.Prelude.{length};
    ghost use Rattle.std.specs.Arc.{arc_value};
    ghost use Rattle.glb_inbox.specs.Posts.{DeskView};
    ghost use Rattle.glb_inbox.specs.Viewing.{desk_view};
    ghost use Rattle.glb_inbox.specs.inner.Desks.{IsDesk};

    ghost Value = { DeskView P P.Item };

    ghost view = { λ d. desk_view (arc_value d.words).shared.table_id
        (arc_value d.words).shared.key.program.value (length d.ways.items) d.books };

    ghost invariant = { λ d. IsDesk B.items B.fits (arc_value d.words).shared.table_id
        (arc_value d.words).shared.key.program.value (arc_value d.words).shared.key.lines.value
        (arc_value d.words).shared.key.params d.books d.own d.ways.items };
}

impl<P: Program, B: Bag<P>> Desk<P, B> {
    /// What the place counted.
    pub fn counters(&self) -> Counters
        ensures { result ≡ counters_of self.now.kept.local.count }
    {
        self.books.counters
    }
}

impl<P: Program, B: Bag<P>> Fabric<P, B> for Desk<P, B> {
    type Home = DeskHome;

    ghost program = { λ d. d.program };

    ghost kept = { λ d. d.kept };

    ghost home = { λ d. d.home };

    ghost refuses = { λ _. true };

    ghost looks = { looks_of };

    /// Counts `done` items. The total of all places is what the step found, and these.
    fn settle(&mut self, _rt: &impl Wait, bag: &B, done: u64, gain: &P::Value) -> u64
        requires may { May self.old.kept (event.Batch self.old.kept.place) }
        requires batch { (1 ≤ done) × (done ≤ self.old.kept.params.batch) }
        requires last { self.old.kept.last ≤ self.old.kept.params.limit }
        requires moves { Expands (P.children self.old.program) (P.value self.old.program)
            P.Value.combine self.old.kept.local.bag P.Value.unit done (B.items bag.now) gain.now }
        ensures kept { Settles (P.children self.old.program) (P.value self.old.program)
            P.Value.unit P.Value.combine done (B.items bag.now) gain.now result self.old.kept
            self.new.kept }
        ensures same { SameDesk self.old self.new }
        ensures looks { SameLooks (looks_of self.old) (looks_of self.new) }
        ensures finds { FindsWord self.new.found self.old self.new }
        ensures total { result ≡ self.new.found + done }
    {
        let table: &WordTable<P, B, P::Item> = &self.words;
        moves::settle(&table.shared, &mut self.books, bag, done, gain)
    }

    fn ask(&mut self, rt: &impl Wait, victim: u32, kind: Kind) -> Result<(), NoMemory> {
        let table: &WordTable<P, B, P::Item> = &self.words;
        let places = self.ways.len();
        let way = &mut self.ways[victim as usize];
        trades::ask(
            rt,
            &table.shared,
            &mut self.books,
            way,
            places,
            victim,
            kind,
        )
    }

    /// Takes at most one message out of the place's inbox, and keeps it beside its edge. The edge
    /// asked for is then known by the message that is kept for it.
    fn look(&mut self, rt: &impl Wait, other: u32, kind: Kind, side: Side) -> Edge
        requires own { IsOwn self.old.kept other kind side }
        ensures kept { self.new.kept ≡ look_row other kind side result self.old.kept }
        ensures found { MayFind self.old.kept other kind side result }
        ensures same { SameDesk self.old self.new }
        ensures looks { LooksAt (edge_with self.old.kept.place other kind side)
            (looks_of self.old) (looks_of self.new) }
        ensures answers { AnswersLook other kind side result self.old self.new }
    {
        let table: &WordTable<P, B, P::Item> = &self.words;
        let places = self.ways.len();
        looking::look(
            rt,
            &table.shared,
            &mut self.books,
            &mut self.own,
            places,
            other,
            kind,
            side,
        )
    }

    fn deny(&mut self, rt: &impl Wait, thief: u32, kind: Kind) -> Result<(), NoMemory> {
        let table: &WordTable<P, B, P::Item> = &self.words;
        let places = self.ways.len();
        let way = &mut self.ways[thief as usize];
        trades::deny(rt, &table.shared, &mut self.books, way, places, thief, kind)
    }

    fn mint(&mut self, _rt: &impl Wait) {
        let table: &WordTable<P, B, P::Item> = &self.words;
        moves::mint(&table.shared, &mut self.books);
    }

    fn give(
        &mut self,
        rt: &impl Wait,
        thief: u32,
        kind: Kind,
        part: B,
    ) -> Result<(), (NoMemory, B)> {
        let table: &WordTable<P, B, P::Item> = &self.words;
        let places = self.ways.len();
        let way = &mut self.ways[thief as usize];
        trades::give(
            rt,
            &table.shared,
            &mut self.books,
            way,
            places,
            thief,
            kind,
            part,
        )
    }

    fn take(&mut self, _rt: &impl Wait, victim: u32, kind: Kind) -> B {
        let table: &WordTable<P, B, P::Item> = &self.words;
        let places = self.ways.len();
        trades::take(&table.shared, &mut self.books, places, victim, kind)
    }

    fn burn(&mut self, _rt: &impl Wait) {
        let table: &WordTable<P, B, P::Item> = &self.words;
        moves::burn(&table.shared, &mut self.books);
    }

    fn shrug(&mut self, _rt: &impl Wait, victim: u32, kind: Kind) -> bool {
        let table: &WordTable<P, B, P::Item> = &self.words;
        let places = self.ways.len();
        trades::shrug(&table.shared, &mut self.books, places, victim, kind);
        true
    }

    /// True exactly where live was 1 before the step.
    fn sleep(&mut self, _rt: &impl Wait) -> bool
        requires may { May self.old.kept (event.Sleep self.old.kept.place) }
        ensures kept { self.new.kept ≡ sleep_row self.old.kept }
        ensures same { SameDesk self.old self.new }
        ensures looks { SameLooks (looks_of self.old) (looks_of self.new) }
        ensures finds { FindsWord self.new.found self.old self.new }
        ensures last { result ≡ (self.new.found == 1) }
    {
        let table: &WordTable<P, B, P::Item> = &self.words;
        moves::sleep(&table.shared, &mut self.books) == 1
    }

    /// True exactly where live reads 0. The place then leaves.
    fn over(&mut self, _rt: &impl Wait) -> bool
        requires here { self.old.kept.local.phase ≢ phases.Gone }
        ensures over { result ≡ true → self.new.kept ≡ over_row self.old.kept }
        ensures going { result ≡ false → self.new.kept ≡ self.old.kept }
        ensures same { SameDesk self.old self.new }
        ensures looks { LooksAtLive (looks_of self.old) (looks_of self.new) }
        ensures finds { FindsWord self.new.found self.old self.new }
        ensures none { result ≡ (self.new.found == 0) }
    {
        let table: &WordTable<P, B, P::Item> = &self.words;
        moves::over(&table.shared, &mut self.books) == 0
    }

    fn halt(&mut self, _rt: &impl Wait, code: u64) {
        let table: &WordTable<P, B, P::Item> = &self.words;
        moves::halt(&table.shared, &mut self.books, code);
    }

    /// The code that stop reads. Where it is not 0, the place leaves.
    fn halted(&mut self, _rt: &impl Wait) -> u64
        requires here { self.old.kept.local.phase ≢ phases.Gone }
        ensures kept { self.new.kept ≡ halted_row result self.old.kept }
        ensures least { self.old.kept.code ≤ result }
        ensures same { SameDesk self.old self.new }
        ensures looks { LooksAtStop (looks_of self.old) (looks_of self.new) }
        ensures finds { FindsWord result self.old self.new }
    {
        let table: &WordTable<P, B, P::Item> = &self.words;
        moves::halted(&table.shared, &mut self.books)
    }
}
