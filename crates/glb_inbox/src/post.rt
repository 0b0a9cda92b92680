//! The post of a run: its inboxes and its three words, and the end of the run.
ghost use Rattle.std.specs.Prelude.{◌≡◌, ◌<◌, ℕ, [], ◌∷◌, List, length, get_or, map, IfOk, All};
ghost use Rattle.std.specs.Arc.{arc_value};
ghost use Rattle.glb_core.specs.Counters.{all_awake, all_degrees};
ghost use Rattle.glb_rules.specs.Setups.{IsWithinLimits};
ghost use Rattle.glb_place.specs.Close.{Closes};
ghost use Rattle.glb_place.specs.Records.{IsFirst};
ghost use Rattle.glb_inbox.specs.declared.view.Seated.{Seated};
ghost use Rattle.glb_inbox.specs.Posts.{AreDesksOf, AreFirstDesks, AreNumbered, DeskView, roots_at};
ghost use Rattle.glb_inbox.specs.Posts.{setup_at};
ghost use Rattle.glb_inbox.specs.Viewing.{bag_lists};
ghost use Rattle.glb_inbox.specs.inner.Begins.{bags_of, first_seat, first_members};
ghost use Rattle.glb_inbox.specs.inner.Begins.{job_of};
ghost use Rattle.glb_inbox.specs.Viewing.{kept_of};
ghost use Rattle.glb_inbox.specs.inner.Books.{AreWays};
ghost use Rattle.glb_inbox.specs.inner.Close.{as_places, kept_of as place_kept};
ghost use Rattle.glb_inbox.specs.Viewing.{desk_view};
ghost use Rattle.glb_inbox.specs.inner.Desks.{IsBegun, IsDesk};
ghost use Rattle.glb_inbox.specs.inner.Views.{one};

use super::books::Books;
use super::close::{Closed, gather, read_all};
use super::desk::Desk;
use super::first::{first_lanes, is_awake, open_inboxes, way_to, ways_to_all};
use super::office::{deal, open_table};
use super::rule::{Slip, WordTable, Words};
use super::way::Way;
use glb_core::Params;
use glb_cube::Lines;
use glb_laws::{Bag, NoMemory, Program};
use glb_stats::Counters;
use std::alloc::Global;
use std::marker::Model;
use std::sync::{Arc, Wait};

/// The inboxes and words of all places.
#[derive(Drop)]
pub struct Post<P: Program, B: Bag<P>> {
    words: Arc<WordTable<P, B, P::Item>>,
}

impl<P: Program, B: Bag<P>> Model for Post<P, B> {
    ghost use Rattle.std.specs.Arc.{arc_value};
    ghost use Rattle.glb_inbox.specs.Posts.{PostView};
    ghost use Rattle.glb_inbox.specs.Viewing.{post_view};
    ghost use Rattle.glb_inbox.specs.inner.Desks.{IsPost};

    ghost Value = { PostView P P.Item };

    ghost view = { λ p. post_view B.items (arc_value p.words).shared.table_id
        (arc_value p.words).shared.key };

    ghost invariant = { λ p. IsPost (arc_value p.words).shared.table_id
        (arc_value p.words).shared.key };
}

/// What a desk has at the start: what is kept of its place, the way to its own inbox, and a way to
/// each.
fn first_parts<P: Program, B: Bag<P>>(
    alloc: Global,
    words: &Words<P, B, P::Item>,
    inboxes: &mut Vec<Way<P, B>>,
    lines: &Lines,
    bags: &[B],
    seat: Slip<P::Item>,
    place: u32,
) -> Result<(Books<B, P::Item>, Way<P, B>, Vec<Way<P, B>>), NoMemory>
    requires words { 2 < words.now.table_id.words }
    requires lines { words.now.key.lines.value ≡ lines.now }
    requires bags { map B.items bags.now ≡ bag_lists B.items words.now.key.bags.items }
    requires many { length bags.now ≡ lines.now.places }
    requires limits { IsWithinLimits words.now.key.params }
    requires places { words.now.key.lines.value.places ≡ words.now.key.params.places }
    requires near { place < lines.now.places }
    requires inboxes { AreWays words.now.table_id words.now.key.program.value
        words.now.key.lines.value.places inboxes.old.items }
    requires seat { (seat.table_id ≡ words.now.table_id)
        × (seat.me ≡ (
          one (first_seat (job_of P.children B.items words.now.key)
              (bags_of P.children B.items words.now.key) place),
          [],
        )) }
    ensures inboxes { AreWays words.now.table_id words.now.key.program.value
        words.now.key.lines.value.places inboxes.new.items }
    ensures desk { IfOk result
        (λ r. IsDesk B.items B.fits words.now.table_id words.now.key.program.value
        words.now.key.lines.value words.now.key.params r.0 r.1 r.2.items) }
    ensures place { IfOk result (λ r. r.0.place ≡ place) }
    ensures kept { IfOk result (λ r. IsFirst words.now.key.lines.value words.now.key.params place
        (bags_of P.children B.items words.now.key place) (kept_of r.0)) }
{
    let ways = ways_to_all::<P, B>(alloc, words, inboxes)?;
    let own = way_to::<P, B>(words, inboxes, place as usize)?;
    let lanes = first_lanes::<P, B>(alloc, lines, bags, place)?;
    let _places = lines.places();
    let is_asleep = !is_awake::<P, B>(bags, place as usize);
    let books = Books {
        seat,
        place,
        lanes,
        counters: Counters::ZERO,
        is_asleep,
        live_looks: 0,
        stop_looks: 0,
    };
    Ok((books, own, ways))
}

fn desk_of<P: Program, B: Bag<P>>(
    words: &Arc<WordTable<P, B, P::Item>>,
    books: Books<B, P::Item>,
    own: Way<P, B>,
    ways: Vec<Way<P, B>>,
) -> Result<Desk<P, B>, NoMemory>
    requires desk { IsDesk B.items B.fits (arc_value words.now).shared.table_id
        (arc_value words.now).shared.key.program.value (arc_value words.now).shared.key.lines.value
        (arc_value words.now).shared.key.params books own ways.items }
    ensures { IfOk result (λ d. d ≡ desk_view (arc_value words.now).shared.table_id
        (arc_value words.now).shared.key.program.value (length ways.items) books) }
{
    match Arc::try_clone(words) {
        Ok(words) => Ok(Desk {
            words,
            books,
            own,
            ways,
        }),
        Err(_refused) => Err(NoMemory),
    }
}

/// The desk of one place at the start.
fn first_desk<P: Program, B: Bag<P>>(
    alloc: Global,
    words: &Arc<WordTable<P, B, P::Item>>,
    inboxes: &mut Vec<Way<P, B>>,
    lines: &Lines,
    bags: &[B],
    seat: Slip<P::Item>,
    place: u32,
) -> Result<Desk<P, B>, NoMemory>
    requires words { 2 < (arc_value words.now).shared.table_id.words }
    requires lines { (arc_value words.now).shared.key.lines.value ≡ lines.now }
    requires bags { map B.items bags.now ≡ bag_lists B.items
        (arc_value words.now).shared.key.bags.items }
    requires many { length bags.now ≡ lines.now.places }
    requires limits { IsWithinLimits (arc_value words.now).shared.key.params }
    requires places { (arc_value words.now).shared.key.lines.value.places
        ≡ (arc_value words.now).shared.key.params.places }
    requires near { place < lines.now.places }
    requires inboxes { AreWays (arc_value words.now).shared.table_id
        (arc_value words.now).shared.key.program.value
        (arc_value words.now).shared.key.lines.value.places inboxes.old.items }
    requires seat { (seat.table_id ≡ (arc_value words.now).shared.table_id)
        × (seat.me ≡ (
          one (first_seat (job_of P.children B.items (arc_value words.now).shared.key)
              (bags_of P.children B.items (arc_value words.now).shared.key) place),
          [],
        )) }
    ensures inboxes { AreWays (arc_value words.now).shared.table_id
        (arc_value words.now).shared.key.program.value
        (arc_value words.now).shared.key.lines.value.places inboxes.new.items }
    ensures begun { IfOk result (IsBegun P.children B.items (arc_value words.now).shared.table_id
        (arc_value words.now).shared.key place) }
{
    let table: &WordTable<P, B, P::Item> = words;
    let (books, own, ways) = first_parts::<P, B>(
        alloc,
        &table.shared,
        inboxes,
        lines,
        bags,
        seat,
        place,
    )?;
    desk_of::<P, B>(words, books, own, ways)
}

/// The desks of all places at the start.
fn first_desks<P: Program, B: Bag<P>>(
    alloc: Global,
    words: &Arc<WordTable<P, B, P::Item>>,
    mut dealer: Slip<P::Item>,
    mut inboxes: Vec<Way<P, B>>,
    lines: &Lines,
    bags: &[B],
) -> Result<Vec<Desk<P, B>>, NoMemory>
    requires words { 2 < (arc_value words.now).shared.table_id.words }
    requires lines { (arc_value words.now).shared.key.lines.value ≡ lines.now }
    requires bags { map B.items bags.now ≡ bag_lists B.items
        (arc_value words.now).shared.key.bags.items }
    requires many { length bags.now ≡ lines.now.places }
    requires limits { IsWithinLimits (arc_value words.now).shared.key.params }
    requires places { (arc_value words.now).shared.key.lines.value.places
        ≡ (arc_value words.now).shared.key.params.places }
    requires inboxes { AreWays (arc_value words.now).shared.table_id
        (arc_value words.now).shared.key.program.value
        (arc_value words.now).shared.key.lines.value.places inboxes.items }
    requires dealer { (dealer.table_id ≡ (arc_value words.now).shared.table_id)
        × (dealer.me ≡ (first_members P.children B.items (arc_value words.now).shared.key, [])) }
    ensures many { IfOk result (λ v. length v.items ≡ lines.now.places) }
    ensures begun { IfOk result (λ v. (p : ℕ) (d : DeskView P P.Item) → p < length v.items
        → IsBegun P.children B.items (arc_value words.now).shared.table_id
        (arc_value words.now).shared.key p (get_or v.items p d)) }
{
    let table: &WordTable<P, B, P::Item> = words;
    let mut desks = Vec::with_capacity(alloc, bags.len())?;
    for place in 0..lines.places() {
        let seat = deal(&table.shared, &mut dealer);
        let desk = first_desk::<P, B>(alloc, words, &mut inboxes, lines, bags, seat, place)?;
        desks.push(desk)?;
    }
    Ok(desks)
}

/// The seat of a desk, which is done with.
fn seat_of<P: Program, B: Bag<P>>(desk: Desk<P, B>) -> Slip<P::Item>
    ensures table { result.table_id ≡ desk.home.table.table_id }
    ensures one { (x : Seated P.Item) × (result.me ≡ (one x, [])) × (x.kept ≡ desk.kept) }
    ensures number { desk.kept.place ≡ desk.home.place }
{
    let Desk {
        words: _words,
        books,
        own: _own,
        ways: _ways,
    } = desk;
    let Books {
        seat,
        place: _,
        lanes: _lanes,
        counters: _,
        is_asleep: _,
        live_looks: _,
        stop_looks: _,
    } = books;
    seat
}

/// One seat for all places of these desks.
fn gather_all<P: Program, B: Bag<P>>(
    words: &Words<P, B, P::Item>,
    mut desks: Vec<Desk<P, B>>,
) -> Slip<P::Item>
    requires words { 2 < words.now.table_id.words }
    requires some { 0 < length desks.items }
    requires table { All (λ d. d.home.table.table_id ≡ words.now.table_id) desks.items }
    ensures table { result.table_id ≡ words.now.table_id }
    ensures places { (xs : List (Seated P.Item)) × (result.me.0 ≡ as_places xs)
        × (map place_kept xs ≡ map (λ d. d.kept) desks.items) }
    ensures numbers { All (λ d. d.kept.place ≡ d.home.place) desks.items }
{
    let last = desks.pop().unwrap();
    let mut all = seat_of(last);
    while let Some(desk) = desks.pop() {
        let mut seat = seat_of(desk);
        gather(words, &mut seat, all);
        all = seat;
    }
    all
}

impl<P: Program, B: Bag<P>> Post<P, B> {
    /// The post of a run that begins with these bags, one a place, and a desk for each place, by
    /// number.
    pub fn new(
        alloc: Global,
        program: &P,
        params: &Params,
        lines: &Lines,
        bags: &[B],
    ) -> Result<(Post<P, B>, Vec<Desk<P, B>>), NoMemory>
        requires limits { IsWithinLimits params.now }
        requires places { lines.now.places ≡ params.now.places }
        requires bags { length bags.now ≡ params.now.places }
        ensures program { IfOk result (λ r. r.0.program ≡ program.now) }
        ensures params { IfOk result (λ r. r.0.params ≡ params.now) }
        ensures lines { IfOk result (λ r. r.0.lines ≡ lines.now) }
        ensures bags { IfOk result (λ r. r.0.bags ≡ map B.items bags.now) }
        ensures desks { IfOk result (λ r. AreFirstDesks r.0 r.1.items) }
    {
        let _places = lines.places();
        let (table, dealer) = open_table::<P, B>(alloc, program, *params, lines, bags)?;
        let inboxes = open_inboxes::<P, B>(alloc, program, &dealer, bags.len())?;
        let words = Arc::new(alloc, table)?;
        let desks = first_desks::<P, B>(alloc, &words, dealer, inboxes, lines, bags)?;
        Ok((Post { words }, desks))
    }

    /// The three words, once all places are done.
    pub fn close(self, _rt: &impl Wait, desks: Vec<Desk<P, B>>) -> Closed
        requires desks { AreDesksOf self desks.items }
        ensures closes { Closes (P.children self.program) (all_degrees (setup_at self))
            (all_awake (setup_at self)) self.params.limit (roots_at self)
            (map (λ d. d.kept) desks.items) result.live result.items result.stop }
        ensures records { AreNumbered self.lines self.params (map (λ d. d.kept) desks.items) }
    {
        let table: &WordTable<P, B, P::Item> = &self.words;
        let mut all = gather_all::<P, B>(&table.shared, desks);
        read_all::<P, B>(&table.shared, &mut all)
    }
}
