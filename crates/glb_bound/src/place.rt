//! A place of a search on threads: it claims items of the frontier and walks their trees.
ghost use Rattle.std.specs.Prelude.{◌≡◌, ℕ, true, false, ◌+◌, ◌^◌, ◌<◌, ◌≤◌, [], ◌∷◌, ◌++◌};
ghost use Rattle.std.specs.Prelude.{List, length, max, OnOk, IfOk};
ghost use Rattle.glb_bound.specs.Best.{worth_of};
ghost use Rattle.glb_bound.specs.inner.Walks.{TakesBest};
ghost use Rattle.glb_bound.specs.inner.Places.{Passes, SameButBest, Settles, SameClaims, IsWalking};
ghost use Rattle.glb_bound.specs.inner.Places.{HasPlayed};
ghost use Rattle.glb_bound.specs.inner.Views.{fresh};

use super::rule::{Slip, Words};
use super::search::{Best, Search};
use super::steps::{claim, count, halt, halted, raise, read};
use glb_laws::{MOST_ITEMS, NoMemory};
use std::alloc::Global;

/// So many items are visited between two counts.
const CHUNK: u64 = 64;

/// What a place works on, on the stack of its thread, so that no two places write side by side: the
/// items that wait in its walk, the best that it has raised, and how many items it has counted.
#[derive(Drop)]
struct Work<I> {
    waiting: Vec<I>,
    best: Best<I>,
    visited: u64,
}

/// A place: its seat, the best that it has raised, how many items it has counted, and whether it
/// found no memory.
#[derive(Drop)]
pub(crate) struct Place<I> {
    pub seat: Slip,
    pub best: Best<I>,
    pub visited: u64,
    pub is_refused: bool,
}

/// Visits an item: reads the best and raises it by the item, and appends the children to those
/// waiting, unless no item below can be better.
fn visit_shared<S: Search>(
    words: &Words,
    search: &S,
    item: S::Item,
    seat: &mut Slip,
    waiting: &mut Vec<S::Item>,
    best: &mut Best<S::Item>,
) -> Result<(), NoMemory>
where
    S::Item: Copy,
    requires table { (seat.old.table_id ≡ words.now.table_id) × (3 < words.now.table_id.words) }
    requires one { seat.old.me.0.places ≡ 1 }
    ensures table { seat.new.table_id ≡ seat.old.table_id }
    ensures slots { seat.new.me.1 ≡ seat.old.me.1 }
    ensures view { SameButBest seat.old.me.0 seat.new.me.0 }
    ensures passes { OnOk result (Passes (S.children search.now) (worth_of (S.value search.now))
        (S.cap_of search.now) item waiting.old.items waiting.new.items seat.old.me.0.seen
        seat.new.me.0.seen) }
    ensures item { OnOk result (TakesBest (worth_of (S.value search.now)) item
        best.old.item best.old.worth best.new.item best.new.worth) }
    ensures raised { OnOk result
        (seat.new.me.0.raised ≤ max seat.old.me.0.raised best.new.worth) }
    ensures least { OnOk result (best.old.worth ≤ best.new.worth) }
{
    let known = read(words, seat);
    let cap = search.cap(&item);
    if cap <= known {
        return Ok(());
    }
    let before = waiting.len();
    let worth = search.expand(&item, waiting)?.0;
    let raised = if worth > known {
        raise(words, seat, worth).max(worth)
    } else {
        known
    };
    if worth > best.worth {
        *best = Best { worth, item };
    }
    if cap <= raised {
        waiting.truncate(before);
    }
    Ok(())
}

/// Counts the items visited. Whether the place may go on.
fn settle(words: &Words, seat: &mut Slip, visited: &mut u64, more: u64, limit: u64) -> bool
    requires table { (seat.old.table_id ≡ words.now.table_id) × (3 < words.now.table_id.words) }
    requires one { seat.old.me.0.places ≡ 1 }
    requires limit { words.now.key.limit ≡ limit }
    requires visited { visited.old ≡ seat.old.me.0.counted }
    requires few { seat.old.me.0.counted + more ≤ 2 ^ 41 }
    ensures table { seat.new.table_id ≡ seat.old.table_id }
    ensures slots { seat.new.me.1 ≡ seat.old.me.1 }
    ensures settled { Settles more seat.old.me.0 seat.new.me.0 }
    ensures visited { visited.new ≡ seat.new.me.0.counted }
    ensures on { result ≡ true → seat.new.me.0.counted ≤ limit }
    ensures off { result ≡ false → 1 ≤ seat.new.me.0.halted }
{
    *visited += more;
    if count(words, seat, more) > limit {
        halt(words, seat, 1);
        return false;
    }
    halted(words, seat) == 0
}

/// Walks on until nothing waits or the run is stopped. Whether the place may go on.
fn walk<S: Search>(
    words: &Words,
    search: &S,
    seat: &mut Slip,
    waiting: &mut Vec<S::Item>,
    best: &mut Best<S::Item>,
    visited: &mut u64,
    limit: u64,
) -> Result<bool, NoMemory>
where
    S::Item: Copy,
    requires table { (seat.old.table_id ≡ words.now.table_id) × (3 < words.now.table_id.words) }
    requires one { seat.old.me.0.places ≡ 1 }
    requires limit { (words.now.key.limit ≡ limit) × (limit ≤ MOST_ITEMS) }
    requires visited { (visited.old ≡ seat.old.me.0.counted) × (visited.old ≤ limit) }
    ensures table { seat.new.table_id ≡ seat.old.table_id }
    ensures slots { seat.new.me.1 ≡ seat.old.me.1 }
    ensures same { SameClaims seat.old.me.0 seat.new.me.0 }
    ensures visited { OnOk result ((visited.new ≡ seat.new.me.0.counted)
        × (visited.new ≤ limit + 64)) }
    ensures on { IfOk result (λ on. on ≡ true → (waiting.new.items ≡ [])
        × (visited.new ≤ limit)) }
    ensures off { IfOk result (λ on. on ≡ false → 1 ≤ seat.new.me.0.halted) }
    ensures kept { OnOk result ((root : S.Item) (roots : List S.Item)
        → IsWalking (S.children search.now) (worth_of (S.value search.now)) (S.cap_of search.now)
        root roots seat.old.me.0.counted waiting.old.items best.old seat.old.me.0
        → IsWalking (S.children search.now) (worth_of (S.value search.now)) (S.cap_of search.now)
        root roots seat.new.me.0.counted waiting.new.items best.new seat.new.me.0) }
{
    let mut more = 0;
    while let Some(item) = waiting.pop() {
        visit_shared(words, search, item, seat, waiting, best)?;
        more += 1;
        if more == CHUNK {
            if !settle(words, seat, visited, more, limit) {
                return Ok(false);
            }
            more = 0;
        }
    }
    Ok(settle(words, seat, visited, more, limit))
}

impl<I: Copy + Drop> Work<I> {
    /// Walks the tree of an item of the frontier. Whether the place may go on.
    fn walk_tree<S: Search<Item = I>>(
        &mut self,
        words: &Words,
        search: &S,
        root: I,
        seat: &mut Slip,
        limit: u64,
    ) -> Result<bool, NoMemory>
        requires table { (seat.old.table_id ≡ words.now.table_id)
            × (3 < words.now.table_id.words) }
        requires one { seat.old.me.0.places ≡ 1 }
        requires limit { (words.now.key.limit ≡ limit) × (limit ≤ MOST_ITEMS) }
        requires visited { (self.old.visited ≡ seat.old.me.0.counted)
            × (self.old.visited ≤ limit) }
        ensures table { seat.new.table_id ≡ seat.old.table_id }
        ensures slots { seat.new.me.1 ≡ seat.old.me.1 }
        ensures same { SameClaims seat.old.me.0 seat.new.me.0 }
        ensures visited { OnOk result ((self.new.visited ≡ seat.new.me.0.counted)
            × (self.new.visited ≤ limit + 64)) }
        ensures on { IfOk result (λ on. on ≡ true → (self.new.waiting.items ≡ [])
            × (self.new.visited ≤ limit)) }
        ensures off { IfOk result (λ on. on ≡ false → 1 ≤ seat.new.me.0.halted) }
        ensures kept { OnOk result ((top : I) (roots : List I)
            → IsWalking (S.children search.now) (worth_of (S.value search.now))
            (S.cap_of search.now) top roots seat.old.me.0.counted
            (self.old.waiting.items ++ root ∷ []) self.old.best seat.old.me.0
            → IsWalking (S.children search.now) (worth_of (S.value search.now))
            (S.cap_of search.now) top roots seat.new.me.0.counted self.new.waiting.items
            self.new.best seat.new.me.0) }
    {
        self.waiting.push(root)?;
        walk(
            words,
            search,
            seat,
            &mut self.waiting,
            &mut self.best,
            &mut self.visited,
            limit,
        )
    }

    /// Claims items of the frontier and walks their trees, until none is left or the run is
    /// stopped.
    fn walk_all<S: Search<Item = I>>(
        &mut self,
        words: &Words,
        search: &S,
        frontier: &[I],
        seat: &mut Slip,
        limit: u64,
    ) -> Result<(), NoMemory>
        requires table { (seat.old.table_id ≡ words.now.table_id)
            × (3 < words.now.table_id.words) }
        requires limit { (words.now.key.limit ≡ limit) × (limit ≤ MOST_ITEMS) }
        requires fresh { seat.old.me ≡ (fresh 1 (length frontier.now), []) }
        requires empty { (self.old.waiting.items ≡ []) × (self.old.visited ≡ 0) }
        ensures table { seat.new.table_id ≡ seat.old.table_id }
        ensures slots { seat.new.me.1 ≡ [] }
        ensures one { seat.new.me.0.places ≡ 1 }
        ensures played { OnOk result (HasPlayed (S.children search.now)
            (worth_of (S.value search.now)) (S.cap_of search.now) frontier.now self.old.best 1
            self.new.visited self.new.waiting.items self.new.best seat.new.me.0) }
    {
        loop {
            let number = claim(words, seat) as usize;
            if number >= frontier.len() {
                return Ok(());
            }
            if !self.walk_tree(words, search, frontier[number], seat, limit)? {
                return Ok(());
            }
        }
    }
}

impl<I: Copy + Drop> Place<I> {
    /// Takes part in a run to its end.
    pub(crate) fn play<S: Search<Item = I>>(
        &mut self,
        alloc: Global,
        words: &Words,
        search: &S,
        frontier: &[I],
        limit: u64,
    )
        requires table { (self.old.seat.table_id ≡ words.now.table_id)
            × (3 < words.now.table_id.words) }
        requires limit { (words.now.key.limit ≡ limit) × (limit ≤ MOST_ITEMS) }
        requires fresh { self.old.seat.me ≡ (fresh 1 (length frontier.now), []) }
        requires found_memory { self.old.is_refused ≡ false }
        ensures table { self.new.seat.table_id ≡ self.old.seat.table_id }
        ensures slots { self.new.seat.me.1 ≡ [] }
        ensures played { self.new.is_refused ≡ false → (waiting : List I)
            × HasPlayed (S.children search.now) (worth_of (S.value search.now))
            (S.cap_of search.now) frontier.now self.old.best 1 self.new.visited waiting
            self.new.best self.new.seat.me.0 }
    {
        let mut work = Work {
            waiting: Vec::new(alloc),
            best: self.best,
            visited: 0,
        };
        match work.walk_all(words, search, frontier, &mut self.seat, limit) {
            Ok(()) => {}
            Err(_) => {
                halt(words, &mut self.seat, 2);
                self.is_refused = true;
            }
        }
        self.best = work.best;
        self.visited = work.visited;
    }
}
