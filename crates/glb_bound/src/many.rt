//! A search on threads that share the best.
ghost use Rattle.std.specs.Prelude.{◌≡◌, ◌⊎◌, ℕ, ◌+◌, ◌*◌, ◌^◌, ◌<◌, ◌≤◌, List, [], ◌∷◌, length};
ghost use Rattle.std.specs.Prelude.{All, IfOk, IfErr, vec_len};
ghost use Rattle.glb_tree.specs.Runs.{HasCause};
ghost use Rattle.glb_bound.specs.Best.{IsBest, IsNode, worth_of};
ghost use Rattle.glb_bound.specs.inner.Views.{fresh};
ghost use Rattle.glb_bound.specs.inner.Walks.{IsOpened};
ghost use Rattle.glb_bound.specs.inner.Places.{IsReady, IsDone, HasPlayed, HasSearched};

use super::frontier::{Frontier, open_frontier};
use super::place::Place;
use super::rule::{Slip, Start, WordTable, Words};
use super::search::{Best, Search};
use super::steps::{close, deal, gather, open_table};
use glb_laws::{MOST_ITEMS, NoMemory};
use glb_tree::RunFault;
use std::alloc::Global;
use std::thread;
use std::thread::Threads;

/// So many open items for each place, at least, are there before the places begin.
const SHARE: usize = 16;

/// More items than this cannot be numbered. A list of them is only there where they take no memory.
const MOST_NUMBERS: usize = 1 << 62;

/// A place for each seat that is dealt.
fn deal_places<I: Copy + Drop>(
    alloc: Global,
    words: &Words,
    dealer: &mut Slip,
    best: Best<I>,
    places: u32,
) -> Result<Vec<Place<I>>, NoMemory>
    requires table { (dealer.old.table_id ≡ words.now.table_id)
        × (3 < words.now.table_id.words) }
    requires fresh { dealer.old.me ≡ (fresh places words.now.key.frontier, []) }
    ensures table { dealer.new.table_id ≡ dealer.old.table_id }
    ensures dealt { IfOk result (λ all. dealer.new.me ≡ (fresh 0 words.now.key.frontier, [])) }
    ensures number { IfOk result (λ all. vec_len all ≡ places) }
    ensures ready { IfOk result (λ all.
        All (IsReady words.now.table_id words.now.key.frontier best) all.items) }
{
    let mut all = Vec::with_capacity(alloc, places as usize)?;
    for _ in 0..places {
        all.push(Place {
            seat: deal(words, dealer),
            best,
            visited: 0,
            is_refused: false,
        })?;
    }
    Ok(all)
}

/// Plays all places, each on a thread of its own.
fn play_all<R: Threads + Sync, S: Search<Item: Send + Sync> + Sync>(
    rt: &R,
    alloc: Global,
    words: &Words,
    search: &S,
    frontier: &[S::Item],
    limit: u64,
    best: Best<S::Item>,
    places: &mut [Place<S::Item>],
)
where
    S::Item: Copy,
    requires words { 3 < words.now.table_id.words }
    requires limit { (words.now.key.limit ≡ limit) × (limit ≤ MOST_ITEMS) }
    requires some { 0 < length places.old }
    requires ready { All (IsReady words.now.table_id (length frontier.now) best) places.old }
    ensures done { All (IsDone (S.children search.now) (worth_of (S.value search.now))
        (S.cap_of search.now) words.now.table_id frontier.now best) places.new }
{
    let threads = places.len();
    thread::for_each_mut(
        rt,
        places,
        threads,
        &|_, place| {
            place.play(alloc, words, search, frontier, limit);
        },
    );
}

/// The greater of two, and the first where they are worth the same.
fn greater<I: Copy + Drop>(best: Best<I>, other: Best<I>) -> Best<I>
    ensures { ((other.worth ≤ best.worth) × (result ≡ best))
        ⊎ ((best.worth < other.worth) × (result ≡ other)) }
{
    if other.worth > best.worth {
        other
    } else {
        best
    }
}

/// What all places found: the best, and how many items were visited with those before.
fn gather_all<S: Search>(
    words: &Words,
    search: &S,
    frontier: &[S::Item],
    seat: &mut Slip,
    places: Vec<Place<S::Item>>,
    first: Best<S::Item>,
    before: u64,
) -> Result<(Best<S::Item>, u64), NoMemory>
where
    S::Item: Copy,
    requires table { (seat.old.table_id ≡ words.now.table_id) × (3 < words.now.table_id.words) }
    requires fresh { seat.old.me ≡ (fresh 0 (length frontier.now), []) }
    requires few { (vec_len places ≤ 64) × (before ≤ MOST_ITEMS) }
    requires done { All (IsDone (S.children search.now) (worth_of (S.value search.now))
        (S.cap_of search.now) words.now.table_id frontier.now first) places.items }
    ensures table { seat.new.table_id ≡ seat.old.table_id }
    ensures played { IfOk result (λ r. (n : ℕ) × (waiting : List S.Item) × (r.1 ≡ before + n)
        × HasPlayed (S.children search.now) (worth_of (S.value search.now)) (S.cap_of search.now)
        frontier.now first (vec_len places) n waiting r.0 seat.new.me.0) }
    ensures least { IfOk result (λ r. first.worth ≤ r.0.worth) }
{
    let mut best = first;
    let mut visited = before;
    for place in places {
        let Place {
            seat: other,
            best: found,
            visited: more,
            is_refused,
        } = place;
        if is_refused {
            return Err(NoMemory);
        }
        best = greater(best, found);
        visited += more;
        gather(words, seat, other);
    }
    Ok((best, visited))
}

/// The end of a run: the best, and how many items were visited with those before.
fn finish<S: Search>(
    table: WordTable,
    dealer: Slip,
    search: &S,
    frontier: &[S::Item],
    places: Vec<Place<S::Item>>,
    first: Best<S::Item>,
    before: u64,
) -> Result<(Best<S::Item>, u64), NoMemory>
where
    S::Item: Copy,
    requires table { (dealer.table_id ≡ table.shared.table_id)
        × (3 < table.shared.table_id.words) × (table.shared.table_id.slots ≡ 0) }
    requires fresh { dealer.me ≡ (fresh 0 (length frontier.now), []) }
    requires start { (table.shared.key.places ≡ vec_len places)
        × (table.shared.key.frontier ≡ length frontier.now)
        × (table.shared.key.best ≡ first.worth) × (table.shared.key.items ≡ before) }
    requires few { (1 ≤ vec_len places) × (vec_len places ≤ 64) × (before ≤ MOST_ITEMS) }
    requires done { All (IsDone (S.children search.now) (worth_of (S.value search.now))
        (S.cap_of search.now) table.shared.table_id frontier.now first) places.items }
    ensures searched { IfOk result (λ r. (root : S.Item)
        → IsOpened (S.children search.now) (worth_of (S.value search.now)) (S.cap_of search.now)
        root before frontier.now first
        → HasSearched (S.children search.now) (worth_of (S.value search.now))
        (S.cap_of search.now) root table.shared.key.limit r.1 r.0) }
{
    let mut seat = dealer;
    let found = gather_all(
        &table.shared,
        search,
        frontier,
        &mut seat,
        places,
        first,
        before,
    )?;
    close(table, seat);
    Ok(found)
}

/// Searches on from a frontier. The best, and how many items were visited with those before.
fn search_on<R: Threads + Sync, S: Search<Item: Send + Sync> + Send + Sync>(
    rt: &R,
    alloc: Global,
    search: &S,
    frontier: Frontier<S::Item>,
    places: u32,
    limit: u64,
) -> Result<(Best<S::Item>, u64), NoMemory>
where
    S::Item: Copy,
    requires places { (1 ≤ places) × (places ≤ 64) }
    requires limited { limit ≤ MOST_ITEMS }
    requires within { frontier.visited ≤ limit }
    ensures searched { IfOk result (λ r. (root : S.Item)
        → IsOpened (S.children search.now) (worth_of (S.value search.now)) (S.cap_of search.now)
        root frontier.visited frontier.items.items frontier.best
        → HasSearched (S.children search.now) (worth_of (S.value search.now))
        (S.cap_of search.now) root limit r.1 r.0) }
{
    let Frontier {
        items,
        best,
        visited,
    } = frontier;
    if items.len() > MOST_NUMBERS {
        return Err(NoMemory);
    }
    let start = Start {
        places: u64::from(places),
        frontier: items.len() as u64,
        best: best.worth,
        items: visited,
        limit,
    };
    let (table, mut dealer) = open_table(alloc, start)?;
    let mut all = deal_places(alloc, &table.shared, &mut dealer, best, places)?;
    play_all(
        rt,
        alloc,
        &table.shared,
        search,
        &items,
        limit,
        best,
        &mut all,
    );
    finish(table, dealer, search, &items, all, best, visited)
}

/// The greatest value in the tree of a root, and a node that has it, found by so many places on
/// threads that share the best. The tree is expanded breadth first until there is enough for all
/// places, and what cannot be better than the best so far is left out from then on. It returns
/// also where a tree has no end.
pub fn run_best<R: Threads + Sync, S: Search<Item: Send + Sync> + Send + Sync>(
    rt: &R,
    alloc: Global,
    search: &S,
    root: S::Item,
    places: u32,
    limit: u64,
) -> Result<Best<S::Item>, RunFault>
where
    S::Item: Copy,
    requires places { (1 ≤ places) × (places ≤ 64) }
    requires limited { (1 ≤ limit) × (limit ≤ MOST_ITEMS) }
    ensures worth { IfOk result (λ best.
        IsBest (S.children search.now) (worth_of (S.value search.now)) root best.worth) }
    ensures item { IfOk result (λ best. IsNode (S.children search.now) root best.item
        × (worth_of (S.value search.now) best.item ≡ best.worth)) }
    ensures fault { IfErr result (HasCause (S.children search.now) (root ∷ []) limit) }
{
    let frontier = open_frontier(alloc, search, root, SHARE * places as usize, limit)?;
    let Ok((best, visited)) = search_on(rt, alloc, search, frontier, places, limit) else {
        return Err(RunFault::NoMemory);
    };
    if visited > limit {
        return Err(RunFault::TooMany { items: visited });
    }
    Ok(best)
}
