//! The first items of a search on threads.
ghost use Rattle.std.specs.Prelude.{◌≡◌, ◌≤◌, ℕ, [], ◌∷◌, IfOk, IfErr};
ghost use Rattle.glb_bound.specs.Best.{worth_of};
ghost use Rattle.glb_bound.specs.inner.Walks.{IsOpened};
ghost use Rattle.glb_tree.specs.Runs.{HasCause};

use super::search::{Best, Search};
use glb_laws::MOST_ITEMS;
use glb_tree::RunFault;
use std::alloc::Global;

/// A tree that was expanded for some way: the items still to visit, in the order in which they were
/// opened, the best of those visited, and how many these are.
#[derive(Drop)]
pub(crate) struct Frontier<I> {
    pub items: Vec<I>,
    pub best: Best<I>,
    pub visited: u64,
}

/// Expands breadth first, until so many items are there or none is left.
pub(crate) fn open_frontier<S: Search>(
    alloc: Global,
    search: &S,
    root: S::Item,
    wanted: usize,
    limit: u64,
) -> Result<Frontier<S::Item>, RunFault>
where
    S::Item: Copy,
    requires limited { (1 ≤ limit) × (limit ≤ MOST_ITEMS) }
    ensures opened { IfOk result (λ f. IsOpened (S.children search.now)
        (worth_of (S.value search.now)) (S.cap_of search.now) root f.visited f.items.items f.best) }
    ensures within { IfOk result (λ f. f.visited ≤ limit) }
    ensures fault { IfErr result (HasCause (S.children search.now) (root ∷ []) limit) }
{
    let mut items = Vec::new(alloc);
    let worth = match search.expand(&root, &mut items) {
        Ok(worth) => worth.0,
        Err(_) => return Err(RunFault::NoMemory),
    };
    let mut best = Best { worth, item: root };
    let mut visited = 1;
    while 0 < items.len() && items.len() < wanted {
        let item = items.remove(0);
        let worth = match search.expand(&item, &mut items) {
            Ok(worth) => worth.0,
            Err(_) => return Err(RunFault::NoMemory),
        };
        if worth > best.worth {
            best = Best { worth, item };
        }
        visited += 1;
        if visited > limit {
            return Err(RunFault::TooMany { items: visited });
        }
    }
    Ok(Frontier {
        items,
        best,
        visited,
    })
}
