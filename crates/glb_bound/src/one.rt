//! A search on one list.
ghost use Rattle.std.specs.Prelude.{◌≡◌, ◌≤◌, [], ◌∷◌, IfOk, IfErr};
ghost use Rattle.glb_bound.specs.Best.{IsBest, IsNode, worth_of};
ghost use Rattle.glb_tree.specs.Runs.{HasCause};

use super::search::{Best, Search};
use super::visit::visit;
use glb_laws::MOST_ITEMS;
use glb_tree::RunFault;
use std::alloc::Global;

/// The greatest value in the tree of a root, and a node that has it: the last of those waiting is
/// visited first, and what cannot be better than the best so far is left out. It returns also
/// where a tree has no end.
pub fn best_one<S: Search>(
    alloc: Global,
    search: &S,
    root: S::Item,
    limit: u64,
) -> Result<Best<S::Item>, RunFault>
where
    S::Item: Copy,
    requires limited { (1 ≤ limit) × (limit ≤ MOST_ITEMS) }
    ensures worth { IfOk result (λ best.
        IsBest (S.children search.now) (worth_of (S.value search.now)) root best.worth) }
    ensures item { IfOk result (λ best. IsNode (S.children search.now) root best.item
        × (worth_of (S.value search.now) best.item ≡ best.worth)) }
    ensures fault { IfErr result (HasCause (S.children search.now) (root ∷ []) limit) }
{
    let mut waiting = Vec::new(alloc);
    let mut best = Best {
        worth: 0,
        item: root,
    };
    match visit(search, root, &mut waiting, &mut best) {
        Ok(()) => {}
        Err(_) => return Err(RunFault::NoMemory),
    }
    let mut visited = 1;
    while let Some(item) = waiting.pop() {
        match visit(search, item, &mut waiting, &mut best) {
            Ok(()) => {}
            Err(_) => return Err(RunFault::NoMemory),
        }
        visited += 1;
        if visited > limit {
            return Err(RunFault::TooMany { items: visited });
        }
    }
    Ok(best)
}
