//! The laws of expansion in any order. Each function does nothing: its contract is the law, for
//! the trees of its program. The code has no recursion by depth, and these are why it needs none.
ghost use Rattle.std.specs.Prelude.{◌≡◌, ◌+◌, ◌<◌, ◌≤◌, ◌↔◌, ℕ, suc, List, [], ◌∷◌, length};
ghost use Rattle.std.specs.Prelude.{IsPermutation};
ghost use Rattle.glb_laws.specs.Expansion.{Expansion, combined};
ghost use Rattle.glb_laws.specs.Joins.{join_to};
ghost use Rattle.glb_laws.specs.Tree.{IsSmall, nodes, answer};
ghost use Rattle.glb_tree.specs.Spread.{dealt};

use glb_laws::{Monoid, Program};

/// What was expanded when nothing is left is the nodes of the trees, each once.
pub fn every_order_ends_alike<P: Program>(program: &P)
    ensures small { (roots done : List P.Item) →
        Expansion (P.children program.now) roots done [] →
        IsSmall (P.children program.now) roots (length done) }
    ensures nodes { (roots done : List P.Item) →
        Expansion (P.children program.now) roots done [] →
        IsPermutation (nodes (P.children program.now) roots (length done)) done }
{}

/// No order ever expands more than small trees have.
pub fn never_more_than_small<P: Program>(program: &P)
    ensures { (roots done left : List P.Item) (most : ℕ) →
        Expansion (P.children program.now) roots done left →
        IsSmall (P.children program.now) roots most →
        length done + length left ≤ most }
{}

/// The nodes are the same list for each number that is enough.
pub fn nodes_are_one_list<P: Program>(program: &P)
    ensures { (roots : List P.Item) (j k : ℕ) →
        j ≤ k →
        IsSmall (P.children program.now) roots j →
        nodes (P.children program.now) roots k ≡ nodes (P.children program.now) roots j }
{}

/// The values of some items combine to the same in every order.
pub fn combination_in_any_order<P: Program>(program: &P)
    ensures { (xs ys : List P.Item) →
        IsPermutation xs ys →
        combined (P.value program.now) P.Value.combine P.Value.unit xs
        ≡ combined (P.value program.now) P.Value.combine P.Value.unit ys }
{}

/// A tree is its root and the trees of the root's children, dealt out to places: its nodes are the
/// root and their nodes, and its answer is the root's value and their answer.
pub fn a_tree_is_its_spread<P: Program>(program: &P)
    ensures small { (root : P.Item) (places most : ℕ) → 0 < places →
        IsSmall (P.children program.now) (root ∷ []) (suc most)
        ↔ IsSmall (P.children program.now)
        (join_to places (dealt places (P.children program.now root))) most }
    ensures nodes { (root : P.Item) (places most : ℕ) → 0 < places →
        IsPermutation (nodes (P.children program.now) (root ∷ []) (suc most))
        (root ∷ nodes (P.children program.now)
        (join_to places (dealt places (P.children program.now root))) most) }
    ensures answer { (root : P.Item) (places most : ℕ) → 0 < places →
        answer (P.children program.now) (P.value program.now) P.Value.unit P.Value.combine
        (root ∷ []) (suc most)
        ≡ P.Value.combine (P.value program.now root) (answer (P.children program.now)
        (P.value program.now) P.Value.unit P.Value.combine
        (join_to places (dealt places (P.children program.now root))) most) }
{}
