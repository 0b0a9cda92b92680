//! The roots with which a run starts: those of each place, how many they are, and their bags.
ghost use Rattle.std.specs.Prelude.{◌≡◌, ◌≤◌, ◌<◌, ℕ, [], ◌∷◌, length, map, get_or, vec_len, All};
ghost use Rattle.std.specs.Prelude.{IsPermutation, IfOk, IfErr};
ghost use Rattle.glb_rules.specs.Joins.{join_to};
ghost use Rattle.glb_run.specs.Roots.{at_first, roots_of, all_roots};

use super::order::Order;
use glb_laws::{Bag, NoMemory, Program};
use glb_tree::{RunFault, bag_of, spread};
use std::alloc::Global;

/// A list of one.
pub(crate) fn only<T: Drop>(alloc: Global, item: T) -> Result<Vec<T>, RunFault>
    ensures list { IfOk result (λ list. list.items ≡ item ∷ []) }
    ensures fault { IfErr result (λ e. e ≡ RunFault.NoMemory) }
{
    let mut list = Vec::new(alloc);
    match list.push(item) {
        Ok(()) => Ok(list),
        Err(_) => Err(RunFault::NoMemory),
    }
}

/// The root at the first place, and none elsewhere.
fn roots_at_first<T: Drop>(alloc: Global, root: T, places: u32) -> Result<Vec<Vec<T>>, RunFault>
    requires { 1 ≤ places }
    ensures many { IfOk result (λ lists. vec_len lists ≡ places) }
    ensures lists { IfOk result (λ lists. (p : ℕ) →
        get_or (map (λ v. v.items) lists.items) p [] ≡ at_first root p) }
    ensures fault { IfErr result (λ e. e ≡ RunFault.NoMemory) }
{
    let mut lists = only(alloc, only(alloc, root)?)?;
    for _ in 1..places {
        match lists.push(Vec::new(alloc)) {
            Ok(()) => {}
            Err(_) => return Err(RunFault::NoMemory),
        }
    }
    Ok(lists)
}

/// The roots with which each place of the order starts: the root itself at the first place, or its
/// children, dealt out.
pub(crate) fn first_roots<P: Program>(
    alloc: Global,
    program: &P,
    root: P::Item,
    order: &Order,
) -> Result<Vec<Vec<P::Item>>, RunFault>
    requires places { (1 ≤ order.now.params.places) × (order.now.params.places ≤ 64) }
    requires few { length (P.children program.now root) ≤ 100000 }
    ensures many { IfOk result (λ lists. vec_len lists ≡ order.now.params.places) }
    ensures lists { IfOk result (λ lists. (p : ℕ) →
        get_or (map (λ v. v.items) lists.items) p []
        ≡ roots_of (P.children program.now) order.now root p) }
    ensures few { IfOk result (λ lists. All (λ v. length v.items ≤ 100000) lists.items) }
    ensures fault { IfErr result (λ e. e ≡ RunFault.NoMemory) }
{
    if !order.spread {
        return roots_at_first(alloc, root, order.params.places);
    }
    match spread(alloc, program, root, order.params.places) {
        Ok(lists) => Ok(lists),
        Err(_) => Err(RunFault::NoMemory),
    }
}

/// How many roots each place has.
pub(crate) fn numbers_of<T>(alloc: Global, lists: &[Vec<T>]) -> Result<Vec<u32>, RunFault>
    requires { All (λ v. length v.items ≤ 100000) lists.now }
    ensures numbers { IfOk result (λ numbers.
        numbers.items ≡ map (λ v. length v.items) lists.now) }
    ensures fault { IfErr result (λ e. e ≡ RunFault.NoMemory) }
{
    let mut numbers = Vec::new(alloc);
    for list in lists {
        match numbers.push(list.len() as u32) {
            Ok(()) => {}
            Err(_) => return Err(RunFault::NoMemory),
        }
    }
    Ok(numbers)
}

/// The roots of all places in one list.
fn all_of<T: Drop>(alloc: Global, lists: Vec<Vec<T>>) -> Result<Vec<T>, RunFault>
    ensures all { IfOk result (λ all. all.items
        ≡ join_to (vec_len lists) (λ p. get_or (map (λ v. v.items) lists.items) p [])) }
    ensures fault { IfErr result (λ e. e ≡ RunFault.NoMemory) }
{
    let mut all = Vec::new(alloc);
    for mut list in lists {
        match all.append(&mut list) {
            Ok(()) => {}
            Err(_) => return Err(RunFault::NoMemory),
        }
    }
    Ok(all)
}

/// The roots of all places of the order in one list.
pub(crate) fn joined_roots<P: Program>(
    alloc: Global,
    program: &P,
    root: P::Item,
    order: &Order,
) -> Result<Vec<P::Item>, RunFault>
    requires places { (1 ≤ order.now.params.places) × (order.now.params.places ≤ 64) }
    requires few { length (P.children program.now root) ≤ 100000 }
    ensures all { IfOk result (λ all.
        all.items ≡ all_roots (P.children program.now) order.now root) }
    ensures few { IfOk result (λ all. vec_len all ≤ 100000) }
    ensures fault { IfErr result (λ e. e ≡ RunFault.NoMemory) }
{
    let lists = first_roots(alloc, program, root, order)?;
    all_of(alloc, lists)
}

/// A bag for each list of roots, in order.
pub(crate) fn bags_of<P: Program, B: Bag<P>>(
    alloc: Global,
    program: &P,
    roots: Vec<Vec<P::Item>>,
) -> Result<Vec<B>, NoMemory>
    ensures many { IfOk result (λ bags. vec_len bags ≡ vec_len roots) }
    ensures fits { IfOk result (λ bags. All (λ b. B.fits b program.now) bags.items) }
    ensures items { IfOk result (λ bags. (p : ℕ) → IsPermutation
        (get_or (map (λ v. v.items) roots.items) p []) (get_or (map B.items bags.items) p [])) }
{
    let mut bags = Vec::new(alloc);
    for list in roots {
        bags.push(bag_of::<P, B>(alloc, program, list)?)?;
    }
    Ok(bags)
}
