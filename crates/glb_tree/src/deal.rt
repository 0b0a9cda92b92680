//! The children of a root, dealt out to places.
ghost use Rattle.std.specs.Prelude.{◌≡◌, ◌≤◌, ◌<◌, ℕ, [], length, get_or, map, vec_len, IfOk};
ghost use Rattle.glb_tree.specs.Spread.{dealt};

use glb_laws::{NoMemory, Program};
use std::alloc::Global;

/// Empty lists, one for each place.
fn no_roots<P: Program>(alloc: Global, places: u32) -> Result<Vec<Vec<P::Item>>, NoMemory>
    ensures many { IfOk result (λ lists. vec_len lists ≡ places) }
    ensures none { IfOk result (λ lists. (p : ℕ) →
        get_or (map (λ v. v.items) lists.items) p [] ≡ []) }
{
    let mut lists = Vec::new(alloc);
    for _ in 0..places {
        lists.push(Vec::new(alloc))?;
    }
    Ok(lists)
}

/// The children of a root as the roots of places: child number i, counted from 0, is a root of
/// place i modulo `places`, and the roots of a place come in the order of their numbers. The root
/// itself is taken, and its value is the caller's to count.
pub fn spread<P: Program>(
    alloc: Global,
    program: &P,
    root: P::Item,
    places: u32,
) -> Result<Vec<Vec<P::Item>>, NoMemory>
    requires places { (1 ≤ places) × (places ≤ 64) }
    requires few { length (P.children program.now root) ≤ 100000 }
    ensures many { IfOk result (λ lists. vec_len lists ≡ places) }
    ensures dealt { IfOk result (λ lists. (p : ℕ) → p < places →
        get_or (map (λ v. v.items) lists.items) p []
        ≡ dealt places (P.children program.now root) p) }
{
    let mut children = Vec::new(alloc);
    program.expand(&root, &mut children)?;
    let mut lists = no_roots::<P>(alloc, places)?;
    let mut number = 0u32;
    for child in children {
        let place = number % places;
        let list = &mut lists[place as usize];
        list.push(child)?;
        number += 1;
    }
    Ok(lists)
}
