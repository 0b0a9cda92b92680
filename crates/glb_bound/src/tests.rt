//! A search through a tree without an end.
ghost use Rattle.std.specs.Prelude.{◌≡◌, ◌≤◌, ◌∷◌, [], min, OnOk, IfOk};
ghost use Rattle.std.proofs.Common.{rules};
ghost use Rattle.glb_laws.specs.Bounded.{greatest};

mod fan;

use super::best_one;
use super::search::{Best, Search};
use glb_laws::{Greatest, NoMemory, Program};
use glb_tree::RunFault;
use std::alloc::Global;

/// Below each item there is an idle one, which is worth nothing, but could be worth 1.
#[derive(Drop)]
struct Idle;

impl Program for Idle {
    type Item = u64;

    type Value = Greatest;

    ghost children = { λ _ _. 0 ∷ [] };

    ghost value = { λ _ x. greatest (min x 1) };

    fn expand(&self, item: &u64, out: &mut Vec<u64>) -> Result<Greatest, NoMemory> {
        out.push(0)?;
        Ok(Greatest((*item).min(1)))
    }

    ghost value_proper = { λ _ _. Prim.search rules };
}

impl Search for Idle {
    ghost cap_of = { λ _ _. 1 };

    fn cap(&self, _item: &u64) -> u64 {
        1
    }

    ghost caps_value = { λ _ _. Prim.search rules };

    ghost caps_children = { λ _ _. λ _ _ _. Prim.search rules };
}

#[test]
fn an_endless_chain_that_cannot_be_better_is_left_out(rt: HostRuntime) {
    let found = best_one(rt.alloc(), &Idle, 1, 1000);
    assert_eq!(rt; found, Ok(Best { worth: 1, item: 1 }));
}

#[test]
fn an_endless_chain_that_could_be_better_passes_the_limit(rt: HostRuntime) {
    let found = best_one(rt.alloc(), &Idle, 0, 1000);
    assert_eq!(rt; found, Err(RunFault::TooMany { items: 1001 }));
}
