//! Searches on threads through a root with 64 children, of which the first two look for each other.
ghost use Rattle.std.specs.Prelude.{◌≡◌, ◌≤◌, ℕ, [], ◌∷◌, cond, ◌==◌, replicate, slice_set};
ghost use Rattle.std.specs.Prelude.{OnOk, IfOk};
ghost use Rattle.std.proofs.Common.{rules};
ghost use Rattle.glb_laws.specs.Bounded.{greatest};

use crate::run_best;
use crate::search::{Best, Search};
use glb_laws::{Greatest, NoMemory, Program};
use glb_tree::RunFault;
use std::sync::atomic::{AtomicBool, Ordering};

/// Whether a visit has begun, and whether it saw that of another item begin.
#[derive(Drop)]
struct Note {
    begun: AtomicBool,
    met: AtomicBool,
}

impl Note {
    fn new() -> Note {
        Note {
            begun: AtomicBool::new(false),
            met: AtomicBool::new(false),
        }
    }

    /// Begins, and looks so many times whether the other one has begun.
    fn meet(&self, other: &Note, looks: u64) {
        self.begun.store(true, Ordering::SeqCst);
        for _ in 0..looks {
            if other.begun.load(Ordering::SeqCst) {
                self.met.store(true, Ordering::SeqCst);
                return;
            }
        }
    }
}

/// The root 0 has the children 1, 2 and 62 times 3. They are leaves, or the first one is a leaf
/// that is worth 1, and each other one begins an endless chain of items that are worth nothing.
/// Every item could be worth 1.
#[derive(Drop)]
struct Fan {
    has_chains: bool,
    looks: u64,
    first: Note,
    others: Note,
}

impl Fan {
    fn new(has_chains: bool, looks: u64) -> Fan {
        Fan {
            has_chains,
            looks,
            first: Note::new(),
            others: Note::new(),
        }
    }
}

impl Program for Fan {
    type Item = u64;

    type Value = Greatest;

    ghost children = { λ f x. cond (x == 0)
        (slice_set (slice_set (replicate 64 3) 0 1) 1 2)
        (cond (x == 1) [] (cond f.has_chains (3 ∷ []) [])) };

    ghost value = { λ f x. greatest (cond (x == 1) (cond f.has_chains 1 0) 0) };

    fn expand(&self, item: &u64, out: &mut Vec<u64>) -> Result<Greatest, NoMemory> {
        let number = *item;
        if number == 0 {
            let mut children = [3u64; 64];
            children[0] = 1;
            children[1] = 2;
            out.extend_from_slice(&children)?;
            return Ok(Greatest(0));
        }
        if number == 1 {
            self.first.meet(&self.others, self.looks);
            if self.has_chains {
                return Ok(Greatest(1));
            }
            return Ok(Greatest(0));
        }
        if self.has_chains {
            out.push(3)?;
            self.others.meet(&self.first, 0);
        } else {
            self.others.meet(&self.first, self.looks);
        }
        Ok(Greatest(0))
    }

    ghost value_proper = { λ _ _. Prim.search rules };
}

impl Search for Fan {
    ghost cap_of = { λ _ _. 1 };

    fn cap(&self, _item: &u64) -> u64 {
        1
    }

    ghost caps_value = { λ _ _. Prim.search rules };

    ghost caps_children = { λ _ _. λ _ _ _. Prim.search rules };
}

#[test]
fn a_place_leaves_out_endless_chains(rt: HostRuntime) {
    let fan = Fan::new(true, 0);
    let found = run_best(&rt, rt.alloc(), &fan, 0, 1, 1000);
    assert_eq!(rt; found, Ok(Best { worth: 1, item: 1 }));
}

#[test]
fn two_places_visit_at_the_same_time(rt: HostRuntime) {
    let fan = Fan::new(false, 1_000_000_000);
    let found = run_best(&rt, rt.alloc(), &fan, 0, 2, 1000);
    assert_eq!(rt; found, Ok(Best { worth: 0, item: 0 }));
    assert!(rt; fan.first.met.load(Ordering::SeqCst));
    assert!(rt; fan.others.met.load(Ordering::SeqCst));
}

#[test]
fn two_places_share_the_best(rt: HostRuntime) {
    let fan = Fan::new(true, 1_000_000_000);
    let found = run_best(&rt, rt.alloc(), &fan, 0, 2, 100_000_000);
    assert_eq!(rt; found, Ok(Best { worth: 1, item: 1 }));
}

#[test]
fn a_place_stops_where_the_limit_is_passed(rt: HostRuntime) {
    let fan = Fan::new(false, 0);
    let found = run_best(&rt, rt.alloc(), &fan, 0, 1, 60);
    assert_eq!(rt; found, Err(RunFault::TooMany { items: 61 }));
}
