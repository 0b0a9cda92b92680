//! Worked rows of `ListBag`.
use crate::ListBag;
use glb_laws::{Bag, Monoid, NoMemory, Program, SatSum, Stopped};
use std::alloc::Global;
use std::test::Fail;

/// Binary trees: an item is a height and, below 100, the value of each node.
#[derive(Drop)]
pub(super) struct Trees;

impl Program for Trees {
    ghost use Rattle.std.specs.Prelude.{◌-◌, ◌%◌, [], ◌∷◌, nat_lt, if◌then◌else◌};
    ghost use Rattle.std.proofs.Common.{arith};
    ghost use Rattle.glb_laws.specs.Bounded.{sat_sum};

    type Item = (u64, u64);

    type Value = SatSum;

    ghost children = { λ _ x. (if nat_lt 0 x.0
        then record { 0 = x.0 - 1; 1 = x.1 } ∷ record { 0 = x.0 - 1; 1 = x.1 } ∷ [] else []) };

    ghost value = { λ _ x. sat_sum (x.1 % 100) };

    ghost value_proper = { λ _ x. Prim.omega arith };

    fn expand(&self, item: &(u64, u64), out: &mut Vec<(u64, u64)>) -> Result<SatSum, NoMemory> {
        let (height, value) = *item;
        if height > 0 {
            let old = out.len();
            out.push((height - 1, value))?;
            match out.push((height - 1, value)) {
                Ok(()) => {}
                Err(_) => {
                    out.truncate(old);
                    return Err(NoMemory);
                }
            }
        }
        Ok(SatSum(value % 100))
    }
}

/// The items of a bag of leaves, in the order in which they are taken.
fn taken(alloc: Global, bag: ListBag<Trees>) -> Result<Vec<u64>, Fail> {
    let mut bag = bag;
    let mut all = Vec::new(alloc);
    for _ in 0..bag.len() {
        let mut value = SatSum(0);
        bag.process(&Trees, 1, &mut value)?;
        all.push(value.0)?;
    }
    Ok(all)
}

/// A bag of one leaf for each of these values.
fn bag_of(alloc: Global, values: &[u64]) -> Result<ListBag<Trees>, Fail> {
    let mut bag = ListBag::empty(alloc, &Trees);
    for value in values {
        if bag.add((0, *value)).is_err() {
            return Err(Fail::new("no memory"));
        }
    }
    Ok(bag)
}

#[test]
fn the_last_is_taken_first_and_the_first_half_is_split_off(rt: HostRuntime) -> Result<(), Fail> {
    let alloc = rt.alloc();
    let mut bag = bag_of(alloc, &[1, 2, 3, 4, 5])?;
    assert!(rt; bag.can_split());
    let Some(part) = bag.split()? else {
        return Err(Fail::new("nothing was split off"));
    };
    assert_eq!(rt; taken(alloc, part)?.as_slice(), [2, 1].as_slice());
    assert_eq!(rt; taken(alloc, bag)?.as_slice(), [5, 4, 3].as_slice());
    Ok(())
}

#[test]
fn a_merged_bag_has_the_items_of_both(rt: HostRuntime) -> Result<(), Fail> {
    let alloc = rt.alloc();
    let mut bag = bag_of(alloc, &[3, 4, 5])?;
    assert!(rt; bag.merge(bag_of(alloc, &[1, 2])?).is_ok());
    assert_eq!(rt; bag.len(), 5);
    let mut all = taken(alloc, bag)?;
    all.sort_unstable();
    assert_eq!(rt; all.as_slice(), [1, 2, 3, 4, 5].as_slice());
    Ok(())
}

#[test]
fn one_item_is_not_split(rt: HostRuntime) -> Result<(), Fail> {
    for (values, len) in [([].as_slice(), 0), ([7].as_slice(), 1)] {
        let mut bag = bag_of(rt.alloc(), values)?;
        assert!(rt; !bag.can_split());
        assert!(rt; bag.split()?.is_none());
        assert_eq!(rt; bag.len(), len);
    }
    Ok(())
}

// Run with each allocation failing in turn, by `rt try --test --fail-alloc N`.
#[test]
fn want_of_memory_loses_no_item(rt: HostRuntime) -> Result<(), Fail> {
    let mut bag: ListBag<Trees> = ListBag::empty(rt.alloc(), &Trees);
    for _ in 0..3 {
        match bag.add((5, 1)) {
            Ok(()) => {}
            Err(_) => assert!(rt; bag.add((5, 1)).is_ok()),
        }
    }
    let mut count = SatSum(0);
    for _ in 0..63 {
        match bag.split() {
            Ok(Some(part)) => match bag.merge(part) {
                Ok(()) => {}
                Err((_, part)) => assert!(rt; bag.merge(part).is_ok()),
            },
            Ok(None) => {}
            Err(_) => {}
        }
        match bag.process(&Trees, 4, &mut count) {
            Ok(_) => {}
            Err(Stopped { done }) => assert!(rt; done < 4),
        }
    }
    assert_eq!(rt; bag.len(), 0);
    assert_eq!(rt; count, SatSum(189));
    Ok(())
}
