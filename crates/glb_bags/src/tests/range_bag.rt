//! Worked rows of `RangeBag`.
use crate::RangeBag;
use glb_laws::{Bag, Monoid, NoMemory, Program, Ranged, SatSum, Stopped};
use std::alloc::Global;
use std::test::Fail;

/// Trees of two levels: an item is how many children it has, and its value. Its children have none
/// of their own, and the values from 0 on.
#[derive(Clone, Copy)]
struct Fans;

impl Program for Fans {
    ghost use Rattle.std.specs.Prelude.{◌%◌, map};
    ghost use Rattle.std.specs.List.{range_with_len};
    ghost use Rattle.std.proofs.Common.{arith};
    ghost use Rattle.glb_laws.specs.Bounded.{sat_sum};

    type Item = (u64, u64);

    type Value = SatSum;

    ghost children = { λ _ x. map (λ n. record { 0 = 0; 1 = n }) (range_with_len 0 x.0) };

    ghost value = { λ _ x. sat_sum (x.1 % 100) };

    ghost value_proper = { λ _ x. Prim.omega arith };

    fn expand(&self, item: &(u64, u64), out: &mut Vec<(u64, u64)>) -> Result<SatSum, NoMemory> {
        let (fan, value) = *item;
        out.reserve(fan as usize)?;
        for number in 0..fan {
            out.push_reserved((0, number));
        }
        Ok(SatSum(value % 100))
    }
}

impl Ranged for Fans {
    fn fan(&self, item: &(u64, u64)) -> u64 {
        item.0
    }

    fn child(&self, _item: &(u64, u64), number: u64) -> (u64, u64) {
        (0, number)
    }

    fn weigh(&self, item: &(u64, u64)) -> Result<SatSum, NoMemory> {
        Ok(SatSum(item.1 % 100))
    }
}

/// A bag of these items.
fn bag_of(alloc: Global, items: &[(u64, u64)]) -> Result<RangeBag<Fans>, Fail> {
    let mut bag = RangeBag::empty(alloc, &Fans);
    for item in items {
        if bag.add(*item).is_err() {
            return Err(Fail::new("no memory"));
        }
    }
    Ok(bag)
}

/// The values of the items of a bag, in the order in which they are taken.
fn taken(alloc: Global, bag: RangeBag<Fans>) -> Result<Vec<u64>, Fail> {
    let mut bag = bag;
    let mut all = Vec::new(alloc);
    for _ in 0..100 {
        let mut value = SatSum(0);
        if bag.process(&Fans, 1, &mut value)? == 0 {
            return Ok(all);
        }
        all.push(value.0)?;
    }
    Err(Fail::new("a hundred items and more"))
}

#[test]
fn a_range_is_split_in_its_middle(rt: HostRuntime) -> Result<(), Fail> {
    let alloc = rt.alloc();
    let mut bag = bag_of(alloc, &[(5, 0)])?;
    assert!(rt; !bag.can_split());
    let mut value = SatSum::unit();
    assert_eq!(rt; bag.process(&Fans, 1, &mut value)?, 1);
    assert_eq!(rt; bag.len(), 5);
    let Some(part) = bag.split()? else {
        return Err(Fail::new("nothing was split off"));
    };
    assert_eq!(rt; part.len(), 2);
    assert_eq!(rt; bag.len(), 3);
    assert_eq!(rt; taken(alloc, part)?.as_slice(), [1, 0].as_slice());
    assert_eq!(rt; taken(alloc, bag)?.as_slice(), [4, 3, 2].as_slice());
    Ok(())
}

#[test]
fn what_is_made_goes_along(rt: HostRuntime) -> Result<(), Fail> {
    let alloc = rt.alloc();
    let mut bag = bag_of(alloc, &[(20, 0)])?;
    let mut value = SatSum::unit();
    // The root, and child 19: children 12 to 18 are made.
    assert_eq!(rt; bag.process(&Fans, 2, &mut value)?, 2);
    let Some(mut part) = bag.split()? else {
        return Err(Fail::new("nothing was split off"));
    };
    assert_eq!(rt; (part.len(), bag.len()), (9, 10));
    assert!(rt; bag.split()?.is_some());
    let Some(quarter) = part.split()? else {
        return Err(Fail::new("nothing was split off"));
    };
    assert_eq!(rt; taken(alloc, quarter)?.as_slice(), [3, 2, 1, 0].as_slice());
    assert_eq!(rt; taken(alloc, part)?.as_slice(), [8, 7, 6, 5, 4].as_slice());
    assert_eq!(rt;
        taken(alloc, bag)?.as_slice(),
        [18, 17, 16, 15, 14].as_slice()
    );
    Ok(())
}

/// A bag in which the children of the first item are made, with those of the last.
fn opened_bag(alloc: Global) -> Result<RangeBag<Fans>, Fail> {
    let mut bag = bag_of(alloc, &[(2, 5), (2, 7)])?;
    let mut value = SatSum::unit();
    if bag.process(&Fans, 2, &mut value)? != 2 {
        return Err(Fail::new("two items are there"));
    }
    Ok(bag)
}

#[test]
fn an_opened_item_is_taken_and_split_off(rt: HostRuntime) -> Result<(), Fail> {
    let alloc = rt.alloc();
    let mut bag = bag_of(alloc, &[(0, 9)])?;
    assert!(rt; bag.merge(opened_bag(alloc)?).is_ok());
    assert_eq!(rt; bag.len(), 3);
    assert_eq!(rt; taken(alloc, bag)?.as_slice(), [0, 5, 1, 0, 9].as_slice());
    let mut bag = opened_bag(alloc)?;
    let Some(part) = bag.split()? else {
        return Err(Fail::new("nothing was split off"));
    };
    assert_eq!(rt; taken(alloc, part)?.as_slice(), [5, 1, 0].as_slice());
    assert_eq!(rt; taken(alloc, bag)?.as_slice(), [0].as_slice());
    Ok(())
}

#[test]
fn entries_are_split_in_their_middle(rt: HostRuntime) -> Result<(), Fail> {
    let alloc = rt.alloc();
    let mut bag = bag_of(alloc, &[(0, 7), (0, 8), (3, 9)])?;
    let mut value = SatSum::unit();
    assert_eq!(rt; bag.process(&Fans, 1, &mut value)?, 1);
    assert!(rt; bag.merge(bag_of(alloc, &[(0, 5)])?).is_ok());
    assert_eq!(rt; bag.len(), 6);
    let Some(part) = bag.split()? else {
        return Err(Fail::new("nothing was split off"));
    };
    assert_eq!(rt; taken(alloc, part)?.as_slice(), [8, 7].as_slice());
    assert_eq!(rt; taken(alloc, bag)?.as_slice(), [5, 2, 1, 0].as_slice());
    Ok(())
}

// Run with each allocation failing in turn, by `rt try --test --fail-alloc N`.
#[test]
fn want_of_memory_loses_no_item(rt: HostRuntime) -> Result<(), Fail> {
    let mut bag: RangeBag<Fans> = RangeBag::empty(rt.alloc(), &Fans);
    for _ in 0..3 {
        match bag.add((20, 1)) {
            Ok(()) => {}
            Err(_) => assert!(rt; bag.add((20, 1)).is_ok()),
        }
    }
    let mut sum = SatSum(0);
    for _ in 0..63 {
        match bag.split() {
            Ok(Some(part)) => match bag.merge(part) {
                Ok(()) => {}
                Err((_, part)) => assert!(rt; bag.merge(part).is_ok()),
            },
            Ok(None) => {}
            Err(_) => {}
        }
        match bag.process(&Fans, 4, &mut sum) {
            Ok(_) => {}
            Err(Stopped { done }) => assert!(rt; done < 4),
        }
    }
    assert_eq!(rt; bag.len(), 0);
    // Three times 1, and three times the sum of the numbers below 20.
    assert_eq!(rt; sum, SatSum(573));
    Ok(())
}
