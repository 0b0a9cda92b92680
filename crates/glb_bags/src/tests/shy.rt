//! What is refused, and what stands then.
use super::list_bag::Trees;
use crate::{ListBag, Refuses, Shy, ShyBag};
use glb_laws::{Bag, NoMemory, SatSum, Stopped};
use std::alloc::Global;
use std::test::Fail;

/// Refuses the items of one value.
#[derive(Drop)]
struct RefusesValue(u64);

impl Refuses<(u64, u64)> for RefusesValue {
    fn refuses(&self, item: &(u64, u64)) -> bool {
        item.1 == self.0
    }
}

type Shyly = Shy<Trees, RefusesValue>;

/// A program that refuses one value, and whose bags refuse what is said.
fn shy(value: u64, split: bool, merge: bool) -> Shyly {
    Shy {
        inner: Trees,
        refuse: RefusesValue(value),
        split,
        merge,
    }
}

/// A bag of one leaf for each of these values.
fn bag_of(alloc: Global, program: &Shyly, values: &[u64]) -> Result<ShyBag<ListBag<Shyly>>, Fail> {
    let mut bag = ShyBag::empty(alloc, program);
    for value in values {
        if bag.add((0, *value)).is_err() {
            return Err(Fail::new("no memory"));
        }
    }
    Ok(bag)
}

#[test]
fn a_refused_item_stays(rt: HostRuntime) -> Result<(), Fail> {
    let program = shy(3, false, false);
    let mut bag = bag_of(rt.alloc(), &program, &[1, 3, 2])?;
    let mut value = SatSum(0);
    assert_eq!(rt;
        bag.process(&program, 5, &mut value),
        Err(Stopped { done: 1 })
    );
    assert_eq!(rt; value, SatSum(2));
    assert_eq!(rt; bag.len(), 2);
    Ok(())
}

#[test]
fn a_refused_split_leaves_all(rt: HostRuntime) -> Result<(), Fail> {
    let program = shy(9, true, false);
    let mut bag = bag_of(rt.alloc(), &program, &[1, 2])?;
    assert!(rt; matches!(bag.split(), Err(NoMemory)));
    assert_eq!(rt; bag.len(), 2);
    let mut lone = bag_of(rt.alloc(), &program, &[1])?;
    assert!(rt; matches!(lone.split(), Ok(None)));
    Ok(())
}

#[test]
fn a_refused_merge_hands_the_part_back(rt: HostRuntime) -> Result<(), Fail> {
    let program = shy(9, false, true);
    let mut bag = bag_of(rt.alloc(), &program, &[1, 2])?;
    let part = bag_of(rt.alloc(), &program, &[3, 4, 5])?;
    match bag.merge(part) {
        Ok(()) => return Err(Fail::new("the merge was not refused")),
        Err((_, back)) => assert_eq!(rt; back.len(), 3),
    }
    assert_eq!(rt; bag.len(), 2);
    Ok(())
}
