//! Each example run in one bag, by turns, and on threads over both fabrics: the answer is the same.
use super::greatest_first::{GreatestFirst, MostDivisors, Span};
use super::stack_bag::StackBag;
use super::subset_sums::SubsetSums;
use super::ways::{by_turns, in_one_bag, on_threads};
use glb_bags::ListBag;
use glb_laws::{Bag, Program, SatSum};
use glb_run::{FabricKind, Params};
use glb_tree::RunFault;
use std::alloc::Global;
use std::process::Abort;
use std::sync::Wait;
use std::test::Fail;
use std::thread::Threads;

/// The limit is the size of the largest tree of the rows below.
const PARAMS: Params = Params {
    places: 3,
    batch: 2,
    tries: 1,
    base: 2,
    seed: 7,
    limit: 208,
};

/// Runs the root's tree in each way, and looks whether it gives so many items and this value.
fn each_way_gives<
    R: Threads + Wait + Sync + Abort,
    P: Program<Item: Copy + Send + Sync, Value: Send + Sync> + Send + Sync,
    B: Bag<P> + Send,
>(
    rt: &R,
    alloc: Global,
    program: &P,
    root: P::Item,
    items: u64,
    value: P::Value,
) -> Result<(), RunFault> {
    let outcome = in_one_bag::<P, B>(alloc, program, root, &PARAMS)?;
    assert_eq!(rt; outcome.items, items);
    assert!(rt; outcome.value == value);
    let report = by_turns::<P, B>(alloc, program, root, &PARAMS)?;
    assert_eq!(rt; report.items, items);
    assert!(rt; report.value == value);
    for fabric in [FabricKind::Inbox, FabricKind::Cells] {
        let report = on_threads::<R, P, B>(rt, alloc, program, root, &PARAMS, fabric)?;
        assert_eq!(rt; report.items, items);
        assert!(rt; report.value == value);
    }
    Ok(())
}

/// Weights and a target, how many nodes the tree has, and how many choices add up to the target.
const SUMS: [(&[u64], u64, u64, u64); 6] = [
    (&[], 0, 1, 1),
    (&[], 1, 1, 0),
    (&[1, 2, 3, 4, 5], 5, 33, 3),
    (&[3, 34, 4, 12, 5, 2], 9, 32, 2),
    (&[2, 2, 2, 2], 4, 25, 6),
    (&[7, 1, 1, 9, 4, 4, 2, 0], 11, 208, 14),
];

/// Counts the choices of each row in bags of one kind.
fn sums_are_counted<R: Threads + Wait + Sync + Abort, B: Bag<SubsetSums> + Send>(
    rt: &R,
    alloc: Global,
) -> Result<(), Fail> {
    for (weights, target, items, choices) in SUMS {
        let program = SubsetSums {
            weights: Vec::from_slice(alloc, weights)?,
        };
        let root = program.root(target);
        let value = SatSum(choices);
        match each_way_gives::<R, SubsetSums, B>(rt, alloc, &program, root, items, value) {
            Ok(()) => {}
            Err(_) => return Err(Fail::new("a run ended early")),
        }
    }
    Ok(())
}

#[test]
fn choices_are_counted_in_lists(rt: HostRuntime) -> Result<(), Fail> {
    sums_are_counted::<_, ListBag<SubsetSums>>(&rt, rt.alloc())
}

#[test]
fn choices_are_counted_in_stacks(rt: HostRuntime) -> Result<(), Fail> {
    sums_are_counted::<_, StackBag<SubsetSums>>(&rt, rt.alloc())
}

/// Of the numbers below 101, 60, 72, 84, 90 and 96 have twelve divisors, and none has more.
#[test]
fn the_first_number_with_twelve_divisors_is_found(rt: HostRuntime) -> Result<(), Fail> {
    let found = |greatest, first| GreatestFirst::Found { greatest, first };
    for (from, to, items, value) in [
        (1, 101, 199, found(12, 60)),
        (61, 101, 79, found(12, 72)),
        (0, 3, 5, found(2, 2)),
        (7, 8, 1, found(2, 7)),
        (1, 1, 1, GreatestFirst::Nothing),
    ] {
        match each_way_gives::<_, MostDivisors, ListBag<MostDivisors>>(
            &rt,
            rt.alloc(),
            &MostDivisors,
            Span { from, to },
            items,
            value,
        ) {
            Ok(()) => {}
            Err(_) => return Err(Fail::new("a run ended early")),
        }
    }
    Ok(())
}
