//! Small knapsacks, their packs, and texts that are none.
ghost use Rattle.std.specs.Prelude.{◌≤◌};

use super::{Pack, read_knap};
use glb_bound::{Best, Search, best_one, run_best};
use glb_graph::GraphFault;
use glb_laws::{Greatest, NoMemory, Program};
use glb_tree::RunFault;
use std::alloc::Global;
use std::thread::Threads;

/// What the search of a text's knapsack answers, or the fault of the text.
fn best_of(
    alloc: Global,
    bytes: &[u8],
    limit: u64,
) -> Result<Result<Best<Pack>, RunFault>, GraphFault>
    requires { (1 ≤ limit) × (limit ≤ 1000) }
{
    let knap = read_knap(alloc, bytes)?;
    let root = knap.root();
    Ok(best_one(alloc, &knap, root, limit))
}

/// The same on threads.
fn shared_best_of<R: Threads + Sync>(
    rt: &R,
    alloc: Global,
    bytes: &[u8],
    limit: u64,
) -> Result<Result<Best<Pack>, RunFault>, GraphFault>
    requires { (1 ≤ limit) × (limit ≤ 1000) }
{
    let knap = read_knap(alloc, bytes)?;
    let root = knap.root();
    Ok(run_best(rt, alloc, &knap, root, 2, limit))
}

#[test]
fn the_best_of_three_lines_takes_the_two_lighter_ones(rt: HostRuntime) {
    let found = best_of(rt.alloc(), b"3 4\n3 3\n2 2\n2 2\n", 1000);
    let pack = Pack {
        next: 3,
        weight: 4,
        value: 4,
        taken: 6,
    };
    assert_eq!(rt;
        found,
        Ok(Ok(Best {
            worth: 4,
            item: pack
        }))
    );
}

#[test]
fn nothing_is_taken_where_nothing_fits(rt: HostRuntime) {
    let alloc = rt.alloc();
    let empty = Pack {
        next: 0,
        weight: 0,
        value: 0,
        taken: 0,
    };
    assert_eq!(rt;
        best_of(alloc, b"2 1\n2 5\n3 6\n", 1000),
        Ok(Ok(Best {
            worth: 0,
            item: empty
        }))
    );
    assert_eq!(rt;
        best_of(alloc, b"0 0", 1),
        Ok(Ok(Best {
            worth: 0,
            item: empty
        }))
    );
}

#[test]
fn a_search_that_passes_its_limit_says_so(rt: HostRuntime) {
    let found = best_of(rt.alloc(), b"3 4\n3 3\n2 2\n2 2\n", 1);
    assert_eq!(rt; found, Ok(Err(RunFault::TooMany { items: 2 })));
}

#[test]
fn places_on_threads_search_the_same_packs(rt: HostRuntime) {
    let alloc = rt.alloc();
    let three = b"3 4\n3 3\n2 2\n2 2\n";
    let pack = Pack {
        next: 3,
        weight: 4,
        value: 4,
        taken: 6,
    };
    assert_eq!(rt;
        shared_best_of(&rt, alloc, three, 1000),
        Ok(Ok(Best {
            worth: 4,
            item: pack
        }))
    );
    assert_eq!(rt;
        shared_best_of(&rt, alloc, three, 1),
        Ok(Err(RunFault::TooMany { items: 2 }))
    );
    let empty = Pack {
        next: 0,
        weight: 0,
        value: 0,
        taken: 0,
    };
    assert_eq!(rt;
        shared_best_of(&rt, alloc, b"0 0", 1),
        Ok(Ok(Best {
            worth: 0,
            item: empty
        }))
    );
}

#[test]
fn faults_are_told_with_their_lines(rt: HostRuntime) {
    let alloc = rt.alloc();
    assert_eq!(rt; best_of(alloc, b"", 1), Err(GraphFault::BadEnd { line: 1 }));
    assert_eq!(rt;
        best_of(alloc, b"1", 1),
        Err(GraphFault::BadLine { line: 1 })
    );
    assert_eq!(rt;
        best_of(alloc, b"65 0\n", 1),
        Err(GraphFault::TooLarge { line: 1 })
    );
    assert_eq!(rt;
        best_of(alloc, b"1 1\n0 5\n", 1),
        Err(GraphFault::BadLine { line: 2 })
    );
    assert_eq!(rt;
        best_of(alloc, b"1 1\n", 1),
        Err(GraphFault::BadEnd { line: 2 })
    );
    assert_eq!(rt;
        best_of(alloc, b"0 1\n\n", 1),
        Err(GraphFault::BadEnd { line: 2 })
    );
}

/// The children, the value and the cap of a pack, through the bound of a search.
fn look<S: Search>(
    search: &S,
    item: &S::Item,
    below: &mut Vec<S::Item>,
) -> Result<(Greatest, u64), NoMemory> {
    let value = search.expand(item, below)?;
    Ok((value, search.cap(item)))
}

#[test]
fn a_pack_has_a_child_without_the_next_line_and_one_with_it(rt: HostRuntime) {
    let alloc = rt.alloc();
    let Ok(knap) = read_knap(alloc, b"2 5\n3 4\n4 9\n") else {
        panic!(rt; "this is knapsack text");
    };
    assert_eq!(rt; knap.lines(), 2);
    assert_eq!(rt; knap.capacity(), 5);
    let mut below = Vec::new(alloc);
    // The second line comes first, and a third of the first line's value goes with it.
    assert_eq!(rt;
        look(&knap, &knap.root(), &mut below),
        Ok((Greatest(0), 10))
    );
    let without = Pack {
        next: 1,
        weight: 0,
        value: 0,
        taken: 0,
    };
    let with = Pack {
        next: 1,
        weight: 4,
        value: 9,
        taken: 2,
    };
    assert_eq!(rt; below.as_slice(), [without, with].as_slice());
}
