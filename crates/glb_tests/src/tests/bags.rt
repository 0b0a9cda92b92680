//! Runs of whole trees in one bag.
ghost use Rattle.std.specs.Prelude.{◌≤◌};

use glb_bags::ListBag;
use glb_laws::{NoMemory, Program, SatSum};
use glb_queens::Queens;
use glb_tree::{Outcome, RunFault, run_one};
use std::alloc::Global;
use std::test::Fail;

/// Binary trees: an item is a height and, below 100, the worth of each node.
#[derive(Drop)]
struct Trees;

impl Program for Trees {
    ghost use Rattle.std.specs.Prelude.{◌-◌, ◌%◌, [], ◌∷◌, nat_lt, if◌then◌else◌};
    ghost use Rattle.std.proofs.Common.{arith};
    ghost use Rattle.glb_laws.specs.Bounded.{sat_sum};

    type Item = (u64, u64);

    type Value = SatSum;

    ghost children = { λ _ x. (if nat_lt 0 x.0
        then record { 0 = x.0 - 1; 1 = x.1 } ∷ record { 0 = x.0 - 1; 1 = x.1 } ∷ [] else []) };

    ghost value = { λ _ x. sat_sum (x.1 % 100) };

    ghost value_proper = { λ _ x. Prim.omega arith };

    fn expand(&self, item: &(u64, u64), out: &mut Vec<(u64, u64)>) -> Result<SatSum, NoMemory> {
        let (height, worth) = *item;
        if height > 0 {
            let old = out.len();
            out.push((height - 1, worth))?;
            match out.push((height - 1, worth)) {
                Ok(()) => {}
                Err(_) => {
                    out.truncate(old);
                    return Err(NoMemory);
                }
            }
        }
        Ok(SatSum(worth % 100))
    }
}

/// The outcome of a run of one tree of 15 nodes, each worth 2, or of no tree.
fn run(
    alloc: Global,
    trees: usize,
    n: u64,
    limit: u64,
) -> Result<Result<Outcome<SatSum>, RunFault>, Fail>
    requires few { trees ≤ 2 }
    requires batch { (1 ≤ n) × (n ≤ 65536) }
    requires limited { (1 ≤ limit) × (limit ≤ 1000) }
{
    let roots = vec![in alloc; (3, 2); trees]?;
    Ok(run_one::<Trees, ListBag<Trees>>(alloc, &Trees, roots, n, limit))
}

#[test]
fn whole_trees_are_counted_up_to_the_limit(rt: HostRuntime) -> Result<(), Fail> {
    let alloc = rt.alloc();
    assert_eq!(rt;
        run(alloc, 0, 1, 1)?,
        Ok(Outcome {
            items: 0,
            value: SatSum(0)
        })
    );
    assert_eq!(rt;
        run(alloc, 1, 4, 15)?,
        Ok(Outcome {
            items: 15,
            value: SatSum(30)
        })
    );
    assert_eq!(rt;
        run(alloc, 2, 64, 30)?,
        Ok(Outcome {
            items: 30,
            value: SatSum(60)
        })
    );
    assert_eq!(rt; run(alloc, 1, 4, 14)?, Err(RunFault::TooMany { items: 15 }));
    assert_eq!(rt; run(alloc, 1, 4, 5)?, Err(RunFault::TooMany { items: 8 }));
    Ok(())
}

#[test]
fn boards_of_four_queens_are_17(rt: HostRuntime) -> Result<(), Fail> {
    let alloc = rt.alloc();
    let queens = Queens::new(4);
    let none = run_one::<Queens, ListBag<Queens>>(alloc, &queens, Vec::new(alloc), 1, 1);
    assert_eq!(rt;
        none,
        Ok(Outcome {
            items: 0,
            value: SatSum(0)
        })
    );
    let roots = vec![in alloc; queens.root()]?;
    let large = run_one::<Queens, ListBag<Queens>>(alloc, &queens, roots, 64, 16);
    assert_eq!(rt; large, Err(RunFault::TooMany { items: 17 }));
    Ok(())
}
