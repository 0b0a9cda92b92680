//! Small trees played by turns, over bags of lists.
ghost use Rattle.std.specs.Prelude.{◌≤◌};

use glb_bags::ListBag;
use glb_core::Params;
use glb_laws::{NoMemory, Program, SatSum};
use glb_stats::Report;
use glb_tree::RunFault;
use glb_turns::{Rounds, Schedule, run_turns};
use std::alloc::Global;
use std::test::Fail;

/// Binary trees: an item is a height, and each node is worth 1.
#[derive(Drop)]
struct Halves;

impl Program for Halves {
    ghost use Rattle.std.specs.Prelude.{◌-◌, ◌^◌, ◌<◌, [], ◌∷◌, nat_lt, if◌then◌else◌};
    ghost use Rattle.std.proofs.Common.{arith};
    ghost use Rattle.glb_laws.specs.Bounded.{sat_sum};

    type Item = u64;

    type Value = SatSum;

    ghost children = { λ _ x. (if nat_lt 0 x then (x - 1) ∷ (x - 1) ∷ [] else []) };

    ghost value = { λ _ x. sat_sum 1 };

    ghost value_proper = { λ _ x. Prim.omega arith };

    fn expand(&self, item: &u64, out: &mut Vec<u64>) -> Result<SatSum, NoMemory> {
        let height = *item;
        if height > 0 {
            let old = out.len();
            out.push(height - 1)?;
            match out.push(height - 1) {
                Ok(()) => {}
                Err(_) => {
                    out.truncate(old);
                    return Err(NoMemory);
                }
            }
        }
        Ok(SatSum(1))
    }
}

/// A run over so many places, in which the first and the last one start with a tree of 31 nodes.
fn play(
    alloc: Global,
    places: u32,
    batch: u64,
    tries: u32,
    limit: u64,
) -> Result<Result<Report<SatSum>, RunFault>, Fail>
    requires places { (2 ≤ places) × (places ≤ 64) }
    requires batch { (1 ≤ batch) × (batch ≤ 64) }
    requires tries { tries ≤ 64 }
    requires limit { (1 ≤ limit) × (limit ≤ 1000) }
{
    let mut roots = Vec::new(alloc);
    roots.push(vec![in alloc; 4u64]?)?;
    for _ in 2..places {
        roots.push(Vec::new(alloc))?;
    }
    roots.push(vec![in alloc; 4u64]?)?;
    let params = Params {
        places,
        batch,
        tries,
        base: 2,
        seed: 7,
        limit,
    };
    Ok(run_turns::<Halves, ListBag<Halves>, Rounds>(
        alloc,
        &Halves,
        roots,
        &params,
        &mut Rounds::new(),
    ))
}

#[test]
fn rounds_count_up(rt: HostRuntime) {
    let mut rounds = Rounds::new();
    for want in [0, 1, 2, 3] {
        assert_eq!(rt; rounds.turn(), want);
    }
}

#[test]
fn each_node_is_expanded_once(rt: HostRuntime) -> Result<(), Fail> {
    for (places, batch, tries) in [(2, 1, 0), (2, 64, 1), (3, 2, 1), (5, 1, 3), (64, 2, 2)] {
        match play(rt.alloc(), places, batch, tries, 62)? {
            Ok(report) => {
                assert_eq!(rt; report.items, 62);
                assert_eq!(rt; report.value, SatSum(62));
                assert_eq!(rt; report.counters.len() as u64, u64::from(places));
            }
            Err(_) => return Err(Fail::new("the run ended early")),
        }
    }
    Ok(())
}

#[test]
fn more_items_than_the_limit_end_the_run(rt: HostRuntime) -> Result<(), Fail> {
    for (batch, limit, items) in [(1, 61, 62), (1, 10, 11)] {
        match play(rt.alloc(), 3, batch, 1, limit)? {
            Ok(_) => return Err(Fail::new("the run went on")),
            Err(fault) => assert_eq!(rt; fault, RunFault::TooMany { items }),
        }
    }
    Ok(())
}
