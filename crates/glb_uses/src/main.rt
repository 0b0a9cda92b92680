//! Programs, values and bags of one's own over the library. Each file is one example, and `main`
//! runs the first of them on threads: a copy of this folder is a start.
#![tactic(auto)]

ghost use Rattle.std.specs.Prelude.{◌≡◌, [], ◌∷◌, ◌^◌, IfOk, IfErr};
ghost use Rattle.glb_tree.specs.Runs.{HasCause};
ghost use Rattle.glb_uses.specs.SubsetSums.{further, undecided, sums};

pub mod greatest_first;
pub mod stack_bag;
pub mod subset_sums;
#[cfg(test)]
mod tests;
pub mod ways;

use glb_bags::ListBag;
use glb_laws::SatSum;
use glb_run::{FabricKind, Params};
use glb_stats::Report;
use glb_tree::RunFault;
use std::alloc::Global;
use std::io;
use std::process::ExitCode;
use std::sync::Wait;
use std::thread::Threads;
use subset_sums::SubsetSums;
use ways::on_threads;

/// Four threads, each of which expands 64 items before it looks at its requests again. A tree of
/// 20 weights has less than 2^21 nodes; a program of yours wants a limit of its own.
const PARAMS: Params = Params {
    places: 4,
    batch: 64,
    tries: 1,
    base: 2,
    seed: 0,
    limit: 1 << 21,
};

/// Counts on threads the choices of the weights that add up to the target.
fn count_choices<R: Threads + Wait + Sync>(
    rt: &R,
    alloc: Global,
    weights: Vec<u64>,
    target: u64,
) -> Result<Report<SatSum>, RunFault>
    ensures ok { IfOk result (λ report. report.value ≡ sums weights.items target) }
    ensures fault { IfErr result
        (HasCause (further weights.items) (undecided target ∷ []) (2 ^ 21)) }
{
    let program = SubsetSums { weights };
    let root = program.root(target);
    on_threads::<R, SubsetSums, ListBag<SubsetSums>>(
        rt,
        alloc,
        &program,
        root,
        &PARAMS,
        FabricKind::Cells,
    )
}

fn main(rt: HostRuntime) -> io::Result<ExitCode> {
    let alloc = rt.alloc();
    let mut weights = Vec::new(alloc);
    for weight in 1..=20 {
        weights.push(weight)?;
    }
    match count_choices(&rt, alloc, weights, 105) {
        Ok(report) => {
            println!(rt; "items {}", report.items)?;
            println!(rt; "choices {}", report.value.0)?;
            println!(rt; "places {}", report.counters.len())?;
            Ok(ExitCode::SUCCESS)
        }
        Err(_) => {
            println!(rt; "the run ended early")?;
            Ok(ExitCode::FAILURE)
        }
    }
}
