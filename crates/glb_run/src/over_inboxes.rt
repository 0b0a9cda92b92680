//! Runs trees over places on threads that have an inbox each.
ghost use Rattle.std.specs.Prelude.{◌≡◌, ℕ, [], map, get_or, vec_len, IfOk, IfErr};
ghost use Rattle.glb_tree.specs.Runs.{HasCause};
ghost use Rattle.glb_rules.specs.Joins.{join_to};
ghost use Rattle.glb_rules.specs.Setups.{IsWithinLimits};
ghost use Rattle.glb_run.specs.ThreadedRuns.{IsThreadsReport};

use super::beside::Muster;
use super::places::report_of;
use super::played::play_all;
use super::roots::bags_of;
use glb_core::Params;
use glb_cube::cube;
use glb_inbox::{Closed, Post};
use glb_laws::{Bag, Program};
use glb_stats::Report;
use glb_tree::RunFault;
use std::alloc::Global;
use std::sync::Wait;
use std::thread::Threads;

/// Plays the places on threads, over inboxes.
pub(crate) fn run_over_inboxes<
    R: Threads + Wait + Sync,
    P: Program<Item: Send + Sync, Value: Send + Sync> + Send + Sync,
    B: Bag<P> + Send,
>(
    rt: &R,
    alloc: Global,
    program: &P,
    roots: Vec<Vec<P::Item>>,
    params: &Params,
    muster: &Muster,
) -> Result<Report<P::Value>, RunFault>
    requires limits { IsWithinLimits params.now }
    requires lists { vec_len roots ≡ params.now.places }
    ensures ok { IfOk result (λ report.
        IsThreadsReport (P.children program.now) (P.value program.now) P.Value.combine P.Value.unit
        params.now (λ p. get_or (map (λ v. v.items) roots.items) p [])
        report.items report.value report.counters.items) }
    ensures fault { IfErr result
        (HasCause (P.children program.now)
        (join_to params.now.places (λ p. get_or (map (λ v. v.items) roots.items) p []))
        params.now.limit) }
{
    let Ok(lines) = cube(alloc, params.places, params.base) else {
        return Err(RunFault::NoMemory);
    };
    let Ok(bags) = bags_of::<P, B>(alloc, program, roots) else {
        return Err(RunFault::NoMemory);
    };
    let Ok((post, desks)) = Post::new(alloc, program, params, &lines, &bags) else {
        return Err(RunFault::NoMemory);
    };
    let Ok(played) = play_all(rt, alloc, program, params, &lines, bags, desks, muster) else {
        return Err(RunFault::NoMemory);
    };
    let Closed { items, stop, .. } = post.close(rt, played.fabrics);
    report_of::<P>(params, items, stop, played.value, played.counters)
}
