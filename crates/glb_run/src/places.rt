//! Runs trees over places that are played on threads.
ghost use Rattle.std.specs.Prelude.{◌≡◌, ◌≢◌, ◌≤◌, ℕ, List, [], map, get_or, vec_len, IfOk, IfErr};
ghost use Rattle.glb_tree.specs.Runs.{HasCause};
ghost use Rattle.glb_rules.specs.Joins.{join_to};
ghost use Rattle.glb_rules.specs.Setups.{IsWithinLimits};
ghost use Rattle.glb_run.specs.ThreadedRuns.{IsPlayed, IsThreadsReport};
ghost use Rattle.glb_run.specs.inner.Plays.{IsClosed};

use super::beside::Muster;
use super::over_cells::run_over_cells;
use super::over_inboxes::run_over_inboxes;
use glb_core::Params;
use glb_laws::{Bag, Program};
use glb_place::laws::closed_runs_have_an_outcome;
use glb_stats::{Counters, Report};
use glb_tree::RunFault;
use glb_words::FabricKind;
use std::alloc::Global;
use std::sync::Wait;
use std::thread::Threads;

/// The report of a run that has closed with this number of items and this stop code, where the
/// places have this value together.
pub(crate) fn report_of<P: Program>(
    params: &Params,
    items: u64,
    stop: u64,
    value: P::Value,
    counters: Vec<Counters>,
) -> Result<Report<P::Value>, RunFault>
    requires { IsWithinLimits params.now }
    ensures ok { IfOk result (λ report. (program : P) (roots : ℕ → List P.Item)
        → IsClosed (P.children program) (P.value program) P.Value.combine P.Value.unit
        params.now roots items stop value counters.items
        → IsThreadsReport (P.children program) (P.value program) P.Value.combine P.Value.unit
        params.now roots report.items report.value report.counters.items) }
    ensures fault { IfErr result (λ fault. (program : P) (roots : ℕ → List P.Item)
        → IsClosed (P.children program) (P.value program) P.Value.combine P.Value.unit
        params.now roots items stop value counters.items
        → HasCause (P.children program) (join_to params.now.places roots) params.now.limit fault) }
    ensures told { IfOk result (λ report. report
        ≡ record { items = items; value = value; counters = counters }) }
    ensures within { IfOk result (λ report. (stop ≢ 2) × (items ≤ params.now.limit)) }
{
    closed_runs_have_an_outcome::<P>();
    if stop == 2 {
        return Err(RunFault::NoMemory);
    }
    if items > params.limit {
        return Err(RunFault::TooMany { items });
    }
    Ok(Report {
        items,
        value,
        counters,
    })
}

/// Plays the places, each on a thread of its own and with the list of roots that it starts with,
/// until every place has left. Where the machine makes too few threads, which is told after about a
/// second, they go on by turns on the caller's.
pub fn run_places<
    R: Threads + Wait + Sync,
    P: Program<Item: Send + Sync, Value: Send + Sync> + Send + Sync,
    B: Bag<P> + Send,
>(
    rt: &R,
    alloc: Global,
    program: &P,
    roots: Vec<Vec<P::Item>>,
    params: &Params,
    fabric: FabricKind,
) -> Result<Report<P::Value>, RunFault>
    requires limits { IsWithinLimits params.now }
    requires lists { vec_len roots ≡ params.now.places }
    ensures ok { IfOk result (λ report.
        IsPlayed fabric (P.children program.now) (P.value program.now) P.Value.combine P.Value.unit
        params.now (λ p. get_or (map (λ v. v.items) roots.items) p [])
        report.items report.value report.counters.items) }
    ensures fault { IfErr result
        (HasCause (P.children program.now)
        (join_to params.now.places (λ p. get_or (map (λ v. v.items) roots.items) p []))
        params.now.limit) }
{
    let muster = Muster::new(u64::from(params.places));
    match fabric {
        FabricKind::Inbox => {
            run_over_inboxes::<R, P, B>(rt, alloc, program, roots, params, &muster)
        }
        FabricKind::Cells => run_over_cells::<R, P, B>(rt, alloc, program, roots, params, &muster),
    }
}
