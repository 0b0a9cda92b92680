//! The tree of one root, by each driver: whatever the way, what comes back is the number of the
//! tree's nodes and its answer.
ghost use Rattle.std.specs.Prelude.{◌≡◌, ◌≤◌, ℕ, [], ◌∷◌, get_or, length, map, vec_len};
ghost use Rattle.std.specs.Prelude.{IfOk, IfErr};
ghost use Rattle.glb_rules.specs.Setups.{IsWithinLimits};
ghost use Rattle.glb_tree.specs.Runs.{IsOutcome, HasCause};
ghost use Rattle.glb_uses.specs.inner.Starts.{at_first};

use glb_laws::{Bag, NoMemory, Program};
use glb_run::{FabricKind, Params, run_places};
use glb_stats::Report;
use glb_tree::{Outcome, RunFault, run_one};
use glb_turns::{Rounds, run_turns};
use std::alloc::Global;
use std::sync::Wait;
use std::thread::Threads;

/// A list of one.
fn only<T: Drop>(alloc: Global, item: T) -> Result<Vec<T>, NoMemory>
    ensures { IfOk result (λ list. list.items ≡ item ∷ []) }
{
    let mut list = Vec::new(alloc);
    list.push(item)?;
    Ok(list)
}

/// The root at the first of so many places.
fn at_first<T: Drop>(alloc: Global, root: T, places: u32) -> Result<Vec<Vec<T>>, NoMemory>
    requires { 1 ≤ places }
    ensures many { IfOk result (λ lists. vec_len lists ≡ places) }
    ensures lists { IfOk result (λ lists. (p : ℕ) →
        get_or (map (λ v. v.items) lists.items) p [] ≡ at_first root p) }
{
    let mut lists = only(alloc, only(alloc, root)?)?;
    for _ in 1..places {
        lists.push(Vec::new(alloc))?;
    }
    Ok(lists)
}

/// In one bag, on this thread.
pub fn in_one_bag<P: Program, B: Bag<P>>(
    alloc: Global,
    program: &P,
    root: P::Item,
    params: &Params,
) -> Result<Outcome<P::Value>, RunFault>
    requires { IsWithinLimits params.now }
    ensures ok { IfOk result (IsOutcome (P.children program.now) (P.value program.now)
        P.Value.unit P.Value.combine (root ∷ []) params.now.limit) }
    ensures fault { IfErr result
        (HasCause (P.children program.now) (root ∷ []) params.now.limit) }
{
    let Ok(roots) = only(alloc, root) else {
        return Err(RunFault::NoMemory);
    };
    run_one::<P, B>(alloc, program, roots, params.batch, params.limit)
}

/// By places that take turns on this thread, in the same way each time.
pub fn by_turns<P: Program, B: Bag<P>>(
    alloc: Global,
    program: &P,
    root: P::Item,
    params: &Params,
) -> Result<Report<P::Value>, RunFault>
    requires { IsWithinLimits params.now }
    ensures ok { IfOk result (λ report. IsOutcome (P.children program.now) (P.value program.now)
        P.Value.unit P.Value.combine (root ∷ []) params.now.limit
        (record { items = report.items; value = report.value })) }
    ensures many { IfOk result (λ report. length report.counters.items ≡ params.now.places) }
    ensures fault { IfErr result
        (HasCause (P.children program.now) (root ∷ []) params.now.limit) }
{
    let Ok(roots) = at_first(alloc, root, params.places) else {
        return Err(RunFault::NoMemory);
    };
    run_turns::<P, B, Rounds>(alloc, program, roots, params, &mut Rounds::new())
}

/// By places that have a thread each.
pub fn on_threads<
    R: Threads + Wait + Sync,
    P: Program<Item: Send + Sync, Value: Send + Sync> + Send + Sync,
    B: Bag<P> + Send,
>(
    rt: &R,
    alloc: Global,
    program: &P,
    root: P::Item,
    params: &Params,
    fabric: FabricKind,
) -> Result<Report<P::Value>, RunFault>
    requires { IsWithinLimits params.now }
    ensures ok { IfOk result (λ report. IsOutcome (P.children program.now) (P.value program.now)
        P.Value.unit P.Value.combine (root ∷ []) params.now.limit
        (record { items = report.items; value = report.value })) }
    ensures many { IfOk result (λ report. length report.counters.items ≡ params.now.places) }
    ensures fault { IfErr result
        (HasCause (P.children program.now) (root ∷ []) params.now.limit) }
{
    let Ok(roots) = at_first(alloc, root, params.places) else {
        return Err(RunFault::NoMemory);
    };
    run_places::<R, P, B>(rt, alloc, program, roots, params, fabric)
}
