//! The jobs on threads.
ghost use Rattle.std.specs.Prelude.{◌≡◌, ◌≤◌, [], IfOk, IfErr};
ghost use Rattle.glb_graph.specs.Spots.{spot_children};
ghost use Rattle.glb_graph.specs.declared.dist.Spot.TheVariants.{Root};
ghost use Rattle.glb_queens.specs.Boards.{boards_below};
ghost use Rattle.glb_uts.specs.Binomial.{children as node_children};
ghost use Rattle.glb_words.specs.declared.settings.Driver.TheVariants as driver;
ghost use Rattle.glb_run.specs.Orders.{OrderFits};
ghost use Rattle.glb_run.specs.Jobs.{IsQueensReport, IsUtsReport, IsDistReport, IsTrialReport};
ghost use Rattle.glb_run.specs.Jobs.{IsKnapReport, tree_of, root_of};
ghost use Rattle.glb_run.specs.inner.Stops.{StopsRun, StopsSearch};
ghost use Rattle.glb_run.specs.inner.Tasks.{TaskFits, IsTaskReport, StopsTask, StopsTrial};

use super::drivers::run_in_threads;
use super::gate::Gate;
use super::gated::Gated;
use super::job::{Task, report_calm};
use super::order::Order;
use super::report_bytes::{dist_bytes, knap_bytes, queens_bytes, trial_bytes, uts_bytes};
use super::trial::{TREE_B0, TREE_M, TREE_Q, trial_graph};
use glb_bags::{ListBag, RangeBag};
use glb_bound::run_best;
use glb_graph::{Dist, Graph};
use glb_knap::Knap;
use glb_queens::Queens;
use glb_tree::RunFault;
use glb_uts::Uts;
use glb_words::Driver;
use std::alloc::Global;
use std::sync::Wait;
use std::thread::Threads;

fn queens_in_threads<'a, R: Threads + Wait + Sync, G: Gate + Sync>(
    rt: &R,
    alloc: Global,
    n: u32,
    order: &Order,
    gate: &'a G,
) -> Result<Vec<u8>, RunFault>
    requires n { (1 ≤ n) × (n ≤ 16) }
    requires order { OrderFits order.now }
    requires driver { order.now.driver ≡ driver.Threads }
    ensures report { IfOk result (λ bytes. IsQueensReport n order.now bytes.items) }
    ensures stops { IfErr result (StopsRun (boards_below n) [] order.now) }
{
    let queens = Queens::new(n);
    let root = queens.root();
    let gated = Gated::new(queens, gate);
    let outcome = match run_in_threads::<R, Gated<'a, Queens, G>, ListBag<Gated<'a, Queens, G>>>(
        rt, alloc, &gated, root, order,
    ) {
        Ok(outcome) => outcome,
        Err(fault) => return Err(fault),
    };
    queens_bytes(alloc, n, order, outcome)
}

/// The tree of the four numbers of `uts`.
pub(crate) fn uts_in_threads<'a, R: Threads + Wait + Sync, G: Gate + Sync>(
    rt: &R,
    alloc: Global,
    numbers: (u32, u32, u32, u32),
    order: &Order,
    gate: &'a G,
) -> Result<Vec<u8>, RunFault>
    requires numbers { (numbers.0 ≤ 100000) × (numbers.1 ≤ 16) × (numbers.2 ≤ 2147483648) }
    requires order { OrderFits order.now }
    requires driver { order.now.driver ≡ driver.Threads }
    ensures report { IfOk result (λ bytes.
        IsUtsReport (tree_of numbers.0 numbers.1 numbers.2 numbers.3) order.now bytes.items) }
    ensures stops { IfErr result (StopsRun
        (node_children (tree_of numbers.0 numbers.1 numbers.2 numbers.3))
        (root_of numbers.3) order.now) }
{
    let (b0, m, q, seed) = numbers;
    let tree = Uts::new(b0, m, q, seed);
    let root = tree.root();
    let gated = Gated::new(tree, gate);
    let outcome = match run_in_threads::<R, Gated<'a, Uts, G>, RangeBag<Gated<'a, Uts, G>>>(
        rt, alloc, &gated, root, order,
    ) {
        Ok(outcome) => outcome,
        Err(fault) => return Err(fault),
    };
    uts_bytes(alloc, numbers, order, outcome)
}

pub(crate) fn dist_in_threads<'a, R: Threads + Wait + Sync, G: Gate + Sync>(
    rt: &R,
    alloc: Global,
    graph: &'a Graph,
    order: &Order,
    gate: &'a G,
) -> Result<Vec<u8>, RunFault>
    requires order { OrderFits order.now }
    requires driver { order.now.driver ≡ driver.Threads }
    ensures report { IfOk result (λ bytes. IsDistReport graph.now order.now bytes.items) }
    ensures stops { IfErr result (StopsRun (spot_children graph.now) Root order.now) }
{
    graph.known();
    let distances = Dist::new(graph);
    let root = distances.root();
    let gated = Gated::new(distances, gate);
    let outcome = match run_in_threads::<
        R,
        Gated<'a, Dist<'a>, G>,
        RangeBag<Gated<'a, Dist<'a>, G>>,
    >(rt, alloc, &gated, root, order)
    {
        Ok(outcome) => outcome,
        Err(fault) => return Err(fault),
    };
    dist_bytes(alloc, graph, order, outcome)
}

/// Both runs are done before anything is told of either.
fn trial_in_threads<R: Threads + Wait + Sync, G: Gate + Sync>(
    rt: &R,
    alloc: Global,
    k: u32,
    order: &Order,
    gate: &G,
) -> Result<Vec<u8>, RunFault>
    requires order { OrderFits order.now }
    requires driver { order.now.driver ≡ driver.Threads }
    ensures report { IfOk result (λ bytes. IsTrialReport k order.now bytes.items) }
    ensures stops { IfErr result (StopsTrial k order.now) }
{
    let tree = match uts_in_threads(rt, alloc, (TREE_B0, TREE_M, TREE_Q, k), order, gate) {
        Ok(bytes) => bytes,
        Err(fault) => return Err(fault),
    };
    let graph = trial_graph(alloc, k)?;
    let distances = match dist_in_threads(rt, alloc, &graph, order, gate) {
        Ok(bytes) => bytes,
        Err(fault) => return Err(fault),
    };
    trial_bytes(alloc, k, &tree, &distances)
}

/// The places of a search share its best, and pass no gate.
fn knap_in_threads<R: Threads + Sync>(
    rt: &R,
    alloc: Global,
    knap: &Knap,
    order: &Order,
) -> Result<Vec<u8>, RunFault>
    requires { OrderFits order.now }
    ensures report { IfOk result (λ bytes. IsKnapReport knap.now bytes.items) }
    ensures stops { IfErr result (StopsSearch knap.now order.now) }
{
    let params = &order.params;
    match run_best(rt, alloc, knap, knap.root(), params.places, params.limit) {
        Ok(best) => knap_bytes(alloc, knap, best.worth),
        Err(fault) => Err(fault),
    }
}

/// The report of the task, whose trees are run on threads.
fn report_in_threads<R: Threads + Wait + Sync, G: Gate + Sync>(
    rt: &R,
    alloc: Global,
    task: &Task,
    order: &Order,
    gate: &G,
) -> Result<Vec<u8>, RunFault>
    requires task { TaskFits task.now }
    requires order { OrderFits order.now }
    requires driver { order.now.driver ≡ driver.Threads }
    ensures report { IfOk result (λ bytes. IsTaskReport task.now order.now bytes.items) }
    ensures stops { IfErr result (StopsTask task.now order.now) }
{
    match task {
        Task::Queens { n } => queens_in_threads(rt, alloc, *n, order, gate),
        Task::Uts { b0, m, q, seed } => {
            uts_in_threads(rt, alloc, (*b0, *m, *q, *seed), order, gate)
        }
        Task::Dist { graph } => dist_in_threads(rt, alloc, graph, order, gate),
        Task::Trial { k } => trial_in_threads(rt, alloc, *k, order, gate),
        Task::Knap { knap } => knap_in_threads(rt, alloc, knap, order),
    }
}

/// The report of the task, by the order's driver. On threads the gate is passed at each expansion.
pub(crate) fn report<R: Threads + Wait + Sync, G: Gate + Sync>(
    rt: &R,
    alloc: Global,
    task: &Task,
    order: &Order,
    gate: &G,
) -> Result<Vec<u8>, RunFault>
    requires task { TaskFits task.now }
    requires order { OrderFits order.now }
    ensures report { IfOk result (λ bytes. IsTaskReport task.now order.now bytes.items) }
    ensures stops { IfErr result (StopsTask task.now order.now) }
{
    match order.driver {
        Driver::Threads => report_in_threads(rt, alloc, task, order, gate),
        _ => report_calm(alloc, task, order),
    }
}
