//! The jobs: what each of them runs once the source was read, and the report that tells of it.
ghost use Rattle.std.specs.Prelude.{◌≢◌, ◌≤◌, [], IfOk, IfErr};
ghost use Rattle.glb_graph.specs.Spots.{spot_children};
ghost use Rattle.glb_graph.specs.declared.dist.Spot.TheVariants.{Root};
ghost use Rattle.glb_queens.specs.Boards.{boards_below};
ghost use Rattle.glb_uts.specs.Binomial.{children as node_children};
ghost use Rattle.glb_words.specs.declared.settings.Driver.TheVariants as driver;
ghost use Rattle.glb_run.specs.Orders.{OrderFits};
ghost use Rattle.glb_run.specs.Jobs.{IsQueensReport, IsUtsReport, IsDistReport, IsTrialReport};
ghost use Rattle.glb_run.specs.Jobs.{IsKnapReport, tree_of, root_of};
ghost use Rattle.glb_run.specs.inner.Stops.{StopsRun, StopsSearch};
ghost use Rattle.glb_run.specs.inner.Tasks.{TaskFits, IsTaskReport, StopsTask, StopsTrial};

use super::drivers::run_calmly;
use super::order::Order;
use super::report_bytes::{dist_bytes, knap_bytes, queens_bytes, trial_bytes, uts_bytes};
use super::trial::{TREE_B0, TREE_M, TREE_Q, trial_graph};
use glb_bags::{ListBag, RangeBag};
use glb_bound::best_one;
use glb_graph::{Dist, Graph};
use glb_knap::Knap;
use glb_laws::Bag;
use glb_queens::Queens;
use glb_tree::RunFault;
use glb_uts::Uts;
use std::alloc::Global;

/// What is left to run once the source was read.
#[derive(Drop)]
pub(crate) enum Task {
    Queens { n: u32 },
    Uts { b0: u32, m: u32, q: u32, seed: u32 },
    Dist { graph: Graph },
    Trial { k: u32 },
    Knap { knap: Knap },
}

fn queens_report<B: Bag<Queens>>(alloc: Global, n: u32, order: &Order) -> Result<Vec<u8>, RunFault>
    requires n { (1 ≤ n) × (n ≤ 16) }
    requires order { OrderFits order.now }
    requires calm { order.now.driver ≢ driver.Threads }
    ensures report { IfOk result (λ bytes. IsQueensReport n order.now bytes.items) }
    ensures stops { IfErr result (StopsRun (boards_below n) [] order.now) }
{
    let queens = Queens::new(n);
    let outcome = match run_calmly::<Queens, B>(alloc, &queens, queens.root(), order) {
        Ok(outcome) => outcome,
        Err(fault) => return Err(fault),
    };
    queens_bytes(alloc, n, order, outcome)
}

/// The tree of the four numbers of `uts`: the children of the root and of other nodes, how often
/// there are any, and the seed.
pub(crate) fn uts_report<B: Bag<Uts>>(
    alloc: Global,
    numbers: (u32, u32, u32, u32),
    order: &Order,
) -> Result<Vec<u8>, RunFault>
    requires numbers { (numbers.0 ≤ 100000) × (numbers.1 ≤ 16) × (numbers.2 ≤ 2147483648) }
    requires order { OrderFits order.now }
    requires calm { order.now.driver ≢ driver.Threads }
    ensures report { IfOk result (λ bytes.
        IsUtsReport (tree_of numbers.0 numbers.1 numbers.2 numbers.3) order.now bytes.items) }
    ensures stops { IfErr result (StopsRun
        (node_children (tree_of numbers.0 numbers.1 numbers.2 numbers.3))
        (root_of numbers.3) order.now) }
{
    let (b0, m, q, seed) = numbers;
    let tree = Uts::new(b0, m, q, seed);
    let outcome = run_calmly::<Uts, B>(alloc, &tree, tree.root(), order)?;
    uts_bytes(alloc, numbers, order, outcome)
}

pub(crate) fn dist_report<'a, B: Bag<Dist<'a>>>(
    alloc: Global,
    graph: &'a Graph,
    order: &Order,
) -> Result<Vec<u8>, RunFault>
    requires order { OrderFits order.now }
    requires calm { order.now.driver ≢ driver.Threads }
    ensures report { IfOk result (λ bytes. IsDistReport graph.now order.now bytes.items) }
    ensures stops { IfErr result (StopsRun (spot_children graph.now) Root order.now) }
{
    graph.known();
    let distances = Dist::new(graph);
    let outcome = match run_calmly::<Dist<'a>, B>(alloc, &distances, distances.root(), order) {
        Ok(outcome) => outcome,
        Err(fault) => return Err(fault),
    };
    dist_bytes(alloc, graph, order, outcome)
}

/// Both runs are done before anything is told of either.
fn trial_report(alloc: Global, k: u32, order: &Order) -> Result<Vec<u8>, RunFault>
    requires order { OrderFits order.now }
    requires calm { order.now.driver ≢ driver.Threads }
    ensures report { IfOk result (λ bytes. IsTrialReport k order.now bytes.items) }
    ensures stops { IfErr result (StopsTrial k order.now) }
{
    let tree = match uts_report::<RangeBag<Uts>>(alloc, (TREE_B0, TREE_M, TREE_Q, k), order) {
        Ok(bytes) => bytes,
        Err(fault) => return Err(fault),
    };
    let graph = trial_graph(alloc, k)?;
    let distances = match dist_report::<RangeBag<Dist>>(alloc, &graph, order) {
        Ok(bytes) => bytes,
        Err(fault) => return Err(fault),
    };
    trial_bytes(alloc, k, &tree, &distances)
}

/// Without threads a search runs on one list.
fn knap_report(alloc: Global, knap: &Knap, order: &Order) -> Result<Vec<u8>, RunFault>
    requires { OrderFits order.now }
    ensures report { IfOk result (λ bytes. IsKnapReport knap.now bytes.items) }
    ensures stops { IfErr result (StopsSearch knap.now order.now) }
{
    match best_one(alloc, knap, knap.root(), order.params.limit) {
        Ok(best) => knap_bytes(alloc, knap, best.worth),
        Err(fault) => Err(fault),
    }
}

/// The report of the task, without threads.
pub(crate) fn report_calm(alloc: Global, task: &Task, order: &Order) -> Result<Vec<u8>, RunFault>
    requires task { TaskFits task.now }
    requires order { OrderFits order.now }
    requires calm { order.now.driver ≢ driver.Threads }
    ensures report { IfOk result (λ bytes. IsTaskReport task.now order.now bytes.items) }
    ensures stops { IfErr result (StopsTask task.now order.now) }
{
    match task {
        Task::Queens { n } => queens_report::<ListBag<Queens>>(alloc, *n, order),
        Task::Uts { b0, m, q, seed } => {
            uts_report::<RangeBag<Uts>>(alloc, (*b0, *m, *q, *seed), order)
        }
        Task::Dist { graph } => dist_report::<RangeBag<Dist>>(alloc, graph, order),
        Task::Trial { k } => trial_report(alloc, *k, order),
        Task::Knap { knap } => knap_report(alloc, knap, order),
    }
}
