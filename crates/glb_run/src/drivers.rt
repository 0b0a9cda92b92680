//! Runs the trees of an order's roots by the driver that the order names.
ghost use Rattle.std.specs.Prelude.{◌≡◌, ◌≢◌, ◌≤◌, length, IfOk, IfErr};
ghost use Rattle.glb_run.specs.Orders.{OrderFits};
ghost use Rattle.glb_words.specs.declared.settings.Driver.TheVariants as driver;
ghost use Rattle.glb_run.specs.Runs.{lone_counters};
ghost use Rattle.glb_run.specs.inner.Answers.{IsAnswer};
ghost use Rattle.glb_run.specs.inner.Stops.{StopsRun};

use super::order::Order;
use super::places::run_places;
use super::roots::{first_roots, joined_roots, numbers_of, only};
use glb_laws::{Bag, Program};
use glb_stats::{Counters, Report};
use glb_tree::{RunFault, run_one};
use glb_turns::{Rounds, run_turns};
use glb_words::Driver;
use std::alloc::Global;
use std::sync::Wait;
use std::thread::Threads;

/// What a driver answers: the report of its run, and how many roots each of its places had.
#[derive(Drop)]
pub(crate) struct Answer<V> {
    pub(crate) report: Report<V>,
    pub(crate) roots: Vec<u32>,
}

/// The counters of the one place of a run in one bag, which was awake if it had roots.
fn lone_counters(awake: bool, items: u64) -> Counters
    ensures { result ≡ lone_counters awake items }
{
    Counters {
        items,
        sleeps: if awake { 1 } else { 0 },
        ..Counters::ZERO
    }
}

/// Runs the trees of all roots in one bag.
fn run_in_one_bag<P: Program, B: Bag<P>>(
    alloc: Global,
    program: &P,
    root: P::Item,
    order: &Order,
) -> Result<Answer<P::Value>, RunFault>
    requires order { OrderFits order.now }
    requires few { length (P.children program.now root) ≤ 100000 }
    requires driver { order.now.driver ≡ driver.One }
    ensures run { IfOk result (λ r. IsAnswer (P.children program.now) (P.value program.now)
        P.Value.combine P.Value.unit root order.now r.report.items r.report.value
        r.report.counters.items r.roots.items) }
    ensures stops { IfErr result (StopsRun (P.children program.now) root order.now) }
{
    let roots = joined_roots(alloc, program, root, order)?;
    let numbers = only(alloc, roots.len() as u32)?;
    let awake = !roots.is_empty();
    let params = &order.params;
    let outcome = match run_one::<P, B>(alloc, program, roots, params.batch, params.limit) {
        Ok(outcome) => outcome,
        Err(fault) => return Err(fault),
    };
    let counters = only(alloc, lone_counters(awake, outcome.items))?;
    let report = Report {
        items: outcome.items,
        value: outcome.value,
        counters,
    };
    Ok(Answer {
        report,
        roots: numbers,
    })
}

/// Runs the trees over the places of the order, one turn after the other.
fn run_by_turns<P: Program, B: Bag<P>>(
    alloc: Global,
    program: &P,
    root: P::Item,
    order: &Order,
) -> Result<Answer<P::Value>, RunFault>
    requires order { OrderFits order.now }
    requires few { length (P.children program.now root) ≤ 100000 }
    requires driver { order.now.driver ≡ driver.Turns }
    ensures run { IfOk result (λ r. IsAnswer (P.children program.now) (P.value program.now)
        P.Value.combine P.Value.unit root order.now r.report.items r.report.value
        r.report.counters.items r.roots.items) }
    ensures stops { IfErr result (StopsRun (P.children program.now) root order.now) }
{
    let lists = first_roots(alloc, program, root, order)?;
    let roots = numbers_of(alloc, &lists)?;
    let mut rounds = Rounds::new();
    match run_turns::<P, B, Rounds>(alloc, program, lists, &order.params, &mut rounds) {
        Ok(report) => Ok(Answer { report, roots }),
        Err(fault) => Err(fault),
    }
}

/// Runs the trees over the places of the order, which are played on threads.
pub(crate) fn run_in_threads<
    R: Threads + Wait + Sync,
    P: Program<Item: Send + Sync, Value: Send + Sync> + Send + Sync,
    B: Bag<P> + Send,
>(
    rt: &R,
    alloc: Global,
    program: &P,
    root: P::Item,
    order: &Order,
) -> Result<Answer<P::Value>, RunFault>
    requires order { OrderFits order.now }
    requires few { length (P.children program.now root) ≤ 100000 }
    requires driver { order.now.driver ≡ driver.Threads }
    ensures run { IfOk result (λ r. IsAnswer (P.children program.now) (P.value program.now)
        P.Value.combine P.Value.unit root order.now r.report.items r.report.value
        r.report.counters.items r.roots.items) }
    ensures stops { IfErr result (StopsRun (P.children program.now) root order.now) }
{
    let lists = first_roots(alloc, program, root, order)?;
    let roots = numbers_of(alloc, &lists)?;
    match run_places::<R, P, B>(rt, alloc, program, lists, &order.params, order.fabric) {
        Ok(played) => Ok(Answer {
            report: played,
            roots,
        }),
        Err(fault) => Err(fault),
    }
}

/// Runs the trees by the order's driver, which is not that of threads.
pub(crate) fn run_calmly<P: Program, B: Bag<P>>(
    alloc: Global,
    program: &P,
    root: P::Item,
    order: &Order,
) -> Result<Answer<P::Value>, RunFault>
    requires order { OrderFits order.now }
    requires few { length (P.children program.now root) ≤ 100000 }
    requires calm { order.now.driver ≢ driver.Threads }
    ensures run { IfOk result (λ r. IsAnswer (P.children program.now) (P.value program.now)
        P.Value.combine P.Value.unit root order.now r.report.items r.report.value
        r.report.counters.items r.roots.items) }
    ensures stops { IfErr result (StopsRun (P.children program.now) root order.now) }
{
    match order.driver {
        Driver::One => run_in_one_bag::<P, B>(alloc, program, root, order),
        Driver::Turns => run_by_turns::<P, B>(alloc, program, root, order),
        Driver::Threads => unreachable!(),
    }
}
