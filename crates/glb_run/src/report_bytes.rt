//! The bytes of a job's report, out of what its run answers.
ghost use Rattle.std.specs.Prelude.{◌≡◌, ◌++◌, [], length, IfOk, IfErr};
ghost use Rattle.glb_laws.specs.Tallies.{no_tallies, join_tallies};
ghost use Rattle.glb_graph.specs.Spots.{spot_children, spot_value};
ghost use Rattle.glb_graph.specs.declared.dist.Spot.TheVariants.{Root};
ghost use Rattle.glb_queens.specs.Boards.{boards_below, value_of as board_value};
ghost use Rattle.glb_uts.specs.Binomial.{children as node_children, value_of as node_value};
ghost use Rattle.glb_run.specs.Reports.{trial_line, knap_text};
ghost use Rattle.glb_run.specs.Jobs.{IsQueensReport, IsUtsReport, IsDistReport};
ghost use Rattle.glb_run.specs.Jobs.{no_sum, add_sums, tree_of, root_of};
ghost use Rattle.glb_run.specs.inner.Answers.{IsAnswer};

use super::drivers::Answer;
use super::order::Order;
use super::report_text::{
    dist_lines, knap_lines, queens_lines, trial_line, uts_lines, with_counters,
};
use glb_graph::Graph;
use glb_knap::Knap;
use glb_laws::{SatSum, Tallies};
use glb_tree::RunFault;
use std::alloc::Global;

pub(crate) fn queens_bytes(
    alloc: Global,
    n: u32,
    order: &Order,
    run: Answer<SatSum>,
) -> Result<Vec<u8>, RunFault>
    requires { IsAnswer (boards_below n) (board_value n) add_sums no_sum [] order.now
        run.report.items run.report.value run.report.counters.items run.roots.items }
    ensures report { IfOk result (λ bytes. IsQueensReport n order.now bytes.items) }
    ensures fault { IfErr result (λ e. e ≡ RunFault.NoMemory) }
{
    let report = &run.report;
    let roots = run.roots.as_slice();
    let counters = report.counters.as_slice();
    let lines = queens_lines(alloc, n, order.spread, roots, report.items, report.value);
    with_counters(lines, order, roots, counters)
}

pub(crate) fn uts_bytes(
    alloc: Global,
    numbers: (u32, u32, u32, u32),
    order: &Order,
    run: Answer<Tallies>,
) -> Result<Vec<u8>, RunFault>
    requires { let tree = tree_of numbers.0 numbers.1 numbers.2 numbers.3 in
        IsAnswer (node_children tree) (node_value tree) join_tallies no_tallies
        (root_of numbers.3) order.now run.report.items run.report.value
        run.report.counters.items run.roots.items }
    ensures report { IfOk result (λ bytes.
        IsUtsReport (tree_of numbers.0 numbers.1 numbers.2 numbers.3) order.now bytes.items) }
    ensures fault { IfErr result (λ e. e ≡ RunFault.NoMemory) }
{
    let report = &run.report;
    let roots = run.roots.as_slice();
    let counters = report.counters.as_slice();
    let lines = uts_lines(
        alloc,
        numbers,
        order.spread,
        roots,
        report.items,
        report.value,
    );
    with_counters(lines, order, roots, counters)
}

pub(crate) fn dist_bytes(
    alloc: Global,
    graph: &Graph,
    order: &Order,
    run: Answer<Tallies>,
) -> Result<Vec<u8>, RunFault>
    requires { IsAnswer (spot_children graph.now) (spot_value graph.now) join_tallies no_tallies
        Root order.now run.report.items run.report.value run.report.counters.items
        run.roots.items }
    ensures report { IfOk result (λ bytes. IsDistReport graph.now order.now bytes.items) }
    ensures fault { IfErr result (λ e. e ≡ RunFault.NoMemory) }
{
    let size = (graph.vertices(), graph.edges());
    let report = &run.report;
    let roots = run.roots.as_slice();
    let counters = report.counters.as_slice();
    let lines = dist_lines(alloc, size, order.spread, roots, report.items, report.value);
    with_counters(lines, order, roots, counters)
}

/// The line of a trial, and the reports of its tree and its graph behind it.
pub(crate) fn trial_bytes(
    alloc: Global,
    k: u32,
    tree: &[u8],
    graph: &[u8],
) -> Result<Vec<u8>, RunFault>
    ensures bytes { IfOk result (λ bytes.
        bytes.items ≡ trial_line k ++ tree.now ++ graph.now) }
    ensures fault { IfErr result (λ e. e ≡ RunFault.NoMemory) }
{
    let Ok(line) = trial_line(alloc, k) else {
        return Err(RunFault::NoMemory);
    };
    let mut bytes = line.into_bytes();
    if bytes.extend_from_slice(tree).is_err() || bytes.extend_from_slice(graph).is_err() {
        return Err(RunFault::NoMemory);
    }
    Ok(bytes)
}

/// The best worth of a knapsack.
pub(crate) fn knap_bytes(alloc: Global, knap: &Knap, worth: u64) -> Result<Vec<u8>, RunFault>
    ensures bytes { IfOk result (λ bytes.
        bytes.items ≡ knap_text (length knap.now.lines) knap.now.capacity worth) }
    ensures fault { IfErr result (λ e. e ≡ RunFault.NoMemory) }
{
    match knap_lines(alloc, knap.lines(), knap.capacity(), worth) {
        Ok(lines) => Ok(lines.into_bytes()),
        Err(_) => Err(RunFault::NoMemory),
    }
}
