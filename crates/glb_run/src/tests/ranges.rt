//! Jobs on list bags and on range bags, which tell the same.
ghost use Rattle.std.specs.Prelude.{◌≡◌, ◌≤◌, IfOk};
ghost use Rattle.glb_words.specs.declared.settings.Driver.TheVariants as driver;
ghost use Rattle.glb_run.specs.Orders.{OrderFits};

use crate::drivers::run_in_threads;
use crate::job::{dist_report, uts_report};
use crate::report_bytes::{dist_bytes, uts_bytes};
use crate::threaded::{dist_in_threads, uts_in_threads};
use crate::trial::{TREE_B0, TREE_M, TREE_Q, trial_graph};
use crate::{Driver, Job, NoGate, Order, read_words};
use glb_bags::{ListBag, RangeBag};
use glb_graph::{Dist, Graph, read_graph};
use glb_tree::RunFault;
use glb_uts::Uts;
use std::alloc::Global;
use std::process::Abort;
use std::sync::Wait;
use std::test::Fail;
use std::thread::Threads;

/// The order that the words of a line give, which single spaces part.
fn order_of<R: Abort>(rt: &R, alloc: Global, line: &str) -> Result<Order, Fail>
    ensures { IfOk result OrderFits }
{
    let mut words = Vec::new(alloc);
    for word in line.split(' ') {
        words.push(String::from_str(alloc, word)?)?;
    }
    assert!(rt; words.len() < 100);
    match read_words(alloc, &words, false) {
        Ok(order) => Ok(order),
        Err(_) => Err(Fail::new("the words are refused")),
    }
}

/// Both kinds of bags gave the same bytes, or the same refusal.
fn are_alike<R: Abort>(
    rt: &R,
    line: &str,
    lists: Result<Vec<u8>, RunFault>,
    ranges: Result<Vec<u8>, RunFault>,
) {
    match (lists, ranges) {
        (Ok(lists), Ok(ranges)) => {
            assert_eq!(rt; ranges.as_slice(), lists.as_slice(), "{line}");
        }
        (Err(lists), Err(ranges)) => assert_eq!(rt; ranges, lists, "{line}"),
        _ => assert!(rt; false, "{line}"),
    }
}

/// The tree of the four numbers on threads, in list bags.
fn tree_in_lists<R: Threads + Wait + Sync>(
    rt: &R,
    alloc: Global,
    numbers: (u32, u32, u32, u32),
    order: &Order,
) -> Result<Vec<u8>, RunFault>
    requires numbers { (numbers.0 ≤ 100000) × (numbers.1 ≤ 16) × (numbers.2 ≤ 2147483648) }
    requires order { OrderFits order.now }
    requires driver { order.now.driver ≡ driver.Threads }
{
    let (b0, m, q, seed) = numbers;
    let tree = Uts::new(b0, m, q, seed);
    let root = tree.root();
    match run_in_threads::<R, Uts, ListBag<Uts>>(rt, alloc, &tree, root, order) {
        Ok(outcome) => uts_bytes(alloc, numbers, order, outcome),
        Err(fault) => Err(fault),
    }
}

/// The graph on threads, in list bags.
fn graph_in_lists<R: Threads + Wait + Sync>(
    rt: &R,
    alloc: Global,
    graph: &Graph,
    order: &Order,
) -> Result<Vec<u8>, RunFault>
    requires order { OrderFits order.now }
    requires driver { order.now.driver ≡ driver.Threads }
{
    graph.known();
    let distances = Dist::new(graph);
    let root = distances.root();
    match run_in_threads::<R, Dist, ListBag<Dist>>(rt, alloc, &distances, root, order) {
        Ok(outcome) => dist_bytes(alloc, graph, order, outcome),
        Err(fault) => Err(fault),
    }
}

/// The tree of the line is told alike from bags of both kinds.
fn compare_trees<R: Threads + Wait + Abort + Sync>(
    rt: &R,
    alloc: Global,
    line: &str,
) -> Result<(), Fail> {
    let order = order_of(rt, alloc, line)?;
    let Job::Uts { b0, m, q, seed } = order.job else {
        return Err(Fail::new("the line names no tree"));
    };
    let numbers = (b0, m, q, seed);
    match order.driver {
        Driver::Threads => {
            let lists = tree_in_lists(rt, alloc, numbers, &order);
            let ranges = uts_in_threads(rt, alloc, numbers, &order, &NoGate);
            are_alike(rt, line, lists, ranges);
        }
        _ => {
            let lists = uts_report::<ListBag<Uts>>(alloc, numbers, &order);
            let ranges = uts_report::<RangeBag<Uts>>(alloc, numbers, &order);
            are_alike(rt, line, lists, ranges);
        }
    }
    Ok(())
}

/// The graph is told alike from bags of both kinds, by the order of the line.
fn compare_graphs<R: Threads + Wait + Abort + Sync>(
    rt: &R,
    alloc: Global,
    graph: &Graph,
    line: &str,
) -> Result<(), Fail> {
    let order = order_of(rt, alloc, line)?;
    match order.driver {
        Driver::Threads => {
            let lists = graph_in_lists(rt, alloc, graph, &order);
            let ranges = dist_in_threads(rt, alloc, graph, &order, &NoGate);
            are_alike(rt, line, lists, ranges);
        }
        _ => {
            let lists = dist_report::<ListBag<Dist>>(alloc, graph, &order);
            let ranges = dist_report::<RangeBag<Dist>>(alloc, graph, &order);
            are_alike(rt, line, lists, ranges);
        }
    }
    Ok(())
}

/// Drivers. Where there is one place, it counts alike whatever its bag.
const DRIVERS: [&str; 8] = [
    "",
    " --stats",
    " --batch 1 --stats",
    " --driver turns --places 1 --stats",
    " --driver turns --places 3 --batch 2",
    " --driver threads --places 1 --stats",
    " --driver threads --places 4 --batch 3",
    " --driver threads --fabric inbox --places 3",
];

/// Trees, the last two of which pass their limits.
const TREES: [&str; 5] = [
    "uts 0 8 0 42",
    "uts 3 8 0 42",
    "uts 40 16 120000000 3",
    "uts 3 8 0 42 --limit 2",
    "uts 1 1 2147483648 7 --limit 100",
];

#[test]
fn trees_are_told_alike_from_both_bags(rt: HostRuntime) -> Result<(), Fail> {
    let alloc = rt.alloc();
    for tree in TREES {
        for driver in DRIVERS {
            for start in ["", " --spread"] {
                let line = format!(in alloc; "{tree}{driver}{start}")?;
                compare_trees(&rt, alloc, line.as_str())?;
            }
        }
    }
    Ok(())
}

const GRAPHS: [&str; 4] = [
    "0 0\n",
    "2 0\n",
    "3 3\n0 1\n1 2\n2 0\n",
    "2 3\n0 0\n0 1\n0 1\n",
];

/// The graphs are told alike from bags of both kinds, by the order of the line.
fn compare_texts<R: Threads + Wait + Abort + Sync>(
    rt: &R,
    alloc: Global,
    line: &str,
) -> Result<(), Fail> {
    for text in GRAPHS {
        match read_graph(alloc, text.as_bytes()) {
            Ok(graph) => compare_graphs(rt, alloc, &graph, line)?,
            Err(_) => return Err(Fail::new("the graph is refused")),
        }
    }
    Ok(())
}

#[test]
fn graphs_are_told_alike_from_both_bags(rt: HostRuntime) -> Result<(), Fail> {
    let alloc = rt.alloc();
    for driver in DRIVERS {
        for start in ["", " --spread"] {
            let line = format!(in alloc; "dist{driver}{start}")?;
            compare_texts(&rt, alloc, line.as_str())?;
        }
    }
    Ok(())
}

// Where no child has children, the first half of the entries is the first half of the items too. In
// deeper trees the parts differ, and with them the counters of several places.
#[test]
fn several_places_count_alike_where_no_child_has_children(rt: HostRuntime) -> Result<(), Fail> {
    let alloc = rt.alloc();
    for size in ["2", "3 --batch 2", "64 --tries 0"] {
        for start in ["", " --spread"] {
            let options = format!(in alloc; "--driver turns --stats --places {size}{start}")?;
            let line = format!(in alloc; "uts 3 8 0 42 {options}")?;
            compare_trees(&rt, alloc, line.as_str())?;
            let line = format!(in alloc; "dist {options}")?;
            compare_texts(&rt, alloc, line.as_str())?;
        }
    }
    Ok(())
}

/// Drivers for the halves of a trial, which are large.
const FEW_DRIVERS: [&str; 4] = [
    " --stats",
    " --driver turns --places 2",
    " --driver threads --places 2",
    " --driver threads --fabric inbox --places 2",
];

#[test]
fn trees_of_trials_are_told_alike_from_both_bags(rt: HostRuntime) -> Result<(), Fail> {
    let alloc = rt.alloc();
    for driver in FEW_DRIVERS {
        let line = format!(in alloc; "uts {TREE_B0} {TREE_M} {TREE_Q} 7{driver}")?;
        compare_trees(&rt, alloc, line.as_str())?;
    }
    Ok(())
}

#[test]
fn graphs_of_trials_are_told_alike_from_both_bags(rt: HostRuntime) -> Result<(), Fail> {
    let alloc = rt.alloc();
    let Ok(graph) = trial_graph(alloc, 7) else {
        return Err(Fail::new("no memory"));
    };
    for driver in FEW_DRIVERS {
        let line = format!(in alloc; "dist{driver}")?;
        compare_graphs(&rt, alloc, &graph, line.as_str())?;
    }
    Ok(())
}
