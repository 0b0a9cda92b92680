//! The program as one call, in stages: read the words, prepare the task, run it, and write its
//! report or tell of the refusal.
ghost use Rattle.std.specs.Prelude.{◌≡◌, ◌≢◌, ◌<◌, ◌^◌, List, ℕ, length, false, true};
ghost use Rattle.std.specs.Prelude.{IfOk, IfErr};
ghost use Rattle.glb_graph.specs.Reading.{IsTextOf};
ghost use Rattle.glb_words.specs.Words.{texts_of};
ghost use Rattle.glb_words.specs.declared.settings.Driver.TheVariants as driver;
ghost use Rattle.glb_run.specs.Orders.{OrderFits};
ghost use Rattle.glb_run.specs.Streams.{change, ReadsAll};
ghost use Rattle.glb_run.specs.Ends.{HasRun, IsTold, Ends};
ghost use Rattle.glb_run.specs.Completeness.{IsComplete};
ghost use Rattle.glb_run.specs.Jobs.{IsKnapText};
ghost use Rattle.glb_run.specs.inner.Stops.{Wrote, Finishes, GivesNoGraph, GivesNoKnap};
ghost use Rattle.glb_run.specs.inner.Stops.{status_of as status_for, read_status, graph_status};
ghost use Rattle.glb_run.specs.inner.Stops.{knap_status, order_status};
ghost use Rattle.glb_run.specs.inner.Tasks.{IsPrepared, IsUnprepared, TaskFits};

use super::fault_text::fault_line;
use super::gate::Gate;
use super::job::{Task, report_calm};
use super::order::{Order, read_words};
use super::reading::{ReadStop, read_all};
use super::status::{GraphKind, Status};
use super::threaded::report;
use glb_graph::{Graph, GraphFault, read_graph};
use glb_io::{Sink, Source};
use glb_knap::{Knap, read_knap};
use glb_tree::RunFault;
use glb_words::{Job, OrderFault, WordFault};
use std::alloc::Global;
use std::sync::Wait;
use std::thread::Threads;

fn read_status(stop: ReadStop) -> Status
    ensures { result ≡ read_status stop }
{
    match stop {
        ReadStop::Fault => Status::ReadFault,
        ReadStop::TooLong => Status::TooLong,
        ReadStop::NoMemory => Status::NoMemory,
    }
}

fn graph_status(fault: GraphFault) -> Status
    ensures { result ≡ graph_status fault }
{
    match fault {
        GraphFault::BadLine { line } => Status::BadGraph {
            kind: GraphKind::BadLine,
            line,
        },
        GraphFault::TooLarge { line } => Status::BadGraph {
            kind: GraphKind::TooLarge,
            line,
        },
        GraphFault::BadEnd { line } => Status::BadGraph {
            kind: GraphKind::BadEnd,
            line,
        },
        GraphFault::NoMemory => Status::NoMemory,
    }
}

fn knap_status(fault: GraphFault) -> Status
    ensures { result ≡ knap_status fault }
{
    match fault {
        GraphFault::BadLine { line } => Status::BadKnap {
            kind: GraphKind::BadLine,
            line,
        },
        GraphFault::TooLarge { line } => Status::BadKnap {
            kind: GraphKind::TooLarge,
            line,
        },
        GraphFault::BadEnd { line } => Status::BadKnap {
            kind: GraphKind::BadEnd,
            line,
        },
        GraphFault::NoMemory => Status::NoMemory,
    }
}

fn status_of(fault: RunFault) -> Status
    ensures { result ≡ status_for fault }
{
    match fault {
        RunFault::TooMany { items } => Status::TooMany { items },
        RunFault::NoMemory => Status::NoMemory,
    }
}

/// The graph that the source gives. Its text is let go.
fn take_graph<S: Source>(alloc: Global, source: &mut S) -> Result<Graph, Status>
    ensures graph { IfOk result (λ rows. (input : List ℕ) × IsTextOf input rows × ReadsAll input
        (change S.left S.faults source.old source.new)) }
    ensures stops { IfErr result (GivesNoGraph
        (change S.left S.faults source.old source.new)) }
{
    let input = match read_all(alloc, source) {
        Ok(input) => input,
        Err(stop) => return Err(read_status(stop)),
    };
    match read_graph(alloc, &input) {
        Ok(graph) => Ok(graph),
        Err(fault) => Err(graph_status(fault)),
    }
}

/// The knapsack that the source gives. Its text is let go.
fn take_knap<S: Source>(alloc: Global, source: &mut S) -> Result<Knap, Status>
    ensures knap { IfOk result (λ knap. (input : List ℕ)
        × IsKnapText input knap
        × ReadsAll input (change S.left S.faults source.old source.new)) }
    ensures stops { IfErr result (GivesNoKnap
        (change S.left S.faults source.old source.new)) }
{
    let input = match read_all(alloc, source) {
        Ok(input) => input,
        Err(stop) => return Err(read_status(stop)),
    };
    match read_knap(alloc, &input) {
        Ok(knap) => Ok(knap),
        Err(fault) => Err(knap_status(fault)),
    }
}

/// What the order has to run, with what the source gives for it.
fn prepare<S: Source>(alloc: Global, order: &Order, source: &mut S) -> Result<Task, Status>
    requires { OrderFits order.now }
    ensures task { IfOk result (IsPrepared order.now
        (change S.left S.faults source.old source.new)) }
    ensures fits { IfOk result TaskFits }
    ensures stops { IfErr result (IsUnprepared order.now
        (change S.left S.faults source.old source.new)) }
{
    match order.job {
        Job::Queens { n } => Ok(Task::Queens { n }),
        Job::Uts { b0, m, q, seed } => Ok(Task::Uts { b0, m, q, seed }),
        Job::Dist => match take_graph(alloc, source) {
            Ok(graph) => Ok(Task::Dist { graph }),
            Err(status) => Err(status),
        },
        Job::Trial { k } => Ok(Task::Trial { k }),
        Job::Knap => match take_knap(alloc, source) {
            Ok(knap) => Ok(Task::Knap { knap }),
            Err(status) => Err(status),
        },
    }
}

/// Writes a report by one call.
fn write_report<K: Sink>(report: &[u8], out: &mut K) -> Status
    ensures { Wrote K.one_call report.now
        (change K.taken K.faults out.old out.new) result }
{
    match out.write_all(report) {
        Ok(()) => Status::Done,
        Err((_, taken)) => Status::WriteFault { taken },
    }
}

/// Writes the report, where there is one.
fn finish<K: Sink>(report: Result<Vec<u8>, RunFault>, out: &mut K) -> Status
    ensures { Finishes K.one_call (λ bytes. bytes.items) report
        (change K.taken K.faults out.old out.new) result }
{
    match report {
        Ok(bytes) => write_report(&bytes, out),
        Err(fault) => status_of(fault),
    }
}

/// Carries an order out without threads, all but telling of a refusal.
fn run_order_calmly<S: Source, K: Sink>(
    alloc: Global,
    order: &Order,
    source: &mut S,
    out: &mut K,
) -> Status
    requires order { OrderFits order.now }
    requires calm { order.now.driver ≢ driver.Threads }
    ensures { HasRun order.now K.one_call
        (change S.left S.faults source.old source.new)
        (change K.taken K.faults out.old out.new) result }
{
    match prepare(alloc, order, source) {
        Ok(task) => finish(report_calm(alloc, &task, order), out),
        Err(status) => status,
    }
}

/// Carries an order out by any driver, all but telling of a refusal.
fn run_order<R: Threads + Wait + Sync, S: Source, K: Sink, G: Gate + Sync>(
    rt: &R,
    alloc: Global,
    order: &Order,
    source: &mut S,
    out: &mut K,
    gate: &G,
) -> Status
    requires { OrderFits order.now }
    ensures { HasRun order.now K.one_call
        (change S.left S.faults source.old source.new)
        (change K.taken K.faults out.old out.new) result }
{
    match prepare(alloc, order, source) {
        Ok(task) => finish(report(rt, alloc, &task, order, gate), out),
        Err(status) => status,
    }
}

/// Tells of a refusal by one line.
fn tell<E: Sink>(err: &mut E, limit: u64, status: Status) -> Status
    ensures status { result ≡ status }
    ensures told { IsTold limit E.one_call
        (change E.taken E.faults err.old err.new) status }
{
    match status {
        Status::Done => {}
        _ => {
            let line = fault_line(limit, status);
            let _told = err.write_all(line.as_str().as_bytes());
        }
    }
    status
}

/// Tells what is wrong with the words.
fn refuse_words<E: Sink>(err: &mut E, fault: OrderFault) -> Status
    ensures status { result ≡ order_status fault }
    ensures told { IsTold 0 E.one_call (change E.taken E.faults err.old err.new) result }
{
    match fault {
        OrderFault::Bad(WordFault { kind, word }) => tell(err, 0, Status::BadWords { kind, word }),
        OrderFault::NoMemory => tell(err, 0, Status::NoMemory),
    }
}

/// Does all that the program does: reads the words, the source where the job is on what it gives,
/// runs the job, and writes its report. The first refusal ends it, and goes to `err` as one line. A
/// job that runs on threads passes the gate once at each expansion; no other job passes it.
pub fn top<R: Threads + Wait + Sync, S: Source, K: Sink, E: Sink, G: Gate + Sync>(
    rt: &R,
    alloc: Global,
    words: &[String],
    source: &mut S,
    out: &mut K,
    err: &mut E,
    gate: &G,
) -> Status
    requires { length words.now < 2 ^ 32 }
    ensures ends { Ends false (texts_of words.now)
        K.one_call E.one_call
        (change S.left S.faults source.old source.new)
        (change K.taken K.faults out.old out.new)
        (change E.taken E.faults err.old err.new) result }
    ensures complete { IsComplete false (texts_of words.now)
        (change S.left S.faults source.old source.new)
        (change K.taken K.faults out.old out.new) result }
{
    match read_words(alloc, words, false) {
        Ok(order) => {
            let status = run_order(rt, alloc, &order, source, out, gate);
            tell(err, order.params.limit, status)
        }
        Err(fault) => refuse_words(err, fault),
    }
}

/// The same without threads, which it refuses as a fault of their word: it always returns.
pub fn top_calm<S: Source, K: Sink, E: Sink>(
    alloc: Global,
    words: &[String],
    source: &mut S,
    out: &mut K,
    err: &mut E,
) -> Status
    requires { length words.now < 2 ^ 32 }
    ensures ends { Ends true (texts_of words.now)
        K.one_call E.one_call
        (change S.left S.faults source.old source.new)
        (change K.taken K.faults out.old out.new)
        (change E.taken E.faults err.old err.new) result }
    ensures complete { IsComplete true (texts_of words.now)
        (change S.left S.faults source.old source.new)
        (change K.taken K.faults out.old out.new) result }
{
    match read_words(alloc, words, true) {
        Ok(order) => {
            let status = run_order_calmly(alloc, &order, source, out);
            tell(err, order.params.limit, status)
        }
        Err(fault) => refuse_words(err, fault),
    }
}
