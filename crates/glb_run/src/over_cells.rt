//! Runs trees over places on threads that share cells.
ghost use Rattle.std.specs.Prelude.{◌≡◌, ℕ, List, [], map, get_or, vec_len, All, IfOk, IfErr};
ghost use Rattle.glb_tree.specs.Runs.{HasCause};
ghost use Rattle.glb_rules.specs.Joins.{join_to};
ghost use Rattle.glb_rules.specs.Setups.{IsWithinLimits};
ghost use Rattle.glb_cells.specs.Berths.{AreBerthsOf, IsOf};
ghost use Rattle.glb_run.specs.ThreadedRuns.{IsCellsReport};
ghost use Rattle.glb_run.specs.inner.CellRuns.{AreFirstBerths, IsClosedHistory};
ghost use Rattle.glb_run.specs.inner.Plays.{AreLeft};

use super::beside::Muster;
use super::places::report_of;
use super::played::{Played, play_all};
use super::roots::bags_of;
use glb_cells::laws::closed_runs_end_histories;
use glb_cells::{Berth, Cells, Closed, Stand};
use glb_core::Params;
use glb_cube::{Lines, cube};
use glb_laws::{Bag, NoMemory, Program};
use glb_stats::{Counters, Report};
use glb_tree::RunFault;
use std::alloc::Global;
use std::sync::Wait;
use std::thread::Threads;

/// A stand for each berth, in order.
pub(crate) fn stands_of<'a, P: Program, B: Bag<P>>(
    alloc: Global,
    cells: &'a Cells<P, B>,
    berths: Vec<Berth<P, B>>,
) -> Result<Vec<Stand<'a, P, B>>, NoMemory>
    requires { All (IsOf cells.now) berths.items }
    ensures cells { IfOk result (λ stands. All (λ s. s.cells.now ≡ cells.now) stands.items) }
    ensures berths { IfOk result (λ stands. map (λ s. s.berth) stands.items ≡ berths.items) }
{
    let mut stands = Vec::with_capacity(alloc, berths.len())?;
    for berth in berths {
        stands.push(Stand::new(cells, berth))?;
    }
    Ok(stands)
}

/// The berth of each stand, in order.
pub(crate) fn berths_of<'a, P: Program, B: Bag<P>>(
    alloc: Global,
    stands: Vec<Stand<'a, P, B>>,
) -> Result<Vec<Berth<P, B>>, NoMemory>
    ensures here { IfOk result (λ berths.
        All (λ s. IsOf s.cells.now s.berth) stands.entry.items) }
    ensures berths { IfOk result (λ berths.
        berths.items ≡ map (λ s. s.berth) stands.entry.items) }
{
    let mut berths = Vec::with_capacity(alloc, stands.len())?;
    for stand in stands {
        berths.push(stand.leave())?;
    }
    Ok(berths)
}

/// Plays the places over the cells; their berths come back in place of their stands.
fn play_over<
    R: Threads + Wait + Sync,
    P: Program<Item: Send + Sync, Value: Send + Sync> + Send + Sync,
    B: Bag<P> + Send,
>(
    rt: &R,
    alloc: Global,
    program: &P,
    params: &Params,
    lines: &Lines,
    bags: Vec<B>,
    cells: &Cells<P, B>,
    berths: Vec<Berth<P, B>>,
    muster: &Muster,
) -> Result<Played<P::Value, Berth<P, B>>, NoMemory>
    requires limits { IsWithinLimits params.now }
    requires places { lines.now.places ≡ params.now.places }
    requires base { lines.now.base ≡ params.now.base }
    requires bags { vec_len bags ≡ params.now.places }
    requires first { AreFirstBerths cells.now program.now params.now lines.now
        (map B.items bags.items) berths.items }
    requires fits { All (λ b. B.fits b program.now) bags.items }
    ensures berths { IfOk result (λ played. AreBerthsOf cells.now played.fabrics.items) }
    ensures left { IfOk result (λ played.
        AreLeft (P.value program.now) P.Value.combine P.Value.unit
        (map (λ b. b.kept) played.fabrics.items) played.value played.counters.items) }
{
    let stands = stands_of(alloc, cells, berths)?;
    let Played {
        fabrics,
        value,
        counters,
    } = play_all(rt, alloc, program, params, lines, bags, stands, muster)?;
    let fabrics = berths_of(alloc, fabrics)?;
    Ok(Played {
        fabrics,
        value,
        counters,
    })
}

/// The report of a run over cells that has closed so.
fn report_of_history<P: Program>(
    params: &Params,
    closed: Closed,
    value: P::Value,
    counters: Vec<Counters>,
) -> Result<Report<P::Value>, RunFault>
    requires { IsWithinLimits params.now }
    ensures ok { IfOk result (λ report. (program : P) (roots : ℕ → List P.Item)
        → IsClosedHistory (P.children program) (P.value program) P.Value.combine P.Value.unit
        params.now roots closed.items closed.stop value counters.items
        → IsCellsReport (P.children program) (P.value program) P.Value.combine P.Value.unit
        params.now roots report.items report.value report.counters.items) }
    ensures fault { IfErr result (λ fault. (program : P) (roots : ℕ → List P.Item)
        → IsClosedHistory (P.children program) (P.value program) P.Value.combine P.Value.unit
        params.now roots closed.items closed.stop value counters.items
        → HasCause (P.children program) (join_to params.now.places roots) params.now.limit fault) }
{
    closed_runs_end_histories::<P>();
    report_of::<P>(params, closed.items, closed.stop, value, counters)
}

/// Plays the places on threads, over cells.
pub(crate) fn run_over_cells<
    R: Threads + Wait + Sync,
    P: Program<Item: Send + Sync, Value: Send + Sync> + Send + Sync,
    B: Bag<P> + Send,
>(
    rt: &R,
    alloc: Global,
    program: &P,
    roots: Vec<Vec<P::Item>>,
    params: &Params,
    muster: &Muster,
) -> Result<Report<P::Value>, RunFault>
    requires limits { IsWithinLimits params.now }
    requires lists { vec_len roots ≡ params.now.places }
    ensures ok { IfOk result (λ report.
        IsCellsReport (P.children program.now) (P.value program.now) P.Value.combine P.Value.unit
        params.now (λ p. get_or (map (λ v. v.items) roots.items) p [])
        report.items report.value report.counters.items) }
    ensures fault { IfErr result
        (HasCause (P.children program.now)
        (join_to params.now.places (λ p. get_or (map (λ v. v.items) roots.items) p []))
        params.now.limit) }
{
    let Ok(lines) = cube(alloc, params.places, params.base) else {
        return Err(RunFault::NoMemory);
    };
    let Ok(bags) = bags_of::<P, B>(alloc, program, roots) else {
        return Err(RunFault::NoMemory);
    };
    let Ok((cells, berths)) = Cells::new(alloc, program, params, &lines, &bags) else {
        return Err(RunFault::NoMemory);
    };
    let Ok(played) = play_over(
        rt, alloc, program, params, &lines, bags, &cells, berths, muster,
    ) else {
        return Err(RunFault::NoMemory);
    };
    let closed = cells.close(played.fabrics);
    report_of_history::<P>(params, closed, played.value, played.counters)
}
