//! Plays a world of places by the numbers of a schedule.
ghost use Rattle.std.specs.Prelude.{◌≡◌, ◌≢◌, ℕ, ◌+◌, ◌%◌, ◌^◌, ◌<◌, ◌≤◌, ◌⊎◌, [], length, List};
ghost use Rattle.std.specs.Prelude.{map, get_or, vec_len, OnOk, IfOk, IfErr, MatchOption};
ghost use Rattle.glb_rules.specs.World.{Setup, World as AbstractWorld};
ghost use Rattle.glb_rules.specs.Schedules.{Passes};
ghost use Rattle.glb_core.specs.Standing.{Represents, SimulatesWholly, Fails};
ghost use Rattle.glb_rules.specs.Events.{NamesBelow};
ghost use Rattle.glb_core.specs.Standing.{AllFit};
ghost use Rattle.glb_turns.specs.inner.Turns.{IsPlayed, IsInPlay, IsSameRun, FindsPlace, TurnsTo};
ghost use Rattle.glb_turns.specs.inner.Turns.{IsTurnOf, Begins, PlaysToEnd, IsOver, Halted};
ghost use Rattle.glb_turns.specs.inner.Turns.{code_of};
ghost use Rattle.glb_turns.specs.inner.Watches.{HasWatches};
ghost use Rattle.glb_rules.specs.Joins.{join_to};
ghost use Rattle.glb_tree.specs.Runs.{HasCause, PassesByAtMost};
ghost use Rattle.glb_rules.specs.Setups.{IsWithinLimits};
ghost use Rattle.glb_turns.specs.ScheduledRuns.{IsTurnsReport};

use super::bags::bags_of;
use super::schedule::{Listed, Schedule};
use super::watch::{Watch, decision_of, forget_all, notice, watches_of};
use glb_core::{Event, Params, StepFault, World};
use glb_laws::{Bag, Monoid, Program};
use glb_stats::Report;
use glb_tree::RunFault;
use std::alloc::Global;

/// The place so many ahead of the first one, round and round.
fn place_from(first: u32, ahead: u32, places: u32) -> u32
    requires first { first < places }
    requires ahead { ahead < places }
    requires few { places ≤ 64 }
    ensures { result ≡ (first + ahead) % places }
{
    let place = first + ahead;
    if place < places {
        place
    } else {
        place - places
    }
}

/// The first place from the number upwards and round that has something to do, and what it does.
fn find_decision<P: Program, B: Bag<P>>(
    world: &World<P, B>,
    watches: &mut [Watch],
    number: u32,
) -> Option<(u32, Event)>
    requires many { length watches.old ≡ world.now.cube.places }
    requires watches { HasWatches {I = P.Item} B.items world.now watches.old }
    requires played { IsPlayed {I = P.Item} B.items world.now }
    ensures watches { HasWatches {I = P.Item} B.items world.now watches.new }
    ensures finds { (s : Setup) (w : AbstractWorld P.Item) → Represents B.items s world.now w →
        MatchOption result
        ((j : ℕ) → j < s.places → Passes world.now.params.seed s w ((number + j) % s.places))
        (λ found. FindsPlace world.now.params.seed s w number found.0 found.1) }
{
    let places = world.lines().places();
    let first = number % places;
    for ahead in 0..places {
        let place = place_from(first, ahead, places);
        match decision_of(world, &mut watches[place as usize], place) {
            Some(event) => return Some((place, event)),
            None => {}
        }
    }
    None
}

/// What a turn came to. The place is the one whose turn it was.
#[derive(Clone, Copy)]
enum Turned {
    AllGone,
    Went { place: u32 },
    NoMemory { place: u32 },
}

/// Does the event, and keeps the watches.
fn step<P: Program, B: Bag<P>>(
    world: &mut World<P, B>,
    program: &P,
    watches: &mut [Watch],
    event: Event,
) -> Result<u64, StepFault>
    requires in_play { IsInPlay B.items B.fits program.now world.old watches.old }
    requires named { NamesBelow world.old.cube.places event }
    requires total { world.old.total ≤ 2 ^ 41 }
    ensures watches { HasWatches {I = P.Item} B.items world.new watches.new }
    ensures step { IfOk result
        (λ k. SimulatesWholly B.items (P.children program.now) (P.value program.now) P.Value.combine
        P.Value.unit world.old event k world.new) }
    ensures fault { IfErr result
        (λ f. Fails B.items (P.children program.now) (P.value program.now) P.Value.combine
        P.Value.unit world.old event world.new f) }
    ensures fits { AllFit B.fits world.new program.now }
    ensures same { IsSameRun world.old world.new }
{
    let ended = world.live() == 0;
    let stop = world.stop();
    match world.step(program, event) {
        Ok(count) => {
            notice(world, watches, event, ended, stop);
            Ok(count)
        }
        Err(fault) => {
            forget_all(watches);
            Err(fault)
        }
    }
}

/// The turn of the number: the first place from there on that has something to do does it.
fn turn<P: Program, B: Bag<P>>(
    world: &mut World<P, B>,
    program: &P,
    watches: &mut [Watch],
    number: u32,
) -> Turned
    requires in_play { IsInPlay B.items B.fits program.now world.old watches.old }
    requires total { world.old.total ≤ 2 ^ 41 }
    ensures in_play { IsInPlay B.items B.fits program.now world.new watches.new }
    ensures same { IsSameRun world.old world.new }
    ensures most { world.new.total ≤ world.old.total + world.old.params.batch }
    ensures few { world.old.params.batch ≤ 65536 }
    ensures place { IsTurnOf world.old.cube.places result }
    ensures turned { TurnsTo B.items (P.children program.now) (P.value program.now)
        P.Value.combine P.Value.unit world.old world.new number result }
{
    let (place, event) = match find_decision(world, watches, number) {
        Some(found) => found,
        None => return Turned::AllGone,
    };
    match step(world, program, watches, event) {
        Ok(_) => Turned::Went { place },
        Err(StepFault::NotEnabled) => unreachable!(),
        Err(StepFault::NoMemory) => Turned::NoMemory { place },
    }
}

/// The place halts the run with the code.
fn begin_halt<P: Program, B: Bag<P>>(
    world: &mut World<P, B>,
    program: &P,
    watches: &mut [Watch],
    place: u32,
    code: u64,
)
    requires in_play { IsInPlay B.items B.fits program.now world.old watches.old }
    requires total { world.old.total ≤ 2 ^ 41 }
    requires place { place < world.old.cube.places }
    requires code { (code ≡ 1) ⊎ (code ≡ 2) }
    requires running { world.old.stop ≡ 0 }
    ensures in_play { IsInPlay B.items B.fits program.now world.new watches.new }
    ensures same { IsSameRun world.old world.new }
    ensures over { IsOver code world.new }
    ensures most { world.new.total ≤ world.old.total + 65536 }
{
    match step(world, program, watches, Event::Halt { place, code }) {
        Ok(_) => {}
        Err(StepFault::NotEnabled) => {}
        Err(StepFault::NoMemory) => unreachable!(),
    }
}

/// Ends the run early: the place halts it, and in the next turns every place leaves.
fn halt<P: Program, B: Bag<P>, S: Schedule>(
    world: &mut World<P, B>,
    program: &P,
    watches: &mut [Watch],
    schedule: &mut S,
    place: u32,
    code: u64,
)
    requires in_play { IsInPlay B.items B.fits program.now world.old watches.old }
    requires total { world.old.total ≤ 2 ^ 40 + 65536 }
    requires place { place < world.old.cube.places }
    requires code { (code ≡ 1) ⊎ (code ≡ 2) }
    requires running { world.old.stop ≡ 0 }
    ensures halted { Halted {I = P.Item} B.items code world.new }
{
    begin_halt(world, program, watches, place, code);
    let places = world.lines().places();
    for _ in 0..places {
        match turn(world, program, watches, schedule.turn()) {
            Turned::AllGone => return,
            Turned::Went { .. } => {}
            Turned::NoMemory { .. } => unreachable!(),
        }
    }
}

/// Plays until every place is Gone, or until the run has to end early.
fn play<P: Program, B: Bag<P>, S: Schedule>(
    world: &mut World<P, B>,
    program: &P,
    watches: &mut [Watch],
    schedule: &mut S,
    limit: u64,
) -> Result<(), RunFault>
    requires many { length watches.old ≡ world.old.cube.places }
    requires watches { HasWatches {I = P.Item} B.items world.old watches.old }
    requires fits { AllFit B.fits world.old program.now }
    requires limited { limit ≤ 2 ^ 40 }
    requires begins { (bags : ℕ → List P.Item) ×
        Begins B.items (P.value program.now) P.Value.combine P.Value.unit world.old bags }
    requires none_done { world.old.total ≡ 0 }
    ensures within { OnOk result (world.new.total ≤ limit) }
    ensures played { OnOk result ((bags : ℕ → List P.Item) →
        Begins B.items (P.value program.now) P.Value.combine P.Value.unit world.old bags →
        PlaysToEnd B.items (P.children program.now) (P.value program.now) P.Value.combine
        P.Value.unit world.old bags (S.will schedule.old) world.new) }
    ensures fault { IfErr result (λ e. (bags : ℕ → List P.Item) →
        Begins B.items (P.value program.now) P.Value.combine P.Value.unit world.old bags →
        HasCause (P.children program.now) (join_to world.old.cube.places bags) limit e) }
    ensures last_batch { IfErr result (PassesByAtMost world.old.params.batch limit) }
    ensures halted { IfErr result (λ e. Halted {I = P.Item} B.items (code_of e) world.new) }
{
    for _ in 0..u64::MAX {
        let number = schedule.turn();
        match turn(world, program, watches, number) {
            Turned::AllGone => return Ok(()),
            Turned::Went { place } => {
                let items = world.total();
                if items > limit {
                    halt(world, program, watches, schedule, place, 1);
                    return Err(RunFault::TooMany { items });
                }
            }
            Turned::NoMemory { place } => {
                halt(world, program, watches, schedule, place, 2);
                return Err(RunFault::NoMemory);
            }
        }
    }
    unreachable!()
}

/// Plays the places of a world by turns, each with the list of roots that it starts with, until
/// every place is Gone. It returns also where a tree has no end: the limit ends the run.
pub fn run_turns<P: Program, B: Bag<P>, S: Schedule>(
    alloc: Global,
    program: &P,
    roots: Vec<Vec<P::Item>>,
    params: &Params,
    schedule: &mut S,
) -> Result<Report<P::Value>, RunFault>
    requires limits { IsWithinLimits params.now }
    requires lists { vec_len roots ≡ params.now.places }
    ensures ok { IfOk result (λ report.
        IsTurnsReport (P.children program.now) (P.value program.now) P.Value.combine P.Value.unit
        params.now (λ p. get_or (map (λ v. v.items) roots.items) p []) (S.will schedule.old)
        report.items report.value report.counters.items) }
    ensures fault { IfErr result
        (HasCause (P.children program.now)
        (join_to params.now.places (λ p. get_or (map (λ v. v.items) roots.items) p []))
        params.now.limit) }
    ensures last_batch { IfErr result (PassesByAtMost params.now.batch params.now.limit) }
{
    let Ok(bags) = bags_of::<P, B>(alloc, program, roots) else {
        return Err(RunFault::NoMemory);
    };
    let mut world = match World::new(alloc, program, params, bags) {
        Ok(world) => world,
        Err(_) => return Err(RunFault::NoMemory),
    };
    let mut watches = match watches_of(alloc, world.lines()) {
        Ok(watches) => watches,
        Err(_) => return Err(RunFault::NoMemory),
    };
    match play(&mut world, program, &mut watches, schedule, params.limit) {
        Ok(()) => Ok(world.into_report()),
        Err(fault) => Err(fault),
    }
}

/// Plays the places by the numbers of a list and then by 0, as many as it needs. Else it is
/// `run_turns`.
pub fn run_listed<P: Program, B: Bag<P>>(
    alloc: Global,
    program: &P,
    roots: Vec<Vec<P::Item>>,
    params: &Params,
    list: &[u32],
) -> Result<Report<P::Value>, RunFault>
    requires limits { IsWithinLimits params.now }
    requires lists { vec_len roots ≡ params.now.places }
    ensures ok { IfOk result (λ report.
        IsTurnsReport (P.children program.now) (P.value program.now) P.Value.combine P.Value.unit
        params.now (λ p. get_or (map (λ v. v.items) roots.items) p []) (λ k. get_or list.now k 0)
        report.items report.value report.counters.items) }
    ensures fault { IfErr result
        (HasCause (P.children program.now)
        (join_to params.now.places (λ p. get_or (map (λ v. v.items) roots.items) p []))
        params.now.limit) }
    ensures last_batch { IfErr result (PassesByAtMost params.now.batch params.now.limit) }
{
    let Ok(list) = Vec::from_slice(alloc, list) else {
        return Err(RunFault::NoMemory);
    };
    let mut listed = Listed::new(list);
    run_turns::<P, B, Listed>(alloc, program, roots, params, &mut listed)
}
