//! A script of two places over the boards of two queens, event by event.
ghost use Rattle.std.specs.Prelude.{◌≡◌, length, true};
ghost use Rattle.glb_rules.specs.Setups.{IsWithinLimits};
ghost use Rattle.glb_rules.specs.Events.{NamesBelow};
ghost use Rattle.glb_core.specs.Standing.{AllFit};
ghost use Rattle.glb_core.specs.Standing.{ListsFit};

use glb_bags::ListBag;
use glb_core::{Event, Kind, Params, Phase, StepFault, World};
use glb_laws::{Bag, Monoid, NoMemory, Program, SatSum};
use glb_queens::{Board, Queens};
use glb_stats::Report;
use std::alloc::Global;
use std::process::Abort;
use std::test::Fail;

fn look(place: u32, thief: u32, kind: Kind) -> Event {
    Event::Look { place, thief, kind }
}

fn ask_line(place: u32, victim: u32) -> Event {
    Event::Ask {
        place,
        victim,
        kind: Kind::Line,
    }
}

fn deny_line(place: u32, thief: u32) -> Event {
    Event::Deny {
        place,
        thief,
        kind: Kind::Line,
    }
}

fn shrug_line(place: u32, victim: u32) -> Event {
    Event::Shrug {
        place,
        victim,
        kind: Kind::Line,
    }
}

fn give_line(place: u32, thief: u32) -> Event {
    Event::Give {
        place,
        thief,
        kind: Kind::Line,
    }
}

fn take_line(place: u32, victim: u32) -> Event {
    Event::Take {
        place,
        victim,
        kind: Kind::Line,
    }
}

fn names_below(event: Event, places: u32) -> bool
    ensures { result ≡ true → NamesBelow places event }
{
    match event {
        Event::Look { place, thief, .. }
        | Event::Deny { place, thief, .. }
        | Event::Give { place, thief, .. } => place < places && thief < places,
        Event::Ask { place, victim, .. }
        | Event::Take { place, victim, .. }
        | Event::Shrug { place, victim, .. } => place < places && victim < places,
        Event::Batch { place }
        | Event::Mint { place }
        | Event::Burn { place }
        | Event::Sleep { place }
        | Event::Leave { place }
        | Event::Halt { place, .. } => place < places,
    }
}

fn step<R: Abort, P: Program, B: Bag<P>>(
    rt: &R,
    world: &mut World<P, B>,
    program: &P,
    event: Event,
) -> Result<u64, StepFault>
    requires { AllFit B.fits world.old program.now }
    ensures { AllFit B.fits world.new program.now }
{
    assert!(rt; names_below(event, world.lines().places()));
    assert!(rt; world.total() <= 100);
    world.step(program, event)
}

/// Plays a script. After each event the world tells the number live, and the phase of the place.
fn play<R: Abort, P: Program, B: Bag<P>>(
    rt: &R,
    world: &mut World<P, B>,
    program: &P,
    script: &[(Event, u64, u32, Phase)],
)
    requires { AllFit B.fits world.old program.now }
    ensures { AllFit B.fits world.new program.now }
{
    for (event, live, place, phase) in script {
        assert!(rt; step(rt, world, program, *event).is_ok(), "{event:?}");
        assert_eq!(rt; world.live(), *live, "{event:?}");
        assert!(rt; *place < world.lines().places());
        assert_eq!(rt; world.state(*place).phase, *phase, "{event:?}");
    }
}

/// Plays the events up to the first sleep, its repetition, which has no case, and the events after
/// it.
fn run<R: Abort, P: Program, B: Bag<P>>(
    rt: &R,
    alloc: Global,
    program: &P,
    params: &Params,
    bags: Vec<B>,
    to_sleep: &[(Event, u64, u32, Phase)],
    after_sleep: &[(Event, u64, u32, Phase)],
) -> Result<Report<P::Value>, NoMemory>
    requires limits { IsWithinLimits params.now }
    requires bags { length bags.items ≡ params.now.places }
    requires fits { ListsFit B.fits program.now bags.items }
{
    match World::new(alloc, program, params, bags) {
        Ok(mut world) => {
            assert_eq!(rt; world.live(), 2);
            play(rt, &mut world, program, to_sleep);
            let again = step(rt, &mut world, program, Event::Sleep { place: 0 });
            assert_eq!(rt; again, Err(StepFault::NotEnabled));
            play(rt, &mut world, program, after_sleep);
            Ok(world.into_report())
        }
        Err((no_memory, _bags)) => Err(no_memory),
    }
}

fn bag_of(alloc: Global, queens: &Queens, board: Board) -> Result<ListBag<Queens>, Fail> {
    let mut bag = ListBag::empty(alloc, queens);
    if bag.add(board).is_err() {
        return Err(Fail::new("no memory"));
    }
    Ok(bag)
}

#[test]
fn two_places_share_the_boards_of_two_queens(rt: HostRuntime) -> Result<(), Fail> {
    let alloc = rt.alloc();
    let queens = Queens::new(2);
    let mut boards = Vec::new(alloc);
    assert!(rt; queens.expand(&queens.root(), &mut boards).is_ok());
    assert_eq!(rt; boards.len(), 2);
    assert_eq!(rt; boards[0].columns(), [0u8].as_slice());
    let mut bags = Vec::new(alloc);
    bags.push(bag_of(alloc, &queens, queens.root())?)?;
    bags.push(bag_of(alloc, &queens, boards[0])?)?;
    let params = Params {
        places: 2,
        batch: 1,
        tries: 0,
        base: 2,
        seed: 0,
        limit: 1_099_511_627_776,
    };
    let waits_for_0 = Phase::Waiting {
        victim: 0,
        kind: Kind::Line,
    };
    let waits_for_1 = Phase::Waiting {
        victim: 1,
        kind: Kind::Line,
    };
    let to_sleep = [
        (look(1, 0, Kind::Steal), 2, 1, Phase::Working),
        (look(1, 0, Kind::Line), 2, 1, Phase::Working),
        (Event::Batch { place: 1 }, 2, 1, Phase::Idle),
        (ask_line(1, 0), 2, 1, waits_for_0),
        (deny_line(0, 1), 2, 0, Phase::Working),
        (shrug_line(1, 0), 2, 1, Phase::Idle),
        (look(0, 1, Kind::Steal), 2, 0, Phase::Working),
        (Event::Batch { place: 0 }, 2, 0, Phase::Working),
        (Event::Mint { place: 0 }, 3, 0, Phase::Working),
        (give_line(0, 1), 3, 0, Phase::Working),
        (look(0, 1, Kind::Steal), 3, 0, Phase::Working),
        (Event::Batch { place: 0 }, 3, 0, Phase::Idle),
        (ask_line(0, 1), 3, 0, waits_for_1),
        (deny_line(1, 0), 3, 1, Phase::Idle),
        (shrug_line(0, 1), 3, 0, Phase::Idle),
        (Event::Sleep { place: 0 }, 2, 0, Phase::Asleep),
    ];
    // A part waits for place 1 on its lifeline when it sleeps, so the run goes on.
    let after_sleep = [
        (Event::Sleep { place: 1 }, 1, 1, Phase::Asleep),
        (take_line(1, 0), 1, 1, Phase::Working),
        (look(1, 0, Kind::Steal), 1, 1, Phase::Working),
        (Event::Batch { place: 1 }, 1, 1, Phase::Idle),
        (ask_line(1, 0), 1, 1, waits_for_0),
        (deny_line(0, 1), 1, 0, Phase::Asleep),
        (shrug_line(1, 0), 1, 1, Phase::Idle),
        (Event::Sleep { place: 1 }, 0, 1, Phase::Asleep),
    ];
    let report = run(&rt, alloc, &queens, &params, bags, &to_sleep, &after_sleep)?;
    assert_eq!(rt; report.items, 4);
    assert_eq!(rt; report.value, SatSum(0));
    assert_eq!(rt; report.counters.len(), 2);
    assert_eq!(rt; report.counters[0].line_given, 1);
    assert_eq!(rt; report.counters[1].wakes, 1);
    Ok(())
}
