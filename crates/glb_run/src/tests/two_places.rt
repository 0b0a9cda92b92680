//! The script of two places over the boards of two queens, event by event, over each fabric.
ghost use Rattle.std.specs.Prelude.{◌≡◌, All, IfOk, map, vec_len};
ghost use Rattle.glb_cells.specs.Berths.{AreBerthsOf};
ghost use Rattle.glb_place.specs.Calls.{SameObject};
ghost use Rattle.glb_run.specs.inner.CellRuns.{AreFirstBerths};
ghost use Rattle.glb_run.specs.inner.Hands.{two_params, two_places};
ghost use Rattle.glb_run.specs.inner.Plays.{AreFirst, AreSameObjects};

use super::hand::Hand;
use super::pairs::both_of;
use crate::over_cells::{berths_of, stands_of};
use glb_bags::ListBag;
use glb_cells::{Berth, Cells};
use glb_core::{Edge, Params};
use glb_cube::{Lines, cube};
use glb_inbox::Post;
use glb_laws::{Bag, NoMemory, Program};
use glb_place::Fabric;
use glb_queens::{Board, Queens};
use std::alloc::Global;
use std::process::Abort;
use std::sync::Wait;
use std::test::Fail;

/// An event over the line between the two places, or a look at the steal edge. A sleep tells
/// whether it is the last one.
#[derive(Clone, Copy)]
enum Act {
    LookSteal,
    LookLine,
    Batch,
    Ask,
    Deny,
    Mint,
    Give,
    Take,
    Shrug,
    Sleep { last: bool },
}

/// The events, each with its place.
const SCRIPT: [(u32, Act); 24] = [
    (1, Act::LookSteal),
    (1, Act::LookLine),
    (1, Act::Batch),
    (1, Act::Ask),
    (0, Act::Deny),
    (1, Act::Shrug),
    (0, Act::LookSteal),
    (0, Act::Batch),
    (0, Act::Mint),
    (0, Act::Give),
    (0, Act::LookSteal),
    (0, Act::Batch),
    (0, Act::Ask),
    (1, Act::Deny),
    (0, Act::Shrug),
    (0, Act::Sleep { last: false }),
    // A part waits for place 1 on its line when it sleeps, so the run goes on.
    (1, Act::Sleep { last: false }),
    (1, Act::Take),
    (1, Act::LookSteal),
    (1, Act::Batch),
    (1, Act::Ask),
    (0, Act::Deny),
    (1, Act::Shrug),
    (1, Act::Sleep { last: true }),
];

/// Looks at most so many times at the line to the place, until it is Asked.
fn await_request<P: Program, B: Bag<P>, F: Fabric<P, B>>(
    rt: &impl Wait,
    hand: &mut Hand<P, B, F>,
    looks: u32,
) -> Result<(), Fail>
    ensures { SameObject F.program F.home F.refuses hand.old hand.new }
{
    for _ in 0..looks {
        if let Edge::Asked = hand.look_in(rt) {
            return Ok(());
        }
    }
    Err(Fail::new("nobody asked"))
}

/// Looks at most so many times at the line of the place, until it is in this state.
fn await_answer<P: Program, B: Bag<P>, F: Fabric<P, B>>(
    rt: &impl Wait,
    hand: &mut Hand<P, B, F>,
    answer: Edge,
    looks: u32,
) -> Result<(), Fail>
    ensures { SameObject F.program F.home F.refuses hand.old hand.new }
{
    for _ in 0..looks {
        if hand.look_out(rt) == answer {
            return Ok(());
        }
    }
    Err(Fail::new("no answer came"))
}

/// Does the event, after at most so many looks at its edge, if it needs them.
fn play_event<P: Program, B: Bag<P>, F: Fabric<P, B>>(
    rt: &impl Wait,
    program: &P,
    hand: &mut Hand<P, B, F>,
    event: Act,
    looks: u32,
) -> Result<(), Fail>
    requires { program.now ≡ F.program hand.old }
    ensures { SameObject F.program F.home F.refuses hand.old hand.new }
{
    match event {
        Act::LookSteal => {
            hand.look_steal(rt);
            Ok(())
        }
        Act::LookLine => {
            hand.look_in(rt);
            Ok(())
        }
        Act::Batch => hand.batch(rt, program),
        Act::Ask => hand.ask(rt),
        Act::Deny => {
            await_request(rt, hand, looks)?;
            hand.deny(rt)
        }
        Act::Mint => hand.mint(rt),
        Act::Give => hand.give(rt),
        Act::Take => {
            await_answer(rt, hand, Edge::Loot, looks)?;
            hand.take(rt)
        }
        Act::Shrug => {
            await_answer(rt, hand, Edge::Refused, looks)?;
            hand.shrug(rt)
        }
        Act::Sleep { last } => {
            if hand.sleep(rt)? == last {
                Ok(())
            } else {
                Err(Fail::new("another place falls asleep last"))
            }
        }
    }
}

/// Plays the script.
fn play<P: Program, B: Bag<P>, F: Fabric<P, B>>(
    rt: &impl Wait,
    program: &P,
    first: &mut Hand<P, B, F>,
    second: &mut Hand<P, B, F>,
    looks: u32,
) -> Result<(), Fail>
    requires first { program.now ≡ F.program first.old }
    requires second { program.now ≡ F.program second.old }
    ensures first { SameObject F.program F.home F.refuses first.old first.new }
    ensures second { SameObject F.program F.home F.refuses second.old second.new }
{
    for (place, event) in SCRIPT {
        if place == 0 {
            play_event(rt, program, first, event, looks)?;
        } else {
            play_event(rt, program, second, event, looks)?;
        }
    }
    Ok(())
}

/// Plays the script with two places of these bags and fabrics, which come back.
fn play_two<P: Program, B: Bag<P>, F: Fabric<P, B>>(
    rt: &impl Wait,
    alloc: Global,
    program: &P,
    bags: Vec<B>,
    fabrics: Vec<F>,
    looks: u32,
) -> Result<Vec<F>, Fail>
    requires bags { vec_len bags ≡ 2 }
    requires fabrics { vec_len fabrics ≡ 2 }
    requires first { AreFirst two_places two_params (map B.items bags.items)
        (map F.kept fabrics.items) }
    requires programs { All (λ f. program.now ≡ F.program f) fabrics.items }
    requires fits { All (λ b. B.fits b program.now) bags.items }
    ensures { IfOk result (λ left.
        AreSameObjects F.program F.home F.refuses fabrics.items left.items) }
{
    let (bag_0, bag_1) = both_of(bags);
    let (fabric_0, fabric_1) = both_of(fabrics);
    let mut first = Hand::new(0, bag_0, fabric_0)?;
    let mut second = Hand::new(1, bag_1, fabric_1)?;
    play(rt, program, &mut first, &mut second, looks)?;
    Ok(vec![in alloc; first.leave(), second.leave()]?)
}

/// Plays the script over cells, with one look before each event. The berths come back.
fn play_over_cells<P: Program, B: Bag<P>>(
    rt: &impl Wait,
    alloc: Global,
    program: &P,
    bags: Vec<B>,
    cells: &Cells<P, B>,
    berths: Vec<Berth<P, B>>,
) -> Result<Vec<Berth<P, B>>, Fail>
    requires bags { vec_len bags ≡ 2 }
    requires first { AreFirstBerths cells.now program.now two_params two_places
        (map B.items bags.items) berths.items }
    requires fits { All (λ b. B.fits b program.now) bags.items }
    ensures { IfOk result (λ left. AreBerthsOf cells.now left.items) }
{
    let stands = stands_of(alloc, cells, berths)?;
    let stands = play_two(rt, alloc, program, bags, stands, 1)?;
    Ok(berths_of(alloc, stands)?)
}

const PARAMS: Params = Params {
    places: 2,
    batch: 1,
    tries: 0,
    base: 2,
    seed: 0,
    limit: 1_099_511_627_776,
};

/// A line from each of two places to the other.
fn two_lines(alloc: Global) -> Result<Lines, NoMemory>
    ensures { IfOk result (λ lines. lines ≡ two_places) }
{
    cube(alloc, 2, 2)
}

/// The numbers live, items and stop at the close of the script over cells.
fn over_cells<P: Program, B: Bag<P>>(
    rt: &impl Wait,
    alloc: Global,
    program: &P,
    params: &Params,
    lines: &Lines,
    bags: Vec<B>,
) -> Result<(u64, u64, u64), Fail>
    requires params { params.now ≡ two_params }
    requires lines { lines.now ≡ two_places }
    requires bags { vec_len bags ≡ 2 }
    requires fits { All (λ b. B.fits b program.now) bags.items }
{
    let Ok((cells, berths)) = Cells::new(alloc, program, params, lines, &bags) else {
        return Err(Fail::new("no memory"));
    };
    let berths = play_over_cells(rt, alloc, program, bags, &cells, berths)?;
    let closed = cells.close(berths);
    Ok((closed.live, closed.items, closed.stop))
}

/// Those over inboxes, with up to three looks before an event.
fn over_inboxes<P: Program, B: Bag<P>>(
    rt: &impl Wait,
    alloc: Global,
    program: &P,
    params: &Params,
    lines: &Lines,
    bags: Vec<B>,
) -> Result<(u64, u64, u64), Fail>
    requires params { params.now ≡ two_params }
    requires lines { lines.now ≡ two_places }
    requires bags { vec_len bags ≡ 2 }
    requires fits { All (λ b. B.fits b program.now) bags.items }
{
    let Ok((post, desks)) = Post::new(alloc, program, params, lines, &bags) else {
        return Err(Fail::new("no memory"));
    };
    let desks = play_two(rt, alloc, program, bags, desks, 3)?;
    let closed = post.close(rt, desks);
    Ok((closed.live, closed.items, closed.stop))
}

fn bag_of(alloc: Global, queens: &Queens, board: Board) -> Result<ListBag<Queens>, Fail> {
    let mut bag = ListBag::empty(alloc, queens);
    if bag.add(board).is_err() {
        return Err(Fail::new("no memory"));
    }
    Ok(bag)
}

/// The bags of the two places: the empty board, and the one with a queen in column 0.
fn bags<R: Abort>(rt: &R, alloc: Global, queens: &Queens) -> Result<Vec<ListBag<Queens>>, Fail>
    ensures { IfOk result (λ bags. vec_len bags ≡ 2) }
{
    let mut boards = Vec::new(alloc);
    assert!(rt; queens.expand(&queens.root(), &mut boards).is_ok());
    assert_eq!(rt; boards.len(), 2);
    assert_eq!(rt; boards[0].columns(), [0u8].as_slice());
    let first = bag_of(alloc, queens, queens.root())?;
    let second = bag_of(alloc, queens, boards[0])?;
    Ok(vec![in alloc; first, second]?)
}

#[test]
fn two_places_share_boards_over_cells(rt: HostRuntime) -> Result<(), Fail> {
    let alloc = rt.alloc();
    let queens = Queens::new(2);
    let bags = bags(&rt, alloc, &queens)?;
    let lines = two_lines(alloc)?;
    let end = over_cells(&rt, alloc, &queens, &PARAMS, &lines, bags)?;
    assert_eq!(rt; end, (0, 4, 0));
    Ok(())
}

#[test]
fn two_places_share_boards_over_inboxes(rt: HostRuntime) -> Result<(), Fail> {
    let alloc = rt.alloc();
    let queens = Queens::new(2);
    let bags = bags(&rt, alloc, &queens)?;
    let lines = two_lines(alloc)?;
    let end = over_inboxes(&rt, alloc, &queens, &PARAMS, &lines, bags)?;
    assert_eq!(rt; end, (0, 4, 0));
    Ok(())
}
