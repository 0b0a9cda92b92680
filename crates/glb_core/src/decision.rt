//! The decision of a place, by walks over what it sees.
ghost use Rattle.std.specs.Prelude.{◌≡◌, ◌≢◌, ℕ, List, None};
ghost use Rattle.glb_core.specs.Seen.{sight};
ghost use Rattle.glb_rules.specs.Decision.{decide, by_credit, by_phase, resting_action};
ghost use Rattle.glb_rules.specs.Decision.{waiting_action, first, is_unseen, is_pending, is_asked};
ghost use Rattle.glb_rules.specs.Decision.{is_remembered, is_idle, is_wanted, has_loot};
ghost use Rattle.glb_rules.specs.Decision.{MintedSeesWant};

use crate::{Action, Credit, Edge, Event, InEdge, Kind, Mark, OutEdge, Phase, PlaceState, Seen};

/// What a place does next. Every driver plays a place by it.
pub fn next(state: &PlaceState, seen: &Seen) -> Action
    requires here { state.now.phase ≢ Phase.Gone }
    requires minted { MintedSeesWant state.now (sight seen.now) }
    ensures rule { result ≡ decide state.now (sight seen.now) }
{
    if seen.stop != 0 || seen.ended {
        return Action::Do(Event::Leave { place: state.place });
    }
    match state.credit {
        Credit::Taken => Action::Do(Event::Burn { place: state.place }),
        Credit::Minted => next_minted(state, seen),
        Credit::Zero | Credit::One => next_by_phase(state, seen),
    }
}

fn next_minted(state: &PlaceState, seen: &Seen) -> Action
    ensures { result ≡ by_credit Credit.Minted state.now (sight seen.now) }
{
    match first_wanting(&seen.ins) {
        Some(edge) => Action::Do(Event::Give {
            place: state.place,
            thief: edge.thief,
            kind: edge.kind,
        }),
        None => Action::Poll,
    }
}

fn next_by_phase(state: &PlaceState, seen: &Seen) -> Action
    ensures { result ≡ by_phase state.now.phase state.now (sight seen.now) }
{
    if let Phase::Working = state.phase {
        return next_working(state, seen);
    }
    match first_asked(&seen.ins) {
        Some(edge) => Action::Do(Event::Deny {
            place: state.place,
            thief: edge.thief,
            kind: edge.kind,
        }),
        None => next_not_working(state, seen),
    }
}

fn next_working(state: &PlaceState, seen: &Seen) -> Action
    ensures { result ≡ by_phase Phase.Working state.now (sight seen.now) }
{
    let place = state.place;
    if let Some(edge) = first_unseen(&seen.ins) {
        return Action::Do(Event::Look {
            place,
            thief: edge.thief,
            kind: edge.kind,
        });
    }
    let requests = requests_of(&seen.ins);
    if state.size >= 2 && requests.wanting.is_some() {
        return Action::Do(Event::Mint { place });
    }
    match requests.pending {
        Some(edge) => Action::Do(Event::Deny {
            place,
            thief: edge.thief,
            kind: edge.kind,
        }),
        None => Action::Do(Event::Batch { place }),
    }
}

fn next_not_working(state: &PlaceState, seen: &Seen) -> Action
    ensures { result ≡ resting_action state.now.phase state.now (sight seen.now) }
{
    match state.phase {
        Phase::Working | Phase::Gone => Action::Poll,
        Phase::Idle => next_idle(state, seen),
        Phase::Waiting { victim, kind } => next_waiting(state, victim, kind, seen.waited),
        Phase::Asleep => match answers_of(&seen.outs).loot {
            Some(line) => take_line(state.place, line),
            None => Action::Poll,
        },
    }
}

fn next_idle(state: &PlaceState, seen: &Seen) -> Action
    ensures { result ≡ resting_action Phase.Idle state.now (sight seen.now) }
{
    let place = state.place;
    let answers = answers_of(&seen.outs);
    if let Some(line) = answers.loot {
        return take_line(place, line);
    }
    if state.tries > 0 {
        return Action::Do(Event::Ask {
            place,
            victim: state.victim,
            kind: Kind::Steal,
        });
    }
    match answers.idle {
        Some(line) => Action::Do(Event::Ask {
            place,
            victim: line.victim,
            kind: Kind::Line,
        }),
        None => Action::Do(Event::Sleep { place }),
    }
}

fn next_waiting(state: &PlaceState, victim: u32, kind: Kind, waited: Edge) -> Action
    ensures { result ≡ waiting_action state.now victim kind waited }
{
    let place = state.place;
    match waited {
        Edge::Idle | Edge::Asked => Action::Poll,
        Edge::Refused => Action::Do(Event::Shrug {
            place,
            victim,
            kind,
        }),
        Edge::Loot => Action::Do(Event::Take {
            place,
            victim,
            kind,
        }),
    }
}

fn take_line(place: u32, line: OutEdge) -> Action
    ensures { result ≡ Action.Do (Event.Take place line.victim Kind.Line) }
{
    Action::Do(Event::Take {
        place,
        victim: line.victim,
        kind: Kind::Line,
    })
}

/// Most turns of a Working place are looks, and this walk reads marks alone.
fn first_unseen(ins: &[InEdge]) -> Option<InEdge>
    ensures { result ≡ first is_unseen ins.now }
{
    for edge in ins {
        if matches!(edge.mark, Mark::Unseen) {
            return Some(*edge);
        }
    }
    None
}

/// What a Working place has to answer: the first in-edge of each sort.
#[derive(Clone, Copy)]
struct Requests {
    wanting: Option<InEdge>,
    pending: Option<InEdge>,
}

fn requests_of(ins: &[InEdge]) -> Requests
    ensures wanting { result.wanting ≡ first is_wanted ins.now }
    ensures pending { result.pending ≡ first is_pending ins.now }
{
    let mut wanting = None;
    let mut pending = None;
    for edge in ins {
        match edge.mark {
            Mark::Pending => {
                wanting = wanting.or(Some(*edge));
                pending = pending.or(Some(*edge));
            }
            Mark::Unseen | Mark::Clear => {
                if is_remembered(edge) {
                    wanting = wanting.or(Some(*edge));
                }
            }
        }
    }
    Requests { wanting, pending }
}

/// The request over this lifeline was refused, and is remembered.
fn is_remembered(edge: &InEdge) -> bool
    ensures { result ≡ is_remembered edge.now }
{
    matches!((edge.kind, edge.edge), (Kind::Line, Edge::Refused))
}

fn first_wanting(ins: &[InEdge]) -> Option<InEdge>
    ensures { result ≡ first is_wanted ins.now }
{
    for edge in ins {
        if matches!(edge.mark, Mark::Pending) || is_remembered(edge) {
            return Some(*edge);
        }
    }
    None
}

fn first_asked(ins: &[InEdge]) -> Option<InEdge>
    ensures { result ≡ first is_asked ins.now }
{
    for edge in ins {
        if matches!(edge.edge, Edge::Asked) {
            return Some(*edge);
        }
    }
    None
}

/// What the lifelines of a place answer: the first of each sort.
#[derive(Clone, Copy)]
struct Answers {
    loot: Option<OutEdge>,
    idle: Option<OutEdge>,
}

/// Stops at a part, since a place takes it before it asks again.
fn answers_of(outs: &[OutEdge]) -> Answers
    ensures loot { result.loot ≡ first has_loot outs.now }
    ensures idle { result.loot ≡ None → result.idle ≡ first is_idle outs.now }
{
    let mut idle = None;
    for line in outs {
        match line.edge {
            Edge::Loot => {
                return Answers {
                    loot: Some(*line),
                    idle,
                };
            }
            Edge::Idle => idle = idle.or(Some(*line)),
            Edge::Asked | Edge::Refused => {}
        }
    }
    Answers { loot: None, idle }
}
