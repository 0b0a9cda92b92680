//! What the driver knows of each place, so that a place looks round only where what it sees may
//! have changed, and one that has nothing to do is passed without a look.
ghost use Rattle.std.specs.Prelude.{◌≡◌, ◌≢◌, ◌==◌, ℕ, ◌<◌, List, length, get_or, set, IfOk};
ghost use Rattle.std.specs.Prelude.{IfSome};
ghost use Rattle.glb_rules.specs.World.{Setup, World as AbstractWorld};
ghost use Rattle.glb_core.specs.Seen.{sight};
ghost use Rattle.glb_rules.specs.Sight.{sight_at};
ghost use Rattle.glb_rules.specs.Events.{NamesBelow};
ghost use Rattle.glb_core.specs.Tables.{WorldView};
ghost use Rattle.glb_core.specs.Standing.{Represents};
ghost use Rattle.glb_turns.specs.inner.Turns.{IsPlayed, DecidesAt};
ghost use Rattle.glb_rules.specs.Events.{other_end};
ghost use Rattle.glb_turns.specs.inner.Watches.{forgotten, IsFirstUnseen, LooksBy, LooksOn};
ghost use Rattle.glb_turns.specs.inner.Watches.{NotesLook, IsWatchOf, HasWatches, AreStale};
ghost use Rattle.glb_turns.specs.inner.Watches.{Follows};
ghost use Rattle.glb_turns.specs.declared.watch.Knowledge.TheVariants as knowledge;

use glb_core::{Action, Credit, Event, InEdge, Kind, Mark, Phase, PlaceState, Seen, World, next};
use glb_cube::Lines;
use glb_laws::{Bag, NoMemory, Program};
use std::alloc::Global;

/// What is known of a place in the present world.
#[derive(Clone, Copy)]
pub(crate) enum Knowledge {
    /// Nothing: it looks round before it decides.
    Stale,
    /// It has seen all that it can see.
    Fresh,
    /// So too, and it looks next at the in-edge at this index of those that it sees.
    Looks { at: usize },
    /// It has nothing to do.
    Passes,
}

/// What a place has seen, and what is known of it.
#[derive(Drop)]
pub(crate) struct Watch {
    pub seen: Seen,
    pub knowledge: Knowledge,
}

/// A watch for each place, of which nothing is known yet.
pub(crate) fn watches_of(alloc: Global, lines: &Lines) -> Result<Vec<Watch>, NoMemory>
    ensures many { IfOk result (λ watches. length watches.items ≡ lines.now.places) }
    ensures stale { IfOk result (λ watches. AreStale lines.now watches.items) }
{
    let mut watches = Vec::new(alloc);
    for place in 0..lines.places() {
        let seen = Seen::new(alloc, place, lines)?;
        watches.push(Watch {
            seen,
            knowledge: Knowledge::Stale,
        })?;
    }
    Ok(watches)
}

/// Nothing is known of the place any more.
fn forget(watches: &mut [Watch], place: u32)
    requires { place < length watches.old }
    ensures { (d : Watch) → watches.new
        ≡ set watches.old place (forgotten (get_or watches.old place d)) }
{
    watches[place as usize].knowledge = Knowledge::Stale;
}

/// Nothing is known of any place any more.
pub(crate) fn forget_all(watches: &mut [Watch])
    ensures { (p : ℕ) (d : Watch) → p < length watches.old
        → get_or watches.new p d ≡ forgotten (get_or watches.old p d) }
{
    for place in 0..watches.len() {
        watches[place].knowledge = Knowledge::Stale;
    }
}

/// Looks round where what was seen is stale.
fn refresh<P: Program, B: Bag<P>>(world: &World<P, B>, watch: &mut Watch, place: u32)
    requires place { place < world.now.cube.places }
    requires watch { IsWatchOf {I = P.Item} B.items world.now place watch.old }
    requires open { watch.old.knowledge ≢ knowledge.Passes }
    ensures watch { IsWatchOf {I = P.Item} B.items world.now place watch.new }
    ensures fresh { (s : Setup) (w : AbstractWorld P.Item) → Represents B.items s world.now w
        → sight watch.new.seen ≡ sight_at s w place }
{
    match watch.knowledge {
        Knowledge::Stale => {
            world.look_round(place, &mut watch.seen);
            watch.knowledge = Knowledge::Fresh;
        }
        Knowledge::Fresh | Knowledge::Looks { .. } | Knowledge::Passes => {}
    }
}

/// Where the first in-edge is that is Unseen, if there is one.
fn first_unseen(ins: &[InEdge]) -> Option<usize>
    ensures { IfSome result (IsFirstUnseen ins.now) }
{
    for at in 0..ins.len() {
        if matches!(ins[at].mark, Mark::Unseen) {
            return Some(at);
        }
    }
    None
}

/// Whether a place that has seen all looks at an in-edge next, and at which.
fn next_look(state: &PlaceState, seen: &Seen) -> Knowledge
    ensures { LooksBy state.now (sight seen.now) result }
{
    if seen.stop != 0 || seen.ended {
        return Knowledge::Fresh;
    }
    match (state.phase, state.credit) {
        (Phase::Working, Credit::One) => match first_unseen(&seen.ins) {
            Some(at) => Knowledge::Looks { at },
            None => Knowledge::Fresh,
        },
        _ => Knowledge::Fresh,
    }
}

/// What the place does next, if it has something to do, where this is not known yet.
fn decide<P: Program, B: Bag<P>>(
    world: &World<P, B>,
    watch: &mut Watch,
    place: u32,
) -> Option<Event>
    requires place { place < world.now.cube.places }
    requires watch { IsWatchOf {I = P.Item} B.items world.now place watch.old }
    requires open { watch.old.knowledge ≢ knowledge.Passes }
    requires played { IsPlayed {I = P.Item} B.items world.now }
    ensures watch { IsWatchOf {I = P.Item} B.items world.now place watch.new }
    ensures decides { (s : Setup) (w : AbstractWorld P.Item) → Represents B.items s world.now w →
        DecidesAt world.now.params.seed s w place result }
{
    let state = world.state(place);
    if let Phase::Gone = state.phase {
        watch.knowledge = Knowledge::Passes;
        return None;
    }
    refresh(world, watch, place);
    match next(&state, &watch.seen) {
        Action::Do(event) => {
            watch.knowledge = next_look(&state, &watch.seen);
            Some(event)
        }
        Action::Poll => {
            watch.knowledge = Knowledge::Passes;
            None
        }
    }
}

/// What the place does next, if it has something to do.
pub(crate) fn decision_of<P: Program, B: Bag<P>>(
    world: &World<P, B>,
    watch: &mut Watch,
    place: u32,
) -> Option<Event>
    requires place { place < world.now.cube.places }
    requires watch { IsWatchOf {I = P.Item} B.items world.now place watch.old }
    requires played { IsPlayed {I = P.Item} B.items world.now }
    ensures watch { IsWatchOf {I = P.Item} B.items world.now place watch.new }
    ensures decides { (s : Setup) (w : AbstractWorld P.Item) → Represents B.items s world.now w →
        DecidesAt world.now.params.seed s w place result }
{
    match watch.knowledge {
        Knowledge::Passes => None,
        Knowledge::Looks { at } => {
            let edge = watch.seen.ins[at];
            Some(Event::Look {
                place,
                thief: edge.thief,
                kind: edge.kind,
            })
        }
        Knowledge::Stale | Knowledge::Fresh => decide(world, watch, place),
    }
}

/// Whether the place that has looked at the in-edge at the index looks at the one after it.
fn look_on(ins: &[InEdge], at: usize) -> Knowledge
    requires { at < length ins.now }
    ensures { LooksOn ins.now at result }
{
    if at + 1 < ins.len() && matches!(ins[at + 1].mark, Mark::Unseen) {
        Knowledge::Looks { at: at + 1 }
    } else {
        Knowledge::Fresh
    }
}

/// What is known of a place that has looked at the in-edge from this thief: all still, where this
/// was the in-edge at which it was to look.
fn note_look(watch: &mut Watch, thief: u32, kind: Kind)
    ensures { NotesLook thief kind watch.old watch.new }
{
    if let Knowledge::Looks { at } = watch.knowledge {
        if at < watch.seen.ins.len() {
            let edge = watch.seen.ins[at];
            if edge.thief == thief && edge.kind == kind {
                watch.seen.ins[at].mark = edge.edge.mark_after_look();
                watch.knowledge = look_on(&watch.seen.ins, at);
                return;
            }
        }
    }
    watch.knowledge = Knowledge::Stale;
}

/// Keeps what is known of the places after the event, but for those that see what it changed.
/// Before the event the run had this end, or not, and this stop code.
pub(crate) fn notice<P: Program, B: Bag<P>>(
    world: &World<P, B>,
    watches: &mut [Watch],
    event: Event,
    ended: bool,
    stop: u64,
)
    requires many { length watches.old ≡ world.now.cube.places }
    requires named { NamesBelow world.now.cube.places event }
    ensures { (old : WorldView B P.Value) → HasWatches {I = P.Item} B.items old watches.old
        → ended ≡ (old.live == 0) → stop ≡ old.stop
        → (children : P.Item → List P.Item) → Follows B.items children old event world.now
        → HasWatches {I = P.Item} B.items world.now watches.new }
{
    if (world.live() == 0) == ended && world.stop() == stop {
        match event {
            Event::Look { place, thief, kind } => {
                note_look(&mut watches[place as usize], thief, kind);
            }
            _ => {
                forget(watches, event.place());
                forget(watches, event.other_end());
            }
        }
    } else {
        forget_all(watches);
    }
}
