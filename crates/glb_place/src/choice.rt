//! The decision of a place, by a walk over its in-edges that goes on where the last one ended.
ghost use Rattle.std.specs.Prelude.{◌≡◌, ◌≢◌, ◌<◌, ℕ, true, false, length, slice_index_or};
ghost use Rattle.glb_core.specs.Seen.{sight};
ghost use Rattle.glb_rules.specs.Decision.{is_unseen, MintedSeesWant};
ghost use Rattle.glb_rules.specs.declared.kinds.Phase.TheVariants as phases;
ghost use Rattle.glb_rules.specs.declared.kinds.Credit.TheVariants as credits;
ghost use Rattle.glb_place.specs.inner.Seeing.{LookedBefore, ChoosesBy};

use crate::sight::first_unseen;
use glb_core::{Action, Credit, Event, InEdge, Phase, PlaceState, Seen, next};

/// What a place does next.
#[derive(Clone, Copy)]
pub(crate) enum Choice {
    /// It looks at the first in-edge at which it has not looked.
    Looks,
    /// It does another event.
    Acts(Event),
    /// It looks again at what it waits for.
    Polls,
}

/// Moves `first` to the first in-edge at which a Working place has not looked, if there is one.
fn seek(state: &PlaceState, seen: &Seen, first: &mut usize) -> bool
    requires looked { LookedBefore seen.now.ins.items first.old }
    ensures looked { LookedBefore seen.now.ins.items first.new }
    ensures works { result ≡ true → (state.now.phase ≡ phases.Working)
        × (state.now.credit ≡ credits.One) }
    ensures here { result ≡ true → (first.new < length seen.now.ins.items)
        × ((d : InEdge) → is_unseen (slice_index_or seen.now.ins.items first.new d) ≡ true) }
    ensures all { result ≡ false → state.now.phase ≡ phases.Working → state.now.credit ≡ credits.One
        → (i : ℕ) (d : InEdge) → i < length seen.now.ins.items
        → is_unseen (slice_index_or seen.now.ins.items i d) ≡ false }
{
    match (state.phase, state.credit) {
        (Phase::Working, Credit::One) => {
            let at = first_unseen(&seen.ins, *first);
            *first = at;
            at < seen.ins.len()
        }
        _ => false,
    }
}

/// What the place does next; `first` is moved to the first in-edge at which it has not looked.
pub(crate) fn choose(state: &PlaceState, seen: &Seen, first: &mut usize) -> Choice
    requires here { state.now.phase ≢ phases.Gone }
    requires works { state.now.phase ≡ phases.Working → state.now.credit ≢ credits.Zero }
    requires minted { MintedSeesWant state.now (sight seen.now) }
    requires goes_on { seen.now.ended ≡ false }
    requires not_halted { seen.now.stop ≡ 0 }
    requires looked { LookedBefore seen.now.ins.items first.old }
    ensures looked { LookedBefore seen.now.ins.items first.new }
    ensures chooses { ChoosesBy state.now (sight seen.now) first.new result }
{
    if seek(state, seen, first) {
        return Choice::Looks;
    }
    match next(state, seen) {
        Action::Do(event) => Choice::Acts(event),
        Action::Poll => Choice::Polls,
    }
}
