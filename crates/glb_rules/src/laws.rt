//! The laws of worlds and their histories. Each function does nothing: its contract is the law,
//! for every way to have children, of worlds whose items are those of a program.
ghost use Rattle.std.specs.Prelude.{◌≡◌, ◌≢◌, ◌*◌, ◌^◌, ◌≤◌, ◌<◌, ℕ, Bool, List, length};
ghost use Rattle.glb_rules.specs.Joins.{join_to};
ghost use Rattle.glb_rules.specs.World.{Setup, World};
ghost use Rattle.glb_rules.specs.Events.{IsInRange, IsThere};
ghost use Rattle.glb_rules.specs.Steps.{IsEnabled, Step};
ghost use Rattle.glb_rules.specs.Setups.{IsProper, IsConnected, degree};
ghost use Rattle.glb_rules.specs.Lawful.{IsLawful, IsLawfulFrom};
ghost use Rattle.glb_rules.specs.History.{start, AwakeBy, Run, NoHalt};
ghost use Rattle.glb_rules.specs.Finish.{IsFinished, IsQuiet, AllGone, SleepersAreArmed, SomeItems};
ghost use Rattle.glb_rules.specs.Finish.{SomeSleeper, SomeSleeperAwaits, IsStuck};
ghost use Rattle.glb_rules.specs.Sight.{sight_at, state_at};
ghost use Rattle.glb_rules.specs.Decision.{MintedSeesWant};
ghost use Rattle.glb_rules.specs.Schedules.{IsDecided, DecidedRun, ScheduledRun};
ghost use Rattle.glb_rules.specs.Schedules.{MintersKnowWhoAsks};
ghost use Rattle.glb_rules.specs.declared.event.Event.{Event};

use crate::Phase;
use glb_laws::Program;

/// Every start meets the invariant.
pub fn starts_are_lawful<P: Program>()
    ensures { (children : P.Item → List P.Item) (s : Setup) (bags : ℕ → List P.Item)
        → AwakeBy s bags → IsLawfulFrom children (join_to s.places bags) s (start s bags) }
{}

/// Every step keeps the invariant, also one by which a place leaves or halts the run.
pub fn steps_keep_the_invariant<P: Program>()
    ensures { (children : P.Item → List P.Item) (roots : List P.Item) (s : Setup)
        (old new : World P.Item) (event : Event)
        → IsProper s → IsLawfulFrom children roots s old → Step children s old event new
        → IsLawfulFrom children roots s new }
{}

/// So every world that a history reaches from a start meets it.
pub fn histories_are_lawful<P: Program>()
    ensures { (children : P.Item → List P.Item) (s : Setup) (bags : ℕ → List P.Item)
        (events : List Event) (w : World P.Item)
        → IsProper s → AwakeBy s bags → Run children s (start s bags) events w
        → IsLawfulFrom children (join_to s.places bags) s w }
{}

/// An event that is enabled leads on, over an edge that is there.
pub fn enabled_events_lead_on<P: Program>()
    ensures step { (children : P.Item → List P.Item) (s : Setup) (w : World P.Item) (event : Event)
        → IsProper s → IsLawful s w → IsInRange s event → IsEnabled s w event
        → (new : World P.Item) × Step children s w event new }
    ensures edge { (s : Setup) (w : World P.Item) (event : Event)
        → IsLawful s w → IsInRange s event → IsEnabled s w event → IsThere s event }
{}

/// A finished world has no work left, in a bag or travelling, and only places that sleep or are
/// gone. Nothing is asked of the stop code, so this holds after a Halt too.
pub fn finished_is_quiet<P: Program>()
    ensures { (s : Setup) (w : World P.Item) → IsLawful s w → IsFinished w → IsQuiet s w }
{}

/// In a world that meets the invariant each lifeline of a place that sleeps is remembered, or has a
/// part for it.
pub fn lines_of_sleepers_are_armed<P: Program>()
    ensures { (s : Setup) (w : World P.Item) → IsLawful s w → SleepersAreArmed s w }
{}

/// Until a Halt, where some place holds items and another one sleeps, some sleeper has a lifeline
/// that is remembered, or has a part, at a place that is awake.
pub fn no_work_is_stranded<P: Program>()
    ensures { (children : P.Item → List P.Item) (s : Setup) (bags : ℕ → List P.Item)
        (events : List Event) (w : World P.Item)
        → IsProper s → IsConnected s → AwakeBy s bags
        → NoHalt events → Run children s (start s bags) events w
        → SomeItems s w → SomeSleeper s w → SomeSleeperAwaits s w }
{}

/// Until a Halt, where no other event is enabled, the world is finished and every place is gone.
pub fn no_world_is_stuck<P: Program>()
    ensures { (children : P.Item → List P.Item) (s : Setup) (bags : ℕ → List P.Item)
        (events : List Event) (w : World P.Item)
        → IsProper s → AwakeBy s bags
        → NoHalt events → Run children s (start s bags) events w
        → IsStuck s w → IsFinished w × AllGone s w }
{}

/// What a place decides is enabled.
pub fn decisions_are_enabled<P: Program>()
    ensures { (seed : ℕ) (s : Setup) (w : World P.Item) (event : Event)
        → IsProper s → IsLawful s w → IsDecided seed s w event
        → IsInRange s event × IsEnabled s w event }
{}

/// Where decisions alone have led, some place decides on an event while live is above 0.
pub fn some_place_decides<P: Program>()
    ensures { (children : P.Item → List P.Item) (s : Setup) (seed : ℕ) (bags : ℕ → List P.Item)
        (events : List Event) (w : World P.Item)
        → IsProper s → AwakeBy s bags → DecidedRun children s seed (start s bags) events w
        → 0 < w.live → (event : Event) × IsDecided seed s w event }
{}

/// Where decisions alone have led, a place that has minted knows who asks it, and sees it.
pub fn minted_places_see_requests<P: Program>()
    ensures knows { (children : P.Item → List P.Item) (s : Setup) (seed : ℕ)
        (bags : ℕ → List P.Item) (events : List Event) (w : World P.Item)
        → IsProper s → AwakeBy s bags → DecidedRun children s seed (start s bags) events w
        → MintersKnowWhoAsks s w }
    ensures sees { (children : P.Item → List P.Item) (s : Setup) (seed : ℕ)
        (bags : ℕ → List P.Item) (events : List Event) (w : World P.Item) (p : ℕ)
        → IsProper s → AwakeBy s bags → DecidedRun children s seed (start s bags) events w
        → p < s.places → (w.place p).phase ≢ Phase.Gone
        → MintedSeesWant (state_at seed s w p) (sight_at s w p) }
{}

/// The run of a schedule is a history in which decisions alone lead on, and no place halts it.
pub fn schedules_are_histories<P: Program>()
    ensures decided { (children : P.Item → List P.Item) (s : Setup) (seed : ℕ)
        (old new : World P.Item) (numbers : List ℕ) (events : List Event)
        → IsProper s → ScheduledRun children s seed old numbers events new
        → DecidedRun children s seed old events new }
    ensures history { (children : P.Item → List P.Item) (s : Setup) (seed : ℕ)
        (old new : World P.Item) (events : List Event)
        → DecidedRun children s seed old events new → NoHalt events
        × Run children s old events new }
{}

/// A place asks few random victims, and few times over its lifelines, for each item that it
/// expands.
pub fn requests_are_few<P: Program>()
    ensures asks { (s : Setup) (w : World P.Item) (p : ℕ)
        → IsLawful s w → p < s.places
        → (w.place p).count.asks ≤ s.tries * (w.place p).count.items }
    ensures line_asks { (s : Setup) (w : World P.Item) (p : ℕ)
        → IsLawful s w → p < s.places
        → (w.place p).count.line_asks ≤ degree s p * (w.place p).count.items }
{}
