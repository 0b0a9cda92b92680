//! The laws of worlds and their histories. Each function does nothing: its contract is the law,
//! for every way to have children, of worlds whose items are those of a program.
ghost use Rattle.std.specs.Prelude.{◌≡◌, ◌≢◌, ◌*◌, ◌^◌, ◌≤◌, ◌<◌, ℕ, Bool, List, length};
ghost use Rattle.std.specs.Prelude.{IsPermutation};
ghost use Rattle.glb_laws.specs.Tree.{IsSmall};
ghost use Rattle.glb_cube.specs.Lines.{Cube, IsCube};
ghost use Rattle.glb_rules.specs.Joins.{join_to};
ghost use Rattle.glb_rules.specs.World.{Setup, World};
ghost use Rattle.glb_rules.specs.Setups.{IsProper, IsConnected, IsWithinLimits};
ghost use Rattle.glb_core.specs.Lifelines.{IsGraphOf, setup_of, setup_for};
ghost use Rattle.glb_rules.specs.Sight.{sight_at, state_at};
ghost use Rattle.glb_core.specs.Tables.{WorldView};
ghost use Rattle.glb_core.specs.Standing.{Represents};
ghost use Rattle.glb_core.specs.Reports.{EndsHistory, IsPlacesReport};
ghost use Rattle.glb_stats.specs.declared.counters.Counters.{Counters};
ghost use Rattle.glb_rules.specs.Lawful.{IsLawful, sum_of_places};
ghost use Rattle.glb_rules.specs.History.{start, AwakeBy, Run, NoHalt};
ghost use Rattle.glb_rules.specs.Finish.{IsFinished, AllGone, RunsOn};
ghost use Rattle.glb_rules.specs.Bound.{bound};
ghost use Rattle.glb_core.specs.Counters.{all_counters, all_degrees, all_awake, HasSmallCounts};
ghost use Rattle.glb_stats.specs.Balances.{IsBalanced};
ghost use Rattle.glb_rules.specs.declared.params.Params.{Params};
ghost use Rattle.glb_rules.specs.declared.event.Event.{Event};

use glb_laws::{Bag, Monoid, Program};
pub use glb_rules::laws::{
    decisions_are_enabled, enabled_events_lead_on, finished_is_quiet, histories_are_lawful,
    lines_of_sleepers_are_armed, minted_places_see_requests, no_work_is_stranded,
    no_world_is_stuck, requests_are_few, schedules_are_histories, some_place_decides,
    starts_are_lawful, steps_keep_the_invariant,
};

/// The lifeline graph of some places and parameters within the limits give a setup as the other
/// laws ask for it.
pub fn lifelines_give_a_setup()
    ensures proper { (c : Cube) (q : Params) (awake : ℕ → Bool)
        → IsCube c → IsWithinLimits q → q.places ≡ c.places → IsProper (setup_of c q awake) }
    ensures connected { (c : Cube) (q : Params) (awake : ℕ → Bool)
        → IsCube c → IsConnected (setup_of c q awake) }
{}

/// A history without Halt has no more events than the bound of the items that it expanded; on
/// small trees no more than the bound of all their nodes.
pub fn histories_are_bounded<P: Program>()
    ensures done { (children : P.Item → List P.Item) (s : Setup) (bags : ℕ → List P.Item)
        (events : List Event) (w : World P.Item)
        → IsProper s → AwakeBy s bags
        → NoHalt events → Run children s (start s bags) events w
        → length events ≤ bound s (sum_of_places s w (λ a. a.count.items)) }
    ensures nodes { (children : P.Item → List P.Item) (s : Setup) (bags : ℕ → List P.Item)
        (most : ℕ) (events : List Event) (w : World P.Item)
        → IsProper s → AwakeBy s bags → IsSmall children (join_to s.places bags) most
        → NoHalt events → Run children s (start s bags) events w
        → length events ≤ bound s most }
{}

/// So on small trees every run without Halt that goes on while another event is enabled ends in a
/// finished world.
pub fn runs_end<P: Program>()
    ensures { (children : P.Item → List P.Item) (s : Setup) (bags : ℕ → List P.Item)
        (most : ℕ) (worlds : ℕ → World P.Item)
        → IsProper s → AwakeBy s bags → IsSmall children (join_to s.places bags) most
        → worlds 0 ≡ start s bags → RunsOn children s worlds
        → IsFinished (worlds (bound s most)) × AllGone s (worlds (bound s most)) }
{}

/// The counters of a finished world balance, as long as it stays within the limits and not too
/// many items were expanded.
pub fn finished_counters_balance<P: Program>()
    ensures { (s : Setup) (w : World P.Item)
        → IsLawful s w → s.places ≤ 64 → s.tries ≤ 64
        → sum_of_places s w (λ a. a.count.items) ≤ 2 ^ 41 → IsFinished w
        → IsBalanced (all_counters s w) (sum_of_places s w (λ a. a.count.items)) (all_degrees s)
        (all_awake s) }
{}

/// So long the counters of every world stay far from the last values of their types.
pub fn counts_are_small<P: Program>()
    ensures { (s : Setup) (w : World P.Item) (p : ℕ)
        → IsLawful s w → s.places ≤ 64 → s.tries ≤ 64
        → sum_of_places s w (λ a. a.count.items) ≤ 2 ^ 41 → p < s.places
        → HasSmallCounts (w.place p).count }
{}

/// What the end of a history tells, within the limit, is the report of the roots' trees.
pub fn ended_histories_are_reported<P: Program>()
    ensures { (program : P) (c : Cube) (q : Params) (roots bags : ℕ → List P.Item) (items : ℕ)
        (answer : P.Value) (counters : List Counters)
        → IsWithinLimits q → IsGraphOf c q → ((p : ℕ) → IsPermutation (roots p) (bags p))
        → EndsHistory (P.children program) (P.value program) P.Value.combine P.Value.unit
        (setup_for c q bags) bags items answer counters
        → items ≤ q.limit
        → IsPlacesReport (P.children program) (P.value program) P.Value.combine P.Value.unit q roots
        (setup_for c q bags) items answer counters }
{}

/// Two worlds for which one view of the tables stands are in the same state for each place, and
/// look alike to it.
pub fn worlds_of_one_view_look_alike<P: Program, B: Bag<P>>()
    ensures { (x : WorldView B P.Value) (s t : Setup) (w v : World P.Item) (p : ℕ)
        → Represents B.items s x w → Represents B.items t x v → p < x.cube.places
        → (state_at x.params.seed t v p ≡ state_at x.params.seed s w p)
        × (sight_at t v p ≡ sight_at s w p) }
{}
