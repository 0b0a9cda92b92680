//! What each kind of step does to the world that the table shows. Each function does nothing: its
//! contract is the law.
ghost use Rattle.std.specs.Prelude.{◌≡◌, ℕ, List, map, All};
ghost use Rattle.std.specs.List.{flat_map};
ghost use Rattle.glb_laws.specs.Expansion.{combined};
ghost use Rattle.glb_rules.specs.World.{Setup};
ghost use Rattle.glb_rules.specs.declared.local.EdgeName.{EdgeName};
ghost use Rattle.glb_core.specs.Reports.{EndsHistory};
ghost use Rattle.glb_place.specs.Close.{HasLeft, counters_in, done_of};
ghost use Rattle.glb_place.specs.declared.record.Record.{Record};
ghost use Rattle.glb_cells.specs.Ends.{IsLastOf};
ghost use Rattle.glb_cells.specs.Plays.{IsOneStep, Settles, Asks, Looks, Learns, Denies, GivesUp, Shrugs, Halts, Stops, Mints, Begins, Hands, Takes, Clears, Burns, Sleeps, Overs};
ghost use Rattle.glb_cells.specs.declared.key.Start.{Start};
ghost use Rattle.glb_cells.specs.Starts.{setup_from};
ghost use Rattle.glb_cells.specs.Follows.{OneWorld, AtStart, AskFollows, DenyFollows, LearnFollows, LookFollows, BeginFollows, HandFollows, TakeFollows, ClearFollows, MintFollows, BurnFollows, SleepFollows, OverFollows, StopFollows, HaltFollows, SettleFollows, GiveUpFollows, ShrugFollows};

use glb_laws::{Bag, Program};

/// The world that a table shows is one and the same.
pub fn tables_show_one_world<P: Program, B: Bag<P>>()
    ensures { (key : Start P B) → OneWorld (setup_from B.items B.fits P.children key) }
{}

/// While no place has made a step it is the Start.
pub fn it_is_the_start_at_first<P: Program, B: Bag<P>>()
    ensures { (key : Start P B) → AtStart (setup_from B.items B.fits P.children key) }
{}

/// A request takes the world on.
pub fn asks_go_with_the_world<P: Program, B: Bag<P>>()
    ensures { (key : Start P B) → AskFollows (setup_from B.items B.fits P.children key) }
{}

/// A denial takes it on.
pub fn denials_go_with_the_world<P: Program, B: Bag<P>>()
    ensures { (key : Start P B) → DenyFollows (setup_from B.items B.fits P.children key) }
{}

/// A look at an own request leaves it.
pub fn own_looks_go_with_the_world<P: Program, B: Bag<P>>()
    ensures { (key : Start P B) → LearnFollows (setup_from B.items B.fits P.children key) }
{}

/// A look at a request of another takes it on where it moves the mark, and else leaves it.
pub fn looks_go_with_the_world<P: Program, B: Bag<P>>()
    ensures { (key : Start P B) → LookFollows (setup_from B.items B.fits P.children key) }
{}

/// The beginning of a gift leaves it.
pub fn gifts_begin_go_with_the_world<P: Program, B: Bag<P>>()
    ensures { (key : Start P B) → BeginFollows (setup_from B.items B.fits P.children key) }
{}

/// Its end takes it on.
pub fn gifts_end_go_with_the_world<P: Program, B: Bag<P>>()
    ensures { (key : Start P B) → HandFollows (setup_from B.items B.fits P.children key) }
{}

/// The beginning of a taking takes it on.
pub fn takings_begin_go_with_the_world<P: Program, B: Bag<P>>()
    ensures { (key : Start P B) → TakeFollows (setup_from B.items B.fits P.children key) }
{}

/// Its end leaves it.
pub fn takings_end_go_with_the_world<P: Program, B: Bag<P>>()
    ensures { (key : Start P B) → ClearFollows (setup_from B.items B.fits P.children key) }
{}

/// A mint takes it on.
pub fn mints_go_with_the_world<P: Program, B: Bag<P>>()
    ensures { (key : Start P B) → MintFollows (setup_from B.items B.fits P.children key) }
{}

/// A burn takes it on.
pub fn burns_go_with_the_world<P: Program, B: Bag<P>>()
    ensures { (key : Start P B) → BurnFollows (setup_from B.items B.fits P.children key) }
{}

/// A place that falls asleep takes it on.
pub fn sleeps_go_with_the_world<P: Program, B: Bag<P>>()
    ensures { (key : Start P B) → SleepFollows (setup_from B.items B.fits P.children key) }
{}

/// A read of live takes it on where live is 0, and else leaves it.
pub fn reads_of_live_go_with_the_world<P: Program, B: Bag<P>>()
    ensures { (key : Start P B) → OverFollows (setup_from B.items B.fits P.children key) }
{}

/// A read of stop takes it on where stop is not 0, and else leaves it.
pub fn reads_of_stop_go_with_the_world<P: Program, B: Bag<P>>()
    ensures { (key : Start P B) → StopFollows (setup_from B.items B.fits P.children key) }
{}

/// A halt takes it on.
pub fn halts_go_with_the_world<P: Program, B: Bag<P>>()
    ensures { (key : Start P B) → HaltFollows (setup_from B.items B.fits P.children key) }
{}

/// A batch takes it on.
pub fn batches_go_with_the_world<P: Program, B: Bag<P>>()
    ensures { (key : Start P B) → SettleFollows (setup_from B.items B.fits P.children key) }
{}

/// A refused request to a random victim is given up, which takes it on.
pub fn steal_shrugs_go_with_the_world<P: Program, B: Bag<P>>()
    ensures { (key : Start P B) → GiveUpFollows (setup_from B.items B.fits P.children key) }
{}

/// A refused request over a line takes it on, unless the part has come.
pub fn line_shrugs_go_with_the_world<P: Program, B: Bag<P>>()
    ensures { (key : Start P B) → ShrugFollows (setup_from B.items B.fits P.children key) }
{}

/// Each play is one step: it is counted, and the word that it found is kept. So a call that is made
/// of plays gives no answer without its step.
pub fn each_play_is_one_step<P: Program, B: Bag<P>>()
    ensures settle { (rest : List P.Item) (gains : List P.Value)
        → IsOneStep {B = B} {Q = P} {I = P.Item}
        (Settles P.children P.value P.Value.combine P.Value.unit rest gains) }
    ensures ask { (n : EdgeName) → IsOneStep {B = B} {Q = P} {I = P.Item} (Asks n) }
    ensures look { (n : EdgeName) → IsOneStep {B = B} {Q = P} {I = P.Item} (Looks n) }
    ensures learn { (n : EdgeName) → IsOneStep {B = B} {Q = P} {I = P.Item} (Learns n) }
    ensures deny { (n : EdgeName) → IsOneStep {B = B} {Q = P} {I = P.Item} (Denies n) }
    ensures give_up { (n : EdgeName) → IsOneStep {B = B} {Q = P} {I = P.Item} (GivesUp n) }
    ensures shrug { (n : EdgeName) → IsOneStep {B = B} {Q = P} {I = P.Item} (Shrugs n) }
    ensures halt { IsOneStep {B = B} {Q = P} {I = P.Item} Halts }
    ensures stop { IsOneStep {B = B} {Q = P} {I = P.Item} Stops }
    ensures mint { IsOneStep {B = B} {Q = P} {I = P.Item} Mints }
    ensures begin { (part : List P.Item) → IsOneStep {B = B} {Q = P} {I = P.Item} (Begins part) }
    ensures hand { (n : EdgeName) → IsOneStep {B = B} {Q = P} {I = P.Item} (Hands B.items n) }
    ensures take { (n : EdgeName)
        → IsOneStep {B = B} {Q = P} {I = P.Item} (Takes B.items B.fits n) }
    ensures clear { IsOneStep {B = B} {Q = P} {I = P.Item} Clears }
    ensures burn { IsOneStep {B = B} {Q = P} {I = P.Item} Burns }
    ensures sleep { IsOneStep {B = B} {Q = P} {I = P.Item} Sleeps }
    ensures over { IsOneStep {B = B} {Q = P} {I = P.Item} Overs }
{}

/// A run whose places have all left with live 0 ended as a history that begins with its bags.
pub fn closed_runs_end_histories<P: Program>()
    ensures { (program : P) (s : Setup) (bags : ℕ → List P.Item) (items stop : ℕ)
        (rs : List (Record P.Item)) (answer : P.Value)
        → IsLastOf (P.children program) s bags 0 items stop rs → All HasLeft rs
        → answer ≡ combined (P.value program) P.Value.combine P.Value.unit (flat_map done_of rs)
        → EndsHistory (P.children program) (P.value program) P.Value.combine P.Value.unit s bags
        items answer (map counters_in rs) }
{}
