//! What a place counts, call by call: a place and every fabric keep counters, and each event raises
//! them in one way. A counter stops at the last value of its type.
ghost use Rattle.std.specs.Prelude.{◌≡◌, ℕ, ◌+◌};
ghost use Rattle.glb_rules.specs.Effects.{of_kind, wake_count};
ghost use Rattle.glb_core.specs.Counters.{counters_of};
ghost use Rattle.glb_rules.specs.declared.local.Counts.{Counts};

use glb_core::{Kind, Phase};
use glb_stats::Counters;

/// A batch expanded `done` items.
pub fn count_items(counters: &mut Counters, done: u64)
    ensures { (n : Counts) → counters.old ≡ counters_of n
        → counters.new ≡ counters_of (record n { items = n.items + done }) }
{
    counters.items = counters.items.saturating_add(done);
}

/// A request was made.
pub fn count_ask(counters: &mut Counters, kind: Kind)
    ensures { (n : Counts) → counters.old ≡ counters_of n → counters.new ≡ counters_of
        (record n { asks = n.asks + of_kind kind 1 0; line_asks = n.line_asks + of_kind kind 0 1 }) }
{
    match kind {
        Kind::Steal => counters.asks = counters.asks.saturating_add(1),
        Kind::Line => counters.line_asks = counters.line_asks.saturating_add(1),
    }
}

/// A request was refused.
pub fn count_denied(counters: &mut Counters, kind: Kind)
    ensures { (n : Counts) → counters.old ≡ counters_of n
        → counters.new ≡ counters_of (record n { denied = n.denied + of_kind kind 1 0 }) }
{
    match kind {
        Kind::Steal => counters.denied = counters.denied.saturating_add(1),
        Kind::Line => {}
    }
}

/// A refusal was taken note of.
pub fn count_shrug(counters: &mut Counters, kind: Kind)
    ensures { (n : Counts) → counters.old ≡ counters_of n
        → counters.new ≡ counters_of (record n { shrugs = n.shrugs + of_kind kind 1 0 }) }
{
    match kind {
        Kind::Steal => counters.shrugs = counters.shrugs.saturating_add(1),
        Kind::Line => {}
    }
}

/// The place fell asleep.
pub fn count_sleep(counters: &mut Counters)
    ensures { (n : Counts) → counters.old ≡ counters_of n
        → counters.new ≡ counters_of (record n { sleeps = n.sleeps + 1 }) }
{
    counters.sleeps = counters.sleeps.saturating_add(1);
}

/// A part of so many units was given.
pub fn count_given(counters: &mut Counters, kind: Kind, units: u64)
    ensures { (n : Counts) → counters.old ≡ counters_of n → counters.new ≡ counters_of
        (record n {
          given = n.given + of_kind kind 1 0;
          line_given = n.line_given + of_kind kind 0 1;
          sent_units = n.sent_units + units;
        }) }
{
    counters.sent_units = counters.sent_units.saturating_add(u128::from(units));
    match kind {
        Kind::Steal => counters.given = counters.given.saturating_add(1),
        Kind::Line => counters.line_given = counters.line_given.saturating_add(1),
    }
}

/// 1 for a place that a part wakes.
fn woken(phase: Phase) -> u64
    ensures { result ≡ wake_count phase }
{
    match phase {
        Phase::Asleep => 1,
        _ => 0,
    }
}

/// A part of so many units was taken, by a place in this phase.
pub fn count_got(counters: &mut Counters, kind: Kind, units: u64, phase: Phase)
    ensures { (n : Counts) → counters.old ≡ counters_of n → counters.new ≡ counters_of
        (record n {
          got = n.got + of_kind kind 1 0;
          line_got = n.line_got + of_kind kind 0 1;
          got_units = n.got_units + units;
          wakes = n.wakes + wake_count phase;
        }) }
{
    counters.got_units = counters.got_units.saturating_add(u128::from(units));
    counters.wakes = counters.wakes.saturating_add(woken(phase));
    match kind {
        Kind::Steal => counters.got = counters.got.saturating_add(1),
        Kind::Line => counters.line_got = counters.line_got.saturating_add(1),
    }
}
