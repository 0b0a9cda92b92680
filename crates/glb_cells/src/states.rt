//! What a berth keeps of its view for when it runs: the place's state, and which lines it holds.
ghost use Rattle.std.specs.Prelude.{◌≡◌, ◌<◌, ◌^◌, length, true, false};
ghost use Rattle.glb_rules.specs.declared.kinds.Credit.TheVariants as credits;
ghost use Rattle.glb_rules.specs.declared.kinds.Phase.TheVariants as phases;
ghost use Rattle.glb_cells.specs.inner.Keeping.{state_after_ask, state_leaving, state_unless, state_after_batch, state_after_gift, state_after_take, hold_at};

use glb_core::{Credit, Kind, Phase, PlaceState};

pub(crate) fn ask(state: &mut PlaceState, victim: u32, kind: Kind)
    ensures { state.new ≡ state_after_ask victim kind state.old }
{
    state.phase = Phase::Waiting { victim, kind };
    match kind {
        Kind::Steal => state.tries = state.tries.saturating_sub(1),
        Kind::Line => {}
    }
}

pub(crate) fn sleep(state: &mut PlaceState)
    ensures { state.new ≡ record state.old { phase = phases.Asleep; credit = credits.Zero } }
{
    state.phase = Phase::Asleep;
    state.credit = Credit::Zero;
}

pub(crate) fn leave(state: &mut PlaceState, leaves: bool)
    ensures { state.new ≡ state_leaving leaves state.old }
{
    if leaves {
        state.phase = Phase::Gone;
    }
}

/// The place stops waiting, but where a part is there.
pub(crate) fn rest_unless(state: &mut PlaceState, there: bool)
    ensures { state.new ≡ state_unless there state.old }
{
    if !there {
        state.phase = Phase::Idle;
    }
}

pub(crate) fn settle(state: &mut PlaceState, most: u32, size: u64)
    ensures { state.new ≡ state_after_batch most size state.old }
{
    state.size = size;
    if size == 0 {
        state.phase = Phase::Idle;
        state.tries = most;
    } else {
        state.phase = Phase::Working;
    }
}

/// A gift of so many units.
pub(crate) fn give(state: &mut PlaceState, units: u64)
    ensures { state.new ≡ state_after_gift units state.old }
{
    state.credit = Credit::One;
    if state.size < u64::MAX {
        state.size = state.size.saturating_sub(units);
    }
}

/// The taking of so many.
pub(crate) fn take(state: &mut PlaceState, units: u64)
    ensures { state.new ≡ state_after_take units state.old }
{
    state.phase = Phase::Working;
    state.credit = match state.credit {
        Credit::Zero => Credit::One,
        Credit::One => Credit::Taken,
        Credit::Minted => Credit::Minted,
        Credit::Taken => Credit::Taken,
    };
    state.size = state.size.saturating_add(units);
}

/// The thief's line is held now, or is not held.
pub(crate) fn hold(held: &mut Vec<bool>, thief: u32, kind: Kind, holds: bool)
    requires { thief < length held.old.items }
    ensures { held.new.items ≡ hold_at kind thief holds held.old.items }
{
    match kind {
        Kind::Steal => {}
        Kind::Line => held[thief as usize] = holds,
    }
}
