//! What a place does in a turn.
ghost use Rattle.std.specs.Prelude.{◌≡◌, ◌≢◌, ◌⊎◌, true, false};
ghost use Rattle.glb_rules.specs.Events.{GoesOn};
ghost use Rattle.glb_rules.specs.declared.event.Action.TheVariants as action;
ghost use Rattle.glb_rules.specs.declared.kinds.Phase.TheVariants as phases;
ghost use Rattle.glb_rules.specs.declared.local.EdgeName.{EdgeName};
ghost use Rattle.glb_place.specs.Calls.{SameObject};
ghost use Rattle.glb_place.specs.Rows.{over_row};
ghost use Rattle.glb_place.specs.Looks.{Looks, raised};
ghost use Rattle.glb_place.specs.Places.{decision_in};
ghost use Rattle.glb_place.specs.Turns.{Acts, RanOut, Goes, Answers, TurnLooks, NotHalted};
ghost use Rattle.glb_place.specs.inner.Seeing.{NoLook};
ghost use Rattle.glb_place.specs.inner.Standing.{Stays, ClosedBy, HoldsAt, AgreesAt, SpareAt, Stands};
ghost use Rattle.glb_place.specs.inner.Polling.{SameCounts};

use crate::actions::{burn, look, sleep};
use crate::attempts::{try_ask, try_deny, try_give, try_mint, try_take};
use crate::batch::batch;
use crate::choice::{Choice, choose};
use crate::fabric::Fabric;
use crate::holding::Holding;
use crate::poll::poll;
use crate::requests::shrug;
use crate::turn::{Ended, Turn};
use glb_core::{Event, Phase};
use glb_laws::{Bag, Monoid, Program};
use std::sync::Wait;

/// Does the event on which the place decided.
// A call of its own, so that turns that only look have few registers to save.
#[inline(never)]
fn act<P: Program, B: Bag<P>, F: Fabric<P, B>>(
    held: &mut Holding<B, F, P::Value>,
    rt: &impl Wait,
    program: &P,
    event: Event,
)
    requires holds { HoldsAt B.items B.fits P.value P.Value.unit P.Value.combine F.program F.kept
        held.old }
    requires agrees { AgreesAt B.items F.kept held.old }
    requires program { program.now ≡ F.program held.old.fabric }
    requires decided { decision_in (F.kept held.old.fabric) ≡ action.Do event }
    requires other { NoLook event }
    ensures here { (F.kept held.new.fabric).local.phase ≢ phases.Gone }
    ensures holds { HoldsAt B.items B.fits P.value P.Value.unit P.Value.combine F.program F.kept
        held.new }
    ensures agrees { (F.kept held.new.fabric).code ≡ 0 → AgreesAt B.items F.kept held.new }
    ensures spare { SpareAt B.items F.kept held.new }
    ensures goes_on { GoesOn event }
    ensures acts { Acts (P.children program.now) (P.value program.now) P.Value.unit P.Value.combine
        event (F.kept held.old.fabric) (F.kept held.new.fabric)
        ⊎ RanOut (F.refuses held.old.fabric) (P.children program.now) (P.value program.now)
        P.Value.unit P.Value.combine event (F.kept held.old.fabric) (F.kept held.new.fabric) }
    ensures home { SameObject F.program F.home F.refuses held.old.fabric held.new.fabric }
    ensures counts { SameCounts (F.looks held.old.fabric) (F.looks held.new.fabric) }
{
    match event {
        Event::Batch { .. } => batch(held, rt, program),
        Event::Ask { victim, kind, .. } => try_ask::<P, B, F>(held, rt, victim, kind),
        Event::Deny { thief, kind, .. } => try_deny::<P, B, F>(held, rt, thief, kind),
        Event::Mint { .. } => try_mint::<P, B, F>(held, rt),
        Event::Give { thief, kind, .. } => try_give::<P, B, F>(held, rt, thief, kind),
        Event::Take { victim, kind, .. } => try_take::<P, B, F>(held, rt, victim, kind),
        Event::Burn { .. } => burn::<P, B, F>(held, rt),
        Event::Shrug { victim, kind, .. } => shrug::<P, B, F>(held, rt, victim, kind),
        Event::Sleep { .. } => sleep::<P, B, F>(held, rt),
        Event::Look { .. } | Event::Leave { .. } | Event::Halt { .. } => unreachable!(),
    }
}

/// Does what the place decides.
#[inline(always)]
fn go<P: Program, B: Bag<P>, F: Fabric<P, B>>(
    held: &mut Holding<B, F, P::Value>,
    rt: &impl Wait,
    program: &P,
) -> Turn
    requires holds { HoldsAt B.items B.fits P.value P.Value.unit P.Value.combine F.program F.kept
        held.old }
    requires agrees { AgreesAt B.items F.kept held.old }
    requires program { program.now ≡ F.program held.old.fabric }
    ensures here { (F.kept held.new.fabric).local.phase ≢ phases.Gone }
    ensures holds { HoldsAt B.items B.fits P.value P.Value.unit P.Value.combine F.program F.kept
        held.new }
    ensures agrees { (F.kept held.new.fabric).code ≡ 0 → AgreesAt B.items F.kept held.new }
    ensures spare { SpareAt B.items F.kept held.new }
    ensures goes { Goes (F.refuses held.old.fabric) false (P.children program.now)
        (P.value program.now) P.Value.unit P.Value.combine result (F.kept held.old.fabric)
        (F.kept held.new.fabric) }
    ensures looks { TurnLooks result (F.kept held.old.fabric) (F.looks held.old.fabric)
        (F.looks held.new.fabric) }
    ensures home { SameObject F.program F.home F.refuses held.old.fabric held.new.fabric }
    ensures counts { SameCounts (F.looks held.old.fabric) (F.looks held.new.fabric) }
{
    match choose(&held.state, &held.seen, &mut held.first) {
        Choice::Looks => {
            look::<P, B, F>(held, rt);
            Turn::Went
        }
        Choice::Acts(event) => {
            act(held, rt, program, event);
            Turn::Went
        }
        Choice::Polls => {
            poll::<P, B, F>(held, rt);
            Turn::Polled
        }
    }
}

/// Reads live where the place sleeps.
fn is_over<P: Program, B: Bag<P>, F: Fabric<P, B>>(
    phase: Phase,
    fabric: &mut F,
    rt: &impl Wait,
) -> bool
    requires here { (F.kept fabric.old).local.phase ≢ phases.Gone }
    ensures over { result ≡ true → (phase ≡ phases.Asleep) × (F.kept fabric.new ≡ over_row
        (F.kept fabric.old)) }
    ensures going { result ≡ false → F.kept fabric.new ≡ F.kept fabric.old }
    ensures stop { (F.looks fabric.new).stop ≡ (F.looks fabric.old).stop }
    ensures edges { (n : EdgeName) → (F.looks fabric.new).edge n ≡ (F.looks fabric.old).edge n }
    ensures live { phase ≡ phases.Asleep → (F.looks fabric.new).live ≡ raised
        (F.looks fabric.old).live }
    ensures home { SameObject F.program F.home F.refuses fabric.old fabric.new }
{
    match phase {
        Phase::Asleep => fabric.over(rt),
        _ => false,
    }
}

/// One turn of a place that is not closed.
#[inline(always)]
pub(crate) fn take_turn<P: Program, B: Bag<P>, F: Fabric<P, B>>(
    held: &mut Holding<B, F, P::Value>,
    rt: &impl Wait,
    program: &P,
) -> Turn
    requires stands { Stands B.items B.fits P.value P.Value.unit P.Value.combine F.program F.kept
        held.old }
    requires program { program.now ≡ F.program held.old.fabric }
    ensures stands { Stays result (Stands B.items B.fits P.value P.Value.unit P.Value.combine
        F.program F.kept held.new) }
    ensures holds { HoldsAt B.items B.fits P.value P.Value.unit P.Value.combine F.program F.kept
        held.new }
    ensures spare { SpareAt B.items F.kept held.new }
    ensures answers { Answers (F.refuses held.old.fabric) false (P.children program.now)
        (P.value program.now) P.Value.unit P.Value.combine result (F.kept held.old.fabric)
        (F.kept held.new.fabric) }
    ensures closed { ClosedBy result (F.kept held.new.fabric) }
    ensures stop { (F.looks held.new.fabric).stop ≡ raised (F.looks held.old.fabric).stop }
    ensures live { NotHalted result → (F.kept held.old.fabric).local.phase ≡ phases.Asleep
        → (F.looks held.new.fabric).live ≡ raised (F.looks held.old.fabric).live }
    ensures looks { TurnLooks result (F.kept held.old.fabric) (F.looks held.old.fabric)
        (F.looks held.new.fabric) }
    ensures home { SameObject F.program F.home F.refuses held.old.fabric held.new.fabric }
{
    let code = held.fabric.halted(rt);
    if code != 0 {
        return Turn::Closed(Ended::Halted { code });
    }
    if is_over::<P, B, F>(held.state.phase, &mut held.fabric, rt) {
        return Turn::Closed(Ended::Over);
    }
    go(held, rt, program)
}
