//! A batch: items are expanded and settled.
ghost use Rattle.std.specs.Prelude.{◌≡◌, ◌≢◌, ℕ, ◌+◌, ◌<◌, ◌≤◌, ◌⊎◌, true, false, List, [], IfSome, IsNone};
ghost use Rattle.glb_laws.specs.Expansion.{Expands};
ghost use Rattle.glb_rules.specs.Setups.{tries_of as spec_tries_of};
ghost use Rattle.glb_rules.specs.declared.event.Event.TheVariants as event;
ghost use Rattle.glb_rules.specs.declared.kinds.Phase.TheVariants as phases;
ghost use Rattle.glb_place.specs.Records.{May};
ghost use Rattle.glb_place.specs.Calls.{Settles, SameObject};
ghost use Rattle.glb_place.specs.Turns.{Batches, RanOut};
ghost use Rattle.glb_place.specs.inner.Seeing.{after_batch};
ghost use Rattle.glb_place.specs.inner.Standing.{HoldsAt, AgreesAt, SpareAt};
ghost use Rattle.glb_place.specs.inner.Polling.{SameCounts};

use crate::actions::halt;
use crate::counts::count_items;
use crate::fabric::Fabric;
use crate::holding::Holding;
use crate::sight::unmark_all;
use glb_core::{Params, Phase, PlaceState};
use glb_laws::{Bag, Monoid, Program};
use std::sync::Wait;

/// How many tries a place has after a batch that leaves no item.
fn tries_of(params: &Params) -> u32
    ensures { result ≡ spec_tries_of params.now }
{
    if params.places == 1 { 0 } else { params.tries }
}

/// Expands at most `n` items of a bag. How many it was, and whether memory ran out.
fn expand<P: Program, B: Bag<P>>(
    bag: &mut B,
    program: &P,
    n: u64,
    gain: &mut P::Value,
) -> (u64, bool)
    requires fits { B.fits bag.old program.now }
    requires some { 1 ≤ n }
    ensures moves { Expands (P.children program.now) (P.value program.now) P.Value.combine
        (B.items bag.old) gain.old result.0 (B.items bag.new) gain.new }
    ensures most { result.0 ≤ n }
    ensures whole { result.1 ≡ false → (result.0 ≡ n) ⊎ (B.items bag.new ≡ []) }
    ensures none { result.1 ≡ false → result.0 ≡ 0 → B.items bag.old ≡ [] }
    ensures fits { B.fits bag.new program.now }
{
    match bag.process(program, n, gain) {
        Ok(done) => (done, false),
        Err(stopped) => (stopped.done, true),
    }
}

/// The state after a batch that left this bag.
fn rest<P: Program, B: Bag<P>>(state: &mut PlaceState, bag: &B, tries: u32)
    ensures { state.new ≡ after_batch tries (B.items bag.now) state.old }
{
    state.size = bag.len();
    if state.size == 0 {
        state.phase = Phase::Idle;
        state.tries = tries;
    } else {
        state.phase = Phase::Working;
    }
}

/// What came of a batch: the total afterwards, where something was settled, and whether memory ran
/// out.
#[derive(Clone, Copy)]
struct Settled {
    total: Option<u64>,
    stopped: bool,
}

/// Expands a batch and settles it, as far as memory lasts.
fn settle<P: Program, B: Bag<P>, F: Fabric<P, B>>(
    held: &mut Holding<B, F, P::Value>,
    rt: &impl Wait,
    program: &P,
) -> Settled
    requires holds { HoldsAt B.items B.fits P.value P.Value.unit P.Value.combine F.program F.kept
        held.old }
    requires agrees { AgreesAt B.items F.kept held.old }
    requires program { program.now ≡ F.program held.old.fabric }
    requires may { May (F.kept held.old.fabric) (event.Batch (F.kept held.old.fabric).place) }
    ensures holds { HoldsAt B.items B.fits P.value P.Value.unit P.Value.combine F.program F.kept
        held.new }
    ensures agrees { IfSome result.total (λ total. total ≤ (F.kept held.old.fabric).params.limit
        → AgreesAt B.items F.kept held.new) }
    ensures settled { IfSome result.total (λ total. (done : ℕ) × (gain : P.Value)
        × Settles (P.children program.now) (P.value program.now) P.Value.unit P.Value.combine done
        (B.items held.new.bag) gain total (F.kept held.old.fabric) (F.kept held.new.fabric)
        × (0 < done) × (done ≤ (F.kept held.old.fabric).params.batch)
        × (result.stopped ≡ false → (done ≡ (F.kept held.old.fabric).params.batch)
        ⊎ (B.items held.new.bag ≡ []))) }
    ensures none { IsNone result.total → (result.stopped ≡ true)
        × (F.kept held.new.fabric ≡ F.kept held.old.fabric) }
    ensures here { (F.kept held.new.fabric).local.phase ≢ phases.Gone }
    ensures limit { held.new.params ≡ held.old.params }
    ensures spare { SpareAt B.items F.kept held.new }
    ensures home { SameObject F.program F.home F.refuses held.old.fabric held.new.fabric }
    ensures counts { SameCounts (F.looks held.old.fabric) (F.looks held.new.fabric) }
{
    let mut gain = P::Value::unit();
    let (done, stopped) = expand(&mut held.bag, program, held.params.batch, &mut gain);
    if done == 0 {
        return Settled {
            total: None,
            stopped,
        };
    }
    let total = held.fabric.settle(rt, &held.bag, done, &gain);
    held.value = held.value.combine(&gain);
    count_items(&mut held.counters, done);
    unmark_all(&mut held.seen.ins);
    held.first = 0;
    rest(&mut held.state, &held.bag, tries_of(&held.params));
    Settled {
        total: Some(total),
        stopped,
    }
}

/// Settles a batch, and halts where memory ran out or the total passed the limit.
pub(crate) fn batch<P: Program, B: Bag<P>, F: Fabric<P, B>>(
    held: &mut Holding<B, F, P::Value>,
    rt: &impl Wait,
    program: &P,
)
    requires holds { HoldsAt B.items B.fits P.value P.Value.unit P.Value.combine F.program F.kept
        held.old }
    requires agrees { AgreesAt B.items F.kept held.old }
    requires program { program.now ≡ F.program held.old.fabric }
    requires may { May (F.kept held.old.fabric) (event.Batch (F.kept held.old.fabric).place) }
    ensures here { (F.kept held.new.fabric).local.phase ≢ phases.Gone }
    ensures holds { HoldsAt B.items B.fits P.value P.Value.unit P.Value.combine F.program F.kept
        held.new }
    ensures agrees { (F.kept held.new.fabric).code ≡ 0 → AgreesAt B.items F.kept held.new }
    ensures acts { Batches (P.children program.now) (P.value program.now) P.Value.unit
        P.Value.combine (F.kept held.old.fabric) (F.kept held.new.fabric)
        ⊎ RanOut (F.refuses held.old.fabric) (P.children program.now) (P.value program.now)
        P.Value.unit P.Value.combine (event.Batch (F.kept held.old.fabric).place)
        (F.kept held.old.fabric) (F.kept held.new.fabric) }
    ensures spare { SpareAt B.items F.kept held.new }
    ensures home { SameObject F.program F.home F.refuses held.old.fabric held.new.fabric }
    ensures counts { SameCounts (F.looks held.old.fabric) (F.looks held.new.fabric) }
{
    let settled = settle(held, rt, program);
    match (settled.total, settled.stopped) {
        (Some(total), false) => {
            if total > held.params.limit {
                halt::<P, B, F>(held, rt, 1);
            }
        }
        (Some(_), true) => halt::<P, B, F>(held, rt, 2),
        (None, _) => halt::<P, B, F>(held, rt, 2),
    }
}
