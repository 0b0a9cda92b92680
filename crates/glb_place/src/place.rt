//! A place, and its turns.
ghost use Rattle.std.specs.Prelude.{◌≡◌, ◌≢◌, ◌<◌, ◌++◌, ◌⊎◌, Option, Some, None, length, IfOk, IfErr, IsPermutation};
ghost use Rattle.glb_laws.specs.Expansion.{combined};
ghost use Rattle.glb_rules.specs.Setups.{IsWithinLimits};
ghost use Rattle.glb_core.specs.Counters.{counters_of};
ghost use Rattle.glb_core.specs.Seen.{sight, first_sight, IsMadeFor};
ghost use Rattle.glb_rules.specs.declared.kinds.Phase.TheVariants as phases;
ghost use Rattle.glb_place.specs.Calls.{SameObject};
ghost use Rattle.glb_place.specs.declared.turn.Turn.TheVariants as turns;
ghost use Rattle.glb_place.specs.Records.{IsFirst};
ghost use Rattle.glb_place.specs.Looks.{raised};
ghost use Rattle.glb_place.specs.Places.{SpareFits, KeepsSpare, spare_items};
ghost use Rattle.glb_place.specs.Turns.{Answers, TurnLooks, NotHalted};
ghost use Rattle.glb_place.specs.Views.{PlaceView, HasRead, ended_by, is_impatient};

use crate::apart::APART;
use crate::fabric::Fabric;
use crate::first::first_holding;
use crate::holding::Holding;
use crate::play::take_turn;
use crate::turn::{Ended, Turn};
use crossbeam_utils::{Backoff, CachePadded};
use glb_core::{InEdge, OutEdge, Params, Seen};
use glb_cube::Lines;
use glb_laws::{Bag, Monoid, NoMemory, Program};
use glb_stats::Counters;
use std::alloc::Global;
use std::marker::Model;
use std::sync::Wait;

/// A place of a run over some fabric. It shares no cache line with another in the same list, since
/// each is played by a thread of its own.
#[derive(Drop)]
pub struct Place<P: Program, B: Bag<P>, F: Fabric<P, B>> {
    held: CachePadded<Holding<B, F, P::Value>>,
    ended: Option<Ended>,
}

impl<P: Program, B: Bag<P>, F: Fabric<P, B>> Model for Place<P, B, F> {
    ghost use Rattle.crossbeam_utils.specs.Padded.{padded_value};
    ghost use Rattle.glb_place.specs.Views.{PlaceView};
    ghost use Rattle.glb_place.specs.inner.Standing.{IsPlace};

    ghost Value = { PlaceView B F P.Value };

    ghost view = { λ a. record {
      fabric = (padded_value a.held).fabric;
      bag = (padded_value a.held).bag;
      spare = (padded_value a.held).spare;
      value = (padded_value a.held).value;
      ended = a.ended;
    } };

    ghost invariant = { λ a. IsPlace B.items B.fits P.value P.Value.unit P.Value.combine F.program
        F.kept a.ended (padded_value a.held) };
}

/// What a place gives back.
#[derive(Drop)]
pub struct Parts<V, B, F> {
    pub bag: B,
    /// The part that was split off and not given, or that could not be merged.
    pub spare: Option<B>,
    pub fabric: F,
    pub value: V,
    pub counters: Counters,
}

/// What a place sees before it has looked at anything, in lists on cache lines of their own.
fn sight_apart(alloc: Global, number: u32, lines: &Lines) -> Result<Seen, NoMemory>
    requires { number < lines.now.places }
    ensures first { IfOk result (λ z. sight z ≡ first_sight lines.now number) }
    ensures made { IfOk result (λ z. IsMadeFor lines.now number (sight z)) }
{
    let mut seen = Seen::new(alloc, number, lines)?;
    seen.ins.reserve(APART / size_of::<InEdge>() + 1)?;
    seen.outs.reserve(APART / size_of::<OutEdge>() + 1)?;
    Ok(seen)
}

impl<P: Program, B: Bag<P>, F: Fabric<P, B>> Place<P, B, F> {
    /// The place with this number, at the start with this bag. Bag and fabric are handed back where
    /// there is no memory.
    pub fn new(
        alloc: Global,
        number: u32,
        program: &P,
        params: &Params,
        lines: &Lines,
        bag: B,
        fabric: F,
    ) -> Result<Place<P, B, F>, (NoMemory, B, F)>
        requires limits { IsWithinLimits params.now }
        requires places { lines.now.places ≡ params.now.places }
        requires base { lines.now.base ≡ params.now.base }
        requires number { number < params.now.places }
        requires first { IsFirst lines.now params.now number (B.items bag) (F.kept fabric) }
        requires program { program.now ≡ F.program fabric }
        requires fits { B.fits bag program.now }
        ensures fabric { IfOk result (λ p. p.fabric ≡ fabric) }
        ensures bag { IfOk result (λ p. p.bag ≡ bag) }
        ensures spare { IfOk result (λ p. p.spare ≡ None) }
        ensures value { IfOk result (λ p. p.value ≡ P.Value.unit) }
        ensures going { IfOk result (λ p. p.ended ≡ None) }
        ensures returned { IfErr result (λ e. (e.1 ≡ bag) × (e.2 ≡ fabric)) }
    {
        match sight_apart(alloc, number, lines) {
            Ok(seen) => {
                let _places = lines.places();
                let held = first_holding::<P, B, F>(number, params, seen, bag, fabric);
                Ok(Place {
                    held: CachePadded::new(held),
                    ended: None,
                })
            }
            Err(no_memory) => Err((no_memory, bag, fabric)),
        }
    }

    /// Takes one turn. A place that is closed answers as before, and calls nothing.
    // Part of the loop of `work`: nearly all turns are one look, and a call costs as much again.
    #[inline(always)]
    pub fn turn(&mut self, rt: &impl Wait, program: &P) -> Turn
        requires program { program.now ≡ F.program self.old.fabric }
        ensures closed { (e : Ended) → self.old.ended ≡ Some e → (result ≡ turns.Closed e)
            × (self.new ≡ self.old) }
        ensures answers { self.old.ended ≡ None → Answers (F.refuses self.old.fabric)
            (is_impatient self.old) (P.children program.now) (P.value program.now) P.Value.unit
            P.Value.combine result (F.kept self.old.fabric) (F.kept self.new.fabric) }
        ensures carried { IsPermutation (F.kept self.new.fabric).local.bag
            (spare_items B.items self.new.spare ++ B.items self.new.bag) }
        ensures spare { KeepsSpare B.items (F.kept self.new.fabric) self.new.bag self.new.spare }
        ensures ended { self.old.ended ≡ None → self.new.ended ≡ ended_by result }
        ensures read { (e : Ended) → self.new.ended ≡ Some e → HasRead e (F.kept self.new.fabric) }
        ensures stop { self.old.ended ≡ None
            → (F.looks self.new.fabric).stop ≡ raised (F.looks self.old.fabric).stop }
        ensures live { self.old.ended ≡ None → NotHalted result →
            (F.kept self.old.fabric).local.phase ≡ phases.Asleep
            → (F.looks self.new.fabric).live ≡ raised (F.looks self.old.fabric).live }
        ensures looks { self.old.ended ≡ None → TurnLooks result (F.kept self.old.fabric)
            (F.looks self.old.fabric) (F.looks self.new.fabric) }
        ensures home { SameObject F.program F.home F.refuses self.old.fabric self.new.fabric }
    {
        if let Some(ended) = self.ended {
            return Turn::Closed(ended);
        }
        let turn = take_turn(&mut self.held, rt, program);
        if let Turn::Closed(ended) = turn {
            self.ended = Some(ended);
        }
        turn
    }

    /// Takes turns until one is closed.
    pub fn work(&mut self, rt: &impl Wait, program: &P) -> Ended
        requires program { program.now ≡ F.program self.old.fabric }
        ensures ended { self.new.ended ≡ Some result }
        ensures read { HasRead result (F.kept self.new.fabric) }
        ensures home { SameObject F.program F.home F.refuses self.old.fabric self.new.fabric }
    {
        let backoff = Backoff::new();
        for _ in rt.forever() {
            match self.turn(rt, program) {
                Turn::Closed(ended) => {
                    return ended;
                }
                Turn::Polled => backoff.snooze(),
                Turn::Went => backoff.reset(),
            }
        }
        unreachable!()
    }

    /// Gives all back.
    pub fn finish(self) -> Parts<P::Value, B, F>
        ensures bag { result.bag ≡ self.bag }
        ensures spare { result.spare ≡ self.spare }
        ensures fabric { result.fabric ≡ self.fabric }
        ensures carried { IsPermutation (F.kept result.fabric).local.bag
            (spare_items B.items result.spare ++ B.items result.bag) }
        ensures beside { KeepsSpare B.items (F.kept result.fabric) result.bag result.spare }
        ensures value { result.value ≡ combined (P.value (F.program result.fabric)) P.Value.combine
            P.Value.unit
            (F.kept result.fabric).local.done }
        ensures counted { (F.kept result.fabric).local.count.items ≡ length
            (F.kept result.fabric).local.done }
        ensures counters { result.counters ≡ counters_of (F.kept result.fabric).local.count }
        ensures fits { B.fits result.bag (F.program result.fabric) }
        ensures spare_fits { SpareFits (λ b. B.fits b (F.program result.fabric)) result.spare }
        ensures gone { self.ended ≢ None → (F.kept result.fabric).local.phase ≡ phases.Gone }
        ensures read { (e : Ended) → self.ended ≡ Some e → HasRead e (F.kept result.fabric) }
    {
        let Holding {
            bag,
            spare,
            fabric,
            value,
            counters,
            ..
        } = self.held.into_inner();
        Parts {
            bag,
            spare,
            fabric,
            value,
            counters,
        }
    }
}
