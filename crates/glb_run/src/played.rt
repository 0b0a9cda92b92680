//! Plays the places of a run on threads, over any fabric.
ghost use Rattle.std.specs.Prelude.{◌≡◌, ◌≢◌, ℕ, ◌<◌, Option, None, length, get_or, map, All};
ghost use Rattle.std.specs.Prelude.{IfOk, vec_len};
ghost use Rattle.glb_rules.specs.Setups.{IsWithinLimits};
ghost use Rattle.glb_laws.specs.Expansion.{combined};
ghost use Rattle.glb_place.specs.Calls.{SameObject};
ghost use Rattle.glb_place.specs.Close.{HasLeft, counters_in, done_of};
ghost use Rattle.glb_run.specs.inner.Plays.{AreFirst, AreSameObjects, AreLeft};

use crate::beside::{Muster, work_all};
use glb_core::Params;
use glb_cube::Lines;
use glb_laws::{Bag, Monoid, NoMemory, Program};
use glb_place::laws::values_of_places_combine;
use glb_place::{Fabric, Parts, Place};
use glb_stats::Counters;
use std::alloc::Global;
use std::sync::Wait;
use std::thread::Threads;

/// What the places of a run leave: their fabrics and counters, by number, and the combination of
/// the values of all items done.
#[derive(Drop)]
pub(crate) struct Played<V, F> {
    pub fabrics: Vec<F>,
    pub value: V,
    pub counters: Vec<Counters>,
}

/// A place for each bag and fabric, in order.
pub(crate) fn places_of<P: Program, B: Bag<P>, F: Fabric<P, B>>(
    alloc: Global,
    program: &P,
    params: &Params,
    lines: &Lines,
    bags: Vec<B>,
    fabrics: Vec<F>,
) -> Result<Vec<Place<P, B, F>>, NoMemory>
    requires limits { IsWithinLimits params.now }
    requires places { lines.now.places ≡ params.now.places }
    requires base { lines.now.base ≡ params.now.base }
    requires bags { vec_len bags ≡ params.now.places }
    requires fabrics { vec_len fabrics ≡ params.now.places }
    requires first { AreFirst lines.now params.now (map B.items bags.items)
        (map F.kept fabrics.items) }
    requires programs { All (λ f. program.now ≡ F.program f) fabrics.items }
    requires fits { All (λ b. B.fits b program.now) bags.items }
    ensures { IfOk result (λ places. map (λ p. p.fabric) places.items ≡ fabrics.items) }
{
    let mut left = fabrics.into_iter();
    let mut places = Vec::with_capacity(alloc, bags.len())?;
    for bag in bags {
        let Some(fabric) = left.next() else {
            unreachable!()
        };
        let number = places.len() as u32;
        match Place::new(alloc, number, program, params, lines, bag, fabric) {
            Ok(place) => places.push(place)?,
            Err((no_memory, _, _)) => return Err(no_memory),
        }
    }
    Ok(places)
}

/// What a place leaves that has ended: its fabric, its value and its counters.
fn finish_one<P: Program, B: Bag<P>, F: Fabric<P, B>>(
    place: Place<P, B, F>,
) -> (F, P::Value, Counters)
    requires { place.ended ≢ None }
    ensures fabric { result.0 ≡ place.fabric }
    ensures left { HasLeft (F.kept result.0) }
    ensures value { result.1 ≡ combined (P.value (F.program result.0)) P.Value.combine P.Value.unit
        (done_of (F.kept result.0)) }
    ensures counters { result.2 ≡ counters_in (F.kept result.0) }
{
    let Parts {
        fabric,
        value,
        counters,
        ..
    } = place.finish();
    (fabric, value, counters)
}

/// Takes all places apart.
fn finish_all<P: Program, B: Bag<P>, F: Fabric<P, B>>(
    alloc: Global,
    places: Vec<Place<P, B, F>>,
) -> Result<Played<P::Value, F>, NoMemory>
    requires ended { All (λ p. p.ended ≢ None) places.items }
    ensures fabrics { IfOk result (λ played.
        played.fabrics.items ≡ map (λ p. p.fabric) places.items) }
    ensures left { IfOk result (λ played. (program : P)
        → All (λ f. F.program f ≡ program) played.fabrics.items
        → AreLeft (P.value program) P.Value.combine P.Value.unit
        (map F.kept played.fabrics.items) played.value played.counters.items) }
{
    let mut fabrics = Vec::with_capacity(alloc, places.len())?;
    let mut counters = Vec::with_capacity(alloc, places.len())?;
    let mut value = P::Value::unit();
    for place in places {
        let (fabric, gain, own) = finish_one(place);
        value = value.combine(&gain);
        counters.push(own)?;
        fabrics.push(fabric)?;
    }
    values_of_places_combine::<P>();
    Ok(Played {
        fabrics,
        value,
        counters,
    })
}

/// Plays the places of these bags and fabrics to their ends, each on a thread of its own.
pub(crate) fn play_all<
    R: Threads + Wait + Sync,
    P: Program<Item: Send + Sync, Value: Send + Sync> + Sync,
    B: Bag<P> + Send,
    F: Fabric<P, B> + Send,
>(
    rt: &R,
    alloc: Global,
    program: &P,
    params: &Params,
    lines: &Lines,
    bags: Vec<B>,
    fabrics: Vec<F>,
    muster: &Muster,
) -> Result<Played<P::Value, F>, NoMemory>
    requires limits { IsWithinLimits params.now }
    requires places { lines.now.places ≡ params.now.places }
    requires base { lines.now.base ≡ params.now.base }
    requires bags { vec_len bags ≡ params.now.places }
    requires fabrics { vec_len fabrics ≡ params.now.places }
    requires first { AreFirst lines.now params.now (map B.items bags.items)
        (map F.kept fabrics.items) }
    requires programs { All (λ f. program.now ≡ F.program f) fabrics.items }
    requires fits { All (λ b. B.fits b program.now) bags.items }
    ensures same { IfOk result (λ played.
        AreSameObjects F.program F.home F.refuses fabrics.items played.fabrics.items) }
    ensures left { IfOk result (λ played.
        AreLeft (P.value program.now) P.Value.combine P.Value.unit
        (map F.kept played.fabrics.items) played.value played.counters.items) }
{
    let mut places = places_of(alloc, program, params, lines, bags, fabrics)?;
    work_all(rt, program, &mut places, muster);
    finish_all(alloc, places)
}
