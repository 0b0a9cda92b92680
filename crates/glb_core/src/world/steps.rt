//! A step of the tables of a world.
ghost use Rattle.std.specs.Prelude.{◌≡◌, ℕ, ◌+◌, ◌*◌, ◌^◌, ◌<◌, ◌≤◌, IfOk, IfErr, OnOk, OnErr, Err};
ghost use Rattle.glb_core.specs.Tables.{view_of};
ghost use Rattle.glb_core.specs.Standing.{IsSound, SimulatesWholly, SimulatesPartly};
ghost use Rattle.glb_core.specs.Standing.{Stutters, HasNoCase, Fails};
ghost use Rattle.glb_core.specs.Standing.{AllFit, KeepAllFit};
ghost use Rattle.glb_rules.specs.Events.{NamesBelow};
ghost use Rattle.glb_core.specs.inner.Conditions.{HasCase};
ghost use Rattle.glb_core.specs.inner.Effects.{IsSimple};

use super::conditions::is_enabled;
use super::effects::{effect, next_live, next_stop};
use super::items::{give_part, take_part, work};
use super::layout::{edge_index, edge_index_of, mark_index};
use super::tables::Tables;
use crate::{Event, Kind, StepFault, tries_of};
use glb_laws::{Bag, Monoid, NoMemory, Program};

/// Does an event that moves and expands no items.
pub(crate) fn apply<P: Program, B: Bag<P>>(
    tables: &mut Tables<B, P::Value>,
    program: &P,
    event: Event,
)
    requires sound { IsSound {I = P.Item} B.items (view_of tables.old) }
    requires named { NamesBelow tables.old.lines.places event }
    requires simple { IsSimple event }
    requires enabled { HasCase {I = P.Item} B.items (view_of tables.old) event }
    ensures done { SimulatesWholly B.items (P.children program.now)
        (P.value program.now) P.Value.combine
        P.Value.unit (view_of tables.old) event 0 (view_of tables.new) }
    ensures fits { KeepAllFit B.fits (view_of tables.old) (view_of tables.new) }
    ensures graph { tables.new.lines ≡ tables.old.lines }
    ensures params { tables.new.params ≡ tables.old.params }
{
    let places = tables.lines.places();
    let at = edge_index_of(places, event);
    let place_row = &mut tables.place_rows[event.place() as usize];
    let edge_row = &mut tables.edge_rows[at];
    effect(place_row, edge_row, places, event);
    tables.live = next_live(event, tables.live);
    tables.stop = next_stop(event, tables.stop);
}

/// Hands a part of the place's bag over.
pub(crate) fn give<P: Program, B: Bag<P>>(
    tables: &mut Tables<B, P::Value>,
    program: &P,
    place: u32,
    thief: u32,
    kind: Kind,
) -> Result<(), NoMemory>
    requires sound { IsSound {I = P.Item} B.items (view_of tables.old) }
    requires named { NamesBelow tables.old.lines.places (Event.Give place thief kind) }
    requires enabled { HasCase {I = P.Item} B.items
        (view_of tables.old) (Event.Give place thief kind) }
    ensures given { OnOk result
        (SimulatesWholly B.items (P.children program.now) (P.value program.now)
        P.Value.combine P.Value.unit (view_of tables.old) (Event.Give place thief kind) 0
        (view_of tables.new)) }
    ensures refused { OnErr result (Stutters {I = P.Item} B.items (view_of tables.old)
        (view_of tables.new)) }
    ensures fits { KeepAllFit B.fits (view_of tables.old) (view_of tables.new) }
    ensures graph { tables.new.lines ≡ tables.old.lines }
    ensures params { tables.new.params ≡ tables.old.params }
{
    let places = tables.lines.places();
    let at = edge_index(places, kind, thief, place);
    let place_row = &mut tables.place_rows[place as usize];
    let edge_row = &mut tables.edge_rows[at];
    give_part::<P, B>(place_row, edge_row, mark_index(places, kind, thief), kind)
}

/// Takes the part that waits on the edge.
pub(crate) fn take<P: Program, B: Bag<P>>(
    tables: &mut Tables<B, P::Value>,
    program: &P,
    place: u32,
    victim: u32,
    kind: Kind,
) -> Result<(), NoMemory>
    requires sound { IsSound {I = P.Item} B.items (view_of tables.old) }
    requires named { NamesBelow tables.old.lines.places (Event.Take place victim kind) }
    requires enabled { HasCase {I = P.Item} B.items
        (view_of tables.old) (Event.Take place victim kind) }
    requires fits { AllFit B.fits (view_of tables.old) program.now }
    ensures taken { OnOk result
        (SimulatesWholly B.items (P.children program.now) (P.value program.now)
        P.Value.combine P.Value.unit (view_of tables.old) (Event.Take place victim kind) 0
        (view_of tables.new)) }
    ensures refused { OnErr result (Stutters {I = P.Item} B.items (view_of tables.old)
        (view_of tables.new)) }
    ensures fits { KeepAllFit B.fits (view_of tables.old) (view_of tables.new) }
    ensures graph { tables.new.lines ≡ tables.old.lines }
    ensures params { tables.new.params ≡ tables.old.params }
{
    let places = tables.lines.places();
    let at = edge_index(places, kind, place, victim);
    let place_row = &mut tables.place_rows[place as usize];
    let edge_row = &mut tables.edge_rows[at];
    take_part::<P, B>(place_row, edge_row, kind)
}

/// Works on the place's bag.
pub(crate) fn batch<P: Program, B: Bag<P>>(
    tables: &mut Tables<B, P::Value>,
    program: &P,
    place: u32,
) -> Result<u64, NoMemory>
    requires sound { IsSound {I = P.Item} B.items (view_of tables.old) }
    requires named { place < tables.old.lines.places }
    requires enabled { HasCase {I = P.Item} B.items (view_of tables.old) (Event.Batch place) }
    requires fits { AllFit B.fits (view_of tables.old) program.now }
    requires total { tables.old.total ≤ 2 ^ 41 }
    ensures worked { IfOk result
        (λ k. SimulatesWholly B.items (P.children program.now) (P.value program.now) P.Value.combine
        P.Value.unit (view_of tables.old) (Event.Batch place) k (view_of tables.new)) }
    ensures cut { OnErr result
        (SimulatesPartly B.items (P.children program.now) (P.value program.now)
        P.Value.combine P.Value.unit (view_of tables.old) (Event.Batch place) (view_of tables.new)) }
    ensures fits { KeepAllFit B.fits (view_of tables.old) (view_of tables.new) }
    ensures graph { tables.new.lines ≡ tables.old.lines }
    ensures params { tables.new.params ≡ tables.old.params }
{
    let tries = tries_of(&tables.params);
    let place_row = &mut tables.place_rows[place as usize];
    match work::<P, B>(
        place_row,
        program,
        tables.params.batch,
        tries,
        &mut tables.value,
    ) {
        Ok(count) => {
            tables.total += count;
            Ok(count)
        }
        Err(stopped) => {
            tables.total += stopped.done;
            Err(NoMemory)
        }
    }
}

/// Does the event where it has a case.
pub(crate) fn step<P: Program, B: Bag<P>>(
    tables: &mut Tables<B, P::Value>,
    program: &P,
    event: Event,
) -> Result<u64, StepFault>
    requires sound { IsSound {I = P.Item} B.items (view_of tables.old) }
    requires named { NamesBelow tables.old.lines.places event }
    requires fits { AllFit B.fits (view_of tables.old) program.now }
    requires total { tables.old.total ≤ 2 ^ 41 }
    ensures step { IfOk result
        (λ k. SimulatesWholly B.items (P.children program.now) (P.value program.now) P.Value.combine
        P.Value.unit (view_of tables.old) event k (view_of tables.new)) }
    ensures fault { IfErr result
        (λ f. Fails B.items (P.children program.now) (P.value program.now) P.Value.combine
        P.Value.unit (view_of tables.old) event (view_of tables.new) f) }
    ensures exact { HasNoCase {I = P.Item} B.items (view_of tables.old) event → result
        ≡ Err StepFault.NotEnabled }
    ensures sound { IsSound {I = P.Item} B.items (view_of tables.new) }
    ensures fits { KeepAllFit B.fits (view_of tables.old) (view_of tables.new) }
    ensures graph { tables.new.lines ≡ tables.old.lines }
    ensures params { tables.new.params ≡ tables.old.params }
{
    if !is_enabled::<P, B>(tables, event) {
        return Err(StepFault::NotEnabled);
    }
    match event {
        Event::Batch { place } => match batch::<P, B>(tables, program, place) {
            Ok(count) => Ok(count),
            Err(NoMemory) => Err(StepFault::NoMemory),
        },
        Event::Give { place, thief, kind } => {
            match give::<P, B>(tables, program, place, thief, kind) {
                Ok(()) => Ok(0),
                Err(NoMemory) => Err(StepFault::NoMemory),
            }
        }
        Event::Take {
            place,
            victim,
            kind,
        } => match take::<P, B>(tables, program, place, victim, kind) {
            Ok(()) => Ok(0),
            Err(NoMemory) => Err(StepFault::NoMemory),
        },
        _ => {
            apply::<P, B>(tables, program, event);
            Ok(0)
        }
    }
}
