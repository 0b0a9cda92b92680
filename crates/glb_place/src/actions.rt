//! What a place does with its own bag and its own credit.
ghost use Rattle.std.specs.Prelude.{◌≡◌, ◌≢◌, ℕ, ◌<◌, ◌≤◌, ◌⊎◌, true, false, List, length, slice_index_or, OnOk, OnErr};
ghost use Rattle.glb_rules.specs.Sight.{IsIn};
ghost use Rattle.glb_rules.specs.Decision.{is_unseen, is_wanted};
ghost use Rattle.glb_rules.specs.declared.event.Event.TheVariants as event;
ghost use Rattle.glb_rules.specs.declared.kinds.Credit.TheVariants as credits;
ghost use Rattle.glb_rules.specs.declared.kinds.Edge.{Edge};
ghost use Rattle.glb_rules.specs.declared.kinds.Side.TheVariants as side;
ghost use Rattle.glb_rules.specs.declared.kinds.Phase.TheVariants as phases;
ghost use Rattle.glb_rules.specs.declared.edges.InEdge.{InEdge};
ghost use Rattle.glb_place.specs.Records.{May};
ghost use Rattle.glb_place.specs.Rows.{mark_row, mint_row, burn_row, sleep_row, halt_row};
ghost use Rattle.glb_place.specs.Calls.{MayFind, SameObject};
ghost use Rattle.glb_place.specs.inner.Standing.{HoldsAt, AgreesAt, SpareAt};
ghost use Rattle.glb_place.specs.inner.Polling.{SameCounts};

use crate::counts::count_sleep;
use crate::fabric::Fabric;
use crate::holding::Holding;
use crate::sight::{mark_of, note_at};
use glb_core::{Credit, Phase, Side};
use glb_laws::{Bag, Monoid, NoMemory, Program};
use std::sync::Wait;

/// Looks at the first in-edge at which the place has not looked.
pub(crate) fn look<P: Program, B: Bag<P>, F: Fabric<P, B>>(
    held: &mut Holding<B, F, P::Value>,
    rt: &impl Wait,
)
    requires holds { HoldsAt B.items B.fits P.value P.Value.unit P.Value.combine F.program F.kept
        held.old }
    requires agrees { AgreesAt B.items F.kept held.old }
    requires within { held.old.first < length held.old.seen.ins.items }
    requires may { (d : InEdge) → May (F.kept held.old.fabric)
        (event.Look (F.kept held.old.fabric).place (slice_index_or held.old.seen.ins.items
        held.old.first d).thief
        (slice_index_or held.old.seen.ins.items held.old.first d).kind) }
    requires not_minted { (F.kept held.old.fabric).local.credit ≢ credits.Minted }
    ensures holds { HoldsAt B.items B.fits P.value P.Value.unit P.Value.combine F.program F.kept
        held.new }
    ensures agrees { AgreesAt B.items F.kept held.new }
    ensures looked { (d : InEdge) → (x : Edge) × MayFind (F.kept held.old.fabric)
        (slice_index_or held.old.seen.ins.items held.old.first d).thief
        (slice_index_or held.old.seen.ins.items held.old.first d).kind side.Inward x
        × (F.kept held.new.fabric ≡ mark_row (slice_index_or held.old.seen.ins.items held.old.first
        d).thief
        (slice_index_or held.old.seen.ins.items held.old.first d).kind x (F.kept held.old.fabric)) }
    ensures home { SameObject F.program F.home F.refuses held.old.fabric held.new.fabric }
    ensures counts { SameCounts (F.looks held.old.fabric) (F.looks held.new.fabric) }
{
    let edge = held.seen.ins[held.first];
    let found = held.fabric.look(rt, edge.thief, edge.kind, Side::Inward);
    note_at(&mut held.seen.ins, held.first, mark_of(found), found);
    held.first += 1;
}

/// Splits the bag, and takes a credit for the part.
pub(crate) fn mint<P: Program, B: Bag<P>, F: Fabric<P, B>>(
    held: &mut Holding<B, F, P::Value>,
    rt: &impl Wait,
) -> Result<(), NoMemory>
    requires holds { HoldsAt B.items B.fits P.value P.Value.unit P.Value.combine F.program F.kept
        held.old }
    requires agrees { AgreesAt B.items F.kept held.old }
    requires may { May (F.kept held.old.fabric) (event.Mint (F.kept held.old.fabric).place) }
    requires looked { (x : InEdge) → IsIn x held.old.seen.ins.items → is_unseen x ≡ false }
    requires wanted { (x : InEdge) × IsIn x held.old.seen.ins.items × (is_wanted x ≡ true) }
    ensures holds { HoldsAt B.items B.fits P.value P.Value.unit P.Value.combine F.program F.kept
        held.new }
    ensures agrees { OnOk result (AgreesAt B.items F.kept held.new) }
    ensures spare { SpareAt B.items F.kept held.new }
    ensures minted { OnOk result (F.kept held.new.fabric ≡ mint_row (F.kept held.old.fabric)) }
    ensures refused { OnErr result (F.kept held.new.fabric ≡ F.kept held.old.fabric) }
    ensures home { SameObject F.program F.home F.refuses held.old.fabric held.new.fabric }
    ensures counts { SameCounts (F.looks held.old.fabric) (F.looks held.new.fabric) }
{
    match held.bag.split()? {
        Some(part) => {
            held.fabric.mint(rt);
            held.state.credit = Credit::Minted;
            held.spare = Some(part);
            Ok(())
        }
        None => unreachable!(),
    }
}

/// Gives one credit back.
pub(crate) fn burn<P: Program, B: Bag<P>, F: Fabric<P, B>>(
    held: &mut Holding<B, F, P::Value>,
    rt: &impl Wait,
)
    requires holds { HoldsAt B.items B.fits P.value P.Value.unit P.Value.combine F.program F.kept
        held.old }
    requires agrees { AgreesAt B.items F.kept held.old }
    requires may { May (F.kept held.old.fabric) (event.Burn (F.kept held.old.fabric).place) }
    ensures holds { HoldsAt B.items B.fits P.value P.Value.unit P.Value.combine F.program F.kept
        held.new }
    ensures agrees { AgreesAt B.items F.kept held.new }
    ensures burnt { F.kept held.new.fabric ≡ burn_row (F.kept held.old.fabric) }
    ensures home { SameObject F.program F.home F.refuses held.old.fabric held.new.fabric }
    ensures counts { SameCounts (F.looks held.old.fabric) (F.looks held.new.fabric) }
{
    held.fabric.burn(rt);
    held.state.credit = Credit::One;
}

/// Falls asleep.
pub(crate) fn sleep<P: Program, B: Bag<P>, F: Fabric<P, B>>(
    held: &mut Holding<B, F, P::Value>,
    rt: &impl Wait,
)
    requires holds { HoldsAt B.items B.fits P.value P.Value.unit P.Value.combine F.program F.kept
        held.old }
    requires agrees { AgreesAt B.items F.kept held.old }
    requires may { May (F.kept held.old.fabric) (event.Sleep (F.kept held.old.fabric).place) }
    requires not_minted { (F.kept held.old.fabric).local.credit ≢ credits.Minted }
    ensures holds { HoldsAt B.items B.fits P.value P.Value.unit P.Value.combine F.program F.kept
        held.new }
    ensures agrees { AgreesAt B.items F.kept held.new }
    ensures slept { F.kept held.new.fabric ≡ sleep_row (F.kept held.old.fabric) }
    ensures home { SameObject F.program F.home F.refuses held.old.fabric held.new.fabric }
    ensures counts { SameCounts (F.looks held.old.fabric) (F.looks held.new.fabric) }
{
    held.fabric.sleep(rt);
    held.state.phase = Phase::Asleep;
    held.state.credit = Credit::Zero;
    count_sleep(&mut held.counters);
}

/// Raises the stop code to this one.
pub(crate) fn halt<P: Program, B: Bag<P>, F: Fabric<P, B>>(
    held: &mut Holding<B, F, P::Value>,
    rt: &impl Wait,
    code: u64,
)
    requires here { (F.kept held.old.fabric).local.phase ≢ phases.Gone }
    requires holds { HoldsAt B.items B.fits P.value P.Value.unit P.Value.combine F.program F.kept
        held.old }
    requires code { (code ≡ 1) ⊎ (code ≡ 2) }
    requires cause { code ≡ 1 → (F.kept held.old.fabric).params.limit <
        (F.kept held.old.fabric).last }
    ensures holds { HoldsAt B.items B.fits P.value P.Value.unit P.Value.combine F.program F.kept
        held.new }
    ensures bag { held.new.bag ≡ held.old.bag }
    ensures spare { held.new.spare ≡ held.old.spare }
    ensures halted { F.kept held.new.fabric ≡ halt_row code (F.kept held.old.fabric) }
    ensures home { SameObject F.program F.home F.refuses held.old.fabric held.new.fabric }
    ensures counts { SameCounts (F.looks held.old.fabric) (F.looks held.new.fabric) }
{
    held.fabric.halt(rt, code);
}
