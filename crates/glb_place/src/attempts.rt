//! Actions for which memory can be wanting: the place then halts with code 2.
ghost use Rattle.std.specs.Prelude.{◌≡◌, ◌≢◌, ◌⊎◌, ◌<◌, ◌++◌, false, true, List, length};
ghost use Rattle.glb_rules.specs.World.{has_edge};
ghost use Rattle.glb_rules.specs.Sight.{IsIn};
ghost use Rattle.glb_rules.specs.Decision.{is_unseen, is_wanted};
ghost use Rattle.glb_rules.specs.declared.event.Event.TheVariants as event;
ghost use Rattle.glb_rules.specs.declared.kinds.Credit.TheVariants as credits;
ghost use Rattle.glb_rules.specs.declared.kinds.Kind.TheVariants as kinds;
ghost use Rattle.glb_rules.specs.declared.kinds.Phase.TheVariants as phases;
ghost use Rattle.glb_rules.specs.declared.edges.InEdge.{InEdge};
ghost use Rattle.glb_place.specs.Records.{May, setup_in};
ghost use Rattle.glb_place.specs.Rows.{mint_row, deny_row, give_row, ask_row, take_row, halt_row};
ghost use Rattle.glb_place.specs.Calls.{Gives, SameObject};
ghost use Rattle.glb_place.specs.inner.Standing.{HoldsAt, AgreesAt, SpareAt};
ghost use Rattle.glb_place.specs.inner.Polling.{SameCounts};

use crate::actions::{halt, mint};
use crate::fabric::Fabric;
use crate::holding::Holding;
use crate::requests::{ask_line, ask_victim, deny, give, take};
use glb_core::Kind;
use glb_laws::{Bag, Monoid, NoMemory, Program};
use std::sync::Wait;

/// Splits the bag, or halts.
pub(crate) fn try_mint<P: Program, B: Bag<P>, F: Fabric<P, B>>(
    held: &mut Holding<B, F, P::Value>,
    rt: &impl Wait,
)
    requires holds { HoldsAt B.items B.fits P.value P.Value.unit P.Value.combine F.program F.kept
        held.old }
    requires agrees { AgreesAt B.items F.kept held.old }
    requires may { May (F.kept held.old.fabric) (event.Mint (F.kept held.old.fabric).place) }
    requires looked { (x : InEdge) → IsIn x held.old.seen.ins.items → is_unseen x ≡ false }
    requires wanted { (x : InEdge) × IsIn x held.old.seen.ins.items × (is_wanted x ≡ true) }
    ensures here { (F.kept held.new.fabric).local.phase ≢ phases.Gone }
    ensures holds { HoldsAt B.items B.fits P.value P.Value.unit P.Value.combine F.program F.kept
        held.new }
    ensures agrees { (F.kept held.new.fabric).code ≡ 0 → AgreesAt B.items F.kept held.new }
    ensures acts { ((F.kept held.new.fabric) ≡ mint_row (F.kept held.old.fabric)) ⊎
        (F.kept held.new.fabric ≡ halt_row 2 (F.kept held.old.fabric)) }
    ensures spare { SpareAt B.items F.kept held.new }
    ensures home { SameObject F.program F.home F.refuses held.old.fabric held.new.fabric }
    ensures counts { SameCounts (F.looks held.old.fabric) (F.looks held.new.fabric) }
{
    match mint::<P, B, F>(held, rt) {
        Ok(()) => {}
        Err(NoMemory) => halt::<P, B, F>(held, rt, 2),
    }
}

/// Refuses a request, or halts.
pub(crate) fn try_deny<P: Program, B: Bag<P>, F: Fabric<P, B>>(
    held: &mut Holding<B, F, P::Value>,
    rt: &impl Wait,
    thief: u32,
    kind: Kind,
)
    requires holds { HoldsAt B.items B.fits P.value P.Value.unit P.Value.combine F.program F.kept
        held.old }
    requires agrees { AgreesAt B.items F.kept held.old }
    requires may { May (F.kept held.old.fabric) (event.Deny (F.kept held.old.fabric).place thief
        kind) }
    requires there { has_edge (setup_in (F.kept held.old.fabric)) kind thief
        (F.kept held.old.fabric).place ≡ true }
    requires not_minted { (F.kept held.old.fabric).local.credit ≢ credits.Minted }
    ensures here { (F.kept held.new.fabric).local.phase ≢ phases.Gone }
    ensures holds { HoldsAt B.items B.fits P.value P.Value.unit P.Value.combine F.program F.kept
        held.new }
    ensures agrees { (F.kept held.new.fabric).code ≡ 0 → AgreesAt B.items F.kept held.new }
    ensures acts { ((F.kept held.new.fabric) ≡ deny_row thief kind (F.kept held.old.fabric)) ⊎
        ((F.refuses held.old.fabric ≡ true)
        × (F.kept held.new.fabric ≡ halt_row 2 (F.kept held.old.fabric))) }
    ensures spare { SpareAt B.items F.kept held.new }
    ensures home { SameObject F.program F.home F.refuses held.old.fabric held.new.fabric }
    ensures counts { SameCounts (F.looks held.old.fabric) (F.looks held.new.fabric) }
{
    match deny::<P, B, F>(held, rt, thief, kind) {
        Ok(()) => {}
        Err(NoMemory) => halt::<P, B, F>(held, rt, 2),
    }
}

/// Gives the part that is split off, or halts.
pub(crate) fn try_give<P: Program, B: Bag<P>, F: Fabric<P, B>>(
    held: &mut Holding<B, F, P::Value>,
    rt: &impl Wait,
    thief: u32,
    kind: Kind,
)
    requires holds { HoldsAt B.items B.fits P.value P.Value.unit P.Value.combine F.program F.kept
        held.old }
    requires agrees { AgreesAt B.items F.kept held.old }
    requires may { May (F.kept held.old.fabric) (event.Give (F.kept held.old.fabric).place thief
        kind) }
    requires there { has_edge (setup_in (F.kept held.old.fabric)) kind thief
        (F.kept held.old.fabric).place ≡ true }
    ensures here { (F.kept held.new.fabric).local.phase ≢ phases.Gone }
    ensures holds { HoldsAt B.items B.fits P.value P.Value.unit P.Value.combine F.program F.kept
        held.new }
    ensures agrees { (F.kept held.new.fabric).code ≡ 0 → AgreesAt B.items F.kept held.new }
    ensures acts { ((part : List P.Item) × (0 < length part)
        × Gives (give_row thief kind) part (F.kept held.old.fabric) (F.kept held.new.fabric)) ⊎
        ((F.refuses held.old.fabric ≡ true)
        × (F.kept held.new.fabric ≡ halt_row 2 (F.kept held.old.fabric))) }
    ensures spare { SpareAt B.items F.kept held.new }
    ensures home { SameObject F.program F.home F.refuses held.old.fabric held.new.fabric }
    ensures counts { SameCounts (F.looks held.old.fabric) (F.looks held.new.fabric) }
{
    match give::<P, B, F>(held, rt, thief, kind) {
        Ok(()) => {}
        Err(NoMemory) => halt::<P, B, F>(held, rt, 2),
    }
}

/// Asks a random victim, or halts.
pub(crate) fn try_ask_victim<P: Program, B: Bag<P>, F: Fabric<P, B>>(
    held: &mut Holding<B, F, P::Value>,
    rt: &impl Wait,
    victim: u32,
)
    requires holds { HoldsAt B.items B.fits P.value P.Value.unit P.Value.combine F.program F.kept
        held.old }
    requires agrees { AgreesAt B.items F.kept held.old }
    requires may { May (F.kept held.old.fabric) (event.Ask (F.kept held.old.fabric).place victim
        kinds.Steal) }
    requires there { has_edge (setup_in (F.kept held.old.fabric)) kinds.Steal
        (F.kept held.old.fabric).place victim ≡ true }
    requires not_minted { (F.kept held.old.fabric).local.credit ≢ credits.Minted }
    ensures here { (F.kept held.new.fabric).local.phase ≢ phases.Gone }
    ensures holds { HoldsAt B.items B.fits P.value P.Value.unit P.Value.combine F.program F.kept
        held.new }
    ensures agrees { (F.kept held.new.fabric).code ≡ 0 → AgreesAt B.items F.kept held.new }
    ensures acts { ((F.kept held.new.fabric) ≡ ask_row victim kinds.Steal
        (F.kept held.old.fabric)) ⊎
        ((F.refuses held.old.fabric ≡ true)
        × (F.kept held.new.fabric ≡ halt_row 2 (F.kept held.old.fabric))) }
    ensures spare { SpareAt B.items F.kept held.new }
    ensures home { SameObject F.program F.home F.refuses held.old.fabric held.new.fabric }
    ensures counts { SameCounts (F.looks held.old.fabric) (F.looks held.new.fabric) }
{
    match ask_victim::<P, B, F>(held, rt, victim) {
        Ok(()) => {}
        Err(NoMemory) => halt::<P, B, F>(held, rt, 2),
    }
}

/// Asks over a lifeline, or halts.
pub(crate) fn try_ask_line<P: Program, B: Bag<P>, F: Fabric<P, B>>(
    held: &mut Holding<B, F, P::Value>,
    rt: &impl Wait,
    victim: u32,
)
    requires holds { HoldsAt B.items B.fits P.value P.Value.unit P.Value.combine F.program F.kept
        held.old }
    requires agrees { AgreesAt B.items F.kept held.old }
    requires may { May (F.kept held.old.fabric) (event.Ask (F.kept held.old.fabric).place victim
        kinds.Line) }
    requires there { has_edge (setup_in (F.kept held.old.fabric)) kinds.Line
        (F.kept held.old.fabric).place victim ≡ true }
    requires not_minted { (F.kept held.old.fabric).local.credit ≢ credits.Minted }
    ensures here { (F.kept held.new.fabric).local.phase ≢ phases.Gone }
    ensures holds { HoldsAt B.items B.fits P.value P.Value.unit P.Value.combine F.program F.kept
        held.new }
    ensures agrees { (F.kept held.new.fabric).code ≡ 0 → AgreesAt B.items F.kept held.new }
    ensures acts { ((F.kept held.new.fabric) ≡ ask_row victim kinds.Line
        (F.kept held.old.fabric)) ⊎
        ((F.refuses held.old.fabric ≡ true)
        × (F.kept held.new.fabric ≡ halt_row 2 (F.kept held.old.fabric))) }
    ensures spare { SpareAt B.items F.kept held.new }
    ensures home { SameObject F.program F.home F.refuses held.old.fabric held.new.fabric }
    ensures counts { SameCounts (F.looks held.old.fabric) (F.looks held.new.fabric) }
{
    match ask_line::<P, B, F>(held, rt, victim) {
        Ok(()) => {}
        Err(NoMemory) => halt::<P, B, F>(held, rt, 2),
    }
}

/// Takes a part, or keeps it beside the bag and halts.
pub(crate) fn try_take<P: Program, B: Bag<P>, F: Fabric<P, B>>(
    held: &mut Holding<B, F, P::Value>,
    rt: &impl Wait,
    victim: u32,
    kind: Kind,
)
    requires holds { HoldsAt B.items B.fits P.value P.Value.unit P.Value.combine F.program F.kept
        held.old }
    requires agrees { AgreesAt B.items F.kept held.old }
    requires may { May (F.kept held.old.fabric) (event.Take (F.kept held.old.fabric).place victim
        kind) }
    requires there { has_edge (setup_in (F.kept held.old.fabric)) kind
        (F.kept held.old.fabric).place victim ≡ true }
    requires not_minted { (F.kept held.old.fabric).local.credit ≢ credits.Minted }
    ensures here { (F.kept held.new.fabric).local.phase ≢ phases.Gone }
    ensures holds { HoldsAt B.items B.fits P.value P.Value.unit P.Value.combine F.program F.kept
        held.new }
    ensures agrees { (F.kept held.new.fabric).code ≡ 0 → AgreesAt B.items F.kept held.new }
    ensures acts { ((part : List P.Item) × (0 < length part)
        × ((F.kept held.new.fabric) ≡ take_row victim kind part
        (part ++ (F.kept held.old.fabric).local.bag) (F.kept held.old.fabric)))
        ⊎ ((part : List P.Item) × (0 < length part)
        × (F.kept held.new.fabric ≡ halt_row 2 (take_row victim kind part
        (part ++ (F.kept held.old.fabric).local.bag) (F.kept held.old.fabric)))) }
    ensures spare { SpareAt B.items F.kept held.new }
    ensures home { SameObject F.program F.home F.refuses held.old.fabric held.new.fabric }
    ensures counts { SameCounts (F.looks held.old.fabric) (F.looks held.new.fabric) }
{
    match take::<P, B, F>(held, rt, victim, kind) {
        Ok(()) => {}
        Err(NoMemory) => halt::<P, B, F>(held, rt, 2),
    }
}

/// Asks, or halts.
pub(crate) fn try_ask<P: Program, B: Bag<P>, F: Fabric<P, B>>(
    held: &mut Holding<B, F, P::Value>,
    rt: &impl Wait,
    victim: u32,
    kind: Kind,
)
    requires holds { HoldsAt B.items B.fits P.value P.Value.unit P.Value.combine F.program F.kept
        held.old }
    requires agrees { AgreesAt B.items F.kept held.old }
    requires may { May (F.kept held.old.fabric) (event.Ask (F.kept held.old.fabric).place victim
        kind) }
    requires there { has_edge (setup_in (F.kept held.old.fabric)) kind
        (F.kept held.old.fabric).place victim ≡ true }
    requires not_minted { (F.kept held.old.fabric).local.credit ≢ credits.Minted }
    ensures here { (F.kept held.new.fabric).local.phase ≢ phases.Gone }
    ensures holds { HoldsAt B.items B.fits P.value P.Value.unit P.Value.combine F.program F.kept
        held.new }
    ensures agrees { (F.kept held.new.fabric).code ≡ 0 → AgreesAt B.items F.kept held.new }
    ensures acts { (F.kept held.new.fabric ≡ ask_row victim kind (F.kept held.old.fabric)) ⊎
        ((F.refuses held.old.fabric ≡ true)
        × (F.kept held.new.fabric ≡ halt_row 2 (F.kept held.old.fabric))) }
    ensures spare { SpareAt B.items F.kept held.new }
    ensures home { SameObject F.program F.home F.refuses held.old.fabric held.new.fabric }
    ensures counts { SameCounts (F.looks held.old.fabric) (F.looks held.new.fabric) }
{
    match kind {
        Kind::Steal => try_ask_victim::<P, B, F>(held, rt, victim),
        Kind::Line => try_ask_line::<P, B, F>(held, rt, victim),
    }
}
