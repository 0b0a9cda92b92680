//! What a place does with the requests of others, and with its own.
ghost use Rattle.std.specs.Prelude.{◌≡◌, ◌≢◌, ℕ, ◌<◌, ◌≤◌, ◌⊎◌, ◌++◌, true, List, length, OnOk, OnErr};
ghost use Rattle.rand_pcg.specs.Lcg.{next};
ghost use Rattle.rand_pcg.specs.Pcg.{multiplier_64, output_xsh_rr};
ghost use Rattle.glb_rules.specs.World.{has_edge};
ghost use Rattle.glb_rules.specs.Events.{name_of};
ghost use Rattle.glb_rules.specs.Draws.{victim_of};
ghost use Rattle.glb_rules.specs.Effects.{credit_after_take as credit_after};
ghost use Rattle.glb_rules.specs.declared.event.Event.TheVariants as event;
ghost use Rattle.glb_rules.specs.declared.kinds.Credit.TheVariants as credits;
ghost use Rattle.glb_rules.specs.declared.kinds.Edge.TheVariants as seen;
ghost use Rattle.glb_rules.specs.declared.kinds.Kind.TheVariants as kinds;
ghost use Rattle.glb_place.specs.Records.{May, setup_in};
ghost use Rattle.glb_place.specs.Rows.{deny_row, give_row, ask_row, take_row, shrug_row, known_row};
ghost use Rattle.glb_place.specs.Calls.{Gives, SameObject};
ghost use Rattle.glb_place.specs.Places.{HasItems};
ghost use Rattle.glb_place.specs.inner.Standing.{HoldsAt, AgreesAt, SpareAt};
ghost use Rattle.glb_place.specs.inner.Polling.{SameCounts};

use crate::counts::{count_ask, count_denied, count_given, count_got, count_shrug};
use crate::fabric::Fabric;
use crate::holding::Holding;
use crate::sight::{note_in, note_line, note_out};
use glb_core::{Credit, Edge, Kind, Mark, Phase, victim};
use glb_laws::{Bag, Monoid, NoMemory, Program};
use rand_core::utils::NextWord;
use rand_pcg::Pcg32;
use std::sync::Wait;

/// Refuses a request.
pub(crate) fn deny<P: Program, B: Bag<P>, F: Fabric<P, B>>(
    held: &mut Holding<B, F, P::Value>,
    rt: &impl Wait,
    thief: u32,
    kind: Kind,
) -> Result<(), NoMemory>
    requires holds { HoldsAt B.items B.fits P.value P.Value.unit P.Value.combine F.program F.kept
        held.old }
    requires agrees { AgreesAt B.items F.kept held.old }
    requires may { May (F.kept held.old.fabric) (event.Deny (F.kept held.old.fabric).place thief
        kind) }
    requires there { has_edge (setup_in (F.kept held.old.fabric)) kind thief
        (F.kept held.old.fabric).place ≡ true }
    requires not_minted { (F.kept held.old.fabric).local.credit ≢ credits.Minted }
    ensures holds { HoldsAt B.items B.fits P.value P.Value.unit P.Value.combine F.program F.kept
        held.new }
    ensures agrees { OnOk result (AgreesAt B.items F.kept held.new) }
    ensures denied { OnOk result (F.kept held.new.fabric ≡ deny_row thief kind
        (F.kept held.old.fabric)) }
    ensures refused { OnErr result (F.kept held.new.fabric ≡ F.kept held.old.fabric) }
    ensures free { OnErr result (F.refuses held.old.fabric ≡ true) }
    ensures spare { SpareAt B.items F.kept held.new }
    ensures home { SameObject F.program F.home F.refuses held.old.fabric held.new.fabric }
    ensures counts { SameCounts (F.looks held.old.fabric) (F.looks held.new.fabric) }
{
    held.fabric.deny(rt, thief, kind)?;
    count_denied(&mut held.counters, kind);
    note_in(&mut held.seen.ins, kind, thief, Mark::Clear, Edge::Refused);
    Ok(())
}

/// Gives the part that is split off.
pub(crate) fn give<P: Program, B: Bag<P>, F: Fabric<P, B>>(
    held: &mut Holding<B, F, P::Value>,
    rt: &impl Wait,
    thief: u32,
    kind: Kind,
) -> Result<(), NoMemory>
    requires holds { HoldsAt B.items B.fits P.value P.Value.unit P.Value.combine F.program F.kept
        held.old }
    requires agrees { AgreesAt B.items F.kept held.old }
    requires may { May (F.kept held.old.fabric) (event.Give (F.kept held.old.fabric).place thief
        kind) }
    requires there { has_edge (setup_in (F.kept held.old.fabric)) kind thief
        (F.kept held.old.fabric).place ≡ true }
    ensures holds { HoldsAt B.items B.fits P.value P.Value.unit P.Value.combine F.program F.kept
        held.new }
    ensures agrees { OnOk result (AgreesAt B.items F.kept held.new) }
    ensures gave { OnOk result ((part : List P.Item) × (0 < length part)
        × Gives (give_row thief kind) part (F.kept held.old.fabric) (F.kept held.new.fabric)) }
    ensures refused { OnErr result (F.kept held.new.fabric ≡ F.kept held.old.fabric) }
    ensures free { OnErr result (F.refuses held.old.fabric ≡ true) }
    ensures spare { SpareAt B.items F.kept held.new }
    ensures home { SameObject F.program F.home F.refuses held.old.fabric held.new.fabric }
    ensures counts { SameCounts (F.looks held.old.fabric) (F.looks held.new.fabric) }
{
    match held.spare.take() {
        Some(part) => {
            let units = part.len();
            match held.fabric.give(rt, thief, kind, part) {
                Ok(()) => {
                    count_given(&mut held.counters, kind, units);
                    held.state.credit = Credit::One;
                    held.state.size = held.bag.len();
                    note_in(&mut held.seen.ins, kind, thief, Mark::Clear, Edge::Loot);
                    Ok(())
                }
                Err((no_memory, part)) => {
                    held.spare = Some(part);
                    Err(no_memory)
                }
            }
        }
        None => unreachable!(),
    }
}

/// The next random victim.
fn draw(words: &mut Pcg32, places: u32, place: u32) -> u32
    requires places { 2 ≤ places }
    requires place { place < places }
    ensures words { words.new ≡ next 64 multiplier_64 words.old }
    ensures victim { result ≡ victim_of (output_xsh_rr words.old.state) places place }
{
    victim(words.next_word(), places, place)
}

/// Asks a random victim.
pub(crate) fn ask_victim<P: Program, B: Bag<P>, F: Fabric<P, B>>(
    held: &mut Holding<B, F, P::Value>,
    rt: &impl Wait,
    victim: u32,
) -> Result<(), NoMemory>
    requires holds { HoldsAt B.items B.fits P.value P.Value.unit P.Value.combine F.program F.kept
        held.old }
    requires agrees { AgreesAt B.items F.kept held.old }
    requires may { May (F.kept held.old.fabric) (event.Ask (F.kept held.old.fabric).place victim
        kinds.Steal) }
    requires there { has_edge (setup_in (F.kept held.old.fabric)) kinds.Steal
        (F.kept held.old.fabric).place victim ≡ true }
    requires not_minted { (F.kept held.old.fabric).local.credit ≢ credits.Minted }
    ensures holds { HoldsAt B.items B.fits P.value P.Value.unit P.Value.combine F.program F.kept
        held.new }
    ensures agrees { OnOk result (AgreesAt B.items F.kept held.new) }
    ensures asked { OnOk result (F.kept held.new.fabric ≡ ask_row victim kinds.Steal
        (F.kept held.old.fabric)) }
    ensures refused { OnErr result (F.kept held.new.fabric ≡ F.kept held.old.fabric) }
    ensures free { OnErr result (F.refuses held.old.fabric ≡ true) }
    ensures spare { SpareAt B.items F.kept held.new }
    ensures home { SameObject F.program F.home F.refuses held.old.fabric held.new.fabric }
    ensures counts { SameCounts (F.looks held.old.fabric) (F.looks held.new.fabric) }
{
    held.fabric.ask(rt, victim, Kind::Steal)?;
    count_ask(&mut held.counters, Kind::Steal);
    held.state.phase = Phase::Waiting {
        victim,
        kind: Kind::Steal,
    };
    held.state.tries = held.state.tries.saturating_sub(1);
    held.state.victim = draw(&mut held.words, held.params.places, held.state.place);
    held.seen.waited = Edge::Asked;
    Ok(())
}

/// Asks over a lifeline.
pub(crate) fn ask_line<P: Program, B: Bag<P>, F: Fabric<P, B>>(
    held: &mut Holding<B, F, P::Value>,
    rt: &impl Wait,
    victim: u32,
) -> Result<(), NoMemory>
    requires holds { HoldsAt B.items B.fits P.value P.Value.unit P.Value.combine F.program F.kept
        held.old }
    requires agrees { AgreesAt B.items F.kept held.old }
    requires may { May (F.kept held.old.fabric) (event.Ask (F.kept held.old.fabric).place victim
        kinds.Line) }
    requires there { has_edge (setup_in (F.kept held.old.fabric)) kinds.Line
        (F.kept held.old.fabric).place victim ≡ true }
    requires not_minted { (F.kept held.old.fabric).local.credit ≢ credits.Minted }
    ensures holds { HoldsAt B.items B.fits P.value P.Value.unit P.Value.combine F.program F.kept
        held.new }
    ensures agrees { OnOk result (AgreesAt B.items F.kept held.new) }
    ensures asked { OnOk result (F.kept held.new.fabric ≡ ask_row victim kinds.Line
        (F.kept held.old.fabric)) }
    ensures refused { OnErr result (F.kept held.new.fabric ≡ F.kept held.old.fabric) }
    ensures free { OnErr result (F.refuses held.old.fabric ≡ true) }
    ensures spare { SpareAt B.items F.kept held.new }
    ensures home { SameObject F.program F.home F.refuses held.old.fabric held.new.fabric }
    ensures counts { SameCounts (F.looks held.old.fabric) (F.looks held.new.fabric) }
{
    held.fabric.ask(rt, victim, Kind::Line)?;
    count_ask(&mut held.counters, Kind::Line);
    held.state.phase = Phase::Waiting {
        victim,
        kind: Kind::Line,
    };
    note_out(&mut held.seen.outs, victim, Edge::Asked);
    held.seen.waited = Edge::Asked;
    Ok(())
}

/// The credit of a place that took a part.
fn credit_taken(credit: Credit) -> Credit
    ensures { result ≡ credit_after credit }
{
    match credit {
        Credit::Zero => Credit::One,
        Credit::One => Credit::Taken,
        Credit::Minted | Credit::Taken => credit,
    }
}

/// Takes the part that waits on the edge. Where it cannot be merged, it is kept beside the bag.
pub(crate) fn take<P: Program, B: Bag<P>, F: Fabric<P, B>>(
    held: &mut Holding<B, F, P::Value>,
    rt: &impl Wait,
    victim: u32,
    kind: Kind,
) -> Result<(), NoMemory>
    requires holds { HoldsAt B.items B.fits P.value P.Value.unit P.Value.combine F.program F.kept
        held.old }
    requires agrees { AgreesAt B.items F.kept held.old }
    requires may { May (F.kept held.old.fabric) (event.Take (F.kept held.old.fabric).place victim
        kind) }
    requires there { has_edge (setup_in (F.kept held.old.fabric)) kind
        (F.kept held.old.fabric).place victim ≡ true }
    requires not_minted { (F.kept held.old.fabric).local.credit ≢ credits.Minted }
    ensures holds { HoldsAt B.items B.fits P.value P.Value.unit P.Value.combine F.program F.kept
        held.new }
    ensures agrees { OnOk result (AgreesAt B.items F.kept held.new) }
    ensures taken { (part : List P.Item) × (0 < length part)
        × (F.kept held.new.fabric ≡ take_row victim kind part
        (part ++ (F.kept held.old.fabric).local.bag) (F.kept held.old.fabric)) }
    ensures spare { OnOk result (SpareAt B.items F.kept held.new) }
    ensures beside { OnErr result (HasItems B.items held.new.spare
        × ((F.kept held.new.fabric).local.credit ≢ credits.Minted)) }
    ensures home { SameObject F.program F.home F.refuses held.old.fabric held.new.fabric }
    ensures counts { SameCounts (F.looks held.old.fabric) (F.looks held.new.fabric) }
{
    let part = held.fabric.take(rt, victim, kind);
    count_got(&mut held.counters, kind, part.len(), held.state.phase);
    held.state.phase = Phase::Working;
    held.state.credit = credit_taken(held.state.credit);
    note_line(&mut held.seen.outs, kind, victim, Edge::Idle);
    match held.bag.merge(part) {
        Ok(()) => {
            held.state.size = held.bag.len();
            Ok(())
        }
        Err((no_memory, refused)) => {
            held.spare = Some(refused);
            Err(no_memory)
        }
    }
}

/// Gives up a request that was refused, but for one over a lifeline, unless a part has arrived.
pub(crate) fn shrug<P: Program, B: Bag<P>, F: Fabric<P, B>>(
    held: &mut Holding<B, F, P::Value>,
    rt: &impl Wait,
    victim: u32,
    kind: Kind,
)
    requires holds { HoldsAt B.items B.fits P.value P.Value.unit P.Value.combine F.program F.kept
        held.old }
    requires agrees { AgreesAt B.items F.kept held.old }
    requires may { May (F.kept held.old.fabric) (event.Shrug (F.kept held.old.fabric).place victim
        kind) }
    requires there { has_edge (setup_in (F.kept held.old.fabric)) kind
        (F.kept held.old.fabric).place victim ≡ true }
    requires not_minted { (F.kept held.old.fabric).local.credit ≢ credits.Minted }
    ensures holds { HoldsAt B.items B.fits P.value P.Value.unit P.Value.combine F.program F.kept
        held.new }
    ensures agrees { AgreesAt B.items F.kept held.new }
    ensures shrugged { (F.kept held.new.fabric ≡ shrug_row victim kind (F.kept held.old.fabric))
        ⊎ ((kind ≡ kinds.Line) × (F.kept held.new.fabric
        ≡ known_row (name_of kind (F.kept held.old.fabric).place victim) seen.Loot
        (F.kept held.old.fabric))) }
    ensures home { SameObject F.program F.home F.refuses held.old.fabric held.new.fabric }
    ensures counts { SameCounts (F.looks held.old.fabric) (F.looks held.new.fabric) }
{
    if held.fabric.shrug(rt, victim, kind) {
        count_shrug(&mut held.counters, kind);
        held.state.phase = Phase::Idle;
    } else {
        note_out(&mut held.seen.outs, victim, Edge::Loot);
        held.seen.waited = Edge::Loot;
    }
}
