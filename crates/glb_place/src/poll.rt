//! A place that has nothing to do looks again at all that it waits for.
ghost use Rattle.std.specs.Prelude.{◌≡◌, ◌≢◌, ℕ, ◌<◌, true, length, slice_index_or};
ghost use Rattle.glb_rules.specs.Events.{name_of};
ghost use Rattle.glb_core.specs.Seen.{in_names};
ghost use Rattle.glb_rules.specs.declared.kinds.Credit.TheVariants as credits;
ghost use Rattle.glb_rules.specs.declared.kinds.Phase.TheVariants as phases;
ghost use Rattle.glb_rules.specs.declared.local.EdgeName.{EdgeName};
ghost use Rattle.glb_place.specs.Calls.{SameObject};
ghost use Rattle.glb_place.specs.Looks.{LooksAt};
ghost use Rattle.glb_place.specs.Turns.{Learns, LooksAround};
ghost use Rattle.glb_place.specs.inner.Standing.{HoldsAt, AgreesAt};
ghost use Rattle.glb_place.specs.inner.Polling.{LookedInto, SameCounts, out_names};

use crate::fabric::Fabric;
use crate::holding::Holding;
use crate::sight::{note_at, note_line};
use glb_core::{Kind, Phase, Side};
use glb_laws::{Bag, Monoid, Program};
use std::sync::Wait;

/// Looks again at the in-edge at the index.
fn poll_in<P: Program, B: Bag<P>, F: Fabric<P, B>>(
    held: &mut Holding<B, F, P::Value>,
    rt: &impl Wait,
    at: usize,
)
    requires holds { HoldsAt B.items B.fits P.value P.Value.unit P.Value.combine F.program F.kept
        held.old }
    requires agrees { AgreesAt B.items F.kept held.old }
    requires within { at < length held.old.seen.ins.items }
    requires rests { (F.kept held.old.fabric).local.phase ≢ phases.Working }
    requires not_minted { (F.kept held.old.fabric).local.credit ≢ credits.Minted }
    ensures holds { HoldsAt B.items B.fits P.value P.Value.unit P.Value.combine F.program F.kept
        held.new }
    ensures agrees { AgreesAt B.items F.kept held.new }
    ensures learns { Learns (F.kept held.old.fabric) (F.kept held.new.fabric) }
    ensures many { length held.new.seen.ins.items ≡ length held.old.seen.ins.items }
    ensures looks { (d : EdgeName) → LooksAt
        (slice_index_or (in_names (F.kept held.old.fabric).lines
        (F.kept held.old.fabric).place) at d)
        (F.looks held.old.fabric) (F.looks held.new.fabric) }
    ensures outs { (n : EdgeName) → n.thief ≡ (F.kept held.old.fabric).place
        → (F.looks held.new.fabric).edge n ≡ (F.looks held.old.fabric).edge n }
    ensures home { SameObject F.program F.home F.refuses held.old.fabric held.new.fabric }
{
    let edge = held.seen.ins[at];
    let found = held.fabric.look(rt, edge.thief, edge.kind, Side::Inward);
    note_at(&mut held.seen.ins, at, edge.mark, found);
    held.first = 0;
}

/// Looks again at all in-edges.
fn poll_ins<P: Program, B: Bag<P>, F: Fabric<P, B>>(
    held: &mut Holding<B, F, P::Value>,
    rt: &impl Wait,
)
    requires holds { HoldsAt B.items B.fits P.value P.Value.unit P.Value.combine F.program F.kept
        held.old }
    requires agrees { AgreesAt B.items F.kept held.old }
    requires rests { (F.kept held.old.fabric).local.phase ≢ phases.Working }
    requires not_minted { (F.kept held.old.fabric).local.credit ≢ credits.Minted }
    ensures holds { HoldsAt B.items B.fits P.value P.Value.unit P.Value.combine F.program F.kept
        held.new }
    ensures agrees { AgreesAt B.items F.kept held.new }
    ensures learns { Learns (F.kept held.old.fabric) (F.kept held.new.fabric) }
    ensures all { LookedInto (in_names (F.kept held.old.fabric).lines
        (F.kept held.old.fabric).place)
        (length (in_names (F.kept held.old.fabric).lines (F.kept held.old.fabric).place))
        (F.looks held.old.fabric) (F.looks held.new.fabric) }
    ensures outs { (n : EdgeName) → n.thief ≡ (F.kept held.old.fabric).place
        → (F.looks held.new.fabric).edge n ≡ (F.looks held.old.fabric).edge n }
    ensures home { SameObject F.program F.home F.refuses held.old.fabric held.new.fabric }
    ensures counts { SameCounts (F.looks held.old.fabric) (F.looks held.new.fabric) }
{
    for at in 0..held.seen.ins.len() {
        poll_in(held, rt, at);
    }
}

/// Looks again at the edge on which the place waits.
fn poll_waited<P: Program, B: Bag<P>, F: Fabric<P, B>>(
    held: &mut Holding<B, F, P::Value>,
    rt: &impl Wait,
    victim: u32,
    kind: Kind,
)
    requires holds { HoldsAt B.items B.fits P.value P.Value.unit P.Value.combine F.program F.kept
        held.old }
    requires agrees { AgreesAt B.items F.kept held.old }
    requires waits { (F.kept held.old.fabric).local.phase ≡ phases.Waiting victim kind }
    requires not_minted { (F.kept held.old.fabric).local.credit ≢ credits.Minted }
    ensures holds { HoldsAt B.items B.fits P.value P.Value.unit P.Value.combine F.program F.kept
        held.new }
    ensures agrees { AgreesAt B.items F.kept held.new }
    ensures learns { Learns (F.kept held.old.fabric) (F.kept held.new.fabric) }
    ensures looks { LooksAt (name_of kind (F.kept held.old.fabric).place victim)
        (F.looks held.old.fabric) (F.looks held.new.fabric) }
    ensures home { SameObject F.program F.home F.refuses held.old.fabric held.new.fabric }
{
    let found = held.fabric.look(rt, victim, kind, Side::Outward);
    note_line(&mut held.seen.outs, kind, victim, found);
    held.seen.waited = found;
}

/// Looks again at a lifeline of a place that sleeps.
fn poll_out<P: Program, B: Bag<P>, F: Fabric<P, B>>(
    held: &mut Holding<B, F, P::Value>,
    rt: &impl Wait,
    at: usize,
)
    requires holds { HoldsAt B.items B.fits P.value P.Value.unit P.Value.combine F.program F.kept
        held.old }
    requires agrees { AgreesAt B.items F.kept held.old }
    requires within { at < length held.old.seen.outs.items }
    requires sleeps { (F.kept held.old.fabric).local.phase ≡ phases.Asleep }
    requires not_minted { (F.kept held.old.fabric).local.credit ≢ credits.Minted }
    ensures holds { HoldsAt B.items B.fits P.value P.Value.unit P.Value.combine F.program F.kept
        held.new }
    ensures agrees { AgreesAt B.items F.kept held.new }
    ensures learns { Learns (F.kept held.old.fabric) (F.kept held.new.fabric) }
    ensures many { length held.new.seen.outs.items ≡ length held.old.seen.outs.items }
    ensures looks { (d : EdgeName) → LooksAt
        (slice_index_or (out_names (F.kept held.old.fabric).lines
        (F.kept held.old.fabric).place) at d)
        (F.looks held.old.fabric) (F.looks held.new.fabric) }
    ensures ins { (n : EdgeName) → n.thief ≢ (F.kept held.old.fabric).place
        → (F.looks held.new.fabric).edge n ≡ (F.looks held.old.fabric).edge n }
    ensures home { SameObject F.program F.home F.refuses held.old.fabric held.new.fabric }
{
    let victim = held.seen.outs[at].victim;
    let found = held.fabric.look(rt, victim, Kind::Line, Side::Outward);
    note_line(&mut held.seen.outs, Kind::Line, victim, found);
}

/// Looks again at all lifelines of a place that sleeps.
fn poll_outs<P: Program, B: Bag<P>, F: Fabric<P, B>>(
    held: &mut Holding<B, F, P::Value>,
    rt: &impl Wait,
)
    requires holds { HoldsAt B.items B.fits P.value P.Value.unit P.Value.combine F.program F.kept
        held.old }
    requires agrees { AgreesAt B.items F.kept held.old }
    requires sleeps { (F.kept held.old.fabric).local.phase ≡ phases.Asleep }
    requires not_minted { (F.kept held.old.fabric).local.credit ≢ credits.Minted }
    ensures holds { HoldsAt B.items B.fits P.value P.Value.unit P.Value.combine F.program F.kept
        held.new }
    ensures agrees { AgreesAt B.items F.kept held.new }
    ensures learns { Learns (F.kept held.old.fabric) (F.kept held.new.fabric) }
    ensures all { LookedInto (out_names (F.kept held.old.fabric).lines
        (F.kept held.old.fabric).place)
        (length (out_names (F.kept held.old.fabric).lines (F.kept held.old.fabric).place))
        (F.looks held.old.fabric) (F.looks held.new.fabric) }
    ensures ins { (n : EdgeName) → n.thief ≢ (F.kept held.old.fabric).place
        → (F.looks held.new.fabric).edge n ≡ (F.looks held.old.fabric).edge n }
    ensures home { SameObject F.program F.home F.refuses held.old.fabric held.new.fabric }
    ensures counts { SameCounts (F.looks held.old.fabric) (F.looks held.new.fabric) }
{
    for at in 0..held.seen.outs.len() {
        poll_out(held, rt, at);
    }
}

/// Looks again at all that the place waits for.
#[inline(never)]
pub(crate) fn poll<P: Program, B: Bag<P>, F: Fabric<P, B>>(
    held: &mut Holding<B, F, P::Value>,
    rt: &impl Wait,
)
    requires holds { HoldsAt B.items B.fits P.value P.Value.unit P.Value.combine F.program F.kept
        held.old }
    requires agrees { AgreesAt B.items F.kept held.old }
    requires rests { (F.kept held.old.fabric).local.phase ≢ phases.Working }
    requires not_minted { (F.kept held.old.fabric).local.credit ≢ credits.Minted }
    ensures holds { HoldsAt B.items B.fits P.value P.Value.unit P.Value.combine F.program F.kept
        held.new }
    ensures agrees { AgreesAt B.items F.kept held.new }
    ensures learns { Learns (F.kept held.old.fabric) (F.kept held.new.fabric) }
    ensures looks { LooksAround (F.kept held.old.fabric) (F.looks held.old.fabric)
        (F.looks held.new.fabric) }
    ensures home { SameObject F.program F.home F.refuses held.old.fabric held.new.fabric }
    ensures counts { SameCounts (F.looks held.old.fabric) (F.looks held.new.fabric) }
{
    poll_ins(held, rt);
    match held.state.phase {
        Phase::Waiting { victim, kind } => poll_waited(held, rt, victim, kind),
        Phase::Asleep => poll_outs(held, rt),
        Phase::Working | Phase::Idle | Phase::Gone => {}
    }
}
