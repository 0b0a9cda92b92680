//! The steps of a seat, each one operation on one word.
ghost use Rattle.std.specs.Prelude.{◌≡◌, ◌≢◌, ◌⊎◌, ◌+◌, ◌^◌, ◌<◌, ◌≤◌, ℕ, [], ◌∷◌, map};
ghost use mathlib.Core.Option.{some};
ghost use lib.ListN.{get_elem?};
ghost use Rattle.glb_rules.specs.declared.kinds.Kind.TheVariants as kinds;
ghost use Rattle.glb_cells.specs.Starts.{setup_from};
ghost use Rattle.glb_cells.specs.Plays.{Reads, OnFirst, minted_on, burnt_on, slept_on, ended_on, stopped_on, halted_on, asked_on, denied_on, looked_on, learnt_on, given_up_on, shrugged_on};
ghost use Rattle.glb_cells.specs.Words.{read};
ghost use Rattle.glb_cells.specs.inner.Ready.{MayAsk, MayDeny, MayShrug, MayMint, MayBurn, MaySleep, IsHere, MayHalt};
ghost use Rattle.glb_place.specs.Calls.{CanFind};
ghost use Rattle.glb_place.specs.Records.{knows};
ghost use Rattle.glb_rules.specs.World.{mark_at};
ghost use Rattle.glb_rules.specs.declared.kinds.Side.TheVariants as side;
ghost use Rattle.glb_rules.specs.declared.kinds.Edge.TheVariants as seen;

use super::plays::{
    Ask, Burn, Deny, GiveUp, Halt, LookIn, LookOut, Mint, Named, Over, Shrug, Sleep, Stop,
};
use super::rule::{PlaceSeat, Steps};
use glb_core::Kind;
use glb_laws::{Bag, Program};

pub(crate) fn ask_as<J: Named, P: Program, B: Bag<P>>(
    cells: &Steps<P, B, P::Item>,
    seat: &mut PlaceSeat<P, B, P::Item>,
    edge: usize,
    _thief: u32,
    _victim: u32,
    _kind: Kind,
)
    requires table { (seat.old.table_id ≡ cells.now.table_id)
        × (edge + 3 < cells.now.table_id.words) × (edge < 2 ^ 32) }
    requires name { get_elem? (setup_from B.items B.fits P.children cells.now.key).names edge ≡ some
        J.name }
    requires ready { Reads seat.old.me (MayAsk J.name) }
    ensures table { (seat.new.table_id ≡ seat.old.table_id) × (seat.new.id ≡ seat.old.id) }
    ensures moved { seat.new.me ≡ (map (asked_on J.name 0) seat.old.me.0, seat.old.me.1) }
{
    cells.swap::<Ask<J>>(seat, edge + 3, 1);
}

pub(crate) fn deny_as<J: Named, P: Program, B: Bag<P>>(
    cells: &Steps<P, B, P::Item>,
    seat: &mut PlaceSeat<P, B, P::Item>,
    edge: usize,
    _thief: u32,
    _victim: u32,
    _kind: Kind,
)
    requires table { (seat.old.table_id ≡ cells.now.table_id)
        × (edge + 3 < cells.now.table_id.words) × (edge < 2 ^ 32) }
    requires name { get_elem? (setup_from B.items B.fits P.children cells.now.key).names edge ≡ some
        J.name }
    requires ready { Reads seat.old.me (MayDeny J.name) }
    ensures table { (seat.new.table_id ≡ seat.old.table_id) × (seat.new.id ≡ seat.old.id) }
    ensures moved { seat.new.me ≡ (map (denied_on J.name 1) seat.old.me.0, seat.old.me.1) }
{
    cells.swap::<Deny<J>>(seat, edge + 3, 2);
}

/// The word that was found, by which the edge is then known.
pub(crate) fn look_in_as<J: Named, P: Program, B: Bag<P>>(
    cells: &Steps<P, B, P::Item>,
    seat: &mut PlaceSeat<P, B, P::Item>,
    edge: usize,
    _thief: u32,
    _victim: u32,
    _kind: Kind,
) -> u64
    requires table { (seat.old.table_id ≡ cells.now.table_id)
        × (edge + 3 < cells.now.table_id.words) × (edge < 2 ^ 32) }
    requires name { get_elem? (setup_from B.items B.fits P.children cells.now.key).names edge ≡ some
        J.name }
    requires ready { Reads seat.old.me (λ r. (J.name).victim ≡ r.own.place) }
    ensures table { (seat.new.table_id ≡ seat.old.table_id) × (seat.new.id ≡ seat.old.id) }
    ensures moved { seat.new.me ≡ (map (looked_on J.name result) seat.old.me.0, seat.old.me.1) }
    ensures found { OnFirst (λ r. CanFind (mark_at r.own.local.marks (J.name).kind (J.name).thief)
        (J.name).kind side.Inward (knows r.own J.name) (read result)) seat.old.me.0 }
{
    cells.load::<LookIn<J>>(seat, edge + 3)
}

/// The same on an edge whose thief the place is.
pub(crate) fn look_out_as<J: Named, P: Program, B: Bag<P>>(
    cells: &Steps<P, B, P::Item>,
    seat: &mut PlaceSeat<P, B, P::Item>,
    edge: usize,
    _thief: u32,
    _victim: u32,
    _kind: Kind,
) -> u64
    requires table { (seat.old.table_id ≡ cells.now.table_id)
        × (edge + 3 < cells.now.table_id.words) × (edge < 2 ^ 32) }
    requires name { get_elem? (setup_from B.items B.fits P.children cells.now.key).names edge ≡ some
        J.name }
    requires ready { Reads seat.old.me (λ r. (J.name).thief ≡ r.own.place) }
    ensures table { (seat.new.table_id ≡ seat.old.table_id) × (seat.new.id ≡ seat.old.id) }
    ensures moved { seat.new.me ≡ (map (learnt_on J.name result) seat.old.me.0, seat.old.me.1) }
    ensures found { OnFirst (λ r. CanFind (mark_at r.own.local.marks (J.name).kind (J.name).victim)
        (J.name).kind side.Outward (knows r.own J.name) (read result)) seat.old.me.0 }
{
    cells.load::<LookOut<J>>(seat, edge + 3)
}

/// A refused request to a random victim is given up.
pub(crate) fn give_up_as<J: Named, P: Program, B: Bag<P>>(
    cells: &Steps<P, B, P::Item>,
    seat: &mut PlaceSeat<P, B, P::Item>,
    edge: usize,
    _thief: u32,
    _victim: u32,
    _kind: Kind,
)
    requires table { (seat.old.table_id ≡ cells.now.table_id)
        × (edge + 3 < cells.now.table_id.words) × (edge < 2 ^ 32) }
    requires name { get_elem? (setup_from B.items B.fits P.children cells.now.key).names edge ≡ some
        J.name }
    requires steal { (J.name).kind ≡ kinds.Steal }
    requires ready { Reads seat.old.me (MayShrug J.name) }
    ensures table { (seat.new.table_id ≡ seat.old.table_id) × (seat.new.id ≡ seat.old.id) }
    ensures moved { seat.new.me ≡ (map (given_up_on J.name 2) seat.old.me.0, seat.old.me.1) }
{
    cells.swap::<GiveUp<J>>(seat, edge + 3, 0);
}

/// A line: 5 where a part is there.
pub(crate) fn shrug_as<J: Named, P: Program, B: Bag<P>>(
    cells: &Steps<P, B, P::Item>,
    seat: &mut PlaceSeat<P, B, P::Item>,
    edge: usize,
    _thief: u32,
    _victim: u32,
    _kind: Kind,
) -> u64
    requires table { (seat.old.table_id ≡ cells.now.table_id)
        × (edge + 3 < cells.now.table_id.words) × (edge < 2 ^ 32) }
    requires name { get_elem? (setup_from B.items B.fits P.children cells.now.key).names edge ≡ some
        J.name }
    requires line { (J.name).kind ≡ kinds.Line }
    requires ready { Reads seat.old.me (MayShrug J.name) }
    ensures table { (seat.new.table_id ≡ seat.old.table_id) × (seat.new.id ≡ seat.old.id) }
    ensures moved { seat.new.me ≡ (map (shrugged_on J.name result) seat.old.me.0, seat.old.me.1) }
    ensures finds { (result ≡ 5) ⊎ ((result ≢ 5) × (read result ≡ seen.Refused)) }
{
    cells.load::<Shrug<J>>(seat, edge + 3)
}

pub(crate) fn mint<P: Program, B: Bag<P>>(
    cells: &Steps<P, B, P::Item>,
    seat: &mut PlaceSeat<P, B, P::Item>,
) -> u64
    requires table { (seat.old.table_id ≡ cells.now.table_id) × (2 < cells.now.table_id.words) }
    requires ready { Reads seat.old.me (MayMint) }
    ensures table { (seat.new.table_id ≡ seat.old.table_id) × (seat.new.id ≡ seat.old.id) }
    ensures moved { seat.new.me ≡ (map (minted_on result) seat.old.me.0, seat.old.me.1) }
{
    cells.fetch_add::<Mint>(seat, 0, 1)
}

pub(crate) fn burn<P: Program, B: Bag<P>>(
    cells: &Steps<P, B, P::Item>,
    seat: &mut PlaceSeat<P, B, P::Item>,
) -> u64
    requires table { (seat.old.table_id ≡ cells.now.table_id) × (2 < cells.now.table_id.words) }
    requires ready { Reads seat.old.me (MayBurn) }
    ensures table { (seat.new.table_id ≡ seat.old.table_id) × (seat.new.id ≡ seat.old.id) }
    ensures moved { seat.new.me ≡ (map (burnt_on result) seat.old.me.0, seat.old.me.1) }
{
    cells.fetch_sub::<Burn>(seat, 0, 1)
}

pub(crate) fn sleep<P: Program, B: Bag<P>>(
    cells: &Steps<P, B, P::Item>,
    seat: &mut PlaceSeat<P, B, P::Item>,
) -> u64
    requires table { (seat.old.table_id ≡ cells.now.table_id) × (2 < cells.now.table_id.words) }
    requires ready { Reads seat.old.me (MaySleep) }
    ensures table { (seat.new.table_id ≡ seat.old.table_id) × (seat.new.id ≡ seat.old.id) }
    ensures moved { seat.new.me ≡ (map (slept_on result) seat.old.me.0, seat.old.me.1) }
{
    cells.fetch_sub::<Sleep>(seat, 0, 1)
}

pub(crate) fn over<P: Program, B: Bag<P>>(
    cells: &Steps<P, B, P::Item>,
    seat: &mut PlaceSeat<P, B, P::Item>,
) -> u64
    requires table { (seat.old.table_id ≡ cells.now.table_id) × (2 < cells.now.table_id.words) }
    requires ready { Reads seat.old.me (IsHere) }
    ensures table { (seat.new.table_id ≡ seat.old.table_id) × (seat.new.id ≡ seat.old.id) }
    ensures moved { seat.new.me ≡ (map (ended_on result) seat.old.me.0, seat.old.me.1) }
{
    cells.load::<Over>(seat, 0)
}

pub(crate) fn halted<P: Program, B: Bag<P>>(
    cells: &Steps<P, B, P::Item>,
    seat: &mut PlaceSeat<P, B, P::Item>,
) -> u64
    requires table { (seat.old.table_id ≡ cells.now.table_id) × (2 < cells.now.table_id.words) }
    requires ready { Reads seat.old.me (IsHere) }
    ensures table { (seat.new.table_id ≡ seat.old.table_id) × (seat.new.id ≡ seat.old.id) }
    ensures moved { seat.new.me ≡ (map (stopped_on result) seat.old.me.0, seat.old.me.1) }
    ensures least { OnFirst (λ r. r.own.code ≤ result) seat.old.me.0 }
{
    cells.load::<Stop>(seat, 2)
}

pub(crate) fn halt<P: Program, B: Bag<P>>(
    cells: &Steps<P, B, P::Item>,
    seat: &mut PlaceSeat<P, B, P::Item>,
    code: u64,
) -> u64
    requires table { (seat.old.table_id ≡ cells.now.table_id) × (2 < cells.now.table_id.words) }
    requires ready { Reads seat.old.me (MayHalt code) }
    ensures table { (seat.new.table_id ≡ seat.old.table_id) × (seat.new.id ≡ seat.old.id) }
    ensures moved { seat.new.me ≡ (map (halted_on code result) seat.old.me.0, seat.old.me.1) }
{
    cells.fetch_max::<Halt>(seat, 2, code)
}
