//! A gift and its taking, each in two steps, and a batch.
ghost use Rattle.std.specs.Prelude.{◌≡◌, ◌+◌, ◌^◌, ◌<◌, ℕ, [], ◌∷◌, map, length, None};
ghost use mathlib.Core.Option.{some};
ghost use lib.ListN.{get_elem?};
ghost use Rattle.glb_cells.specs.Starts.{setup_from};
ghost use Rattle.glb_cells.specs.Plays.{begun_on, Reads, OnFirst};
ghost use Rattle.glb_cells.specs.inner.Ready.{MayBegin, MayTake, MaySettle, Gave, Took, Settled};

use super::plays::{Begin, Clear, Hand, Named, Part, Settle, Take};
use super::rule::{PlaceSeat, Steps};
use glb_core::Kind;
use glb_laws::{Bag, Program};
use std::marker::Brand;

/// Takes the edge's slot, which is empty. The word says Asked or Refused, and that a gift begins.
fn begin_as<L: Part<P::Item>, J: Named, P: Program, B: Bag<P>>(
    cells: &Steps<P, B, P::Item>,
    seat: &mut PlaceSeat<P, B, P::Item>,
    edge: usize,
    part: &B,
    word: u64,
)
    requires table { (seat.old.table_id ≡ cells.now.table_id)
        × (edge + 3 < cells.now.table_id.words) × (edge < 2 ^ 32) }
    requires name { get_elem? (setup_from B.items B.fits P.children cells.now.key).names edge ≡ some
        J.name }
    requires ready { Reads seat.old.me (MayBegin J.name word (B.items part.now)) }
    requires items { B.items part.now ≡ L.items }
    ensures table { (seat.new.table_id ≡ seat.old.table_id) × (seat.new.id ≡ seat.old.id) }
    ensures moved { (n : ℕ) × (seat.new.me ≡ (
      map (begun_on edge L.items n) seat.old.me.0,
      (edge, None) ∷ seat.old.me.1,
    )) }
{
    let _ = part;
    cells.swap::<Begin<L>>(seat, edge + 3, word);
}

pub(crate) fn give_as<J: Named, P: Program, B: Bag<P>>(
    cells: &Steps<P, B, P::Item>,
    seat: &mut PlaceSeat<P, B, P::Item>,
    edge: usize,
    part: B,
    _thief: u32,
    _victim: u32,
    _kind: Kind,
    word: u64,
)
    requires table { (seat.old.table_id ≡ cells.now.table_id)
        × (edge + 3 < cells.now.table_id.words) × (edge < 2 ^ 32) }
    requires name { get_elem? (setup_from B.items B.fits P.children cells.now.key).names edge ≡ some
        J.name }
    requires ready { Reads seat.old.me (MayBegin J.name word (B.items part)) }
    requires fits { OnFirst (λ r. B.fits part r.program) seat.old.me.0 }
    ensures table { (seat.new.table_id ≡ seat.old.table_id) × (seat.new.id ≡ seat.old.id) }
    ensures moved { Reads seat.old.me (λ r. Reads seat.new.me (Gave J.name (B.items part) r)) }
{
    begin_as::<Brand, J, P, B>(cells, seat, edge, &part, word);
    match cells.exchange(seat, edge, Some(part)) {
        None => {}
        Some(_) => unreachable!(),
    }
    cells.swap::<Hand<P, J>>(seat, edge + 3, 5);
}

pub(crate) fn take_as<J: Named, P: Program, B: Bag<P>>(
    cells: &Steps<P, B, P::Item>,
    seat: &mut PlaceSeat<P, B, P::Item>,
    edge: usize,
    _thief: u32,
    _victim: u32,
    _kind: Kind,
) -> B
    requires table { (seat.old.table_id ≡ cells.now.table_id)
        × (edge + 3 < cells.now.table_id.words) × (edge < 2 ^ 32) }
    requires name { get_elem? (setup_from B.items B.fits P.children cells.now.key).names edge ≡ some
        J.name }
    requires ready { Reads seat.old.me (MayTake J.name) }
    ensures table { (seat.new.table_id ≡ seat.old.table_id) × (seat.new.id ≡ seat.old.id) }
    ensures moved { Reads seat.old.me (λ r. B.fits result r.program × (0 < length (B.items result))
        × Reads seat.new.me (Took J.name (B.items result) r)) }
{
    cells.swap::<Take<P, J>>(seat, edge + 3, 6);
    let part = cells.exchange(seat, edge, None);
    cells.swap::<Clear>(seat, edge + 3, 0);
    part.unwrap()
}

/// The number of items of all places before it.
pub(crate) fn settle_as<L: Part<P::Item>, G: Part<P::Value>, P: Program, B: Bag<P>>(
    cells: &Steps<P, B, P::Item>,
    seat: &mut PlaceSeat<P, B, P::Item>,
    bag: &B,
    done: u64,
    gain: &P::Value,
) -> u64
    requires table { (seat.old.table_id ≡ cells.now.table_id) × (2 < cells.now.table_id.words) }
    requires ready { Reads seat.old.me (MaySettle P.children P.value P.Value.combine P.Value.unit
        done (B.items bag.now) gain.now) }
    requires picked { (B.items bag.now ≡ L.items) × (gain.now ∷ [] ≡ G.items) }
    ensures table { (seat.new.table_id ≡ seat.old.table_id) × (seat.new.id ≡ seat.old.id) }
    ensures moved { Reads seat.old.me (λ r. Reads seat.new.me
        (Settled P.children P.value P.Value.unit P.Value.combine done (B.items bag.now) gain.now
        result r)) }
{
    let _ = bag;
    let _ = gain;
    cells.fetch_add::<Settle<P, L, G>>(seat, 1, done)
}
