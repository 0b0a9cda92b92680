//! Steps of a batch and of a gift, and messages that are taken back.
ghost use Rattle.std.specs.Prelude.{◌≡◌, ℕ, ◌+◌, ◌^◌, ◌<◌, List, [], ◌∷◌, ◌++◌, length};
ghost use Rattle.std.specs.Prelude.{IsPermutation};
ghost use Rattle.glb_place.specs.declared.record.Record.{Record};
ghost use Rattle.glb_place.specs.Calls.{HasMore};
ghost use Rattle.glb_place.specs.Rows.{give_row, batch_row};
ghost use Rattle.glb_inbox.specs.declared.view.Member.TheVariants.{Parcel};
ghost use Rattle.glb_inbox.specs.inner.Views.{on_one, stepped, spared, parted, undone, Reads};
ghost use Rattle.glb_inbox.specs.inner.Plays.{bag_of};
ghost use Rattle.glb_inbox.specs.inner.Acts.{Takes, MayBatch, MayGive, WasSent, WasGiven, Undoes};
ghost use Rattle.glb_inbox.specs.inner.Acts.{sender, sent};

use super::acts::Sent;
use super::cuts::{Send, Sending, Undo};
use super::plays::{Batch, Portion, Settle, Spare};
use super::rule::{Slip, Words};
use glb_core::Kind;
use glb_laws::{Bag, Program};
use std::marker::Brand;

fn settle_as<J: Batch<P::Item>, P: Program, B: Bag<P>>(
    words: &Words<P, B, P::Item>,
    seat: &mut Slip<P::Item>,
    bag: &B,
    done: u64,
    gain: &P::Value,
) -> u64
    requires table { (seat.old.table_id ≡ words.now.table_id) × (2 < words.now.table_id.words) }
    requires ready { Reads seat.old.me
        (λ x. MayBatch (P.children words.now.key.program.value)
        (P.value words.now.key.program.value) P.Value.unit P.Value.combine done (B.items bag.now)
        gain.now x.kept) }
    requires takes { (bag_before taken : List P.Item)
        → (J.takes bag_before taken
        → Takes (P.children words.now.key.program.value) (P.value words.now.key.program.value)
        P.Value.unit P.Value.combine done (B.items bag.now) gain.now bag_before taken)
        × (Takes (P.children words.now.key.program.value) (P.value words.now.key.program.value)
        P.Value.unit P.Value.combine done (B.items bag.now) gain.now bag_before taken
        → J.takes bag_before taken) }
    requires leaves { J.leaves ≡ B.items bag.now }
    ensures table { (seat.new.table_id ≡ seat.old.table_id) × (seat.new.id ≡ seat.old.id) }
    ensures moved { (taken : List P.Item)
        × Takes (P.children words.now.key.program.value) (P.value words.now.key.program.value)
        P.Value.unit P.Value.combine done (B.items bag.now) gain.now (bag_of seat.old.me.0)
        taken
        × (result + done < 2 ^ 64)
        × (seat.new.me ≡ (
          on_one
              (λ x. stepped (batch_row (result + done) taken (B.items bag.now) x.kept) result x)
              seat.old.me.0,
          seat.old.me.1,
        )) }
{
    let _bag = bag;
    let _gain = gain;
    words.fetch_add::<Settle<J>>(seat, 1, done)
}

/// The total of all places before this batch.
pub fn settle<P: Program, B: Bag<P>>(
    words: &Words<P, B, P::Item>,
    seat: &mut Slip<P::Item>,
    bag: &B,
    done: u64,
    gain: &P::Value,
) -> u64
    requires table { (seat.old.table_id ≡ words.now.table_id) × (2 < words.now.table_id.words) }
    requires ready { Reads seat.old.me
        (λ x. MayBatch (P.children words.now.key.program.value)
        (P.value words.now.key.program.value) P.Value.unit P.Value.combine done (B.items bag.now)
        gain.now x.kept) }
    ensures table { (seat.new.table_id ≡ seat.old.table_id) × (seat.new.id ≡ seat.old.id) }
    ensures moved { (taken : List P.Item)
        × Takes (P.children words.now.key.program.value) (P.value words.now.key.program.value)
        P.Value.unit P.Value.combine done (B.items bag.now) gain.now (bag_of seat.old.me.0)
        taken
        × (result + done < 2 ^ 64)
        × (seat.new.me ≡ (
          on_one
              (λ x. stepped (batch_row (result + done) taken (B.items bag.now) x.kept) result x)
              seat.old.me.0,
          seat.old.me.1,
        )) }
{
    settle_as::<Brand, P, B>(words, seat, bag, done, gain)
}

fn spare_as<J: Portion<P::Item>, P: Program, B: Bag<P>>(
    words: &Words<P, B, P::Item>,
    seat: &mut Slip<P::Item>,
    part: &B,
) -> u64
    requires table { (seat.old.table_id ≡ words.now.table_id) × (2 < words.now.table_id.words) }
    requires ready { Reads seat.old.me (λ x. HasMore (B.items part.now) x.kept) }
    requires part { J.part ≡ B.items part.now }
    ensures table { (seat.new.table_id ≡ seat.old.table_id) × (seat.new.id ≡ seat.old.id) }
    ensures moved { (rest : List P.Item)
        × IsPermutation (bag_of seat.old.me.0) (B.items part.now ++ rest) × (0 < length rest)
        × (seat.new.me ≡ (on_one (spared rest result) seat.old.me.0, seat.old.me.1)) }
{
    let _part = part;
    words.load::<Spare<J>>(seat, 2)
}

/// A load of stop, at which it becomes known what the bag keeps where the part is split off.
pub fn spare<P: Program, B: Bag<P>>(
    words: &Words<P, B, P::Item>,
    seat: &mut Slip<P::Item>,
    part: &B,
) -> u64
    requires table { (seat.old.table_id ≡ words.now.table_id) × (2 < words.now.table_id.words) }
    requires ready { Reads seat.old.me (λ x. HasMore (B.items part.now) x.kept) }
    ensures table { (seat.new.table_id ≡ seat.old.table_id) × (seat.new.id ≡ seat.old.id) }
    ensures moved { (rest : List P.Item)
        × IsPermutation (bag_of seat.old.me.0) (B.items part.now ++ rest) × (0 < length rest)
        × (seat.new.me ≡ (on_one (spared rest result) seat.old.me.0, seat.old.me.1)) }
{
    spare_as::<Brand, P, B>(words, seat, part)
}

fn give_as<J: Sending<P::Item>, P: Program, B: Bag<P>>(
    words: &Words<P, B, P::Item>,
    seat: &mut Slip<P::Item>,
    thief: u32,
    kind: Kind,
    part: &B,
) -> Slip<P::Item>
    requires table { (seat.old.table_id ≡ words.now.table_id) × (2 < words.now.table_id.words) }
    requires ready { Reads seat.old.me (λ x. MayGive thief kind (B.items part.now) x.rest x.kept) }
    requires row { (J.sender ≡ (λ (rest : List P.Item) (r : Record P.Item).
        give_row thief kind (B.items part.now) rest r))
        × (J.sent ≡ Parcel kind (B.items part.now) ∷ []) }
    ensures table { (seat.new.table_id ≡ seat.old.table_id) × (seat.new.id ≡ seat.old.id)
        × (result.table_id ≡ seat.old.table_id) }
    ensures moved { seat.new.me ≡ (
      on_one
          (λ x. parted (give_row thief kind (B.items part.now) x.rest x.kept) x) seat.old.me.0,
      seat.old.me.1,
    ) }
    ensures slip { result.me ≡ (Parcel kind (B.items part.now) ∷ [], []) }
{
    let _ = (thief, kind);
    let _part = part;
    words.split_seat::<Send<J>>(seat)
}

/// The seat for a message with a part.
pub fn give<P: Program, B: Bag<P>>(
    words: &Words<P, B, P::Item>,
    seat: &mut Slip<P::Item>,
    thief: u32,
    kind: Kind,
    part: &B,
) -> Slip<P::Item>
    requires table { (seat.old.table_id ≡ words.now.table_id) × (2 < words.now.table_id.words) }
    requires ready { Reads seat.old.me (λ x. MayGive thief kind (B.items part.now) x.rest x.kept) }
    ensures table { (seat.new.table_id ≡ seat.old.table_id) × (seat.new.id ≡ seat.old.id)
        × (result.table_id ≡ seat.old.table_id) }
    ensures moved { seat.new.me ≡ (
      on_one
          (λ x. parted (give_row thief kind (B.items part.now) x.rest x.kept) x) seat.old.me.0,
      seat.old.me.1,
    ) }
    ensures slip { result.me ≡ (Parcel kind (B.items part.now) ∷ [], []) }
{
    give_as::<Brand, P, B>(words, seat, thief, kind, part)
}

/// A message that was not sent is taken back.
pub fn take_back<P: Program, B: Bag<P>>(
    words: &Words<P, B, P::Item>,
    seat: &mut Slip<P::Item>,
    slip: Slip<P::Item>,
    act: Sent,
)
    requires table { (seat.old.table_id ≡ words.now.table_id) × (slip.table_id ≡ words.now.table_id)
        × (2 < words.now.table_id.words) }
    requires ready { Reads seat.old.me (Undoes (sender act) (WasSent act)) }
    requires slip { slip.me ≡ (sent act, []) }
    ensures table { (seat.new.table_id ≡ seat.old.table_id) × (seat.new.id ≡ seat.old.id) }
    ensures moved { seat.new.me ≡ (on_one undone seat.old.me.0, seat.old.me.1) }
{
    let _ = act;
    words.join_seat::<Undo>(seat, slip);
}

/// A part that was not sent is taken back.
pub fn keep<P: Program, B: Bag<P>>(
    words: &Words<P, B, P::Item>,
    seat: &mut Slip<P::Item>,
    slip: Slip<P::Item>,
    thief: u32,
    kind: Kind,
    part: &B,
)
    requires table { (seat.old.table_id ≡ words.now.table_id) × (slip.table_id ≡ words.now.table_id)
        × (2 < words.now.table_id.words) }
    requires ready { (rest : List P.Item)
        × Reads seat.old.me (Undoes (give_row thief kind (B.items part.now) rest)
        (WasGiven thief kind (B.items part.now) rest)) }
    requires slip { slip.me ≡ (Parcel kind (B.items part.now) ∷ [], []) }
    ensures table { (seat.new.table_id ≡ seat.old.table_id) × (seat.new.id ≡ seat.old.id) }
    ensures moved { seat.new.me ≡ (on_one undone seat.old.me.0, seat.old.me.1) }
{
    let _ = (thief, kind);
    let _part = part;
    words.join_seat::<Undo>(seat, slip);
}
