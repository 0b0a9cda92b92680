//! Steps that move the record alone, and seats of requests and refusals that are split off and
//! joined.
ghost use Rattle.std.specs.Prelude.{◌≡◌, ◌<◌, List, []};
ghost use Rattle.glb_place.specs.declared.record.Record.{Record};
ghost use Rattle.glb_inbox.specs.declared.view.Member.{Member};
ghost use Rattle.glb_inbox.specs.inner.Views.{on_one, stepped, parted, joined, Reads};
ghost use Rattle.glb_inbox.specs.inner.Acts.{noted, MayNote, sender, sent, MaySend, got, Carries};
ghost use Rattle.glb_inbox.specs.inner.Acts.{MayGet};

use super::acts::{Got, Noted, Sent};
use super::cuts::{Receive, Send, Sending};
use super::plays::{Note, Row};
use super::rule::{Slip, Words};
use glb_laws::{Bag, Program};
use std::marker::Brand;

fn note_as<J: Row<P::Item>, P: Program, B: Bag<P>>(
    words: &Words<P, B, P::Item>,
    seat: &mut Slip<P::Item>,
    act: Noted,
) -> u64
    requires table { (seat.old.table_id ≡ words.now.table_id) × (2 < words.now.table_id.words) }
    requires ready { Reads seat.old.me (λ x. MayNote act x.kept) }
    requires row { J.becomes ≡ (λ (w : List (Member P.Item)) (r : Record P.Item). noted act r) }
    ensures table { (seat.new.table_id ≡ seat.old.table_id) × (seat.new.id ≡ seat.old.id) }
    ensures moved { seat.new.me ≡ (
      on_one (λ x. stepped (noted act x.kept) result x) seat.old.me.0,
      seat.old.me.1,
    ) }
{
    let _ = act;
    words.load::<Note<J>>(seat, 2)
}

/// A load of stop, at which the record moves.
pub fn note<P: Program, B: Bag<P>>(
    words: &Words<P, B, P::Item>,
    seat: &mut Slip<P::Item>,
    act: Noted,
) -> u64
    requires table { (seat.old.table_id ≡ words.now.table_id) × (2 < words.now.table_id.words) }
    requires ready { Reads seat.old.me (λ x. MayNote act x.kept) }
    ensures table { (seat.new.table_id ≡ seat.old.table_id) × (seat.new.id ≡ seat.old.id) }
    ensures moved { seat.new.me ≡ (
      on_one (λ x. stepped (noted act x.kept) result x) seat.old.me.0,
      seat.old.me.1,
    ) }
{
    note_as::<Brand, P, B>(words, seat, act)
}

fn send_as<J: Sending<P::Item>, P: Program, B: Bag<P>>(
    words: &Words<P, B, P::Item>,
    seat: &mut Slip<P::Item>,
    act: Sent,
) -> Slip<P::Item>
    requires table { (seat.old.table_id ≡ words.now.table_id) × (2 < words.now.table_id.words) }
    requires ready { Reads seat.old.me (λ x. MaySend act x.kept) }
    requires row { (J.sender ≡ (λ (rest : List P.Item) (r : Record P.Item). sender act r))
        × (J.sent ≡ sent act) }
    ensures table { (seat.new.table_id ≡ seat.old.table_id) × (seat.new.id ≡ seat.old.id)
        × (result.table_id ≡ seat.old.table_id) }
    ensures moved { seat.new.me ≡ (
      on_one (λ x. parted (sender act x.kept) x) seat.old.me.0,
      seat.old.me.1,
    ) }
    ensures slip { result.me ≡ (sent act, []) }
{
    let _ = act;
    words.split_seat::<Send<J>>(seat)
}

/// The seat for a message.
pub fn send<P: Program, B: Bag<P>>(
    words: &Words<P, B, P::Item>,
    seat: &mut Slip<P::Item>,
    act: Sent,
) -> Slip<P::Item>
    requires table { (seat.old.table_id ≡ words.now.table_id) × (2 < words.now.table_id.words) }
    requires ready { Reads seat.old.me (λ x. MaySend act x.kept) }
    ensures table { (seat.new.table_id ≡ seat.old.table_id) × (seat.new.id ≡ seat.old.id)
        × (result.table_id ≡ seat.old.table_id) }
    ensures moved { seat.new.me ≡ (
      on_one (λ x. parted (sender act x.kept) x) seat.old.me.0,
      seat.old.me.1,
    ) }
    ensures slip { result.me ≡ (sent act, []) }
{
    send_as::<Brand, P, B>(words, seat, act)
}

fn get_as<J: Row<P::Item>, P: Program, B: Bag<P>>(
    words: &Words<P, B, P::Item>,
    seat: &mut Slip<P::Item>,
    slip: Slip<P::Item>,
    act: Got,
)
    requires table { (seat.old.table_id ≡ words.now.table_id) × (slip.table_id ≡ words.now.table_id)
        × (2 < words.now.table_id.words) }
    requires ready { Reads seat.old.me (λ x. MayGet act x.kept) }
    requires slip { (slip.me.1 ≡ []) × Carries act slip.me.0 }
    requires row { J.becomes ≡ got act }
    ensures table { (seat.new.table_id ≡ seat.old.table_id) × (seat.new.id ≡ seat.old.id) }
    ensures moved { seat.new.me ≡ (
      on_one (λ x. joined (got act slip.me.0 x.kept) x) seat.old.me.0,
      seat.old.me.1,
    ) }
{
    let _ = act;
    words.join_seat::<Receive<J>>(seat, slip);
}

/// Takes in the seat of a message.
pub fn get<P: Program, B: Bag<P>>(
    words: &Words<P, B, P::Item>,
    seat: &mut Slip<P::Item>,
    slip: Slip<P::Item>,
    act: Got,
)
    requires table { (seat.old.table_id ≡ words.now.table_id) × (slip.table_id ≡ words.now.table_id)
        × (2 < words.now.table_id.words) }
    requires ready { Reads seat.old.me (λ x. MayGet act x.kept) }
    requires slip { (slip.me.1 ≡ []) × Carries act slip.me.0 }
    ensures table { (seat.new.table_id ≡ seat.old.table_id) × (seat.new.id ≡ seat.old.id) }
    ensures moved { seat.new.me ≡ (
      on_one (λ x. joined (got act slip.me.0 x.kept) x) seat.old.me.0,
      seat.old.me.1,
    ) }
{
    get_as::<Brand, P, B>(words, seat, slip, act);
}
