//! Sending: a message's seat is split off and the message pushed. Where there is no memory for it
//! the seat is joined again, and the record is the one before.
ghost use Rattle.std.specs.Prelude.{◌≡◌, ◌<◌, length, IfErr, OnOk, OnErr, Some};
ghost use Rattle.glb_rules.specs.declared.event.Event.TheVariants as event;
ghost use Rattle.glb_rules.specs.declared.kinds.Kind.TheVariants as kinds;
ghost use Rattle.glb_place.specs.Records.{May};
ghost use Rattle.glb_place.specs.Rows.{ask_row, deny_row, give_row};
ghost use Rattle.glb_place.specs.Calls.{Gives, HasMore};
ghost use Rattle.glb_inbox.specs.inner.Posted.{tie};
ghost use Rattle.glb_inbox.specs.inner.Views.{MovesBy, Stands, Reads};
ghost use Rattle.glb_inbox.specs.inner.Acts.{MayOffer};

use super::acts::{Noted, Sent};
use super::message::Message;
use super::rule::{Slip, Words};
use super::way::Way;
use super::{gifts, seats};
use glb_core::Kind;
use glb_laws::{Bag, NoMemory, Program};
use std::sync::Wait;

/// Asks a victim.
pub fn post_request<P: Program, B: Bag<P>, R: Wait>(
    rt: &R,
    words: &Words<P, B, P::Item>,
    seat: &mut Slip<P::Item>,
    way: &mut Way<P, B>,
    place: u32,
    victim: u32,
    kind: Kind,
) -> Result<(), NoMemory>
    requires table { (seat.old.table_id ≡ words.now.table_id) × (2 < words.now.table_id.words) }
    requires ready { Reads seat.old.me (λ x. May x.kept (event.Ask x.kept.place victim kind)) }
    requires tied { way.old ≡ Some (tie words.now.key.program.value words.now.table_id) }
    ensures table { seat.new.table_id ≡ seat.old.table_id }
    ensures way { way.new ≡ way.old }
    ensures sent { OnOk result (MovesBy (ask_row victim kind) seat.old.me seat.new.me) }
    ensures refused { OnErr result (Stands seat.old.me seat.new.me) }
{
    let act = Sent::Ask { victim, kind };
    let slip = seats::send(words, seat, act);
    let message = Message::Ask {
        thief: place,
        kind,
        seat: slip,
    };
    match way.send(rt, message) {
        Ok(()) => Ok(()),
        Err(
            Message::Ask {
                thief: _,
                kind: _,
                seat: slip,
            },
        ) => {
            gifts::take_back(words, seat, slip, act);
            Err(NoMemory)
        }
        Err(_) => unreachable!(),
    }
}

/// Refuses a thief that had drawn this place at random.
pub fn post_refusal<P: Program, B: Bag<P>, R: Wait>(
    rt: &R,
    words: &Words<P, B, P::Item>,
    seat: &mut Slip<P::Item>,
    way: &mut Way<P, B>,
    place: u32,
    thief: u32,
) -> Result<(), NoMemory>
    requires table { (seat.old.table_id ≡ words.now.table_id) × (2 < words.now.table_id.words) }
    requires ready { Reads seat.old.me
        (λ x. May x.kept (event.Deny x.kept.place thief kinds.Steal)) }
    requires tied { way.old ≡ Some (tie words.now.key.program.value words.now.table_id) }
    ensures table { seat.new.table_id ≡ seat.old.table_id }
    ensures way { way.new ≡ way.old }
    ensures sent { OnOk result (MovesBy (deny_row thief kinds.Steal) seat.old.me seat.new.me) }
    ensures refused { OnErr result (Stands seat.old.me seat.new.me) }
{
    let act = Sent::Refuse { thief };
    let slip = seats::send(words, seat, act);
    let message = Message::Refuse {
        victim: place,
        seat: slip,
    };
    match way.send(rt, message) {
        Ok(()) => Ok(()),
        Err(
            Message::Refuse {
                victim: _,
                seat: slip,
            },
        ) => {
            gifts::take_back(words, seat, slip, act);
            Err(NoMemory)
        }
        Err(_) => unreachable!(),
    }
}

/// Tells a thief that its request over a lifeline is remembered. The message carries no seat.
pub fn post_line_refusal<P: Program, B: Bag<P>, R: Wait>(
    rt: &R,
    words: &Words<P, B, P::Item>,
    seat: &mut Slip<P::Item>,
    way: &mut Way<P, B>,
    place: u32,
    thief: u32,
) -> Result<(), NoMemory>
    requires table { (seat.old.table_id ≡ words.now.table_id) × (2 < words.now.table_id.words) }
    requires ready { Reads seat.old.me
        (λ x. May x.kept (event.Deny x.kept.place thief kinds.Line)) }
    requires tied { way.old ≡ Some (tie words.now.key.program.value words.now.table_id) }
    ensures table { seat.new.table_id ≡ seat.old.table_id }
    ensures way { way.new ≡ way.old }
    ensures sent { OnOk result (MovesBy (deny_row thief kinds.Line) seat.old.me seat.new.me) }
    ensures refused { OnErr result (Stands seat.old.me seat.new.me) }
{
    match way.send(rt, Message::RefuseLine { victim: place }) {
        Ok(()) => {
            seats::note(words, seat, Noted::DenyLine { thief });
            Ok(())
        }
        Err(_) => Err(NoMemory),
    }
}

/// Refuses a thief.
pub fn post_denial<P: Program, B: Bag<P>, R: Wait>(
    rt: &R,
    words: &Words<P, B, P::Item>,
    seat: &mut Slip<P::Item>,
    way: &mut Way<P, B>,
    place: u32,
    thief: u32,
    kind: Kind,
) -> Result<(), NoMemory>
    requires table { (seat.old.table_id ≡ words.now.table_id) × (2 < words.now.table_id.words) }
    requires ready { Reads seat.old.me (λ x. May x.kept (event.Deny x.kept.place thief kind)) }
    requires tied { way.old ≡ Some (tie words.now.key.program.value words.now.table_id) }
    ensures table { seat.new.table_id ≡ seat.old.table_id }
    ensures way { way.new ≡ way.old }
    ensures sent { OnOk result (MovesBy (deny_row thief kind) seat.old.me seat.new.me) }
    ensures refused { OnErr result (Stands seat.old.me seat.new.me) }
{
    match kind {
        Kind::Steal => post_refusal(rt, words, seat, way, place, thief),
        Kind::Line => post_line_refusal(rt, words, seat, way, place, thief),
    }
}

/// Hands a part over, or back where there is no memory.
pub fn post_part<P: Program, B: Bag<P>, R: Wait>(
    rt: &R,
    words: &Words<P, B, P::Item>,
    seat: &mut Slip<P::Item>,
    way: &mut Way<P, B>,
    place: u32,
    thief: u32,
    kind: Kind,
    part: B,
) -> Result<(), (NoMemory, B)>
    requires table { (seat.old.table_id ≡ words.now.table_id) × (2 < words.now.table_id.words) }
    requires ready { Reads seat.old.me (λ x. MayOffer thief kind (B.items part) x.kept) }
    requires fits { B.fits part words.now.key.program.value }
    requires tied { way.old ≡ Some (tie words.now.key.program.value words.now.table_id) }
    ensures table { seat.new.table_id ≡ seat.old.table_id }
    ensures way { way.new ≡ way.old }
    ensures sent { OnOk result (Reads seat.old.me (λ x. Reads seat.new.me
        (λ y. Gives (give_row thief kind) (B.items part) x.kept y.kept))) }
    ensures refused { OnErr result (Stands seat.old.me seat.new.me) }
    ensures back { IfErr result (λ e. e.1 ≡ part) }
{
    gifts::spare::<P, B>(words, seat, &part);
    let slip = gifts::give(words, seat, thief, kind, &part);
    let message = Message::Part {
        victim: place,
        kind,
        part,
        seat: slip,
    };
    match way.send(rt, message) {
        Ok(()) => Ok(()),
        Err(
            Message::Part {
                victim: _,
                kind: _,
                part,
                seat: slip,
            },
        ) => {
            gifts::keep(words, seat, slip, thief, kind, &part);
            Err((NoMemory, part))
        }
        Err(_) => unreachable!(),
    }
}
