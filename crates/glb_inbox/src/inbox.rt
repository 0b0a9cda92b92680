//! Sending to an inbox, and receiving from it.
ghost use Rattle.std.specs.Prelude.{◌≡◌, Some, None, IfErr, IfSome};
ghost use Rattle.crossbeam_queue.specs.SegTies.{IsSegPassOf};
ghost use Rattle.glb_inbox.specs.inner.Posted.{IsGood, tie};

use super::inbox_rule::{EachMessage, Inbox, InboxPass, Naming, Room, Same};
use super::message::Message;
use super::rule::Slip;
use glb_laws::{Bag, Program};
use std::marker::Brand;
use std::sync::Wait;

fn named<J: Room<P>, P: Program, B: Bag<P>>(
    inbox: &Inbox<P, B, P::Item>,
    pass: &mut InboxPass<P, B, P::Item>,
    program: &P,
    seat: &Slip<P::Item>,
)
    requires pass { IsSegPassOf inbox.now pass.old × (pass.old.me.view.client ≡ None) }
    requires tie { J.tie ≡ Some (tie program.now seat.now.table_id) }
    ensures { IsSegPassOf inbox.now pass.new
        × (pass.new.me.view.client ≡ Some (tie program.now seat.now.table_id)) }
{
    let _ = program;
    let _ = seat;
    inbox.another::<Naming<J>>(pass);
}

/// The inbox is for messages with seats of this one's table and parts that fit the program.
pub fn name<P: Program, B: Bag<P>>(
    inbox: &Inbox<P, B, P::Item>,
    pass: &mut InboxPass<P, B, P::Item>,
    program: &P,
    seat: &Slip<P::Item>,
)
    requires { IsSegPassOf inbox.now pass.old × (pass.old.me.view.client ≡ None) }
    ensures { IsSegPassOf inbox.now pass.new
        × (pass.new.me.view.client ≡ Some (tie program.now seat.now.table_id)) }
{
    named::<Brand, P, B>(inbox, pass, program, seat);
}

/// One more pass, for another place.
pub fn copy<P: Program, B: Bag<P>>(
    inbox: &Inbox<P, B, P::Item>,
    pass: &mut InboxPass<P, B, P::Item>,
) -> InboxPass<P, B, P::Item>
    requires { IsSegPassOf inbox.now pass.old × ((t : _) × (pass.old.me.view.client ≡ Some t)) }
    ensures { IsSegPassOf inbox.now pass.new × IsSegPassOf inbox.now result
        × (pass.new.me.view.client ≡ pass.old.me.view.client)
        × (result.me.view.client ≡ pass.old.me.view.client) }
{
    inbox.another::<Same>(pass)
}

pub fn send<P: Program, B: Bag<P>, R: Wait>(
    rt: &R,
    inbox: &Inbox<P, B, P::Item>,
    pass: &mut InboxPass<P, B, P::Item>,
    message: Message<B, P::Item>,
) -> Result<(), Message<B, P::Item>>
    requires pass { IsSegPassOf inbox.now pass.old }
    requires good { IsGood B.items B.fits pass.old.me.view.client message }
    ensures pass { IsSegPassOf inbox.now pass.new
        × (pass.new.me.view.client ≡ pass.old.me.view.client) }
    ensures back { IfErr result (λ x. x ≡ message) }
{
    inbox.push_as::<EachMessage<P>, R>(rt, pass, message)
}

pub fn receive<P: Program, B: Bag<P>, R: Wait>(
    rt: &R,
    inbox: &Inbox<P, B, P::Item>,
    pass: &mut InboxPass<P, B, P::Item>,
) -> Option<Message<B, P::Item>>
    requires { IsSegPassOf inbox.now pass.old × ((t : _) × (pass.old.me.view.client ≡ Some t)) }
    ensures pass { IsSegPassOf inbox.now pass.new
        × (pass.new.me.view.client ≡ pass.old.me.view.client) }
    ensures good { IfSome result (IsGood B.items B.fits pass.old.me.view.client) }
{
    inbox.pop_as::<EachMessage<P>, R>(rt, pass)
}
