//! A way to an inbox, which its place and all others share.
ghost use Rattle.std.specs.Prelude.{◌≡◌, IfErr, IfOk, IfSome, Some, None};
ghost use Rattle.std.specs.Arc.{arc_value};
ghost use Rattle.glb_inbox.specs.inner.Posted.{IsGood, tie};

use super::inbox;
use super::inbox_rule::{Inbox, InboxPass};
use super::message::Message;
use super::rule::Slip;
use glb_laws::{Bag, NoMemory, Program};
use std::alloc::Global;
use std::marker::Model;
use std::sync::{Arc, Wait};

/// An inbox, whose blocks are freed with it.
pub struct Mailbox<P: Program, B: Bag<P>> {
    queue: Inbox<P, B, P::Item>,
}

impl<P: Program, B: Bag<P>> Drop for Mailbox<P, B> {
    fn drop(self) {
        let Self { queue } = self;
        queue.destroy();
    }
}

fn shared<P: Program, B: Bag<P>>(
    alloc: Global,
    queue: Inbox<P, B, P::Item>,
) -> Result<Arc<Mailbox<P, B>>, NoMemory>
    ensures { IfOk result (λ a. (arc_value a).queue ≡ queue) }
{
    match Arc::new(alloc, Mailbox { queue }) {
        Ok(inbox) => Ok(inbox),
        Err(_refused) => Err(NoMemory),
    }
}

/// Messages through it carry seats of one table and parts that fit one program.
#[derive(Drop)]
pub struct Way<P: Program, B: Bag<P>> {
    inbox: Arc<Mailbox<P, B>>,
    pass: InboxPass<P, B, P::Item>,
}

impl<P: Program, B: Bag<P>> Model for Way<P, B> {
    ghost use Rattle.std.specs.Prelude.{◌≡◌, Option, Some};
    ghost use Rattle.std.specs.Arc.{arc_value};
    ghost use Rattle.crossbeam_queue.specs.SegTies.{IsSegPassOf};
    ghost use Rattle.glb_inbox.specs.declared.message.Tie.{Tie};

    ghost Value = { Option (Tie P) };

    ghost view = { λ l. l.pass.me.view.client };

    ghost invariant = { λ l. IsSegPassOf (arc_value l.inbox).queue l.pass };
}

impl<P: Program, B: Bag<P>> Way<P, B> {
    /// A way to a new inbox.
    pub fn new(alloc: Global) -> Result<Way<P, B>, NoMemory>
        ensures { IfOk result (λ w. w ≡ None) }
    {
        let (queue, pass) = Inbox::<P, B, P::Item>::with_rule(alloc)?;
        let inbox = shared::<P, B>(alloc, queue)?;
        Ok(Way { inbox, pass })
    }

    /// The inbox is for messages with seats of this one's table and parts that fit the program.
    pub fn tie_to(&mut self, program: &P, seat: &Slip<P::Item>)
        requires { self.old ≡ None }
        ensures { self.new ≡ Some (tie program.now seat.now.table_id) }
    {
        let mailbox: &Mailbox<P, B> = &self.inbox;
        inbox::name::<P, B>(&mailbox.queue, &mut self.pass, program, seat);
    }

    /// Another way to the same inbox.
    pub fn another(&mut self) -> Result<Way<P, B>, NoMemory>
        requires tied { (t : _) × (self.old ≡ Some t) }
        ensures same { self.new ≡ self.old }
        ensures copy { IfOk result (λ w. w ≡ self.old) }
    {
        let inbox = Arc::try_clone(&self.inbox)?;
        let mailbox: &Mailbox<P, B> = &self.inbox;
        let pass = inbox::copy::<P, B>(&mailbox.queue, &mut self.pass);
        Ok(Way { inbox, pass })
    }

    /// Hands the message back where there is no memory.
    pub fn send(
        &mut self,
        rt: &impl Wait,
        message: Message<B, P::Item>,
    ) -> Result<(), Message<B, P::Item>>
        requires good { IsGood B.items B.fits self.old message }
        ensures same { self.new ≡ self.old }
        ensures back { IfErr result (λ x. x ≡ message) }
    {
        inbox::send(rt, &self.inbox.queue, &mut self.pass, message)
    }

    /// The next message, if there is one.
    pub fn receive(&mut self, rt: &impl Wait) -> Option<Message<B, P::Item>>
        requires tied { (t : _) × (self.old ≡ Some t) }
        ensures same { self.new ≡ self.old }
        ensures good { IfSome result (IsGood B.items B.fits self.old) }
    {
        let mailbox: &Mailbox<P, B> = &self.inbox;
        inbox::receive(rt, &mailbox.queue, &mut self.pass)
    }
}
