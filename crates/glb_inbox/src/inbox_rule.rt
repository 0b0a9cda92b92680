//! The rule of an inbox: each message in it speaks for itself.
use super::message::{Message, Tie};
use crossbeam_queue::protocol::{Lesson, Outcome, Protocol, Split};
use crossbeam_queue::{RuledSegQueue, SegPass};
use glb_laws::{Bag, Program};
use std::marker::{Brand, PhantomData};

pub struct EachMessage<P> {
    marker: PhantomData<P>,
}

impl<P: Program, B: Bag<P>> Protocol<Message<B, P::Item>, Option<Tie<P>>> for EachMessage<P> {
    ghost use Rattle.std.specs.Prelude.{None};
    ghost use Rattle.glb_inbox.specs.inner.Posted.{Posted};

    ghost holds = { Posted B.items B.fits };

    ghost first = { None };
}

impl<P: Program, B: Bag<P>> Outcome<Message<B, P::Item>, Option<Tie<P>>> for EachMessage<P> {
    ghost use Rattle.std.specs.Prelude.{◌≡◌};
    ghost use Rattle.glb_inbox.specs.inner.Posted.{IsGood};

    ghost then = { λ v x w. (w ≡ v) × IsGood B.items B.fits v x };
}

impl<P: Program, B: Bag<P>> Lesson<Message<B, P::Item>, Option<Tie<P>>> for EachMessage<P> {
    ghost fact = { λ v items. Unit {0} };
}

/// A tie, for the pass of a new inbox. Each call picks it.
pub trait Room<P> {
    ghost use Rattle.std.specs.Prelude.{Option};
    ghost use Rattle.glb_inbox.specs.declared.message.Tie.{Tie};

    ghost tie: { Option (Tie P) };
}

impl<P> Room<P> for Brand {
    ghost use Rattle.std.specs.Prelude.{None};

    ghost tie = { None };
}

pub struct Naming<J> {
    marker: PhantomData<J>,
}

impl<P, J: Room<P>> Split<Option<Tie<P>>> for Naming<J> {
    ghost left = { λ _. J.tie };

    ghost right = { λ _. J.tie };
}

pub struct Same;

impl<P> Split<Option<Tie<P>>> for Same {
    ghost left = { λ v. v };

    ghost right = { λ v. v };
}

pub type Inbox<P, B, I> = RuledSegQueue<Message<B, I>, Option<Tie<P>>, EachMessage<P>>;

pub type InboxPass<P, B, I> = SegPass<Message<B, I>, Option<Tie<P>>>;
