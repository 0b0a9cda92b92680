//! How a message's seat is split off a place's, and joined, and how the seats of all places are
//! made and gathered.
use super::plays::Row;
use super::view::Member;
use atomic_table::{Join, Split};
use std::collections::LinkedList;
use std::marker::{Brand, PhantomData};

/// What becomes of a place and what its message counts for. Each call picks them.
pub trait Sending<I> {
    ghost use Rattle.std.specs.Prelude.{List};
    ghost use Rattle.glb_place.specs.declared.record.Record.{Record};
    ghost use Rattle.glb_inbox.specs.declared.view.Member.{Member};

    ghost sender: { List I → Record I → Record I };

    ghost sent: { List (Member I) };
}

impl<I> Sending<I> for Brand {
    ghost use Rattle.std.specs.Prelude.{[]};

    ghost sender = { λ rest r. r };

    ghost sent = { [] };
}

pub struct Send<J> {
    marker: PhantomData<J>,
}

impl<I, J: Sending<I>> Split<LinkedList<Member<I>>> for Send<J> {
    ghost use Rattle.glb_inbox.specs.inner.Views.{on_one, parted};

    ghost left = { on_one (λ x. parted (J.sender x.rest x.kept) x) };

    ghost right = { λ _. J.sent };
}

pub struct Receive<J> {
    marker: PhantomData<J>,
}

impl<I, J: Row<I>> Join<LinkedList<Member<I>>> for Receive<J> {
    ghost use Rattle.std.specs.Prelude.{[]};
    ghost use Rattle.glb_inbox.specs.inner.Views.{on_one, joined};

    ghost both = { λ v w. on_one (λ x. joined (J.becomes w x.kept) x) v };

    ghost spent = { [] };
}

/// The seat that is split off has the first member of a view.
pub struct Deal;

impl<I> Split<LinkedList<Member<I>>> for Deal {
    ghost use Rattle.glb_inbox.specs.inner.Views.{first_of, rest_of};

    ghost left = { rest_of };

    ghost right = { first_of };
}

/// The record is the one before the message was split off.
pub struct Undo;

impl<I> Join<LinkedList<Member<I>>> for Undo {
    ghost use Rattle.std.specs.Prelude.{[]};
    ghost use Rattle.glb_inbox.specs.inner.Views.{on_one, undone};

    ghost both = { λ v w. on_one undone v };

    ghost spent = { [] };
}

/// Two views become one.
pub struct Gather;

impl<I> Join<LinkedList<Member<I>>> for Gather {
    ghost use Rattle.std.specs.Prelude.{◌++◌, []};

    ghost both = { λ v w. v ++ w };

    ghost spent = { [] };
}
