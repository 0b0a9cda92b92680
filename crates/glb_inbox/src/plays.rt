//! What one step on a word tells of the place that steps.
use super::view::Member;
use atomic_table::Play;
use std::collections::LinkedList;
use std::marker::{Brand, PhantomData};

pub struct Mint;

impl<I> Play<u8, LinkedList<Member<I>>> for Mint {
    ghost use Rattle.glb_inbox.specs.inner.Plays.{Mints};

    ghost then = { Mints };
}

pub struct Burn;

impl<I> Play<u8, LinkedList<Member<I>>> for Burn {
    ghost use Rattle.glb_inbox.specs.inner.Plays.{Burns};

    ghost then = { Burns };
}

pub struct Sleep;

impl<I> Play<u8, LinkedList<Member<I>>> for Sleep {
    ghost use Rattle.glb_inbox.specs.inner.Plays.{Sleeps};

    ghost then = { Sleeps };
}

pub struct Over;

impl<I> Play<u8, LinkedList<Member<I>>> for Over {
    ghost use Rattle.glb_inbox.specs.inner.Plays.{Ends};

    ghost then = { Ends };
}

pub struct Halt;

impl<I> Play<u8, LinkedList<Member<I>>> for Halt {
    ghost use Rattle.glb_inbox.specs.inner.Plays.{Halts};

    ghost then = { Halts };
}

pub struct Stop;

impl<I> Play<u8, LinkedList<Member<I>>> for Stop {
    ghost use Rattle.glb_inbox.specs.inner.Plays.{Stops};

    ghost then = { Stops };
}

/// Which items a batch may have taken, and which it left. Each call picks them.
pub trait Batch<I> {
    ghost use Rattle.std.specs.Prelude.{List};

    ghost takes: { List I → List I → Type 0 };

    ghost leaves: { List I };
}

impl<I> Batch<I> for Brand {
    ghost use Rattle.std.specs.Prelude.{[]};

    ghost takes = { λ bag taken. Unit {0} };

    ghost leaves = { [] };
}

pub struct Settle<J> {
    marker: PhantomData<J>,
}

impl<I, J: Batch<I>> Play<u8, LinkedList<Member<I>>> for Settle<J> {
    ghost use Rattle.glb_inbox.specs.inner.Plays.{Settling};

    ghost then = { Settling J.takes J.leaves };
}

/// What becomes of a record. Each call picks it.
pub trait Row<I> {
    ghost use Rattle.std.specs.Prelude.{List};
    ghost use Rattle.glb_inbox.specs.declared.view.Member.{Member};
    ghost use Rattle.glb_place.specs.declared.record.Record.{Record};

    ghost becomes: { List (Member I) → Record I → Record I };
}

impl<I> Row<I> for Brand {
    ghost becomes = { λ w r. r };
}

/// A step that moves the record alone.
pub struct Note<J> {
    marker: PhantomData<J>,
}

impl<I, J: Row<I>> Play<u8, LinkedList<Member<I>>> for Note<J> {
    ghost use Rattle.std.specs.Prelude.{[]};
    ghost use Rattle.glb_inbox.specs.inner.Plays.{Notes};

    ghost then = { Notes (J.becomes []) };
}

/// A part that is split off next. Each call picks it.
pub trait Portion<I> {
    ghost use Rattle.std.specs.Prelude.{List};

    ghost part: { List I };
}

impl<I> Portion<I> for Brand {
    ghost use Rattle.std.specs.Prelude.{[]};

    ghost part = { [] };
}

/// A step at which it becomes known what the bag keeps.
pub struct Spare<J> {
    marker: PhantomData<J>,
}

impl<I, J: Portion<I>> Play<u8, LinkedList<Member<I>>> for Spare<J> {
    ghost use Rattle.glb_inbox.specs.inner.Plays.{Sparing};

    ghost then = { Sparing J.part };
}

/// What is fixed in the run. Each call picks it.
pub trait Knows<I> {
    ghost use Rattle.glb_inbox.specs.inner.Rule.{Job};

    ghost job: { Job I };
}

impl<I> Knows<I> for Brand {
    ghost use Rattle.glb_inbox.specs.inner.Plays.{no_job};

    ghost job = { no_job };
}

pub struct ReadLive<J> {
    marker: PhantomData<J>,
}

impl<I, J: Knows<I>> Play<u8, LinkedList<Member<I>>> for ReadLive<J> {
    ghost use Rattle.glb_inbox.specs.inner.Plays.{ReadsLive};

    ghost then = { ReadsLive J.job };
}

pub struct ReadItems<J> {
    marker: PhantomData<J>,
}

impl<I, J: Knows<I>> Play<u8, LinkedList<Member<I>>> for ReadItems<J> {
    ghost use Rattle.glb_inbox.specs.inner.Plays.{ReadsItems};

    ghost then = { ReadsItems J.job };
}

pub struct ReadStop<J> {
    marker: PhantomData<J>,
}

impl<I, J: Knows<I>> Play<u8, LinkedList<Member<I>>> for ReadStop<J> {
    ghost use Rattle.glb_inbox.specs.inner.Plays.{ReadsStop};

    ghost then = { ReadsStop J.job };
}
