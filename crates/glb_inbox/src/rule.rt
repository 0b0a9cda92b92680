//! The table of three words: the number live, the total of items, and the stop code. Its rule
//! speaks of the views of all seats together.
use super::view::Member;
use atomic_table::{Seat, Shared, Table, TableRule};
use glb_core::Params;
use glb_cube::Lines;
use glb_laws::{Bag, Program};
use std::alloc::Global;
use std::collections::LinkedList;
use std::marker::PhantomData;
use std::snapshot::Snapshot;

/// What the table is told once.
#[derive(Drop)]
pub struct Start<P, B> {
    pub program: Snapshot<P>,
    pub lines: Snapshot<Lines>,
    pub params: Params,
    pub bags: Vec<Snapshot<B>>,
}

pub struct Rule<P, B> {
    marker: PhantomData<(P, B)>,
}

impl<P: Program, B: Bag<P>> TableRule<u8, LinkedList<Member<P::Item>>, Start<P, B>> for Rule<P, B> {
    ghost use Rattle.glb_inbox.specs.inner.Begins.{job_of, first_members};
    ghost use Rattle.glb_inbox.specs.inner.Rule.{Holds};

    ghost holds = { λ key s. Holds (job_of P.children B.items key) s };

    ghost first = { λ key. first_members P.children B.items key };
}

pub type Slip<I> = Seat<u8, LinkedList<Member<I>>>;

pub type Words<P, B, I> = Shared<u8, LinkedList<Member<I>>, Start<P, B>, Rule<P, B>>;

pub type WordTable<P, B, I> = Table<u8, LinkedList<Member<I>>, Start<P, B>, Rule<P, B>, Global>;
