//! The rule of the table, and how seats are split and joined.
use super::key::Start;
use super::view::View;
use atomic_table::{Join, Seat, Shared, Split, TableRule};
use glb_laws::{Bag, Program};
use std::collections::LinkedList;
use std::marker::PhantomData;

pub struct Rule<P, B> {
    marker: PhantomData<(P, B)>,
}

impl<P: Program, B: Bag<P>> TableRule<Option<B>, LinkedList<View<P, P::Item>>, Start<P, B>>
    for Rule<P, B> {
    ghost use Rattle.glb_cells.specs.Starts.{setup_from, first_views};
    ghost use Rattle.glb_cells.specs.Shows.{Shows};

    ghost holds = { λ key s. Shows (setup_from B.items B.fits P.children key) s };

    ghost first = { λ key. first_views (setup_from B.items B.fits P.children key) };
}

pub type PlaceSeat<P, B, I> = Seat<Option<B>, LinkedList<View<P, I>>>;

pub type Steps<P, B, I> = Shared<Option<B>, LinkedList<View<P, I>>, Start<P, B>, Rule<P, B>>;

/// The first record goes to a seat of its own.
pub struct First;

impl<Q, I> Split<LinkedList<View<Q, I>>> for First {
    ghost use Rattle.glb_cells.specs.Plays.{first_of, rest_of};

    ghost left = { rest_of };

    ghost right = { first_of };
}

/// All records of two seats.
pub struct Together;

impl<Q, I> Join<LinkedList<View<Q, I>>> for Together {
    ghost use Rattle.std.specs.Prelude.{◌++◌, []};

    ghost both = { λ v w. v ++ w };

    ghost spent = { [] };
}
