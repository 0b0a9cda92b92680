//! What each kind of step tells. Every play is a step that is counted, and that leaves the word
//! which it found (specs/Plays).
use super::view::View;
use atomic_table::Play;
use glb_laws::{Bag, Program};
use std::collections::LinkedList;
use std::marker::{Brand, PhantomData};

/// The edge of a step, for its play. Each call picks it.
pub trait Named {
    ghost use Rattle.glb_rules.specs.declared.local.EdgeName.{EdgeName};

    ghost name: { EdgeName };
}

impl Named for Brand {
    ghost use Rattle.glb_cells.specs.Plays.{no_name};

    ghost name = { no_name };
}

/// The items of a part, for the play that begins a gift.
pub trait Part<I> {
    ghost use Rattle.std.specs.Prelude.{List};

    ghost items: { List I };
}

impl<I> Part<I> for Brand {
    ghost use Rattle.std.specs.Prelude.{[]};

    ghost items = { [] };
}

pub struct Mint;

impl<B, Q, I> Play<Option<B>, LinkedList<View<Q, I>>> for Mint {
    ghost use Rattle.glb_cells.specs.Plays.{Mints};

    ghost then = { Mints };
}

pub struct Burn;

impl<B, Q, I> Play<Option<B>, LinkedList<View<Q, I>>> for Burn {
    ghost use Rattle.glb_cells.specs.Plays.{Burns};

    ghost then = { Burns };
}

pub struct Sleep;

impl<B, Q, I> Play<Option<B>, LinkedList<View<Q, I>>> for Sleep {
    ghost use Rattle.glb_cells.specs.Plays.{Sleeps};

    ghost then = { Sleeps };
}

pub struct Over;

impl<B, Q, I> Play<Option<B>, LinkedList<View<Q, I>>> for Over {
    ghost use Rattle.glb_cells.specs.Plays.{Overs};

    ghost then = { Overs };
}

pub struct Halt;

impl<B, Q, I> Play<Option<B>, LinkedList<View<Q, I>>> for Halt {
    ghost use Rattle.glb_cells.specs.Plays.{Halts};

    ghost then = { Halts };
}

pub struct Stop;

impl<B, Q, I> Play<Option<B>, LinkedList<View<Q, I>>> for Stop {
    ghost use Rattle.glb_cells.specs.Plays.{Stops};

    ghost then = { Stops };
}

pub struct Clear;

impl<B, Q, I> Play<Option<B>, LinkedList<View<Q, I>>> for Clear {
    ghost use Rattle.glb_cells.specs.Plays.{Clears};

    ghost then = { Clears };
}

pub struct Ask<J> {
    marker: PhantomData<J>,
}

impl<B, Q, I, J: Named> Play<Option<B>, LinkedList<View<Q, I>>> for Ask<J> {
    ghost use Rattle.glb_cells.specs.Plays.{Asks};

    ghost then = { Asks J.name };
}

pub struct Deny<J> {
    marker: PhantomData<J>,
}

impl<B, Q, I, J: Named> Play<Option<B>, LinkedList<View<Q, I>>> for Deny<J> {
    ghost use Rattle.glb_cells.specs.Plays.{Denies};

    ghost then = { Denies J.name };
}

pub struct LookIn<J> {
    marker: PhantomData<J>,
}

impl<B, Q, I, J: Named> Play<Option<B>, LinkedList<View<Q, I>>> for LookIn<J> {
    ghost use Rattle.glb_cells.specs.Plays.{Looks};

    ghost then = { Looks J.name };
}

pub struct LookOut<J> {
    marker: PhantomData<J>,
}

impl<B, Q, I, J: Named> Play<Option<B>, LinkedList<View<Q, I>>> for LookOut<J> {
    ghost use Rattle.glb_cells.specs.Plays.{Learns};

    ghost then = { Learns J.name };
}

pub struct GiveUp<J> {
    marker: PhantomData<J>,
}

impl<B, Q, I, J: Named> Play<Option<B>, LinkedList<View<Q, I>>> for GiveUp<J> {
    ghost use Rattle.glb_cells.specs.Plays.{GivesUp};

    ghost then = { GivesUp J.name };
}

pub struct Shrug<J> {
    marker: PhantomData<J>,
}

impl<B, Q, I, J: Named> Play<Option<B>, LinkedList<View<Q, I>>> for Shrug<J> {
    ghost use Rattle.glb_cells.specs.Plays.{Shrugs};

    ghost then = { Shrugs J.name };
}

pub struct Begin<J> {
    marker: PhantomData<J>,
}

impl<B, Q, I, J: Part<I>> Play<Option<B>, LinkedList<View<Q, I>>> for Begin<J> {
    ghost use Rattle.glb_cells.specs.Plays.{Begins};

    ghost then = { Begins J.items };
}

pub struct Hand<P, J> {
    marker: PhantomData<(P, J)>,
}

impl<P: Program, B: Bag<P>, J: Named> Play<Option<B>, LinkedList<View<P, P::Item>>> for Hand<P, J> {
    ghost use Rattle.glb_cells.specs.Plays.{Hands};

    ghost then = { Hands B.items J.name };
}

pub struct Take<P, J> {
    marker: PhantomData<(P, J)>,
}

impl<P: Program, B: Bag<P>, J: Named> Play<Option<B>, LinkedList<View<P, P::Item>>> for Take<P, J> {
    ghost use Rattle.glb_cells.specs.Plays.{Takes};

    ghost then = { Takes B.items B.fits J.name };
}

pub struct Settle<P, L, G> {
    marker: PhantomData<(P, L, G)>,
}

impl<B, P: Program, L: Part<P::Item>, G: Part<P::Value>> Play<
    Option<B>,
    LinkedList<View<P, P::Item>>,
> for Settle<P, L, G> {
    ghost use Rattle.glb_cells.specs.Plays.{Settles};

    ghost then = { Settles P.children P.value P.Value.combine P.Value.unit L.items G.items };
}
