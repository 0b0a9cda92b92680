//! What one step on a word tells of the seat that steps, and how seats are dealt and gathered.
use super::view::View;
use atomic_table::{Join, Play, Split};

pub struct Read;

impl Play<u8, View> for Read {
    ghost use Rattle.glb_bound.specs.inner.Views.{Reads};

    ghost then = { Reads };
}

pub struct Raise;

impl Play<u8, View> for Raise {
    ghost use Rattle.glb_bound.specs.inner.Views.{Raises};

    ghost then = { Raises };
}

pub struct Claim;

impl Play<u8, View> for Claim {
    ghost use Rattle.glb_bound.specs.inner.Views.{Claims};

    ghost then = { Claims };
}

pub struct Count;

impl Play<u8, View> for Count {
    ghost use Rattle.glb_bound.specs.inner.Views.{Counts};

    ghost then = { Counts };
}

pub struct Halt;

impl Play<u8, View> for Halt {
    ghost use Rattle.glb_bound.specs.inner.Views.{Halts};

    ghost then = { Halts };
}

pub struct Look;

impl Play<u8, View> for Look {
    ghost use Rattle.glb_bound.specs.inner.Views.{Looks};

    ghost then = { Looks };
}

/// The seat that is split off stands for one place.
pub struct Deal;

impl Split<View> for Deal {
    ghost use Rattle.glb_bound.specs.inner.Views.{one_less, fresh};

    ghost left = { one_less };

    ghost right = { λ v. fresh 1 v.frontier };
}

/// Two views become one.
pub struct Gather;

impl Join<View> for Gather {
    ghost use Rattle.glb_bound.specs.inner.Views.{joined, fresh};

    ghost both = { joined };

    ghost spent = { fresh 0 0 };
}
