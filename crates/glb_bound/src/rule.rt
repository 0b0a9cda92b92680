//! The table of four words: the greatest value found, the next number of the frontier, the number
//! of items visited, and the stop code. Its rule speaks of the views of all seats together.
use super::view::View;
use atomic_table::{Seat, Shared, Table, TableRule};
use std::alloc::Global;

/// What the table is told once: the places, the items of the frontier, the greatest value and the
/// number of items visited before, and the limit.
#[derive(Clone, Copy, Drop)]
pub struct Start {
    pub places: u64,
    pub frontier: u64,
    pub best: u64,
    pub items: u64,
    pub limit: u64,
}

pub struct Rule;

impl TableRule<u8, View, Start> for Rule {
    ghost use Rattle.glb_bound.specs.inner.Rule.{Holds};
    ghost use Rattle.glb_bound.specs.inner.Views.{fresh};

    ghost holds = { Holds };

    ghost first = { λ key. fresh key.places key.frontier };
}

pub type Slip = Seat<u8, View>;

pub type Words = Shared<u8, View, Start, Rule>;

pub type WordTable = Table<u8, View, Start, Rule, Global>;
