//! The shared object.
ghost use Rattle.std.specs.Prelude.{◌≡◌, ◌+◌, ◌<◌, ◌^◌, true, false};
ghost use mathlib.Core.Option.{some};
ghost use lib.ListN.{get_elem?};
ghost use Rattle.glb_rules.specs.World.{has_edge};
ghost use Rattle.glb_rules.specs.Events.{name_of};
ghost use Rattle.glb_core.specs.Lifelines.{setup_of};
ghost use Rattle.glb_cells.specs.EdgeNames.{names};

use super::key::Start;
use super::rule::Rule;
use super::view::View;
use atomic_table::Table;
use glb_core::Kind;
use glb_laws::{Bag, Program};
use std::alloc::Global;
use std::collections::LinkedList;
use std::marker::Model;

pub type CellTable<P, B, I> = Table<
    Option<B>,
    LinkedList<View<P, I>>,
    Start<P, B>,
    Rule<P, B>,
    Global,
>;

/// The words and slots, and for each line its number, at thief * places + victim.
#[derive(Drop)]
pub struct Cells<P: Program, B: Bag<P>> {
    pub(crate) table: CellTable<P, B, P::Item>,
    pub(crate) places: u32,
    pub(crate) tries: u32,
    pub(crate) line_numbers: Vec<u32>,
}

impl<P: Program, B: Bag<P>> Model for Cells<P, B> {
    ghost use Rattle.glb_cells.specs.Berths.{CellsView};

    ghost Value = { CellsView P P.Item };

    ghost use Rattle.glb_cells.specs.inner.Keeping.{AreNumbered, cells_view};

    ghost view = { λ c. cells_view B.items c.table.shared.table_id c.table.shared.key };

    ghost invariant = { λ c. AreNumbered c.table.shared.table_id c.table.shared.key c.places c.tries
        c.line_numbers.items };
}

impl<P: Program, B: Bag<P>> Cells<P, B> {
    /// The number of an edge. Its word is 3 words further on, after live, items and stop.
    pub(crate) fn number(&self, thief: u32, victim: u32, kind: Kind) -> usize
        requires thief { thief < self.now.lines.places }
        requires victim { victim < self.now.lines.places }
        requires there { has_edge (setup_of self.now.lines self.now.params (λ p. false)) kind thief
            victim ≡ true }
        ensures name { get_elem? (names (setup_of self.now.lines self.now.params (λ p. false)))
            result ≡ some (name_of kind thief victim) }
        ensures small { (result + 3 < self.now.object.words) × (result < 2 ^ 32) }
    {
        let row = thief * self.places;
        match kind {
            Kind::Steal => {
                let number = row + victim - thief;
                if thief < victim {
                    number as usize - 1
                } else {
                    number as usize
                }
            }
            Kind::Line => {
                let number = self.line_numbers[(row + victim) as usize];
                number as usize
            }
        }
    }
}
