//! What a user of the library brings: a commutative way to combine results, a tree of items, and
//! bags of items that can be processed, split and merged.
//!
//! To have a tree of your own searched, implement [`Program`] for the type that describes it: say
//! in `children` and `value` what stands below an item and what the item counts for, write
//! `expand`, which appends exactly these children to `out` (or, where there is no memory, leaves
//! `out` as it was), and prove its three clauses and `value_proper`. The values are a [`Monoid`]:
//! take [`SatSum`], [`Greatest`], [`Both`] or [`Tallies`], whose laws are proved here, or a type
//! of your own with its `monoid_laws`. The bag can be that of `glb_bags`; a [`Bag`] of your own
//! says in `items` what it holds and in `fits` for which programs, and proves the clauses of its
//! methods, which leave it free in which order it keeps and takes items. `run_one` of `glb_tree`
//! and the drivers above it then run the tree, for every such program and bag. Examples stand in
//! `glb_uses`: `src/subset_sums.rt` is a program, `src/greatest_first.rt` a monoid.
#![tactic(auto)]

mod bag;
mod both;
mod greatest;
mod limits;
mod memory;
mod monoid;
mod program;
mod ranged;
mod sat_sum;
mod tallies;

pub use bag::{Bag, Stopped};
pub use both::Both;
pub use greatest::Greatest;
pub use limits::{MOST_BATCH, MOST_ITEMS};
pub use memory::NoMemory;
pub use monoid::Monoid;
pub use program::Program;
pub use ranged::Ranged;
pub use sat_sum::SatSum;
pub use tallies::Tallies;
