//! Bags: how the items of a program are kept, taken, split and merged. A bag of one's own is
//! `src/stack_bag.rt` of `glb_uses`.
#![tactic(auto)]

mod ahead;
mod entry;
mod halves;
mod list_bag;
mod range_bag;
mod shy;
#[cfg(test)]
mod tests;

pub use list_bag::ListBag;
pub use range_bag::RangeBag;
pub use shy::{Refuses, Shy, ShyBag};
