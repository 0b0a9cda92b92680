//! Branch and bound: the greatest value of a tree, where what cannot be greater is left out.
#![tactic(auto)]

mod frontier;
mod many;
mod one;
mod place;
mod plays;
mod rule;
mod search;
mod steps;
#[cfg(test)]
mod tests;
mod view;
mod visit;

pub use many::run_best;
pub use one::best_one;
pub use search::{Best, Search};
