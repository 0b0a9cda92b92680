//! The lifeline graph: a cyclic hypercube over 1 to 64 places, for every base from 2 to 64, with a short way
//! between any two places.
#![tactic(auto)]

mod build;
pub mod laws;
mod lines;
mod shape;
#[cfg(test)]
mod tests;
mod ways;

pub use build::cube;
pub use lines::Lines;
