//! Binomial trees of the benchmark UTS: from each node's descriptor, by SHA-1, follow how many
//! children it has and what their descriptors are.
#![tactic(auto)]

mod children;
mod node;
mod ranged;
#[cfg(test)]
mod tests;
mod uts;

pub use node::Node;
pub use uts::Uts;
