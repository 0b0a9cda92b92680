//! What places count, whether it balances, and how a report tells it.
#![tactic(auto)]

mod balances;
mod counter;
mod counters;
mod report;
#[cfg(test)]
mod tests;
mod text;

pub use balances::{StatJob, balance};
pub use counters::Counters;
pub use report::Report;
pub use text::{write_stats, write_stats_roots};
