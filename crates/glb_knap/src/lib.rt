//! The 0/1 knapsack, read from text, as a search for the greatest value that fits.
#![tactic(auto)]

mod knap;
pub mod laws;
mod limits;
mod line;
mod pack;
#[cfg(test)]
mod tests;
mod text;

pub use knap::Knap;
pub use limits::{MOST_LINES, MOST_NUMBER};
pub use line::Line;
pub use pack::Pack;
pub use text::read_knap;
