//! Placements of n queens on a board of n rows and columns, none of which attacks another: the tree
//! of partial boards, filled row by row.
#![tactic(auto)]

mod board;
mod queens;
#[cfg(test)]
mod tests;

pub use board::Board;
pub use queens::Queens;
