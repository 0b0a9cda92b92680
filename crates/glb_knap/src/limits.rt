//! The limits of a knapsack.

/// The most lines.
pub const MOST_LINES: u64 = 64;

/// The greatest capacity, and the greatest weight and value of a line.
pub const MOST_NUMBER: u64 = 4_294_967_295;
