//! The values of programs that add up two numbers and keep the greatest of a third.
use super::both::Both;
use super::greatest::Greatest;
use super::sat_sum::SatSum;

/// Two sums and a greatest.
pub type Tallies = Both<SatSum, Both<SatSum, Greatest>>;
