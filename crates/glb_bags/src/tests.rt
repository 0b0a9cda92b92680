//! Worked rows of both bags, and what stands where memory is refused.
mod list_bag;
mod range_bag;
mod shy;
