//! The limits that every run keeps, whatever its job and its driver.

/// The most items that the trees of a run may have together.
pub const MOST_ITEMS: u64 = 1 << 40;

/// The most items that a place may expand in one batch.
pub const MOST_BATCH: u64 = 65_536;
