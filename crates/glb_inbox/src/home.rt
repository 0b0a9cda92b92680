//! Where a desk belongs. No value of these types is made.
use atomic_table::Badge;

/// The table of the post that a desk was made with, and its place.
pub struct DeskHome {
    pub table: Badge<()>,
    pub place: u32,
}
