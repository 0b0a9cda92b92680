//! Keeping what one thread alone writes off the cache lines of the others.

/// So many bytes stay free behind each list of a place: two lines of 64 bytes, since a processor
/// may fetch the neighbour of a line with it. A place writes to its lists at each of its turns, and
/// those of all places are made by one thread, one behind the other.
pub const APART: usize = 128;
