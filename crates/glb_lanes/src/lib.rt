//! The SHA-1 digests of 20 bytes of a parent followed by 4 bytes of a number, for four or eight
//! numbers in a row: one block in each lane of a vector. They are those of the crate `sha1`.
#![tactic(auto)]

mod bytes;
pub mod eight;
pub mod four;
mod rounds;
mod row;
#[cfg(test)]
mod tests;
mod words;
