//! Worked cases.
mod decisions;
