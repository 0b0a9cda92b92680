//! Bytes in and out, with a count of the faults of each stream.
#![tactic(auto)]

mod memory;
mod sink;
mod source;
mod stream;
#[cfg(test)]
mod tests;

pub use memory::{CalmSource, MemSink, MemSource, NullSink};
pub use sink::Sink;
pub use source::{Failed, Source};
pub use stream::{StdSink, StdSource, SteadyRead, SteadyWrite};
