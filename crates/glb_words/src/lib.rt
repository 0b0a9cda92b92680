//! The words of the command: which job they name, its numbers and its options, or what is wrong
//! with them. What is accepted is also parsed by clap, and the values are those of its matches.
#![tactic(auto)]

mod command;
mod fault;
mod forms;
mod reader;
mod settings;
#[cfg(test)]
mod tests;

pub use fault::{OrderFault, WordFault, WordKind};
pub use settings::{Driver, FabricKind, Job, Settings, read_settings};
