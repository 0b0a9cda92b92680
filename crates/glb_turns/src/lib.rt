//! Places played by turns, on one thread. An example is `by_turns` of `glb_uses` (`src/ways.rt`).
#![tactic(auto)]

mod bags;
mod driver;
mod schedule;
mod watch;

pub use driver::{run_listed, run_turns};
pub use schedule::{Listed, Rounds, Schedule};
