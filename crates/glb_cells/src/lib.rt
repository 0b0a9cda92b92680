//! The lock-free fabric: words for live, items, stop and each edge, a slot for each edge, and a
//! berth for each place. Each event of a run is one atomic operation on one word. README.md has the
//! protocol.
#![tactic(auto)]

mod berth;
mod cells;
mod closing;
mod counting;
mod gifts;
mod key;
pub mod laws;
mod looks;
mod moves;
mod numbers;
mod opening;
mod plays;
mod requests;
mod rule;
mod seats;
mod stand;
mod states;
mod steps;
mod view;

pub use berth::Berth;
pub use cells::Cells;
pub use closing::Closed;
pub use key::Start;
pub use rule::Rule;
pub use stand::Stand;
pub use view::View;
