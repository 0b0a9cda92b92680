//! The scheduler's protocol: worlds of places and their events, what holds of every world that
//! events reach, and the decision by which a place is played. README.md tells it in words.
#![tactic(auto)]

mod draws;
mod edges;
mod event;
mod kinds;
pub mod laws;
mod local;
mod params;
mod place_state;

pub use draws::victim;
pub use edges::{InEdge, OutEdge};
pub use event::{Action, Event, StepFault};
pub use kinds::{Credit, Edge, Kind, Mark, Phase, Side};
pub use local::{Counts, EdgeName, Local, MarkOn};
pub use params::{Params, tries_of};
pub use place_state::PlaceState;
