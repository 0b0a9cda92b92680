//! The scheduler's core: what a place sees, the decision by which every driver plays it, and worlds
//! of places with real bags. The rules and their laws are those of glb_rules, whose names stand
//! here too.
#![tactic(auto)]

mod decision;
pub mod laws;
mod seen;
#[cfg(test)]
mod tests;
mod victims;
mod world;

pub use decision::next;
pub use glb_rules::{
    Action, Counts, Credit, Edge, EdgeName, Event, InEdge, Kind, Local, Mark, MarkOn, OutEdge,
    Params, Phase, PlaceState, Side, StepFault, tries_of, victim,
};
pub use seen::Seen;
pub use victims::first_victim;
pub use world::World;
