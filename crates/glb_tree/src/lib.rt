//! Trees of items expanded in any order: the laws, a run of whole trees in one bag, and roots that
//! are dealt out to places. An example of a run is `in_one_bag` of `glb_uses` (`src/ways.rt`).
#![tactic(auto)]

mod deal;
pub mod laws;
mod run;

pub use deal::spread;
pub use run::{Outcome, RunFault, bag_of, run_one};
