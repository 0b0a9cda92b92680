//! The program as one call: from the words of the command to the bytes of the report. An example
//! of `run_places` is `on_threads` of `glb_uses` (`src/ways.rt`).
#![tactic(auto)]

mod beside;
mod call;
mod drivers;
mod fault_text;
mod gate;
mod gated;
mod job;
mod order;
mod over_cells;
mod over_inboxes;
mod places;
mod played;
mod reading;
mod report_bytes;
mod report_text;
mod roots;
mod status;
#[cfg(test)]
mod tests;
mod threaded;
mod trial;

pub use call::{top, top_calm};
pub use gate::{Gate, NoGate};
pub use gated::Gated;
pub use glb_core::Params;
pub use glb_words::{Driver, FabricKind, Job, OrderFault, WordFault, WordKind};
pub use order::{Order, read_words};
pub use places::run_places;
pub use status::{GraphKind, Status};
