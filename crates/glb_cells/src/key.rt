//! What the table is told once.
use glb_core::Params;
use glb_cube::Lines;
use std::snapshot::Snapshot;

/// The program, the bags, the parameters and the lifelines that a fabric was made with. They have
/// no bytes but for the parameters.
#[derive(Drop)]
pub struct Start<P, B> {
    pub program: Snapshot<P>,
    pub bags: Vec<Snapshot<B>>,
    pub params: Params,
    pub lines: Snapshot<Lines>,
}
