//! All that a world keeps.
use super::rows::{EdgeRow, PlaceRow};
use crate::Params;
use glb_cube::Lines;

/// The tables of a world: a row for each place, and for each place the rows of its in-edges.
#[derive(Drop)]
pub struct Tables<B, V> {
    pub lines: Lines,
    pub params: Params,
    pub place_rows: Vec<PlaceRow<B>>,
    pub edge_rows: Vec<EdgeRow<B>>,
    pub live: u64,
    pub stop: u64,
    pub total: u64,
    pub value: V,
}
