//! What a seat of the table of four words knows. No value of this type is made.
use std::collections::LinkedList;

pub struct View {
    /// How many places it stands for.
    pub places: u64,
    /// How many items the frontier has.
    pub frontier: u64,
    /// The numbers of the frontier that it has claimed, the last of them first.
    pub claimed: LinkedList<u64>,
    /// How often it found no number left.
    pub ended: u64,
    /// The greatest value that it has raised the best to.
    pub raised: u64,
    /// The greatest best that it saw.
    pub seen: u64,
    /// How many items it has counted.
    pub counted: u64,
    /// How many items there were when it had counted last.
    pub total: u64,
    /// The greatest stop code that it has raised.
    pub code: u64,
    /// The greatest stop code that it saw.
    pub halted: u64,
}
