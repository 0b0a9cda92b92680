//! Knapsack text: a line with the number of lines and the capacity, then a line for each that can
//! be taken, with its weight and its value. Each byte is looked at once.
ghost use Rattle.std.specs.Prelude.{◌≡◌, ℕ, ◌≤◌, List, IfSome, IfNone, IfOk, IfErr};
ghost use Rattle.glb_graph.specs.FirstLines.{BeginsWith, BeginsWithout};
ghost use Rattle.glb_knap.specs.KnapText.{IsLine, Carries, BytesSay, HasTextFault};

use super::knap::Knap;
use super::limits::{MOST_LINES, MOST_NUMBER};
use glb_graph::{GraphFault, read_pair};
use std::alloc::Global;

/// The weight and the value in the first line, and what follows the line.
fn read_line(bytes: &[u8]) -> Option<(u64, u64, &[u8])>
    ensures some { IfSome result (λ p. BeginsWith (λ text. IsLine text p.0 p.1) bytes.now p.2.now) }
    ensures none { IfNone result ((a b : ℕ) → BeginsWithout (λ text. IsLine text a b) bytes.now) }
{
    let (weight, value, after) = read_pair(bytes)?;
    if weight >= 1 && weight <= MOST_NUMBER && value <= MOST_NUMBER {
        Some((weight, value, after))
    } else {
        None
    }
}

/// The capacity and the lines, in order.
fn read_lines(alloc: Global, bytes: &[u8]) -> Result<(u64, Vec<(u64, u64)>), GraphFault>
    ensures lines { IfOk result (λ g. BytesSay bytes.now (Carries g.0 g.1.items)) }
    ensures fault { IfErr result (λ e. HasTextFault bytes.now e) }
{
    if bytes.len() == 0 {
        return Err(GraphFault::BadEnd { line: 1 });
    }
    let Some((count, capacity, after)) = read_pair(bytes) else {
        return Err(GraphFault::BadLine { line: 1 });
    };
    if count > MOST_LINES || capacity > MOST_NUMBER {
        return Err(GraphFault::TooLarge { line: 1 });
    }
    let mut rest = after;
    let Ok(mut lines) = Vec::with_capacity(alloc, count as usize) else {
        return Err(GraphFault::NoMemory);
    };
    for number in 0..count {
        if rest.len() == 0 {
            return Err(GraphFault::BadEnd { line: number + 2 });
        }
        let Some((weight, value, after)) = read_line(rest) else {
            return Err(GraphFault::BadLine { line: number + 2 });
        };
        match lines.push((weight, value)) {
            Ok(()) => {}
            Err(_) => return Err(GraphFault::NoMemory),
        }
        rest = after;
    }
    if rest.len() > 0 {
        return Err(GraphFault::BadEnd { line: count + 2 });
    }
    Ok((capacity, lines))
}

/// The knapsack that the bytes are the text of. Reading ends at the first fault.
pub fn read_knap(alloc: Global, bytes: &[u8]) -> Result<Knap, GraphFault>
    ensures knap { IfOk result (λ knap. BytesSay bytes.now (Carries knap.capacity knap.lines)) }
    ensures fault { IfErr result (λ fault. HasTextFault bytes.now fault) }
{
    let (capacity, lines) = read_lines(alloc, bytes)?;
    match Knap::new(alloc, capacity, lines) {
        Ok(knap) => Ok(knap),
        Err(_) => Err(GraphFault::NoMemory),
    }
}
