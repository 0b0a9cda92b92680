//! Graph text: a line with two numbers, then a line for each edge. Each byte is looked at once.
ghost use Rattle.std.specs.Prelude.{◌≡◌, ℕ, ◌≤◌, List, [], ◌∷◌, IfSome, IfNone, IfOk, IfErr};
ghost use Rattle.glb_graph.specs.GraphText.{IsPair, IsEdge, Edges, BytesSay};
ghost use Rattle.glb_graph.specs.Reading.{IsTextOf, HasTextFault};
ghost use Rattle.glb_graph.specs.FirstLines.{BeginsWith, BeginsWithout};
ghost use Rattle.glb_graph.specs.inner.Reading.{BeginsWithNumeral};

use super::graph::Graph;
use super::limits::{MOST_EDGES, MOST_VERTICES};
use std::alloc::Global;

/// Why bytes are no graph text, and the line at which reading ended, counted from 1.
#[derive(Clone, Copy, Debug, PartialEq, Eq)]
pub enum GraphFault {
    /// The line is no pair of numbers, or an end of its edge is no vertex.
    BadLine { line: u64 },
    /// The first line names more vertices or edges than the limits allow.
    TooLarge { line: u64 },
    /// The bytes end before this line, or go on where they should have ended.
    BadEnd { line: u64 },
    /// There was no memory.
    NoMemory,
}

/// The number that all digits in front write, and what follows them.
fn numeral(bytes: &[u8]) -> Option<(u64, &[u8])>
    ensures some { IfSome result (λ p. BeginsWithNumeral bytes.now p.0 p.1.now) }
    ensures none { IfNone result
        ((n : ℕ) (rest : List ℕ) → BeginsWithNumeral bytes.now n rest → ⊥) }
{
    let mut number: u64 = 0;
    let mut count = 0;
    while count < bytes.len() && bytes[count].is_ascii_digit() {
        if count == 10 {
            return None;
        }
        number = number * 10 + u64::from(bytes[count] - b'0');
        count += 1;
    }
    if count == 0 {
        return None;
    }
    Some((number, &bytes[count..]))
}

/// What follows the byte, where it stands in front.
fn after_byte(bytes: &[u8], byte: u8) -> Option<&[u8]>
    ensures some { IfSome result (λ rest. bytes.now ≡ byte ∷ rest.now) }
    ensures none { IfNone result ((rest : List ℕ) → bytes.now ≡ byte ∷ rest → ⊥) }
{
    if bytes.len() > 0 && bytes[0] == byte {
        Some(&bytes[1..])
    } else {
        None
    }
}

/// The two numbers of the first line, and what follows the line.
pub fn read_pair(bytes: &[u8]) -> Option<(u64, u64, &[u8])>
    ensures some { IfSome result (λ p. BeginsWith (λ line. IsPair line p.0 p.1) bytes.now p.2.now) }
    ensures none { IfNone result ((a b : ℕ) → BeginsWithout (λ line. IsPair line a b) bytes.now) }
{
    let (first, after) = numeral(bytes)?;
    let after_space = after_byte(after, b' ')?;
    let (second, end) = numeral(after_space)?;
    if end.len() == 0 {
        return Some((first, second, end));
    }
    let rest = after_byte(end, b'\n')?;
    Some((first, second, rest))
}

/// The two vertices of the first line, and what follows the line.
fn edge(bytes: &[u8], vertices: u64) -> Option<(u32, u32, &[u8])>
    requires { vertices ≤ MOST_VERTICES }
    ensures some { IfSome result (λ p.
        BeginsWith (λ line. IsEdge vertices line p.0 p.1) bytes.now p.2.now) }
    ensures none { IfNone result ((a b : ℕ) →
        BeginsWithout (λ line. IsEdge vertices line a b) bytes.now) }
{
    let (from, to, after) = read_pair(bytes)?;
    if from < vertices && to < vertices {
        Some((from as u32, to as u32, after))
    } else {
        None
    }
}

/// The number of vertices and the edges, in order.
fn read_pairs(alloc: Global, bytes: &[u8]) -> Result<(u32, Vec<(u32, u32)>), GraphFault>
    ensures graph { IfOk result (λ g. BytesSay bytes.now (Edges g.0 g.1.items)) }
    ensures fault { IfErr result (λ e. HasTextFault bytes.now e) }
{
    if bytes.len() == 0 {
        return Err(GraphFault::BadEnd { line: 1 });
    }
    let Some((vertices, edges, after)) = read_pair(bytes) else {
        return Err(GraphFault::BadLine { line: 1 });
    };
    if vertices > MOST_VERTICES || edges > MOST_EDGES {
        return Err(GraphFault::TooLarge { line: 1 });
    }
    let mut rest = after;
    let Ok(mut pairs) = Vec::with_capacity(alloc, edges as usize) else {
        return Err(GraphFault::NoMemory);
    };
    for number in 0..edges {
        if rest.len() == 0 {
            return Err(GraphFault::BadEnd { line: number + 2 });
        }
        let Some((from, to, after)) = edge(rest, vertices) else {
            return Err(GraphFault::BadLine { line: number + 2 });
        };
        match pairs.push((from, to)) {
            Ok(()) => {}
            Err(_) => return Err(GraphFault::NoMemory),
        }
        rest = after;
    }
    if rest.len() > 0 {
        return Err(GraphFault::BadEnd { line: edges + 2 });
    }
    Ok((vertices as u32, pairs))
}

/// The graph that the bytes are the text of. Reading ends at the first fault.
pub fn read_graph(alloc: Global, bytes: &[u8]) -> Result<Graph, GraphFault>
    ensures graph { IfOk result (λ graph. IsTextOf bytes.now graph) }
    ensures fault { IfErr result (λ fault. HasTextFault bytes.now fault) }
{
    let (vertices, pairs) = read_pairs(alloc, bytes)?;
    match Graph::from_pairs(alloc, vertices, pairs) {
        Ok(graph) => Ok(graph),
        Err(_) => Err(GraphFault::NoMemory),
    }
}
