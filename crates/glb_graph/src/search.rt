//! The search by breadth: vertices stand in a queue in the order in which they were found, so their
//! distances rise along it.
ghost use Rattle.std.specs.Prelude.{ℕ, ◌<◌, ◌≤◌, length, IfOk};
ghost use Rattle.glb_graph.specs.inner.Tables.{IsTable};

use super::graph::Graph;
use super::limits::MOST_VERTICES;
use glb_laws::NoMemory;
use std::alloc::Global;

/// Stands for a vertex to which no walk leads.
pub(crate) const UNSEEN: u16 = u16::MAX;

/// The distance of each vertex from the start, or `UNSEEN`.
// A function of its own, so that what stands around its call does not change how its loops are
// compiled.
#[inline(never)]
pub(crate) fn distances(alloc: Global, graph: &Graph, start: u32) -> Result<Vec<u16>, NoMemory>
    requires { start < length graph.now }
    ensures table { IfOk result (λ table. IsTable graph.now start table.items) }
    ensures limit { IfOk result (λ table. length table.items ≤ MOST_VERTICES) }
{
    graph.known();
    let count = graph.vertices() as usize;
    let mut table = vec![in alloc; UNSEEN; count]?;
    let mut queue = vec![in alloc; 0u16; count + 1]?;
    table[start as usize] = 0;
    queue[0] = start as u16;
    let mut head = 0;
    let mut found = 1;
    while head < found && found < count {
        let vertex = queue[head];
        let steps = table[vertex as usize] + 1;
        // No branch for a target: it is written behind the queue, which grows by it where it is
        // new, and keeps the lesser of two distances.
        for target in graph.out(u32::from(vertex)) {
            let known = table[*target as usize];
            queue[found] = *target as u16;
            found += usize::from(known == UNSEEN);
            table[*target as usize] = known.min(steps);
        }
        head += 1;
    }
    Ok(table)
}
