//! The job that sums the distances of a graph: an item for each vertex, below one root.
ghost use Rattle.std.specs.Prelude.{◌≡◌, ℕ, ◌<◌, ◌≤◌, length, slice_index, ◌⊎◌, IfOk};
ghost use Rattle.glb_graph.specs.inner.Tables.{unseen, shown};
ghost use Rattle.glb_graph.specs.Distances.{value_of, distance};
ghost use Rattle.glb_graph.specs.Spots.{spot_children, spot_value, spot_value_proper};

use super::graph::Graph;
use super::limits::MOST_VERTICES;
use super::search::{UNSEEN, distances};
use glb_laws::{Both, Greatest, Monoid, NoMemory, Program, SatSum, Tallies};
use std::alloc::Global;

/// The root of the job, or a vertex.
#[derive(Clone, Copy, Debug, PartialEq, Eq)]
pub enum Spot {
    Root,
    Vertex(u32),
}

/// The job over a graph: below the root stand all vertices. The value of a vertex is how many
/// others it reaches, the sum of their distances and the greatest of these.
#[derive(Clone, Copy)]
pub struct Dist<'a> {
    pub(crate) graph: &'a Graph,
}

/// The value of the start, from the table of the distances from it.
fn tally(table: &[u16], start: u32) -> Tallies
    requires few { length table.now ≤ MOST_VERTICES }
    requires small { (t : ℕ) → t < length table.now →
        (slice_index table.now t ≡ unseen) ⊎ (slice_index table.now t < MOST_VERTICES) }
    ensures { result ≡ value_of (shown table.now) start (length table.now) }
{
    // Numbers of 32 and 16 bits and no branch, so that vectors take eight vertices at a time.
    let mut reached: u32 = 0;
    let mut sum: u32 = 0;
    let mut greatest: u16 = 0;
    for (vertex, found) in table.iter().enumerate() {
        let is_reached = *found != UNSEEN;
        let steps = if is_reached { *found } else { 0 };
        reached += u32::from(is_reached & (vertex as u32 != start));
        sum += u32::from(steps);
        greatest = greatest.max(steps);
    }
    Both(
        SatSum(u64::from(reached)),
        Both(SatSum(u64::from(sum)), Greatest(u64::from(greatest))),
    )
}

/// The value of a vertex.
pub(crate) fn vertex_value(alloc: Global, graph: &Graph, start: u32) -> Result<Tallies, NoMemory>
    requires { start < length graph.now }
    ensures { IfOk result (λ v. v ≡ value_of (distance graph.now start) start (length graph.now)) }
{
    let table = distances(alloc, graph, start)?;
    Ok(tally(&table, start))
}

impl<'a> Dist<'a> {
    /// The job over this graph. It makes no copy.
    pub fn new(graph: &'a Graph) -> Self
        ensures { result.graph.now ≡ graph.now }
    {
        Dist { graph }
    }

    /// The one root of the tree: a run is given a list of it alone.
    pub fn root(&self) -> Spot
        ensures { result ≡ Spot.Root }
    {
        Spot::Root
    }
}

impl<'a> Program for Dist<'a> {
    type Item = Spot;

    type Value = Tallies;

    ghost children = { λ p x. spot_children p.graph.now x };

    ghost value = { λ p x. spot_value p.graph.now x };

    fn expand(&self, item: &Spot, out: &mut Vec<Spot>) -> Result<Tallies, NoMemory> {
        match *item {
            Spot::Root => {
                let before = out.len();
                out.reserve(self.graph.vertices() as usize)?;
                for vertex in 0..self.graph.vertices() {
                    match out.push(Spot::Vertex(vertex)) {
                        Ok(()) => {}
                        Err(_) => {
                            out.truncate(before);
                            return Err(NoMemory);
                        }
                    }
                }
                Ok(Tallies::unit())
            }
            Spot::Vertex(vertex) => {
                if vertex < self.graph.vertices() {
                    vertex_value(*out.allocator(), self.graph, vertex)
                } else {
                    Ok(Tallies::unit())
                }
            }
        }
    }

    ghost value_proper = { λ p x. spot_value_proper p.graph.now x };
}
