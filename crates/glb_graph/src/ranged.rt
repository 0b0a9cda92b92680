//! The vertices by their numbers. Nothing has to be made, so `make` is the plain one.
use super::dist::{Dist, Spot, vertex_value};
use glb_laws::{Monoid, NoMemory, Program, Ranged, Tallies};

impl<'a> Ranged for Dist<'a> {
    fn fan(&self, item: &Spot) -> u64 {
        match *item {
            Spot::Root => u64::from(self.graph.vertices()),
            Spot::Vertex(_) => 0,
        }
    }

    fn child(&self, _item: &Spot, number: u64) -> Spot {
        // A number that is asked for is below this one, and so within 32 bits.
        let _vertices = self.graph.vertices();
        Spot::Vertex(number as u32)
    }

    fn weigh(&self, item: &Spot) -> Result<Tallies, NoMemory> {
        match *item {
            Spot::Root => Ok(Tallies::unit()),
            Spot::Vertex(vertex) => {
                if vertex < self.graph.vertices() {
                    vertex_value(self.graph.allocator(), self.graph, vertex)
                } else {
                    Ok(Tallies::unit())
                }
            }
        }
    }
}
