//! The lifeline graph as a value.
ghost use Rattle.std.specs.Prelude.{◌≡◌, ℕ, ◌+◌, ◌-◌, ◌*◌, ◌<◌, ◌≤◌, ◌↔◌, All, IfOk, true, false};
ghost use Rattle.std.specs.Prelude.{length};
ghost use Rattle.std.specs.List.Sorted.{IsStrictlyIncreasing};
ghost use Rattle.glb_cube.specs.Lines.{IsCube, IsLine, outs_of, ins_of};
ghost use Rattle.glb_laws.specs.Numbers.{IsDistinct, has_number};
ghost use Rattle.glb_cube.specs.Ways.{IsWayOf, way_of};

use super::shape::Shape;
use super::ways::way_between;
use glb_laws::NoMemory;
use std::alloc::Global;
use std::marker::Model;

/// The lifeline graph of some places.
#[derive(Drop)]
pub struct Lines {
    pub(crate) shape: Shape,
    pub(crate) outs: Vec<Vec<u32>>,
    pub(crate) ins: Vec<Vec<u32>>,
}

impl Model for Lines {
    ghost use Rattle.std.specs.Prelude.{◌≡◌, ◌≤◌, map};
    ghost use Rattle.std.specs.List.{range_with_len};
    ghost use Rattle.glb_cube.specs.Lines.{Cube, cube_of, outs_of, ins_of};

    ghost Value = { Cube };

    ghost view = { λ l. cube_of l.shape.places l.shape.base l.shape.dimension };

    ghost invariant = { λ l.
        (map (λ w. w.items) l.outs.items ≡
        map (λ p. outs_of (cube_of l.shape.places l.shape.base l.shape.dimension) p)
        (range_with_len 0 l.shape.places))
        × (map (λ w. w.items) l.ins.items ≡
        map (λ p. ins_of (cube_of l.shape.places l.shape.base l.shape.dimension) p)
        (range_with_len 0 l.shape.places)) };
}

impl Lines {
    /// The number of places, from 1 to 64.
    pub fn places(&self) -> u32
        ensures places { result ≡ self.now.places }
        ensures few { self.now.places ≤ 64 }
        ensures graph { IsCube self.now }
    {
        self.shape.places
    }

    /// The base in which places are written, from 2 to 64.
    pub fn base(&self) -> u32
        ensures { result ≡ self.now.base }
    {
        self.shape.base
    }

    /// How many digits a place has, and so how many lifelines at most.
    pub fn dimension(&self) -> u32
        ensures { result ≡ self.now.dimension }
    {
        self.shape.dimension
    }

    /// Where the place's lifelines lead, by rising dimension.
    pub fn out(&self, place: u32) -> &[u32]
        requires { place < self.now.places }
        ensures targets { result.now ≡ outs_of self.now place }
        ensures few { length result.now ≤ self.now.dimension }
        ensures near { All (λ q. q < self.now.places) result.now }
        ensures no_loop { has_number place result.now ≡ false }
        ensures different { IsDistinct result.now }
    {
        let rows = self.outs.as_slice();
        rows[place as usize].as_slice()
    }

    /// The places that have a lifeline to this one, by rising number.
    pub fn into(&self, place: u32) -> &[u32]
        requires { place < self.now.places }
        ensures sources { result.now ≡ ins_of self.now place }
        ensures few { length result.now ≤ self.now.dimension }
        ensures rising { IsStrictlyIncreasing result.now }
        ensures exact { (p : ℕ) → (has_number p result.now ≡ true)
            ↔ ((p < self.now.places) × IsLine self.now p place) }
    {
        let rows = self.ins.as_slice();
        rows[place as usize].as_slice()
    }

    /// The way from `a` to `b`, with both. Digits that are too high are brought down first.
    pub fn way(&self, alloc: Global, a: u32, b: u32) -> Result<Vec<u32>, NoMemory>
        requires a { a < self.now.places }
        requires b { b < self.now.places }
        ensures way { IfOk result (λ w. w.items ≡ way_of self.now a b) }
        ensures leads { IfOk result (λ w. IsWayOf self.now a b w.items) }
        ensures short { IfOk result
            (λ w. length w.items ≤ self.now.dimension * (self.now.base - 1) + 1) }
    {
        way_between(alloc, self.shape, a, b)
    }
}
