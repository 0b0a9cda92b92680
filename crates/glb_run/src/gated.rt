//! A program that passes a gate at each expansion.
ghost use Rattle.std.specs.Prelude.{◌≡◌};

use crate::gate::Gate;
use glb_laws::{NoMemory, Program, Ranged};
use std::alloc::AllocError;

/// A program that passes a gate once before each expansion. It means what the program in it means.
#[derive(Drop)]
pub struct Gated<'a, P: Program, G: Gate> {
    inner: P,
    gate: &'a G,
}

impl<'a, P: Program + Copy, G: Gate> Clone for Gated<'a, P, G> {
    fn clone(&self) -> Result<Self, AllocError> {
        Ok(Gated {
            inner: self.inner,
            gate: self.gate,
        })
    }
}

impl<'a, P: Program + Copy, G: Gate> Copy for Gated<'a, P, G> {}

impl<'a, P: Program, G: Gate> Gated<'a, P, G> {
    pub fn new(inner: P, gate: &'a G) -> Gated<'a, P, G>
        ensures { result.inner ≡ inner }
    {
        Gated { inner, gate }
    }
}

impl<'a, P: Program, G: Gate> Program for Gated<'a, P, G> {
    type Item = P::Item;

    type Value = P::Value;

    ghost children = { λ gated x. P.children gated.inner x };

    ghost value = { λ gated x. P.value gated.inner x };

    ghost value_proper = { λ gated x. P.value_proper gated.inner x };

    // Part of the loop of a bag, as the step inside it is.
    #[inline(always)]
    fn expand(&self, item: &P::Item, out: &mut Vec<P::Item>) -> Result<P::Value, NoMemory> {
        self.gate.pass();
        self.inner.expand(item, out)
    }
}

impl<'a, P: Ranged, G: Gate> Ranged for Gated<'a, P, G> {
    fn fan(&self, item: &P::Item) -> u64 {
        self.inner.fan(item)
    }

    fn child(&self, item: &P::Item, number: u64) -> P::Item {
        self.inner.child(item, number)
    }

    #[inline(always)]
    fn weigh(&self, item: &P::Item) -> Result<P::Value, NoMemory> {
        self.gate.pass();
        self.inner.weigh(item)
    }

    fn make(&self, asked: &[(P::Item, u64)], into: &mut [P::Item]) {
        self.inner.make(asked, into);
    }
}
