//! A knapsack.
ghost use Rattle.std.specs.Prelude.{◌≡◌, ◌↔◌, ℕ, length, IfOk};
ghost use Rattle.glb_bound.specs.Best.{IsBest, worth_of};
ghost use Rattle.glb_knap.specs.Choices.{IsOptimum};
ghost use Rattle.glb_knap.specs.Packs.{IsProblem, empty_pack, packs_below, value_of, cap_of};
ghost use Rattle.glb_knap.specs.CapLaws.{value_is_proper, caps_value, caps_children};

use super::line::{Line, add_most, rank};
use super::pack::Pack;
use glb_bound::Search;
use glb_laws::{Greatest, NoMemory, Program};
use std::alloc::Global;
use std::marker::Model;

/// Lines of a weight and a value each, and how much may be carried of them.
#[derive(Drop)]
pub struct Knap {
    capacity: u64,
    lines: Vec<(u64, u64)>,
    ranked: Vec<Line>,
}

impl Model for Knap {
    ghost use Rattle.std.specs.Prelude.{◌≡◌};
    ghost use Rattle.glb_knap.specs.Packs.{Problem, IsProblem};
    ghost use Rattle.glb_knap.specs.Ranking.{ranked_lines};

    ghost Value = { Problem };

    ghost view = { λ k. record { capacity = k.capacity; lines = k.lines.items } };

    ghost invariant = { λ k. IsProblem (record { capacity = k.capacity; lines = k.lines.items })
        × (k.ranked.items ≡ ranked_lines k.lines.items) };
}

impl Knap {
    /// The knapsack with these lines, each a weight and a value.
    pub(crate) fn new(
        alloc: Global,
        capacity: u64,
        lines: Vec<(u64, u64)>,
    ) -> Result<Knap, NoMemory>
        requires { IsProblem (record { capacity = capacity; lines = lines.items }) }
        ensures { IfOk result (λ knap. (knap.capacity ≡ capacity) × (knap.lines ≡ lines.items)) }
    {
        let ranked = rank(alloc, &lines)?;
        Ok(Knap {
            capacity,
            lines,
            ranked,
        })
    }

    /// How many lines there are.
    pub fn lines(&self) -> u32
        ensures { result ≡ length self.now.lines }
    {
        self.lines.len() as u32
    }

    /// How much may be carried.
    pub fn capacity(&self) -> u64
        ensures { result ≡ self.now.capacity }
    {
        self.capacity
    }

    /// The pack in which nothing is decided. The best of its tree is the greatest value of a choice
    /// of lines that can be carried together.
    pub fn root(&self) -> Pack
        ensures root { result ≡ empty_pack }
        ensures best { (most : ℕ)
            → IsBest (packs_below self.now) (worth_of value_of) result most
            ↔ IsOptimum self.now.capacity self.now.lines most }
    {
        let _capacity = self.capacity;
        Pack {
            next: 0,
            weight: 0,
            value: 0,
            taken: 0,
        }
    }
}

impl Program for Knap {
    type Item = Pack;

    type Value = Greatest;

    ghost children = { packs_below };

    ghost value = { λ _ pack. value_of pack };

    // Part of the loop of a search, as the cap is, without a call.
    #[inline(always)]
    fn expand(&self, pack: &Pack, out: &mut Vec<Pack>) -> Result<Greatest, NoMemory> {
        let value = pack.worth();
        let next = pack.next as usize;
        if next < self.ranked.len() {
            pack.push_below(&self.ranked[next], self.capacity, out)?;
        }
        Ok(Greatest(value))
    }

    ghost value_proper = { value_is_proper };
}

impl Search for Knap {
    ghost cap_of = { cap_of };

    #[inline(always)]
    fn cap(&self, pack: &Pack) -> u64 {
        let value = pack.worth();
        let next = pack.next as usize;
        if pack.weight > self.capacity || next >= self.ranked.len() {
            return value;
        }
        add_most(&self.ranked[next..], value, self.capacity - pack.weight)
    }

    ghost caps_value = { caps_value };

    ghost caps_children = { caps_children };
}
