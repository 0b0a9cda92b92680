//! Bags of items: what a place works on, and what travels between places.
ghost use Rattle.std.specs.Prelude.{◌≡◌, ℕ, ◌-◌, ◌^◌, ◌<◌, ◌≤◌, ◌↔◌, min, List, [], ◌∷◌, ◌++◌};
ghost use Rattle.std.specs.Prelude.{length, IsTrue, IsNone, IfOk, OnOk, IfErr, IfSome, MatchOption};
ghost use Rattle.std.specs.Prelude.{IsPermutation};
ghost use Rattle.glb_laws.specs.Expansion.{Expands};
ghost use Rattle.glb_laws.specs.Bag.{KeepsFit};

use super::memory::NoMemory;
use super::program::Program;
use std::alloc::Global;

/// Memory ran out after `done` whole expansions.
#[derive(Clone, Copy, Debug, PartialEq, Eq)]
pub struct Stopped {
    pub done: u64,
}

/// A bag of items of a program. In which order it keeps and takes them is left free.
pub trait Bag<P: Program>: Drop {
    /// The items in it, in some order.
    ghost items: { Self → List P.Item };

    /// The programs that may process it.
    ghost fits: { Self → P → Type 0 };

    /// An empty bag. It takes no memory.
    fn empty(alloc: Global, program: &P) -> Self
        ensures items { items result ≡ [] }
        ensures fits { fits result program.now };

    /// The number of its items. One past the last value of `u64` is told as that value.
    fn len(&self) -> u64
        ensures { result ≡ min (length (items self.now)) (2 ^ 64 - 1) };

    /// Whether it has a part to give.
    fn can_split(&self) -> bool
        ensures { IsTrue result ↔ (2 ≤ length (items self.now)) };

    /// Puts one item in, or hands it back where there is no memory.
    fn add(&mut self, item: P::Item) -> Result<(), (NoMemory, P::Item)>
        ensures added { OnOk result (IsPermutation (item ∷ items self.old) (items self.new)) }
        ensures refused { IfErr result (λ e. (e.1 ≡ item) × (items self.new ≡ items self.old)) }
        ensures fits { KeepsFit (fits self.old) (fits self.new) };

    /// Expands up to `n` items, one after the other, and combines their values into `acc`. It
    /// answers how many.
    fn process(&mut self, program: &P, n: u64, acc: &mut P::Value) -> Result<u64, Stopped>
        requires fits { fits self.old program.now }
        requires some { 1 ≤ n }
        ensures done { IfOk result (λ k.
            Expands (P.children program.now) (P.value program.now) P.Value.combine
            (items self.old) acc.old k (items self.new) acc.new) }
        ensures most { IfOk result (λ k. k ≤ n) }
        ensures short { IfOk result (λ k. k < n → items self.new ≡ []) }
        ensures none { IfOk result (λ k. (k ≡ 0) ↔ (items self.old ≡ [])) }
        ensures stopped { IfErr result (λ e.
            Expands (P.children program.now) (P.value program.now) P.Value.combine
            (items self.old) acc.old e.done (items self.new) acc.new) }
        ensures left { IfErr result (λ e. (e.done < n) × (0 < length (items self.new))) }
        ensures fits { KeepsFit (fits self.old) (fits self.new) };

    /// Takes a part off, for another place.
    fn split(&mut self) -> Result<Option<Self>, NoMemory>
        ensures none { IfOk result (λ o. IsNone o ↔ (length (items self.old) < 2)) }
        ensures same { IfOk result (λ o.
            MatchOption o (items self.new ≡ items self.old)
            (λ part. IsPermutation (items self.old) (items part ++ items self.new))) }
        ensures halves { IfOk result (λ o.
            IfSome o (λ part. (0 < length (items part)) × (0 < length (items self.new)))) }
        ensures part_fits { IfOk result (λ o.
            IfSome o (λ part. KeepsFit (fits self.old) (fits part))) }
        ensures refused { IfErr result (λ _. items self.new ≡ items self.old) }
        ensures fits { KeepsFit (fits self.old) (fits self.new) };

    /// Takes all items of another bag in, or hands it back where there is no memory.
    fn merge(&mut self, other: Self) -> Result<(), (NoMemory, Self)>
        requires fits { (p : P) × (fits self.old p × fits other p) }
        ensures merged { OnOk result
            (IsPermutation (items self.old ++ items other) (items self.new)) }
        ensures refused { IfErr result (λ e.
            (items e.1 ≡ items other) × (items self.new ≡ items self.old)) }
        ensures other_fits { IfErr result (λ e. KeepsFit (fits other) (fits e.1)) }
        ensures fits { KeepsFit (fits self.old) (fits self.new) };
}
