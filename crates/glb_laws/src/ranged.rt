//! Programs whose children are numbered.
ghost use Rattle.std.specs.Prelude.{◌≡◌, ◌<◌, All, IfOk, Some, length, map, slice_get};

use super::memory::NoMemory;
use super::program::Program;

/// A program that makes any child of an item by its number, and tells what an item counts for
/// without its children. A bag can then keep a parent with a range of numbers in place of so many
/// items.
pub trait Ranged: Program {
    /// How many children an item has.
    fn fan(&self, item: &Self::Item) -> u64
        ensures { result ≡ length (Self.children self.now item.now) };

    /// The child at a place among the children, counted from 0.
    fn child(&self, item: &Self::Item, number: u64) -> Self::Item
        requires { number < length (Self.children self.now item.now) }
        ensures { slice_get (Self.children self.now item.now) number ≡ Some result };

    /// What an item counts for.
    fn weigh(&self, item: &Self::Item) -> Result<Self::Value, NoMemory>
        ensures { IfOk result (λ v. v ≡ Self.value self.now item.now) };

    /// Makes several children, each asked for by its parent and its number, and puts them over what
    /// stands in `into`. A program that makes them side by side at less cost than one by one says
    /// so here; else the children are made by `child`.
    fn make(&self, asked: &[(Self::Item, u64)], into: &mut [Self::Item])
        requires lengths { length asked.now ≡ length into.old }
        requires numbers { All (λ a. a.1 < length (Self.children self.now a.0)) asked.now }
        ensures { map Some into.new
            ≡ map (λ a. slice_get (Self.children self.now a.0) a.1) asked.now }
    {
        for i in 0..asked.len() {
            into[i] = self.child(&asked[i].0, asked[i].1);
        }
    }
}
