//! Programs: the trees that are searched.
ghost use Rattle.std.specs.Prelude.{◌≡◌, List, ◌++◌, IfOk, OnOk, OnErr};

use super::memory::NoMemory;
use super::monoid::Monoid;

/// A tree, told by its items: what stands below an item, and what an item counts for.
pub trait Program: Drop {
    type Item: Drop;

    type Value: Monoid;

    /// The items one step below an item, in order.
    ghost children: { Self → Self.Item → List Self.Item };

    /// What an item counts for.
    ghost value: { Self → Self.Item → Self.Value };

    /// Appends the children of an item to `out`, and answers its value. Memory is taken from the
    /// allocator of `out`.
    fn expand(&self, item: &Self::Item, out: &mut Vec<Self::Item>) -> Result<Self::Value, NoMemory>
        ensures appended { OnOk result
            (out.new.items ≡ out.old.items ++ children self.now item.now) }
        ensures value { IfOk result (λ v. v ≡ value self.now item.now) }
        ensures unchanged { OnErr result (out.new.items ≡ out.old.items) };

    /// Every value is proper.
    ghost value_proper: { (p : Self) (x : Self.Item) → Self.Value.is_proper (value p x) };
}
