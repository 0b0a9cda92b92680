//! Searches: programs whose items also say how great a value may stand below them.
ghost use Rattle.std.specs.Prelude.{◌≡◌, ◌≤◌, ℕ, All};

use glb_laws::{Greatest, Program};

/// A tree whose items have values, with a cap for each: no item of its tree has a greater value.
pub trait Search: Program<Value = Greatest> {
    /// The cap of an item.
    ghost cap_of: { Self → Self.Item → ℕ };

    /// The cap of an item.
    fn cap(&self, item: &Self::Item) -> u64
        ensures { result ≡ cap_of self.now item.now };

    /// The cap is not below the value.
    ghost caps_value: { (s : Self) (x : Self.Item) → (Self.value s x).0 ≤ cap_of s x };

    /// The cap is not below that of any child.
    ghost caps_children: { (s : Self) (x : Self.Item)
        → All (λ c. cap_of s c ≤ cap_of s x) (Self.children s x) };
}

/// The greatest value of a tree, and a node that has it.
#[derive(Clone, Copy, Debug, PartialEq, Eq, Drop)]
pub struct Best<I> {
    pub worth: u64,
    pub item: I,
}
