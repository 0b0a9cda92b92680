//! The greatest of some numbers.
ghost use Rattle.std.specs.Prelude.{◌^◌, ◌<◌, max};
ghost use Rattle.glb_laws.specs.Bounded.{greatest, greatest_laws};

use super::monoid::Monoid;

/// The greatest of some numbers.
#[derive(Clone, Copy, Debug, PartialEq, Eq)]
pub struct Greatest(pub u64);

impl Monoid for Greatest {
    ghost is_proper = { λ a. a.0 < 2 ^ 64 };

    ghost unit = { greatest 0 };

    ghost combine = { λ a b. greatest (max a.0 b.0) };

    ghost monoid_laws = { greatest_laws };

    fn unit() -> Self {
        Greatest(0)
    }

    fn combine(&self, other: &Self) -> Self {
        Greatest(self.0.max(other.0))
    }

    fn known(&self) {
        let _number = self.0;
    }
}
