//! Sums that saturate.
ghost use Rattle.std.specs.Prelude.{◌^◌, ◌<◌};
ghost use Rattle.glb_laws.specs.Bounded.{capped_sum, sat_sum, sat_sum_laws};

use super::monoid::Monoid;

/// A sum that stops at the last value of `u64`.
#[derive(Clone, Copy, Debug, PartialEq, Eq)]
pub struct SatSum(pub u64);

impl Monoid for SatSum {
    ghost is_proper = { λ a. a.0 < 2 ^ 64 };

    ghost unit = { sat_sum 0 };

    ghost combine = { λ a b. sat_sum (capped_sum a.0 b.0) };

    ghost monoid_laws = { sat_sum_laws };

    fn unit() -> Self {
        SatSum(0)
    }

    fn combine(&self, other: &Self) -> Self {
        SatSum(self.0.saturating_add(other.0))
    }

    fn known(&self) {
        let _number = self.0;
    }
}
