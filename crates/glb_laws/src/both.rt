//! Two monoids side by side.
ghost use Rattle.glb_laws.specs.Pair.{both, both_laws};

use super::monoid::Monoid;

/// Two values, combined member by member.
#[derive(Clone, Copy, Debug, PartialEq, Eq)]
pub struct Both<A, B>(pub A, pub B);

impl<A: Monoid, B: Monoid> Monoid for Both<A, B> {
    ghost is_proper = { λ a. A.is_proper a.0 × B.is_proper a.1 };

    ghost unit = { both A.unit B.unit };

    ghost combine = { λ a b. both (A.combine a.0 b.0) (B.combine a.1 b.1) };

    ghost monoid_laws = { both_laws A.monoid_laws B.monoid_laws };

    fn unit() -> Self {
        Both(A::unit(), B::unit())
    }

    fn combine(&self, other: &Self) -> Self {
        Both(self.0.combine(&other.0), self.1.combine(&other.1))
    }

    fn known(&self) {
        self.0.known();
        self.1.known();
    }
}
