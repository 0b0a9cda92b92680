//! What a reduction has to be: a commutative monoid.
ghost use Rattle.std.specs.Prelude.{◌≡◌};
ghost use Rattle.glb_laws.specs.Monoid.{MonoidLaws};

/// Values that combine, in any order, to one.
pub trait Monoid: Copy + Eq {
    /// The numbers in a value are values of their types.
    ghost is_proper: { Self → Type 0 };

    /// The neutral value.
    ghost unit: { Self };

    /// The two values as one.
    ghost combine: { Self → Self → Self };

    /// The neutral value.
    fn unit() -> Self
        ensures { result ≡ unit };

    /// The two values as one.
    fn combine(&self, other: &Self) -> Self
        ensures { result ≡ combine self.now other.now };

    /// Does nothing: a caller learns that this value, since there is one, is proper.
    fn known(&self)
        ensures { is_proper self.now };

    /// A commutative monoid.
    ghost monoid_laws: { MonoidLaws is_proper unit combine };
}
