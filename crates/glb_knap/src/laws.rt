//! What the definitions come to, as contracts of functions that do nothing.
ghost use Rattle.std.specs.Prelude.{◌≡◌, ℕ, List};
ghost use Rattle.glb_knap.specs.KnapText.{Reading, BytesSay};

/// Each list of bytes says exactly one thing: a knapsack, or a fault with its line.
pub fn bytes_say_one_thing()
    ensures some { (bytes : List ℕ) → (reading : Reading) × BytesSay bytes reading }
    ensures one { (bytes : List ℕ) (r q : Reading) → BytesSay bytes r → BytesSay bytes q → r ≡ q }
{}
