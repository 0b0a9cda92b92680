//! The parameters of a run.
ghost use Rattle.std.specs.Prelude.{◌≡◌};
ghost use Rattle.glb_rules.specs.Setups.{tries_of as spec_tries_of};

/// What a run is made with. The limits on each field are those of `IsWithinLimits`.
#[derive(Clone, Copy, Debug, PartialEq, Eq)]
pub struct Params {
    pub places: u32,
    /// How many items a place expands before it looks at its requests again.
    pub batch: u64,
    /// How many random victims a place asks before it turns to its lifelines.
    pub tries: u32,
    /// The base of the lifeline graph.
    pub base: u32,
    /// Where the random words that choose victims begin.
    pub seed: u64,
    /// A run ends early once it has expanded more items than this.
    pub limit: u64,
}

/// How many random victims a place asks: none where there is no other place.
pub fn tries_of(params: &Params) -> u32
    ensures { result ≡ spec_tries_of params.now }
{
    if params.places == 1 { 0 } else { params.tries }
}
