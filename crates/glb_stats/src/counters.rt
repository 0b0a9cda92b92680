//! The counters of a place.
ghost use Rattle.std.specs.Prelude.{◌≡◌};
ghost use Rattle.glb_stats.specs.Counter.{no_counters};

/// What a place counted. A count that is past the end of its type stands at that end.
#[derive(Clone, Copy, Debug, PartialEq, Eq)]
pub struct Counters {
    /// Items expanded.
    pub items: u64,
    /// Requests to random victims.
    pub asks: u64,
    /// Refused requests to random victims that the thief gave up.
    pub shrugs: u64,
    /// Requests of random thieves that were refused.
    pub denied: u64,
    /// Parts handed to random thieves.
    pub given: u64,
    /// Parts received from random victims.
    pub got: u64,
    /// Requests over lifelines.
    pub line_asks: u64,
    /// Parts handed over lifelines.
    pub line_given: u64,
    /// Parts received over lifelines.
    pub line_got: u64,
    /// The units of all parts handed over.
    pub sent_units: u128,
    /// The units of all parts received.
    pub got_units: u128,
    /// How often the place became inactive.
    pub sleeps: u64,
    /// How often a part over a lifeline made it active again.
    pub wakes: u64,
}

impl Counters {
    /// The counters of a place that did nothing.
    pub const ZERO: Counters = Counters {
        items: 0,
        asks: 0,
        shrugs: 0,
        denied: 0,
        given: 0,
        got: 0,
        line_asks: 0,
        line_given: 0,
        line_got: 0,
        sent_units: 0,
        got_units: 0,
        sleeps: 0,
        wakes: 0,
    };
}

impl Default for Counters {
    ghost is_default = { λ counters. counters ≡ no_counters };

    fn default() -> Counters {
        Counters::ZERO
    }
}
