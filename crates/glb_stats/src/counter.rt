//! The counters one by one, by name.
ghost use Rattle.std.specs.Prelude.{◌≡◌, ◌^◌, ◌<◌};
ghost use Rattle.glb_stats.specs.Counter.{name_of, number_of, every_counter};
ghost use Rattle.glb_stats.specs.Balances.{HasSmallUnits};

use super::counters::Counters;

/// One of the counters of a place.
#[derive(Clone, Copy)]
pub(crate) enum Counter {
    Items,
    Asks,
    Shrugs,
    Denied,
    Given,
    Got,
    LineAsks,
    LineGiven,
    LineGot,
    SentUnits,
    GotUnits,
    Sleeps,
    Wakes,
}

impl Counter {
    /// All of them, in the order of a report.
    #[tactic(auto, unfolding(crate::specs::Counter::every_counter))]
    pub(crate) fn all() -> [Counter; 13]
        ensures { result ≡ every_counter }
    {
        [
            Counter::Items,
            Counter::Asks,
            Counter::Shrugs,
            Counter::Denied,
            Counter::Given,
            Counter::Got,
            Counter::LineAsks,
            Counter::LineGiven,
            Counter::LineGot,
            Counter::SentUnits,
            Counter::GotUnits,
            Counter::Sleeps,
            Counter::Wakes,
        ]
    }

    /// Its name in a report.
    pub(crate) fn name(self) -> &'static str
        ensures { result.now ≡ name_of self }
    {
        match self {
            Counter::Items => "items",
            Counter::Asks => "asks",
            Counter::Shrugs => "shrugs",
            Counter::Denied => "denied",
            Counter::Given => "given",
            Counter::Got => "got",
            Counter::LineAsks => "line_asks",
            Counter::LineGiven => "line_given",
            Counter::LineGot => "line_got",
            Counter::SentUnits => "sent_units",
            Counter::GotUnits => "got_units",
            Counter::Sleeps => "sleeps",
            Counter::Wakes => "wakes",
        }
    }

    /// Its number at a place.
    pub(crate) fn of(self, place: &Counters) -> u128
        requires { HasSmallUnits place.now }
        ensures number { result ≡ number_of self place.now }
        ensures small { result < 2 ^ 121 }
    {
        match self {
            Counter::Items => u128::from(place.items),
            Counter::Asks => u128::from(place.asks),
            Counter::Shrugs => u128::from(place.shrugs),
            Counter::Denied => u128::from(place.denied),
            Counter::Given => u128::from(place.given),
            Counter::Got => u128::from(place.got),
            Counter::LineAsks => u128::from(place.line_asks),
            Counter::LineGiven => u128::from(place.line_given),
            Counter::LineGot => u128::from(place.line_got),
            Counter::SentUnits => place.sent_units,
            Counter::GotUnits => place.got_units,
            Counter::Sleeps => u128::from(place.sleeps),
            Counter::Wakes => u128::from(place.wakes),
        }
    }
}
