//! Whether the counters of a run balance.
ghost use Rattle.std.specs.Prelude.{◌≡◌, ◌≤◌, ◌<◌, ◌^◌, ◌↔◌, IsTrue, length, All, sum_by};
ghost use Rattle.glb_stats.specs.Counter.{number_of};
ghost use Rattle.glb_stats.specs.Balances.{SumsBalance, PlaceBalances, EachPlaceBalances};
ghost use Rattle.glb_stats.specs.Balances.{IsBalanced, StartsByRoots, HasSmallUnits};

use super::counter::Counter;
use super::counters::Counters;

/// What the balances need to know of a run: the number of all nodes of its trees, and for each
/// place how many lifelines it has, whether it started with items, and how many roots it was given.
#[derive(Debug, Drop)]
pub struct StatJob {
    pub items: u64,
    pub degree: Vec<u32>,
    pub awake: Vec<bool>,
    pub roots: Vec<u32>,
}

/// A counter's sum over all places.
pub(crate) fn total(counter: Counter, all: &[Counters]) -> u128
    requires few { length all.now ≤ 64 }
    requires units { All HasSmallUnits all.now }
    ensures sum { result ≡ sum_by (number_of counter) all.now }
    ensures small { result < 2 ^ 127 }
{
    let mut sum = 0;
    for place in all {
        sum += counter.of(place);
    }
    sum
}

/// Whether a place balances by itself.
fn place_balances(place: &Counters, degree: u32, awake: bool) -> bool
    ensures { IsTrue result ↔ PlaceBalances place.now degree awake }
{
    let armed = if awake { 0 } else { degree };
    let naps = if awake { 1 } else { 0 };
    u128::from(place.asks) == u128::from(place.shrugs) + u128::from(place.got)
        && u128::from(armed) + u128::from(place.line_asks)
            == u128::from(place.line_got) + u128::from(degree)
        && u128::from(place.sleeps) == u128::from(place.wakes) + naps
}

/// Whether each place balances by itself.
fn each_place_balances(all: &[Counters], job: &StatJob) -> bool
    requires degrees { length job.now.degree.items ≡ length all.now }
    requires awake { length job.now.awake.items ≡ length all.now }
    ensures { IsTrue result ↔
        EachPlaceBalances all.now job.now.degree.items job.now.awake.items }
{
    for place in 0..all.len() {
        if !place_balances(&all[place], job.degree[place], job.awake[place]) {
            return false;
        }
    }
    true
}

/// Whether each place started awake exactly where it had roots.
fn starts_by_roots(job: &StatJob) -> bool
    requires { length job.now.roots.items ≡ length job.now.awake.items }
    ensures { IsTrue result ↔ StartsByRoots job.now.awake.items job.now.roots.items }
{
    for place in 0..job.awake.len() {
        if job.awake[place] != (job.roots[place] > 0) {
            return false;
        }
    }
    true
}

/// Whether the sums over all places balance.
fn sums_balance(all: &[Counters], nodes: u64) -> bool
    requires few { length all.now ≤ 64 }
    requires units { All HasSmallUnits all.now }
    ensures { IsTrue result ↔ SumsBalance all.now nodes }
{
    let items = total(Counter::Items, all);
    let asks = total(Counter::Asks, all);
    let denied = total(Counter::Denied, all);
    let given = total(Counter::Given, all);
    let got = total(Counter::Got, all);
    let line_given = total(Counter::LineGiven, all);
    let line_got = total(Counter::LineGot, all);
    let sent_units = total(Counter::SentUnits, all);
    let got_units = total(Counter::GotUnits, all);
    items == u128::from(nodes)
        && given == got
        && line_given == line_got
        && sent_units == got_units
        && asks == denied + given
}

/// Whether the counters of all places balance.
fn counters_balance(all: &[Counters], job: &StatJob) -> bool
    requires degrees { length job.now.degree.items ≡ length all.now }
    requires awake { length job.now.awake.items ≡ length all.now }
    requires few { length all.now ≤ 64 }
    requires units { All HasSmallUnits all.now }
    ensures { IsTrue result ↔
        IsBalanced all.now job.now.items job.now.degree.items job.now.awake.items }
{
    sums_balance(all, job.items) && each_place_balances(all, job)
}

/// Whether the counters of all places balance, and each place started awake exactly where it had
/// roots. It takes no memory.
pub fn balance(all: &[Counters], job: &StatJob) -> bool
    requires degrees { length job.now.degree.items ≡ length all.now }
    requires awake { length job.now.awake.items ≡ length all.now }
    requires roots { length job.now.roots.items ≡ length all.now }
    requires few { length all.now ≤ 64 }
    requires units { All HasSmallUnits all.now }
    ensures { IsTrue result ↔
        IsBalanced all.now job.now.items job.now.degree.items job.now.awake.items
        × StartsByRoots job.now.awake.items job.now.roots.items }
{
    counters_balance(all, job) && starts_by_roots(job)
}
