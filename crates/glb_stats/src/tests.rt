//! Worked rows of the balances and of the report.
ghost use Rattle.std.specs.Prelude.{◌≡◌, IfOk, length};

use super::{Counters, StatJob, balance, write_stats, write_stats_roots};
use std::alloc::Global;
use std::test::Fail;

/// A job of one place, which has a root where it is awake.
fn alone(alloc: Global, items: u64, degree: u32, awake: bool) -> Result<StatJob, Fail>
    ensures degree { IfOk result (λ job. length job.degree.items ≡ 1) }
    ensures awake { IfOk result (λ job. length job.awake.items ≡ 1) }
    ensures roots { IfOk result (λ job. length job.roots.items ≡ 1) }
{
    Ok(StatJob {
        items,
        degree: vec![in alloc; degree]?,
        awake: vec![in alloc; awake]?,
        roots: vec![in alloc; u32::from(awake)]?,
    })
}

#[test]
fn one_place_balances_alone(rt: HostRuntime) -> Result<(), Fail> {
    let alloc = rt.alloc();
    let awake = Counters {
        items: 54,
        sleeps: 1,
        ..Counters::ZERO
    };
    assert!(rt; balance(&[awake], &alone(alloc, 54, 0, true)?));
    assert!(rt; !balance(&[awake], &alone(alloc, 53, 0, true)?));
    assert!(rt; !balance(&[awake], &alone(alloc, 54, 0, false)?));
    assert!(rt; !balance(&[awake], &alone(alloc, 54, 1, true)?));
    let twice = Counters {
        items: 54,
        sleeps: 2,
        ..Counters::ZERO
    };
    assert!(rt; !balance(&[twice], &alone(alloc, 54, 0, true)?));
    let sleeper = Counters {
        line_asks: 2,
        line_got: 2,
        line_given: 2,
        wakes: 2,
        sleeps: 2,
        ..Counters::ZERO
    };
    assert!(rt; balance(&[sleeper], &alone(alloc, 0, 3, false)?));
    let unanswered = Counters {
        line_asks: 3,
        ..sleeper
    };
    assert!(rt; !balance(&[unanswered], &alone(alloc, 0, 3, false)?));
    Ok(())
}

#[test]
fn balances_hold_at_the_edges(rt: HostRuntime) -> Result<(), Fail> {
    let alloc = rt.alloc();
    for (items, holds) in [(0, true), (1, false)] {
        let job = StatJob {
            items,
            degree: Vec::new(alloc),
            awake: Vec::new(alloc),
            roots: Vec::new(alloc),
        };
        assert_eq!(rt; balance(&[], &job), holds);
    }
    let most = Counters {
        items: 0,
        asks: u64::MAX,
        shrugs: 0,
        denied: 0,
        given: u64::MAX,
        got: u64::MAX,
        line_asks: u64::MAX,
        line_given: u64::MAX - 1,
        line_got: u64::MAX - 1,
        sent_units: (1 << 121) - 1,
        got_units: (1 << 121) - 1,
        sleeps: u64::MAX,
        wakes: u64::MAX - 1,
    };
    let job = StatJob {
        items: 0,
        degree: vec![in alloc; 1; 64]?,
        awake: vec![in alloc; true; 64]?,
        roots: vec![in alloc; 1; 64]?,
    };
    assert!(rt; balance(&[most; 64], &job));
    assert!(rt;
        !balance(
            &[Counters {
                items: u64::MAX,
                ..most
            }; 64],
            &job
        )
    );
    assert!(rt;
        !balance(
            &[Counters {
                got_units: 0,
                ..most
            }; 64],
            &job
        )
    );
    Ok(())
}

#[test]
fn one_place_is_told(rt: HostRuntime) -> Result<(), Fail> {
    let mut out = Vec::from_slice(rt.alloc(), b"placements 10\n")?;
    write_stats(
        &[Counters {
            items: 54,
            sleeps: 1,
            ..Counters::ZERO
        }],
        &mut out,
    )?;
    let counts = "items 54 asks 0 shrugs 0 denied 0 given 0 got 0 line_asks 0 line_given 0 \
        line_got 0 sent_units 0 got_units 0 sleeps 1 wakes 0";
    let want = format!(in rt.alloc();
        "placements 10\nplaces 1\nplace 0 {counts}\ntotal {counts}\n"
    )?;
    assert_eq!(rt; out.as_slice(), want.as_bytes());
    Ok(())
}

#[test]
fn two_places_and_their_sums_are_told(rt: HostRuntime) -> Result<(), Fail> {
    let first = Counters {
        items: 1,
        asks: 2,
        shrugs: 3,
        denied: 4,
        given: 5,
        got: 6,
        line_asks: 7,
        line_given: 8,
        line_got: 9,
        sent_units: 1 << 120,
        got_units: 11,
        sleeps: 12,
        wakes: 13,
    };
    let mut out = Vec::new(rt.alloc());
    write_stats(
        &[
            first,
            Counters {
                sent_units: 1,
                ..first
            },
        ],
        &mut out,
    )?;
    let want = "places 2\n\
        place 0 items 1 asks 2 shrugs 3 denied 4 given 5 got 6 line_asks 7 line_given 8 line_got 9 \
        sent_units 1329227995784915872903807060280344576 got_units 11 sleeps 12 wakes 13\n\
        place 1 items 1 asks 2 shrugs 3 denied 4 given 5 got 6 line_asks 7 line_given 8 line_got 9 \
        sent_units 1 got_units 11 sleeps 12 wakes 13\n\
        total items 2 asks 4 shrugs 6 denied 8 given 10 got 12 line_asks 14 line_given 16 \
        line_got 18 sent_units 1329227995784915872903807060280344577 got_units 22 sleeps 24 \
        wakes 26\n";
    assert_eq!(rt; out.as_slice(), want.as_bytes());
    Ok(())
}

#[test]
fn a_place_is_awake_where_it_has_roots(rt: HostRuntime) -> Result<(), Fail> {
    let alloc = rt.alloc();
    let awake = Counters {
        items: 54,
        sleeps: 1,
        ..Counters::ZERO
    };
    for (roots, holds) in [(0, false), (1, true), (9, true)] {
        let job = StatJob {
            items: 54,
            degree: vec![in alloc; 0]?,
            awake: vec![in alloc; true]?,
            roots: vec![in alloc; roots]?,
        };
        assert_eq!(rt; balance(&[awake], &job), holds);
    }
    Ok(())
}

#[test]
fn places_are_told_with_their_roots(rt: HostRuntime) -> Result<(), Fail> {
    let mut out = Vec::from_slice(rt.alloc(), b"placements 2\n")?;
    let place = Counters {
        items: 4,
        ..Counters::ZERO
    };
    write_stats_roots(&[place, Counters::ZERO], &[3, 0], &mut out)?;
    let want = "placements 2\nplaces 2\n\
        place 0 items 4 asks 0 shrugs 0 denied 0 given 0 got 0 line_asks 0 line_given 0 line_got 0 \
        sent_units 0 got_units 0 sleeps 0 wakes 0 roots 3\n\
        place 1 items 0 asks 0 shrugs 0 denied 0 given 0 got 0 line_asks 0 line_given 0 line_got 0 \
        sent_units 0 got_units 0 sleeps 0 wakes 0 roots 0\n\
        total items 4 asks 0 shrugs 0 denied 0 given 0 got 0 line_asks 0 line_given 0 line_got 0 \
        sent_units 0 got_units 0 sleeps 0 wakes 0 roots 3\n";
    assert_eq!(rt; out.as_slice(), want.as_bytes());
    Ok(())
}
