//! Jobs that start from the children of their roots, by each driver and fabric.
use super::{Left, TRIANGLE, sink, words_of};
use glb_io::CalmSource;
use glb_run::{NoGate, Status, top};
use std::alloc::Global;
use std::fmt::Write;
use std::process::Abort;
use std::sync::Wait;
use std::test::Fail;
use std::thread::Threads;

/// Runs the words of a line, with a spread start and these options, over the text.
fn run_spread<R: Threads + Wait + Abort + Sync>(
    rt: &R,
    alloc: Global,
    line: &str,
    options: &str,
    text: &str,
) -> Result<Left, Fail> {
    let line = format!(in alloc; "{line} --spread{options}")?;
    let words = words_of(alloc, line.as_str())?;
    assert!(rt; words.len() < 100);
    let mut source = CalmSource::new(Vec::from_slice(alloc, text.as_bytes())?);
    let mut out = sink(alloc, &[], 16384)?;
    let mut err = sink(alloc, &[], 64)?;
    let status = top(rt, alloc, &words, &mut source, &mut out, &mut err, &NoGate);
    Ok(Left { status, out, err })
}

const DRIVERS: [&str; 4] = [
    "",
    " --driver turns --places 3",
    " --driver threads",
    " --driver threads --fabric inbox",
];

/// Jobs, what they read, and their reports.
const FORESTS: [(&str, &str, &str); 4] = [
    (
        "queens 8",
        "",
        "report 2\nqueens 8\nroots 8\nitems 2056\nplacements 92\n",
    ),
    (
        "uts 3 8 0 42",
        "",
        "report 2\nuts 3 8 0 42\nroots 3\nitems 3\nnodes 3\nleaves 3\ndepth 1\n",
    ),
    (
        "uts 0 8 0 42",
        "",
        "report 2\nuts 0 8 0 42\nroots 0\nitems 0\nnodes 0\nleaves 0\ndepth 0\n",
    ),
    (
        "dist",
        TRIANGLE,
        "report 2\ndist 3 3\nroots 3\nitems 3\npairs 6\nsum 9\ngreatest 2\n",
    ),
];

#[test]
fn forests_are_reported_alike_by_each_driver(rt: HostRuntime) -> Result<(), Fail> {
    for (line, text, report) in FORESTS {
        for options in DRIVERS {
            let left = run_spread(&rt, rt.alloc(), line, options, text)?;
            assert_eq!(rt; left.status, Status::Done, "{line}{options}");
            assert_eq!(rt; left.out.bytes(), report.as_bytes(), "{line}{options}");
            assert!(rt; left.err.bytes().is_empty(), "{line}{options}");
        }
    }
    Ok(())
}

#[test]
fn the_limit_is_on_the_trees_of_the_children(rt: HostRuntime) -> Result<(), Fail> {
    for options in DRIVERS {
        let left = run_spread(&rt, rt.alloc(), "queens 8 --limit 2055", options, "")?;
        assert_eq!(rt; left.status, Status::TooMany { items: 2056 }, "{options}");
        assert!(rt; left.out.bytes().is_empty(), "{options}");
        assert_eq!(rt; left.err.bytes(), "glb: more than 2055 items\n".as_bytes());
        let left = run_spread(&rt, rt.alloc(), "queens 8 --limit 2056", options, "")?;
        assert_eq!(rt; left.status, Status::Done, "{options}");
    }
    Ok(())
}

#[test]
fn a_trial_tells_of_two_forests(rt: HostRuntime) -> Result<(), Fail> {
    let report =
        "trial 7\nreport 2\nuts 2000 4 483183820 7\nroots 2000\nitems 18360\nnodes 18360\nleaves 14270\ndepth 38\nreport 2\ndist 1000 5000\nroots 1000\nitems 1000\npairs 987050\nsum 4435905\ngreatest 11\n";
    for options in ["", " --driver threads"] {
        let left = run_spread(&rt, rt.alloc(), "trial 7", options, "")?;
        assert_eq!(rt; left.status, Status::Done, "{options}");
        assert_eq!(rt; left.out.bytes(), report.as_bytes(), "{options}");
    }
    Ok(())
}

const NOTHING: &str =
    "asks 0 shrugs 0 denied 0 given 0 got 0 line_asks 0 line_given 0 line_got 0 sent_units 0 got_units 0 sleeps 0 wakes 0";

const SLEPT: &str =
    "asks 0 shrugs 0 denied 0 given 0 got 0 line_asks 0 line_given 0 line_got 0 sent_units 0 got_units 0 sleeps 1 wakes 0";

#[test]
fn one_bag_sleeps_where_it_had_roots(rt: HostRuntime) -> Result<(), Fail> {
    let alloc = rt.alloc();
    let left = run_spread(&rt, alloc, "queens 5", " --stats", "")?;
    let text = format!(in alloc;
        "report 2\nqueens 5\nroots 5\nitems 53\nplacements 10\nplaces 1\nplace 0 items 53 {SLEPT} roots 5\ntotal items 53 {SLEPT} roots 5\n"
    )?;
    assert_eq!(rt; left.out.bytes(), text.as_bytes());
    let left = run_spread(&rt, alloc, "uts 0 8 0 42", " --stats", "")?;
    let text = format!(in alloc;
        "report 2\nuts 0 8 0 42\nroots 0\nitems 0\nnodes 0\nleaves 0\ndepth 0\nplaces 1\nplace 0 items 0 {NOTHING} roots 0\ntotal items 0 {NOTHING} roots 0\n"
    )?;
    assert_eq!(rt; left.out.bytes(), text.as_bytes());
    Ok(())
}

#[test]
fn places_without_roots_count_nothing(rt: HostRuntime) -> Result<(), Fail> {
    let alloc = rt.alloc();
    let text = format!(in alloc;
        "report 2\nuts 0 8 0 42\nroots 0\nitems 0\nnodes 0\nleaves 0\ndepth 0\nplaces 2\nplace 0 items 0 {NOTHING} roots 0\nplace 1 items 0 {NOTHING} roots 0\ntotal items 0 {NOTHING} roots 0\n"
    )?;
    for driver in ["turns", "threads", "threads --fabric inbox"] {
        let options = format!(in alloc; " --places 2 --stats --driver {driver}")?;
        let left = run_spread(&rt, alloc, "uts 0 8 0 42", options.as_str(), "")?;
        assert_eq!(rt; left.out.bytes(), text.as_bytes(), "{driver}");
    }
    Ok(())
}

const AWAKE: &str =
    "asks 0 shrugs 0 denied 0 given 0 got 0 line_asks 6 line_given 0 line_got 0 sent_units 0 got_units 0 sleeps 1 wakes 0";

const FOUR_AWAKE: &str =
    "asks 0 shrugs 0 denied 0 given 0 got 0 line_asks 24 line_given 0 line_got 0 sent_units 0 got_units 0 sleeps 4 wakes 0";

#[test]
fn four_of_64_places_start_awake(rt: HostRuntime) -> Result<(), Fail> {
    let alloc = rt.alloc();
    let mut text = String::from_str(
        alloc,
        "report 2\nqueens 4\nroots 4\nitems 16\nplacements 2\nplaces 64\n",
    )?;
    for place in 0..64u32 {
        if place < 4 {
            write!(text, "place {place} items 4 {AWAKE} roots 1\n")?;
        } else {
            write!(text, "place {place} items 0 {NOTHING} roots 0\n")?;
        }
    }
    write!(text, "total items 16 {FOUR_AWAKE} roots 4\n")?;
    for driver in ["turns", "threads", "threads --fabric inbox"] {
        let options = format!(in alloc;
            " --places 64 --batch 65536 --tries 0 --stats --driver {driver}"
        )?;
        let left = run_spread(&rt, alloc, "queens 4", options.as_str(), "")?;
        assert_eq!(rt; left.status, Status::Done, "{driver}");
        assert_eq!(rt; left.out.bytes(), text.as_bytes(), "{driver}");
    }
    Ok(())
}
