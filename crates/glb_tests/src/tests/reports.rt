//! Reports of whole trees, by one bag.
use super::{TRIANGLE, run_on, sink, words_of};
use glb_io::CalmSource;
use glb_laws::{Monoid, SatSum};
use glb_run::{NoGate, Status, top};
use std::test::Fail;

const QUEENS: [(&str, &str); 5] = [
    ("queens 1", "queens 1\nitems 2\nplacements 1\n"),
    ("queens 2", "queens 2\nitems 3\nplacements 0\n"),
    (
        "queens 08 --limit 2057",
        "queens 8\nitems 2057\nplacements 92\n",
    ),
    ("queens 6 --batch=1", "queens 6\nitems 153\nplacements 4\n"),
    (
        "queens 8 --seed=18446744073709551615",
        "queens 8\nitems 2057\nplacements 92\n",
    ),
];

const TREES: [(&str, &str); 3] = [
    (
        "uts 0 8 0 42",
        "uts 0 8 0 42\nitems 1\nnodes 1\nleaves 1\ndepth 0\n",
    ),
    (
        "uts 3 8 0 42",
        "uts 3 8 0 42\nitems 4\nnodes 4\nleaves 3\ndepth 1\n",
    ),
    (
        "uts 2000 4 483183820 7",
        "uts 2000 4 483183820 7\nitems 18361\nnodes 18361\nleaves 14270\ndepth 38\n",
    ),
];

const GRAPHS: [(&str, &str); 5] = [
    ("0 0\n", "dist 0 0\nitems 1\npairs 0\nsum 0\ngreatest 0\n"),
    (TRIANGLE, "dist 3 3\nitems 4\npairs 6\nsum 9\ngreatest 2\n"),
    ("2 0\n", "dist 2 0\nitems 3\npairs 0\nsum 0\ngreatest 0\n"),
    (
        "2 3\n0 0\n0 1\n0 1\n",
        "dist 2 3\nitems 3\npairs 1\nsum 1\ngreatest 1\n",
    ),
    (
        "2 1\n0 1",
        "dist 2 1\nitems 3\npairs 1\nsum 1\ngreatest 1\n",
    ),
];

pub(super) const KNAPS: [(&str, &str); 3] = [
    ("3 4\n3 3\n2 2\n2 2\n", "knap 3 4\nbest 4\n"),
    ("2 1\n2 5\n3 6\n", "knap 2 1\nbest 0\n"),
    ("0 0\n", "knap 0 0\nbest 0\n"),
];

#[test]
fn reports_are_those_of_the_whole_trees(rt: HostRuntime) -> Result<(), Fail> {
    for (line, report) in QUEENS {
        let left = run_on(&rt, rt.alloc(), line, "")?;
        assert_eq!(rt; left.status, Status::Done, "{line}");
        assert_eq!(rt; left.out.bytes(), report.as_bytes(), "{line}");
        assert!(rt; left.err.bytes().is_empty(), "{line}");
    }
    for (line, report) in TREES {
        let left = run_on(&rt, rt.alloc(), line, "")?;
        assert_eq!(rt; left.status, Status::Done, "{line}");
        assert_eq!(rt; left.out.bytes(), report.as_bytes(), "{line}");
    }
    Ok(())
}

#[test]
fn reports_of_graphs_tell_their_distances(rt: HostRuntime) -> Result<(), Fail> {
    for (text, report) in GRAPHS {
        let left = run_on(&rt, rt.alloc(), "dist", text)?;
        assert_eq!(rt; left.status, Status::Done);
        assert_eq!(rt; left.out.bytes(), report.as_bytes());
        assert!(rt; left.err.bytes().is_empty());
    }
    Ok(())
}

#[test]
fn reports_of_knapsacks_tell_their_best(rt: HostRuntime) -> Result<(), Fail> {
    for line in ["knap", "knap --driver turns --places=3 --limit 100"] {
        for (text, report) in KNAPS {
            let left = run_on(&rt, rt.alloc(), line, text)?;
            assert_eq!(rt; left.status, Status::Done);
            assert_eq!(rt; left.out.bytes(), report.as_bytes());
            assert!(rt; left.err.bytes().is_empty());
        }
    }
    Ok(())
}

#[test]
fn one_bag_is_told_as_one_place(rt: HostRuntime) -> Result<(), Fail> {
    let alloc = rt.alloc();
    let lone =
        "asks 0 shrugs 0 denied 0 given 0 got 0 line_asks 0 line_given 0 line_got 0 sent_units 0 got_units 0 sleeps 1 wakes 0";
    let left = run_on(&rt, alloc, "queens 5 --stats", "")?;
    let text = format!(in alloc;
        "queens 5\nitems 54\nplacements 10\nplaces 1\nplace 0 items 54 {lone}\ntotal items 54 {lone}\n"
    )?;
    assert_eq!(rt; left.out.bytes(), text.as_bytes());
    Ok(())
}

#[test]
fn a_published_tree_has_its_nodes(rt: HostRuntime) -> Result<(), Fail> {
    let alloc = rt.alloc();
    let words = words_of(alloc, "uts 2000 8 268167021 42")?;
    assert!(rt; words.len() < 100);
    let mut source = CalmSource::new(Vec::new(alloc));
    let mut out = sink(alloc, &[], 200)?;
    let mut err = sink(alloc, &[], 0)?;
    let status = top(&rt, alloc, &words, &mut source, &mut out, &mut err, &NoGate);
    assert_eq!(rt; status.code(), 0);
    let report =
        "uts 2000 8 268167021 42\nitems 4112897\nnodes 4112897\nleaves 3599034\ndepth 1572\n";
    assert_eq!(rt; out.bytes(), report.as_bytes());
    Ok(())
}

#[test]
fn sums_stop_at_their_last_value(rt: HostRuntime) {
    let most = SatSum(u64::MAX);
    assert_eq!(rt; most.combine(&SatSum(1)), most);
}
