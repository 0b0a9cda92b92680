//! A trial, whose answers another program gave.
use super::run_on;
use super::top_threads::run_at;
use glb_run::{NoGate, Status};
use std::test::Fail;

const REPORT: &str =
    "trial 7\nuts 2000 4 483183820 7\nitems 18361\nnodes 18361\nleaves 14270\ndepth 38\ndist 1000 5000\nitems 1001\npairs 987050\nsum 4435905\ngreatest 11\n";

#[test]
fn a_trial_is_a_tree_and_a_graph(rt: HostRuntime) -> Result<(), Fail> {
    for line in [
        "trial 7",
        "trial 7 --fabric inbox --limit 18361",
        "trial 7 --driver turns",
        "trial 7 --driver turns --places 3",
    ] {
        let left = run_on(&rt, rt.alloc(), line, "")?;
        assert_eq!(rt; left.status, Status::Done, "{line}");
        assert_eq!(rt; left.out.bytes(), REPORT.as_bytes(), "{line}");
        assert!(rt; left.err.bytes().is_empty(), "{line}");
    }
    Ok(())
}

#[test]
fn threads_report_the_same_trial(rt: HostRuntime) -> Result<(), Fail> {
    for line in [
        "trial 7 --driver threads",
        "trial 7 --driver threads --fabric inbox",
        "trial 7 --driver threads --places 3",
    ] {
        let left = run_at(&rt, rt.alloc(), line, &NoGate)?;
        assert_eq!(rt; left.status, Status::Done, "{line}");
        assert_eq!(rt; left.out.bytes(), REPORT.as_bytes(), "{line}");
        assert!(rt; left.err.bytes().is_empty(), "{line}");
    }
    Ok(())
}
