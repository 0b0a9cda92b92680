//! The program's own runs on threads.
use super::reports::KNAPS;
use super::{Left, sink, words_of};
use glb_io::CalmSource;
use glb_run::{Gate, NoGate, Status, top};
use std::alloc::Global;
use std::process::Abort;
use std::sync::Wait;
use std::sync::atomic::{AtomicBool, AtomicU64, Ordering};
use std::test::Fail;
use std::thread::Threads;

/// Runs the words of a line over no text, with this gate.
pub(super) fn run_at<R: Threads + Wait + Abort + Sync, G: Gate + Sync>(
    rt: &R,
    alloc: Global,
    line: &str,
    gate: &G,
) -> Result<Left, Fail> {
    run_over(rt, alloc, (line, ""), gate)
}

/// Runs the words of a line over the text beside it, with this gate.
fn run_over<R: Threads + Wait + Abort + Sync, G: Gate + Sync>(
    rt: &R,
    alloc: Global,
    command: (&str, &str),
    gate: &G,
) -> Result<Left, Fail> {
    let (line, text) = command;
    let words = words_of(alloc, line)?;
    assert!(rt; words.len() < 100);
    let mut source = CalmSource::new(Vec::from_slice(alloc, text.as_bytes())?);
    let mut out = sink(alloc, &[], 16384)?;
    let mut err = sink(alloc, &[], 64)?;
    let status = top(rt, alloc, &words, &mut source, &mut out, &mut err, gate);
    Ok(Left { status, out, err })
}

/// A gate whose second pass looks so many times whether a third one has begun, and notes whether it
/// saw so.
#[derive(Drop)]
struct Second {
    looks: u64,
    passes: AtomicU64,
    met: AtomicBool,
}

impl Gate for Second {
    fn pass(&self) {
        if self.passes.fetch_add(1, Ordering::SeqCst) != 1 {
            return;
        }
        for _ in 0..self.looks {
            if self.passes.load(Ordering::SeqCst) > 2 {
                self.met.store(true, Ordering::SeqCst);
                return;
            }
        }
    }
}

#[test]
fn a_job_runs_on_several_threads(rt: HostRuntime) -> Result<(), Fail> {
    let gate = Second {
        looks: 1_000_000_000,
        passes: AtomicU64::new(0),
        met: AtomicBool::new(false),
    };
    let line = "queens 6 --driver threads --places 2 --batch 1";
    let left = run_at(&rt, rt.alloc(), line, &gate)?;
    assert_eq!(rt; left.status, Status::Done);
    assert_eq!(rt;
        left.out.bytes(),
        "queens 6\nitems 153\nplacements 4\n".as_bytes()
    );
    assert!(rt; gate.met.load(Ordering::SeqCst));
    Ok(())
}

/// Commands on threads, each with the one that gives the same report in one bag.
const ALIKE: [(&str, &str); 5] = [
    ("queens 6 --driver threads --places 8 --batch 1", "queens 6"),
    (
        "queens 6 --driver threads --fabric inbox --places 8 --batch 1",
        "queens 6",
    ),
    (
        "queens 8 --driver threads --places 4 --limit 2057",
        "queens 8",
    ),
    (
        "uts 2000 4 483183820 7 --driver threads --places 4",
        "uts 2000 4 483183820 7",
    ),
    (
        "uts 2000 4 483183820 7 --driver threads --fabric inbox",
        "uts 2000 4 483183820 7",
    ),
];

#[test]
fn threads_report_what_one_bag_reports(rt: HostRuntime) -> Result<(), Fail> {
    let alloc = rt.alloc();
    for (threads, one) in ALIKE {
        let left = run_at(&rt, alloc, threads, &NoGate)?;
        let whole = run_at(&rt, alloc, one, &NoGate)?;
        assert_eq!(rt; left.status, Status::Done, "{threads}");
        assert_eq!(rt; whole.status, Status::Done, "{one}");
        assert_eq!(rt; left.out.bytes(), whole.out.bytes(), "{threads}");
    }
    Ok(())
}

#[test]
fn knapsacks_are_searched_on_threads(rt: HostRuntime) -> Result<(), Fail> {
    for line in [
        "knap --driver threads --places 1",
        "knap --driver threads --places 8",
    ] {
        for (text, report) in KNAPS {
            let left = run_over(&rt, rt.alloc(), (line, text), &NoGate)?;
            assert_eq!(rt; left.status, Status::Done);
            assert_eq!(rt; left.out.bytes(), report.as_bytes());
        }
    }
    Ok(())
}

#[test]
fn places_with_nothing_to_do_count_nothing(rt: HostRuntime) -> Result<(), Fail> {
    let alloc = rt.alloc();
    let options = "--places 64 --batch 65536 --tries 0 --stats";
    let line = format!(in alloc; "queens 4 --driver threads {options}")?;
    let threads = run_at(&rt, alloc, line.as_str(), &NoGate)?;
    let line = format!(in alloc; "queens 4 --driver turns {options}")?;
    let turns = run_at(&rt, alloc, line.as_str(), &NoGate)?;
    assert_eq!(rt; threads.status, Status::Done);
    assert_eq!(rt; threads.out.bytes(), turns.out.bytes());
    Ok(())
}

#[test]
fn threads_stop_at_the_limit(rt: HostRuntime) -> Result<(), Fail> {
    let line = "queens 8 --limit 2056 --driver threads";
    let left = run_at(&rt, rt.alloc(), line, &NoGate)?;
    assert_eq!(rt; left.status, Status::TooMany { items: 2057 });
    assert!(rt; left.out.bytes().is_empty());
    assert_eq!(rt; left.err.bytes(), "glb: more than 2056 items\n".as_bytes());
    Ok(())
}
