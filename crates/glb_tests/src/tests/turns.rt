//! The driver of turns beside the driver of one bag.
use super::{Left, TRIANGLE, run_on};
use glb_bags::ListBag;
use glb_core::Params;
use glb_laws::SatSum;
use glb_queens::Queens;
use glb_run::Status;
use glb_tree::RunFault;
use glb_turns::{Rounds, run_turns};
use std::alloc::{AllocError, Global};
use std::fmt::Write;
use std::process::Abort;
use std::test::Fail;

/// Commands, each with its input.
const JOBS: [(&str, &str); 15] = [
    ("queens 1", ""),
    ("queens 2", ""),
    ("queens 3", ""),
    ("queens 4", ""),
    ("queens 5", ""),
    ("queens 6", ""),
    ("queens 7", ""),
    ("queens 8", ""),
    ("uts 0 8 0 42", ""),
    ("uts 3 8 0 42", ""),
    ("uts 40 4 429496729 7", ""),
    ("dist", "0 0\n"),
    ("dist", TRIANGLE),
    ("dist", "2 0\n"),
    ("dist", "2 3\n0 0\n0 1\n0 1\n"),
];

/// Runs the command by turns, with these options, and compares the report.
fn agree<R: Abort>(
    rt: &R,
    alloc: Global,
    command: (&str, &str),
    options: (u32, u64, u32, u32),
    report: &[u8],
) -> Result<(), Fail> {
    let (job, text) = command;
    let (places, batch, tries, base) = options;
    let line = format!(in alloc;
        "{job} --driver turns --places {places} --batch {batch} --tries {tries} --base {base}"
    )?;
    let left = run_on(rt, alloc, line.as_str(), text)?;
    assert_eq!(rt; left.status, Status::Done, "{line}");
    assert_eq!(rt; left.out.bytes(), report, "{line}");
    Ok(())
}

/// The same for every choice of the options.
fn agree_always<R: Abort>(
    rt: &R,
    alloc: Global,
    command: (&str, &str),
    report: &[u8],
) -> Result<(), Fail> {
    for places in [1, 2, 3, 5, 64] {
        for batch in [1, 2, 64] {
            for tries in [0, 1, 64] {
                for base in [2, 3, 64] {
                    agree(rt, alloc, command, (places, batch, tries, base), report)?;
                }
            }
        }
    }
    Ok(())
}

#[test]
fn turns_report_what_one_bag_reports(rt: HostRuntime) -> Result<(), Fail> {
    let alloc = rt.alloc();
    for (job, text) in JOBS {
        let one = run_on(&rt, alloc, job, text)?;
        assert_eq!(rt; one.status, Status::Done, "{job}");
        agree_always(&rt, alloc, (job, text), one.out.bytes())?;
    }
    Ok(())
}

const NOTHING: &str =
    "asks 0 shrugs 0 denied 0 given 0 got 0 line_asks 0 line_given 0 line_got 0 sent_units 0 got_units 0 sleeps 0 wakes 0";

const SIX_LINES: &str =
    "asks 0 shrugs 0 denied 0 given 0 got 0 line_asks 6 line_given 0 line_got 0 sent_units 0 got_units 0 sleeps 1 wakes 0";

/// The report of four queens where the first of 64 places does all in one batch, and then asks its
/// lines.
fn lone_report(alloc: Global) -> Result<String, AllocError> {
    let mut report = format!(in alloc;
        "queens 4\nitems 17\nplacements 2\nplaces 64\nplace 0 items 17 {SIX_LINES}\n"
    )?;
    for place in 1..64 {
        write!(&mut report, "place {place} items 0 {NOTHING}\n")?;
    }
    write!(&mut report, "total items 17 {SIX_LINES}\n")?;
    Ok(report)
}

#[test]
fn turns_tell_the_counters_of_places(rt: HostRuntime) -> Result<(), Fail> {
    let alloc = rt.alloc();
    let one = run_on(&rt, alloc, "queens 5 --stats", "")?;
    let line = "queens 5 --driver turns --places 1 --tries 0 --stats";
    let alone = run_on(&rt, alloc, line, "")?;
    assert_eq!(rt; alone.out.bytes(), one.out.bytes());
    let line = "queens 4 --driver turns --places 64 --batch 65536 --tries 0 --stats";
    let many = run_on(&rt, alloc, line, "")?;
    let report = lone_report(alloc)?;
    assert_eq!(rt; many.out.bytes(), report.as_bytes());
    Ok(())
}

#[test]
fn turns_stop_at_the_limit(rt: HostRuntime) -> Result<(), Fail> {
    let alloc = rt.alloc();
    let Left { status, out, err } = run_on(&rt, alloc, "queens 8 --limit 2056 --driver turns", "")?;
    assert_eq!(rt; status, Status::TooMany { items: 2057 });
    assert!(rt; out.bytes().is_empty());
    assert_eq!(rt; err.bytes(), "glb: more than 2056 items\n".as_bytes());
    let whole = run_on(&rt, alloc, "queens 8 --limit 2057 --driver turns", "")?;
    assert_eq!(rt;
        whole.out.bytes(),
        "queens 8\nitems 2057\nplacements 92\n".as_bytes()
    );
    Ok(())
}

#[test]
fn three_places_count_six_queens(rt: HostRuntime) -> Result<(), Fail> {
    let alloc = rt.alloc();
    let queens = Queens::new(6);
    let params = Params {
        places: 3,
        batch: 2,
        tries: 1,
        base: 2,
        seed: 0,
        limit: 1099511627776,
    };
    let roots = vec![in alloc;
        vec![in alloc; queens.root()]?,
        Vec::new(alloc),
        Vec::new(alloc),
    ]?;
    let mut rounds = Rounds::new();
    match run_turns::<Queens, ListBag<Queens>, Rounds>(
        alloc,
        &queens,
        roots,
        &params,
        &mut rounds,
    ) {
        Ok(report) => {
            assert_eq!(rt; report.items, 153);
            assert_eq!(rt; report.value, SatSum(4));
        }
        Err(RunFault::TooMany { .. }) => return Err(Fail::new("there are 153 boards")),
        Err(RunFault::NoMemory) => return Err(Fail::new("no memory")),
    }
    Ok(())
}
