//! Refusals, each with the line that tells of it.
use super::run_on;
use glb_run::{GraphKind, Status, WordKind};
use std::alloc::Global;
use std::process::Abort;
use std::test::Fail;

/// Words with a fault of a kind, the number of the faulty word, and the line.
const WORDS: [(&str, WordKind, u32, &str); 13] = [
    (
        "queen 8",
        WordKind::UnknownJob,
        0,
        "glb: word 0: unknown job\n",
    ),
    ("queens", WordKind::Missing, 1, "glb: word 1: missing\n"),
    (
        "queens 17",
        WordKind::OutOfRange,
        1,
        "glb: word 1: out of range\n",
    ),
    (
        "queens 08x",
        WordKind::NotNumber,
        1,
        "glb: word 1: not a number\n",
    ),
    (
        "queens 8 9",
        WordKind::UnknownOption,
        2,
        "glb: word 2: unknown option\n",
    ),
    (
        "queens 8 --places",
        WordKind::Missing,
        3,
        "glb: word 3: missing\n",
    ),
    (
        "queens 8 --places 65",
        WordKind::OutOfRange,
        3,
        "glb: word 3: out of range\n",
    ),
    (
        "queens 8 --batch=1 --batch 2",
        WordKind::Repeated,
        3,
        "glb: word 3: repeated\n",
    ),
    (
        "queens 8 --driver two",
        WordKind::BadChoice,
        3,
        "glb: word 3: bad choice\n",
    ),
    (
        "queens 8 --driver threads",
        WordKind::Calm,
        3,
        "glb: word 3: threads not allowed\n",
    ),
    (
        "queens 8 --fabric=boxes",
        WordKind::BadChoice,
        2,
        "glb: word 2: bad choice\n",
    ),
    (
        "trial 4294967296",
        WordKind::OutOfRange,
        1,
        "glb: word 1: out of range\n",
    ),
    (
        "knap --driver threads",
        WordKind::Calm,
        2,
        "glb: word 2: threads not allowed\n",
    ),
];

/// Graph text with a fault of a kind, its line, and the line that tells of it.
const GRAPHS: [(&str, GraphKind, u64, &str); 6] = [
    ("2 1\n0 ", GraphKind::BadLine, 2, "glb: line 2: bad line\n"),
    ("2 1\n", GraphKind::BadEnd, 2, "glb: line 2: bad end\n"),
    (
        "2 1\n0 2\n",
        GraphKind::BadLine,
        2,
        "glb: line 2: bad line\n",
    ),
    (
        "2 1\n0 1\n\n",
        GraphKind::BadEnd,
        3,
        "glb: line 3: bad end\n",
    ),
    ("", GraphKind::BadEnd, 1, "glb: line 1: bad end\n"),
    (
        "20001 0\n",
        GraphKind::TooLarge,
        1,
        "glb: line 1: too large\n",
    ),
];

/// Knapsack text with a fault of a kind, its line, and the line that tells of it.
const KNAPS: [(&str, GraphKind, u64, &str); 4] = [
    (
        "1 1\n0 5\n",
        GraphKind::BadLine,
        2,
        "glb: line 2: bad line\n",
    ),
    ("65 0\n", GraphKind::TooLarge, 1, "glb: line 1: too large\n"),
    ("2 1\n2 5\n", GraphKind::BadEnd, 3, "glb: line 3: bad end\n"),
    ("", GraphKind::BadEnd, 1, "glb: line 1: bad end\n"),
];

/// Commands whose trees have more nodes than the limit, how many were expanded, and the line.
const LARGE: [(&str, u64, &str); 3] = [
    ("queens 8 --limit 2056", 2057, "glb: more than 2056 items\n"),
    (
        "uts 1 1 2147483648 7 --limit 100",
        128,
        "glb: more than 100 items\n",
    ),
    ("trial 7 --limit 1000", 1024, "glb: more than 1000 items\n"),
];

/// Compares the status and the line, where no report was written.
fn is_refused<R: Abort>(
    rt: &R,
    alloc: Global,
    command: (&str, &str),
    status: Status,
    told: &str,
) -> Result<(), Fail> {
    let (line, text) = command;
    let left = run_on(rt, alloc, line, text)?;
    assert_eq!(rt; left.status, status, "{line}");
    assert_eq!(rt; left.err.bytes(), told.as_bytes(), "{line}");
    assert!(rt; left.out.bytes().is_empty(), "{line}");
    Ok(())
}

#[test]
fn faulty_words_are_told(rt: HostRuntime) -> Result<(), Fail> {
    for (line, kind, word, told) in WORDS {
        let status = Status::BadWords { kind, word };
        is_refused(&rt, rt.alloc(), (line, ""), status, told)?;
    }
    Ok(())
}

#[test]
fn faults_of_graph_text_are_told(rt: HostRuntime) -> Result<(), Fail> {
    for (text, kind, line, told) in GRAPHS {
        let status = Status::BadGraph { kind, line };
        is_refused(&rt, rt.alloc(), ("dist", text), status, told)?;
    }
    Ok(())
}

#[test]
fn faults_of_knapsack_text_are_told(rt: HostRuntime) -> Result<(), Fail> {
    for (text, kind, line, told) in KNAPS {
        let status = Status::BadKnap { kind, line };
        is_refused(&rt, rt.alloc(), ("knap", text), status, told)?;
        assert_eq!(rt; status.code(), 9);
    }
    Ok(())
}

#[test]
fn a_search_above_the_limit_is_told(rt: HostRuntime) -> Result<(), Fail> {
    let status = Status::TooMany { items: 2 };
    let command = ("knap --limit 1", "3 4\n3 3\n2 2\n2 2\n");
    is_refused(&rt, rt.alloc(), command, status, "glb: more than 1 items\n")
}

#[test]
fn trees_above_the_limit_are_told(rt: HostRuntime) -> Result<(), Fail> {
    for (line, items, told) in LARGE {
        is_refused(&rt, rt.alloc(), (line, ""), Status::TooMany { items }, told)?;
    }
    Ok(())
}
