mod bags;
mod halves;
mod listed;
mod places;
mod refusals;
mod reports;
mod script;
mod spread;
mod streams;
mod threads;
mod top_threads;
mod trials;
mod turns;

use glb_io::{CalmSource, MemSink, Source};
use glb_run::{Status, top_calm};
use std::alloc::{AllocError, Global};
use std::process::Abort;
use std::test::Fail;

/// The words of a line, which single spaces part.
fn words_of(alloc: Global, line: &str) -> Result<Vec<String>, AllocError> {
    let mut words = Vec::new(alloc);
    for word in line.split(' ') {
        words.push(String::from_str(alloc, word)?)?;
    }
    Ok(words)
}

/// What a call left: its status, and what standard output and standard error took.
#[derive(Drop)]
struct Left {
    status: Status,
    out: MemSink,
    err: MemSink,
}

/// A sink with room for so many bytes, and its calls that fail.
fn sink(alloc: Global, fail: &[(u64, usize)], room: usize) -> Result<MemSink, AllocError> {
    Ok(MemSink::new(Vec::from_slice(alloc, fail)?, vec![in alloc; 0; room]?))
}

/// Runs the words of a line over the source, with the calls of `out` and of `err` that fail.
fn run<S: Source, R: Abort>(
    rt: &R,
    alloc: Global,
    line: &str,
    source: &mut S,
    fail: (&[(u64, usize)], &[(u64, usize)]),
) -> Result<Left, Fail> {
    let words = words_of(alloc, line)?;
    assert!(rt; words.len() < 100);
    let mut out = sink(alloc, fail.0, 16384)?;
    let mut err = sink(alloc, fail.1, 64)?;
    let status = top_calm(alloc, &words, source, &mut out, &mut err);
    Ok(Left { status, out, err })
}

/// Runs the words of a line over the text.
fn run_on<R: Abort>(rt: &R, alloc: Global, line: &str, text: &str) -> Result<Left, Fail> {
    let mut source = CalmSource::new(Vec::from_slice(alloc, text.as_bytes())?);
    run(rt, alloc, line, &mut source, (&[], &[]))
}

const TRIANGLE: &str = "3 3\n0 1\n1 2\n2 0\n";
