//! Sources and sinks that fail, long inputs, and how often a sink is called.
ghost use Rattle.std.specs.Prelude.{◌≤◌};

use super::{TRIANGLE, run};
use glb_io::{CalmSource, MemSource};
use glb_run::{GraphKind, Status};
use std::alloc::Global;
use std::process::Abort;
use std::test::Fail;

const REPORT: &str = "queens 8\nitems 2057\nplacements 92\n";

#[test]
fn inputs_may_be_long_but_not_longer(rt: HostRuntime) -> Result<(), Fail> {
    let alloc = rt.alloc();
    let bad_line = Status::BadGraph {
        kind: GraphKind::BadLine,
        line: 1,
    };
    for (count, status, told) in [
        (16777216, bad_line, "glb: line 1: bad line\n"),
        (
            16777217,
            Status::TooLong,
            "glb: input longer than 16777216 bytes\n",
        ),
    ] {
        let mut source = CalmSource::new(vec![in alloc; b'1'; count]?);
        let left = run(&rt, alloc, "dist", &mut source, (&[], &[]))?;
        assert_eq!(rt; left.status, status);
        assert_eq!(rt; left.err.bytes(), told.as_bytes());
    }
    Ok(())
}

/// Runs over a source in pieces, one of whose calls fails, and compares the status and the line.
fn is_told<R: Abort>(
    rt: &R,
    alloc: Global,
    step: usize,
    failing: u64,
    fails: bool,
) -> Result<(), Fail>
    requires { 1 ≤ step }
{
    let bytes = Vec::from_slice(alloc, TRIANGLE.as_bytes())?;
    let mut source = MemSource::new(bytes, step, vec![in alloc; failing]?);
    let left = run(rt, alloc, "dist", &mut source, (&[], &[]))?;
    let (status, told) = if fails {
        (Status::ReadFault, "glb: read fault\n")
    } else {
        (Status::Done, "")
    };
    assert_eq!(rt; left.status, status, "step {step}, call {failing}");
    assert_eq!(rt; left.err.bytes(), told.as_bytes());
    assert_eq!(rt; left.out.bytes().is_empty(), fails);
    Ok(())
}

#[test]
fn each_failing_read_is_told(rt: HostRuntime) -> Result<(), Fail> {
    for failing in 0..18 {
        is_told(&rt, rt.alloc(), 1, failing, failing < 17)?;
    }
    for failing in 0..6 {
        is_told(&rt, rt.alloc(), 4, failing, failing < 5)?;
    }
    for failing in 0..3 {
        is_told(&rt, rt.alloc(), 100, failing, failing < 2)?;
    }
    Ok(())
}

#[test]
fn each_failing_write_is_told(rt: HostRuntime) -> Result<(), Fail> {
    let alloc = rt.alloc();
    for taken in 0..35 {
        let mut source = CalmSource::new(Vec::new(alloc));
        let left = run(&rt, alloc, "queens 8", &mut source, (&[(0, taken)], &[]))?;
        assert_eq!(rt; left.status, Status::WriteFault { taken });
        assert_eq!(rt; left.out.bytes(), &REPORT.as_bytes()[..taken]);
        assert_eq!(rt; left.err.bytes(), "glb: write fault\n".as_bytes());
    }
    Ok(())
}

#[test]
fn a_report_is_written_by_one_call(rt: HostRuntime) -> Result<(), Fail> {
    let alloc = rt.alloc();
    let mut source = CalmSource::new(Vec::new(alloc));
    let left = run(&rt, alloc, "queens 8", &mut source, (&[(1, 0)], &[]))?;
    assert_eq!(rt; left.status, Status::Done);
    assert_eq!(rt; left.out.bytes(), REPORT.as_bytes());
    Ok(())
}

#[test]
fn a_refusal_is_told_by_one_call(rt: HostRuntime) -> Result<(), Fail> {
    let alloc = rt.alloc();
    let told = "glb: word 1: out of range\n".as_bytes();
    for (fail, taken) in [((1, 0), 26), ((0, 5), 5)] {
        let mut source = CalmSource::new(Vec::new(alloc));
        let left = run(&rt, alloc, "queens 17", &mut source, (&[], &[fail]))?;
        assert_eq!(rt; left.status.code(), 2);
        assert_eq!(rt; left.err.bytes(), &told[..taken]);
    }
    Ok(())
}
