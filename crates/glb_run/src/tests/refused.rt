//! Runs that are refused memory in a batch, at a split and at a merge.
use crate::run_places;
use glb_bags::{ListBag, Refuses, Shy, ShyBag};
use glb_core::Params;
use glb_laws::SatSum;
use glb_queens::{Board, Queens};
use glb_stats::Report;
use glb_tree::RunFault;
use glb_turns::{Rounds, run_turns};
use glb_words::FabricKind;
use std::alloc::{AllocError, Global};
use std::sync::Wait;
use std::test::Fail;
use std::thread::Threads;

/// Refuses the board with one queen, in column 0, or none.
#[derive(Clone, Copy, Drop)]
pub(super) struct RefusesCorner(bool);

impl Refuses<Board> for RefusesCorner {
    fn refuses(&self, item: &Board) -> bool {
        self.0 && item.columns() == [0].as_slice()
    }
}

pub(super) type ShyQueens = Shy<Queens, RefusesCorner>;

pub(super) type Bags = ShyBag<ListBag<ShyQueens>>;

type Run = Result<Report<SatSum>, RunFault>;

/// Whether memory is refused in a batch, at splits and at merges.
const CASES: [(bool, bool, bool); 3] = [
    (true, false, false),
    (false, true, false),
    (false, false, true),
];

const FABRICS: [FabricKind; 2] = [FabricKind::Inbox, FabricKind::Cells];

pub(super) fn shy_queens(case: (bool, bool, bool)) -> ShyQueens {
    let (batch, split, merge) = case;
    Shy {
        inner: Queens::new(4),
        refuse: RefusesCorner(batch),
        split,
        merge,
    }
}

/// The run by turns, of two places of which the first has the root.
fn by_turns(alloc: Global, case: (bool, bool, bool)) -> Result<Run, AllocError> {
    let queens = shy_queens(case);
    let params = Params {
        places: 2,
        batch: 1,
        tries: 0,
        base: 2,
        seed: 0,
        limit: 1099511627776,
    };
    let roots = vec![in alloc; vec![in alloc; queens.inner.root()]?, Vec::new(alloc)]?;
    let mut rounds = Rounds::new();
    let run = run_turns::<ShyQueens, Bags, Rounds>(alloc, &queens, roots, &params, &mut rounds);
    Ok(run)
}

/// The same run on threads.
fn on_threads<R: Threads + Wait + Sync>(
    rt: &R,
    alloc: Global,
    case: (bool, bool, bool),
    fabric: FabricKind,
) -> Result<Run, AllocError> {
    let queens = shy_queens(case);
    let params = Params {
        places: 2,
        batch: 1,
        tries: 0,
        base: 2,
        seed: 0,
        limit: 1099511627776,
    };
    let roots = vec![in alloc; vec![in alloc; queens.inner.root()]?, Vec::new(alloc)]?;
    let run = run_places::<R, ShyQueens, Bags>(rt, alloc, &queens, roots, &params, fabric);
    Ok(run)
}

/// Whether the run had no memory.
fn is_refused(run: &Run) -> bool {
    matches!(run, Err(RunFault::NoMemory))
}

/// Whether the run counted all boards of four queens.
fn is_whole(run: &Run) -> bool {
    match run {
        Ok(report) => report.items == 17 && report.value == SatSum(2),
        Err(_) => false,
    }
}

#[test]
fn turns_that_are_refused_memory_say_so(rt: HostRuntime) -> Result<(), Fail> {
    for case in CASES {
        let run = by_turns(rt.alloc(), case)?;
        assert!(rt; is_refused(&run));
    }
    let run = by_turns(rt.alloc(), (false, false, false))?;
    assert!(rt; is_whole(&run));
    Ok(())
}

#[test]
fn threads_that_are_refused_memory_say_so(rt: HostRuntime) -> Result<(), Fail> {
    for fabric in FABRICS {
        for case in CASES {
            let run = on_threads(&rt, rt.alloc(), case, fabric)?;
            assert!(rt; is_refused(&run));
        }
        let run = on_threads(&rt, rt.alloc(), (false, false, false), fabric)?;
        assert!(rt; is_whole(&run));
    }
    Ok(())
}
