//! Places that are not played side by side.
ghost use Rattle.std.specs.Prelude.{◌≡◌, IfOk, vec_len};

use crate::beside::Muster;
use crate::over_cells::run_over_cells;
use crate::over_inboxes::run_over_inboxes;
use glb_bags::ListBag;
use glb_core::Params;
use glb_laws::{NoMemory, SatSum};
use glb_queens::{Board, Queens};
use glb_stats::Report;
use glb_tree::RunFault;
use std::alloc::Global;
use std::test::Fail;

const PARAMS: Params = Params {
    places: 2,
    batch: 1,
    tries: 0,
    base: 2,
    seed: 0,
    limit: 1_099_511_627_776,
};

/// The root at the first of two places.
fn roots(alloc: Global, queens: &Queens) -> Result<Vec<Vec<Board>>, NoMemory>
    ensures { IfOk result (λ lists. vec_len lists ≡ 2) }
{
    let first = vec![in alloc; queens.root()]?;
    Ok(vec![in alloc; first, Vec::new(alloc)]?)
}

/// The items and the value of a run.
fn told(played: Result<Report<SatSum>, RunFault>) -> Result<(u64, u64), Fail> {
    match played {
        Ok(report) => Ok((report.items, report.value.0)),
        Err(_) => Err(Fail::new("the run was refused")),
    }
}

/// Two places that wait for a third, which never begins, stop and take turns.
#[test]
fn places_that_are_too_few_take_turns_over_cells(rt: HostRuntime) -> Result<(), Fail> {
    let alloc = rt.alloc();
    let queens = Queens::new(4);
    let roots = roots(alloc, &queens)?;
    let three = Muster::new(3);
    let played = run_over_cells::<_, Queens, ListBag<Queens>>(
        &rt, alloc, &queens, roots, &PARAMS, &three,
    );
    assert_eq!(rt; told(played)?, (17, 2));
    Ok(())
}

#[test]
fn places_that_are_too_few_take_turns_over_inboxes(rt: HostRuntime) -> Result<(), Fail> {
    let alloc = rt.alloc();
    let queens = Queens::new(4);
    let roots = roots(alloc, &queens)?;
    let three = Muster::new(3);
    let played = run_over_inboxes::<_, Queens, ListBag<Queens>>(
        &rt, alloc, &queens, roots, &PARAMS, &three,
    );
    assert_eq!(rt; told(played)?, (17, 2));
    Ok(())
}
