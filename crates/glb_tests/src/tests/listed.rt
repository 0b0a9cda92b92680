//! Places played by the numbers of a list.
ghost use Rattle.std.specs.Prelude.{◌≤◌};

use glb_bags::ListBag;
use glb_core::Params;
use glb_laws::SatSum;
use glb_queens::Queens;
use glb_stats::{Counters, Report};
use glb_turns::run_listed;
use std::alloc::Global;
use std::test::Fail;

/// The queens by the numbers of a list, over two places of which the first has the root.
fn play(alloc: Global, n: u32, batch: u64, list: &[u32]) -> Result<Report<SatSum>, Fail>
    requires n { (1 ≤ n) × (n ≤ 16) }
    requires batch { (1 ≤ batch) × (batch ≤ 64) }
{
    let queens = Queens::new(n);
    let params = Params {
        places: 2,
        batch,
        tries: 0,
        base: 2,
        seed: 0,
        limit: 1099511627776,
    };
    let roots = vec![in alloc; vec![in alloc; queens.root()]?, Vec::new(alloc)]?;
    match run_listed::<Queens, ListBag<Queens>>(alloc, &queens, roots, &params, list) {
        Ok(report) => Ok(report),
        Err(_) => Err(Fail::new("the run ended early")),
    }
}

#[test]
fn lists_of_any_length_play_to_the_end(rt: HostRuntime) -> Result<(), Fail> {
    for list in [[2, 2, 7, 4294967295, 0].as_slice(), [].as_slice()] {
        let report = play(rt.alloc(), 6, 2, list)?;
        assert_eq!(rt; report.items, 153);
        assert_eq!(rt; report.value, SatSum(4));
    }
    Ok(())
}

#[test]
fn zeros_follow_an_empty_list(rt: HostRuntime) -> Result<(), Fail> {
    let report = play(rt.alloc(), 1, 64, &[])?;
    let first = Counters {
        items: 2,
        line_asks: 1,
        sleeps: 1,
        ..Counters::ZERO
    };
    assert_eq!(rt;
        report.counters.as_slice(),
        [first, Counters::ZERO].as_slice()
    );
    Ok(())
}
