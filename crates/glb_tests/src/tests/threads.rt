//! Places that are played on threads: that they are played at once, and what they count.
ghost use Rattle.std.specs.Prelude.{◌≡◌, ◌≤◌, All, IfOk, vec_len};
ghost use Rattle.glb_stats.specs.Balances.{HasSmallUnits};

use glb_bags::ListBag;
use glb_core::Params;
use glb_laws::{NoMemory, Program, SatSum};
use glb_queens::{Board, Queens};
use glb_run::run_places;
use glb_stats::{Counters, Report, StatJob, balance};
use glb_tree::RunFault;
use glb_turns::{Rounds, run_turns};
use glb_words::FabricKind;
use std::alloc::Global;
use std::process::Abort;
use std::sync::Wait;
use std::sync::atomic::{AtomicBool, Ordering};
use std::test::Fail;
use std::thread::Threads;

const FABRICS: [FabricKind; 2] = [FabricKind::Inbox, FabricKind::Cells];

/// Whether a leaf's expansion has begun, and whether it saw that of the other one begin.
#[derive(Drop)]
struct Leaf {
    begun: AtomicBool,
    met: AtomicBool,
}

impl Leaf {
    fn new() -> Leaf {
        Leaf {
            begun: AtomicBool::new(false),
            met: AtomicBool::new(false),
        }
    }

    /// Begins, and looks so many times whether the other one has begun.
    fn meet(&self, other: &Leaf, looks: u64) {
        self.begun.store(true, Ordering::SeqCst);
        for _ in 0..looks {
            if other.begun.load(Ordering::SeqCst) {
                self.met.store(true, Ordering::SeqCst);
                return;
            }
        }
    }

    fn has_met(&self) -> bool {
        self.met.load(Ordering::SeqCst)
    }
}

/// A root, which is 0, with the leaves 1 and 2, whose expansions look for each other.
#[derive(Drop)]
struct Meeting {
    looks: u64,
    first: Leaf,
    second: Leaf,
}

impl Meeting {
    fn new(looks: u64) -> Meeting {
        Meeting {
            looks,
            first: Leaf::new(),
            second: Leaf::new(),
        }
    }
}

impl Program for Meeting {
    ghost use Rattle.std.specs.Prelude.{[], ◌∷◌, ◌==◌, if◌then◌else◌};
    ghost use Rattle.std.proofs.Common.{arith};
    ghost use Rattle.glb_laws.specs.Bounded.{sat_sum};

    type Item = u64;

    type Value = SatSum;

    ghost children = { λ _ x. (if x == 0 then 1 ∷ 2 ∷ [] else []) };

    ghost value = { λ _ x. sat_sum 1 };

    ghost value_proper = { λ _ x. Prim.omega arith };

    fn expand(&self, item: &u64, out: &mut Vec<u64>) -> Result<SatSum, NoMemory> {
        let leaf = *item;
        if leaf == 0 {
            let old = out.len();
            out.push(1)?;
            match out.push(2) {
                Ok(()) => {}
                Err(_) => {
                    out.truncate(old);
                    return Err(NoMemory);
                }
            }
        } else if leaf == 1 {
            self.first.meet(&self.second, self.looks);
        } else {
            self.second.meet(&self.first, self.looks);
        }
        Ok(SatSum(1))
    }
}

const TWO_PLACES: Params = Params {
    places: 2,
    batch: 1,
    tries: 1,
    base: 2,
    seed: 0,
    limit: 3,
};

#[test]
fn two_places_expand_at_the_same_time(rt: HostRuntime) -> Result<(), Fail> {
    let alloc = rt.alloc();
    for fabric in FABRICS {
        let meeting = Meeting::new(1_000_000_000);
        let roots = vec![in alloc; vec![in alloc; 0u64]?, Vec::new(alloc)]?;
        match run_places::<_, Meeting, ListBag<Meeting>>(
            &rt,
            alloc,
            &meeting,
            roots,
            &TWO_PLACES,
            fabric,
        ) {
            Ok(report) => assert_eq!(rt; report.items, 3),
            Err(_) => return Err(Fail::new("the run ended early")),
        }
        assert!(rt; meeting.first.has_met());
        assert!(rt; meeting.second.has_met());
    }
    Ok(())
}

#[test]
fn places_in_turn_do_not_meet(rt: HostRuntime) -> Result<(), Fail> {
    let alloc = rt.alloc();
    let meeting = Meeting::new(1000);
    let roots = vec![in alloc; vec![in alloc; 0u64]?, Vec::new(alloc)]?;
    let mut rounds = Rounds::new();
    match run_turns::<Meeting, ListBag<Meeting>, Rounds>(
        alloc,
        &meeting,
        roots,
        &TWO_PLACES,
        &mut rounds,
    ) {
        Ok(report) => assert_eq!(rt; report.items, 3),
        Err(_) => return Err(Fail::new("the run ended early")),
    }
    assert!(rt; meeting.first.has_met() != meeting.second.has_met());
    Ok(())
}

/// The root at the first place, and none elsewhere.
fn roots_at_first(alloc: Global, queens: &Queens, places: u32) -> Result<Vec<Vec<Board>>, RunFault>
    ensures { IfOk result (λ roots. vec_len roots ≡ places) }
{
    let mut roots = Vec::new(alloc);
    for place in 0..places {
        let mut list = Vec::new(alloc);
        if place == 0 {
            match list.push(queens.root()) {
                Ok(()) => {}
                Err(_) => return Err(RunFault::NoMemory),
            }
        }
        match roots.push(list) {
            Ok(()) => {}
            Err(_) => return Err(RunFault::NoMemory),
        }
    }
    Ok(roots)
}

/// A run of n queens from place 0.
fn run_queens<R: Threads + Wait + Sync>(
    rt: &R,
    alloc: Global,
    fabric: FabricKind,
    n: u32,
    size: (u32, u64, u32, u64),
) -> Result<Report<SatSum>, RunFault>
    requires n { (1 ≤ n) × (n ≤ 16) }
    requires places { (1 ≤ size.0) × (size.0 ≤ 64) }
    requires batch { (1 ≤ size.1) × (size.1 ≤ 65536) }
    requires tries { size.2 ≤ 64 }
    requires limit { (1 ≤ size.3) × (size.3 ≤ 1000000) }
    ensures { IfOk result (λ report. All HasSmallUnits report.counters.items) }
{
    let (places, batch, tries, limit) = size;
    let queens = Queens::new(n);
    let roots = roots_at_first(alloc, &queens, places)?;
    let params = Params {
        places,
        batch,
        tries,
        base: 2,
        seed: 0,
        limit,
    };
    run_places::<R, Queens, ListBag<Queens>>(rt, alloc, &queens, roots, &params, fabric)
}

/// Whether the counters of eight places, of which the first one had the root, balance. Each place
/// has three lifelines.
fn eight_balance<R: Abort>(
    rt: &R,
    alloc: Global,
    counters: &[Counters],
    items: u64,
) -> Result<bool, Fail>
    requires { All HasSmallUnits counters.now }
{
    let mut awake = vec![in alloc; false; 8]?;
    awake[0] = true;
    let mut roots = vec![in alloc; 0u32; 8]?;
    roots[0] = 1;
    let job = StatJob {
        items,
        degree: vec![in alloc; 3u32; 8]?,
        awake,
        roots,
    };
    assert_eq!(rt; counters.len(), 8);
    Ok(balance(counters, &job))
}

#[test]
fn eight_places_count_six_queens_each_time(rt: HostRuntime) -> Result<(), Fail> {
    let alloc = rt.alloc();
    for fabric in FABRICS {
        for _ in 0..200 {
            match run_queens(&rt, alloc, fabric, 6, (8, 1, 1, 153)) {
                Ok(report) => {
                    assert_eq!(rt; report.items, 153);
                    assert_eq!(rt; report.value, SatSum(4));
                    assert!(rt; eight_balance(&rt, alloc, &report.counters, 153)?);
                }
                Err(_) => return Err(Fail::new("the run ended early")),
            }
        }
    }
    Ok(())
}

#[test]
fn one_batch_leaves_nothing_for_63_places(rt: HostRuntime) -> Result<(), Fail> {
    let lone = Counters {
        items: 17,
        line_asks: 6,
        sleeps: 1,
        ..Counters::ZERO
    };
    for fabric in FABRICS {
        match run_queens(&rt, rt.alloc(), fabric, 4, (64, 65536, 0, 17)) {
            Ok(report) => {
                assert_eq!(rt; report.items, 17);
                assert_eq!(rt; report.value, SatSum(2));
                assert_eq!(rt; report.counters.len(), 64);
                for (place, counters) in report.counters.iter().enumerate() {
                    let want = if place == 0 { lone } else { Counters::ZERO };
                    assert_eq!(rt; *counters, want, "{place}");
                }
            }
            Err(_) => return Err(Fail::new("the run ended early")),
        }
    }
    Ok(())
}

#[test]
fn more_boards_than_the_limit_end_the_run(rt: HostRuntime) -> Result<(), Fail> {
    for fabric in FABRICS {
        for places in [1, 2, 4] {
            match run_queens(&rt, rt.alloc(), fabric, 8, (places, 64, 1, 2056)) {
                Ok(_) => return Err(Fail::new("the run went on")),
                Err(fault) => assert_eq!(rt; fault, RunFault::TooMany { items: 2057 }),
            }
            match run_queens(&rt, rt.alloc(), fabric, 8, (places, 64, 1, 2057)) {
                Ok(report) => assert_eq!(rt; report.value, SatSum(92)),
                Err(_) => return Err(Fail::new("the run ended early")),
            }
        }
    }
    Ok(())
}
