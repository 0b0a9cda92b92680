//! A run of whole trees in one bag.
ghost use Rattle.std.specs.Prelude.{◌≡◌, ◌≤◌, vec_len, IfOk, IfErr, IsPermutation};
ghost use Rattle.glb_tree.specs.Runs.{IsOutcome, HasCause, PassesByAtMost};

use glb_laws::{Bag, MOST_BATCH, MOST_ITEMS, Monoid, NoMemory, Program};
use std::alloc::Global;

/// What a run over whole trees gives: the number of their nodes, and the combination of the values.
#[derive(Clone, Copy, Debug, PartialEq, Eq, Drop)]
pub struct Outcome<V> {
    pub items: u64,
    pub value: V,
}

/// Why a run ended early.
#[derive(Clone, Copy, Debug, PartialEq, Eq)]
pub enum RunFault {
    /// The trees have more nodes than the limit. So many were expanded.
    TooMany { items: u64 },
    /// There was no memory.
    NoMemory,
}

/// A bag of these items, of which the first is added last. Where there is no memory the items are
/// dropped.
pub fn bag_of<P: Program, B: Bag<P>>(
    alloc: Global,
    program: &P,
    roots: Vec<P::Item>,
) -> Result<B, NoMemory>
    ensures items { IfOk result (λ bag. IsPermutation roots.items (B.items bag)) }
    ensures fits { IfOk result (λ bag. B.fits bag program.now) }
{
    let mut bag = B::empty(alloc, program);
    let mut left = roots;
    while let Some(root) = left.pop() {
        match bag.add(root) {
            Ok(()) => {}
            Err(_) => return Err(NoMemory),
        }
    }
    Ok(bag)
}

/// Processes the trees of all roots in one bag, in batches of at most `n` items. It returns also
/// where a tree has no end: the limit ends the run after the batch that passed it.
pub fn run_one<P: Program, B: Bag<P>>(
    alloc: Global,
    program: &P,
    roots: Vec<P::Item>,
    n: u64,
    limit: u64,
) -> Result<Outcome<P::Value>, RunFault>
    requires batch { (1 ≤ n) × (n ≤ MOST_BATCH) }
    requires limited { (1 ≤ limit) × (limit ≤ MOST_ITEMS) }
    requires roots { vec_len roots ≤ 100000 }
    ensures ok { IfOk result
        (IsOutcome (P.children program.now) (P.value program.now) P.Value.unit P.Value.combine
        roots.items limit) }
    ensures fault { IfErr result (HasCause (P.children program.now) roots.items limit) }
    ensures last_batch { IfErr result (PassesByAtMost n limit) }
{
    let Ok(mut bag) = bag_of::<P, B>(alloc, program, roots) else {
        return Err(RunFault::NoMemory);
    };
    let mut items = 0;
    let mut value = P::Value::unit();
    loop {
        match bag.process(program, n, &mut value) {
            Ok(0) => return Ok(Outcome { items, value }),
            Ok(done) => {
                items += done;
                if items > limit {
                    return Err(RunFault::TooMany { items });
                }
            }
            Err(_) => return Err(RunFault::NoMemory),
        }
    }
}
