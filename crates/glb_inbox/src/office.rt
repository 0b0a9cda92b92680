//! The making of the table, with a seat for each place.
ghost use Rattle.std.specs.Prelude.{◌≡◌, ◌+◌, ◌<◌, ◌≤◌, ◌^◌, ℕ, [], ◌∷◌, length, map, sum_by, IfOk};
ghost use Rattle.glb_cube.specs.Lines.{IsCube};
ghost use Rattle.glb_rules.specs.Setups.{IsWithinLimits};
ghost use Rattle.glb_inbox.specs.inner.Begins.{first_members, live_of};

use super::cuts::Deal;
use super::rule::{Slip, Start, WordTable, Words};
use glb_core::Params;
use glb_cube::Lines;
use glb_laws::{Bag, Program};
use std::alloc::{AllocError, Global};
use std::snapshot::Snapshot;

fn count_awake<P: Program, B: Bag<P>>(bags: &[B]) -> u64
    requires { length bags.now < 2 ^ 32 }
    ensures { result ≡ sum_by (λ b. live_of (B.items b)) bags.now }
{
    let mut live = 0;
    for bag in bags {
        live += bag.len().min(1);
    }
    live
}

fn snapshots<B>(alloc: Global, bags: &[B]) -> Result<Vec<Snapshot<B>>, AllocError>
    ensures { IfOk result (λ v. map (λ s. s.value) v.items ≡ bags.now) }
{
    let mut all = Vec::new(alloc);
    for bag in bags {
        all.push(Snapshot::of(bag))?;
    }
    Ok(all)
}

/// A seat for the next place.
pub fn deal<P: Program, B: Bag<P>>(
    words: &Words<P, B, P::Item>,
    dealer: &mut Slip<P::Item>,
) -> Slip<P::Item>
    requires table { (dealer.old.table_id ≡ words.now.table_id) × (0 < words.now.table_id.words) }
    requires some { (x : _) × (xs : _) × (dealer.old.me.0 ≡ x ∷ xs) }
    ensures table { (dealer.new.table_id ≡ dealer.old.table_id)
        × (result.table_id ≡ dealer.old.table_id) }
    ensures dealt { (x : _) × (xs : _) × (dealer.old.me.0 ≡ x ∷ xs)
        × (dealer.new.me ≡ (xs, dealer.old.me.1)) × (result.me ≡ (x ∷ [], [])) }
{
    words.split_seat::<Deal>(dealer)
}

/// The table at the start, and a seat that has all places.
pub fn open_table<P: Program, B: Bag<P>>(
    alloc: Global,
    program: &P,
    params: Params,
    lines: &Lines,
    bags: &[B],
) -> Result<(WordTable<P, B, P::Item>, Slip<P::Item>), AllocError>
    requires limits { IsWithinLimits params }
    requires lines { (lines.now.places ≡ params.places) × IsCube lines.now }
    requires bags { length bags.now ≡ params.places }
    ensures words { IfOk result (λ r. r.0.shared.table_id.words ≡ 3) }
    ensures key { IfOk result (λ r. (r.0.shared.key.program.value ≡ program.now)
        × (r.0.shared.key.lines.value ≡ lines.now) × (r.0.shared.key.params ≡ params)
        × (map (λ s. s.value) r.0.shared.key.bags.items ≡ bags.now)) }
    ensures dealer { IfOk result (λ r. (r.1.table_id ≡ r.0.shared.table_id)
        × (r.1.me ≡ (first_members P.children B.items r.0.shared.key, []))) }
{
    let about = Start {
        program: Snapshot::of(program),
        lines: Snapshot::of(lines),
        params,
        bags: snapshots(alloc, bags)?,
    };
    let words = [count_awake::<P, B>(bags), 0, 0];
    WordTable::<P, B, P::Item>::of_words(alloc, &words, &about)
}
