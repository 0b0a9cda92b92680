//! The steps on the four words, each with the seat of the place that steps.
ghost use Rattle.std.specs.Prelude.{◌≡◌, ℕ, ◌+◌, ◌<◌, ◌≤◌, ◌⊎◌, ◌^◌, [], max, IfOk};
ghost use Rattle.glb_bound.specs.inner.Rule.{IsGood, Ends};
ghost use Rattle.glb_bound.specs.inner.Views.{fresh, joined, has_read, has_raised, has_claimed};
ghost use Rattle.glb_bound.specs.inner.Views.{has_counted, has_halted, has_looked, next_of};

use super::plays::{Claim, Count, Deal, Gather, Halt, Look, Raise, Read};
use super::rule::{Slip, Start, WordTable, Words};
use std::alloc::{AllocError, Global};

/// The greatest value found so far.
pub fn read(words: &Words, seat: &mut Slip) -> u64
    requires table { (seat.old.table_id ≡ words.now.table_id) × (3 < words.now.table_id.words) }
    ensures table { seat.new.table_id ≡ seat.old.table_id }
    ensures moved { seat.new.me ≡ (has_read result seat.old.me.0, seat.old.me.1) }
{
    words.load::<Read>(seat, 0)
}

/// Raises the greatest value. The one before.
pub fn raise(words: &Words, seat: &mut Slip, value: u64) -> u64
    requires table { (seat.old.table_id ≡ words.now.table_id) × (3 < words.now.table_id.words) }
    requires one { seat.old.me.0.places ≡ 1 }
    ensures table { seat.new.table_id ≡ seat.old.table_id }
    ensures moved { seat.new.me ≡ (has_raised value result seat.old.me.0, seat.old.me.1) }
{
    words.fetch_max::<Raise>(seat, 0, value)
}

/// The next number of the frontier, or one that the frontier does not have.
pub fn claim(words: &Words, seat: &mut Slip) -> u64
    requires table { (seat.old.table_id ≡ words.now.table_id) × (3 < words.now.table_id.words) }
    requires one { (seat.old.me.0.places ≡ 1) × (seat.old.me.0.ended ≡ 0) }
    ensures table { seat.new.table_id ≡ seat.old.table_id }
    ensures moved { seat.new.me ≡ (has_claimed result seat.old.me.0, seat.old.me.1) }
    ensures above { next_of seat.old.me.0.claimed ≤ result }
{
    words.fetch_add::<Claim>(seat, 1, 1)
}

/// Adds to the items visited. How many there are then.
pub fn count(words: &Words, seat: &mut Slip, more: u64) -> u64
    requires table { (seat.old.table_id ≡ words.now.table_id) × (3 < words.now.table_id.words) }
    requires one { seat.old.me.0.places ≡ 1 }
    requires few { seat.old.me.0.counted + more ≤ 2 ^ 41 }
    ensures table { seat.new.table_id ≡ seat.old.table_id }
    ensures moved { (n : ℕ) × (result ≡ n + more)
        × (seat.new.me ≡ (has_counted more n seat.old.me.0, seat.old.me.1)) }
    ensures own { seat.old.me.0.counted + more ≤ result }
{
    words.fetch_add::<Count>(seat, 2, more) + more
}

/// Tells all places to stop: 1 where the limit is passed, 2 where there is no memory.
pub fn halt(words: &Words, seat: &mut Slip, code: u64)
    requires table { (seat.old.table_id ≡ words.now.table_id) × (3 < words.now.table_id.words) }
    requires one { seat.old.me.0.places ≡ 1 }
    requires cause { (2 ≤ code) ⊎ (words.now.key.limit < seat.old.me.0.total) }
    ensures table { seat.new.table_id ≡ seat.old.table_id }
    ensures moved { (n : ℕ) × (seat.new.me ≡ (has_halted code n seat.old.me.0, seat.old.me.1)) }
{
    words.fetch_max::<Halt>(seat, 3, code);
}

/// The stop code.
pub fn halted(words: &Words, seat: &mut Slip) -> u64
    requires table { (seat.old.table_id ≡ words.now.table_id) × (3 < words.now.table_id.words) }
    ensures table { seat.new.table_id ≡ seat.old.table_id }
    ensures moved { seat.new.me ≡ (has_looked result seat.old.me.0, seat.old.me.1) }
{
    words.load::<Look>(seat, 3)
}

/// The table at the start, and a seat that stands for all places.
pub fn open_table(alloc: Global, start: Start) -> Result<(WordTable, Slip), AllocError>
    requires { IsGood start }
    ensures words { IfOk result (λ r. (r.0.shared.table_id.words ≡ 4)
        × (r.0.shared.table_id.slots ≡ 0) × (r.0.shared.key ≡ start)) }
    ensures dealer { IfOk result (λ r. (r.1.table_id ≡ r.0.shared.table_id)
        × (r.1.me ≡ (fresh start.places start.frontier, []))) }
{
    WordTable::of_words(alloc, &[start.best, 0, start.items, 0], &start)
}

/// A seat for the next place.
pub fn deal(words: &Words, dealer: &mut Slip) -> Slip
    requires table { (dealer.old.table_id ≡ words.now.table_id) × (3 < words.now.table_id.words) }
    requires some { (n : ℕ) × (frontier : ℕ)
        × (dealer.old.me ≡ (fresh (n + 1) frontier, [])) }
    ensures table { (dealer.new.table_id ≡ dealer.old.table_id)
        × (result.table_id ≡ dealer.old.table_id) }
    ensures dealt { (n : ℕ) (frontier : ℕ) → dealer.old.me ≡ (fresh (n + 1) frontier, [])
        → (dealer.new.me ≡ (fresh n frontier, [])) × (result.me ≡ (fresh 1 frontier, [])) }
{
    words.split_seat::<Deal>(dealer)
}

/// Takes in another seat.
pub fn gather(words: &Words, seat: &mut Slip, other: Slip)
    requires table { (seat.old.table_id ≡ words.now.table_id)
        × (other.table_id ≡ words.now.table_id) × (3 < words.now.table_id.words) }
    requires free { other.me.1 ≡ [] }
    ensures table { seat.new.table_id ≡ seat.old.table_id }
    ensures me { seat.new.me ≡ (joined seat.old.me.0 other.me.0, seat.old.me.1) }
{
    words.join_seat::<Gather>(seat, other);
}

/// The end of a run, with a seat that stands for all places.
pub fn close(table: WordTable, seat: Slip)
    requires table { (seat.table_id ≡ table.shared.table_id)
        × (table.shared.table_id.slots ≡ 0) }
    requires all { seat.me.0.places ≡ table.shared.key.places }
    ensures { Ends table.shared.key seat.me.0 }
{
    let closed = table.close_with(seat);
    closed.free();
}
