//! The steps on the three words, each with the seat of the place that steps.
ghost use Rattle.std.specs.Prelude.{◌≡◌, ◌≢◌, ℕ, ◌<◌, ◌≤◌, ◌⊎◌};
ghost use Rattle.glb_rules.specs.declared.event.Event.TheVariants as event;
ghost use Rattle.glb_rules.specs.declared.kinds.Phase.TheVariants as phase;
ghost use Rattle.glb_place.specs.Records.{May};
ghost use Rattle.glb_place.specs.Rows.{mint_row, burn_row, sleep_row, halt_row, halted_row};
ghost use Rattle.glb_inbox.specs.declared.view.Seated.{Seated};
ghost use Rattle.glb_inbox.specs.inner.Views.{one, on_one, stepped, Reads};
ghost use Rattle.glb_inbox.specs.inner.Plays.{ended_at};

use super::plays::{Burn, Halt, Mint, Over, Sleep, Stop};
use super::rule::{Slip, Words};
use glb_laws::{Bag, Program};

pub fn mint<P: Program, B: Bag<P>>(words: &Words<P, B, P::Item>, seat: &mut Slip<P::Item>)
    requires table { (seat.old.table_id ≡ words.now.table_id) × (2 < words.now.table_id.words) }
    requires ready { Reads seat.old.me (λ x. May x.kept (event.Mint x.kept.place)) }
    ensures table { (seat.new.table_id ≡ seat.old.table_id) × (seat.new.id ≡ seat.old.id) }
    ensures moved { (n : ℕ) × (seat.new.me
        ≡ (on_one (λ x. stepped (mint_row x.kept) n x) seat.old.me.0, seat.old.me.1)) }
{
    words.fetch_add::<Mint>(seat, 0, 1);
}

pub fn burn<P: Program, B: Bag<P>>(words: &Words<P, B, P::Item>, seat: &mut Slip<P::Item>)
    requires table { (seat.old.table_id ≡ words.now.table_id) × (2 < words.now.table_id.words) }
    requires ready { Reads seat.old.me (λ x. May x.kept (event.Burn x.kept.place)) }
    ensures table { (seat.new.table_id ≡ seat.old.table_id) × (seat.new.id ≡ seat.old.id) }
    ensures moved { (n : ℕ) × (seat.new.me
        ≡ (on_one (λ x. stepped (burn_row x.kept) n x) seat.old.me.0, seat.old.me.1)) }
{
    words.fetch_sub::<Burn>(seat, 0, 1);
}

/// The number live before.
pub fn sleep<P: Program, B: Bag<P>>(words: &Words<P, B, P::Item>, seat: &mut Slip<P::Item>) -> u64
    requires table { (seat.old.table_id ≡ words.now.table_id) × (2 < words.now.table_id.words) }
    requires ready { Reads seat.old.me (λ x. May x.kept (event.Sleep x.kept.place)) }
    ensures table { (seat.new.table_id ≡ seat.old.table_id) × (seat.new.id ≡ seat.old.id) }
    ensures moved { seat.new.me ≡ (
      on_one (λ x. stepped (sleep_row x.kept) result x) seat.old.me.0,
      seat.old.me.1,
    ) }
{
    words.fetch_sub::<Sleep>(seat, 0, 1)
}

/// The number live. Where it is 0 the place leaves.
pub fn over<P: Program, B: Bag<P>>(words: &Words<P, B, P::Item>, seat: &mut Slip<P::Item>) -> u64
    requires table { (seat.old.table_id ≡ words.now.table_id) × (2 < words.now.table_id.words) }
    requires ready { Reads seat.old.me (λ x. x.kept.local.phase ≢ phase.Gone) }
    ensures table { (seat.new.table_id ≡ seat.old.table_id) × (seat.new.id ≡ seat.old.id) }
    ensures moved { seat.new.me
        ≡ (on_one (λ x. stepped (ended_at result x.kept) result x) seat.old.me.0, seat.old.me.1) }
{
    words.load::<Over>(seat, 0)
}

pub fn halt<P: Program, B: Bag<P>>(
    words: &Words<P, B, P::Item>,
    seat: &mut Slip<P::Item>,
    code: u64,
)
    requires table { (seat.old.table_id ≡ words.now.table_id) × (2 < words.now.table_id.words) }
    requires ready { Reads seat.old.me (λ x. (x.kept.local.phase ≢ phase.Gone)
        × ((code ≡ 1) ⊎ (code ≡ 2)) × (code ≡ 1 → x.kept.params.limit < x.kept.last)) }
    ensures table { (seat.new.table_id ≡ seat.old.table_id) × (seat.new.id ≡ seat.old.id) }
    ensures moved { (n : ℕ) × (seat.new.me
        ≡ (on_one (λ x. stepped (halt_row code x.kept) n x) seat.old.me.0, seat.old.me.1)) }
{
    words.fetch_max::<Halt>(seat, 2, code);
}

/// The stop code. Where it is not 0 the place leaves.
pub fn halted<P: Program, B: Bag<P>>(words: &Words<P, B, P::Item>, seat: &mut Slip<P::Item>) -> u64
    requires table { (seat.old.table_id ≡ words.now.table_id) × (2 < words.now.table_id.words) }
    requires ready { Reads seat.old.me (λ x. x.kept.local.phase ≢ phase.Gone) }
    ensures table { (seat.new.table_id ≡ seat.old.table_id) × (seat.new.id ≡ seat.old.id) }
    ensures least { (x : Seated P.Item) → seat.old.me.0 ≡ one x → x.kept.code ≤ result }
    ensures moved { seat.new.me
        ≡ (on_one (λ x. stepped (halted_row result x.kept) result x) seat.old.me.0, seat.old.me.1) }
{
    words.load::<Stop>(seat, 2)
}
