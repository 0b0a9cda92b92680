//! How seats are split and joined.
ghost use Rattle.std.specs.Prelude.{◌≡◌, ◌<◌, ◌++◌, [], ◌∷◌};

use super::rule::{First, PlaceSeat, Steps, Together};
use glb_laws::{Bag, Program};

/// The first record of the dealer's, in a seat of its own.
pub(crate) fn deal<P: Program, B: Bag<P>>(
    cells: &Steps<P, B, P::Item>,
    dealer: &mut PlaceSeat<P, B, P::Item>,
) -> PlaceSeat<P, B, P::Item>
    requires table { (dealer.old.table_id ≡ cells.now.table_id) × (0 < cells.now.table_id.words) }
    requires some { (x : _) × (xs : _) × (dealer.old.me.0 ≡ x ∷ xs) }
    ensures table { (dealer.new.table_id ≡ dealer.old.table_id)
        × (result.table_id ≡ dealer.old.table_id) }
    ensures dealt { (x : _) × (xs : _) × (dealer.old.me.0 ≡ x ∷ xs)
        × (dealer.new.me ≡ (xs, dealer.old.me.1)) × (result.me ≡ (x ∷ [], [])) }
{
    cells.split_seat::<First>(dealer)
}

/// The records of both, in the first seat.
pub(crate) fn gather<P: Program, B: Bag<P>>(
    cells: &Steps<P, B, P::Item>,
    all: &mut PlaceSeat<P, B, P::Item>,
    seat: PlaceSeat<P, B, P::Item>,
)
    requires table { (all.old.table_id ≡ cells.now.table_id)
        × (seat.table_id ≡ cells.now.table_id) × (0 < cells.now.table_id.words)
        × (seat.me.1 ≡ []) }
    ensures table { (all.new.table_id ≡ all.old.table_id) × (all.new.id ≡ all.old.id) }
    ensures joined { all.new.me ≡ (all.old.me.0 ++ seat.me.0, all.old.me.1) }
{
    cells.join_seat::<Together>(all, seat);
}
