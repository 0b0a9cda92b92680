//! The end of a run: all seats become one, which reads the three words.
ghost use Rattle.std.specs.Prelude.{◌≡◌, ◌<◌, ℕ, List, [], ◌++◌, length, map, All};
ghost use Rattle.glb_inbox.specs.declared.view.Seated.{Seated};
ghost use Rattle.glb_inbox.specs.declared.view.Member.{Member};
ghost use Rattle.glb_inbox.specs.inner.Begins.{job_of};
ghost use Rattle.glb_inbox.specs.inner.Close.{as_places, LiveTells, ItemsTell, StopTells, Closes};

use super::cuts::Gather;
use super::plays::{Knows, ReadItems, ReadLive, ReadStop};
use super::rule::{Slip, Words};
use glb_laws::{Bag, Program};
use std::marker::Brand;

/// The three words at the end of a run: how many places are active and parts travel, how many items
/// were expanded, and the stop code.
#[derive(Clone, Copy, Debug, PartialEq, Eq)]
pub struct Closed {
    pub live: u64,
    pub items: u64,
    pub stop: u64,
}

fn read_live<J: Knows<P::Item>, P: Program, B: Bag<P>>(
    words: &Words<P, B, P::Item>,
    seat: &mut Slip<P::Item>,
) -> u64
    requires table { (seat.old.table_id ≡ words.now.table_id) × (2 < words.now.table_id.words) }
    requires job { J.job ≡ job_of P.children B.items words.now.key }
    ensures table { seat.new.table_id ≡ seat.old.table_id }
    ensures me { seat.new.me ≡ seat.old.me }
    ensures told { (xs : List (Seated P.Item)) → seat.old.me.0 ≡ as_places xs
        → length xs ≡ words.now.key.lines.value.places
        → LiveTells (job_of P.children B.items words.now.key) xs result }
{
    words.load::<ReadLive<J>>(seat, 0)
}

fn read_items<J: Knows<P::Item>, P: Program, B: Bag<P>>(
    words: &Words<P, B, P::Item>,
    seat: &mut Slip<P::Item>,
) -> u64
    requires table { (seat.old.table_id ≡ words.now.table_id) × (2 < words.now.table_id.words) }
    requires job { J.job ≡ job_of P.children B.items words.now.key }
    ensures table { seat.new.table_id ≡ seat.old.table_id }
    ensures me { seat.new.me ≡ seat.old.me }
    ensures told { (xs : List (Seated P.Item)) → seat.old.me.0 ≡ as_places xs
        → length xs ≡ words.now.key.lines.value.places → ItemsTell xs result }
{
    words.load::<ReadItems<J>>(seat, 1)
}

fn read_stop<J: Knows<P::Item>, P: Program, B: Bag<P>>(
    words: &Words<P, B, P::Item>,
    seat: &mut Slip<P::Item>,
) -> u64
    requires table { (seat.old.table_id ≡ words.now.table_id) × (2 < words.now.table_id.words) }
    requires job { J.job ≡ job_of P.children B.items words.now.key }
    ensures table { seat.new.table_id ≡ seat.old.table_id }
    ensures me { seat.new.me ≡ seat.old.me }
    ensures told { (xs : List (Seated P.Item)) → seat.old.me.0 ≡ as_places xs
        → length xs ≡ words.now.key.lines.value.places
        → StopTells (job_of P.children B.items words.now.key) xs result }
{
    words.load::<ReadStop<J>>(seat, 2)
}

/// The three words, read by a seat that has all places.
pub fn read_all<P: Program, B: Bag<P>>(
    words: &Words<P, B, P::Item>,
    seat: &mut Slip<P::Item>,
) -> Closed
    requires table { (seat.old.table_id ≡ words.now.table_id) × (2 < words.now.table_id.words) }
    ensures me { seat.new.me ≡ seat.old.me }
    ensures closes { (xs : List (Seated P.Item)) → seat.old.me.0 ≡ as_places xs
        → length xs ≡ words.now.key.lines.value.places
        → Closes (job_of P.children B.items words.now.key) xs result.live result.items result.stop }
{
    let live = read_live::<Brand, P, B>(words, seat);
    let items = read_items::<Brand, P, B>(words, seat);
    let stop = read_stop::<Brand, P, B>(words, seat);
    Closed { live, items, stop }
}

/// Takes in the places of another seat, behind its own.
pub fn gather<P: Program, B: Bag<P>>(
    words: &Words<P, B, P::Item>,
    seat: &mut Slip<P::Item>,
    other: Slip<P::Item>,
)
    requires table { (seat.old.table_id ≡ words.now.table_id)
        × (other.table_id ≡ words.now.table_id) × (2 < words.now.table_id.words) }
    requires free { other.me.1 ≡ [] }
    ensures table { seat.new.table_id ≡ seat.old.table_id }
    ensures me { seat.new.me ≡ (seat.old.me.0 ++ other.me.0, seat.old.me.1) }
{
    words.join_seat::<Gather>(seat, other);
}
