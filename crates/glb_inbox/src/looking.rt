//! How a desk looks at an edge.
ghost use Rattle.std.specs.Prelude.{◌≡◌, ◌<◌, Some};
ghost use Rattle.glb_rules.specs.declared.kinds.Side.TheVariants as sides;
ghost use Rattle.glb_place.specs.Calls.{IsOwn, MayFind, look_row};
ghost use Rattle.glb_inbox.specs.Viewing.{kept_of};
ghost use Rattle.glb_inbox.specs.inner.Books.{AreBooks, BooksStay, LanesAnswer};
ghost use Rattle.glb_inbox.specs.inner.Books.{lane_views, lanes_know};
ghost use Rattle.glb_inbox.specs.Keeping.{MayReceive, kept_at, lane_at, look_at, told_by};
ghost use Rattle.glb_inbox.specs.inner.Lanes.{KnowsAsBefore, LooksInward, LooksOutward, LooksOn};
ghost use Rattle.glb_inbox.specs.inner.Posted.{tie};

use super::acts::{Got, Noted};
use super::books::Books;
use super::rule::Words;
use super::way::Way;
use super::{lanes, seats};
use glb_core::{Edge, Kind, Side};
use glb_laws::{Bag, Program};
use std::sync::Wait;

/// Takes at most one message out of the place's own inbox, and keeps it beside its edge.
fn receive<P: Program, B: Bag<P>, R: Wait>(
    rt: &R,
    words: &Words<P, B, P::Item>,
    books: &mut Books<B, P::Item>,
    own: &mut Way<P, B>,
    places: usize,
)
    requires books { AreBooks B.items B.fits words.now.table_id words.now.key.program.value
        words.now.key.lines.value words.now.key.params books.old }
    requires places { places ≡ words.now.key.lines.value.places }
    requires tied { own.old ≡ Some (tie words.now.key.program.value words.now.table_id) }
    ensures books { AreBooks B.items B.fits words.now.table_id words.now.key.program.value
        words.now.key.lines.value words.now.key.params books.new }
    ensures stay { BooksStay books.old books.new }
    ensures seat { books.new.seat ≡ books.old.seat }
    ensures own { own.new ≡ own.old }
    ensures known { KnowsAsBefore books.old.lanes.items books.new.lanes.items }
    ensures receives { MayReceive places (lanes_know places books.old.lanes.items)
        (lane_views books.old.lanes.items) (lane_views books.new.lanes.items) }
{
    if let Some(message) = own.receive(rt) {
        lanes::keep(words, places, &mut books.lanes, message);
    }
}

/// Looks at an edge whose victim the place is.
fn look_in<P: Program, B: Bag<P>>(
    words: &Words<P, B, P::Item>,
    books: &mut Books<B, P::Item>,
    places: usize,
    thief: u32,
    kind: Kind,
) -> Edge
    requires books { AreBooks B.items B.fits words.now.table_id words.now.key.program.value
        words.now.key.lines.value words.now.key.params books.old }
    requires places { places ≡ words.now.key.lines.value.places }
    requires mine { IsOwn (kept_of books.old) thief kind sides.Inward }
    ensures books { AreBooks B.items B.fits words.now.table_id words.now.key.program.value
        words.now.key.lines.value words.now.key.params books.new }
    ensures place { books.new.place ≡ books.old.place }
    ensures looks { LooksInward (lane_at places kind thief) books.old.lanes.items
        books.new.lanes.items }
    ensures words { (books.new.live_looks ≡ books.old.live_looks)
        × (books.new.stop_looks ≡ books.old.stop_looks) }
    ensures kept { kept_of books.new ≡ look_row thief kind sides.Inward result (kept_of books.old) }
    ensures found { MayFind (kept_of books.old) thief kind sides.Inward result }
    ensures answers { result ≡ told_by
        (lanes_know places books.old.lanes.items thief kind sides.Inward)
        (kept_at (lane_at places kind thief) sides.Inward (lane_views books.old.lanes.items)) }
    ensures looked { lane_views books.new.lanes.items
        ≡ look_at (lane_at places kind thief) sides.Inward (lane_views books.old.lanes.items) }
{
    match lanes::take_request(words, places, &mut books.lanes, kind, thief) {
        Some(seat) => {
            seats::get(words, &mut books.seat, seat, Got::Hold { thief, kind });
            Edge::Asked
        }
        None => {
            let edge = lanes::inward_at(places, &books.lanes, kind, thief);
            let act = Noted::Look {
                other: thief,
                kind,
                side: Side::Inward,
                edge,
            };
            seats::note(words, &mut books.seat, act);
            edge
        }
    }
}

/// Looks at an edge whose thief the place is.
fn look_out<P: Program, B: Bag<P>>(
    words: &Words<P, B, P::Item>,
    books: &mut Books<B, P::Item>,
    places: usize,
    victim: u32,
    kind: Kind,
) -> Edge
    requires books { AreBooks B.items B.fits words.now.table_id words.now.key.program.value
        words.now.key.lines.value words.now.key.params books.old }
    requires places { places ≡ words.now.key.lines.value.places }
    requires mine { IsOwn (kept_of books.old) victim kind sides.Outward }
    ensures books { AreBooks B.items B.fits words.now.table_id words.now.key.program.value
        words.now.key.lines.value words.now.key.params books.new }
    ensures place { books.new.place ≡ books.old.place }
    ensures looks { LooksOutward (lane_at places kind victim) books.old.lanes.items
        books.new.lanes.items }
    ensures words { (books.new.live_looks ≡ books.old.live_looks)
        × (books.new.stop_looks ≡ books.old.stop_looks) }
    ensures kept { kept_of books.new ≡ look_row victim kind sides.Outward result
        (kept_of books.old) }
    ensures found { MayFind (kept_of books.old) victim kind sides.Outward result }
    ensures answers { result ≡ told_by
        (lanes_know places books.old.lanes.items victim kind sides.Outward)
        (kept_at (lane_at places kind victim) sides.Outward (lane_views books.old.lanes.items)) }
    ensures looked { lane_views books.new.lanes.items
        ≡ look_at (lane_at places kind victim) sides.Outward (lane_views books.old.lanes.items) }
{
    let edge = lanes::learn_answer(words, places, &mut books.lanes, kind, victim);
    let act = Noted::Look {
        other: victim,
        kind,
        side: Side::Outward,
        edge,
    };
    seats::note(words, &mut books.seat, act);
    edge
}

/// Looks at one edge, after it took at most one message out of the place's own inbox.
pub fn look<P: Program, B: Bag<P>, R: Wait>(
    rt: &R,
    words: &Words<P, B, P::Item>,
    books: &mut Books<B, P::Item>,
    own: &mut Way<P, B>,
    places: usize,
    other: u32,
    kind: Kind,
    side: Side,
) -> Edge
    requires books { AreBooks B.items B.fits words.now.table_id words.now.key.program.value
        words.now.key.lines.value words.now.key.params books.old }
    requires places { places ≡ words.now.key.lines.value.places }
    requires tied { own.old ≡ Some (tie words.now.key.program.value words.now.table_id) }
    requires mine { IsOwn (kept_of books.old) other kind side }
    ensures books { AreBooks B.items B.fits words.now.table_id words.now.key.program.value
        words.now.key.lines.value words.now.key.params books.new }
    ensures own { own.new ≡ own.old }
    ensures place { books.new.place ≡ books.old.place }
    ensures looks { LooksOn side (lane_at places kind other) books.old.lanes.items
        books.new.lanes.items }
    ensures words { (books.new.live_looks ≡ books.old.live_looks)
        × (books.new.stop_looks ≡ books.old.stop_looks) }
    ensures kept { kept_of books.new ≡ look_row other kind side result (kept_of books.old) }
    ensures found { MayFind (kept_of books.old) other kind side result }
    ensures answers { LanesAnswer places other kind side result books.old.lanes.items
        books.new.lanes.items }
{
    receive(rt, words, books, own, places);
    match side {
        Side::Inward => look_in(words, books, places, other, kind),
        Side::Outward => look_out(words, books, places, other, kind),
    }
}
