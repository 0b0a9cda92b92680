//! What a desk does with other places: requests, refusals and parts.
ghost use Rattle.std.specs.Prelude.{◌≡◌, ◌<◌, ◌++◌, length, IfErr, OnOk, OnErr, Some};
ghost use Rattle.glb_rules.specs.declared.event.Event.TheVariants as event;
ghost use Rattle.glb_rules.specs.declared.kinds.Kind.TheVariants as kinds;
ghost use Rattle.glb_rules.specs.Effects.{wake_count};
ghost use Rattle.glb_rules.specs.Setups.{bit};
ghost use Rattle.glb_place.specs.Records.{May};
ghost use Rattle.glb_place.specs.Calls.{Gives};
ghost use Rattle.glb_place.specs.Rows.{ask_row, deny_row, give_row, shrug_row, take_row};
ghost use Rattle.glb_inbox.specs.inner.Acts.{MayOffer};
ghost use Rattle.glb_inbox.specs.Viewing.{kept_of};
ghost use Rattle.glb_inbox.specs.inner.Books.{AreBooks, BooksStay};
ghost use Rattle.glb_inbox.specs.inner.Posted.{tie};

use super::acts::{Got, Noted};
use super::books::Books;
use super::rule::Words;
use super::way::Way;
use super::{lanes, seats, sending};
use glb_core::{Edge, Kind, Phase};
use glb_laws::{Bag, NoMemory, Program};
use glb_place::counts::{count_ask, count_denied, count_given, count_got, count_shrug};
use std::sync::Wait;

pub fn ask<P: Program, B: Bag<P>, R: Wait>(
    rt: &R,
    words: &Words<P, B, P::Item>,
    books: &mut Books<B, P::Item>,
    way: &mut Way<P, B>,
    places: usize,
    victim: u32,
    kind: Kind,
) -> Result<(), NoMemory>
    requires books { AreBooks B.items B.fits words.now.table_id words.now.key.program.value
        words.now.key.lines.value words.now.key.params books.old }
    requires places { places ≡ words.now.key.lines.value.places }
    requires tied { way.old ≡ Some (tie words.now.key.program.value words.now.table_id) }
    requires ready { May (kept_of books.old) (event.Ask (kept_of books.old).place victim kind) }
    ensures books { AreBooks B.items B.fits words.now.table_id words.now.key.program.value
        words.now.key.lines.value words.now.key.params books.new }
    ensures stay { BooksStay books.old books.new }
    ensures way { way.new ≡ way.old }
    ensures kept { OnOk result (kept_of books.new ≡ ask_row victim kind (kept_of books.old)) }
    ensures refused { OnErr result (kept_of books.new ≡ kept_of books.old) }
{
    let place = books.place;
    sending::post_request(rt, words, &mut books.seat, way, place, victim, kind)?;
    lanes::note_asked(words, places, &mut books.lanes, kind, victim);
    count_ask(&mut books.counters, kind);
    Ok(())
}

pub fn deny<P: Program, B: Bag<P>, R: Wait>(
    rt: &R,
    words: &Words<P, B, P::Item>,
    books: &mut Books<B, P::Item>,
    way: &mut Way<P, B>,
    places: usize,
    thief: u32,
    kind: Kind,
) -> Result<(), NoMemory>
    requires books { AreBooks B.items B.fits words.now.table_id words.now.key.program.value
        words.now.key.lines.value words.now.key.params books.old }
    requires places { places ≡ words.now.key.lines.value.places }
    requires tied { way.old ≡ Some (tie words.now.key.program.value words.now.table_id) }
    requires ready { May (kept_of books.old) (event.Deny (kept_of books.old).place thief kind) }
    ensures books { AreBooks B.items B.fits words.now.table_id words.now.key.program.value
        words.now.key.lines.value words.now.key.params books.new }
    ensures stay { BooksStay books.old books.new }
    ensures way { way.new ≡ way.old }
    ensures kept { OnOk result (kept_of books.new ≡ deny_row thief kind (kept_of books.old)) }
    ensures refused { OnErr result (kept_of books.new ≡ kept_of books.old) }
{
    let place = books.place;
    sending::post_denial(rt, words, &mut books.seat, way, place, thief, kind)?;
    lanes::answer_request(words, places, &mut books.lanes, kind, thief, Edge::Refused);
    count_denied(&mut books.counters, kind);
    Ok(())
}

/// Hands the part back where there is no memory.
pub fn give<P: Program, B: Bag<P>, R: Wait>(
    rt: &R,
    words: &Words<P, B, P::Item>,
    books: &mut Books<B, P::Item>,
    way: &mut Way<P, B>,
    places: usize,
    thief: u32,
    kind: Kind,
    part: B,
) -> Result<(), (NoMemory, B)>
    requires books { AreBooks B.items B.fits words.now.table_id words.now.key.program.value
        words.now.key.lines.value words.now.key.params books.old }
    requires places { places ≡ words.now.key.lines.value.places }
    requires tied { way.old ≡ Some (tie words.now.key.program.value words.now.table_id) }
    requires ready { MayOffer thief kind (B.items part) (kept_of books.old) }
    requires fits { B.fits part words.now.key.program.value }
    ensures books { AreBooks B.items B.fits words.now.table_id words.now.key.program.value
        words.now.key.lines.value words.now.key.params books.new }
    ensures stay { BooksStay books.old books.new }
    ensures way { way.new ≡ way.old }
    ensures kept { OnOk result
        (Gives (give_row thief kind) (B.items part) (kept_of books.old) (kept_of books.new)) }
    ensures refused { OnErr result (kept_of books.new ≡ kept_of books.old) }
    ensures back { IfErr result (λ e. e.1 ≡ part) }
{
    let place = books.place;
    let units = part.len();
    sending::post_part(rt, words, &mut books.seat, way, place, thief, kind, part)?;
    lanes::answer_request(words, places, &mut books.lanes, kind, thief, Edge::Loot);
    count_given(&mut books.counters, kind, units);
    Ok(())
}

fn phase_of(is_asleep: bool) -> Phase
    ensures { wake_count result ≡ bit is_asleep }
{
    if is_asleep {
        Phase::Asleep
    } else {
        Phase::Working
    }
}

/// The part that waits on the edge.
pub fn take<P: Program, B: Bag<P>>(
    words: &Words<P, B, P::Item>,
    books: &mut Books<B, P::Item>,
    places: usize,
    victim: u32,
    kind: Kind,
) -> B
    requires books { AreBooks B.items B.fits words.now.table_id words.now.key.program.value
        words.now.key.lines.value words.now.key.params books.old }
    requires places { places ≡ words.now.key.lines.value.places }
    requires ready { May (kept_of books.old) (event.Take (kept_of books.old).place victim kind) }
    ensures books { AreBooks B.items B.fits words.now.table_id words.now.key.program.value
        words.now.key.lines.value words.now.key.params books.new }
    ensures stay { BooksStay books.old books.new }
    ensures kept { kept_of books.new ≡ take_row victim kind (B.items result)
        (B.items result ++ (kept_of books.old).local.bag) (kept_of books.old) }
    ensures some { 0 < length (B.items result) }
    ensures fits { B.fits result words.now.key.program.value }
{
    let (part, seat) = lanes::take_part(words, places, &mut books.lanes, kind, victim);
    seats::get(words, &mut books.seat, seat, Got::Take { victim, kind });
    let phase = phase_of(books.is_asleep);
    count_got(&mut books.counters, kind, part.len(), phase);
    books.is_asleep = false;
    part
}

/// Gives up a request to a random victim that was refused.
fn shrug_steal<P: Program, B: Bag<P>>(
    words: &Words<P, B, P::Item>,
    books: &mut Books<B, P::Item>,
    places: usize,
    victim: u32,
)
    requires books { AreBooks B.items B.fits words.now.table_id words.now.key.program.value
        words.now.key.lines.value words.now.key.params books.old }
    requires places { places ≡ words.now.key.lines.value.places }
    requires ready { May (kept_of books.old)
        (event.Shrug (kept_of books.old).place victim kinds.Steal) }
    ensures books { AreBooks B.items B.fits words.now.table_id words.now.key.program.value
        words.now.key.lines.value words.now.key.params books.new }
    ensures stay { BooksStay books.old books.new }
    ensures kept { kept_of books.new ≡ shrug_row victim kinds.Steal (kept_of books.old) }
{
    let seat = lanes::take_refusal(words, places, &mut books.lanes, victim);
    seats::get(words, &mut books.seat, seat, Got::Shrug { victim });
    count_shrug(&mut books.counters, Kind::Steal);
}

/// Stops waiting for a lifeline whose request is remembered.
fn shrug_line<P: Program, B: Bag<P>>(
    words: &Words<P, B, P::Item>,
    books: &mut Books<B, P::Item>,
    victim: u32,
)
    requires books { AreBooks B.items B.fits words.now.table_id words.now.key.program.value
        words.now.key.lines.value words.now.key.params books.old }
    requires ready { May (kept_of books.old)
        (event.Shrug (kept_of books.old).place victim kinds.Line) }
    ensures books { AreBooks B.items B.fits words.now.table_id words.now.key.program.value
        words.now.key.lines.value words.now.key.params books.new }
    ensures stay { BooksStay books.old books.new }
    ensures kept { kept_of books.new ≡ shrug_row victim kinds.Line (kept_of books.old) }
{
    seats::note(words, &mut books.seat, Noted::ShrugLine { victim });
    count_shrug(&mut books.counters, Kind::Line);
}

/// Gives up a request that was refused, or stops waiting for a lifeline.
pub fn shrug<P: Program, B: Bag<P>>(
    words: &Words<P, B, P::Item>,
    books: &mut Books<B, P::Item>,
    places: usize,
    victim: u32,
    kind: Kind,
)
    requires books { AreBooks B.items B.fits words.now.table_id words.now.key.program.value
        words.now.key.lines.value words.now.key.params books.old }
    requires places { places ≡ words.now.key.lines.value.places }
    requires ready { May (kept_of books.old) (event.Shrug (kept_of books.old).place victim kind) }
    ensures books { AreBooks B.items B.fits words.now.table_id words.now.key.program.value
        words.now.key.lines.value words.now.key.params books.new }
    ensures stay { BooksStay books.old books.new }
    ensures kept { kept_of books.new ≡ shrug_row victim kind (kept_of books.old) }
{
    match kind {
        Kind::Steal => shrug_steal(words, books, places, victim),
        Kind::Line => shrug_line(words, books, victim),
    }
}
