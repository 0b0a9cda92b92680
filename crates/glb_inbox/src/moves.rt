//! What a desk does at the words alone: batches, credits, and the end of the run.
ghost use Rattle.std.specs.Prelude.{◌≡◌, ◌≢◌, ℕ, ◌+◌, ◌<◌, ◌≤◌, ◌⊎◌, ◌==◌, true, false, IsTrue};
ghost use Rattle.glb_laws.specs.Expansion.{Expands};
ghost use Rattle.glb_rules.specs.declared.event.Event.TheVariants as event;
ghost use Rattle.glb_rules.specs.declared.kinds.Phase.TheVariants as phase;
ghost use Rattle.glb_place.specs.Records.{May};
ghost use Rattle.glb_place.specs.Calls.{Settles};
ghost use Rattle.glb_place.specs.Looks.{raised};
ghost use Rattle.glb_place.specs.Rows.{mint_row, burn_row, sleep_row, halt_row, halted_row};
ghost use Rattle.glb_inbox.specs.inner.Acts.{MayBatch};
ghost use Rattle.glb_inbox.specs.Viewing.{kept_of, place_in};
ghost use Rattle.glb_inbox.specs.inner.Books.{AreBooks, BooksStay};
ghost use Rattle.glb_inbox.specs.inner.Plays.{ended_at};

use super::books::Books;
use super::rule::Words;
use super::{gifts, words as steps};
use glb_laws::{Bag, Program};
use glb_place::counts::{count_items, count_sleep};

/// Counts a batch, and answers the total of all places.
pub fn settle<P: Program, B: Bag<P>>(
    words: &Words<P, B, P::Item>,
    books: &mut Books<B, P::Item>,
    bag: &B,
    done: u64,
    gain: &P::Value,
) -> u64
    requires books { AreBooks B.items B.fits words.now.table_id words.now.key.program.value
        words.now.key.lines.value words.now.key.params books.old }
    requires ready { MayBatch (P.children words.now.key.program.value)
        (P.value words.now.key.program.value) P.Value.unit P.Value.combine done (B.items bag.now)
        gain.now (kept_of books.old) }
    ensures books { AreBooks B.items B.fits words.now.table_id words.now.key.program.value
        words.now.key.lines.value words.now.key.params books.new }
    ensures stay { BooksStay books.old books.new }
    ensures lanes { books.new.lanes ≡ books.old.lanes }
    ensures kept { Settles (P.children words.now.key.program.value)
        (P.value words.now.key.program.value) P.Value.unit P.Value.combine done (B.items bag.now)
        gain.now result (kept_of books.old) (kept_of books.new) }
    ensures steps { (place_in books.new.seat.me.0).steps ≡ (place_in books.old.seat.me.0).steps
        + 1 }
    ensures found { result ≡ (place_in books.new.seat.me.0).found + done }
{
    let before = gifts::settle(words, &mut books.seat, bag, done, gain);
    count_items(&mut books.counters, done);
    before + done
}

pub fn mint<P: Program, B: Bag<P>>(words: &Words<P, B, P::Item>, books: &mut Books<B, P::Item>)
    requires books { AreBooks B.items B.fits words.now.table_id words.now.key.program.value
        words.now.key.lines.value words.now.key.params books.old }
    requires ready { May (kept_of books.old) (event.Mint (kept_of books.old).place) }
    ensures books { AreBooks B.items B.fits words.now.table_id words.now.key.program.value
        words.now.key.lines.value words.now.key.params books.new }
    ensures stay { BooksStay books.old books.new }
    ensures kept { kept_of books.new ≡ mint_row (kept_of books.old) }
{
    steps::mint(words, &mut books.seat);
}

pub fn burn<P: Program, B: Bag<P>>(words: &Words<P, B, P::Item>, books: &mut Books<B, P::Item>)
    requires books { AreBooks B.items B.fits words.now.table_id words.now.key.program.value
        words.now.key.lines.value words.now.key.params books.old }
    requires ready { May (kept_of books.old) (event.Burn (kept_of books.old).place) }
    ensures books { AreBooks B.items B.fits words.now.table_id words.now.key.program.value
        words.now.key.lines.value words.now.key.params books.new }
    ensures stay { BooksStay books.old books.new }
    ensures kept { kept_of books.new ≡ burn_row (kept_of books.old) }
{
    steps::burn(words, &mut books.seat);
}

/// The number live before.
pub fn sleep<P: Program, B: Bag<P>>(
    words: &Words<P, B, P::Item>,
    books: &mut Books<B, P::Item>,
) -> u64
    requires books { AreBooks B.items B.fits words.now.table_id words.now.key.program.value
        words.now.key.lines.value words.now.key.params books.old }
    requires ready { May (kept_of books.old) (event.Sleep (kept_of books.old).place) }
    ensures books { AreBooks B.items B.fits words.now.table_id words.now.key.program.value
        words.now.key.lines.value words.now.key.params books.new }
    ensures stay { BooksStay books.old books.new }
    ensures lanes { books.new.lanes ≡ books.old.lanes }
    ensures kept { kept_of books.new ≡ sleep_row (kept_of books.old) }
    ensures steps { (place_in books.new.seat.me.0).steps ≡ (place_in books.old.seat.me.0).steps
        + 1 }
    ensures found { result ≡ (place_in books.new.seat.me.0).found }
{
    let live = steps::sleep(words, &mut books.seat);
    count_sleep(&mut books.counters);
    books.is_asleep = true;
    live
}

/// The number live. Where it is 0 the place leaves.
pub fn over<P: Program, B: Bag<P>>(
    words: &Words<P, B, P::Item>,
    books: &mut Books<B, P::Item>,
) -> u64
    requires books { AreBooks B.items B.fits words.now.table_id words.now.key.program.value
        words.now.key.lines.value words.now.key.params books.old }
    requires ready { (kept_of books.old).local.phase ≢ phase.Gone }
    ensures books { AreBooks B.items B.fits words.now.table_id words.now.key.program.value
        words.now.key.lines.value words.now.key.params books.new }
    ensures place { books.new.place ≡ books.old.place }
    ensures lanes { books.new.lanes ≡ books.old.lanes }
    ensures live { books.new.live_looks ≡ raised books.old.live_looks }
    ensures stop { books.new.stop_looks ≡ books.old.stop_looks }
    ensures kept { kept_of books.new ≡ ended_at result (kept_of books.old) }
    ensures steps { (place_in books.new.seat.me.0).steps ≡ (place_in books.old.seat.me.0).steps
        + 1 }
    ensures found { result ≡ (place_in books.new.seat.me.0).found }
{
    let live = steps::over(words, &mut books.seat);
    books.live_looks = books.live_looks.saturating_add(1);
    books.is_asleep = books.is_asleep && live != 0;
    live
}

/// Raises the stop code.
pub fn halt<P: Program, B: Bag<P>>(
    words: &Words<P, B, P::Item>,
    books: &mut Books<B, P::Item>,
    code: u64,
)
    requires books { AreBooks B.items B.fits words.now.table_id words.now.key.program.value
        words.now.key.lines.value words.now.key.params books.old }
    requires here { (kept_of books.old).local.phase ≢ phase.Gone }
    requires code { (code ≡ 1) ⊎ (code ≡ 2) }
    requires cause { code ≡ 1 → (kept_of books.old).params.limit < (kept_of books.old).last }
    ensures books { AreBooks B.items B.fits words.now.table_id words.now.key.program.value
        words.now.key.lines.value words.now.key.params books.new }
    ensures stay { BooksStay books.old books.new }
    ensures kept { kept_of books.new ≡ halt_row code (kept_of books.old) }
{
    steps::halt(words, &mut books.seat, code);
}

/// The stop code. Where it is not 0 the place leaves.
pub fn halted<P: Program, B: Bag<P>>(
    words: &Words<P, B, P::Item>,
    books: &mut Books<B, P::Item>,
) -> u64
    requires books { AreBooks B.items B.fits words.now.table_id words.now.key.program.value
        words.now.key.lines.value words.now.key.params books.old }
    requires ready { (kept_of books.old).local.phase ≢ phase.Gone }
    ensures books { AreBooks B.items B.fits words.now.table_id words.now.key.program.value
        words.now.key.lines.value words.now.key.params books.new }
    ensures place { books.new.place ≡ books.old.place }
    ensures lanes { books.new.lanes ≡ books.old.lanes }
    ensures live { books.new.live_looks ≡ books.old.live_looks }
    ensures stop { books.new.stop_looks ≡ raised books.old.stop_looks }
    ensures kept { kept_of books.new ≡ halted_row result (kept_of books.old) }
    ensures least { (kept_of books.old).code ≤ result }
    ensures steps { (place_in books.new.seat.me.0).steps ≡ (place_in books.old.seat.me.0).steps
        + 1 }
    ensures found { result ≡ (place_in books.new.seat.me.0).found }
{
    let code = steps::halted(words, &mut books.seat);
    books.stop_looks = books.stop_looks.saturating_add(1);
    books.is_asleep = books.is_asleep && code == 0;
    code
}
