//! The report of a world.
ghost use Rattle.std.specs.Prelude.{◌≡◌, length, map, vec_len};

use super::rows::PlaceRow;
use super::tables::Tables;
use glb_stats::{Counters, Report};

fn tell_counters<B>(counters: &mut [Counters], place_rows: &[PlaceRow<B>])
    requires { length counters.old ≡ length place_rows.now }
    ensures { counters.new ≡ map (λ y. y.counters) place_rows.now }
{
    for place in 0..place_rows.len() {
        counters[place] = place_rows[place].counters;
    }
}

/// The report of a run, whose counters go where memory for them was taken.
pub(crate) fn report<B: Drop, V: Copy>(tables: Tables<B, V>, counters: Vec<Counters>) -> Report<V>
    requires { vec_len counters ≡ length tables.place_rows.items }
    ensures items { result.items ≡ tables.total }
    ensures value { result.value ≡ tables.value }
    ensures counters { result.counters.items ≡ map (λ y. y.counters) tables.place_rows.items }
{
    let Tables {
        place_rows,
        total,
        value,
        ..
    } = tables;
    let mut counters = counters;
    tell_counters(&mut counters, &place_rows);
    Report {
        items: total,
        value,
        counters,
    }
}
