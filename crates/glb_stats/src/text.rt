//! Writes what each place counted.
ghost use Rattle.std.specs.Prelude.{◌≡◌, ◌≤◌, ◌<◌, ◌^◌, ◌+◌, ◌++◌, ◌∷◌, [], length, All, sum, sum_by};
ghost use Rattle.std.specs.Prelude.{OnOk, OnErr, string_bytes, codes};
ghost use Rattle.glb_stats.specs.Counter.{number_of, every_counter};
ghost use Rattle.glb_stats.specs.Balances.{HasSmallUnits};
ghost use Rattle.glb_stats.specs.Text.{pair_text, numbers_text, place_text, total_text, stats_text};
ghost use Rattle.glb_stats.specs.Text.{rooted_place_text, rooted_total_text, rooted_stats_text};

use super::balances::total;
use super::counter::Counter;
use super::counters::Counters;
use glb_laws::NoMemory;
use std::alloc::AllocError;
use std::fmt::Write;

/// A name and a number, each behind a space.
fn write_pair(out: &mut String, name: &str, number: u128) -> Result<(), AllocError>
    ensures { OnOk result
        (string_bytes out.new ≡ string_bytes out.old ++ pair_text name.now number) }
{
    write!(out, " {name} {number}")
}

/// What a place counted.
fn write_counts(out: &mut String, counters: &Counters) -> Result<(), AllocError>
    requires { HasSmallUnits counters.now }
    ensures { OnOk result (string_bytes out.new
        ≡ string_bytes out.old ++ numbers_text (λ k. number_of k counters.now) every_counter) }
{
    for counter in Counter::all() {
        write_pair(out, counter.name(), counter.of(counters))?;
    }
    Ok(())
}

/// The sums over all places.
fn write_sums(out: &mut String, all: &[Counters]) -> Result<(), AllocError>
    requires few { length all.now ≤ 64 }
    requires units { All HasSmallUnits all.now }
    ensures { OnOk result (string_bytes out.new
        ≡ string_bytes out.old ++ numbers_text (λ k. sum_by (number_of k) all.now) every_counter) }
{
    for counter in Counter::all() {
        write_pair(out, counter.name(), total(counter, all))?;
    }
    Ok(())
}

/// The line of a place.
fn write_place(out: &mut String, place: u32, counters: &Counters) -> Result<(), AllocError>
    requires { HasSmallUnits counters.now }
    ensures { OnOk result
        (string_bytes out.new ≡ string_bytes out.old ++ place_text place counters.now) }
{
    write!(out, "place {place}")?;
    write_counts(out, counters)?;
    out.push_str("\n")?;
    Ok(())
}

/// The line of a place that was given so many roots.
fn write_rooted_place(
    out: &mut String,
    place: u32,
    counters: &Counters,
    roots: u32,
) -> Result<(), AllocError>
    requires { HasSmallUnits counters.now }
    ensures { OnOk result
        (string_bytes out.new ≡ string_bytes out.old ++ rooted_place_text place counters.now roots) }
{
    write!(out, "place {place}")?;
    write_counts(out, counters)?;
    write_pair(out, "roots", u128::from(roots))?;
    out.push_str("\n")?;
    Ok(())
}

/// The line of the sums over all places.
fn write_total(out: &mut String, all: &[Counters]) -> Result<(), AllocError>
    requires few { length all.now ≤ 64 }
    requires units { All HasSmallUnits all.now }
    ensures { OnOk result (string_bytes out.new ≡ string_bytes out.old ++ total_text all.now) }
{
    out.push_str("total")?;
    write_sums(out, all)?;
    out.push_str("\n")?;
    Ok(())
}

/// The sum of all places' roots.
fn all_roots(roots: &[u32]) -> u128
    ensures { result ≡ sum roots.now }
{
    let mut total = 0;
    for number in roots {
        total += u128::from(*number);
    }
    total
}

/// The line of the sums over all places, and over their roots.
fn write_rooted_total(out: &mut String, all: &[Counters], roots: &[u32]) -> Result<(), AllocError>
    requires few { length all.now ≤ 64 }
    requires units { All HasSmallUnits all.now }
    ensures { OnOk result
        (string_bytes out.new ≡ string_bytes out.old ++ rooted_total_text all.now roots.now) }
{
    out.push_str("total")?;
    write_sums(out, all)?;
    write_pair(out, "roots", all_roots(roots))?;
    out.push_str("\n")?;
    Ok(())
}

/// All lines.
fn write_all(out: &mut String, all: &[Counters]) -> Result<(), AllocError>
    requires few { length all.now ≤ 64 }
    requires units { All HasSmallUnits all.now }
    ensures { OnOk result (string_bytes out.new ≡ string_bytes out.old ++ stats_text all.now) }
{
    write!(out, "places {}\n", all.len())?;
    let mut place = 0u32;
    for counters in all {
        write_place(out, place, counters)?;
        place += 1;
    }
    write_total(out, all)?;
    Ok(())
}

/// All lines, with the roots of each place.
fn write_all_rooted(out: &mut String, all: &[Counters], roots: &[u32]) -> Result<(), AllocError>
    requires many { length roots.now ≡ length all.now }
    requires few { length all.now ≤ 64 }
    requires units { All HasSmallUnits all.now }
    ensures { OnOk result
        (string_bytes out.new ≡ string_bytes out.old ++ rooted_stats_text all.now roots.now) }
{
    write!(out, "places {}\n", all.len())?;
    for place in 0..all.len() {
        write_rooted_place(out, place as u32, &all[place], roots[place])?;
    }
    write_rooted_total(out, all, roots)?;
    Ok(())
}

/// Appends the lines of a report that tell how many places there are, what each counted, and the
/// sums. It is written whole or not at all.
pub fn write_stats(all: &[Counters], out: &mut Vec<u8>) -> Result<(), NoMemory>
    requires few { length all.now ≤ 64 }
    requires units { All HasSmallUnits all.now }
    ensures written { OnOk result (out.new.items ≡ out.old.items ++ stats_text all.now) }
    ensures unchanged { OnErr result (out.new.items ≡ out.old.items) }
{
    let mut text = String::new(*out.allocator());
    write_all(&mut text, all)?;
    out.extend_from_slice(text.as_bytes())?;
    Ok(())
}

/// Appends the same lines, each place's with the number of roots that it was given, and the sums'
/// with their sum. It is written whole or not at all.
pub fn write_stats_roots(all: &[Counters], roots: &[u32], out: &mut Vec<u8>) -> Result<(), NoMemory>
    requires many { length roots.now ≡ length all.now }
    requires few { length all.now ≤ 64 }
    requires units { All HasSmallUnits all.now }
    ensures written { OnOk result
        (out.new.items ≡ out.old.items ++ rooted_stats_text all.now roots.now) }
    ensures unchanged { OnErr result (out.new.items ≡ out.old.items) }
{
    let mut text = String::new(*out.allocator());
    write_all_rooted(&mut text, all, roots)?;
    out.extend_from_slice(text.as_bytes())?;
    Ok(())
}
