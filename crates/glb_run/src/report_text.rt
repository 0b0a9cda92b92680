//! Writes the lines of a report.
ghost use Rattle.std.specs.Prelude.{◌≡◌, ◌≤◌, ◌<◌, ◌^◌, ◌++◌, ◌∷◌, [], ℕ, List, length, All, OnOk};
ghost use Rattle.std.specs.Prelude.{IfOk, IfErr, string_bytes, codes, true, false, sum};
ghost use Rattle.glb_stats.specs.Balances.{HasSmallUnits};
ghost use Rattle.glb_run.specs.Reports.{line_text, queens_text, uts_text, dist_text, trial_line};
ghost use Rattle.glb_run.specs.Reports.{knap_text};
ghost use Rattle.glb_run.specs.Reports.{head_text, places_text, counters_text};

use super::order::Order;
use glb_laws::{NoMemory, SatSum, Tallies};
use glb_stats::{Counters, write_stats, write_stats_roots};
use glb_tree::RunFault;
use std::alloc::{AllocError, Global};
use std::fmt::Write;

/// A name, its numbers and a line feed.
fn write_line(out: &mut String, name: &str, numbers: &[u64]) -> Result<(), AllocError>
    ensures { OnOk result
        (string_bytes out.new ≡ string_bytes out.old ++ line_text name.now numbers.now) }
{
    out.push_str(name)?;
    for n in numbers {
        write!(out, " {n}")?;
    }
    out.push_str("\n")
}

/// The number of the roots of all places.
fn sum_of(roots: &[u32]) -> u64
    requires { length roots.now ≤ 64 }
    ensures { result ≡ sum roots.now }
{
    let mut sum = 0;
    for number in roots {
        sum += u64::from(*number);
    }
    sum
}

/// The lines before the number of items, where `name` and `numbers` name the job and its places had
/// so many roots.
fn write_head(
    out: &mut String,
    name: &str,
    numbers: &[u64],
    spread: bool,
    roots: &[u32],
) -> Result<(), AllocError>
    requires { length roots.now ≤ 64 }
    ensures { OnOk result (string_bytes out.new
        ≡ string_bytes out.old ++ head_text spread roots.now (line_text name.now numbers.now)) }
{
    if !spread {
        return write_line(out, name, numbers);
    }
    write_line(out, "report", &[2])?;
    write_line(out, name, numbers)?;
    write_line(out, "roots", &[sum_of(roots)])
}

pub(crate) fn queens_lines(
    alloc: Global,
    n: u32,
    spread: bool,
    roots: &[u32],
    items: u64,
    placements: SatSum,
) -> Result<String, AllocError>
    requires { length roots.now ≤ 64 }
    ensures { IfOk result (λ text.
        string_bytes text ≡ queens_text n spread roots.now items placements) }
{
    let mut out = String::new(alloc);
    write_head(&mut out, "queens", &[u64::from(n)], spread, roots)?;
    write_line(&mut out, "items", &[items])?;
    write_line(&mut out, "placements", &[placements.0])?;
    Ok(out)
}

pub(crate) fn uts_lines(
    alloc: Global,
    numbers: (u32, u32, u32, u32),
    spread: bool,
    roots: &[u32],
    items: u64,
    tallies: Tallies,
) -> Result<String, AllocError>
    requires { length roots.now ≤ 64 }
    ensures { IfOk result (λ text. string_bytes text
        ≡ uts_text numbers.0 numbers.1 numbers.2 numbers.3 spread roots.now items tallies) }
{
    let (b0, m, q, seed) = numbers;
    let mut out = String::new(alloc);
    let numbers = [u64::from(b0), u64::from(m), u64::from(q), u64::from(seed)];
    write_head(&mut out, "uts", &numbers, spread, roots)?;
    write_line(&mut out, "items", &[items])?;
    write_line(&mut out, "nodes", &[tallies.0.0])?;
    write_line(&mut out, "leaves", &[tallies.1.0.0])?;
    write_line(&mut out, "depth", &[tallies.1.1.0])?;
    Ok(out)
}

/// The lines of a graph of so many vertices and edges.
pub(crate) fn dist_lines(
    alloc: Global,
    size: (u32, u32),
    spread: bool,
    roots: &[u32],
    items: u64,
    tallies: Tallies,
) -> Result<String, AllocError>
    requires { length roots.now ≤ 64 }
    ensures { IfOk result (λ text.
        string_bytes text ≡ dist_text size.0 size.1 spread roots.now items tallies) }
{
    let (vertices, edges) = size;
    let mut out = String::new(alloc);
    let numbers = [u64::from(vertices), u64::from(edges)];
    write_head(&mut out, "dist", &numbers, spread, roots)?;
    write_line(&mut out, "items", &[items])?;
    write_line(&mut out, "pairs", &[tallies.0.0])?;
    write_line(&mut out, "sum", &[tallies.1.0.0])?;
    write_line(&mut out, "greatest", &[tallies.1.1.0])?;
    Ok(out)
}

/// The line that names a trial.
pub(crate) fn trial_line(alloc: Global, k: u32) -> Result<String, AllocError>
    ensures { IfOk result (λ text. string_bytes text ≡ trial_line k) }
{
    let mut out = String::new(alloc);
    write_line(&mut out, "trial", &[u64::from(k)])?;
    Ok(out)
}

/// The lines of a knapsack with so many lines: its size, and the best worth.
pub(crate) fn knap_lines(
    alloc: Global,
    lines: u32,
    capacity: u64,
    worth: u64,
) -> Result<String, AllocError>
    ensures { IfOk result (λ text. string_bytes text ≡ knap_text lines capacity worth) }
{
    let mut out = String::new(alloc);
    write_line(&mut out, "knap", &[u64::from(lines), capacity])?;
    write_line(&mut out, "best", &[worth])?;
    Ok(out)
}

/// Appends the lines of the places, with the numbers of their roots where the start was spread.
fn write_places(
    spread: bool,
    roots: &[u32],
    counters: &[Counters],
    out: &mut Vec<u8>,
) -> Result<(), NoMemory>
    requires many { length roots.now ≡ length counters.now }
    requires few { length counters.now ≤ 64 }
    requires units { All HasSmallUnits counters.now }
    ensures { OnOk result
        (out.new.items ≡ out.old.items ++ places_text spread roots.now counters.now) }
{
    if spread {
        write_stats_roots(counters, roots, out)
    } else {
        write_stats(counters, out)
    }
}

/// The bytes of a report: its lines, and those of the places where they are asked for.
pub(crate) fn with_counters(
    lines: Result<String, AllocError>,
    order: &Order,
    roots: &[u32],
    counters: &[Counters],
) -> Result<Vec<u8>, RunFault>
    requires many { length roots.now ≡ length counters.now }
    requires few { length counters.now ≤ 64 }
    requires units { All HasSmallUnits counters.now }
    ensures bytes { (text : List ℕ) → IfOk lines (λ lines. string_bytes lines ≡ text) →
        IfOk result (λ bytes. bytes.items
        ≡ text ++ counters_text order.now.stats order.now.spread roots.now counters.now) }
    ensures fault { IfErr result (λ e. e ≡ RunFault.NoMemory) }
{
    let Ok(lines) = lines else {
        return Err(RunFault::NoMemory);
    };
    let mut bytes = lines.into_bytes();
    if order.stats && write_places(order.spread, roots, counters, &mut bytes).is_err() {
        return Err(RunFault::NoMemory);
    }
    Ok(bytes)
}
