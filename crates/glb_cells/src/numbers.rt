//! The numbers of lines, and the words of the start.
ghost use Rattle.std.specs.Prelude.{◌≡◌, ◌+◌, ◌*◌, ◌^◌, ◌<◌, ◌≤◌, ◌∷◌, ℕ, All, ◌++◌, OnOk, replicate, cond, IfOk, length, get_or, map, []};
ghost use Rattle.glb_cube.specs.Lines.{IsCube};
ghost use Rattle.glb_laws.specs.Sums.{sum_to};
ghost use Rattle.glb_rules.specs.Setups.{has_items, bit};
ghost use Rattle.glb_cells.specs.inner.Numbers.{fill, filled, edge_words, HasNumbers};

use glb_cube::Lines;
use glb_laws::{Bag, NoMemory, Program};
use std::alloc::Global;

fn fill_row(numbers: &mut Vec<u32>, row: &[u32], base: usize, first: u32)
    requires room { All (λ v. base + v < length numbers.old.items) row.now }
    requires first { (first + length row.now < 2 ^ 32) × (base < 2 ^ 32) }
    ensures { numbers.new.items ≡ fill numbers.old.items base first row.now }
{
    let mut next = first;
    for victim in row {
        numbers[base + *victim as usize] = next;
        next += 1;
    }
}

/// The number of each line, at thief * places + victim.
pub(crate) fn line_numbers(alloc: Global, lines: &Lines) -> Result<Vec<u32>, NoMemory>
    ensures { IfOk result (λ v. v.items ≡ filled lines.now lines.now.places) }
{
    let places = lines.places();
    let mut numbers = vec![in alloc; 0; (places * places) as usize]?;
    let mut next = places * (places - 1);
    for thief in 0..places {
        let row = lines.out(thief);
        fill_row(&mut numbers, row, (thief * places) as usize, next);
        next += row.len() as u32;
    }
    Ok(numbers)
}

/// The number of places that begin with items.
pub(crate) fn count_awake<P: Program, B: Bag<P>>(bags: &[B]) -> u64
    requires { length bags.now ≤ 64 }
    ensures { result ≡ sum_to (length bags.now)
        (λ p. bit (has_items (get_or (map B.items bags.now) p []))) }
{
    let mut live = 0;
    for bag in bags {
        live += bag.len().min(1);
    }
    live
}

/// The word of a place's lines at the start: Idle where it has items, else Refused.
fn first_word<P: Program, B: Bag<P>>(bag: &B) -> u64
    ensures { result ≡ cond (has_items (B.items bag.now)) 0 2 }
{
    if bag.len() == 0 { 2 } else { 0 }
}

/// The words of the start.
pub(crate) fn first_words<P: Program, B: Bag<P>>(
    alloc: Global,
    live: u64,
    lines: &Lines,
    bags: &[B],
) -> Result<Vec<u64>, NoMemory>
    requires { length bags.now ≡ lines.now.places }
    ensures { IfOk result (λ v. v.items ≡ live ∷ 0 ∷ 0 ∷ edge_words lines.now
        (λ p. has_items (get_or (map B.items bags.now) p []))) }
{
    let places = lines.places();
    let mut words = Vec::new(alloc);
    words.push(live)?;
    words.push(0)?;
    words.push(0)?;
    for _ in 0..places * (places - 1) {
        words.push(0)?;
    }
    for thief in 0..places {
        let word = first_word::<P, B>(&bags[thief as usize]);
        push_row(&mut words, lines.out(thief).len(), word)?;
    }
    Ok(words)
}

fn push_row(words: &mut Vec<u64>, count: usize, word: u64) -> Result<(), NoMemory>
    ensures { OnOk result (words.new.items ≡ words.old.items ++ replicate count word) }
{
    for _ in 0..count {
        words.push(word)?;
    }
    Ok(())
}
