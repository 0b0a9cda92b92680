//! What is split off: the first half of the entries, or of the only range, with what is made of it.
ghost use Rattle.std.specs.Prelude.{◌≡◌, ◌+◌, ◌<◌, ◌≤◌, ◌↔◌, [], length, drop, map};
ghost use Rattle.std.specs.Prelude.{vec_len, OnErr, OnOk, IfOk, IfSome, IfNone, IsNone};
ghost use Rattle.glb_bags.specs.Ranges.{AllWhole, IsHeld, AllOpen, all_items, all_made};
ghost use Rattle.glb_bags.specs.Ranges.{closed_item, all_closed};
ghost use Rattle.glb_bags.specs.inner.Entries.{IsCut};

use super::entry::{Entry, Made, count_items, count_made};
use glb_laws::{NoMemory, Program, Ranged};
use std::alloc::{AllocError, Global};
use std::mem;

/// Entries, and what is made of them.
#[derive(Drop)]
pub(crate) struct Half<I: Copy> {
    pub(crate) entries: Vec<Entry<I>>,
    pub(crate) made: Vec<Made<I>>,
}

/// A copy of what stands in a list from a place on.
fn copy_from<I: Copy>(items: &Vec<I>, place: usize) -> Result<Vec<I>, AllocError>
    requires { place ≤ vec_len items.now }
    ensures { IfOk result (λ copy. copy.items ≡ drop place items.now.items) }
{
    Vec::from_slice(*items.allocator(), &items[place..])
}

/// What is made, where no item is opened any more.
fn closed_copy<P: Ranged>(
    program: &P,
    alloc: Global,
    made: &[Made<P::Item>],
) -> Result<Vec<Made<P::Item>>, AllocError>
where
    P::Item: Copy,
    requires { AllOpen (P.children program.now) [] made.now }
    ensures { IfOk result (λ copy.
        copy.items ≡ map closed_item (all_closed (P.children program.now) [] made.now)) }
{
    let mut copy = Vec::with_capacity(alloc, made.len())?;
    for each in made {
        let Made { item, opened } = *each;
        if opened {
            copy.truncate(copy.len() - program.fan(&item) as usize);
        }
        copy.push_reserved(Made {
            item,
            opened: false,
        });
    }
    Ok(copy)
}

/// Drops the children of opened items, which then are not opened.
fn close<P: Ranged>(
    program: &P,
    _entries: &Vec<Entry<P::Item>>,
    made: &mut Vec<Made<P::Item>>,
) -> Result<(), NoMemory>
where
    P::Item: Copy,
    requires held { IsHeld (P.children program.now) _entries.now.items made.old.items }
    ensures held { IsHeld (P.children program.now) _entries.now.items made.new.items }
    ensures closed { OnOk result
        (made.new.items
        ≡ map closed_item (all_made (P.children program.now) _entries.now.items)) }
{
    *made = closed_copy(program, *made.allocator(), made)?;
    Ok(())
}

/// Takes the first `half` of the entries off.
fn cut_entries<P: Ranged>(
    _program: &P,
    half: usize,
    entries: &mut Vec<Entry<P::Item>>,
    made: &mut Vec<Made<P::Item>>,
) -> Result<Half<P::Item>, NoMemory>
where
    P::Item: Copy,
    requires whole { AllWhole (P.children _program.now) entries.old.items }
    requires made { made.old.items
        ≡ map closed_item (all_made (P.children _program.now) entries.old.items) }
    requires some { 1 ≤ half }
    requires within { half < length entries.old.items }
    ensures cut { IfOk result (λ part.
        IsCut (P.children _program.now) entries.old.items part.entries.items part.made.items
        entries.new.items made.new.items) }
    ensures entries_stay { OnErr result (entries.new.items ≡ entries.old.items) }
    ensures made_stays { OnErr result (made.new.items ≡ made.old.items) }
{
    let count = count_made(&entries[..half]) as usize;
    let rest_made = copy_from(made, count)?;
    let rest = entries.split_off(half)?;
    made.truncate(count);
    Ok(Half {
        entries: mem::replace(entries, rest),
        made: mem::replace(made, rest_made),
    })
}

/// Takes the first half of the only entry off, which is a range.
fn cut_range<P: Ranged>(
    _program: &P,
    entries: &mut Vec<Entry<P::Item>>,
    made: &mut Vec<Made<P::Item>>,
) -> Result<Option<Half<P::Item>>, NoMemory>
where
    P::Item: Copy,
    requires whole { AllWhole (P.children _program.now) entries.old.items }
    requires made { made.old.items
        ≡ map closed_item (all_made (P.children _program.now) entries.old.items) }
    requires one { length entries.old.items ≡ 1 }
    ensures none { IfOk result (λ o. IsNone o
        → length (all_items (P.children _program.now) entries.old.items) < 2) }
    ensures cut { IfOk result (λ o. IfSome o (λ part.
        IsCut (P.children _program.now) entries.old.items part.entries.items part.made.items
        entries.new.items made.new.items)) }
    ensures entries_stay { IfOk result (λ o. IfNone o (entries.new.items ≡ entries.old.items)) }
    ensures made_stays { IfOk result (λ o. IfNone o (made.new.items ≡ made.old.items)) }
    ensures entries_refused { OnErr result (entries.new.items ≡ entries.old.items) }
    ensures made_refused { OnErr result (made.new.items ≡ made.old.items) }
{
    match entries[0] {
        Entry::Range {
            parent,
            first,
            made: from,
            end,
        } if end.saturating_sub(first) >= 2 => {
            let middle = first + (end - first) / 2;
            let count = middle.saturating_sub(from) as usize;
            let rest_made = copy_from(made, count)?;
            let mut part = Vec::new(*entries.allocator());
            part.push(Entry::Range {
                parent,
                first,
                made: from.min(middle),
                end: middle,
            })?;
            entries[0] = Entry::Range {
                parent,
                first: middle,
                made: from.max(middle),
                end,
            };
            made.truncate(count);
            Ok(Some(Half {
                entries: part,
                made: mem::replace(made, rest_made),
            }))
        }
        _ => Ok(None),
    }
}

/// Takes the first half off, where there are two items.
pub(crate) fn cut_half<P: Ranged>(
    program: &P,
    entries: &mut Vec<Entry<P::Item>>,
    made: &mut Vec<Made<P::Item>>,
) -> Result<Option<Half<P::Item>>, NoMemory>
where
    P::Item: Copy,
    requires { IsHeld (P.children program.now) entries.old.items made.old.items }
    ensures held { IsHeld (P.children program.now) entries.new.items made.new.items }
    ensures none { IfOk result (λ o.
        IsNone o ↔ (length (all_items (P.children program.now) entries.old.items) < 2)) }
    ensures stays { IfOk result (λ o. IfNone o (entries.new.items ≡ entries.old.items)) }
    ensures cut { IfOk result (λ o. IfSome o (λ part.
        IsCut (P.children program.now) entries.old.items part.entries.items part.made.items
        entries.new.items made.new.items)) }
    ensures refused { OnErr result (entries.new.items ≡ entries.old.items) }
{
    let count = entries.len();
    if count == 0 {
        return Ok(None);
    }
    close(program, entries, made)?;
    if count >= 2 {
        let part = cut_entries(program, count / 2, entries, made)?;
        return Ok(Some(part));
    }
    cut_range(program, entries, made)
}

/// How many items a part has, which was cut off so many.
pub(crate) fn count_part<P: Ranged>(
    _program: &P,
    part: &Half<P::Item>,
    _rest: &Vec<Entry<P::Item>>,
    _count: u64,
) -> u64
where
    P::Item: Copy,
    requires held { IsHeld (P.children _program.now) part.now.entries.items part.now.made.items }
    requires count { _count ≡ length (all_items (P.children _program.now) part.now.entries.items)
        + length (all_items (P.children _program.now) _rest.now.items) }
    ensures { result ≡ length (all_items (P.children _program.now) part.now.entries.items) }
{
    count_items(&part.entries)
}
