//! Making children ahead: where the last item of a bag is not made, it is made together with others
//! of its parent that are not, up to eight in one call. Where these are fewer than four, one more
//! item is opened: its children are made in the same call, before its turn comes.
ghost use Rattle.std.specs.Prelude.{◌≡◌, ◌+◌, ◌-◌, ◌<◌, ◌≤◌, ◌++◌, List, [], ◌∷◌};
ghost use Rattle.std.specs.Prelude.{length, map, take, drop, All, Some, IfSome, OnOk, slice_get};
ghost use Rattle.std.specs.Prelude.{vec_len, vec_capacity};
ghost use Rattle.std.specs.List.{range_with_len};
ghost use Rattle.glb_bags.specs.Ranges.{AllWhole, AllOpen, IsHeld, all_items, all_closed};
ghost use Rattle.glb_bags.specs.Ranges.{closed_item};
ghost use Rattle.glb_bags.specs.inner.Entries.{IsLastReady, IsLastUnmade, IsAsked, opened_item};

use super::entry::{Entry, Made, is_ready};
use glb_laws::{NoMemory, Program, Ranged};
use std::alloc::Global;

/// How many children are made in one call.
const GROUP: usize = 8;

/// Up to so many children cost hardly more than one does.
const LANES: u64 = 4;

/// How many made items are looked at for one that can be opened.
const LOOKS: usize = 8;

/// Room for a group of children: what is asked for, and what is made.
#[derive(Drop)]
pub(crate) struct Group<I: Copy> {
    asked: Vec<(I, u64)>,
    fresh: Vec<I>,
}

impl<I: Copy> Group<I> {
    pub(crate) fn new(alloc: Global) -> Group<I> {
        Group {
            asked: Vec::new(alloc),
            fresh: Vec::new(alloc),
        }
    }
}

/// Asks for the last children of the last entry, of which none is made, and counts them as made.
fn ask_last<I: Copy>(entries: &mut Vec<Entry<I>>, asked: &mut Vec<(I, u64)>)
    requires some { 0 < length entries.old.items }
    requires unmade { IsLastUnmade entries.old.items }
    requires none { vec_len asked.old ≡ 0 }
    requires room { 8 ≤ vec_capacity asked.old }
    ensures asked { (children : I → List I) → AllWhole children entries.old.items
        → IsAsked children entries.old.items entries.new.items asked.new.items }
    ensures group { vec_len asked.new ≤ 8 }
    ensures room { 8 ≤ vec_capacity asked.new }
{
    let last = entries.len() - 1;
    let Entry::Range {
        parent,
        first,
        made,
        end,
    } = entries[last]
    else {
        unreachable!()
    };
    let count = made.saturating_sub(first).min(GROUP as u64);
    for i in 0..count {
        asked.push_reserved((parent, made - count + i));
    }
    entries[last] = Entry::Range {
        parent,
        first,
        made: made - count,
        end,
    };
}

/// An item of the same kind as those of the entry.
fn parent_of<I: Copy>(entry: &Entry<I>) -> I {
    match entry {
        Entry::One(item) => *item,
        Entry::Range { parent, .. } => *parent,
    }
}

/// An item that is made and not opened, its place, and how many children it has.
#[derive(Clone, Copy)]
struct Found<I: Copy> {
    place: usize,
    item: I,
    fan: u64,
}

/// The item that is taken first of those that are not opened and have children, where it has at
/// most so many.
#[inline(always)]
fn find_closed<P: Ranged>(
    program: &P,
    made: &Vec<Made<P::Item>>,
    most: u64,
) -> Option<Found<P::Item>>
where
    P::Item: Copy,
    ensures closed { IfSome result (λ f.
        slice_get made.now.items f.place ≡ Some (closed_item f.item)) }
    ensures fan { IfSome result (λ f. f.fan ≡ length (P.children program.now f.item)) }
    ensures most { IfSome result (λ f. (0 < f.fan) × (f.fan ≤ most)) }
{
    if most == 0 {
        return None;
    }
    let len = made.len();
    for look in 1..LOOKS.min(len) + 1 {
        let place = len - look;
        let Made { item, opened } = made[place];
        if !opened {
            let fan = program.fan(&item);
            if fan > most {
                return None;
            }
            if fan > 0 {
                return Some(Found { place, item, fan });
            }
        }
    }
    None
}

/// Asks for all children of an item.
fn ask_all<I: Copy>(parent: I, fan: u64, asked: &mut Vec<(I, u64)>)
    requires room { vec_len asked.old + fan ≤ vec_capacity asked.old }
    ensures asked { asked.new.items
        ≡ asked.old.items ++ map (λ n. (parent, n)) (range_with_len 0 fan) }
    ensures len { vec_len asked.new ≡ vec_len asked.old + fan }
{
    for i in 0..fan {
        asked.push_reserved((parent, i));
    }
}

/// Makes what is asked for over what stands in `fresh`.
fn make_asked<P: Ranged>(program: &P, asked: &[(P::Item, u64)], fresh: &mut [P::Item])
where
    P::Item: Copy,
    requires room { length asked.now ≤ length fresh.old }
    requires numbers { All (λ a. a.1 < length (P.children program.now a.0)) asked.now }
    ensures { map Some (take (length asked.now) fresh.new)
        ≡ map (λ a. slice_get (P.children program.now a.0) a.1) asked.now }
{
    program.make(asked, &mut fresh[..asked.len()]);
}

/// Opens an item, whose children are given.
fn open_item<I: Copy>(made: &mut Vec<Made<I>>, place: usize, item: I, fresh: &[I])
    requires place { place < vec_len made.old }
    requires room { vec_len made.old + length fresh.now ≤ vec_capacity made.old }
    ensures items { made.new.items ≡ take place made.old.items ++ map closed_item fresh.now
        ++ opened_item item ∷ drop (place + 1) made.old.items }
    ensures len { vec_len made.new ≡ vec_len made.old + length fresh.now }
    ensures capacity { vec_capacity made.new ≡ vec_capacity made.old }
{
    made[place] = Made { item, opened: true };
    for i in 0..fresh.len() {
        match made.insert(
            place + i,
            Made {
                item: fresh[i],
                opened: false,
            },
        ) {
            Ok(()) => {}
            Err(_) => unreachable!(),
        }
    }
}

/// Puts items in that are made.
fn put_made<I: Copy>(made: &mut Vec<Made<I>>, fresh: &[I])
    requires room { vec_len made.old + length fresh.now ≤ vec_capacity made.old }
    ensures { made.new.items ≡ made.old.items ++ map closed_item fresh.now }
{
    for item in fresh {
        made.push_reserved(Made {
            item: *item,
            opened: false,
        });
    }
}

/// Makes what is asked for. Where that leaves lanes free, one more item is opened.
fn make_and_open<P: Ranged>(
    program: &P,
    made: &mut Vec<Made<P::Item>>,
    asked: &mut Vec<(P::Item, u64)>,
    fresh: &mut [P::Item],
)
where
    P::Item: Copy,
    requires all_open { AllOpen (P.children program.now) [] made.old.items }
    requires numbers { All (λ a. a.1 < length (P.children program.now a.0)) asked.old.items }
    requires group { vec_len asked.old ≤ 8 }
    requires asked_room { 8 ≤ vec_capacity asked.old }
    requires fresh_room { 8 ≤ length fresh.old }
    requires made_room { vec_len made.old + 8 ≤ vec_capacity made.old }
    ensures all_open { AllOpen (P.children program.now) [] made.new.items }
    ensures same { all_closed (P.children program.now) [] made.new.items
        ≡ all_closed (P.children program.now) [] made.old.items }
    ensures fresh { map Some (take (vec_len asked.old) fresh.new)
        ≡ map (λ a. slice_get (P.children program.now a.0) a.1) asked.old.items }
    ensures room { vec_len made.new + vec_len asked.old ≤ vec_capacity made.new }
{
    let count = asked.len();
    let most = LANES.saturating_sub(count as u64);
    match find_closed(program, made, most) {
        Some(found) => {
            ask_all(found.item, found.fan, asked);
            make_asked(program, asked, fresh);
            open_item(made, found.place, found.item, &fresh[count..asked.len()]);
        }
        None => make_asked(program, asked, fresh),
    }
}

/// Makes the last children of the last entry, of which none is made.
#[inline(never)]
fn make_group<P: Ranged>(
    program: &P,
    entries: &mut Vec<Entry<P::Item>>,
    made: &mut Vec<Made<P::Item>>,
    group: &mut Group<P::Item>,
) -> Result<(), NoMemory>
where
    P::Item: Copy,
    requires held { IsHeld (P.children program.now) entries.old.items made.old.items }
    requires some { 0 < length entries.old.items }
    requires unmade { IsLastUnmade entries.old.items }
    ensures held { IsHeld (P.children program.now) entries.new.items made.new.items }
    ensures count { length entries.new.items ≡ length entries.old.items }
    ensures same { all_items (P.children program.now) entries.new.items
        ≡ all_items (P.children program.now) entries.old.items }
    ensures ready { OnOk result (IsLastReady entries.new.items) }
{
    let asked = &mut group.asked;
    let fresh = &mut group.fresh;
    asked.clear();
    asked.reserve(GROUP)?;
    made.reserve(GROUP)?;
    if fresh.len() < GROUP {
        let filler = parent_of(&entries[entries.len() - 1]);
        fresh.resize(GROUP, filler)?;
    }
    ask_last(entries, asked);
    let count = asked.len();
    make_and_open(program, made, asked, fresh.as_mut_slice());
    put_made(made, &fresh[..count]);
    Ok(())
}

/// Sees to it that the last item of the last entry is made.
#[inline(always)]
pub(crate) fn make_last<P: Ranged>(
    program: &P,
    entries: &mut Vec<Entry<P::Item>>,
    made: &mut Vec<Made<P::Item>>,
    group: &mut Group<P::Item>,
) -> Result<(), NoMemory>
where
    P::Item: Copy,
    requires held { IsHeld (P.children program.now) entries.old.items made.old.items }
    requires some { 0 < length entries.old.items }
    ensures held { IsHeld (P.children program.now) entries.new.items made.new.items }
    ensures count { length entries.new.items ≡ length entries.old.items }
    ensures same { all_items (P.children program.now) entries.new.items
        ≡ all_items (P.children program.now) entries.old.items }
    ensures ready { OnOk result (IsLastReady entries.new.items) }
{
    if is_ready(&entries[entries.len() - 1]) {
        return Ok(());
    }
    make_group(program, entries, made, group)
}
