//! What a range bag keeps its items in.
ghost use Rattle.std.specs.Prelude.{◌≡◌, ◌+◌, ◌-◌, ◌^◌, ◌<◌, ◌≤◌, ◌↔◌, ◌++◌, List, [], ◌∷◌, length};
ghost use Rattle.std.specs.Prelude.{min, sum_by};
ghost use Rattle.std.specs.Prelude.{IsTrue, vec_len, vec_capacity};
ghost use Rattle.std.specs.Option.{option_to_list};
ghost use Rattle.glb_bags.specs.inner.Entries.{entry_size, made_size, IsReady};
ghost use Rattle.glb_bags.specs.inner.Entries.{without_last, all_children};

/// A single item, or the children of one parent from the number `first` on up to `end`, of which
/// those from `made` on are made already. What is made stands in a list beside the entries, in
/// their order, and a single item does too.
#[derive(Clone, Copy)]
pub enum Entry<I> {
    One(I),
    Range {
        parent: I,
        first: u64,
        made: u64,
        end: u64,
    },
}

/// An item that is made. Where it is opened its own children are made too, all of them, and stand
/// right before it.
#[derive(Clone, Copy)]
pub struct Made<I> {
    pub item: I,
    pub opened: bool,
}

/// Whether the last item of the entry is made.
pub(crate) fn is_ready<I: Copy>(entry: &Entry<I>) -> bool
    ensures { IsTrue result ↔ IsReady entry.now }
{
    match entry {
        Entry::One(_) => true,
        Entry::Range { made, end, .. } => *made < *end,
    }
}

/// The entry without its last item, if there are more.
#[inline(always)]
fn without_last<I: Copy>(entry: &Entry<I>) -> Option<Entry<I>>
    ensures { option_to_list result ≡ without_last entry.now }
{
    match entry {
        Entry::Range {
            parent,
            first,
            made,
            end,
        } if *first < end.saturating_sub(1) => Some(Entry::Range {
            parent: *parent,
            first: *first,
            made: *made,
            end: *end - 1,
        }),
        _ => None,
    }
}

/// Takes the last item off the last entry, and the entry with it where it has no other. The entry
/// is changed in its place, since most items have no children to come behind it.
#[inline(always)]
pub(crate) fn take_last<I: Copy>(entries: &mut Vec<Entry<I>>)
    requires some { 0 < length entries.old.items }
    ensures taken { (front : List (Entry I)) (e : Entry I) → entries.old.items ≡ front ++ e ∷ []
        → entries.new.items ≡ front ++ without_last e }
    ensures len { vec_len entries.new ≤ vec_len entries.old }
    ensures capacity { vec_capacity entries.new ≡ vec_capacity entries.old }
{
    let last = entries.len() - 1;
    if let Some(rest) = without_last(&entries[last]) {
        entries[last] = rest;
        return;
    }
    let _entry = entries.pop();
}

/// All children of an item, if there are any: all of them are made, or none is.
#[inline(always)]
pub(crate) fn all_children<I: Copy>(parent: I, fan: u64, opened: bool) -> Option<Entry<I>>
    ensures { option_to_list result ≡ all_children parent fan opened }
{
    if fan > 0 {
        Some(Entry::Range {
            parent,
            first: 0,
            made: if opened { 0 } else { fan },
            end: fan,
        })
    } else {
        None
    }
}

/// Puts an entry at the end, if there is one, where there is room.
#[inline(always)]
pub(crate) fn push_some<I: Copy>(entries: &mut Vec<Entry<I>>, entry: Option<Entry<I>>)
    requires { vec_len entries.old + length (option_to_list entry) ≤ vec_capacity entries.old }
    ensures items { entries.new.items ≡ entries.old.items ++ option_to_list entry }
    ensures len { vec_len entries.new ≡ vec_len entries.old + length (option_to_list entry) }
    ensures capacity { vec_capacity entries.new ≡ vec_capacity entries.old }
{
    match entry {
        Some(entry) => entries.push_reserved(entry),
        None => {}
    }
}

/// How many items the entries have. One past the last value of `u64` is told as that value.
pub(crate) fn count_items<I: Copy>(entries: &[Entry<I>]) -> u64
    ensures { result ≡ min (sum_by entry_size entries.now) (2 ^ 64 - 1) }
{
    let mut count = 0u64;
    for entry in entries {
        count = count.saturating_add(match entry {
            Entry::One(_) => 1,
            Entry::Range { first, end, .. } => end.saturating_sub(*first),
        });
    }
    count
}

/// How many of them are made.
pub(crate) fn count_made<I: Copy>(entries: &[Entry<I>]) -> u64
    ensures { result ≡ min (sum_by made_size entries.now) (2 ^ 64 - 1) }
{
    let mut count = 0u64;
    for entry in entries {
        count = count.saturating_add(match entry {
            Entry::One(_) => 1,
            Entry::Range { made, end, .. } => end.saturating_sub(*made),
        });
    }
    count
}
