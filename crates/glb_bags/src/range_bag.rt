//! A bag that keeps a parent with a range of child numbers in place of so many items. Children are
//! made a little ahead, and taken in the same order as if each was made when its turn came.
ghost use Rattle.std.specs.Prelude.{◌≡◌, ◌+◌, ◌-◌, ◌^◌, ◌<◌, ◌≤◌, ◌↔◌, ◌++◌, List, [], ◌∷◌, length};
ghost use Rattle.std.specs.Prelude.{OnErr, OnOk, IfErr, IfOk, IsTrue, IsPermutation};
ghost use Rattle.std.specs.Prelude.{slice_index_or, vec_len};
ghost use Rattle.glb_laws.specs.Expansion.{Expands};
ghost use Rattle.glb_bags.specs.Ranges.{IsHeld, all_items};
ghost use Rattle.glb_bags.specs.inner.LastItem.{TakesLast};

use super::ahead::{Group, make_last};
use super::entry::{Entry, Made, all_children, push_some, take_last};
use super::halves::{Half, count_part, cut_half};
use glb_laws::{Bag, Monoid, NoMemory, Program, Ranged, Stopped};
use std::alloc::Global;
use std::marker::Model;

/// The last of what is made.
#[inline(always)]
fn last_made<I: Copy>(made: &Vec<Made<I>>) -> Made<I>
    requires { 0 < vec_len made.now }
    ensures { result ≡ slice_index_or made.now.items (vec_len made.now - 1) result }
{
    made[made.len() - 1]
}

/// Expands the last item of the last entry.
fn expand_last<P: Ranged>(
    program: &P,
    entries: &mut Vec<Entry<P::Item>>,
    made: &mut Vec<Made<P::Item>>,
    group: &mut Group<P::Item>,
    count: &mut u64,
    acc: &mut P::Value,
) -> Result<(), NoMemory>
where
    P::Item: Copy,
    requires held { IsHeld (P.children program.now) entries.old.items made.old.items }
    requires some { 0 < length entries.old.items }
    requires count { count.old ≡ length (all_items (P.children program.now) entries.old.items) }
    ensures held { IsHeld (P.children program.now) entries.new.items made.new.items }
    ensures count { count.new ≡ length (all_items (P.children program.now) entries.new.items) }
    ensures expanded { OnOk result
        (TakesLast (P.children program.now) (P.value program.now) P.Value.combine
        (all_items (P.children program.now) entries.old.items) acc.old
        (all_items (P.children program.now) entries.new.items) acc.new) }
    ensures items_stay { OnErr result
        (all_items (P.children program.now) entries.new.items
        ≡ all_items (P.children program.now) entries.old.items) }
    ensures some { OnErr result (0 < length entries.new.items) }
    ensures value_stays { OnErr result (acc.new ≡ acc.old) }
{
    make_last(program, entries, made, group)?;
    let Made { item, opened } = last_made(made);
    let value = program.weigh(&item)?;
    let fan = program.fan(&item);
    let Some(more) = count.checked_add(fan) else {
        return Err(NoMemory);
    };
    entries.reserve(1)?;
    take_last(entries);
    let _made = made.pop();
    push_some(entries, all_children(item, fan, opened));
    *count = more.saturating_sub(1);
    *acc = acc.combine(&value);
    Ok(())
}

/// Expands up to `n` items, the last one first, and answers how many.
fn expand_some<P: Ranged>(
    program: &P,
    n: u64,
    entries: &mut Vec<Entry<P::Item>>,
    made: &mut Vec<Made<P::Item>>,
    group: &mut Group<P::Item>,
    count: &mut u64,
    acc: &mut P::Value,
) -> Result<u64, Stopped>
where
    P::Item: Copy,
    requires held { IsHeld (P.children program.now) entries.old.items made.old.items }
    requires some { 1 ≤ n }
    requires count { count.old ≡ length (all_items (P.children program.now) entries.old.items) }
    ensures held { IsHeld (P.children program.now) entries.new.items made.new.items }
    ensures count { count.new ≡ length (all_items (P.children program.now) entries.new.items) }
    ensures done { IfOk result (λ k.
        Expands (P.children program.now) (P.value program.now) P.Value.combine
        (all_items (P.children program.now) entries.old.items) acc.old k
        (all_items (P.children program.now) entries.new.items) acc.new) }
    ensures most { IfOk result (λ k. k ≤ n) }
    ensures short { IfOk result (λ k.
        k < n → all_items (P.children program.now) entries.new.items ≡ []) }
    ensures none { IfOk result (λ k.
        (k ≡ 0) ↔ (all_items (P.children program.now) entries.old.items ≡ [])) }
    ensures stopped { IfErr result (λ e.
        Expands (P.children program.now) (P.value program.now) P.Value.combine
        (all_items (P.children program.now) entries.old.items) acc.old e.done
        (all_items (P.children program.now) entries.new.items) acc.new) }
    ensures left { IfErr result (λ e.
        (e.done < n) × (0 < length (all_items (P.children program.now) entries.new.items))) }
{
    let mut done = 0;
    while done < n && !entries.is_empty() {
        match expand_last(program, entries, made, group, count, acc) {
            Ok(()) => done += 1,
            Err(_) => return Err(Stopped { done }),
        }
    }
    Ok(done)
}

/// Puts an item in.
fn add_item<P: Ranged>(
    _program: &P,
    entries: &mut Vec<Entry<P::Item>>,
    made: &mut Vec<Made<P::Item>>,
    item: P::Item,
) -> Result<(), (NoMemory, P::Item)>
where
    P::Item: Copy,
    requires { IsHeld (P.children _program.now) entries.old.items made.old.items }
    ensures held { IsHeld (P.children _program.now) entries.new.items made.new.items }
    ensures added { OnOk result
        (IsPermutation (item ∷ all_items (P.children _program.now) entries.old.items)
        (all_items (P.children _program.now) entries.new.items)) }
    ensures more { OnOk result
        (length (all_items (P.children _program.now) entries.new.items)
        ≡ length (all_items (P.children _program.now) entries.old.items) + 1) }
    ensures refused { IfErr result (λ e.
        (e.1 ≡ item) × (entries.new.items ≡ entries.old.items)) }
{
    match made.reserve(1) {
        Ok(()) => {}
        Err(_) => return Err((NoMemory, item)),
    }
    match entries.push(Entry::One(item)) {
        Ok(()) => {
            made.push_reserved(Made {
                item,
                opened: false,
            });
            Ok(())
        }
        Err(_) => Err((NoMemory, item)),
    }
}

/// Puts the entries of another bag in, which have so many items more.
fn merge_entries<P: Ranged>(
    _program: &P,
    entries: &mut Vec<Entry<P::Item>>,
    made: &mut Vec<Made<P::Item>>,
    count: &mut u64,
    other: Half<P::Item>,
    more: u64,
) -> Result<(), Half<P::Item>>
where
    P::Item: Copy,
    requires held { IsHeld (P.children _program.now) entries.old.items made.old.items }
    requires other_held { IsHeld (P.children _program.now) other.entries.items other.made.items }
    requires count { count.old ≡ length (all_items (P.children _program.now) entries.old.items) }
    requires more { more ≡ length (all_items (P.children _program.now) other.entries.items) }
    ensures held { IsHeld (P.children _program.now) entries.new.items made.new.items }
    ensures count { count.new ≡ length (all_items (P.children _program.now) entries.new.items) }
    ensures merged { OnOk result
        (IsPermutation (all_items (P.children _program.now) entries.old.items
        ++ all_items (P.children _program.now) other.entries.items)
        (all_items (P.children _program.now) entries.new.items)) }
    ensures other_stays { IfErr result (λ e.
        (e.entries.items ≡ other.entries.items) × (e.made.items ≡ other.made.items)) }
    ensures refused { OnErr result (entries.new.items ≡ entries.old.items) }
{
    let Some(all) = count.checked_add(more) else {
        return Err(other);
    };
    let mut other = other;
    match made.reserve(other.made.len()) {
        Ok(()) => {}
        Err(_) => return Err(other),
    }
    match entries.append(&mut other.entries) {
        Ok(()) => {}
        Err(_) => return Err(other),
    }
    match made.append(&mut other.made) {
        Ok(()) => {}
        Err(_) => unreachable!(),
    }
    *count = all;
    Ok(())
}

/// A bag of a program whose children are numbered. It takes the last item of the last entry first,
/// and splits off the first half of the entries, or of the only range. More than 2^64 - 1 items are
/// refused as memory is.
#[derive(Drop)]
pub struct RangeBag<P: Ranged + Copy>
where
    P::Item: Copy,
{
    program: P,
    entries: Vec<Entry<P::Item>>,
    made: Vec<Made<P::Item>>,
    /// How many items the entries have.
    count: u64,
    group: Group<P::Item>,
}

impl<P: Ranged + Copy> Model for RangeBag<P>
where
    P::Item: Copy,
{
    ghost use Rattle.std.specs.Prelude.{◌≡◌, List, length};
    ghost use Rattle.glb_bags.specs.Ranges.{all_items, IsHeld};

    ghost Value = { P × List P.Item };

    ghost view = { λ b. (b.program, all_items (P.children b.program) b.entries.items) };

    ghost invariant = { λ b. IsHeld (P.children b.program) b.entries.items b.made.items
        × (b.count ≡ length (all_items (P.children b.program) b.entries.items)) };
}

impl<P: Ranged + Copy> Bag<P> for RangeBag<P>
where
    P::Item: Copy,
{
    ghost items = { λ b. b.1 };

    ghost fits = { λ b p. b.0 ≡ p };

    fn empty(alloc: Global, program: &P) -> Self {
        RangeBag {
            program: *program,
            entries: Vec::new(alloc),
            made: Vec::new(alloc),
            count: 0,
            group: Group::new(alloc),
        }
    }

    fn len(&self) -> u64 {
        self.count
    }

    fn can_split(&self) -> bool {
        self.count >= 2
    }

    fn add(&mut self, item: P::Item) -> Result<(), (NoMemory, P::Item)> {
        let Some(count) = self.count.checked_add(1) else {
            return Err((NoMemory, item));
        };
        match add_item(&self.program, &mut self.entries, &mut self.made, item) {
            Ok(()) => {
                self.count = count;
                Ok(())
            }
            Err(refused) => Err(refused),
        }
    }

    fn process(&mut self, _program: &P, n: u64, acc: &mut P::Value) -> Result<u64, Stopped> {
        expand_some(
            &self.program,
            n,
            &mut self.entries,
            &mut self.made,
            &mut self.group,
            &mut self.count,
            acc,
        )
    }

    fn split(&mut self) -> Result<Option<Self>, NoMemory> {
        let alloc = *self.entries.allocator();
        let Some(part) = cut_half(&self.program, &mut self.entries, &mut self.made)? else {
            return Ok(None);
        };
        let count = count_part(&self.program, &part, &self.entries, self.count);
        self.count = self.count.saturating_sub(count);
        let Half { entries, made } = part;
        Ok(Some(RangeBag {
            program: self.program,
            entries,
            made,
            count,
            group: Group::new(alloc),
        }))
    }

    fn merge(&mut self, other: Self) -> Result<(), (NoMemory, Self)> {
        let RangeBag {
            program,
            entries,
            made,
            count,
            group,
        } = other;
        let other = Half { entries, made };
        let Err(other) = merge_entries(
            &self.program,
            &mut self.entries,
            &mut self.made,
            &mut self.count,
            other,
            count,
        ) else {
            return Ok(());
        };
        let Half { entries, made } = other;
        Err((
            NoMemory,
            RangeBag {
                program,
                entries,
                made,
                count,
                group,
            },
        ))
    }
}
