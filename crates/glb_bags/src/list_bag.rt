//! A bag that keeps its items in a `Vec`. The children of an item go straight into it. Where there
//! is no memory for them, the item itself is held aside, since the `Vec` may have no room for it.
ghost use Rattle.std.specs.Prelude.{◌≡◌, ◌<◌, ◌≤◌, ◌↔◌, [], length, OnErr, OnOk, IfErr, IfOk, Some};
ghost use Rattle.glb_laws.specs.Expansion.{Expands};
ghost use Rattle.glb_bags.specs.ListBag.{with_held};
ghost use Rattle.glb_bags.specs.inner.LastItem.{TakesLast};

use glb_laws::{Bag, Monoid, NoMemory, Program, Stopped};
use std::alloc::Global;
use std::mem;

/// A bag that takes the last item first, and splits off the first half.
#[derive(Drop)]
pub struct ListBag<P: Program> {
    items: Vec<P::Item>,
    /// The last of the items, where it could not be expanded for want of memory.
    held: Option<P::Item>,
}

impl<P: Program> ListBag<P> {
    /// Puts the item that is held aside back among the others.
    fn put_back(&mut self) -> Result<(), NoMemory>
        ensures back { OnOk result
            (self.new.items.items ≡ with_held self.old.items.items self.old.held) }
        ensures none_held { OnOk result (self.new.held ≡ None) }
        ensures stays { OnErr result
            (with_held self.new.items.items self.new.held
            ≡ with_held self.old.items.items self.old.held) }
        ensures some { OnErr result (0 < length (with_held self.new.items.items self.new.held)) }
    {
        let Some(item) = self.held.take() else {
            return Ok(());
        };
        match self.items.push(item) {
            Ok(()) => Ok(()),
            Err(refused) => {
                self.held = Some(refused.value);
                Err(NoMemory)
            }
        }
    }
}

/// Expands the last item of a list, or hands it back where there is no memory.
#[inline(always)]
fn expand_last<P: Program>(
    program: &P,
    items: &mut Vec<P::Item>,
    acc: &mut P::Value,
) -> Result<(), P::Item>
    requires some { 0 < length items.old.items }
    ensures expanded { OnOk result
        (TakesLast (P.children program.now) (P.value program.now) P.Value.combine
        items.old.items acc.old items.new.items acc.new) }
    ensures stays { IfErr result (λ item. with_held items.new.items (Some item) ≡ items.old.items) }
    ensures value_stays { OnErr result (acc.new ≡ acc.old) }
{
    let Some(item) = items.pop() else {
        unreachable!()
    };
    match program.expand(&item, items) {
        Ok(value) => {
            *acc = acc.combine(&value);
            Ok(())
        }
        Err(_) => Err(item),
    }
}

/// Expands up to `n` items of a list, the last one first, and answers how many. Where there is no
/// memory it hands back the item that it was at.
#[inline(always)]
fn expand_some<P: Program>(
    program: &P,
    n: u64,
    items: &mut Vec<P::Item>,
    acc: &mut P::Value,
) -> Result<u64, (u64, P::Item)>
    requires some { 1 ≤ n }
    ensures done { IfOk result (λ k.
        Expands (P.children program.now) (P.value program.now) P.Value.combine
        items.old.items acc.old k items.new.items acc.new) }
    ensures most { IfOk result (λ k. k ≤ n) }
    ensures short { IfOk result (λ k. k < n → items.new.items ≡ []) }
    ensures none { IfOk result (λ k. (k ≡ 0) ↔ (items.old.items ≡ [])) }
    ensures stopped { IfErr result (λ e.
        Expands (P.children program.now) (P.value program.now) P.Value.combine
        items.old.items acc.old e.0 (with_held items.new.items (Some e.1)) acc.new) }
    ensures early { IfErr result (λ e. e.0 < n) }
{
    let mut done = 0;
    while done < n && !items.is_empty() {
        match expand_last(program, items, acc) {
            Ok(()) => done += 1,
            Err(item) => return Err((done, item)),
        }
    }
    Ok(done)
}

impl<P: Program> Bag<P> for ListBag<P> {
    ghost use Rattle.glb_bags.specs.ListBag.{with_held};

    ghost items = { λ b. with_held b.items.items b.held };

    ghost fits = { λ _ _. Unit {0} };

    fn empty(alloc: Global, _program: &P) -> Self {
        ListBag {
            items: Vec::new(alloc),
            held: None,
        }
    }

    fn len(&self) -> u64 {
        let held = if self.held.is_some() { 1 } else { 0 };
        (self.items.len() as u64).saturating_add(held)
    }

    fn can_split(&self) -> bool {
        match self.held {
            Some(_) => self.items.len() >= 1,
            None => self.items.len() >= 2,
        }
    }

    fn add(&mut self, item: P::Item) -> Result<(), (NoMemory, P::Item)> {
        match self.items.push(item) {
            Ok(()) => Ok(()),
            Err(refused) => Err((NoMemory, refused.value)),
        }
    }

    fn process(&mut self, program: &P, n: u64, acc: &mut P::Value) -> Result<u64, Stopped> {
        match self.put_back() {
            Ok(()) => {}
            Err(_) => return Err(Stopped { done: 0 }),
        }
        // A list of its own, whose ends the compiler can keep in registers, as it can the total.
        let alloc = *self.items.allocator();
        let mut items = mem::replace(&mut self.items, Vec::new(alloc));
        let mut total = *acc;
        let ended = expand_some(program, n, &mut items, &mut total);
        self.items = items;
        *acc = total;
        match ended {
            Ok(done) => Ok(done),
            Err((done, item)) => {
                self.held = Some(item);
                Err(Stopped { done })
            }
        }
    }

    fn split(&mut self) -> Result<Option<Self>, NoMemory> {
        self.put_back()?;
        let half = self.items.len() / 2;
        if half == 0 {
            return Ok(None);
        }
        let rest = self.items.split_off(half)?;
        let first = mem::replace(&mut self.items, rest);
        Ok(Some(ListBag {
            items: first,
            held: None,
        }))
    }

    fn merge(&mut self, other: Self) -> Result<(), (NoMemory, Self)> {
        let mut other = other;
        match self.put_back() {
            Ok(()) => {}
            Err(_) => return Err((NoMemory, other)),
        }
        match other.put_back() {
            Ok(()) => {}
            Err(_) => return Err((NoMemory, other)),
        }
        match self.items.append(&mut other.items) {
            Ok(()) => Ok(()),
            Err(_) => Err((NoMemory, other)),
        }
    }
}
