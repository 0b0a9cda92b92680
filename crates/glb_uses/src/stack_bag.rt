//! A bag of its own: the items in a list, of which the last is taken first.
ghost use Rattle.std.specs.Prelude.{◌≡◌, ◌<◌, length, IfOk, OnErr};
ghost use Rattle.glb_uses.specs.inner.Tops.{TakesTop};

use glb_laws::{Bag, Monoid, NoMemory, Program, Stopped};
use std::alloc::Global;
use std::mem;

/// A bag that takes the last item first, and splits off the first half.
#[derive(Drop)]
pub struct StackBag<P: Program> {
    items: Vec<P::Item>,
    /// Where the children of an item are put before they join the items.
    children: Vec<P::Item>,
}

impl<P: Program> StackBag<P> {
    /// Expands the last item, and answers whether there was one. Where there is no memory, it is
    /// put back.
    fn expand_top(&mut self, program: &P, acc: &mut P::Value) -> Result<bool, NoMemory>
        ensures top { IfOk result (λ some. TakesTop (P.children program.now) (P.value program.now)
            P.Value.combine self.old.items.items acc.old some self.new.items.items acc.new) }
        ensures items_stay { OnErr result (self.new.items.items ≡ self.old.items.items) }
        ensures value_stays { OnErr result (acc.new ≡ acc.old) }
        ensures some { OnErr result (0 < length self.new.items.items) }
    {
        let Some(item) = self.items.pop() else {
            return Ok(false);
        };
        self.children.clear();
        if let Ok(value) = program.expand(&item, &mut self.children) {
            if self.items.append(&mut self.children).is_ok() {
                *acc = acc.combine(&value);
                return Ok(true);
            }
        }
        self.items.push_reserved(item);
        Err(NoMemory)
    }
}

impl<P: Program> Bag<P> for StackBag<P> {
    ghost items = { λ bag. bag.items.items };

    ghost fits = { λ _ _. Unit {0} };

    fn empty(alloc: Global, _program: &P) -> Self {
        StackBag {
            items: Vec::new(alloc),
            children: Vec::new(alloc),
        }
    }

    fn len(&self) -> u64 {
        self.items.len() as u64
    }

    fn can_split(&self) -> bool {
        self.items.len() >= 2
    }

    fn add(&mut self, item: P::Item) -> Result<(), (NoMemory, P::Item)> {
        match self.items.push(item) {
            Ok(()) => Ok(()),
            Err(refused) => Err((NoMemory, refused.value)),
        }
    }

    fn process(&mut self, program: &P, n: u64, acc: &mut P::Value) -> Result<u64, Stopped> {
        for done in 0..n {
            match self.expand_top(program, acc) {
                Ok(true) => {}
                Ok(false) => return Ok(done),
                Err(_) => return Err(Stopped { done }),
            }
        }
        Ok(n)
    }

    fn split(&mut self) -> Result<Option<Self>, NoMemory> {
        let half = self.items.len() / 2;
        if half == 0 {
            return Ok(None);
        }
        let upper = self.items.split_off(half)?;
        Ok(Some(StackBag {
            items: mem::replace(&mut self.items, upper),
            children: Vec::new(*self.items.allocator()),
        }))
    }

    fn merge(&mut self, other: Self) -> Result<(), (NoMemory, Self)> {
        let mut other = other;
        match self.items.append(&mut other.items) {
            Ok(()) => Ok(()),
            Err(_) => Err((NoMemory, other)),
        }
    }
}
