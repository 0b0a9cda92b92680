//! Programs and bags that are refused memory where a caller says so, for tests of what stands then.
use glb_laws::{Bag, NoMemory, Program, Stopped};
use std::alloc::Global;

/// Which items find no memory. The answer for an item is always the same.
pub trait Refuses<I>: Drop {
    fn refuses(&self, item: &I) -> bool;
}

/// The inner program, with the same tree. It finds no memory where `refuse` says so, and tells its
/// bags to find none for splits or for merges.
#[derive(Drop)]
pub struct Shy<P: Program, R: Refuses<P::Item>> {
    pub inner: P,
    pub refuse: R,
    pub split: bool,
    pub merge: bool,
}

impl<P: Program, R: Refuses<P::Item>> Program for Shy<P, R> {
    type Item = P::Item;

    type Value = P::Value;

    ghost children = { λ shy x. P.children shy.inner x };

    ghost value = { λ shy x. P.value shy.inner x };

    ghost value_proper = { λ shy x. P.value_proper shy.inner x };

    fn expand(&self, item: &P::Item, out: &mut Vec<P::Item>) -> Result<P::Value, NoMemory> {
        if self.refuse.refuses(item) {
            return Err(NoMemory);
        }
        self.inner.expand(item, out)
    }
}

/// The inner bag, whose splits, where it could give a part, and whose merges find no memory where
/// the program said so when the bag was made.
#[derive(Drop)]
pub struct ShyBag<B> {
    inner: B,
    split: bool,
    merge: bool,
}

impl<P: Program, R: Refuses<P::Item>, B: Bag<Shy<P, R>>> Bag<Shy<P, R>> for ShyBag<B> {
    ghost items = { λ bag. B.items bag.inner };

    ghost fits = { λ bag shy. B.fits bag.inner shy };

    fn empty(alloc: Global, program: &Shy<P, R>) -> Self {
        ShyBag {
            inner: B::empty(alloc, program),
            split: program.split,
            merge: program.merge,
        }
    }

    fn len(&self) -> u64 {
        self.inner.len()
    }

    fn can_split(&self) -> bool {
        self.inner.can_split()
    }

    fn add(&mut self, item: P::Item) -> Result<(), (NoMemory, P::Item)> {
        self.inner.add(item)
    }

    fn process(&mut self, program: &Shy<P, R>, n: u64, acc: &mut P::Value) -> Result<u64, Stopped> {
        self.inner.process(program, n, acc)
    }

    fn split(&mut self) -> Result<Option<Self>, NoMemory> {
        if self.split && self.inner.can_split() {
            return Err(NoMemory);
        }
        let Some(inner) = self.inner.split()? else {
            return Ok(None);
        };
        Ok(Some(ShyBag {
            inner,
            split: self.split,
            merge: self.merge,
        }))
    }

    fn merge(&mut self, other: Self) -> Result<(), (NoMemory, Self)> {
        if self.merge {
            return Err((NoMemory, other));
        }
        let ShyBag {
            inner,
            split,
            merge,
        } = other;
        match self.inner.merge(inner) {
            Ok(()) => Ok(()),
            Err((no_memory, inner)) => Err((
                no_memory,
                ShyBag {
                    inner,
                    split,
                    merge,
                },
            )),
        }
    }
}
