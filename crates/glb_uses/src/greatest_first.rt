//! A monoid of its own: the greatest of some measures, with the first number that has it. The
//! program beside it looks for the number with the most divisors.
ghost use Rattle.std.specs.Prelude.{◌≡◌};
ghost use Rattle.glb_uses.specs.GreatestFirst.{divisors};

use glb_laws::{Monoid, NoMemory, Program};

/// The greatest of some measures, and the first of the numbers that have it.
#[derive(Clone, Copy, Debug, PartialEq, Eq)]
pub enum GreatestFirst {
    Nothing,
    Found { greatest: u64, first: u64 },
}

impl Monoid for GreatestFirst {
    ghost use Rattle.glb_uses.specs.declared.greatest_first.GreatestFirst.TheVariants.{Nothing};
    ghost use Rattle.glb_uses.specs.GreatestFirst.{better, better_laws};

    ghost is_proper = { λ _. Unit {0} };

    ghost unit = { Nothing };

    ghost combine = { better };

    ghost monoid_laws = { better_laws };

    fn unit() -> Self {
        GreatestFirst::Nothing
    }

    fn combine(&self, other: &Self) -> Self {
        match (*self, *other) {
            (GreatestFirst::Nothing, _) => *other,
            (_, GreatestFirst::Nothing) => *self,
            (
                GreatestFirst::Found { greatest: a, first },
                GreatestFirst::Found {
                    greatest: b,
                    first: second,
                },
            ) => {
                if a > b {
                    *self
                } else if b > a {
                    *other
                } else {
                    GreatestFirst::Found {
                        greatest: a,
                        first: first.min(second),
                    }
                }
            }
        }
    }

    fn known(&self) {}
}

/// The numbers from `from` up to the one before `to`.
#[derive(Clone, Copy, Debug, PartialEq, Eq)]
pub struct Span {
    pub from: u64,
    pub to: u64,
}

/// The tree of a span: its halves, theirs, and so on to the numbers, which are measured by how
/// many divisors they have.
#[derive(Drop)]
pub struct MostDivisors;

/// How many numbers divide it.
fn divisors(number: u64) -> u64
    ensures { result ≡ divisors number }
{
    let mut count = 0;
    for below in 0..number {
        if number % (below + 1) == 0 {
            count += 1;
        }
    }
    count
}

impl Program for MostDivisors {
    ghost use Rattle.glb_uses.specs.GreatestFirst.{halves, alone};

    type Item = Span;

    type Value = GreatestFirst;

    ghost children = { λ _ span. halves span };

    ghost value = { λ _ span. alone span };

    ghost value_proper = { λ _ _. tt };

    fn expand(&self, span: &Span, out: &mut Vec<Span>) -> Result<GreatestFirst, NoMemory> {
        let Span { from, to } = *span;
        let size = to.saturating_sub(from);
        if size == 1 {
            return Ok(GreatestFirst::Found {
                greatest: divisors(from),
                first: from,
            });
        }
        if size > 1 {
            let middle = from + size / 2;
            out.reserve(2)?;
            out.push_reserved(Span { from, to: middle });
            out.push_reserved(Span { from: middle, to });
        }
        Ok(GreatestFirst::Nothing)
    }
}
