//! A program of its own: how many choices of some weights add up to a target.
ghost use Rattle.std.specs.Prelude.{◌≡◌};
ghost use Rattle.glb_uses.specs.SubsetSums.{CountsSums, undecided};

use glb_laws::{NoMemory, Program, SatSum};

/// The weights from `next` on are still to be chosen or left, and so much is missing.
#[derive(Clone, Copy, Debug, PartialEq, Eq)]
pub struct Undecided {
    pub next: usize,
    pub missing: u64,
}

/// The tree of all choices of some weights, none of which takes more than the target.
#[derive(Drop)]
pub struct SubsetSums {
    pub weights: Vec<u64>,
}

impl SubsetSums {
    /// Nothing is decided. The answer of its tree is how many choices add up to the target.
    pub fn root(&self, target: u64) -> Undecided
        ensures root { result ≡ undecided target }
        ensures answer { CountsSums self.now.weights.items result target }
    {
        Undecided {
            next: 0,
            missing: target,
        }
    }
}

impl Program for SubsetSums {
    ghost use Rattle.glb_uses.specs.SubsetSums.{further, worth, worth_proper};

    type Item = Undecided;

    type Value = SatSum;

    ghost children = { λ sums x. further sums.weights.items x };

    ghost value = { λ sums x. worth sums.weights.items x };

    ghost value_proper = { λ sums x. worth_proper sums.weights.items x };

    fn expand(&self, item: &Undecided, out: &mut Vec<Undecided>) -> Result<SatSum, NoMemory> {
        let Undecided { next, missing } = *item;
        if next >= self.weights.len() {
            return Ok(SatSum((missing == 0) as u64));
        }
        let weight = self.weights[next];
        let next = next + 1;
        out.reserve(2)?;
        out.push_reserved(Undecided { next, missing });
        if weight <= missing {
            let missing = missing - weight;
            out.push_reserved(Undecided { next, missing });
        }
        Ok(SatSum(0))
    }
}
