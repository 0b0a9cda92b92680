//! The tree of a seed, as a program.
ghost use Rattle.std.specs.Prelude.{◌≡◌, ℕ, [], ◌∷◌, ◌+◌, ◌-◌, ◌^◌, ◌<◌, ◌≤◌, ◌++◌, ◌==◌, true, min, cond, map, List, OnOk, OnErr, vec_len, vec_capacity};
ghost use Rattle.glb_laws.specs.Bounded.{sat_sum, greatest};
ghost use Rattle.glb_laws.specs.Pair.{both};
ghost use Rattle.std.specs.List.{range_with_len};
ghost use Rattle.glb_uts.specs.Descriptors.{root_descriptor};
ghost use Rattle.glb_uts.specs.Binomial.{child};

use super::children::push_children;
use super::node::Node;
use glb_laws::{Both, Greatest, Monoid, NoMemory, Program, SatSum};

/// A binomial tree: its root has `b0` children, and every other node `m` of them where its draw is
/// below `q`, and else none.
#[derive(Clone, Copy, Debug)]
pub struct Uts {
    b0: u32,
    m: u32,
    q: u32,
    seed: u32,
}

impl Uts {
    ghost use Rattle.glb_laws.specs.Tree.{IsSmall, nodes, answer};
    ghost use Rattle.glb_uts.specs.Binomial.{fan, children, value_of};
    ghost use Rattle.glb_uts.specs.Totals.{totals_of};

    /// The tree of a seed.
    pub fn new(b0: u32, m: u32, q: u32, seed: u32) -> Uts
        requires b0 { b0 ≤ 100000 }
        requires m { m ≤ 16 }
        requires q { q ≤ 2 ^ 31 }
        ensures b0 { result.b0 ≡ b0 }
        ensures m { result.m ≡ m }
        ensures q { result.q ≡ q }
        ensures seed { result.seed ≡ seed }
    {
        Uts { b0, m, q, seed }
    }

    /// The root of the tree. Where the tree has at most 2^40 nodes, the answer is their number, how
    /// many of them have no children, and the greatest depth.
    pub fn root(&self) -> Node
        ensures descriptor { result.descriptor ≡ root_descriptor self.now.seed }
        ensures depth { result.depth ≡ 0 }
        ensures root { result.root ≡ true }
        ensures answer { (most : ℕ) → most ≤ 2 ^ 40
            → IsSmall (children self.now) (result ∷ []) most
            → answer (children self.now) (value_of self.now)
            ⟦<Both<SatSum, Both<SatSum, Greatest>> as Monoid>⟧.unit
            ⟦<Both<SatSum, Both<SatSum, Greatest>> as Monoid>⟧.combine (result ∷ []) most
            ≡ totals_of self.now (nodes (children self.now) (result ∷ []) most) }
    {
        Node::root(self.seed)
    }

    /// No node has more children.
    pub(crate) fn widest(&self) -> u32
        ensures root { self.now.b0 ≤ result }
        ensures others { self.now.m ≤ result }
    {
        self.b0.max(self.m)
    }

    pub(crate) fn fan_of(&self, node: &Node) -> u32
        ensures { result ≡ fan self.now node.now }
    {
        if node.depth >= 1 << 41 {
            0
        } else if node.root {
            self.b0
        } else if node.draw() < self.q {
            self.m
        } else {
            0
        }
    }
}

impl Program for Uts {
    ghost use Rattle.glb_uts.specs.Binomial.{children, value_of, value_is_proper};

    type Item = Node;

    type Value = Both<SatSum, Both<SatSum, Greatest>>;

    ghost children = { children };

    ghost value = { value_of };

    fn expand(&self, node: &Node, out: &mut Vec<Node>) -> Result<Self::Value, NoMemory> {
        let fan = self.fan_of(node);
        push_children(node, fan, out)?;
        Ok(node_value(node.depth, fan))
    }

    ghost value_proper = { value_is_proper };
}

/// One node, and a leaf where it has no children.
pub(crate) fn node_value(depth: u64, fan: u32) -> Both<SatSum, Both<SatSum, Greatest>>
    ensures { result ≡ both (sat_sum 1)
        (both (sat_sum (cond (fan == 0) 1 0)) (greatest (min depth (2 ^ 64 - 1)))) }
{
    Both(SatSum(1), Both(SatSum((fan == 0) as u64), Greatest(depth)))
}
