//! What a range bag splits off.
ghost use Rattle.std.specs.Prelude.{◌≡◌, ◌%◌, get_or, IfOk};
ghost use Rattle.glb_laws.specs.Bounded.{sat_sum};

use glb_bags::RangeBag;
use glb_laws::{Bag, NoMemory, Program, Ranged, SatSum};
use glb_uts::{Node, Uts};
use std::alloc::Global;
use std::process::Abort;
use std::test::Fail;

/// A tree whose nodes count for the first bytes of their descriptors, so that they are told apart.
#[derive(Clone, Copy)]
struct FirstBytes(Uts);

fn first_byte(node: &Node) -> SatSum
    ensures { result ≡ sat_sum (get_or node.now.descriptor 0 0 % 256) }
{
    SatSum(u64::from(node.descriptor[0]))
}

impl Program for FirstBytes {
    ghost use Rattle.std.specs.Prelude.{◌%◌, get_or};
    ghost use Rattle.std.proofs.Common.{arith};
    ghost use Rattle.glb_laws.specs.Bounded.{sat_sum};
    ghost use Rattle.glb_uts.specs.Binomial.{children};

    type Item = Node;

    type Value = SatSum;

    ghost children = { λ p x. children p.0 x };

    ghost value = { λ _ x. sat_sum (get_or x.descriptor 0 0 % 256) };

    ghost value_proper = { λ _ x. Prim.omega arith };

    fn expand(&self, node: &Node, out: &mut Vec<Node>) -> Result<SatSum, NoMemory> {
        match self.0.expand(node, out) {
            Ok(_) => Ok(first_byte(node)),
            Err(no_memory) => Err(no_memory),
        }
    }
}

impl Ranged for FirstBytes {
    fn fan(&self, node: &Node) -> u64 {
        self.0.fan(node)
    }

    fn child(&self, node: &Node, number: u64) -> Node {
        self.0.child(node, number)
    }

    fn weigh(&self, node: &Node) -> Result<SatSum, NoMemory> {
        Ok(first_byte(node))
    }
}

/// The items of the bag count for this, in the order in which they are taken.
fn are_taken<R: Abort>(
    rt: &R,
    bag: RangeBag<FirstBytes>,
    tree: &FirstBytes,
    values: &[u64],
) -> Result<(), Fail>
    requires { bag.0 ≡ tree.now }
{
    let mut bag = bag;
    for wanted in values {
        let mut value = SatSum(0);
        assert_eq!(rt; bag.process(tree, 1, &mut value)?, 1);
        assert_eq!(rt; value, SatSum(*wanted));
    }
    assert_eq!(rt; bag.len(), 0);
    Ok(())
}

/// A bag with the children of the root.
fn children_of(alloc: Global, tree: &FirstBytes) -> Result<RangeBag<FirstBytes>, Fail>
    ensures { IfOk result (λ bag. bag.0 ≡ tree.now) }
{
    let mut bag = RangeBag::empty(alloc, tree);
    if bag.add(tree.0.root()).is_err() {
        return Err(Fail::new("no memory"));
    }
    let mut value = SatSum(0);
    match bag.process(tree, 1, &mut value) {
        Ok(_) => Ok(bag),
        Err(_) => Err(Fail::new("no memory")),
    }
}

// Another program hashed the root and its children 0 to 4, which begin with the bytes 154, 126,
// 105, 157, 71 and 243.
#[test]
fn five_children_are_split_into_two_and_three(rt: HostRuntime) -> Result<(), Fail> {
    let tree = FirstBytes(Uts::new(5, 0, 0, 1));
    let mut bag = children_of(rt.alloc(), &tree)?;
    assert_eq!(rt; bag.len(), 5);
    let Some(part) = bag.split()? else {
        return Err(Fail::new("nothing was split off"));
    };
    are_taken(&rt, part, &tree, &[105, 126])?;
    are_taken(&rt, bag, &tree, &[243, 71, 157])
}

#[test]
fn five_children_are_one_entry_beside_another_node(rt: HostRuntime) -> Result<(), Fail> {
    let tree = FirstBytes(Uts::new(5, 0, 0, 1));
    let mut bag = children_of(rt.alloc(), &tree)?;
    assert!(rt; bag.add(tree.0.root()).is_ok());
    let Some(part) = bag.split()? else {
        return Err(Fail::new("nothing was split off"));
    };
    assert_eq!(rt; bag.len(), 1);
    are_taken(&rt, part, &tree, &[243, 71, 157, 105, 126])
}
