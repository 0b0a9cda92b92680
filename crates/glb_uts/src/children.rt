//! The children of a node, hashed side by side: in groups of eight, and the last of them in groups
//! of four.
ghost use Rattle.std.specs.Prelude.{◌≡◌, ◌+◌, ◌^◌, ◌<◌, ◌≤◌, ◌++◌, length, map, OnOk, OnErr, vec_len, vec_capacity};
ghost use Rattle.std.specs.List.{range_with_len};
ghost use Rattle.glb_uts.specs.Binomial.{child};
ghost use Rattle.glb_uts.specs.inner.Siblings.{node_at};

use super::node::Node;
use glb_lanes::{eight, four};
use glb_laws::NoMemory;

/// Appends so many children of a node, by rising number.
pub(crate) fn push_children(node: &Node, fan: u32, out: &mut Vec<Node>) -> Result<(), NoMemory>
    requires { 0 < fan → node.now.depth < 2 ^ 41 }
    ensures appended { OnOk result (out.new.items
        ≡ out.old.items ++ map (child node.now) (range_with_len 0 fan)) }
    ensures unchanged { OnErr result (out.new.items ≡ out.old.items) }
{
    if out.reserve(fan as usize).is_err() {
        return Err(NoMemory);
    }
    let eights = fan / 8;
    'eights: for group in 0..eights {
        push_eight(node, 8 * group, out);
    }
    push_rest(node, 8 * eights, fan % 8, out);
    Ok(())
}

/// Four lanes take about half as long as eight, and little longer than one hash alone.
fn push_rest(node: &Node, first: u32, rest: u32, out: &mut Vec<Node>)
    requires depth { 0 < rest → node.now.depth < 2 ^ 41 }
    requires rest { rest < 8 }
    requires numbers { first + 8 ≤ 2 ^ 32 }
    requires room { vec_len out.old + rest ≤ vec_capacity out.old }
    ensures { out.new.items ≡ out.old.items ++ map (child node.now) (range_with_len first rest) }
{
    if rest == 0 {
        return;
    }
    if rest == 1 {
        out.push_reserved(node.child(first));
    } else if rest <= 4 {
        push_four(node, first, rest as usize, out);
    } else {
        push_four(node, first, 4, out);
        push_four(node, first + 4, rest as usize - 4, out);
    }
}

/// Appends the eight children from `first` on.
fn push_eight(node: &Node, first: u32, out: &mut Vec<Node>)
    requires depth { node.now.depth < 2 ^ 41 }
    requires numbers { first + 8 ≤ 2 ^ 32 }
    requires room { vec_len out.old + 8 ≤ vec_capacity out.old }
    ensures items { out.new.items
        ≡ out.old.items ++ map (child node.now) (range_with_len first 8) }
    ensures len { vec_len out.new ≡ vec_len out.old + 8 }
    ensures capacity { vec_capacity out.new ≡ vec_capacity out.old }
{
    let descriptors = eight::children(&node.descriptor, first);
    push_nodes(&descriptors, node.depth + 1, out);
}

/// Appends so many children from `first` on, at most four.
fn push_four(node: &Node, first: u32, count: usize, out: &mut Vec<Node>)
    requires depth { node.now.depth < 2 ^ 41 }
    requires numbers { first + 4 ≤ 2 ^ 32 }
    requires count { count ≤ 4 }
    requires room { vec_len out.old + count ≤ vec_capacity out.old }
    ensures items { out.new.items
        ≡ out.old.items ++ map (child node.now) (range_with_len first count) }
    ensures len { vec_len out.new ≡ vec_len out.old + count }
    ensures capacity { vec_capacity out.new ≡ vec_capacity out.old }
{
    let descriptors = four::children(&node.descriptor, first);
    push_nodes(&descriptors[..count], node.depth + 1, out);
}

/// Appends a node of this depth for each descriptor.
#[inline(always)]
fn push_nodes(descriptors: &[[u8; 20]], depth: u64, out: &mut Vec<Node>)
    requires room { vec_len out.old + length descriptors.now ≤ vec_capacity out.old }
    ensures items { out.new.items ≡ out.old.items ++ map (node_at depth) descriptors.now }
    ensures len { vec_len out.new ≡ vec_len out.old + length descriptors.now }
    ensures capacity { vec_capacity out.new ≡ vec_capacity out.old }
{
    'nodes: for descriptor in descriptors {
        out.push_reserved(Node {
            descriptor: *descriptor,
            depth,
            root: false,
        });
    }
}
