//! The children of nodes by their numbers, hashed side by side also where their parents differ.
ghost use Rattle.std.specs.Prelude.{◌≡◌, ◌+◌, ◌^◌, ◌<◌, ◌≤◌, All, IsTrue, length, map};
ghost use Rattle.glb_uts.specs.inner.Siblings.{child_of, IsWithin, IsRow, HaveDescriptors};

use super::node::Node;
use super::uts::{Uts, node_value};
use glb_lanes::{eight, four};
use glb_laws::{Both, Greatest, NoMemory, Program, Ranged, SatSum};

impl Ranged for Uts {
    fn fan(&self, node: &Node) -> u64 {
        u64::from(self.fan_of(node))
    }

    fn child(&self, node: &Node, number: u64) -> Node {
        let _fan = self.fan_of(node);
        node.child(number as u32)
    }

    fn weigh(&self, node: &Node) -> Result<Both<SatSum, Both<SatSum, Greatest>>, NoMemory> {
        Ok(node_value(node.depth, self.fan_of(node)))
    }

    fn make(&self, asked: &[(Node, u64)], into: &mut [Node]) {
        // A number that is asked for is below this one, and so within 32 bits.
        let _widest = self.widest();
        make_all(asked, into)
    }
}

/// Makes so many children, in groups of eight.
fn make_all(asked: &[(Node, u64)], into: &mut [Node])
    requires lengths { length asked.now ≡ length into.old }
    requires within { All IsWithin asked.now }
    ensures { into.new ≡ map child_of asked.now }
{
    let groups = asked.len() / 8;
    'groups: for group in 0..groups {
        let from = 8 * group;
        make_group(&asked[from..from + 8], &mut into[from..from + 8]);
    }
    let from = 8 * groups;
    make_rest(&asked[from..], &mut into[from..]);
}

/// Makes eight children. Those of one parent by numbers in a row have most of their work in common.
fn make_group(asked: &[(Node, u64)], into: &mut [Node])
    requires eight { length asked.now ≡ 8 }
    requires lengths { length asked.now ≡ length into.old }
    requires within { All IsWithin asked.now }
    ensures { into.new ≡ map child_of asked.now }
{
    if is_row(asked) {
        make_row(asked, into);
    } else {
        make_eight(asked, into);
    }
}

/// Whether children are those of one parent by numbers in a row.
#[inline(always)]
fn is_row(asked: &[(Node, u64)]) -> bool
    requires some { 0 < length asked.now }
    requires few { length asked.now ≤ 8 }
    requires within { All IsWithin asked.now }
    ensures { IsTrue result → IsRow asked.now }
{
    let (parent, first) = &asked[0];
    'row: for i in 1..asked.len() {
        let (node, number) = &asked[i];
        if node.descriptor != parent.descriptor || *number != *first + i as u64 {
            return false;
        }
    }
    true
}

/// Makes eight children of one parent.
fn make_row(asked: &[(Node, u64)], into: &mut [Node])
    requires eight { length asked.now ≡ 8 }
    requires lengths { length asked.now ≡ length into.old }
    requires within { All IsWithin asked.now }
    requires row { IsRow asked.now }
    ensures { into.new ≡ map child_of asked.now }
{
    let (parent, first) = &asked[0];
    let descriptors = eight::children(&parent.descriptor, *first as u32);
    put_nodes(asked, &descriptors, into);
}

/// Four lanes take about half as long as eight, and little longer than one hash alone.
fn make_rest(asked: &[(Node, u64)], into: &mut [Node])
    requires rest { length asked.now < 8 }
    requires lengths { length asked.now ≡ length into.old }
    requires within { All IsWithin asked.now }
    ensures { into.new ≡ map child_of asked.now }
{
    match asked.len() {
        0 => {}
        1 => into[0] = asked[0].0.child(asked[0].1 as u32),
        2..=4 => make_four(asked, into),
        _ => make_eight(asked, into),
    }
}

/// Makes at most eight children, one in each lane. What is in a lane that is not asked for does not
/// matter.
fn make_eight(asked: &[(Node, u64)], into: &mut [Node])
    requires eight { length asked.now ≤ 8 }
    requires lengths { length asked.now ≡ length into.old }
    requires within { All IsWithin asked.now }
    ensures { into.new ≡ map child_of asked.now }
{
    let mut parents = [[0; 20]; 8];
    let mut numbers = [0; 8];
    'asked: for i in 0..asked.len() {
        parents[i] = asked[i].0.descriptor;
        numbers[i] = asked[i].1 as u32;
    }
    let descriptors = eight::digests(&parents, &numbers);
    put_nodes(asked, &descriptors, into);
}

/// Makes at most four children, one in each lane.
fn make_four(asked: &[(Node, u64)], into: &mut [Node])
    requires four { length asked.now ≤ 4 }
    requires lengths { length asked.now ≡ length into.old }
    requires within { All IsWithin asked.now }
    ensures { into.new ≡ map child_of asked.now }
{
    let mut parents = [[0; 20]; 4];
    let mut numbers = [0; 4];
    'asked: for i in 0..asked.len() {
        parents[i] = asked[i].0.descriptor;
        numbers[i] = asked[i].1 as u32;
    }
    let descriptors = four::digests(&parents, &numbers);
    put_nodes(asked, &descriptors, into);
}

/// Puts a node for each child that is asked for, with its descriptor.
#[inline(always)]
fn put_nodes(asked: &[(Node, u64)], descriptors: &[[u8; 20]], into: &mut [Node])
    requires enough { length asked.now ≤ length descriptors.now }
    requires lengths { length asked.now ≡ length into.old }
    requires within { All IsWithin asked.now }
    requires descriptors { HaveDescriptors asked.now descriptors.now }
    ensures { into.new ≡ map child_of asked.now }
{
    'nodes: for i in 0..asked.len() {
        into[i] = Node {
            descriptor: descriptors[i],
            depth: asked[i].0.depth + 1,
            root: false,
        };
    }
}
