//! Nodes, and the descriptors of roots and children.
ghost use Rattle.std.specs.Prelude.{◌≡◌, ◌+◌, ◌-◌, ◌<◌, ◌^◌, ◌++◌, true, false};
ghost use Rattle.std.specs.Int.{w32, to_be_bytes};
ghost use Rattle.glb_uts.specs.Descriptors.{root_descriptor, draw};
ghost use Rattle.glb_uts.specs.Binomial.{child};

use sha1::Sha1;

/// A node of a tree.
#[derive(Clone, Copy, Debug, PartialEq, Eq)]
pub struct Node {
    pub descriptor: [u8; 20],
    pub depth: u64,
    pub root: bool,
}

impl Node {
    /// The root of the tree of a seed.
    pub(crate) fn root(seed: u32) -> Node
        ensures descriptor { result.descriptor ≡ root_descriptor seed }
        ensures depth { result.depth ≡ 0 }
        ensures root { result.root ≡ true }
    {
        let mut message = [0; 20];
        message[16..].copy_from_slice(&seed.to_be_bytes());
        Node {
            descriptor: Sha1::digest(&message),
            depth: 0,
            root: true,
        }
    }

    /// The child of this number, counted from 0.
    pub(crate) fn child(&self, number: u32) -> Node
        requires { self.now.depth < 2 ^ 64 - 1 }
        ensures { result ≡ child self.now number }
    {
        let message = child_message(&self.descriptor, number);
        Node {
            descriptor: Sha1::digest(&message),
            depth: self.depth + 1,
            root: false,
        }
    }

    /// A random number below 2^31, by which a node has children or not.
    pub(crate) fn draw(&self) -> u32
        ensures { result ≡ draw self.now.descriptor }
    {
        let bytes = &self.descriptor;
        u32::from_be_bytes([bytes[16], bytes[17], bytes[18], bytes[19]]) & 0x7fff_ffff
    }
}

fn child_message(parent: &[u8; 20], number: u32) -> [u8; 24]
    ensures { result ≡ parent.now ++ to_be_bytes w32 number }
{
    let mut message = [0; 24];
    message[..20].copy_from_slice(parent);
    message[20..].copy_from_slice(&number.to_be_bytes());
    message
}
