//! Trees, walked by expansion alone.
use super::{Node, Uts};
use glb_laws::{Both, Greatest, Monoid, Program, SatSum};
use sha1::Sha1;
use std::alloc::Global;
use std::test::Fail;

type Value = Both<SatSum, Both<SatSum, Greatest>>;

#[test]
fn hashes_are_those_of_the_standard(rt: HostRuntime) {
    let digest = [
        0xa9, 0x99, 0x3e, 0x36, 0x47, 0x06, 0x81, 0x6a, 0xba, 0x3e, 0x25, 0x71, 0x78, 0x50, 0xc2,
        0x6c, 0x9c, 0xd0, 0xd8, 0x9d,
    ];
    assert_eq!(rt; Sha1::digest(b"abc"), digest);
}

#[test]
fn the_seed_ends_the_text_of_the_root(rt: HostRuntime) {
    let text = [
        0, 0, 0, 0, 0, 0, 0, 0, 0, 0, 0, 0, 0, 0, 0, 0, 0, 0, 0, 0x2a,
    ];
    let root = Uts::new(3, 8, 0, 42).root();
    assert_eq!(rt;
        root,
        Node {
            descriptor: Sha1::digest(&text),
            depth: 0,
            root: true
        }
    );
}

#[test]
fn the_root_has_its_own_number_of_children(rt: HostRuntime) -> Result<(), Fail> {
    let uts = Uts::new(3, 8, 0, 42);
    let root = uts.root();
    let mut out = Vec::new(rt.alloc());
    match uts.expand(&root, &mut out) {
        Ok(value) => assert_eq!(rt; value, Both(SatSum(1), Both(SatSum(0), Greatest(0)))),
        Err(_) => return Err(Fail::from("no memory")),
    }
    assert_eq!(rt; out.len(), 3);
    let mut message = [0; 24];
    message[..20].copy_from_slice(&root.descriptor);
    for node in &out {
        assert_eq!(rt;
            *node,
            Node {
                descriptor: Sha1::digest(&message),
                depth: 1,
                root: false
            }
        );
        message[23] = message[23].wrapping_add(1);
    }
    Ok(())
}

#[test]
fn children_of_every_width_have_the_digests_of_their_numbers(rt: HostRuntime) -> Result<(), Fail> {
    let mut out = Vec::new(rt.alloc());
    for width in 0..36u32 {
        let uts = Uts::new(width, 8, 0, 42);
        let root = uts.root();
        out.clear();
        if uts.expand(&root, &mut out).is_err() {
            return Err(Fail::from("no memory"));
        }
        assert_eq!(rt; out.len(), width as usize);
        let mut number = 0u32;
        for node in &out {
            let mut hasher = Sha1::new();
            hasher.update(&root.descriptor);
            hasher.update(&number.to_be_bytes());
            assert_eq!(rt; node.descriptor, hasher.finalize());
            number = number.wrapping_add(1);
        }
    }
    Ok(())
}

#[test]
fn no_node_is_deeper_than_two_to_the_41(rt: HostRuntime) -> Result<(), Fail> {
    let uts = Uts::new(3, 2, 2147483648, 42);
    let descriptor = uts.root().descriptor;
    let mut out = Vec::new(rt.alloc());
    for (depth, children) in [
        (2199023255551, 2),
        (2199023255552, 0),
        (18446744073709551615, 0),
    ] {
        out.clear();
        let node = Node {
            descriptor,
            depth,
            root: false,
        };
        match uts.expand(&node, &mut out) {
            Ok(value) => assert_eq!(rt; value.1.1, Greatest(depth)),
            Err(_) => return Err(Fail::from("no memory")),
        }
        assert_eq!(rt; out.len(), children);
    }
    Ok(())
}

// The nodes of a tree, and their value together.
fn walk(alloc: Global, uts: &Uts) -> Result<(u64, Value), Fail> {
    let mut left = Vec::new(alloc);
    left.push(uts.root())?;
    let mut items = 0u64;
    let mut total = Value::unit();
    for _ in 0..10000000 {
        let Some(node) = left.pop() else {
            return Ok((items, total));
        };
        items = items.wrapping_add(1);
        match uts.expand(&node, &mut left) {
            Ok(value) => total = total.combine(&value),
            Err(_) => return Err(Fail::from("no memory")),
        }
    }
    Err(Fail::from("ten million nodes and more"))
}

#[test]
fn trees_have_the_known_numbers(rt: HostRuntime) -> Result<(), Fail> {
    let trees = [
        (Uts::new(0, 8, 0, 42), 1, 1, 0),
        (Uts::new(3, 8, 0, 42), 4, 3, 1),
        (Uts::new(2000, 4, 483183820, 7), 18361, 14270, 38),
        (Uts::new(1000, 16, 134200000, 2), 90505, 84910, 107),
        // the binomial sample tree of the benchmark, as published
        (Uts::new(2000, 8, 268167021, 42), 4112897, 3599034, 1572),
    ];
    for (uts, nodes, leaves, depth) in trees {
        let value = Both(SatSum(nodes), Both(SatSum(leaves), Greatest(depth)));
        assert_eq!(rt; walk(rt.alloc(), &uts)?, (nodes, value));
    }
    Ok(())
}
