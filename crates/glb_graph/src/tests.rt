use super::{Dist, Graph, GraphFault, Spot, read_graph};
use glb_laws::{Monoid, Program};
use std::alloc::Global;
use std::test::Fail;

fn fault_of(alloc: Global, text: &str) -> Option<GraphFault> {
    match read_graph(alloc, text.as_bytes()) {
        Ok(_) => None,
        Err(fault) => Some(fault),
    }
}

#[test]
fn each_fault_is_told_with_its_line(rt: HostRuntime) {
    let alloc: Global = rt.alloc();
    let table: [(&str, GraphFault); 26] = [
        ("", GraphFault::BadEnd { line: 1 }),
        ("\n", GraphFault::BadLine { line: 1 }),
        ("2", GraphFault::BadLine { line: 1 }),
        ("2 \n", GraphFault::BadLine { line: 1 }),
        (" 2 1\n", GraphFault::BadLine { line: 1 }),
        ("2  1\n", GraphFault::BadLine { line: 1 }),
        ("2 1 \n", GraphFault::BadLine { line: 1 }),
        ("2 1\r\n", GraphFault::BadLine { line: 1 }),
        ("00000000002 1\n", GraphFault::BadLine { line: 1 }),
        ("2 00000000001\n0 1\n", GraphFault::BadLine { line: 1 }),
        ("9999999999 0\n", GraphFault::TooLarge { line: 1 }),
        ("20001 0\n", GraphFault::TooLarge { line: 1 }),
        ("2 1000001\n", GraphFault::TooLarge { line: 1 }),
        ("20000 1000000\n", GraphFault::BadEnd { line: 2 }),
        ("2 1\n", GraphFault::BadEnd { line: 2 }),
        ("2 1\n0 ", GraphFault::BadLine { line: 2 }),
        ("2 1\n0 2\n", GraphFault::BadLine { line: 2 }),
        ("2 1\n2 0\n", GraphFault::BadLine { line: 2 }),
        ("2 1\n0 1\r\n", GraphFault::BadLine { line: 2 }),
        ("0 1\n0 0\n", GraphFault::BadLine { line: 2 }),
        ("2 0\n\n", GraphFault::BadEnd { line: 2 }),
        ("2 2\n0 1\n", GraphFault::BadEnd { line: 3 }),
        ("2 2\n0 1\n\n", GraphFault::BadLine { line: 3 }),
        ("2 1\n0 1\n\n", GraphFault::BadEnd { line: 3 }),
        ("2 1\n0 1\n0 1", GraphFault::BadEnd { line: 3 }),
        ("2 1\n0 1\n\n\n", GraphFault::BadEnd { line: 3 }),
    ];
    for (text, fault) in table {
        assert_eq!(rt; fault_of(alloc, text), Some(fault));
    }
}

#[test]
fn the_targets_stand_in_the_order_of_the_edges(rt: HostRuntime) {
    let alloc: Global = rt.alloc();
    let Ok(graph) = read_graph(alloc, b"4 6\n2 3\n0 2\n2 2\n0 1\n2 0\n0 2") else {
        panic!(rt; "this is graph text");
    };
    assert_eq!(rt; graph.vertices(), 4);
    assert_eq!(rt; graph.edges(), 6);
    if graph.vertices() == 4 {
        assert_eq!(rt; graph.out(0), [2, 1, 2].as_slice());
        assert_eq!(rt; graph.out(1), [].as_slice());
        assert_eq!(rt; graph.out(2), [3, 2, 0].as_slice());
        assert_eq!(rt; graph.out(3), [].as_slice());
    }
}

#[test]
fn a_pair_makes_the_graph_of_its_text(rt: HostRuntime) -> Result<(), Fail> {
    let alloc: Global = rt.alloc();
    let pairs = vec![in alloc; (0, 1)]?;
    let Ok(made) = Graph::from_pairs(alloc, 2, pairs) else {
        panic!(rt; "memory is ample");
    };
    let Ok(read) = read_graph(alloc, b"2 1\n0 1\n") else {
        panic!(rt; "this is graph text");
    };
    assert_eq!(rt; made.vertices(), read.vertices());
    assert_eq!(rt; made.edges(), read.edges());
    if made.vertices() == 2 && read.vertices() == 2 {
        assert_eq!(rt; made.out(0), read.out(0));
        assert_eq!(rt; made.out(1), read.out(1));
    }
    Ok(())
}

/// The number of items, of pairs, the sum and the greatest of the distances.
fn answer_of<J: Program<Item = Spot>>(
    alloc: Global,
    job: &J,
    root: Spot,
) -> Option<(usize, J::Value)> {
    let mut spots = Vec::new(alloc);
    let Ok(mut whole) = job.expand(&root, &mut spots) else {
        return None;
    };
    let mut below = Vec::new(alloc);
    for spot in &spots {
        let Ok(value) = job.expand(spot, &mut below) else {
            return None;
        };
        whole = whole.combine(&value);
    }
    Some((spots.len(), whole))
}

#[test]
fn the_distances_are_summed(rt: HostRuntime) {
    let alloc: Global = rt.alloc();
    let table: [(&str, usize, u64, u64, u64); 7] = [
        ("0 0\n", 0, 0, 0, 0),
        ("2 0\n", 2, 0, 0, 0),
        ("3 3\n0 1\n1 2\n2 0\n", 3, 6, 9, 2),
        ("2 3\n0 0\n0 1\n0 1\n", 2, 1, 1, 1),
        ("2 1\n0 1", 2, 1, 1, 1),
        ("0000000002 0000000001\n0000000000 0000000001\n", 2, 1, 1, 1),
        ("5 5\n0 1\n1 2\n2 3\n3 4\n0 3\n", 5, 10, 16, 3),
    ];
    for (text, vertices, pairs, sum, greatest) in table {
        let Ok(graph) = read_graph(alloc, text.as_bytes()) else {
            panic!(rt; "{text} is graph text");
        };
        let job = Dist::new(&graph);
        let Some((items, value)) = answer_of(alloc, &job, job.root()) else {
            panic!(rt; "memory is ample");
        };
        assert_eq!(rt; items, vertices);
        assert_eq!(rt; value.0.0, pairs);
        assert_eq!(rt; value.1.0.0, sum);
        assert_eq!(rt; value.1.1.0, greatest);
    }
}
