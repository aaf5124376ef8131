// Small dead parts: their nodes, and edges that are added in any order.

ghost use Rattle.std.specs.Prelude.{◌<◌, length};

use bridge_graph::{DeadGraph, GraphBuilder, Node};
use joint_model::{HNum, MNum};
use std::alloc::{AllocError, Global};
use std::test::Fail;

// A bridge node, and an opaque plain one.
const TWO: [Node; 2] = [
    Node {
        number: MNum(1),
        handle: Some(HNum(1)),
        opaque: false,
    },
    Node {
        number: MNum(2),
        handle: None,
        opaque: true,
    },
];

// A bridge node between two plain ones.
const THREE: [Node; 3] = [
    Node {
        number: MNum(2),
        handle: None,
        opaque: false,
    },
    Node {
        number: MNum(5),
        handle: Some(HNum(9)),
        opaque: false,
    },
    Node {
        number: MNum(6),
        handle: None,
        opaque: false,
    },
];

// The edges of the three nodes, as they are added.
const EDGES: [(u32, u32); 6] = [(2, 1), (0, 2), (2, 0), (0, 1), (2, 1), (0, 0)];

// Adds nodes and edges. Answers whether each may be added, and each node's index is its place.
fn fill(
    builder: &mut GraphBuilder,
    nodes: &[Node],
    edges: &[(u32, u32)],
) -> Result<bool, AllocError> {
    for (i, node) in nodes.iter().enumerate() {
        if !builder.next_is(node.number)
            || builder.node(node.number, node.handle, node.opaque)? as usize != i
        {
            return Ok(false);
        }
    }
    for (from, to) in edges {
        if !builder.may_lead(*from, *to) {
            return Ok(false);
        }
        builder.edge(*from, *to)?;
    }
    Ok(true)
}

// Whether node `i` has that number and that handle, and its edges lead just there, in that order.
fn is_node(graph: &DeadGraph, i: u32, node: &Node, row: &[u32]) -> bool
    requires { i < length graph.now.nodes }
{
    for j in 0..graph.degree(i) {
        if row.get(j as usize) != Some(&graph.edge(i, j)) {
            return false;
        }
    }
    graph.row(i) == row && graph.number(i) == node.number && graph.handle(i) == node.handle
}

// Whether just these nodes stand there, with these edges.
fn is_part(graph: &DeadGraph, nodes: &[Node], rows: &[&[u32]]) -> bool {
    for i in 0..graph.nodes() {
        let (Some(node), Some(row)) = (nodes.get(i as usize), rows.get(i as usize)) else {
            return false;
        };
        if !is_node(graph, i, node, row) {
            return false;
        }
    }
    graph.nodes() as usize == nodes.len()
}

// Whether the nodes and edges may be added, behind a reserve or not, and just those nodes stand there, with
// these edges.
fn holds(
    alloc: Global,
    reserved: bool,
    nodes: &[Node],
    edges: &[(u32, u32)],
    rows: &[&[u32]],
) -> Result<bool, AllocError> {
    let mut builder = GraphBuilder::new(alloc);
    match fill_reserved(&mut builder, reserved, nodes, edges) {
        Ok(filled) => {
            let graph = builder.finish();
            let right = is_part(&graph, nodes, rows);
            drop(graph);
            Ok(filled && right)
        }
        Err(failed) => {
            drop(builder);
            Err(failed)
        }
    }
}

// Adds nodes and edges as `fill` does, after a reserve or not.
fn fill_reserved(
    builder: &mut GraphBuilder,
    reserved: bool,
    nodes: &[Node],
    edges: &[(u32, u32)],
) -> Result<bool, AllocError> {
    if reserved {
        builder.reserve(3, 6)?;
    }
    fill(builder, nodes, edges)
}

// A bridge node with a reference to an opaque plain one.
#[test]
fn two_nodes(rt: HostRuntime) -> Result<(), Fail> {
    let right = holds(rt.alloc(), false, TWO.as_slice(), &[(0, 1)], &[&[1], &[]])?;
    assert!(rt; right);
    Ok(())
}

// Edges that are added in any order stand together by node, in that order, the same one twice too.
#[test]
fn any_order(rt: HostRuntime) -> Result<(), Fail> {
    let rows: [&[u32]; 3] = [&[2, 1, 0], &[], &[1, 0, 1]];
    let right = holds(rt.alloc(), true, THREE.as_slice(), EDGES.as_slice(), &rows)?;
    assert!(rt; right);
    Ok(())
}
