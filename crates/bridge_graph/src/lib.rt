// The dead part of the managed heap as a value: the graph over which the bridge computes its components.
//
// The dead part of two objects that lead to one another, the first of them with a handle:
//
//     let mut builder = GraphBuilder::new(alloc);
//     builder.reserve(2, 2)?;
//     let a = builder.node(MNum(1), Some(HNum(1)), false)?;
//     let b = builder.node(MNum(2), None, false)?;
//     builder.edge(a, b)?;
//     builder.edge(b, a)?;
//     let graph = builder.finish();
//
// A snapshot makes a `GraphBuilder`, asks it for room with `reserve`, adds the dead objects by rising managed number
// with `node`, adds their references to one another with `edge`, and turns it into a `DeadGraph` by `finish`, which
// takes no memory. From then on the graph is only read.
//
// Nodes and edges lie in flat lists. While the part is being built the edges stand in the order in which they were
// added; `finish` brings the edges of each node together, in that same order, so that `degree`, `edge` and `row` each
// take one step. Where edges lie in rows already `DeadGraph::of_rows` takes them as they are.
//
// A graph is its maker's own, and nobody changes it while it is read. What is promised: a finished graph has exactly
// the nodes and edges that were put in, in their order, and a call for which there is room isn't refused.
#![tactic(auto)]

mod builder;
mod graph;
mod packing;

pub use builder::GraphBuilder;
pub use graph::{DeadGraph, Node};
pub use packing::{Link, PackedRows, pack_rows, packed_row};
