// Graphs that lie in a caller's arrays, as a program in C has them: whether the arrays are a graph, and the graph of the
// library's own that is made of them.
//
//     let graph = graph_of_rows(alloc, kinds, row_starts, targets)?;
//
// A node is a bridge node where its kind isn't 0. Edges lie in rows, one list of targets with the place where each
// node's begin, or as pairs in any order. The made graph has the same indexes; it is a value of its own, and the arrays
// are only read.
//
// What is promised: whatever the arrays hold, what is made is exactly their graph, and each refusal has its cause.
#![tactic(auto)]

mod graphs;

pub use graphs::{
    MOST_EDGES, MOST_NODES, Stop, are_edges, are_in_order, are_nodes, are_rows, graph_of_pairs,
    graph_of_rows,
};
