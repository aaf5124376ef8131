// The exact components of a dead part by another way than that of the fast pass, with which it shares no code: what the
// one finds the other has to find. `second_pass` reads a `DeadGraph` and gives its `Components`; it keeps nothing.
//
// The strongly connected classes come from two depth first searches. The first goes along the edges and lists each node
// when it has gone over all its edges. On this graph,
//
//         0 --> 1 --> 2 --> 3
//               ^     |
//               +-----+
//
// it finishes 3, 2, 1 and 0, in this order. The second goes against the edges, through nodes without a label, first
// from the node that was finished last: from 0 it finds 0 alone, from 1 it finds 1 and 2, and from 3 it finds 3. Each
// search labels one class whole.
//
// Why: for every node x some node of its class stands, in the order of finishing, at or behind all that x reaches. Let
// r be the last node without a label, and let y, without one too, reach r. The node that stands behind all that y
// reaches is at or behind r, and has no label, since classes are labelled whole; so it is r, and y is in the class of
// r.
//
// The labels stand in a hashed table by managed number. From the labels come the components, by their first members. A
// search from each component, along the edges and then against them, counts for each node from how many components one
// comes to it, and how many one comes to from it, through classes without a bridge node. Where both counts are at least
// three and their product is at least 60 the class is heavy, and is listed by its least node. Last, a search from each
// reported class through classes that aren't reported finds its cross-references.
//
// The searches of classes take time in proportion to the graph; each further search may go over all of it, so the whole
// takes up to three times as many steps as there are edges for each reported class.
//
// The pass only reads the graph, and makes the lists that it works with and lets them go: where there is no memory
// nothing of the caller's has changed.
//
// What is promised: for every graph the answer is the definition's one list of components and cross-references, or want
// of memory. The pass holds no lock: nobody changes the graph that it reads, and both heaps may run on meanwhile.
#![tactic(auto)]

mod classes;
mod finishing;
mod heaviness;
mod listing;
mod pass;
mod references;
mod search;
mod table;
mod turning;

pub use pass::second_pass;
