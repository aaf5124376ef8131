// The exact components of a dead part: which bridge nodes are strongly connected, which classes without a bridge node
// are heavy, since many components meet in them, and which of all these refer to which through classes that are
// neither. `contract` reads a `DeadGraph` and gives its `Components`; it keeps nothing.
//
// Two steps. First Tarjan's algorithm finds the strongly connected classes. On this graph,
//
//         0 --> 1 --> 2 --> 5
//               ^     |
//               |     v
//               4 <-- 3
//
// the search goes 0, 1, 2, 5. Nothing leads on from 5, so 5 is a class. From 2 it goes on to 3 and 4, and finds an edge
// to 1, which is on the stack at place 1: so 4, 3 and 2 are handed down, each with 1 as the lowest place that is
// reached from it, and stay on the stack. At 1 the lowest place is its own: what lies from there up, 1, 2, 3 and 4, is
// a class. The search has no recursion: the nodes that it is in are frames in a list.
//
// What is kept all along: the node of each frame reaches all that lies above it on the stack; each finished node on the
// stack reaches a node below it; no edge of a finished node leads to a place lower than the lowest that its frame
// knows; and nodes whose class is complete lead only to such nodes. So the classes come in an order in which edges lead
// only to a class itself and to those before it.
//
// Then the bridge nodes of each class are listed together, which gives the components. What is listed has an index.
//
// Each class gets the set of the indexes that one comes to from it, in the order of the classes. A class with an index
// has that alone. A class without one has the union of the sets that its edges lead to, and shares one of them where
// that is the union. With bridge nodes A, B, C and D, and plain nodes p to s,
//
//         A --> p --> q --> r --> C
//                     ^     |
//         B ----------+     +---> s --> D
//
// s has the set of D, r the new set of C and D, and q and p that same one. The cross-references of a component are the
// union for its own class: here C and D for both A and B. `sharing` says what it costs.
//
// The size of its set is how many components a class leads to. For each class without a bridge node that leads to three
// or more it is counted how many lead into it, up to a cap of twenty: where both counts are at least three and their
// product is at least 60 the class is heavy. Mostly there is none, and then the sets give the cross-references. Where
// some are heavy, these are listed as components without members, by their least nodes, and the sets are made again
// with their indexes; so they are where the unions of large sets would take too long, since the first sets were cut
// then.
//
// In the second round a class without an index that fewer than three components lead into, though it leads to three or
// more, is thin: it gets no set, and what leads into it goes through it to the sets behind it.
//
// The pass only reads the graph, and makes the lists that it works with and lets them go: where there is no memory
// nothing of the caller's has changed, and what stands in those lists nobody reads.
//
// What is promised: for every graph the answer is the definition's one list of components and cross-references, or want
// of memory. The pass holds no lock: nobody changes the graph that it reads, and both heaps may run on meanwhile.
#![tactic(auto)]

mod contraction;
mod counting;
mod gathering;
mod heaviness;
mod leading;
mod listing;
mod lists;
mod search;
mod sharing;
mod tarjan;

pub use contraction::contract;
