// The listing of a run's cycles: of each one the components, the heavy classes and the cross-references of its dead
// part.
//
// Whoever runs cycles writes the lines of each while its graph is at hand, and at the end the last line:
//
//     write_listing(graph, &comps, cycle, out)?;
//     write_end(cycles, out)?;
//
// A component's line has its index and its members by their managed numbers, as `scc 0 m1 m4`; a heavy class, which
// stands behind the components, has no members, and its line is `scc 2 -`. A cross-reference's line has two such
// indexes: `xref 0 2`.
//
// Who runs meanwhile: the graph and the components are only read. The sink is written by the one thread that calls.
//
// What is promised: the sink gets the lines, all of them or, where it fails, a beginning. Nothing takes memory: the
// sink gets the lines in pieces from a fixed buffer.
//
// `specs/Listing.antt` says what the lines are.
#![tactic(auto)]

mod listing;

pub use listing::{write_end, write_listing};
