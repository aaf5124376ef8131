// A law of open cycles: the driver, and a checker of histories, get the dead part as a graph of its own, whose nodes
// have indexes; what a pass finds of that graph is said of the dead part itself, through the nodes' numbers.
//
// A law is a function with an empty body, whose clause is a statement of `specs/`. So no value is made here, and
// nothing runs.
//
// `specs/Graphs.antt` has the statement. The lemmas in `proofs/` that the crates above cite say that the bridge nodes
// are the candidates (Candidates), that the mirror edges of the graph are those of the dead part (MirroredParts), and
// that behind the restores each unfreed peer which references lead to has a strong handle, as a clear asks
// (ClearTargets).
#![tactic(auto)]

mod laws;

pub use laws::a_graphs_contraction_is_its_dead_parts;
