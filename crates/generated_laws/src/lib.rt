// Laws of the runs of generated scripts: what the summary of such a run says is a function of the seed and the size,
// whatever the order in which threads came.
//
// A law is a function with an empty body, whose clauses are statements of `specs/`; proofs of `bridge_program` cite it.
// So no value is made here, and nothing runs.
//
// `specs/Counts.antt` has the numbers of a generated script's run, and that each linked history that holds the script's
// lines, thread by thread, has them.
#![tactic(auto)]

mod laws;

pub use laws::generated_runs_are_alike;
