// Laws of the run of a script over the shared bridge: that what the callers of a run have made is the script, and what
// its history is then.
//
// A run gives each line to its thread's caller. A call promises its own entries, and that their numbers are above all
// that the caller knew; `finish` of the shared bridge promises a linked history in which each caller has just its own.
// The laws say how these promises add up:
//
// - thread by thread each caller holds its own lines, so the history holds each thread's lines in their order, whatever
//   came between;
// - line after line, where each line's caller is told of all entries before, the history holds all lines in their
//   order;
// - such a history is a run of the one machine whose graph joins both heaps, sound and complete, in which each cycle
//   ends; line after line each read has the one machine's reply, and it is the only history of its script of which that
//   is so; thread by thread no wait answers `pending`;
// - a cycle that the driver runs once all threads have ended, and it has heard of what each made, stands behind all
//   else.
//
// A law is a function with an empty body, whose clauses are statements of `specs/`; proofs of `script_runs` cite them.
// So no value is made here, and nothing runs.
//
// `specs/` read alone tells what is true: Serial first, then Lines and Threads, then Final, which says what a finished
// run's history is, and last LastCycle.
#![tactic(auto)]

mod laws;

pub use laws::{
    cycles_end_runs, held_scripts_are_runs, operations_are_lines, runs_hold_scripts,
    threads_hold_scripts,
};
