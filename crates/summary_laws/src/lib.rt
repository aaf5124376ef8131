// A law of summaries: what a run's entries made and left, counted from the entries alone, is what stands in the state
// behind the last of them.
//
// A law is a function with an empty body, whose clauses are statements of `specs/`; whoever needs it calls it. So no
// value is made here, and nothing runs. What is promised is said of every lawful list of entries and of linked
// histories.
//
// `specs/States.antt` has the numbers of a state: the cycles opened, the objects and handles made, the objects that
// aren't freed, and the rows of the handle table.
#![tactic(auto)]

mod laws;

pub use laws::tallies_are_of_states;
