// A law of weak reads: a pinned object lives. From the read that gave an object to a managed thread up to that thread's
// next `take` the object stays in the thread's pin, and no entry frees it.
//
// A law is a function with an empty body, whose clauses are statements of `specs/`. So no value is made here, and
// nothing runs. What is promised is said of every linked history, whatever threads and whatever schedule led to it.
//
// `specs/Pins.antt` says what is promised, `specs/Pinned.antt` of which lists. Why it is so in a run, where no lock is held over a read, stands in
// docs/INVARIANTS.md.
#![tactic(auto)]

mod laws;

pub use laws::pinned_objects_live;
