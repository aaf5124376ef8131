// Whether one cycle of a garbage collector bridge was right, and what of it can be computed: over the arrays that a
// runtime, or its client, has anyway.
//
//     let torn = check_kept(alloc, starts, members, xrefs, kept)?;
//     let found = check_outcome(alloc, kinds, row_starts, targets, kept, dead, false)?;
//
// A cycle of a runtime goes so: it finds components and cross-references of its dead objects, a report; its client puts
// references between the peers for them (`make_mirror`), collects, and says which peers are left; and what no kept
// bridge object reaches is dead (`resolve`). `check_kept` judges what is left by the report alone, `check_outcome` what
// is taken as dead by the graph. A found fault comes with the two objects that show it.
//
// What reaches what is found by one marking, over the components from those with a kept member, or over the objects
// from the kept ones; and where a fault is found, by one more, which goes on from root to root until it comes to the
// lost object. So the time is that of the arrays, and the memory a mark and a waiting place for each node.
//
// Nothing outlives a call, and what isn't answered isn't written. What is promised: whatever the arrays hold, each
// answer comes exactly where its definition holds and is the first that does, but for want of memory.
#![tactic(auto)]

mod kept;
mod mirroring;
mod outcome;
mod reaching;
mod reports;
mod rows;

pub use kept::check_kept;
pub use mirroring::{Mirror, make_mirror};
pub use outcome::{Outcome, check_outcome, resolve};
