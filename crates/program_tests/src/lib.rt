// Tests of `bridge_program` by its two public calls: whole runs of worked scripts with all that is printed, large runs,
// threads that meet, ends that fail, want of memory, and processes with their words.
//
// They stand in a crate of their own since a crate with tests is proved twice, with them and without. Nothing but tests
// stands here, and no other crate builds on it.
//
// Nothing is promised to anybody. A test makes its words, source and sink, makes the call, and compares the status and
// what was written with what was worked out by hand; each has its own heaps.
#![tactic(auto)]

#[cfg(test)]
mod expecting;
#[cfg(test)]
mod failing_ends;
#[cfg(test)]
mod large_runs;
#[cfg(test)]
mod meetings;
#[cfg(test)]
mod processes;
#[cfg(test)]
mod rows;
#[cfg(test)]
mod rows_checked;
#[cfg(test)]
mod rows_compared;
#[cfg(test)]
mod rows_logged;
#[cfg(test)]
mod runs;
