// Tests of `picture_sheets` and `picture_program` by their public calls: long chains, on which what lies around a node
// and what two pictures have in common is found in time; and whole runs of the program, ends that fail, and want of
// memory.
//
// They stand in a crate of their own since a crate with tests is proved twice, with them and without. Nothing but tests
// stands here, and no other crate builds on it.
//
// Nothing is promised to anybody. A test makes its pictures, or its words, source and sink, makes the calls, and
// compares what is found with a table; each runs alone.
#![tactic(auto)]

#[cfg(test)]
mod chains;
#[cfg(test)]
mod drawn;
#[cfg(test)]
mod failing_ends;
