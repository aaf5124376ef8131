// Tests of the crates that keep something, by their public calls, where memory is ample: lists of entries and their
// history, marked rows, marks in a list, the heap of rows, the table of handles, the registry of pairs, the queue of
// notices, the dead part as a graph, the list of components, and the words of the gate, a cell and a pin.
//
// They stand in a crate of their own since a crate with tests is proved twice, with them and without. Nothing but tests
// stands here, and no other crate builds on it.
//
// Nothing is promised to anybody. A test makes its value, plays a table of calls on it, and compares the answers; no
// other thread runs.
#![tactic(auto)]

#[cfg(test)]
mod components;
#[cfg(test)]
mod graphs;
#[cfg(test)]
mod handles;
#[cfg(test)]
mod histories;
#[cfg(test)]
mod markings;
#[cfg(test)]
mod queues;
#[cfg(test)]
mod reached;
#[cfg(test)]
mod reads;
#[cfg(test)]
mod registries;
#[cfg(test)]
mod row_heaps;
