// The joint machine as a program that checks a history, entry by entry.
//
// A history is judged entry by entry:
//
//     let mut state = JointState::new(alloc)?;
//     for i in 0..history.len() {
//         match state.replay_step(&history, i)? { Verdict::Lawful => .., Verdict::Unlawful => .. }
//     }
//
// A [`JointState`] is the machine's state: the managed objects, the peers, of each handle whether it was removed, and
// of each candidate of the open cycle what its restore answered. It begins as the opening state.
// [`JointState::replay_step`] takes an entry of a history and says whether it is a step of the machine from there; if
// it is, the state is the one after it. What an entry's line doesn't have in full, the rows that a snapshot, a sweep or
// a resolution frees, is read from the history's own lists. [`JointState::judge`] does the same for an entry that is
// handed over, and that needn't stand in the history.
//
// An open marking keeps a mark for each peer that was live and unreached at its begin. What its sweep frees must have
// such a mark, and be unreached still; the state makes a second marking for that.
//
// Every event is judged. What a cycle does between its snapshot and its end is no step of this machine, but for the
// marking and the restores: the contraction, the references between peers, the weakening of handles, what clears a
// cycle, a refused phase, and a slice of a marking. An entry of such an event is unlawful, as is one that its caller
// can't make. So is a read that is pending or finds its cell unset: readers take no lock, so such a read says what its
// reader could know, not what the machine has.
//
// Nothing is asked of a history: an `adopt` may name any handle, and a sweep may free a peer that a live one still has
// in a field. So the heaps are plain lists, and an edge has two live ends.
//
// A state is its caller's own, made for one history, and no other thread has a part in it. What is promised: an entry
// is `Lawful` exactly where it is a step of the joint machine, and the state is then the one after it; else, and
// without memory, the state is as before.
#![tactic(auto)]

mod answers;
mod both;
mod callers;
mod cycles;
mod dead;
mod found;
mod handles;
mod heap;
mod issuing;
mod lines;
mod managed;
mod marking;
mod named;
mod objects;
mod open_cycle;
mod operations;
mod peers;
mod pins;
mod reading;
mod removed;
mod replies;
mod restores;
mod roots;
mod state;
mod sweeps;
mod twins;

pub use heap::PlainHeap;
pub use peers::{Handle, IssuedHold, IssuedStrength};
pub use state::{JointState, Verdict};
