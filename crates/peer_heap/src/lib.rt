// The peer side of the bridge: the other collector's heap, with its variables, statics and global names, and the table
// of handles by which managed objects name its peers.
//
// An event of a thread, and what a cycle does here, with one reference and one handle:
//
//     let mut side = PeerSide::new(alloc, 2)?;
//     let reply = side.step(&mut draw, Thread::P(1), 1, &op, None)?;
//     side.reserve_refs(1, 0, 1)?;
//     side.push_ref(RefEnd::Peer(from), RefEnd::Peer(to));
//     side.stand(&mut draw, 2, cycle, snap);
//     side.weaken(&mut draw, 2, snap, h);
//     side.mark_begin(&mut draw, Thread::C, 2)?;
//     let end = side.mark_slice(64)?;
//     side.sweep(&mut draw, Thread::C, 2)?;
//     let back = side.restore(&mut draw, 2, h);
//     side.clear_refs(&mut draw, 2, cycle);
//
// The life of a side. `PeerSide::new` makes one without peers, for the first so many peer threads: of peer threads it
// takes the events of these alone. Events of a peer thread, and those that a managed thread makes here, come to `step`.
// `mark_begin` and `sweep` begin and end a marking, and `mark_slice` carries one on in between; for a marking of a peer
// thread `thread_slice` does, with an entry. A cycle's calls are `reserve_refs`, `push_ref`, `stand`, `weaken`,
// `restore` and `clear_refs`; after the first none takes memory. At the end `into_lists` gives the entries and the
// freed peers.
//
// A side is seen as its entries and the state of their replay. What is promised of each call: it draws its entry, which
// may come next by the definition of the peer list, and the state is the one after it; and without memory the side and
// the draw are as before.
//
// A side is no thread's own and has no lock: whoever has it in hand, by `&mut`, makes its next entry. `joint_history`
// puts it under one. Between two calls others may have made entries here, and the managed side goes on all the time.
//
// An open marking is kept as a number, a thread, how many peers slices of that thread made black, and, for proofs
// alone, the rows as they stood at its begin; what was brought back since is read off the entries. Its marks and the
// list of its grey peers are in the rows. A begin greys the roots, a slice makes so many grey peers black, and a sweep
// the rest: it then frees the peers without a mark and clears the handles on them, for which there is room; a release
// needs none either. In between the marking goes on over each event (`laws.rt`, by `marking_laws`): a new peer is
// black, and what a name or a handle gives is shaded, and so is what a write takes out of a field and what references
// led to that go. References that come to stand meanwhile aren't followed.
//
// `rows.rt` has the peers and handles without entries, `side.rt` puts the entry to each event, `marking.rt` and
// `sweeping.rt` have the marks and the sweep. `mirroring.rt` has what a cycle has yet to do, `mirror.rt` what its calls
// do to the rows, `cycle.rt` those calls, `mirror_laws.rt` their laws.
#![tactic(auto)]

mod cycle;
mod issues;
mod laws;
mod marking;
mod mirror;
mod mirror_laws;
mod mirroring;
mod rows;
mod side;
mod sweeping;

pub use laws::steps_go_on;
pub use mirror_laws::{mirrored_rows_go_on, mirrors_go_on, restores_are_owed, steps_leave_mirrors};
pub use mirroring::RefEnd;
pub use side::{BeginFault, NoMark, PeerLists, PeerSide, SliceEnd, Swept};
