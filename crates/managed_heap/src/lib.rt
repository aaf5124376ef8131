// The managed side of the bridge: the managed heap with the handles that its objects hold, the registry of twins, the
// targets of weak cells, the notices, and the list of what was done to them.
//
// An event of a thread, and a cycle from its snapshot to its end:
//
//     let mut side = ManagedSide::new(alloc, 2)?;
//     let reply = side.step(&mut draw, Thread::M(1), 1, &op, None)?;
//     let opened = side.snap(&mut gate, 2)?;
//     side.contracted(&mut draw, 2, sccs, xrefs);
//     let out = side.resolve(&mut draw, 2, clear, &alive);
//
// The life of a side. `ManagedSide::new` makes one without objects, for the first so many managed threads: it takes
// their events and the driver's. A thread's events come to `step`: each answers as the joint model says and makes one
// entry, whose number is drawn from a `joint_model::Draw`. `weak` sets a cell, by the cell's word; `take` brings the
// object of a thread's pin, which it is given, into a variable. Reads are none of the side's: readers make them by
// themselves, so the side keeps no pin, and what it keeps of cells takes no bytes and is seen by proofs alone.
//
// A side is seen as its entries, the state of their replay, and whether it is ready for a snapshot. What holds at any
// time is that a lawful list has these entries and leads to this state. The handles that rows ever took stand there
// too, seen by proofs alone. Each call that makes an entry promises that it drew this entry and put it last, that the
// entry may come next by the definition of the managed list, that the state is the one after it, and that the side
// isn't ready. The pins that a snapshot and a `take` are given are told with their entries, and between entries the
// state has none. After a refusal for want of memory the side and the draw are as before.
//
// A side is no thread's own and has no lock: whoever has it in hand, by `&mut`, makes its next entry, so nobody else
// changes it during a call. `joint_history` puts it under one. Between two calls others may have made entries here, and
// the peer side goes on all the time.
//
// `snap` takes its memory, closes the gate, which gives it the readers' pins, frees what nothing holds, opens a cycle
// and answers its dead part as a graph. Once the gate is closed nothing fails, so each closing has its entry.
// `reserve_snap` takes that memory beforehand: the side is ready then, until a call makes an entry, and a snapshot of
// it never wants memory. While a cycle is open `contracted` makes the entry of its contraction, and `resolve` or
// `abandon` closes it. There is room for the entries that it still owes and for a notice per candidate, and the rows of
// its dead part are exactly the live rows without a mark, so that a resolution marks within the dead part alone. None
// of these three calls takes memory.
//
// At the end `into_lists` gives the entries, the freed objects and all notices. The other calls only look.
#![tactic(auto)]

mod cycles;
mod events;
mod gates;
mod graphs;
mod lines;
mod open;
mod opening;
mod resolving;
mod rooms;
mod rows;
mod side;
mod snapping;
mod snapshots;
mod takings;
mod targets;
mod twins;
mod weak;

pub use cycles::ResolveOut;
pub use gates::Closes;
pub use opening::{Opened, Pins, SnapFault};
pub use side::{ManagedLists, ManagedSide, TwinAnswer};
