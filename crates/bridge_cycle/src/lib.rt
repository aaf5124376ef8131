// The driver of the bridge: the cycles of thread `c`.
//
// A cycle has eight phases. The driver takes a snapshot of the managed heap, which opens the cycle and lists the dead
// bridge objects (`snap`); finds the components of the dead part (`contract`); adds the references that the components
// stand for between the peers (`mirror`); weakens the handles of the dead bridge objects (`weaken`); lets the peer heap
// mark (`mark`) and free what nothing reaches (`sweep`); restores the handles, which tells who is alive (`restore`);
// and frees the dead part but for what an object that is alive leads to (`resolve`). Both heaps run on meanwhile: each
// phase takes one heap, by its lock or its cell, for a moment, `weaken` and `restore` once for each handle, and
// `contract` none while it computes.
//
// The life of a driver:
//
//     Driver::new                                    of the driver's caller, which is idle
//       snap, contract, mirror, weaken,
//       mark, sweep, restore, resolve                one phase; refused where it isn't its turn
//       cycle                                        all eight
//       run_gap                                      all eight, and between two of them somebody else has a turn
//       line                                         a script line of `c`: a phase word, which makes an entry also where
//                                                        it is refused, or `finalise`
//       end                                          what is left of an open cycle
//       graph                                        the open cycle's dead part
//       hear, tell                                   what other callers know, and what they are told
//     retire                                         the caller again, which is idle
//
// What is promised of each call: which entries it makes, in order, all by `c` on the given line and with numbers above
// all that the driver knew; in which phase it is then; and that it is refused exactly where the phase isn't the one
// before. From `weaken` on no phase takes memory.
//
// Why it holds: the driver keeps where it stands by what its caller knows, and that what its stage has is that of the
// open cycle. The dead part is frozen while the cycle is open, so what was seen at the snapshot stays what the driver
// goes by.
//
// `specs/` read alone tells what is true: Progress first, then Composing, Turns, OpenParts and Held.
#![tactic(auto)]

mod advance;
mod driver;
mod gaps;
mod handles;
mod laws;
mod phases;
mod stages;
mod words;

pub use driver::{Driver, DriverFault};
pub use gaps::{Gap, run_gap};
pub use laws::phases_make_a_cycle;
