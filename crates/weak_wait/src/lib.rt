// Weak reads that wait for no lock: a managed thread reads a weak cell while both collectors run.
//
// A cell has a target, an object that it doesn't keep alive. A thread that reads it gets the object and pins it: until
// the thread takes it out of its pin no collection frees it. The cells, the pins and the gate are words of the order,
// so a read is a handful of atomic steps:
//
//     load_pin                    a pin that is still filled is what the read answers
//     enter                       the reader's bit goes into the gate word; where a cycle holds the gate, the read
//                                     answers `Pending`
//     load_cell                   unset, gone, or an object, which isn't freed while the reader is inside
//     append                      the read's entry
//     store_pin, leave            the object is pinned, and the reader goes outside
//
// The life of a reader: `WeakReader::new` makes one of a seat that owns the reader's role and holds its thread's pass.
// `reserve` makes room for entries, `try_get` and `get` make one each. `into_parts` gives the seat and the entries
// back, and `of_parts` puts them together again. `read` and `read_waiting` are the same for whoever has the seat and
// the list in hand.
//
// What is promised: each read makes one entry, whose number is above all that the seat knew, and pins what it answers.
// `PinHeld` comes exactly where the thread's own entries leave an object in its pin; `Pending` only where the read's
// own step found the gate held, and never for a cycle that the seat knows as ended; `Unset` only where it found the
// cell unset, and never where the seat knows it as set. To a seat that owns the managed list every answer is what that
// list says. That the other answers are those of the one history at the entry's number is promised by the order
// (`order_table::replies_are_right`).
//
// `try_get` waits for nobody and takes no memory. `get` tries again while the gate is held; that it ever ends is not
// promised.
//
// `specs/` read alone tells what is true: Reads.
#![tactic(auto)]

mod readers;
mod reads;

pub use readers::WeakReader;
pub use reads::{Got, read, read_waiting, reply_of};
