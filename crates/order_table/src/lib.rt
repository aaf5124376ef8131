// The one order of all entries, and what each thread knows of it.
//
// Both heaps make entries, each heap under a lock of its own, and no lock covers both. Still all entries are those of
// one history: each has a number, no two have the same, and together they have the numbers from 0 on. The number comes
// from one word, the sequencer, by one atomic add for each entry. This crate has that word, and says what a thread may
// conclude from the numbers that it has seen.
//
// A thread holds seats. A seat exists for contracts, which see its view; it takes no bytes. What a view is made of are
// lines. A line is the list of a role (of the managed side, of the peer side, or of one of eight readers), or the list
// of a caller's own entries, in whatever role's list they stand. A seat knows a beginning of each line. It owns some
// lines: a seat that owns a role's line may make entries in that list, one that owns a caller's line holds that
// caller's pass and may make entries for it. Each line has one owner at most, and its owner knows it whole.
//
// The life of an order:
//
//     Order::new                    one seat, which owns all lines, and nothing is known
//       share, hand, note           a seat gives a role, a caller's pass, or knowledge alone to a new seat, which knows
//                                       what it knows
//         append                    the owner of a role makes an entry there, for a caller whose pass it holds
//       learn                       a seat takes another one in, with all that it owns and knows
//     finish                        the seat that owns all lines again knows the whole history
//
// In a run a mutex stands round each side, with the seat that owns that side's role inside. Each thread keeps a seat
// with its pass. For the length of a locked call it hands its pass over to the locked seat (`hand`, `learn`), makes its
// entries (`append`), and takes the pass back in the same way, with all that the locked seat knows. So what is told
// from thread to thread needs no lock beyond the two, and nobody holds both.
//
// What is promised:
//
// - `append` answers a number that no other entry has, greater than every number that its seat knows; the entry stands
//   at the end of two lines.
// - After `learn` each line that either seat knew begins the line that is known now; a line that one of the two owned
//   is just what that one knew; and all known lines are beginnings of the lines of one list with the numbers 0, 1, 2
//   and so on.
// - `finish` shows each role's whole list with what is kept beside its entries, and each caller's; together the numbers
//   0 to n - 1, each once.
//
// These hold whatever the threads do in between, also where a seat is dropped: nobody can then make entries in the
// lines that it owned, and the order can't be finished, but what was known of them stays. Each call but `new` takes no
// memory and waits for nobody: each is one atomic step, `learn` and a refused `enter` are two, `scan_pins` is eight.
// That a thread gets on, or that the gate is ever found without readers, is not promised.
//
// Weak cells are read without a lock. Beside the sequencer the order has the gate, a word for each of 64 cells and one
// for the pin of each of eight readers. A cell's word is 0 for unset, 1 for gone, and else its object's number and 1; a
// pin's is 0 or its object's number and 1.
//
//     enter                         a reader puts its bit into the gate word, and is inside; or the gate is held for a
//                                       cycle, and the reader may say so
//       load_cell                   the word of a cell: while somebody is inside no object is freed
//       append                      the read's entry, in the reader's own list
//       store_pin                   the object that it gave, which the next snapshot keeps
//     leave                         the bit is taken out
//
//     try_close_gate                the owner of the managed list holds the gate for the next cycle, if no reader is
//                                       inside
//       scan_pins                   the eight pins, as the snapshot keeps them
//       append, write_cell          the cycle's entries, and 1 into each cell whose object was freed
//     open_gate                     once the cycle has ended
//
// What readers answer is right, and `finish` says so: `pending` and `unset` by what the reader could know, every other
// reply by the cells and pins at the entry's own number. No read comes that the gate wouldn't let in (`Gated`).
//
// Between its entry and its store of a word a seat owes that store, and can neither be cut nor joined. A seat is settled
// that owes nothing, is outside, and, if it owns the managed list, holds the gate just while a cycle is open.
//
// `specs/` read alone tells what is true: Views, Stages and Owed first, then Rule and Allowed, then Tells, Facts, Gated
// and Replies.
#![tactic(auto)]

mod finished;
mod laws;
mod orders;
mod plays;
mod seats;
mod views;

pub use finished::Linked;
pub use laws::{
    entries_tell_lines, kept_pins_are_right, lines_differ, pins_are_replayed, reads_are_gated,
    replies_are_right, rule_keeps_lists,
};
pub use orders::{Order, Pending, Readers};
pub use seats::{OrderName, Seat};
pub use views::{KeptEntry, Role, View};
