// Both sides of the bridge, each kept by itself, the callers that know what they saw, and the one linked history.
//
// The life of a run:
//
//     Order::new, Shared::new                      both sides without objects, the desk with a caller for each thread
//       Desk::caller                               a thread's caller, given out once, or the driver's
//         Shared::managed, peer                    an operation of the caller's thread: its events, one after another
//         Shared::read_now, read_wait              a weak read of a managed thread, without a lock
//         Shared::snap, contracted, mirror, weaken,
//         mark, sweep, restore, clear, resolve     an event of a cycle, by the driver's caller
//         Shared::abandon, refused, finalise       what else the driver does
//         Shared::tell                             one caller hears what another knows, without an entry
//     Shared::finish                               all callers are given back or wait at the desk: the history
//     Shared::end                                  the same where no entry is read: the numbers of the last state
//
// A thread's whole use of it is `let receipt = shared.managed(rt, &mut caller, line, &act)?;` for each of its lines: a
// [`Receipt`] has the reply, and the numbers of the first and the last entry.
//
// How the sides are kept is a parameter: behind two locks where threads share them (`Locks`), or in two cells where one
// thread has them alone and so pays for no lock (`Alone`). What is promised is the same.
//
// Who runs meanwhile: anybody who has a caller. Each event is made in one hold of its own side, but for the two reads,
// which hold none; no call holds both, and between two events of an operation others may come. A snapshot closes the
// gate, through which readers go, and is tried again while one is inside.
//
// What is promised: each call makes just its entries, each of which may come where it stands and has a number above all
// that its caller knew; without memory it makes none, or the first of two alone. The finished history is linked, has
// all notices that were ever queued, and has of each caller just what that one made. That a waiting call goes on is not
// promised.
//
// Each seat of the order knows a beginning of each side's list, of each reader's and of each caller's own entries. The
// one fact that every type here keeps of its seat is that these lines are those of a lawful past: a list of entries,
// each of which may come after those behind it. So whatever a lawful past keeps holds under each lock and for each
// caller, although no lock covers both sides, and nothing has to be proved of threads. That this stays so as seats go
// on is said by the laws of `view_laws`. Every seat that is kept between calls is settled: it owes no store of a word.
//
// `specs/` read alone tells what is true: Knowing first, then Callers, Locked, SeatFacts and Desks, then Steps,
// PeerCalls, Operations, Collecting and Driven with the other files of the driver, and last Ending; and of `view_laws`
// Knowing, of `seat_calls` Passing, of `weak_wait` Reads.
#![tactic(auto)]

mod callers;
mod collects;
mod desks;
mod driven;
mod driving;
mod ends;
mod facts;
mod gathers;
mod handles;
mod keeping;
mod managed;
mod marks;
mod mirroring;
mod mirrors;
mod operations;
mod peer;
mod peer_marks;
mod reads;
mod shared;
mod snaps;
mod steps;

pub use callers::{Caller, Receipt};
pub use desks::{Desk, thread_at};
pub use ends::{RunEnd, Totals};
pub use keeping::{Alone, Keeps, Locks};
pub use marks::Begun;
pub use shared::Shared;
pub use steps::{Locked, Sided};
