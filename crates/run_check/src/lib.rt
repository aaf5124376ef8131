// Whether a finished history is a lawful run, and if not which entry is the first that isn't, and why.
//
//     match check(alloc, &history)? {
//         Finding::Legal => ..,
//         Finding::Illegal { entry, why } => ..,
//         Finding::Unfinished => ..,
//     }
//
// The history may come from anywhere: a report that was read back, another build, another implementation of this
// bridge. It is replayed by both sides' own calls over one plain count of entries, on one thread. Of each entry three
// tests are made, in this order: whether it is its caller's turn, whether it cites what it has to, and whether it
// answers, frees and takes what it may. The first two are answered by `caller_turns`. What is left of the third, once
// these passed, is to compare: the cycle's number, the reply, and the lists that the reply names. A reader's entry is
// judged by a few counts.
//
// Nothing is searched in a list, and an entry costs what its side's own step costs. The sides hold their last entries
// alone.
#![tactic(auto)]

mod checks;
mod cycles;
mod draws;
mod managed_calls;
mod named;
mod peer_calls;
mod phases;
mod readers;
mod replays;
mod replies;

pub use check_laws::{Finding, Why};
pub use checks::check;
