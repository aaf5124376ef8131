// What a read may answer that is set aside, by a few counts of managed entries, for a checker of histories.
//
// Entry by entry, in the order of their numbers:
//
//     if !counts.may_be_pending(caller, cycle, cycles, open) { .. }
//     if !counts.knows_nothing(caller, cell) { .. }
//     ..
//     counts.note(&entry)?;
//
// A reader takes no lock, so it may answer by what it could know: `pending` of a cycle that is over, or `unset` of a
// cell that is set. It could know what stands before its own last entry. Whether some managed entry behind the end of
// the cycle, or behind the setting of the cell, stands there is told by two counts: how many managed entries there were
// with the end or the setting, and how many there were at the reader's last entry.
//
// Nobody else is concerned: a `ReadCounts` is a value of its own. It takes memory for the cycles alone, a place for
// each.
//
// What is promised: each test answers exactly what its definition says, and these are what a read may answer by the
// entries before it, as the laws at the end say.
#![tactic(auto)]

mod counts;
mod laws;

pub use counts::{CellSet, ReadCounts, is_peers};
pub use laws::{counts_go_on, reads_are_told_by_counts};
