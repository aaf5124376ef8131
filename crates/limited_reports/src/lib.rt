// A report, taken from a source that may give more bytes than a report may have.
//
//     match take_report(alloc, src, most) {
//         Ok(history) => ..,
//         Err(TakeError::Refused(fault)) => ..,
//         Err(TakeError::Long { line }) => ..,
//         Err(TakeError::OutOfMemory | TakeError::ReadFault) => ..,
//     }
//
// The source is read to its end, or to one byte past the limit. Its bytes are taken piece by piece, and let go as their
// lines are read: what is held are the bytes of a line that isn't whole, or all from the first line on that can't be
// read.
//
// What is promised: of bytes within the limit a history is answered as `report_reader` answers it. Of more bytes the
// lines before the one that holds the first byte behind the limit are judged: the first of them that is wrong is named,
// and where none is, that line.
//
// `specs/Limits.antt` says which lines these are, `Pieces` what is held while bytes are taken.
#![tactic(auto)]

mod limits;
mod pieces;

pub use limits::{TakeError, read_within};
pub use pieces::take_report;
