// A printed report, judged: it is taken from a source, read, its history checked entry by entry, and the finding is
// written.
//
//     match answer_report(alloc, src, out, most) {
//         Answered::Found => ..,
//         Answered::Refused => ..,
//         Answered::OutOfMemory | Answered::ReadFault | Answered::WriteFault => ..,
//     }
//
// The bytes are let go before the history is checked, so that the two don't stand side by side. `judge_report` answers
// the finding and writes nothing.
//
// Who runs meanwhile: the source is read and the sink written by the one thread that calls.
//
// What is promised: of bytes that are a report the finding of the history that they are read as, and it is legal
// exactly where the bytes are the report of a linked history whose joint projection is a sound and complete run; of
// other bytes the first line that no report has, with its cause, or the line that holds the first byte behind the
// limit.
//
// `specs/Judging.antt` says what is found of a source, `specs/Answering.antt` what is put; what is found of a history
// stands in `check_laws`, what is read in `report_reader`, the limit in `limited_reports`.
#![tactic(auto)]

mod answering;
mod judging;

pub use answering::{Answered, answer_report};
pub use judging::{Judged, judge_report};
