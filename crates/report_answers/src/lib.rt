// What is answered of a printed report, one line each: what its history was found to be, or which of its lines is
// wrong.
//
//     match read_report(alloc, bytes) {
//         Ok(history) => write_finding(check(alloc, &history)?, history.len(), out)?,
//         Err(ReportError::Refused(fault)) => write_report_refusal(fault, out)?,
//         ..
//     }
//
// Who runs meanwhile: the sink is written by the one thread that calls.
//
// What is promised: the sink gets the line, all of it or, where it fails, a beginning. Nothing takes memory.
//
// `specs/Answers.antt` says what the lines are.
#![tactic(auto)]

mod answers;

pub use answers::{write_finding, write_report_refusal};
