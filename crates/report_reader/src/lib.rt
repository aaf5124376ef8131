// Reports, read back.
//
// Who has the text of a report calls once
//
//     let history = read_report(alloc, bytes)?;
//
// The lines are read one after another, as `entry_reader` reads them, up to the first that begins as the last line
// does. Nothing is copied: a line is looked at where it stands, however long it is, and the entries become those of the
// history as they were put. The lines that a cycle has for each of its candidates are tried first.
//
// What is promised: of all histories with this report, lawful or not, the one is answered that is meant by its text;
// and a refusal comes exactly where no history has it, with the first line that no report has. So a report that was
// read is written again byte for byte.
//
// `specs/Reading.antt` says which history is meant, `Faults` which line is refused and why, and `Laws` what follows;
// `Steps` is what the parts promise each other.
#![tactic(auto)]

mod drafts;
mod endings;
mod faults;
mod laws;
mod likely;
mod reports;

pub use drafts::Draft;
pub use faults::{ReportCause, ReportError, ReportFault};
pub use laws::reports_are_read;
pub use reports::read_report;
