// The text of a global reference log: writing it, reading it back, and what a log never releases.
//
//     match read_log(alloc, &bytes) {
//         Ok(log) => {
//             let left = unreleased(alloc, &log)?;
//             ..
//         }
//         Err(LogError::Refused { line, cause }) => ..,
//         Err(LogError::OutOfMemory) => ..,
//     }
//
// A `Log` is a list of lines, each of which notes a strong or a weak handle that comes or goes, with its peer, how many
// there are behind it, and the entry that it is of. `read_log` makes one of bytes, `Log::of_lines` of lines that are
// one; `write_log` writes it; `write_line`, `write_two` and `write_end` do where there is no list of lines, into a
// `LogDraft`. `unreleased` lists the handles that are live at its end. A log never changes.
//
// Who runs meanwhile: a log is made by one thread, and may then be read by many. A sink is written by one.
//
// What is promised: a log is answered exactly where the bytes are its text, and else the first line that is wrong, with
// its first cause. What is live behind a line is said by a function from handles to peers for each strength, and the
// counts are the numbers of plus lines less those of minus lines; `logs_are_read` proves that a text is of one log, and
// that a text with a line that is wrong is of none. The handles' numbers are whatever the log's writer chose, so the
// live ones stand in ordered maps.
//
// `specs/Behind.antt` says when lines are a log, `specs/Text.antt` which text a log has, `specs/Faults.antt` which line
// of bytes is the first that is wrong.
#![tactic(auto)]

mod answers;
mod drafts;
mod laws;
mod leaks;
mod lines;
mod lists;
mod live;
mod logs;
mod reading;
mod said;
mod writing;

pub use answers::{write_log_refusal, write_unreleased};
pub use drafts::{LastNumbers, LogDraft};
pub use laws::logs_are_read;
pub use leaks::unreleased;
pub use lines::{LogCause, LogError, LogLine, Mark};
pub use lists::Unreleased;
pub use logs::Log;
pub use reading::read_log;
pub use writing::{write_end, write_line, write_log, write_two};
