// The global reference log of a history.
//
// Each peer entry that gives or takes a handle has its lines in the log: a make, a grip or a global name gives a strong
// handle, a weak global name a weak one; a weakening gives the weak handle and takes the strong one; a restore gives a
// new strong handle and takes the weak one, or only takes it where it was cleared; a release and the end of a name take
// theirs.
//
// What is promised: behind the last line of each entry what is live is what the handle table says, handle by handle and
// in both counts, cleared weak rows among them; so what was never released is exactly what is left in the table. And
// each line may stand where it stands, so such a log is read back. `write_log_of` writes exactly that log, and `log_of`
// answers it.
//
// `write_log_of` makes the log in one walk over the history, by events and replies alone, and writes each line as it is
// made; `log_of` keeps the lines. They track which peer each variable of a peer thread names, which handle each global
// name has, and on which peer each handle was given. `long_line` tells of a text that is longer than a limit which line
// holds the first byte behind it.
//
// `specs/Log.antt` says which lines an entry gives, `specs/Laws.antt` what is proved of them, `specs/Tracking.antt`
// what is tracked, `specs/Limit.antt` which line is too long. The log's text, its reading and what was never released
// are `log_text`'s, which is handed on here.
#![tactic(auto)]

mod laws;
mod limits;
mod making;
mod tracked;

pub use laws::{counts_are_the_tables, logs_are_logs};
pub use limits::long_line;
pub use log_text::{
    Log, LogCause, LogError, LogLine, Mark, Unreleased, read_log, unreleased, write_log,
};
pub use making::{WriteFault, log_of, write_log_of};
