// The report of a finished history: one line for each entry in rising number, and a last line with the number of
// entries.
//
// When all lines of a script have run and both sides' lists are joined, a program calls once
//
//     write_report(&history, out)?;
//
// An entry's line has its number, who made it on which line of the script, the event and the reply; where the reply
// shows a list, what was freed or taken; and the entry that it cites, if it cites one. The words for threads, objects
// of a line and operations are those of `bridge_script`, so a report reads like the script that it is of.
//
// Who runs meanwhile: nobody that could change the history, which is only read. The sink is written by the one thread
// that calls.
//
// What is promised: the sink gets the report of the history, the whole of it or, where the sink fails, a beginning. It
// takes no memory: the sink gets the report in pieces from a fixed buffer. That different histories have different
// reports is a law of `script_laws`.
//
// `specs/Report.antt` says what the report is, and `specs/Lists.antt` how the lists of numbers stand in it.
#![tactic(auto)]

mod candidates;
mod entries;
mod lists;
mod objects;
mod reports;

pub use reports::write_report;
