// The line of an entry in a report, read back.
//
// Who reads a report keeps one `NamedLists`, empty at first, and a `LastPlace`, and calls for each line in turn
//
//     let Some(entry) = read_entry(text, number, &mut lists, &mut last)? else { .. };
//
// A line is cut into its words at each single space. The event stands before the first word `=`, since no event has
// that word: it is tried as a line's own words, then as one of the other events. The reply stands behind it, and what
// it cites is the last word, where that begins with `@`. A reply is tried kind by kind, each on a copy of the words
// that are left. `m4` is an object and a list of one, `1 freed -` what a snapshot freed and what a sweep freed: of
// these the one is taken that the event has, and else the first.
//
// What is promised: an entry is answered exactly where one with that number has this line, and its list stands behind
// those of the lines before. Where none has it, or for want of memory, the lists may have more than they had, and the
// reading ends.
//
// `specs/Fitting.antt` says which numbers fit, `Saying` when a line is an entry's, `Meaning` which reply is meant and
// where its list stands; the other files are what the parts promise each other.
#![tactic(auto)]

mod entries;
mod events;
mod lists;
mod numbers;
mod places;
mod replies;
mod tails;

pub use entries::read_entry;
pub use lists::NamedLists;
pub use places::LastPlace;
