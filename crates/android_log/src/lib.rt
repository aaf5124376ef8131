// The lines of a global reference log, as .NET for Android writes it: marks, frames, types and notes, in a file or behind
// the tag of a logcat.
//
//     if let Some(placed) = heard_in(line) {
//         match said_in(placed.body) {
//             Body::Mark(mark, place) => ..,
//             Body::Frame(text) => ..,
//             ..
//         }
//     }
//
// All words of the format stand in `specs/Format.antt`. Nothing here takes memory, and nothing is refused: a line that
// begins as a mark and is none is odd, and any other that is nothing else is a note.
//
// What is promised: each call answers what the definition of its name in `specs/` says.
#![tactic(auto)]

mod bodies;
mod frames;
mod marks;
mod parts;
mod placed;

pub use bodies::{Body, is_other, said_in};
pub use frames::{is_runtimes, name_of};
pub use marks::{Kind, Mark};
pub use parts::{after, decimal_of, has_word, spaces};
pub use placed::{Placed, heard_in, is_number_word};
