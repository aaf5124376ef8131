// Texts that are longer than a limit: the lines before the one that holds the first byte behind it, and how many there
// are.
//
//     let front = front_of(bytes, most);
//     let count = newlines(front);
//
// What stands before that line is judged as a text by itself, and the line's number is one more than that of its
// newlines.
//
// `specs/Limits.antt` says what is cut. Nothing takes memory, and the time goes by the number of bytes.
#![tactic(auto)]

mod limits;

pub use limits::{front_of, newlines};
