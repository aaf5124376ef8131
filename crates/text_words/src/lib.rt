// Words, numbers and lines of bytes: what scripts, reports and logs are read with.
//
//     let mut lines = PlacedLines::of(&bytes);
//     while let Some(line) = lines.next() {
//         let mut words = Words::of(line.text);
//         let first = number(words.next()?)?;
//         ..
//     }
//
// `PlacedLines` gives the lines of a text one after another, each with whether it has its newline. A line is a
// `Stretch` of its text: the first bytes of it, which are searched with the bytes behind them. `Words` cuts it at each
// single space. `number` and `lettered` read a word as a number, with a letter before it or without, `is_same` compares
// it with a word that is written out, and `first_place` finds a byte in it.
//
// Nothing here takes memory or fails: where a word is no such number the answer is None. Texts are lent, so whoever
// holds them may read them meanwhile.
//
// What is promised: words are all words of the line, empty ones where two spaces stand in a row, and a number is
// answered exactly where the word is the decimal text of one. `specs/Words.antt` says what the words of a line are,
// `specs/Placed.antt` what the first line of bytes is.
#![tactic(auto)]

mod lines;
mod numbers;
mod searches;
mod stretches;
mod words;

pub use lines::{PlacedLine, PlacedLines};
pub use numbers::{lettered, number};
pub use searches::{first_place, first_place_far};
pub use stretches::Stretch;
pub use words::{Words, is_same};
