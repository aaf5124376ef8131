// Bytes, line after line.

ghost use Rattle.std.specs.Prelude.{◌≡◌, [], MatchOption};
ghost use Rattle.text_words.specs.Placed.{IsFirstLine};

use crate::searches::first_place_far;
use crate::stretches::Stretch;
use std::marker::Model;

/// A line where it stands: its text, which is without the newline, and whether it has one. Only the last line may have
/// none.
#[derive(Drop)]
pub struct PlacedLine<'a> {
    pub text: Stretch<'a>,
    pub closed: bool,
}

/// The lines of a text that are left. They are lent: a line of any length takes no memory.
#[derive(Drop)]
pub struct PlacedLines<'a> {
    left: &'a [u8],
}

impl<'a> Model for PlacedLines<'a> {
    ghost use Rattle.std.specs.Prelude.{ℕ, List};

    ghost Value = { List ℕ };

    ghost view = { λ p. p.left.now };
}

impl<'a> PlacedLines<'a> {
    /// All lines of the bytes.
    pub fn of(bytes: &'a [u8]) -> PlacedLines<'a>
        ensures { result ≡ bytes.now }
    {
        PlacedLines { left: bytes }
    }

    /// Takes the next line; None where no byte is left.
    pub fn next(&mut self) -> Option<PlacedLine<'a>>
        ensures { MatchOption result ((self.old ≡ []) × (self.new ≡ []))
            (λ line. IsFirstLine self.old line.text line.closed self.new) }
    {
        let bytes = self.left;
        if bytes.is_empty() {
            return None;
        }
        let end = first_place_far(bytes, b'\n');
        let text = Stretch::of(bytes, end);
        if end == bytes.len() {
            self.left = &bytes[end..];
            return Some(PlacedLine {
                text,
                closed: false,
            });
        }
        self.left = &bytes[end + 1..];
        Some(PlacedLine { text, closed: true })
    }
}
