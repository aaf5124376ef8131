// The words of one line.

ghost use Rattle.std.specs.Prelude.{◌≡◌, ◌≢◌, ◌==◌, [], ◌∷◌, MatchOption, MatchBool};
ghost use Rattle.std.specs.List.{slice_split};

use crate::stretches::Stretch;
use std::marker::Model;

/// The words of a line that are left: it is cut at each single space, so two spaces in a row give an empty
/// word, and an empty line is one empty word.
#[derive(Drop)]
pub struct Words<'a> {
    left: Stretch<'a>,
    done: bool,
}

impl<'a> Model for Words<'a> {
    ghost use Rattle.std.specs.Prelude.{ℕ, ◌==◌, List, [], cond};
    ghost use Rattle.std.specs.List.{slice_split};

    ghost Value = { List (List ℕ) };

    ghost view = { λ w. cond w.done [] (slice_split (λ b. b == 32) w.left) };
}

impl<'a> Words<'a> {
    /// All words of the line.
    pub fn of(line: Stretch<'a>) -> Words<'a>
        ensures { result ≡ slice_split (λ b. b == 32) line.entry }
    {
        Words {
            left: line,
            done: false,
        }
    }

    /// Takes the next word; None where none is left.
    #[inline(always)]
    pub fn next(&mut self) -> Option<&'a [u8]>
        ensures { MatchOption result ((self.old ≡ []) × (self.new ≡ [])) (λ word. self.old ≡ word.now ∷ self.new) }
    {
        if self.done {
            return None;
        }
        let end = self.left.place(b' ');
        let word = self.left.front(end);
        if end == self.left.len() {
            self.done = true;
            Some(word)
        } else {
            self.left = self.left.behind(end + 1);
            Some(word)
        }
    }

    /// The words that are left, once more: what is taken of the one leaves the other as it is.
    #[inline(always)]
    pub fn fork(&self) -> Words<'a>
        ensures { result ≡ self.now }
    {
        Words {
            left: self.left.behind(0),
            done: self.done,
        }
    }

    /// Whether no word is left.
    pub fn is_empty(&self) -> bool
        ensures { MatchBool result (self.now ≡ []) (self.now ≢ []) }
    {
        self.done
    }
}

/// Whether two texts are the same. Where one of them is written out in the code, this is a comparison of its length and
/// then of its bytes in turn, without a call.
#[inline(always)]
pub fn is_same(a: &[u8], b: &[u8]) -> bool
    ensures { MatchBool result (a.now ≡ b.now) (a.now ≢ b.now) }
{
    if a.len() != b.len() {
        return false;
    }
    for i in 0..a.len() {
        if a[i] != b[i] {
            return false;
        }
    }
    true
}
