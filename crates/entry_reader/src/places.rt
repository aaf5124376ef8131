// The place of the line before: what is made for one line of a script stands in a row, so most lines have the place of
// the line before.

ghost use Rattle.std.specs.Prelude.{◌≡◌, ◌≢◌, ◌≤◌, ℕ, MatchOption, length};
ghost use Rattle.joint_machine.specs.declared.names.Thread.{Thread};
ghost use Rattle.joint_machine.specs.Lines.{IsThread};
ghost use Rattle.history_report.specs.Report.{place_text};
ghost use Rattle.entry_reader.specs.Fitting.{Short};

use crate::numbers::place;
use joint_machine::Thread;
use std::marker::Model;
use text_words::is_same;

// The bytes that are kept of a place: each that a line can have is shorter.
const MOST: usize = 16;

/// A place that was read, with its text: the same word says the same place. What is read doesn't depend on which it is.
#[derive(Drop)]
pub struct LastPlace {
    caller: Thread,
    index: u32,
    text: [u8; 16],
    len: usize,
}

impl Model for LastPlace {
    ghost use Rattle.std.specs.Prelude.{◌≡◌, ◌≤◌, ⊤, take};
    ghost use Rattle.joint_machine.specs.Lines.{IsThread};
    ghost use Rattle.history_report.specs.Report.{place_text};

    ghost Value = { ⊤ };

    ghost view = { λ l. tt };

    ghost invariant = { λ l. (l.len ≤ 16) × IsThread l.caller × (take l.len l.text ≡ place_text l.caller l.index) };
}

impl LastPlace {
    /// Before the first line.
    pub fn new() -> LastPlace {
        LastPlace {
            caller: Thread::C,
            index: 0,
            text: *b"c.0             ",
            len: 3,
        }
    }

    /// The thread and the line that a word names: `m1.12`.
    pub fn read(&mut self, word: &[u8]) -> Option<(Thread, u32)>
        ensures { MatchOption result ((t : Thread) (n : ℕ) → IsThread t → Short n → place_text t n ≢ word.now)
            (λ p. IsThread p.0 × Short p.1 × (place_text p.0 p.1 ≡ word.now)) }
    {
        if is_same(word, &self.text[..self.len]) {
            return Some((self.caller, self.index));
        }
        let (caller, index) = place(word)?;
        if word.len() <= MOST {
            self.keep(word, caller, index);
        }
        Some((caller, index))
    }

    // Keeps a place with its text.
    fn keep(&mut self, word: &[u8], caller: Thread, index: u32)
        requires short { length word.now ≤ 16 }
        requires thread { IsThread caller }
        requires text { place_text caller index ≡ word.now }
    {
        let mut text = [0u8; 16];
        text[..word.len()].copy_from_slice(word);
        self.caller = caller;
        self.index = index;
        self.text = text;
        self.len = word.len();
    }
}
