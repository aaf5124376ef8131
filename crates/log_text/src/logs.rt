// A log: lines of which each may stand behind those before it, with the right counts.

ghost use Rattle.std.specs.Prelude.{◌≡◌, length, slice_get};
ghost use Rattle.log_text.specs.Behind.{IsLog};

use crate::lines::LogLine;
use std::marker::Model;

/// A reference log: its lines in order. A plus line stands where its handle isn't live in that strength, a minus line
/// where it is, on that peer, and the counts of each line are those behind it. It never changes.
#[derive(Drop)]
pub struct Log {
    lines: Vec<LogLine>,
}

impl Model for Log {
    ghost use Rattle.std.specs.Prelude.{List};
    ghost use Rattle.log_text.specs.declared.lines.LogLine.{LogLine};
    ghost use Rattle.log_text.specs.Behind.{IsLog};

    ghost Value = { List LogLine };

    ghost view = { λ l. l.lines.items };

    ghost invariant = { λ l. IsLog l.lines.items };
}

impl Log {
    /// The log of lines that are one.
    pub fn of_lines(lines: Vec<LogLine>) -> Log
        requires { IsLog lines.items }
        ensures { result ≡ lines.items }
    {
        Log { lines }
    }

    /// The number of its lines.
    pub fn len(&self) -> u64
        ensures { result ≡ length self.now }
    {
        self.lines.len() as u64
    }

    /// The line at a place, counted from 0. None exactly where that isn't below the length.
    pub fn line(&self, i: u64) -> Option<LogLine>
        ensures { result ≡ slice_get self.now i }
    {
        self.lines.get(i as usize).copied()
    }

    /// All lines in order.
    pub fn lines(&self) -> &[LogLine]
        ensures lines { result.now ≡ self.now }
        ensures log { IsLog self.now }
    {
        &self.lines
    }
}
