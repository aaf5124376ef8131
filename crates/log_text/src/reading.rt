// Reading a log back.

ghost use Rattle.std.specs.Prelude.{◌≡◌, ◌+◌, ◌++◌, ◌<◌, ◌^◌, [], ◌∷◌, true, length, IfOk, IfErr, MatchResult};
ghost use Rattle.log_text.specs.declared.lines.LogError.{LogError};
ghost use Rattle.log_text.specs.Behind.{IsLog, Fits};
ghost use Rattle.log_text.specs.Text.{IsLogText};
ghost use Rattle.log_text.specs.Taking.{Takes, Stops, StopsAt, Finishes, IsLogRefusal};

use crate::lines::{LogCause, LogError, LogLine};
use crate::live::LiveHandles;
use crate::logs::Log;
use crate::said::{Said, said_in};
use joint_model::list_with_room;
use std::alloc::Global;
use std::marker::Model;
use text_words::{PlacedLine, PlacedLines};

// No line of a log has fewer bytes, its newline counted.
const LEAST: usize = 30;

// A log that grows by the lines that are read, with what stands behind them.
#[derive(Drop)]
struct Growing {
    lines: Vec<LogLine>,
    live: LiveHandles,
}

impl Model for Growing {
    ghost use Rattle.std.specs.Prelude.{List};
    ghost use Rattle.log_text.specs.declared.lines.LogLine.{LogLine};
    ghost use Rattle.log_text.specs.Live.{shown};
    ghost use Rattle.log_text.specs.Taking.{IsGrowing};

    ghost Value = { List LogLine };

    ghost view = { λ g. g.lines.items };

    ghost invariant = { λ g. IsGrowing g.lines.items (shown g.live) };
}

impl Growing {
    // The log of no lines, with room for so many where there is memory for it.
    fn new(alloc: Global, room: usize) -> Growing
        ensures { result ≡ [] }
    {
        Growing {
            lines: list_with_room(alloc, room),
            live: LiveHandles::new(alloc),
        }
    }

    // The refusal of the next line.
    fn refusal(&self, cause: LogCause) -> LogError
        requires { length self.now + 2 < 2 ^ 32 }
        ensures { result ≡ LogError.Refused (length self.now + 1) cause }
    {
        LogError::Refused {
            line: self.lines.len() as u32 + 1,
            cause,
        }
    }

    // Puts a line last, where it may stand there with its counts.
    fn grow(&mut self, line: LogLine) -> Result<(), LogError>
        requires fits { Fits line }
        requires room { length self.old + 2 < 2 ^ 32 }
        ensures { MatchResult result (λ _. self.new ≡ self.old ++ line ∷ []) (λ error. StopsAt self.old line error) }
    {
        if !self.live.may_stand(&line) {
            return Err(self.refusal(LogCause::Mark));
        }
        if !self.live.will_have_counts(&line) {
            return Err(self.refusal(LogCause::Count));
        }
        self.lines.reserve(1)?;
        self.live.note(&line)?;
        self.lines.push_reserved(line);
        Ok(())
    }

    // Takes the next line of a text: true where the log grew by it, and false where it is the last line.
    fn take(&mut self, line: PlacedLine) -> Result<bool, LogError>
        requires { length self.old + 2 < 2 ^ 32 }
        ensures log { IsLog self.old }
        ensures line { MatchResult result (λ grew. (line.entry.closed ≡ true)
            × Takes grew self.old self.new line.entry.text)
            (λ error. Stops self.old line.entry.text line.entry.closed error) }
    {
        let _ = &self.lines;
        if !line.closed {
            return Err(self.refusal(LogCause::Text));
        }
        match said_in(line.text) {
            Some(Said::Entry(entry)) => {
                self.grow(entry)?;
                Ok(true)
            }
            Some(Said::End(n)) => {
                if n == self.lines.len() as u64 {
                    Ok(false)
                } else {
                    Err(self.refusal(LogCause::End))
                }
            }
            None => Err(self.refusal(LogCause::Text)),
        }
    }

    // The log whose last line was taken, where no other line stands behind that one.
    fn finish(self, left: PlacedLines) -> Result<Log, LogError>
        requires { length self + 2 < 2 ^ 32 }
        ensures log { IsLog self }
        ensures end { MatchResult result (λ log. (log ≡ self) × (left.entry ≡ []))
            (λ error. Finishes self left.entry error) }
    {
        let mut left = left;
        let Growing { lines, .. } = self;
        let Some(_) = left.next() else {
            return Ok(Log::of_lines(lines));
        };
        Err(LogError::Refused {
            line: lines.len() as u32 + 2,
            cause: LogCause::End,
        })
    }
}

/// The log that has these bytes as its text.
///
/// `OutOfMemory` where there is no memory for the lines or for the live handles. `Refused` exactly where no log has
/// this text, with the first line that is wrong, counted from 1, and its first [`LogCause`]: where only the last line
/// lacks, that is the place behind all lines.
///
/// The lines take at most 32 bytes for each 30 bytes of the text, and the live handles less. The handles' numbers may
/// be any of 32 bits: the time for n lines is that of n look-ups among the live handles in an ordered map.
pub fn read_log(alloc: Global, bytes: &[u8]) -> Result<Log, LogError>
    requires { length bytes.now < u32.MAX }
    ensures ok { IfOk result (λ log. IsLogText bytes.now log) }
    ensures err { IfErr result (λ error. IsLogRefusal bytes.now error) }
{
    let mut log = Growing::new(alloc, bytes.len() / LEAST);
    let mut lines = PlacedLines::of(bytes);
    while let Some(line) = lines.next() {
        if !log.take(line)? {
            return log.finish(lines);
        }
    }
    Err(log.refusal(LogCause::End))
}
