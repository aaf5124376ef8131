// The text of a log that is longer than a limit.

ghost use Rattle.std.specs.Prelude.{◌≡◌, ℕ, ◌<◌, ◌≤◌, IfErr, IfOk, MatchResult, length};
ghost use Rattle.log_text.specs.declared.lines.LogCause.{LogCause};
ghost use Rattle.log_text.specs.declared.lines.LogError.TheVariants.{Refused};
ghost use Rattle.gref_log.specs.Limit.{IsLongLine};
ghost use Rattle.gref_log.specs.Answers.{IsRefusedBefore};

use log_text::{LogError, read_log};
use std::alloc::Global;
use text_limits::{front_of, newlines};

// A refusal whose line is one of so many; its line where it stands behind them.
fn within(count: u32, error: LogError) -> Result<u32, LogError>
    ensures { MatchResult result (λ number. (why : LogCause) × (error ≡ Refused number why) × (count < number))
        (λ refusal. (refusal ≡ error) × ((number : ℕ) (why : LogCause) → error ≡ Refused number why → number ≤ count)) }
{
    match error {
        LogError::OutOfMemory => Err(LogError::OutOfMemory),
        LogError::Refused { line, cause } => {
            if line > count {
                return Ok(line);
            }
            Err(LogError::Refused { line, cause })
        }
    }
}

/// Of the text of a log that has more bytes than a limit, the number of the line that holds the first byte behind it,
/// counted from 1, where no line before it is wrong. `Refused` exactly where a line before it is, with the first one
/// and its first [`log_text::LogCause`]; `OutOfMemory` as [`read_log`] of the lines before it. Whether a last line
/// stands before it is of no matter.
pub fn long_line(alloc: Global, bytes: &[u8], most: usize) -> Result<u32, LogError>
    requires few { length bytes.now < u32.MAX }
    requires long { most < length bytes.now }
    ensures ok { IfOk result (λ number. IsLongLine most bytes.now number) }
    ensures err { IfErr result (λ error. IsRefusedBefore most bytes.now error) }
{
    let front = front_of(bytes, most);
    let count = newlines(front);
    match read_log(alloc, front) {
        Ok(_) => return Ok(count + 1),
        Err(error) => return within(count, error),
    }
}
