// The text of a log, which a sink gets piece by piece.

ghost use Rattle.std.specs.Prelude.{◌++◌, [], ◌∷◌};
ghost use Rattle.byte_streams.specs.Sending.{Sends};
ghost use Rattle.byte_streams.specs.Streams.{Writes};
ghost use Rattle.log_text.specs.Text.{line_text, lines_text, end_text, log_text};

use crate::drafts::{LastNumbers, LogDraft};
use crate::lines::LogLine;
use crate::logs::Log;
use byte_streams::{Failed, Sink};

/// Writes a line of a log, with its newline, behind what is pending in the draft. [`Failed`] only where the sink's
/// count of faults rose; then it got a beginning of both.
#[inline(always)]
pub fn write_line<K: Sink>(
    entry: &LogLine,
    last: &mut LastNumbers,
    line: &mut LogDraft,
    out: &mut K,
) -> Result<(), Failed>
    ensures { Sends (K.held out.old) (K.held out.new) line.old.text line.new.text
        (K.faults out.old) (K.faults out.new) result (line_text entry.now ++ 10 ∷ []) }
{
    line.make_room(out)?;
    line.put(entry, last);
    Ok(())
}

/// Writes two lines of a log, each with its newline, behind what is pending in the draft. [`Failed`] only where the
/// sink's count of faults rose; then it got a beginning of all.
pub fn write_two<K: Sink>(
    first: &LogLine,
    second: &LogLine,
    last: &mut LastNumbers,
    line: &mut LogDraft,
    out: &mut K,
) -> Result<(), Failed>
    ensures { Sends (K.held out.old) (K.held out.new) line.old.text line.new.text
        (K.faults out.old) (K.faults out.new) result (lines_text (first.now ∷ second.now ∷ [])) }
{
    line.make_room(out)?;
    line.put_two(first, second, last);
    Ok(())
}

// Writes all lines in order.
fn write_lines<K: Sink>(
    entries: &[LogLine],
    last: &mut LastNumbers,
    line: &mut LogDraft,
    out: &mut K,
) -> Result<(), Failed>
    ensures { Sends (K.held out.old) (K.held out.new) line.old.text line.new.text
        (K.faults out.old) (K.faults out.new) result (lines_text entries.now) }
{
    for entry in entries {
        write_line(entry, last, line, out)?;
    }
    Ok(())
}

/// Writes the last line of a log, with the number of lines, behind what is pending in the draft. [`Failed`] only where
/// the sink's count of faults rose; then it got a beginning of both.
pub fn write_end<K: Sink>(count: u64, line: &mut LogDraft, out: &mut K) -> Result<(), Failed>
    ensures { Sends (K.held out.old) (K.held out.new) line.old.text line.new.text
        (K.faults out.old) (K.faults out.new) result (end_text count ++ 10 ∷ []) }
{
    line.make_room(out)?;
    line.put_end(count);
    Ok(())
}

/// Writes the text of a log: its lines, and `end` with the number of them. The sink gets it in pieces of at most 16
/// KiB. It takes no memory. [`Failed`] only where the sink's count of faults rose, and then a beginning of the text was
/// written.
pub fn write_log<K: Sink>(log: &Log, out: &mut K) -> Result<(), Failed>
    ensures { Writes (K.held out.old) (K.held out.new) (K.faults out.old) (K.faults out.new) result (log_text log.now) }
{
    let mut last = LastNumbers::new();
    let mut line = LogDraft::new();
    write_lines(log.lines(), &mut last, &mut line, out)?;
    write_end(log.len(), &mut line, out)?;
    line.flush(out)
}
