// What is answered of a log: what was never released, or why it is refused.

ghost use Rattle.std.specs.Prelude.{◌≡◌, ◌++◌, ◌≤◌, length};
ghost use Rattle.byte_streams.specs.Sending.{Sends};
ghost use Rattle.byte_streams.specs.Streams.{Writes};
ghost use Rattle.log_text.specs.Answers.{cause_name, cause_number, handle_text, list_text, pieces, refusal_text};
ghost use Rattle.log_text.specs.Answers.{unreleased_text};

use crate::lines::LogCause;
use crate::lists::Unreleased;
use byte_streams::{Failed, Line, Sink, write_text};
use joint_model::HNum;

impl LogCause {
    /// Its number, 10 to 13.
    pub fn number(self) -> u32
        ensures { result ≡ cause_number self }
    {
        match self {
            LogCause::Text => 10,
            LogCause::Mark => 11,
            LogCause::Count => 12,
            LogCause::End => 13,
        }
    }

    /// Its name, one lowercase word.
    pub fn name(self) -> &'static str
        ensures { result.now ≡ cause_name self }
    {
        match self {
            LogCause::Text => "text",
            LogCause::Mark => "mark",
            LogCause::Count => "count",
            LogCause::End => "end",
        }
    }
}

/// Writes the line that names a log's first line that is wrong and its cause, as `line 3: cause 12 count`, in whatever
/// portions the sink takes. [`Failed`] comes only where the sink's count of faults rose; then a beginning of the line
/// was written.
pub fn write_log_refusal<K: Sink>(number: u32, cause: LogCause, out: &mut K) -> Result<(), Failed>
    ensures { Writes (K.held out.old) (K.held out.new) (K.faults out.old)
        (K.faults out.new) result (refusal_text number cause) }
{
    let mut line = Line::new();
    line.text(b"line ");
    line.number(number as u64);
    line.text(b": cause ");
    line.number(cause.number() as u64);
    line.text(b" ");
    line.text(cause.name().as_bytes());
    line.text(b"\n");
    write_text(out, line.bytes())
}

// Writes a handle with a space before it.
fn write_handle<K: Sink>(h: HNum, line: &mut Line, out: &mut K) -> Result<(), Failed>
    ensures { Sends (K.held out.old) (K.held out.new) line.old.text line.new.text
        (K.faults out.old) (K.faults out.new) result (handle_text h) }
{
    line.make_room(out)?;
    line.lettered(b'h', h.0 as u64);
    Ok(())
}

// Writes handles, each with a space before it.
fn write_handles<K: Sink>(handles: &[HNum], line: &mut Line, out: &mut K) -> Result<(), Failed>
    ensures { Sends (K.held out.old) (K.held out.new) line.old.text line.new.text
        (K.faults out.old) (K.faults out.new) result (pieces handle_text handles.now) }
{
    for h in handles {
        write_handle(*h, line, out)?;
    }
    Ok(())
}

// Writes a text of at most 512 bytes.
fn write_piece<K: Sink>(piece: &[u8], line: &mut Line, out: &mut K) -> Result<(), Failed>
    requires { length piece.now ≤ 512 }
    ensures { Sends (K.held out.old) (K.held out.new) line.old.text line.new.text
        (K.faults out.old) (K.faults out.new) result piece.now }
{
    line.make_room(out)?;
    line.text(piece);
    Ok(())
}

// Writes a list of handles: `-` where there is none.
fn write_list<K: Sink>(handles: &[HNum], line: &mut Line, out: &mut K) -> Result<(), Failed>
    ensures { Sends (K.held out.old) (K.held out.new) line.old.text line.new.text
        (K.faults out.old) (K.faults out.new) result (list_text handles.now) }
{
    if handles.is_empty() {
        return write_piece(b" -", line, out);
    }
    write_handles(handles, line, out)
}

// Writes a word and a list of handles behind it.
fn write_strength<K: Sink>(
    word: &[u8],
    handles: &[HNum],
    line: &mut Line,
    out: &mut K,
) -> Result<(), Failed>
    requires { length word.now ≤ 512 }
    ensures { Sends (K.held out.old) (K.held out.new) line.old.text line.new.text
        (K.faults out.old) (K.faults out.new) result (word.now ++ list_text handles.now) }
{
    write_piece(word, line, out)?;
    write_list(handles, line, out)
}

// Writes both lines.
fn write_both<K: Sink>(left: &Unreleased, line: &mut Line, out: &mut K) -> Result<(), Failed>
    ensures { Sends (K.held out.old) (K.held out.new) line.old.text line.new.text (K.faults out.old)
        (K.faults out.new) result (unreleased_text left.now.strong.items left.now.weak.items) }
{
    write_strength(b"strong", &left.strong, line, out)?;
    write_strength(b"\nweak", &left.weak, line, out)?;
    write_piece(b"\n", line, out)
}

/// Writes what was never released: a line `strong LIST` and a line `weak LIST`, each list rising, or `-` where nothing
/// is left. The sink gets it in pieces of at most 16 KiB. It takes no memory. [`Failed`] only where the sink's count of
/// faults rose, and then a beginning of the text was written.
pub fn write_unreleased<K: Sink>(left: &Unreleased, out: &mut K) -> Result<(), Failed>
    ensures { Writes (K.held out.old) (K.held out.new) (K.faults out.old)
        (K.faults out.new) result (unreleased_text left.now.strong.items left.now.weak.items) }
{
    let mut line = Line::new();
    write_both(left, &mut line, out)?;
    line.flush(out)
}
