// The lines, each put together in a buffer and written at once.

ghost use Rattle.std.specs.Prelude.{◌≡◌, ◌≤◌, ◌++◌, [], codes, decimal, length};
ghost use Rattle.byte_streams.specs.Streams.{Writes};
ghost use Rattle.report_answers.specs.Answers.{finding_text, refusal_text, why_text};

use byte_streams::{Failed, Line, Sink, write_text};
use check_laws::{Finding, Why};
use report_reader::ReportFault;

// The word for a test that fails.
fn why_word(why: Why) -> &'static str
    ensures { result.now ≡ why_text why }
{
    match why {
        Why::Caller => "caller",
        Why::Cite => "cite",
        Why::Reply => "reply",
    }
}

// Puts a finding's line into an empty buffer.
fn put_finding(finding: Finding, count: u64, line: &mut Line)
    requires room { line.old.room ≡ 16384 }
    requires none { line.old.text ≡ [] }
    ensures { line.new.text ≡ finding_text count finding }
{
    match finding {
        Finding::Legal => {
            line.text(b"legal ");
            line.number(count);
            line.text(b"\n");
        }
        Finding::Illegal { entry, why } => {
            line.text(b"illegal ");
            line.number(entry);
            line.text(b" ");
            line.text(why_word(why).as_bytes());
            line.text(b"\n");
        }
        Finding::Unfinished => line.text(b"illegal end\n"),
    }
}

/// Writes what a history with so many entries was found to be, in whatever portions the sink takes: `legal` with their
/// number, `illegal` with the number of the first entry that isn't in order and the test that fails first, `caller`,
/// `cite` or `reply`, or `illegal end` where something has to follow. [`Failed`] comes only where the sink's count of
/// faults rose; then a beginning of the line was written. It takes no memory.
pub fn write_finding<K: Sink>(finding: Finding, count: u64, out: &mut K) -> Result<(), Failed>
    ensures { Writes (K.held out.old) (K.held out.new) (K.faults out.old)
        (K.faults out.new) result (finding_text count finding) }
{
    let mut line = Line::new();
    put_finding(finding, count, &mut line);
    write_text(out, line.bytes())
}

/// Writes the line that names a report's first wrong line and its cause, as `line 3: cause 14 form`, in whatever
/// portions the sink takes. [`Failed`] comes only where the sink's count of faults rose; then a beginning of the line
/// was written. It takes no memory.
pub fn write_report_refusal<K: Sink>(fault: ReportFault, out: &mut K) -> Result<(), Failed>
    ensures { Writes (K.held out.old) (K.held out.new)
        (K.faults out.old) (K.faults out.new) result (refusal_text fault) }
{
    let mut line = Line::new();
    line.text(b"line ");
    line.number(fault.line as u64);
    line.text(b": cause ");
    line.number(fault.cause.number() as u64);
    line.text(b" ");
    line.text(fault.cause.name().as_bytes());
    line.text(b"\n");
    write_text(out, line.bytes())
}
