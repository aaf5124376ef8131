// The line that names what is wrong with a script.

ghost use Rattle.std.specs.Prelude.{◌≡◌, ◌≤◌, length};
ghost use Rattle.bridge_script.specs.Causes.{fault_text};
ghost use Rattle.byte_streams.specs.Streams.{Writes};

use crate::faults::ScriptFault;
use byte_streams::{Failed, Line, Sink, write_text};

/// Writes the line that names a script's first faulty line and its cause, as `line 3: cause 1 unknown`, in
/// whatever portions the sink takes. [`Failed`] comes only where the sink's count of faults rose; then a
/// beginning of the line was written.
pub fn write_refusal<K: Sink>(fault: ScriptFault, out: &mut K) -> Result<(), Failed>
    ensures { Writes (K.held out.old) (K.held out.new) (K.faults out.old) (K.faults out.new) result (fault_text fault) }
{
    let mut line = Line::new();
    line.text(b"line ");
    line.number(fault.line as u64);
    line.text(b": cause ");
    line.number(fault.cause.number() as u64);
    line.text(b" ");
    line.text(fault.cause.name().as_bytes());
    line.text(b"\n");
    write_text(out, line.bytes())
}
