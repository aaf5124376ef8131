// The text of a summary, put together in a fixed buffer.

ghost use Rattle.std.specs.Prelude.{◌≡◌, ◌≤◌, length, codes};
ghost use Rattle.byte_streams.specs.Drafts.{AddsText};
ghost use Rattle.byte_streams.specs.Streams.{Writes};
ghost use Rattle.command_words.specs.Commands.{mode_text};
ghost use Rattle.run_summary.specs.Summary.{objects_text, command_text, counts_text, summary_text};

use crate::tallies::{Objects, Tally};
use byte_streams::{Failed, Line, Sink, write_text};
use command_words::Mode;

// The word of a mode.
fn word_of(mode: Mode) -> &'static [u8]
    ensures text { result.now ≡ mode_text mode }
    ensures short { length result.now ≤ 7 }
{
    match mode {
        Mode::Serial => b"serial",
        Mode::Threads => b"threads",
    }
}

// The end of a line that counts objects.
fn add_objects(line: &mut Line, objects: &Objects)
    requires { 87 ≤ line.old.room }
    ensures { AddsText line.old line.new (objects_text objects.now) 87 }
{
    line.text(b" managed ");
    line.number(objects.managed);
    line.text(b" peers ");
    line.number(objects.peers);
    line.text(b" handles ");
    line.number(objects.handles);
    line.text(b"\n");
}

// The line of the words that asked for the run.
fn add_command(line: &mut Line, seed: u64, size: u32, mode: Mode)
    requires { 66 ≤ line.old.room }
    ensures { AddsText line.old line.new (command_text seed size mode) 66 }
{
    line.text(b"seed ");
    line.number(seed);
    line.text(b" size ");
    line.number(size as u64);
    line.text(b" mode ");
    line.text(word_of(mode));
    line.text(b"\n");
}

// The three lines of numbers.
fn add_counts(line: &mut Line, lines: u32, tally: &Tally)
    requires { 237 ≤ line.old.room }
    ensures { AddsText line.old line.new (counts_text lines tally.now) 237 }
{
    line.text(b"lines ");
    line.number(lines as u64);
    line.text(b" cycles ");
    line.number(tally.cycles);
    line.text(b"\nmade");
    add_objects(line, &tally.made);
    line.text(b"live");
    add_objects(line, &tally.left);
}

/// Writes the summary of a run that was asked for by a seed, a size and a mode: the four lines of those words, of the
/// number of the script's lines and of the cycles, of what was made, and of what is left of it. They go to the sink as
/// one text, in whatever portions it takes. It takes no memory. [`Failed`] comes only where the sink's count of faults
/// rose; then a beginning of the text was written.
pub fn write_summary<K: Sink>(
    seed: u64,
    size: u32,
    mode: Mode,
    lines: u32,
    tally: &Tally,
    out: &mut K,
) -> Result<(), Failed>
    ensures { Writes (K.held out.old) (K.held out.new) (K.faults out.old)
        (K.faults out.new) result (summary_text seed size mode lines tally.now) }
{
    let mut line = Line::new();
    add_command(&mut line, seed, size, mode);
    add_counts(&mut line, lines, tally);
    write_text(out, line.bytes())
}
