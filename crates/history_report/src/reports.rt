// The report of a history, which a sink gets piece by piece.

ghost use Rattle.std.specs.Prelude.{◌++◌, ◌^◌, ◌≤◌, take, length};
ghost use Rattle.joint_machine.specs.Histories.{stretch};
ghost use Rattle.byte_streams.specs.Streams.{Writes};
ghost use Rattle.byte_streams.specs.Sending.{Sends};
ghost use Rattle.byte_streams.specs.Spaced.{after_spaces};
ghost use Rattle.joint_model.specs.Leaders.{entry_of};
ghost use Rattle.history_report.specs.Lists.{lettered, list_words, numbers_of, letter_of};
ghost use Rattle.history_report.specs.Report.{entry_text, entries_text, end_text, tail_text, report};

use crate::candidates::candidate_of;
use crate::entries::{Counts, add_head, add_tail, list_of};
use crate::lists::Numbers;
use byte_streams::{Failed, Line, Sink};
use joint_model::{Entry, EntryParts, History, Span, Step};

// Writes the numbers that a span names, each with a space and its letter before it.
fn write_numbers<K: Sink>(
    h: &History,
    numbers: Numbers,
    span: Span,
    line: &mut Line,
    out: &mut K,
) -> Result<(), Failed>
    ensures { Sends (K.held out.old) (K.held out.new) line.old.text line.new.text
        (K.faults out.old) (K.faults out.new) result
        (after_spaces (lettered (letter_of numbers) (stretch (take (2 ^ 32) (numbers_of h.now numbers)) span))) }
{
    for k in 0..span.count {
        let Some(n) = numbers.at(h, span.first as u64 + k as u64) else {
            continue;
        };
        line.make_room(out)?;
        line.lettered(numbers.letter(), n as u64);
    }
    Ok(())
}

// Writes a list: the numbers that a span names, or `-` where it names none, with a space before each word.
fn write_list<K: Sink>(
    h: &History,
    numbers: Numbers,
    span: Span,
    line: &mut Line,
    out: &mut K,
) -> Result<(), Failed>
    requires { 2 ≤ line.old.room }
    ensures { Sends (K.held out.old) (K.held out.new) line.old.text line.new.text
        (K.faults out.old) (K.faults out.new) result (after_spaces (list_words h.now numbers span)) }
{
    if span.count == 0 {
        line.word(*b"-");
        return Ok(());
    }
    match numbers.at(h, span.first as u64) {
        Some(_) => write_numbers(h, numbers, span, line, out),
        None => {
            line.word(*b"-");
            Ok(())
        }
    }
}

// Writes a list and the tail of its line behind it.
#[inline(never)]
fn write_listed<K: Sink>(
    h: &History,
    numbers: Numbers,
    span: Span,
    cites: Option<u64>,
    counts: &mut Counts,
    line: &mut Line,
    out: &mut K,
) -> Result<(), Failed>
    requires { 2 ≤ line.old.room }
    ensures { Sends (K.held out.old) (K.held out.new) line.old.text line.new.text (K.faults out.old)
        (K.faults out.new) result (after_spaces (list_words h.now numbers span) ++ tail_text cites) }
{
    write_list(h, numbers, span, line, out)?;
    line.make_room(out)?;
    add_tail(line, cites, counts);
    Ok(())
}

/// Writes the line of an entry.
#[inline(always)]
pub fn write_entry<E: EntryParts, K: Sink>(
    h: &History,
    entry: &E,
    counts: &mut Counts,
    line: &mut Line,
    out: &mut K,
) -> Result<(), Failed>
    ensures { Sends (K.held out.old) (K.held out.new) line.old.text line.new.text
        (K.faults out.old) (K.faults out.new) result (entry_text h.now (E.entry entry.now)) }
{
    line.make_room(out)?;
    add_head(line, entry, counts);
    match list_of(entry.reply()) {
        Some((numbers, span)) => write_listed(h, numbers, span, entry.cites(), counts, line, out),
        None => {
            add_tail(line, entry.cites(), counts);
            Ok(())
        }
    }
}

// Writes the line of an entry that tells of no candidate. It is a call, since it is seldom made.
#[inline(never)]
fn write_spelled<K: Sink>(
    h: &History,
    entry: &Entry,
    counts: &mut Counts,
    line: &mut Line,
    out: &mut K,
) -> Result<(), Failed>
    ensures { Sends (K.held out.old) (K.held out.new) line.old.text line.new.text
        (K.faults out.old) (K.faults out.new) result (entry_text h.now entry.now) }
{
    write_entry(h, entry, counts, line, out)
}

// Writes the line of an entry that was put together: mostly it tells of a candidate. It is a call, so that the loop
// over all entries stays as it is for those that are kept.
#[inline(never)]
fn write_told<K: Sink>(
    h: &History,
    entry: &Entry,
    counts: &mut Counts,
    line: &mut Line,
    out: &mut K,
) -> Result<(), Failed>
    ensures { Sends (K.held out.old) (K.held out.new) line.old.text line.new.text
        (K.faults out.old) (K.faults out.new) result (entry_text h.now entry.now) }
{
    match candidate_of(entry) {
        None => write_spelled(h, entry, counts, line, out),
        Some(candidate) => {
            line.make_room(out)?;
            counts.candidates.go_to(entry.made.index);
            counts.candidates.add(line, entry.number, candidate);
            Ok(())
        }
    }
}

// Writes the lines of all entries, in rising number.
fn write_entries<K: Sink>(h: &History, line: &mut Line, out: &mut K) -> Result<(), Failed>
    ensures { Sends (K.held out.old) (K.held out.new) line.old.text line.new.text
        (K.faults out.old) (K.faults out.new) result (entries_text h.now h.now.entries) }
{
    let mut counts = Counts::new();
    let mut walk = h.walk();
    while let Some(step) = walk.next() {
        match step {
            Step::Kept(entry) => write_entry(h, entry, &mut counts, line, out)?,
            Step::Spelled(entry) => write_told(h, &entry, &mut counts, line, out)?,
        }
    }
    Ok(())
}

// Writes the last line, with the number of entries.
fn write_end<K: Sink>(count: u64, line: &mut Line, out: &mut K) -> Result<(), Failed>
    ensures { Sends (K.held out.old) (K.held out.new) line.old.text line.new.text
        (K.faults out.old) (K.faults out.new) result (end_text count) }
{
    line.make_room(out)?;
    line.text(b"end ");
    line.number(count);
    line.text(b"\n");
    Ok(())
}

/// Writes the report of a history: one line for each entry in rising number, and `end` with the number of entries. The
/// sink gets it in pieces of at most 16 KiB. It takes no memory. [`Failed`] only where the sink's count of faults rose,
/// and then a beginning of the report was written.
pub fn write_report<K: Sink>(h: &History, out: &mut K) -> Result<(), Failed>
    ensures { Writes (K.held out.old) (K.held out.new) (K.faults out.old) (K.faults out.new) result (report h.now) }
{
    let mut line = Line::new();
    write_entries(h, &mut line, out)?;
    write_end(h.len(), &mut line, out)?;
    line.flush(out)
}
