// The log of a history, written in one walk.

ghost use Rattle.std.specs.Prelude.{◌≡◌, ◌+◌, ◌*◌, ◌≤◌, ◌++◌, ◌∷◌, [], All, Err, IfOk, List, OnOk, Option, ℕ, length};
ghost use Rattle.std.specs.Io.KnownBytes.{Appends, Keeps};
ghost use Rattle.byte_streams.specs.Sending.{Sends};
ghost use Rattle.byte_streams.specs.Streams.{Writes};
ghost use Rattle.byte_streams.specs.Faults.{AppendsPart, Rose};
ghost use Rattle.joint_model.specs.Leaders.{entry_of};
ghost use Rattle.joint_machine.specs.LinkedHistories.{IsLinked, IsLinkedBy};
ghost use Rattle.joint_machine.specs.Told.{Noted};
ghost use Rattle.log_text.specs.declared.lines.LogLine.{LogLine};
ghost use Rattle.log_text.specs.Behind.{Fits, behind_all, none_live};
ghost use Rattle.log_text.specs.Text.{lines_text, log_text as text_of_log};
ghost use Rattle.gref_log.specs.declared.making.WriteFault.TheVariants as fault;
ghost use Rattle.gref_log.specs.Laws.{LogPut};
ghost use Rattle.gref_log.specs.After.{peers_after};
ghost use Rattle.gref_log.specs.Log.{IsLogOf, behind_peers};
ghost use Rattle.gref_log.specs.Tracking.{behind_lines, change_of, counted, listed, logged_after, logged_all};
ghost use Rattle.gref_log.specs.Tracking.{made_lines, nothing_logged, with_line, with_lines};

use crate::tracked::{Move, Moves, Tracker};
use byte_streams::{Failed, Sink};
use joint_model::{EntryParts, HNum, History, PNum, Step};
use log_text::{LastNumbers, Log, LogDraft, LogLine, Mark, write_end, write_line, write_two};
use std::alloc::{AllocError, Global};
use std::marker::Model;

/// Why a log wasn't written: no memory, or the sink failed.
#[derive(Clone, Copy, PartialEq, Eq, Debug)]
pub enum WriteFault {
    OutOfMemory,
    Failed,
}

/// The lines of one entry, in order.
#[derive(Clone, Copy)]
pub enum Lines {
    None,
    One(LogLine),
    Two(LogLine, LogLine),
}

// What is tracked of the peers, and the counts. These stand apart: one that was just written is slow to read together
// with what stands beside it.
#[derive(Drop)]
struct Making {
    grefc: u32,
    tracker: Tracker,
    gwrefc: u32,
}

impl Model for Making {
    ghost use Rattle.gref_log.specs.Tracking.{InMaking};

    ghost Value = { InMaking };

    ghost view = { λ m. record {
      tracked = m.tracker.tracked;
      room = m.tracker.room;
      grefc = m.grefc;
      gwrefc = m.gwrefc;
    } };
}

impl Lines {
    // How many there are.
    #[inline(always)]
    fn len(&self) -> u64
        ensures length { result ≡ length (made_lines self.now) }
        ensures few { result ≤ 2 }
    {
        match self {
            Lines::None => 0,
            Lines::One(_) => 1,
            Lines::Two(..) => 2,
        }
    }

    // Puts them last in a list.
    fn put_last(&self, list: &mut Vec<LogLine>) -> Result<(), AllocError>
        ensures { OnOk result (list.new.items ≡ list.old.items ++ made_lines self.now) }
    {
        match *self {
            Lines::None => Ok(()),
            Lines::One(one) => {
                list.push(one)?;
                Ok(())
            }
            Lines::Two(first, second) => {
                list.push(first)?;
                list.push(second)?;
                Ok(())
            }
        }
    }

    // Writes them.
    #[inline(always)]
    fn write<K: Sink>(
        &self,
        last: &mut LastNumbers,
        line: &mut LogDraft,
        out: &mut K,
    ) -> Result<(), Failed>
        ensures { Sends (K.held out.old) (K.held out.new) line.old.text line.new.text
            (K.faults out.old) (K.faults out.new) result (lines_text (made_lines self.now)) }
    {
        match self {
            Lines::None => Ok(()),
            Lines::One(one) => write_line(one, last, line, out),
            Lines::Two(first, second) => write_two(first, second, last, line, out),
        }
    }

    // Writes them, where what was to be written before them was.
    #[inline(always)]
    fn write_after<K: Sink>(
        &self,
        before: Result<(), Failed>,
        last: &mut LastNumbers,
        line: &mut LogDraft,
        out: &mut K,
    ) -> Result<(), Failed>
        ensures { (held : Option (List ℕ)) (pending text : List ℕ) (faults : ℕ)
            → Sends held (K.held out.old) pending line.old.text faults (K.faults out.old) before text
            → Sends held (K.held out.new) pending line.new.text faults
            (K.faults out.new) result (text ++ lines_text (made_lines self.now)) }
    {
        before?;
        self.write(last, line, out)
    }
}

// A line of these numbers, which all fit.
#[inline(always)]
fn numbered_line(mark: Mark, h: u32, p: u32, grefc: u32, gwrefc: u32, entry: u64) -> LogLine
    ensures line { result ≡ record {
      mark = mark;
      h = record { 0 = h };
      p = record { 0 = p };
      grefc = grefc;
      gwrefc = gwrefc;
      entry = entry;
    } }
    ensures fits { Fits result }
{
    LogLine {
        mark,
        h: HNum(h),
        p: PNum(p),
        grefc,
        gwrefc,
        entry,
    }
}

impl Making {
    // Nothing is logged yet, and there is room for so many handles.
    fn with_room(alloc: Global, most: u64) -> Result<Making, AllocError>
        ensures nothing { IfOk result (λ m. behind_lines [] m ≡ nothing_logged) }
        ensures room { IfOk result (λ m. most ≤ m.room) }
        ensures limit { IfOk result (λ _. most ≤ u32.MAX) }
    {
        Ok(Making {
            tracker: Tracker::with_room(alloc, most)?,
            grefc: 0,
            gwrefc: 0,
        })
    }

    // There are no more handles than numbers of 32 bits.
    fn recall_numbers_fit(&self)
        ensures { length self.now.tracked.given ≤ u32.MAX }
    {
        self.tracker.recall_numbers_fit();
    }

    // Counts a handle that comes or goes.
    #[inline(always)]
    fn count(&mut self, mark: Mark)
        ensures counts { (ls : List LogLine) → behind_lines ls self.new ≡ counted (behind_lines ls self.old) mark }
        ensures room { self.new.room ≡ self.old.room }
    {
        match mark {
            Mark::GPlus => self.grefc = self.grefc.saturating_add(1),
            Mark::GMinus => self.grefc = self.grefc.saturating_sub(1),
            Mark::WPlus => self.gwrefc = self.gwrefc.saturating_add(1),
            Mark::WMinus => self.gwrefc = self.gwrefc.saturating_sub(1),
        }
    }

    // The line of a handle that comes or goes, which is counted.
    #[inline(always)]
    fn line(&mut self, number: u64, one: Move) -> LogLine
        ensures line { (ls : List LogLine)
            → behind_lines (ls ++ result ∷ []) self.new ≡ with_line (behind_lines ls self.old) number (change_of one) }
        ensures fits { Fits result }
        ensures room { self.new.room ≡ self.old.room }
    {
        self.count(one.mark);
        let peer = self.tracker.peer_of(one.h);
        numbered_line(one.mark, one.h.0, peer, self.grefc, self.gwrefc, number)
    }

    // The lines of the handles that come or go by an entry.
    #[inline(always)]
    fn lines(&mut self, number: u64, moves: Moves) -> Lines
        ensures lines { (ls : List LogLine)
            → behind_lines (ls ++ made_lines result) self.new ≡ with_lines
            (behind_lines ls self.old) number (listed moves) }
        ensures fits { All Fits (made_lines result) }
        ensures room { self.new.room ≡ self.old.room }
    {
        match moves {
            Moves::None => Lines::None,
            Moves::One(one) => Lines::One(self.line(number, one)),
            Moves::Two(first, second) => {
                let first = self.line(number, first);
                Lines::Two(first, self.line(number, second))
            }
        }
    }

    // The lines of an entry. What goes by the end of a name is seen before the name is free, and what comes is on the
    // peer that it was given on.
    #[inline(always)]
    fn take<E: EntryParts>(&mut self, entry: &E) -> Lines
        requires { 1 ≤ self.old.room }
        ensures lines { (ls : List LogLine)
            → behind_lines (ls ++ made_lines result) self.new ≡ logged_after
            (behind_lines ls self.old) (E.entry entry.now) }
        ensures fits { All Fits (made_lines result) }
        ensures room { self.old.room ≤ self.new.room + 1 }
    {
        let moves = self.tracker.moves(entry.op(), entry.reply());
        self.tracker.note(entry.caller(), entry.op(), entry.reply());
        self.lines(entry.number(), moves)
    }

    // The lines of the entry that a walk comes to.
    #[inline(always)]
    fn take_step(&mut self, step: Step) -> Lines
        requires { 1 ≤ self.old.room }
        ensures lines { (ls : List LogLine)
            → behind_lines (ls ++ made_lines result) self.new ≡ logged_after
            (behind_lines ls self.old) (entry_of step.entry) }
        ensures fits { All Fits (made_lines result) }
        ensures room { self.old.room ≤ self.new.room + 1 }
    {
        match step {
            Step::Kept(entry) => self.take(entry),
            Step::Spelled(entry) => self.take(&entry),
        }
    }
}

// Writes the lines of all entries. Answers how many there are, also where the sink failed: then the rest is only made,
// so that the beginning that was written is one of a log whose numbers all fit.
fn write_entries<K: Sink>(
    making: &mut Making,
    h: &History,
    last: &mut LastNumbers,
    line: &mut LogDraft,
    out: &mut K,
) -> (u64, Result<(), Failed>)
    requires nothing { behind_lines [] making.old ≡ nothing_logged }
    requires room { length h.now.entries ≤ making.old.room }
    requires limit { length h.now.entries ≤ u32.MAX }
    ensures count { result.0 ≡ length (logged_all nothing_logged h.now.entries).lines }
    ensures fits { All Fits (logged_all nothing_logged h.now.entries).lines }
    ensures handles { length (logged_all nothing_logged h.now.entries).tracked.given ≤ u32.MAX }
    ensures sends { Sends (K.held out.old) (K.held out.new) line.old.text line.new.text (K.faults out.old)
        (K.faults out.new) result.1 (lines_text (logged_all nothing_logged h.now.entries).lines) }
{
    let mut count = 0;
    let mut sent = Ok(());
    let mut walk = h.walk();
    while let Some(step) = walk.next() {
        let lines = making.take_step(step);
        count += lines.len();
        sent = lines.write_after(sent, last, line, out);
    }
    making.recall_numbers_fit();
    (count, sent)
}

// Writes the lines of all entries, and the last line.
fn write_made<K: Sink>(making: &mut Making, h: &History, out: &mut K) -> Result<(), Failed>
    requires nothing { behind_lines [] making.old ≡ nothing_logged }
    requires room { length h.now.entries ≤ making.old.room }
    requires limit { length h.now.entries ≤ u32.MAX }
    ensures fits { All Fits (logged_all nothing_logged h.now.entries).lines }
    ensures handles { length (logged_all nothing_logged h.now.entries).tracked.given ≤ u32.MAX }
    ensures written { Writes (K.held out.old) (K.held out.new) (K.faults out.old)
        (K.faults out.new) result (text_of_log (logged_all nothing_logged h.now.entries).lines) }
{
    let mut last = LastNumbers::new();
    let mut line = LogDraft::new();
    let (count, sent) = write_entries(making, h, &mut last, &mut line, out);
    sent?;
    write_end(count, &mut line, out)?;
    line.flush(out)
}

/// Writes the text of the global reference log of a linked history: the lines of its peer entries, in order, and `end`
/// with the number of them. It is made in one walk, in constant time for each entry, and the sink gets it in pieces of
/// at most 16 KiB. Room for the handles is asked for before the first line, 8 bytes for each entry, of which those take
/// memory by which a handle was given; the lines take none. `OutOfMemory` where there is no such room, or where there
/// are more entries than 4,294,967,295: nothing was written then. `Failed` only where the sink's count of faults rose,
/// and then a beginning of the text was written.
pub fn write_log_of<K: Sink>(alloc: Global, h: &History, out: &mut K) -> Result<(), WriteFault>
    requires { IsLinked h.now }
    ensures written { IfOk result (λ _. LogPut h.now (Appends (K.held out.old) (K.held out.new))) }
    ensures memory { result ≡ Err fault.OutOfMemory → Keeps (K.held out.old) (K.held out.new) }
    ensures part { result ≡ Err fault.Failed → LogPut h.now (AppendsPart (K.held out.old) (K.held out.new)) }
    ensures cause { result ≡ Err fault.Failed → Rose (K.faults out.old) (K.faults out.new) }
{
    let Ok(mut making) = Making::with_room(alloc, h.len()) else {
        return Err(WriteFault::OutOfMemory);
    };
    match write_made(&mut making, h, out) {
        Ok(()) => Ok(()),
        Err(_) => Err(WriteFault::Failed),
    }
}

// Puts the lines of all entries into an empty list.
fn list_entries(making: &mut Making, h: &History, list: &mut Vec<LogLine>) -> Result<(), AllocError>
    requires empty { list.old.items ≡ [] }
    requires nothing { behind_lines [] making.old ≡ nothing_logged }
    requires room { length h.now.entries ≤ making.old.room }
    ensures lines { OnOk result (list.new.items ≡ (logged_all nothing_logged h.now.entries).lines) }
    ensures fits { OnOk result (All Fits list.new.items) }
    ensures handles { OnOk result (length (logged_all nothing_logged h.now.entries).tracked.given ≤ u32.MAX) }
{
    let mut walk = h.walk();
    while let Some(step) = walk.next() {
        making.take_step(step).put_last(list)?;
    }
    making.recall_numbers_fit();
    Ok(())
}

/// The global reference log of a linked history: the lines of its peer entries, in order. It is made in one walk, in
/// constant time for each entry, with room for the handles as `write_log_of` asks for it. `AllocError` where there is
/// no memory for them or for the lines, 32 bytes each, or where there are more entries than 4,294,967,295.
pub fn log_of(alloc: Global, h: &History) -> Result<Log, AllocError>
    requires { IsLinked h.now }
    ensures log { IfOk result (λ l. IsLogOf h.now l) }
    ensures table { IfOk result (λ l. (noted : List Noted) → IsLinkedBy h.now noted
        → behind_all none_live l ≡ behind_peers (peers_after noted)) }
{
    let mut making = Making::with_room(alloc, h.len())?;
    let mut list = Vec::new(alloc);
    list_entries(&mut making, h, &mut list)?;
    Ok(Log::of_lines(list))
}
