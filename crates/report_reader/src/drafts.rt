// What was read so far: the entries of the lines, and the lists that they name.

ghost use Rattle.std.specs.Prelude.{◌≡◌, ◌≢◌, ◌+◌, ◌-◌, ◌<◌, ◌≤◌, ◌++◌, ℕ, List, [], ◌∷◌, All, length, slice_index};
ghost use Rattle.std.specs.Prelude.{IfErr, IfOk, MatchOption};
ghost use Rattle.joint_machine.specs.Histories.{IsHistory};
ghost use Rattle.report_reader.specs.Reading.{IsReadAs};
ghost use Rattle.report_reader.specs.Answers.{IsReportRefusal};
ghost use Rattle.report_reader.specs.Steps.{AreRead, GoesTo, ReadsLine, StaysAt, StopsAt, history_of, no_lists};

use crate::endings::judge_end;
use crate::faults::ReportError;
use crate::likely::LikelyLine;
use entry_reader::{LastPlace, NamedLists, read_entry};
use joint_model::{Entries, Entry, History, Holding};
use std::alloc::{AllocError, Global};
use std::marker::Model;
use text_words::{Stretch, first_place_far};

/// The entries that were read, and the numbers that they name.
#[derive(Drop)]
pub struct Draft {
    entries: Entries,
    lists: NamedLists,
    last: LastPlace,
    likely: LikelyLine,
}

impl Model for Draft {
    ghost use Rattle.std.specs.Prelude.{◌≡◌};
    ghost use Rattle.joint_model.specs.declared.lists.Holding.TheVariants.{Every};
    ghost use Rattle.report_reader.specs.Steps.{Read};

    ghost Value = { Read };

    ghost view = { λ d. record { entries = d.entries.entries; lists = d.lists } };

    ghost invariant = { λ d. d.entries.holding ≡ Every };
}

// How many bytes are looked at at once for a line's end.
const LANES: usize = 32;

// The place of the first newline, or the length where there is none. Most lines of a report have more than 32 bytes and
// fewer than 64.
#[inline(always)]
fn line_end(bytes: &[u8]) -> usize
    ensures within { result ≤ length bytes.now }
    ensures before { (k : ℕ) → k < result → slice_index bytes.now k ≢ 10 }
    ensures found { result < length bytes.now → slice_index bytes.now result ≡ 10 }
{
    if bytes.len() < LANES {
        return first_place_far(bytes, b'\n');
    }
    let first = first_place_far(&bytes[..LANES], b'\n');
    if first < LANES {
        return first;
    }
    LANES + first_place_far(&bytes[LANES..], b'\n')
}

/// The first line without its newline, and what stands behind it; None where there is no newline.
#[inline(always)]
pub(crate) fn cut_line<'a>(bytes: &'a [u8]) -> Option<(Stretch<'a>, &'a [u8])>
    ensures { MatchOption result (All (λ b. b ≢ 10) bytes.now)
        (λ cut. All (λ b. b ≢ 10) cut.0 × (bytes.now ≡ cut.0 ++ (10 ∷ cut.1.now))) }
{
    let len = line_end(bytes);
    if len == bytes.len() {
        return None;
    }
    Some((Stretch::of(bytes, len), &bytes[len + 1..]))
}

impl Draft {
    /// Nothing yet.
    pub fn new(alloc: Global) -> Draft
        ensures { result ≡ record { entries = []; lists = no_lists } }
    {
        Draft {
            entries: Entries::new(alloc, Holding::Every),
            lists: NamedLists::new(alloc),
            last: LastPlace::new(),
            likely: LikelyLine::new(),
        }
    }

    /// How many entries were read.
    pub fn len(&self) -> u32
        ensures { result ≡ length self.now.entries }
    {
        self.entries.len()
    }

    // Puts an entry last.
    #[inline(always)]
    fn put(&mut self, entry: Entry) -> Result<(), AllocError>
        requires few { length self.old.entries < u32.MAX }
        ensures entries { IfOk result (λ _. self.new.entries ≡ self.old.entries ++ entry ∷ []) }
        ensures lists { self.new.lists ≡ self.old.lists }
    {
        self.entries.reserve(1)?;
        self.entries.push_handle(entry);
        Ok(())
    }

    // Reads the first line as that of the next entry, whatever it is, and answers what stands behind it; None where it
    // is no entry's, and then the draft stays.
    #[inline(never)]
    fn read_any<'a>(&mut self, bytes: &'a [u8]) -> Result<Option<&'a [u8]>, AllocError>
        requires some { 0 < length bytes.now }
        requires not_last { slice_index bytes.now 0 ≢ 101 }
        requires few { length self.old.entries < u32.MAX }
        ensures { IfOk result (λ found. MatchOption found (StaysAt self.old self.new bytes.now)
            (λ left. ReadsLine self.old self.new bytes.now left.now)) }
    {
        let Some((text, left)) = cut_line(bytes) else {
            return Ok(None);
        };
        let number = self.entries.len() as u64;
        let Some(entry) = read_entry(text, number, &mut self.lists, &mut self.last)? else {
            return Ok(None);
        };
        self.likely.keep(&entry.made);
        self.put(entry)?;
        Ok(Some(left))
    }

    // Reads the first line as that of the next entry, and answers what stands behind it; None where it is no entry's,
    // and then the draft stays. The line doesn't begin as a last line does. Out of memory the draft is of no more use.
    #[inline(always)]
    fn read_line<'a>(&mut self, bytes: &'a [u8]) -> Result<Option<&'a [u8]>, AllocError>
        requires some { 0 < length bytes.now }
        requires not_last { slice_index bytes.now 0 ≢ 101 }
        requires few { length self.old.entries < u32.MAX }
        ensures { IfOk result (λ found. MatchOption found (StaysAt self.old self.new bytes.now)
            (λ left. ReadsLine self.old self.new bytes.now left.now)) }
    {
        match self.likely.read(bytes, self.entries.len() as u64) {
            Some((entry, left)) => {
                self.put(entry)?;
                Ok(Some(left))
            }
            None => self.read_any(bytes),
        }
    }

    /// Reads the lines of entries that the bytes begin with, behind those that were read before, and answers what is
    /// left: nothing, or a first line that begins as a last line does, or one that is no next entry's; without its
    /// newline it is none. Out of memory the draft is of no more use.
    pub fn read_lines<'a>(&mut self, bytes: &'a [u8]) -> Result<&'a [u8], AllocError>
        requires few { length self.old.entries + length bytes.now ≤ u32.MAX - 1 }
        ensures ok { IfOk result (λ left. GoesTo self.old self.new bytes.now left.now) }
        ensures stops { IfOk result (λ left. StopsAt (length self.new.entries) left.now) }
        ensures few { IfOk result (λ left.
            length self.new.entries + length left.now ≤ length self.old.entries + length bytes.now) }
        ensures within { IfOk result (λ left. length left.now ≤ length bytes.now) }
    {
        let mut left = bytes;
        while !left.is_empty() && left[0] != b'e' {
            match self.read_line(left)? {
                Some(behind) => left = behind,
                None => return Ok(left),
            }
        }
        Ok(left)
    }

    // The history of what was read. It takes memory for one list's place alone.
    fn history(self, alloc: Global) -> Result<History, AllocError>
        requires { IsHistory (history_of self) }
        ensures { IfOk result (λ h. h ≡ history_of self) }
    {
        let Draft { entries, lists, .. } = self;
        let (freed_managed, freed_peers, notices) = lists.into_parts();
        let mut all = Vec::new(alloc);
        all.push(entries)?;
        match History::join(alloc, all, freed_managed, freed_peers, notices) {
            Ok(history) => Ok(history),
            Err(_) => Err(AllocError),
        }
    }

    /// The history of the text whose first lines were read, where these bytes stand behind them, as
    /// [`read_report`](crate::read_report) answers it of the whole.
    pub fn finish(mut self, alloc: Global, bytes: &[u8]) -> Result<History, ReportError>
        requires read { (front : List ℕ) × (AreRead front self) × (length front + length bytes.now < u32.MAX) }
        ensures ok { (front : List ℕ) → AreRead front self → length front + length bytes.now < u32.MAX
            → IfOk result (λ h. IsReadAs (front ++ bytes.now) h) }
        ensures err { (front : List ℕ) → AreRead front self → length front + length bytes.now < u32.MAX
            → IfErr result (λ error. IsReportRefusal (front ++ bytes.now) error) }
    {
        let left = self.read_lines(bytes)?;
        judge_end(left, self.len())?;
        let history = self.history(alloc)?;
        Ok(history)
    }
}
