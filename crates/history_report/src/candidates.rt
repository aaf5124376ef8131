// The lines that a cycle has for each candidate: its handle is weakened, and restored under a new number. They are most
// of a long report, and each differs from the one before in the ends of its numbers.

ghost use Rattle.std.specs.Prelude.{◌≡◌, ◌+◌, ◌≤◌, ◌++◌, IfSome, length, take};
ghost use Rattle.byte_streams.specs.Drafts.{AddsText};
ghost use Rattle.history_report.specs.Candidates.{IsOfCandidate, candidate_text, front_text};

use byte_streams::{Count, Line, Part};
use joint_model::{Entry, HNum, Op, Reply, Thread};
use std::marker::Model;

/// What such a line tells: a handle was weakened, of a cycle whose snapshot has that number; or one was restored, under
/// a new number.
#[derive(Clone, Copy)]
pub(crate) enum Candidate {
    Weakened(HNum, u64),
    Restored(HNum, HNum),
}

// What the entry of a weakening tells.
#[inline(always)]
fn weakened(entry: &Entry, h: HNum) -> Option<Candidate>
    requires caller { entry.now.made.caller ≡ Thread.C }
    requires op { entry.now.made.op ≡ Op.Weaken h }
    ensures { IfSome result (λ c. IsOfCandidate entry.now c) }
{
    match (entry.made.reply, entry.made.cites) {
        (Reply::Ok, Some(snap)) => Some(Candidate::Weakened(h, snap)),
        _ => None,
    }
}

// And that of a restore.
#[inline(always)]
fn restored(entry: &Entry, h: HNum) -> Option<Candidate>
    requires caller { entry.now.made.caller ≡ Thread.C }
    requires op { entry.now.made.op ≡ Op.Restore h }
    ensures { IfSome result (λ c. IsOfCandidate entry.now c) }
{
    match (entry.made.reply, entry.made.cites) {
        (Reply::Renewed(given), None) => Some(Candidate::Restored(h, given)),
        _ => None,
    }
}

/// What an entry tells of a candidate's handle; None of most others.
#[inline(always)]
pub(crate) fn candidate_of(entry: &Entry) -> Option<Candidate>
    ensures { IfSome result (λ c. IsOfCandidate entry.now c) }
{
    match (entry.made.caller, entry.made.op) {
        (Thread::C, Op::Weaken { h }) => weakened(entry, h),
        (Thread::C, Op::Restore { h }) => restored(entry, h),
        _ => None,
    }
}

/// The words of candidates' lines on one line of the script, with the digits of the numbers that were put last.
#[derive(Drop)]
pub(crate) struct CandidateLines {
    index: u32,
    number: Part,
    weakened: Part,
    cited: Part,
    restored: Part,
    given: Part,
}

impl Model for CandidateLines {
    ghost use Rattle.std.specs.Prelude.{◌≡◌, ℕ, [], codes};
    ghost use Rattle.history_report.specs.Candidates.{front_text};

    ghost Value = { ℕ };

    ghost view = { λ l. l.index };

    ghost invariant = { λ l. (l.number.word ≡ [])
        × ((l.weakened.word ≡ front_text l.index (codes " weaken h"))
        × ((l.cited.word ≡ codes " = ok @")
        × ((l.restored.word ≡ front_text l.index (codes " restore h")) × (l.given.word ≡ codes " = alive h")))) };
}

impl CandidateLines {
    /// For lines of the driver on that line of the script.
    #[inline(never)]
    pub(crate) fn on(index: u32) -> CandidateLines
        ensures { result ≡ index }
    {
        CandidateLines {
            index,
            number: Part::of(b""),
            weakened: front_of(index, b" weaken h"),
            cited: Part::of(b" = ok @"),
            restored: front_of(index, b" restore h"),
            given: Part::of(b" = alive h"),
        }
    }

    // Goes to another line of the script. It is a call, since it is seldom made.
    #[inline(never)]
    fn move_to(&mut self, index: u32)
        ensures { self.new ≡ index }
    {
        let weakened = front_of(index, b" weaken h");
        let restored = front_of(index, b" restore h");
        self.index = index;
        self.weakened = weakened;
        self.restored = restored;
    }

    /// Goes to a line of the script.
    #[inline(always)]
    pub(crate) fn go_to(&mut self, index: u32)
        ensures { self.new ≡ index }
    {
        if self.index != index {
            self.move_to(index);
        }
    }

    /// Puts a candidate's line behind a text, that of an entry with that number.
    #[inline(always)]
    pub(crate) fn add(&mut self, line: &mut Line, number: u64, candidate: Candidate)
        requires { 300 ≤ line.old.room }
        ensures text { AddsText line.old line.new (candidate_text number self.old candidate) 300 }
        ensures index { self.new ≡ self.old }
    {
        line.part(&mut self.number, number);
        match candidate {
            Candidate::Weakened(h, snap) => {
                line.part(&mut self.weakened, h.0 as u64);
                line.part(&mut self.cited, snap);
            }
            Candidate::Restored(h, given) => {
                line.part(&mut self.restored, h.0 as u64);
                line.part(&mut self.given, given.0 as u64);
            }
        }
        line.text(b"\n");
    }
}

// Puts a piece behind the front of a few bytes, and answers where it ends.
#[inline(always)]
fn put(bytes: &mut [u8; 40], at: usize, piece: &[u8]) -> usize
    requires { at + length piece.now ≤ 40 }
    ensures text { take result bytes.new ≡ take at bytes.old ++ piece.now }
    ensures end { result ≡ at + length piece.now }
{
    let end = at + piece.len();
    bytes[at..end].copy_from_slice(piece);
    end
}

// The words of a line of the driver up to the number of a handle, as a part. It is a call, since it is seldom made.
#[inline(never)]
fn front_of(index: u32, words: &[u8]) -> Part
    requires { length words.now ≤ 10 }
    ensures { result.word ≡ front_text index words.now }
{
    let count = Count::of(index as u64);
    let (digits, len) = count.digits();
    let mut bytes = [0; 40];
    let at = put(&mut bytes, 0, b" c.");
    let at = put(&mut bytes, at, &digits[..len]);
    let at = put(&mut bytes, at, words);
    Part::of(&bytes[..at])
}
