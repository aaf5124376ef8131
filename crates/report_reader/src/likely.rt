// The lines that a cycle has for each of its candidates: most lines of a long report are such, one behind another. They
// are read by what stands between their numbers, and not word by word.

ghost use Rattle.std.specs.Prelude.{◌≡◌, ℕ, ◌<◌, ◌^◌, ◌++◌, ◌∷◌, List, decimal, IfSome};
ghost use Rattle.entry_reader.specs.Fitting.{Short};
ghost use Rattle.report_reader.specs.Likely.{IsPlaced, IsRestored, IsWeakened, ReadsLikely, driven};

use byte_streams::Count;
use joint_model::{Entry, HNum, Made, Op, Reply, Thread};
use std::marker::Model;
use text_words::{Stretch, is_same, number};

// Numbers of handles are below this one.
const SHORT: u64 = 1 << 32;

/// What the next line may begin with: a number, and a line of the driver. What is read doesn't depend on which they
/// are.
#[derive(Drop)]
pub(crate) struct LikelyLine {
    number: Count,
    index: u32,
    line: Count,
}

impl Model for LikelyLine {
    ghost use Rattle.std.specs.Prelude.{◌≡◌, ⊤};

    ghost Value = { ⊤ };

    ghost view = { λ l. tt };

    ghost invariant = { λ l. l.line ≡ l.index };
}

// The bytes behind a text that they begin with. It is taken as an array, since its length is then known where it is
// compared.
#[inline(always)]
fn behind<'a, const N: usize>(bytes: &'a [u8], text: [u8; N]) -> Option<&'a [u8]>
    ensures { IfSome result (λ left. bytes.now ≡ text.entry ++ left.now) }
{
    if bytes.len() < N || !is_same(&bytes[..N], &text) {
        return None;
    }
    Some(&bytes[N..])
}

// The bytes behind a number, where it is seen at once that they begin with it.
#[inline(always)]
fn behind_count<'a>(bytes: &'a [u8], count: &Count) -> Option<&'a [u8]>
    ensures { IfSome result (λ left. bytes.now ≡ decimal count.now ++ left.now) }
{
    let (digits, len) = count.digits();
    if bytes.len() < len || !Stretch::of(bytes, len).is_seen_same(&Stretch::of(digits, len)) {
        return None;
    }
    Some(&bytes[len..])
}

// The number that the bytes begin with, up to the first such byte, and what stands behind that.
#[inline(always)]
fn number_to<'a>(bytes: &'a [u8], end: u8) -> Option<(u64, &'a [u8])>
    ensures { IfSome result (λ r. (r.0 < 2 ^ 64) × (bytes.now ≡ decimal r.0 ++ (end ∷ r.1.now))) }
{
    let at = Stretch::of(bytes, bytes.len()).place(end);
    if at == bytes.len() {
        return None;
    }
    let n = number(&bytes[..at])?;
    Some((n, &bytes[at + 1..]))
}

// The handle whose number the bytes begin with.
#[inline(always)]
fn handle_to<'a>(bytes: &'a [u8], end: u8) -> Option<(HNum, &'a [u8])>
    ensures { IfSome result (λ r. Short r.0.0 × (bytes.now ≡ decimal r.0.0 ++ (end ∷ r.1.now))) }
{
    let (n, left) = number_to(bytes, end)?;
    if n < SHORT {
        Some((HNum(n as u32), left))
    } else {
        None
    }
}

// `weaken h5 = ok @3` and a newline: the handle, the entry that is cited, and what stands behind the newline.
#[inline(always)]
fn weakened<'a>(bytes: &'a [u8]) -> Option<(HNum, u64, &'a [u8])>
    ensures { IfSome result (λ w. IsWeakened bytes.now w.0 w.1 w.2.now) }
{
    let rest = behind(bytes, *b"weaken h")?;
    let (h, rest) = handle_to(rest, b' ')?;
    let rest = behind(rest, *b"= ok @")?;
    let (cited, left) = number_to(rest, b'\n')?;
    Some((h, cited, left))
}

// `restore h5 = alive h7` and a newline: the handle, the one that was given for it, and what stands behind the newline.
#[inline(always)]
fn restored<'a>(bytes: &'a [u8]) -> Option<(HNum, HNum, &'a [u8])>
    ensures { IfSome result (λ r. IsRestored bytes.now r.0 r.1 r.2.now) }
{
    let rest = behind(bytes, *b"restore h")?;
    let (h, rest) = handle_to(rest, b' ')?;
    let rest = behind(rest, *b"= alive h")?;
    let (given, left) = handle_to(rest, b'\n')?;
    Some((h, given, left))
}

// An entry of the driver.
#[inline(always)]
fn driven(number: u64, index: u32, op: Op, reply: Reply, cites: Option<u64>) -> Entry
    ensures { result ≡ driven number index op reply cites }
{
    let made = Made {
        caller: Thread::C,
        index,
        op,
        reply,
        cites,
    };
    Entry { number, made }
}

// The entry of that number and line of the driver which the bytes behind these say.
#[inline(always)]
fn said<'a>(bytes: &'a [u8], number: u64, index: u32) -> Option<(Entry, &'a [u8])>
    ensures { IfSome result (λ r. (whole : List ℕ) → IsPlaced whole number index bytes.now
        → ReadsLikely whole number r.0 r.1.now) }
{
    if let Some((h, cited, left)) = weakened(bytes) {
        let entry = driven(number, index, Op::Weaken { h }, Reply::Ok, Some(cited));
        return Some((entry, left));
    }
    let (h, given, left) = restored(bytes)?;
    let entry = driven(
        number,
        index,
        Op::Restore { h },
        Reply::Renewed(given),
        None,
    );
    Some((entry, left))
}

impl LikelyLine {
    /// Before the first line.
    pub(crate) fn new() -> LikelyLine {
        LikelyLine {
            number: Count::of(0),
            index: 0,
            line: Count::of(0),
        }
    }

    // The bytes behind that number and the line of the driver that is kept, each with a space behind it.
    #[inline(always)]
    fn skip<'a>(&mut self, bytes: &'a [u8], number: u64) -> Option<(u32, &'a [u8])>
        ensures { IfSome result (λ p. IsPlaced bytes.now number p.0 p.1.now) }
    {
        self.number.go_to(number);
        let rest = behind_count(bytes, &self.number)?;
        let rest = behind(rest, *b" c.")?;
        let rest = behind_count(rest, &self.line)?;
        let left = behind(rest, *b" ")?;
        self.number.go_to(number.wrapping_add(1));
        Some((self.index, left))
    }

    /// The entry with that number whose line is the first of these bytes, with its newline, and what stands behind it:
    /// where a cycle weakened or restored a handle, and the line is that of the driver's last entry. None for all other
    /// entries, and where it isn't seen at once.
    #[inline(always)]
    pub(crate) fn read<'a>(&mut self, bytes: &'a [u8], number: u64) -> Option<(Entry, &'a [u8])>
        ensures { IfSome result (λ r. ReadsLikely bytes.now number r.0 r.1.now) }
    {
        let (index, rest) = self.skip(bytes, number)?;
        said(rest, number, index)
    }

    /// Keeps the line of an entry of the driver.
    pub(crate) fn keep(&mut self, made: &Made) {
        if let Thread::C = made.caller {
            self.index = made.index;
            self.line.go_to(made.index as u64);
        }
    }
}
