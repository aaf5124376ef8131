// A report, taken from a source piece by piece: of what was taken only the lines are held that weren't read yet.

ghost use Rattle.std.specs.Prelude.{◌≡◌, ◌+◌, ◌-◌, ◌<◌, ◌≤◌, ◌++◌, ℕ, List, Option, drop, false, true, length};
ghost use Rattle.std.specs.Prelude.{IfErr, IfOk, vec_len};
ghost use Rattle.report_reader.specs.Reading.{IsReadAs};
ghost use Rattle.report_reader.specs.Steps.{AreRead, GoesTo};
ghost use Rattle.limited_reports.specs.Answers.{TookNone, TookReport};
ghost use Rattle.limited_reports.specs.Pieces.{IsNone, IsTaken, IsTakenAll, IsTakenWhole};

use crate::limits::{TakeError, refuse_long};
use byte_streams::Source;
use joint_model::History;
use report_reader::{Draft, ReportError};
use std::alloc::{AllocError, Global};
use text_words::first_place_far;

// How many bytes are asked for in one call.
const PIECE: usize = 16_384;

// Lets the first bytes go, so many.
fn remove_front(held: &mut Vec<u8>, n: usize)
    requires { n ≤ vec_len held.old }
    ensures { held.new.items ≡ drop n held.old.items }
{
    let len = held.len();
    held.as_mut_slice().copy_within(n..len, 0);
    held.truncate(len - n);
}

// Reads the lines that are held, and holds what is left behind them. Answers how many bytes these are.
fn read_held(draft: &mut Draft, held: &mut Vec<u8>) -> Result<usize, AllocError>
    requires { length draft.old.entries + length held.old.items ≤ u32.MAX - 1 }
    ensures { IfOk result (λ left. GoesTo draft.old draft.new held.old.items held.new.items) }
{
    let left = draft.read_lines(held)?.len();
    let read = held.len() - left;
    remove_front(held, read);
    Ok(left)
}

// Holds a piece that was taken, and reads the lines that it ends. Answers whether the next piece may end one: where
// bytes are left that were held before, though a line was ended, the first line can't be read, and no more are.
fn take_piece(
    draft: &mut Draft,
    held: &mut Vec<u8>,
    piece: &[u8],
    reads: bool,
) -> Result<bool, AllocError>
    requires { length draft.old.entries + length held.old.items + length piece.now ≤ u32.MAX - 1 }
    ensures { IfOk result (λ on. GoesTo draft.old draft.new (held.old.items ++ piece.now) held.new.items) }
{
    held.extend_from_slice(piece)?;
    if !reads || first_place_far(piece, b'\n') == piece.len() {
        return Ok(reads);
    }
    let left = read_held(draft, held)?;
    Ok(left <= piece.len())
}

// Takes bytes from a source until its end, or until `most` were taken, and answers whether it came to the end.
fn take_pieces<S: Source>(
    src: &mut S,
    most: usize,
    draft: &mut Draft,
    held: &mut Vec<u8>,
) -> Result<bool, TakeError>
    requires few { most < u32.MAX - 1 }
    requires start { IsTaken most (S.left src.old) (S.left src.old) draft.old held.old.items 0 }
    ensures ended { IfOk result (λ ended. ended ≡ true
        → IsTakenWhole most (S.left src.old) (S.left src.new) draft.new held.new.items) }
    ensures most { IfOk result (λ ended. ended ≡ false
        → IsTakenAll most (S.left src.old) (S.left src.new) draft.new held.new.items) }
    ensures err { IfErr result (λ error. TookNone most (S.left src.old)
        (S.left src.new) (S.faults src.old) (S.faults src.new) error) }
    ensures later { S.faults src.old ≤ S.faults src.new }
{
    let mut buf = [0u8; PIECE];
    let mut count = 0;
    let mut reads = true;
    while count < most {
        let room = (most - count).min(PIECE);
        match src.read(&mut buf[..room]) {
            Ok(0) => return Ok(true),
            Ok(n) => {
                reads = take_piece(draft, held, &buf[..n], reads)?;
                count += n;
            }
            Err(_) => return Err(TakeError::ReadFault),
        }
    }
    Ok(false)
}

// The history of a text within the limit, of which a draft has read the first lines and these bytes stand behind them.
fn finish(alloc: Global, draft: Draft, held: &[u8]) -> Result<History, TakeError>
    requires read { (front : List ℕ) × (AreRead front draft) × (length front + length held.now < u32.MAX) }
    ensures ok { (front : List ℕ) → AreRead front draft → length front + length held.now < u32.MAX
        → IfOk result (λ h. IsReadAs (front ++ held.now) h) }
    ensures err { (front : List ℕ) → AreRead front draft → length front + length held.now < u32.MAX
        → IfErr result (λ error. IsNone (front ++ held.now) error) }
{
    match draft.finish(alloc, held) {
        Ok(history) => Ok(history),
        Err(ReportError::OutOfMemory) => Err(TakeError::OutOfMemory),
        Err(ReportError::Refused(fault)) => Err(TakeError::Refused(fault)),
    }
}

// The history where as many bytes were taken as the limit is: takes one more, where there is one, and then there is no
// report.
fn finish_at_limit<S: Source>(
    alloc: Global,
    src: &mut S,
    draft: Draft,
    mut held: Vec<u8>,
) -> Result<History, TakeError>
    requires { (most : ℕ) × (left : Option (List ℕ)) × IsTakenAll most left (S.left src.old) draft held.items }
    ensures ok { (most : ℕ) (left : Option (List ℕ)) → IsTakenAll most left (S.left src.old) draft held.items
        → IfOk result (λ h. TookReport most left (S.left src.new) h) }
    ensures err { (most : ℕ) (left : Option (List ℕ)) → IsTakenAll most left (S.left src.old) draft held.items
        → IfErr result (λ error. TookNone most left (S.left src.new) (S.faults src.old) (S.faults src.new) error) }
    ensures later { S.faults src.old ≤ S.faults src.new }
{
    let mut byte = [0u8; 1];
    match src.read(&mut byte) {
        Ok(0) => return finish(alloc, draft, &held),
        Ok(_) => {
            let within = held.len();
            held.extend_from_slice(&byte)?;
            Err(refuse_long(alloc, draft, &held, within))
        }
        Err(_) => return Err(TakeError::ReadFault),
    }
}

/// Takes bytes from a source, which may give them in whatever pieces, until its end, or until one byte more than `most`
/// was taken, and no further; and answers the history that they are the report of, as
/// [`read_within`](crate::read_within) does.
///
/// `ReadFault` only where the source's count of faults rose. `OutOfMemory` where there is no memory for the history or
/// for the lines that are held.
pub fn take_report<S: Source>(alloc: Global, src: &mut S, most: usize) -> Result<History, TakeError>
    requires { most < u32.MAX - 1 }
    ensures ok { IfOk result (λ h. TookReport most (S.left src.old) (S.left src.new) h) }
    ensures err { IfErr result (λ error. TookNone most (S.left src.old)
        (S.left src.new) (S.faults src.old) (S.faults src.new) error) }
    ensures later { S.faults src.old ≤ S.faults src.new }
{
    let mut draft = Draft::new(alloc);
    let mut held = Vec::new(alloc);
    match take_pieces(src, most, &mut draft, &mut held) {
        Ok(true) => finish(alloc, draft, &held),
        Ok(false) => finish_at_limit(alloc, src, draft, held),
        Err(error) => Err(error),
    }
}
