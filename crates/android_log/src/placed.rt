// Where a line of a logcat has its tag, and what stands before and behind it.

ghost use Rattle.std.specs.Prelude.{◌≡◌, ◌≤◌, None, Some, MatchOption, filter, length, take, ⊤};
ghost use Rattle.android_log.specs.Placed.{bracket_process, colon_end, digits_end, first_of, heard_behind, heard_in, is_number_word};
ghost use Rattle.android_log.specs.Placed.{number_words, rest_of_words, tag_at, tag_from, with_words};

use crate::parts::{after, digits, spaces};
use std::marker::Model;
use text_words::{Stretch, Words, first_place_far};

/// A line with its tag: its process and its thread, each without digits where there is none, and what stands behind the
/// tag.
#[derive(Drop)]
pub struct Placed<'a> {
    pub process: &'a [u8],
    pub thread: &'a [u8],
    pub body: &'a [u8],
}

impl<'a> Model for Placed<'a> {
    ghost use Rattle.android_log.specs.Placed.{Heard};

    ghost Value = { Heard };

    ghost view = { λ p. record { process = p.process.now; thread = p.thread.now; body = p.body.now } };
}

// What stands behind spaces and a colon.
fn colon_end(text: &[u8]) -> Option<&[u8]>
    ensures { MatchOption result (colon_end text.now ≡ None) (λ r. colon_end text.now ≡ Some r.now) }
{
    let count = spaces(text);
    after(&text[count..], b": ")
}

// The digits of a process whose bracket ends behind them, and what stands behind it.
fn digits_end(text: &[u8]) -> Option<(&[u8], &[u8])>
    ensures { MatchOption result (digits_end text.now ≡ None)
        (λ r. digits_end text.now ≡ Some (r.0.now, r.1.now)) }
{
    let count = digits(text);
    if count == 0 {
        return None;
    }
    let rest = after(&text[count..], b"): ")?;
    Some((&text[..count], rest))
}

// The same, from the bracket on.
fn bracket_process(text: &[u8]) -> Option<(&[u8], &[u8])>
    ensures { MatchOption result (bracket_process text.now ≡ None)
        (λ r. bracket_process text.now ≡ Some (r.0.now, r.1.now)) }
{
    let inner = after(text, b"(")?;
    let count = spaces(inner);
    digits_end(&inner[count..])
}

// The process in brackets, or no digits, and what stands behind a tag that a text begins with.
#[inline(always)]
fn tag_at(text: &[u8]) -> Option<(&[u8], &[u8])>
    ensures { MatchOption result (tag_at text.now ≡ None) (λ r. tag_at text.now ≡ Some (r.0.now, r.1.now)) }
{
    let ending = after(text, b"monodroid-gref")?;
    match colon_end(ending) {
        Some(rest) => Some((&[], rest)),
        None => bracket_process(ending),
    }
}

// The first tag of a line: its place, the process in brackets, or no digits, and what stands behind it.
fn tag_in(line: &[u8]) -> Option<(usize, &[u8], &[u8])>
    ensures is { MatchOption result (tag_from 0 line.now ≡ None)
        (λ r. tag_from 0 line.now ≡ Some (r.0, r.1.now, r.2.now)) }
    ensures within { MatchOption result ⊤ (λ r. r.0 ≤ length line.now) }
{
    let mut at = first_place_far(line, b'm');
    while at < line.len() {
        match tag_at(&line[at..]) {
            Some((process, rest)) => return Some((at, process, rest)),
            None => at = at + 1 + first_place_far(&line[at + 1..], b'm'),
        }
    }
    None
}

/// Whether a word has digits alone.
pub fn is_number_word(word: &[u8]) -> bool
    ensures { result ≡ is_number_word word.now }
{
    !word.is_empty() && digits(word) == word.len()
}

// Takes the words up to the next one of digits, and answers it; no bytes where there is none.
fn next_number<'a>(words: &mut Words<'a>) -> &'a [u8]
    ensures first { result.now ≡ first_of (filter is_number_word words.old) }
    ensures rest { filter is_number_word words.new ≡ rest_of_words (filter is_number_word words.old) }
{
    while let Some(word) = words.next() {
        if is_number_word(word) {
            return word;
        }
    }
    &[]
}

// A line without a process behind its tag.
fn with_words<'a>(line: &'a [u8], at: usize, body: &'a [u8]) -> Placed<'a>
    requires { at ≤ length line.now }
    ensures { result ≡ with_words (number_words (take at line.now)) body.now }
{
    let mut words = Words::of(Stretch::of(line, at));
    let process = next_number(&mut words);
    let thread = next_number(&mut words);
    Placed {
        process,
        thread,
        body,
    }
}

/// A line with its tag; None where it has none.
pub fn heard_in(line: &[u8]) -> Option<Placed<'_>>
    ensures { MatchOption result (heard_in line.now ≡ None) (λ r. heard_in line.now ≡ Some r) }
{
    let (at, process, body) = tag_in(line)?;
    if process.is_empty() {
        return Some(with_words(line, at, body));
    }
    Some(Placed {
        process,
        thread: &[],
        body,
    })
}
