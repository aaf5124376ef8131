// What a line says.

ghost use Rattle.std.specs.Prelude.{◌≡◌, ◌≤◌, None, Some, MatchOption, drop, length};
ghost use Rattle.android_log.specs.Bodies.{as_mark, as_type, colon_place, is_other, managed_ends, names_at, said, shown};
ghost use Rattle.android_log.specs.Bodies.{tick_place, type_of};
ghost use Rattle.android_log.specs.Format.{other_kinds};
ghost use Rattle.android_log.specs.Marks.{mark_behind};
ghost use Rattle.android_log.specs.Parts.{begins_with_one};

use crate::frames::frame_of;
use crate::marks::{Kind, Mark, kind_at, mark_behind};
use crate::parts::{after, hex_at};
use text_words::first_place;

/// What a line says: a mark with what its line tells of the place; a frame of a stack with its text; a handle's Java
/// type; or another note. A line that begins as a mark and is none is odd. Clauses see it as `shown` of
/// `specs/Bodies.antt`.
#[derive(Drop)]
pub enum Body<'a> {
    Mark(Mark, &'a [u8]),
    Frame(&'a [u8]),
    Type(u64, &'a [u8]),
    Odd,
    Note,
}

// The bytes before the first colon.
fn colon_place(text: &[u8]) -> usize
    ensures is { result ≡ colon_place text.now }
    ensures within { result ≤ length text.now }
{
    first_place(text, b':')
}

// The bytes before the first backtick.
fn tick_place(text: &[u8]) -> usize
    ensures is { result ≡ tick_place text.now }
    ensures within { result ≤ length text.now }
{
    first_place(text, b'`')
}

// What stands behind the managed type, which is nothing.
fn managed_ends(text: &[u8]) -> Option<&[u8]>
    ensures { MatchOption result (managed_ends text.now ≡ None) (λ r. managed_ends text.now ≡ Some r.now) }
{
    let place = tick_place(text);
    let rest = after(&text[place..], b"`")?;
    if rest.is_empty() { Some(rest) } else { None }
}

// The Java type, behind a key.
fn names_at(text: &[u8]) -> Option<&[u8]>
    ensures { MatchOption result (names_at text.now ≡ None) (λ r. names_at text.now ≡ Some r.now) }
{
    let java = after(text, b": Java Type: `")?;
    let place = tick_place(java);
    let managed = after(&java[place..], b"`; MCW type: `")?;
    let _end = managed_ends(managed)?;
    Some(&java[..place])
}

// The handle of a type's line, and the Java type.
fn type_of(line: &[u8]) -> Option<(u64, &[u8])>
    ensures { MatchOption result (type_of line.now ≡ None) (λ r. type_of line.now ≡ Some (r.0, r.1.now)) }
{
    let (handle, rest) = hex_at(after(line, b"handle 0x")?)?;
    let key = after(rest, b"; key_handle ")?;
    let place = colon_place(key);
    let name = names_at(&key[place..])?;
    Some((handle, name))
}

// What a line says that begins as a mark.
fn as_mark(kind: Kind, rest: &[u8]) -> Body<'_>
    ensures { shown result ≡ as_mark (mark_behind kind rest.now) }
{
    match mark_behind(kind, rest) {
        Some((mark, place)) => Body::Mark(mark, place),
        None => Body::Odd,
    }
}

// What it says that begins as no mark, and is no frame.
#[inline(never)]
fn as_type(line: &[u8]) -> Body<'_>
    ensures { shown result ≡ as_type (type_of line.now) }
{
    match type_of(line) {
        Some((handle, name)) => Body::Type(handle, name),
        None => Body::Note,
    }
}

/// What a line says.
#[inline(always)]
pub fn said_in(line: &[u8]) -> Body<'_>
    ensures { shown result ≡ said line.now }
{
    if let Some((kind, rest)) = kind_at(line) {
        return as_mark(kind, rest);
    }
    match frame_of(line) {
        Some(text) => Body::Frame(text),
        None => as_type(line),
    }
}

// Whether a line begins as one of another kind.
fn is_of_another_kind(note: &[u8]) -> bool
    ensures { result ≡ begins_with_one other_kinds note.now }
{
    note.starts_with(b"*")
        || note.starts_with(b"+")
        || note.starts_with(b"-")
        || note.starts_with(b"handle ")
        || note.starts_with(b"Disposing ")
        || note.starts_with(b"Finalizing ")
        || note.starts_with(b"Created ")
}

/// Whether a note is never the place of a mark before it: it is empty, or of another kind.
pub fn is_other(note: &[u8]) -> bool
    ensures { result ≡ is_other note.now }
{
    note.is_empty() || is_of_another_kind(note)
}
