// Marks: a reference came or went.

ghost use Rattle.std.specs.Prelude.{◌≡◌, None, Some, MatchOption};
ghost use Rattle.android_log.specs.Parts.{byte_at};
ghost use Rattle.android_log.specs.Marks.{comes, counts_at, gone_at, handle_at, handles_at, is_strong, kind_at, made_at};
ghost use Rattle.android_log.specs.Marks.{mark_behind};

use crate::parts::{after, decimal_at, hex_at};

/// What kind of mark it is: a strong reference comes or goes, or a weak one.
#[derive(Clone, Copy, PartialEq, Eq, Debug)]
pub enum Kind {
    StrongComes,
    StrongGoes,
    WeakComes,
    WeakGoes,
}

impl Kind {
    /// Whether the reference comes.
    pub fn comes(self) -> bool
        ensures { result ≡ comes self }
    {
        match self {
            Kind::StrongComes | Kind::WeakComes => true,
            Kind::StrongGoes | Kind::WeakGoes => false,
        }
    }

    /// Whether it is strong.
    pub fn is_strong(self) -> bool
        ensures { result ≡ is_strong self }
    {
        match self {
            Kind::StrongComes | Kind::StrongGoes => true,
            Kind::WeakComes | Kind::WeakGoes => false,
        }
    }
}

/// A mark: both counts, as its line tells them, the handle and its kind that a reference was made from, 0 and 0 where
/// it goes, and its own handle.
#[derive(Clone, Copy, PartialEq, Eq, Debug)]
pub struct Mark {
    pub kind: Kind,
    pub grefc: u32,
    pub gwrefc: u32,
    pub from: u64,
    pub from_kind: u8,
    pub handle: u64,
}

/// The kind of mark that a text begins with, and what stands behind its word.
#[inline(always)]
pub fn kind_at(text: &[u8]) -> Option<(Kind, &[u8])>
    ensures { MatchOption result (kind_at text.now ≡ None) (λ r. kind_at text.now ≡ Some (r.0, r.1.now)) }
{
    if let Some(rest) = after(text, b"+g+ ") {
        return Some((Kind::StrongComes, rest));
    }
    if let Some(rest) = after(text, b"-g- ") {
        return Some((Kind::StrongGoes, rest));
    }
    if let Some(rest) = after(text, b"+w+ ") {
        return Some((Kind::WeakComes, rest));
    }
    if let Some(rest) = after(text, b"-w- ") {
        return Some((Kind::WeakGoes, rest));
    }
    None
}

// Both counts.
fn counts_at(text: &[u8]) -> Option<(u32, u32, &[u8])>
    ensures { MatchOption result (counts_at text.now ≡ None) (λ r. counts_at text.now ≡ Some (r.0, r.1, r.2.now)) }
{
    let (grefc, rest) = decimal_at(after(text, b"grefc ")?)?;
    let (gwrefc, rest) = decimal_at(after(rest, b" gwrefc ")?)?;
    Some((grefc, gwrefc, rest))
}

// One byte.
fn byte_at(text: &[u8]) -> Option<(u8, &[u8])>
    ensures { MatchOption result (byte_at text.now ≡ None) (λ r. byte_at text.now ≡ Some (r.0, r.1.now)) }
{
    if text.is_empty() {
        return None;
    }
    Some((text[0], &text[1..]))
}

// A handle with its kind.
fn handle_at(text: &[u8]) -> Option<(u64, u8, &[u8])>
    ensures { MatchOption result (handle_at text.now ≡ None) (λ r. handle_at text.now ≡ Some (r.0, r.1, r.2.now)) }
{
    let (handle, rest) = hex_at(text)?;
    let (kind, rest) = byte_at(after(rest, b"/")?)?;
    Some((handle, kind, rest))
}

// The handles of a reference that comes.
fn made_at(text: &[u8]) -> Option<(u64, u8, u64, &[u8])>
    ensures { MatchOption result (made_at text.now ≡ None)
        (λ r. made_at text.now ≡ Some (r.0, r.1, r.2, r.3.now)) }
{
    let (from, from_kind, rest) = handle_at(after(text, b" obj-handle 0x")?)?;
    let (handle, _, rest) = handle_at(after(rest, b" -> new-handle 0x")?)?;
    let rest = after(rest, b" from ")?;
    Some((from, from_kind, handle, rest))
}

// That of one that goes.
fn gone_at(text: &[u8]) -> Option<(u64, u8, u64, &[u8])>
    ensures { MatchOption result (gone_at text.now ≡ None)
        (λ r. gone_at text.now ≡ Some (r.0, r.1, r.2, r.3.now)) }
{
    let (handle, _, rest) = handle_at(after(text, b" handle 0x")?)?;
    let rest = after(rest, b" from ")?;
    Some((0, 0, handle, rest))
}

// The handles of either.
fn handles_at(comes: bool, text: &[u8]) -> Option<(u64, u8, u64, &[u8])>
    ensures { MatchOption result (handles_at comes text.now ≡ None)
        (λ r. handles_at comes text.now ≡ Some (r.0, r.1, r.2, r.3.now)) }
{
    if comes { made_at(text) } else { gone_at(text) }
}

/// The mark of that kind behind its word, and what its line says of the place.
pub fn mark_behind(kind: Kind, text: &[u8]) -> Option<(Mark, &[u8])>
    ensures { MatchOption result (mark_behind kind text.now ≡ None)
        (λ r. mark_behind kind text.now ≡ Some (r.0, r.1.now)) }
{
    let (grefc, gwrefc, rest) = counts_at(text)?;
    let (from, from_kind, handle, rest) = handles_at(kind.comes(), rest)?;
    let mark = Mark {
        kind,
        grefc,
        gwrefc,
        from,
        from_kind,
        handle,
    };
    Some((mark, rest))
}
