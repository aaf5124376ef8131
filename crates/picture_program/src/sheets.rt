// What is drawn of a history: the picture after one entry, or two compared, or the part around a node.

ghost use Rattle.std.specs.Prelude.{◌≡◌, ◌<◌, ◌+◌, IfOk, MatchOption, Some, length, take};
ghost use Rattle.heap_views.specs.Views.{Seen, opening_view};
ghost use Rattle.picture_laws.specs.Seeing.{HasInOrder};
ghost use Rattle.picture_program.specs.declared.words.Around.{Around as TheAround};
ghost use Rattle.picture_program.specs.declared.words.Entries.{Entries as TheEntries};
ghost use Rattle.picture_program.specs.Drawn.{HasIt, IsPartOf, IsSeenAfter, IsSheetOf, Tells, title_of};
ghost use Rattle.picture_program.specs.Words.{AreEntries, last_entry};

use crate::lines::line_at;
use crate::words::{Around, Entries};
use heap_pictures::{Picture, picture_of};
use heap_views::{HeapView, view_after};
use joint_model::History;
use picture_laws::{entries_in_order_are_seen, pictures_tell, references_stand};
use picture_sheets::{Sheet, alone, around, compared};
use std::alloc::{AllocError, Global};

// What a picture of what there is to see after an entry tells.
fn view_tells(_h: &History, _n: u64, view: &HeapView)
    requires within { _n < length _h.now.entries }
    requires seen { Seen _h.now opening_view (take (_n + 1) _h.now.entries) view.now }
    ensures { Tells _h.now _n view.now }
{
    pictures_tell();
    references_stand();
    let _objects = view.joint().objects();
}

// The picture after an entry, where all entries up to it are in order.
fn picture_after(alloc: Global, h: &History, n: u64) -> Result<Picture, AllocError>
    requires { HasInOrder h.now n }
    ensures { IfOk result (λ p. IsSeenAfter h.now n p) }
{
    entries_in_order_are_seen();
    let Some(view) = view_after(alloc, h, n)? else {
        unreachable!();
    };
    view_tells(h, n, &view);
    picture_of(alloc, &view)
}

// The sheet of the picture after an entry.
fn one_sheet(alloc: Global, h: &History, n: u64) -> Result<Sheet, AllocError>
    requires { HasInOrder h.now n }
    ensures { IfOk result (λ s. IsSheetOf h.now (TheEntries.One n) s) }
{
    let picture = picture_after(alloc, h, n)?;
    Ok(alone(alloc, picture))
}

// The sheet of those after two.
fn two_sheet(alloc: Global, h: &History, n: u64, m: u64) -> Result<Sheet, AllocError>
    requires before { n < m }
    requires order { HasInOrder h.now m }
    ensures { IfOk result (λ s. IsSheetOf h.now (TheEntries.Two n m) s) }
{
    let old = picture_after(alloc, h, n)?;
    let new = picture_after(alloc, h, m)?;
    compared(alloc, &old, &new)
}

/// The sheet that is asked for, without regard to a node, where all entries up to the last are in order.
pub(crate) fn sheet_of(alloc: Global, h: &History, entries: Entries) -> Result<Sheet, AllocError>
    requires entries { AreEntries entries }
    requires order { HasInOrder h.now (last_entry entries) }
    ensures { IfOk result (λ s. IsSheetOf h.now entries s) }
{
    match entries {
        Entries::One(n) => one_sheet(alloc, h, n),
        Entries::Two(n, m) => two_sheet(alloc, h, n, m),
    }
}

/// All of it, or the part around a node; None where it has no such node.
pub(crate) fn part_of(
    alloc: Global,
    sheet: Sheet,
    asked: Option<Around>,
) -> Result<Option<Sheet>, AllocError>
    ensures { IfOk result (λ found. MatchOption found
        ((a : TheAround) × (asked ≡ Some a) × (HasIt sheet a → ⊥)) (λ part. IsPartOf asked sheet part)) }
{
    match asked {
        None => Ok(Some(sheet)),
        Some(a) => around(alloc, &sheet, a.side, a.number, a.steps),
    }
}

// The line of one entry.
fn one_title(alloc: Global, bytes: &[u8], n: u64) -> Result<Vec<u8>, AllocError>
    ensures { IfOk result (λ v. v.items ≡ title_of (TheEntries.One n) bytes.now) }
{
    let mut title = Vec::new(alloc);
    title.extend_from_slice(line_at(bytes, n))?;
    Ok(title)
}

// The lines of two, one below the other.
fn two_title(alloc: Global, bytes: &[u8], n: u64, m: u64) -> Result<Vec<u8>, AllocError>
    ensures { IfOk result (λ v. v.items ≡ title_of (TheEntries.Two n m) bytes.now) }
{
    let mut title = Vec::new(alloc);
    title.extend_from_slice(line_at(bytes, n))?;
    title.push(b'\n')?;
    title.extend_from_slice(line_at(bytes, m))?;
    Ok(title)
}

/// The title: the entry's line, or the lines of both.
pub(crate) fn title_of(alloc: Global, entries: Entries, bytes: &[u8]) -> Result<Vec<u8>, AllocError>
    ensures { IfOk result (λ v. v.items ≡ title_of entries bytes.now) }
{
    match entries {
        Entries::One(n) => one_title(alloc, bytes, n),
        Entries::Two(n, m) => two_title(alloc, bytes, n, m),
    }
}
