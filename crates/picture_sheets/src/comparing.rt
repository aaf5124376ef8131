// What two pictures have in common, and what one of them alone has.

ghost use Rattle.std.specs.Prelude.{◌≡◌, IfOk, filter};
ghost use Rattle.heap_pictures.specs.Pictures.{Drawing};
ghost use Rattle.picture_sheets.specs.Keys.{has_key, is_wanted};
ghost use Rattle.picture_sheets.specs.Sheets.{compared, lone, shared};
ghost use Rattle.picture_sheets.specs.Stocks.{IsStockOf};

use crate::keys::{ArrowKey, SpotKey, arrow_set, has_arrow, object_set, peer_set};
use crate::parts::{is_wanted, keep, objects_of, peers_of};
use crate::sheets::Sheet;
use heap_pictures::{Arrow, Picture};
use std::alloc::{AllocError, Global};
use std::collections::BTreeSet;

// What a picture has, to be looked up.
#[derive(Drop)]
struct Stock {
    objects: BTreeSet<SpotKey>,
    peers: BTreeSet<SpotKey>,
    arrows: BTreeSet<ArrowKey>,
}

// The stock of a picture.
fn stock_of(alloc: Global, picture: &Picture) -> Result<Stock, AllocError>
    ensures { IfOk result (λ s. IsStockOf picture.now s) }
{
    Ok(Stock {
        objects: object_set(alloc, picture.objects())?,
        peers: peer_set(alloc, picture.peers())?,
        arrows: arrow_set(alloc, picture.arrows())?,
    })
}

// The arrows in a set, or where `wanted` is false those that aren't.
fn arrows_of(
    alloc: Global,
    arrows: &[Arrow],
    set: &BTreeSet<ArrowKey>,
    wanted: bool,
) -> Result<Vec<Arrow>, AllocError>
    ensures { IfOk result (λ v. v.items ≡ filter (λ a. is_wanted wanted (has_key set.now a)) arrows.now) }
{
    let mut found = Vec::new(alloc);
    for arrow in arrows {
        keep(
            &mut found,
            *arrow,
            is_wanted(wanted, has_arrow(set, *arrow)),
        )?;
    }
    Ok(found)
}

// A copy of a list of names.
fn copied(alloc: Global, names: &[u32]) -> Result<Vec<u32>, AllocError>
    ensures { IfOk result (λ v. v.items ≡ names.now) }
{
    let mut copy = Vec::new(alloc);
    copy.extend_from_slice(names)?;
    Ok(copy)
}

// What one picture has that the other one has too.
fn shared(alloc: Global, picture: &Picture, other: &Stock) -> Result<Picture, AllocError>
    ensures { IfOk result (λ p. (d : Drawing) → IsStockOf d other.now → p ≡ shared picture.now d) }
{
    let objects = objects_of(alloc, picture.objects(), &other.objects, true)?;
    let peers = peers_of(alloc, picture.peers(), &other.peers, true)?;
    let dead = copied(alloc, picture.dead())?;
    let candidates = copied(alloc, picture.candidates())?;
    let arrows = arrows_of(alloc, picture.arrows(), &other.arrows, true)?;
    Ok(Picture::of(objects, peers, dead, candidates, arrows))
}

// What one picture has that the other one hasn't.
fn lone(alloc: Global, picture: &Picture, other: &Stock) -> Result<Picture, AllocError>
    ensures { IfOk result (λ p. (d : Drawing) → IsStockOf d other.now → p ≡ lone picture.now d) }
{
    let objects = objects_of(alloc, picture.objects(), &other.objects, false)?;
    let peers = peers_of(alloc, picture.peers(), &other.peers, false)?;
    let arrows = arrows_of(alloc, picture.arrows(), &other.arrows, false)?;
    let dead = Vec::new(alloc);
    let candidates = Vec::new(alloc);
    Ok(Picture::of(objects, peers, dead, candidates, arrows))
}

/// The sheet of an earlier and a later picture: what both have, what the later one alone has, and what the earlier one
/// alone has. Answers `AllocError` where there is no memory.
pub fn compared(alloc: Global, old: &Picture, new: &Picture) -> Result<Sheet, AllocError>
    ensures { IfOk result (λ s. s ≡ compared old.now new.now) }
{
    let before = stock_of(alloc, old)?;
    let after = stock_of(alloc, new)?;
    Ok(Sheet {
        stay: shared(alloc, new, &before)?,
        came: lone(alloc, new, &before)?,
        went: lone(alloc, old, &after)?,
    })
}
