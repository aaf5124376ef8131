// The part of a sheet around a node.

ghost use Rattle.std.specs.Prelude.{◌≡◌, ◌||◌, IfOk, MatchOption};
ghost use Rattle.heap_pictures.specs.Drawing.{spot_of};
ghost use Rattle.heap_pictures.specs.Flags.{is_in};
ghost use Rattle.picture_sheets.specs.Around.{HasNamed, IsAround, nodes_of};

use crate::keys::{has_spot, object_set, peer_set};
use crate::links::arrows_on;
use crate::near::within;
use crate::parts::sheet_part;
use crate::sheets::Sheet;
use heap_pictures::{Picture, Side, Spot};
use std::alloc::{AllocError, Global};

// An object of a heap.
fn spot_of(side: Side, x: u32) -> Spot
    ensures { result ≡ spot_of side x }
{
    match side {
        Side::Managed => Spot::Object(x),
        Side::Peers => Spot::Peer(x),
    }
}

// Whether a picture has a node of that name.
fn has_node(alloc: Global, picture: &Picture, side: Side, x: u32) -> Result<bool, AllocError>
    ensures { IfOk result (λ found. found ≡ is_in (nodes_of side picture.now) x) }
{
    match side {
        Side::Managed => {
            let objects = object_set(alloc, picture.objects())?;
            Ok(has_spot(&objects, Spot::Object(x)))
        }
        Side::Peers => {
            let peers = peer_set(alloc, picture.peers())?;
            Ok(has_spot(&peers, Spot::Peer(x)))
        }
    }
}

// Whether a sheet has.
fn has_named(alloc: Global, sheet: &Sheet, side: Side, x: u32) -> Result<bool, AllocError>
    ensures { IfOk result (λ found. found ≡ (is_in (nodes_of side sheet.now.stay) x
        || (is_in (nodes_of side sheet.now.came) x || is_in (nodes_of side sheet.now.went) x))) }
{
    let stays = has_node(alloc, &sheet.stay, side, x)?;
    let came = has_node(alloc, &sheet.came, side, x)?;
    let went = has_node(alloc, &sheet.went, side, x)?;
    Ok(stays || (came || went))
}

// The part around what has a node.
fn part_around(alloc: Global, sheet: &Sheet, spot: Spot, k: u64) -> Result<Sheet, AllocError>
    ensures { IfOk result (λ part. IsAround sheet.now spot k part) }
{
    let arrows = arrows_on(alloc, sheet)?;
    let near = within(alloc, arrows.as_slice(), spot, k)?;
    sheet_part(alloc, sheet, &near)
}

/// What of a sheet lies within `k` arrows of the node of that name, with the arrows between; None where no such node is
/// on it. Answers `AllocError` where there is no memory.
pub fn around(
    alloc: Global,
    sheet: &Sheet,
    side: Side,
    x: u32,
    k: u64,
) -> Result<Option<Sheet>, AllocError>
    ensures { IfOk result (λ found. MatchOption found (HasNamed sheet.now side x → ⊥)
        (λ part. HasNamed sheet.now side x × IsAround sheet.now (spot_of side x) k part)) }
{
    let found = has_named(alloc, sheet, side, x)?;
    if found {
        return Ok(Some(part_around(alloc, sheet, spot_of(side, x), k)?));
    }
    Ok(None)
}
