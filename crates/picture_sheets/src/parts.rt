// The part of a picture that passes a test.

ghost use Rattle.std.specs.Prelude.{◌≡◌, ◌&&◌, ◌++◌, [], ◌∷◌, IfOk, OnOk, cond, filter};
ghost use Rattle.heap_pictures.specs.declared.pictures.Spot.TheVariants.{Object, Peer};
ghost use Rattle.picture_sheets.specs.Around.{is_between, part_of, sheet_part};
ghost use Rattle.picture_sheets.specs.Keys.{has_spot, is_wanted};

use crate::keys::{SpotKey, has_spot};
use crate::links::ends;
use crate::sheets::Sheet;
use heap_pictures::{Arrow, ObjectNode, PeerNode, Picture, Spot};
use std::alloc::{AllocError, Global};
use std::collections::BTreeSet;

/// What is found where that is wanted, and what isn't where it is not.
pub(crate) fn is_wanted(wanted: bool, found: bool) -> bool
    ensures { result ≡ is_wanted wanted found }
{
    if wanted { found } else { !found }
}

/// Puts an item at the end of the list where it is kept.
pub(crate) fn keep<T: Copy>(list: &mut Vec<T>, item: T, is_kept: bool) -> Result<(), AllocError>
    ensures { OnOk result (list.new.items ≡ list.old.items ++ cond is_kept (item ∷ []) []) }
{
    if !is_kept {
        return Ok(());
    }
    list.push(item)?;
    Ok(())
}

/// The objects in a set, or where `wanted` is false those that aren't. Answers `AllocError` where there is no memory.
pub(crate) fn objects_of(
    alloc: Global,
    nodes: &[ObjectNode],
    spots: &BTreeSet<SpotKey>,
    wanted: bool,
) -> Result<Vec<ObjectNode>, AllocError>
    ensures { IfOk result (λ v. v.items ≡ filter (λ n. is_wanted wanted (has_spot spots.now (Object n.m))) nodes.now) }
{
    let mut found = Vec::new(alloc);
    for node in nodes {
        keep(
            &mut found,
            *node,
            is_wanted(wanted, has_spot(spots, Spot::Object(node.m))),
        )?;
    }
    Ok(found)
}

/// And the peers.
pub(crate) fn peers_of(
    alloc: Global,
    nodes: &[PeerNode],
    spots: &BTreeSet<SpotKey>,
    wanted: bool,
) -> Result<Vec<PeerNode>, AllocError>
    ensures { IfOk result (λ v. v.items ≡ filter (λ n. is_wanted wanted (has_spot spots.now (Peer n.p))) nodes.now) }
{
    let mut found = Vec::new(alloc);
    for node in nodes {
        keep(
            &mut found,
            *node,
            is_wanted(wanted, has_spot(spots, Spot::Peer(node.p))),
        )?;
    }
    Ok(found)
}

// The names of objects that are near.
fn near_names(
    alloc: Global,
    names: &[u32],
    near: &BTreeSet<SpotKey>,
) -> Result<Vec<u32>, AllocError>
    ensures { IfOk result (λ v. v.items ≡ filter (λ m. has_spot near.now (Object m)) names.now) }
{
    let mut found = Vec::new(alloc);
    for m in names {
        keep(&mut found, *m, has_spot(near, Spot::Object(*m)))?;
    }
    Ok(found)
}

// Whether both ends of an arrow are near.
fn is_between(near: &BTreeSet<SpotKey>, arrow: Arrow) -> bool
    ensures { result ≡ is_between (has_spot near.now) arrow }
{
    let (from, to) = ends(arrow);
    has_spot(near, from) && has_spot(near, to)
}

// The arrows whose ends are.
fn near_arrows(
    alloc: Global,
    arrows: &[Arrow],
    near: &BTreeSet<SpotKey>,
) -> Result<Vec<Arrow>, AllocError>
    ensures { IfOk result (λ v. v.items ≡ filter (is_between (has_spot near.now)) arrows.now) }
{
    let mut found = Vec::new(alloc);
    for arrow in arrows {
        keep(&mut found, *arrow, is_between(near, *arrow))?;
    }
    Ok(found)
}

// What of a picture is near.
fn part_of(
    alloc: Global,
    picture: &Picture,
    near: &BTreeSet<SpotKey>,
) -> Result<Picture, AllocError>
    ensures { IfOk result (λ p. p ≡ part_of (has_spot near.now) picture.now) }
{
    let objects = objects_of(alloc, picture.objects(), near, true)?;
    let peers = peers_of(alloc, picture.peers(), near, true)?;
    let dead = near_names(alloc, picture.dead(), near)?;
    let candidates = near_names(alloc, picture.candidates(), near)?;
    let arrows = near_arrows(alloc, picture.arrows(), near)?;
    Ok(Picture::of(objects, peers, dead, candidates, arrows))
}

/// What of a sheet is near. Answers `AllocError` where there is no memory.
pub(crate) fn sheet_part(
    alloc: Global,
    sheet: &Sheet,
    near: &BTreeSet<SpotKey>,
) -> Result<Sheet, AllocError>
    ensures { IfOk result (λ s. s ≡ sheet_part (has_spot near.now) sheet.now) }
{
    Ok(Sheet {
        stay: part_of(alloc, &sheet.stay, near)?,
        came: part_of(alloc, &sheet.came, near)?,
        went: part_of(alloc, &sheet.went, near)?,
    })
}
