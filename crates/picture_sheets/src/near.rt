// What one comes to over a few arrows.

ghost use Rattle.std.specs.Prelude.{◌≡◌, ◌++◌, [], ◌∷◌, None, Some, IfOk, OnOk, flat_map};
ghost use Rattle.std.specs.BTreeMap.{Updates};
ghost use Rattle.picture_sheets.specs.Keys.{spot_cmp, spot_key};
ghost use Rattle.picture_sheets.specs.Near.{Adds, AddsArrow, AreLists, AreWithin, Grows, joined_to};

use crate::keys::{SpotKey, put_spot, spot_key};
use crate::links::ends;
use heap_pictures::{Arrow, Spot};
use std::alloc::{AllocError, Global};
use std::collections::{BTreeMap, BTreeSet};

// Takes out the list of an end of arrows.
fn take_list(alloc: Global, lists: &mut BTreeMap<SpotKey, Vec<Spot>>, spot: Spot) -> Vec<Spot>
    ensures list { result.items ≡ joined_to lists.old spot }
    ensures gone { Updates spot_cmp lists.old lists.new (spot_key spot) None }
{
    match lists.remove(&spot_key(spot)) {
        Some(list) => list,
        None => Vec::new(alloc),
    }
}

// Puts one end into the list of another.
fn add(
    alloc: Global,
    lists: &mut BTreeMap<SpotKey, Vec<Spot>>,
    to: Spot,
    end: Spot,
) -> Result<(), AllocError>
    ensures { OnOk result (Adds to end lists.old lists.new) }
{
    let mut list = take_list(alloc, lists, to);
    list.push(end)?;
    lists.insert(spot_key(to), list)?;
    Ok(())
}

// Puts the ends of an arrow into each other's lists.
fn add_arrow(
    alloc: Global,
    lists: &mut BTreeMap<SpotKey, Vec<Spot>>,
    arrow: Arrow,
) -> Result<(), AllocError>
    ensures { OnOk result (AddsArrow arrow lists.old lists.new) }
{
    let (from, to) = ends(arrow);
    add(alloc, lists, from, to)?;
    add(alloc, lists, to, from)?;
    Ok(())
}

// For each end of arrows what they join to it.
fn lists_of(alloc: Global, arrows: &[Arrow]) -> Result<BTreeMap<SpotKey, Vec<Spot>>, AllocError>
    ensures { IfOk result (λ lists. AreLists arrows.now lists) }
{
    let mut lists = BTreeMap::new(alloc);
    for arrow in arrows {
        add_arrow(alloc, &mut lists, *arrow)?;
    }
    Ok(lists)
}

// Puts an end into the set, and where it is new there at the end of the list.
fn put(near: &mut BTreeSet<SpotKey>, fresh: &mut Vec<Spot>, spot: Spot) -> Result<(), AllocError>
    ensures { OnOk result (Grows (spot ∷ []) near.old near.new fresh.old.items fresh.new.items) }
{
    let is_new = put_spot(near, spot)?;
    if !is_new {
        return Ok(());
    }
    fresh.push(spot)?;
    Ok(())
}

// Puts all these.
fn put_all(
    near: &mut BTreeSet<SpotKey>,
    fresh: &mut Vec<Spot>,
    spots: &[Spot],
) -> Result<(), AllocError>
    ensures { OnOk result (Grows spots.now near.old near.new fresh.old.items fresh.new.items) }
{
    for spot in spots {
        put(near, fresh, *spot)?;
    }
    Ok(())
}

// Goes over each arrow of an end.
fn go_from(
    lists: &BTreeMap<SpotKey, Vec<Spot>>,
    spot: Spot,
    near: &mut BTreeSet<SpotKey>,
    fresh: &mut Vec<Spot>,
) -> Result<(), AllocError>
    ensures { OnOk result (Grows (joined_to lists.now spot) near.old near.new fresh.old.items fresh.new.items) }
{
    match lists.get(&spot_key(spot)) {
        Some(list) => put_all(near, fresh, list.as_slice()),
        None => Ok(()),
    }
}

// Goes over one arrow more from the newest ends, and answers those that are new now.
fn grown(
    alloc: Global,
    lists: &BTreeMap<SpotKey, Vec<Spot>>,
    newest: &[Spot],
    near: &mut BTreeSet<SpotKey>,
) -> Result<Vec<Spot>, AllocError>
    ensures { IfOk result (λ v. Grows (flat_map (joined_to lists.now) newest.now) near.old near.new [] v.items) }
{
    let mut fresh = Vec::new(alloc);
    for spot in newest {
        go_from(lists, *spot, near, &mut fresh)?;
    }
    Ok(fresh)
}

/// All that one comes to over at most `k` arrows. Answers `AllocError` where there is no memory.
pub(crate) fn within(
    alloc: Global,
    arrows: &[Arrow],
    start: Spot,
    k: u64,
) -> Result<BTreeSet<SpotKey>, AllocError>
    ensures { IfOk result (λ near. AreWithin arrows.now start k near) }
{
    let lists = lists_of(alloc, arrows)?;
    let mut near = BTreeSet::new(alloc);
    let mut newest = Vec::new(alloc);
    put(&mut near, &mut newest, start)?;
    for i in 0..k {
        let _steps = i;
        if newest.is_empty() {
            return Ok(near);
        }
        newest = grown(alloc, &lists, newest.as_slice(), &mut near)?;
    }
    Ok(near)
}
