// The references between peers that stand for a report.

ghost use Rattle.std.specs.Prelude.{◌≡◌, ◌^◌, ℕ, ◌+◌, ◌<◌, ◌≤◌, ◌↔◌, [], ◌++◌, Err, IfOk, MatchBool, MatchOption, OnOk};
ghost use Rattle.std.specs.Prelude.{flat_map, length, map};
ghost use Rattle.bridge_graph.specs.Packing.{IsCut, packed_row, packed_rows};
ghost use Rattle.joint_machine.specs.Components.{circle, end_at};
ghost use Rattle.array_graphs.specs.Graphs.{AreEdges, pair_of};
ghost use Rattle.cycle_check.specs.Mirroring.{AreSplit, IsMirrored, IsPassReport, IsTooMuch, end_number, ends_of};
ghost use Rattle.cycle_check.specs.Reports.{IsReport};

use crate::reports::is_report;
use array_graphs::Stop;
use bridge_graph::{Link, packed_row};
use std::alloc::{AllocError, Global};

// The largest number of 32 bits.
const MOST: usize = 4_294_967_295;

/// The mirror of a report: its edges between objects and temporaries, and how many temporaries there are. They have the
/// numbers behind the objects.
#[derive(Drop)]
pub struct Mirror {
    pub edges: Vec<Link>,
    pub temporaries: u32,
}

/// The mirror edges of a report on so many objects: each component's members on a circle, and for each
/// cross-reference an edge from the first member of its source to that of its destination, where a component without
/// members has a temporary.
///
/// Answers `Graph` exactly where the arrays are no report, or a component without members stands before one with some;
/// `TooMany` exactly where there are more than 4,294,967,295 objects and components together; and `Memory` where there
/// is no memory.
pub fn make_mirror(
    alloc: Global,
    objects: usize,
    starts: &[u32],
    members: &[u32],
    xrefs: &[Link],
) -> Result<Mirror, Stop>
    ensures made { IfOk result (λ m. IsMirrored objects starts.now
        members.now xrefs.now m.edges.items m.temporaries) }
    ensures report { (result ≡ Err Stop.Graph) ↔ (IsPassReport objects starts.now members.now xrefs.now → ⊥) }
    ensures many { (result ≡ Err Stop.TooMany) ↔ (IsPassReport objects starts.now members.now xrefs.now
        × IsTooMuch objects starts.now) }
{
    if !is_report(objects, starts, members, xrefs) {
        return Err(Stop::Graph);
    }
    let Some(some) = split(starts, members) else {
        return Err(Stop::Graph);
    };
    if starts.len() > MOST || objects > MOST - starts.len() {
        return Err(Stop::TooMany);
    }
    let mut edges = Vec::new(alloc);
    push_circles(starts, members, some, &mut edges)?;
    push_ends(starts, members, some, objects, xrefs, &mut edges)?;
    Ok(Mirror {
        edges,
        temporaries: (starts.len() - some) as u32,
    })
}

// How many components have members, where they come first.
fn split(starts: &[u32], members: &[u32]) -> Option<usize>
    requires { IsCut starts.now members.now }
    ensures { MatchOption result ((m : ℕ) → AreSplit starts.now members.now m → ⊥)
        (λ m. AreSplit starts.now members.now m) }
{
    let some = leading(starts, members);
    if are_empty(starts, members, some) {
        Some(some)
    } else {
        None
    }
}

// How many components stand before the first without members.
fn leading(starts: &[u32], members: &[u32]) -> usize
    requires { IsCut starts.now members.now }
    ensures within { result ≤ length starts.now }
    ensures some { (c : ℕ) → c < result → 0 < length (packed_row starts.now members.now c) }
    ensures none { result < length starts.now → length (packed_row starts.now members.now result) ≡ 0 }
{
    for c in 0..starts.len() {
        if packed_row(starts, members, c).len() == 0 {
            return c;
        }
    }
    starts.len()
}

// Whether no component from that one on has members.
fn are_empty(starts: &[u32], members: &[u32], from: usize) -> bool
    requires cut { IsCut starts.now members.now }
    ensures { MatchBool result
        ((c : ℕ) → from ≤ c → c < length starts.now → length (packed_row starts.now members.now c) ≡ 0)
        ((c : ℕ) × (from ≤ c) × (c < length starts.now) × (0 < length (packed_row starts.now members.now c))) }
{
    for c in from..starts.len() {
        if packed_row(starts, members, c).len() > 0 {
            return false;
        }
    }
    true
}

// Appends the circles of the first components.
fn push_circles(
    starts: &[u32],
    members: &[u32],
    some: usize,
    edges: &mut Vec<Link>,
) -> Result<(), AllocError>
    requires cut { IsCut starts.now members.now }
    requires some { some ≤ length starts.now }
    requires empty { edges.old.items ≡ [] }
    ensures { OnOk result (map pair_of edges.new.items ≡ flat_map circle (packed_rows starts.now members.now some)) }
{
    for c in 0..some {
        push_circle(packed_row(starts, members, c), edges)?;
    }
    Ok(())
}

// Appends the circle of a component.
fn push_circle(row: &[u32], edges: &mut Vec<Link>) -> Result<(), AllocError>
    ensures { OnOk result (map pair_of edges.new.items ≡ map pair_of edges.old.items ++ circle row.now) }
{
    if row.len() > 1 {
        for i in 1..row.len() {
            edges.push(Link {
                from: row[i - 1],
                to: row[i],
            })?;
        }
        edges.push(Link {
            from: row[row.len() - 1],
            to: row[0],
        })?;
    }
    Ok(())
}

// Appends an edge for each cross-reference.
fn push_ends(
    starts: &[u32],
    members: &[u32],
    some: usize,
    objects: usize,
    xrefs: &[Link],
    edges: &mut Vec<Link>,
) -> Result<(), AllocError>
    requires cut { IsCut starts.now members.now }
    requires split { AreSplit starts.now members.now some }
    requires ends { AreEdges (length starts.now) xrefs.now }
    requires few { objects + length starts.now < 2 ^ 32 }
    ensures { OnOk result (map pair_of edges.new.items ≡ map pair_of edges.old.items ++ map
        (λ p. (
          end_number objects (end_at (packed_rows starts.now members.now some) p.from),
          end_number objects (end_at (packed_rows starts.now members.now some) p.to),
        )) xrefs.now) }
{
    for p in xrefs {
        let from = end(starts, members, some, objects, p.from);
        let to = end(starts, members, some, objects, p.to);
        edges.push(Link { from, to })?;
    }
    Ok(())
}

// The number of a component's end.
fn end(starts: &[u32], members: &[u32], some: usize, objects: usize, c: u32) -> u32
    requires cut { IsCut starts.now members.now }
    requires split { AreSplit starts.now members.now some }
    requires comp { c < length starts.now }
    requires few { objects + length starts.now < 2 ^ 32 }
    ensures { result ≡ end_number objects (end_at (packed_rows starts.now members.now some) c) }
{
    if (c as usize) < some {
        packed_row(starts, members, c as usize)[0]
    } else {
        (objects + (c as usize - some)) as u32
    }
}
