// What a client kept, by the report alone.

ghost use Rattle.std.specs.Prelude.{◌≡◌, ◌^◌, ℕ, ◌<◌, ◌↔◌, All, Contains, Err, IfOk, MatchBool, MatchOption, length};
ghost use Rattle.bridge_graph.specs.Packing.{IsCut, packed_row};
ghost use Rattle.array_graphs.specs.Graphs.{HasEdge, IsSet};
ghost use Rattle.array_graphs.specs.Made.{IsTooLong};
ghost use Rattle.reachability.specs.Marks.{HasMark};
ghost use Rattle.cycle_check.specs.Judging.{IsWhole, Loses};
ghost use Rattle.cycle_check.specs.Reports.{IsReport, IsTold, comps_in};
ghost use Rattle.cycle_check.specs.Walking.{HasKept, HasLost};

use crate::reaching::{first_root, mark_rows};
use crate::reports::{first_set, first_unset, is_report};
use array_graphs::{MOST_EDGES, MOST_NODES, Stop};
use bridge_graph::{Link, pack_rows, packed_row};
use std::alloc::{AllocError, Global};

/// Whether what was kept is closed under what a report tells: None where it is, and else an object that was kept and
/// one that it is told to reach and that wasn't. Members are the indexes of `kept`; object `x` was kept where `kept[x]`
/// isn't 0.
///
/// Answers `Graph` exactly where the arrays are no report, `TooMany` exactly where they are one of more than
/// 4,294,967,294 components or 4,294,967,295 cross-references, and `Memory` where there is no memory.
pub fn check_kept(
    alloc: Global,
    starts: &[u32],
    members: &[u32],
    xrefs: &[Link],
    kept: &[u8],
) -> Result<Option<(u32, u32)>, Stop>
    ensures judged { IfOk result (λ o. MatchOption o
        (IsWhole (IsTold (comps_in starts.now members.now) (HasEdge xrefs.now))
        (IsSet kept.now) (λ y. IsSet kept.now y → ⊥))
        (λ w. Loses (IsTold (comps_in starts.now members.now) (HasEdge xrefs.now))
        (IsSet kept.now) (λ y. IsSet kept.now y → ⊥) w.0 w.1)) }
    ensures report { (result ≡ Err Stop.Graph)
        ↔ (IsReport (length kept.now) starts.now members.now xrefs.now → ⊥) }
    ensures many { (result ≡ Err Stop.TooMany) ↔ (IsReport (length kept.now) starts.now members.now xrefs.now
        × IsTooLong (length starts.now) (length xrefs.now)) }
{
    if !is_report(kept.len(), starts, members, xrefs) {
        return Err(Stop::Graph);
    }
    if starts.len() > MOST_NODES || xrefs.len() > MOST_EDGES {
        return Err(Stop::TooMany);
    }
    Ok(find_lost(alloc, starts, members, xrefs, kept)?)
}

// The judgement, once the arrays are known to be a report of numbers that can be packed.
fn find_lost(
    alloc: Global,
    starts: &[u32],
    members: &[u32],
    xrefs: &[Link],
    kept: &[u8],
) -> Result<Option<(u32, u32)>, AllocError>
    requires report { IsReport (length kept.now) starts.now members.now xrefs.now }
    requires comps { length starts.now < u32.MAX }
    requires refs { length xrefs.now < 2 ^ 32 }
    ensures { IfOk result (λ o. MatchOption o
        (IsWhole (IsTold (comps_in starts.now members.now) (HasEdge xrefs.now))
        (IsSet kept.now) (λ y. IsSet kept.now y → ⊥))
        (λ w. Loses (IsTold (comps_in starts.now members.now) (HasEdge xrefs.now))
        (IsSet kept.now) (λ y. IsSet kept.now y → ⊥) w.0 w.1)) }
{
    let packed = pack_rows(alloc, xrefs, starts.len() as u32)?;
    let roots = list_kept(alloc, starts, members, kept)?;
    let marks = mark_rows(alloc, &packed.starts, &packed.targets, &roots)?;
    match lost_member(starts, members, kept, &marks) {
        None => Ok(None),
        Some(lost) => {
            let root = first_root(alloc, &packed.starts, &packed.targets, &roots, lost.0)?;
            match first_set(packed_row(starts, members, root as usize), kept) {
                None => unreachable!(),
                Some(from) => Ok(Some((from, lost.1))),
            }
        }
    }
}

// The components that have a kept member.
fn list_kept(
    alloc: Global,
    starts: &[u32],
    members: &[u32],
    kept: &[u8],
) -> Result<Vec<u32>, AllocError>
    requires cut { IsCut starts.now members.now }
    requires objects { All (λ x. x < length kept.now) members.now }
    requires comps { length starts.now < u32.MAX }
    ensures { IfOk result (λ v. (c : ℕ) → Contains v.items c
        ↔ ((c < length starts.now) × HasKept starts.now members.now kept.now c)) }
{
    let mut listed = Vec::new(alloc);
    for c in 0..starts.len() {
        if has_kept(starts, members, kept, c) {
            listed.push(c as u32)?;
        }
    }
    Ok(listed)
}

fn has_kept(starts: &[u32], members: &[u32], kept: &[u8], c: usize) -> bool
    requires cut { IsCut starts.now members.now }
    requires objects { All (λ x. x < length kept.now) members.now }
    requires comp { c < length starts.now }
    ensures { MatchBool result (HasKept starts.now members.now kept.now c)
        (¬ HasKept starts.now members.now kept.now c) }
{
    match first_set(packed_row(starts, members, c), kept) {
        Some(_) => true,
        None => false,
    }
}

// The first marked component with a member that wasn't kept, and that member.
fn lost_member(starts: &[u32], members: &[u32], kept: &[u8], marks: &[bool]) -> Option<(u32, u32)>
    requires cut { IsCut starts.now members.now }
    requires objects { All (λ x. x < length kept.now) members.now }
    requires comps { length starts.now < u32.MAX }
    requires marks { length marks.now ≡ length starts.now }
    ensures { MatchOption result
        ((c : ℕ) → c < length starts.now → HasMark marks.now c → HasLost starts.now members.now kept.now c → ⊥)
        (λ w. (w.0 < length starts.now) × HasMark marks.now w.0
        × Contains (packed_row starts.now members.now w.0) w.1 × (IsSet kept.now w.1 → ⊥)) }
{
    for c in 0..starts.len() {
        if let Some(y) = lost_in(starts, members, kept, marks, c) {
            return Some((c as u32, y));
        }
    }
    None
}

// The first member of a marked component that wasn't kept.
fn lost_in(starts: &[u32], members: &[u32], kept: &[u8], marks: &[bool], c: usize) -> Option<u32>
    requires cut { IsCut starts.now members.now }
    requires objects { All (λ x. x < length kept.now) members.now }
    requires comp { c < length starts.now }
    requires marks { length marks.now ≡ length starts.now }
    ensures { MatchOption result (HasMark marks.now c → HasLost starts.now members.now kept.now c → ⊥)
        (λ y. HasMark marks.now c × Contains (packed_row starts.now members.now c) y × (IsSet kept.now y → ⊥)) }
{
    if !marks[c] {
        return None;
    }
    first_unset(packed_row(starts, members, c), kept)
}
