// What a snapshot finds: lists of rows, each in rising number.

ghost use Rattle.std.specs.Prelude.{◌≡◌, ℕ, ◌+◌, ◌<◌, ◌≤◌, ◌↔◌, Bool, true, false, Contains, IfOk, IsTrue, length};
ghost use Rattle.joint_machine.specs.Heaps.{Heap, IsLive};
ghost use Rattle.reachability.specs.Marks.{HasMark, marked};
ghost use Rattle.joint_replay.specs.Found.{IsUnreachedRow, IsCandidateRow, IsRootReached, IsHandleReached};
ghost use Rattle.joint_replay.specs.Roots.{ListsExactly};
ghost use Rattle.joint_replay.specs.Finding.{FindsRows, ListsMarked};

use crate::heap::PlainHeap;
use crate::roots::{bridge_rows, is_bridge, pinned_roots};
use reachability::reached;
use std::alloc::{AllocError, Global};

/// The lists of a snapshot.
#[derive(Drop)]
pub(crate) struct SnapshotRows {
    pub(crate) freed: Vec<u32>,
    pub(crate) dead: Vec<u32>,
    pub(crate) candidates: Vec<u32>,
}

/// Finds the rows that neither a root nor a row with a handle reaches, which go; the rows that no root but such a row
/// reaches, which are the dead part; and the rows with a handle that no root reaches. The variables, the statics and
/// the pins name the roots. Answers `AllocError` where there is no memory.
pub(crate) fn find(
    alloc: Global,
    heap: &PlainHeap,
    held: &[Option<u32>],
    pins: &[Option<u32>],
) -> Result<SnapshotRows, AllocError>
    ensures { IfOk result (λ f. FindsRows heap.now held.now pins.now f.freed.items f.candidates.items f.dead.items) }
{
    let slots = slot_marks(alloc, heap, pins)?;
    let bridges = bridge_marks(alloc, heap, held)?;
    list_rows(alloc, heap, held, &slots, &bridges)
}

// A mark for each row that a variable, a static or a pin leads to, where that is live.
fn slot_marks(
    alloc: Global,
    heap: &PlainHeap,
    pins: &[Option<u32>],
) -> Result<Vec<bool>, AllocError>
    ensures len { IfOk result (λ v. length v.items ≡ length heap.now.fields + 1) }
    ensures marks { IfOk result (λ v. (k : ℕ) → IsLive heap.now k
        → HasMark v.items k ↔ IsRootReached heap.now pins.now k) }
{
    let roots = pinned_roots(alloc, heap, pins)?;
    reached(alloc, heap, &roots)
}

// A mark for each row that a live row with a handle leads to.
fn bridge_marks(
    alloc: Global,
    heap: &PlainHeap,
    held: &[Option<u32>],
) -> Result<Vec<bool>, AllocError>
    ensures len { IfOk result (λ v. length v.items ≡ length heap.now.fields + 1) }
    ensures marks { IfOk result (λ v. (k : ℕ) → HasMark v.items k ↔ IsHandleReached heap.now held.now k) }
{
    let roots = bridge_rows(alloc, heap, held)?;
    reached(alloc, heap, &roots)
}

// The lists of a snapshot, by what the slots lead to and what the rows with a handle lead to.
fn list_rows(
    alloc: Global,
    heap: &PlainHeap,
    held: &[Option<u32>],
    slots: &[bool],
    bridges: &[bool],
) -> Result<SnapshotRows, AllocError>
    requires slots { length slots.now ≡ length heap.now.fields + 1 }
    requires bridges { length bridges.now ≡ length heap.now.fields + 1 }
    ensures { IfOk result (λ f. ListsMarked
        heap.now held.now slots.now bridges.now f.freed.items f.candidates.items f.dead.items) }
{
    let freed = unreached(alloc, heap, slots, bridges, false)?;
    let dead = unreached(alloc, heap, slots, bridges, true)?;
    let candidates = pick(alloc, heap, held, slots)?;
    Ok(SnapshotRows {
        freed,
        dead,
        candidates,
    })
}

// The live rows that aren't marked in `slots`, and that are marked in `bridges` exactly where they stay.
fn unreached(
    alloc: Global,
    heap: &PlainHeap,
    slots: &[bool],
    bridges: &[bool],
    stays: bool,
) -> Result<Vec<u32>, AllocError>
    requires slots { length slots.now ≡ length heap.now.fields + 1 }
    requires bridges { length bridges.now ≡ length heap.now.fields + 1 }
    ensures { IfOk result (λ v. ListsExactly (IsUnreachedRow heap.now slots.now bridges.now stays) v.items) }
{
    let mut rows = Vec::new(alloc);
    for m in 1..heap.made() + 1 {
        if is_unreached(heap, slots, bridges, stays, m) {
            rows.push(m)?;
        }
    }
    Ok(rows)
}

fn is_unreached(heap: &PlainHeap, slots: &[bool], bridges: &[bool], stays: bool, m: u32) -> bool
    requires slots { m < length slots.now }
    requires bridges { m < length bridges.now }
    ensures { IsTrue result ↔ IsUnreachedRow heap.now slots.now bridges.now stays m }
{
    heap.is_live(m) && is_so(slots, m, false) && is_so(bridges, m, stays)
}

// Whether the row is marked, or isn't, as is wanted.
#[inline]
fn is_so(marks: &[bool], m: u32, wanted: bool) -> bool
    requires { m < length marks.now }
    ensures { IsTrue result ↔ (marked marks.now m ≡ wanted) }
{
    marks[m as usize] == wanted
}

// The live rows that hold a handle and aren't marked in `slots`.
fn pick(
    alloc: Global,
    heap: &PlainHeap,
    held: &[Option<u32>],
    slots: &[bool],
) -> Result<Vec<u32>, AllocError>
    requires { length slots.now ≡ length heap.now.fields + 1 }
    ensures { IfOk result (λ v. ListsExactly (IsCandidateRow heap.now held.now slots.now) v.items) }
{
    let mut rows = Vec::new(alloc);
    for m in 1..heap.made() + 1 {
        if is_candidate(heap, held, slots, m) {
            rows.push(m)?;
        }
    }
    Ok(rows)
}

fn is_candidate(heap: &PlainHeap, held: &[Option<u32>], slots: &[bool], m: u32) -> bool
    requires { m < length slots.now }
    ensures { IsTrue result ↔ IsCandidateRow heap.now held.now slots.now m }
{
    is_bridge(heap, held, m) && is_so(slots, m, false)
}
