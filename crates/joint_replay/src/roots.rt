// The roots of a marking.

ghost use Rattle.std.specs.Prelude.{◌≡◌, ℕ, ◌+◌, ◌<◌, ◌≤◌, ◌↔◌, ◌⊎◌, Contains, IfOk, OnOk, IsTrue, Some, length, take};
ghost use Rattle.std.specs.Prelude.{slice_get};
ghost use Rattle.joint_machine.specs.Heaps.{IsLive, InSlot};
ghost use Rattle.joint_machine.specs.Histories.{managed_numbers};
ghost use Rattle.joint_replay.specs.Found.{IsBridgeRow, has_handle, held_at};
ghost use Rattle.joint_marking.specs.Gathered.{Gains};
ghost use Rattle.joint_replay.specs.Roots.{IsNamedLive, IsNamedOrPinned};

use crate::heap::PlainHeap;
use joint_model::MNum;
use std::alloc::{AllocError, Global};

/// The live objects that a variable or a static names.
pub(crate) fn named_roots(alloc: Global, heap: &PlainHeap) -> Result<Vec<u32>, AllocError>
    ensures { IfOk result (λ v. (x : ℕ) → Contains v.items x ↔ (IsLive heap.now x × InSlot heap.now x)) }
{
    let mut roots = Vec::new(alloc);
    push_named(heap, heap.vars(), &mut roots)?;
    push_named(heap, heap.statics(), &mut roots)?;
    Ok(roots)
}

/// The live objects that a variable, a static or a pin names.
pub(crate) fn pinned_roots(
    alloc: Global,
    heap: &PlainHeap,
    pins: &[Option<u32>],
) -> Result<Vec<u32>, AllocError>
    ensures { IfOk result (λ v. (x : ℕ) → Contains v.items x
        ↔ (IsLive heap.now x × IsNamedOrPinned heap.now pins.now x)) }
{
    let mut roots = named_roots(alloc, heap)?;
    push_named(heap, pins, &mut roots)?;
    Ok(roots)
}

// Puts the live objects that the slots name.
fn push_named(
    heap: &PlainHeap,
    slots: &[Option<u32>],
    roots: &mut Vec<u32>,
) -> Result<(), AllocError>
    ensures { OnOk result (Gains (IsNamedLive heap.now slots.now) roots.old.items roots.new.items) }
{
    for i in 0..slots.len() {
        if let Some(x) = live_at(heap, slots, i) {
            roots.push(x)?;
        }
    }
    Ok(())
}

// What the slot names, where it is live.
fn live_at(heap: &PlainHeap, slots: &[Option<u32>], i: usize) -> Option<u32>
    requires { i < length slots.now }
    ensures { (x : ℕ) → (result ≡ Some x) ↔ (IsLive heap.now x × (slice_get slots.now i ≡ Some (Some x))) }
{
    match slots[i] {
        None => None,
        Some(x) => { if heap.is_live(x) { Some(x) } else { None } }
    }
}

/// The live objects that hold a handle.
pub(crate) fn bridge_rows(
    alloc: Global,
    heap: &PlainHeap,
    held: &[Option<u32>],
) -> Result<Vec<u32>, AllocError>
    ensures { IfOk result (λ v. (m : ℕ) → Contains v.items m ↔ IsBridgeRow heap.now held.now m) }
{
    let mut rows = Vec::new(alloc);
    for m in 1..heap.made() + 1 {
        if is_bridge(heap, held, m) {
            rows.push(m)?;
        }
    }
    Ok(rows)
}

/// Whether the row is live and holds a handle.
pub(crate) fn is_bridge(heap: &PlainHeap, held: &[Option<u32>], m: u32) -> bool
    ensures { IsTrue result ↔ IsBridgeRow heap.now held.now m }
{
    heap.is_live(m) && handle_at(held, m).is_some()
}

/// The handle at the row's place.
pub(crate) fn handle_at(held: &[Option<u32>], m: u32) -> Option<u32>
    ensures { result ≡ held_at held.now m }
{
    if m == 0 || m as usize > held.len() {
        return None;
    }
    held[m as usize - 1]
}

/// Numbers as those of managed objects. Answers `AllocError` where there is no memory.
pub(crate) fn as_objects(alloc: Global, numbers: &[u32]) -> Result<Vec<MNum>, AllocError>
    ensures { IfOk result (λ v. managed_numbers v.items ≡ numbers.now) }
{
    let mut objects = Vec::new(alloc);
    for x in numbers {
        objects.push(MNum(*x))?;
    }
    Ok(objects)
}
