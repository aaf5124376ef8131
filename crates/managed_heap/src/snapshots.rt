// What a snapshot marks and finds.
//
// It marks what slots and pins reach. The live rows that this leaves out are the dead part and what goes: the
// candidates are those among them that hold a handle, what a candidate reaches stays, and the others are freed. At the
// end the marks are again those of what slots and pins reach, so that the live rows without a mark are exactly the dead
// part. Where there is no candidate, nothing else was marked, and they stand already.

ghost use Rattle.std.specs.Prelude.{◌≡◌, ℕ, ◌↔◌, ◌⊎◌, ◌≤◌, ◌<◌, ◌∷◌, [], Bool, false, Some, None, Contains, IsTrue};
ghost use Rattle.std.specs.Prelude.{length, map, filter, replicate, sum, vec_capacity, ◌+◌};
ghost use Rattle.joint_machine.specs.Heaps.{HasField, InSlot, IsLive};
ghost use Rattle.joint_machine.specs.Histories.{managed_numbers};
ghost use Rattle.joint_machine.specs.Walks.{Reached};
ghost use Rattle.reachability.specs.Marks.{IsClosed, HasMark, marked};
ghost use Rattle.row_heap.specs.Marks.{AreWhite, EdgeOf};
ghost use Rattle.row_marking.specs.Traces.{Greyed};
ghost use Rattle.bridge_graph.specs.Parts.{NodeLeads};
ghost use Rattle.managed_heap.specs.Graphs.{HasDeadField, node_of};
ghost use Rattle.managed_heap.specs.Resolving.{has_handle};
ghost use Rattle.managed_heap.specs.Pinned.{pins_given};
ghost use Rattle.managed_heap.specs.Snapshots.{PartsUnmarked, Prepares};

use crate::graphs::graph_of;
use crate::opening::Pins;
use crate::resolving::{has_mark, holds, keep_unmarked};
use crate::rooms::Room;
use crate::rows::Header;
use bridge_graph::DeadGraph;
use joint_model::MNum;
use row_heap::RowHeap;
use row_marking::visit;

// Marks what pins hold.
fn visit_pins(heap: &mut RowHeap<MNum>, pins: &Pins, grey: &mut u32)
    requires live { (x : ℕ) → Contains (pins_given pins.now.at) (Some x) → IsLive heap.old.heap x }
    ensures greyed { Greyed (λ x. Contains (pins_given pins.now.at) (Some x))
        heap.old.marks heap.old.links grey.old heap.new.marks heap.new.links grey.new }
    ensures rest { heap.new ≡ record heap.old { marks = heap.new.marks; links = heap.new.links } }
{
    for t in 0..8usize {
        if let Some(m) = pins.at[t] {
            visit(heap, m.0, grey);
        }
    }
}

/// Marks what slots and pins reach, and nothing else. It takes no memory.
pub(crate) fn mark_slots(heap: &mut RowHeap<MNum>, pins: &Pins)
    requires live { (x : ℕ) → Contains (pins_given pins.now.at) (Some x) → IsLive heap.old.heap x }
    ensures marks { (x : ℕ) → HasMark heap.new.marks x
        ↔ Reached (λ z. InSlot heap.old.heap z ⊎ Contains (pins_given pins.now.at) (Some z))
        (HasField heap.old.heap) x }
    ensures shut { IsClosed (EdgeOf heap.new) heap.new.marks }
    ensures rest { heap.new ≡ record heap.old { follows = false; marks = heap.new.marks; links = heap.new.links } }
{
    let mut grey = 0;
    heap.begin_marking(false);
    heap.visit_slots(&mut grey);
    visit_pins(heap, pins, &mut grey);
    heap.finish_marking(grey);
}

/// Marks again what slots and pins reach, and nothing else. Where there was no candidate, nothing else has a mark. It
/// takes no memory.
pub(crate) fn mark_slots_again(heap: &mut RowHeap<MNum>, pins: &Pins, candidates: &[u32])
    requires live { (x : ℕ) → Contains (pins_given pins.now.at) (Some x) → IsLive heap.old.heap x }
    requires plain { heap.old.follows ≡ false }
    requires still { candidates.now ≡ [] → (x : ℕ) → HasMark heap.old.marks x
        ↔ Reached (λ z. InSlot heap.old.heap z ⊎ Contains (pins_given pins.now.at) (Some z))
        (HasField heap.old.heap) x }
    ensures marks { (x : ℕ) → HasMark heap.new.marks x
        ↔ Reached (λ z. InSlot heap.old.heap z ⊎ Contains (pins_given pins.now.at) (Some z))
        (HasField heap.old.heap) x }
    ensures rest { heap.new ≡ record heap.old { follows = false; marks = heap.new.marks; links = heap.new.links } }
{
    if candidates.is_empty() {
        return;
    }
    mark_slots(heap, pins);
}

/// The live rows without a mark, in rising order: none of them comes before the oldest live one.
pub(crate) fn whites(heap: &RowHeap<MNum>, mut rows: Vec<MNum>) -> Vec<MNum>
    requires empty { rows.items ≡ [] }
    requires room { length heap.now.heap.fields ≤ vec_capacity rows }
    ensures { AreWhite heap.now (managed_numbers result.items) }
{
    for m in heap.oldest()..heap.made() + 1 {
        if heap.is_white(m) {
            rows.push_reserved(MNum(m));
        }
    }
    rows
}

/// The rows of a list that hold a handle.
pub(crate) fn pick(rows: &[MNum], headers: &[Header], mut picked: Vec<u32>) -> Vec<u32>
    requires empty { picked.items ≡ [] }
    requires room { length rows.now ≤ vec_capacity picked }
    ensures { result.items ≡ filter (has_handle (map (λ i. i.handle) headers.now)) (managed_numbers rows.now) }
{
    for m in rows {
        if holds(headers, *m) {
            picked.push_reserved(m.0);
        }
    }
    picked
}

/// The rows of a list that have a mark.
pub(crate) fn marked_rows(heap: &RowHeap<MNum>, rows: &[MNum], mut found: Vec<MNum>) -> Vec<MNum>
    requires empty { found.items ≡ [] }
    requires room { length rows.now ≤ vec_capacity found }
    ensures { managed_numbers result.items ≡ filter (marked heap.now.marks) (managed_numbers rows.now) }
{
    for m in rows {
        if has_mark(heap, *m) {
            found.push_reserved(*m);
        }
    }
    found
}

/// Marks the rows of a list with all that they reach.
pub(crate) fn bring_back_all(heap: &mut RowHeap<MNum>, rows: &[u32])
    requires live { (m : ℕ) → Contains rows.now m → IsLive heap.old.heap m }
    requires shut { IsClosed (EdgeOf heap.old) heap.old.marks }
    ensures marks { (k : ℕ) → HasMark heap.new.marks k
        ↔ (HasMark heap.old.marks k ⊎ Reached (Contains rows.now) (EdgeOf heap.old) k) }
    ensures shut { IsClosed (EdgeOf heap.old) heap.new.marks }
    ensures rest { heap.new ≡ record heap.old { marks = heap.new.marks; links = heap.new.links } }
{
    for m in rows {
        heap.bring_back(*m);
    }
}

/// What a snapshot finds: the rows that go, the candidates and the dead part.
#[derive(Drop)]
pub(crate) struct SnapshotParts {
    pub(crate) freed: Vec<MNum>,
    pub(crate) candidates: Vec<u32>,
    pub(crate) dead: Vec<MNum>,
}

// Parts the live rows that have no mark. What the candidates reach has a mark afterwards.
fn find(
    heap: &mut RowHeap<MNum>,
    headers: &[Header],
    freed: Vec<MNum>,
    candidates: Vec<u32>,
    dead: Vec<MNum>,
) -> SnapshotParts
    requires empty { (freed.items ≡ []) × (candidates.items ≡ []) × (dead.items ≡ []) }
    requires room { (length heap.old.heap.fields ≤ vec_capacity freed)
        × (length heap.old.heap.fields ≤ vec_capacity candidates) × (length heap.old.heap.fields ≤ vec_capacity dead) }
    requires shut { IsClosed (EdgeOf heap.old) heap.old.marks }
    ensures finds { PartsUnmarked heap.old heap.new (map (λ i. i.handle) headers.now)
        (managed_numbers result.freed.items) result.candidates.items (managed_numbers result.dead.items) }
    ensures rest { heap.new ≡ record heap.old { marks = heap.new.marks; links = heap.new.links } }
{
    let mut freed = whites(heap, freed);
    let candidates = pick(&freed, headers, candidates);
    bring_back_all(heap, &candidates);
    let dead = marked_rows(heap, &freed, dead);
    keep_unmarked(heap, &mut freed);
    SnapshotParts {
        freed,
        candidates,
        dead,
    }
}

/// What a snapshot finds, with the graph of its dead part.
#[derive(Drop)]
pub(crate) struct Prepared {
    pub(crate) found: SnapshotParts,
    pub(crate) graph: DeadGraph,
}

/// All that a snapshot finds, in room that was taken: it takes no memory.
pub(crate) fn prepare(
    heap: &mut RowHeap<MNum>,
    headers: &[Header],
    pins: &Pins,
    room: Room,
) -> Prepared
    requires live { (x : ℕ) → Contains (pins_given pins.now.at) (Some x) → IsLive heap.old.heap x }
    requires headers { length headers.now ≡ length heap.old.heap.fields }
    requires empty { (room.freed.items ≡ []) × (room.candidates.items ≡ []) × (room.dead.items ≡ []) }
    requires room { (length heap.old.heap.fields ≤ vec_capacity room.freed)
        × (length heap.old.heap.fields ≤ vec_capacity room.candidates)
        × (length heap.old.heap.fields ≤ vec_capacity room.dead) }
    requires zeros { room.places.items ≡ replicate (length heap.old.heap.fields + 1) 0 }
    requires bare { (room.graph.nodes ≡ []) × (room.graph.edges ≡ []) }
    requires rows { length heap.old.heap.fields ≤ room.graph.spare_nodes }
    requires fields { sum (map length heap.old.heap.fields) ≤ room.graph.spare_edges }
    ensures prepares { Prepares heap.old.heap (pins_given pins.now.at) (map (λ i. i.handle) headers.now) heap.new
        (managed_numbers result.found.freed.items) result.found.candidates.items
        (managed_numbers result.found.dead.items) }
    ensures nodes { result.graph.nodes ≡ map
        (node_of heap.old.heap (map (λ i. i.handle) headers.now)) result.found.dead.items }
    ensures edges { (a k : ℕ) → NodeLeads result.graph.edges a k
        ↔ HasDeadField heap.old.heap (managed_numbers result.found.dead.items) a k }
    ensures few { (length result.found.freed.items ≤ 65535)
        × (length result.found.candidates.items ≤ length heap.old.heap.fields) }
    ensures rest { heap.new ≡ record heap.old { follows = false; marks = heap.new.marks; links = heap.new.links } }
{
    let _ = heap.made();
    let Room {
        freed,
        candidates,
        dead,
        places,
        graph,
    } = room;
    mark_slots(heap, pins);
    let found = find(heap, headers, freed, candidates, dead);
    let graph = graph_of(heap, headers, &found.dead, places, graph);
    Prepared { found, graph }
}
