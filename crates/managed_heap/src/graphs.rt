// The dead part of a snapshot as a graph value: its rows are the nodes, and their fields that lead to one another the
// edges.

ghost use Rattle.std.specs.Prelude.{◌≡◌, ℕ, ◌+◌, ◌<◌, ◌≤◌, ◌↔◌, ◌⊎◌, [], All, Contains, Option, Some, None, IfSome};
ghost use Rattle.std.specs.Prelude.{IsOk, OnOk, List, length, map, replicate, slice_get, sum, true, nat_eq};
ghost use Rattle.joint_machine.specs.Components.{Rises};
ghost use Rattle.joint_machine.specs.Heaps.{IsLive, fields_of};
ghost use Rattle.joint_machine.specs.Histories.{managed_numbers};
ghost use Rattle.bridge_graph.specs.Parts.{NodeLeads, opaque_at, row_at};
ghost use Rattle.managed_heap.specs.Rooms.{fields_in};
ghost use Rattle.managed_heap.specs.Graphs.{ArePlaces, HasDeadField, HasPlaced, IsPlaceOf, held_at, handle_named};
ghost use Rattle.managed_heap.specs.Graphs.{node_of};

use crate::rows::Header;
use bridge_graph::{DeadGraph, GraphBuilder};
use joint_model::{HNum, MNum};
use row_heap::RowHeap;
use std::alloc::AllocError;

// Where each row stands in the dead part, counted from 1; 0 at the number of each other row.
fn places_of(dead: &[MNum], made: u32, mut places: Vec<u32>) -> Vec<u32>
    requires zeros { places.items ≡ replicate (made + 1) 0 }
    requires within { All (λ m. m.0 ≤ made) dead.now }
    requires few { length dead.now ≤ 65535 }
    requires rise { Rises (managed_numbers dead.now) }
    ensures exact { ArePlaces (length dead.now) (managed_numbers dead.now) result.items }
    ensures len { length result.items ≡ made + 1 }
{
    for i in 0..dead.len() {
        places[dead[i].0 as usize] = i as u32 + 1;
    }
    places
}

// The handle beside a row.
fn handle_at(headers: &[Header], m: MNum) -> Option<HNum>
    requires row { (1 ≤ m.0) × (m.0 ≤ length headers.now) }
    ensures { result ≡ handle_named (held_at (map (λ i. i.handle) headers.now) m.0) }
{
    match headers[m.0 as usize - 1].handle {
        None => None,
        Some(h) => Some(HNum(h)),
    }
}

// Adds a node for each row.
fn add_nodes(
    heap: &RowHeap<MNum>,
    headers: &[Header],
    dead: &[MNum],
    builder: &mut GraphBuilder,
) -> Result<(), AllocError>
    requires live { (m : ℕ) → Contains (managed_numbers dead.now) m → IsLive heap.now.heap m }
    requires headers { length headers.now ≡ length heap.now.heap.fields }
    requires few { length dead.now ≤ 65535 }
    requires rise { Rises (managed_numbers dead.now) }
    requires nodes { builder.old.nodes ≡ [] }
    requires edges { builder.old.edges ≡ [] }
    ensures nodes { OnOk result (builder.new.nodes ≡ map
        (node_of heap.now.heap (map (λ i. i.handle) headers.now)) dead.now) }
    ensures edges { OnOk result ((a : ℕ) → row_at builder.new.edges a ≡ []) }
    ensures ready { length dead.now ≤ builder.old.spare_nodes → IsOk result }
    ensures spare { builder.new.spare_edges ≡ builder.old.spare_edges }
{
    for m in dead {
        builder.node(*m, handle_at(headers, *m), heap.fields_len(m.0) == 0)?;
    }
    Ok(())
}

// Adds an edge from node `i` to the row that a field holds, if that has a place.
fn add_edge(
    places: &[u32],
    field: Option<u32>,
    i: u32,
    builder: &mut GraphBuilder,
) -> Result<(), AllocError>
    requires from { i < length builder.old.nodes }
    requires clear { opaque_at builder.old.nodes i ≡ true → ⊥ }
    requires named { IfSome field (λ y. y < length places.now) }
    requires within { (y k : ℕ) → slice_get places.now y ≡ Some (k + 1) → k < length builder.old.nodes }
    ensures nodes { builder.new.nodes ≡ builder.old.nodes }
    ensures edges { OnOk result ((a k : ℕ) → NodeLeads builder.new.edges a k
        ↔ (NodeLeads builder.old.edges a k ⊎ ((a ≡ i) × IsPlaceOf places.now field k))) }
    ensures ready { 1 ≤ builder.old.spare_edges → IsOk result }
    ensures spare { OnOk result (builder.old.spare_edges ≤ builder.new.spare_edges + 1) }
{
    let Some(y) = field else {
        return Ok(());
    };
    let place = places[y as usize];
    if place == 0 {
        return Ok(());
    }
    let _ = builder.nodes();
    builder.edge(i, place - 1)
}

// Adds the edges of the row that is node `i`.
fn add_row(
    heap: &RowHeap<MNum>,
    x: MNum,
    i: u32,
    places: &[u32],
    builder: &mut GraphBuilder,
) -> Result<(), AllocError>
    requires live { IsLive heap.now.heap x.0 }
    requires from { i < length builder.old.nodes }
    requires clear { opaque_at builder.old.nodes i ≡ true → fields_of heap.now.heap x.0 ≡ [] }
    requires places { length places.now ≡ length heap.now.heap.fields + 1 }
    requires within { (y k : ℕ) → slice_get places.now y ≡ Some (k + 1) → k < length builder.old.nodes }
    ensures nodes { builder.new.nodes ≡ builder.old.nodes }
    ensures edges { OnOk result ((a k : ℕ) → NodeLeads builder.new.edges a k
        ↔ (NodeLeads builder.old.edges a k ⊎ ((a ≡ i) × HasPlaced places.now (fields_of heap.now.heap x.0) k))) }
    ensures ready { length (fields_of heap.now.heap x.0) ≤ builder.old.spare_edges → IsOk result }
    ensures spare { OnOk result (builder.old.spare_edges ≤ builder.new.spare_edges + length
        (fields_of heap.now.heap x.0)) }
{
    heap.recall_tidy();
    let held = heap.row_fields(x.0);
    for field in held {
        add_edge(places, *field, i, builder)?;
    }
    Ok(())
}

// Adds the edges of each row.
fn add_edges(
    heap: &RowHeap<MNum>,
    dead: &[MNum],
    places: &[u32],
    builder: &mut GraphBuilder,
) -> Result<(), AllocError>
    requires live { (m : ℕ) → Contains (managed_numbers dead.now) m → IsLive heap.now.heap m }
    requires few { length dead.now ≤ 65535 }
    requires nodes { (held : List (Option ℕ)) × (builder.old.nodes ≡ map (node_of heap.now.heap held) dead.now) }
    requires len { length places.now ≡ length heap.now.heap.fields + 1 }
    requires places { ArePlaces (length dead.now) (managed_numbers dead.now) places.now }
    ensures nodes { builder.new.nodes ≡ builder.old.nodes }
    ensures edges { OnOk result ((a k : ℕ) → NodeLeads builder.new.edges a k
        ↔ (NodeLeads builder.old.edges a k ⊎ HasDeadField heap.now.heap (managed_numbers dead.now) a k)) }
    ensures ready { fields_in heap.now.heap (managed_numbers dead.now) ≤ builder.old.spare_edges → IsOk result }
{
    for i in 0..dead.len() {
        add_row(heap, dead[i], i as u32, places, builder)?;
    }
    Ok(())
}

/// The graph of a dead part, in room that was taken: `places` has a place for each row that was made, and the builder
/// room for each row and field.
pub(crate) fn graph_of(
    heap: &RowHeap<MNum>,
    headers: &[Header],
    dead: &[MNum],
    places: Vec<u32>,
    mut builder: GraphBuilder,
) -> DeadGraph
    requires zeros { places.items ≡ replicate (length heap.now.heap.fields + 1) 0 }
    requires empty { (builder.nodes ≡ []) × (builder.edges ≡ []) }
    requires nodes { length heap.now.heap.fields ≤ builder.spare_nodes }
    requires edges { sum (map length heap.now.heap.fields) ≤ builder.spare_edges }
    requires live { (m : ℕ) → Contains (managed_numbers dead.now) m → IsLive heap.now.heap m }
    requires headers { length headers.now ≡ length heap.now.heap.fields }
    requires few { length dead.now ≤ 65535 }
    requires rise { Rises (managed_numbers dead.now) }
    ensures nodes { result.nodes ≡ map (node_of heap.now.heap (map (λ i. i.handle) headers.now)) dead.now }
    ensures edges { (a k : ℕ) → NodeLeads result.edges a k ↔ HasDeadField heap.now.heap (managed_numbers dead.now) a k }
{
    let places = places_of(dead, heap.made(), places);
    let Ok(()) = add_nodes(heap, headers, dead, &mut builder) else {
        unreachable!();
    };
    let Ok(()) = add_edges(heap, dead, &places, &mut builder) else {
        unreachable!();
    };
    builder.finish()
}
