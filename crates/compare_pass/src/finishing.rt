// The first search: depth first along the edges. It lists the nodes in the order in which it finished them.

ghost use Rattle.std.specs.Prelude.{◌≡◌, ◌^◌, ℕ, ◌+◌, ◌*◌, ◌<◌, ◌≤◌, [], ◌∷◌, length, All, IfOk, OnOk, reverse};
ghost use Rattle.std.specs.Prelude.{slice_index};
ghost use Rattle.std.specs.Prelude.{slice_index_or, false, true};
ghost use Rattle.bridge_graph.specs.Parts.{IsPart, NodeLeads, row_at};
ghost use Rattle.compare_pass.specs.Searches.{IsFinishingOrder, IsGoing, unseen};

use bridge_graph::DeadGraph;
use std::alloc::{AllocError, Global};

/// A node that the search is in, and the next of its edges.
#[derive(Clone, Copy)]
pub(crate) struct Frame {
    pub node: u32,
    pub next: u32,
}

/// The nodes in the order in which a search along the edges finishes them.
pub(crate) fn finishing_order(alloc: Global, graph: &DeadGraph) -> Result<Vec<u32>, AllocError>
    ensures { IfOk result (λ v. IsFinishingOrder graph.now.edges (length graph.now.nodes) v.items) }
{
    let n = graph.nodes() as usize;
    let mut seen = vec![in alloc; false; n]?;
    let mut order = Vec::with_capacity(alloc, n)?;
    let mut frames = Vec::new(alloc);
    finish_all(graph, &mut seen, &mut order, &mut frames)?;
    Ok(order)
}

// Searches from each node that wasn't seen.
fn finish_all(
    graph: &DeadGraph,
    seen: &mut [bool],
    order: &mut Vec<u32>,
    frames: &mut Vec<Frame>,
) -> Result<(), AllocError>
    requires seen { length seen.old ≡ length graph.now.nodes }
    requires unseen { All (λ s. s ≡ false) seen.old }
    requires order { order.old.items ≡ [] }
    requires frames { frames.old.items ≡ [] }
    ensures { OnOk result (IsFinishingOrder graph.now.edges (length graph.now.nodes) order.new.items) }
{
    for root in 0..graph.nodes() {
        if !seen[root as usize] {
            finish_from(graph, root, seen, order, frames)?;
        }
    }
    Ok(())
}

// Finishes all nodes that `root` reaches and that weren't seen.
fn finish_from(
    graph: &DeadGraph,
    root: u32,
    seen: &mut [bool],
    order: &mut Vec<u32>,
    frames: &mut Vec<Frame>,
) -> Result<(), AllocError>
    requires part { IsPart graph.now.nodes graph.now.edges }
    requires root { root < length graph.now.nodes }
    requires fresh { slice_index_or seen.old root false ≡ false }
    requires frames { frames.old.items ≡ [] }
    requires going { IsGoing graph.now.edges (length graph.now.nodes) seen.old order.old.items [] }
    ensures frames { OnOk result (frames.new.items ≡ []) }
    ensures going { OnOk result (IsGoing graph.now.edges (length graph.now.nodes) seen.new order.new.items []) }
    ensures root { OnOk result (slice_index_or seen.new root false ≡ true) }
    ensures kept { OnOk result ((x : ℕ) → slice_index_or seen.old x false ≡ true
        → slice_index_or seen.new x false ≡ true) }
{
    seen[root as usize] = true;
    frames.push(Frame {
        node: root,
        next: 0,
    })?;
    while let Some(frame) = frames.pop() {
        advance(graph, frame, seen, order, frames)?;
    }
    Ok(())
}

// Goes on in a frame: into the next node that wasn't seen, or to the end of the frame's node.
fn advance(
    graph: &DeadGraph,
    frame: Frame,
    seen: &mut [bool],
    order: &mut Vec<u32>,
    frames: &mut Vec<Frame>,
) -> Result<(), AllocError>
    requires part { IsPart graph.now.nodes graph.now.edges }
    requires going { IsGoing graph.now.edges
        (length graph.now.nodes) seen.old order.old.items (frame ∷ reverse frames.old.items) }
    ensures going { OnOk result (IsGoing graph.now.edges
        (length graph.now.nodes) seen.new order.new.items (reverse frames.new.items)) }
    ensures less { OnOk result (2 * unseen seen.new + length
        frames.new.items < 2 * unseen seen.old + length frames.old.items + 1) }
    ensures kept { OnOk result ((x : ℕ) → slice_index_or seen.old x false ≡ true
        → slice_index_or seen.new x false ≡ true) }
{
    let row = graph.row(frame.node);
    let next = first_unseen(row, seen, frame.next);
    if (next as usize) < row.len() {
        let inner = row[next as usize];
        seen[inner as usize] = true;
        frames.push(Frame {
            node: frame.node,
            next: next + 1,
        })?;
        frames.push(Frame {
            node: inner,
            next: 0,
        })?;
        return Ok(());
    }
    order.push(frame.node)?;
    Ok(())
}

// The place of the first target in a row from `from` on that wasn't seen, or past the end.
fn first_unseen(row: &[u32], seen: &[bool], from: u32) -> u32
    requires in_range { All (λ y. y < length seen.now) row.now }
    requires few { length row.now < 2 ^ 32 }
    ensures later { from ≤ result }
    ensures seen { (k : ℕ) → from ≤ k → k < result → k < length row.now
        → slice_index_or seen.now (slice_index row.now k) false ≡ true }
    ensures next { result < length row.now → slice_index_or seen.now (slice_index row.now result) false ≡ false }
{
    let mut next = from;
    while (next as usize) < row.len() {
        if !seen[row[next as usize] as usize] {
            return next;
        }
        next += 1;
    }
    next
}
