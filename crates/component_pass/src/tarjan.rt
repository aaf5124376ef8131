// Tarjan's algorithm for strongly connected classes, with the search's frames in a list on the heap.

ghost use Rattle.std.specs.Prelude.{◌≡◌, ◌^◌, ◌≢◌, ◌⊎◌, ℕ, ◌+◌, ◌*◌, ◌<◌, ◌≤◌, List, [], ◌∷◌, ◌++◌, length, min, take};
ghost use Rattle.std.specs.Prelude.{drop};
ghost use Rattle.std.specs.Prelude.{All, Contains, IfOk, OnOk, IfNone, reverse, slice_index, slice_set};
ghost use Rattle.bridge_graph.specs.Parts.{IsPart, NodeLeads, row_at};
ghost use Rattle.component_pass.specs.Classes.{AreClasses, AreInOrder};
ghost use Rattle.component_pass.specs.Tarjan.{IsGoing, ScansRow, unseen, with_current, done_mark};

use crate::lists::Lists;
use bridge_graph::DeadGraph;
use std::alloc::{AllocError, Global};
use xref_list::ListingFault;

/// A node that the search is in: its place on the stack, the next of its edges, and the lowest place that
/// an edge from it or from a node finished under it leads to.
#[derive(Clone, Copy)]
pub(crate) struct Frame {
    pub node: u32,
    pub at: u32,
    pub next: u32,
    pub low: u32,
}

// The mark of a node that was not seen.
const UNSEEN: u32 = 0;

// The mark of a node whose class is complete; it is above every place.
const DONE: u32 = u32::MAX;

// Where a scan of a row stopped, and the lowest place that it came by.
#[derive(Clone, Copy)]
struct Scan {
    next: u32,
    low: u32,
}

/// The classes in the order in which they were completed, and the number of its class for each node.
#[derive(Drop)]
pub(crate) struct StrongClasses {
    pub labels: Vec<u32>,
    pub rows: Lists,
}

/// The classes of a graph. Edges lead from a class to itself and to those before it.
pub(crate) fn classes(alloc: Global, graph: &DeadGraph) -> Result<StrongClasses, ListingFault>
    ensures classes { IfOk result (λ c. AreClasses graph.now.edges (length graph.now.nodes) c.labels.items) }
    ensures order { IfOk result (λ c. AreInOrder graph.now.edges (length graph.now.nodes) c.labels.items c.rows) }
{
    let n = graph.nodes() as usize;
    let mut marks = vec![in alloc; UNSEEN; n]?;
    let mut labels = vec![in alloc; 0u32; n]?;
    let mut rows = Lists::with_capacity(alloc, n, n)?;
    let mut stack = Vec::with_capacity(alloc, n)?;
    let mut frames = Vec::with_capacity(alloc, n)?;
    visit_all(
        graph,
        &mut marks,
        &mut labels,
        &mut rows,
        &mut stack,
        &mut frames,
    )?;
    Ok(StrongClasses { labels, rows })
}

// Walks from each node that was not seen.
fn visit_all(
    graph: &DeadGraph,
    marks: &mut [u32],
    labels: &mut [u32],
    rows: &mut Lists,
    stack: &mut Vec<u32>,
    frames: &mut Vec<Frame>,
) -> Result<(), ListingFault>
    requires marks { length marks.old ≡ length graph.now.nodes }
    requires labels { length labels.old ≡ length graph.now.nodes }
    requires unseen { All (λ m. m ≡ 0) marks.old }
    requires stack { stack.old.items ≡ [] }
    requires frames { frames.old.items ≡ [] }
    requires rows { rows.old ≡ [] }
    ensures classes { OnOk result (AreClasses graph.now.edges (length graph.now.nodes) labels.new) }
    ensures order { OnOk result (AreInOrder graph.now.edges (length graph.now.nodes) labels.new rows.new) }
{
    for root in 0..graph.nodes() {
        if marks[root as usize] == UNSEEN {
            walk(graph, root, marks, labels, rows, stack, frames)?;
        }
    }
    Ok(())
}

// Completes the classes of all nodes that `root` reaches.
fn walk(
    graph: &DeadGraph,
    root: u32,
    marks: &mut [u32],
    labels: &mut [u32],
    rows: &mut Lists,
    stack: &mut Vec<u32>,
    frames: &mut Vec<Frame>,
) -> Result<(), ListingFault>
    requires part { IsPart graph.now.nodes graph.now.edges }
    requires root { root < length graph.now.nodes }
    requires fresh { slice_index marks.old root ≡ 0 }
    requires going { IsGoing graph.now.edges (length graph.now.nodes) stack.old.items marks.old labels.old rows.old [] }
    requires frames { frames.old.items ≡ [] }
    ensures going { OnOk result (IsGoing graph.now.edges
        (length graph.now.nodes) stack.new.items marks.new labels.new rows.new []) }
    ensures frames { OnOk result (frames.new.items ≡ []) }
    ensures root { OnOk result (slice_index marks.new root ≢ 0) }
    ensures kept { OnOk result ((x : ℕ) → slice_index marks.old x ≢ 0 → slice_index marks.new x ≢ 0) }
{
    let mut current = Some(enter(root, marks, stack)?);
    while let Some(frame) = current {
        current = advance(graph, frame, marks, labels, rows, stack, frames)?;
    }
    Ok(())
}

// Puts an unseen node on the stack, and answers its frame.
fn enter(node: u32, marks: &mut [u32], stack: &mut Vec<u32>) -> Result<Frame, AllocError>
    requires node { node < length marks.old }
    requires few { length stack.old.items < u32.MAX }
    ensures marks { OnOk result (marks.new ≡ slice_set marks.old node (length stack.old.items + 1)) }
    ensures stack { OnOk result (stack.new.items ≡ stack.old.items ++ node ∷ []) }
    ensures frame { IfOk result (λ f. f
        ≡ record { node = node; at = length stack.old.items; next = 0; low = length stack.old.items }) }
{
    let at = stack.len() as u32;
    stack.push(node)?;
    marks[node as usize] = at + 1;
    Ok(Frame {
        node,
        at,
        next: 0,
        low: at,
    })
}

// Goes on in a frame: into the next unseen node, back to the frame below, or to the end of a class. Answers
// the frame to go on in.
fn advance(
    graph: &DeadGraph,
    frame: Frame,
    marks: &mut [u32],
    labels: &mut [u32],
    rows: &mut Lists,
    stack: &mut Vec<u32>,
    frames: &mut Vec<Frame>,
) -> Result<Option<Frame>, ListingFault>
    requires going { IsGoing graph.now.edges
        (length graph.now.nodes) stack.old.items marks.old labels.old rows.old (frame ∷ reverse frames.old.items) }
    ensures going { IfOk result (λ f. IsGoing graph.now.edges
        (length graph.now.nodes) stack.new.items marks.new labels.new rows.new
        (with_current f (reverse frames.new.items))) }
    ensures none { IfOk result (λ f. IfNone f (frames.new.items ≡ [])) }
    ensures less { IfOk result (λ f. 2 * unseen marks.new + length
        (with_current f frames.new.items) < 2 * unseen marks.old + length frames.old.items + 1) }
    ensures kept { OnOk result ((x : ℕ) → slice_index marks.old x ≢ 0 → slice_index marks.new x ≢ 0) }
{
    let row = graph.row(frame.node);
    let scan = scan_row(row, marks, frame.next, frame.low);
    if (scan.next as usize) < row.len() {
        frames.push(Frame {
            node: frame.node,
            at: frame.at,
            next: scan.next + 1,
            low: scan.low,
        })?;
        let inner = enter(row[scan.next as usize], marks, stack)?;
        return Ok(Some(inner));
    }
    if scan.low < frame.at {
        return Ok(Some(lowered(frames.take_last(), scan.low)));
    }
    close(frame.at, marks, labels, rows, stack)?;
    Ok(frames.pop())
}

// Goes over the seen targets of a row, and keeps the lowest place among them.
fn scan_row(row: &[u32], marks: &[u32], from: u32, low: u32) -> Scan
    requires in_range { All (λ y. y < length marks.now) row.now }
    requires few { length row.now < 2 ^ 32 }
    requires low { low < u32.MAX }
    requires from { from ≤ length row.now }
    ensures { ScansRow row.now marks.now from low result.next result.low }
{
    let mut next = from;
    let mut lowest = low;
    while (next as usize) < row.len() {
        let mark = marks[row[next as usize] as usize];
        if mark == UNSEEN {
            break;
        }
        lowest = lowest.min(mark - 1);
        next += 1;
    }
    Scan { next, low: lowest }
}

// The frame below, to which the lowest place is handed on.
fn lowered(below: Frame, low: u32) -> Frame
    ensures { result ≡ record { node = below.node; at = below.at; next = below.next; low = min below.low low } }
{
    Frame {
        node: below.node,
        at: below.at,
        next: below.next,
        low: below.low.min(low),
    }
}

// Takes the nodes of a complete class from the stack, marks them as done, and lists and labels the class.
fn close(
    at: u32,
    marks: &mut [u32],
    labels: &mut [u32],
    rows: &mut Lists,
    stack: &mut Vec<u32>,
) -> Result<(), ListingFault>
    requires at { at ≤ length stack.old.items }
    requires marks { All (λ x. x < length marks.old) stack.old.items }
    requires labels { All (λ x. x < length labels.old) stack.old.items }
    requires few { length rows.old < u32.MAX }
    requires placed { (k : ℕ) → k < length stack.old.items
        → slice_index marks.old (slice_index stack.old.items k) ≡ k + 1 }
    ensures stack { OnOk result (stack.new.items ≡ take at stack.old.items) }
    ensures rows { OnOk result (rows.new ≡ rows.old ++ drop at stack.old.items ∷ []) }
    ensures taken { OnOk result ((k : ℕ) → at ≤ k → k < length stack.old.items
        → (slice_index marks.new (slice_index stack.old.items k) ≡ done_mark)
        × (slice_index labels.new (slice_index stack.old.items k) ≡ length rows.old)) }
    ensures others { OnOk result ((x : ℕ) → (slice_index marks.old x ≤ at)
        ⊎ (length stack.old.items < slice_index marks.old x) → (slice_index marks.new x ≡ slice_index marks.old x)
        × (slice_index labels.new x ≡ slice_index labels.old x)) }
{
    let class = &stack[at as usize..];
    settle(class, rows.len() as u32, marks, labels);
    rows.push(class)?;
    stack.truncate(at as usize);
    Ok(())
}

// Marks the nodes of a complete class as done and labels them.
fn settle(class: &[u32], label: u32, marks: &mut [u32], labels: &mut [u32])
    requires marks { All (λ x. x < length marks.old) class.now }
    requires labels { All (λ x. x < length labels.old) class.now }
    ensures taken { All (λ x. (slice_index marks.new x ≡ done_mark) × (slice_index labels.new x ≡ label)) class.now }
    ensures others { (x : ℕ) → (Contains class.now x → ⊥) → (slice_index marks.new x ≡ slice_index marks.old x)
        × (slice_index labels.new x ≡ slice_index labels.old x) }
{
    for x in class {
        marks[*x as usize] = DONE;
        labels[*x as usize] = label;
    }
}
