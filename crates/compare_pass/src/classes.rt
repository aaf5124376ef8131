// The second search: along the reversed edges, from the nodes in the reverse order of finishing, the last finished
// first. Each search through nodes without a label finds the whole class of its root, and nothing else.

ghost use Rattle.std.specs.Prelude.{◌≡◌, ℕ, ◌+◌, ◌<◌, ◌≤◌, [], length, All, IfOk, OnOk, slice_index, slice_set};
ghost use Rattle.bridge_graph.specs.Parts.{IsPart, numbers_of};
ghost use Rattle.compare_pass.specs.Classes.{AreClasses};
ghost use Rattle.compare_pass.specs.Labelling.{AreLabelled, IsBare, Labels, no_label};
ghost use Rattle.compare_pass.specs.Searches.{IsFinishingOrder};
ghost use Rattle.compare_pass.specs.Turned.{IsTurned};

use crate::table::{NO_LABEL, NodeTable};
use bridge_graph::DeadGraph;
use std::alloc::{AllocError, Global};

/// The classes of a graph, from the graph turned round and the order in which its nodes were finished: for each node
/// the root of its class.
pub(crate) fn classes(
    alloc: Global,
    graph: &DeadGraph,
    back: &DeadGraph,
    order: &[u32],
) -> Result<Vec<u32>, AllocError>
    requires back { IsTurned (length graph.now.nodes) graph.now.edges (length back.now.nodes) back.now.edges }
    requires order { IsFinishingOrder graph.now.edges (length graph.now.nodes) order.now }
    ensures { IfOk result (λ v. AreClasses graph.now.edges (length graph.now.nodes) v.items) }
{
    let mut table = NodeTable::of(alloc, graph)?;
    let mut waiting = Vec::with_capacity(alloc, graph.nodes() as usize)?;
    label_all(graph, back, order, &mut table, &mut waiting)?;
    labels_of(alloc, graph, &table)
}

// Labels all nodes.
fn label_all(
    graph: &DeadGraph,
    back: &DeadGraph,
    order: &[u32],
    table: &mut NodeTable,
    waiting: &mut Vec<u32>,
) -> Result<(), AllocError>
    requires back { IsTurned (length graph.now.nodes) graph.now.edges (length back.now.nodes) back.now.edges }
    requires order { IsFinishingOrder graph.now.edges (length graph.now.nodes) order.now }
    requires part { IsPart graph.now.nodes graph.now.edges }
    requires numbers { table.old.numbers ≡ numbers_of graph.now.nodes }
    requires size { length table.old.labels ≡ length graph.now.nodes }
    requires bare { All (λ l. l ≡ no_label) table.old.labels }
    requires waiting { waiting.old.items ≡ [] }
    ensures numbers { OnOk result (table.new.numbers ≡ numbers_of graph.now.nodes) }
    ensures labels { OnOk result (AreLabelled graph.now.edges (length graph.now.nodes) order.now 0 table.new.labels) }
{
    let mut left = order.len();
    while left > 0 {
        let root = order[left - 1];
        if label_of(graph, table, root) == NO_LABEL {
            label_class(graph, back, order, left - 1, root, table, waiting)?;
        }
        left -= 1;
    }
    Ok(())
}

// Labels the class of a root that was finished last among the nodes without a label.
fn label_class(
    graph: &DeadGraph,
    back: &DeadGraph,
    order: &[u32],
    at: usize,
    root: u32,
    table: &mut NodeTable,
    waiting: &mut Vec<u32>,
) -> Result<(), AllocError>
    requires back { IsTurned (length graph.now.nodes) graph.now.edges (length back.now.nodes) back.now.edges }
    requires order { IsFinishingOrder graph.now.edges (length graph.now.nodes) order.now }
    requires few { length graph.now.nodes < u32.MAX }
    requires at { at < length order.now }
    requires root { slice_index order.now at ≡ root }
    requires bare { IsBare table.old.labels root }
    requires numbers { table.old.numbers ≡ numbers_of graph.now.nodes }
    requires labels { AreLabelled graph.now.edges (length graph.now.nodes) order.now (at + 1) table.old.labels }
    requires waiting { waiting.old.items ≡ [] }
    ensures numbers { OnOk result (table.new.numbers ≡ numbers_of graph.now.nodes) }
    ensures labels { OnOk result (AreLabelled graph.now.edges (length graph.now.nodes) order.now at table.new.labels) }
    ensures waiting { OnOk result (waiting.new.items ≡ []) }
{
    put_label(graph, table, root, root)?;
    waiting.push(root)?;
    while let Some(x) = waiting.pop() {
        label_row(graph, back.row(x), root, table, waiting)?;
    }
    Ok(())
}

// Labels the nodes of a row that have no label; they wait to be gone on from.
fn label_row(
    graph: &DeadGraph,
    row: &[u32],
    label: u32,
    table: &mut NodeTable,
    waiting: &mut Vec<u32>,
) -> Result<(), AllocError>
    requires row { All (λ y. y < length graph.now.nodes) row.now }
    requires label { label < length graph.now.nodes }
    requires few { length graph.now.nodes < u32.MAX }
    requires numbers { table.old.numbers ≡ numbers_of graph.now.nodes }
    requires size { length table.old.labels ≡ length graph.now.nodes }
    ensures numbers { OnOk result (table.new.numbers ≡ numbers_of graph.now.nodes) }
    ensures labels { OnOk result (Labels row.now label table.old.labels
        waiting.old.items table.new.labels waiting.new.items) }
{
    for y in row {
        if label_of(graph, table, *y) == NO_LABEL {
            put_label(graph, table, *y, label)?;
            waiting.push(*y)?;
        }
    }
    Ok(())
}

// The label of a node.
fn label_of(graph: &DeadGraph, table: &NodeTable, x: u32) -> u32
    requires node { x < length graph.now.nodes }
    requires numbers { table.now.numbers ≡ numbers_of graph.now.nodes }
    ensures { result ≡ slice_index table.now.labels x }
{
    table.label(graph.number(x))
}

// Labels a node.
fn put_label(graph: &DeadGraph, table: &mut NodeTable, x: u32, label: u32) -> Result<(), AllocError>
    requires node { x < length graph.now.nodes }
    requires numbers { table.old.numbers ≡ numbers_of graph.now.nodes }
    ensures numbers { OnOk result (table.new.numbers ≡ numbers_of graph.now.nodes) }
    ensures labels { OnOk result (table.new.labels ≡ slice_set table.old.labels x label) }
{
    table.set(graph.number(x), label)
}

// The labels in the order of the nodes.
fn labels_of(alloc: Global, graph: &DeadGraph, table: &NodeTable) -> Result<Vec<u32>, AllocError>
    requires numbers { table.now.numbers ≡ numbers_of graph.now.nodes }
    requires size { length table.now.labels ≡ length graph.now.nodes }
    ensures { IfOk result (λ v. v.items ≡ table.now.labels) }
{
    let mut labels = Vec::with_capacity(alloc, graph.nodes() as usize)?;
    for x in 0..graph.nodes() {
        labels.push(label_of(graph, table, x))?;
    }
    Ok(labels)
}
