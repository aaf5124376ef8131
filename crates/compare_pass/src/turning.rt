// The same nodes with all edges turned round.

ghost use Rattle.std.specs.Prelude.{◌≡◌, ◌↔◌, ◌⊎◌, ◌<◌, ℕ, [], length, All, Contains, IfOk, OnOk, false};
ghost use Rattle.bridge_graph.specs.Parts.{NodeLeads, opaque_at};
ghost use Rattle.compare_pass.specs.Turned.{AreTurnedNodes, IsTurned};

use bridge_graph::{DeadGraph, GraphBuilder};
use std::alloc::{AllocError, Global};

/// A graph of the same nodes whose edges lead the other way. No node is opaque in it, since edges
/// lead from where they led to.
pub(crate) fn turned(alloc: Global, graph: &DeadGraph) -> Result<DeadGraph, AllocError>
    ensures { IfOk result (λ g. IsTurned (length graph.now.nodes) graph.now.edges (length g.nodes) g.edges) }
{
    let mut builder = GraphBuilder::new(alloc);
    turn_nodes(graph, &mut builder)?;
    turn_edges(graph, &mut builder)?;
    Ok(builder.finish())
}

// Adds the nodes, none of them opaque.
fn turn_nodes(graph: &DeadGraph, builder: &mut GraphBuilder) -> Result<(), AllocError>
    requires nodes { builder.old.nodes ≡ [] }
    requires edges { builder.old.edges ≡ [] }
    ensures nodes { OnOk result (AreTurnedNodes graph.now.nodes (length graph.now.nodes) builder.new.nodes) }
    ensures rows { OnOk result (length builder.new.edges ≡ length builder.new.nodes) }
    ensures edges { OnOk result ((x y : ℕ) → NodeLeads builder.new.edges x y → ⊥) }
{
    for x in 0..graph.nodes() {
        builder.node(graph.number(x), graph.handle(x), false)?;
    }
    Ok(())
}

// Adds the edges, turned round.
fn turn_edges(graph: &DeadGraph, builder: &mut GraphBuilder) -> Result<(), AllocError>
    requires nodes { AreTurnedNodes graph.now.nodes (length graph.now.nodes) builder.old.nodes }
    requires rows { length builder.old.edges ≡ length builder.old.nodes }
    requires edges { (x y : ℕ) → NodeLeads builder.old.edges x y → ⊥ }
    ensures nodes { builder.new.nodes ≡ builder.old.nodes }
    ensures edges { OnOk result ((x y : ℕ) → NodeLeads builder.new.edges x y ↔ NodeLeads graph.now.edges y x) }
{
    for x in 0..graph.nodes() {
        turn_row(graph.row(x), x, builder)?;
    }
    Ok(())
}

// Adds the edges of a row, turned round.
fn turn_row(row: &[u32], x: u32, builder: &mut GraphBuilder) -> Result<(), AllocError>
    requires from { All (λ y. y < length builder.old.nodes) row.now }
    requires to { x < length builder.old.nodes }
    requires clear { (y : ℕ) → y < length builder.old.nodes → opaque_at builder.old.nodes y ≡ false }
    requires rows { length builder.old.edges ≡ length builder.old.nodes }
    ensures rows { length builder.new.edges ≡ length builder.old.edges }
    ensures nodes { builder.new.nodes ≡ builder.old.nodes }
    ensures edges { OnOk result ((u v : ℕ) → NodeLeads builder.new.edges u v
        ↔ (NodeLeads builder.old.edges u v ⊎ (Contains row.now u × (v ≡ x)))) }
{
    for y in row {
        builder.edge(*y, x)?;
    }
    Ok(())
}
