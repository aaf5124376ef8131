// From classes to components and cross-references.

ghost use Rattle.std.specs.Prelude.{◌≡◌, ◌-◌, ℕ, ◌<◌, ◌≤◌, [], List, length, IfOk, OnOk, slice_index};
ghost use Rattle.joint_machine.specs.Components.{IsContraction};
ghost use Rattle.bridge_graph.specs.Parts.{IsBridgeNode, IsPart, NodeLeads};
ghost use Rattle.component_pass.specs.Classes.{AreClasses, AreInOrder};
ghost use Rattle.component_pass.specs.Counting.{CountsIn, CountsOut};
ghost use Rattle.component_pass.specs.Grouping.{AreListed, group, links_of};
ghost use Rattle.component_pass.specs.Reporting.{AreAllListed};

use crate::counting::count_reached;
use crate::heaviness::{count_heavy, mark_thin, number_heavy};
use crate::listing::{NO_COMPONENT, list_rows};
use crate::sharing::{list_sets, share_references};
use crate::tarjan::{StrongClasses, classes};
use bridge_graph::DeadGraph;
use std::alloc::Global;
use xref_list::{Components, ComponentsBuilder, ListingFault};

/// The components of a dead part and the cross-references between them.
///
/// Two bridge nodes are in one component exactly where each reaches the other. Behind these components come the heavy
/// classes, without members, by their least nodes. A pair of different ones is listed exactly where some walk leads
/// from the class of the first to the class of the second whose nodes between lie in classes that aren't reported.
/// Answers `Memory` only where there is no memory, and `TooMany` only where there would be more than 4,294,967,295
/// bridge nodes and pairs together, or sets of components to work with, or elements of these. The dead parts of the
/// heaps are too small for that.
pub fn contract(alloc: Global, graph: &DeadGraph) -> Result<Components, ListingFault>
    ensures { IfOk result (λ c. (heavy : List ℕ) × (length heavy ≡ c.heavy)
        × IsContraction (IsBridgeNode graph.now.nodes) (NodeLeads graph.now.edges) c.comps heavy c.pairs) }
{
    let mut found = classes(alloc, graph)?;
    let mut builder = ComponentsBuilder::new(alloc);
    let listed = list_reported(alloc, graph, &mut found, &mut builder);
    drop(found);
    listed?;
    builder.finish()
}

// Lists the components, the heavy classes and all cross-references, from the classes in order, in a builder that has
// nothing yet. The labels are spent.
fn list_reported(
    alloc: Global,
    graph: &DeadGraph,
    found: &mut StrongClasses,
    builder: &mut ComponentsBuilder,
) -> Result<(), ListingFault>
    requires classes { AreClasses graph.now.edges (length graph.now.nodes) found.old.labels.items }
    requires order { AreInOrder graph.now.edges (length graph.now.nodes) found.old.labels.items found.old.rows }
    requires none { builder.old.comps ≡ [] }
    requires heavy { builder.old.heavy ≡ 0 }
    requires empty { builder.old.pairs ≡ [] }
    ensures part { OnOk result (IsPart graph.now.nodes graph.now.edges) }
    ensures listed { OnOk result (AreAllListed graph.now.nodes graph.now.edges found.old.labels.items
        (length found.old.rows) builder.new.comps builder.new.heavy builder.new.pairs) }
{
    let mut indexes = vec![in alloc; NO_COMPONENT; found.rows.len()]?;
    builder.reserve(graph.nodes(), graph.nodes())?;
    list_rows(
        alloc,
        graph,
        &found.labels,
        &found.rows,
        &mut indexes,
        builder,
    )?;
    list_others(alloc, graph, found, &mut indexes, builder)
}

// Lists the heavy classes, if there are some, and all cross-references, once the components are listed. Mostly none is
// heavy, and what was found for the counts is all.
fn list_others(
    alloc: Global,
    graph: &DeadGraph,
    found: &mut StrongClasses,
    indexes: &mut [u32],
    builder: &mut ComponentsBuilder,
) -> Result<(), ListingFault>
    requires classes { AreClasses graph.now.edges (length graph.now.nodes) found.old.labels.items }
    requires order { AreInOrder graph.now.edges (length graph.now.nodes) found.old.labels.items found.old.rows }
    requires part { IsPart graph.now.nodes graph.now.edges }
    requires indexes { length indexes.old ≡ length found.old.rows }
    requires heavy { builder.old.heavy ≡ 0 }
    requires empty { builder.old.pairs ≡ [] }
    requires listed { AreListed graph.now.nodes found.old.labels.items
        (links_of graph.now.nodes found.old.labels.items) (length graph.now.nodes) builder.old.comps indexes.old }
    requires plain { (l : ℕ) → l < length found.old.rows
        → length (group (links_of graph.now.nodes found.old.labels.items) l) ≡ 0 → slice_index indexes.old l ≡ u32.MAX }
    ensures listed { OnOk result (AreAllListed graph.now.nodes graph.now.edges found.old.labels.items
        (length found.old.rows) builder.new.comps builder.new.heavy builder.new.pairs) }
{
    let count = builder.len();
    let reached = count_reached(alloc, graph, found, indexes, count)?;
    let ins = count_heavy(
        alloc,
        graph,
        found,
        indexes,
        &reached.counts,
        count,
        reached.left == 0,
    )?;
    match ins {
        Some(ins) => list_heavy(alloc, graph, found, &reached.counts, &ins, indexes, builder),
        None => list_sets(count, &reached.refs, &reached.lists, builder),
    }
}

// Lists the heavy classes by the counts on either side, and all cross-references.
fn list_heavy(
    alloc: Global,
    graph: &DeadGraph,
    found: &mut StrongClasses,
    outs: &[u8],
    ins: &[u32],
    indexes: &mut [u32],
    builder: &mut ComponentsBuilder,
) -> Result<(), ListingFault>
    requires classes { AreClasses graph.now.edges (length graph.now.nodes) found.old.labels.items }
    requires order { AreInOrder graph.now.edges (length graph.now.nodes) found.old.labels.items found.old.rows }
    requires part { IsPart graph.now.nodes graph.now.edges }
    requires indexes { length indexes.old ≡ length found.old.rows }
    requires heavy { builder.old.heavy ≡ 0 }
    requires empty { builder.old.pairs ≡ [] }
    requires listed { AreListed graph.now.nodes found.old.labels.items
        (links_of graph.now.nodes found.old.labels.items) (length graph.now.nodes) builder.old.comps indexes.old }
    requires plain { (l : ℕ) → l < length found.old.rows
        → length (group (links_of graph.now.nodes found.old.labels.items) l) ≡ 0 → slice_index indexes.old l ≡ u32.MAX }
    requires few { length builder.old.comps ≤ u32.MAX - 1 }
    requires outs { length outs.now ≡ length found.old.rows }
    requires ins { length ins.now ≡ length found.old.rows }
    requires led_to { CountsOut graph.now.edges
        (length graph.now.nodes) found.old.labels.items indexes.old (length found.old.rows) outs.now }
    requires lead_in { CountsIn graph.now.edges
        (length graph.now.nodes) found.old.labels.items indexes.old outs.now ins.now }
    ensures listed { OnOk result (AreAllListed graph.now.nodes graph.now.edges found.old.labels.items
        (length found.old.rows) builder.new.comps builder.new.heavy builder.new.pairs) }
{
    number_heavy(&found.labels, outs, ins, indexes, builder)?;
    let mut thin = vec![in alloc; false; graph.nodes() as usize]?;
    mark_thin(&found.labels, outs, ins, indexes, &mut thin);
    share_references(
        alloc,
        graph,
        &mut found.labels,
        &found.rows,
        indexes,
        &thin,
        builder,
    )
}
