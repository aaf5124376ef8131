// The pass, and its second half: from exact classes to components and cross-references.

ghost use Rattle.std.specs.Prelude.{◌≡◌, ℕ, [], List, length, All, IfOk, OnOk};
ghost use Rattle.joint_machine.specs.Components.{IsContraction};
ghost use Rattle.bridge_graph.specs.Parts.{IsBridgeNode, IsPart, NodeLeads};
ghost use Rattle.compare_pass.specs.Classes.{AreClasses};
ghost use Rattle.compare_pass.specs.Listing.{AreGroups};
ghost use Rattle.compare_pass.specs.Referring.{AreAllListed};
ghost use Rattle.compare_pass.specs.Searching.{no_index};
ghost use Rattle.compare_pass.specs.Turned.{IsTurned};

use crate::classes::classes;
use crate::finishing::finishing_order;
use crate::heaviness::{count_from, list_heavy};
use crate::listing::{group_bridges, list_components};
use crate::references::list_references;
use crate::search::NO_INDEX;
use crate::turning::turned;
use bridge_graph::{DeadGraph, PackedRows};
use std::alloc::Global;
use xref_list::{Components, ComponentsBuilder, ListingFault};

/// The components of a dead part and the cross-references between them.
///
/// Two bridge nodes are in one component exactly where each reaches the other. Behind these components come the heavy
/// classes, without members, by their least nodes. A pair of different ones is listed exactly where some walk leads
/// from the class of the first to the class of the second whose nodes between lie in classes that aren't reported.
/// Answers `Memory` only where there is no memory, and `TooMany` only where there are more than 4,294,967,295 bridge
/// nodes and pairs together.
pub fn second_pass(alloc: Global, graph: &DeadGraph) -> Result<Components, ListingFault>
    ensures { IfOk result (λ c. (heavy : List ℕ) × (length heavy ≡ c.heavy)
        × IsContraction (IsBridgeNode graph.now.nodes) (NodeLeads graph.now.edges) c.comps heavy c.pairs) }
{
    let order = finishing_order(alloc, graph)?;
    let back = turned(alloc, graph)?;
    let labels = classes(alloc, graph, &back, &order)?;
    contraction(alloc, graph, &back, &labels)
}

// The components and cross-references, from the classes.
fn contraction(
    alloc: Global,
    graph: &DeadGraph,
    back: &DeadGraph,
    labels: &[u32],
) -> Result<Components, ListingFault>
    requires back { IsTurned (length graph.now.nodes) graph.now.edges (length back.now.nodes) back.now.edges }
    requires classes { AreClasses graph.now.edges (length graph.now.nodes) labels.now }
    ensures { IfOk result (λ c. (heavy : List ℕ) × (length heavy ≡ c.heavy)
        × IsContraction (IsBridgeNode graph.now.nodes) (NodeLeads graph.now.edges) c.comps heavy c.pairs) }
{
    let groups = group_bridges(alloc, graph, labels)?;
    let mut indexes = vec![in alloc; NO_INDEX; graph.nodes() as usize]?;
    let mut stands = Vec::new(alloc);
    let mut builder = ComponentsBuilder::new(alloc);
    list_all(
        alloc,
        graph,
        back,
        labels,
        &groups,
        &mut indexes,
        &mut stands,
        &mut builder,
    )?;
    builder.finish()
}

// Lists the components, the heavy classes and all cross-references; nothing has an index yet.
fn list_all(
    alloc: Global,
    graph: &DeadGraph,
    back: &DeadGraph,
    labels: &[u32],
    groups: &PackedRows,
    indexes: &mut [u32],
    stands: &mut Vec<u32>,
    builder: &mut ComponentsBuilder,
) -> Result<(), ListingFault>
    requires part { IsPart graph.now.nodes graph.now.edges }
    requires back { IsTurned (length graph.now.nodes) graph.now.edges (length back.now.nodes) back.now.edges }
    requires classes { AreClasses graph.now.edges (length graph.now.nodes) labels.now }
    requires groups { AreGroups graph.now.nodes labels.now groups.now.starts.items groups.now.targets.items }
    requires indexes { length indexes.old ≡ length graph.now.nodes }
    requires unset { All (λ i. i ≡ no_index) indexes.old }
    requires stands { stands.old.items ≡ [] }
    requires heavy { builder.old.heavy ≡ 0 }
    requires comps { builder.old.comps ≡ [] }
    requires pairs { builder.old.pairs ≡ [] }
    ensures { OnOk result (AreAllListed graph.now.nodes graph.now.edges
        labels.now builder.new.comps builder.new.heavy builder.new.pairs) }
{
    list_components(graph, labels, groups, indexes, stands, builder)?;
    let ins = count_from(alloc, graph, labels, indexes, stands)?;
    let outs = count_from(alloc, back, labels, indexes, stands)?;
    list_heavy(graph, labels, &ins, &outs, indexes, stands, builder)?;
    list_references(alloc, graph, labels, indexes, stands, builder)
}
