// The components, from the rows of the classes. Going through the nodes in order, the first bridge node of a class
// makes a component of all its bridge nodes.

ghost use Rattle.std.specs.Prelude.{◌≡◌, ◌-◌, ◌↔◌, ℕ, ◌<◌, ◌≤◌, [], length, All, Contains, IfOk, OnOk, MatchBool};
ghost use Rattle.std.specs.Prelude.{false};
ghost use Rattle.std.specs.Prelude.{slice_index};
ghost use Rattle.bridge_graph.specs.Parts.{IsBridgeNode};
ghost use Rattle.component_pass.specs.Classes.{AreClasses, AreInOrder};
ghost use Rattle.component_pass.specs.Grouping.{AreListed, AddsOne, group, links_of};
ghost use Rattle.joint_machine.specs.Components.{first_of};
ghost use Rattle.xref_list.specs.Listing.{AreDisjoint};

use crate::gathering::{are_components_in_order, unite};
use crate::lists::Lists;
use bridge_graph::DeadGraph;
use std::alloc::{AllocError, Global};
use xref_list::{ComponentsBuilder, ListingFault};

/// Stands at the label of a class in place of its component's index, where it has none.
pub(crate) const NO_COMPONENT: u32 = u32::MAX;

/// Lists the components in the order of their first members, and writes down the index of each at its label.
pub(crate) fn list_rows(
    alloc: Global,
    graph: &DeadGraph,
    labels: &[u32],
    rows: &Lists,
    indexes: &mut [u32],
    builder: &mut ComponentsBuilder,
) -> Result<(), ListingFault>
    requires classes { AreClasses graph.now.edges (length graph.now.nodes) labels.now }
    requires order { AreInOrder graph.now.edges (length graph.now.nodes) labels.now rows.now }
    requires indexes { length indexes.old ≡ length rows.now }
    requires unset { All (λ i. i ≡ u32.MAX) indexes.old }
    requires empty { builder.old.comps ≡ [] }
    requires heavy { builder.old.heavy ≡ 0 }
    ensures listed { OnOk result (AreListed graph.now.nodes labels.now
        (links_of graph.now.nodes labels.now) (length graph.now.nodes) builder.new.comps indexes.new) }
    ensures plain { OnOk result ((l : ℕ) → l < length rows.now
        → length (group (links_of graph.now.nodes labels.now) l) ≡ 0 → slice_index indexes.new l ≡ u32.MAX) }
    ensures heavy { builder.new.heavy ≡ 0 }
    ensures pairs { builder.new.pairs ≡ builder.old.pairs }
{
    let mut members = Vec::new(alloc);
    let mut ordered = Vec::new(alloc);
    let mut marks = vec![in alloc; false; graph.nodes() as usize]?;
    list_all(
        graph,
        labels,
        rows,
        indexes,
        &mut members,
        &mut ordered,
        &mut marks,
        builder,
    )
}

// The same with two lists to put the members of a component into, and a mark for each node; no mark is on.
fn list_all(
    graph: &DeadGraph,
    labels: &[u32],
    rows: &Lists,
    indexes: &mut [u32],
    members: &mut Vec<u32>,
    ordered: &mut Vec<u32>,
    marks: &mut [bool],
    builder: &mut ComponentsBuilder,
) -> Result<(), ListingFault>
    requires classes { AreClasses graph.now.edges (length graph.now.nodes) labels.now }
    requires order { AreInOrder graph.now.edges (length graph.now.nodes) labels.now rows.now }
    requires indexes { length indexes.old ≡ length rows.now }
    requires unset { All (λ i. i ≡ u32.MAX) indexes.old }
    requires marks { length marks.old ≡ length graph.now.nodes }
    requires clear { All (λ m. m ≡ false) marks.old }
    requires empty { builder.old.comps ≡ [] }
    requires heavy { builder.old.heavy ≡ 0 }
    ensures listed { OnOk result (AreListed graph.now.nodes labels.now
        (links_of graph.now.nodes labels.now) (length graph.now.nodes) builder.new.comps indexes.new) }
    ensures plain { OnOk result ((l : ℕ) → l < length rows.now
        → length (group (links_of graph.now.nodes labels.now) l) ≡ 0 → slice_index indexes.new l ≡ u32.MAX) }
    ensures heavy { builder.new.heavy ≡ 0 }
    ensures pairs { builder.new.pairs ≡ builder.old.pairs }
{
    for x in 0..graph.nodes() {
        if begins(graph, labels, indexes, x) {
            let label = labels[x as usize];
            collect_bridges(graph, rows.row(label as usize), members)?;
            indexes[label as usize] = list_members(
                rows,
                graph.nodes(),
                members,
                marks,
                ordered,
                builder,
            )?;
        }
    }
    Ok(())
}

// Whether `x` is the first bridge node of its class that is come by.
#[inline(always)]
fn begins(graph: &DeadGraph, labels: &[u32], indexes: &[u32], x: u32) -> bool
    requires node { x < length graph.now.nodes }
    requires labels { length labels.now ≡ length graph.now.nodes }
    requires label { slice_index labels.now x < length indexes.now }
    ensures { MatchBool result (IsBridgeNode graph.now.nodes x
        × (slice_index indexes.now (slice_index labels.now x) ≡ u32.MAX))
        (¬ (IsBridgeNode graph.now.nodes x × (slice_index indexes.now (slice_index labels.now x) ≡ u32.MAX))) }
{
    graph.is_bridge(x) && indexes[labels[x as usize] as usize] == NO_COMPONENT
}

// Lists the bridge nodes of a class in the order of its row.
#[inline(always)]
fn collect_bridges(
    graph: &DeadGraph,
    class: &[u32],
    members: &mut Vec<u32>,
) -> Result<(), AllocError>
    requires { All (λ x. x < length graph.now.nodes) class.now }
    ensures { OnOk result ((y : ℕ) → Contains members.new.items y
        ↔ (Contains class.now y × IsBridgeNode graph.now.nodes y)) }
{
    members.clear();
    for y in class {
        if graph.is_bridge(*y) {
            members.push(*y)?;
        }
    }
    Ok(())
}

// Lists a component, whose members come in any order, and answers its index. Mostly there is one, or they rise. As
// a set, each node stands for itself.
#[inline(always)]
fn list_members(
    rows: &Lists,
    count: u32,
    members: &[u32],
    marks: &mut [bool],
    ordered: &mut Vec<u32>,
    builder: &mut ComponentsBuilder,
) -> Result<u32, ListingFault>
    requires some { 0 < length members.now }
    requires below { All (λ x. x < count) members.now }
    requires few { count ≤ u32.MAX - 1 }
    requires rows { All (All (λ j. j < count)) rows.now }
    requires marks { length marks.old ≡ count }
    requires clear { All (λ m. m ≡ false) marks.old }
    requires heavy { builder.old.heavy ≡ 0 }
    requires apart { All (λ m. AreDisjoint m members.now) builder.old.comps }
    requires after { All (λ m. All (λ y. first_of m < y) members.now) builder.old.comps }
    ensures index { IfOk result (λ i. i ≡ length builder.old.comps) }
    ensures comps { OnOk result (AddsOne builder.old.comps builder.new.comps members.now) }
    ensures heavy { builder.new.heavy ≡ 0 }
    ensures pairs { builder.new.pairs ≡ builder.old.pairs }
    ensures clear { OnOk result (All (λ m. m ≡ false) marks.new) }
{
    if are_components_in_order(members, count) {
        return builder.component(members);
    }
    ordered.clear();
    unite(rows, count, members, marks, ordered)?;
    builder.component(ordered)
}
