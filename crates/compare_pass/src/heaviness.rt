// How many components lead to each node and are led to, and the heavy classes.

ghost use Rattle.std.specs.Prelude.{◌≡◌, ◌-◌, ◌≢◌, ◌↔◌, ℕ, ◌+◌, ◌*◌, ◌<◌, ◌≤◌, [], ◌++◌, List, length, map, All, IfOk};
ghost use Rattle.std.specs.Prelude.{OnOk};
ghost use Rattle.std.specs.Prelude.{MatchBool, false, slice_index};
ghost use Rattle.joint_machine.specs.Components.{IsHeavy, Rises, first_of};
ghost use Rattle.bridge_graph.specs.Parts.{IsBridgeNode, NodeLeads};
ghost use Rattle.compare_pass.specs.Classes.{AreClasses};
ghost use Rattle.compare_pass.specs.Counting.{AreCounts, AreMany, Tallies};
ghost use Rattle.compare_pass.specs.Listing.{AreHeavyBelow, AreNumbered};
ghost use Rattle.compare_pass.specs.Searching.{AreMarked, index_at, no_index};

use crate::search::{NO_INDEX, search};
use bridge_graph::DeadGraph;
use std::alloc::{AllocError, Global};
use xref_list::ComponentsBuilder;

// The least count on either side of a heavy class, and the least product of the two.
const LEAST: u32 = 3;

const PRODUCT: u64 = 60;

/// For each node from how many of the stands a search comes to it.
pub(crate) fn count_from(
    alloc: Global,
    graph: &DeadGraph,
    labels: &[u32],
    indexes: &[u32],
    stands: &[u32],
) -> Result<Vec<u32>, AllocError>
    requires labels { length labels.now ≡ length graph.now.nodes }
    requires small { All (λ l. l < length indexes.now) labels.now }
    requires stands { All (λ s. s < length graph.now.nodes) stands.now }
    requires rise { Rises stands.now }
    requires few { length stands.now ≤ u32.MAX - 1 }
    ensures { IfOk result (λ v. AreCounts graph.now.edges
        (length graph.now.nodes) labels.now indexes.now stands.now (length stands.now) v.items) }
{
    let n = graph.nodes() as usize;
    let mut counts = vec![in alloc; 0u32; n]?;
    let mut marks = vec![in alloc; false; n]?;
    let mut found = Vec::new(alloc);
    count_all(
        graph,
        labels,
        indexes,
        stands,
        &mut marks,
        &mut found,
        &mut counts,
    )?;
    Ok(counts)
}

// The same with counts of nothing, no mark and an empty list.
fn count_all(
    graph: &DeadGraph,
    labels: &[u32],
    indexes: &[u32],
    stands: &[u32],
    marks: &mut [bool],
    found: &mut Vec<u32>,
    counts: &mut [u32],
) -> Result<(), AllocError>
    requires labels { length labels.now ≡ length graph.now.nodes }
    requires small { All (λ l. l < length indexes.now) labels.now }
    requires stands { All (λ s. s < length graph.now.nodes) stands.now }
    requires rise { Rises stands.now }
    requires few { length stands.now ≤ u32.MAX - 1 }
    requires marks { length marks.old ≡ length graph.now.nodes }
    requires clear { All (λ m. m ≡ false) marks.old }
    requires found { found.old.items ≡ [] }
    requires counts { length counts.old ≡ length graph.now.nodes }
    requires none { All (λ c. c ≡ 0) counts.old }
    ensures { OnOk result (AreCounts graph.now.edges
        (length graph.now.nodes) labels.now indexes.now stands.now (length stands.now) counts.new) }
{
    for stand in stands {
        search(graph, labels, indexes, *stand, marks, found)?;
        tally(found, marks, counts);
        found.clear();
    }
    Ok(())
}

// Counts each node that was found, and unmarks it.
fn tally(found: &[u32], marks: &mut [bool], counts: &mut [u32])
    requires marking { AreMarked marks.old found.now }
    requires size { length counts.old ≡ length marks.old }
    requires small { All (λ c. c < u32.MAX) counts.old }
    ensures tallies { Tallies marks.old counts.old counts.new }
    ensures clear { All (λ m. m ≡ false) marks.new }
{
    for y in found {
        if marks[*y as usize] {
            marks[*y as usize] = false;
            counts[*y as usize] += 1;
        }
    }
}

/// Lists the heavy classes by their least nodes, which stand for them behind the components: going through the nodes in
/// order, a class is listed at the first of its nodes, and its index is written down at its label.
pub(crate) fn list_heavy(
    graph: &DeadGraph,
    labels: &[u32],
    ins: &[u32],
    outs: &[u32],
    indexes: &mut [u32],
    stands: &mut Vec<u32>,
    builder: &mut ComponentsBuilder,
) -> Result<(), AllocError>
    requires classes { AreClasses graph.now.edges (length graph.now.nodes) labels.now }
    requires ins { length ins.now ≡ length graph.now.nodes }
    requires outs { length outs.now ≡ length graph.now.nodes }
    requires heavy { builder.old.heavy ≡ 0 }
    requires numbered { AreNumbered (length graph.now.nodes) labels.now indexes.old stands.old.items }
    requires firsts { map first_of builder.old.comps ≡ stands.old.items }
    requires exact { (x : ℕ) → x < length graph.now.nodes → index_at labels.now indexes.old x ≡ no_index
        → AreMany (slice_index ins.now x) (slice_index outs.now x)
        ↔ IsHeavy (IsBridgeNode graph.now.nodes) (NodeLeads graph.now.edges) x }
    requires plain { (x : ℕ) → IsHeavy (IsBridgeNode graph.now.nodes) (NodeLeads graph.now.edges) x
        → index_at labels.now indexes.old x ≡ no_index }
    ensures heavy { OnOk result ((heavy : List ℕ) × (length heavy ≡ builder.new.heavy)
        × (stands.new.items ≡ stands.old.items ++ heavy)
        × AreHeavyBelow (IsBridgeNode graph.now.nodes) (NodeLeads graph.now.edges)
        (length graph.now.nodes) labels.now indexes.old stands.old.items
        (length graph.now.nodes) indexes.new heavy) }
    ensures comps { builder.new.comps ≡ builder.old.comps }
    ensures pairs { builder.new.pairs ≡ builder.old.pairs }
{
    for x in 0..graph.nodes() {
        let label = labels[x as usize] as usize;
        if is_heavy(indexes[label], ins[x as usize], outs[x as usize]) {
            indexes[label] = builder.bridgeless()?;
            stands.push(x)?;
        }
    }
    Ok(())
}

// Whether a class with that index and so many components on either side is heavy and isn't listed yet.
fn is_heavy(index: u32, ins: u32, outs: u32) -> bool
    ensures { MatchBool result ((index ≡ no_index) × AreMany ins outs) (¬ ((index ≡ no_index) × AreMany ins outs)) }
{
    index == NO_INDEX
        && ins >= LEAST
        && outs >= LEAST
        && u64::from(ins) * u64::from(outs) >= PRODUCT
}
