// The cross-references of each reported class: by a search from the node that stands for it, through its own class and
// through classes that aren't reported.

ghost use Rattle.std.specs.Prelude.{◌≡◌, ℕ, ◌+◌, ◌<◌, [], length, All, Contains, OnOk, false, slice_index};
ghost use Rattle.bridge_graph.specs.Parts.{IsPart};
ghost use Rattle.compare_pass.specs.Listing.{AreNumbered};
ghost use Rattle.compare_pass.specs.Referring.{AreDestinations, AreReferencesBelow};
ghost use Rattle.compare_pass.specs.Searching.{Opens, index_at};

use crate::search::{clear, opens, search};
use bridge_graph::DeadGraph;
use std::alloc::{AllocError, Global};
use xref_list::{ComponentsBuilder, ListingFault};

/// Lists the cross-references of all reported classes.
pub(crate) fn list_references(
    alloc: Global,
    graph: &DeadGraph,
    labels: &[u32],
    indexes: &[u32],
    stands: &[u32],
    builder: &mut ComponentsBuilder,
) -> Result<(), ListingFault>
    requires part { IsPart graph.now.nodes graph.now.edges }
    requires labels { length labels.now ≡ length graph.now.nodes }
    requires small { All (λ l. l < length graph.now.nodes) labels.now }
    requires numbered { AreNumbered (length graph.now.nodes) labels.now indexes.now stands.now }
    requires all { length stands.now ≡ length builder.old.comps + builder.old.heavy }
    requires empty { builder.old.pairs ≡ [] }
    ensures pairs { OnOk result (AreReferencesBelow graph.now.edges labels.now indexes.now stands.now
        (length stands.now) builder.new.pairs) }
    ensures comps { builder.new.comps ≡ builder.old.comps }
    ensures heavy { builder.new.heavy ≡ builder.old.heavy }
{
    let mut marks = vec![in alloc; false; graph.nodes() as usize]?;
    let mut found = Vec::new(alloc);
    let mut outs = Vec::new(alloc);
    refer_all(
        graph, labels, indexes, stands, &mut marks, &mut found, &mut outs, builder,
    )
}

// The same with no mark and two empty lists.
fn refer_all(
    graph: &DeadGraph,
    labels: &[u32],
    indexes: &[u32],
    stands: &[u32],
    marks: &mut [bool],
    found: &mut Vec<u32>,
    outs: &mut Vec<u32>,
    builder: &mut ComponentsBuilder,
) -> Result<(), ListingFault>
    requires part { IsPart graph.now.nodes graph.now.edges }
    requires labels { length labels.now ≡ length graph.now.nodes }
    requires small { All (λ l. l < length graph.now.nodes) labels.now }
    requires numbered { AreNumbered (length graph.now.nodes) labels.now indexes.now stands.now }
    requires all { length stands.now ≡ length builder.old.comps + builder.old.heavy }
    requires empty { builder.old.pairs ≡ [] }
    requires marks { length marks.old ≡ length graph.now.nodes }
    requires clear { All (λ m. m ≡ false) marks.old }
    requires found { found.old.items ≡ [] }
    requires outs { outs.old.items ≡ [] }
    ensures pairs { OnOk result (AreReferencesBelow graph.now.edges labels.now indexes.now stands.now
        (length stands.now) builder.new.pairs) }
    ensures comps { builder.new.comps ≡ builder.old.comps }
    ensures heavy { builder.new.heavy ≡ builder.old.heavy }
{
    for i in 0..builder.len() {
        destinations(
            graph,
            labels,
            indexes,
            stands[i as usize],
            marks,
            found,
            outs,
        )?;
        builder.add_all(i, outs)?;
        outs.clear();
    }
    Ok(())
}

// Finds the indexes of the classes that the class of `x` refers to, in order, and unmarks all nodes again.
fn destinations(
    graph: &DeadGraph,
    labels: &[u32],
    indexes: &[u32],
    x: u32,
    marks: &mut [bool],
    found: &mut Vec<u32>,
    outs: &mut Vec<u32>,
) -> Result<(), AllocError>
    requires start { x < length graph.now.nodes }
    requires labels { length labels.now ≡ length graph.now.nodes }
    requires small { All (λ l. l < length indexes.now) labels.now }
    requires marks { length marks.old ≡ length graph.now.nodes }
    requires clear { All (λ m. m ≡ false) marks.old }
    requires found { found.old.items ≡ [] }
    requires outs { outs.old.items ≡ [] }
    ensures outs { OnOk result (AreDestinations graph.now.edges labels.now indexes.now x outs.new.items) }
    ensures clear { OnOk result (All (λ m. m ≡ false) marks.new) }
    ensures found { OnOk result (found.new.items ≡ []) }
{
    search(graph, labels, indexes, x, marks, found)?;
    collect(found, labels, indexes, labels[x as usize], outs)?;
    outs.sort_unstable();
    outs.dedup();
    clear(found, marks);
    found.clear();
    Ok(())
}

// Appends the index of the class of each node that the search doesn't go on from.
fn collect(
    found: &[u32],
    labels: &[u32],
    indexes: &[u32],
    own: u32,
    outs: &mut Vec<u32>,
) -> Result<(), AllocError>
    requires labels { All (λ y. y < length labels.now) found.now }
    requires small { All (λ l. l < length indexes.now) labels.now }
    requires outs { outs.old.items ≡ [] }
    ensures from { OnOk result (All (λ j. (y : ℕ) × Contains found.now y × (Opens labels.now indexes.now own y → ⊥)
        × (index_at labels.now indexes.now y ≡ j)) outs.new.items) }
    ensures has { OnOk result (All (λ y. (Opens labels.now indexes.now own y → ⊥)
        → Contains outs.new.items (index_at labels.now indexes.now y)) found.now) }
{
    for y in found {
        if !opens(labels, indexes, own, *y) {
            outs.push(indexes[labels[*y as usize] as usize])?;
        }
    }
    Ok(())
}
