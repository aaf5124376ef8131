// The search that is made from one node, through its own class and through classes without an index.

ghost use Rattle.std.specs.Prelude.{◌≡◌, ℕ, ◌<◌, [], length, All, OnOk, false, MatchBool, slice_index};
ghost use Rattle.compare_pass.specs.Searching.{Opens, Goes, AreMarked, Visits, FindsReached};

use bridge_graph::DeadGraph;
use std::alloc::AllocError;

/// Stands at the label of a class in place of an index, where it has none.
pub(crate) const NO_INDEX: u32 = u32::MAX;

/// Lists and marks exactly the nodes that walks from `start` reach whose nodes before the last are of its class or of
/// classes without an index.
pub(crate) fn search(
    graph: &DeadGraph,
    labels: &[u32],
    indexes: &[u32],
    start: u32,
    marks: &mut [bool],
    found: &mut Vec<u32>,
) -> Result<(), AllocError>
    requires start { start < length graph.now.nodes }
    requires labels { length labels.now ≡ length graph.now.nodes }
    requires small { All (λ l. l < length indexes.now) labels.now }
    requires marks { length marks.old ≡ length graph.now.nodes }
    requires clear { All (λ m. m ≡ false) marks.old }
    requires empty { found.old.items ≡ [] }
    ensures { OnOk result (FindsReached
        (Goes graph.now.edges labels.now indexes.now (slice_index labels.now start)) start marks.new found.new.items) }
{
    let own = labels[start as usize];
    marks[start as usize] = true;
    found.push(start)?;
    let mut at = 0;
    while at < found.len() {
        let x = found[at];
        if opens(labels, indexes, own, x) {
            visit(graph.row(x), marks, found)?;
        }
        at += 1;
    }
    Ok(())
}

/// Whether the search of a class goes on from `x`.
pub(crate) fn opens(labels: &[u32], indexes: &[u32], own: u32, x: u32) -> bool
    requires labels { x < length labels.now }
    requires indexes { slice_index labels.now x < length indexes.now }
    ensures { MatchBool result (Opens labels.now indexes.now own x) (¬ Opens labels.now indexes.now own x) }
{
    let label = labels[x as usize];
    label == own || indexes[label as usize] == NO_INDEX
}

/// Lists and marks the nodes of a row that are not marked yet.
fn visit(row: &[u32], marks: &mut [bool], found: &mut Vec<u32>) -> Result<(), AllocError>
    requires in_range { All (λ y. y < length marks.old) row.now }
    requires marking { AreMarked marks.old found.old.items }
    ensures marking { OnOk result (AreMarked marks.new found.new.items) }
    ensures visits { OnOk result (Visits row.now found.old.items found.new.items) }
{
    for y in row {
        if !marks[*y as usize] {
            marks[*y as usize] = true;
            found.push(*y)?;
        }
    }
    Ok(())
}

/// Unmarks the nodes that were found.
pub(crate) fn clear(found: &[u32], marks: &mut [bool])
    requires { AreMarked marks.old found.now }
    ensures { All (λ m. m ≡ false) marks.new }
{
    for y in found {
        marks[*y as usize] = false;
    }
}
