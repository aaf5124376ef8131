// Which classes without a bridge node are heavy, and which are thin.
//
// A class is heavy where at least three components lead in, at least three are led to, and the product of the two
// counts is at least 60. Heavy classes are reported as components without members, behind the others, by their least
// nodes, and get an index of their own there.
//
// A class that leads to three components or more, isn't heavy and that fewer than three components lead into is thin.
// Nothing that is promised rests on it: it says where a set of what is led to would be longer than it is worth. What
// leads into a thin class are two components at most, so these go through it themselves; and no heavy class, since the
// three or more that lead into that one would lead on.

ghost use Rattle.std.specs.Prelude.{◌≡◌, ◌-◌, ◌↔◌, ◌≤◌, ◌<◌, ◌+◌, ◌*◌, ℕ, List, length, IfOk, OnOk, IfSome, IfNone};
ghost use Rattle.std.specs.Prelude.{IsTrue};
ghost use Rattle.std.specs.Prelude.{MatchBool, All, slice_index, false};
ghost use Rattle.joint_machine.specs.Components.{IsHeavy, LeadsIn, Rises};
ghost use Rattle.bridge_graph.specs.Parts.{IsBridgeNode, IsPart, NodeLeads};
ghost use Rattle.component_pass.specs.Classes.{AreClasses, AreInOrder};
ghost use Rattle.component_pass.specs.Counting.{CountsIn, CountsOut};
ghost use Rattle.component_pass.specs.Reporting.{AreHeavyBelow, AreLight, AreMany};
ghost use Rattle.component_pass.specs.Sharing.{AreNumbered, AreThin};

use crate::leading::{LEAST, count_leading};
use crate::listing::NO_COMPONENT;
use crate::tarjan::StrongClasses;
use bridge_graph::DeadGraph;
use std::alloc::{AllocError, Global};
use xref_list::{ComponentsBuilder, ListingFault};

// The least product of the counts of a heavy class.
const PRODUCT: u64 = 60;

/// For each class that may be heavy how many components lead into it; None where none is heavy and that is all that is
/// asked for.
pub(crate) fn count_heavy(
    alloc: Global,
    graph: &DeadGraph,
    found: &StrongClasses,
    indexes: &[u32],
    counts: &[u8],
    count: u32,
    in_any_case: bool,
) -> Result<Option<Vec<u32>>, ListingFault>
    requires classes { AreClasses graph.now.edges (length graph.now.nodes) found.now.labels.items }
    requires order { AreInOrder graph.now.edges (length graph.now.nodes) found.now.labels.items found.now.rows }
    requires indexes { length indexes.now ≡ length found.now.rows }
    requires numbered { AreNumbered (length graph.now.nodes) found.now.labels.items
        (length found.now.rows) indexes.now count }
    requires count { count ≤ u32.MAX - 1 }
    requires part { IsPart graph.now.nodes graph.now.edges }
    requires len { length counts.now ≡ length found.now.rows }
    requires counts { CountsOut graph.now.edges
        (length graph.now.nodes) found.now.labels.items indexes.now (length found.now.rows) counts.now }
    ensures len { IfOk result (λ r. IfSome r (λ v. length v.items ≡ length found.now.rows)) }
    ensures counts { IfOk result (λ r. IfSome r
        (λ v. CountsIn graph.now.edges (length graph.now.nodes)
        found.now.labels.items indexes.now counts.now v.items)) }
    ensures none { IfOk result (λ r. IfNone r ((ins : List ℕ) × AreLight indexes.now counts.now ins
        × CountsIn graph.now.edges (length graph.now.nodes) found.now.labels.items indexes.now counts.now ins)) }
    ensures asked { IfOk result (λ r. IfNone r (in_any_case ≡ false)) }
{
    if !in_any_case && !has_wide(indexes, counts) {
        return Ok(None);
    }
    let ins = count_leading(alloc, graph, found, indexes, counts, count)?;
    if !in_any_case && !has_heavy(indexes, counts, &ins) {
        return Ok(None);
    }
    Ok(Some(ins))
}

// Whether some class without an index leads to at least three components.
fn has_wide(indexes: &[u32], counts: &[u8]) -> bool
    requires { length counts.now ≡ length indexes.now }
    ensures { result ≡ false → (l : ℕ) → l < length indexes.now
        → slice_index indexes.now l ≡ u32.MAX → slice_index counts.now l < 3 }
{
    for l in 0..indexes.len() {
        if counts[l] >= LEAST && indexes[l] == NO_COMPONENT {
            return true;
        }
    }
    false
}

// Whether some class without an index has many components on either side.
fn has_heavy(indexes: &[u32], outs: &[u8], ins: &[u32]) -> bool
    requires outs { length outs.now ≡ length indexes.now }
    requires ins { length ins.now ≡ length indexes.now }
    ensures { result ≡ false → AreLight indexes.now outs.now ins.now }
{
    for l in 0..indexes.len() {
        if is_heavy(indexes[l], ins[l], outs[l]) {
            return true;
        }
    }
    false
}

/// Lists the classes without an index that have many on either side, by their least nodes: going through the nodes in
/// order, a class is listed at the first of its nodes, and its index is written down at its label.
pub(crate) fn number_heavy(
    labels: &[u32],
    outs: &[u8],
    ins: &[u32],
    indexes: &mut [u32],
    builder: &mut ComponentsBuilder,
) -> Result<(), AllocError>
    requires labels { All (λ l. l < length indexes.old) labels.now }
    requires outs { length outs.now ≡ length indexes.old }
    requires ins { length ins.now ≡ length indexes.old }
    requires none { builder.old.heavy ≡ 0 }
    requires room { (heavy : List ℕ) → Rises heavy
        → All (λ h. (h < length labels.now) × (slice_index indexes.old (slice_index labels.now h) ≡ u32.MAX)) heavy
        → length builder.old.comps + length heavy ≤ u32.MAX - 1 }
    ensures heavy { OnOk result ((heavy : List ℕ) × (length heavy ≡ builder.new.heavy)
        × AreHeavyBelow labels.now indexes.old outs.now ins.now
        (length builder.old.comps) (length labels.now) indexes.new heavy) }
    ensures comps { builder.new.comps ≡ builder.old.comps }
    ensures pairs { builder.new.pairs ≡ builder.old.pairs }
{
    for x in 0..labels.len() {
        let own = labels[x] as usize;
        if is_heavy(indexes[own], ins[own], outs[own]) {
            indexes[own] = builder.bridgeless()?;
        }
    }
    Ok(())
}

/// Writes down for each node whether its class is thin.
pub(crate) fn mark_thin(
    labels: &[u32],
    outs: &[u8],
    ins: &[u32],
    indexes: &[u32],
    thin: &mut [bool],
)
    requires labels { All (λ l. l < length indexes.now) labels.now }
    requires outs { length outs.now ≡ length indexes.now }
    requires ins { length ins.now ≡ length indexes.now }
    requires thin { length thin.old ≡ length labels.now }
    ensures { AreThin (length labels.now) labels.now indexes.now thin.new }
{
    for x in 0..labels.len() {
        let own = labels[x] as usize;
        thin[x] = is_narrow(indexes[own], outs[own], ins[own]);
    }
}

// Whether a class with that index and so many components on either side is thin.
fn is_narrow(index: u32, outs: u8, ins: u32) -> bool
    ensures { IsTrue result ↔ ((index ≡ u32.MAX) × (3 ≤ outs) × (ins < 3)) }
{
    index == NO_COMPONENT && outs >= LEAST && ins < u32::from(LEAST)
}

// Whether a class with that index and so many components on either side is heavy.
fn is_heavy(index: u32, ins: u32, outs: u8) -> bool
    ensures { MatchBool result ((index ≡ u32.MAX) × AreMany ins outs) (¬ ((index ≡ u32.MAX) × AreMany ins outs)) }
{
    outs >= LEAST
        && ins >= u32::from(LEAST)
        && index == NO_COMPONENT
        && u64::from(ins) * u64::from(outs) >= PRODUCT
}
