// The cross-references of each component and each heavy class, from sets of indexes that classes share.
//
// The classes are gone through in the order in which they were completed, so that edges lead only to nodes of the class
// itself, whose sets are still empty, and to those whose sets are there. What a class refers to is the union of the
// sets that its edges lead to: where that is one of them, as along a chain, it shares it, and nothing is copied. A
// class without an index hands that on. One with an index, be it a component's or a heavy class's, hands on itself
// alone, and the union is its references, which are listed in the end.
//
// A thin class has at most two components that lead into it, and at most these go through it. A class that isn't thin
// and has no index leads to fewer than twenty components, so its set is small but for heavy ones. So the time is that
// of nodes, edges and pairs, and of one more thing: where a class leads to several sets of many heavy ones, the
// elements of each are read once for that class.

ghost use Rattle.std.specs.Prelude.{◌≡◌, ◌-◌, ◌≢◌, ◌↔◌, ◌⊎◌, ℕ, ◌+◌, ◌<◌, ◌≤◌, [], ◌∷◌, ◌++◌, length, All, Contains};
ghost use Rattle.std.specs.Prelude.{IfOk};
ghost use Rattle.std.specs.Prelude.{OnOk, IfSome, MatchBool, false, true, slice_index, slice_index_or, slice_set};
ghost use Rattle.joint_machine.specs.Components.{Rises};
ghost use Rattle.bridge_graph.specs.Parts.{IsPart, row_at};
ghost use Rattle.component_pass.specs.Classes.{AreClasses, AreInOrder};
ghost use Rattle.component_pass.specs.Gathering.{AreSets, Gathers, HasNoMarks, set_at};
ghost use Rattle.component_pass.specs.Sharing.{AreListedBelow, AreNumbered, AreReferences, AreReferred, AreThin};
ghost use Rattle.component_pass.specs.Sharing.{GathersNear, IsFound, IsNear, VisitsThin};

use crate::gathering::{MOST_SETS, Work, gather, new_work, set_of};
use crate::listing::NO_COMPONENT;
use crate::lists::Lists;
use bridge_graph::DeadGraph;
use std::alloc::{AllocError, Global};
use xref_list::{ComponentsBuilder, ListingFault};

/// Lists the cross-references of all that is reported. The labels are spent: each node's set takes the place of its
/// class's number.
pub(crate) fn share_references(
    alloc: Global,
    graph: &DeadGraph,
    labels: &mut [u32],
    rows: &Lists,
    indexes: &[u32],
    thin: &[bool],
    builder: &mut ComponentsBuilder,
) -> Result<(), ListingFault>
    requires classes { AreClasses graph.now.edges (length graph.now.nodes) labels.old }
    requires order { AreInOrder graph.now.edges (length graph.now.nodes) labels.old rows.now }
    requires indexes { length indexes.now ≡ length rows.now }
    requires thin { AreThin (length graph.now.nodes) labels.old indexes.now thin.now }
    requires numbered { AreNumbered (length graph.now.nodes) labels.old
        (length rows.now) indexes.now (length builder.old.comps + builder.old.heavy) }
    requires part { IsPart graph.now.nodes graph.now.edges }
    requires empty { builder.old.pairs ≡ [] }
    ensures pairs { OnOk result (AreReferences graph.now.edges (length graph.now.nodes) labels.old indexes.now
        (length builder.old.comps + builder.old.heavy) builder.new.pairs) }
    ensures comps { builder.new.comps ≡ builder.old.comps }
    ensures heavy { builder.new.heavy ≡ builder.old.heavy }
{
    let count = builder.len();
    let mut lists = Lists::of_empty(alloc)?;
    let mut refs = vec![in alloc; count; count as usize]?;
    find_sets(
        alloc, graph, labels, rows, indexes, thin, count, &mut refs, &mut lists,
    )?;
    list_sets(count, &refs, &lists, builder)
}

// Finds the sets of all nodes, with lists to work with that are let go before the references are listed.
fn find_sets(
    alloc: Global,
    graph: &DeadGraph,
    sets: &mut [u32],
    rows: &Lists,
    indexes: &[u32],
    thin: &[bool],
    count: u32,
    refs: &mut [u32],
    lists: &mut Lists,
) -> Result<(), ListingFault>
    requires classes { AreClasses graph.now.edges (length graph.now.nodes) sets.old }
    requires order { AreInOrder graph.now.edges (length graph.now.nodes) sets.old rows.now }
    requires indexes { length indexes.now ≡ length rows.now }
    requires thin { AreThin (length graph.now.nodes) sets.old indexes.now thin.now }
    requires numbered { AreNumbered (length graph.now.nodes) sets.old (length rows.now) indexes.now count }
    requires count { count ≤ u32.MAX - 1 }
    requires part { IsPart graph.now.nodes graph.now.edges }
    requires refs { length refs.old ≡ count }
    requires lists { lists.old ≡ [] ∷ [] }
    ensures referred { OnOk result (AreReferred (length graph.now.nodes) graph.now.edges sets.old indexes.now count
        (length rows.now) (count + length lists.new) refs.new lists.new) }
    ensures rising { OnOk result (All Rises lists.new) }
{
    let mut work = new_work(alloc, count)?;
    let mut near = Vec::new(alloc);
    let mut marks = vec![in alloc; false; graph.nodes() as usize]?;
    number_all(
        graph, sets, rows, indexes, thin, count, refs, lists, &mut work, &mut near, &mut marks,
    )
}

/// Lists the pairs from each index to the components of the set whose number is kept for it.
pub(crate) fn list_sets(
    count: u32,
    refs: &[u32],
    lists: &Lists,
    builder: &mut ComponentsBuilder,
) -> Result<(), ListingFault>
    requires count { count ≡ length builder.old.comps + builder.old.heavy }
    requires refs { length refs.now ≡ count }
    requires known { (i : ℕ) → i < count → slice_index refs.now i < count + length lists.now }
    requires rises { (i : ℕ) → i < count → Rises (set_at count lists.now (slice_index refs.now i)) }
    requires below { (i : ℕ) → i < count → All (λ d. d < count) (set_at count lists.now (slice_index refs.now i)) }
    requires apart { (i : ℕ) → i < count → All (λ d. i ≢ d) (set_at count lists.now (slice_index refs.now i)) }
    requires empty { builder.old.pairs ≡ [] }
    ensures pairs { OnOk result (AreListedBelow
        (λ i. set_at count lists.now (slice_index refs.now i)) count builder.new.pairs) }
    ensures comps { builder.new.comps ≡ builder.old.comps }
    ensures heavy { builder.new.heavy ≡ builder.old.heavy }
{
    for i in 0..count {
        builder.add_all(i, set_of(lists, count, refs, i as usize))?;
    }
    Ok(())
}

// Finds the sets of all nodes, and for each class with an index the number of the set of those that it refers to. What
// comes as the numbers of the nodes' classes leaves as the numbers of their sets. A thin class keeps the empty set.
fn number_all(
    graph: &DeadGraph,
    sets: &mut [u32],
    rows: &Lists,
    indexes: &[u32],
    thin: &[bool],
    count: u32,
    refs: &mut [u32],
    lists: &mut Lists,
    work: &mut Work,
    near: &mut Vec<u32>,
    marks: &mut [bool],
) -> Result<(), ListingFault>
    requires classes { AreClasses graph.now.edges (length graph.now.nodes) sets.old }
    requires order { AreInOrder graph.now.edges (length graph.now.nodes) sets.old rows.now }
    requires indexes { length indexes.now ≡ length rows.now }
    requires thin { AreThin (length graph.now.nodes) sets.old indexes.now thin.now }
    requires numbered { AreNumbered (length graph.now.nodes) sets.old (length rows.now) indexes.now count }
    requires count { count ≤ u32.MAX - 1 }
    requires part { IsPart graph.now.nodes graph.now.edges }
    requires refs { length refs.old ≡ count }
    requires lists { lists.old ≡ [] ∷ [] }
    requires known { length work.old.known.items ≡ count + 1 }
    requires work_marks { length work.old.marks.items ≡ count }
    requires clear { HasNoMarks work.old }
    requires marks { length marks.old ≡ length graph.now.nodes }
    requires unmarked { All (λ m. m ≡ false) marks.old }
    ensures referred { OnOk result (AreReferred (length graph.now.nodes) graph.now.edges sets.old indexes.now count
        (length rows.now) (count + length lists.new) refs.new lists.new) }
    ensures rising { OnOk result (All Rises lists.new) }
{
    sets.fill(count);
    for c in 0..rows.len() {
        let class = rows.row(c);
        if indexes[c] != NO_COMPONENT {
            refs[indexes[c] as usize] = share_through(
                graph, class, thin, sets, count, lists, work, near, marks,
            )?;
            put(class, indexes[c], sets);
        } else if !is_thin(class, thin) {
            let found = share_through(graph, class, thin, sets, count, lists, work, near, marks)?;
            put(class, found, sets);
        }
    }
    Ok(())
}

// Whether a class has a first node and that is thin. All nodes of a class are thin, or none.
fn is_thin(class: &[u32], thin: &[bool]) -> bool
    requires { All (λ x. x < length thin.now) class.now }
    ensures { MatchBool result ((0 < length class.now)
        × (slice_index_or thin.now (slice_index class.now 0) false ≡ true))
        (¬ ((0 < length class.now) × (slice_index_or thin.now (slice_index class.now 0) false ≡ true))) }
{
    class.len() > 0 && thin[class[0] as usize]
}

// The same as `share`, for the members and the thin nodes that they come to through such nodes.
fn share_through(
    graph: &DeadGraph,
    members: &[u32],
    thin: &[bool],
    sets: &[u32],
    count: u32,
    lists: &mut Lists,
    work: &mut Work,
    near: &mut Vec<u32>,
    marks: &mut [bool],
) -> Result<u32, ListingFault>
    requires members { All (λ x. x < length graph.now.nodes) members.now }
    requires whole { length sets.now ≡ length graph.now.nodes }
    requires thin { length thin.now ≡ length graph.now.nodes }
    requires part { IsPart graph.now.nodes graph.now.edges }
    requires sets { AreSets sets.now lists.old count (length work.old.known.items) }
    requires count { length work.old.marks.items ≡ count }
    requires clear { HasNoMarks work.old }
    requires marks { length marks.old ≡ length graph.now.nodes }
    requires unmarked { All (λ m. m ≡ false) marks.old }
    ensures found { IfOk result (λ s. IsFound sets.now lists.old lists.new count (length work.new.known.items) s) }
    ensures exact { IfOk result (λ s. (j : ℕ) → Contains (set_at count lists.new s) j
        ↔ GathersNear graph.now.edges thin.now sets.now lists.old count members.now j) }
    ensures marks { OnOk result (length work.new.marks.items ≡ count) }
    ensures clear { OnOk result (HasNoMarks work.new) }
    ensures unmarked { OnOk result (All (λ m. m ≡ false) marks.new) }
    ensures size { length marks.new ≡ length marks.old }
{
    if !lead_to_thin(graph, members, thin) {
        return share(graph, members, sets, count, lists, work);
    }
    near.clear();
    near.extend_from_slice(members)?;
    reach_thin(graph, thin, near, marks)?;
    share(graph, near, sets, count, lists, work)
}

// Whether an edge leads from a member to a thin node.
#[inline(always)]
fn lead_to_thin(graph: &DeadGraph, members: &[u32], thin: &[bool]) -> bool
    requires members { All (λ x. x < length graph.now.nodes) members.now }
    requires thin { length thin.now ≡ length graph.now.nodes }
    ensures { result ≡ false → All (λ x. All (λ y. slice_index_or thin.now y false ≡ false) (row_at graph.now.edges x))
        members.now }
{
    for x in members {
        if has_thin(graph.row(*x), thin) {
            return true;
        }
    }
    false
}

// Whether a thin node stands in the row.
#[inline(always)]
fn has_thin(row: &[u32], thin: &[bool]) -> bool
    requires { All (λ y. y < length thin.now) row.now }
    ensures { result ≡ false → All (λ y. slice_index_or thin.now y false ≡ false) row.now }
{
    for y in row {
        if thin[*y as usize] {
            return true;
        }
    }
    false
}

// Lists the thin nodes too that are reached from those in the list through thin nodes. No mark is left on.
fn reach_thin(
    graph: &DeadGraph,
    thin: &[bool],
    near: &mut Vec<u32>,
    marks: &mut [bool],
) -> Result<(), AllocError>
    requires below { All (λ x. x < length graph.now.nodes) near.old.items }
    requires thin { length thin.now ≡ length graph.now.nodes }
    requires marks { length marks.old ≡ length graph.now.nodes }
    requires unmarked { All (λ m. m ≡ false) marks.old }
    ensures exact { OnOk result ((x : ℕ) → Contains near.new.items x
        ↔ IsNear graph.now.edges thin.now near.old.items x) }
    ensures below { OnOk result (All (λ x. x < length graph.now.nodes) near.new.items) }
    ensures unmarked { OnOk result (All (λ m. m ≡ false) marks.new) }
{
    let mut at = 0;
    while at < near.len() {
        visit_thin(graph.row(near[at]), thin, near, marks)?;
        at += 1;
    }
    unmark(near, marks);
    Ok(())
}

// Lists and marks the thin nodes of a row that aren't marked yet.
fn visit_thin(
    row: &[u32],
    thin: &[bool],
    near: &mut Vec<u32>,
    marks: &mut [bool],
) -> Result<(), AllocError>
    requires in_range { All (λ y. y < length marks.old) row.now }
    requires thin { length thin.now ≡ length marks.old }
    requires listed { (y : ℕ) → slice_index_or marks.old y false ≡ true → Contains near.old.items y }
    ensures listed { OnOk result ((y : ℕ) → slice_index_or marks.new y false ≡ true → Contains near.new.items y) }
    ensures visits { OnOk result (VisitsThin row.now thin.now near.old.items marks.old near.new.items marks.new) }
{
    for y in row {
        if thin[*y as usize] && !marks[*y as usize] {
            marks[*y as usize] = true;
            near.push(*y)?;
        }
    }
    Ok(())
}

// Takes the marks away from the nodes in the list, which has all that are marked.
fn unmark(near: &[u32], marks: &mut [bool])
    requires below { All (λ x. x < length marks.old) near.now }
    requires listed { (y : ℕ) → slice_index_or marks.old y false ≡ true → Contains near.now y }
    ensures { All (λ m. m ≡ false) marks.new }
{
    for x in near {
        marks[*x as usize] = false;
    }
}

/// Puts down the number of the set of each node of a class.
pub(crate) fn put(class: &[u32], number: u32, sets: &mut [u32])
    requires { All (λ x. x < length sets.old) class.now }
    ensures taken { All (λ x. slice_index sets.new x ≡ number) class.now }
    ensures others { (x : ℕ) → (Contains class.now x → ⊥) → slice_index sets.new x ≡ slice_index sets.old x }
{
    for x in class {
        sets[*x as usize] = number;
    }
}

/// The number of the union of the sets that edges from the members lead to: of one of these, where that has
/// all of it, or a new one. Answers `TooMany` where there are too many sets to number one more.
#[inline(always)]
pub(crate) fn share(
    graph: &DeadGraph,
    members: &[u32],
    sets: &[u32],
    count: u32,
    lists: &mut Lists,
    work: &mut Work,
) -> Result<u32, ListingFault>
    requires members { All (λ x. x < length graph.now.nodes) members.now }
    requires whole { length sets.now ≡ length graph.now.nodes }
    requires part { IsPart graph.now.nodes graph.now.edges }
    requires sets { AreSets sets.now lists.old count (length work.old.known.items) }
    requires count { length work.old.marks.items ≡ count }
    requires clear { HasNoMarks work.old }
    ensures found { IfOk result (λ s. IsFound sets.now lists.old lists.new count (length work.new.known.items) s) }
    ensures exact { IfOk result (λ s. (j : ℕ) → Contains (set_at count lists.new s) j
        ↔ Gathers graph.now.edges sets.now lists.old count members.now j) }
    ensures marks { OnOk result (length work.new.marks.items ≡ count) }
    ensures clear { OnOk result (HasNoMarks work.new) }
{
    if let Some(number) = gather(graph, members, sets, lists, count, work)? {
        return Ok(number);
    }
    if let Some(number) = same_set(lists, count, &work.numbers, &work.union) {
        return Ok(number);
    }
    if lists.len() >= MOST_SETS - count as usize {
        return Err(ListingFault::TooMany);
    }
    let number = count + lists.len() as u32;
    work.known.push(false)?;
    lists.push(&work.union)?;
    Ok(number)
}

/// The number of the set that has exactly those components, if it is among the numbers.
pub(crate) fn same_set(lists: &Lists, count: u32, numbers: &[u32], union: &[u32]) -> Option<u32>
    requires { All (λ s. s < count + length lists.now) numbers.now }
    ensures { IfSome result (λ s. (s < count + length lists.now) × (set_at count lists.now s ≡ union.now)) }
{
    for k in 0..numbers.len() {
        if set_of(lists, count, numbers, k) == union {
            return Some(numbers[k]);
        }
    }
    None
}
