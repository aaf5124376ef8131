// How many components the edges of each class lead to, counted as far as it matters, and which they are.
//
// The sets of components are found and shared as those of the references are. Where there are no large sets, or few,
// that is all: what each component refers to is known, and the sets have the classes' counts. But unions of large sets
// may be made again and again. So the elements of the unions are counted, at most 32 for each node in all (and not what
// is read for them, which is more where sets are alike), and once these are spent a class that leads to a set of twenty
// components or more takes that set for its own and looks at no other. From then on each edge has at most nineteen
// elements read, and a set of fewer than twenty is exact.

ghost use Rattle.std.specs.Prelude.{◌≡◌, ◌-◌, ◌≢◌, ◌↔◌, ◌⊎◌, ℕ, ◌+◌, ◌<◌, ◌≤◌, [], ◌∷◌, length, min, All, Contains};
ghost use Rattle.std.specs.Prelude.{IfOk};
ghost use Rattle.std.specs.Prelude.{OnOk, IfSome, IfNone, true, slice_index, slice_set};
ghost use Rattle.joint_machine.specs.Components.{Rises};
ghost use Rattle.bridge_graph.specs.Parts.{IsPart};
ghost use Rattle.component_pass.specs.Classes.{AreClasses, AreInOrder};
ghost use Rattle.component_pass.specs.Counting.{CountsOut, cap};
ghost use Rattle.component_pass.specs.Gathering.{Aims, AimsFrom, AreSets, Gathers, HasNoMarks, set_at};
ghost use Rattle.component_pass.specs.Sharing.{AreNumbered, AreReferred, IsFound};

use crate::gathering::{Work, new_work};
use crate::listing::NO_COMPONENT;
use crate::lists::Lists;
use crate::sharing::{put, share};
use crate::tarjan::StrongClasses;
use bridge_graph::DeadGraph;
use std::alloc::Global;
use xref_list::ListingFault;

/// That many are not told from more: a class with at least three on its other side is heavy then, and 3 * 20 is 60.
pub(crate) const MANY: usize = 20;

// How many elements the unions may have for each node, in all.
const READS: u64 = 32;

/// What the edges of the classes lead to: for each class the number of components, where 20 says that there are at
/// least so many; and for each component the number of the set of those that it refers to, which is right where `left`
/// isn't 0.
#[derive(Drop)]
pub(crate) struct Reached {
    pub counts: Vec<u8>,
    pub refs: Vec<u32>,
    pub lists: Lists,
    pub left: u64,
}

/// Finds what the edges of each class lead to through classes without an index.
pub(crate) fn count_reached(
    alloc: Global,
    graph: &DeadGraph,
    found: &StrongClasses,
    indexes: &[u32],
    count: u32,
) -> Result<Reached, ListingFault>
    requires classes { AreClasses graph.now.edges (length graph.now.nodes) found.now.labels.items }
    requires order { AreInOrder graph.now.edges (length graph.now.nodes) found.now.labels.items found.now.rows }
    requires indexes { length indexes.now ≡ length found.now.rows }
    requires numbered { AreNumbered (length graph.now.nodes) found.now.labels.items
        (length found.now.rows) indexes.now count }
    requires count { count ≤ u32.MAX - 1 }
    requires part { IsPart graph.now.nodes graph.now.edges }
    ensures len { IfOk result (λ r. length r.counts.items ≡ length found.now.rows) }
    ensures counts { IfOk result (λ r. CountsOut graph.now.edges
        (length graph.now.nodes) found.now.labels.items indexes.now (length found.now.rows) r.counts.items) }
    ensures referred { IfOk result (λ r. 0 < r.left
        → AreReferred (length graph.now.nodes) graph.now.edges found.now.labels.items indexes.now count
        (length found.now.rows) (count + length r.lists) r.refs.items r.lists) }
    ensures rising { IfOk result (λ r. All Rises r.lists) }
{
    let mut reached = Reached {
        counts: vec![in alloc; 0u8; found.rows.len()]?,
        refs: vec![in alloc; count; count as usize]?,
        lists: Lists::of_empty(alloc)?,
        left: u64::from(graph.nodes()) * READS,
    };
    fill(alloc, graph, found, indexes, count, &mut reached)?;
    Ok(reached)
}

// The same, in what has room for the counts, and the empty set alone.
fn fill(
    alloc: Global,
    graph: &DeadGraph,
    found: &StrongClasses,
    indexes: &[u32],
    count: u32,
    reached: &mut Reached,
) -> Result<(), ListingFault>
    requires classes { AreClasses graph.now.edges (length graph.now.nodes) found.now.labels.items }
    requires order { AreInOrder graph.now.edges (length graph.now.nodes) found.now.labels.items found.now.rows }
    requires indexes { length indexes.now ≡ length found.now.rows }
    requires numbered { AreNumbered (length graph.now.nodes) found.now.labels.items
        (length found.now.rows) indexes.now count }
    requires count { count ≤ u32.MAX - 1 }
    requires part { IsPart graph.now.nodes graph.now.edges }
    requires len { length reached.old.counts.items ≡ length found.now.rows }
    requires refs { length reached.old.refs.items ≡ count }
    requires lists { reached.old.lists ≡ [] ∷ [] }
    ensures len { length reached.new.counts.items ≡ length found.now.rows }
    ensures counts { OnOk result (CountsOut graph.now.edges (length graph.now.nodes)
        found.now.labels.items indexes.now (length found.now.rows) reached.new.counts.items) }
    ensures referred { OnOk result (0 < reached.new.left
        → AreReferred (length graph.now.nodes) graph.now.edges found.now.labels.items indexes.now count
        (length found.now.rows) (count + length reached.new.lists) reached.new.refs.items reached.new.lists) }
    ensures rising { OnOk result (All Rises reached.new.lists) }
{
    let mut work = new_work(alloc, count)?;
    let mut sets = vec![in alloc; count; graph.nodes() as usize]?;
    count_all(
        graph,
        found,
        indexes,
        count,
        &mut sets,
        &mut reached.counts,
        &mut reached.refs,
        &mut reached.lists,
        &mut work,
        &mut reached.left,
    )
}

// The same with the empty set for each node, that one alone in the list of sets, and what the gathering works with.
fn count_all(
    graph: &DeadGraph,
    found: &StrongClasses,
    indexes: &[u32],
    count: u32,
    sets: &mut [u32],
    counts: &mut [u8],
    refs: &mut [u32],
    lists: &mut Lists,
    work: &mut Work,
    left: &mut u64,
) -> Result<(), ListingFault>
    requires classes { AreClasses graph.now.edges (length graph.now.nodes) found.now.labels.items }
    requires order { AreInOrder graph.now.edges (length graph.now.nodes) found.now.labels.items found.now.rows }
    requires indexes { length indexes.now ≡ length found.now.rows }
    requires numbered { AreNumbered (length graph.now.nodes) found.now.labels.items
        (length found.now.rows) indexes.now count }
    requires count { count ≤ u32.MAX - 1 }
    requires part { IsPart graph.now.nodes graph.now.edges }
    requires whole { length sets.old ≡ length graph.now.nodes }
    requires empty { All (λ s. s ≡ count) sets.old }
    requires counts { length counts.old ≡ length found.now.rows }
    requires refs { length refs.old ≡ count }
    requires lists { lists.old ≡ [] ∷ [] }
    requires known { length work.old.known.items ≡ count + 1 }
    requires marks { length work.old.marks.items ≡ count }
    requires clear { HasNoMarks work.old }
    ensures counts { OnOk result (CountsOut graph.now.edges
        (length graph.now.nodes) found.now.labels.items indexes.now (length found.now.rows) counts.new) }
    ensures referred { OnOk result (0 < left.new
        → AreReferred (length graph.now.nodes) graph.now.edges found.now.labels.items indexes.now count
        (length found.now.rows) (count + length lists.new) refs.new lists.new) }
    ensures rising { OnOk result (All Rises lists.new) }
{
    for c in 0..found.rows.len() {
        let class = found.rows.row(c);
        let number = count_in(graph, class, sets, count, lists, work, left)?;
        counts[c] = size_of(lists, count, number).min(MANY) as u8;
        put(class, handed_on(indexes[c], number, refs), sets);
    }
    Ok(())
}

// The number of the set that a class hands on: what has an index keeps the set that it refers to, and hands on itself.
fn handed_on(index: u32, number: u32, refs: &mut [u32]) -> u32
    requires { index ≢ u32.MAX → index < length refs.old }
    ensures bare { index ≡ u32.MAX → (result ≡ number) × (refs.new ≡ refs.old) }
    ensures own { index ≢ u32.MAX → (result ≡ index) × (refs.new ≡ slice_set refs.old index number) }
{
    if index == NO_COMPONENT {
        return number;
    }
    refs[index as usize] = number;
    index
}

// The number of the set of a class: the union of all that edges lead to, or once no elements are left for unions one of
// twenty or more.
#[inline(always)]
fn count_in(
    graph: &DeadGraph,
    members: &[u32],
    sets: &[u32],
    count: u32,
    lists: &mut Lists,
    work: &mut Work,
    left: &mut u64,
) -> Result<u32, ListingFault>
    requires members { All (λ x. x < length graph.now.nodes) members.now }
    requires whole { length sets.now ≡ length graph.now.nodes }
    requires part { IsPart graph.now.nodes graph.now.edges }
    requires sets { AreSets sets.now lists.old count (length work.old.known.items) }
    requires count { length work.old.marks.items ≡ count }
    requires clear { HasNoMarks work.old }
    ensures found { IfOk result (λ s. IsFound sets.now lists.old lists.new count (length work.new.known.items) s) }
    ensures exact { IfOk result (λ s. (Aims graph.now.edges sets.now members.now s
        × (cap ≤ length (set_at count lists.new s)) × (lists.new ≡ lists.old) × (left.new ≡ 0))
        ⊎ (((k : ℕ) → Aims graph.now.edges sets.now members.now k
        → (length (set_at count lists.old k) < cap) ⊎ (0 < left.old))
        × ((j : ℕ) → Contains (set_at count lists.new s) j
        ↔ Gathers graph.now.edges sets.now lists.old count members.now j))) }
    ensures marks { OnOk result (length work.new.marks.items ≡ count) }
    ensures clear { OnOk result (HasNoMarks work.new) }
    ensures left { left.new ≤ left.old }
{
    if *left == 0 {
        if let Some(number) = full_among(graph, members, sets, count, lists) {
            return Ok(number);
        }
    }
    work.union.clear();
    let number = share(graph, members, sets, count, lists, work)?;
    *left = left.saturating_sub(work.union.len() as u64);
    Ok(number)
}

// A set of twenty components or more that an edge from a member leads to.
fn full_among(
    graph: &DeadGraph,
    members: &[u32],
    sets: &[u32],
    count: u32,
    lists: &Lists,
) -> Option<u32>
    requires members { All (λ x. x < length graph.now.nodes) members.now }
    requires whole { length sets.now ≡ length graph.now.nodes }
    requires sets { All (λ s. s < count + length lists.now) sets.now }
    ensures some { IfSome result (λ s. Aims graph.now.edges sets.now members.now s
        × (cap ≤ length (set_at count lists.now s))) }
    ensures none { IfNone result ((s : ℕ) → Aims graph.now.edges sets.now members.now s
        → length (set_at count lists.now s) < cap) }
{
    for x in members {
        if let Some(number) = full_in(graph.row(*x), sets, count, lists) {
            return Some(number);
        }
    }
    None
}

// A set of twenty components or more that the row leads to.
fn full_in(row: &[u32], sets: &[u32], count: u32, lists: &Lists) -> Option<u32>
    requires in_range { All (λ y. y < length sets.now) row.now }
    requires sets { All (λ s. s < count + length lists.now) sets.now }
    ensures some { IfSome result (λ s. AimsFrom row.now sets.now s × (cap ≤ length (set_at count lists.now s))) }
    ensures none { IfNone result ((s : ℕ) → AimsFrom row.now sets.now s → length (set_at count lists.now s) < cap) }
{
    for y in row {
        let number = sets[*y as usize];
        if size_of(lists, count, number) >= MANY {
            return Some(number);
        }
    }
    None
}

/// How many components are in the set with that number.
#[inline(always)]
pub(crate) fn size_of(lists: &Lists, count: u32, number: u32) -> usize
    requires { number < count + length lists.now }
    ensures { result ≡ length (set_at count lists.now number) }
{
    if number < count {
        return 1;
    }
    lists.row((number - count) as usize).len()
}
