// How many components lead into each class, counted as far as it matters.
//
// A class without an index that leads to fewer than three components is never heavy, and nothing is counted for it.
// What leads into any other leads to three components or more itself. So the classes that lead to so many are gone
// through the other way, each after all that lead into it: one with an index hands on itself along its edges, and one
// without an index the set of what came to it. A set of twenty or more takes nothing more, so at most 38 elements are
// read for an edge.

ghost use Rattle.std.specs.Prelude.{◌≡◌, ◌-◌, ◌≢◌, ◌↔◌, ◌⊎◌, ℕ, ◌+◌, ◌<◌, ◌≤◌, [], ◌∷◌, length, min, All, Contains};
ghost use Rattle.std.specs.Prelude.{IfOk};
ghost use Rattle.std.specs.Prelude.{OnOk, MatchBool, false, slice_index, slice_set};
ghost use Rattle.bridge_graph.specs.Parts.{IsPart, row_at};
ghost use Rattle.component_pass.specs.Classes.{AreClasses, AreInOrder};
ghost use Rattle.component_pass.specs.Counting.{AreLed, CountsIn, CountsOut, Joins, Pushes, cap};
ghost use Rattle.component_pass.specs.Gathering.{AreSets, set_at};
ghost use Rattle.component_pass.specs.Sharing.{AreNumbered, IsFound};

use crate::counting::{MANY, size_of};
use crate::gathering::{MOST_SETS, unite};
use crate::listing::NO_COMPONENT;
use crate::lists::Lists;
use crate::sharing::same_set;
use crate::tarjan::StrongClasses;
use bridge_graph::DeadGraph;
use std::alloc::Global;
use xref_list::ListingFault;

/// The least count on either side of a heavy class.
pub(crate) const LEAST: u8 = 3;

// What sets are joined with: their union, and a mark for each component. Between two joins no mark is on.
#[derive(Drop)]
struct Joining {
    union: Vec<u32>,
    marks: Vec<bool>,
}

/// For each class without an index that leads to three components or more how many components walks through such
/// classes lead to it from, where 20 says that there are at least so many.
pub(crate) fn count_leading(
    alloc: Global,
    graph: &DeadGraph,
    found: &StrongClasses,
    indexes: &[u32],
    counts: &[u8],
    count: u32,
) -> Result<Vec<u32>, ListingFault>
    requires classes { AreClasses graph.now.edges (length graph.now.nodes) found.now.labels.items }
    requires order { AreInOrder graph.now.edges (length graph.now.nodes) found.now.labels.items found.now.rows }
    requires indexes { length indexes.now ≡ length found.now.rows }
    requires numbered { AreNumbered (length graph.now.nodes) found.now.labels.items
        (length found.now.rows) indexes.now count }
    requires count { count ≤ u32.MAX - 1 }
    requires part { IsPart graph.now.nodes graph.now.edges }
    requires len { length counts.now ≡ length found.now.rows }
    requires counts { CountsOut graph.now.edges
        (length graph.now.nodes) found.now.labels.items indexes.now (length found.now.rows) counts.now }
    ensures len { IfOk result (λ v. length v.items ≡ length found.now.rows) }
    ensures counts { IfOk result (λ v. CountsIn graph.now.edges
        (length graph.now.nodes) found.now.labels.items indexes.now counts.now v.items) }
{
    let mut ins = vec![in alloc; count; found.rows.len()]?;
    lead(alloc, graph, found, indexes, counts, count, &mut ins)?;
    Ok(ins)
}

// The same, where each class still has the number of the empty set.
fn lead(
    alloc: Global,
    graph: &DeadGraph,
    found: &StrongClasses,
    indexes: &[u32],
    counts: &[u8],
    count: u32,
    ins: &mut [u32],
) -> Result<(), ListingFault>
    requires classes { AreClasses graph.now.edges (length graph.now.nodes) found.now.labels.items }
    requires order { AreInOrder graph.now.edges (length graph.now.nodes) found.now.labels.items found.now.rows }
    requires indexes { length indexes.now ≡ length found.now.rows }
    requires numbered { AreNumbered (length graph.now.nodes) found.now.labels.items
        (length found.now.rows) indexes.now count }
    requires count { count ≤ u32.MAX - 1 }
    requires part { IsPart graph.now.nodes graph.now.edges }
    requires len { length counts.now ≡ length found.now.rows }
    requires counts { CountsOut graph.now.edges
        (length graph.now.nodes) found.now.labels.items indexes.now (length found.now.rows) counts.now }
    requires ins { length ins.old ≡ length found.now.rows }
    requires empty { All (λ s. s ≡ count) ins.old }
    ensures len { length ins.new ≡ length ins.old }
    ensures counts { OnOk result (CountsIn graph.now.edges
        (length graph.now.nodes) found.now.labels.items indexes.now counts.now ins.new) }
{
    let mut lists = Lists::of_empty(alloc)?;
    let mut work = Joining {
        union: Vec::new(alloc),
        marks: vec![in alloc; false; count as usize]?,
    };
    lead_all(
        graph, found, indexes, counts, count, ins, &mut lists, &mut work,
    )?;
    put_sizes(&lists, count, counts, ins);
    Ok(())
}

// Puts the size of each set in place of its number, up to twenty, at the classes that lead to three components or more.
fn put_sizes(lists: &Lists, count: u32, counts: &[u8], ins: &mut [u32])
    requires sets { All (λ s. s < count + length lists.now) ins.old }
    requires counts { length counts.now ≡ length ins.old }
    ensures len { length ins.new ≡ length ins.old }
    ensures sizes { (l : ℕ) → l < length ins.old → 3 ≤ slice_index counts.now l
        → slice_index ins.new l ≡ min (length (set_at count lists.now (slice_index ins.old l))) cap }
{
    for l in 0..ins.len() {
        if counts[l] >= LEAST {
            ins[l] = size_of(lists, count, ins[l]).min(MANY) as u32;
        }
    }
}

// Goes through the classes, with the empty set for each of them and that one alone in the list of sets.
fn lead_all(
    graph: &DeadGraph,
    found: &StrongClasses,
    indexes: &[u32],
    counts: &[u8],
    count: u32,
    ins: &mut [u32],
    lists: &mut Lists,
    work: &mut Joining,
) -> Result<(), ListingFault>
    requires classes { AreClasses graph.now.edges (length graph.now.nodes) found.now.labels.items }
    requires order { AreInOrder graph.now.edges (length graph.now.nodes) found.now.labels.items found.now.rows }
    requires indexes { length indexes.now ≡ length found.now.rows }
    requires numbered { AreNumbered (length graph.now.nodes) found.now.labels.items
        (length found.now.rows) indexes.now count }
    requires count { count ≤ u32.MAX - 1 }
    requires part { IsPart graph.now.nodes graph.now.edges }
    requires len { length counts.now ≡ length found.now.rows }
    requires counts { CountsOut graph.now.edges
        (length graph.now.nodes) found.now.labels.items indexes.now (length found.now.rows) counts.now }
    requires ins { length ins.old ≡ length found.now.rows }
    requires empty { All (λ s. s ≡ count) ins.old }
    requires lists { lists.old ≡ [] ∷ [] }
    requires marks { length work.old.marks.items ≡ count }
    requires clear { All (λ m. m ≡ false) work.old.marks.items }
    ensures { OnOk result (AreLed graph.now.edges
        (length graph.now.nodes) found.now.labels.items indexes.now counts.now cap count 0 ins.new lists.new) }
{
    let mut c = found.rows.len();
    while c > 0 {
        let own = c - 1;
        if counts[own] >= LEAST {
            let number = handed(indexes[own], ins[own]);
            lead_class(
                graph, found, indexes, counts, own, number, count, ins, lists, work,
            )?;
        }
        c = own;
    }
    Ok(())
}

// The number of the set that a class hands on to those behind it.
fn handed(index: u32, set: u32) -> u32
    ensures bare { index ≡ u32.MAX → result ≡ set }
    ensures own { index ≢ u32.MAX → result ≡ index }
{
    if index == NO_COMPONENT { set } else { index }
}

// Hands a set on along the edges of a class.
fn lead_class(
    graph: &DeadGraph,
    found: &StrongClasses,
    indexes: &[u32],
    counts: &[u8],
    own: usize,
    number: u32,
    count: u32,
    ins: &mut [u32],
    lists: &mut Lists,
    work: &mut Joining,
) -> Result<(), ListingFault>
    requires own { own < length found.now.rows }
    requires order { AreInOrder graph.now.edges (length graph.now.nodes) found.now.labels.items found.now.rows }
    requires labels { length found.now.labels.items ≡ length graph.now.nodes }
    requires indexes { length indexes.now ≡ length found.now.rows }
    requires counts { length counts.now ≡ length found.now.rows }
    requires ins { length ins.old ≡ length found.now.rows }
    requires sets { AreSets ins.old lists.old count (count + length lists.old) }
    requires number { number < count + length lists.old }
    requires count { count ≤ u32.MAX - 1 }
    requires marks { length work.old.marks.items ≡ count }
    requires clear { All (λ m. m ≡ false) work.old.marks.items }
    ensures pushes { OnOk result (Pushes found.now.labels.items indexes.now counts.now cap count own number
        (λ v. (u : ℕ) × Contains (row_at found.now.rows own) u × Contains (row_at graph.now.edges u) v)
        ins.old lists.old ins.new lists.new) }
    ensures marks { OnOk result (length work.new.marks.items ≡ count) }
    ensures clear { OnOk result (All (λ m. m ≡ false) work.new.marks.items) }
{
    let members = found.rows.row(own);
    for x in members {
        lead_row(
            graph.row(*x),
            &found.labels,
            indexes,
            counts,
            own,
            number,
            count,
            ins,
            lists,
            work,
        )?;
    }
    Ok(())
}

// Hands a set on along the edges of a node.
fn lead_row(
    row: &[u32],
    labels: &[u32],
    indexes: &[u32],
    counts: &[u8],
    own: usize,
    number: u32,
    count: u32,
    ins: &mut [u32],
    lists: &mut Lists,
    work: &mut Joining,
) -> Result<(), ListingFault>
    requires row { All (λ y. y < length labels.now) row.now }
    requires labels { All (λ l. l < length ins.old) labels.now }
    requires indexes { length indexes.now ≡ length ins.old }
    requires counts { length counts.now ≡ length ins.old }
    requires sets { AreSets ins.old lists.old count (count + length lists.old) }
    requires number { number < count + length lists.old }
    requires count { count ≤ u32.MAX - 1 }
    requires marks { length work.old.marks.items ≡ count }
    requires clear { All (λ m. m ≡ false) work.old.marks.items }
    ensures pushes { OnOk result (Pushes labels.now indexes.now counts.now cap count own number
        (Contains row.now) ins.old lists.old ins.new lists.new) }
    ensures marks { OnOk result (length work.new.marks.items ≡ count) }
    ensures clear { OnOk result (All (λ m. m ≡ false) work.new.marks.items) }
{
    for y in row {
        let at = labels[*y as usize] as usize;
        if takes(indexes[at], counts[at], at, own) {
            ins[at] = join(ins, at, number, count, lists, work)?;
        }
    }
    Ok(())
}

// Whether a class takes what another hands on: it is not that one, has no index and leads to three components or more.
fn takes(index: u32, leads_to: u8, at: usize, own: usize) -> bool
    ensures { MatchBool result ((at ≢ own) × (index ≡ u32.MAX) × (3 ≤ leads_to))
        (¬ ((at ≢ own) × (index ≡ u32.MAX) × (3 ≤ leads_to))) }
{
    at != own && leads_to >= LEAST && index == NO_COMPONENT
}

// The number of the union of a class's set and one more; or of one of them, where that has twenty components or all.
fn join(
    ins: &[u32],
    at: usize,
    number: u32,
    count: u32,
    lists: &mut Lists,
    work: &mut Joining,
) -> Result<u32, ListingFault>
    requires at { at < length ins.now }
    requires number { number < count + length lists.old }
    requires sets { AreSets ins.now lists.old count (count + length lists.old) }
    requires count { count ≤ u32.MAX - 1 }
    requires marks { length work.old.marks.items ≡ count }
    requires clear { All (λ m. m ≡ false) work.old.marks.items }
    ensures found { IfOk result (λ s. IsFound ins.now lists.old lists.new count (count + length lists.new) s) }
    ensures joins { IfOk result (λ s. Joins cap (set_at count lists.old (slice_index ins.now at))
        (set_at count lists.old number) (set_at count lists.new s)) }
    ensures marks { OnOk result (length work.new.marks.items ≡ count) }
    ensures clear { OnOk result (All (λ m. m ≡ false) work.new.marks.items) }
{
    let one = ins[at];
    if number == count || size_of(lists, count, one) >= MANY {
        return Ok(one);
    }
    if one == count || size_of(lists, count, number) >= MANY {
        return Ok(number);
    }
    join_both(ins, one, number, count, lists, work)
}

// The number of the union of two sets, of which it may be one.
fn join_both(
    ins: &[u32],
    one: u32,
    other: u32,
    count: u32,
    lists: &mut Lists,
    work: &mut Joining,
) -> Result<u32, ListingFault>
    requires one { one < count + length lists.old }
    requires other { other < count + length lists.old }
    requires sets { AreSets ins.now lists.old count (count + length lists.old) }
    requires count { count ≤ u32.MAX - 1 }
    requires marks { length work.old.marks.items ≡ count }
    requires clear { All (λ m. m ≡ false) work.old.marks.items }
    ensures found { IfOk result (λ s. IsFound ins.now lists.old lists.new count (count + length lists.new) s) }
    ensures exact { IfOk result (λ s. (j : ℕ) → Contains (set_at count lists.new s) j
        ↔ (Contains (set_at count lists.old one) j ⊎ Contains (set_at count lists.old other) j)) }
    ensures marks { OnOk result (length work.new.marks.items ≡ count) }
    ensures clear { OnOk result (All (λ m. m ≡ false) work.new.marks.items) }
{
    let pair = [one, other];
    work.union.clear();
    unite(lists, count, &pair, &mut work.marks, &mut work.union)?;
    if let Some(number) = same_set(lists, count, &pair, &work.union) {
        return Ok(number);
    }
    if lists.len() >= MOST_SETS - count as usize {
        return Err(ListingFault::TooMany);
    }
    let number = count + lists.len() as u32;
    lists.push(&work.union)?;
    Ok(number)
}
