// Marking: which nodes of a graph are reached from some roots. The joint marking and the joint machine's program use
// this loop; the collectors of both sides mark in their rows, by `row_marking`.
//
// What the roots 1 and 4 reach in a graph that is `Walked`:
//
//     let marks = reached(alloc, &graph, &[1, 4])?;
//
// What can be walked has the trait [`Walked`]: nodes with the numbers 0, 1, 2 and so on, and for each node a list of
// places that hold a target or nothing. A caller that has no memory to spend keeps marks and a list of waiting nodes
// with room for each node, and calls [`mark_reached`]; it may go on with the marks of an earlier call. [`reached`]
// makes both itself.
//
// The loop holds a list of waiting nodes, each of them marked. It takes one from the list and marks its targets; each
// target that was not marked joins the list. So a marked node waits, or all its targets are marked, and once none waits
// the marks are closed under the edges. Each node joins the list at most once.
//
// Nobody changes the graph during a call. What is promised: marked is exactly what is reached from the roots or was
// marked before.
#![tactic(auto)]

ghost use Rattle.std.specs.Prelude.{◌≡◌, ℕ, ◌+◌, ◌*◌, ◌%◌, ◌<◌, ◌≤◌, ◌↔◌, ◌⊎◌, List, [], ◌∷◌, Option, Some, None, All};
ghost use Rattle.std.specs.Prelude.{Contains, IfOk, IfSome, length, take, slice_get, vec_capacity, vec_len};
ghost use Rattle.joint_machine.specs.Walks.{Reached};
ghost use Rattle.reachability.specs.Marks.{Leads, HasMark, IsClosed, unmarked};
ghost use Rattle.reachability.specs.Scans.{Scans};

use std::alloc::{AllocError, Global};

/// A graph that can be walked. Its nodes are the numbers below `nodes`, and `targets` has for each node the
/// places that hold a node or nothing.
pub trait Walked {
    ghost nodes: { Self → ℕ };

    ghost targets: { Self → ℕ → List (Option ℕ) };

    /// The number of nodes.
    fn len(&self) -> usize
        ensures { result ≡ nodes self.now };

    /// The number of places of node `x`.
    fn degree(&self, x: usize) -> usize
        requires { x < nodes self.now }
        ensures { result ≡ length (targets self.now x) };

    /// What place `i` of node `x` holds: a node of the graph, or nothing.
    fn target(&self, x: usize, i: usize) -> Option<u32>
        requires node { x < nodes self.now }
        requires place { i < length (targets self.now x) }
        ensures at { slice_get (targets self.now x) i ≡ Some result }
        ensures within { IfSome result (λ y. y < nodes self.now) };
}

/// Marks what is reached from `roots`, and keeps what was marked. It takes no memory: the waiting nodes
/// stand in `waiting`, which is empty before and after, and whose room stays as it is.
///
/// The marks before have to be closed under the edges, as fresh ones are and those of an earlier call.
pub fn mark_reached<G: Walked>(g: &G, roots: &[u32], marks: &mut [bool], waiting: &mut Vec<u32>)
    requires len { length marks.old ≡ G.nodes g.now }
    requires closed { IsClosed (Leads (G.nodes g.now) (G.targets g.now)) marks.old }
    requires roots { All (λ y. y < G.nodes g.now) roots.now }
    requires empty { waiting.old.items ≡ [] }
    requires room { G.nodes g.now ≤ vec_capacity waiting.old }
    ensures marks { (k : ℕ) → HasMark marks.new k
        ↔ (HasMark marks.old k ⊎ Reached (Contains roots.now) (Leads (G.nodes g.now) (G.targets g.now)) k) }
    ensures closed { IsClosed (Leads (G.nodes g.now) (G.targets g.now)) marks.new }
    ensures empty { waiting.new.items ≡ [] }
    ensures room { vec_capacity waiting.new ≡ vec_capacity waiting.old }
{
    mark_all(roots, marks, waiting);
    while let Some(x) = waiting.pop() {
        scan(g, x as usize, marks, waiting);
    }
}

/// Which nodes are reached from `roots`: a mark for each node. Answers `AllocError` where there is no memory
/// for the marks or the waiting nodes.
pub fn reached<G: Walked>(alloc: Global, g: &G, roots: &[u32]) -> Result<Vec<bool>, AllocError>
    requires roots { All (λ y. y < G.nodes g.now) roots.now }
    ensures len { IfOk result (λ v. length v.items ≡ G.nodes g.now) }
    ensures marks { IfOk result (λ v. (k : ℕ) → HasMark v.items k
        ↔ Reached (Contains roots.now) (Leads (G.nodes g.now) (G.targets g.now)) k) }
{
    let mut marks = vec![in alloc; false; g.len()]?;
    let mut waiting = Vec::with_capacity(alloc, g.len())?;
    mark_reached(g, roots, &mut marks, &mut waiting);
    Ok(marks)
}

// Marks node `y`; one that wasn't marked waits from now on.
fn visit(y: u32, marks: &mut [bool], waiting: &mut Vec<u32>)
    requires node { y < length marks.old }
    requires room { unmarked marks.old + length waiting.old.items ≤ vec_capacity waiting.old }
    ensures scans { Scans (λ z. z ≡ y) marks.old waiting.old.items marks.new waiting.new.items }
    ensures capacity { vec_capacity waiting.new ≡ vec_capacity waiting.old }
{
    if !marks[y as usize] {
        marks[y as usize] = true;
        waiting.push_reserved(y);
    }
}

// Marks the nodes of a list.
fn mark_all(roots: &[u32], marks: &mut [bool], waiting: &mut Vec<u32>)
    requires roots { All (λ y. y < length marks.old) roots.now }
    requires room { unmarked marks.old + length waiting.old.items ≤ vec_capacity waiting.old }
    ensures scans { Scans (Contains roots.now) marks.old waiting.old.items marks.new waiting.new.items }
    ensures capacity { vec_capacity waiting.new ≡ vec_capacity waiting.old }
{
    for y in roots {
        visit(*y, marks, waiting);
    }
}

// Marks the targets of node `x`.
fn scan<G: Walked>(g: &G, x: usize, marks: &mut [bool], waiting: &mut Vec<u32>)
    requires node { x < G.nodes g.now }
    requires len { length marks.old ≡ G.nodes g.now }
    requires room { unmarked marks.old + length waiting.old.items ≤ vec_capacity waiting.old }
    ensures scans { Scans (λ y. Contains (G.targets g.now x) (Some y))
        marks.old waiting.old.items marks.new waiting.new.items }
    ensures capacity { vec_capacity waiting.new ≡ vec_capacity waiting.old }
{
    for i in 0..g.degree(x) {
        if let Some(y) = g.target(x, i) {
            visit(y, marks, waiting);
        }
    }
}
