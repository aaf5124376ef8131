// What some roots reach over rows that lie in arrays, and which of them reaches a node.

ghost use Rattle.std.specs.Prelude.{◌≡◌, ℕ, ◌<◌, ◌≤◌, ◌↔◌, [], All, Contains, IfOk, length, vec_capacity};
ghost use Rattle.joint_machine.specs.Walks.{Reached, Reaches};
ghost use Rattle.array_graphs.specs.Graphs.{LeadsInRow};
ghost use Rattle.bridge_graph.specs.Packing.{IsCut};
ghost use Rattle.reachability.specs.Marks.{HasMark, Leads};

use crate::rows::RowGraph;
use reachability::{Walked, mark_reached, reached};
use std::alloc::{AllocError, Global};

/// A mark for each node that one of the roots reaches. Answers `AllocError` where there is no memory.
pub(crate) fn mark_rows(
    alloc: Global,
    starts: &[u32],
    targets: &[u32],
    roots: &[u32],
) -> Result<Vec<bool>, AllocError>
    requires cut { IsCut starts.now targets.now }
    requires ends { (x y : ℕ) → LeadsInRow starts.now targets.now x y → y < length starts.now }
    requires roots { All (λ r. r < length starts.now) roots.now }
    ensures len { IfOk result (λ v. length v.items ≡ length starts.now) }
    ensures marks { IfOk result (λ v. (k : ℕ) → HasMark v.items k
        ↔ Reached (Contains roots.now) (LeadsInRow starts.now targets.now) k) }
{
    let graph = RowGraph { starts, targets };
    let marks = reached(alloc, &graph, roots)?;
    Ok(marks)
}

/// The first of the roots that reaches node `y`, which one of them does. Answers `AllocError` where there is no memory.
pub(crate) fn first_root(
    alloc: Global,
    starts: &[u32],
    targets: &[u32],
    roots: &[u32],
    y: u32,
) -> Result<u32, AllocError>
    requires cut { IsCut starts.now targets.now }
    requires ends { (x z : ℕ) → LeadsInRow starts.now targets.now x z → z < length starts.now }
    requires roots { All (λ r. r < length starts.now) roots.now }
    requires node { y < length starts.now }
    requires reached { Reached (Contains roots.now) (LeadsInRow starts.now targets.now) y }
    ensures root { IfOk result (λ r. Contains roots.now r) }
    ensures reaches { IfOk result (λ r. Reaches (LeadsInRow starts.now targets.now) r y) }
{
    let graph = RowGraph { starts, targets };
    let root = first_to_reach(alloc, &graph, roots, y)?;
    Ok(root)
}

// The same of any graph that is walked.
fn first_to_reach<G: Walked>(alloc: Global, g: &G, roots: &[u32], y: u32) -> Result<u32, AllocError>
    requires roots { All (λ r. r < G.nodes g.now) roots.now }
    requires node { y < G.nodes g.now }
    requires reached { Reached (Contains roots.now) (Leads (G.nodes g.now) (G.targets g.now)) y }
    ensures root { IfOk result (λ r. Contains roots.now r) }
    ensures reaches { IfOk result (λ r. Reaches (Leads (G.nodes g.now) (G.targets g.now)) r y) }
{
    let mut marks = vec![in alloc; false; g.len()]?;
    let mut waiting = Vec::with_capacity(alloc, g.len())?;
    Ok(search(g, roots, y, &mut marks, &mut waiting))
}

// The same with marks that mark nothing yet, and room for the waiting nodes.
fn search<G: Walked>(
    g: &G,
    roots: &[u32],
    y: u32,
    marks: &mut [bool],
    waiting: &mut Vec<u32>,
) -> u32
    requires roots { All (λ r. r < G.nodes g.now) roots.now }
    requires node { y < G.nodes g.now }
    requires reached { Reached (Contains roots.now) (Leads (G.nodes g.now) (G.targets g.now)) y }
    requires len { length marks.old ≡ G.nodes g.now }
    requires none { (k : ℕ) → HasMark marks.old k → ⊥ }
    requires empty { waiting.old.items ≡ [] }
    requires room { G.nodes g.now ≤ vec_capacity waiting.old }
    ensures root { Contains roots.now result }
    ensures reaches { Reaches (Leads (G.nodes g.now) (G.targets g.now)) result y }
{
    for r in roots {
        mark_reached(g, &[*r], marks, waiting);
        if marks[y as usize] {
            return *r;
        }
    }
    unreachable!()
}
