// From a caller's arrays to a graph.

ghost use Rattle.std.specs.Prelude.{◌≡◌, ◌-◌, ℕ, ◌+◌, ◌<◌, ◌≤◌, ◌⊎◌, length, All, Err, IfOk, MatchBool, IsTrue, ◌↔◌};
ghost use Rattle.array_graphs.specs.Graphs.{AreEdges, AreInOrder, AreRows, HasEdge, IsBridgeAt, LeadsInRow};
ghost use Rattle.array_graphs.specs.Made.{HasNodes, IsMade, IsTooLong, handle_by};

use bridge_graph::{DeadGraph, Link, Node, pack_rows};
use joint_machine::{HNum, MNum};
use std::alloc::{AllocError, Global};

/// The most nodes of a graph.
pub const MOST_NODES: usize = 4_294_967_294;

/// The most edges of a graph.
pub const MOST_EDGES: usize = 4_294_967_295;

/// What stops a call over a caller's arrays.
#[derive(Clone, Copy, PartialEq, Eq, Debug)]
pub enum Stop {
    /// There is no memory.
    Memory,
    /// The arrays are no graph, or not what else they should be.
    Graph,
    /// There is too much of something that is numbered in 32 bits.
    TooMany,
}

impl From<AllocError> for Stop {
    ghost use Rattle.array_graphs.specs.declared.graphs.Stop.TheVariants as cause;

    ghost from_gives = { λ _ e. e ≡ cause.Memory };

    fn from(_error: AllocError) -> Stop {
        Stop::Memory
    }
}

/// The graph of rows. Answers `Graph` exactly where the arrays aren't the rows of a graph, `TooMany` exactly where there
/// are more than 4,294,967,294 nodes or 4,294,967,295 edges, and `Memory` where there is no memory.
pub fn graph_of_rows(
    alloc: Global,
    kinds: &[u8],
    starts: &[u32],
    targets: &[u32],
) -> Result<DeadGraph, Stop>
    ensures made { IfOk result (λ g. IsMade (IsBridgeAt kinds.now)
        (LeadsInRow starts.now targets.now) g.nodes g.edges) }
    ensures graph { (result ≡ Err Stop.Graph) ↔ (AreRows (length kinds.now) starts.now targets.now → ⊥) }
    ensures many { (result ≡ Err Stop.TooMany) ↔ (AreRows (length kinds.now) starts.now targets.now
        × IsTooLong (length kinds.now) (length targets.now)) }
{
    if !are_rows(kinds.len(), starts, targets) {
        return Err(Stop::Graph);
    }
    if kinds.len() > MOST_NODES || targets.len() > MOST_EDGES {
        return Err(Stop::TooMany);
    }
    let nodes = nodes_of(alloc, kinds)?;
    let starts = starts.to_vec(alloc)?;
    let targets = targets.to_vec(alloc)?;
    Ok(DeadGraph::of_rows(nodes, starts, targets))
}

/// The graph of pairs. Answers `Graph` exactly where a pair names no node, and else as for rows.
pub fn graph_of_pairs(alloc: Global, kinds: &[u8], edges: &[Link]) -> Result<DeadGraph, Stop>
    ensures made { IfOk result (λ g. IsMade (IsBridgeAt kinds.now) (HasEdge edges.now) g.nodes g.edges) }
    ensures graph { (result ≡ Err Stop.Graph) ↔ (AreEdges (length kinds.now) edges.now → ⊥) }
    ensures many { (result ≡ Err Stop.TooMany) ↔ (AreEdges (length kinds.now) edges.now
        × IsTooLong (length kinds.now) (length edges.now)) }
{
    if !are_edges(kinds.len(), edges) {
        return Err(Stop::Graph);
    }
    if kinds.len() > MOST_NODES || edges.len() > MOST_EDGES {
        return Err(Stop::TooMany);
    }
    let nodes = nodes_of(alloc, kinds)?;
    let packed = pack_rows(alloc, edges, kinds.len() as u32)?;
    Ok(DeadGraph::of_rows(nodes, packed.starts, packed.targets))
}

/// Whether the arrays are the rows of so many nodes: a start for each, in order, and targets that are nodes.
pub fn are_rows(nodes: usize, starts: &[u32], targets: &[u32]) -> bool
    ensures { MatchBool result (AreRows nodes starts.now targets.now) (¬ AreRows nodes starts.now targets.now) }
{
    starts.len() == nodes && are_in_order(starts, targets.len()) && are_nodes(nodes, targets)
}

/// Whether the starts rise, and none is greater than the end.
pub fn are_in_order(starts: &[u32], end: usize) -> bool
    ensures { MatchBool result (AreInOrder starts.now end) (¬ AreInOrder starts.now end) }
{
    let mut left = starts.len();
    let mut next = end;
    while left > 0 {
        left -= 1;
        if starts[left] as usize > next {
            return false;
        }
        next = starts[left] as usize;
    }
    true
}

/// Whether all are indexes of nodes.
pub fn are_nodes(nodes: usize, targets: &[u32]) -> bool
    ensures { MatchBool result (All (λ y. y < nodes) targets.now) (¬ All (λ y. y < nodes) targets.now) }
{
    for y in targets {
        if *y as usize >= nodes {
            return false;
        }
    }
    true
}

/// Whether each edge joins two nodes.
pub fn are_edges(nodes: usize, edges: &[Link]) -> bool
    ensures { MatchBool result (AreEdges nodes edges.now) (¬ AreEdges nodes edges.now) }
{
    for e in edges {
        if e.from as usize >= nodes || e.to as usize >= nodes {
            return false;
        }
    }
    true
}

// A node for each kind, numbered from 1.
fn nodes_of(alloc: Global, kinds: &[u8]) -> Result<Vec<Node>, AllocError>
    requires few { length kinds.now ≤ u32.MAX - 1 }
    ensures { IfOk result (λ v. HasNodes kinds.now (length kinds.now) v.items) }
{
    let mut nodes = Vec::with_capacity(alloc, kinds.len())?;
    for i in 0..kinds.len() {
        let number = i as u32 + 1;
        nodes.push_reserved(Node {
            number: MNum(number),
            handle: handle_of(kinds[i], number),
            opaque: false,
        });
    }
    Ok(nodes)
}

// The handle of a node of that kind.
fn handle_of(kind: u8, number: u32) -> Option<HNum>
    ensures { result ≡ handle_by kind number }
{
    if kind == 0 { None } else { Some(HNum(number)) }
}
