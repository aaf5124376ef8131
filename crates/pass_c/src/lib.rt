// The exact component pass for programs in C: a call reads a graph that lies in the caller's arrays, and writes its
// components and cross-references into others. docs/C-LIBRARY.md tells how a runtime links it, and
// include/bridge_pass.h what it has to keep.
//
//     struct pass_counts counts;
//     uint32_t status = pass_rows(kinds, nodes, row_starts, nodes, targets, edges, 0,
//                                 starts, nodes, members, nodes, xrefs, room, &counts);
//
// `pass_rows` takes the graph as a runtime can write it while it walks its objects: where each node's references begin
// in one list of targets. `pass_pairs` takes it as pairs of nodes in any order. Both make a graph of the library's own
// (`array_graphs`), find its components (`component_pass`), put pairs in place of heavy classes where that is asked for
// (`expanding`), and write all where there is room for it (`results`). Nothing outlives the call, and no pointer of the
// caller's is kept; so calls on arrays of their own may run side by side.
//
// What a cycle does with components besides, and whether a cycle was right, are calls of `cycle_check` (`checks`).
//
// What is promised: whatever the arrays hold, the call ends, and reads and writes nothing but them and memory of its
// own; where it answers that it is done, the arrays have exactly the components, heavy classes and cross-references of
// their graph, in their one order; and each other answer says what stopped it, with the caller's arrays as they were.
#![tactic(auto)]

ghost use Rattle.std.specs.Prelude.{◌≡◌, ◌≢◌, ℕ, ◌↔◌, ◌≤◌, ◌⊎◌, List, length};
ghost use Rattle.bridge_graph.specs.Parts.{IsBridgeNode, NodeLeads};
ghost use Rattle.pass_c.specs.Found.{Found, Lacks};
ghost use Rattle.pass_c.specs.Expanded.{AreExpanded, FoundExpanded, LacksExpanded};
ghost use Rattle.pass_c.specs.Calls.{Gives};

mod arrays;
mod checks;
mod expanding;
mod results;

ghost use Rattle.array_graphs.specs.Graphs.{AreEdges, AreRows, HasEdge, IsBridgeAt, LeadsInRow};
ghost use Rattle.array_graphs.specs.Made.{IsTooLong};

use array_graphs::{Stop, graph_of_pairs, graph_of_rows};
pub use arrays::PassCounts;
use bridge_graph::{DeadGraph, Link};
pub use checks::{MirrorCounts, cycle_check_kept, cycle_check_outcome, pass_mirror, pass_resolve};
use component_pass::contract;
use expanding::expand;
use results::{give, give_expanded};
use std::alloc::Global;
use xref_list::{Components, ListingFault};

/// All was written.
pub const DONE: u32 = 0;

/// There is no memory.
pub const NO_MEMORY: u32 = 1;

/// The arrays are no graph.
pub const NO_GRAPH: u32 = 2;

/// An array has too few places; the numbers that are needed are told.
pub const NO_ROOM: u32 = 3;

/// There is too much of something that is numbered in 32 bits.
pub const TOO_MANY: u32 = 4;

/// Finds the exact components and cross-references of a graph in rows.
///
/// A node is a bridge node where its kind isn't 0. Node `x` leads to the targets from place `row_starts[x]` on, up to
/// the start of the next row, or to the end. Component `c` has the members from place `starts[c]` on, up to the start
/// of the next one or to `counts.members`; the last `counts.heavy` components are heavy classes, and have none. Where
/// `pairs_for_heavy` isn't 0 no heavy class is reported: in their place each component refers to all others that a path
/// leads to past nodes of classes without a bridge node.
///
/// Answers `DONE` where all was written, `NO_MEMORY` where there is no memory, `NO_GRAPH` exactly where there isn't one
/// start for each node, starts don't rise up to the end, or a target names no node, `NO_ROOM` where an array has too
/// few places, and `TOO_MANY` where there are more than 4,294,967,294 nodes, 4,294,967,295 targets or so many members
/// and cross-references together, or where the pass can't number what it works with. The arrays are as they were unless
/// it is done; `counts` is told where it is done or there is no room.
#[unsafe(no_mangle)]
pub extern "C" fn pass_rows(
    alloc: Global,
    kinds: &[u8],
    row_starts: &[u32],
    targets: &[u32],
    pairs_for_heavy: u32,
    starts: &mut [u32],
    members: &mut [u32],
    xrefs: &mut [Link],
    counts: &mut PassCounts,
) -> u32
    ensures status { result ≤ 4 }
    ensures done { pairs_for_heavy ≡ 0 → result ≡ 0
        → Found (IsBridgeAt kinds.now) (LeadsInRow row_starts.now targets.now)
        starts.new members.new xrefs.new counts.new }
    ensures no_room { pairs_for_heavy ≡ 0 → result ≡ 3
        → Lacks (IsBridgeAt kinds.now) (LeadsInRow row_starts.now targets.now)
        starts.new members.new xrefs.new counts.new }
    ensures done_in_pairs { pairs_for_heavy ≢ 0 → result ≡ 0
        → FoundExpanded (IsBridgeAt kinds.now)
        (LeadsInRow row_starts.now targets.now) starts.new members.new xrefs.new counts.new }
    ensures no_room_in_pairs { pairs_for_heavy ≢ 0 → result ≡ 3
        → LacksExpanded (IsBridgeAt kinds.now)
        (LeadsInRow row_starts.now targets.now) starts.new members.new xrefs.new counts.new }
    ensures no_graph { (result ≡ 2) ↔ (AreRows (length kinds.now) row_starts.now targets.now → ⊥) }
    ensures too_many { IsTooLong (length kinds.now) (length targets.now)
        → AreRows (length kinds.now) row_starts.now targets.now → result ≡ 4 }
    ensures kept { result ≢ 0 → (starts.new ≡ starts.old) × (members.new ≡ members.old) × (xrefs.new ≡ xrefs.old) }
    ensures untold { result ≢ 0 → result ≢ 3 → counts.new ≡ counts.old }
{
    match graph_of_rows(alloc, kinds, row_starts, targets) {
        Ok(graph) => answer(
            alloc,
            &graph,
            pairs_for_heavy,
            starts,
            members,
            xrefs,
            counts,
        ),
        Err(stop) => status_of(stop),
    }
}

/// Finds the exact components and cross-references of a graph in pairs of nodes, which come in any order, and may come
/// again. All else is as for `pass_rows`; `NO_GRAPH` is answered exactly where a pair names no node.
#[unsafe(no_mangle)]
pub extern "C" fn pass_pairs(
    alloc: Global,
    kinds: &[u8],
    edges: &[Link],
    pairs_for_heavy: u32,
    starts: &mut [u32],
    members: &mut [u32],
    xrefs: &mut [Link],
    counts: &mut PassCounts,
) -> u32
    ensures status { result ≤ 4 }
    ensures done { pairs_for_heavy ≡ 0 → result ≡ 0
        → Found (IsBridgeAt kinds.now) (HasEdge edges.now) starts.new members.new xrefs.new counts.new }
    ensures no_room { pairs_for_heavy ≡ 0 → result ≡ 3
        → Lacks (IsBridgeAt kinds.now) (HasEdge edges.now) starts.new members.new xrefs.new counts.new }
    ensures done_in_pairs { pairs_for_heavy ≢ 0 → result ≡ 0
        → FoundExpanded (IsBridgeAt kinds.now) (HasEdge edges.now) starts.new members.new xrefs.new counts.new }
    ensures no_room_in_pairs { pairs_for_heavy ≢ 0 → result ≡ 3
        → LacksExpanded (IsBridgeAt kinds.now) (HasEdge edges.now) starts.new members.new xrefs.new counts.new }
    ensures no_graph { (result ≡ 2) ↔ (AreEdges (length kinds.now) edges.now → ⊥) }
    ensures too_many { IsTooLong (length kinds.now) (length edges.now)
        → AreEdges (length kinds.now) edges.now → result ≡ 4 }
    ensures kept { result ≢ 0 → (starts.new ≡ starts.old) × (members.new ≡ members.old) × (xrefs.new ≡ xrefs.old) }
    ensures untold { result ≢ 0 → result ≢ 3 → counts.new ≡ counts.old }
{
    match graph_of_pairs(alloc, kinds, edges) {
        Ok(graph) => answer(
            alloc,
            &graph,
            pairs_for_heavy,
            starts,
            members,
            xrefs,
            counts,
        ),
        Err(stop) => status_of(stop),
    }
}

// What is answered where no graph was made.
fn status_of(stop: Stop) -> u32
    ensures memory { (result ≡ 1) ↔ (stop ≡ Stop.Memory) }
    ensures graph { (result ≡ 2) ↔ (stop ≡ Stop.Graph) }
    ensures many { (result ≡ 4) ↔ (stop ≡ Stop.TooMany) }
    ensures status { (1 ≤ result) × (result ≤ 4) × (result ≢ 3) }
{
    match stop {
        Stop::Memory => NO_MEMORY,
        Stop::Graph => NO_GRAPH,
        Stop::TooMany => TOO_MANY,
    }
}

// Finds the components and cross-references of a graph, and writes them.
fn answer(
    alloc: Global,
    graph: &DeadGraph,
    pairs_for_heavy: u32,
    starts: &mut [u32],
    members: &mut [u32],
    xrefs: &mut [Link],
    counts: &mut PassCounts,
) -> u32
    ensures status { (result ≤ 4) × (result ≢ 2) }
    ensures done { pairs_for_heavy ≡ 0 → result ≡ 0
        → Found (IsBridgeNode graph.now.nodes) (NodeLeads graph.now.edges) starts.new members.new xrefs.new counts.new }
    ensures no_room { pairs_for_heavy ≡ 0 → result ≡ 3
        → Lacks (IsBridgeNode graph.now.nodes) (NodeLeads graph.now.edges) starts.new members.new xrefs.new counts.new }
    ensures done_in_pairs { pairs_for_heavy ≢ 0 → result ≡ 0
        → FoundExpanded (IsBridgeNode graph.now.nodes)
        (NodeLeads graph.now.edges) starts.new members.new xrefs.new counts.new }
    ensures no_room_in_pairs { pairs_for_heavy ≢ 0 → result ≡ 3
        → LacksExpanded (IsBridgeNode graph.now.nodes)
        (NodeLeads graph.now.edges) starts.new members.new xrefs.new counts.new }
    ensures kept { result ≢ 0 → (starts.new ≡ starts.old) × (members.new ≡ members.old) × (xrefs.new ≡ xrefs.old) }
    ensures untold { result ≢ 0 → result ≢ 3 → counts.new ≡ counts.old }
{
    match contract(alloc, graph) {
        Ok(found) => present(
            alloc,
            &found,
            pairs_for_heavy,
            starts,
            members,
            xrefs,
            counts,
        ),
        Err(ListingFault::Memory) => NO_MEMORY,
        Err(ListingFault::TooMany) => TOO_MANY,
    }
}

// Writes components and cross-references, or pairs in place of these where that is asked for.
fn present(
    alloc: Global,
    found: &Components,
    pairs_for_heavy: u32,
    starts: &mut [u32],
    members: &mut [u32],
    xrefs: &mut [Link],
    counts: &mut PassCounts,
) -> u32
    ensures status { (result ≤ 4) × (result ≢ 2) }
    ensures plain { pairs_for_heavy ≡ 0
        → Gives found.now.comps found.now.heavy found.now.pairs result starts.new members.new xrefs.new counts.new }
    ensures in_pairs { pairs_for_heavy ≢ 0 → result ≢ 1 → (out : List (ℕ × ℕ))
        × AreExpanded found.now.pairs (length found.now.comps) out
        × Gives found.now.comps 0 out result starts.new members.new xrefs.new counts.new }
    ensures kept { result ≢ 0 → (starts.new ≡ starts.old) × (members.new ≡ members.old) × (xrefs.new ≡ xrefs.old) }
    ensures untold { result ≢ 0 → result ≢ 3 → counts.new ≡ counts.old }
{
    if pairs_for_heavy == 0 {
        return give(found, starts, members, xrefs, counts);
    }
    match expand(alloc, found) {
        Ok(pairs) => give_expanded(found, &pairs, starts, members, xrefs, counts),
        Err(_) => NO_MEMORY,
    }
}
