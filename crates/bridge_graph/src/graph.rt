// The finished part, which is only read.

ghost use Rattle.std.specs.Prelude.{◌≡◌, ◌^◌, ℕ, ◌<◌, length, slice_get, slice_index, slice_index_or, IfSome, Some};
ghost use Rattle.std.specs.Prelude.{map};
ghost use Rattle.std.specs.Prelude.{All, MatchBool};
ghost use Rattle.bridge_graph.specs.Packed.{IsPackedPart};
ghost use Rattle.bridge_graph.specs.Packing.{packed_rows};
ghost use Rattle.bridge_graph.specs.Parts.{Part, IsPart, IsBridgeNode, row_at, opaque_at, HasNode};

use crate::packing::packed_row;
use joint_machine::{HNum, MNum};
use std::marker::Model;

/// A node of the dead part: an object's managed number, the handle that it holds on a peer, if it is a
/// bridge object, and whether the analysis may not look at its references.
#[derive(Clone, Copy)]
pub struct Node {
    pub number: MNum,
    pub handle: Option<HNum>,
    pub opaque: bool,
}

/// The dead part of the managed heap: at most 4,294,967,294 nodes with rising managed numbers, and for each the
/// indexes of the nodes that its references lead to.
///
/// Edges are in range, and opaque nodes have none. The same edge may stand more than once. A node is a
/// bridge node exactly where it has a handle.
#[derive(Drop)]
pub struct DeadGraph {
    pub(crate) nodes: Vec<Node>,
    pub(crate) starts: Vec<u32>,
    pub(crate) targets: Vec<u32>,
}

impl Model for DeadGraph {
    ghost use Rattle.std.specs.Prelude.{length, vec_len};
    ghost use Rattle.bridge_graph.specs.Parts.{Part};

    ghost Value = { Part };

    ghost use Rattle.bridge_graph.specs.Packing.{packed_rows};
    ghost use Rattle.bridge_graph.specs.Packed.{IsPackedPart};

    ghost view = { λ g. record {
      nodes = g.nodes.items;
      edges = packed_rows g.starts.items g.targets.items (length g.nodes.items);
    } };

    ghost invariant = { λ g. IsPackedPart g.nodes.items g.starts.items g.targets.items };
}

impl DeadGraph {
    /// The part of nodes and rows that lie together already: the edges of node `i` lead to the targets from place
    /// `starts[i]` on, up to where the next node's begin, or to the end. It takes no memory.
    pub fn of_rows(nodes: Vec<Node>, starts: Vec<u32>, targets: Vec<u32>) -> DeadGraph
        requires { IsPackedPart nodes.items starts.items targets.items }
        ensures nodes { result.nodes ≡ nodes.items }
        ensures edges { result.edges ≡ packed_rows starts.items targets.items (length nodes.items) }
    {
        DeadGraph {
            nodes,
            starts,
            targets,
        }
    }

    /// The number of nodes.
    pub fn nodes(&self) -> u32
        ensures count { result ≡ length self.now.nodes }
        ensures part { IsPart self.now.nodes self.now.edges }
    {
        self.nodes.len() as u32
    }

    /// The managed number of node `i`.
    pub fn number(&self, i: u32) -> MNum
        requires { i < length self.now.nodes }
        ensures { HasNode self.now.nodes i (λ n. n.number ≡ result) }
    {
        self.nodes[i as usize].number
    }

    /// The handle of node `i`; None exactly where it is no bridge node.
    pub fn handle(&self, i: u32) -> Option<HNum>
        requires { i < length self.now.nodes }
        ensures { HasNode self.now.nodes i (λ n. n.handle ≡ result) }
    {
        self.nodes[i as usize].handle
    }

    /// Whether node `i` is a bridge node.
    pub fn is_bridge(&self, i: u32) -> bool
        requires { i < length self.now.nodes }
        ensures { MatchBool result (IsBridgeNode self.now.nodes i) (¬ IsBridgeNode self.now.nodes i) }
    {
        self.nodes[i as usize].handle.is_some()
    }

    /// How many edges node `i` has.
    pub fn degree(&self, i: u32) -> u32
        requires { i < length self.now.nodes }
        ensures { result ≡ length (row_at self.now.edges i) }
    {
        self.row(i).len() as u32
    }

    /// Where the edge `j` of node `i` leads, in the order in which they were added.
    pub fn edge(&self, i: u32, j: u32) -> u32
        requires node { i < length self.now.nodes }
        requires edge { j < length (row_at self.now.edges i) }
        ensures target { result ≡ slice_index (row_at self.now.edges i) j }
        ensures in_range { result < length self.now.nodes }
    {
        self.row(i)[j as usize]
    }

    /// Where the edges of node `i` lead, in the order in which they were added.
    pub fn row(&self, i: u32) -> &[u32]
        requires { i < length self.now.nodes }
        ensures row { result.now ≡ row_at self.now.edges i }
        ensures few { length result.now < 2 ^ 32 }
        ensures in_range { All (λ y. y < length self.now.nodes) result.now }
        ensures part { IsPart self.now.nodes self.now.edges }
    {
        packed_row(&self.starts, &self.targets, i as usize)
    }
}
