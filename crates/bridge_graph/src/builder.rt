// A part that is being built.

ghost use Rattle.std.specs.Prelude.{◌≡◌, ℕ, ◌+◌, ◌-◌, ◌<◌, ◌≤◌, ◌++◌, [], ◌∷◌, length, slice_set, All, IfOk, OnOk};
ghost use Rattle.std.specs.Prelude.{OnErr, false};
ghost use Rattle.std.specs.Bool.{OnTrue, OnFalse};
ghost use Rattle.bridge_graph.specs.Parts.{Part, Building, IsPart, row_at, opaque_at};

use crate::graph::{DeadGraph, Node};
use crate::packing::{Link, NO_LINK, link_up, pack};
use joint_machine::{HNum, MNum};
use std::alloc::{AllocError, Global};
use std::marker::Model;

// The most edges that a part has in all.
const MOST_EDGES: usize = 4_294_967_295;

/// A dead part that is being built: nodes by rising managed number, and edges in any order.
#[derive(Drop)]
pub struct GraphBuilder {
    nodes: Vec<Node>,
    firsts: Vec<u32>,
    links: Vec<Link>,
    nexts: Vec<u32>,
    targets: Vec<u32>,
}

impl Model for GraphBuilder {
    ghost use Rattle.std.specs.Prelude.{◌-◌, length, vec_len, vec_capacity, min};
    ghost use Rattle.bridge_graph.specs.Parts.{Building};

    ghost Value = { Building };

    ghost use Rattle.bridge_graph.specs.Packing.{rows_of};
    ghost use Rattle.bridge_graph.specs.Built.{IsBuilding};
    ghost use Rattle.joint_machine.specs.Numbers.{u32_max};

    ghost view = { λ b. record {
      nodes = b.nodes.items;
      edges = rows_of b.links.items (length b.nodes.items);
      spare_nodes = min (vec_capacity b.nodes) (vec_capacity b.firsts) - vec_len b.nodes;
      spare_edges = min u32_max (min (vec_capacity b.links) (min (vec_capacity b.nexts) (vec_capacity b.targets)))
          - vec_len b.links;
    } };

    ghost invariant = { λ b. IsBuilding b.nodes.items b.firsts.items
        b.links.items b.nexts.items b.targets.items (vec_capacity b.targets) };
}

impl GraphBuilder {
    /// The empty part, which keeps the allocator.
    pub fn new(alloc: Global) -> GraphBuilder
        ensures nodes { result.nodes ≡ [] }
        ensures edges { result.edges ≡ [] }
    {
        GraphBuilder {
            nodes: Vec::new(alloc),
            firsts: Vec::new(alloc),
            links: Vec::new(alloc),
            nexts: Vec::new(alloc),
            targets: Vec::new(alloc),
        }
    }

    /// Makes room: afterwards so many calls of `node` and so many calls of `edge` are not refused. Answers
    /// `AllocError` where there is no memory, or where the part would have more than 4,294,967,295 edges;
    /// nodes and edges are then as before. The room is never less than it was. It may be more, also after a
    /// refusal: lists that grew before the one that found no memory keep what they got, since room is only
    /// ever asked for from below.
    pub fn reserve(&mut self, nodes: u32, edges: u32) -> Result<(), AllocError>
        ensures spare_nodes { OnOk result (nodes ≤ self.new.spare_nodes) }
        ensures spare_edges { OnOk result (edges ≤ self.new.spare_edges) }
        ensures kept_nodes { self.old.spare_nodes ≤ self.new.spare_nodes }
        ensures kept_edges { self.old.spare_edges ≤ self.new.spare_edges }
        ensures nodes { self.new.nodes ≡ self.old.nodes }
        ensures edges { self.new.edges ≡ self.old.edges }
    {
        if edges as usize > MOST_EDGES - self.links.len() {
            return Err(AllocError);
        }
        self.nodes.reserve(nodes as usize)?;
        self.firsts.reserve(nodes as usize)?;
        self.links.reserve(edges as usize)?;
        self.nexts.reserve(edges as usize)?;
        self.targets.reserve(self.links.len() + edges as usize)
    }

    /// Adds a node, whose number is greater than those before, and answers its index. Answers `AllocError`
    /// only where no room is left and there is no memory; nodes and edges are then as before, and there may
    /// be room since (see `reserve`).
    pub fn node(
        &mut self,
        number: MNum,
        handle: Option<HNum>,
        opaque: bool,
    ) -> Result<u32, AllocError>
        requires rising { All (λ n. n.number.0 < number.0) self.old.nodes }
        requires few { length self.old.nodes < u32.MAX - 1 }
        ensures index { IfOk result (λ i. i ≡ length self.old.nodes) }
        ensures nodes { OnOk result (self.new.nodes ≡ self.old.nodes ++
            record { number = number; handle = handle; opaque = opaque } ∷ []) }
        ensures edges { OnOk result (self.new.edges ≡ self.old.edges ++ [] ∷ []) }
        ensures spare_nodes { OnOk result (self.old.spare_nodes ≤ self.new.spare_nodes + 1) }
        ensures spare_edges { self.new.spare_edges ≡ self.old.spare_edges }
        ensures room { OnErr result (self.old.spare_nodes ≡ 0) }
        ensures err_nodes { OnErr result (self.new.nodes ≡ self.old.nodes) }
        ensures err_edges { OnErr result (self.new.edges ≡ self.old.edges) }
    {
        let index = self.nodes.len() as u32;
        self.nodes.reserve(1)?;
        self.firsts.reserve(1)?;
        self.nodes.push_reserved(Node {
            number,
            handle,
            opaque,
        });
        self.firsts.push_reserved(NO_LINK);
        Ok(index)
    }

    /// Adds an edge between two nodes, of which the first is not opaque. The same edge may be added again.
    /// Answers `AllocError` only where no room is left and there is no memory, or where the part has
    /// 4,294,967,295 edges; nodes and edges are then as before, and there may be room since (see `reserve`).
    pub fn edge(&mut self, from: u32, to: u32) -> Result<(), AllocError>
        requires from { from < length self.old.nodes }
        requires to { to < length self.old.nodes }
        requires open { opaque_at self.old.nodes from ≡ false }
        ensures nodes { self.new.nodes ≡ self.old.nodes }
        ensures edges { OnOk result (self.new.edges ≡ slice_set self.old.edges from
            (row_at self.old.edges from ++ to ∷ [])) }
        ensures spare_nodes { self.new.spare_nodes ≡ self.old.spare_nodes }
        ensures spare_edges { OnOk result (self.old.spare_edges ≤ self.new.spare_edges + 1) }
        ensures room { OnErr result (self.old.spare_edges ≡ 0) }
        ensures err_edges { OnErr result (self.new.edges ≡ self.old.edges) }
    {
        if self.links.len() >= MOST_EDGES {
            return Err(AllocError);
        }
        self.links.reserve(1)?;
        self.nexts.reserve(1)?;
        self.targets.reserve(self.links.len() + 1)?;
        self.links.push_reserved(Link { from, to });
        self.nexts.push_reserved(0);
        Ok(())
    }

    /// The number of nodes so far.
    pub fn nodes(&self) -> u32
        ensures count { result ≡ length self.now.nodes }
        ensures part { IsPart self.now.nodes self.now.edges }
    {
        self.nodes.len() as u32
    }

    /// Whether a node with that number may be added: there is room for its index, and its number is greater
    /// than those before.
    pub fn next_is(&self, number: MNum) -> bool
        ensures few { OnTrue result (length self.now.nodes < u32.MAX - 1) }
        ensures rising { OnTrue result (All (λ n. n.number.0 < number.0) self.now.nodes) }
        ensures refused { OnFalse result ((length self.now.nodes < u32.MAX - 1)
            × All (λ n. n.number.0 < number.0) self.now.nodes → ⊥) }
    {
        let count = self.nodes.len();
        count < 4_294_967_294 && (count == 0 || self.nodes[count - 1].number.0 < number.0)
    }

    /// Whether an edge may be added between two indexes: both are nodes, and the first is not opaque.
    pub fn may_lead(&self, from: u32, to: u32) -> bool
        ensures from { OnTrue result (from < length self.now.nodes) }
        ensures to { OnTrue result (to < length self.now.nodes) }
        ensures open { OnTrue result (opaque_at self.now.nodes from ≡ false) }
        ensures refused { OnFalse result ((from < length self.now.nodes)
            × (to < length self.now.nodes) × (opaque_at self.now.nodes from ≡ false) → ⊥) }
    {
        (from as usize) < self.nodes.len()
            && (to as usize) < self.nodes.len()
            && !self.nodes[from as usize].opaque
    }

    /// The finished part. It takes no memory.
    pub fn finish(self) -> DeadGraph
        ensures nodes { result.nodes ≡ self.nodes }
        ensures edges { result.edges ≡ self.edges }
        ensures part { IsPart result.nodes result.edges }
    {
        let GraphBuilder {
            nodes,
            mut firsts,
            links,
            mut nexts,
            mut targets,
        } = self;
        link_up(&links, &mut nexts, &mut firsts);
        pack(&links, &nexts, &mut firsts, &mut targets);
        DeadGraph {
            nodes,
            starts: firsts,
            targets,
        }
    }
}
