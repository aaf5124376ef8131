// The rows of both heaps as the nodes of one graph, each with the list of the nodes that it leads to.

ghost use Rattle.std.specs.Prelude.{◌≡◌, ℕ, ◌+◌, ◌<◌, OnOk, IfOk, length, map, Some};
ghost use Rattle.joint_machine.specs.Heaps.{IsLive};
ghost use Rattle.joint_marking.specs.Nodes.{AddsEdges, HasEdges, ObjectEdge, PeerEdge, ObjectField, EdgesOfObjects};
ghost use Rattle.joint_marking.specs.Nodes.{EdgesOfPeers, IsPair, IsRound, HasNone, node_count, objects_in, targets_at};

use crate::walked::JointWalked;
use joint_machine::{MNum, PNum};
use reachability::Walked;
use std::alloc::{AllocError, Global};
use std::marker::Model;

/// For each node the list of the nodes that it leads to.
#[derive(Drop)]
pub(crate) struct NodeRows {
    rows: Vec<Vec<u32>>,
}

impl Model for NodeRows {
    ghost use Rattle.std.specs.Prelude.{ℕ, List, map};
    ghost use Rattle.joint_marking.specs.Nodes.{LeadToNodes};

    ghost Value = { List (List ℕ) };

    ghost view = { λ s. map (λ r. r.items) s.rows.items };

    ghost invariant = { λ s. LeadToNodes (map (λ r. r.items) s.rows.items) };
}

impl NodeRows {
    // So many nodes that lead nowhere.
    fn new(alloc: Global, count: u32) -> Result<NodeRows, AllocError>
        ensures { IfOk result (λ r. HasNone count r) }
    {
        let mut rows = Vec::new(alloc);
        for _ in 0..count {
            rows.push(Vec::new(alloc))?;
        }
        Ok(NodeRows { rows })
    }

    // Node `k` leads to node `j` too.
    fn add(&mut self, k: u32, j: u32) -> Result<(), AllocError>
        requires from { k < length self.old }
        requires to { j < length self.old }
        ensures len { length self.new ≡ length self.old }
        ensures adds { OnOk result (AddsEdges (IsPair k j) self.old self.new) }
    {
        self.rows[k as usize].push(j)?;
        Ok(())
    }

    // Nodes `k` and `j` lead to each other too.
    fn link(&mut self, k: u32, j: u32) -> Result<(), AllocError>
        requires from { k < length self.old }
        requires to { j < length self.old }
        ensures { OnOk result (AddsEdges (IsRound k j) self.old self.new) }
    {
        self.add(k, j)?;
        self.add(j, k)?;
        Ok(())
    }
}

impl Walked for NodeRows {
    ghost nodes = { λ r. length r };

    ghost targets = { λ r k. map Some (targets_at r k) };

    fn len(&self) -> usize {
        self.rows.len()
    }

    fn degree(&self, x: usize) -> usize {
        self.rows[x].len()
    }

    fn target(&self, x: usize, i: usize) -> Option<u32> {
        Some(self.rows[x][i])
    }
}

/// The node of a live peer.
pub(crate) fn peer_node<G: JointWalked>(g: &G, p: PNum) -> u32
    requires { IsLive (G.graph g.now).peers.heap p.0 }
    ensures node { result ≡ objects_in (G.graph g.now) + p.0 }
    ensures within { result < node_count (G.graph g.now) }
{
    // Neither number passes 65,535, so the sum doesn't overflow.
    prove!(p.0 <= g.peers());
    g.objects() + p.0
}

/// The nodes of both heaps, with each joint edge.
pub(crate) fn joint_rows<G: JointWalked>(alloc: Global, g: &G) -> Result<NodeRows, AllocError>
    ensures { IfOk result (λ r. HasEdges (G.graph g.now) r) }
{
    let mut rows = NodeRows::new(alloc, g.objects() + g.peers() + 1)?;
    add_objects(g, &mut rows)?;
    add_peers(g, &mut rows)?;
    Ok(rows)
}

// Adds the edges of all managed objects.
fn add_objects<G: JointWalked>(g: &G, rows: &mut NodeRows) -> Result<(), AllocError>
    requires { length rows.old ≡ node_count (G.graph g.now) }
    ensures { OnOk result (AddsEdges (EdgesOfObjects (G.graph g.now)) rows.old rows.new) }
{
    for x in 1..g.objects() + 1 {
        if g.is_live_object(MNum(x)) {
            add_object(g, MNum(x), rows)?;
        }
    }
    Ok(())
}

// Adds the edges of a live managed object: its fields, and the two between it and its twin.
fn add_object<G: JointWalked>(g: &G, x: MNum, rows: &mut NodeRows) -> Result<(), AllocError>
    requires len { length rows.old ≡ node_count (G.graph g.now) }
    requires live { IsLive (G.graph g.now).managed.heap x.0 }
    ensures { OnOk result (AddsEdges (ObjectEdge (G.graph g.now) x.0) rows.old rows.new) }
{
    add_object_fields(g, x, rows)?;
    if let Some(p) = g.twin(x) {
        rows.link(x.0, peer_node(g, p))?;
    }
    Ok(())
}

fn add_object_fields<G: JointWalked>(g: &G, x: MNum, rows: &mut NodeRows) -> Result<(), AllocError>
    requires len { length rows.old ≡ node_count (G.graph g.now) }
    requires live { IsLive (G.graph g.now).managed.heap x.0 }
    ensures { OnOk result (AddsEdges (ObjectField (G.graph g.now) x.0) rows.old rows.new) }
{
    for i in 0..g.object_fields(x) {
        if let Some(y) = g.object_field(x, i) {
            rows.add(x.0, y.0)?;
        }
    }
    Ok(())
}

// Adds the fields of all peers.
fn add_peers<G: JointWalked>(g: &G, rows: &mut NodeRows) -> Result<(), AllocError>
    requires { length rows.old ≡ node_count (G.graph g.now) }
    ensures { OnOk result (AddsEdges (EdgesOfPeers (G.graph g.now)) rows.old rows.new) }
{
    for p in 1..g.peers() + 1 {
        if g.is_live_peer(PNum(p)) {
            add_peer(g, PNum(p), rows)?;
        }
    }
    Ok(())
}

// Adds the fields of a live peer.
fn add_peer<G: JointWalked>(g: &G, p: PNum, rows: &mut NodeRows) -> Result<(), AllocError>
    requires len { length rows.old ≡ node_count (G.graph g.now) }
    requires live { IsLive (G.graph g.now).peers.heap p.0 }
    ensures { OnOk result (AddsEdges (PeerEdge (G.graph g.now) p.0) rows.old rows.new) }
{
    for i in 0..g.peer_fields(p) {
        if let Some(q) = g.peer_field(p, i) {
            rows.add(peer_node(g, p), peer_node(g, q))?;
        }
    }
    Ok(())
}
