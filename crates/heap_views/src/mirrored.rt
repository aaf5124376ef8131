// The references that a mirror adds between the peers of the open cycle's dead part. The pass reads a graph with a node
// for each number up to the last object's: a node outside the dead part has no handle and no edge, so components and
// cross-references are those of the dead part, and a node's index is its row's number.

ghost use Rattle.std.specs.Prelude.{◌≡◌, ◌↔◌, ◌⊎◌, ◌-◌, ◌<◌, ◌+◌, ℕ, [], ◌++◌, ◌∷◌, All, Contains, IfOk, OnOk};
ghost use Rattle.std.specs.Prelude.{false, length, map, true, Some};
ghost use Rattle.std.specs.Bool.{OnTrue};
ghost use Rattle.joint_machine.specs.Components as exact;
ghost use Rattle.joint_machine.specs.Control.{carried_edges, carried_end, peer_of_row};
ghost use Rattle.joint_machine.specs.Cycles.{DeadEdge};
ghost use Rattle.joint_machine.specs.Heaps.{HasField, IsMade, fields_of};
ghost use Rattle.joint_machine.specs.Managed.{IsBridge};
ghost use Rattle.joint_replay.specs.Plain.{dead_of};
ghost use Rattle.bridge_graph.specs.Parts.{IsBridgeNode, NodeLeads, row_at};
ghost use Rattle.xref_list.specs.Ends.{end_of};
ghost use Rattle.heap_views.specs.Mirrored.{AreMirrored, HasDead, dead_handle, end_as, ends_as, is_dead, number_node};
ghost use Rattle.heap_views.specs.Mirrored.{number_nodes};

use bridge_graph::{DeadGraph, GraphBuilder};
use component_pass::contract;
use joint_model::{HNum, MNum};
use joint_replay::JointState;
use std::alloc::{AllocError, Global};
use xref_list::{Components, End};

/// An end of a reference: a peer, or the temporary of a heavy class.
#[derive(Clone, Copy, PartialEq, Eq, Debug)]
pub enum MirrorEnd {
    Peer(u32),
    Temporary(u32),
}

// Whether a number is that of a row of the dead part.
fn is_dead(joint: &JointState, m: u32) -> bool
    ensures dead { result ≡ is_dead joint.now.graph.managed m }
    ensures made { OnTrue result (IsMade joint.now.graph.managed.heap m) }
{
    joint.dead().binary_search(&m).is_ok()
}

// The handle of a row of the dead part.
fn dead_handle(joint: &JointState, m: u32) -> Option<u32>
    ensures { result ≡ dead_handle joint.now.graph.managed m }
{
    if is_dead(joint, m) {
        joint.object_handle(m)
    } else {
        None
    }
}

// The node of a number.
fn add_node(joint: &JointState, m: u32, builder: &mut GraphBuilder) -> Result<(), AllocError>
    requires rising { All (λ n. n.number.0 < m) builder.old.nodes }
    requires few { length builder.old.nodes < u32.MAX - 1 }
    ensures nodes { OnOk result (builder.new.nodes ≡ builder.old.nodes ++ number_node joint.now.graph.managed m ∷ []) }
    ensures edges { OnOk result (builder.new.edges ≡ builder.old.edges ++ [] ∷ []) }
{
    let handle = match dead_handle(joint, m) {
        None => None,
        Some(h) => Some(HNum(h)),
    };
    builder.node(MNum(m), handle, false)?;
    Ok(())
}

// The nodes of all numbers.
fn add_nodes(joint: &JointState, builder: &mut GraphBuilder) -> Result<(), AllocError>
    requires nodes { builder.old.nodes ≡ [] }
    requires edges { builder.old.edges ≡ [] }
    ensures nodes { OnOk result (builder.new.nodes ≡ number_nodes joint.now.graph.managed) }
    ensures edges { OnOk result ((a : ℕ) → row_at builder.new.edges a ≡ []) }
{
    for m in 0..joint.objects().made() + 1 {
        add_node(joint, m, builder)?;
    }
    Ok(())
}

// The edge of a field, where that leads to a row of the dead part.
fn add_edge(
    joint: &JointState,
    m: u32,
    target: Option<u32>,
    builder: &mut GraphBuilder,
) -> Result<(), AllocError>
    requires nodes { builder.old.nodes ≡ number_nodes joint.now.graph.managed }
    requires from { IsMade joint.now.graph.managed.heap m }
    ensures nodes { builder.new.nodes ≡ builder.old.nodes }
    ensures edges { OnOk result ((a k : ℕ) → NodeLeads builder.new.edges a k ↔ (NodeLeads builder.old.edges a k
        ⊎ ((a ≡ m) × (target ≡ Some k) × (is_dead joint.now.graph.managed k ≡ true)))) }
{
    let Some(y) = target else {
        return Ok(());
    };
    if !is_dead(joint, y) {
        return Ok(());
    }
    let _ = builder.nodes();
    builder.edge(m, y)
}

// The edges of the fields of a live row.
fn add_fields(joint: &JointState, m: u32, builder: &mut GraphBuilder) -> Result<(), AllocError>
    requires nodes { builder.old.nodes ≡ number_nodes joint.now.graph.managed }
    requires from { IsMade joint.now.graph.managed.heap m }
    ensures nodes { builder.new.nodes ≡ builder.old.nodes }
    ensures edges { OnOk result ((a k : ℕ) → NodeLeads builder.new.edges a k ↔ (NodeLeads builder.old.edges a k
        ⊎ ((a ≡ m) × HasDead joint.now.graph.managed (fields_of joint.now.graph.managed.heap m) k))) }
{
    let heap = joint.objects();
    for j in 0..heap.fields_len(m) {
        add_edge(joint, m, heap.open_field(m, j), builder)?;
    }
    Ok(())
}

// The edges of a row; a freed one has none.
fn add_row(joint: &JointState, m: u32, builder: &mut GraphBuilder) -> Result<(), AllocError>
    requires nodes { builder.old.nodes ≡ number_nodes joint.now.graph.managed }
    ensures nodes { builder.new.nodes ≡ builder.old.nodes }
    ensures edges { OnOk result ((a k : ℕ) → NodeLeads builder.new.edges a k ↔ (NodeLeads builder.old.edges a k
        ⊎ ((a ≡ m) × HasField joint.now.graph.managed.heap m k × Contains (dead_of joint.now.graph.managed) k))) }
{
    if joint.objects().is_live(m) {
        add_fields(joint, m, builder)?;
    }
    Ok(())
}

// The edges of all rows of the dead part.
fn add_rows(joint: &JointState, builder: &mut GraphBuilder) -> Result<(), AllocError>
    requires nodes { builder.old.nodes ≡ number_nodes joint.now.graph.managed }
    requires edges { (a : ℕ) → row_at builder.old.edges a ≡ [] }
    ensures nodes { builder.new.nodes ≡ builder.old.nodes }
    ensures edges { OnOk result ((a k : ℕ) → NodeLeads builder.new.edges a k
        ↔ DeadEdge joint.now.graph.managed (dead_of joint.now.graph.managed) a k) }
{
    for m in joint.dead() {
        add_row(joint, *m, builder)?;
    }
    Ok(())
}

// The graph of the dead part.
fn dead_graph(alloc: Global, joint: &JointState) -> Result<DeadGraph, AllocError>
    ensures bridges { IfOk result (λ g. (x : ℕ) → IsBridgeNode g.nodes x
        ↔ (Contains (dead_of joint.now.graph.managed) x × IsBridge joint.now.graph.managed x)) }
    ensures edges { IfOk result (λ g. (a k : ℕ) → NodeLeads g.edges a k
        ↔ DeadEdge joint.now.graph.managed (dead_of joint.now.graph.managed) a k) }
{
    let mut builder = GraphBuilder::new(alloc);
    add_nodes(joint, &mut builder)?;
    add_rows(joint, &mut builder)?;
    let _objects = joint.objects();
    Ok(builder.finish())
}

// The peer of the handle that a row holds; 0 where it holds none.
fn peer_of_row(joint: &JointState, m: u32) -> u32
    ensures { result ≡ peer_of_row joint.now.graph.managed joint.now.graph.peers.issued m }
{
    let Some(h) = joint.object_handle(m) else {
        return 0;
    };
    match joint.handle(h) {
        None => 0,
        Some(row) => row.peer,
    }
}

// The end of an edge between rows, where so many components have members, carried to the peer of the row's handle.
fn carried(joint: &JointState, members: u32, end: End) -> MirrorEnd
    ensures { (e : exact.End) → end ≡ end_of members e
        → end_as result ≡ carried_end joint.now.graph.managed joint.now.graph.peers.issued e }
{
    match end {
        End::Temp(c) => MirrorEnd::Temporary(c.saturating_sub(members)),
        End::Node(m) => MirrorEnd::Peer(peer_of_row(joint, m)),
    }
}

// The mirror edges of components, carried to the peers.
fn carried_refs(
    alloc: Global,
    joint: &JointState,
    comps: &Components,
) -> Result<Vec<(MirrorEnd, MirrorEnd)>, AllocError>
    ensures { IfOk result (λ v. map ends_as v.items ≡ carried_edges joint.now.graph.managed
        joint.now.graph.peers.issued (exact.mirror_edges comps.now.comps comps.now.pairs)) }
{
    let members = comps.len() - comps.heavy();
    let mut refs = Vec::new(alloc);
    for i in 0..comps.refs() {
        let (from, to) = comps.mirror_edge(i);
        refs.push((carried(joint, members, from), carried(joint, members, to)))?;
    }
    Ok(refs)
}

/// The references that a mirror adds: circles in the components of the open cycle's dead part, and one for each
/// cross-reference, between the peers of their rows and the temporaries of heavy classes. Answers `AllocError` where
/// there is no memory.
pub fn mirrored_refs(
    alloc: Global,
    joint: &JointState,
) -> Result<Vec<(MirrorEnd, MirrorEnd)>, AllocError>
    ensures { IfOk result (λ v. AreMirrored joint.now.graph (map ends_as v.items)) }
{
    let graph = dead_graph(alloc, joint)?;
    match contract(alloc, &graph) {
        Ok(comps) => carried_refs(alloc, joint, &comps),
        Err(_) => Err(AllocError),
    }
}
