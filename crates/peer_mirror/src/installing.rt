// The references come to stand.

ghost use Rattle.std.specs.Prelude.{◌≡◌, ◌≤◌, [], length, IfOk, IfSome, OnErr, OnOk, Some, None};
ghost use Rattle.joint_machine.specs.Components as exact;
ghost use Rattle.joint_machine.specs.Components.{mirror_edges};
ghost use Rattle.joint_machine.specs.Heaps.{IsLive};
ghost use Rattle.joint_machine.specs.PeerReplay.{MayMirror};
ghost use Rattle.joint_machine.specs.Sides.{peer_rules, MayDraw};
ghost use Rattle.bridge_graph.specs.Handles.{handles_of};
ghost use Rattle.bridge_graph.specs.Parts.{IsBridgeNode};
ghost use Rattle.xref_list.specs.Ends.{end_of};
ghost use Rattle.peer_heap.specs.Cycles.{mirrors};
ghost use Rattle.peer_heap.specs.Mirroring.{end_of as ref_end};
ghost use Rattle.peer_heap.specs.Mirrors.{MayStand};
ghost use Rattle.peer_heap.specs.Sides.{seen, AddsPeer};
ghost use Rattle.peer_mirror.specs.Carried.{IsCarried, IsEdgeEnd, carried_end, peer_of_node, mirrored_edges};
ghost use Rattle.peer_mirror.specs.Carried.{mirror_told};
ghost use Rattle.peer_mirror.specs.Carried.{reserve_installed, with_pushed, AreBridgeNodes, AreHandlesStrong};

use bridge_graph::DeadGraph;
use joint_model::{Cycle, Draw, Op, PNum, Thread};
use peer_heap::{PeerSide, RefEnd};
use std::alloc::AllocError;
use xref_list::{Components, End};

/// Mirrors a cycle's dead part: references come to stand between the peers of its handles and temporaries, one for each
/// mirror edge of its components, in their order, and no other. A component without members has a temporary, which
/// references lead over. One entry is drawn and put last, and their number is answered. Each member of a component has
/// to be a bridge node of the part, and each handle of the part strong.
///
/// All room is taken first, by one `reserve_refs` for these references and temporaries, and for as many handles as the
/// part has bridge nodes; so the cycle's weakenings, marking, restores and clear take none. Answers `AllocError`, with
/// the side and the draw as before, where there is no memory. It takes time linear in nodes and references.
pub fn install<D: Draw>(
    side: &mut PeerSide,
    draw: &mut D,
    index: u32,
    cycle: Cycle,
    cites: u64,
    graph: &DeadGraph,
    comps: &Components,
) -> Result<u32, AllocError>
    requires members { AreBridgeNodes graph.now.nodes comps.now.comps }
    requires strong_ones { AreHandlesStrong side.old.state graph.now.nodes }
    requires none_waits { side.old.reserve.waiting ≡ [] }
    requires mirrors { MayMirror side.old.state cycle.0 (Some cites) }
    requires may { MayDraw peer_rules D.rules draw.old (seen side.old) Thread.C (Op.Mirror cycle) }
    ensures adds { IfOk result (λ n. AddsPeer D.rules draw.old draw.new side.old side.new
        (mirrors index cycle n cites) (mirror_told side.old.state graph.now.nodes comps.now)) }
    ensures number { IfOk result (λ refs. refs ≡ length (mirror_edges comps.now.comps comps.now.pairs)) }
    ensures refs { OnOk result (side.new.state.refs ≡ mirrored_edges side.old.state graph.now.nodes comps.now) }
    ensures peers { side.new.state.peers ≡ side.old.state.peers }
    ensures reserve { OnOk result (side.new.reserve ≡ reserve_installed (length (handles_of graph.now.nodes))) }
    ensures err { OnErr result ((side.new ≡ side.old) × (draw.new ≡ draw.old)) }
{
    side.recall_replays();
    let _ = comps.len();
    let handles = bridge_nodes(graph);
    side.reserve_refs(comps.refs(), comps.heavy(), handles)?;
    push_edges(side, graph, comps);
    Ok(side.stand(draw, index, cycle, cites))
}

// How many bridge nodes a part has.
fn bridge_nodes(graph: &DeadGraph) -> u32
    ensures { result ≡ length (handles_of graph.now.nodes) }
{
    let mut count = 0;
    for i in 0..graph.nodes() {
        if let Some(_) = graph.handle(i) {
            count += 1;
        }
    }
    count
}

// A reference waits for each mirror edge. There is room for them.
fn push_edges(side: &mut PeerSide, graph: &DeadGraph, comps: &Components)
    requires members { AreBridgeNodes graph.now.nodes comps.now.comps }
    requires strong_ones { AreHandlesStrong side.old.state graph.now.nodes }
    requires closed { side.old.state.mirror ≡ None }
    requires none_waits { side.old.reserve.waiting ≡ [] }
    requires room { length (mirror_edges comps.now.comps comps.now.pairs) ≤ side.old.reserve.refs }
    requires temps { comps.now.heavy ≤ side.old.reserve.temps }
    ensures { side.new ≡ with_pushed side.old (mirrored_edges side.old.state graph.now.nodes comps.now) }
{
    let members = comps.len() - comps.heavy();
    let mut last = None;
    for i in 0..comps.refs() {
        let edge = comps.mirror_edge(i);
        let from = from_end(side, graph, edge.0, members, last);
        let to = ref_end(side, graph, edge.1, members);
        side.push_ref(from, to);
        last = Some((edge.0, from));
    }
}

// The end of a reference, which is at hand where it is that of the reference before: those from one component stand in
// a row.
#[inline(always)]
fn from_end(
    side: &PeerSide,
    graph: &DeadGraph,
    end: End,
    members: u32,
    last: Option<(End, RefEnd)>,
) -> RefEnd
    requires end { (e : exact.End) × (end ≡ end_of members e) × IsEdgeEnd graph.now.nodes side.now.reserve.temps e }
    requires strong_ones { AreHandlesStrong side.now.state graph.now.nodes }
    requires last { IfSome last (λ z. IsCarried side.now graph.now.nodes members z.0 (ref_end z.1)) }
    ensures carried { (e : exact.End) → end ≡ end_of members e
        → ref_end result ≡ carried_end side.now.state.peers.issued graph.now.nodes e }
    ensures stands { MayStand side.now.state.peers.heap side.now.reserve.temps (ref_end result) }
{
    match last {
        Some((before, carried)) if before == end => carried,
        _ => ref_end(side, graph, end, members),
    }
}

// The end of a reference that a mirror edge's end stands for: the peer of the node's handle, or the temporary, which is
// numbered behind the components with members there and from 0 on here.
#[inline(always)]
fn ref_end(side: &PeerSide, graph: &DeadGraph, end: End, members: u32) -> RefEnd
    requires end { (e : exact.End) × (end ≡ end_of members e) × IsEdgeEnd graph.now.nodes side.now.reserve.temps e }
    requires strong_ones { AreHandlesStrong side.now.state graph.now.nodes }
    ensures carried { (e : exact.End) → end ≡ end_of members e
        → ref_end result ≡ carried_end side.now.state.peers.issued graph.now.nodes e }
    ensures stands { MayStand side.now.state.peers.heap side.now.reserve.temps (ref_end result) }
{
    match end {
        End::Node(i) => RefEnd::Peer(peer_at(side, graph, i)),
        End::Temp(c) => RefEnd::Temp(c - members),
    }
}

// The peer of a bridge node's handle.
#[inline(always)]
fn peer_at(side: &PeerSide, graph: &DeadGraph, i: u32) -> PNum
    requires node { IsBridgeNode graph.now.nodes i }
    requires strong_ones { AreHandlesStrong side.now.state graph.now.nodes }
    ensures peer { result.0 ≡ peer_of_node side.now.state.peers.issued graph.now.nodes i }
    ensures live { IsLive side.now.state.peers.heap result.0 }
{
    side.recall_replays();
    let Some(h) = graph.handle(i) else {
        unreachable!();
    };
    let Some(p) = side.handles().target(h) else {
        unreachable!();
    };
    p
}
