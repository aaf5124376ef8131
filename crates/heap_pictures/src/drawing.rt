// The picture of what there is to see.

ghost use Rattle.std.specs.Prelude.{◌≡◌, ◌++◌, ◌<◌, OnOk, IfOk, length};
ghost use Rattle.joint_machine.specs.Heaps.{fields_of};
ghost use Rattle.heap_views.specs.Mirrored.{end_as, ends_as};
ghost use Rattle.heap_pictures.specs.Drawing.{all_slots, arrows_of, boxes, drawing_of, drawn_of, field_arrow};
ghost use Rattle.heap_pictures.specs.Drawing.{field_arrows, object_arrows, object_node, object_nodes, peer_node};
ghost use Rattle.heap_pictures.specs.Drawing.{peer_nodes, ref_arrow, ref_arrows, ref_spot, row_arrows, slot_arrows};
ghost use Rattle.heap_pictures.specs.Drawing.{spot_of};

use crate::handles::{push_boxes, push_ties};
use crate::pictures::{Arrow, ObjectNode, PeerNode, Picture, Side, Slots, Spot};
use crate::slots::{is_there, push_slots};
use heap_views::{HeapView, MirrorEnd};
use joint_replay::{JointState, PlainHeap};
use std::alloc::{AllocError, Global};

// The node of a managed object that isn't freed.
fn push_object(joint: &JointState, m: u32, nodes: &mut Vec<ObjectNode>) -> Result<(), AllocError>
    ensures { OnOk result (nodes.new.items ≡ nodes.old.items ++ object_node joint.now m) }
{
    if joint.objects().is_live(m) {
        nodes.push(ObjectNode {
            m,
            kind: joint.kind(m),
        })?;
    }
    Ok(())
}

// The nodes of the managed objects.
fn object_nodes(alloc: Global, joint: &JointState) -> Result<Vec<ObjectNode>, AllocError>
    ensures { IfOk result (λ v. v.items ≡ object_nodes joint.now) }
{
    let mut nodes = Vec::new(alloc);
    for i in 0..joint.objects().made() {
        push_object(joint, i + 1, &mut nodes)?;
    }
    Ok(nodes)
}

// The node of a peer that isn't freed.
fn push_peer(joint: &JointState, p: u32, nodes: &mut Vec<PeerNode>) -> Result<(), AllocError>
    ensures { OnOk result (nodes.new.items ≡ nodes.old.items ++ peer_node joint.now p) }
{
    if joint.peers().is_live(p) {
        nodes.push(PeerNode {
            p,
            sort: joint.sort(p),
        })?;
    }
    Ok(())
}

// The nodes of the peers.
fn peer_nodes(alloc: Global, joint: &JointState) -> Result<Vec<PeerNode>, AllocError>
    ensures { IfOk result (λ v. v.items ≡ peer_nodes joint.now) }
{
    let mut nodes = Vec::new(alloc);
    for i in 0..joint.peers().made() {
        push_peer(joint, i + 1, &mut nodes)?;
    }
    Ok(nodes)
}

// The objects of a list that have a node.
fn drawn_of(alloc: Global, joint: &JointState, objects: &[u32]) -> Result<Vec<u32>, AllocError>
    ensures { IfOk result (λ v. v.items ≡ drawn_of joint.now objects.now) }
{
    let mut drawn = Vec::new(alloc);
    for m in objects {
        if joint.objects().is_live(*m) {
            drawn.push(*m)?;
        }
    }
    Ok(drawn)
}

// An object of a heap.
fn spot_of(side: Side, x: u32) -> Spot
    ensures { result ≡ spot_of side x }
{
    match side {
        Side::Managed => Spot::Object(x),
        Side::Peers => Spot::Peer(x),
    }
}

// The arrow of one field.
fn push_field(
    side: Side,
    heap: &PlainHeap,
    x: u32,
    i: usize,
    arrows: &mut Vec<Arrow>,
) -> Result<(), AllocError>
    requires { i < length (fields_of heap.now x) }
    ensures { OnOk result (arrows.new.items ≡ arrows.old.items ++ field_arrow side heap.now x i) }
{
    if let Some(y) = heap.open_field(x, i) {
        arrows.push(Arrow::Field {
            from: spot_of(side, x),
            i,
            to: spot_of(side, y),
        })?;
    }
    Ok(())
}

// The arrows of one object's fields.
fn push_row(side: Side, heap: &PlainHeap, x: u32, arrows: &mut Vec<Arrow>) -> Result<(), AllocError>
    ensures { OnOk result (arrows.new.items ≡ arrows.old.items ++ row_arrows side heap.now x) }
{
    for i in 0..heap.fields_len(x) {
        push_field(side, heap, x, i, arrows)?;
    }
    Ok(())
}

// The arrows of an object's fields, where it isn't freed.
fn push_live_row(
    side: Side,
    heap: &PlainHeap,
    x: u32,
    arrows: &mut Vec<Arrow>,
) -> Result<(), AllocError>
    ensures { OnOk result (arrows.new.items ≡ arrows.old.items ++ object_arrows side heap.now x) }
{
    if heap.is_live(x) {
        return push_row(side, heap, x, arrows);
    }
    Ok(())
}

// The arrows of the fields of a heap.
fn push_fields(side: Side, heap: &PlainHeap, arrows: &mut Vec<Arrow>) -> Result<(), AllocError>
    ensures { OnOk result (arrows.new.items ≡ arrows.old.items ++ field_arrows side heap.now) }
{
    for i in 0..heap.made() {
        push_live_row(side, heap, i + 1, arrows)?;
    }
    Ok(())
}

// An end of a reference.
fn spot_of_end(end: MirrorEnd) -> Spot
    ensures { result ≡ ref_spot (end_as end) }
{
    match end {
        MirrorEnd::Peer(p) => Spot::Peer(p),
        MirrorEnd::Temporary(i) => Spot::Temporary(i),
    }
}

// The arrow of a reference.
fn push_ref(
    joint: &JointState,
    ends: (MirrorEnd, MirrorEnd),
    arrows: &mut Vec<Arrow>,
) -> Result<(), AllocError>
    ensures { OnOk result (arrows.new.items ≡ arrows.old.items ++ ref_arrow joint.now (ends_as ends)) }
{
    let from = spot_of_end(ends.0);
    let to = spot_of_end(ends.1);
    if is_there(joint, from) && is_there(joint, to) {
        arrows.push(Arrow::Refers { from, to })?;
    }
    Ok(())
}

// The arrows of the references that a cycle added.
fn push_refs(view: &HeapView, arrows: &mut Vec<Arrow>) -> Result<(), AllocError>
    ensures { OnOk result (arrows.new.items ≡ arrows.old.items ++ ref_arrows view.now) }
{
    for ends in view.refs() {
        push_ref(view.joint(), *ends, arrows)?;
    }
    Ok(())
}

// The variables of managed threads.
fn push_managed_vars(joint: &JointState, arrows: &mut Vec<Arrow>) -> Result<(), AllocError>
    ensures { OnOk result (arrows.new.items ≡ arrows.old.items ++ slot_arrows
        joint.now Slots.ManagedVars joint.now.graph.managed.heap.vars) }
{
    push_slots(joint, Slots::ManagedVars, joint.objects().vars(), arrows)
}

// The statics of the managed heap.
fn push_managed_statics(joint: &JointState, arrows: &mut Vec<Arrow>) -> Result<(), AllocError>
    ensures { OnOk result (arrows.new.items ≡ arrows.old.items ++ slot_arrows
        joint.now Slots.ManagedStatics joint.now.graph.managed.heap.statics) }
{
    push_slots(
        joint,
        Slots::ManagedStatics,
        joint.objects().statics(),
        arrows,
    )
}

// The pins.
fn push_pins(joint: &JointState, arrows: &mut Vec<Arrow>) -> Result<(), AllocError>
    ensures { OnOk result (arrows.new.items ≡ arrows.old.items ++ slot_arrows
        joint.now Slots.Pins joint.now.graph.managed.pins) }
{
    push_slots(joint, Slots::Pins, joint.pins(), arrows)
}

// The variables of peer threads.
fn push_peer_vars(joint: &JointState, arrows: &mut Vec<Arrow>) -> Result<(), AllocError>
    ensures { OnOk result (arrows.new.items ≡ arrows.old.items ++ slot_arrows
        joint.now Slots.PeerVars joint.now.graph.peers.heap.vars) }
{
    push_slots(joint, Slots::PeerVars, joint.peers().vars(), arrows)
}

// The statics of the peer heap.
fn push_peer_statics(joint: &JointState, arrows: &mut Vec<Arrow>) -> Result<(), AllocError>
    ensures { OnOk result (arrows.new.items ≡ arrows.old.items ++ slot_arrows
        joint.now Slots.PeerStatics joint.now.graph.peers.heap.statics) }
{
    push_slots(joint, Slots::PeerStatics, joint.peers().statics(), arrows)
}

// The global names.
fn push_names(joint: &JointState, arrows: &mut Vec<Arrow>) -> Result<(), AllocError>
    ensures { OnOk result (arrows.new.items ≡ arrows.old.items ++ slot_arrows
        joint.now Slots.Names joint.now.graph.peers.names) }
{
    push_slots(joint, Slots::Names, joint.names(), arrows)
}

// The arrows of all slots.
fn push_all_slots(joint: &JointState, arrows: &mut Vec<Arrow>) -> Result<(), AllocError>
    ensures { OnOk result (arrows.new.items ≡ arrows.old.items ++ all_slots joint.now) }
{
    push_managed_vars(joint, arrows)?;
    push_managed_statics(joint, arrows)?;
    push_pins(joint, arrows)?;
    push_peer_vars(joint, arrows)?;
    push_peer_statics(joint, arrows)?;
    push_names(joint, arrows)?;
    Ok(())
}

// The arrows of the managed objects' fields.
fn push_object_fields(view: &HeapView, arrows: &mut Vec<Arrow>) -> Result<(), AllocError>
    ensures { OnOk result (arrows.new.items ≡ arrows.old.items ++ field_arrows
        Side.Managed view.now.joint.graph.managed.heap) }
{
    push_fields(Side::Managed, view.joint().objects(), arrows)
}

// The arrows of the peers' fields.
fn push_peer_fields(view: &HeapView, arrows: &mut Vec<Arrow>) -> Result<(), AllocError>
    ensures { OnOk result (arrows.new.items ≡ arrows.old.items ++ field_arrows
        Side.Peers view.now.joint.graph.peers.heap) }
{
    push_fields(Side::Peers, view.joint().peers(), arrows)
}

// The arrows of all slots of what there is to see, and the boxes of its handles.
fn push_view_slots(view: &HeapView, arrows: &mut Vec<Arrow>) -> Result<(), AllocError>
    ensures { OnOk result (arrows.new.items ≡ arrows.old.items ++ all_slots view.now.joint) }
{
    push_all_slots(view.joint(), arrows)
}

fn push_view_boxes(
    alloc: Global,
    view: &HeapView,
    arrows: &mut Vec<Arrow>,
) -> Result<(), AllocError>
    ensures { OnOk result (arrows.new.items ≡ arrows.old.items ++ boxes view.now.joint) }
{
    push_boxes(alloc, view.joint(), arrows)
}

// All arrows.
fn arrows_of(alloc: Global, view: &HeapView) -> Result<Vec<Arrow>, AllocError>
    ensures { IfOk result (λ v. v.items ≡ arrows_of view.now) }
{
    let mut arrows = Vec::new(alloc);
    push_object_fields(view, &mut arrows)?;
    push_peer_fields(view, &mut arrows)?;
    push_ties(alloc, view, &mut arrows)?;
    push_view_slots(view, &mut arrows)?;
    push_view_boxes(alloc, view, &mut arrows)?;
    push_refs(view, &mut arrows)?;
    Ok(arrows)
}

/// The picture of what there is to see. Answers `AllocError` where there is no memory.
pub fn picture_of(alloc: Global, view: &HeapView) -> Result<Picture, AllocError>
    ensures { IfOk result (λ p. p ≡ drawing_of view.now) }
{
    let joint = view.joint();
    Ok(Picture {
        objects: object_nodes(alloc, joint)?,
        peers: peer_nodes(alloc, joint)?,
        dead: drawn_of(alloc, joint, joint.dead())?,
        candidates: drawn_of(alloc, joint, joint.candidates())?,
        arrows: arrows_of(alloc, view)?,
    })
}
