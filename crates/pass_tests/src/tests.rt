// Worked graphs and drawn ones.

ghost use Rattle.std.specs.Prelude.{◌<◌};

use crate::run_both;
use bridge_graph::{DeadGraph, GraphBuilder};
use compare_pass::second_pass;
use joint_machine::{HNum, MNum};
use std::alloc::Global;
use std::test::Fail;
use xref_list::Components;

// A graph of a node for each byte, `b` for a bridge node, with those of the edges that join two of its nodes.
fn graph_of(alloc: Global, kinds: &[u8], edges: &[(u32, u32)]) -> Result<DeadGraph, Fail> {
    let mut builder = GraphBuilder::new(alloc);
    let mut number = 0u32;
    for kind in kinds {
        number = number.saturating_add(3);
        if builder.next_is(MNum(number)) {
            builder.node(MNum(number), handle(*kind, number), false)?;
        }
    }
    for (from, to) in edges {
        if builder.may_lead(*from, *to) {
            builder.edge(*from, *to)?;
        }
    }
    Ok(builder.finish())
}

// The handle of a node.
fn handle(kind: u8, number: u32) -> Option<HNum> {
    if kind == b'b' {
        Some(HNum(number))
    } else {
        None
    }
}

// Whether two lists of components are the same in all that they tell.
fn are_same(one: &Components, other: &Components) -> bool {
    if one.len() != other.len() || one.heavy() != other.heavy() || one.xrefs() != other.xrefs() {
        return false;
    }
    for c in 0..one.len() {
        if c >= other.len() || one.objs(c) != other.objs(c) {
            return false;
        }
    }
    for i in 0..one.xrefs() {
        if i >= other.xrefs() || one.xref(i) != other.xref(i) {
            return false;
        }
    }
    true
}

// A drawn number below a bound, and the next state.
fn draw(state: &mut u64, below: u64) -> u64
    requires { 0 < below }
    ensures { result < below }
{
    *state = state
        .wrapping_mul(6_364_136_223_846_793_005)
        .wrapping_add(1_442_695_040_888_963_407);
    (*state >> 33) % below
}

// A drawn graph: up to `most` nodes, of which one in `plain` is a bridge node, and up to so many edges.
fn drawn(
    alloc: Global,
    state: &mut u64,
    most: u64,
    plain: u64,
    dense: u64,
) -> Result<DeadGraph, Fail>
    requires most { (0 < most) × (most < 1000) }
    requires plain { (0 < plain) × (plain < 1000) }
    requires dense { dense < 1000 }
{
    let nodes = draw(state, most) + 1;
    let mut kinds = Vec::new(alloc);
    for _ in 0..nodes {
        kinds.push(if draw(state, plain) == 0 { b'b' } else { b'p' })?;
    }
    let mut edges = Vec::new(alloc);
    for _ in 0..draw(state, nodes * dense + 1) {
        edges.push((draw(state, nodes) as u32, draw(state, nodes) as u32))?;
    }
    graph_of(alloc, &kinds, &edges)
}

// Three components lead to a plain node, and it leads to `out` others.
fn fan(alloc: Global, ins: u32, out: u32) -> Result<DeadGraph, Fail>
    requires few { (ins < 1000) × (out < 1000) }
{
    let mut kinds = Vec::new(alloc);
    let mut edges = Vec::new(alloc);
    for i in 0..ins {
        kinds.push(b'b')?;
        edges.push((i, ins))?;
    }
    kinds.push(b'p')?;
    for i in 0..out {
        kinds.push(b'b')?;
        edges.push((ins, ins + 1 + i))?;
    }
    graph_of(alloc, &kinds, &edges)
}

#[test]
fn passes_agree_on_drawn_graphs(rt: HostRuntime) -> Result<(), Fail> {
    let alloc = rt.alloc();
    let mut state = 20_261_130u64;
    for round in 0..400u64 {
        let graph = drawn(alloc, &mut state, 12 + round % 60, 1 + round % 7, round % 4)?;
        let (fast, second) = run_both(alloc, &graph)?;
        assert!(rt; are_same(&fast, &second));
    }
    Ok(())
}

#[test]
fn heavy_classes_are_listed(rt: HostRuntime) -> Result<(), Fail> {
    let alloc = rt.alloc();
    for (ins, out, len, heavy, xrefs) in &[
        (3u32, 20u32, 24u32, 1u32, 23u32),
        (3, 19, 22, 0, 57),
        (2, 30, 32, 0, 60),
    ] {
        let graph = fan(alloc, *ins, *out)?;
        let (fast, found) = run_both(alloc, &graph)?;
        assert_eq!(rt; found.len(), *len);
        assert_eq!(rt; found.heavy(), *heavy);
        assert_eq!(rt; found.xrefs(), *xrefs);
        assert!(rt; are_same(&found, &fast));
    }
    Ok(())
}

#[test]
fn a_circle_with_a_tail(rt: HostRuntime) -> Result<(), Fail> {
    let alloc = rt.alloc();
    let graph = graph_of(alloc, b"bbpbb", &[(0, 1), (1, 2), (2, 3), (3, 1), (2, 4)])?;
    let found = second_pass(alloc, &graph)?;
    assert_eq!(rt; found.len(), 3);
    assert_eq!(rt; found.objs(1), [1, 3].as_slice());
    assert_eq!(rt; found.xrefs(), 2);
    assert_eq!(rt; found.xref(0), (0, 1));
    assert_eq!(rt; found.xref(1), (1, 2));
    Ok(())
}
