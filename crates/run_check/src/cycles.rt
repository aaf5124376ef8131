// What is kept of the open cycle: its dead part, the components, which candidate is next, and what the restores have
// answered.

ghost use Rattle.std.specs.Prelude.{◌≡◌, ◌+◌, ◌<◌, ◌≤◌, [], ℕ, IfOk, IsSome, None, Some, drop, length};
ghost use Rattle.bridge_graph.specs.Handles.{handle_at, handles_of};
ghost use Rattle.bridge_graph.specs.Parts.{IsPart};
ghost use Rattle.run_check.specs.Cycles.{IsAtHandle};

use bridge_graph::DeadGraph;
use joint_model::{Alive, Cycle, HNum};
use std::alloc::{AllocError, Global};
use xref_list::Components;

/// The open cycle. `place` is the node of the candidate that is next to be weakened or restored; behind the last node
/// none is.
#[derive(Drop)]
pub(crate) struct OpenCycle {
    pub(crate) cycle: Cycle,
    pub(crate) candidates: u32,
    pub(crate) graph: DeadGraph,
    pub(crate) comps: Option<Components>,
    pub(crate) alive: Alive,
    place: u32,
}

// The first bridge node from that one on; behind the last node where none is.
fn bridge_node(graph: &DeadGraph, from: u32) -> u32
    requires { from ≤ length graph.now.nodes }
    ensures within { result ≤ length graph.now.nodes }
    ensures rest { handles_of (drop result graph.now.nodes) ≡ handles_of (drop from graph.now.nodes) }
    ensures bridge { result < length graph.now.nodes → IsSome (handle_at graph.now.nodes result) }
{
    for i in from..graph.nodes() {
        if let Some(_) = graph.handle(i) {
            return i;
        }
    }
    graph.nodes()
}

/// Keeps the cycle that was opened.
pub(crate) fn keep(cycle: &mut Option<OpenCycle>, opened: OpenCycle)
    ensures { cycle.new ≡ Some opened }
{
    *cycle = Some(opened);
}

/// Keeps the components of an open cycle.
pub(crate) fn list(comps: &mut Option<Components>, listed: Components)
    ensures { comps.new ≡ Some listed }
{
    *comps = Some(listed);
}

/// Lets go of the cycle that was closed.
pub(crate) fn forget(cycle: &mut Option<OpenCycle>)
    ensures { cycle.new ≡ None }
{
    *cycle = None;
}

impl OpenCycle {
    /// A cycle that was just opened. Answers `AllocError` where there is no memory for its answers.
    pub(crate) fn new(
        alloc: Global,
        cycle: Cycle,
        candidates: u32,
        graph: DeadGraph,
    ) -> Result<OpenCycle, AllocError>
        ensures cycle { IfOk result (λ o. o.cycle ≡ cycle) }
        ensures candidates { IfOk result (λ o. o.candidates ≡ candidates) }
        ensures graph { IfOk result (λ o. o.graph ≡ graph) }
        ensures part { IfOk result (λ o. IsPart o.graph.nodes o.graph.edges) }
        ensures comps { IfOk result (λ o. o.comps ≡ None) }
        ensures alive { IfOk result (λ o. o.alive ≡ record { values = []; room = candidates }) }
        ensures first { IfOk result (λ o. IsAtHandle o.graph.nodes o.place 0) }
    {
        match Alive::new(alloc, candidates) {
            Err(error) => {
                drop(graph);
                Err(error)
            }
            Ok(alive) => {
                let place = bridge_node(&graph, 0);
                Ok(OpenCycle {
                    cycle,
                    candidates,
                    graph,
                    comps: None,
                    alive,
                    place,
                })
            }
        }
    }

    /// The handle of the candidate that is next.
    pub(crate) fn next(&self) -> Option<HNum>
        ensures { result ≡ handle_at self.now.graph.nodes self.now.place }
    {
        if self.place < self.graph.nodes() {
            self.graph.handle(self.place)
        } else {
            None
        }
    }

    /// Goes on to the next candidate.
    pub(crate) fn go_on(&mut self)
        ensures next { (n : ℕ) → n < length (handles_of self.old.graph.nodes)
            → IsAtHandle self.old.graph.nodes self.old.place n
            → IsAtHandle self.new.graph.nodes self.new.place (n + 1) }
        ensures rest { self.new ≡ record self.old { place = self.new.place } }
    {
        if self.place < self.graph.nodes() {
            self.place = bridge_node(&self.graph, self.place + 1);
        }
    }

    /// Goes back to the first candidate.
    pub(crate) fn begin_again(&mut self)
        ensures first { IsAtHandle self.new.graph.nodes self.new.place 0 }
        ensures rest { self.new ≡ record self.old { place = self.new.place } }
    {
        self.place = bridge_node(&self.graph, 0);
    }
}
