// The next phase: the stage is taken apart, its entries are made, and the driver is in the next stage, or has abandoned
// the cycle.

ghost use Rattle.std.specs.Prelude.{◌≡◌, ℕ, ◌≤◌, List, [], ◌∷◌, length, IfOk, OnErr};
ghost use Rattle.joint_machine.specs.Components.{IsContraction};
ghost use Rattle.bridge_graph.specs.Parts.{IsBridgeNode, IsPart, NodeLeads};
ghost use Rattle.bridge_cycle.specs.Progress.{EndsWithReply, line_of};
ghost use Rattle.bridge_cycle.specs.Words.{Lacks, next_word};

use crate::driver::Driver;
use crate::handles::{restore_all, weaken_all};
use crate::stages::Stage;
use bridge_graph::DeadGraph;
use component_pass::contract;
use joint_history::{Keeps, Shared};
use joint_model::{Alive, Reply};
use order_table::OrderName;
use std::alloc::{AllocError, Global};
use std::mem;
use std::sync::Wait;
use xref_list::{Components, ListingFault};

// A graph is one that a dead part can have.
fn graph_is_part(graph: &DeadGraph)
    ensures { IsPart graph.now.nodes graph.now.edges }
{
    let _ = graph.nodes();
}

// The components of a dead part, and room for an answer of each of so many candidates.
fn components_of(
    alloc: Global,
    graph: &DeadGraph,
    candidates: u32,
) -> Result<(Components, Alive), ListingFault>
    ensures comps { IfOk result (λ found. (heavy : List ℕ) × (length heavy ≡ found.0.heavy)
        × IsContraction (IsBridgeNode graph.now.nodes) (NodeLeads graph.now.edges) found.0.comps heavy found.0.pairs) }
    ensures room { IfOk result (λ found. (found.1.values ≡ []) × (found.1.room ≡ candidates)) }
{
    let comps = contract(alloc, graph)?;
    let alive = Alive::new(alloc, candidates)?;
    Ok((comps, alive))
}

impl<N: OrderName> Driver<N> {
    /// Runs the next phase. Answers `AllocError` where there is no memory, which only the first three take; after the
    /// snapshot the cycle is abandoned then, whose dead part is left as it is for a later cycle to find. The driver is
    /// idle in either case.
    pub(crate) fn advance<K: Keeps<N>>(
        &mut self,
        rt: &impl Wait,
        alloc: Global,
        shared: &Shared<N, K>,
        index: u32,
    ) -> Result<Reply, AllocError>
        requires index { line_of self.old ≤ index }
        ensures index { line_of self.new ≤ index }
        ensures ok { IfOk result (λ reply. EndsWithReply self.old self.new index
            (next_word self.old.phase ∷ []) reply) }
        ensures err { OnErr result (Lacks self.old self.new index (next_word self.old.phase)) }
    {
        match mem::replace(&mut self.stage, Stage::Idle) {
            Stage::Idle => {
                let Ok(opened) = shared.snap(rt, &mut self.caller, index) else {
                    return Err(AllocError);
                };
                graph_is_part(&opened.graph);
                let reply = Reply::Snapped(opened.candidates, opened.freed);
                self.cycle = opened.cycle;
                self.candidates = opened.candidates;
                self.stage.becomes(Stage::Snapped { opened });
                Ok(reply)
            }
            Stage::Snapped { opened } => {
                let Ok((comps, alive)) = components_of(alloc, &opened.graph, self.candidates) else {
                    shared.abandon(rt, &mut self.caller, index);
                    return Err(AllocError);
                };
                let sccs = comps.len();
                let xrefs = comps.xrefs();
                shared.contracted(rt, &mut self.caller, index, sccs, xrefs);
                self.stage.becomes(Stage::Contracted {
                    opened,
                    comps,
                    alive,
                });
                Ok(Reply::Sccs(sccs, xrefs))
            }
            Stage::Contracted {
                opened,
                comps,
                alive,
            } => {
                let Ok((_, refs)) = shared.mirror(
                    rt,
                    &mut self.caller,
                    index,
                    self.cycle,
                    opened.number,
                    &opened.graph,
                    &comps,
                ) else {
                    shared.abandon(rt, &mut self.caller, index);
                    return Err(AllocError);
                };
                self.stage.becomes(Stage::Mirrored { opened, alive });
                Ok(Reply::Refs(refs))
            }
            Stage::Mirrored { opened, alive } => {
                weaken_all(rt, shared, &mut self.caller, index, &opened);
                self.stage.becomes(Stage::Weakened { opened, alive });
                Ok(Reply::Ok)
            }
            Stage::Weakened { opened, alive } => {
                let begun = shared.mark(rt, &mut self.caller, index);
                self.stage.becomes(Stage::Marked { opened, alive });
                Ok(Reply::Mark(begun.marking))
            }
            Stage::Marked { opened, alive } => {
                let (_, swept) = shared.sweep(rt, &mut self.caller, index);
                self.stage.becomes(Stage::Swept { opened, alive });
                Ok(Reply::Swept(swept.marking, swept.freed))
            }
            Stage::Swept { opened, mut alive } => {
                restore_all(rt, shared, &mut self.caller, index, &opened, &mut alive);
                let clear = shared.clear(rt, &mut self.caller, index, self.cycle);
                self.stage.becomes(Stage::Restored {
                    opened,
                    alive,
                    clear,
                });
                Ok(Reply::Ok)
            }
            Stage::Restored { alive, clear, .. } => {
                let (_, out) = shared.resolve(rt, &mut self.caller, index, clear, &alive);
                Ok(Reply::Freed(out.freed))
            }
        }
    }
}
