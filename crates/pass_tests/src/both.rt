// Both passes on one graph.

ghost use Rattle.std.specs.Prelude.{◌≡◌, IfOk};

use bridge_graph::DeadGraph;
use compare_pass::second_pass;
use component_pass::contract;
use std::alloc::Global;
use xref_list::{Components, ListingFault};

/// What both passes list of a graph, the fast pass first: it is the same for every graph.
pub fn run_both(alloc: Global, graph: &DeadGraph) -> Result<(Components, Components), ListingFault>
    ensures { IfOk result (λ both. (both.0.comps ≡ both.1.comps)
        × (both.0.heavy ≡ both.1.heavy) × (both.0.pairs ≡ both.1.pairs)) }
{
    let fast = contract(alloc, graph)?;
    let second = second_pass(alloc, graph)?;
    Ok((fast, second))
}
