// Rows that lie in arrays, as a graph that is walked.

ghost use Rattle.std.specs.Prelude.{◌≡◌, ℕ, ◌<◌, length};
ghost use Rattle.array_graphs.specs.Graphs.{LeadsInRow};
ghost use Rattle.bridge_graph.specs.Packing.{IsCut};
ghost use Rattle.cycle_check.specs.Walking.{row_targets};

use bridge_graph::packed_row;
use reachability::Walked;

/// Rows of nodes: a start for each, and one list of targets, which are nodes.
#[derive(Drop)]
pub(crate) struct RowGraph<'a> {
    pub(crate) starts: &'a [u32],
    pub(crate) targets: &'a [u32],
    pub ghost cut: { IsCut starts.now targets.now },
    pub ghost ends: { (x y : ℕ) → LeadsInRow starts.now targets.now x y → y < length starts.now },
}

impl Walked for RowGraph<'_> {
    ghost nodes = { λ g. length g.starts.now };

    ghost targets = { λ g x. row_targets g.starts.now g.targets.now x };

    fn len(&self) -> usize {
        self.starts.len()
    }

    fn degree(&self, x: usize) -> usize {
        packed_row(self.starts, self.targets, x).len()
    }

    fn target(&self, x: usize, i: usize) -> Option<u32> {
        Some(packed_row(self.starts, self.targets, x)[i])
    }
}
