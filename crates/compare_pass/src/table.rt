// A label for each node, found by the node's managed number.

ghost use Rattle.std.specs.Prelude.{◌≡◌, ℕ, ◌<◌, length, map, All, Contains, IfOk, OnOk, Some, slice_get, slice_index};
ghost use Rattle.std.specs.Prelude.{slice_set};
ghost use Rattle.bridge_graph.specs.Parts.{numbers_of};
ghost use Rattle.compare_pass.specs.Labelling.{no_label};
ghost use Rattle.compare_pass.specs.Tables.{Table};

use bridge_graph::DeadGraph;
use indexmap::IndexMap;
use joint_machine::MNum;
use std::alloc::{AllocError, Global};
use std::marker::Model;

/// Stands at a node in place of a label, where it has none.
pub(crate) const NO_LABEL: u32 = u32::MAX;

/// A label for each node, in a hashed table by managed number.
#[derive(Drop)]
pub(crate) struct NodeTable {
    entries: IndexMap<MNum, u32>,
}

impl Model for NodeTable {
    ghost use Rattle.compare_pass.specs.Tables.{Table};

    ghost Value = { Table };

    ghost use Rattle.std.specs.Prelude.{map};
    ghost use Rattle.joint_machine.specs.Components.{Rises};
    ghost use Rattle.compare_pass.specs.Tables.{table_of};

    ghost view = { λ t. table_of t.entries.entries };

    ghost invariant = { λ t. Rises (map (λ e. e.0.0) t.entries.entries) };
}

impl NodeTable {
    /// No node of the graph has a label.
    pub fn of(alloc: Global, graph: &DeadGraph) -> Result<NodeTable, AllocError>
        ensures numbers { IfOk result (λ t. t.numbers ≡ numbers_of graph.now.nodes) }
        ensures size { IfOk result (λ t. length t.labels ≡ length graph.now.nodes) }
        ensures bare { IfOk result (λ t. All (λ l. l ≡ no_label) t.labels) }
    {
        let mut entries = IndexMap::with_capacity(alloc, graph.nodes() as usize)?;
        for x in 0..graph.nodes() {
            entries.insert(graph.number(x), NO_LABEL)?;
        }
        Ok(NodeTable { entries })
    }

    /// The label of the node with that number.
    pub fn label(&self, m: MNum) -> u32
        requires { Contains self.now.numbers m.0 }
        ensures { (i : ℕ) → slice_get self.now.numbers i ≡ Some m.0 → result ≡ slice_index self.now.labels i }
    {
        match self.entries.get(&m) {
            Some(label) => *label,
            None => NO_LABEL,
        }
    }

    /// Gives the node with that number a label. It takes no memory that it hasn't, and so never answers `AllocError`.
    pub fn set(&mut self, m: MNum, label: u32) -> Result<(), AllocError>
        requires { Contains self.old.numbers m.0 }
        ensures numbers { OnOk result (self.new.numbers ≡ self.old.numbers) }
        ensures labels { (i : ℕ) → slice_get self.old.numbers i ≡ Some m.0
            → OnOk result (self.new.labels ≡ slice_set self.old.labels i label) }
    {
        match self.entries.insert(m, label) {
            Ok(_) => Ok(()),
            Err(_) => Err(AllocError),
        }
    }
}
