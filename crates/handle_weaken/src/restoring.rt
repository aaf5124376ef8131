// Restoring: the handles of a dead part leave the table, and those that still lead to a peer are replaced by strong
// ones.

ghost use Rattle.std.specs.Prelude.{◌≡◌, ◌≢◌, ◌≤◌, ◌+◌, ◌↔◌, length, true, All, AllPairs, Some};
ghost use Rattle.joint_machine.specs.declared.names.HNum.{HNum};
ghost use Rattle.joint_machine.specs.Peers.{next_handle};
ghost use Rattle.joint_machine.specs.PeerReplay.{MayRestore, TableRow, row_of};
ghost use Rattle.joint_machine.specs.Sides.{peer_rules, MayDraw};
ghost use Rattle.joint_machine.specs.Told.{nothing};
ghost use Rattle.bridge_graph.specs.Handles.{handles_of};
ghost use Rattle.peer_heap.specs.Cycles.{restores};
ghost use Rattle.peer_heap.specs.Sides.{seen, AddsPeer};
ghost use Rattle.handle_weaken.specs.Entries.{RestoresInTurn};

use bridge_graph::DeadGraph;
use global_handles::Back;
use joint_model::{Alive, Draw, HNum, Op, Thread};
use peer_heap::PeerSide;

/// Restores a handle that was weakened in the mirrored cycle: it leaves the table. Exactly where it is cleared that is
/// all, which is `Cleared`; else a held strong handle on its peer comes in its place, under the next number, and the
/// peer is brought back: while a marking is open it is shaded. One entry is drawn and put last. It takes no memory, and
/// changes no peer.
pub fn restore_one<D: Draw>(side: &mut PeerSide, draw: &mut D, index: u32, h: HNum) -> Back
    requires restores { MayRestore side.old.state h.0 }
    requires may { MayDraw peer_rules D.rules draw.old (seen side.old) Thread.C (Op.Restore h) }
    ensures adds { AddsPeer D.rules draw.old draw.new side.old side.new (restores index h result) nothing }
    ensures cleared { (row : TableRow) → row_of side.old.state h.0 ≡ Some row
        → ((result ≡ Back.Cleared) ↔ (row.cleared ≡ true)) }
    ensures number { (g : HNum) → result ≡ Back.Alive g → g.0 ≡ next_handle side.old.state.peers }
    ensures reserve { side.new.reserve ≡ side.old.reserve }
    ensures peers { side.new.state.peers ≡ record side.old.state.peers { issued = side.new.state.peers.issued } }
{
    side.restore(draw, index, h)
}

/// Restores the handle of each bridge node, in the order of the nodes, and puts the answers last in `alive`: the handle
/// that each restore gave, or none. An entry is drawn and put last for each. It takes no memory, and changes no peer.
pub fn restore_all<D: Draw>(
    side: &mut PeerSide,
    draw: &mut D,
    index: u32,
    graph: &DeadGraph,
    alive: &mut Alive,
)
    requires apart { AllPairs (λ h k. h.0 ≢ k.0) (handles_of graph.now.nodes) }
    requires room { length (handles_of graph.now.nodes) ≤ alive.old.room }
    requires restores { All (λ h. MayRestore side.old.state h.0) (handles_of graph.now.nodes) }
    requires may { All (λ h. MayDraw peer_rules D.rules draw.old (seen side.old) Thread.C (Op.Restore h))
        (handles_of graph.now.nodes) }
    ensures restores { RestoresInTurn D.rules draw.old draw.new (seen side.old)
        (seen side.new) index (handles_of graph.now.nodes) alive.old.values alive.new.values }
    ensures room { alive.new.room + length (handles_of graph.now.nodes) ≡ alive.old.room }
    ensures reserve { side.new.reserve ≡ side.old.reserve }
    ensures peers { side.new.state.peers ≡ record side.old.state.peers { issued = side.new.state.peers.issued } }
{
    for i in 0..graph.nodes() {
        if let Some(h) = graph.handle(i) {
            let back = restore_one(side, draw, index, h);
            alive.push(back.given());
        }
    }
}
