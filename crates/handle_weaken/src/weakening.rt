// Weakening: the handles of a dead part keep their peers alive no more.

ghost use Rattle.std.specs.Prelude.{◌≡◌, ◌≢◌, ◌≤◌, ◌-◌, length, All, AllPairs, Some};
ghost use Rattle.joint_machine.specs.PeerReplay.{MayWeaken};
ghost use Rattle.joint_machine.specs.Sides.{peer_rules, AddsInTurn, MayDraw};
ghost use Rattle.joint_machine.specs.Told.{nothing};
ghost use Rattle.bridge_graph.specs.Handles.{handles_of};
ghost use Rattle.peer_heap.specs.Cycles.{reserve_left, weakens};
ghost use Rattle.peer_heap.specs.Sides.{seen, AddsPeer};
ghost use Rattle.handle_weaken.specs.Entries.{reserve_weakened, weakenings};

use bridge_graph::DeadGraph;
use joint_model::{Draw, HNum, Op, Thread};
use peer_heap::PeerSide;

/// Makes a held strong handle weak, in the mirrored cycle, which cites that snap: so the cycle's references stand, all
/// of them. One entry is drawn and put last. It takes no memory, and changes no peer.
pub fn weaken_one<D: Draw>(side: &mut PeerSide, draw: &mut D, index: u32, cites: u64, h: HNum)
    requires left { 1 ≤ side.old.reserve.left }
    requires weakens { MayWeaken side.old.state h.0 (Some cites) }
    requires may { MayDraw peer_rules D.rules draw.old (seen side.old) Thread.C (Op.Weaken h) }
    ensures adds { AddsPeer D.rules draw.old draw.new side.old side.new (weakens index h cites) nothing }
    ensures reserve { side.new.reserve ≡ reserve_left side.old.reserve }
    ensures peers { side.new.state.peers ≡ side.old.state.peers }
{
    side.weaken(draw, index, cites, h);
}

/// Makes the handle of each bridge node weak, in the order of the nodes. An entry is drawn and put last for each. It
/// takes no memory, and changes no peer.
pub fn weaken_all<D: Draw>(
    side: &mut PeerSide,
    draw: &mut D,
    index: u32,
    cites: u64,
    graph: &DeadGraph,
)
    requires apart { AllPairs (λ h k. h.0 ≢ k.0) (handles_of graph.now.nodes) }
    requires left { length (handles_of graph.now.nodes) ≤ side.old.reserve.left }
    requires weakens { All (λ h. MayWeaken side.old.state h.0 (Some cites)) (handles_of graph.now.nodes) }
    requires may { All (λ h. MayDraw peer_rules D.rules draw.old (seen side.old) Thread.C (Op.Weaken h))
        (handles_of graph.now.nodes) }
    ensures adds { AddsInTurn peer_rules D.rules draw.old draw.new (seen side.old)
        (seen side.new) (weakenings index cites (handles_of graph.now.nodes)) }
    ensures reserve { side.new.reserve ≡ reserve_weakened side.old.reserve (length (handles_of graph.now.nodes)) }
    ensures peers { side.new.state.peers ≡ side.old.state.peers }
{
    for i in 0..graph.nodes() {
        if let Some(h) = graph.handle(i) {
            weaken_one(side, draw, index, cites, h);
        }
    }
}
