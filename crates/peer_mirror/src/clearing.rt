// The references go.

ghost use Rattle.std.specs.Prelude.{◌≡◌, ◌++◌, [], ◌∷◌};
ghost use Rattle.joint_machine.specs.Draws.{numbered};
ghost use Rattle.joint_machine.specs.PeerReplay.{MayClear};
ghost use Rattle.joint_machine.specs.Sides.{peer_rules, MayDraw};
ghost use Rattle.joint_machine.specs.Told.{nothing};
ghost use Rattle.peer_heap.specs.Cycles.{clears, reserve_over};
ghost use Rattle.peer_heap.specs.Mirrors.{AreTargetsRestored, AreRestoredEndsLive};
ghost use Rattle.peer_heap.specs.Sides.{seen, AddsPeer};

use joint_model::{Cycle, Draw, Op, Thread};
use peer_heap::PeerSide;

/// Ends the mirrored cycle, whose handles are all restored: no reference stands from then on, and no temporary. One
/// entry is drawn and put last, and its number is answered. Each unfreed peer that a reference leads to, directly or
/// over temporaries, has to be under the strong handle that its restore gave. It takes no memory, and changes no peer.
///
/// No reference led from a peer that is restored strong to a freed one: so none led to one whose restore answered
/// `Cleared`.
pub fn clear<D: Draw>(side: &mut PeerSide, draw: &mut D, index: u32, cycle: Cycle) -> u64
    requires clears { MayClear side.old.state cycle.0 }
    requires targets { AreTargetsRestored side.old.state }
    requires may { MayDraw peer_rules D.rules draw.old (seen side.old) Thread.C (Op.Clear cycle) }
    ensures adds { AddsPeer D.rules draw.old draw.new side.old side.new (clears index cycle) nothing }
    ensures number { side.new.entries ≡ side.old.entries ++ numbered result (clears index cycle) ∷ [] }
    ensures none { side.new.state.refs ≡ [] }
    ensures kept { AreRestoredEndsLive side.old.state }
    ensures peers { side.new.state.peers ≡ side.old.state.peers }
    ensures reserve { side.new.reserve ≡ reserve_over side.old.reserve }
{
    side.clear_refs(draw, index, cycle)
}
