// The driver's mirror, on the peer side: the references wait and come to stand in one hold of its lock.

ghost use Rattle.std.specs.Prelude.{◌≡◌, length, [], IfOk, None, OnErr, OnOk, Some};
ghost use Rattle.joint_machine.specs.declared.names.Thread.TheVariants.{C};
ghost use Rattle.joint_machine.specs.declared.events.Op.TheVariants as op;
ghost use Rattle.joint_machine.specs.PeerReplay.{MayMirror};
ghost use Rattle.bridge_graph.specs.Handles.{handles_of};
ghost use Rattle.bridge_graph.specs.Parts.{IsPart};
ghost use Rattle.peer_heap.specs.Sides.{seen};
ghost use Rattle.peer_mirror.specs.Carried.{AreBridgeNodes, AreHandlesStrong, reserve_installed};
ghost use Rattle.seat_calls.specs.Passing.{MayAppend};
ghost use Rattle.xref_list.specs.Listing.{IsListing};
ghost use Rattle.joint_history.specs.Driven.{DriverMakesNone};
ghost use Rattle.joint_history.specs.DriverMirrors.{DrawsMirror, MakesMirror};
ghost use Rattle.joint_history.specs.Knowing.{line_known};
ghost use Rattle.joint_history.specs.Locked.{StaysSeated};

use crate::steps::Step;
use bridge_graph::DeadGraph;
use joint_model::Cycle;
use order_table::{Order, Role, Seat};
use peer_heap::PeerSide;
use peer_mirror::install;
use seat_calls::seat_drawing;
use std::alloc::AllocError;
use xref_list::Components;

/// The entry that mirrors the driver's cycle, which is contracted to these components of the graph of its dead part,
/// and whose snapshot is the entry with that number. It answers its number, and how many references stand then;
/// `AllocError` where there is no memory for what the cycle wants here from now on, and no entry is made then.
#[derive(Drop)]
pub(crate) struct Mirroring<'a> {
    pub(crate) index: u32,
    pub(crate) cycle: Cycle,
    pub(crate) snap: u64,
    pub(crate) graph: &'a DeadGraph,
    pub(crate) comps: &'a Components,
}

impl<'a> Step for Mirroring<'a> {
    type On = PeerSide;

    type Out = Result<(u64, u32), AllocError>;

    ghost asks = { λ t order seat s. AreBridgeNodes t.graph.now.nodes t.comps.now.comps
        × AreHandlesStrong s.state t.graph.now.nodes × (s.reserve.waiting ≡ [])
        × MayMirror s.state t.cycle.0 (Some t.snap)
        × MayAppend order seat 1 C (op.Mirror t.cycle) None × (line_known seat.view 1 ≡ s.entries) };

    ghost drew = { λ t order seat seat' s s' result. (s'.threads ≡ s.threads)
        × IfOk result (λ r. DrawsMirror order seat seat' (seen s) (seen s')
        t.index t.cycle t.snap t.graph.now t.comps.now r.0 r.1)
        × OnOk result (s'.reserve ≡ reserve_installed (length (handles_of t.graph.now.nodes)))
        × IsPart t.graph.now.nodes t.graph.now.edges
        × IsListing t.comps.now.comps t.comps.now.heavy t.comps.now.pairs
        × OnErr result (StaysSeated seat seat' × (s' ≡ s)) };

    ghost makes = { λ t mine mine' result. IfOk result (λ r. MakesMirror mine mine'
        t.index t.cycle t.snap t.graph.now t.comps.now r.1 r.0) × OnErr result (DriverMakesNone mine mine') };

    fn draw(
        self,
        side: &mut PeerSide,
        order: &Order,
        seat: &mut Seat,
    ) -> Result<(u64, u32), AllocError> {
        let _ = (self.graph.nodes(), self.comps.len());
        let mut drawing = seat_drawing!(order, seat, Role::Peer);
        let refs = install(
            side,
            &mut drawing,
            self.index,
            self.cycle,
            self.snap,
            self.graph,
            self.comps,
        )?;
        Ok((drawing.last, refs))
    }
}
