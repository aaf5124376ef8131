// The driver's steps on the handles of its mirrored cycle, on the peer side. Each makes one entry and takes no memory:
// what they want was reserved before the cycle was mirrored.

ghost use Rattle.std.specs.Prelude.{◌≡◌, ◌≤◌, None, Some};
ghost use Rattle.joint_machine.specs.declared.names.Thread.TheVariants.{C};
ghost use Rattle.joint_machine.specs.declared.events.Op.TheVariants as op;
ghost use Rattle.joint_machine.specs.declared.events.Reply.TheVariants as says;
ghost use Rattle.joint_machine.specs.PeerReplay.{MayClear, MayRestore, MayWeaken};
ghost use Rattle.joint_machine.specs.Sides.{peer_rules};
ghost use Rattle.joint_machine.specs.Told.{nothing};
ghost use Rattle.peer_heap.specs.Cycles.{reply_of, reserve_left, reserve_over};
ghost use Rattle.peer_heap.specs.Mirrors.{AreTargetsRestored};
ghost use Rattle.peer_heap.specs.Sides.{seen};
ghost use Rattle.seat_calls.specs.Passing.{MayAppend};
ghost use Rattle.joint_history.specs.Driven.{driver_entry};
ghost use Rattle.joint_history.specs.DriverHandles.{MakesClear, MakesRestore, MakesWeaken};
ghost use Rattle.joint_history.specs.Knowing.{line_known};
ghost use Rattle.joint_history.specs.Locked.{Drew};

use crate::steps::Step;
use global_handles::Back;
use handle_weaken::{restore_one, weaken_one};
use joint_model::{Cycle, HNum};
use order_table::{Order, Role, Seat};
use peer_heap::PeerSide;
use peer_mirror::clear;
use seat_calls::seat_drawing;

/// The entry that weakens the handle of the next candidate of the driver's cycle, whose snapshot is the entry with that
/// number. It answers its own number.
#[derive(Drop)]
pub(crate) struct Weakening {
    pub(crate) index: u32,
    pub(crate) snap: u64,
    pub(crate) h: HNum,
}

impl Step for Weakening {
    type On = PeerSide;

    type Out = u64;

    ghost asks = { λ t order seat s. (1 ≤ s.reserve.left) × MayWeaken s.state t.h.0 (Some t.snap)
        × MayAppend order seat 1 C (op.Weaken t.h) None × (line_known seat.view 1 ≡ s.entries) };

    ghost drew = { λ t order seat seat' s s' n. (s'.threads ≡ s.threads) × (s'.reserve ≡ reserve_left s.reserve)
        × Drew peer_rules 1 order seat seat' (seen s) (seen s')
        (driver_entry n t.index (op.Weaken t.h) says.Ok (Some t.snap)) nothing };

    ghost makes = { λ t mine mine' n. MakesWeaken mine mine' t.index t.snap t.h n };

    fn draw(self, side: &mut PeerSide, order: &Order, seat: &mut Seat) -> u64 {
        let mut drawing = seat_drawing!(order, seat, Role::Peer);
        weaken_one(side, &mut drawing, self.index, self.snap, self.h);
        drawing.last
    }
}

/// The entry that restores the handle of the next candidate of the driver's cycle: it leaves the table, and a new
/// strong one on its peer comes for it unless that was freed. It answers its number and which.
#[derive(Drop)]
pub(crate) struct Restoring {
    pub(crate) index: u32,
    pub(crate) h: HNum,
}

impl Step for Restoring {
    type On = PeerSide;

    type Out = (u64, Back);

    ghost asks = { λ t order seat s. MayRestore s.state t.h.0
        × MayAppend order seat 1 C (op.Restore t.h) None × (line_known seat.view 1 ≡ s.entries) };

    ghost drew = { λ t order seat seat' s s' r. (s'.threads ≡ s.threads) × (s'.reserve ≡ s.reserve)
        × Drew peer_rules 1 order seat seat' (seen s) (seen s')
        (driver_entry r.0 t.index (op.Restore t.h) (reply_of r.1) None) nothing };

    ghost makes = { λ t mine mine' r. MakesRestore mine mine' t.index t.h r.1 r.0 };

    fn draw(self, side: &mut PeerSide, order: &Order, seat: &mut Seat) -> (u64, Back) {
        let mut drawing = seat_drawing!(order, seat, Role::Peer);
        let back = restore_one(side, &mut drawing, self.index, self.h);
        (drawing.last, back)
    }
}

/// The entry that clears the references of the driver's cycle, all of whose handles are restored. It answers its
/// number.
#[derive(Drop)]
pub(crate) struct Clearing {
    pub(crate) index: u32,
    pub(crate) cycle: Cycle,
}

impl Step for Clearing {
    type On = PeerSide;

    type Out = u64;

    ghost asks = { λ t order seat s. MayClear s.state t.cycle.0 × AreTargetsRestored s.state
        × MayAppend order seat 1 C (op.Clear t.cycle) None × (line_known seat.view 1 ≡ s.entries) };

    ghost drew = { λ t order seat seat' s s' n. (s'.threads ≡ s.threads) × (s'.reserve ≡ reserve_over s.reserve)
        × Drew peer_rules 1 order seat seat' (seen s) (seen s')
        (driver_entry n t.index (op.Clear t.cycle) says.Ok None) nothing };

    ghost makes = { λ t mine mine' n. MakesClear mine mine' t.index t.cycle n };

    fn draw(self, side: &mut PeerSide, order: &Order, seat: &mut Seat) -> u64 {
        let mut drawing = seat_drawing!(order, seat, Role::Peer);
        clear(side, &mut drawing, self.index, self.cycle);
        drawing.last
    }
}
