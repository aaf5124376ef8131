// A collect of a peer thread under the peer lock: a begin and, if that gave a number, the sweep of that marking, in one
// hold of the lock.

ghost use Rattle.std.specs.Prelude.{◌≡◌, None, IfOk, OnErr};
ghost use Rattle.joint_machine.specs.declared.events.Op.TheVariants as op;
ghost use Rattle.joint_machine.specs.Lines.{IsPeerThread};
ghost use Rattle.joint_machine.specs.Sides.{TakesPeer};
ghost use Rattle.order_table.specs.Allowed.{Settled};
ghost use Rattle.peer_heap.specs.Sides.{seen};
ghost use Rattle.joint_history.specs.Collecting.{Collects, DrawsCollect};
ghost use Rattle.joint_history.specs.Knowing.{line_known};
ghost use Rattle.joint_history.specs.Locked.{MakesNone, StaysSeated};
ghost use Rattle.joint_history.specs.Operations.{MayBegin};
ghost use Rattle.seat_calls.specs.Passing.{MayAppend};

use crate::callers::Receipt;
use crate::steps::Step;
use joint_model::{Op, Thread};
use order_table::{Order, Role, Seat};
use peer_heap::PeerSide;
use seat_calls::{SeatDrawing, seat_drawing};
use std::alloc::AllocError;

// The side makes a collect, by a draw that hasn't drawn yet.
fn collect_by(
    side: &mut PeerSide,
    drawing: &mut SeatDrawing<'_>,
    caller: Thread,
    index: u32,
) -> Result<Receipt, AllocError>
    requires role { drawing.old.role ≡ Role.Peer }
    requires first { drawing.old.first ≡ None }
    requires thread { IsPeerThread caller }
    requires takes { TakesPeer side.old.threads caller }
    requires may_begin { MayAppend drawing.old.order.now drawing.old.seat.now 1 caller Op.Begin None }
    requires may_sweep { MayAppend drawing.old.order.now drawing.old.seat.now 1 caller Op.Sweep None }
    requires settled { Settled drawing.old.seat.now.view }
    requires entries { line_known drawing.old.seat.now.view 1 ≡ side.old.entries }
    ensures settled { Settled drawing.new.seat.now.view }
    ensures same_reference { drawing.new.seat.ghost_name ≡ drawing.old.seat.ghost_name }
    ensures drew { IfOk result (λ r. DrawsCollect drawing.old.order.now drawing.old.seat.now drawing.new.seat.now
        (seen side.old) (seen side.new) caller index r) }
    ensures err { OnErr result (StaysSeated drawing.old.seat.now drawing.new.seat.now
        × (seen side.new ≡ seen side.old)) }
    ensures reserve { side.new.reserve ≡ side.old.reserve }
    ensures threads { side.new.threads ≡ side.old.threads }
{
    let reply = side.collect(drawing, caller, index)?;
    let Some(first) = drawing.first else {
        unreachable!();
    };
    Ok(Receipt {
        first,
        last: drawing.last,
        reply,
    })
}

/// A collect of a peer thread: a begin and, if that gave a number, the sweep of that marking. It answers the numbers of
/// its first and its last entry and the reply of the last one; `AllocError` where there is no memory, and no entry is
/// made then: room for both is taken before the first.
#[derive(Drop)]
pub(crate) struct Collecting {
    pub(crate) caller: Thread,
    pub(crate) index: u32,
}

impl Step for Collecting {
    type On = PeerSide;

    type Out = Result<Receipt, AllocError>;

    ghost asks = { λ t order seat s. IsPeerThread t.caller × TakesPeer s.threads t.caller
        × MayAppend order seat 1 t.caller op.Begin None × MayAppend order seat 1 t.caller op.Sweep None
        × (line_known seat.view 1 ≡ s.entries) };

    ghost drew = { λ t order seat seat' s s' result. (s'.threads ≡ s.threads) × (s'.reserve ≡ s.reserve)
        × IfOk result (λ r. DrawsCollect order seat seat' (seen s) (seen s') t.caller t.index r)
        × OnErr result (StaysSeated seat seat' × (seen s' ≡ seen s)) };

    ghost makes = { λ t mine mine' result. MayBegin t.caller mine' t.index
        × IfOk result (λ r. Collects t.caller mine mine' t.index r) × OnErr result (MakesNone t.caller mine mine') };

    fn draw(
        self,
        side: &mut PeerSide,
        order: &Order,
        seat: &mut Seat,
    ) -> Result<Receipt, AllocError> {
        let mut drawing = seat_drawing!(order, seat, Role::Peer);
        collect_by(side, &mut drawing, self.caller, self.index)
    }
}
