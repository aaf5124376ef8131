// Events of threads on the peer side under its lock.

ghost use Rattle.std.specs.Prelude.{◌≡◌, IfOk, IsOk, None, OnErr};
ghost use Rattle.joint_machine.specs.declared.events.Op.TheVariants as op;
ghost use Rattle.joint_machine.specs.Draws.{numbered};
ghost use Rattle.joint_machine.specs.PeerReplay.{PeerAllows};
ghost use Rattle.joint_machine.specs.Sides.{TakesPeer, peer_rules};
ghost use Rattle.joint_machine.specs.Told.{nothing};
ghost use Rattle.order_table.specs.Allowed.{Settled};
ghost use Rattle.peer_heap.specs.Sides.{seen};
ghost use Rattle.peer_heap.specs.Steps.{IsPeerStep, IsRelease};
ghost use Rattle.joint_history.specs.Knowing.{line_known};
ghost use Rattle.joint_history.specs.Locked.{Drew, StaysSeated, made_by};
ghost use Rattle.joint_history.specs.PeerCalls.{AllowsCall, DrawsEvent, IsPeerCall};
ghost use Rattle.joint_history.specs.Steps.{MakesEvent};
ghost use Rattle.seat_calls.specs.Passing.{MayAppend};

use crate::peer_marks::{is_mark, mark_by, slice_by, slice_count};
use crate::steps::Step;
use joint_model::{Act, Op, Reply, Thread};
use order_table::{Order, Role, Seat};
use peer_heap::PeerSide;
use seat_calls::seat_drawing;
use std::alloc::AllocError;

// The side draws by the seat: what is said here is what that leaves in both, and nothing else.
#[inline(always)]
fn draw_step(
    side: &mut PeerSide,
    order: &Order,
    seat: &mut Seat,
    caller: Thread,
    index: u32,
    op: &Op,
    cites: Option<u64>,
) -> Result<(u64, Reply), AllocError>
    requires step { IsPeerStep caller op.now }
    requires allowed { PeerAllows side.old.state caller op.now cites nothing }
    requires takes { TakesPeer side.old.threads caller }
    requires may { MayAppend order.now seat.old 1 caller op.now None }
    requires settled { Settled seat.old.view }
    requires entries { line_known seat.old.view 1 ≡ side.old.entries }
    ensures settled { Settled seat.new.view }
    ensures drew { IfOk result (λ r. Drew peer_rules 1 order.now seat.old seat.new (seen side.old)
        (seen side.new) (numbered r.0 (made_by caller index op.now r.1 cites)) nothing) }
    ensures release { IsRelease op.now → IsOk result }
    ensures err { OnErr result (StaysSeated seat.old seat.new × (seen side.new ≡ seen side.old)) }
    ensures reserve { side.new.reserve ≡ side.old.reserve }
    ensures threads { side.new.threads ≡ side.old.threads }
{
    let mut drawing = seat_drawing!(order, seat, Role::Peer);
    let reply = side.event(&mut drawing, caller, index, op, cites)?;
    Ok((drawing.last, reply))
}

/// One event of a thread that stands in the peer side's list: a slice, a begin or a sweep of its own marking, or a
/// step. It answers its entry's number and the reply; `AllocError` where there is no memory, and no entry is made then;
/// a release takes none.
#[derive(Drop)]
pub(crate) struct PeerEvent<'a> {
    pub(crate) caller: Thread,
    pub(crate) index: u32,
    pub(crate) op: &'a Op,
    pub(crate) cites: Option<u64>,
}

impl<'a> Step for PeerEvent<'a> {
    type On = PeerSide;

    type Out = Result<(u64, Reply), AllocError>;

    ghost asks = { λ t order seat s. IsPeerCall t.caller t.op.now × AllowsCall s.state t.caller t.op.now t.cites
        × TakesPeer s.threads t.caller × MayAppend order seat 1 t.caller t.op.now None
        × (line_known seat.view 1 ≡ s.entries) };

    ghost drew = { λ t order seat seat' s s' result. (s'.threads ≡ s.threads) × (s'.reserve ≡ s.reserve)
        × IfOk result (λ r. DrawsEvent order seat seat' (seen s) (seen s')
        (numbered r.0 (made_by t.caller t.index t.op.now r.1 t.cites)))
        × OnErr result (StaysSeated seat seat' × (seen s' ≡ seen s)) × (IsRelease t.op.now → IsOk result) };

    ghost makes = { λ t mine mine' result. MakesEvent t.caller t.index t.op.now t.cites mine mine' result
        × (IsRelease t.op.now → IsOk result) };

    #[inline(always)]
    fn draw(
        self,
        side: &mut PeerSide,
        order: &Order,
        seat: &mut Seat,
    ) -> Result<(u64, Reply), AllocError> {
        if let Some(n) = slice_count(self.op) {
            return slice_by(side, order, seat, self.caller, self.index, n);
        }
        if is_mark(self.op) {
            return mark_by(side, order, seat, self.caller, self.index, self.op);
        }
        draw_step(
            side,
            order,
            seat,
            self.caller,
            self.index,
            self.op,
            self.cites,
        )
    }
}

/// A line of a peer thread that is one event. It answers its entry's number and the reply; `AllocError` where there is
/// no memory, and no entry is made then.
#[derive(Drop)]
pub(crate) struct PeerLine<'a> {
    pub(crate) caller: Thread,
    pub(crate) index: u32,
    pub(crate) act: &'a Act,
}

impl<'a> Step for PeerLine<'a> {
    type On = PeerSide;

    type Out = Result<(u64, Reply), AllocError>;

    ghost asks = { λ t order seat s. IsPeerCall t.caller (op.Line t.act.now)
        × AllowsCall s.state t.caller (op.Line t.act.now) None × TakesPeer s.threads t.caller
        × MayAppend order seat 1 t.caller (op.Line t.act.now) None × (line_known seat.view 1 ≡ s.entries) };

    ghost drew = { λ t order seat seat' s s' result. (s'.threads ≡ s.threads) × (s'.reserve ≡ s.reserve)
        × IfOk result (λ r. DrawsEvent order seat seat' (seen s) (seen s')
        (numbered r.0 (made_by t.caller t.index (op.Line t.act.now) r.1 None)))
        × OnErr result (StaysSeated seat seat' × (seen s' ≡ seen s)) × (IsRelease (op.Line t.act.now) → IsOk result) };

    ghost makes = { λ t mine mine' result. MakesEvent t.caller t.index (op.Line t.act.now) None mine mine' result
        × (IsRelease (op.Line t.act.now) → IsOk result) };

    #[inline(always)]
    fn draw(
        self,
        side: &mut PeerSide,
        order: &Order,
        seat: &mut Seat,
    ) -> Result<(u64, Reply), AllocError> {
        let op = Op::Line(*self.act);
        let event = PeerEvent {
            caller: self.caller,
            index: self.index,
            op: &op,
            cites: None,
        };
        event.draw(side, order, seat)
    }
}
