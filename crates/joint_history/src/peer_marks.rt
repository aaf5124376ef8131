// A begin, a slice or a sweep of a peer thread, by a seat: one event each, between which the thread's marking stays
// open.

ghost use Rattle.std.specs.Prelude.{◌≡◌, ◌≤◌, None, IfOk, MatchBool, OnErr};
ghost use Rattle.joint_machine.specs.declared.lines.Act.TheVariants as act;
ghost use Rattle.joint_machine.specs.declared.events.Op.TheVariants as op;
ghost use Rattle.joint_machine.specs.Draws.{numbered};
ghost use Rattle.joint_machine.specs.Lines.{IsPeerThread};
ghost use Rattle.joint_machine.specs.Sides.{TakesPeer};
ghost use Rattle.order_table.specs.Allowed.{Settled};
ghost use Rattle.peer_heap.specs.Makings.{IsMarkEvent};
ghost use Rattle.peer_heap.specs.Sides.{seen};
ghost use Rattle.joint_history.specs.Knowing.{line_known};
ghost use Rattle.joint_history.specs.Locked.{StaysSeated, made_by};
ghost use Rattle.joint_history.specs.PeerCalls.{DrawsEvent, slice_count};
ghost use Rattle.seat_calls.specs.Passing.{MayAppend};

use joint_model::{Act, Op, Reply, Thread};
use order_table::{Order, Role, Seat};
use peer_heap::PeerSide;
use seat_calls::seat_drawing;
use std::alloc::AllocError;

/// How many peers a slice may blacken. None where the event is no slice.
#[inline(always)]
pub(crate) fn slice_count(op: &Op) -> Option<u32>
    ensures { result ≡ slice_count op.now }
{
    match *op {
        Op::Line(Act::Slice { n }) => Some(n),
        _ => None,
    }
}

/// Whether the event begins or ends a marking.
#[inline(always)]
pub(crate) fn is_mark(op: &Op) -> bool
    ensures { MatchBool result (IsMarkEvent op.now) (IsMarkEvent op.now → ⊥) }
{
    match *op {
        Op::Begin | Op::Sweep => true,
        _ => false,
    }
}

/// The side makes a slice by the seat, and answers the entry's number and the reply. It is a call, so that other events
/// need no place for its draw.
#[inline(never)]
pub(crate) fn slice_by(
    side: &mut PeerSide,
    order: &Order,
    seat: &mut Seat,
    caller: Thread,
    index: u32,
    n: u32,
) -> Result<(u64, Reply), AllocError>
    requires thread { IsPeerThread caller }
    requires count { (1 ≤ n) × (n ≤ 65535) }
    requires takes { TakesPeer side.old.threads caller }
    requires may { MayAppend order.now seat.old 1 caller (op.Line (act.Slice n)) None }
    requires settled { Settled seat.old.view }
    requires entries { line_known seat.old.view 1 ≡ side.old.entries }
    ensures settled { Settled seat.new.view }
    ensures drew { IfOk result (λ r. DrawsEvent order.now seat.old seat.new
        (seen side.old) (seen side.new) (numbered r.0 (made_by caller index (op.Line (act.Slice n)) r.1 None))) }
    ensures err { OnErr result (StaysSeated seat.old seat.new × (seen side.new ≡ seen side.old)) }
    ensures reserve { side.new.reserve ≡ side.old.reserve }
    ensures threads { side.new.threads ≡ side.old.threads }
{
    let mut drawing = seat_drawing!(order, seat, Role::Peer);
    let reply = side.thread_slice(&mut drawing, caller, index, n)?;
    Ok((drawing.last, reply))
}

/// The side makes a begin or a sweep by the seat, and answers the entry's number and the reply. It is a call, as a slice
/// is.
#[inline(never)]
pub(crate) fn mark_by(
    side: &mut PeerSide,
    order: &Order,
    seat: &mut Seat,
    caller: Thread,
    index: u32,
    op: &Op,
) -> Result<(u64, Reply), AllocError>
    requires thread { IsPeerThread caller }
    requires mark { IsMarkEvent op.now }
    requires takes { TakesPeer side.old.threads caller }
    requires may { MayAppend order.now seat.old 1 caller op.now None }
    requires settled { Settled seat.old.view }
    requires entries { line_known seat.old.view 1 ≡ side.old.entries }
    ensures settled { Settled seat.new.view }
    ensures drew { IfOk result (λ r. DrawsEvent order.now seat.old seat.new
        (seen side.old) (seen side.new) (numbered r.0 (made_by caller index op.now r.1 None))) }
    ensures err { OnErr result (StaysSeated seat.old seat.new × (seen side.new ≡ seen side.old)) }
    ensures reserve { side.new.reserve ≡ side.old.reserve }
    ensures threads { side.new.threads ≡ side.old.threads }
{
    let mut drawing = seat_drawing!(order, seat, Role::Peer);
    let reply = side.mark_step(&mut drawing, caller, index, op)?;
    Ok((drawing.last, reply))
}
