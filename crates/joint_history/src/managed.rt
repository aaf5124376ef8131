// Events of the managed side under its lock.

ghost use Rattle.std.specs.Prelude.{◌≡◌, ◌<◌, ◌≤◌, ◌+◌, IfOk, None, OnErr};
ghost use Rattle.joint_machine.specs.declared.events.Op.TheVariants as op;
ghost use Rattle.joint_machine.specs.Draws.{numbered};
ghost use Rattle.joint_machine.specs.Lines.{IsManagedThread, IsVar};
ghost use Rattle.joint_machine.specs.Run.{thread_number};
ghost use Rattle.joint_machine.specs.Sides.{TakesManaged};
ghost use Rattle.joint_machine.specs.Told.{nothing};
ghost use Rattle.order_table.specs.Allowed.{Settled};
ghost use Rattle.weak_wait.specs.Reads.{IsRead};
ghost use Rattle.managed_heap.specs.Sides.{as_side};
ghost use Rattle.managed_heap.specs.Steps.{CitesRightly, IsFresh, IsManagedStep, take_op, weak_op};
ghost use Rattle.seat_calls.specs.Passing.{MayAppend};
ghost use Rattle.joint_history.specs.Callers.{HoldsPass, KeepsReads};
ghost use Rattle.joint_history.specs.Knowing.{line_known};
ghost use Rattle.joint_history.specs.Locked.{Makes, MayMake, StaysSeated, TakesPin, made_by};
ghost use Rattle.joint_history.specs.Operations.{ReadsExactly};
ghost use Rattle.joint_history.specs.Steps.{DrewManaged, HasManagedSeat, MakesEvent};

use crate::steps::{Locked, Step};
use joint_model::{Act, Cell, Entries, MNum, Op, Reply, Thread, Var};
use managed_heap::ManagedSide;
use order_table::{Order, OrderName, Role, Seat};
use seat_calls::{Lives, own_pin, read_locked, seat_drawing, settle_taken};
use std::alloc::AllocError;
use weak_wait::reply_of;

/// Which managed objects are live.
#[derive(Drop)]
pub(crate) struct LiveObjects<'a> {
    pub(crate) side: &'a ManagedSide,
}

impl<'a> Lives for LiveObjects<'a> {
    ghost use Rattle.joint_machine.specs.Heaps.{IsLive};

    ghost live = { λ l m. IsLive l.side.now.state.managed.heap m };

    fn is_live(&self, m: MNum) -> bool {
        self.side.is_live(m)
    }
}

/// One event of a thread, or of the driver, that stands in the managed side's list and is neither a `weak` nor a
/// `take`. It answers its entry's number and the reply; `AllocError` where there is no memory, and no entry is made
/// then.
#[derive(Drop)]
pub(crate) struct ManagedEvent<'a> {
    pub(crate) caller: Thread,
    pub(crate) index: u32,
    pub(crate) op: &'a Op,
    pub(crate) cites: Option<u64>,
}

impl<'a> Step for ManagedEvent<'a> {
    type On = ManagedSide;

    type Out = Result<(u64, Reply), AllocError>;

    ghost asks = { λ t order seat s. IsManagedStep t.caller t.op.now × IsFresh s.state t.op.now
        × CitesRightly t.op.now t.cites × TakesManaged s.threads t.caller
        × MayAppend order seat 0 t.caller t.op.now None × (line_known seat.view 0 ≡ s.entries) };

    ghost drew = { λ t order seat seat' s s' result.
        DrewManaged t.caller t.index t.op.now t.cites nothing order seat seat' s s' result };

    ghost makes = { λ t mine mine' result. MakesEvent t.caller t.index t.op.now t.cites mine mine' result };

    #[inline(always)]
    fn draw(
        self,
        side: &mut ManagedSide,
        order: &Order,
        seat: &mut Seat,
    ) -> Result<(u64, Reply), AllocError> {
        let mut drawing = seat_drawing!(order, seat, Role::Managed);
        let reply = side.step(&mut drawing, self.caller, self.index, self.op, self.cites)?;
        Ok((drawing.last, reply))
    }
}

/// A line of a managed thread that is one event and neither a read, a `weak` nor a `take`. It answers its entry's number
/// and the reply; `AllocError` where there is no memory, and no entry is made then.
#[derive(Drop)]
pub(crate) struct ManagedLine<'a> {
    pub(crate) caller: Thread,
    pub(crate) index: u32,
    pub(crate) act: &'a Act,
}

impl<'a> Step for ManagedLine<'a> {
    type On = ManagedSide;

    type Out = Result<(u64, Reply), AllocError>;

    ghost asks = { λ t order seat s. IsManagedStep t.caller (op.Line t.act.now) × IsFresh s.state (op.Line t.act.now)
        × CitesRightly (op.Line t.act.now) None × TakesManaged s.threads t.caller
        × MayAppend order seat 0 t.caller (op.Line t.act.now) None × (line_known seat.view 0 ≡ s.entries) };

    ghost drew = { λ t order seat seat' s s' result.
        DrewManaged t.caller t.index (op.Line t.act.now) None nothing order seat seat' s s' result };

    ghost makes = { λ t mine mine' result. MakesEvent t.caller t.index (op.Line t.act.now) None mine mine' result };

    #[inline(always)]
    fn draw(
        self,
        side: &mut ManagedSide,
        order: &Order,
        seat: &mut Seat,
    ) -> Result<(u64, Reply), AllocError> {
        let op = Op::Line(*self.act);
        let event = ManagedEvent {
            caller: self.caller,
            index: self.index,
            op: &op,
            cites: None,
        };
        event.draw(side, order, seat)
    }
}

/// `weak K V` of a managed thread: where it sets the cell, the cell's word is stored by the seat. It answers its
/// entry's number and the reply; `AllocError` where there is no memory, and no entry is made then.
#[derive(Drop)]
pub(crate) struct CellSetting {
    pub(crate) caller: Thread,
    pub(crate) index: u32,
    pub(crate) k: Cell,
    pub(crate) v: Var,
}

impl Step for CellSetting {
    type On = ManagedSide;

    type Out = Result<(u64, Reply), AllocError>;

    ghost asks = { λ t order seat s. IsManagedThread t.caller × (t.k.0 < 64) × IsVar t.v
        × TakesManaged s.threads t.caller × HasManagedSeat t.caller order seat (as_side s) };

    ghost drew = { λ t order seat seat' s s' result.
        DrewManaged t.caller t.index (weak_op t.k t.v) None nothing order seat seat' s s' result };

    ghost makes = { λ t mine mine' result. MakesEvent t.caller t.index (weak_op t.k t.v) None mine mine' result };

    fn draw(
        self,
        side: &mut ManagedSide,
        order: &Order,
        seat: &mut Seat,
    ) -> Result<(u64, Reply), AllocError> {
        // no object's number is above 65,535
        let _ = side.made();
        let word = order.load_cell(seat, self.k);
        let mut drawing = seat_drawing!(order, seat, Role::Managed);
        let reply = side.weak(&mut drawing, self.caller, self.index, self.k, self.v, word)?;
        Ok((drawing.last, reply))
    }
}

/// The number of a managed thread, which is that of its reader.
pub(crate) fn reader_of(t: Thread) -> u8
    requires { IsManagedThread t }
    ensures number { result ≡ thread_number t }
    ensures few { (0 < result) × (result < 9) }
{
    match t {
        Thread::M(n) => n,
        _ => unreachable!(),
    }
}

/// `take V` of a managed thread, of the object of its pin, which is cleared then. It answers its entry's number and the
/// reply; `AllocError` where there is no memory, and no entry is made then.
#[derive(Drop)]
pub(crate) struct Taking {
    pub(crate) caller: Thread,
    pub(crate) index: u32,
    pub(crate) v: Var,
}

impl Step for Taking {
    type On = ManagedSide;

    type Out = Result<(u64, Reply), AllocError>;

    ghost asks = { λ t order seat s. IsManagedThread t.caller × IsVar t.v
        × TakesManaged s.threads t.caller × HasManagedSeat t.caller order seat (as_side s) };

    ghost drew = { λ t order seat seat' s s' result. (s'.threads ≡ s.threads)
        × IfOk result (λ r. TakesPin order seat seat' (as_side s) (as_side s') t.caller t.index t.v r)
        × OnErr result (StaysSeated seat seat' × (as_side s' ≡ as_side s)) };

    ghost makes = { λ t mine mine' result. MakesEvent t.caller t.index (take_op t.v) None mine mine' result };

    fn draw(
        self,
        side: &mut ManagedSide,
        order: &Order,
        seat: &mut Seat,
    ) -> Result<(u64, Reply), AllocError> {
        let reader = reader_of(self.caller);
        let pin = own_pin(order, seat, reader);
        let mut drawing = seat_drawing!(order, seat, Role::Managed);
        let reply = side.take(&mut drawing, self.caller, self.index, self.v, pin)?;
        let number = drawing.last;
        settle_taken(order, seat, reader);
        Ok((number, reply))
    }
}

impl<N: OrderName> Locked<N, ManagedSide> {
    /// Reads a cell for a managed thread by the locked seat, which knows the whole managed list: so the answer is what
    /// that list gives. The entry stands in the thread's own list, which has room for it. Answers the entry's number
    /// and the reply. It takes no memory.
    pub(crate) fn read(
        &mut self,
        order: &Order,
        mine: &mut Seat,
        reads: &mut Entries,
        caller: Thread,
        index: u32,
        act: &Act,
    ) -> (u64, Reply)
        requires order { (order.now ≡ N.order) × (mine.old.order ≡ N.order) }
        requires settled { Settled mine.old.view }
        requires pass { IsManagedThread caller × HoldsPass caller mine.old.view }
        requires act { IsRead act.now }
        requires reads { KeepsReads caller mine.old.view reads.old.entries }
        requires spare { 1 ≤ reads.old.spare }
        requires may { MayMake caller mine.old.view index (op.Line act.now) None }
        ensures order { mine.new.order ≡ N.order }
        ensures settled { Settled mine.new.view }
        ensures pass { HoldsPass caller mine.new.view }
        ensures makes { Makes caller mine.old.view mine.new.view
            (numbered result.0 (made_by caller index (op.Line act.now) result.1 None)) }
        ensures exact { ReadsExactly caller mine.old.view mine.new.view act.now result.1 }
        ensures reads { KeepsReads caller mine.new.view reads.new.entries }
        ensures spare { reads.new.spare + 1 ≡ reads.old.spare }
    {
        let reader = reader_of(caller);
        let (number, got) = read_locked(order, &mut self.seat, mine, reads, reader, index, act);
        (number, reply_of(got))
    }
}
