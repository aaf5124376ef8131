// The driver's steps of the managed side: each draws one entry by the locked seat, to which the driver's lines are
// lent.

ghost use Rattle.std.specs.Prelude.{◌≡◌, ◌≤◌, None, Some, IsSome, IfOk, OnErr, count_by, is_some};
ghost use Rattle.joint_machine.specs.declared.names.Thread.TheVariants.{C};
ghost use Rattle.joint_machine.specs.declared.lines.Act.TheVariants as act;
ghost use Rattle.joint_machine.specs.declared.events.Op.TheVariants as op;
ghost use Rattle.joint_model.specs.Listed.{answers_of};
ghost use Rattle.joint_machine.specs.Managed.{OpenCycle};
ghost use Rattle.joint_machine.specs.ManagedReplay.{MayRefuse};
ghost use Rattle.joint_machine.specs.Told.{nothing, phase_of};
ghost use Rattle.managed_heap.specs.Calls.{MayContractWith, contract_op};
ghost use Rattle.managed_heap.specs.Resolving.{MayClose};
ghost use Rattle.managed_heap.specs.Sides.{as_side};
ghost use Rattle.seat_calls.specs.Passing.{MayAppend};
ghost use Rattle.joint_history.specs.Driven.{DriverMakesNone, MakesAbandon, MakesContraction, MakesFinalise};
ghost use Rattle.joint_history.specs.Driven.{MakesRefusal, MakesResolution};
ghost use Rattle.joint_history.specs.DriverDraws.{DrawsAbandon, DrawsContraction, DrawsResolution};
ghost use Rattle.joint_history.specs.Knowing.{line_known};
ghost use Rattle.joint_history.specs.Steps.{DrewManaged, HasManagedSeat};

use crate::managed::{LiveObjects, ManagedEvent};
use crate::steps::Step;
use joint_model::{Act, Alive, Op, Phase, PhaseWord, Reply, Thread};
use managed_heap::{ManagedSide, ResolveOut};
use order_table::{Order, Role, Seat};
use seat_calls::{seat_drawing, settle_ended};
use std::alloc::AllocError;

/// The entry of the open cycle's contraction, which has so many components and cross-references. It answers the entry's
/// number and takes no memory.
#[derive(Drop)]
pub(crate) struct Contraction {
    pub(crate) index: u32,
    pub(crate) sccs: u32,
    pub(crate) xrefs: u32,
}

impl Step for Contraction {
    type On = ManagedSide;

    type Out = u64;

    ghost asks = { λ t order seat s. MayContractWith s.state t.sccs t.xrefs
        × ((c : OpenCycle) → s.state.managed.cycle ≡ Some c → MayAppend order seat 0 C (contract_op c) None)
        × (line_known seat.view 0 ≡ s.entries) };

    ghost drew = { λ t order seat seat' s s' n.
        DrawsContraction order seat seat' (as_side s) (as_side s') t.index t.sccs t.xrefs n };

    ghost makes = { λ t mine mine' n. MakesContraction mine mine' t.index t.sccs t.xrefs n };

    fn draw(self, side: &mut ManagedSide, order: &Order, seat: &mut Seat) -> u64 {
        let mut drawing = seat_drawing!(order, seat, Role::Managed);
        side.contracted(&mut drawing, self.index, self.sccs, self.xrefs);
        drawing.last
    }
}

/// The entry that abandons the open cycle, which isn't mirrored yet: nothing is freed, and the gate is opened. It
/// answers the entry's number and takes no memory.
#[derive(Drop)]
pub(crate) struct Abandoning {
    pub(crate) index: u32,
}

impl Step for Abandoning {
    type On = ManagedSide;

    type Out = u64;

    ghost asks = { λ t order seat s. IsSome s.state.managed.cycle × HasManagedSeat C order seat (as_side s) };

    ghost drew = { λ t order seat seat' s s' n. DrawsAbandon order seat seat' (as_side s) (as_side s') t.index n };

    ghost makes = { λ t mine mine' n. MakesAbandon mine mine' t.index n };

    fn draw(self, side: &mut ManagedSide, order: &Order, seat: &mut Seat) -> u64 {
        let mut drawing = seat_drawing!(order, seat, Role::Managed);
        side.abandon(&mut drawing, self.index);
        let number = drawing.last;
        settle_ended(order, seat, &LiveObjects { side });
        number
    }
}

/// The entry that resolves the open cycle by the answers of its restores, one for each candidate, and cites that of the
/// clear; the cells of what it freed say so, and the gate is opened. It answers the entry's number, where the freed
/// objects stand among all that were freed, and how many candidates were kept. It takes no memory.
#[derive(Drop)]
pub(crate) struct Resolution<'a> {
    pub(crate) index: u32,
    pub(crate) clear: u64,
    pub(crate) alive: &'a Alive,
}

impl<'a> Step for Resolution<'a> {
    type On = ManagedSide;

    type Out = (u64, ResolveOut);

    ghost asks = { λ t order seat s. MayClose s.state t.alive.now.values × HasManagedSeat C order seat (as_side s) };

    ghost drew = { λ t order seat seat' s s' r.
        DrawsResolution order seat seat' (as_side s) (as_side s') t.index t.clear r.0 t.alive.now.values r.1 };

    ghost makes = { λ t mine mine' r. MakesResolution mine mine' t.index t.clear r.0
        (answers_of t.alive.now.values) r.1.freed × (r.1.kept ≡ count_by is_some t.alive.now.values) };

    fn draw(self, side: &mut ManagedSide, order: &Order, seat: &mut Seat) -> (u64, ResolveOut) {
        let mut drawing = seat_drawing!(order, seat, Role::Managed);
        let out = side.resolve(&mut drawing, self.index, self.clear, self.alive);
        let number = drawing.last;
        settle_ended(order, seat, &LiveObjects { side });
        (number, out)
    }
}

/// The entry of a phase word of the driver that is refused in its phase; nothing else changes. It answers the entry's
/// number and the reply; `AllocError` where there is no memory, or where the entries would pass their limit, and no
/// entry is made then.
#[derive(Drop)]
pub(crate) struct Refusal {
    pub(crate) index: u32,
    pub(crate) word: PhaseWord,
    pub(crate) phase: Phase,
}

impl Step for Refusal {
    type On = ManagedSide;

    type Out = Result<(u64, Reply), AllocError>;

    ghost asks = { λ t order seat s. MayRefuse s.state t.word t.phase
        × MayAppend order seat 0 C (op.Refused t.word) None × (line_known seat.view 0 ≡ s.entries) };

    ghost drew = { λ t order seat seat' s s' result.
        DrewManaged C t.index (op.Refused t.word) None (phase_of t.phase) order seat seat' s s' result };

    ghost makes = { λ t mine mine' result.
        IfOk result (λ r. MakesRefusal mine mine' t.index r.0 t.word t.phase r.1)
        × OnErr result (DriverMakesNone mine mine') };

    fn draw(
        self,
        side: &mut ManagedSide,
        order: &Order,
        seat: &mut Seat,
    ) -> Result<(u64, Reply), AllocError> {
        let mut drawing = seat_drawing!(order, seat, Role::Managed);
        let reply = side.refused(&mut drawing, self.index, self.word, self.phase)?;
        Ok((drawing.last, reply))
    }
}

/// The entry by which the driver takes so many waiting notices, or all where there are fewer. It answers the entry's
/// number and the reply; `AllocError` where there is no memory, or where the entries would pass their limit, and no
/// entry is made then.
#[derive(Drop)]
pub(crate) struct Finalising {
    pub(crate) index: u32,
    pub(crate) count: u32,
}

impl Step for Finalising {
    type On = ManagedSide;

    type Out = Result<(u64, Reply), AllocError>;

    ghost asks = { λ t order seat s. (1 ≤ t.count) × (t.count ≤ 65535)
        × MayAppend order seat 0 C (op.Line (act.Finalise t.count)) None × (line_known seat.view 0 ≡ s.entries) };

    ghost drew = { λ t order seat seat' s s' result.
        DrewManaged C t.index (op.Line (act.Finalise t.count)) None nothing order seat seat' s s' result };

    ghost makes = { λ t mine mine' result.
        IfOk result (λ r. MakesFinalise mine mine' t.index r.0 t.count r.1)
        × OnErr result (DriverMakesNone mine mine') };

    fn draw(
        self,
        side: &mut ManagedSide,
        order: &Order,
        seat: &mut Seat,
    ) -> Result<(u64, Reply), AllocError> {
        let op = Op::Line(Act::Finalise { n: self.count });
        let event = ManagedEvent {
            caller: Thread::C,
            index: self.index,
            op: &op,
            cites: None,
        };
        event.draw(side, order, seat)
    }
}
