// The driver beside a managed thread.

ghost use Rattle.std.specs.Prelude.{◌≡◌, ◌≤◌, IfSome};
ghost use Rattle.joint_machine.specs.Lines.{IsLine};
ghost use Rattle.joint_machine.specs.declared.names.Thread.TheVariants.{C, M};
ghost use Rattle.order_table.specs.Allowed.{Settled};
ghost use Rattle.order_table.specs.Views.{OwnsAll};
ghost use Rattle.joint_history.specs.Callers.{KnowsNothing};
ghost use Rattle.bridge_cycle.specs.Progress.{line_of};

use bridge_cycle::{Driver, DriverFault};
use joint_history::{Alone, Caller, Desk, Shared};
use joint_model::Reply::{
    self, At, CycleOpen, Freed, Gone, M, Mark, Pending, Pinned, Refs, Sccs, Snapped, Swept, Took,
    Unset,
};
use joint_model::{
    Act, Cell, Cycle, History, Holding, Kind, MNum, Marking, Phase, PhaseWord, Sort, Span, Thread,
    Var,
};
use order_table::{Order, OrderName, Seat};
use std::alloc::{AllocError, Global};
use std::marker::{Brand, Model};
use std::process::Abort;
use std::sync::Wait;
use std::test::Fail;
use weak_wait::reply_of;

/// What is done, and what that answers.
pub(crate) type Row = (CycleCall, Reply);

/// What m1 and the driver do, in short: variables stand by their numbers, and all that has a field has one.
#[derive(Clone, Copy)]
pub(crate) enum CycleCall {
    // lines of m1
    Bridge(u8),
    Set(u8, u8),
    Drop(u8),
    Weak(u8),
    Read,
    Take(u8),
    // reads of a cell by m1 that take no lock, at once and by waiting
    ReadNow(u8),
    ReadWait(u8),
    // lines of c
    Line(PhaseWord),
    Finalise(u32),
    // the driver's call of that name; `Cycle` is all eight
    Phase(PhaseWord),
    // what is left of an open cycle
    End,
    // a look at the driver's phase
    Now,
}

impl CycleCall {
    // The line of m1; None where it is another call, or one of no line.
    fn of_m1(self) -> Option<Act>
        ensures { IfSome result (λ a. IsLine (M 1) a) }
    {
        match self {
            CycleCall::Bridge(v) if v < 8 => Some(Act::Bridge {
                v: Var(v),
                kind: Kind::Bridge,
                fields: 1,
                sort: Sort::User,
                peer_fields: 1,
            }),
            CycleCall::Set(v, w) if v < 8 && w < 8 => Some(Act::Set {
                v: Var(v),
                i: 0,
                w: Some(Var(w)),
            }),
            CycleCall::Drop(v) if v < 8 => Some(Act::Drop { v: Var(v) }),
            CycleCall::Weak(v) if v < 8 => Some(Act::Weak {
                k: Cell(0),
                v: Var(v),
            }),
            CycleCall::Read => Some(Act::Read { k: Cell(0) }),
            CycleCall::Take(v) if v < 8 => Some(Act::Take { v: Var(v) }),
            _ => None,
        }
    }

    // The line of c; None where it is another call, or one of no line.
    fn of_c(self) -> Option<Act>
        ensures { IfSome result (λ a. IsLine C a) }
    {
        match self {
            CycleCall::Line(word) => Some(Act::PhaseLine { word }),
            CycleCall::Finalise(n) if 1 <= n && n <= 65535 => Some(Act::Finalise { n }),
            _ => None,
        }
    }
}

/// A shared bridge with a managed and a peer thread and the driver, all on the first line.
#[derive(Drop)]
pub(crate) struct DrivenBridge<N: OrderName> {
    pub(crate) shared: Shared<N, Alone>,
    pub(crate) desk: Desk<N>,
    pub(crate) one: Caller<N>,
    pub(crate) two: Caller<N>,
    pub(crate) driver: Driver<N>,
}

impl<N: OrderName> Model for DrivenBridge<N> {
    ghost use Rattle.std.specs.Prelude.{◌≡◌, ◌≤◌};
    ghost use Rattle.joint_machine.specs.declared.names.Phase.{Phase};
    ghost use Rattle.joint_machine.specs.declared.names.Thread.TheVariants.{M, P};
    ghost use Rattle.joint_history.specs.Callers.{last_index, own};
    ghost use Rattle.bridge_cycle.specs.Progress.{line_of};
    ghost use Rattle.cycle_tests.specs.Starts.{GaveThree};

    ghost Value = { Phase };

    ghost view = { λ d. d.driver.phase };

    ghost invariant = { λ d. GaveThree d.desk × (d.one.thread ≡ M 1) × (last_index (own d.one) ≤ 1)
        × (d.two.thread ≡ P 1) × (last_index (own d.two) ≤ 1) × (line_of d.driver ≤ 1) };
}

// Runs the driver's call of that name.
fn run<N: OrderName>(
    rt: &impl Wait,
    alloc: Global,
    shared: &Shared<N, Alone>,
    driver: &mut Driver<N>,
    word: PhaseWord,
) -> Result<(), DriverFault>
    requires { line_of driver.old ≤ 1 }
    ensures { line_of driver.new ≤ 1 }
{
    match word {
        PhaseWord::Cycle => driver.cycle(rt, alloc, shared, 1),
        PhaseWord::Snap => driver.snap(rt, alloc, shared, 1),
        PhaseWord::Contract => driver.contract(rt, alloc, shared, 1),
        PhaseWord::Mirror => driver.mirror(rt, alloc, shared, 1),
        PhaseWord::Weaken => driver.weaken(rt, alloc, shared, 1),
        PhaseWord::Mark => driver.mark(rt, alloc, shared, 1),
        PhaseWord::Sweep => driver.sweep(rt, alloc, shared, 1),
        PhaseWord::Restore => driver.restore(rt, alloc, shared, 1),
        PhaseWord::Resolve => driver.resolve(rt, alloc, shared, 1),
    }
}

impl<N: OrderName> DrivenBridge<N> {
    // The answer to a line of m1.
    fn managed(&mut self, rt: &impl Wait, call: CycleCall) -> Result<Option<Reply>, AllocError> {
        let Some(act) = call.of_m1() else {
            return Ok(None);
        };
        let receipt = self.shared.managed(rt, &mut self.one, 1, &act)?;
        Ok(Some(receipt.reply))
    }

    // The answer to a read of m1 that takes no lock; None where it is another call.
    fn read(&mut self, rt: &impl Wait, call: CycleCall) -> Result<Option<Reply>, AllocError> {
        self.shared.reserve(&mut self.one, 1)?;
        let got = match call {
            CycleCall::ReadNow(k) if k < 64 => {
                let act = Act::Read { k: Cell(k) };
                self.shared.read_now(&mut self.one, 1, &act)
            }
            CycleCall::ReadWait(k) if k < 64 => {
                let act = Act::Await { k: Cell(k) };
                self.shared.read_wait(rt, &mut self.one, 1, &act)
            }
            _ => return Ok(None),
        };
        Ok(Some(reply_of(got)))
    }

    // The answer to a line of c.
    fn line(
        &mut self,
        rt: &impl Wait,
        alloc: Global,
        call: CycleCall,
    ) -> Result<Option<Reply>, AllocError> {
        let Some(act) = call.of_c() else {
            return Ok(None);
        };
        let reply = self.driver.line(rt, alloc, &self.shared, 1, &act)?;
        Ok(Some(reply))
    }

    // What the driver's call of that name answers.
    fn phase(
        &mut self,
        rt: &impl Wait,
        alloc: Global,
        word: PhaseWord,
    ) -> Result<Reply, AllocError> {
        match run(rt, alloc, &self.shared, &mut self.driver, word) {
            Ok(()) => Ok(Reply::Ok),
            Err(DriverFault::CycleOpen { cycle }) => Ok(CycleOpen(cycle)),
            Err(DriverFault::WrongPhase { at }) => Ok(At(at)),
            Err(DriverFault::OutOfMemory) => Err(AllocError),
        }
    }

    // Runs the phases that are left.
    fn end(&mut self, rt: &impl Wait, alloc: Global) -> Result<Reply, AllocError> {
        self.driver.end(rt, alloc, &self.shared, 1)?;
        Ok(Reply::Ok)
    }

    /// The answer to a call; None where it is none that may be made.
    pub(crate) fn answer(
        &mut self,
        rt: &impl Wait,
        alloc: Global,
        call: CycleCall,
    ) -> Result<Option<Reply>, AllocError> {
        match call {
            CycleCall::Line(_) | CycleCall::Finalise(_) => self.line(rt, alloc, call),
            CycleCall::ReadNow(_) | CycleCall::ReadWait(_) => self.read(rt, call),
            CycleCall::Phase(word) => Ok(Some(self.phase(rt, alloc, word)?)),
            CycleCall::End => Ok(Some(self.end(rt, alloc)?)),
            CycleCall::Now => Ok(Some(At(self.driver.phase()))),
            _ => self.managed(rt, call),
        }
    }

    /// The place of the first row that is answered otherwise than it says; None where all are answered so.
    pub(crate) fn first_miss(
        &mut self,
        rt: &impl Wait,
        alloc: Global,
        rows: &[Row],
    ) -> Result<Option<usize>, AllocError> {
        for i in 0..rows.len() {
            let (call, reply) = rows[i];
            if self.answer(rt, alloc, call)? != Some(reply) {
                return Ok(Some(i));
            }
        }
        Ok(None)
    }

    /// The history of all that was made. The driver has to be idle.
    pub(crate) fn finish<R: Abort>(self, rt: &R, alloc: Global) -> Result<History, AllocError> {
        let DrivenBridge {
            shared,
            desk,
            one,
            two,
            driver,
        } = self;
        assert!(rt; driver.phase() == Phase::Idle);
        let Ok(callers) = vec![in alloc; driver.retire(), two, one] else {
            drop(desk);
            drop(shared);
            return Err(AllocError);
        };
        shared.finish(desk, callers).map_err(|_| AllocError)
    }
}

/// The callers of m1, of p1 and of the driver over a new bridge; None where the desk has none for them.
pub(crate) fn start<N: OrderName>(
    alloc: Global,
    order: Order,
    seat: Seat,
) -> Result<Option<DrivenBridge<N>>, AllocError>
    requires order { order ≡ N.order }
    requires run { (N.managed ≡ 1) × (N.peers ≡ 1) }
    requires seat { (seat.order ≡ N.order) × OwnsAll seat.view × KnowsNothing seat.view × Settled seat.view }
{
    let (shared, mut desk) = Shared::<N, Alone>::new(alloc, order, seat, 1, 1, Holding::Every)?;
    let Some(one) = desk.caller(Thread::M(1)) else {
        drop(desk);
        drop(shared);
        return Ok(None);
    };
    let Some(two) = desk.caller(Thread::P(1)) else {
        drop(one);
        drop(desk);
        drop(shared);
        return Ok(None);
    };
    let Some(caller) = desk.caller(Thread::C) else {
        drop(two);
        drop(one);
        drop(desk);
        drop(shared);
        return Ok(None);
    };
    let driver = Driver::new(caller);
    Ok(Some(DrivenBridge {
        shared,
        desk,
        one,
        two,
        driver,
    }))
}

// The place of the first row of a table that is answered otherwise than it says on a new bridge; None where the desk
// lacks a caller.
fn miss_of<N: OrderName>(
    rt: &impl Wait,
    alloc: Global,
    order: Order,
    seat: Seat,
    rows: &[Row],
) -> Result<Option<Option<usize>>, AllocError>
    requires order { order ≡ N.order }
    requires run { (N.managed ≡ 1) × (N.peers ≡ 1) }
    requires seat { (seat.order ≡ N.order) × OwnsAll seat.view × KnowsNothing seat.view × Settled seat.view }
{
    let Some(mut driven) = start::<N>(alloc, order, seat)? else {
        return Ok(None);
    };
    let missed = driven.first_miss(rt, alloc, rows);
    drop(driven);
    Ok(Some(missed?))
}

// The same, with a new order.
fn play(rt: &impl Wait, alloc: Global, rows: &[Row]) -> Result<Option<Option<usize>>, AllocError> {
    let (order, seat) = Order::new(alloc, 1)?;
    miss_of::<Brand>(rt, alloc, order, seat, rows)
}

// Each phase runs where it is due and is refused elsewhere; the driver's own calls make no entry of a refusal.
const PHASES: [Row; 26] = [
    (CycleCall::Phase(PhaseWord::Sweep), At(Phase::Idle)),
    (CycleCall::Phase(PhaseWord::Snap), Reply::Ok),
    (CycleCall::Phase(PhaseWord::Snap), CycleOpen(Cycle(1))),
    (CycleCall::Phase(PhaseWord::Contract), Reply::Ok),
    (CycleCall::Now, At(Phase::Contracted)),
    (CycleCall::Phase(PhaseWord::Contract), At(Phase::Contracted)),
    (CycleCall::Phase(PhaseWord::Mirror), Reply::Ok),
    (CycleCall::Phase(PhaseWord::Mirror), At(Phase::Mirrored)),
    (CycleCall::Phase(PhaseWord::Weaken), Reply::Ok),
    (CycleCall::Phase(PhaseWord::Weaken), At(Phase::Weakened)),
    (CycleCall::Phase(PhaseWord::Mark), Reply::Ok),
    (CycleCall::Phase(PhaseWord::Mark), At(Phase::Marked)),
    (CycleCall::Phase(PhaseWord::Sweep), Reply::Ok),
    (CycleCall::Phase(PhaseWord::Resolve), At(Phase::Swept)),
    (CycleCall::Phase(PhaseWord::Restore), Reply::Ok),
    (CycleCall::Phase(PhaseWord::Restore), At(Phase::Restored)),
    (CycleCall::Phase(PhaseWord::Cycle), CycleOpen(Cycle(1))),
    (CycleCall::Phase(PhaseWord::Resolve), Reply::Ok),
    (CycleCall::Now, At(Phase::Idle)),
    (CycleCall::Phase(PhaseWord::Cycle), Reply::Ok),
    (CycleCall::Now, At(Phase::Idle)),
    (CycleCall::End, Reply::Ok),
    (CycleCall::Phase(PhaseWord::Snap), Reply::Ok),
    (CycleCall::Phase(PhaseWord::Cycle), CycleOpen(Cycle(3))),
    (CycleCall::End, Reply::Ok),
    (CycleCall::Now, At(Phase::Idle)),
];

// A linked pair that is dropped: the first cycle phase by phase, with a word that isn't due, and a second at once.
const PAIR: [Row; 16] = [
    (CycleCall::Bridge(0), M(MNum(1))),
    (CycleCall::Bridge(1), M(MNum(2))),
    (CycleCall::Set(0, 1), Reply::Ok),
    (CycleCall::Drop(0), Reply::Ok),
    (CycleCall::Drop(1), Reply::Ok),
    (
        CycleCall::Line(PhaseWord::Snap),
        Snapped(2, Span { first: 0, count: 0 }),
    ),
    (CycleCall::Line(PhaseWord::Contract), Sccs(2, 1)),
    (CycleCall::Line(PhaseWord::Mirror), Refs(1)),
    (CycleCall::Line(PhaseWord::Resolve), At(Phase::Mirrored)),
    (CycleCall::Line(PhaseWord::Weaken), Reply::Ok),
    (CycleCall::Line(PhaseWord::Mark), Mark(Marking(1))),
    (
        CycleCall::Line(PhaseWord::Sweep),
        Swept(Marking(1), Span { first: 0, count: 2 }),
    ),
    (CycleCall::Line(PhaseWord::Restore), Reply::Ok),
    (
        CycleCall::Line(PhaseWord::Resolve),
        Freed(Span { first: 0, count: 2 }),
    ),
    (
        CycleCall::Line(PhaseWord::Cycle),
        Freed(Span { first: 2, count: 0 }),
    ),
    (CycleCall::Finalise(9), Took(Span { first: 0, count: 2 })),
];

// A circle is mirrored by two references. A cell is read while the cycle is open, and once it is closed.
const CIRCLE: [Row; 18] = [
    (CycleCall::Bridge(0), M(MNum(1))),
    (CycleCall::Bridge(1), M(MNum(2))),
    (CycleCall::Set(0, 1), Reply::Ok),
    (CycleCall::Set(1, 0), Reply::Ok),
    (CycleCall::Weak(0), Reply::Ok),
    (CycleCall::Drop(0), Reply::Ok),
    (
        CycleCall::Line(PhaseWord::Cycle),
        Freed(Span { first: 0, count: 0 }),
    ),
    (CycleCall::Drop(1), Reply::Ok),
    (
        CycleCall::Line(PhaseWord::Snap),
        Snapped(2, Span { first: 0, count: 0 }),
    ),
    (CycleCall::Read, Pending(Cycle(2))),
    (CycleCall::Line(PhaseWord::Snap), CycleOpen(Cycle(2))),
    (CycleCall::Line(PhaseWord::Contract), Sccs(1, 0)),
    (CycleCall::Line(PhaseWord::Mirror), Refs(2)),
    (CycleCall::Phase(PhaseWord::Weaken), Reply::Ok),
    (CycleCall::End, Reply::Ok),
    (CycleCall::Read, Gone),
    (CycleCall::Finalise(1), Took(Span { first: 0, count: 1 })),
    (CycleCall::Finalise(9), Took(Span { first: 1, count: 1 })),
];

// What reads without a lock answer: of a cell before it is set and of one that never is, of the object, while a cycle
// is open, and once it freed the object. A read that waits is made where no cycle is open.
const READS: [Row; 18] = [
    (CycleCall::Bridge(0), M(MNum(1))),
    (CycleCall::ReadNow(0), Unset),
    (CycleCall::Weak(0), Reply::Ok),
    (CycleCall::ReadWait(0), M(MNum(1))),
    (CycleCall::Take(1), M(MNum(1))),
    (CycleCall::ReadNow(1), Unset),
    (CycleCall::Drop(0), Reply::Ok),
    (CycleCall::Drop(1), Reply::Ok),
    (
        CycleCall::Line(PhaseWord::Snap),
        Snapped(1, Span { first: 0, count: 0 }),
    ),
    (CycleCall::ReadNow(0), Pending(Cycle(1))),
    (CycleCall::ReadNow(1), Pending(Cycle(1))),
    (CycleCall::End, Reply::Ok),
    (CycleCall::ReadNow(0), Gone),
    (CycleCall::ReadWait(0), Gone),
    (CycleCall::ReadWait(1), Unset),
    (CycleCall::Read, Gone),
    (CycleCall::Take(0), Reply::Empty),
    (CycleCall::Finalise(9), Took(Span { first: 0, count: 1 })),
];

// An object that nothing but a pin holds is no candidate of the cycle whose snapshot is taken then. Once it is taken
// and dropped, the next cycle frees it.
const PINS: [Row; 16] = [
    (CycleCall::Bridge(0), M(MNum(1))),
    (CycleCall::Weak(0), Reply::Ok),
    (CycleCall::Drop(0), Reply::Ok),
    (CycleCall::ReadNow(0), M(MNum(1))),
    (CycleCall::ReadNow(1), Pinned(MNum(1))),
    (
        CycleCall::Line(PhaseWord::Snap),
        Snapped(0, Span { first: 0, count: 0 }),
    ),
    (CycleCall::ReadNow(0), Pinned(MNum(1))),
    (CycleCall::End, Reply::Ok),
    (CycleCall::ReadWait(0), Pinned(MNum(1))),
    (CycleCall::Take(2), M(MNum(1))),
    (CycleCall::Drop(2), Reply::Ok),
    (
        CycleCall::Line(PhaseWord::Cycle),
        Freed(Span { first: 0, count: 1 }),
    ),
    (CycleCall::ReadNow(0), Gone),
    (CycleCall::ReadWait(0), Gone),
    (CycleCall::Take(2), Reply::Empty),
    (CycleCall::Finalise(9), Took(Span { first: 0, count: 1 })),
];

#[test]
fn a_phase_runs_where_it_is_due(rt: HostRuntime) -> Result<(), Fail> {
    assert_eq!(rt; play(&rt, rt.alloc(), PHASES.as_slice())?, Some(None));
    Ok(())
}

#[test]
fn a_linked_pair_that_is_dropped_is_freed(rt: HostRuntime) -> Result<(), Fail> {
    assert_eq!(rt; play(&rt, rt.alloc(), PAIR.as_slice())?, Some(None));
    Ok(())
}

#[test]
fn a_circle_is_mirrored_and_freed(rt: HostRuntime) -> Result<(), Fail> {
    assert_eq!(rt; play(&rt, rt.alloc(), CIRCLE.as_slice())?, Some(None));
    Ok(())
}

#[test]
fn a_read_without_a_lock_answers_by_the_gate_and_the_cell(rt: HostRuntime) -> Result<(), Fail> {
    assert_eq!(rt; play(&rt, rt.alloc(), READS.as_slice())?, Some(None));
    Ok(())
}

#[test]
fn a_pinned_object_outlives_a_cycle(rt: HostRuntime) -> Result<(), Fail> {
    assert_eq!(rt; play(&rt, rt.alloc(), PINS.as_slice())?, Some(None));
    Ok(())
}
