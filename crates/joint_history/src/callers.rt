// A thread's pass.

ghost use Rattle.std.specs.Prelude.{◌≡◌};
ghost use Rattle.joint_machine.specs.Lines.{IsDriver, IsThread};
ghost use Rattle.order_table.specs.Allowed.{Settled};
ghost use Rattle.joint_history.specs.Callers.{CallerKnows, HoldsPass, Hears, IsOfRun, KeepsReads, Tells, reads_of};
ghost use Rattle.joint_history.specs.Driven.{StillStands};

use joint_model::{Entries, Reply, Thread};
use order_table::{Order, OrderName, Seat};
use std::marker::{Model, PhantomData};

/// A pass that nobody was given, with what its seat knows and the list of its reads. Its thread needn't be one of the
/// run's.
#[derive(Drop)]
pub(crate) struct WaitingPass<N: OrderName> {
    pub(crate) thread: Thread,
    pub(crate) seat: Seat,
    pub(crate) reads: Entries,
    pub(crate) of: PhantomData<N>,
}

impl<N: OrderName> Model for WaitingPass<N> {
    ghost use Rattle.std.specs.Prelude.{◌≡◌};
    ghost use Rattle.joint_machine.specs.Lines.{IsThread};
    ghost use Rattle.order_table.specs.Allowed.{Settled};
    ghost use Rattle.joint_history.specs.Callers.{Pass, CallerKnows, HoldsPass, KeepsReads, reads_of};

    ghost Value = { Pass };

    ghost view = { λ p. record { thread = p.thread; view = p.seat.view; reads = reads_of p.thread p.reads } };

    ghost invariant = { λ p. IsThread p.thread × (p.seat.order ≡ N.order) × HoldsPass p.thread p.seat.view
        × CallerKnows p.thread p.seat.view × Settled p.seat.view × KeepsReads p.thread p.seat.view p.reads.entries };
}

/// A thread's pass, with what the thread knows, and of a managed thread the list of its reads, which it makes by
/// itself: whoever has it makes the thread's entries. The thread is one of the run's. Contracts see which it is, what
/// it knows and that list.
#[derive(Drop)]
pub struct Caller<N: OrderName> {
    pub(crate) thread: Thread,
    pub(crate) seat: Seat,
    pub(crate) reads: Entries,
    pub(crate) of: PhantomData<N>,
}

impl<N: OrderName> Model for Caller<N> {
    ghost use Rattle.std.specs.Prelude.{◌≡◌};
    ghost use Rattle.order_table.specs.Allowed.{Settled};
    ghost use Rattle.joint_history.specs.Callers.{Pass, CallerKnows, HoldsPass, IsOfRun, KeepsReads, reads_of};

    ghost Value = { Pass };

    ghost view = { λ c. record { thread = c.thread; view = c.seat.view; reads = reads_of c.thread c.reads } };

    ghost invariant = { λ c. IsOfRun N.managed N.peers c.thread × (c.seat.order ≡ N.order)
        × HoldsPass c.thread c.seat.view × CallerKnows c.thread c.seat.view
        × Settled c.seat.view × KeepsReads c.thread c.seat.view c.reads.entries };
}

/// What an operation's entries are: the numbers of its first and its last one, and its reply.
#[derive(Clone, Copy, PartialEq, Eq, Debug)]
pub struct Receipt {
    pub first: u64,
    pub last: u64,
    pub reply: Reply,
}

impl<N: OrderName> WaitingPass<N> {
    /// The pass of a thread, by a seat that holds it, with the list of its reads.
    pub(crate) fn new(thread: Thread, seat: Seat, reads: Entries) -> WaitingPass<N>
        requires thread { IsThread thread }
        requires order { seat.order ≡ N.order }
        requires pass { HoldsPass thread seat.view }
        requires settled { Settled seat.view }
        requires knows { CallerKnows thread seat.view }
        requires reads { KeepsReads thread seat.view reads.entries }
        ensures { result ≡ record { thread = thread; view = seat.view; reads = reads_of thread reads } }
    {
        WaitingPass {
            thread,
            seat,
            reads,
            of: PhantomData,
        }
    }

    /// The caller that has the pass of a thread of the run.
    pub(crate) fn into_caller(self) -> Caller<N>
        requires { IsOfRun N.managed N.peers self.thread }
        ensures { result ≡ self }
    {
        let WaitingPass {
            thread,
            seat,
            reads,
            of,
        } = self;
        Caller {
            thread,
            seat,
            reads,
            of,
        }
    }
}

impl<N: OrderName> Caller<N> {
    /// The pass that the caller gives back.
    pub(crate) fn into_pass(self) -> WaitingPass<N>
        ensures { result ≡ self }
    {
        let Caller {
            thread,
            seat,
            reads,
            of,
        } = self;
        WaitingPass {
            thread,
            seat,
            reads,
            of,
        }
    }

    /// Which thread it is.
    pub fn thread(&self) -> Thread
        ensures { result ≡ self.now.thread }
    {
        self.thread
    }
}

/// Tells one caller what another knows. It makes no entry, and where the driver is told it stands where it stood.
pub(crate) fn tell<N: OrderName>(order: &Order, from: &mut Caller<N>, to: &mut Caller<N>)
    requires order { order.now ≡ N.order }
    ensures from { Tells from.old from.new }
    ensures to { Hears from.old to.old to.new }
    ensures driver { IsDriver to.old.thread → StillStands to.old.view to.new.view }
{
    let note = order.note(&mut from.seat);
    order.learn(&mut to.seat, note);
}
