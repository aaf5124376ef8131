// At the end of a run the seats of all callers are taken into one.

ghost use Rattle.std.specs.Prelude.{◌≡◌, ℕ, [], ◌∷◌, ◌++◌, length, All, Some, slice_get, Option};
ghost use Rattle.joint_model.specs.Listed.{entry_lists};
ghost use Rattle.joint_machine.specs.HistoryLines.{caller_line};
ghost use Rattle.joint_machine.specs.Lines.{IsThread};
ghost use Rattle.joint_machine.specs.ManagedReplay.{ManagedReplay};
ghost use Rattle.joint_machine.specs.PeerReplay.{PeerReplay};
ghost use Rattle.joint_machine.specs.Sides.{Side};
ghost use Rattle.order_table.specs.Allowed.{Settled};
ghost use Rattle.order_table.specs.Views.{Owns};
ghost use Rattle.joint_history.specs.Callers.{Pass};
ghost use Rattle.joint_history.specs.Desks.{WaitsAt, present};
ghost use Rattle.joint_history.specs.Ending.{AllAreIn, GathersAll, HasAll, HasIdleDriver, StillWaits, TakesOwn};
ghost use Rattle.joint_history.specs.Ending.{threads_of, with_reads};
ghost use Rattle.joint_history.specs.Knowing.{line_known};
ghost use Rattle.joint_history.specs.Locked.{ManagedKnows, PeerKnows};

use crate::callers::{Caller, WaitingPass};
use crate::desks::Desk;
use joint_model::{Entries, Thread};
use order_table::{Order, OrderName, Seat};

// Puts the list of a thread's reads at the place of its reader's line. Only a managed thread has one.
fn put_reads(lists: &mut [Entries; 10], thread: Thread, reads: Entries)
    requires { IsThread thread }
    ensures { entry_lists lists.new ≡ with_reads thread reads.entries (entry_lists lists.old) }
{
    if let Thread::M(n) = thread {
        lists[1 + n as usize] = reads;
    }
}

// Takes in the seat of a thread that has come to rest, and puts the list of its reads at the place of its reader's
// line.
fn take_in<N: OrderName>(
    order: &Order,
    seat: &mut Seat,
    lists: &mut [Entries; 10],
    pass: WaitingPass<N>,
)
    requires order { (order.now ≡ N.order) × (seat.old.order ≡ N.order) }
    requires settled { Settled seat.old.view }
    requires idle { HasIdleDriver pass }
    ensures order { seat.new.order ≡ N.order }
    ensures settled { Settled seat.new.view }
    ensures gathers { GathersAll seat.old.view seat.new.view
        (entry_lists lists.old) (entry_lists lists.new) (pass.thread ∷ []) }
    ensures own { TakesOwn seat.old.view seat.new.view (pass ∷ []) }
{
    let WaitingPass {
        thread,
        seat: other,
        reads,
        of: _,
    } = pass;
    order.learn(seat, other);
    put_reads(lists, thread, reads);
}

/// Takes in the seats of callers that have come to rest.
pub(crate) fn gather<N: OrderName>(
    order: &Order,
    seat: &mut Seat,
    lists: &mut [Entries; 10],
    callers: Vec<Caller<N>>,
)
    requires order { (order.now ≡ N.order) × (seat.old.order ≡ N.order) }
    requires settled { Settled seat.old.view }
    requires idle { All HasIdleDriver callers.items }
    ensures order { seat.new.order ≡ N.order }
    ensures settled { Settled seat.new.view }
    ensures gathers { GathersAll seat.old.view seat.new.view
        (entry_lists lists.old) (entry_lists lists.new) (threads_of callers.items) }
    ensures own { TakesOwn seat.old.view seat.new.view callers.items }
{
    for caller in callers {
        take_in(order, seat, lists, caller.into_pass());
    }
}

/// Takes in the seats of threads whose pass nobody had.
pub(crate) fn gather_waiting<N: OrderName>(
    order: &Order,
    seat: &mut Seat,
    lists: &mut [Entries; 10],
    callers: Vec<Option<WaitingPass<N>>>,
)
    requires order { (order.now ≡ N.order) × (seat.old.order ≡ N.order) }
    requires settled { Settled seat.old.view }
    requires waits { (i : ℕ) (o : Option Pass) → slice_get callers.items i ≡ Some o → WaitsAt i o }
    ensures order { seat.new.order ≡ N.order }
    ensures settled { Settled seat.new.view }
    ensures gathers { GathersAll seat.old.view seat.new.view (entry_lists lists.old)
        (entry_lists lists.new) (threads_of (present callers.items)) }
    ensures own { TakesOwn seat.old.view seat.new.view (present callers.items) }
{
    for waiting in callers {
        if let Some(pass) = waiting {
            take_in(order, seat, lists, pass);
        }
    }
}

/// Takes in the other side's seat, the seats of the callers that were given out, and those of the callers that still
/// wait.
pub(crate) fn gather_all<N: OrderName>(
    order: &Order,
    seat: &mut Seat,
    lists: &mut [Entries; 10],
    other: Seat,
    desk: Desk<N>,
    callers: Vec<Caller<N>>,
)
    requires order { (order.now ≡ N.order) × (seat.old.order ≡ N.order) × (other.order ≡ N.order) }
    requires settled { Settled seat.old.view × Settled other.view }
    requires ten { length lists.old ≡ 10 }
    requires all { HasAll desk callers.items }
    requires idle { All HasIdleDriver callers.items }
    ensures order { seat.new.order ≡ N.order }
    ensures settled { Settled seat.new.view }
    ensures gathers { (l : Side ManagedReplay) (r : Side PeerReplay) → ManagedKnows seat.old.view l
        → PeerKnows other.view r → Owns seat.old.view 0 → Owns other.view 1
        → AllAreIn seat.new.view l r (entry_lists lists.new) }
    ensures own { TakesOwn seat.old.view seat.new.view (callers.items ++ present desk.callers) }
    ensures waiting { (t : Thread) → IsThread t → StillWaits desk t → line_known seat.new.view (caller_line t) ≡ [] }
{
    order.learn(seat, other);
    gather(order, seat, lists, callers);
    gather_waiting(order, seat, lists, desk.into_callers());
}
