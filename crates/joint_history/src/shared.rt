// Two sides beside one order.

ghost use Rattle.std.specs.Prelude.{◌≡◌, ◌<◌, ◌≤◌, ◌^◌, [], length, All, IfOk};
ghost use Rattle.joint_machine.specs.Shuffles.{IsJoinable, IsShuffle};
ghost use Rattle.joint_model.specs.Listed.{entry_lists};
ghost use Rattle.joint_machine.specs.Lines.{IsDriver, IsThread};
ghost use Rattle.joint_machine.specs.LinkedHistories.{IsLinked};
ghost use Rattle.known_laws.specs.Lists.{made_by};
ghost use Rattle.managed_heap.specs.Sides.{as_side};
ghost use Rattle.peer_heap.specs.Sides.{seen};
ghost use Rattle.order_table.specs.Allowed.{Settled};
ghost use Rattle.order_table.specs.Views.{Owns, OwnsAll};
ghost use Rattle.joint_history.specs.Callers.{Hears, KnowsNothing, Tells};
ghost use Rattle.joint_history.specs.Desks.{AreAll};
ghost use Rattle.joint_history.specs.Driven.{StillStands};
ghost use Rattle.joint_history.specs.Ending.{all_lists, AllTaken, BeginsHistory, HasAll, HasIdleDriver, HasOwn};
ghost use Rattle.joint_history.specs.Ending.{HasEndNumbers, IsFinished, IsKnownHistory, StillWaits};

use crate::callers::{Caller, tell};
use crate::desks::Desk;
use crate::ends::{RunEnd, Totals};
use crate::gathers::gather_all;
use crate::keeping::{Keep, Keeps};
use crate::steps::Locked;
use joint_model::{Entries, History, Holding, JoinFault, PastHistory, Thread};
use managed_heap::{ManagedLists, ManagedSide};
use order_table::{Order, OrderName, Role, Seat};
use peer_heap::{PeerLists, PeerSide};
use std::alloc::{AllocError, Global};

/// Both sides, each with the seat that owns its role, and the order of all entries. No call has both sides in hand. `K`
/// is how they are kept: [`Locks`](crate::Locks) where threads share them, [`Alone`](crate::Alone) where one thread has
/// them alone.
#[derive(Drop)]
pub struct Shared<N: OrderName, K: Keeps<N>> {
    pub(crate) alloc: Global,
    pub(crate) order: Order,
    pub(crate) managed: K::Managed,
    pub(crate) peers: K::Peers,
    ghost named: { order ≡ N.order },
}

// Ten lists without entries, one for each line of a side or of a reader.
fn no_lists(alloc: Global) -> [Entries; 10]
    ensures { length result ≡ 10 }
{
    std::array::from_fn(|_| Entries::new(alloc, Holding::Every))
}

// The lists of both sides, before those of the readers.
fn with_sides(readers: [Entries; 10], managed: Entries, peers: Entries) -> [Entries; 10]
    ensures { entry_lists result ≡ all_lists managed.entries peers.entries (entry_lists readers) }
{
    let mut lists = readers;
    lists[0] = managed;
    lists[1] = peers;
    lists
}

// Joins the lists of both sides and of the readers into one history.
fn join_lists(
    alloc: Global,
    left: ManagedLists,
    right: PeerLists,
    readers: [Entries; 10],
) -> Result<History, JoinFault>
    requires { IsJoinable (all_lists left.entries.entries right.entries.entries (entry_lists readers))
        left.freed.items right.freed.items left.notices.items }
    ensures shuffle { IfOk result (λ h. IsShuffle
        (all_lists left.entries.entries right.entries.entries (entry_lists readers)) h.entries) }
    ensures managed { IfOk result (λ h. h.freed_managed ≡ left.freed.items) }
    ensures peers { IfOk result (λ h. h.freed_peers ≡ right.freed.items) }
    ensures notices { IfOk result (λ h. h.notices ≡ left.notices.items) }
{
    let lists = with_sides(readers, left.entries, right.entries);
    let Ok(lists) = Vec::from_array(alloc, lists) else {
        return Err(JoinFault::OutOfMemory);
    };
    History::join(alloc, lists, left.freed, right.freed, left.notices)
}

// The same for proofs alone.
fn join_past(left: ManagedLists, right: PeerLists, readers: [Entries; 10]) -> PastHistory
    requires { IsJoinable (all_lists left.entries.entries right.entries.entries (entry_lists readers))
        left.freed.items right.freed.items left.notices.items }
    ensures shuffle { IsShuffle (all_lists left.entries.entries right.entries.entries (entry_lists readers))
        result.entries }
    ensures managed { result.freed_managed ≡ left.freed.items }
    ensures peers { result.freed_peers ≡ right.freed.items }
    ensures notices { result.notices ≡ left.notices.items }
{
    let lists = with_sides(readers, left.entries, right.entries);
    PastHistory::join(lists, left.freed, right.freed, left.notices)
}

impl<N: OrderName, K: Keeps<N>> Shared<N, K> {
    /// Both sides without objects and entries, each for the run's threads of its heap, and the desk at which their
    /// callers wait. The seat is the one that came with the order. The lists of both sides and of the callers' reads
    /// hold their entries as they are told. Answers `AllocError` where there is no memory.
    pub fn new(
        alloc: Global,
        order: Order,
        seat: Seat,
        managed: u8,
        peers: u8,
        holding: Holding,
    ) -> Result<(Shared<N, K>, Desk<N>), AllocError>
        requires order { order ≡ N.order }
        requires seat { (seat.order ≡ N.order) × OwnsAll seat.view × KnowsNothing seat.view × Settled seat.view }
        requires counts { (managed ≤ 8) × (peers ≤ 8) }
        requires run { (managed ≡ N.managed) × (peers ≡ N.peers) }
        ensures desk { IfOk result (λ r. (r.1.managed ≡ managed) × (r.1.peers ≡ peers) × AreAll r.1.callers) }
        ensures all { IfOk result (λ r. HasAll r.1 []) }
    {
        let mut seat = seat;
        let desk = match Desk::new(alloc, &order, &mut seat, managed, peers, holding) {
            Ok(desk) => desk,
            Err(error) => {
                drop(seat);
                drop(order);
                return Err(error);
            }
        };
        match Shared::with_seat(alloc, order, seat, managed, peers, holding) {
            Ok(shared) => Ok((shared, desk)),
            Err(error) => {
                drop(desk);
                Err(error)
            }
        }
    }

    // Both sides, with a seat that owns the lists of both.
    fn with_seat(
        alloc: Global,
        order: Order,
        seat: Seat,
        managed: u8,
        peers: u8,
        holding: Holding,
    ) -> Result<Shared<N, K>, AllocError>
        requires order { order ≡ N.order }
        requires seat { (seat.order ≡ N.order) × Owns seat.view 0
            × Owns seat.view 1 × KnowsNothing seat.view × Settled seat.view }
        requires counts { (managed ≤ 8) × (peers ≤ 8) }
        requires run { (managed ≡ N.managed) × (peers ≡ N.peers) }
    {
        let left = match ManagedSide::new(alloc, managed, holding) {
            Ok(left) => left,
            Err(fault) => {
                drop(seat);
                drop(order);
                return Err(fault);
            }
        };
        let right = match PeerSide::new(alloc, peers, holding) {
            Ok(right) => right,
            Err(fault) => {
                drop(left);
                drop(seat);
                drop(order);
                return Err(fault);
            }
        };
        let mut seat = seat;
        let peer_seat = order.share(&mut seat, Role::Peer);
        let left = Locked::new(left, seat);
        let right = Locked::new(right, peer_seat);
        Ok(Shared {
            alloc,
            order,
            managed: K::Managed::of(left),
            peers: K::Peers::of(right),
        })
    }

    /// Tells one caller all that another knows. It makes no entry, and takes no lock and no memory. Where the driver is
    /// told, it stands where it stood.
    pub fn tell(&self, from: &mut Caller<N>, to: &mut Caller<N>)
        ensures from { Tells from.old from.new }
        ensures to { Hears from.old to.old to.new }
        ensures driver { IsDriver to.old.thread → StillStands to.old.view to.new.view }
    {
        tell(&self.order, from, to);
    }

    // Takes the seats of both sides and of all callers into one, and puts the lists of reads at the places of their
    // readers' lines.
    fn take_all(
        self,
        desk: Desk<N>,
        callers: Vec<Caller<N>>,
    ) -> (ManagedSide, PeerSide, [Entries; 10])
        requires all { HasAll desk callers.items }
        requires idle { All HasIdleDriver callers.items }
        ensures { AllTaken (as_side result.0) (seen result.1) (entry_lists result.2) desk callers.items }
    {
        let Shared {
            alloc,
            order,
            managed,
            peers,
        } = self;
        let mut lists = no_lists(alloc);
        let (managed_side, mut seat) = managed.into_value().into_parts();
        let (peer_side, peer_seat) = peers.into_value().into_parts();
        gather_all(&order, &mut seat, &mut lists, peer_seat, desk, callers);
        let _ = order.finish(seat);
        (managed_side, peer_side, lists)
    }

    /// Ends the run: one history of all entries, which is linked, has all notices that were ever queued, and in which
    /// each caller has just the entries that it made. Each thread's caller is still at the desk or is given back here,
    /// and the driver's is idle. Answers `OutOfMemory` where there is no memory for the history, and `EntriesLetGo`
    /// where a list of a side or of a thread's reads let entries go, which none does where `new` was told that lists
    /// hold every one.
    pub fn finish(self, desk: Desk<N>, callers: Vec<Caller<N>>) -> Result<History, JoinFault>
        requires all { HasAll desk callers.items }
        requires idle { All HasIdleDriver callers.items }
        ensures linked { IfOk result (λ h. IsLinked h) }
        ensures finished { IfOk result (λ h. IsFinished h) }
        ensures own { IfOk result (λ h. All (HasOwn h.entries) callers.items) }
        ensures none { IfOk result (λ h. (t : Thread) → IsThread t → StillWaits desk t → made_by t h.entries ≡ []) }
        ensures begins { IfOk result (λ h. All (BeginsHistory h.entries) callers.items) }
        ensures few { IfOk result (λ h. length h.entries < 2 ^ 64) }
        ensures known { IfOk result (IsKnownHistory callers.items) }
    {
        let alloc = self.alloc;
        let (left, right, readers) = self.take_all(desk, callers);
        join_lists(alloc, left.into_lists(), right.into_lists(), readers)
    }

    /// Ends a run of which no entry is read: its history is that of `finish`, for proofs alone, and what is left of it
    /// are the numbers of its last state. It takes no memory.
    pub fn end(self, desk: Desk<N>, callers: Vec<Caller<N>>) -> RunEnd
        requires all { HasAll desk callers.items }
        requires idle { All HasIdleDriver callers.items }
        ensures linked { IsLinked result.history }
        ensures finished { IsFinished result.history }
        ensures own { All (HasOwn result.history.entries) callers.items }
        ensures none { (t : Thread) → IsThread t → StillWaits desk t → made_by t result.history.entries ≡ [] }
        ensures begins { All (BeginsHistory result.history.entries) callers.items }
        ensures few { length result.history.entries < 2 ^ 64 }
        ensures counted { HasEndNumbers result }
    {
        let (left, right, readers) = self.take_all(desk, callers);
        let cycles = left.cycles();
        let managed = Totals {
            all: left.made(),
            left: left.live(),
        };
        let peers = Totals {
            all: right.made(),
            left: right.live(),
        };
        let handles = Totals {
            all: right.handles_made(),
            left: right.tabled(),
        };
        RunEnd {
            history: join_past(left.into_lists(), right.into_lists(), readers),
            cycles,
            managed,
            peers,
            handles,
        }
    }
}
