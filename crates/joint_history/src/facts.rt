// What holds under each side's lock and of each caller, fact by fact. The functions here do nothing: their clauses are
// what the types keep, as a reader of the two sides may look for it.

ghost use Rattle.std.specs.Prelude.{◌≡◌};
ghost use Rattle.managed_heap.specs.Sides.{as_side};
ghost use Rattle.peer_heap.specs.Sides.{seen};
ghost use Rattle.joint_history.specs.Callers.{CallerKnows, IsOfRun, reads_of};
ghost use Rattle.joint_history.specs.Locked.{ManagedKnows, PeerKnows, PeerReserves};
ghost use Rattle.joint_history.specs.SeatFacts.{HandlesLeft, ManagedListCites, NoneLeadsToClearedIn};
ghost use Rattle.joint_history.specs.SeatFacts.{NoneLeadsToFreedIn, PeerListCites, ResolvesFreed, ResolvesRenewed};
ghost use Rattle.joint_history.specs.SeatFacts.{WeakIsWaitingIn};

use crate::callers::Caller;
use crate::steps::Locked;
use managed_heap::ManagedSide;
use order_table::OrderName;
use peer_heap::PeerSide;

impl<N: OrderName> Locked<N, ManagedSide> {
    /// The managed side is for the run's managed threads. Its seat knows a lawful past, of which the side's list is the
    /// managed line and whose end has the side's state. Each adopt, meet and resolve of the list cites a peer entry
    /// that the seat knows, and each resolve freed of its candidates exactly those whose restore answered cleared, and
    /// gave each other one the handle that its restore gave.
    pub fn recall_facts(&self)
        ensures knows { ManagedKnows self.now.view (as_side self.now.side) }
        ensures threads { self.now.side.threads ≡ N.managed }
        ensures cites { ManagedListCites self.now.view self.now.side.entries }
        ensures resolved { ResolvesFreed self.now.view }
        ensures renewed { ResolvesRenewed self.now.view }
    {
        let _ = &self.seat;
    }
}

impl<N: OrderName> Locked<N, PeerSide> {
    /// The peer side is for the run's peer threads. Its seat knows a lawful past, of which the side's list is the peer
    /// line and whose end has the side's state. No reference waits, and a mirrored cycle has room for its handles and
    /// its marking. Each land and release of the list cites a managed entry that the seat knows, each mirror and weaken
    /// a snap. A held handle left the table by a release or a restore, and is weak only while it waits in the mirrored
    /// cycle. Nothing leads to a freed peer, and no mirrored reference from a peer restored alive to one whose restore
    /// answered cleared.
    pub fn recall_facts(&self)
        ensures knows { PeerKnows self.now.view (seen self.now.side) }
        ensures threads { self.now.side.threads ≡ N.peers }
        ensures reserves { PeerReserves self.now.view self.now.side }
        ensures cites { PeerListCites self.now.view self.now.side.entries }
        ensures left { HandlesLeft (seen self.now.side) }
        ensures weak { WeakIsWaitingIn self.now.side.state }
        ensures freed { NoneLeadsToFreedIn self.now.side.state }
        ensures cleared { NoneLeadsToClearedIn self.now.view }
    {
        let _ = &self.seat;
    }
}

impl<N: OrderName> Caller<N> {
    /// A caller's thread is one of the run's, for which both sides are. Its seat knows a lawful past, at whose end the
    /// thread has nothing to release. Only a managed thread has reads of its own.
    pub fn recall_facts(&self)
        ensures thread { IsOfRun N.managed N.peers self.now.thread }
        ensures knows { CallerKnows self.now.thread self.now.view }
        ensures reads { self.now.reads ≡ reads_of self.now.thread self.now.reads }
    {
        let _ = &self.seat;
    }
}
