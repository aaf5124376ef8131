// The callers that weren't given out yet.

ghost use Rattle.std.specs.Prelude.{◌≡◌, ◌≤◌, ◌<◌, ℕ, ◌++◌, IfOk, OnOk, IfSome, List, Option, Some, option_to_list};
ghost use Rattle.std.specs.Prelude.{slice_get, true, vec_len};
ghost use Rattle.joint_machine.specs.Control.{caller_place};
ghost use Rattle.joint_machine.specs.Lines.{IsThread};
ghost use Rattle.order_table.specs.Allowed.{Settled};
ghost use Rattle.order_table.specs.Views.{Owns, OwnsAll};
ghost use Rattle.joint_history.specs.Callers.{IsOfRun, KnowsNothing, Pass};
ghost use Rattle.joint_history.specs.Desks.{AreAll, WaitsAt, has_thread, thread_of, waits, without_caller};
ghost use Rattle.joint_history.specs.Ending.{HasAll};

use crate::callers::{Caller, WaitingPass};
use joint_model::{Entries, Holding, Thread};
use order_table::{Order, OrderName, Seat};
use std::alloc::{AllocError, Global};
use std::marker::Model;

/// The callers of a run that nobody has yet: of the driver and of so many managed and peer threads, for which both
/// sides are. The passes of the threads that the run doesn't have wait here to its end.
#[derive(Drop)]
pub struct Desk<N: OrderName> {
    managed: u8,
    peers: u8,
    callers: Vec<Option<WaitingPass<N>>>,
}

impl<N: OrderName> Model for Desk<N> {
    ghost use Rattle.std.specs.Prelude.{◌≡◌};
    ghost use Rattle.joint_history.specs.Desks.{IsDesk, Waiting};

    ghost Value = { Waiting };

    ghost view = { λ d. record { managed = d.managed; peers = d.peers; callers = d.callers.items } };

    ghost invariant = { λ d. IsDesk record { managed = d.managed; peers = d.peers; callers = d.callers.items }
        × (d.managed ≡ N.managed) × (d.peers ≡ N.peers) };
}

/// The thread whose caller has that place at the desk: the driver, m1 to m8, p1 to p8.
pub fn thread_at(place: u8) -> Thread
    requires { place < 17 }
    ensures { result ≡ thread_of place }
{
    if place == 0 {
        Thread::C
    } else if place <= 8 {
        Thread::M(place)
    } else {
        Thread::P(place - 8)
    }
}

// The place of a thread.
fn place_of(t: Thread) -> usize
    requires { IsThread t }
    ensures { result ≡ caller_place t }
{
    match t {
        Thread::M(n) => n as usize,
        Thread::P(n) => 8 + n as usize,
        Thread::C => 0,
    }
}

// All passes, by place, with lines that a seat gives away which holds all of them.
fn all_callers<N: OrderName>(
    alloc: Global,
    order: &Order,
    seat: &mut Seat,
    holding: Holding,
) -> Result<Vec<Option<WaitingPass<N>>>, AllocError>
    requires order { (order.now ≡ N.order) × (seat.old.order ≡ N.order) }
    requires seat { OwnsAll seat.old.view × KnowsNothing seat.old.view }
    requires settled { Settled seat.old.view }
    ensures order { seat.new.order ≡ N.order }
    ensures seat { Owns seat.new.view 0 × Owns seat.new.view 1 × KnowsNothing seat.new.view }
    ensures settled { Settled seat.new.view }
    ensures callers { IfOk result (λ v. AreAll v.items) }
{
    let mut callers = Vec::new(alloc);
    match put_callers(alloc, order, seat, holding, &mut callers) {
        Ok(()) => Ok(callers),
        Err(error) => {
            drop(callers);
            Err(error)
        }
    }
}

// Puts them into an empty list.
fn put_callers<N: OrderName>(
    alloc: Global,
    order: &Order,
    seat: &mut Seat,
    holding: Holding,
    callers: &mut Vec<Option<WaitingPass<N>>>,
) -> Result<(), AllocError>
    requires order { (order.now ≡ N.order) × (seat.old.order ≡ N.order) }
    requires seat { OwnsAll seat.old.view × KnowsNothing seat.old.view }
    requires settled { Settled seat.old.view }
    requires empty { vec_len callers.old ≡ 0 }
    ensures order { seat.new.order ≡ N.order }
    ensures seat { Owns seat.new.view 0 × Owns seat.new.view 1 × KnowsNothing seat.new.view }
    ensures settled { Settled seat.new.view }
    ensures callers { OnOk result (AreAll callers.new.items) }
{
    for place in 0..17u8 {
        let t = thread_at(place);
        let pass = order.hand(seat, t);
        let reads = Entries::new(alloc, holding);
        callers.push(Some(WaitingPass::new(t, pass, reads)))?;
    }
    Ok(())
}

// The caller that has the pass, if one is there.
fn give_out<N: OrderName>(waiting: Option<WaitingPass<N>>) -> Option<Caller<N>>
    requires { IfSome waiting (λ p. IsOfRun N.managed N.peers p.thread) }
    ensures { result ≡ waiting }
{
    match waiting {
        Some(pass) => Some(pass.into_caller()),
        None => None,
    }
}

impl<N: OrderName> Desk<N> {
    /// A desk at which every caller waits, with the lines that a seat gives away which holds all of them. The callers'
    /// lists of reads hold their entries as they are told. Answers `AllocError` where there is no memory.
    pub(crate) fn new(
        alloc: Global,
        order: &Order,
        seat: &mut Seat,
        managed: u8,
        peers: u8,
        holding: Holding,
    ) -> Result<Desk<N>, AllocError>
        requires counts { (managed ≤ 8) × (peers ≤ 8) }
        requires run { (managed ≡ N.managed) × (peers ≡ N.peers) }
        requires order { (order.now ≡ N.order) × (seat.old.order ≡ N.order) }
        requires seat { OwnsAll seat.old.view × KnowsNothing seat.old.view }
        requires settled { Settled seat.old.view }
        ensures order { seat.new.order ≡ N.order }
        ensures seat { Owns seat.new.view 0 × Owns seat.new.view 1 × KnowsNothing seat.new.view }
        ensures settled { Settled seat.new.view }
        ensures desk { IfOk result (λ d. (d.managed ≡ managed) × (d.peers ≡ peers) × AreAll d.callers) }
    {
        let callers = all_callers(alloc, order, seat, holding)?;
        Ok(Desk {
            managed,
            peers,
            callers,
        })
    }

    // Whether there is such a thread.
    fn has(&self, t: Thread) -> bool
        ensures { result ≡ has_thread self.now t }
    {
        match t {
            Thread::M(n) => 1 <= n && n <= self.managed,
            Thread::P(n) => 1 <= n && n <= self.peers,
            Thread::C => true,
        }
    }

    /// The thread's caller, which knows nothing yet; None exactly where there is no such thread or its caller was given
    /// out.
    pub fn caller(&mut self, t: Thread) -> Option<Caller<N>>
        ensures caller { result ≡ waits self.old t }
        ensures desk { self.new ≡ without_caller self.old t }
        ensures thread { IfSome result (λ p. p.thread ≡ t) }
        ensures nothing { IfSome result (λ p. KnowsNothing p.view) }
        ensures all { (ps : List Pass) → HasAll self.old ps → HasAll self.new (option_to_list result ++ ps) }
    {
        if !self.has(t) {
            return None;
        }
        give_out(self.callers[place_of(t)].take())
    }

    /// The passes that nobody was given, by place.
    pub(crate) fn into_callers(self) -> Vec<Option<WaitingPass<N>>>
        ensures callers { result.items ≡ self.callers }
        ensures waits { (i : ℕ) (o : Option Pass) → slice_get result.items i ≡ Some o → WaitsAt i o }
    {
        self.callers
    }
}
