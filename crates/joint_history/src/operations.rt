// The operations of managed and peer threads: one event after another, each under its own side's lock, and each but the
// first cites the one before it. No two locks are held together. A caller's seat is the note between them: after an
// event it knows the entry, and hands it to the other side's seat with its pass.

ghost use Rattle.std.specs.Prelude.{◌≡◌, ◌≤◌, [], None, IfOk, IsOk, OnErr, false, true};
ghost use Rattle.joint_machine.specs.declared.events.Reply.{Reply};
ghost use Rattle.joint_machine.specs.declared.lines.Act.{Act};
ghost use Rattle.joint_machine.specs.Lines.{IsLine, IsManagedThread, IsPeerThread, is_peer_event};
ghost use Rattle.order_table.specs.Allowed.{Settled};
ghost use Rattle.peer_heap.specs.Steps.{IsRelease};
ghost use Rattle.joint_history.specs.Callers.{HoldsPass, IsOfRun, KeepsReads, ReadsStay, last_index, own};
ghost use Rattle.joint_history.specs.Collecting.{Collects};
ghost use Rattle.joint_history.specs.Locked.{MayMake, Makes, MakesNone};
ghost use Rattle.joint_history.specs.Operations.{StopsWithoutMemory, IsMadeByEvents, IsOwnThread, IsCallBy};
ghost use Rattle.joint_history.specs.Operations.{IsSideEvent, MakesAll, MayBegin, ReadsExactly, Runs, answer_of};
ghost use Rattle.joint_history.specs.Operations.{call_of, entry_by, first_of, second_of, third_of};

use crate::callers::{Caller, Receipt};
use crate::collects::Collecting;
use crate::keeping::{Keep, Keeps};
use crate::managed::{CellSetting, ManagedEvent, ManagedLine, Taking};
use crate::peer::{PeerEvent, PeerLine};
use crate::shared::Shared;
use joint_model::{Act, Cell, Entries, Op, Reply, Thread, Var};
use order_table::{OrderName, Seat};
use std::alloc::AllocError;
use std::sync::Wait;

// The first event of an operation.
fn first_of(act: &Act) -> Op
    ensures { result ≡ first_of act.now }
{
    match *act {
        Act::Bridge {
            v: _,
            kind: _,
            fields: _,
            sort,
            peer_fields,
        } => Op::Make {
            sort,
            fields: peer_fields,
        },
        Act::Pass { v, x } => Op::Lend { v, x },
        Act::Surface { v: _, x } => Op::Grip { x },
        Act::Dispose { v } => Op::Give { v },
        Act::Collect | Act::BeginMark => Op::Begin,
        Act::SweepMark => Op::Sweep,
        _ => Op::Line(*act),
    }
}

// The second event, by the reply to the first one; None where the operation ends with its first.
fn second_of(act: &Act, reply: Reply) -> Option<Op>
    ensures { result ≡ second_of act.now reply }
{
    match *act {
        Act::Bridge {
            v,
            kind,
            fields,
            ..
        } => match reply {
            Reply::Made(p, h) => Some(Op::Adopt {
                v,
                kind,
                fields,
                p,
                h,
            }),
            _ => None,
        },
        Act::Pass { v: _, x } => match reply {
            Reply::H(h) => Some(Op::Land { h, x }),
            _ => None,
        },
        Act::Surface { v, x: _ } => match reply {
            Reply::Gripped(p, h, sort, fields) => Some(Op::Meet {
                v,
                p,
                h,
                sort,
                fields,
            }),
            _ => None,
        },
        Act::Dispose { v: _ } => match reply {
            Reply::H(h) => Some(Op::Release { h }),
            _ => None,
        },
        Act::Collect => match reply {
            Reply::Mark(_) => Some(Op::Sweep),
            _ => None,
        },
        _ => None,
    }
}

// The third event, by the second one and its reply: the release of a handle that a meet didn't take.
fn third_of(op: &Op, reply: Reply) -> Option<Op>
    ensures { result ≡ third_of op.now reply }
{
    match *op {
        Op::Meet { h, .. } => match reply {
            Reply::New(_) => None,
            _ => Some(Op::Release { h }),
        },
        _ => None,
    }
}

// What an operation of two events answers.
fn answer_of(act: &Act, first: Reply, second: Reply) -> Reply
    ensures { result ≡ answer_of act.now first second }
{
    match *act {
        Act::Dispose { v: _ } => first,
        _ => second,
    }
}

// What an operation of two events answers, by their entries' numbers and replies.
#[inline(always)]
fn receipt_of_two(act: &Act, first: u64, reply: Reply, second: u64, answer: Reply) -> Receipt
    ensures { result ≡ record { first = first; last = second; reply = answer_of act.now reply answer } }
{
    Receipt {
        first,
        last: second,
        reply: answer_of(act, reply, answer),
    }
}

// The call of the managed side by which an event of its thread is made.
#[derive(Clone, Copy)]
enum ManagedCall {
    Read { act: Act },
    Weak { k: Cell, v: Var },
    Take { v: Var },
    Step,
}

#[inline(always)]
fn call_of(op: &Op) -> ManagedCall
    ensures { result ≡ call_of op.now }
{
    match *op {
        Op::Line(act) => match act {
            Act::Read { k: _ } | Act::Await { k: _ } => ManagedCall::Read { act },
            Act::Weak { k, v } => ManagedCall::Weak { k, v },
            Act::Take { v } => ManagedCall::Take { v },
            _ => ManagedCall::Step,
        },
        _ => ManagedCall::Step,
    }
}

// Whether an operation is one step of its thread's own side, as most are.
fn is_step(act: &Act) -> bool
    ensures first { result ≡ true → first_of act.now ≡ Op.Line act.now }
    ensures only { result ≡ true → (reply : Reply) → second_of act.now reply ≡ None }
    ensures call { result ≡ true → call_of (Op.Line act.now) ≡ ManagedCall.Step }
{
    match *act {
        Act::New { .. }
        | Act::NewPeer { .. }
        | Act::Copy { .. }
        | Act::Set { .. }
        | Act::Get { .. }
        | Act::Drop { .. }
        | Act::Load { .. }
        | Act::Store { .. }
        | Act::Handle { .. }
        | Act::Global { .. }
        | Act::WGlobal { .. }
        | Act::UnGlobal { .. }
        | Act::WRead { .. } => true,
        _ => false,
    }
}

// Whether the event is made on the peer side.
fn is_of_peers(t: Thread, op: &Op) -> bool
    ensures { result ≡ is_peer_event t op.now }
{
    match *op {
        Op::Line(_) => matches!(t, Thread::P(_)),
        Op::Make { .. }
        | Op::Land { .. }
        | Op::Grip { .. }
        | Op::Release { .. }
        | Op::Mirror { .. }
        | Op::Weaken { .. }
        | Op::Begin
        | Op::Sweep
        | Op::Restore { .. }
        | Op::Clear { .. } => true,
        _ => false,
    }
}

impl<N: OrderName, K: Keeps<N>> Shared<N, K> {
    // Makes one event of the managed side's list, or a read, under the managed lock, and answers its entry's number and
    // the reply.
    #[inline(always)]
    fn managed_event(
        &self,
        rt: &impl Wait,
        mine: &mut Seat,
        reads: &mut Entries,
        t: Thread,
        index: u32,
        op: &Op,
        cites: Option<u64>,
    ) -> Result<(u64, Reply), AllocError>
        requires order { mine.old.order ≡ N.order }
        requires settled { Settled mine.old.view }
        requires pass { IsOwnThread t × HoldsPass t mine.old.view }
        requires run { IsOfRun N.managed N.peers t }
        requires event { IsCallBy t op.now (call_of op.now) }
        requires reads { KeepsReads t mine.old.view reads.old.entries }
        requires may { MayMake t mine.old.view index op.now cites }
        ensures order { mine.new.order ≡ N.order }
        ensures settled { Settled mine.new.view }
        ensures pass { HoldsPass t mine.new.view }
        ensures reads { KeepsReads t mine.new.view reads.new.entries }
        ensures ok { IfOk result (λ r. Makes t mine.old.view mine.new.view (entry_by t index r.0 op.now r.1 cites)) }
        ensures exact { IfOk result (λ r. (a : Act) → op.now ≡ Op.Line a
            → ReadsExactly t mine.old.view mine.new.view a r.1) }
        ensures err { OnErr result (MakesNone t mine.old.view mine.new.view) }
    {
        match call_of(op) {
            ManagedCall::Read { act } => {
                reads.reserve(1)?;
                let mut held = self.managed.hold(rt);
                Ok(held.value().read(&self.order, mine, reads, t, index, &act))
            }
            ManagedCall::Weak { k, v } => {
                let step = CellSetting {
                    caller: t,
                    index,
                    k,
                    v,
                };
                self.managed
                    .hold(rt)
                    .value()
                    .make(&self.order, mine, t, step)
            }
            ManagedCall::Take { v } => {
                let step = Taking {
                    caller: t,
                    index,
                    v,
                };
                self.managed
                    .hold(rt)
                    .value()
                    .make(&self.order, mine, t, step)
            }
            ManagedCall::Step => {
                let step = ManagedEvent {
                    caller: t,
                    index,
                    op,
                    cites,
                };
                self.managed
                    .hold(rt)
                    .value()
                    .make(&self.order, mine, t, step)
            }
        }
    }

    // Makes one event, the managed side's or a read under the managed lock and all others under the peer lock, and
    // answers its entry's number and the reply.
    #[inline(always)]
    fn event(
        &self,
        rt: &impl Wait,
        mine: &mut Seat,
        reads: &mut Entries,
        t: Thread,
        index: u32,
        op: &Op,
        cites: Option<u64>,
    ) -> Result<(u64, Reply), AllocError>
        requires order { mine.old.order ≡ N.order }
        requires settled { Settled mine.old.view }
        requires pass { IsOwnThread t × HoldsPass t mine.old.view }
        requires run { IsOfRun N.managed N.peers t }
        requires event { IsSideEvent t op.now }
        requires reads { KeepsReads t mine.old.view reads.old.entries }
        requires may { MayMake t mine.old.view index op.now cites }
        ensures order { mine.new.order ≡ N.order }
        ensures settled { Settled mine.new.view }
        ensures pass { HoldsPass t mine.new.view }
        ensures reads { KeepsReads t mine.new.view reads.new.entries }
        ensures ok { IfOk result (λ r. Makes t mine.old.view mine.new.view (entry_by t index r.0 op.now r.1 cites)) }
        ensures exact { is_peer_event t op.now ≡ false
            → IfOk result (λ r. (a : Act) → op.now ≡ Op.Line a → ReadsExactly t mine.old.view mine.new.view a r.1) }
        ensures release { IsRelease op.now → IsOk result }
        ensures err { OnErr result (MakesNone t mine.old.view mine.new.view) }
    {
        if is_of_peers(t, op) {
            let step = PeerEvent {
                caller: t,
                index,
                op,
                cites,
            };
            return self.peers.hold(rt).value().make(&self.order, mine, t, step);
        }
        self.managed_event(rt, mine, reads, t, index, op, cites)
    }

    // Makes a step of the thread's own side under that side's lock, and answers its entry's number and the reply.
    #[inline(always)]
    fn own_step(
        &self,
        rt: &impl Wait,
        mine: &mut Seat,
        t: Thread,
        index: u32,
        act: &Act,
    ) -> Result<(u64, Reply), AllocError>
        requires order { mine.old.order ≡ N.order }
        requires settled { Settled mine.old.view }
        requires pass { IsOwnThread t × HoldsPass t mine.old.view }
        requires run { IsOfRun N.managed N.peers t }
        requires event { IsSideEvent t (Op.Line act.now) }
        requires call { call_of (Op.Line act.now) ≡ ManagedCall.Step }
        requires may { MayMake t mine.old.view index (Op.Line act.now) None }
        ensures order { mine.new.order ≡ N.order }
        ensures settled { Settled mine.new.view }
        ensures pass { HoldsPass t mine.new.view }
        ensures reads { ReadsStay t mine.old.view mine.new.view }
        ensures ok { IfOk result (λ r. Makes t mine.old.view mine.new.view
            (entry_by t index r.0 (Op.Line act.now) r.1 None)) }
        ensures err { OnErr result (MakesNone t mine.old.view mine.new.view) }
    {
        match t {
            Thread::P(_) => {
                let step = PeerLine {
                    caller: t,
                    index,
                    act,
                };
                self.peers.hold(rt).value().make(&self.order, mine, t, step)
            }
            _ => {
                let step = ManagedLine {
                    caller: t,
                    index,
                    act,
                };
                self.managed
                    .hold(rt)
                    .value()
                    .make(&self.order, mine, t, step)
            }
        }
    }

    // Runs an operation with the thread's seat, each event in a hold of its own side's lock.
    #[inline(always)]
    fn run(
        &self,
        rt: &impl Wait,
        mine: &mut Seat,
        reads: &mut Entries,
        t: Thread,
        index: u32,
        act: &Act,
    ) -> Result<Receipt, AllocError>
        requires order { mine.old.order ≡ N.order }
        requires settled { Settled mine.old.view }
        requires pass { IsOwnThread t × HoldsPass t mine.old.view }
        requires run { IsOfRun N.managed N.peers t }
        requires begins { MayBegin t mine.old.view index }
        requires act { IsMadeByEvents t act.now }
        requires reads { KeepsReads t mine.old.view reads.old.entries }
        ensures order { mine.new.order ≡ N.order }
        ensures settled { Settled mine.new.view }
        ensures pass { HoldsPass t mine.new.view }
        ensures begins { MayBegin t mine.new.view index }
        ensures reads { KeepsReads t mine.new.view reads.new.entries }
        ensures ok { IfOk result (λ r. Runs t mine.old.view mine.new.view index act.now r) }
        ensures exact { IfOk result (λ r. ReadsExactly t mine.old.view mine.new.view act.now r.reply) }
        ensures err { OnErr result (StopsWithoutMemory t mine.old.view mine.new.view index act.now) }
    {
        if !is_step(act) {
            return self.run_events(rt, mine, reads, t, index, act);
        }
        let (number, reply) = self.own_step(rt, mine, t, index, act)?;
        Ok(Receipt {
            first: number,
            last: number,
            reply,
        })
    }

    // Runs whatever operation, one event after another. It is a function of its own, so that a step of a thread's own
    // side, which has nothing behind it, needs no place for what others have.
    #[inline(always)]
    fn run_events(
        &self,
        rt: &impl Wait,
        mine: &mut Seat,
        reads: &mut Entries,
        t: Thread,
        index: u32,
        act: &Act,
    ) -> Result<Receipt, AllocError>
        requires order { mine.old.order ≡ N.order }
        requires settled { Settled mine.old.view }
        requires pass { IsOwnThread t × HoldsPass t mine.old.view }
        requires run { IsOfRun N.managed N.peers t }
        requires begins { MayBegin t mine.old.view index }
        requires act { IsMadeByEvents t act.now }
        requires reads { KeepsReads t mine.old.view reads.old.entries }
        ensures order { mine.new.order ≡ N.order }
        ensures settled { Settled mine.new.view }
        ensures pass { HoldsPass t mine.new.view }
        ensures begins { MayBegin t mine.new.view index }
        ensures reads { KeepsReads t mine.new.view reads.new.entries }
        ensures ok { IfOk result (λ r. Runs t mine.old.view mine.new.view index act.now r) }
        ensures exact { IfOk result (λ r. ReadsExactly t mine.old.view mine.new.view act.now r.reply) }
        ensures err { OnErr result (StopsWithoutMemory t mine.old.view mine.new.view index act.now) }
    {
        let start = first_of(act);
        let (first, reply) = self.event(rt, mine, reads, t, index, &start, None)?;
        let Some(next) = second_of(act, reply) else {
            return Ok(Receipt {
                first,
                last: first,
                reply,
            });
        };
        let (second, answer) = self.event(rt, mine, reads, t, index, &next, Some(first))?;
        let Some(end) = third_of(&next, answer) else {
            return Ok(receipt_of_two(act, first, reply, second, answer));
        };
        let (last, _) = self.event(rt, mine, reads, t, index, &end, Some(second))?;
        Ok(Receipt {
            first,
            last,
            reply: answer,
        })
    }

    /// Runs an operation of a managed thread, on a script line that isn't below that of the caller's last entry. Its
    /// events are made one after another, each under its own side's lock, and the caller knows them afterwards. Answers
    /// `AllocError` where there is no memory: nothing was made then, or the first event alone, whose entry stands
    /// (after a make or a grip the new handle stays, held by no object). Of `dispose` either both events are made or
    /// none.
    #[inline(always)]
    pub fn managed(
        &self,
        rt: &impl Wait,
        caller: &mut Caller<N>,
        index: u32,
        act: &Act,
    ) -> Result<Receipt, AllocError>
        requires act { IsManagedThread caller.old.thread × IsLine caller.old.thread act.now }
        requires index { last_index (own caller.old) ≤ index }
        ensures thread { caller.new.thread ≡ caller.old.thread }
        ensures index { last_index (own caller.new) ≤ index }
        ensures ok { IfOk result (λ r. Runs caller.old.thread caller.old.view caller.new.view index act.now r) }
        ensures exact { IfOk result (λ r. ReadsExactly caller.old.thread
            caller.old.view caller.new.view act.now r.reply) }
        ensures err { OnErr result (StopsWithoutMemory caller.old.thread
            caller.old.view caller.new.view index act.now) }
    {
        self.run(
            rt,
            &mut caller.seat,
            &mut caller.reads,
            caller.thread,
            index,
            act,
        )
    }

    /// Runs an operation of a peer thread, on a script line that isn't below that of the caller's last entry. The
    /// caller knows its entries afterwards. An operation is one event, but a `collect` is a begin and, if that gave a
    /// number, the sweep of that marking, made in one hold of the peer lock. A marking that a `begin` opens stays open
    /// until its thread's `sweep`, or until the driver ends it. Answers `AllocError` where there is no memory, and no
    /// entry is made then.
    #[inline(always)]
    pub fn peer(
        &self,
        rt: &impl Wait,
        caller: &mut Caller<N>,
        index: u32,
        act: &Act,
    ) -> Result<Receipt, AllocError>
        requires act { IsPeerThread caller.old.thread × IsLine caller.old.thread act.now }
        requires index { last_index (own caller.old) ≤ index }
        ensures thread { caller.new.thread ≡ caller.old.thread }
        ensures index { last_index (own caller.new) ≤ index }
        ensures ok { IfOk result (λ r. Runs caller.old.thread caller.old.view caller.new.view index act.now r) }
        ensures collect { act.now ≡ Act.Collect
            → IfOk result (λ r. Collects caller.old.thread caller.old.view caller.new.view index r) }
        ensures err { OnErr result (MakesAll caller.old.thread caller.old.view caller.new.view []) }
    {
        if let Act::Collect = act {
            let step = Collecting {
                caller: caller.thread,
                index,
            };
            return self
                .peers
                .hold(rt)
                .value()
                .make(&self.order, &mut caller.seat, caller.thread, step);
        }
        self.run(
            rt,
            &mut caller.seat,
            &mut caller.reads,
            caller.thread,
            index,
            act,
        )
    }
}
