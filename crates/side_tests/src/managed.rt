// A managed side that is driven call by call.

ghost use Rattle.std.specs.Prelude.{◌≡◌, ◌+◌, ◌≤◌, IfOk, IfSome, length};
ghost use Rattle.side_tests.specs.Drives.{AreFrom};
ghost use Rattle.managed_heap.specs.Calls.{MayContractWith};

use crate::callers::is_managed;
use crate::gates::Given;
use crate::managed_checks::{cites_of, is_refused, is_step, may_hold, names_next, stands_in};
use joint_model::Reply::{self, CycleOpen, Gone, Null, Pending, Refs, Sccs, Snapped, Twin};
use joint_model::{
    Act, Alive, Counter, HNum, Holding, Kind, MNum, Op, PNum, Phase, PhaseWord, Sort, StaticNo,
    Thread, Var,
};
use managed_heap::{ManagedSide, Pins, SnapFault, TwinAnswer};
use std::alloc::{AllocError, Global};
use std::marker::Model;

pub(crate) const M1: Thread = Thread::M(1);

pub(crate) const M2: Thread = Thread::M(2);

pub(crate) const C: Thread = Thread::C;

/// A caller, what it does, and what that answers.
pub(crate) type Row = (Thread, Call, Reply);

/// What is done to a side, in short: variables, fields, statics, cells, objects and peers stand by their numbers.
#[derive(Clone, Copy)]
pub(crate) enum Call {
    New(u8, u8),
    Copy(u8, u8),
    Set(u8, u8, u8),
    Unset(u8, u8),
    Get(u8, u8, u8),
    Drop(u8),
    Load(u8, u8),
    Store(u8, u8),
    Clear(u8),
    Handle(u8),
    Finalise(u32),
    Lend(u8, u8),
    Give(u8),
    // a bridge with so many fields on a peer; its handle has the number of the entries so far, and of the candidates
    // that were answered
    Adopt(u8, u8, u32),
    // a peer of this sort with so many fields; the handle as above
    Meet(u8, u32, Sort, u8),
    // V and the object that the thread's pin holds; with 0 it holds none
    Take(u8, u32),
    // makes so many objects without fields, each in V
    Fill(u8, u32),
    // takes the room of a snapshot
    Reserve,
    Snap,
    // a snapshot where m1's pin holds this object
    SnapWith(u32),
    // a snapshot of a side with nothing dead, and its contraction
    SnapAndContract,
    // the candidate in place i was answered alive where bit i is set, with the handle i above the next one; this tells
    // how many were kept, and what was freed
    Resolve(u32),
    Abandon,
    Refuse(PhaseWord, Phase),
    // looks: a peer's twin, an object by its number if it is live, the open cycle, the number of nodes of the last
    // snapshot's graph, and whether the side is ready, as 1 or 0
    TwinFor(u32),
    Live(u32),
    Open,
    Nodes,
    Ready,
}

impl Call {
    // The event of a step in full, with this handle where one is adopted; None where it is another call.
    fn op(self, h: HNum) -> Option<Op> {
        let op = match self {
            Call::Lend(v, x) => Op::Lend {
                v: Var(v),
                x: StaticNo(x),
            },
            Call::Give(v) => Op::Give { v: Var(v) },
            Call::Adopt(v, fields, p) => Op::Adopt {
                v: Var(v),
                kind: Kind::Bridge,
                fields,
                p: PNum(p),
                h,
            },
            Call::Meet(v, p, sort, fields) => Op::Meet {
                v: Var(v),
                p: PNum(p),
                h,
                sort,
                fields,
            },
            _ => return self.act().map(|act| Op::Line(act)),
        };
        Some(op)
    }

    // The line of a step; None where it is another call.
    fn act(self) -> Option<Act> {
        let act = match self {
            Call::New(v, fields) => Act::New {
                v: Var(v),
                kind: Kind::Plain,
                fields,
            },
            Call::Copy(v, w) => Act::Copy {
                v: Var(v),
                w: Var(w),
            },
            Call::Set(v, i, w) => Act::Set {
                v: Var(v),
                i,
                w: Some(Var(w)),
            },
            Call::Unset(v, i) => Act::Set {
                v: Var(v),
                i,
                w: None,
            },
            Call::Get(v, w, i) => Act::Get {
                v: Var(v),
                w: Var(w),
                i,
            },
            Call::Drop(v) => Act::Drop { v: Var(v) },
            Call::Load(v, x) => Act::Load {
                v: Var(v),
                x: StaticNo(x),
            },
            Call::Store(x, v) => Act::Store {
                x: StaticNo(x),
                v: Some(Var(v)),
            },
            Call::Clear(x) => Act::Store {
                x: StaticNo(x),
                v: None,
            },
            Call::Handle(v) => Act::Handle { v: Var(v) },
            Call::Finalise(n) => Act::Finalise { n },
            _ => return None,
        };
        Some(act)
    }
}

/// A side with the count that numbers its entries, how many candidates an open cycle has, how many candidates were
/// answered so far, and how many nodes the last snapshot's graph had. Each handle that a row took is below the number
/// of the entries and of these answers.
#[derive(Drop)]
pub(crate) struct Driven {
    pub(crate) side: ManagedSide,
    gate: Given,
    waiting: u32,
    answered: u32,
    nodes: u32,
}

impl Model for Driven {
    ghost use Rattle.joint_machine.specs.ManagedReplay.{ManagedReplay};
    ghost use Rattle.managed_heap.specs.Sides.{as_side};
    ghost use Rattle.side_tests.specs.Drives.{IsDriven};

    ghost Value = { ManagedReplay };

    ghost view = { λ s. s.side.state };

    ghost invariant = { λ s. IsDriven (as_side s.side) s.gate.count s.waiting s.answered };
}

impl Driven {
    // The answer to an event of a step; None where it is none that this caller may make.
    fn does(&mut self, caller: Thread, op: Op) -> Result<Option<Reply>, AllocError> {
        let Some(next) = next_handle(&self.side, self.answered) else {
            return Ok(None);
        };
        if !is_step(caller, &op) || !names_next(&op, next) {
            return Ok(None);
        }
        self.side.recall_replays();
        let cites = cites_of(&op);
        let reply = self.side.step(&mut self.gate.count, caller, 1, &op, cites)?;
        Ok(Some(reply))
    }

    // The answer to a call that is an event of a step.
    fn steps(&mut self, caller: Thread, call: Call) -> Result<Option<Reply>, AllocError> {
        let Some(next) = next_handle(&self.side, self.answered) else {
            return Ok(None);
        };
        match call.op(HNum(next)) {
            None => Ok(None),
            Some(op) => self.does(caller, op),
        }
    }

    // The answer to a `take` of this object; None where there is no such caller or variable, or no pin may hold the
    // object.
    fn takes(
        &mut self,
        caller: Thread,
        v: u8,
        pin: Option<MNum>,
    ) -> Result<Option<Reply>, AllocError> {
        if !is_managed(caller) || v >= 8 || !may_hold(&self.side, pin) {
            return Ok(None);
        }
        self.side.recall_replays();
        let reply = self
            .side
            .take(&mut self.gate.count, caller, 1, Var(v), pin)?;
        Ok(Some(reply))
    }

    // Makes so many objects without fields, each in V of this thread; what the last one answered.
    fn fills(&mut self, caller: Thread, v: u8, times: u32) -> Result<Option<Reply>, AllocError> {
        let mut last = None;
        for _ in 0..times {
            last = self.steps(caller, Call::New(v, 0))?;
        }
        Ok(last)
    }

    // Takes the room of a snapshot.
    fn reserves(&mut self) -> Result<Option<Reply>, AllocError> {
        self.side.reserve_snap()?;
        Ok(Some(Reply::Ok))
    }

    // Opens a cycle by a snapshot: what its entry says, and how many nodes the dead part's graph has. It may be
    // contracted at once where it has none.
    fn opens(&mut self, pin: Option<MNum>) -> Result<(Reply, u32), SnapFault>
        ensures { IfOk result (λ o. o.1 ≡ 0 → MayContractWith self.new 0 0) }
    {
        if !may_hold(&self.side, pin) {
            return Err(SnapFault::NotClosed);
        }
        self.gate.pins = Pins {
            at: [pin, None, None, None, None, None, None, None],
        };
        let opened = self.side.snap(&mut self.gate, 2)?;
        let nodes = opened.graph.nodes();
        self.waiting = opened.candidates;
        self.nodes = nodes;
        Ok((Snapped(opened.candidates, opened.freed), nodes))
    }

    // A snapshot: what its entry says, or the open cycle; None where no pin may hold the object.
    fn snaps(&mut self, pin: Option<MNum>) -> Result<Option<Reply>, AllocError> {
        match self.opens(pin) {
            Ok((reply, _)) => Ok(Some(reply)),
            Err(SnapFault::CycleOpen { cycle }) => Ok(Some(CycleOpen(cycle))),
            Err(SnapFault::OutOfMemory) => Err(AllocError),
            Err(SnapFault::NotClosed) => Ok(None),
        }
    }

    // Contracts the open cycle, which has nothing dead.
    fn contracts(&mut self)
        requires { MayContractWith self.old 0 0 }
    {
        self.side.contracted(&mut self.gate.count, 3, 0, 0);
    }

    // A snapshot that finds nothing dead, and its contraction; None where something is dead, or a cycle is open
    // already.
    fn snaps_and_contracts(&mut self) -> Option<Reply> {
        let Ok((_, nodes)) = self.opens(None) else {
            return None;
        };
        if nodes != 0 {
            return None;
        }
        self.contracts();
        Some(Sccs(0, 0))
    }

    // Resolves the open cycle; None where none is open.
    fn resolves(&mut self, alloc: Global, alive: u32) -> Result<Option<Reply>, AllocError> {
        let Some(_) = self.side.open_cycle() else {
            return Ok(None);
        };
        let Some(next) = next_handle(&self.side, self.answered) else {
            return Ok(None);
        };
        if next > u32::MAX - self.waiting {
            return Ok(None);
        }
        let answers = answers_of(alloc, alive, self.waiting, next)?;
        let out = self.side.resolve(&mut self.gate.count, 4, 0, &answers);
        self.answered += self.waiting;
        Ok(Some(Snapped(out.kept, out.freed)))
    }

    // Closes the open cycle; None where none is open.
    fn abandons(&mut self) -> Option<Reply> {
        let Some(_) = self.side.open_cycle() else {
            return None;
        };
        self.side.abandon(&mut self.gate.count, 4);
        Some(Reply::Ok)
    }

    // Refuses a word in a phase; None where it isn't refused in it, or the driver isn't in it.
    fn refuses(&mut self, word: PhaseWord, phase: Phase) -> Result<Option<Reply>, AllocError> {
        if !is_refused(word, phase) || !stands_in(&self.side, phase) {
            return Ok(None);
        }
        let reply = self.side.refused(&mut self.gate.count, 4, word, phase)?;
        Ok(Some(reply))
    }

    // What a look answers; None where it is none that may be made.
    fn looks(&self, call: Call) -> Option<Reply> {
        match call {
            Call::TwinFor(p) => Some(self.twin_for(p)),
            Call::Live(m) => Some(if self.side.is_live(MNum(m)) {
                Reply::M(MNum(m))
            } else {
                Gone
            }),
            Call::Open => match self.side.open_cycle() {
                None => Some(Reply::At(Phase::Idle)),
                Some(cycle) => Some(CycleOpen(cycle)),
            },
            Call::Nodes => Some(Refs(self.nodes)),
            Call::Ready => Some(Refs(if self.side.is_ready() { 1 } else { 0 })),
            _ => None,
        }
    }

    // A peer's twin, that there is none, or that a cycle is open.
    fn twin_for(&self, p: u32) -> Reply {
        match self.side.twin_for(PNum(p)) {
            TwinAnswer::Found(m) => Twin(m),
            TwinAnswer::NoTwin => Null,
            TwinAnswer::Pending { cycle } => Pending(cycle),
        }
    }

    /// The answer to a call; None where it is none that may be made.
    pub(crate) fn answer(
        &mut self,
        alloc: Global,
        caller: Thread,
        call: Call,
    ) -> Result<Option<Reply>, AllocError> {
        match call {
            Call::Take(v, m) => self.takes(caller, v, pin_of(m)),
            Call::Fill(v, times) => self.fills(caller, v, times),
            Call::Reserve => self.reserves(),
            Call::Snap => self.snaps(None),
            Call::SnapWith(m) => self.snaps(pin_of(m)),
            Call::SnapAndContract => Ok(self.snaps_and_contracts()),
            Call::Resolve(alive) => self.resolves(alloc, alive),
            Call::Abandon => Ok(self.abandons()),
            Call::Refuse(word, phase) => self.refuses(word, phase),
            Call::TwinFor(_) | Call::Live(_) | Call::Open | Call::Nodes | Call::Ready => Ok(
                self.looks(call),
            ),
            _ => self.steps(caller, call),
        }
    }

    /// The place of the first row that is answered otherwise than it says; None where all are answered so.
    pub(crate) fn first_miss(
        &mut self,
        alloc: Global,
        rows: &[Row],
    ) -> Result<Option<usize>, AllocError> {
        for i in 0..rows.len() {
            let (caller, call, reply) = rows[i];
            if self.answer(alloc, caller, call)? != Some(reply) {
                return Ok(Some(i));
            }
        }
        Ok(None)
    }
}

/// A new side.
pub(crate) fn start(alloc: Global) -> Result<Driven, AllocError> {
    Ok(Driven {
        side: ManagedSide::new(alloc, 8, Holding::Every)?,
        gate: Given {
            count: Counter::new(),
            pins: Pins { at: [None; 8] },
        },
        waiting: 0,
        answered: 0,
        nodes: 0,
    })
}

/// How many entries a side ends with, and whether these are its freed objects and its notices.
pub(crate) fn ends_with(driven: Driven, freed: &[MNum], notices: &[MNum]) -> (u32, bool) {
    let lists = driven.side.into_lists();
    let same = lists.freed.as_slice() == freed && lists.notices.as_slice() == notices;
    (lists.entries.len(), same)
}

// What a pin holds: the object with that number, or none by 0.
fn pin_of(m: u32) -> Option<MNum> {
    if m == 0 { None } else { Some(MNum(m)) }
}

// The next handle: the number of the entries so far, and of the candidates that were answered.
fn next_handle(side: &ManagedSide, answered: u32) -> Option<u32>
    ensures { IfSome result (λ n. n ≡ length side.now.entries + answered) }
{
    side.entries().len().checked_add(answered)
}

// So many answers, of which the one in place i is alive where bit i is set, with the handle i above the first.
fn answers_of(alloc: Global, alive: u32, count: u32, first: u32) -> Result<Alive, AllocError>
    requires { first + count ≤ u32.MAX }
    ensures count { IfOk result (λ a. length a.values ≡ count) }
    ensures from { IfOk result (λ a. AreFrom first a.values) }
{
    let mut answers = Alive::new(alloc, count)?;
    let mut rest = alive;
    'answers: while answers.len() < count {
        let h = HNum(first + answers.len());
        answers.push(given_if(rest % 2 == 1, h));
        rest /= 2;
    }
    Ok(answers)
}

// The handle, if the restore gave it.
fn given_if(alive: bool, h: HNum) -> Option<HNum>
    ensures { IfSome result (λ g. g ≡ h) }
{
    if alive { Some(h) } else { None }
}
