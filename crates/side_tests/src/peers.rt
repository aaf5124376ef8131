// A peer side that is driven by a table of calls.

ghost use Rattle.std.specs.Prelude.{◌≡◌, IsTrue, None, Option};
ghost use Rattle.joint_machine.specs.Lines.{IsPeerAct, IsPeerThread};
ghost use Rattle.joint_machine.specs.PeerReplay.{Marking as Open, PeerReplay};
ghost use Rattle.peer_heap.specs.Makings.{IsSideStep, MayStep};
ghost use Rattle.peer_heap.specs.Sides.{IsDrivers, IsMarkingOf};
ghost use Rattle.peer_heap.specs.Steps.{IsStepLine};

use crate::callers::{is_managed, is_var_or_none};
use joint_model::Reply::{self, Done, Gone, Mark, MarkOpen, More, NoMark, P, Swept, Unset};
use joint_model::{
    Act, Counter, GName, HNum, Holding, Marking, Op, PNum, Sort, Span, StaticNo, Thread, Var,
};
use peer_heap::{BeginFault, PeerSide, SliceEnd};
use std::alloc::{AllocError, Global};
use std::marker::Model;

pub(crate) const P1: Thread = Thread::P(1);

pub(crate) const P2: Thread = Thread::P(2);

pub(crate) const M1: Thread = Thread::M(1);

pub(crate) const C: Thread = Thread::C;

/// A caller, what it does, and what that answers.
pub(crate) type Row = (Thread, Call, Reply);

/// Stretches of the list of freed peers.
pub(crate) const NONE: Span = Span { first: 0, count: 0 };

/// What is done to a side, in short: variables, statics, names, fields and handles stand by their numbers.
#[derive(Clone, Copy)]
pub(crate) enum Call {
    New(u8, u8),
    Copy(u8, u8),
    Set(u8, u8, u8),
    Unset(u8, u8),
    Get(u8, u8, u8),
    Drop(u8),
    Load(u8, u8),
    Store(u8, u8),
    Clear(u8),
    Global(u8, u8),
    WGlobal(u8, u8),
    UnGlobal(u8),
    WRead(u8, u8),
    Collect,
    Begin,
    Sweep,
    Make(Sort, u8),
    Land(u32, u8),
    Grip(u8),
    // the driver's begin, slice and sweep, each by its own call
    MarkBegin,
    MarkSlice(u32),
    MarkSweep,
    // makes so many peers without fields, each in V
    Fill(u8, u32),
    // gives the first name to V's peer and takes it away, so many times
    Rename(u8, u32),
    // what a look at a handle of the table answers: its peer, or `gone`
    Target(u32),
}

impl Call {
    // The operation of a step in full; None where it is another call.
    fn op(self) -> Option<Op> {
        let op = match self {
            Call::New(v, fields) => Op::Line(Act::NewPeer { v: Var(v), fields }),
            Call::Copy(v, w) => Op::Line(Act::Copy {
                v: Var(v),
                w: Var(w),
            }),
            Call::Set(v, i, w) => Op::Line(Act::Set {
                v: Var(v),
                i,
                w: Some(Var(w)),
            }),
            Call::Unset(v, i) => Op::Line(Act::Set {
                v: Var(v),
                i,
                w: None,
            }),
            Call::Get(v, w, i) => Op::Line(Act::Get {
                v: Var(v),
                w: Var(w),
                i,
            }),
            Call::Drop(v) => Op::Line(Act::Drop { v: Var(v) }),
            Call::Load(v, x) => Op::Line(Act::Load {
                v: Var(v),
                x: StaticNo(x),
            }),
            Call::Store(x, v) => Op::Line(Act::Store {
                x: StaticNo(x),
                v: Some(Var(v)),
            }),
            Call::Clear(x) => Op::Line(Act::Store {
                x: StaticNo(x),
                v: None,
            }),
            Call::Global(g, v) => Op::Line(Act::Global {
                g: GName(g),
                v: Var(v),
            }),
            Call::WGlobal(g, v) => Op::Line(Act::WGlobal {
                g: GName(g),
                v: Var(v),
            }),
            Call::UnGlobal(g) => Op::Line(Act::UnGlobal { g: GName(g) }),
            Call::WRead(v, g) => Op::Line(Act::WRead {
                v: Var(v),
                g: GName(g),
            }),
            Call::Collect => Op::Line(Act::Collect),
            Call::Begin => Op::Begin,
            Call::Sweep => Op::Sweep,
            Call::Make(sort, fields) => Op::Make { sort, fields },
            Call::Land(h, x) => Op::Land {
                h: HNum(h),
                x: StaticNo(x),
            },
            Call::Grip(x) => Op::Grip { x: StaticNo(x) },
            _ => return None,
        };
        Some(op)
    }
}

// A side with the count that numbers its entries.
#[derive(Drop)]
struct Driven {
    side: PeerSide,
    draw: Counter,
}

impl Model for Driven {
    ghost use Rattle.joint_machine.specs.PeerReplay.{PeerReplay};
    ghost use Rattle.peer_heap.specs.Sides.{seen};
    ghost use Rattle.side_tests.specs.Drives.{IsCounted};

    ghost Value = { PeerReplay };

    ghost view = { λ s. s.side.state };

    ghost invariant = { λ s. IsCounted (seen s.side) s.draw };
}

impl Driven {
    // The answer to an operation of a step; None where it is none that this caller may make.
    fn does(&mut self, caller: Thread, op: Op) -> Result<Option<Reply>, AllocError> {
        if !is_step(caller, &op) {
            return Ok(None);
        }
        let reply = self.side.step(&mut self.draw, caller, 1, &op, None)?;
        Ok(Some(reply))
    }

    // The answer to a call that is an operation of a step.
    fn steps(&mut self, caller: Thread, call: Call) -> Result<Option<Reply>, AllocError> {
        match call.op() {
            None => Ok(None),
            Some(op) => self.does(caller, op),
        }
    }

    // The driver's begin: the marking that it opened, or the open one.
    fn begins(&mut self) -> Result<Reply, AllocError> {
        match self.side.mark_begin(&mut self.draw, Thread::C, 2) {
            Ok(marking) => Ok(Mark(marking)),
            Err(BeginFault::MarkOpen { marking }) => Ok(MarkOpen(marking)),
            Err(BeginFault::OutOfMemory) => Err(AllocError),
        }
    }

    // The driver's slice: whether peers are left to go through, or that no marking is open. None where another thread's
    // is.
    fn slices(&mut self, n: u32) -> Option<Reply> {
        if !is_drivers(self.side.marking()) {
            return None;
        }
        match self.side.mark_slice(n) {
            Ok(SliceEnd::Done) => Some(Done),
            Ok(SliceEnd::More) => Some(More),
            Err(_) => Some(NoMark),
        }
    }

    // The driver's sweep: the marking that it ended, with what it freed, or that none is open.
    fn sweeps(&mut self) -> Reply {
        match self.side.sweep(&mut self.draw, Thread::C, 2) {
            Ok(swept) => Swept(swept.marking, swept.freed),
            Err(_) => NoMark,
        }
    }

    // Makes so many peers without fields, each in V of this thread; what the last one answered.
    fn fills(&mut self, caller: Thread, v: u8, times: u32) -> Result<Option<Reply>, AllocError> {
        let mut last = None;
        for _ in 0..times {
            last = self.steps(caller, Call::New(v, 0))?;
        }
        Ok(last)
    }

    // Gives the first name to V's peer and takes it away, so many times; what the last name answered.
    fn renames(&mut self, caller: Thread, v: u8, times: u32) -> Result<Option<Reply>, AllocError> {
        let mut last = None;
        for _ in 0..times {
            last = self.steps(caller, Call::WGlobal(0, v))?;
            self.steps(caller, Call::UnGlobal(0))?;
        }
        Ok(last)
    }

    // What a look at a handle answers.
    fn target(&self, h: u32) -> Reply {
        match self.side.handles().target(HNum(h)) {
            None => Gone,
            Some(p) => P(p),
        }
    }

    // The answer to a call; None where it is none that may be made.
    fn answer(&mut self, caller: Thread, call: Call) -> Result<Option<Reply>, AllocError> {
        match call {
            Call::MarkBegin => Ok(Some(self.begins()?)),
            Call::MarkSlice(n) => Ok(self.slices(n)),
            Call::MarkSweep => Ok(Some(self.sweeps())),
            Call::Fill(v, times) => self.fills(caller, v, times),
            Call::Rename(v, times) => self.renames(caller, v, times),
            Call::Target(h) => Ok(Some(self.target(h))),
            _ => self.steps(caller, call),
        }
    }

    // The place of the first row that is answered otherwise than it says; None where all are answered so.
    fn first_miss(&mut self, rows: &[Row]) -> Result<Option<usize>, AllocError> {
        for i in 0..rows.len() {
            let (caller, call, reply) = rows[i];
            if self.answer(caller, call)? != Some(reply) {
                return Ok(Some(i));
            }
        }
        Ok(None)
    }
}

// A new side.
fn start(alloc: Global) -> Result<Driven, AllocError> {
    Ok(Driven {
        side: PeerSide::new(alloc, 8, Holding::Every)?,
        draw: Counter::new(),
    })
}

/// How many entries a side ends with, and whether these are its freed peers.
pub(crate) fn ends_with(side: PeerSide, freed: &[PNum]) -> (u32, bool) {
    let lists = side.into_lists();
    (lists.entries.len(), lists.freed.as_slice() == freed)
}

/// What the rows of a table came to: the first one that was answered otherwise than it says, how many entries there are
/// at the end, and whether the list of freed peers is as it should be.
#[derive(Clone, Copy)]
pub(crate) struct Played {
    pub(crate) miss: Option<usize>,
    pub(crate) entries: u32,
    pub(crate) freed: bool,
}

/// Makes the calls of a table on a new side, which should end with these freed peers.
pub(crate) fn play(alloc: Global, rows: &[Row], freed: &[PNum]) -> Result<Played, AllocError> {
    let mut driven = start(alloc)?;
    let miss = driven.first_miss(rows);
    let (entries, freed) = ends_with(driven.side, freed);
    Ok(Played {
        miss: miss?,
        entries,
        freed,
    })
}

// Whether this is the driver.
fn is_driver(t: Thread) -> bool
    ensures { IsTrue result → t ≡ Thread.C }
{
    matches!(t, Thread::C)
}

// Whether a marking that is open is the driver's.
fn is_drivers(marking: Option<(Marking, Thread)>) -> bool
    ensures { (o : Option Open) → IsMarkingOf marking o → IsTrue result → IsDrivers o }
{
    match marking {
        None => true,
        Some((_, by)) => is_driver(by),
    }
}

// Whether this is one of the threads p1 to p8.
fn is_peer(caller: Thread) -> bool
    ensures { IsTrue result → IsPeerThread caller }
{
    match caller {
        Thread::P(n) => 1 <= n && n <= 8,
        _ => false,
    }
}

// Whether this is a line of a peer thread that is one event of a step.
fn is_step_line(act: &Act) -> bool
    ensures { IsTrue result → IsPeerAct act.now × IsStepLine act.now }
{
    match act {
        Act::NewPeer { v, fields } => v.0 < 8 && *fields <= 16,
        Act::Copy { v, w } => v.0 < 8 && w.0 < 8,
        Act::Set { v, i, w } => v.0 < 8 && *i <= 255 && is_var_or_none(w),
        Act::Get { v, w, i } => v.0 < 8 && w.0 < 8 && *i <= 255,
        Act::Drop { v } => v.0 < 8,
        Act::Load { v, x } => v.0 < 8 && x.0 < 16,
        Act::Store { x, v } => x.0 < 16 && is_var_or_none(v),
        Act::Global { g, v } => g.0 < 64 && v.0 < 8,
        Act::WGlobal { g, v } => g.0 < 64 && v.0 < 8,
        Act::UnGlobal { g } => g.0 < 64,
        Act::WRead { v, g } => v.0 < 8 && g.0 < 64,
        _ => false,
    }
}

// Whether this is an operation of a step by this caller, in each state of a side.
fn is_step(caller: Thread, op: &Op) -> bool
    ensures { IsTrue result → IsSideStep caller op.now × ((s : PeerReplay) → MayStep s caller op.now None) }
{
    match op {
        Op::Line(Act::Collect) => is_peer(caller),
        Op::Begin => is_peer(caller),
        Op::Sweep => is_peer(caller),
        Op::Line(act) => is_peer(caller) && is_step_line(act),
        Op::Make { sort: _, fields } => is_managed(caller) && *fields <= 16,
        Op::Land { h: _, x } => is_managed(caller) && x.0 < 16,
        Op::Grip { x } => is_managed(caller) && x.0 < 16,
        _ => false,
    }
}
