// The managed side: its rows with the entries that it has made.

ghost use Rattle.std.specs.Prelude.{◌≡◌, ◌+◌, ◌<◌, ◌≤◌, ◌↔◌, [], Some, None, IfOk, OnErr, IsTrue, MatchOption};
ghost use Rattle.std.specs.Prelude.{length, slice_get, false};
ghost use Rattle.joint_machine.specs.declared.names.Thread.TheVariants.{C};
ghost use Rattle.joint_machine.specs.declared.events.Op.TheVariants as op;
ghost use Rattle.joint_machine.specs.Heaps.{IsLive, slot};
ghost use Rattle.joint_machine.specs.Lines.{IsManagedThread, IsVar};
ghost use Rattle.joint_machine.specs.Run.{thread_number};
ghost use Rattle.joint_machine.specs.Histories.{managed_numbers};
ghost use Rattle.joint_machine.specs.Managed.{OpenCycle};
ghost use Rattle.joint_machine.specs.ManagedReplay.{MayRefuse, opening_replay, registered};
ghost use Rattle.joint_machine.specs.Sides.{AreTaken, IsReplayed, MayDraw, managed_rules, step_made};
ghost use Rattle.joint_machine.specs.Told.{nothing, phase_of};
ghost use Rattle.joint_laws.specs.ManagedInvariants.{ReplayInvariant};
ghost use Rattle.known_laws.specs.Known.{PinsStand};
ghost use Rattle.managed_heap.specs.Pinned.{pin_given, take_told};
ghost use Rattle.managed_heap.specs.Rows.{number_or_none};
ghost use Rattle.managed_heap.specs.Sides.{as_side, twin_answer, AddsManaged};
ghost use Rattle.managed_heap.specs.Steps.{CitesRightly, IsFresh, IsManagedStep, take_op, weak_op};

use crate::lines::place;
use crate::rooms::{SnapRoom, give_back};
use crate::rows::ManagedRows;
use crate::takings::Takings;
use joint_model::{
    Act, Cell, Cycle, Draw, Entries, Holding, MNum, Made, Op, PNum, Phase, PhaseWord, Reply,
    Thread, Var, enter,
};
use std::alloc::{AllocError, Global};
use std::marker::Model;

/// The managed objects with the handles that they hold, the registry, the targets of the cells, the notices, and the
/// entries that the side has made, each for the driver or for one of the managed threads for which the side is. While a
/// cycle is open there is room for the entries that it still owes. Pins are the readers': a snapshot and a `take` are
/// given them, and between entries the state has none. It is ready where all memory was taken that a snapshot of the
/// present rows needs; each call that makes an entry uses that up or gives it back.
#[derive(Drop)]
pub struct ManagedSide {
    threads: u8,
    pub(crate) rows: ManagedRows,
    pub(crate) takings: Takings,
    pub(crate) entries: Entries,
    pub(crate) room: Option<SnapRoom>,
}

impl Model for ManagedSide {
    ghost use Rattle.std.specs.Prelude.{◌≤◌, is_some, length};
    ghost use Rattle.joint_machine.specs.Sides.{AreTaken, IsReplayed, managed_rules};
    ghost use Rattle.managed_heap.specs.Rooms.{HasThree, IsEnough};
    ghost use Rattle.managed_heap.specs.Sides.{ManagedModel, model_of, state_of, HasRoom, SideInvariant};

    ghost Value = { ManagedModel };

    ghost view = { λ s. model_of s.threads s.entries.entries s.takings s.rows (is_some s.room) };

    ghost invariant = { λ s. IsReplayed managed_rules s.entries.entries (state_of s.takings s.rows)
        × HasRoom s.rows s.entries.spare × AreTaken managed_rules s.threads s.entries.entries
        × SideInvariant s.entries.entries (state_of s.takings s.rows) × (length s.takings ≤ length s.entries.entries)
        × HasThree s.room s.entries.spare × IsEnough s.room s.rows.managed };
}

/// The lists that a side ends with: its entries, its freed objects and its notices.
#[derive(Drop)]
pub struct ManagedLists {
    pub entries: Entries,
    pub freed: Vec<MNum>,
    pub notices: Vec<MNum>,
}

/// Which managed object stands for a peer.
#[derive(Clone, Copy, PartialEq, Eq, Debug)]
pub enum TwinAnswer {
    /// This one.
    Found(MNum),
    /// None.
    NoTwin,
    /// A cycle is open: this one.
    Pending { cycle: Cycle },
}

impl ManagedSide {
    /// A side without objects and entries, for the first `threads` of the managed threads: it takes their events and
    /// the driver's, and no others. It has places for the variables of all eight. Its list holds its entries as it is
    /// told. Answers `AllocError` where there is no memory.
    pub fn new(alloc: Global, threads: u8, holding: Holding) -> Result<ManagedSide, AllocError>
        requires { threads ≤ 8 }
        ensures threads { IfOk result (λ s. s.threads ≡ threads) }
        ensures entries { IfOk result (λ s. s.entries ≡ []) }
        ensures state { IfOk result (λ s. s.state ≡ opening_replay) }
        ensures ready { IfOk result (λ s. s.ready ≡ false) }
    {
        let takings = Takings::new(alloc)?;
        let rows = match ManagedRows::new(alloc) {
            Ok(rows) => rows,
            Err(error) => {
                drop(takings);
                return Err(error);
            }
        };
        Ok(ManagedSide {
            threads,
            rows,
            takings,
            entries: Entries::new(alloc, holding),
            room: None,
        })
    }

    /// What holds of every side, for the proofs of callers: its state is the replay of its entries, what every state of
    /// the managed side keeps holds of it, and each entry is the driver's or that of a thread for which the side is. It
    /// does nothing.
    pub fn recall_replays(&self)
        ensures replayed { IsReplayed managed_rules self.now.entries self.now.state }
        ensures kept { ReplayInvariant self.now.state }
        ensures taken { AreTaken managed_rules self.now.threads self.now.entries }
    {
        let _ = &self.entries;
    }

    /// Makes one event: of a managed thread a line that is one event, but for `weak`, `take` and reads, or `adopt`,
    /// `lend`, `meet` or `give`; or `finalise` of the driver. `cites` is given exactly for `adopt` and `meet`, and no
    /// row ever took the handle that one of these names. One entry is drawn and put last. Answers `AllocError` where
    /// there is no memory, or where the entries would pass their limit; the side and `draw` are then as before.
    #[inline(always)]
    pub fn step<D: Draw>(
        &mut self,
        draw: &mut D,
        caller: Thread,
        index: u32,
        op: &Op,
        cites: Option<u64>,
    ) -> Result<Reply, AllocError>
        requires event { IsManagedStep caller op.now }
        requires fresh { IsFresh self.old.state op.now }
        requires cites { CitesRightly op.now cites }
        requires may { MayDraw managed_rules D.rules draw.old (as_side self.old) caller op.now }
        ensures adds { IfOk result (λ r. AddsManaged D.rules draw.old draw.new self.old self.new
            (step_made caller index op.now r cites) nothing) }
        ensures used { IfOk result (λ r. self.new.ready ≡ false) }
        ensures err { OnErr result ((self.new ≡ self.old) × (draw.new ≡ draw.old)) }
    {
        self.entries.reserve(3)?;
        let reply = self.rows.step(caller, op)?;
        let made = Made {
            caller,
            index,
            op: *op,
            reply,
            cites,
        };
        self.takings.push_event(op, reply);
        enter(&mut self.entries, draw, made, None, &[]);
        give_back(&mut self.room);
        Ok(reply)
    }

    /// `weak K V` of a managed thread: the cell's target is V's object, unless the cell was ever set. `word` is the
    /// cell's word, which is 0 exactly where it wasn't. One entry is drawn and put last, with the object to which it
    /// sets the cell. Answers `AllocError` where there is no memory, or where the entries would pass their limit; the
    /// side and `draw` are then as before.
    pub fn weak<D: Draw>(
        &mut self,
        draw: &mut D,
        caller: Thread,
        index: u32,
        k: Cell,
        v: Var,
        word: u64,
    ) -> Result<Reply, AllocError>
        requires thread { IsManagedThread caller }
        requires cell { k.0 < 64 }
        requires var { IsVar v }
        requires word { (word ≡ 0) ↔ (slot self.old.state.managed.cells k.0 ≡ None) }
        requires may { MayDraw managed_rules D.rules draw.old (as_side self.old) caller (weak_op k v) }
        ensures adds { IfOk result (λ r. AddsManaged D.rules draw.old draw.new self.old self.new
            (step_made caller index (weak_op k v) r None) nothing) }
        ensures used { IfOk result (λ r. self.new.ready ≡ false) }
        ensures err { OnErr result ((self.new ≡ self.old) × (draw.new ≡ draw.old)) }
    {
        self.entries.reserve(3)?;
        let at = place(caller, v);
        let target = self.rows.target(k.0 as usize, at, word);
        let reply = self.rows.weak(k.0 as usize, at, word);
        let made = Made {
            caller,
            index,
            op: Op::Line(Act::Weak { k, v }),
            reply,
            cites: None,
        };
        enter(&mut self.entries, draw, made, target, &[]);
        give_back(&mut self.room);
        Ok(reply)
    }

    /// `take V` of a managed thread: V names the object of the thread's pin, `pin`, which is given. It is told with the
    /// entry, and who gives it empties it then. One entry is drawn and put last. Answers `AllocError` where there is no
    /// memory, or where the entries would pass their limit; the side and `draw` are then as before.
    pub fn take<D: Draw>(
        &mut self,
        draw: &mut D,
        caller: Thread,
        index: u32,
        v: Var,
        pin: Option<MNum>,
    ) -> Result<Reply, AllocError>
        requires thread { IsManagedThread caller }
        requires var { IsVar v }
        requires stands { PinsStand self.old.state.managed (pin_given (thread_number caller) pin) }
        requires may { MayDraw managed_rules D.rules draw.old (as_side self.old) caller (take_op v) }
        ensures adds { IfOk result (λ r. AddsManaged D.rules draw.old draw.new self.old self.new
            (step_made caller index (take_op v) r None) (take_told caller pin)) }
        ensures used { IfOk result (λ r. self.new.ready ≡ false) }
        ensures err { OnErr result ((self.new ≡ self.old) × (draw.new ≡ draw.old)) }
    {
        self.entries.reserve(3)?;
        let reply = self.rows.take(place(caller, v), pin);
        let made = Made {
            caller,
            index,
            op: Op::Line(Act::Take { v }),
            reply,
            cites: None,
        };
        enter(&mut self.entries, draw, made, None, &[]);
        give_back(&mut self.room);
        Ok(reply)
    }

    /// The driver's phase word is refused in its phase; nothing else changes. One entry is drawn and put last. Answers
    /// `AllocError` where there is no memory, or where the entries would pass their limit; the side and `draw` are then
    /// as before.
    pub fn refused<D: Draw>(
        &mut self,
        draw: &mut D,
        index: u32,
        word: PhaseWord,
        phase: Phase,
    ) -> Result<Reply, AllocError>
        requires refused { MayRefuse self.old.state word phase }
        requires may { MayDraw managed_rules D.rules draw.old (as_side self.old) C (op.Refused word) }
        ensures adds { IfOk result (λ r. AddsManaged D.rules draw.old draw.new self.old self.new
            (step_made C index (op.Refused word) r None) (phase_of phase)) }
        ensures used { IfOk result (λ r. self.new.ready ≡ false) }
        ensures err { OnErr result ((self.new ≡ self.old) × (draw.new ≡ draw.old)) }
    {
        self.entries.reserve(3)?;
        let reply = self.rows.refusal(word, phase);
        let made = Made {
            caller: Thread::C,
            index,
            op: Op::Refused { word },
            reply,
            cites: None,
        };
        enter(&mut self.entries, draw, made, None, &[]);
        give_back(&mut self.room);
        Ok(reply)
    }

    /// Whether the side is ready: a snapshot of it takes no memory.
    pub fn is_ready(&self) -> bool
        ensures { result ≡ self.now.ready }
    {
        self.room.is_some()
    }

    /// For how many managed threads the side is: the first so many.
    pub fn threads(&self) -> u8
        ensures { result ≡ self.now.threads }
    {
        self.threads
    }

    /// The managed object that stands for a peer: `Pending` exactly where a cycle is open, else by the registry.
    pub fn twin_for(&self, p: PNum) -> TwinAnswer
        ensures { result ≡ twin_answer self.now.state.managed.cycle (registered self.now.state.registry p.0) }
    {
        if let Some(cycle) = self.rows.open_cycle() {
            return TwinAnswer::Pending { cycle };
        }
        match self.rows.twin(p) {
            None => TwinAnswer::NoTwin,
            Some(m) => TwinAnswer::Found(m),
        }
    }

    /// The side's own pin of a thread: none, ever, since a thread's pin is its reader's and is given to the calls that
    /// need it.
    pub fn pin(&self, _t: Thread) -> Option<MNum>
        ensures pin { slot self.now.state.managed.pins (thread_number _t) ≡ number_or_none result }
        ensures none { result ≡ None }
    {
        self.rows.recall_unpinned();
        None
    }

    /// Whether object `m` was made and isn't freed.
    pub fn is_live(&self, m: MNum) -> bool
        ensures { IsTrue result ↔ IsLive self.now.state.managed.heap m.0 }
    {
        self.rows.heap.is_live(m.0)
    }

    /// The objects that were freed, in the order of freeing.
    pub fn freed(&self) -> &[MNum]
        ensures { managed_numbers result.now ≡ self.now.state.managed.heap.freed }
    {
        self.rows.heap.freed()
    }

    /// The notice at place `i`, from 0, of all that were ever queued; None exactly where `i` isn't below their number.
    pub fn notice(&self, i: u32) -> Option<MNum>
        ensures { number_or_none result ≡ slice_get self.now.state.managed.notices i }
    {
        self.rows.notices.at(i)
    }

    /// How many objects are live.
    pub fn live(&self) -> u32
        ensures { result + length self.now.state.managed.heap.freed ≡ length self.now.state.managed.heap.fields }
    {
        self.rows.heap.live()
    }

    /// How many objects were made: the number of the last one.
    pub fn made(&self) -> u32
        ensures made { result ≡ length self.now.state.managed.heap.fields }
        ensures most { result ≤ 65535 }
    {
        self.rows.heap.made()
    }

    /// How many cycles were opened.
    pub fn cycles(&self) -> u32
        ensures { result ≡ self.now.state.managed.cycles }
    {
        self.rows.cycles
    }

    /// The open cycle; None exactly where none is open.
    pub fn open_cycle(&self) -> Option<Cycle>
        ensures { MatchOption result (self.now.state.managed.cycle ≡ None)
            (λ k. (c : OpenCycle) × (self.now.state.managed.cycle ≡ Some c) × (c.number ≡ k.0)) }
    {
        self.rows.open_cycle()
    }

    /// Gives up the side for its entries, its freed objects in the order of freeing, and all notices that were ever
    /// queued, oldest first. It takes no memory.
    pub fn into_lists(self) -> ManagedLists
        ensures entries { result.entries.entries ≡ self.entries }
        ensures freed { managed_numbers result.freed.items ≡ self.state.managed.heap.freed }
        ensures notices { managed_numbers result.notices.items ≡ self.state.managed.notices }
    {
        ManagedLists {
            entries: self.entries,
            freed: self.rows.heap.into_freed(),
            notices: self.rows.notices.into_all(),
        }
    }

    /// The entries that the side has made.
    pub fn entries(&self) -> &Entries
        ensures { result.now.entries ≡ self.now.entries }
    {
        &self.entries
    }
}
