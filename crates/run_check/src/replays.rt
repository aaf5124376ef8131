// The replay of a history by both sides' own calls.

ghost use Rattle.std.specs.Prelude.{◌≡◌, ◌+◌, ◌<◌, ◌^◌, length, true, false, [], IfOk, IsTrue, OnOk, List, MatchOption};
ghost use Rattle.std.specs.Prelude.{None, Some, ◌↔◌, ℕ};
ghost use Rattle.std.specs.Bool.{OnTrue};
ghost use Rattle.joint_machine.specs.declared.names.PhaseWord.{PhaseWord};
ghost use Rattle.joint_machine.specs.Lines.{IsManagedThread, IsNamed, is_read};
ghost use Rattle.joint_machine.specs.Histories.{Finished};
ghost use Rattle.joint_machine.specs.Managed.{cell_read};
ghost use Rattle.joint_machine.specs.Readers.{MayBeUnset, ReadsCell, is_set_aside};
ghost use Rattle.joint_machine.specs.Run.{thread_number};
ghost use Rattle.joint_machine.specs.Told.{Noted, nothing};
ghost use Rattle.check_laws.specs.Behind.{GivesSnap, IsReplyBehind, MayBePendingBehind, WaitsForSnap, in_turn};
ghost use Rattle.check_laws.specs.Behind.{state_of};
ghost use Rattle.check_laws.specs.Findings.{NothingFollows};
ghost use Rattle.check_laws.specs.Knows.{AreKnown};
ghost use Rattle.caller_turns.specs.Shapes.{IsPartOf};
ghost use Rattle.run_check.specs.Follows.{Follows, OwedFollows, SidesFollow, owed_by_read, pins_read};
ghost use Rattle.caller_turns.specs.Turns.{HasCount, IsTheirTurn};
ghost use Rattle.reader_counts.specs.Counts.{EndsWithin};
ghost use Rattle.run_check.specs.Noting.{noted_in};
ghost use Rattle.run_check.specs.Judging.{next_noted, AnswersRightly, HasPast, IsBehind, IsJudged, IsReady};
ghost use Rattle.run_check.specs.Judging.{IsReplyUnpinned, JudgesRightly, TellsRightly};

use crate::cycles::OpenCycle;
use crate::draws::Recorder;
use crate::phases::refused_in;
use crate::readers::Readers;
use crate::replies::is_same;
use caller_turns::{Part, Turns, cites_are_tested};
use check_laws::Why;
use joint_model::{
    Act, Cell, Cycle, Draw, Entry, History, Holding, Made, Op, Phase, Reply, Thread,
};
use managed_heap::ManagedSide;
use peer_heap::PeerSide;
use reader_counts::is_peers;
use std::alloc::{AllocError, Global};

/// Both sides as the entries so far have left them, with what is kept of callers, readers and the open cycle.
#[derive(Drop)]
pub(crate) struct Replay {
    pub(crate) alloc: Global,
    pub(crate) managed: ManagedSide,
    pub(crate) peers: PeerSide,
    pub(crate) draw: Recorder,
    pub(crate) turns: Turns,
    pub(crate) readers: Readers,
    pub(crate) cycle: Option<OpenCycle>,
}

// Whether the event reads a cell, and which.
fn read_cell(op: &Op) -> Option<Cell>
    ensures { MatchOption result (is_read op.now ≡ false) (λ k. (is_read op.now ≡ true) × ReadsCell op.now k.0) }
{
    match op {
        Op::Line(Act::Read { k }) => Some(*k),
        Op::Line(Act::Await { k }) => Some(*k),
        _ => None,
    }
}

impl Replay {
    /// Before the first entry. Answers `AllocError` where there is no memory.
    pub(crate) fn new(alloc: Global) -> Result<Replay, AllocError>
        ensures { IfOk result (λ r. Follows [] r) }
    {
        let managed = ManagedSide::new(alloc, 8, Holding::Last)?;
        match PeerSide::new(alloc, 8, Holding::Last) {
            Err(error) => {
                drop(managed);
                Err(error)
            }
            Ok(peers) => Ok(Replay {
                alloc,
                managed,
                peers,
                draw: Recorder::new(),
                turns: Turns::new(),
                readers: Readers::new(alloc),
                cycle: None,
            }),
        }
    }

    // What the sides have of the open cycle.
    fn part(&self) -> Part
        ensures { (past : List Noted) → AreKnown past → SidesFollow past self.now → IsPartOf (state_of past) result }
    {
        let marking = self.peers.marking().is_some();
        match &self.cycle {
            None => Part {
                candidates: 0,
                next: None,
                marking,
            },
            Some(open) => Part {
                candidates: open.candidates,
                next: open.next(),
                marking,
            },
        }
    }

    /// Whether nothing has to follow: no operation and no phase is half done, and no `pending` waits for its snap.
    pub(crate) fn is_whole(&self) -> bool
        ensures { (past : List Noted) → AreKnown past → Follows past self.now → (IsTrue result ↔ NothingFollows past) }
    {
        match self.readers.owed() {
            Some(_) => false,
            None => {
                let part = self.part();
                self.turns.is_done(part.candidates)
            }
        }
    }

    /// Judges the next entry, and keeps what it changes: None where it is in order, and else the first test that fails.
    /// Behind a failed test nothing may be judged any more. Answers `AllocError` where there is no memory.
    pub(crate) fn judge(&mut self, h: &History, entry: &Entry) -> Result<Option<Why>, AllocError>
        requires judged { (past : List Noted) × IsJudged h.now past self.old entry.now }
        requires named { IsNamed entry.now.made.caller entry.now.made.op }
        ensures { IfOk result (λ why. JudgesRightly h.now entry.now self.old self.new why) }
    {
        cites_are_tested();
        let made = &entry.made;
        let part = self.part();
        if !self.has_turn(made, &part) {
            return Ok(Some(Why::Caller));
        }
        if !self.turns.cites_so(made.caller, &made.op, made.cites) {
            return Ok(Some(Why::Cite));
        }
        if !self.gives(made) {
            return Ok(Some(Why::Reply));
        }
        let told = self.replies(h, entry)?;
        match told {
            None => Ok(Some(Why::Reply)),
            Some(phase) => {
                self.notes(entry, phase)?;
                Ok(None)
            }
        }
    }

    // Whether it is the entry's caller's turn.
    fn has_turn(&self, made: &Made, part: &Part) -> bool
        requires { IsNamed made.now.caller made.now.op }
        ensures turn { IsTrue result ↔ IsTheirTurn self.now.turns part.now made.now.caller made.now.index made.now.op }
        ensures short { made.now.index < 2 ^ 32 }
    {
        let index = made.index;
        self.turns.is_turn(made.caller, index, &made.op, part)
    }

    // Notes an entry that is in order: what its caller is in the midst of, and the counts.
    fn notes(&mut self, entry: &Entry, phase: Phase) -> Result<(), AllocError>
        requires named { IsNamed entry.now.made.caller entry.now.made.op }
        requires stand { HasCount self.old.turns.stand }
        requires count { self.old.readers.counts.managed < 2 ^ 63 }
        requires ends { EndsWithin self.old.readers.counts entry.now.made.op }
        ensures { OnOk result (self.new ≡ noted_in self.old entry.now phase) }
    {
        self.turns.note(entry, phase);
        self.readers.note(entry)
    }

    // Whether an entry is no managed one, or the snap that a read waits for, if one does.
    fn gives(&self, made: &Made) -> bool
        ensures { (past : List Noted) → OwedFollows past self.now.readers.owed
            → (IsTrue result ↔ GivesSnap past (next_noted past made.now nothing)) }
    {
        if is_peers(made.caller, &made.op) {
            return true;
        }
        if read_cell(&made.op).is_some() {
            return true;
        }
        self.gives_snap(&made.op)
    }

    // Whether a managed entry is the snap that a read waits for, if one does.
    fn gives_snap(&self, op: &Op) -> bool
        ensures { (past : List Noted) → OwedFollows past self.now.readers.owed
            → (IsTrue result ↔ ((k : ℕ) → WaitsForSnap past k → op.now ≡ Op.Snap record { 0 = k })) }
    {
        match self.readers.owed() {
            None => true,
            Some(k) => match op {
                Op::Snap { cycle } => cycle.0 == k.0,
                _ => false,
            },
        }
    }

    // Makes the entry on its own side, and compares: None where it may not answer so. Of a refusal the phase is
    // answered, and of every other entry one that says nothing.
    fn replies(&mut self, h: &History, entry: &Entry) -> Result<Option<Phase>, AllocError>
        requires ready { IsReady h.now self.old entry.now.made }
        ensures { IfOk result (λ phase. TellsRightly h.now entry.now.made self.old self.new phase) }
    {
        let made = &entry.made;
        if let Some(k) = read_cell(&made.op) {
            return Ok(done(self.reads(h, made, k)));
        }
        if let Op::Refused { .. } = made.op {
            return self.refuses(h, made);
        }
        if is_peers(made.caller, &made.op) {
            let right = self.peer_replies(h, made)?;
            return Ok(done(right));
        }
        let right = self.managed_replies(h, made)?;
        Ok(done(right))
    }

    // A reader's entry.
    fn reads(&mut self, h: &History, made: &Made, k: Cell) -> bool
        requires ready { IsReady h.now self.old made.now }
        requires cell { ReadsCell made.now.op k.0 }
        ensures { AnswersRightly h.now made.now self.old self.new result }
    {
        if !self.reads_so(made, k) {
            return false;
        }
        self.note_read(made);
        true
    }

    // Draws a reader's entry; where it names an object its thread's pin comes to hold that.
    fn note_read(&mut self, made: &Made)
        requires count { self.old.draw.counter < 2 ^ 62 }
        requires caller { IsManagedThread made.now.caller }
        ensures drawn { self.new.draw.counter ≡ self.old.draw.counter + 1 }
        ensures pins { self.new.readers ≡ record self.old.readers
            { pins = pins_read self.old.readers.pins (thread_number made.now.caller) made.now.reply } }
        ensures rest { self.new ≡ record self.old { draw = self.new.draw; readers = self.new.readers } }
    {
        self.draw.draw(made, None, &[]);
        if let Reply::M(m) = made.reply {
            self.readers.set_pin(made.caller, Some(m));
        }
    }

    // Whether a reader's entry may answer so.
    fn reads_so(&mut self, made: &Made, k: Cell) -> bool
        requires ready { HasPast self.old }
        requires caller { IsManagedThread made.now.caller }
        requires cell { k.0 < 64 }
        ensures right { (h : Finished) (past : List Noted) → IsBehind h past self.old
            → (IsTrue result ↔ IsReplyBehind past (state_of past).managed.managed
            (length past) made.now.caller k.0 made.now.reply) }
        ensures rest { OnTrue result (self.new ≡ record self.old {
          readers = record self.old.readers
              { owed = owed_by_read self.old.managed.state.managed.cycles made.now.reply self.old.readers.owed };
        }) }
    {
        match self.readers.pin(made.caller) {
            Some(m) => is_same(&made.reply, &Reply::Pinned(m)),
            None => self.reads_unpinned(made, k),
        }
    }

    // A reader's entry where its pin is empty.
    fn reads_unpinned(&mut self, made: &Made, k: Cell) -> bool
        requires ready { HasPast self.old }
        requires caller { IsManagedThread made.now.caller }
        requires cell { k.0 < 64 }
        ensures right { (h : Finished) (past : List Noted) → IsBehind h past self.old
            → (IsTrue result ↔ IsReplyUnpinned past made.now.caller k.0 made.now.reply) }
        ensures rest { OnTrue result (self.new ≡ record self.old {
          readers = record self.old.readers
              { owed = owed_by_read self.old.managed.state.managed.cycles made.now.reply self.old.readers.owed };
        }) }
    {
        match made.reply {
            Reply::Pending(c) => self.reads_pending(made.caller, c),
            Reply::Unset => self.reads_unset(made.caller, k),
            _ => self.reads_set(&made.reply, k),
        }
    }

    // A read that answers `pending`.
    fn reads_pending(&mut self, caller: Thread, c: Cycle) -> bool
        requires ready { HasPast self.old }
        requires caller { IsManagedThread caller }
        ensures right { (h : Finished) (past : List Noted) → IsBehind h past self.old
            → (IsTrue result ↔ MayBePendingBehind past (state_of past).managed.managed (length past) caller c.0) }
        ensures rest { OnTrue result (self.new ≡ record self.old {
          readers = record self.old.readers
              { owed = owed_by_read self.old.managed.state.managed.cycles (Reply.Pending c) self.old.readers.owed };
        }) }
    {
        let cycles = self.managed.cycles();
        let is_open = self.managed.open_cycle().is_some();
        let right = self.readers.may_be_pending(caller, c, cycles, is_open);
        if right && c.0 > cycles {
            self.readers.wait_for(c);
        }
        right
    }

    // A read that answers `unset`.
    fn reads_unset(&self, caller: Thread, k: Cell) -> bool
        requires caller { IsManagedThread caller }
        requires cell { k.0 < 64 }
        ensures { (h : Finished) (past : List Noted) → IsBehind h past self.now
            → (IsTrue result ↔ MayBeUnset (in_turn past)
            (state_of past).managed.managed.cells (length past) caller k.0) }
    {
        let live = match self.readers.target(k) {
            None => true,
            Some(target) => self.managed.is_live(target),
        };
        live && self.readers.may_be_unset(caller, k)
    }

    // A read with another reply: no cycle is open, and the cell's target is named, or gone.
    fn reads_set(&self, reply: &Reply, k: Cell) -> bool
        requires cell { k.0 < 64 }
        requires reply { is_set_aside reply.now ≡ false }
        ensures { (h : Finished) (past : List Noted) (t : ℕ) → IsBehind h past self.now
            → (IsTrue result ↔ (reply.now ≡ (cell_read (state_of past).managed.managed t k.0
            (state_of past).managed.managed.cycle).reply)) }
    {
        if self.managed.open_cycle().is_some() {
            return false;
        }
        match self.readers.target(k) {
            None => false,
            Some(target) => {
                let says = if self.managed.is_live(target) {
                    Reply::M(target)
                } else {
                    Reply::Gone
                };
                is_same(reply, &says)
            }
        }
    }

    // A word that is refused.
    fn refuses(&mut self, h: &History, made: &Made) -> Result<Option<Phase>, AllocError>
        requires ready { IsReady h.now self.old made.now }
        requires word { (word : PhaseWord) × (made.now.op ≡ Op.Refused word) }
        ensures { IfOk result (λ phase. TellsRightly h.now made.now self.old self.new phase) }
    {
        let Op::Refused { word } = made.op else {
            return Ok(None);
        };
        let part = self.part();
        let stand = self.turns.stand();
        let Some(phase) = refused_in(stand, part.candidates, word, &made.reply) else {
            return Ok(None);
        };
        let reply = self
            .managed
            .refused(&mut self.draw, made.index, word, phase)?;
        if is_same(&reply, &made.reply) {
            Ok(Some(phase))
        } else {
            Ok(None)
        }
    }
}

// A test's answer, of an entry that isn't a refusal.
fn done(right: bool) -> Option<Phase>
    ensures told { right ≡ true → result ≡ Some Phase.Idle }
    ensures untold { right ≡ false → result ≡ None }
{
    if right { Some(Phase::Idle) } else { None }
}
