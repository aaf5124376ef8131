// The peer side: its peers and handles, with the entries of what was done.

ghost use Rattle.std.specs.Prelude.{◌≡◌, ◌≢◌, ℕ, ◌+◌, ◌≤◌, ◌^◌, ◌⊎◌, ◌↔◌, None, Some, IsSome, MatchBool, length};
ghost use Rattle.std.specs.Prelude.{count_by, is_some, true, IfErr, IfOk, IsOk, OnErr, OnOk};
ghost use Rattle.std.specs.Option.{option_map};
ghost use Rattle.joint_machine.specs.declared.names.HNum.{HNum};
ghost use Rattle.joint_machine.specs.Histories.{peer_numbers};
ghost use Rattle.joint_machine.specs.Lines.{IsDriver, IsPeerThread};
ghost use Rattle.joint_machine.specs.PeerReplay.{Marking as MarkingState, PeerAllows, row_of, table_target};
ghost use Rattle.joint_machine.specs.Sides.{peer_rules, MayDraw, AreTaken, IsReplayed, step_made};
ghost use Rattle.joint_machine.specs.Told.{Told, nothing};
ghost use Rattle.joint_laws.specs.PeerInvariants.{PeerInvariant};
ghost use Rattle.global_handles.specs.Rows.{row_in, target_in};
ghost use Rattle.peer_heap.specs.Rows.{number_of, row_as};
ghost use Rattle.peer_heap.specs.Makings.{IsSideStep, MayDrawStep, MayStep, RefusesMarking, AddsStep};
ghost use Rattle.peer_heap.specs.Makings.{sweep_told, IsMarkEvent};
ghost use Rattle.marking_laws.specs.Slices.{AreMarksGoing};
ghost use Rattle.peer_heap.specs.Sides.{begins, ends, is_own, is_to_mark, opening_side, owed, reserve_begun, seen};
ghost use Rattle.peer_heap.specs.Sides.{AddsPeer};
ghost use Rattle.peer_heap.specs.Sides.{MarkingIsEnded, IsDrivers, IsEndOf, IsFaultAt, IsMarkingOf, IsSliced, MayEnd};
ghost use Rattle.peer_heap.specs.Sides.{SlicesMarking, SlicesOpen};
ghost use Rattle.row_marking.specs.Traces.{IsGreyList};
ghost use Rattle.peer_heap.specs.Mirrors.{mirrors_begun, owes};
ghost use Rattle.peer_heap.specs.Steps.{IsPeerStep, IsRelease, room_for};

use crate::mirroring::{Mirroring, OpenMirror};
use crate::rows::PeerRows;
use global_handles::HandleTable;
use joint_model::{
    Act, Draw, Entries, Holding, Made, Marking, Op, PNum, Reply, Span, Thread, enter,
};
use std::alloc::{AllocError, Global};
use std::marker::Model;
use std::snapshot::Snapshot;

/// What a side leaves behind: its entries, and the numbers of its freed peers in the order of freeing.
#[derive(Drop)]
pub struct PeerLists {
    pub entries: Entries,
    pub freed: Vec<PNum>,
}

/// Why no marking is begun: one is open, or there is no memory.
#[derive(Drop)]
pub enum BeginFault {
    OutOfMemory,
    MarkOpen { marking: Marking },
}

/// No marking is open.
#[derive(Drop)]
pub struct NoMark;

/// Whether a slice left no grey peer, or some.
#[derive(Clone, Copy, PartialEq, Eq, Debug)]
pub enum SliceEnd {
    Done,
    More,
}

/// A marking that was ended, and where the peers that it freed stand in the list of freed ones.
#[derive(Drop)]
pub struct Swept {
    pub marking: Marking,
    pub freed: Span,
}

/// An open marking: its number and thread, how many entries there were after its begin, the rows as they stood then,
/// for proofs, and how many peers slices of its thread have made black.
#[derive(Drop)]
pub(crate) struct OpenMarking {
    pub(crate) number: Marking,
    pub(crate) by: Thread,
    pub(crate) from: u32,
    pub(crate) begin: Snapshot<PeerRows>,
    pub(crate) blackened: u32,
}

/// The peers, their slots and names, the handles on them, the open marking, and the entries of what was done, each for
/// the driver, for a managed thread or for one of the peer threads for which the side is.
#[derive(Drop)]
pub struct PeerSide {
    threads: u8,
    pub(crate) rows: PeerRows,
    pub(crate) marking: Option<OpenMarking>,
    // Where the list of grey peers begins, which runs through the rows; 0 where none is grey.
    pub(crate) grey: u32,
    markings: u32,
    pub(crate) mirroring: Mirroring,
    pub(crate) entries: Entries,
}

impl Model for PeerSide {
    ghost use Rattle.joint_machine.specs.Sides.{AreTaken, peer_rules};
    ghost use Rattle.peer_heap.specs.Sides.{AreCounted, AreGoing, PeerModel, colours_of, model_with, IsSide};

    ghost Value = { PeerModel };

    ghost view = { λ s. model_with s.threads s.entries.entries s.rows s.marking s.grey s.markings s.mirroring };

    ghost invariant = { λ s. IsSide s.rows s.marking s.markings s.mirroring s.entries
        × AreTaken peer_rules s.threads s.entries.entries
        × AreGoing s.rows s.marking s.grey s.markings s.mirroring s.entries.entries
        × AreCounted s.marking (colours_of s.rows.rows s.grey) };
}

impl PeerSide {
    /// A side on which nothing was made, for the first `threads` of the peer threads, at most 8: of peer threads it
    /// takes the events of these alone. There are places for the variables of all eight. Its list holds its entries as
    /// it is told. Answers `AllocError` where there is no memory.
    pub fn new(alloc: Global, threads: u8, holding: Holding) -> Result<PeerSide, AllocError>
        requires { threads ≤ 8 }
        ensures { IfOk result (λ s. s ≡ opening_side threads) }
    {
        Ok(PeerSide {
            threads,
            rows: PeerRows::new(alloc)?,
            marking: None,
            grey: 0,
            markings: 0,
            mirroring: Mirroring::new(alloc),
            entries: Entries::new(alloc, holding),
        })
    }

    /// What holds of every side, for the proofs of callers: it is the replay of its entries, in a state as lawful lists
    /// lead to, and no entry is that of a peer thread for which the side isn't. It does nothing.
    pub fn recall_replays(&self)
        ensures replayed { IsReplayed peer_rules self.now.entries self.now.state }
        ensures taken { AreTaken peer_rules self.now.threads self.now.entries }
        ensures kept { PeerInvariant self.now.state }
    {
        let _ = &self.entries;
    }

    /// For how many peer threads the side is: the first so many.
    pub fn threads(&self) -> u8
        ensures { result ≡ self.now.threads }
    {
        self.threads
    }

    /// Makes what one operation stands for: a line of a peer thread, a managed thread's make, land, grip or release, or
    /// a begin or a sweep. The replies and the changes are those of the definition, and an entry is drawn and put last
    /// for each event: one, or for a `collect` a begin and, if that gave a number, the sweep of that marking. Answers
    /// the reply of the last one.
    ///
    /// Answers `AllocError`, with the side and the draw as before, where there is no memory. A release takes none.
    #[inline(always)]
    pub fn step<D: Draw>(
        &mut self,
        draw: &mut D,
        caller: Thread,
        index: u32,
        op: &Op,
        cites: Option<u64>,
    ) -> Result<Reply, AllocError>
        requires step { IsSideStep caller op.now }
        requires allowed { MayStep self.old.state caller op.now cites }
        requires may { MayDrawStep D.rules draw.old (seen self.old) caller op.now }
        ensures adds { IfOk result (λ r. AddsStep D.rules draw.old draw.new
            self.old self.new caller index op.now cites r) }
        ensures release { IsRelease op.now → IsOk result }
        ensures err { OnErr result ((self.new ≡ self.old) × (draw.new ≡ draw.old)) }
        ensures reserve { self.new.reserve ≡ self.old.reserve }
    {
        match op {
            Op::Begin => self.begin(draw, caller, index),
            Op::Sweep => self.end(draw, caller, index),
            Op::Line(act) => self.line(draw, caller, index, act, cites),
            _ => self.event(draw, caller, index, op, cites),
        }
    }

    /// Makes a begin or a sweep, as [`PeerSide::step`] does.
    ///
    /// Answers `AllocError`, with the side and the draw as before, where there is no memory.
    pub fn mark_step<D: Draw>(
        &mut self,
        draw: &mut D,
        caller: Thread,
        index: u32,
        op: &Op,
    ) -> Result<Reply, AllocError>
        requires mark { IsMarkEvent op.now }
        requires step { IsSideStep caller op.now }
        requires allowed { MayStep self.old.state caller op.now None }
        requires may { MayDrawStep D.rules draw.old (seen self.old) caller op.now }
        ensures adds { IfOk result (λ r. AddsStep D.rules draw.old draw.new
            self.old self.new caller index op.now None r) }
        ensures err { OnErr result ((self.new ≡ self.old) × (draw.new ≡ draw.old)) }
        ensures reserve { self.new.reserve ≡ self.old.reserve }
    {
        match op {
            Op::Begin => self.begin(draw, caller, index),
            Op::Sweep => self.end(draw, caller, index),
            _ => unreachable!(),
        }
    }

    // Makes what a line of a peer thread stands for.
    fn line<D: Draw>(
        &mut self,
        draw: &mut D,
        caller: Thread,
        index: u32,
        act: &Act,
        cites: Option<u64>,
    ) -> Result<Reply, AllocError>
        requires step { IsSideStep caller (Op.Line act.now) }
        requires allowed { MayStep self.old.state caller (Op.Line act.now) cites }
        requires may { MayDrawStep D.rules draw.old (seen self.old) caller (Op.Line act.now) }
        ensures adds { IfOk result (λ r. AddsStep D.rules draw.old draw.new
            self.old self.new caller index (Op.Line act.now) cites r) }
        ensures err { OnErr result ((self.new ≡ self.old) × (draw.new ≡ draw.old)) }
        ensures reserve { self.new.reserve ≡ self.old.reserve }
    {
        match act {
            Act::Collect => self.collect(draw, caller, index),
            _ => self.event(draw, caller, index, &Op::Line(*act), cites),
        }
    }

    /// Makes one event of the peers or of the handles: a line of a peer thread, or a managed thread's make, land, grip
    /// or release. The reply and the change are those of the definition, and one entry is drawn and put last.
    ///
    /// Answers `AllocError`, with the side and the draw as before, where there is no memory. A release takes none.
    #[inline(always)]
    pub fn event<D: Draw>(
        &mut self,
        draw: &mut D,
        caller: Thread,
        index: u32,
        op: &Op,
        cites: Option<u64>,
    ) -> Result<Reply, AllocError>
        requires step { IsPeerStep caller op.now }
        requires allowed { PeerAllows self.old.state caller op.now cites nothing }
        requires may { MayDraw peer_rules D.rules draw.old (seen self.old) caller op.now }
        ensures adds { IfOk result (λ r. AddsPeer D.rules draw.old draw.new self.old self.new
            (step_made caller index op.now r cites) nothing) }
        ensures release { IsRelease op.now → IsOk result }
        ensures err { OnErr result ((self.new ≡ self.old) × (draw.new ≡ draw.old)) }
        ensures reserve { self.new.reserve ≡ self.old.reserve }
    {
        let kept = kept(&self.rows, &self.marking, &self.mirroring);
        make_room(&mut self.entries, kept, op)?;
        let is_open = self.marking.is_some();
        let reply = self.rows.event(caller, op, is_open, &mut self.grey)?;
        let made = Made {
            caller,
            index,
            op: *op,
            reply,
            cites,
        };
        enter(&mut self.entries, draw, made, None, &[]);
        Ok(reply)
    }

    // Makes the event of a begin: the next marking is opened, unless one is open.
    fn begin<D: Draw>(
        &mut self,
        draw: &mut D,
        caller: Thread,
        index: u32,
    ) -> Result<Reply, AllocError>
        requires caller { IsPeerThread caller ⊎ IsDriver caller }
        requires may { MayDraw peer_rules D.rules draw.old (seen self.old) caller Op.Begin }
        ensures adds { IfOk result (λ r. AddsStep D.rules draw.old draw.new
            self.old self.new caller index Op.Begin None r) }
        ensures err { OnErr result ((self.new ≡ self.old) × (draw.new ≡ draw.old)) }
        ensures reserve { self.new.reserve ≡ self.old.reserve }
    {
        match self.marking() {
            Some((marking, _)) => {
                self.refuse(draw, caller, index, Op::Begin, Reply::MarkOpen(marking))
            }
            None => {
                let marking = self.open_marking(draw, caller, index, false)?;
                Ok(Reply::Mark(marking))
            }
        }
    }

    // Makes the event of a sweep: the open marking ends, if the thread may end it.
    fn end<D: Draw>(
        &mut self,
        draw: &mut D,
        caller: Thread,
        index: u32,
    ) -> Result<Reply, AllocError>
        requires caller { IsPeerThread caller ⊎ IsDriver caller }
        requires open { IsDriver caller → IsSome self.old.state.marking }
        requires may { MayDraw peer_rules D.rules draw.old (seen self.old) caller Op.Sweep }
        ensures adds { IfOk result (λ r. AddsStep D.rules draw.old draw.new
            self.old self.new caller index Op.Sweep None r) }
        ensures err { OnErr result ((self.new ≡ self.old) × (draw.new ≡ draw.old)) }
        ensures reserve { self.new.reserve ≡ self.old.reserve }
    {
        match self.marking() {
            None => self.refuse(draw, caller, index, Op::Sweep, Reply::NoMark),
            Some((marking, by)) => {
                if may_end(caller, by) {
                    let span = self.close_marking(draw, caller, index, marking);
                    Ok(Reply::Swept(marking, span))
                } else {
                    self.refuse(draw, caller, index, Op::Sweep, Reply::MarkOpen(marking))
                }
            }
        }
    }

    /// Makes a whole collection of a peer thread: a begin, and the sweep of that marking. An entry is drawn and put
    /// last for each. Where a marking is open already, the begin alone is made, and says so. Answers the reply of the
    /// last one.
    ///
    /// Answers `AllocError`, with the side and the draw as before, where there is no memory: all room is taken first.
    pub fn collect<D: Draw>(
        &mut self,
        draw: &mut D,
        caller: Thread,
        index: u32,
    ) -> Result<Reply, AllocError>
        requires caller { IsPeerThread caller }
        requires may_begin { MayDraw peer_rules D.rules draw.old (seen self.old) caller Op.Begin }
        requires may_sweep { MayDraw peer_rules D.rules draw.old (seen self.old) caller Op.Sweep }
        ensures adds { IfOk result (λ r. AddsStep D.rules draw.old draw.new
            self.old self.new caller index (Op.Line Act.Collect) None r) }
        ensures err { OnErr result ((self.new ≡ self.old) × (draw.new ≡ draw.old)) }
        ensures reserve { self.new.reserve ≡ self.old.reserve }
    {
        match self.marking() {
            Some((marking, _)) => {
                self.refuse(draw, caller, index, Op::Begin, Reply::MarkOpen(marking))
            }
            None => {
                let marking = self.open_marking(draw, caller, index, false)?;
                let freed = self.close_marking(draw, caller, index, marking);
                Ok(Reply::Swept(marking, freed))
            }
        }
    }

    // Makes the event of a begin or a sweep that changes nothing.
    fn refuse<D: Draw>(
        &mut self,
        draw: &mut D,
        caller: Thread,
        index: u32,
        op: Op,
        reply: Reply,
    ) -> Result<Reply, AllocError>
        requires passes { RefusesMarking self.old.state (step_made caller index op reply None) }
        requires may { MayDraw peer_rules D.rules draw.old (seen self.old) caller op }
        ensures reply { IfOk result (λ r. r ≡ reply) }
        ensures adds { OnOk result (AddsPeer D.rules draw.old draw.new self.old self.new
            (step_made caller index op reply None) nothing) }
        ensures err { OnErr result ((self.new ≡ self.old) × (draw.new ≡ draw.old)) }
        ensures reserve { self.new.reserve ≡ self.old.reserve }
    {
        let kept = kept(&self.rows, &self.marking, &self.mirroring);
        take_room(&mut self.entries, kept, 1)?;
        let made = Made {
            caller,
            index,
            op,
            reply,
            cites: None,
        };
        enter(&mut self.entries, draw, made, None, &[]);
        Ok(reply)
    }

    /// Begins a marking: what slots and strong handles name is grey, and nothing else has a mark. One entry is drawn
    /// and put last, and the marking's number is answered. From then on `mark_slice` makes grey peers black, and
    /// `sweep` those that are left.
    ///
    /// Answers `MarkOpen` exactly where a marking is open, and `OutOfMemory` where there is no memory; the side and the
    /// draw are then as before. The driver's begin of a mirrored cycle's own marking takes no memory: `reserve_refs`
    /// took it.
    pub fn mark_begin<D: Draw>(
        &mut self,
        draw: &mut D,
        caller: Thread,
        index: u32,
    ) -> Result<Marking, BeginFault>
        requires caller { IsPeerThread caller ⊎ IsDriver caller }
        requires may { MayDraw peer_rules D.rules draw.old (seen self.old) caller Op.Begin }
        ensures begun { IfOk result (λ j. AddsPeer D.rules draw.old draw.new self.old self.new
            (begins caller index j) nothing) }
        ensures fault { IfErr result (λ f. IsFaultAt f self.old.state.marking) }
        ensures own { is_own caller self.old.reserve.marking ≡ true → self.old.state.marking ≡ None → IsOk result }
        ensures err { OnErr result ((self.new ≡ self.old) × (draw.new ≡ draw.old)) }
        ensures reserve { OnOk result (self.new.reserve ≡ reserve_begun
            (is_own caller self.old.reserve.marking) self.old.reserve) }
    {
        let own = self.own(caller);
        match self.marking() {
            Some((marking, _)) => Err(BeginFault::MarkOpen { marking }),
            None => match self.open_marking(draw, caller, index, own) {
                Ok(marking) => Ok(marking),
                Err(_) => Err(BeginFault::OutOfMemory),
            },
        }
    }

    // Whether a begin of this thread is that of the mirrored cycle's own marking.
    fn own(&self, caller: Thread) -> bool
        ensures { result ≡ is_own caller self.now.reserve.marking }
    {
        match caller {
            Thread::C => to_mark(self.mirroring.mirror()),
            Thread::M(_) => false,
            Thread::P(_) => false,
        }
    }

    // Opens the next marking, with its entry. The mirrored cycle's own one has its room.
    fn open_marking<D: Draw>(
        &mut self,
        draw: &mut D,
        caller: Thread,
        index: u32,
        own: bool,
    ) -> Result<Marking, AllocError>
        requires caller { IsPeerThread caller ⊎ IsDriver caller }
        requires closed { self.old.state.marking ≡ None }
        requires own { own ≡ true → self.old.reserve.marking ≡ true }
        requires may { MayDraw peer_rules D.rules draw.old (seen self.old) caller Op.Begin }
        ensures begun { IfOk result (λ j. AddsPeer D.rules draw.old draw.new self.old self.new
            (begins caller index j) nothing) }
        ensures own { own ≡ true → IsOk result }
        ensures err { OnErr result ((self.new ≡ self.old) × (draw.new ≡ draw.old)) }
        ensures reserve { OnOk result (self.new.reserve ≡ reserve_begun own self.old.reserve) }
    {
        // the one place where a begin takes memory: room for its entry, for its sweep's, and for what was kept before
        let kept = kept(&self.rows, &self.marking, &self.mirroring);
        room_to_mark(&mut self.entries, &mut self.mirroring, kept, own)?;
        let begin = Snapshot::of(&self.rows);
        self.grey = self.rows.mark();
        self.markings += 1;
        let number = Marking(self.markings);
        let made = Made {
            caller,
            index,
            op: Op::Begin,
            reply: Reply::Mark(number),
            cites: None,
        };
        enter(&mut self.entries, draw, made, None, &[]);
        let from = self.entries.len();
        self.marking = Some(OpenMarking {
            number,
            by: caller,
            from,
            begin,
            blackened: 0,
        });
        Ok(number)
    }

    /// Makes at most `n` grey peers of the open marking black: what each leads to is shaded. Answers `Done` exactly
    /// where none is grey then. Others may change the peers between two slices: what they might hide from the marking
    /// is shaded as they do it. It makes no entry and takes no memory. The open marking has to be the driver's.
    ///
    /// Answers `NoMark` exactly where no marking is open.
    pub fn mark_slice(&mut self, n: u32) -> Result<SliceEnd, NoMark>
        requires { IsDrivers self.old.state.marking }
        ensures open { IsOk result ↔ IsSome self.old.state.marking }
        ensures end { IfOk result (λ end. IsEndOf end self.new.colours.greys) }
        ensures sliced { OnOk result (IsSliced n self.old.state self.old.colours self.new.colours) }
        ensures rest { self.new ≡ record self.old { colours = self.new.colours } }
        ensures err { OnErr result (self.new ≡ self.old) }
    {
        match self.marking() {
            None => Err(NoMark),
            Some(_) => {
                let end = self.slice(n);
                Ok(end)
            }
        }
    }

    // Makes at most so many grey peers black, and answers whether any is grey still.
    fn slice(&mut self, n: u32) -> SliceEnd
        requires { IsDrivers self.old.state.marking }
        ensures end { IsEndOf result self.new.colours.greys }
        ensures sliced { IsSliced n self.old.state self.old.colours self.new.colours }
        ensures rest { self.new ≡ record self.old { colours = self.new.colours } }
    {
        let _ = self.rows.blacken(&mut self.grey, n);
        end_of(self.grey)
    }

    /// Makes a slice of a peer thread's own marking: at most `n` grey peers are made black. Answers `done` exactly
    /// where all that the marking reaches so far are black then, else `more`; `nomark` where no marking is open, and
    /// which one where another thread's is. One entry is drawn and put last, with the peers that the marking reaches so
    /// far told beside it.
    ///
    /// Answers `AllocError`, with the side and the draw as before, where there is no memory for the entry.
    pub fn thread_slice<D: Draw>(
        &mut self,
        draw: &mut D,
        caller: Thread,
        index: u32,
        n: u32,
    ) -> Result<Reply, AllocError>
        requires caller { IsPeerThread caller }
        requires count { (1 ≤ n) × (n ≤ 65535) }
        requires may { MayDraw peer_rules D.rules draw.old (seen self.old) caller (Op.Line (Act.Slice n)) }
        ensures adds { IfOk result (λ r. (told : Told)
            × AddsPeer D.rules draw.old draw.new self.old self.new
            (step_made caller index (Op.Line (Act.Slice n)) r None) told) }
        ensures err { OnErr result ((self.new ≡ self.old) × (draw.new ≡ draw.old)) }
        ensures reserve { self.new.reserve ≡ self.old.reserve }
    {
        let kept = kept(&self.rows, &self.marking, &self.mirroring);
        take_room(&mut self.entries, kept, 1)?;
        let reply = slice_open(&mut self.rows, &mut self.grey, &mut self.marking, caller, n);
        let made = Made {
            caller,
            index,
            op: Op::Line(Act::Slice { n }),
            reply,
            cites: None,
        };
        enter(&mut self.entries, draw, made, None, &[]);
        Ok(reply)
    }

    /// What holds of an open marking, for the proofs of callers: its marks and grey peers are those of a marking that
    /// goes on. It does nothing.
    pub fn recall_goes(&self)
        ensures { (mk : MarkingState) → self.now.state.marking ≡ Some mk
            → AreMarksGoing self.now.state mk self.now.colours.follows self.now.colours.marks self.now.colours.greys }
    {
        let _ = &self.rows;
    }

    /// Ends the open marking: the grey peers that are left are made black, the peers that existed at its begin and have
    /// no mark are freed, in rising order, and the handles on them are cleared. One entry is drawn and put last. It
    /// takes no memory.
    ///
    /// Answers `NoMark` exactly where no marking is open; the side and the draw are then as before.
    pub fn sweep<D: Draw>(
        &mut self,
        draw: &mut D,
        caller: Thread,
        index: u32,
    ) -> Result<Swept, NoMark>
        requires caller { IsPeerThread caller ⊎ IsDriver caller }
        requires own { MayEnd self.old.state.marking caller }
        requires may { MayDraw peer_rules D.rules draw.old (seen self.old) caller Op.Sweep }
        ensures swept { IfOk result (λ w. AddsPeer D.rules draw.old draw.new self.old self.new
            (ends caller index w.marking w.freed) (sweep_told self.old.state self.new.state)) }
        ensures err { OnErr result ((self.old.state.marking ≡ None) × (self.new ≡ self.old) × (draw.new ≡ draw.old)) }
        ensures reserve { self.new.reserve ≡ self.old.reserve }
    {
        match self.marking() {
            None => Err(NoMark),
            Some((marking, _)) => {
                let gone = self.close_marking(draw, caller, index, marking);
                Ok(Swept {
                    marking,
                    freed: gone,
                })
            }
        }
    }

    // Ends the open marking, with its entry. Answers where the peers that it freed stand in the list of freed ones.
    fn close_marking<D: Draw>(
        &mut self,
        draw: &mut D,
        caller: Thread,
        index: u32,
        marking: Marking,
    ) -> Span
        requires caller { IsPeerThread caller ⊎ IsDriver caller }
        requires ended { MarkingIsEnded self.old.state.marking caller marking }
        requires may { MayDraw peer_rules D.rules draw.old (seen self.old) caller Op.Sweep }
        ensures swept { AddsPeer D.rules draw.old draw.new self.old self.new
            (ends caller index marking result) (sweep_told self.old.state self.new.state) }
        ensures reserve { self.new.reserve ≡ self.old.reserve }
    {
        let _ = self.rows.blacken(&mut self.grey, u32::MAX);
        let first = self.rows.freed();
        self.rows.sweep();
        let count = self.rows.freed() - first;
        let freed = Span { first, count };
        let made = Made {
            caller,
            index,
            op: Op::Sweep,
            reply: Reply::Swept(marking, freed),
            cites: None,
        };
        enter(&mut self.entries, draw, made, None, &[]);
        self.marking = None;
        freed
    }

    /// The entries, in the order in which they were made.
    pub fn entries(&self) -> &Entries
        ensures { result.now.entries ≡ self.now.entries }
    {
        &self.entries
    }

    /// How many peers were made: the number of the last one.
    pub fn made(&self) -> u32
        ensures { result ≡ length self.now.state.peers.heap.fields }
    {
        self.rows.made()
    }

    /// How many peers are live.
    pub fn live(&self) -> u32
        ensures { result + length self.now.state.peers.heap.freed ≡ length self.now.state.peers.heap.fields }
    {
        self.rows.live()
    }

    /// The peers that were freed, in the order of freeing.
    pub fn freed(&self) -> &[PNum]
        ensures { peer_numbers result.now ≡ self.now.state.peers.heap.freed }
    {
        self.rows.freed_list()
    }

    /// How many handles were made: those that restores gave don't count.
    pub fn handles_made(&self) -> u32
        ensures { result ≡ self.now.state.peers.made }
    {
        self.rows.handles_made()
    }

    /// How many handles are in the table.
    pub fn tabled(&self) -> u32
        ensures { result ≡ count_by is_some self.now.state.table }
    {
        self.rows.tabled()
    }

    /// The number of the open marking, and the thread that began it.
    pub fn marking(&self) -> Option<(Marking, Thread)>
        ensures { IsMarkingOf result self.now.state.marking }
    {
        match &self.marking {
            None => None,
            Some(opened) => Some((opened.number, opened.by)),
        }
    }

    /// The handles: what the state has as the row of a handle is the row here, and a handle leads here where it leads
    /// in the state.
    pub fn handles(&self) -> &HandleTable
        ensures rows { (h : ℕ) → row_of self.now.state h ≡ option_map row_as
            (row_in result.now.rows (record { 0 = h })) }
        ensures targets { (h : HNum) → table_target self.now.state h.0 ≡ number_of (target_in result.now.rows h) }
    {
        self.rows.handles()
    }

    /// Gives up the side for its lists. It takes no memory.
    pub fn into_lists(self) -> PeerLists
        ensures entries { result.entries.entries ≡ self.entries }
        ensures freed { peer_numbers result.freed.items ≡ self.state.peers.heap.freed }
    {
        PeerLists {
            entries: self.entries,
            freed: self.rows.into_freed(),
        }
    }
}

// Whether the list of grey peers that begins there has any.
fn end_of(grey: u32) -> SliceEnd
    ensures done { grey ≡ 0 → result ≡ SliceEnd.Done }
    ensures more { grey ≢ 0 → result ≡ SliceEnd.More }
{
    if grey == 0 {
        SliceEnd::Done
    } else {
        SliceEnd::More
    }
}

// What a slice of a thread answers, where a marking may be open.
fn slice_open(
    rows: &mut PeerRows,
    grey: &mut u32,
    marking: &mut Option<OpenMarking>,
    caller: Thread,
    n: u32,
) -> Reply
    requires { IsGreyList rows.old.rows.marks rows.old.rows.links grey.old }
    ensures { SlicesOpen n caller rows.old grey.old marking.old rows.new grey.new marking.new result }
{
    match marking {
        None => Reply::NoMark,
        Some(opened) => sliced(rows, grey, opened, caller, n),
    }
}

// What it answers by the open one: where that is its own, at most so many grey peers are made black and counted.
fn sliced(
    rows: &mut PeerRows,
    grey: &mut u32,
    opened: &mut OpenMarking,
    caller: Thread,
    n: u32,
) -> Reply
    requires { IsGreyList rows.old.rows.marks rows.old.rows.links grey.old }
    ensures { SlicesMarking n caller rows.old grey.old opened.old rows.new grey.new opened.new result }
{
    if opened.by != caller {
        return Reply::MarkOpen(opened.number);
    }
    let black = rows.blacken(grey, n);
    opened.blackened = opened.blackened.wrapping_add(black);
    end_of_slice(*grey)
}

// What a slice answers where the list of grey peers begins there.
fn end_of_slice(grey: u32) -> Reply
    ensures done { grey ≡ 0 → result ≡ Reply.Done }
    ensures more { grey ≢ 0 → result ≡ Reply.More }
{
    if grey == 0 { Reply::Done } else { Reply::More }
}

// Whether a thread may end a marking: the driver, and the thread that began it.
fn may_end(caller: Thread, by: Thread) -> bool
    ensures { MatchBool result ((caller ≡ Thread.C) ⊎ (caller ≡ by)) (¬ ((caller ≡ Thread.C) ⊎ (caller ≡ by))) }
{
    caller == Thread::C || caller == by
}

// Whether the mirrored cycle's own marking is still to come.
fn to_mark(mirror: Option<OpenMirror>) -> bool
    ensures { result ≡ is_to_mark mirror }
{
    match mirror {
        None => false,
        Some(m) => m.marking,
    }
}

// Takes the room for a begin and for its sweep. A mirrored cycle's own marking has it, and the cycle owes it no more.
fn room_to_mark(
    entries: &mut Entries,
    mirroring: &mut Mirroring,
    kept: u64,
    own: bool,
) -> Result<(), AllocError>
    requires most { kept ≤ 2 ^ 42 }
    requires own { own ≡ true → is_to_mark mirroring.old.mirror ≡ true }
    requires room { kept ≤ entries.old.spare }
    requires limit { length entries.old.entries + entries.old.spare ≤ u32.MAX }
    ensures room { OnOk result (kept + owes mirroring.new + 2 ≤ entries.new.spare + owes mirroring.old) }
    ensures limit { OnOk result (length entries.new.entries + entries.new.spare ≤ u32.MAX) }
    ensures entries { entries.new.entries ≡ entries.old.entries }
    ensures mirroring { OnOk result (mirroring.new ≡ mirrors_begun own mirroring.old) }
    ensures own { own ≡ true → IsOk result }
    ensures err { OnErr result ((entries.new ≡ entries.old) × (mirroring.new ≡ mirroring.old)) }
{
    if !own {
        return take_room(entries, kept, 2);
    }
    let Some(mirror) = mirroring.mirror() else {
        unreachable!();
    };
    mirroring.set_mirror(Some(mirror.marked()));
    Ok(())
}

// How many entries an open marking owes: that of its sweep.
fn owed(marking: &Option<OpenMarking>) -> u32
    ensures owed { result ≡ owed marking.now }
    ensures most { result ≤ 1 }
{
    match marking {
        None => 0,
        Some(_) => 1,
    }
}

/// For how many entries room is kept: the release of each handle of the table, the sweep of an open marking, and what
/// mirrored cycles owe.
pub(crate) fn kept(rows: &PeerRows, marking: &Option<OpenMarking>, mirroring: &Mirroring) -> u64
    ensures kept { result ≡ rows.now.tabled + owed marking.now + owes mirroring.now }
    ensures most { result ≤ 2 ^ 42 }
{
    rows.tabled() as u64 + owed(marking) as u64 + mirroring.owes()
}

/// Takes room for so many more entries than those for which room is kept.
pub(crate) fn take_room(entries: &mut Entries, kept: u64, more: u32) -> Result<(), AllocError>
    requires most { kept ≤ 2 ^ 42 }
    ensures room { OnOk result (kept + more ≤ entries.new.spare) }
    ensures kept { entries.old.spare ≤ entries.new.spare }
    ensures entries { entries.new.entries ≡ entries.old.entries }
    ensures limit { OnOk result (length entries.new.entries + entries.new.spare ≤ u32.MAX) }
    ensures err { OnErr result (entries.new ≡ entries.old) }
{
    let all = kept + more as u64;
    if all > u32::MAX as u64 {
        return Err(AllocError);
    }
    entries.reserve(all as u32)
}

// Takes the room for an event: for its own entry, and for that of the release of a handle that it may issue. A release
// has its room.
fn make_room(entries: &mut Entries, kept: u64, op: &Op) -> Result<(), AllocError>
    requires most { kept ≤ 2 ^ 42 }
    requires room { kept ≤ entries.old.spare }
    requires limit { length entries.old.entries + entries.old.spare ≤ u32.MAX }
    ensures room { OnOk result (room_for op.now kept ≤ entries.new.spare) }
    ensures kept { entries.old.spare ≤ entries.new.spare }
    ensures entries { entries.new.entries ≡ entries.old.entries }
    ensures limit { length entries.new.entries + entries.new.spare ≤ u32.MAX }
    ensures release { IsRelease op.now → IsOk result }
    ensures err { OnErr result (entries.new ≡ entries.old) }
{
    match op {
        Op::Release { h: _ } => Ok(()),
        _ => take_room(entries, kept, 2),
    }
}
