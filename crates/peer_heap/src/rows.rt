// The peers with their sorts, slots and names, and the handles on them. Each call here is one event of the definition,
// without its entry.

ghost use Rattle.std.specs.Prelude.{◌≡◌, ℕ, ◌+◌, ◌<◌, ◌≤◌, Some, None, IfOk, IsOk, OnErr, OnOk, length, count_by};
ghost use Rattle.std.specs.Prelude.{is_some, ◌⊎◌, ◌↔◌, ◌||◌, ◌++◌, [], ◌∷◌, IsTrue, true, false};
ghost use Rattle.std.specs.Option.{ForSome, option_map};
ghost use Rattle.joint_machine.specs.Heaps.{IsLive, answer, is_full, next_number, slot, with_object, numbered_at};
ghost use Rattle.joint_machine.specs.Heaps.{place_or_none};
ghost use Rattle.joint_machine.specs.Heaps.{numbered_set, copied, field_set, field_got, dropped, loaded, stored, place};
ghost use Rattle.joint_machine.specs.Histories.{peer_numbers};
ghost use Rattle.joint_machine.specs.Lines.{IsPeerThread, IsVar, IsVarOrNone};
ghost use Rattle.joint_machine.specs.Peers.{peer_name, on_peer_heap, peer_made, handles_full, pair_made, gripped};
ghost use Rattle.joint_machine.specs.Peers.{landed, globalised, name_given, name_freed, name_read, peer_read};
ghost use Rattle.joint_machine.specs.PeerReplay.{PeerReplay, TableRow, opening_peer_replay, on_table, untabled, row_of};
ghost use Rattle.joint_machine.specs.PeerReplay.{table_target};
ghost use Rattle.joint_machine.specs.Run.{thread_number};
ghost use Rattle.row_marking.specs.Traces.{Greyed};
ghost use Rattle.row_heap.specs.Marks.{overwritten};
ghost use Rattle.peer_heap.specs.Marks.{AreMarksSame, MarksNew, MarksBrought, MarksAfter, MarksWritten};
ghost use Rattle.global_handles.specs.Rows.{IsRising, fresh_row, row_in, target_in};
ghost use Rattle.heap_rules.specs.Done.{say};
ghost use Rattle.peer_heap.specs.Rows.{PeersAnswer, AreTargetsLive, GoesBy, issued_to, number_of, row_as, strength_as};
ghost use Rattle.peer_heap.specs.Rows.{no_rows, peers_in, with_rows};
ghost use Rattle.peer_heap.specs.Steps.{IsPeerStep, IsRelease, ReleasesTabled, room_for};

use crate::issues::{Issue, Issues};
use global_handles::{HandleTable, Hold, MOST_HANDLES, Strength};
use heap_rules::Done;
use joint_model::{Act, HNum, NAMES, Op, PNum, Reply, Sort, Thread, Var, list_with_room};
use row_heap::{MOST_OBJECTS, RowHeap};
use row_marking::visit;
use std::alloc::{AllocError, Global};
use std::marker::Model;

/// The peers with their sorts, the slots and names that lead to them, and the handles: as they were issued, and as the
/// table has them now.
#[derive(Drop)]
pub(crate) struct PeerRows {
    pub(crate) heap: RowHeap<PNum>,
    pub(crate) sorts: Vec<Sort>,
    pub(crate) names: [Option<u32>; NAMES],
    pub(crate) issued: Issues,
    pub(crate) table: HandleTable,
}

impl Model for PeerRows {
    ghost use Rattle.peer_heap.specs.Rows.{Rows, rows_with, ArePeerRows};

    ghost Value = { Rows };

    ghost view = { λ s. rows_with s.heap s.sorts.items s.names s.issued s.table };

    ghost invariant = { λ s. ArePeerRows s.heap s.sorts.items s.issued s.table };
}

impl PeerRows {
    /// No peer, no name and no handle. Answers `AllocError` where there is no memory.
    pub(crate) fn new(alloc: Global) -> Result<PeerRows, AllocError>
        ensures { IfOk result (λ rows. rows ≡ no_rows) }
    {
        let issued = Issues::new(alloc)?;
        Ok(PeerRows {
            heap: RowHeap::new(alloc),
            sorts: list_with_room(alloc, MOST_OBJECTS),
            names: [None; NAMES],
            issued,
            table: HandleTable::new(alloc),
        })
    }

    /// How many handles the table has.
    pub(crate) fn tabled(&self) -> u32
        ensures tabled { result ≡ self.now.tabled }
        ensures counted { result ≡ count_by is_some self.now.table }
        ensures most { result ≤ 65535 }
    {
        self.table.len()
    }

    /// How many handles were issued otherwise than by a restore.
    pub(crate) fn handles_made(&self) -> u32
        ensures { result ≡ self.now.made }
    {
        self.table.made()
    }

    /// How many peers were made.
    pub(crate) fn made(&self) -> u32
        ensures { result ≡ length self.now.rows.heap.fields }
    {
        self.heap.made()
    }

    /// How many peers are live.
    pub(crate) fn live(&self) -> u32
        ensures { result + length self.now.rows.heap.freed ≡ length self.now.rows.heap.fields }
    {
        self.heap.live()
    }

    /// How many peers were freed.
    pub(crate) fn freed(&self) -> u32
        ensures { result ≡ length self.now.rows.heap.freed }
    {
        self.heap.made() - self.heap.live()
    }

    /// The peers that were freed, in the order of freeing.
    pub(crate) fn freed_list(&self) -> &[PNum]
        ensures { peer_numbers result.now ≡ self.now.rows.heap.freed }
    {
        self.heap.freed()
    }

    /// Gives up the peers for the list of those that were freed. It takes no memory.
    pub(crate) fn into_freed(self) -> Vec<PNum>
        ensures { peer_numbers result.items ≡ self.rows.heap.freed }
    {
        self.heap.into_freed()
    }

    /// The handles: what the replay has as the row of a handle is the row here, and a handle leads here where it leads
    /// in the replay.
    pub(crate) fn handles(&self) -> &HandleTable
        ensures rows { (h : ℕ) → row_of (with_rows opening_peer_replay self.now) h ≡ option_map row_as
            (row_in result.now.rows (record { 0 = h })) }
        ensures targets { (h : HNum) → table_target
            (with_rows opening_peer_replay self.now) h.0 ≡ number_of (target_in result.now.rows h) }
    {
        &self.table
    }

    // `copy V W` of a peer thread, by the places of its variables.
    fn copy(&mut self, v: usize, w: usize) -> Reply
        requires v { v < 72 }
        requires w { w < 72 }
        ensures answers { PeersAnswer self.old
            (on_peer_heap (peers_in self.old) (copied peer_name self.old.rows.heap v w)) result self.new }
        ensures marks { AreMarksSame self.old.rows self.new.rows }
        ensures tabled { self.new.tabled ≡ self.old.tabled }
    {
        let done = self.heap.copy(v, w);
        reply_of(done)
    }

    // `set V I W`. What it takes out of the field is shaded before.
    fn set(&mut self, v: usize, i: usize, w: Option<usize>, is_open: bool, grey: &mut u32) -> Reply
        requires v { v < 72 }
        requires w { ForSome w (λ place. place < 72) }
        ensures answers { PeersAnswer self.old
            (on_peer_heap (peers_in self.old) (field_set self.old.rows.heap v i w)) result self.new }
        ensures marks { MarksWritten is_open self.old.rows grey.old
            (overwritten self.old.rows.heap v i w) self.new.rows grey.new }
        ensures tabled { self.new.tabled ≡ self.old.tabled }
    {
        self.shade_field(v, i, w, is_open, grey);
        let done = self.heap.set(v, i, w);
        reply_of(done)
    }

    // Shades what `set V I W` is to take out of its field, if a marking is open.
    #[inline(always)]
    fn shade_field(&mut self, v: usize, i: usize, w: Option<usize>, is_open: bool, grey: &mut u32)
        requires v { v < 72 }
        requires w { ForSome w (λ place. place < 72) }
        ensures rest { self.new ≡ record self.old
            { rows = record self.old.rows { marks = self.new.rows.marks; links = self.new.rows.links } } }
        ensures shaded { Greyed (λ k. IsTrue is_open × (overwritten self.old.rows.heap v i w ≡ Some k))
            self.old.rows.marks self.old.rows.links grey.old self.new.rows.marks self.new.rows.links grey.new }
    {
        if !is_open {
            return;
        }
        match self.heap.overwritten(v, i, w) {
            None => {}
            Some(y) => visit(&mut self.heap, y, grey),
        }
    }

    // `get V W I`.
    fn get(&mut self, v: usize, w: usize, i: usize) -> Reply
        requires v { v < 72 }
        requires w { w < 72 }
        ensures answers { PeersAnswer self.old
            (on_peer_heap (peers_in self.old) (field_got peer_name self.old.rows.heap v w i)) result self.new }
        ensures marks { AreMarksSame self.old.rows self.new.rows }
        ensures tabled { self.new.tabled ≡ self.old.tabled }
    {
        let done = self.heap.get(v, w, i);
        reply_of(done)
    }

    // `drop V`.
    fn drop_var(&mut self, v: usize) -> Reply
        requires { v < 72 }
        ensures answers { PeersAnswer self.old
            (on_peer_heap (peers_in self.old) (dropped self.old.rows.heap v)) result self.new }
        ensures marks { AreMarksSame self.old.rows self.new.rows }
        ensures tabled { self.new.tabled ≡ self.old.tabled }
    {
        let done = self.heap.drop(v);
        reply_of(done)
    }

    // `load V x`.
    fn load(&mut self, v: usize, x: usize) -> Reply
        requires v { v < 72 }
        requires x { x < 16 }
        ensures answers { PeersAnswer self.old
            (on_peer_heap (peers_in self.old) (loaded peer_name self.old.rows.heap v x)) result self.new }
        ensures marks { AreMarksSame self.old.rows self.new.rows }
        ensures tabled { self.new.tabled ≡ self.old.tabled }
    {
        let done = self.heap.load(v, x);
        reply_of(done)
    }

    // `store x V`.
    fn store(&mut self, x: usize, v: Option<usize>) -> Reply
        requires x { x < 16 }
        requires v { ForSome v (λ place. place < 72) }
        ensures answers { PeersAnswer self.old
            (on_peer_heap (peers_in self.old) (stored self.old.rows.heap x v)) result self.new }
        ensures marks { AreMarksSame self.old.rows self.new.rows }
        ensures tabled { self.new.tabled ≡ self.old.tabled }
    {
        let done = self.heap.store(x, v);
        reply_of(done)
    }

    // Whether no further handle can be made; those that restores gave don't count.
    fn handles_full(&self) -> bool
        ensures { result ≡ handles_full (peers_in self.now) }
    {
        self.table.made() as usize >= MOST_HANDLES
    }

    // Whether no further peer can be made, or no further handle issued.
    #[inline(always)]
    fn pairs_full(&self) -> bool
        ensures full { result ≡ (is_full self.now.rows.heap.fields || handles_full (peers_in self.now)) }
        ensures left { result ≡ false → (length self.now.rows.heap.fields < 65535) × (self.now.made < 65535) }
    {
        self.heap.is_full() || self.handles_full()
    }

    // Issues a handle on a live peer. Answers `AllocError` where there is no memory; all is then as before.
    fn issue(&mut self, p: PNum, hold: Hold, strength: Strength) -> Result<HNum, AllocError>
        requires live { IsLive self.old.rows.heap p.0 }
        requires last { length self.old.issued < 4294967295 }
        ensures number { IfOk result (λ h. h.0 ≡ length self.old.issued + 1) }
        ensures issued { OnOk result (self.new ≡ issued_to self.old
            (record { peer = p; hold = hold; strength = strength })) }
        ensures err { OnErr result (self.new ≡ self.old) }
    {
        self.heap.recall_tidy();
        match self.table.make(p, hold, strength) {
            Ok(h) => {
                self.issued.push(Issue {
                    peer: p,
                    hold,
                    strength,
                });
                Ok(h)
            }
            Err(_) => Err(AllocError),
        }
    }

    // `new V F` of a peer thread.
    fn make_peer(&mut self, v: usize, fields: u8) -> Result<Reply, AllocError>
        requires { v < 72 }
        ensures answers { IfOk result (λ r. PeersAnswer self.old (peer_made (peers_in self.old) v fields) r self.new) }
        ensures marks { IfOk result (λ r. MarksNew self.old.rows r self.new.rows) }
        ensures tabled { self.new.tabled ≡ self.old.tabled }
        ensures err { OnErr result (self.new ≡ self.old) }
    {
        self.heap.recall_marks_len();
        if self.heap.is_full() {
            return Ok(Reply::Full);
        }
        let p = add_peer(&mut self.heap, &mut self.sorts, Sort::Framework, fields)?;
        self.heap.set_var(v, Some(p.0));
        Ok(Reply::P(p))
    }

    // The handle that a global name has.
    fn name(&self, g: usize) -> Option<u32>
        requires { g < 64 }
        ensures { slot self.now.names g ≡ result }
    {
        self.names[g]
    }

    // `global G V` and `wglobal G V`.
    fn give_name(&mut self, g: usize, v: usize, strength: Strength) -> Result<Reply, AllocError>
        requires g { g < 64 }
        requires v { v < 72 }
        requires last { length self.old.issued < 4294967295 }
        ensures answers { IfOk result (λ r. PeersAnswer self.old
            (globalised (peers_in self.old) g v (strength_as strength)) r self.new) }
        ensures marks { AreMarksSame self.old.rows self.new.rows }
        ensures tabled { self.new.tabled ≤ self.old.tabled + 1 }
        ensures err { OnErr result (self.new ≡ self.old) }
    {
        match self.heap.var(v) {
            None => Ok(Reply::Empty),
            Some(p) => self.name_peer(g, PNum(p), strength),
        }
    }

    // Gives a live peer a global name, unless that is given.
    fn name_peer(&mut self, g: usize, p: PNum, strength: Strength) -> Result<Reply, AllocError>
        requires g { g < 64 }
        requires live { IsLive self.old.rows.heap p.0 }
        requires last { length self.old.issued < 4294967295 }
        ensures answers { IfOk result (λ r. PeersAnswer self.old
            (name_given (peers_in self.old) g p.0 (strength_as strength) (slot self.old.names g)) r self.new) }
        ensures marks { AreMarksSame self.old.rows self.new.rows }
        ensures tabled { self.new.tabled ≤ self.old.tabled + 1 }
        ensures err { OnErr result (self.new ≡ self.old) }
    {
        match self.name(g) {
            Some(_) => Ok(Reply::Taken),
            None => {
                if self.handles_full() {
                    return Ok(Reply::Full);
                }
                let h = self.issue(p, Hold::Raw, strength)?;
                self.names[g] = Some(h.0);
                Ok(Reply::H(h))
            }
        }
    }

    // `make SORT F` of a managed thread: a peer, and a held strong handle on it. The room for the handle is taken
    // first.
    fn make_pair(&mut self, sort: Sort, fields: u8) -> Result<Reply, AllocError>
        requires { length self.old.issued < 4294967295 }
        ensures answers { IfOk result (λ r. PeersAnswer self.old
            (pair_made (peers_in self.old) sort fields) r self.new) }
        ensures marks { IfOk result (λ r. MarksNew self.old.rows r self.new.rows) }
        ensures tabled { self.new.tabled ≤ self.old.tabled + 1 }
        ensures err { OnErr result (self.new ≡ self.old) }
    {
        self.heap.recall_marks_len();
        if self.pairs_full() {
            return Ok(Reply::Full);
        }
        self.table.reserve(1)?;
        let p = add_peer(&mut self.heap, &mut self.sorts, sort, fields)?;
        let new = Issue {
            peer: p,
            hold: Hold::Held,
            strength: Strength::Strong,
        };
        let h = issue_reserved(&mut self.issued, &mut self.table, new);
        Ok(Reply::Made(p, h))
    }

    // `grip x` of a managed thread: a held strong handle on the static's peer.
    fn grip(&mut self, x: usize) -> Result<Reply, AllocError>
        requires x { x < 16 }
        requires last { length self.old.issued < 4294967295 }
        ensures answers { IfOk result (λ r. PeersAnswer self.old (gripped (peers_in self.old) x) r self.new) }
        ensures marks { AreMarksSame self.old.rows self.new.rows }
        ensures tabled { self.new.tabled ≤ self.old.tabled + 1 }
        ensures err { OnErr result (self.new ≡ self.old) }
    {
        match self.heap.static_at(x) {
            None => Ok(Reply::Null),
            Some(p) => {
                if self.handles_full() {
                    return Ok(Reply::Full);
                }
                let sort = self.sorts[p as usize - 1];
                let fields = self.heap.fields_len(p) as u8;
                let h = self.issue(PNum(p), Hold::Held, Strength::Strong)?;
                Ok(Reply::Gripped(PNum(p), h, sort, fields))
            }
        }
    }

    /// The peer that a handle leads to; None where it isn't in the table or is cleared.
    pub(crate) fn target(&self, h: HNum) -> Option<PNum>
        ensures { table_target (with_rows opening_peer_replay self.now) h.0 ≡ number_of result }
    {
        self.table.target(h)
    }

    /// Brings a peer back, if a marking is open: it is shaded, which is to say that it has a mark from now on, and is
    /// grey where it had none.
    #[inline(always)]
    pub(crate) fn bring_back(&mut self, p: PNum, is_open: bool, grey: &mut u32)
        requires live { IsLive self.old.rows.heap p.0 }
        ensures rest { self.new ≡ record self.old
            { rows = record self.old.rows { marks = self.new.rows.marks; links = self.new.rows.links } } }
        ensures shaded { Greyed (λ k. IsTrue is_open × (k ≡ p.0)) self.old.rows.marks
            self.old.rows.links grey.old self.new.rows.marks self.new.rows.links grey.new }
    {
        if !is_open {
            return;
        }
        visit(&mut self.heap, p.0, grey);
    }

    // `wread V G` of a peer thread: V names the peer that G's handle leads to.
    fn read_name(&mut self, v: usize, g: usize, is_open: bool, grey: &mut u32) -> Reply
        requires v { v < 72 }
        requires g { g < 64 }
        requires live { AreTargetsLive self.old }
        ensures answers { PeersAnswer self.old
            (name_read (table_target (with_rows opening_peer_replay self.old)) (peers_in self.old) v g)
            result self.new }
        ensures marks { MarksBrought is_open self.old.rows grey.old result self.new.rows grey.new }
        ensures tabled { self.new.tabled ≡ self.old.tabled }
    {
        match self.name(g) {
            None => Reply::Unset,
            Some(h) => self.read_handle(v, HNum(h), is_open, grey),
        }
    }

    // A variable names the peer that a handle leads to.
    fn read_handle(&mut self, v: usize, h: HNum, is_open: bool, grey: &mut u32) -> Reply
        requires v { v < 72 }
        requires live { AreTargetsLive self.old }
        ensures answers { PeersAnswer self.old
            (peer_read (peers_in self.old) v (table_target (with_rows opening_peer_replay self.old) h.0))
            result self.new }
        ensures marks { MarksBrought is_open self.old.rows grey.old result self.new.rows grey.new }
        ensures tabled { self.new.tabled ≡ self.old.tabled }
    {
        match self.target(h) {
            None => Reply::Gone,
            Some(p) => {
                self.bring_back(p, is_open, grey);
                self.heap.set_var(v, Some(p.0));
                Reply::P(p)
            }
        }
    }

    // `land h x` of a managed thread: the static holds the peer that the handle leads to.
    fn land(&mut self, h: HNum, x: usize, is_open: bool, grey: &mut u32) -> Reply
        requires x { x < 16 }
        requires live { AreTargetsLive self.old }
        ensures answers { PeersAnswer self.old
            (landed (peers_in self.old) x (table_target (with_rows opening_peer_replay self.old) h.0)) result self.new }
        ensures marks { MarksBrought is_open self.old.rows grey.old result self.new.rows grey.new }
        ensures tabled { self.new.tabled ≡ self.old.tabled }
    {
        match self.target(h) {
            None => Reply::Gone,
            Some(p) => {
                self.bring_back(p, is_open, grey);
                self.heap.set_static(x, Some(p.0));
                Reply::P(p)
            }
        }
    }

    // `unglobal G`: the name is free, and its handle leaves the table.
    fn free_name(&mut self, g: usize) -> Reply
        requires { g < 64 }
        ensures goes { (s : PeerReplay) → on_table (untabled (with_rows s self.old) (slot self.old.names g))
            (name_freed (peers_in self.old) g) ≡ answer result (with_rows s self.new) }
        ensures marks { AreMarksSame self.old.rows self.new.rows }
        ensures tabled { self.new.tabled ≤ self.old.tabled }
    {
        match self.name(g) {
            None => Reply::Unset,
            Some(h) => {
                self.remove(HNum(h));
                self.names[g] = None;
                Reply::Ok
            }
        }
    }

    /// Removes a handle from the table, if it is there.
    pub(crate) fn remove(&mut self, h: HNum)
        ensures rows { self.new ≡ record self.old
            { table = numbered_set self.old.table h.0 None; tabled = self.new.tabled } }
        ensures fewer { self.new.tabled ≤ self.old.tabled }
        ensures tabled { (row : TableRow) → numbered_at self.old.table h.0 ≡ Some (Some row)
            → self.new.tabled + 1 ≡ self.old.tabled }
    {
        let _ = self.table.release(h);
    }

    /// Makes one event of the definition: its reply and its change, without its entry. Answers `AllocError`, with
    /// nothing changed, where there is no memory; a release takes none. While a marking is open, what a name or a
    /// handle gave is shaded, and what a write takes out of a field.
    #[inline(always)]
    pub(crate) fn event(
        &mut self,
        caller: Thread,
        op: &Op,
        is_open: bool,
        grey: &mut u32,
    ) -> Result<Reply, AllocError>
        requires step { IsPeerStep caller op.now }
        requires tabled { ReleasesTabled self.old.table op.now }
        requires live { AreTargetsLive self.old }
        requires last { (IsRelease op.now → ⊥) → length self.old.issued < 4294967295 }
        ensures goes { IfOk result (λ r. GoesBy self.old caller op.now r self.new) }
        ensures marks { IfOk result (λ r. MarksAfter is_open caller
            self.old.rows grey.old op.now r self.new.rows grey.new) }
        ensures room { OnOk result (self.new.tabled + 1 ≤ room_for op.now self.old.tabled) }
        ensures release { IsRelease op.now → IsOk result }
        ensures err { OnErr result ((self.new ≡ self.old) × (grey.new ≡ grey.old)) }
    {
        match op {
            Op::Line(act) => self.line(caller, act, is_open, grey),
            Op::Make { sort, fields } => self.make_pair(*sort, *fields),
            Op::Grip { x } => self.grip(x.0 as usize),
            Op::Land { h, x } => Ok(self.land(*h, x.0 as usize, is_open, grey)),
            Op::Release { h } => {
                self.remove(*h);
                Ok(Reply::Ok)
            }
            _ => unreachable!(),
        }
    }

    // Makes the event of a peer thread's line.
    #[inline(always)]
    fn line(
        &mut self,
        caller: Thread,
        act: &Act,
        is_open: bool,
        grey: &mut u32,
    ) -> Result<Reply, AllocError>
        requires step { IsPeerStep caller (Op.Line act.now) }
        requires live { AreTargetsLive self.old }
        requires last { length self.old.issued < 4294967295 }
        ensures goes { IfOk result (λ r. GoesBy self.old caller (Op.Line act.now) r self.new) }
        ensures marks { IfOk result (λ r. MarksAfter is_open caller self.old.rows grey.old
            (Op.Line act.now) r self.new.rows grey.new) }
        ensures tabled { self.new.tabled ≤ self.old.tabled + 1 }
        ensures err { OnErr result ((self.new ≡ self.old) × (grey.new ≡ grey.old)) }
    {
        match act {
            Act::NewPeer { v, fields } => self.make_peer(place(caller, *v), *fields),
            Act::Copy { v, w } => Ok(self.copy(place(caller, *v), place(caller, *w))),
            Act::Set { v, i, w } => {
                let w = place_or_none(caller, *w);
                Ok(self.set(place(caller, *v), *i as usize, w, is_open, grey))
            }
            Act::Get { v, w, i } => {
                Ok(self.get(place(caller, *v), place(caller, *w), *i as usize))
            }
            Act::Drop { v } => Ok(self.drop_var(place(caller, *v))),
            Act::Load { v, x } => Ok(self.load(place(caller, *v), x.0 as usize)),
            Act::Store { x, v } => Ok(self.store(x.0 as usize, place_or_none(caller, *v))),
            Act::Global { g, v } => {
                self.give_name(g.0 as usize, place(caller, *v), Strength::Strong)
            }
            Act::WGlobal { g, v } => {
                self.give_name(g.0 as usize, place(caller, *v), Strength::Weak)
            }
            Act::UnGlobal { g } => Ok(self.free_name(g.0 as usize)),
            Act::WRead { v, g } => {
                Ok(self.read_name(place(caller, *v), g.0 as usize, is_open, grey))
            }
            _ => unreachable!(),
        }
    }
}

// Adds a peer of that sort with so many fields; it has a mark. Answers `AllocError` where there is no memory; all is
// then as before.
#[inline(always)]
fn add_peer(
    heap: &mut RowHeap<PNum>,
    sorts: &mut Vec<Sort>,
    sort: Sort,
    fields: u8,
) -> Result<PNum, AllocError>
    requires { length heap.old.heap.fields < 65535 }
    ensures number { IfOk result (λ p. p.0 ≡ next_number heap.old.heap) }
    ensures live { IfOk result (λ p. IsLive heap.new.heap p.0) }
    ensures heap { OnOk result (heap.new ≡ record heap.old {
      heap = with_object heap.old.heap fields;
      marks = heap.old.marks ++ true ∷ [];
      links = heap.old.links ++ 0 ∷ [];
    }) }
    ensures sorts { OnOk result (sorts.new.items ≡ sorts.old.items ++ sort ∷ []) }
    ensures err { OnErr result ((heap.new ≡ heap.old) × (sorts.new.items ≡ sorts.old.items)) }
{
    sorts.reserve(1)?;
    let p = heap.add_object(fields)?;
    sorts.push_reserved(sort);
    Ok(PNum(p))
}

// Issues a handle for which there is memory: it comes last, among those issued and in the table.
#[inline(always)]
fn issue_reserved(issued: &mut Issues, table: &mut HandleTable, new: Issue) -> HNum
    requires peer { new.peer.0 ≤ 65535 }
    requires left { table.old.made < 65535 }
    requires last { table.old.last < 4294967295 }
    requires memory { length issued.old < 4294967295 }
    requires room { 1 ≤ table.old.room }
    ensures number { result.0 ≡ table.old.last + 1 }
    ensures rows { table.new.rows ≡ table.old.rows ++ fresh_row result new.peer new.hold new.strength ∷ [] }
    ensures made { table.new.made ≡ table.old.made + 1 }
    ensures last { table.new.last ≡ table.old.last + 1 }
    ensures rising { IsRising table.new }
    ensures issued { issued.new ≡ issued.old ++ new ∷ [] }
{
    issued.push(new);
    match table.make(new.peer, new.hold, new.strength) {
        Ok(h) => h,
        Err(_) => unreachable!(),
    }
}

// The place of a thread's variable.
fn place(caller: Thread, v: Var) -> usize
    requires thread { IsPeerThread caller }
    requires var { IsVar v }
    ensures at { result ≡ place (thread_number caller) v.0 }
    ensures within { result < 72 }
{
    match caller {
        Thread::P(n) => 8 * n as usize + v.0 as usize,
        _ => unreachable!(),
    }
}

// The place of a thread's variable, where there is one.
fn place_or_none(caller: Thread, v: Option<Var>) -> Option<usize>
    requires thread { IsPeerThread caller }
    requires var { IsVarOrNone v }
    ensures at { result ≡ place_or_none (thread_number caller) v }
    ensures within { ForSome result (λ p. p < 72) }
{
    match v {
        None => None,
        Some(w) => Some(place(caller, w)),
    }
}

// The reply that an operation's answer stands for.
fn reply_of(done: Done) -> Reply
    ensures { result ≡ say peer_name done }
{
    match done {
        Done::Ok => Reply::Ok,
        Done::Empty => Reply::Empty,
        Done::Range => Reply::Range,
        Done::Null => Reply::Null,
        Done::Object(x) => Reply::P(PNum(x)),
    }
}
