// The calls for a mirrored cycle, each with its entry: references that wait come to stand, handles are made weak, and
// are restored, and the references go. The bridge's driver alone makes them.
//
// All memory is taken by `reserve_refs`, before; so no call here that makes an entry takes any.

ghost use Rattle.std.specs.Prelude.{◌≡◌, ◌+◌, ◌-◌, ◌*◌, ◌^◌, ◌≤◌, ◌++◌, ◌↔◌, [], ◌∷◌, None, Some, IsSome, Contains};
ghost use Rattle.std.specs.Prelude.{length, true, OnErr, OnOk};
ghost use Rattle.joint_machine.specs.Draws.{AllBelow, numbered};
ghost use Rattle.joint_machine.specs.declared.names.HNum.{HNum};
ghost use Rattle.joint_machine.specs.Peers.{next_handle};
ghost use Rattle.joint_machine.specs.PeerReplay.{MayClear, MayRestore, MayWeaken, Mirror, TableRow, row_of};
ghost use Rattle.joint_machine.specs.Sides.{peer_rules, DrawsLast, MayDraw};
ghost use Rattle.joint_machine.specs.Told.{nothing, references_of};
ghost use Rattle.peer_heap.specs.Cycles.{clears, mirrors, reply_of, reserve_left, reserve_more, reserve_over};
ghost use Rattle.peer_heap.specs.Cycles.{reserve_pushed, reserve_stood, restores, weakens};
ghost use Rattle.peer_heap.specs.Mirroring.{end_of};
ghost use Rattle.peer_heap.specs.Mirrors.{AreEndsStrong, AreTargetsRestored, MayStand, AreRestoredEndsLive};
ghost use Rattle.peer_heap.specs.Sides.{seen, AddsPeer};

use crate::mirroring::RefEnd;
use crate::side::{PeerSide, kept, take_room};
use global_handles::Back;
use joint_model::{Cycle, Draw, Entries, HNum, Made, Op, Reply, Thread, enter_handle};
use std::alloc::AllocError;

impl PeerSide {
    /// Takes room for so many more references that wait, whose temporaries have numbers below `temps`, and for all
    /// entries of a cycle over so many handles: its mirror, a weaken and a restore for each handle, the begin and the
    /// sweep of its own marking, and its clear. It stands beside the room that a mirrored cycle has still. Each call
    /// counts anew: what an earlier one took for references that do not wait yet, for temporaries and for the next
    /// cycle, counts no more.
    ///
    /// Answers `AllocError`, with the side as before, where there is no memory, for more than 1,073,741,824 handles or
    /// 4,294,901,760 temporaries, or where a list would pass 4,294,967,295.
    pub fn reserve_refs(&mut self, refs: u32, temps: u32, handles: u32) -> Result<(), AllocError>
        ensures ok { OnOk result (self.new ≡ record self.old
            { reserve = reserve_more self.old.reserve refs temps handles }) }
        ensures err { OnErr result (self.new ≡ self.old) }
    {
        let kept = kept(&self.rows, &self.marking, &self.mirroring);
        take_cycle(&mut self.entries, kept, handles)?;
        let all = self.mirroring.room_with(refs)?;
        self.rows.reserve_refs(all, temps)?;
        self.mirroring.reserve(refs, temps, handles)?;
        Ok(())
    }

    /// Adds a reference from a live peer or a temporary to another one, which waits until `stand`: no marking follows
    /// it, and it is in no state. A temporary is no peer: references alone lead to it and from it, and it goes with
    /// them. It takes no memory.
    pub fn push_ref(&mut self, from: RefEnd, to: RefEnd)
        requires room { 1 ≤ self.old.reserve.refs }
        requires closed { self.old.state.mirror ≡ None }
        requires from { MayStand self.old.state.peers.heap self.old.reserve.temps (end_of from) }
        requires to { MayStand self.old.state.peers.heap self.old.reserve.temps (end_of to) }
        ensures { self.new ≡ record self.old { reserve = reserve_pushed self.old.reserve (end_of from) (end_of to) } }
    {
        self.mirroring.push(from, to);
    }

    /// The references that wait come to stand all together, and the cycle is mirrored: one entry is drawn and put last,
    /// and their number is answered. Each peer that is an end of one has to be under a strong handle, so that no open
    /// marking frees it. A marking that is open doesn't follow them. It takes no memory.
    pub fn stand<D: Draw>(&mut self, draw: &mut D, index: u32, cycle: Cycle, cites: u64) -> u32
        requires reserved { IsSome self.old.reserve.next }
        requires closed { self.old.state.mirror ≡ None }
        requires once { Contains self.old.state.mirrors cycle.0 → ⊥ }
        requires strong_ends { AreEndsStrong self.old.state self.old.reserve.waiting }
        requires may { MayDraw peer_rules D.rules draw.old (seen self.old) Thread.C (Op.Mirror cycle) }
        ensures number { result ≡ length self.old.reserve.waiting }
        ensures adds { AddsPeer D.rules draw.old draw.new self.old self.new
            (mirrors index cycle result cites) (references_of self.old.reserve.waiting) }
        ensures reserve { self.new.reserve ≡ reserve_stood self.old.reserve }
    {
        let Some(handles) = self.mirroring.next() else {
            unreachable!();
        };
        let waiting = self.mirroring.waiting();
        let refs = waiting.len() as u32;
        self.rows.stand(waiting);
        let op = Op::Mirror { cycle };
        note(
            &mut self.entries,
            draw,
            index,
            op,
            Reply::Refs(refs),
            Some(cites),
        );
        let from = self.entries.len();
        self.mirroring.stand(cycle, cites, from, handles);
        refs
    }

    /// Makes a held strong handle weak, in the mirrored cycle: one entry is drawn and put last. It takes no memory.
    pub fn weaken<D: Draw>(&mut self, draw: &mut D, index: u32, cites: u64, h: HNum)
        requires left { 1 ≤ self.old.reserve.left }
        requires weakens { MayWeaken self.old.state h.0 (Some cites) }
        requires may { MayDraw peer_rules D.rules draw.old (seen self.old) Thread.C (Op.Weaken h) }
        ensures adds { AddsPeer D.rules draw.old draw.new self.old self.new (weakens index h cites) nothing }
        ensures reserve { self.new.reserve ≡ reserve_left self.old.reserve }
    {
        self.rows.weaken(h);
        let Some(mirror) = self.mirroring.mirror() else {
            unreachable!();
        };
        self.mirroring.set_mirror(Some(mirror.weakened()));
        note(
            &mut self.entries,
            draw,
            index,
            Op::Weaken { h },
            Reply::Ok,
            Some(cites),
        );
    }

    /// Restores a handle that was weakened in the mirrored cycle: it leaves the table. Exactly where it is cleared that
    /// is all, which is `Cleared`; else a held strong handle on its peer comes in its place, under the next number,
    /// which is `Alive` with the new handle, and the peer is brought back: while a marking is open it is shaded. One
    /// entry is drawn and put last. It takes no memory.
    pub fn restore<D: Draw>(&mut self, draw: &mut D, index: u32, h: HNum) -> Back
        requires restores { MayRestore self.old.state h.0 }
        requires may { MayDraw peer_rules D.rules draw.old (seen self.old) Thread.C (Op.Restore h) }
        ensures adds { AddsPeer D.rules draw.old draw.new self.old self.new (restores index h result) nothing }
        ensures cleared { (row : TableRow) → row_of self.old.state h.0 ≡ Some row
            → ((result ≡ Back.Cleared) ↔ (row.cleared ≡ true)) }
        ensures number { (g : HNum) → result ≡ Back.Alive g → g.0 ≡ next_handle self.old.state.peers }
        ensures reserve { self.new.reserve ≡ self.old.reserve }
    {
        let is_open = self.marking.is_some();
        let back = self.rows.restore(h, is_open, &mut self.grey);
        let Some(mirror) = self.mirroring.mirror() else {
            unreachable!();
        };
        self.mirroring.set_mirror(Some(mirror.restored()));
        note(
            &mut self.entries,
            draw,
            index,
            Op::Restore { h },
            reply_of(back),
            None,
        );
        back
    }

    /// Ends the mirrored cycle: no reference stands from then on, and no temporary. One entry is drawn and put last,
    /// and its number is answered. Each unfreed peer that a reference leads to, directly or over temporaries, has to be
    /// restored strong, and is shaded while a marking is open: so that misses nothing. It takes no memory.
    ///
    /// No reference led from a peer that is restored strong to a freed one: so none led to one whose restore answered
    /// `Cleared`.
    pub fn clear_refs<D: Draw>(&mut self, draw: &mut D, index: u32, cycle: Cycle) -> u64
        requires clears { MayClear self.old.state cycle.0 }
        requires targets { AreTargetsRestored self.old.state }
        requires may { MayDraw peer_rules D.rules draw.old (seen self.old) Thread.C (Op.Clear cycle) }
        ensures adds { AddsPeer D.rules draw.old draw.new self.old self.new (clears index cycle) nothing }
        ensures number { self.new.entries ≡ self.old.entries ++ numbered result (clears index cycle) ∷ [] }
        ensures none { self.new.state.refs ≡ [] }
        ensures kept { AreRestoredEndsLive self.old.state }
        ensures reserve { self.new.reserve ≡ reserve_over self.old.reserve }
    {
        let is_open = self.marking.is_some();
        self.rows.clear_refs(is_open, &mut self.grey);
        self.mirroring.set_mirror(None);
        note(
            &mut self.entries,
            draw,
            index,
            Op::Clear { cycle },
            Reply::Ok,
            None,
        )
    }

    /// How many references are mirrored.
    pub fn refs(&self) -> u32
        ensures { result ≡ length self.now.state.refs }
    {
        self.rows.refs() as u32
    }
}

// What a restore answers in its entry.
fn reply_of(back: Back) -> Reply
    ensures { result ≡ reply_of back }
{
    match back {
        Back::Alive { h } => Reply::Renewed(h),
        Back::Cleared => Reply::Cleared,
    }
}

// Takes room for all entries of a cycle over so many handles, beside those for which room is kept.
fn take_cycle(entries: &mut Entries, kept: u64, handles: u32) -> Result<(), AllocError>
    requires most { kept ≤ 2 ^ 42 }
    ensures room { OnOk result (kept + 2 * handles + 4 ≤ entries.new.spare) }
    ensures kept { entries.old.spare ≤ entries.new.spare }
    ensures entries { entries.new.entries ≡ entries.old.entries }
    ensures limit { OnOk result (length entries.new.entries + entries.new.spare ≤ u32.MAX) }
    ensures err { OnErr result (entries.new ≡ entries.old) }
{
    if handles > 1 << 30 {
        return Err(AllocError);
    }
    take_room(entries, kept, 2 * handles + 4)
}

// Draws and puts last an entry of the driver, and answers its number.
#[inline(always)]
fn note<D: Draw>(
    entries: &mut Entries,
    draw: &mut D,
    index: u32,
    op: Op,
    reply: Reply,
    cites: Option<u64>,
) -> u64
    requires spare { 1 ≤ entries.old.spare }
    requires below { AllBelow entries.old.entries (D.rules.floor draw.old) }
    requires room { u32.MAX ≤ D.rules.left draw.old + length entries.old.entries }
    requires may { D.rules.may draw.old Thread.C op None }
    ensures draws { DrawsLast D.rules draw.old draw.new entries.old.entries entries.new.entries
        (record { caller = Thread.C; index = index; op = op; reply = reply; cites = cites }) None [] }
    ensures number { entries.new.entries ≡ entries.old.entries ++ numbered result
        (record { caller = Thread.C; index = index; op = op; reply = reply; cites = cites }) ∷ [] }
    ensures spare { entries.new.spare + 1 ≡ entries.old.spare }
{
    let made = Made {
        caller: Thread::C,
        index,
        op,
        reply,
        cites,
    };
    enter_handle(entries, draw, made)
}
