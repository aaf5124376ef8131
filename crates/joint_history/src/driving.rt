// The driver's calls on a shared bridge: each takes one lock, makes the driver's entries in one hold of it, and gives
// it back. What the driver knows goes with its caller, so a call is asked for where the driver stands, and answers
// where it stands then.

ghost use Rattle.std.specs.Prelude.{◌≡◌, ◌⊎◌, ◌≤◌, ℕ, IfErr, IfOk, OnErr, count_by, is_some};
ghost use Rattle.joint_machine.specs.Lines.{IsDriver};
ghost use Rattle.joint_model.specs.Listed.{answers_of};
ghost use Rattle.joint_history.specs.Driven.{DriverMakesNone, DriverRests, MakesAbandon, MakesContraction};
ghost use Rattle.joint_history.specs.Driven.{MakesFinalise, MakesRefusal, MakesResolution, MayAbandonCycle};
ghost use Rattle.joint_history.specs.Driven.{MayContractCycle, MayFinalise, MayRefuseWord, MayResolveCycle};
ghost use Rattle.joint_history.specs.DriverHandles.{MakesClear, MakesRestore, MakesWeaken, MayClearCycle};
ghost use Rattle.joint_history.specs.DriverHandles.{MayRestoreHandle, MayWeakenHandle};
ghost use Rattle.joint_history.specs.DriverMarks.{HasBegunMarking, MakesMark, MakesSweep, MayMarkCycle};
ghost use Rattle.joint_history.specs.DriverSnaps.{MakesSnapshot};
ghost use Rattle.joint_history.specs.Steps.{Fits};
ghost use Rattle.joint_machine.specs.declared.names.Thread.TheVariants.{C};
ghost use Rattle.order_table.specs.declared.views.View.{View};
ghost use Rattle.view_laws.specs.Knowing.{IsDrawnView};

use crate::callers::Caller;
use crate::driven::{Abandoning, Contraction, Finalising, Refusal, Resolution};
use crate::handles::{Clearing, Restoring, Weakening};
use crate::keeping::{Keep, Keeps};
use crate::marks::{Beginning, Begun, Blackening, Sweeping};
use crate::shared::Shared;
use crate::snaps::Snapping;
use crate::steps::{Locked, Sided, Step};
use global_handles::Back;
use joint_model::{Alive, Cycle, HNum, Phase, PhaseWord, Reply, Thread};
use managed_heap::{Opened, ResolveOut, SnapFault};
use order_table::OrderName;
use peer_heap::Swept;
use std::alloc::AllocError;
use std::sync::Wait;

impl<N: OrderName, K: Keeps<N>> Shared<N, K> {
    // Makes a step of a side for the driver, in one hold of the side's lock.
    pub(crate) fn drive<S: Sided, T: Step<On = S>>(
        &self,
        kept: &impl Keep<Locked<N, S>>,
        rt: &impl Wait,
        driver: &mut Caller<N>,
        step: T,
    ) -> T::Out
        requires driver { IsDriver driver.old.thread }
        requires fits { Fits S.line (S.knows N.managed N.peers) C driver.old.view
            (T.asks step) (T.drew step) (T.makes step) }
        requires knows { (w : View) (r : T.Out) → T.makes step driver.old.view w r → IsDrawnView w }
        ensures thread { driver.new.thread ≡ driver.old.thread }
        ensures makes { T.makes step driver.old.view driver.new.view result }
    {
        kept.hold(rt)
            .value()
            .make(&self.order, &mut driver.seat, Thread::C, step)
    }

    /// The driver makes the entry of its open cycle's contraction, which has so many components and cross-references.
    /// Answers the entry's number. It takes no memory.
    pub fn contracted(
        &self,
        rt: &impl Wait,
        driver: &mut Caller<N>,
        index: u32,
        sccs: u32,
        xrefs: u32,
    ) -> u64
        requires driver { IsDriver driver.old.thread }
        requires may { MayContractCycle driver.old.view index sccs xrefs }
        ensures thread { driver.new.thread ≡ driver.old.thread }
        ensures makes { MakesContraction driver.old.view driver.new.view index sccs xrefs result }
    {
        let step = Contraction { index, sccs, xrefs };
        self.drive(&self.managed, rt, driver, step)
    }

    /// The driver abandons its open cycle, which isn't mirrored yet: nothing is freed. Answers the entry's number. It
    /// takes no memory.
    pub fn abandon(&self, rt: &impl Wait, driver: &mut Caller<N>, index: u32) -> u64
        requires driver { IsDriver driver.old.thread }
        requires may { MayAbandonCycle driver.old.view index }
        ensures thread { driver.new.thread ≡ driver.old.thread }
        ensures makes { MakesAbandon driver.old.view driver.new.view index result }
    {
        self.drive(&self.managed, rt, driver, Abandoning { index })
    }

    /// The driver resolves its open cycle by the answers of its restores, one for each candidate; the entry cites that
    /// of the clear. Answers the entry's number, where the freed objects stand among all that were freed, and how many
    /// candidates were kept. It takes no memory.
    pub fn resolve(
        &self,
        rt: &impl Wait,
        driver: &mut Caller<N>,
        index: u32,
        clear: u64,
        alive: &Alive,
    ) -> (u64, ResolveOut)
        requires driver { IsDriver driver.old.thread }
        requires may { MayResolveCycle driver.old.view index clear (answers_of alive.now.values) }
        ensures thread { driver.new.thread ≡ driver.old.thread }
        ensures makes { MakesResolution driver.old.view driver.new.view index clear result.0
            (answers_of alive.now.values) result.1.freed }
        ensures kept { result.1.kept ≡ count_by is_some alive.now.values }
    {
        let step = Resolution {
            index,
            clear,
            alive,
        };
        self.drive(&self.managed, rt, driver, step)
    }

    /// The driver's phase word is refused in its phase; nothing else changes. Answers the entry's number and the reply.
    /// Answers `AllocError` where there is no memory, or where the entries would pass their limit: no entry is made
    /// then.
    pub fn refused(
        &self,
        rt: &impl Wait,
        driver: &mut Caller<N>,
        index: u32,
        word: PhaseWord,
        phase: Phase,
    ) -> Result<(u64, Reply), AllocError>
        requires driver { IsDriver driver.old.thread }
        requires may { MayRefuseWord driver.old.view index word phase }
        ensures thread { driver.new.thread ≡ driver.old.thread }
        ensures ok { IfOk result (λ r. MakesRefusal driver.old.view driver.new.view index r.0 word phase r.1) }
        ensures err { OnErr result (DriverMakesNone driver.old.view driver.new.view) }
    {
        let step = Refusal { index, word, phase };
        self.drive(&self.managed, rt, driver, step)
    }

    /// The driver takes so many waiting notices, or all where there are fewer. Answers the entry's number and the
    /// reply. Answers `AllocError` where there is no memory, or where the entries would pass their limit: no entry is
    /// made then.
    pub fn finalise(
        &self,
        rt: &impl Wait,
        driver: &mut Caller<N>,
        index: u32,
        count: u32,
    ) -> Result<(u64, Reply), AllocError>
        requires driver { IsDriver driver.old.thread }
        requires count { (1 ≤ count) × (count ≤ 65535) }
        requires may { MayFinalise driver.old.view index }
        ensures thread { driver.new.thread ≡ driver.old.thread }
        ensures ok { IfOk result (λ r. MakesFinalise driver.old.view driver.new.view index r.0 count r.1) }
        ensures err { OnErr result (DriverMakesNone driver.old.view driver.new.view) }
    {
        self.drive(&self.managed, rt, driver, Finalising { index, count })
    }

    // The driver tries once to take a snapshot. Answers `NotClosed` where readers are inside the gate: no entry is made
    // then.
    fn try_snap(
        &self,
        rt: &impl Wait,
        driver: &mut Caller<N>,
        index: u32,
    ) -> Result<Opened, SnapFault>
        requires driver { IsDriver driver.old.thread }
        requires may { DriverRests driver.old.view index }
        ensures thread { driver.new.thread ≡ driver.old.thread }
        ensures ok { IfOk result (λ o. MakesSnapshot driver.old.view driver.new.view index o) }
        ensures fault { IfErr result (λ e. (e ≡ SnapFault.OutOfMemory) ⊎ (e ≡ SnapFault.NotClosed)) }
        ensures err { OnErr result (DriverMakesNone driver.old.view driver.new.view) }
    {
        self.drive(&self.managed, rt, driver, Snapping { index })
    }

    /// The driver takes a snapshot and opens the next cycle, as soon as no reader is inside the gate: where some are,
    /// the lock is given back and all is tried again. Answers the cycle, its entry's number, and its dead part as a
    /// graph. Answers `OutOfMemory` where there is no memory, or no room for the entries that the cycle owes: no entry
    /// is made then, and the gate is as it was. It answers nothing else.
    pub fn snap(
        &self,
        rt: &impl Wait,
        driver: &mut Caller<N>,
        index: u32,
    ) -> Result<Opened, SnapFault>
        requires driver { IsDriver driver.old.thread }
        requires may { DriverRests driver.old.view index }
        ensures thread { driver.new.thread ≡ driver.old.thread }
        ensures ok { IfOk result (λ o. MakesSnapshot driver.old.view driver.new.view index o) }
        ensures fault { IfErr result (λ e. e ≡ SnapFault.OutOfMemory) }
        ensures err { OnErr result (DriverMakesNone driver.old.view driver.new.view) }
    {
        for _ in rt.forever() {
            match self.try_snap(rt, driver, index) {
                Err(SnapFault::NotClosed) => K::give_way(),
                tried => return tried,
            }
        }
        unreachable!()
    }

    /// The driver weakens the handle of the next candidate of its cycle, whose snapshot is the entry with that number.
    /// Answers the entry's number. It takes no memory, nor does any later call of the cycle.
    pub fn weaken(
        &self,
        rt: &impl Wait,
        driver: &mut Caller<N>,
        index: u32,
        snap: u64,
        h: HNum,
    ) -> u64
        requires driver { IsDriver driver.old.thread }
        requires may { MayWeakenHandle driver.old.view index snap h.0 }
        ensures thread { driver.new.thread ≡ driver.old.thread }
        ensures makes { MakesWeaken driver.old.view driver.new.view index snap h result }
    {
        self.drive(&self.peers, rt, driver, Weakening { index, snap, h })
    }

    /// The driver, which has weakened all handles of its cycle, begins the cycle's own marking; one that a peer thread
    /// left open is ended first, in the same hold of the peer lock, so the begin always gives a number. Answers that
    /// number and those of the entries. It takes no memory.
    pub fn mark(&self, rt: &impl Wait, driver: &mut Caller<N>, index: u32) -> Begun
        requires driver { IsDriver driver.old.thread }
        requires may { MayMarkCycle driver.old.view index }
        ensures thread { driver.new.thread ≡ driver.old.thread }
        ensures makes { MakesMark driver.old.view driver.new.view index result }
    {
        self.drive(&self.peers, rt, driver, Beginning { index })
    }

    // A slice of the driver's own marking, in one hold of the peer lock. Answers whether nothing is left to blacken.
    fn slice(&self, rt: &impl Wait, driver: &mut Caller<N>) -> bool
        requires driver { IsDriver driver.old.thread }
        requires may { (index : ℕ) × HasBegunMarking driver.old.view index }
        ensures thread { driver.new.thread ≡ driver.old.thread }
        ensures none { DriverMakesNone driver.old.view driver.new.view }
    {
        self.drive(&self.peers, rt, driver, Blackening)
    }

    // The driver's own marking goes on to its end, with the lock given back after each slice.
    fn mark_on(&self, rt: &impl Wait, driver: &mut Caller<N>)
        requires driver { IsDriver driver.old.thread }
        requires may { (index : ℕ) × HasBegunMarking driver.old.view index }
        ensures thread { driver.new.thread ≡ driver.old.thread }
        ensures none { DriverMakesNone driver.old.view driver.new.view }
    {
        for _ in rt.forever() {
            if self.slice(rt, driver) {
                return;
            }
            K::give_way();
        }
        unreachable!()
    }

    // The driver ends its cycle's own marking, whatever of it is left, in one hold of the peer lock.
    fn end_own(&self, rt: &impl Wait, driver: &mut Caller<N>, index: u32) -> (u64, Swept)
        requires driver { IsDriver driver.old.thread }
        requires may { HasBegunMarking driver.old.view index }
        ensures thread { driver.new.thread ≡ driver.old.thread }
        ensures makes { MakesSweep driver.old.view driver.new.view index result.0 result.1 }
    {
        self.drive(&self.peers, rt, driver, Sweeping { index })
    }

    /// The driver ends its cycle's own marking: the peers that it doesn't reach are freed. Most of it is marked in
    /// slices, with the peer lock given back after each, so no other thread waits for a whole marking. Answers the
    /// entry's number, the marking, and where the freed peers stand among all that were freed. It takes no memory.
    pub fn sweep(&self, rt: &impl Wait, driver: &mut Caller<N>, index: u32) -> (u64, Swept)
        requires driver { IsDriver driver.old.thread }
        requires may { HasBegunMarking driver.old.view index }
        ensures thread { driver.new.thread ≡ driver.old.thread }
        ensures makes { MakesSweep driver.old.view driver.new.view index result.0 result.1 }
    {
        self.mark_on(rt, driver);
        self.end_own(rt, driver, index)
    }

    /// The driver restores the handle of the next candidate of its cycle: it leaves the table, and a new strong one on
    /// its peer comes for it unless that was freed. Answers the entry's number and which. It takes no memory.
    pub fn restore(
        &self,
        rt: &impl Wait,
        driver: &mut Caller<N>,
        index: u32,
        h: HNum,
    ) -> (u64, Back)
        requires driver { IsDriver driver.old.thread }
        requires may { MayRestoreHandle driver.old.view index h.0 }
        ensures thread { driver.new.thread ≡ driver.old.thread }
        ensures makes { MakesRestore driver.old.view driver.new.view index h result.1 result.0 }
    {
        self.drive(&self.peers, rt, driver, Restoring { index, h })
    }

    /// The driver clears the references of its cycle, all of whose handles are restored: no reference is mirrored any
    /// more. Answers the entry's number, which the cycle's resolve cites. It takes no memory.
    pub fn clear(&self, rt: &impl Wait, driver: &mut Caller<N>, index: u32, cycle: Cycle) -> u64
        requires driver { IsDriver driver.old.thread }
        requires may { MayClearCycle driver.old.view index cycle.0 }
        ensures thread { driver.new.thread ≡ driver.old.thread }
        ensures makes { MakesClear driver.old.view driver.new.view index cycle result }
    {
        self.drive(&self.peers, rt, driver, Clearing { index, cycle })
    }
}
