// Entries of the peer side: made by its own calls, and compared.

ghost use Rattle.std.specs.Prelude.{◌≡◌, ◌≤◌, ◌↔◌, true, length, IfOk, IsTrue, Some};
ghost use Rattle.joint_machine.specs.Histories.{peer_numbers};
ghost use Rattle.joint_machine.specs.Lines.{is_peer_event};
ghost use Rattle.global_handles.specs.Rows.{back_of};
ghost use Rattle.peer_heap.specs.Cycles.{reply_of};
ghost use Rattle.run_check.specs.declared.cycles.OpenCycle.{OpenCycle};
ghost use Rattle.run_check.specs.Going.{HasBegun, HasGoneOn, HasPut};
ghost use Rattle.run_check.specs.Judging.{AnswersRightly, IsPeerStepped, IsReady};
ghost use Rattle.run_check.specs.Lists.{StandsInList};

use crate::replays::Replay;
use crate::replies::{is_same, peers_as_named};
use handle_weaken::{restore_one, weaken_one};
use joint_model::{Act, Cycle, HNum, History, Made, Op, Reply, Span, Thread};
use peer_heap::BeginFault;
use peer_mirror::{clear, install};
use std::alloc::AllocError;

impl Replay {
    /// Makes an entry of the peer side, and compares: whether it may answer so. Answers `AllocError` where there is no
    /// memory.
    pub(crate) fn peer_replies(&mut self, h: &History, made: &Made) -> Result<bool, AllocError>
        requires ready { IsReady h.now self.old made.now }
        requires peer { is_peer_event made.now.caller made.now.op ≡ true }
        ensures { IfOk result (λ right. AnswersRightly h.now made.now self.old self.new right) }
    {
        match made.op {
            Op::Mirror { cycle } => self.mirrors(h, made, cycle),
            Op::Weaken { h: handle } => Ok(self.weakens(h, made, handle)),
            Op::Restore { h: handle } => Ok(self.restores(h, made, handle)),
            Op::Clear { cycle } => Ok(self.clears(h, made, cycle)),
            Op::Begin => self.begins(h, made),
            Op::Sweep => self.sweeps(h, made),
            Op::Line(Act::Slice { n }) => self.slices(h, made, n),
            _ => self.peer_steps(h, made),
        }
    }

    // An event of a peer thread, or what a managed thread does with a handle.
    fn peer_steps(&mut self, h: &History, made: &Made) -> Result<bool, AllocError>
        requires ready { IsReady h.now self.old made.now }
        requires peer { is_peer_event made.now.caller made.now.op ≡ true }
        requires step { IsPeerStepped made.now.op }
        ensures { IfOk result (λ right. AnswersRightly h.now made.now self.old self.new right) }
    {
        let reply = self.peers.event(
            &mut self.draw,
            made.caller,
            made.index,
            &made.op,
            made.cites,
        )?;
        Ok(is_same(&made.reply, &reply))
    }

    fn slices(&mut self, h: &History, made: &Made, n: u32) -> Result<bool, AllocError>
        requires ready { IsReady h.now self.old made.now }
        requires peer { is_peer_event made.now.caller made.now.op ≡ true }
        requires op { made.now.op ≡ Op.Line (Act.Slice n) }
        ensures { IfOk result (λ right. AnswersRightly h.now made.now self.old self.new right) }
    {
        let reply = self
            .peers
            .thread_slice(&mut self.draw, made.caller, made.index, n)?;
        Ok(is_same(&made.reply, &reply))
    }

    fn weakens(&mut self, h: &History, made: &Made, handle: HNum) -> bool
        requires ready { IsReady h.now self.old made.now }
        requires op { made.now.op ≡ Op.Weaken handle }
        ensures { AnswersRightly h.now made.now self.old self.new result }
    {
        let Some(cites) = made.cites else {
            return false;
        };
        weaken_one(&mut self.peers, &mut self.draw, made.index, cites, handle);
        self.goes_on();
        is_same(&made.reply, &Reply::Ok)
    }

    fn restores(&mut self, h: &History, made: &Made, handle: HNum) -> bool
        requires ready { IsReady h.now self.old made.now }
        requires op { made.now.op ≡ Op.Restore handle }
        ensures { AnswersRightly h.now made.now self.old self.new result }
    {
        let back = restore_one(&mut self.peers, &mut self.draw, made.index, handle);
        let given = back.given();
        self.answers(given);
        is_same(&made.reply, &restored(given))
    }

    // The next candidate was weakened.
    fn goes_on(&mut self)
        ensures cycle { HasGoneOn self.old.cycle self.new.cycle }
        ensures rest { self.new ≡ record self.old { cycle = self.new.cycle } }
    {
        if let Some(open) = &mut self.cycle {
            open.go_on();
        }
    }

    // The next candidate was restored: its answer comes last.
    fn answers(&mut self, given: Option<HNum>)
        requires room { (o : OpenCycle) → self.old.cycle ≡ Some o → 1 ≤ o.alive.room }
        ensures cycle { HasPut self.old.cycle self.new.cycle given }
        ensures rest { self.new ≡ record self.old { cycle = self.new.cycle } }
    {
        if let Some(open) = &mut self.cycle {
            open.alive.push(given);
            open.go_on();
        }
    }

    // The first candidate is the next one.
    fn begins_again(&mut self)
        ensures cycle { HasBegun self.old.cycle self.new.cycle }
        ensures rest { self.new ≡ record self.old { cycle = self.new.cycle } }
    {
        if let Some(open) = &mut self.cycle {
            open.begin_again();
        }
    }

    fn mirrors(&mut self, h: &History, made: &Made, cycle: Cycle) -> Result<bool, AllocError>
        requires ready { IsReady h.now self.old made.now }
        requires op { made.now.op ≡ Op.Mirror cycle }
        ensures { IfOk result (λ right. AnswersRightly h.now made.now self.old self.new right) }
    {
        let (Some(open), Some(cites)) = (&self.cycle, made.cites) else {
            return Ok(false);
        };
        let Some(comps) = &open.comps else {
            return Ok(false);
        };
        let refs = install(
            &mut self.peers,
            &mut self.draw,
            made.index,
            cycle,
            cites,
            &open.graph,
            comps,
        )?;
        Ok(is_same(&made.reply, &Reply::Refs(refs)))
    }

    fn clears(&mut self, h: &History, made: &Made, cycle: Cycle) -> bool
        requires ready { IsReady h.now self.old made.now }
        requires op { made.now.op ≡ Op.Clear cycle }
        ensures { AnswersRightly h.now made.now self.old self.new result }
    {
        let Some(open) = &self.cycle else {
            return false;
        };
        if open.cycle.0 != cycle.0 {
            return false;
        }
        clear(&mut self.peers, &mut self.draw, made.index, cycle);
        self.begins_again();
        is_same(&made.reply, &Reply::Ok)
    }

    fn begins(&mut self, h: &History, made: &Made) -> Result<bool, AllocError>
        requires ready { IsReady h.now self.old made.now }
        requires op { made.now.op ≡ Op.Begin }
        ensures { IfOk result (λ right. AnswersRightly h.now made.now self.old self.new right) }
    {
        if let Thread::C = made.caller {
            return self.driver_begins(h, made);
        }
        self.thread_begins(h, made)
    }

    // The driver begins the cycle's own marking.
    fn driver_begins(&mut self, h: &History, made: &Made) -> Result<bool, AllocError>
        requires ready { IsReady h.now self.old made.now }
        requires op { made.now.op ≡ Op.Begin }
        requires driver { made.now.caller ≡ Thread.C }
        ensures { IfOk result (λ right. AnswersRightly h.now made.now self.old self.new right) }
    {
        let marking = match self
            .peers
            .mark_begin(&mut self.draw, made.caller, made.index)
        {
            Ok(marking) => marking,
            Err(BeginFault::OutOfMemory) => return Err(AllocError),
            Err(_) => return Ok(false),
        };
        self.begins_again();
        Ok(is_same(&made.reply, &Reply::Mark(marking)))
    }

    fn thread_begins(&mut self, h: &History, made: &Made) -> Result<bool, AllocError>
        requires ready { IsReady h.now self.old made.now }
        requires op { made.now.op ≡ Op.Begin }
        requires other { made.now.caller ≡ Thread.C → ⊥ }
        ensures { IfOk result (λ right. AnswersRightly h.now made.now self.old self.new right) }
    {
        let reply = self
            .peers
            .mark_step(&mut self.draw, made.caller, made.index, &made.op)?;
        Ok(is_same(&made.reply, &reply))
    }

    fn sweeps(&mut self, h: &History, made: &Made) -> Result<bool, AllocError>
        requires ready { IsReady h.now self.old made.now }
        requires op { made.now.op ≡ Op.Sweep }
        ensures { IfOk result (λ right. AnswersRightly h.now made.now self.old self.new right) }
    {
        if let Thread::C = made.caller {
            return Ok(self.driver_sweeps(h, made));
        }
        self.thread_sweeps(h, made)
    }

    // The driver ends a peer thread's marking, or the cycle's own.
    fn driver_sweeps(&mut self, h: &History, made: &Made) -> bool
        requires ready { IsReady h.now self.old made.now }
        requires op { made.now.op ≡ Op.Sweep }
        requires driver { made.now.caller ≡ Thread.C }
        ensures { AnswersRightly h.now made.now self.old self.new result }
    {
        let Ok(swept) = self.peers.sweep(&mut self.draw, made.caller, made.index) else {
            return false;
        };
        if !is_same(&made.reply, &Reply::Swept(swept.marking, swept.freed)) {
            return false;
        }
        self.peers_freed_so(h, swept.freed)
    }

    fn thread_sweeps(&mut self, h: &History, made: &Made) -> Result<bool, AllocError>
        requires ready { IsReady h.now self.old made.now }
        requires op { made.now.op ≡ Op.Sweep }
        requires other { made.now.caller ≡ Thread.C → ⊥ }
        ensures { IfOk result (λ right. AnswersRightly h.now made.now self.old self.new right) }
    {
        let reply = self
            .peers
            .mark_step(&mut self.draw, made.caller, made.index, &made.op)?;
        if !is_same(&made.reply, &reply) {
            return Ok(false);
        }
        match reply {
            Reply::Swept(_, span) => Ok(self.peers_freed_so(h, span)),
            _ => Ok(true),
        }
    }

    // Whether the peers that were freed from the place of a span on are the ones that the history has there.
    fn peers_freed_so(&self, h: &History, span: Span) -> bool
        requires { span.first ≤ length self.now.peers.state.peers.heap.freed }
        ensures { IsTrue result ↔ StandsInList
            (peer_numbers h.now.freed_peers) span self.now.peers.state.peers.heap.freed }
    {
        let _made = self.peers.made();
        let _live = self.peers.live();
        peers_as_named(h, self.peers.freed(), span)
    }
}

// What a restore answers that gave that handle, or none.
fn restored(given: Option<HNum>) -> Reply
    ensures { result ≡ reply_of (back_of given) }
{
    match given {
        None => Reply::Cleared,
        Some(g) => Reply::Renewed(g),
    }
}
