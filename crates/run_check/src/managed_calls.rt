// Entries of the managed side: made by its own calls, and compared.

ghost use Rattle.std.specs.Prelude.{◌≡◌, ◌+◌, ◌<◌, ◌≤◌, ◌↔◌, false, length, IfOk, IsTrue, List, None, Option, Some};
ghost use Rattle.joint_machine.specs.Histories.{managed_numbers};
ghost use Rattle.joint_machine.specs.Lines.{is_peer_event, is_read};
ghost use Rattle.check_laws.specs.Laws.{IsNoRefusal};
ghost use Rattle.run_check.specs.declared.cycles.OpenCycle.{OpenCycle as KeptCycle};
ghost use Rattle.run_check.specs.Cells.{targets_after};
ghost use Rattle.run_check.specs.Judging.{AnswersRightly, IsReady, IsStepped};
ghost use Rattle.run_check.specs.Lists.{StandsInList};

use crate::cycles::{OpenCycle, forget, keep, list};
use crate::replays::Replay;
use crate::replies::{freed_as_named, is_same, taken_as_named};
use component_pass::contract;
use joint_model::{Act, Cell, Cycle, History, MNum, Made, Op, Reply, Span, Var};
use managed_heap::SnapFault;
use std::alloc::AllocError;
use xref_list::Components;

impl Replay {
    /// Makes an entry of the managed side, and compares: whether it may answer so. Answers `AllocError` where there is
    /// no memory.
    pub(crate) fn managed_replies(&mut self, h: &History, made: &Made) -> Result<bool, AllocError>
        requires ready { IsReady h.now self.old made.now }
        requires managed { is_peer_event made.now.caller made.now.op ≡ false }
        requires own { is_read made.now.op ≡ false }
        requires plain { IsNoRefusal made.now.op }
        ensures { IfOk result (λ right. AnswersRightly h.now made.now self.old self.new right) }
    {
        match made.op {
            Op::Line(Act::Weak { k, v }) => self.sets_cell(h, made, k, v),
            Op::Line(Act::Take { v }) => self.takes_pin(h, made, v),
            Op::Snap { cycle } => self.snaps(h, made, cycle),
            Op::Contract { cycle } => self.contracts(h, made, cycle),
            Op::Resolve { cycle } => Ok(self.resolves(h, made, cycle)),
            Op::Abandon { cycle } => Ok(self.abandons(h, made, cycle)),
            _ => self.steps(h, made),
        }
    }

    // An event of a managed thread, or the taking of notices.
    fn steps(&mut self, h: &History, made: &Made) -> Result<bool, AllocError>
        requires ready { IsReady h.now self.old made.now }
        requires managed { is_peer_event made.now.caller made.now.op ≡ false }
        requires own { is_read made.now.op ≡ false }
        requires step { IsStepped made.now.op }
        ensures { IfOk result (λ right. AnswersRightly h.now made.now self.old self.new right) }
    {
        let reply = self.managed.step(
            &mut self.draw,
            made.caller,
            made.index,
            &made.op,
            made.cites,
        )?;
        if !is_same(&reply, &made.reply) {
            return Ok(false);
        }
        match reply {
            Reply::Took(span) => Ok(taken_as_named(h, &self.managed, span)),
            _ => Ok(true),
        }
    }

    fn sets_cell(&mut self, h: &History, made: &Made, k: Cell, v: Var) -> Result<bool, AllocError>
        requires ready { IsReady h.now self.old made.now }
        requires op { made.now.op ≡ Op.Line (Act.Weak k v) }
        ensures { IfOk result (λ right. AnswersRightly h.now made.now self.old self.new right) }
    {
        let word = self.readers.word(k);
        let reply = self
            .managed
            .weak(&mut self.draw, made.caller, made.index, k, v, word)?;
        let target = self.draw.target();
        self.keep_target(k, reply, target);
        Ok(is_same(&reply, &made.reply))
    }

    // Keeps the target of a cell that a `weak` has set, if it answered ok.
    fn keep_target(&mut self, k: Cell, reply: Reply, target: Option<MNum>)
        requires { k.0 < 64 }
        ensures { self.new ≡ record self.old {
          readers = record self.old.readers
              { targets = targets_after self.old.readers.targets k.0 reply target };
        } }
    {
        if let (Reply::Ok, Some(target)) = (reply, target) {
            self.readers.set_target(k, target);
        }
    }

    fn takes_pin(&mut self, h: &History, made: &Made, v: Var) -> Result<bool, AllocError>
        requires ready { IsReady h.now self.old made.now }
        requires op { made.now.op ≡ Op.Line (Act.Take v) }
        ensures { IfOk result (λ right. AnswersRightly h.now made.now self.old self.new right) }
    {
        let pin = self.readers.pin(made.caller);
        let reply = self
            .managed
            .take(&mut self.draw, made.caller, made.index, v, pin)?;
        self.readers.set_pin(made.caller, None);
        Ok(is_same(&reply, &made.reply))
    }

    // Whether the cycle is the one that would be opened next.
    fn is_next(&self, cycle: Cycle) -> bool
        ensures { IsTrue result ↔ (cycle.0 ≡ self.now.managed.state.managed.cycles + 1) }
    {
        cycle.0 > 0 && cycle.0 - 1 == self.managed.cycles()
    }

    fn snaps(&mut self, h: &History, made: &Made, cycle: Cycle) -> Result<bool, AllocError>
        requires ready { IsReady h.now self.old made.now }
        requires op { made.now.op ≡ Op.Snap cycle }
        ensures { IfOk result (λ right. AnswersRightly h.now made.now self.old self.new right) }
    {
        if !self.is_next(cycle) {
            return Ok(false);
        }
        let pins = self.readers.pins();
        self.draw.give(pins);
        let opened = match self.managed.snap(&mut self.draw, made.index) {
            Ok(opened) => opened,
            Err(SnapFault::OutOfMemory) => return Err(AllocError),
            Err(_) => return Ok(false),
        };
        let span = opened.freed;
        let candidates = opened.candidates;
        self.readers.snapped();
        let open = OpenCycle::new(self.alloc, cycle, candidates, opened.graph)?;
        keep(&mut self.cycle, open);
        Ok(is_same(&made.reply, &Reply::Snapped(candidates, span)) && self.frees_as_named(h, span))
    }

    // Keeps the components of the open cycle.
    fn keep_listing(&mut self, comps: Components)
        ensures { (o : KeptCycle) → self.old.cycle ≡ Some o
            → self.new ≡ record self.old { cycle = Some (record o { comps = Some comps }) } }
    {
        if let Some(open) = &mut self.cycle {
            list(&mut open.comps, comps);
        }
    }

    fn contracts(&mut self, h: &History, made: &Made, cycle: Cycle) -> Result<bool, AllocError>
        requires ready { IsReady h.now self.old made.now }
        requires op { made.now.op ≡ Op.Contract cycle }
        ensures { IfOk result (λ right. AnswersRightly h.now made.now self.old self.new right) }
    {
        let Some(open) = &self.cycle else {
            return Ok(false);
        };
        if open.cycle.0 != cycle.0 {
            return Ok(false);
        }
        let Ok(comps) = contract(self.alloc, &open.graph) else {
            return Err(AllocError);
        };
        let (sccs, xrefs) = (comps.len(), comps.xrefs());
        self.managed
            .contracted(&mut self.draw, made.index, sccs, xrefs);
        self.keep_listing(comps);
        Ok(is_same(&made.reply, &Reply::Sccs(sccs, xrefs)))
    }

    fn resolves(&mut self, h: &History, made: &Made, cycle: Cycle) -> bool
        requires ready { IsReady h.now self.old made.now }
        requires op { made.now.op ≡ Op.Resolve cycle }
        ensures { AnswersRightly h.now made.now self.old self.new result }
    {
        let (Some(open), Some(cites)) = (&self.cycle, made.cites) else {
            return false;
        };
        if open.cycle.0 != cycle.0 {
            return false;
        }
        let out = self
            .managed
            .resolve(&mut self.draw, made.index, cites, &open.alive);
        forget(&mut self.cycle);
        is_same(&made.reply, &Reply::Freed(out.freed)) && self.frees_as_named(h, out.freed)
    }

    // Whether the objects that were freed, from the place of a span on, are the ones that the history names there.
    fn frees_as_named(&self, h: &History, span: Span) -> bool
        requires { span.first ≤ length self.now.managed.state.managed.heap.freed }
        ensures { IsTrue result ↔ StandsInList
            (managed_numbers h.now.freed_managed) span self.now.managed.state.managed.heap.freed }
    {
        let _made = self.managed.made();
        let _live = self.managed.live();
        freed_as_named(h, self.managed.freed(), span)
    }

    fn abandons(&mut self, h: &History, made: &Made, cycle: Cycle) -> bool
        requires ready { IsReady h.now self.old made.now }
        requires op { made.now.op ≡ Op.Abandon cycle }
        ensures { AnswersRightly h.now made.now self.old self.new result }
    {
        let Some(open) = &self.cycle else {
            return false;
        };
        if open.cycle.0 != cycle.0 {
            return false;
        }
        self.managed.abandon(&mut self.draw, made.index);
        forget(&mut self.cycle);
        is_same(&made.reply, &Reply::Ok)
    }
}
