// Several phases, and the script lines of thread `c`.

ghost use Rattle.std.specs.Prelude.{◌≡◌, ◌≤◌, [], ◌∷◌, Err, IfErr, IfOk, None, OnErr, OnOk};
ghost use Rattle.joint_machine.specs.declared.lines.Act.TheVariants as act;
ghost use Rattle.joint_machine.specs.declared.names.Phase.TheVariants as at;
ghost use Rattle.joint_machine.specs.declared.names.PhaseWord.TheVariants as word;
ghost use Rattle.joint_machine.specs.declared.names.Thread.TheVariants.{C};
ghost use Rattle.joint_machine.specs.Lines.{IsLine};
ghost use Rattle.joint_machine.specs.Phases.{next_phase, phases_left, phases_of};
ghost use Rattle.bridge_cycle.specs.Progress.{EndsWithReply, BreaksLine, StopsForMemory, RunsWords, RunsLine, line_of};
ghost use Rattle.bridge_cycle.specs.Words.{next_word, to_come};

use crate::driver::{Driver, DriverFault};
use joint_history::{Keeps, Shared};
use joint_model::{Act, Phase, PhaseWord, Reply};
use order_table::OrderName;
use std::alloc::{AllocError, Global};
use std::sync::Wait;

// The phase after a word; None where the word is refused. But for `cycle` only the next phase's word isn't.
fn next_phase(phase: Phase, word: PhaseWord) -> Option<Phase>
    ensures next { result ≡ next_phase phase word }
    ensures due { ¬ (result ≡ None) → ¬ (word ≡ PhaseWord.Cycle) → word ≡ next_word phase }
{
    match (phase, word) {
        (Phase::Idle, PhaseWord::Cycle) => Some(Phase::Idle),
        (Phase::Idle, PhaseWord::Snap) => Some(Phase::Snapped),
        (Phase::Snapped, PhaseWord::Contract) => Some(Phase::Contracted),
        (Phase::Contracted, PhaseWord::Mirror) => Some(Phase::Mirrored),
        (Phase::Mirrored, PhaseWord::Weaken) => Some(Phase::Weakened),
        (Phase::Weakened, PhaseWord::Mark) => Some(Phase::Marked),
        (Phase::Marked, PhaseWord::Sweep) => Some(Phase::Swept),
        (Phase::Swept, PhaseWord::Restore) => Some(Phase::Restored),
        (Phase::Restored, PhaseWord::Resolve) => Some(Phase::Idle),
        _ => None,
    }
}

impl<N: OrderName> Driver<N> {
    // Runs the phases that are to come until the driver is idle again: those that are left of an open cycle, and all
    // eight where none is open.
    fn finish_cycle<K: Keeps<N>>(
        &mut self,
        rt: &impl Wait,
        alloc: Global,
        shared: &Shared<N, K>,
        index: u32,
    ) -> Result<Reply, AllocError>
        requires index { line_of self.old ≤ index }
        ensures index { line_of self.new ≤ index }
        ensures ok { IfOk result (λ reply. EndsWithReply self.old self.new index (to_come self.old.phase) reply) }
        ensures err { OnErr result (StopsForMemory self.old self.new index (to_come self.old.phase)) }
    {
        'phases: while self.phase() != Phase::Restored {
            self.advance(rt, alloc, shared, index)?;
        }
        self.advance(rt, alloc, shared, index)
    }

    // Makes the refusal of a word that is refused in the driver's phase.
    fn refuse<K: Keeps<N>>(
        &mut self,
        rt: &impl Wait,
        shared: &Shared<N, K>,
        index: u32,
        word: PhaseWord,
    ) -> Result<Reply, AllocError>
        requires refused { next_phase self.old.phase word ≡ None }
        requires index { line_of self.old ≤ index }
        ensures index { line_of self.new ≤ index }
        ensures ok { IfOk result (λ reply. RunsLine self.old self.new index (act.PhaseLine word) reply) }
        ensures err { OnErr result (RunsWords self.old self.new index []) }
    {
        let phase = self.phase();
        let (_, reply) = shared.refused(rt, &mut self.caller, index, word, phase)?;
        Ok(reply)
    }

    // Takes so many waiting notices, or all.
    fn take_notices<K: Keeps<N>>(
        &mut self,
        rt: &impl Wait,
        shared: &Shared<N, K>,
        index: u32,
        count: u32,
    ) -> Result<Reply, AllocError>
        requires count { (1 ≤ count) × (count ≤ 65535) }
        requires index { line_of self.old ≤ index }
        ensures index { line_of self.new ≤ index }
        ensures ok { IfOk result (λ reply. RunsLine self.old self.new index (act.Finalise count) reply) }
        ensures err { OnErr result (RunsWords self.old self.new index []) }
    {
        let (_, reply) = shared.finalise(rt, &mut self.caller, index, count)?;
        Ok(reply)
    }

    // Runs a line with a phase word.
    fn run_word<K: Keeps<N>>(
        &mut self,
        rt: &impl Wait,
        alloc: Global,
        shared: &Shared<N, K>,
        index: u32,
        word: PhaseWord,
    ) -> Result<Reply, AllocError>
        requires index { line_of self.old ≤ index }
        ensures index { line_of self.new ≤ index }
        ensures ok { IfOk result (λ reply. RunsLine self.old self.new index (act.PhaseLine word) reply) }
        ensures err { OnErr result (BreaksLine self.old self.new index (act.PhaseLine word)) }
    {
        if next_phase(self.phase(), word).is_none() {
            return self.refuse(rt, shared, index, word);
        }
        if word == PhaseWord::Cycle {
            return self.finish_cycle(rt, alloc, shared, index);
        }
        self.advance(rt, alloc, shared, index)
    }

    /// Runs all eight phases of a cycle. Answers `CycleOpen` exactly where the phase isn't `Idle`, and `OutOfMemory`
    /// where a phase found no memory, which is the snapshot, the contraction or the mirror. The entries of the phases
    /// before it stand then; after the snapshot's the cycle is abandoned, which frees nothing, and the phase is `Idle`.
    pub fn cycle<K: Keeps<N>>(
        &mut self,
        rt: &impl Wait,
        alloc: Global,
        shared: &Shared<N, K>,
        index: u32,
    ) -> Result<(), DriverFault>
        requires index { line_of self.old ≤ index }
        ensures index { line_of self.new ≤ index }
        ensures open { ¬ (self.old.phase ≡ at.Idle)
            → (result ≡ Err (DriverFault.CycleOpen self.old.cycle)) × (self.new ≡ self.old) }
        ensures idle { self.old.phase ≡ at.Idle → IfErr result (λ e. e ≡ DriverFault.OutOfMemory) }
        ensures ok { OnOk result (RunsWords self.old self.new index (phases_of word.Cycle)) }
        ensures err { self.old.phase ≡ at.Idle
            → OnErr result (StopsForMemory self.old self.new index (phases_of word.Cycle)) }
    {
        if self.phase() != Phase::Idle {
            return Err(DriverFault::CycleOpen { cycle: self.cycle });
        }
        match self.finish_cycle(rt, alloc, shared, index) {
            Ok(_) => Ok(()),
            Err(_) => Err(DriverFault::OutOfMemory),
        }
    }

    /// Runs a script line of thread `c`: a phase word, whose refusal is an entry too, or `finalise`. Answers the reply
    /// of the last entry that it made, or `Reply::Ok` where it made none. Answers `AllocError` where there is no
    /// memory: then no entry was made, or those of the line's phases before the one that found no memory; and where
    /// that one is the contraction or the mirror, the entry that abandons the cycle.
    pub fn line<K: Keeps<N>>(
        &mut self,
        rt: &impl Wait,
        alloc: Global,
        shared: &Shared<N, K>,
        index: u32,
        act: &Act,
    ) -> Result<Reply, AllocError>
        requires act { IsLine C act.now }
        requires index { line_of self.old ≤ index }
        ensures index { line_of self.new ≤ index }
        ensures ok { IfOk result (λ reply. RunsLine self.old self.new index act.now reply) }
        ensures err { OnErr result (BreaksLine self.old self.new index act.now) }
    {
        match *act {
            Act::PhaseLine { word } => self.run_word(rt, alloc, shared, index, word),
            Act::Finalise { n } => self.take_notices(rt, shared, index, n),
            _ => unreachable!(),
        }
    }

    /// Runs the phases that are left of an open cycle; where none is open it makes nothing. Answers `AllocError` where
    /// the contraction or the mirror found no memory; the phases before it stand then, and the cycle is abandoned. The
    /// phase is `Idle` in either case.
    pub fn end<K: Keeps<N>>(
        &mut self,
        rt: &impl Wait,
        alloc: Global,
        shared: &Shared<N, K>,
        index: u32,
    ) -> Result<(), AllocError>
        requires index { line_of self.old ≤ index }
        ensures index { line_of self.new ≤ index }
        ensures ok { OnOk result (RunsWords self.old self.new index (phases_left self.old.phase)) }
        ensures err { OnErr result (StopsForMemory self.old self.new index (phases_left self.old.phase)) }
    {
        if self.phase() == Phase::Idle {
            return Ok(());
        }
        self.finish_cycle(rt, alloc, shared, index)?;
        Ok(())
    }
}
