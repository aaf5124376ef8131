// The eight phases as calls: each runs where it is due, and elsewhere makes nothing.

ghost use Rattle.std.specs.Prelude.{◌≡◌, ◌≤◌, [], ◌∷◌, Err, IfErr, IsOk, OnErr, OnOk};
ghost use Rattle.joint_machine.specs.declared.names.Phase.TheVariants as at;
ghost use Rattle.joint_machine.specs.declared.names.PhaseWord.TheVariants as word;
ghost use Rattle.bridge_cycle.specs.Progress.{AbandonsCycle, GivesUp, RunsWords, TakesMemory, line_of};
ghost use Rattle.bridge_cycle.specs.Words.{next_word};

use crate::driver::{Driver, DriverFault};
use joint_history::{Keeps, Shared};
use joint_model::Phase;
use order_table::OrderName;
use std::alloc::Global;
use std::sync::Wait;

impl<N: OrderName> Driver<N> {
    // Runs the phase that is due in this one, or answers in which one the driver is. From the mirrored phase on there
    // is memory for it.
    fn run_due<K: Keeps<N>>(
        &mut self,
        rt: &impl Wait,
        alloc: Global,
        shared: &Shared<N, K>,
        index: u32,
        due: Phase,
    ) -> Result<(), DriverFault>
        requires index { line_of self.old ≤ index }
        ensures index { line_of self.new ≤ index }
        ensures wrong { ¬ (self.old.phase ≡ due)
            → (result ≡ Err (DriverFault.WrongPhase self.old.phase)) × (self.new ≡ self.old) }
        ensures due { self.old.phase ≡ due → IfErr result (λ e. e ≡ DriverFault.OutOfMemory) }
        ensures ok { OnOk result (RunsWords self.old self.new index (next_word due ∷ [])) }
        ensures err { self.old.phase ≡ due → OnErr result (GivesUp (next_word due) self.old self.new index) }
        ensures never { ¬ TakesMemory (next_word due)
            → (self.old.phase ≡ due → IsOk result) × OnErr result (self.new ≡ self.old) }
    {
        if self.phase() != due {
            return Err(DriverFault::WrongPhase { at: self.phase() });
        }
        match self.advance(rt, alloc, shared, index) {
            Ok(_) => Ok(()),
            Err(_) => Err(DriverFault::OutOfMemory),
        }
    }

    /// Takes a snapshot of the managed heap, which opens the next cycle. Answers `CycleOpen` exactly where the phase
    /// isn't `Idle`, and `OutOfMemory` where there is no memory; no entry is made then.
    pub fn snap<K: Keeps<N>>(
        &mut self,
        rt: &impl Wait,
        alloc: Global,
        shared: &Shared<N, K>,
        index: u32,
    ) -> Result<(), DriverFault>
        requires index { line_of self.old ≤ index }
        ensures index { line_of self.new ≤ index }
        ensures open { ¬ (self.old.phase ≡ at.Idle)
            → (result ≡ Err (DriverFault.CycleOpen self.old.cycle)) × (self.new ≡ self.old) }
        ensures idle { self.old.phase ≡ at.Idle → IfErr result (λ e. e ≡ DriverFault.OutOfMemory) }
        ensures ok { OnOk result (RunsWords self.old self.new index (word.Snap ∷ [])) }
        ensures err { OnErr result (RunsWords self.old self.new index []) }
    {
        if self.phase() != Phase::Idle {
            return Err(DriverFault::CycleOpen { cycle: self.cycle });
        }
        match self.advance(rt, alloc, shared, index) {
            Ok(_) => Ok(()),
            Err(_) => Err(DriverFault::OutOfMemory),
        }
    }

    /// Finds the components of the dead part, with no lock held, and makes the contraction's entry. Answers
    /// `WrongPhase` exactly where the phase isn't `Snapped`, and makes nothing then; and `OutOfMemory` where there is
    /// no memory: the cycle is abandoned then, which frees nothing, and the phase is `Idle`.
    pub fn contract<K: Keeps<N>>(
        &mut self,
        rt: &impl Wait,
        alloc: Global,
        shared: &Shared<N, K>,
        index: u32,
    ) -> Result<(), DriverFault>
        requires index { line_of self.old ≤ index }
        ensures index { line_of self.new ≤ index }
        ensures wrong { ¬ (self.old.phase ≡ at.Snapped)
            → (result ≡ Err (DriverFault.WrongPhase self.old.phase)) × (self.new ≡ self.old) }
        ensures due { self.old.phase ≡ at.Snapped → IfErr result (λ e. e ≡ DriverFault.OutOfMemory) }
        ensures ok { OnOk result (RunsWords self.old self.new index (word.Contract ∷ [])) }
        ensures err { self.old.phase ≡ at.Snapped → OnErr result (AbandonsCycle self.old self.new index) }
    {
        self.run_due(rt, alloc, shared, index, Phase::Snapped)
    }

    /// Adds the references that the components stand for between the peers, all at once. Answers `WrongPhase` exactly
    /// where the phase isn't `Contracted`, and makes nothing then; and `OutOfMemory` where there is no memory: the
    /// cycle is abandoned then, which frees nothing, and the phase is `Idle`.
    pub fn mirror<K: Keeps<N>>(
        &mut self,
        rt: &impl Wait,
        alloc: Global,
        shared: &Shared<N, K>,
        index: u32,
    ) -> Result<(), DriverFault>
        requires index { line_of self.old ≤ index }
        ensures index { line_of self.new ≤ index }
        ensures wrong { ¬ (self.old.phase ≡ at.Contracted)
            → (result ≡ Err (DriverFault.WrongPhase self.old.phase)) × (self.new ≡ self.old) }
        ensures due { self.old.phase ≡ at.Contracted → IfErr result (λ e. e ≡ DriverFault.OutOfMemory) }
        ensures ok { OnOk result (RunsWords self.old self.new index (word.Mirror ∷ [])) }
        ensures err { self.old.phase ≡ at.Contracted → OnErr result (AbandonsCycle self.old self.new index) }
    {
        self.run_due(rt, alloc, shared, index, Phase::Contracted)
    }

    /// Weakens the handle of each candidate, in rising managed number. Answers `WrongPhase` exactly where the phase
    /// isn't `Mirrored`.
    pub fn weaken<K: Keeps<N>>(
        &mut self,
        rt: &impl Wait,
        alloc: Global,
        shared: &Shared<N, K>,
        index: u32,
    ) -> Result<(), DriverFault>
        requires index { line_of self.old ≤ index }
        ensures index { line_of self.new ≤ index }
        ensures wrong { ¬ (self.old.phase ≡ at.Mirrored) → result ≡ Err (DriverFault.WrongPhase self.old.phase) }
        ensures due { self.old.phase ≡ at.Mirrored → IsOk result }
        ensures ok { OnOk result (RunsWords self.old self.new index (word.Weaken ∷ [])) }
        ensures err { OnErr result (self.new ≡ self.old) }
    {
        self.run_due(rt, alloc, shared, index, Phase::Mirrored)
    }

    /// Begins the cycle's own marking of the peer heap; one that a peer thread left open is ended first. Answers
    /// `WrongPhase` exactly where the phase isn't `Weakened`.
    pub fn mark<K: Keeps<N>>(
        &mut self,
        rt: &impl Wait,
        alloc: Global,
        shared: &Shared<N, K>,
        index: u32,
    ) -> Result<(), DriverFault>
        requires index { line_of self.old ≤ index }
        ensures index { line_of self.new ≤ index }
        ensures wrong { ¬ (self.old.phase ≡ at.Weakened) → result ≡ Err (DriverFault.WrongPhase self.old.phase) }
        ensures due { self.old.phase ≡ at.Weakened → IsOk result }
        ensures ok { OnOk result (RunsWords self.old self.new index (word.Mark ∷ [])) }
        ensures err { OnErr result (self.new ≡ self.old) }
    {
        self.run_due(rt, alloc, shared, index, Phase::Weakened)
    }

    /// Ends the cycle's own marking: the peers that nothing reaches are freed. Answers `WrongPhase` exactly where the
    /// phase isn't `Marked`.
    pub fn sweep<K: Keeps<N>>(
        &mut self,
        rt: &impl Wait,
        alloc: Global,
        shared: &Shared<N, K>,
        index: u32,
    ) -> Result<(), DriverFault>
        requires index { line_of self.old ≤ index }
        ensures index { line_of self.new ≤ index }
        ensures wrong { ¬ (self.old.phase ≡ at.Marked) → result ≡ Err (DriverFault.WrongPhase self.old.phase) }
        ensures due { self.old.phase ≡ at.Marked → IsOk result }
        ensures ok { OnOk result (RunsWords self.old self.new index (word.Sweep ∷ [])) }
        ensures err { OnErr result (self.new ≡ self.old) }
    {
        self.run_due(rt, alloc, shared, index, Phase::Marked)
    }

    /// Restores the handle of each candidate, in the same order, which tells whose peer is there, and clears the
    /// mirrored references. Answers `WrongPhase` exactly where the phase isn't `Swept`.
    pub fn restore<K: Keeps<N>>(
        &mut self,
        rt: &impl Wait,
        alloc: Global,
        shared: &Shared<N, K>,
        index: u32,
    ) -> Result<(), DriverFault>
        requires index { line_of self.old ≤ index }
        ensures index { line_of self.new ≤ index }
        ensures wrong { ¬ (self.old.phase ≡ at.Swept) → result ≡ Err (DriverFault.WrongPhase self.old.phase) }
        ensures due { self.old.phase ≡ at.Swept → IsOk result }
        ensures ok { OnOk result (RunsWords self.old self.new index (word.Restore ∷ [])) }
        ensures err { OnErr result (self.new ≡ self.old) }
    {
        self.run_due(rt, alloc, shared, index, Phase::Swept)
    }

    /// Closes the cycle: frees what no candidate leads to that is alive. Answers `WrongPhase` exactly where the phase
    /// isn't `Restored`.
    pub fn resolve<K: Keeps<N>>(
        &mut self,
        rt: &impl Wait,
        alloc: Global,
        shared: &Shared<N, K>,
        index: u32,
    ) -> Result<(), DriverFault>
        requires index { line_of self.old ≤ index }
        ensures index { line_of self.new ≤ index }
        ensures wrong { ¬ (self.old.phase ≡ at.Restored) → result ≡ Err (DriverFault.WrongPhase self.old.phase) }
        ensures due { self.old.phase ≡ at.Restored → IsOk result }
        ensures ok { OnOk result (RunsWords self.old self.new index (word.Resolve ∷ [])) }
        ensures err { OnErr result (self.new ≡ self.old) }
    {
        self.run_due(rt, alloc, shared, index, Phase::Restored)
    }
}
