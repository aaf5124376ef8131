// The driver and what it keeps.

ghost use Rattle.std.specs.Prelude.{◌≡◌, ◌↔◌, IfSome, IsNone};
ghost use Rattle.joint_machine.specs.Lines.{IsDriver};
ghost use Rattle.joint_machine.specs.declared.names.Phase.TheVariants.{Idle};
ghost use Rattle.joint_history.specs.Callers.{Hears, Tells};
ghost use Rattle.joint_history.specs.Ending.{HasIdleDriver};
ghost use Rattle.bridge_cycle.specs.OpenParts.{IsOpenPart};
ghost use Rattle.bridge_cycle.specs.Progress.{Progress, pass_of};

use crate::stages::Stage;
use bridge_graph::DeadGraph;
use joint_history::{Caller, Keeps, Shared};
use joint_model::{Cycle, Phase};
use order_table::OrderName;
use std::marker::Model;

/// The driver of the bridge: the caller of thread `c`, and its stage, with what it keeps of the open cycle. Contracts
/// see what it knows, its phase, and the number of the cycle that it opened last and of that cycle's candidates.
#[derive(Drop)]
pub struct Driver<N: OrderName> {
    pub(crate) caller: Caller<N>,
    pub(crate) stage: Stage,
    pub(crate) cycle: Cycle,
    pub(crate) candidates: u32,
}

impl<N: OrderName> Model for Driver<N> {
    ghost use Rattle.joint_machine.specs.Lines.{IsDriver};
    ghost use Rattle.bridge_cycle.specs.Held.{KnowsItsStand, shown};
    ghost use Rattle.bridge_cycle.specs.Progress.{Progress};

    ghost Value = { Progress };

    ghost view = { λ d. shown record {
      view = d.caller.view;
      stage = d.stage;
      cycle = d.cycle;
      candidates = d.candidates;
    } };

    ghost invariant = { λ d. IsDriver d.caller.thread
        × KnowsItsStand record { view = d.caller.view; stage = d.stage; cycle = d.cycle; candidates = d.candidates } };
}

/// Why a call of the driver made nothing of what it was asked for.
#[derive(Clone, Copy, PartialEq, Eq, Debug)]
pub enum DriverFault {
    /// There is no memory.
    OutOfMemory,
    /// A cycle is open: this one.
    CycleOpen { cycle: Cycle },
    /// It isn't the turn of that phase: the driver is in this one.
    WrongPhase { at: Phase },
}

impl<N: OrderName> Driver<N> {
    /// The driver, with the caller of thread `c`, which is idle.
    pub fn new(caller: Caller<N>) -> Driver<N>
        requires driver { IsDriver caller.thread }
        requires idle { HasIdleDriver caller }
        ensures { result ≡ record { view = caller.view; phase = Idle; cycle = record { 0 = 0 }; candidates = 0 } }
    {
        Driver {
            caller,
            stage: Stage::Idle,
            cycle: Cycle(0),
            candidates: 0,
        }
    }

    /// The phase that the driver has come to.
    pub fn phase(&self) -> Phase
        ensures { result ≡ self.now.phase }
    {
        self.stage.phase()
    }

    /// The graph of the open cycle's dead part, as the snapshot took it: the dead part is frozen until the cycle ends.
    /// None exactly where no cycle is open.
    pub fn graph(&self) -> Option<&DeadGraph>
        ensures idle { IsNone result ↔ (self.now.phase ≡ Idle) }
        ensures graph { IfSome result (λ g. IsOpenPart self.now.view self.now.cycle g.now) }
    {
        Some(&self.stage.opened()?.graph)
    }

    /// The number of the cycle that the driver opened last, or 0.
    pub fn cycle_number(&self) -> Cycle
        ensures { result ≡ self.now.cycle }
    {
        self.cycle
    }

    /// The driver's caller again. The driver is idle.
    pub fn retire(self) -> Caller<N>
        requires { self.phase ≡ Idle }
        ensures pass { result ≡ pass_of self }
        ensures idle { HasIdleDriver result }
    {
        self.caller.recall_facts();
        self.caller
    }

    /// The driver is told all that a caller knows. It makes no entry, changes nothing else of the driver, and takes no
    /// lock and no memory.
    pub fn hear<K: Keeps<N>>(&mut self, shared: &Shared<N, K>, from: &mut Caller<N>)
        ensures from { Tells from.old from.new }
        ensures hears { Hears from.old (pass_of self.old) (pass_of self.new) }
        ensures same { self.new ≡ record self.old { view = self.new.view } }
    {
        self.caller.recall_facts();
        shared.tell(from, &mut self.caller);
    }

    /// Tells a caller all that the driver knows. It makes no entry, changes nothing else of the driver, and takes no
    /// lock and no memory.
    pub fn tell<K: Keeps<N>>(&mut self, shared: &Shared<N, K>, to: &mut Caller<N>)
        ensures tells { Tells (pass_of self.old) (pass_of self.new) }
        ensures to { Hears (pass_of self.old) to.old to.new }
        ensures same { self.new ≡ record self.old { view = self.new.view } }
    {
        shared.tell(&mut self.caller, to);
    }
}
