// The driver's mirror on a shared bridge.

ghost use Rattle.std.specs.Prelude.{◌≡◌, IfOk, OnErr};
ghost use Rattle.joint_machine.specs.Lines.{IsDriver};
ghost use Rattle.joint_history.specs.Driven.{DriverMakesNone};
ghost use Rattle.joint_history.specs.DriverMirrors.{MakesMirror, MayMirrorCycle};

use crate::callers::Caller;
use crate::keeping::Keeps;
use crate::mirrors::Mirroring;
use crate::shared::Shared;
use bridge_graph::DeadGraph;
use joint_model::Cycle;
use order_table::OrderName;
use std::alloc::AllocError;
use std::sync::Wait;
use xref_list::Components;

impl<N: OrderName, K: Keeps<N>> Shared<N, K> {
    /// The driver, which has contracted its cycle to these components of the graph of its dead part, mirrors it: the
    /// mirror edges come to stand as references between the peers, all at once. The cycle's snapshot is the entry with
    /// that number. Answers the entry's number, and how many references there are.
    ///
    /// All memory that the cycle wants on the peer side from here on is taken first. Answers `AllocError` where there
    /// is none: no entry is made then, and the cycle may be mirrored again or abandoned.
    pub fn mirror(
        &self,
        rt: &impl Wait,
        driver: &mut Caller<N>,
        index: u32,
        cycle: Cycle,
        snap: u64,
        graph: &DeadGraph,
        comps: &Components,
    ) -> Result<(u64, u32), AllocError>
        requires driver { IsDriver driver.old.thread }
        requires may { MayMirrorCycle driver.old.view index cycle.0 snap graph.now comps.now }
        ensures thread { driver.new.thread ≡ driver.old.thread }
        ensures ok { IfOk result (λ r. MakesMirror driver.old.view
            driver.new.view index cycle snap graph.now comps.now r.1 r.0) }
        ensures err { OnErr result (DriverMakesNone driver.old.view driver.new.view) }
    {
        let step = Mirroring {
            index,
            cycle,
            snap,
            graph,
            comps,
        };
        self.drive(&self.peers, rt, driver, step)
    }
}
