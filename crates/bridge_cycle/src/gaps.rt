// A cycle with gaps: between two of its phases somebody else has a turn. Other threads may come in there at any time;
// here they come at known places.

ghost use Rattle.std.specs.Prelude.{◌≡◌, ℕ, ◌+◌, ◌<◌, ◌≤◌, Err, IfErr, OnErr, OnOk};
ghost use Rattle.joint_machine.specs.declared.names.Phase.TheVariants as at;
ghost use Rattle.joint_machine.specs.declared.names.PhaseWord.TheVariants as word;
ghost use Rattle.joint_machine.specs.Phases.{phases_of};
ghost use Rattle.bridge_cycle.specs.Gaps.{IsInGap, StopsInGaps};
ghost use Rattle.bridge_cycle.specs.Progress.{RunsWords, line_of};

use crate::driver::{Driver, DriverFault};
use joint_history::{Keeps, Shared};
use joint_model::Phase;
use order_table::OrderName;
use std::alloc::Global;
use std::sync::Wait;

/// What is done in the gaps of a cycle, which has one after each of its phases but the last. Its meaning is how many
/// gaps it has had.
pub trait Gap<N: OrderName, K: Keeps<N>> {
    ghost count: { Self → ℕ };

    /// Does what is to be done in the next gap, by callers of its own: what entries they make is up to them. The driver
    /// is in the phase behind which the gap comes: the first one is `Snapped`, the seventh `Restored`.
    fn gap(&mut self, driver: &Driver<N>, shared: &Shared<N, K>)
        requires few { count self.old < 7 }
        requires phase { IsInGap (count self.old) driver.now.phase }
        ensures count { count self.new ≡ count self.old + 1 };
}

/// Runs all eight phases of a cycle, as [`Driver::cycle`] does, and after each but the last has `between` do what it
/// does in that gap. Answers `CycleOpen` exactly where the phase isn't `Idle`, and then no gap comes; and `OutOfMemory`
/// where a phase found no memory, which is the snapshot, the contraction or the mirror: the phases before it stand
/// then, each with its gap; after the snapshot's the cycle is abandoned, and the phase is `Idle`.
pub fn run_gap<N: OrderName, K: Keeps<N>, G: Gap<N, K>>(
    rt: &impl Wait,
    alloc: Global,
    driver: &mut Driver<N>,
    shared: &Shared<N, K>,
    index: u32,
    between: &mut G,
) -> Result<(), DriverFault>
    requires none { G.count between.old ≡ 0 }
    requires index { line_of driver.old ≤ index }
    ensures index { line_of driver.new ≤ index }
    ensures open { ¬ (driver.old.phase ≡ at.Idle) → (result ≡ Err (DriverFault.CycleOpen driver.old.cycle))
        × (driver.new ≡ driver.old) × (G.count between.new ≡ 0) }
    ensures idle { driver.old.phase ≡ at.Idle → IfErr result (λ e. e ≡ DriverFault.OutOfMemory) }
    ensures ok { OnOk result (RunsWords driver.old driver.new index (phases_of word.Cycle)) }
    ensures all { OnOk result (G.count between.new ≡ 7) }
    ensures err { driver.old.phase ≡ at.Idle
        → OnErr result (StopsInGaps driver.old driver.new index (phases_of word.Cycle) (G.count between.new)) }
{
    if driver.phase() != Phase::Idle {
        return Err(DriverFault::CycleOpen {
            cycle: driver.cycle,
        });
    }
    'phases: while driver.phase() != Phase::Restored {
        let Ok(_) = driver.advance(rt, alloc, shared, index) else {
            return Err(DriverFault::OutOfMemory);
        };
        between.gap(driver, shared);
    }
    match driver.advance(rt, alloc, shared, index) {
        Ok(_) => Ok(()),
        Err(_) => Err(DriverFault::OutOfMemory),
    }
}
