// The phases over the candidates' handles: each handle is weakened, and later restored, under a hold of the peer lock
// of its own, so that peer threads run on between two of them. Neither phase takes memory.

ghost use Rattle.std.specs.Prelude.{◌≡◌, [], length};
ghost use Rattle.joint_machine.specs.Lines.{IsDriver};
ghost use Rattle.bridge_graph.specs.Handles.{handles_of};
ghost use Rattle.bridge_cycle.specs.Turns.{MayRestoreAll, MayWeakenAll, RestoresAll, WeakensAll};

use joint_history::{Caller, Keeps, Shared};
use joint_model::Alive;
use managed_heap::Opened;
use order_table::OrderName;
use std::sync::Wait;

/// Weakens the handle of each bridge node of the graph, in the order of the nodes.
pub(crate) fn weaken_all<N: OrderName, K: Keeps<N>>(
    rt: &impl Wait,
    shared: &Shared<N, K>,
    driver: &mut Caller<N>,
    index: u32,
    opened: &Opened,
)
    requires driver { IsDriver driver.old.thread }
    requires may { MayWeakenAll driver.old.view index opened.now.number opened.now.graph.nodes }
    ensures thread { driver.new.thread ≡ driver.old.thread }
    ensures weakens { WeakensAll driver.old.view driver.new.view index opened.now.number opened.now.graph.nodes
        (handles_of opened.now.graph.nodes) }
{
    for i in 0..opened.graph.nodes() {
        if let Some(h) = opened.graph.handle(i) {
            shared.weaken(rt, driver, index, opened.number, h);
        }
    }
}

/// Restores the handle of each bridge node of the graph, in the same order, and puts the handles that the restores gave
/// last in `alive`.
pub(crate) fn restore_all<N: OrderName, K: Keeps<N>>(
    rt: &impl Wait,
    shared: &Shared<N, K>,
    driver: &mut Caller<N>,
    index: u32,
    opened: &Opened,
    alive: &mut Alive,
)
    requires driver { IsDriver driver.old.thread }
    requires may { MayRestoreAll driver.old.view index opened.now.graph.nodes }
    requires none { alive.old.values ≡ [] }
    requires room { alive.old.room ≡ length (handles_of opened.now.graph.nodes) }
    ensures thread { driver.new.thread ≡ driver.old.thread }
    ensures restores { RestoresAll driver.old.view driver.new.view index opened.now.graph.nodes
        (handles_of opened.now.graph.nodes) alive.new.values }
{
    for i in 0..opened.graph.nodes() {
        if let Some(h) = opened.graph.handle(i) {
            let (_, back) = shared.restore(rt, driver, index, h);
            alive.push(back.given());
        }
    }
}
