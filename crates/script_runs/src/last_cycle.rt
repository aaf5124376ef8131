// The run of a script with one cycle more: the driver runs it once all threads have ended.

ghost use Rattle.std.specs.Prelude.{◌≡◌, ◌+◌, ◌<◌, ◌≤◌, ◌^◌, [], ◌∷◌, ◌++◌, IfOk, OnOk, All, length};
ghost use Rattle.joint_machine.specs.declared.names.Thread.{Thread};
ghost use Rattle.joint_machine.specs.Histories.{Finished};
ghost use Rattle.joint_machine.specs.Lines.{IsDriver, IsThread};
ghost use Rattle.known_laws.specs.Lists.{made_by};
ghost use Rattle.joint_history.specs.Callers.{KnowsNothing, last_index, own};
ghost use Rattle.joint_history.specs.Desks.{Waiting};
ghost use Rattle.joint_history.specs.Ending.{HasAll, HasIdleDriver, HasOwn, HasEndNumbers, IsFinished, StillWaits};
ghost use Rattle.order_table.specs.Allowed.{Settled};
ghost use Rattle.order_table.specs.Views.{OwnsAll};
ghost use Rattle.run_laws.specs.Final.{IsRunInOrder};
ghost use Rattle.run_laws.specs.LastCycle.{DrivesCycles, EndsWithCycle};
ghost use Rattle.run_laws.specs.WithCycle.{IsRunThenCycle, cycle_line};
ghost use Rattle.run_laws.specs.Threads.{NoneIsLeft};
ghost use Rattle.script_runs.specs.Running.{AreSame, CanRun, HaveRun, HearsAll};

use crate::lines::drive_line;
use crate::serial::end_serial;
use crate::threads::run_lines;
use bridge_cycle::Driver;
use bridge_script::Turnstile;
use joint_history::{Caller, Locks, RunEnd, Shared};
use joint_model::{Act, Holding, PhaseWord, Thread};
use order_table::{Order, OrderName, Seat};
use std::alloc::{AllocError, Global};
use std::marker::Brand;
use std::sync::Wait;
use std::thread::Threads;

// The line of a whole cycle.
const CYCLE: Act = Act::PhaseLine {
    word: PhaseWord::Cycle,
};

// The driver hears of all that the others have made.
fn hear_all<N: OrderName>(
    shared: &Shared<N, Locks>,
    driver: &mut Driver<N>,
    others: &mut Vec<Caller<N>>,
)
    ensures { HearsAll driver.old driver.new others.old.items others.new.items }
{
    for i in 0..others.len() {
        driver.hear(shared, &mut others[i]);
    }
}

// Runs a whole cycle, on a line of its own, by the driver's caller, which hears of all that the others have made
// before.
fn cycle_last<N: OrderName>(
    rt: &impl Wait,
    alloc: Global,
    shared: &Shared<N, Locks>,
    number: u32,
    driver: Caller<N>,
    others: &mut Vec<Caller<N>>,
) -> Result<Caller<N>, AllocError>
    requires driver { IsDriver driver.thread }
    requires idle { HasIdleDriver driver }
    requires number { last_index (own driver) ≤ number }
    ensures same { AreSame others.old.items others.new.items }
    ensures idle { IfOk result HasIdleDriver }
    ensures ends { IfOk result (λ after. EndsWithCycle number driver after others.new.items) }
{
    let mut driver = Driver::new(driver);
    hear_all(shared, &mut driver, others);
    match drive_line(rt, alloc, shared, &mut driver, number, &CYCLE) {
        Ok(()) => Ok(driver.retire()),
        Err(fault) => {
            drop(driver);
            Err(fault)
        }
    }
}

// Runs a cycle more by the callers that have run a script; the driver's is the last of them then.
fn run_cycle<N: OrderName>(
    rt: &impl Wait,
    alloc: Global,
    shared: &Shared<N, Locks>,
    script: &[(Thread, Act)],
    callers: &mut Vec<Caller<N>>,
) -> Result<(), AllocError>
    requires lines { CanRun script.now }
    requires room { length script.now < u32.MAX }
    requires ran { HaveRun script.now callers.old.items }
    ensures all { OnOk result ((d : Waiting) → HasAll d callers.old.items → HasAll d callers.new.items) }
    ensures idle { OnOk result (All HasIdleDriver callers.new.items) }
    ensures ran { OnOk result ((h : Finished) (d : Waiting) → HasAll d callers.old.items → NoneIsLeft script.now d
        → IsFinished h → length h.entries < 2 ^ 64 → All (HasOwn h.entries) callers.new.items
        → ((t : Thread) → IsThread t → StillWaits d t → made_by t h.entries ≡ []) → IsRunThenCycle script.now h) }
{
    let driver = callers.remove(0);
    let number = script.len() as u32 + 1;
    let driver = cycle_last(rt, alloc, shared, number, driver, callers)?;
    callers.push(driver)?;
    Ok(())
}

// Runs a script by the callers of one order, and a cycle more.
fn run_named<N: OrderName + Send + Sync, R: Threads + Wait + Sync, T: Turnstile + Sync>(
    rt: &R,
    alloc: Global,
    order: Order,
    seat: Seat,
    script: &[(Thread, Act)],
    turn: &T,
) -> Result<RunEnd, AllocError>
    requires order { order ≡ N.order }
    requires run { (N.managed ≡ 8) × (N.peers ≡ 8) }
    requires seat { (seat.order ≡ N.order) × OwnsAll seat.view × KnowsNothing seat.view × Settled seat.view }
    requires lines { CanRun script.now }
    requires room { length script.now < u32.MAX }
    ensures history { IfOk result (λ e. IsRunThenCycle script.now e.history) }
    ensures counted { IfOk result HasEndNumbers }
{
    let (shared, desk, mut callers) = run_lines::<N, R, T>(
        rt,
        alloc,
        order,
        seat,
        script,
        turn,
        Holding::Last,
    )?;
    match run_cycle(rt, alloc, &shared, script, &mut callers) {
        Ok(()) => Ok(shared.end(desk, callers)),
        Err(fault) => {
            drop(callers);
            drop(desk);
            drop(shared);
            Err(fault)
        }
    }
}

/// Runs the lines of each thread of a script in a thread of its own, as `run_threads` does; and once all of them have
/// ended the driver hears of what each has made and runs a whole cycle, on a line of its own behind the script's. No
/// entry is kept: the finished history is there for proofs alone, and the numbers of its last state are answered, or
/// `AllocError` where there is no memory.
pub fn run_threads_then_cycle<R: Threads + Wait + Sync, T: Turnstile + Sync>(
    rt: &R,
    alloc: Global,
    script: &[(Thread, Act)],
    turn: &T,
) -> Result<RunEnd, AllocError>
    requires lines { CanRun script.now }
    requires room { length script.now < u32.MAX }
    ensures history { IfOk result (λ e. IsRunThenCycle script.now e.history) }
    ensures counted { IfOk result HasEndNumbers }
{
    let (order, seat) = Order::new(alloc, 8)?;
    run_named::<Brand, R, T>(rt, alloc, order, seat, script, turn)
}

// The lines with that of a whole cycle behind them.
fn with_cycle(script: Vec<(Thread, Act)>) -> Result<Vec<(Thread, Act)>, AllocError>
    ensures { IfOk result (λ v. v.items ≡ script.items ++ cycle_line ∷ []) }
{
    let mut lines = script;
    lines.push((Thread::C, CYCLE))?;
    Ok(lines)
}

/// Runs the lines of a script one after another, as `run_serial` does, and then a whole cycle, on a line of its own,
/// which is put behind them. All lines of the driver are whole cycles too. No entry is kept: the finished history is
/// there for proofs alone, and the numbers of its last state are answered, or `AllocError` where there is no memory.
pub fn run_serial_then_cycle(
    rt: &impl Wait,
    alloc: Global,
    script: Vec<(Thread, Act)>,
) -> Result<RunEnd, AllocError>
    requires lines { CanRun script.items }
    requires cycles { DrivesCycles script.items }
    requires room { length script.items < u32.MAX }
    ensures in_order { IfOk result (λ e. IsRunInOrder (script.items ++ cycle_line ∷ []) e.history) }
    ensures history { IfOk result (λ e. IsRunThenCycle script.items e.history) }
    ensures counted { IfOk result HasEndNumbers }
{
    let lines = with_cycle(script)?;
    let ended = end_serial(rt, alloc, &lines);
    drop(lines);
    ended
}
