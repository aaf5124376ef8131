// The callers of a run, and what each does with its thread's lines.

ghost use Rattle.std.specs.Prelude.{◌≡◌, ◌≤◌, ◌<◌, false, true, [], IfOk, OnOk};
ghost use Rattle.joint_machine.specs.Lines.{IsThread};
ghost use Rattle.joint_machine.specs.declared.names.Phase.TheVariants.{Idle};
ghost use Rattle.joint_machine.specs.declared.names.Thread.TheVariants.{C};
ghost use Rattle.joint_history.specs.Callers.{KnowsNothing};
ghost use Rattle.joint_history.specs.Ending.{HasAll};
ghost use Rattle.joint_history.specs.Operations.{IsOwnThread};
ghost use Rattle.run_laws.specs.Threads.{thread_lines};
ghost use Rattle.script_runs.specs.Running.{CanRun, EndsSo, HasDriven, HasLine, HasRunLines, IsNewDriver};
ghost use Rattle.script_runs.specs.Stations.{AreCalled};

use crate::lines::{drive_left, drive_line, run_line_beside};
use crate::places::is_thread;
use bridge_cycle::Driver;
use bridge_script::Turnstile;
use joint_history::{Caller, Desk, Locks, Shared, thread_at};
use joint_model::{Act, Thread};
use order_table::OrderName;
use std::alloc::{AllocError, Global};
use std::sync::Wait;

// Whether the thread has a line.
fn has_line(script: &[(Thread, Act)], t: Thread) -> bool
    ensures some { result ≡ true → HasLine script.now t }
    ensures none { result ≡ false → thread_lines t script.now ≡ [] }
{
    for line in script {
        if is_thread(t, line.0) {
            return true;
        }
    }
    false
}

// The callers of `c`, first of all, and of each other thread that has a line come, in the order of their places.
fn call_workers<N: OrderName>(
    desk: &mut Desk<N>,
    script: &[(Thread, Act)],
    callers: &mut Vec<Caller<N>>,
) -> Result<(), AllocError>
    requires all { HasAll desk.old [] }
    requires counts { (desk.old.managed ≡ 8) × (desk.old.peers ≡ 8) }
    requires nobody { callers.old.items ≡ [] }
    ensures { OnOk result (AreCalled script.now desk.new callers.new.items) }
{
    let Some(driver) = desk.caller(Thread::C) else {
        unreachable!()
    };
    callers.push(driver)?;
    for place in 1..17_u8 {
        let thread = thread_at(place);
        if has_line(script, thread) {
            if let Some(caller) = desk.caller(thread) {
                callers.push(caller)?;
            }
        }
    }
    Ok(())
}

/// The callers of `c`, first of all, and of each other thread that has a line, in the order of their places. Answers
/// `AllocError` where there is no memory.
pub(crate) fn workers<N: OrderName>(
    alloc: Global,
    desk: &mut Desk<N>,
    script: &[(Thread, Act)],
) -> Result<Vec<Caller<N>>, AllocError>
    requires all { HasAll desk.old [] }
    requires counts { (desk.old.managed ≡ 8) × (desk.old.peers ≡ 8) }
    ensures { IfOk result (λ v. AreCalled script.now desk.new v.items) }
{
    let mut callers = Vec::new(alloc);
    match call_workers(desk, script, &mut callers) {
        Ok(()) => Ok(callers),
        Err(fault) => {
            drop(callers);
            Err(fault)
        }
    }
}

// Runs the lines of a thread that isn't the driver's, in their order, each after its turn.
fn run_own_lines<N: OrderName, T: Turnstile>(
    rt: &impl Wait,
    shared: &Shared<N, Locks>,
    script: &[(Thread, Act)],
    turn: &T,
    caller: &mut Caller<N>,
) -> Result<(), AllocError>
    requires thread { IsOwnThread caller.old.thread }
    requires new { KnowsNothing caller.old.view }
    requires lines { CanRun script.now }
    ensures { OnOk result (HasRunLines script.now caller.old.thread caller.new) }
{
    let thread = caller.thread();
    let mut number = 0;
    for (t, act) in script {
        number += 1;
        if is_thread(thread, *t) {
            turn.pass(thread, number);
            run_line_beside(rt, shared, caller, number, act)?;
        }
    }
    Ok(())
}

/// Runs the lines of the caller's thread, which isn't the driver's. Answers `AllocError` where there is no memory.
pub(crate) fn run_own<N: OrderName, T: Turnstile>(
    rt: &impl Wait,
    shared: &Shared<N, Locks>,
    script: &[(Thread, Act)],
    turn: &T,
    caller: Caller<N>,
) -> Result<Caller<N>, AllocError>
    requires thread { IsOwnThread caller.thread }
    requires new { KnowsNothing caller.view }
    requires lines { CanRun script.now }
    ensures { EndsSo script.now caller result }
{
    let mut caller = caller;
    match run_own_lines(rt, shared, script, turn, &mut caller) {
        Ok(()) => Ok(caller),
        Err(fault) => {
            drop(caller);
            Err(fault)
        }
    }
}

// Runs the driver's lines, in their order, each after its turn, and then the phases that they have left. Answers
// `AllocError` where there is no memory; a cycle that is open then is ended first, or abandoned. The driver is idle in
// either case, so that no other thread waits for the end of a cycle that has none.
fn drive_all<N: OrderName, T: Turnstile>(
    rt: &impl Wait,
    alloc: Global,
    shared: &Shared<N, Locks>,
    script: &[(Thread, Act)],
    turn: &T,
    driver: &mut Driver<N>,
) -> Result<(), AllocError>
    requires new { IsNewDriver driver.old }
    requires lines { CanRun script.now }
    ensures idle { driver.new.phase ≡ Idle }
    ensures ok { OnOk result (HasDriven script.now driver.new) }
{
    let mut last = 0;
    let mut number = 0;
    for (t, act) in script {
        number += 1;
        if is_thread(Thread::C, *t) {
            turn.pass(Thread::C, number);
            match drive_line(rt, alloc, shared, driver, number, act) {
                Ok(()) => last = number,
                Err(error) => {
                    let _ = drive_left(rt, alloc, shared, driver, number);
                    return Err(error);
                }
            }
        }
    }
    drive_left(rt, alloc, shared, driver, last)
}

/// Runs the lines of the driver's caller, and what they have left. Answers `AllocError` where there is no memory, once
/// the driver is idle.
pub(crate) fn run_driver<N: OrderName, T: Turnstile>(
    rt: &impl Wait,
    alloc: Global,
    shared: &Shared<N, Locks>,
    script: &[(Thread, Act)],
    turn: &T,
    caller: Caller<N>,
) -> Result<Caller<N>, AllocError>
    requires thread { caller.thread ≡ C }
    requires new { KnowsNothing caller.view }
    requires lines { CanRun script.now }
    ensures { EndsSo script.now caller result }
{
    let mut driver = Driver::new(caller);
    match drive_all(rt, alloc, shared, script, turn, &mut driver) {
        Ok(()) => Ok(driver.retire()),
        Err(fault) => {
            drop(driver);
            Err(fault)
        }
    }
}

/// Runs the lines of the caller's thread.
pub(crate) fn run_thread<N: OrderName, T: Turnstile>(
    rt: &impl Wait,
    alloc: Global,
    shared: &Shared<N, Locks>,
    script: &[(Thread, Act)],
    turn: &T,
    caller: Caller<N>,
) -> Result<Caller<N>, AllocError>
    requires thread { IsThread caller.thread }
    requires new { KnowsNothing caller.view }
    requires lines { CanRun script.now }
    ensures { EndsSo script.now caller result }
{
    if is_thread(Thread::C, caller.thread()) {
        return run_driver(rt, alloc, shared, script, turn, caller);
    }
    run_own(rt, shared, script, turn, caller)
}
