// The run of a script on one thread: its lines one after another.

ghost use Rattle.std.specs.Prelude.{◌≡◌, ℕ, ◌+◌, ◌≤◌, ◌<◌, ◌^◌, false, [], ◌∷◌, ◌++◌, Some};
ghost use Rattle.std.specs.Prelude.{All, IfOk, OnOk, OnErr, length, slice_get};
ghost use Rattle.joint_machine.specs.Histories.{Finished};
ghost use Rattle.joint_machine.specs.PeerReplay.{is_thread};
ghost use Rattle.joint_machine.specs.declared.names.Phase.TheVariants.{Idle};
ghost use Rattle.joint_machine.specs.declared.names.Thread.TheVariants.{C};
ghost use Rattle.joint_machine.specs.LinkedHistories.{IsLinked};
ghost use Rattle.order_table.specs.Allowed.{Settled};
ghost use Rattle.order_table.specs.Views.{OwnsAll};
ghost use Rattle.joint_history.specs.Callers.{KnowsNothing, Pass, last_index, own};
ghost use Rattle.joint_history.specs.Desks.{AreAll};
ghost use Rattle.joint_history.specs.Ending.{BeginsHistory, HasAll, HasIdleDriver, HasOwn, HasEndNumbers, IsFinished};
ghost use Rattle.joint_history.specs.Operations.{IsOperationOf};
ghost use Rattle.bridge_cycle.specs.Progress.{line_of, pass_of};
ghost use Rattle.run_laws.specs.Final.{IsRunInOrder};
ghost use Rattle.run_laws.specs.Serial.{AreOthers};
ghost use Rattle.bridge_script.specs.Scripts.{IsScriptLine};
ghost use Rattle.script_runs.specs.Running.{AreUpTo, CanRun, HasComeThrough, TellsLine};
ghost use Rattle.script_runs.specs.Stations.{AreNewCallers, ComesTo, HasRunAll, RunsOther};

use crate::lines::{drive_left, drive_line, run_line_alone};
use crate::places::{is_thread, place_among};
use bridge_cycle::Driver;
use joint_history::{Alone, Caller, Desk, RunEnd, Shared, thread_at};
use joint_model::{Act, History, Holding, Thread};
use order_table::{Order, OrderName, Seat};
use std::alloc::{AllocError, Global};
use std::marker::Brand;
use std::sync::Wait;

/// Runs a line of a thread that isn't the driver's. The driver tells the thread's caller all that it knows, and hears
/// of what the caller made.
#[inline(always)]
pub(crate) fn run_told<N: OrderName>(
    rt: &impl Wait,
    shared: &Shared<N, Alone>,
    driver: &mut Driver<N>,
    caller: &mut Caller<N>,
    index: u32,
    act: &Act,
) -> Result<(), AllocError>
    requires act { IsOperationOf caller.old.thread act.now }
    requires index { last_index (own caller.old) ≤ index }
    ensures thread { caller.new.thread ≡ caller.old.thread }
    ensures index { last_index (own caller.new) ≤ index }
    ensures ok { OnOk result (TellsLine driver.old driver.new caller.old caller.new index act.now) }
{
    driver.tell(shared, caller);
    caller.recall_facts();
    let made = run_line_alone(rt, shared, caller, index, act);
    caller.recall_facts();
    driver.hear(shared, caller);
    made
}

/// Runs a line of a thread that isn't the driver's, by its caller among the others.
#[inline(always)]
pub(crate) fn run_other<N: OrderName>(
    rt: &impl Wait,
    shared: &Shared<N, Alone>,
    driver: &mut Driver<N>,
    others: &mut Vec<Caller<N>>,
    number: u32,
    line: &(Thread, Act),
) -> Result<(), AllocError>
    requires line { IsScriptLine line.now }
    requires other { is_thread C line.now.0 ≡ false }
    requires others { AreOthers others.old.items }
    requires up_to { AreUpTo number others.old.items }
    ensures { OnOk result (RunsOther number line.now.0 line.now.1
        driver.old driver.new others.old.items others.new.items) }
{
    let (thread, act) = line;
    run_told(
        rt,
        shared,
        driver,
        &mut others[place_among(*thread)],
        number,
        act,
    )
}

/// The callers of all threads but the driver's.
pub(crate) fn all_others<N: OrderName>(
    alloc: Global,
    desk: &mut Desk<N>,
) -> Result<Vec<Caller<N>>, AllocError>
    requires desk { (desk.old.managed ≡ 8) × (desk.old.peers ≡ 8) }
    requires all { (i : ℕ) → 1 ≤ i → i < 17 → (p : Pass) × (slice_get desk.old.callers i ≡ Some (Some p)) }
    ensures others { IfOk result (λ v. AreOthers v.items) }
    ensures new { IfOk result (λ v. (i : ℕ) (p : Pass) → slice_get v.items i ≡ Some p → KnowsNothing p.view) }
{
    let mut others = Vec::new(alloc);
    for place in 1..17_u8 {
        let Some(caller) = desk.caller(thread_at(place)) else {
            unreachable!()
        };
        others.push(caller)?;
    }
    Ok(others)
}

/// The driver and the callers of all other threads, none of which has made anything.
pub(crate) fn new_callers<N: OrderName>(
    alloc: Global,
    desk: &mut Desk<N>,
) -> Result<(Driver<N>, Vec<Caller<N>>), AllocError>
    requires desk { (desk.old.managed ≡ 8) × (desk.old.peers ≡ 8) × AreAll desk.old.callers }
    ensures { IfOk result (λ r. AreNewCallers r.0 r.1.items) }
{
    let Some(caller) = desk.caller(Thread::C) else {
        unreachable!()
    };
    match all_others(alloc, desk) {
        Ok(others) => Ok((Driver::new(caller), others)),
        Err(fault) => {
            drop(caller);
            Err(fault)
        }
    }
}

// Runs one line, and answers the number of the driver's last line.
#[inline(always)]
fn run_next<N: OrderName>(
    rt: &impl Wait,
    alloc: Global,
    shared: &Shared<N, Alone>,
    driver: &mut Driver<N>,
    others: &mut Vec<Caller<N>>,
    last: u32,
    number: u32,
    line: &(Thread, Act),
) -> Result<u32, AllocError>
    requires line { IsScriptLine line.now }
    requires others { AreOthers others.old.items }
    requires up_to { AreUpTo number others.old.items }
    requires driven { (line_of driver.old ≤ last) × (last ≤ number) }
    ensures { IfOk result (λ r. ComesTo number last r line.now
        driver.old driver.new others.old.items others.new.items) }
{
    let (thread, act) = line;
    if is_thread(Thread::C, *thread) {
        drive_line(rt, alloc, shared, driver, number, act)?;
        return Ok(number);
    }
    run_other(rt, shared, driver, others, number, line)?;
    Ok(last)
}

// Runs all lines, one after another, and answers the number of the driver's last line.
fn run_all<N: OrderName>(
    rt: &impl Wait,
    alloc: Global,
    shared: &Shared<N, Alone>,
    driver: &mut Driver<N>,
    others: &mut Vec<Caller<N>>,
    script: &[(Thread, Act)],
) -> Result<u32, AllocError>
    requires lines { CanRun script.now }
    requires new { AreNewCallers driver.old others.old.items }
    ensures { IfOk result (λ last. HasComeThrough script.now last driver.new others.new.items) }
{
    let mut last = 0;
    let mut number = 0;
    for line in script {
        number += 1;
        last = run_next(rt, alloc, shared, driver, others, last, number, line)?;
    }
    Ok(last)
}

// Runs all lines, and then the phases that the driver's have left.
fn run_script<N: OrderName>(
    rt: &impl Wait,
    alloc: Global,
    shared: &Shared<N, Alone>,
    driver: &mut Driver<N>,
    others: &mut Vec<Caller<N>>,
    script: &[(Thread, Act)],
) -> Result<(), AllocError>
    requires lines { CanRun script.now }
    requires new { AreNewCallers driver.old others.old.items }
    ensures { OnOk result (HasRunAll script.now driver.new others.new.items) }
{
    let last = run_all(rt, alloc, shared, driver, others, script)?;
    drive_left(rt, alloc, shared, driver, last)
}

/// All callers, once the driver is idle: its own is the last.
pub(crate) fn all_retired<N: OrderName>(
    driver: Driver<N>,
    others: Vec<Caller<N>>,
) -> Result<Vec<Caller<N>>, AllocError>
    requires { driver.phase ≡ Idle }
    ensures all { IfOk result (λ v. v.items ≡ others.items ++ pass_of driver ∷ []) }
    ensures idle { HasIdleDriver (pass_of driver) }
{
    let mut callers = others;
    callers.push(driver.retire())?;
    Ok(callers)
}

// Runs a script by the callers of the desk, and answers those that were given out.
fn run_by_desk<N: OrderName>(
    rt: &impl Wait,
    alloc: Global,
    shared: &Shared<N, Alone>,
    desk: &mut Desk<N>,
    script: &[(Thread, Act)],
) -> Result<Vec<Caller<N>>, AllocError>
    requires desk { (desk.old.managed ≡ 8) × (desk.old.peers ≡ 8) × AreAll desk.old.callers }
    requires lines { CanRun script.now }
    ensures all { IfOk result (λ v. HasAll desk.new v.items) }
    ensures idle { IfOk result (λ v. All HasIdleDriver v.items) }
    ensures ran { IfOk result (λ v. (h : Finished) → IsLinked h → IsFinished h → length h.entries < 2 ^ 64
        → All (HasOwn h.entries) v.items → All (BeginsHistory h.entries) v.items → IsRunInOrder script.now h) }
{
    let (mut driver, mut others) = new_callers(alloc, desk)?;
    match run_script(rt, alloc, shared, &mut driver, &mut others, script) {
        Ok(()) => all_retired(driver, others),
        Err(fault) => {
            drop(others);
            drop(driver);
            Err(fault)
        }
    }
}

// Runs a script by the callers of one order, and answers both sides and the callers, of which each is given back or
// still at the desk.
fn run_lines<N: OrderName>(
    rt: &impl Wait,
    alloc: Global,
    order: Order,
    seat: Seat,
    script: &[(Thread, Act)],
    holding: Holding,
) -> Result<(Shared<N, Alone>, Desk<N>, Vec<Caller<N>>), AllocError>
    requires order { order ≡ N.order }
    requires run { (N.managed ≡ 8) × (N.peers ≡ 8) }
    requires seat { (seat.order ≡ N.order) × OwnsAll seat.view × KnowsNothing seat.view × Settled seat.view }
    requires lines { CanRun script.now }
    ensures all { IfOk result (λ r. HasAll r.1 r.2.items) }
    ensures idle { IfOk result (λ r. All HasIdleDriver r.2.items) }
    ensures ran { IfOk result (λ r. (h : Finished) → IsLinked h → IsFinished h → length h.entries < 2 ^ 64
        → All (HasOwn h.entries) r.2.items → All (BeginsHistory h.entries) r.2.items → IsRunInOrder script.now h) }
{
    let (shared, mut desk) = Shared::<N, Alone>::new(alloc, order, seat, 8, 8, holding)?;
    match run_by_desk(rt, alloc, &shared, &mut desk, script) {
        Ok(callers) => Ok((shared, desk, callers)),
        Err(fault) => {
            drop(shared);
            Err(fault)
        }
    }
}

// Runs a script by the callers of one order, for its history. Its lists hold every entry, so memory alone can be
// wanting for that.
fn run_named<N: OrderName>(
    rt: &impl Wait,
    alloc: Global,
    order: Order,
    seat: Seat,
    script: &[(Thread, Act)],
) -> Result<History, AllocError>
    requires order { order ≡ N.order }
    requires run { (N.managed ≡ 8) × (N.peers ≡ 8) }
    requires seat { (seat.order ≡ N.order) × OwnsAll seat.view × KnowsNothing seat.view × Settled seat.view }
    requires lines { CanRun script.now }
    ensures { IfOk result (IsRunInOrder script.now) }
{
    let (shared, desk, callers) = run_lines::<N>(rt, alloc, order, seat, script, Holding::Every)?;
    match shared.finish(desk, callers) {
        Ok(history) => Ok(history),
        Err(_) => Err(AllocError),
    }
}

// The same for its numbers.
fn end_named<N: OrderName>(
    rt: &impl Wait,
    alloc: Global,
    order: Order,
    seat: Seat,
    script: &[(Thread, Act)],
) -> Result<RunEnd, AllocError>
    requires order { order ≡ N.order }
    requires run { (N.managed ≡ 8) × (N.peers ≡ 8) }
    requires seat { (seat.order ≡ N.order) × OwnsAll seat.view × KnowsNothing seat.view × Settled seat.view }
    requires lines { CanRun script.now }
    ensures history { IfOk result (λ e. IsRunInOrder script.now e.history) }
    ensures counted { IfOk result HasEndNumbers }
{
    let (shared, desk, callers) = run_lines::<N>(rt, alloc, order, seat, script, Holding::Last)?;
    Ok(shared.end(desk, callers))
}

/// Runs the lines of a script one after another, each by its thread's caller, and then the phases that the driver's
/// lines have left; and answers the finished history, in which each read has the one machine's reply: the only one that
/// a run of these lines in their order can have so. Answers `AllocError` where there is no memory.
pub fn run_serial(
    rt: &impl Wait,
    alloc: Global,
    script: &[(Thread, Act)],
) -> Result<History, AllocError>
    requires lines { CanRun script.now }
    ensures history { IfOk result (IsRunInOrder script.now) }
{
    let (order, seat) = Order::new(alloc, 8)?;
    run_named::<Brand>(rt, alloc, order, seat, script)
}

/// The same of a run of which no entry is read: its history is there for proofs alone, and the numbers of its last
/// state are answered.
pub(crate) fn end_serial(
    rt: &impl Wait,
    alloc: Global,
    script: &[(Thread, Act)],
) -> Result<RunEnd, AllocError>
    requires lines { CanRun script.now }
    ensures history { IfOk result (λ e. IsRunInOrder script.now e.history) }
    ensures counted { IfOk result HasEndNumbers }
{
    let (order, seat) = Order::new(alloc, 8)?;
    end_named::<Brand>(rt, alloc, order, seat, script)
}
