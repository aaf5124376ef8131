// One line of a thread, and the phases that the driver's lines have left.

ghost use Rattle.std.specs.Prelude.{◌≡◌, ◌≤◌, OnOk};
ghost use Rattle.joint_history.specs.Callers.{last_index, own};
ghost use Rattle.joint_history.specs.Operations.{IsOperationOf};
ghost use Rattle.joint_machine.specs.Lines.{IsLine, IsManagedThread};
ghost use Rattle.weak_wait.specs.Reads.{IsRead};
ghost use Rattle.joint_machine.specs.declared.names.Phase.TheVariants.{Idle};
ghost use Rattle.joint_machine.specs.declared.names.Thread.TheVariants.{C};
ghost use Rattle.bridge_cycle.specs.Progress.{line_of};
ghost use Rattle.script_runs.specs.declared.lines.ReadCall.TheVariants.{Now};
ghost use Rattle.script_runs.specs.Running.{AnswersLine, DrivesLeft, DrivesLine, WaitsLine, read_call};

use bridge_cycle::Driver;
use joint_history::{Alone, Caller, Keeps, Locks, Shared};
use joint_model::{Act, Thread};
use order_table::OrderName;
use std::alloc::{AllocError, Global};
use std::sync::Wait;

// How a line of a managed thread reads a cell beside other threads: at once, or by waiting. Each other line takes
// locks.
#[derive(Clone, Copy)]
enum ReadCall {
    Now,
    Waiting,
    Locked,
}

fn read_call(act: &Act) -> ReadCall
    ensures { result ≡ read_call act.now }
{
    match *act {
        Act::Read { k: _ } => ReadCall::Now,
        Act::Await { k: _ } => ReadCall::Waiting,
        _ => ReadCall::Locked,
    }
}

/// Runs a line of a thread that isn't the driver's, where one thread has both sides alone: the caller makes the line's
/// entries, and a read is answered by the managed list that it knows. Answers `AllocError` where there is no memory;
/// the caller may have made the first of them then.
#[inline(always)]
pub(crate) fn run_line_alone<N: OrderName>(
    rt: &impl Wait,
    shared: &Shared<N, Alone>,
    caller: &mut Caller<N>,
    index: u32,
    act: &Act,
) -> Result<(), AllocError>
    requires act { IsOperationOf caller.old.thread act.now }
    requires index { last_index (own caller.old) ≤ index }
    ensures thread { caller.new.thread ≡ caller.old.thread }
    ensures index { last_index (own caller.new) ≤ index }
    ensures ok { OnOk result (AnswersLine caller.old.thread caller.old.view caller.new.view index act.now) }
{
    match caller.thread() {
        Thread::M(_) => shared.managed(rt, caller, index, act)?,
        Thread::P(_) => shared.peer(rt, caller, index, act)?,
        Thread::C => unreachable!(),
    };
    Ok(())
}

// Reads a cell for a managed thread without a lock, at once.
fn read_at_once<N: OrderName>(
    shared: &Shared<N, Locks>,
    caller: &mut Caller<N>,
    index: u32,
    act: &Act,
) -> Result<(), AllocError>
    requires act { IsManagedThread caller.old.thread × IsRead act.now × IsOperationOf caller.old.thread act.now }
    requires call { read_call act.now ≡ Now }
    requires index { last_index (own caller.old) ≤ index }
    ensures thread { caller.new.thread ≡ caller.old.thread }
    ensures index { last_index (own caller.new) ≤ index }
    ensures ok { OnOk result (WaitsLine caller.old.thread caller.old.view caller.new.view index act.now) }
{
    shared.reserve(caller, 1)?;
    shared.read_now(caller, index, act);
    Ok(())
}

// Reads a cell for a managed thread without a lock, by waiting.
fn read_in_time<N: OrderName>(
    rt: &impl Wait,
    shared: &Shared<N, Locks>,
    caller: &mut Caller<N>,
    index: u32,
    act: &Act,
) -> Result<(), AllocError>
    requires act { IsManagedThread caller.old.thread × IsRead act.now × IsOperationOf caller.old.thread act.now }
    requires index { last_index (own caller.old) ≤ index }
    ensures thread { caller.new.thread ≡ caller.old.thread }
    ensures index { last_index (own caller.new) ≤ index }
    ensures ok { OnOk result (WaitsLine caller.old.thread caller.old.view caller.new.view index act.now) }
{
    shared.reserve(caller, 1)?;
    shared.read_wait(rt, caller, index, act);
    Ok(())
}

/// Runs a line of a thread that isn't the driver's beside other threads: the caller makes the line's entries. A managed
/// thread reads a cell without a lock, and no wait answers `pending`. Answers `AllocError` where there is no memory;
/// the caller may have made the first of the entries then.
#[inline(always)]
pub(crate) fn run_line_beside<N: OrderName>(
    rt: &impl Wait,
    shared: &Shared<N, Locks>,
    caller: &mut Caller<N>,
    index: u32,
    act: &Act,
) -> Result<(), AllocError>
    requires act { IsOperationOf caller.old.thread act.now }
    requires index { last_index (own caller.old) ≤ index }
    ensures thread { caller.new.thread ≡ caller.old.thread }
    ensures index { last_index (own caller.new) ≤ index }
    ensures ok { OnOk result (WaitsLine caller.old.thread caller.old.view caller.new.view index act.now) }
{
    match caller.thread() {
        Thread::M(_) => match read_call(act) {
            ReadCall::Now => return read_at_once(shared, caller, index, act),
            ReadCall::Waiting => return read_in_time(rt, shared, caller, index, act),
            ReadCall::Locked => shared.managed(rt, caller, index, act)?,
        },
        Thread::P(_) => shared.peer(rt, caller, index, act)?,
        Thread::C => unreachable!(),
    };
    Ok(())
}

/// Runs a line of the driver: it makes the line's entries, and stands where they lead. Answers `AllocError` where there
/// is no memory.
pub(crate) fn drive_line<N: OrderName, K: Keeps<N>>(
    rt: &impl Wait,
    alloc: Global,
    shared: &Shared<N, K>,
    driver: &mut Driver<N>,
    index: u32,
    act: &Act,
) -> Result<(), AllocError>
    requires act { IsLine C act.now }
    requires index { line_of driver.old ≤ index }
    ensures index { line_of driver.new ≤ index }
    ensures ok { OnOk result (DrivesLine driver.old driver.new index act.now) }
{
    driver.line(rt, alloc, shared, index, act)?;
    Ok(())
}

/// Makes the phases that are left of an open cycle, on the driver's last line. Answers `AllocError` where there is no
/// memory: the cycle is abandoned then. The driver is idle in either case, so that nobody waits for the end of a cycle
/// that has none.
pub(crate) fn drive_left<N: OrderName, K: Keeps<N>>(
    rt: &impl Wait,
    alloc: Global,
    shared: &Shared<N, K>,
    driver: &mut Driver<N>,
    last: u32,
) -> Result<(), AllocError>
    requires index { line_of driver.old ≤ last }
    ensures index { line_of driver.new ≤ last }
    ensures idle { driver.new.phase ≡ Idle }
    ensures ok { OnOk result (DrivesLeft driver.old driver.new last) }
{
    driver.end(rt, alloc, shared, last)
}
