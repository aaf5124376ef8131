// The run of a script by a thread of its own for each of its threads.

ghost use Rattle.std.specs.Prelude.{◌≡◌, ◌<◌, ℕ, map, All, IfOk, Ok, OnOk, [], slice_index_or, vec_len};
ghost use Rattle.joint_machine.specs.Lines.{IsThread};
ghost use Rattle.order_table.specs.Allowed.{Settled};
ghost use Rattle.order_table.specs.Views.{OwnsAll};
ghost use Rattle.joint_history.specs.Callers.{KnowsNothing};
ghost use Rattle.joint_history.specs.Ending.{HasAll};
ghost use Rattle.run_laws.specs.Final.{IsRunByThreads};
ghost use Rattle.run_laws.specs.Threads.{NoneIsLeft};
ghost use Rattle.script_runs.specs.Running.{CanRun, EndsSo, HaveRun};

use crate::workers::{run_thread, workers};
use bridge_script::Turnstile;
use joint_history::{Caller, Desk, Locks, Shared};
use joint_model::{Act, History, Holding, Thread};
use order_table::{Order, OrderName, Seat};
use std::alloc::{AllocError, Global};
use std::marker::Brand;
use std::sync::Wait;
use std::thread;
use std::thread::Threads;

// Puts the callers with which the threads ended into an empty list.
fn put_ended<N: OrderName>(
    callers: &mut Vec<Caller<N>>,
    ended: Vec<Result<Caller<N>, AllocError>>,
) -> Result<(), AllocError>
    requires { callers.old.items ≡ [] }
    ensures { OnOk result (map (λ p. Ok p) callers.new.items ≡ ended.items) }
{
    for end in ended {
        callers.push(end?)?;
    }
    Ok(())
}

// The callers with which the threads ended, or `AllocError` where one of them found no memory.
fn all_ended<N: OrderName>(
    alloc: Global,
    ended: Vec<Result<Caller<N>, AllocError>>,
) -> Result<Vec<Caller<N>>, AllocError>
    ensures { IfOk result (λ v. map (λ p. Ok p) v.items ≡ ended.items) }
{
    let mut callers = Vec::new(alloc);
    match put_ended(&mut callers, ended) {
        Ok(()) => Ok(callers),
        Err(fault) => {
            drop(callers);
            Err(fault)
        }
    }
}

// Runs each job's lines in a thread of its own; and answers with what each ended.
fn run_jobs<N: OrderName + Send + Sync, R: Threads + Wait + Sync, T: Turnstile + Sync>(
    rt: &R,
    alloc: Global,
    shared: &Shared<N, Locks>,
    script: &[(Thread, Act)],
    turn: &T,
    jobs: Vec<Caller<N>>,
) -> Result<Vec<Result<Caller<N>, AllocError>>, AllocError>
    requires lines { CanRun script.now }
    requires jobs { All (λ p. IsThread p.thread × KnowsNothing p.view) jobs.items }
    ensures len { IfOk result (λ v. vec_len v ≡ vec_len jobs) }
    ensures each { IfOk result (λ v. (i : ℕ) (d : _) (e : _) → i < vec_len jobs
        → EndsSo script.now (slice_index_or jobs.items i d) (slice_index_or v.items i e)) }
{
    thread::map_vec(
        rt,
        jobs,
        &|caller: Caller<N>| -> Result<Caller<N>, AllocError>
            requires { IsThread caller.thread × KnowsNothing caller.view × CanRun script.now }
            ensures { EndsSo script.entry.now caller result }
        { run_thread(rt, alloc, shared, script, turn, caller) },
    )
}

// Runs the lines of each thread in a thread of its own, by the callers of the desk, and answers those that were given
// out.
fn run_by_desk<N: OrderName + Send + Sync, R: Threads + Wait + Sync, T: Turnstile + Sync>(
    rt: &R,
    alloc: Global,
    shared: &Shared<N, Locks>,
    desk: &mut Desk<N>,
    script: &[(Thread, Act)],
    turn: &T,
) -> Result<Vec<Caller<N>>, AllocError>
    requires all { HasAll desk.old [] }
    requires counts { (desk.old.managed ≡ 8) × (desk.old.peers ≡ 8) }
    requires lines { CanRun script.now }
    ensures all { IfOk result (λ v. HasAll desk.new v.items) }
    ensures none { OnOk result (NoneIsLeft script.now desk.new) }
    ensures ran { IfOk result (λ v. HaveRun script.now v.items) }
{
    let jobs = workers(alloc, desk, script)?;
    let ended = run_jobs(rt, alloc, shared, script, turn, jobs)?;
    let callers = all_ended(alloc, ended)?;
    Ok(callers)
}

/// Runs the lines of each thread of a script in a thread of its own, by the callers of one order, and answers both
/// sides and the callers, of which each is given back or still at the desk. Answers `AllocError` where there is no memory,
/// after all jobs have ended.
pub(crate) fn run_lines<N: OrderName + Send + Sync, R: Threads + Wait + Sync, T: Turnstile + Sync>(
    rt: &R,
    alloc: Global,
    order: Order,
    seat: Seat,
    script: &[(Thread, Act)],
    turn: &T,
    holding: Holding,
) -> Result<(Shared<N, Locks>, Desk<N>, Vec<Caller<N>>), AllocError>
    requires order { order ≡ N.order }
    requires run { (N.managed ≡ 8) × (N.peers ≡ 8) }
    requires seat { (seat.order ≡ N.order) × OwnsAll seat.view × KnowsNothing seat.view × Settled seat.view }
    requires lines { CanRun script.now }
    ensures all { IfOk result (λ r. HasAll r.1 r.2.items) }
    ensures none { IfOk result (λ r. NoneIsLeft script.now r.1) }
    ensures ran { IfOk result (λ r. HaveRun script.now r.2.items) }
{
    let (shared, mut desk) = Shared::<N, Locks>::new(alloc, order, seat, 8, 8, holding)?;
    match run_by_desk(rt, alloc, &shared, &mut desk, script, turn) {
        Ok(callers) => Ok((shared, desk, callers)),
        Err(fault) => {
            drop(shared);
            Err(fault)
        }
    }
}

// Runs a script by the callers of one order, for its history. Its lists hold every entry, so memory alone can be
// wanting for that.
fn run_named<N: OrderName + Send + Sync, R: Threads + Wait + Sync, T: Turnstile + Sync>(
    rt: &R,
    alloc: Global,
    order: Order,
    seat: Seat,
    script: &[(Thread, Act)],
    turn: &T,
) -> Result<History, AllocError>
    requires order { order ≡ N.order }
    requires run { (N.managed ≡ 8) × (N.peers ≡ 8) }
    requires seat { (seat.order ≡ N.order) × OwnsAll seat.view × KnowsNothing seat.view × Settled seat.view }
    requires lines { CanRun script.now }
    ensures { IfOk result (IsRunByThreads script.now) }
{
    let (shared, desk, callers) = run_lines::<N, R, T>(
        rt,
        alloc,
        order,
        seat,
        script,
        turn,
        Holding::Every,
    )?;
    match shared.finish(desk, callers) {
        Ok(history) => Ok(history),
        Err(_) => Err(AllocError),
    }
}

/// Runs the lines of each thread of a script in a thread of its own, in their order and each after its turn, and then
/// the phases that the driver's lines have left; and answers the finished history. There is one job for the driver and
/// one for each other thread that has a line; where no thread can be made the jobs run one after another. Answers
/// `AllocError` where there is no memory, after all jobs have ended.
pub fn run_threads<R: Threads + Wait + Sync, T: Turnstile + Sync>(
    rt: &R,
    alloc: Global,
    script: &[(Thread, Act)],
    turn: &T,
) -> Result<History, AllocError>
    requires lines { CanRun script.now }
    ensures history { IfOk result (IsRunByThreads script.now) }
{
    let (order, seat) = Order::new(alloc, 8)?;
    run_named::<Brand, R, T>(rt, alloc, order, seat, script, turn)
}
