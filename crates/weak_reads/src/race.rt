// A race: threads read a weak cell while the bridge runs cycles and other threads allocate. It is all that threads need
// of the library:
//
// 1. an order, and by it both heaps behind their locks, with a desk at which a caller waits for each thread;
// 2. callers from the desk (`callers.rt`): whoever has a thread's caller makes that thread's entries, by calls of
//    `Shared`, or of a `Driver` for thread c;
// 3. a job for each caller, on a thread of its own (`jobs.rt`);
// 4. all callers given back: the run is finished, and its history counted.
//
// What is full stays full: a heap makes 65,535 objects and 65,535 handles, also once some are freed. A call that would
// make one more answers `full` and makes nothing, with one exception. `bridge` is two events, and where its peer is
// made and its `adopt` answers `full`, the peer stays, under a handle that no object holds: no call takes that handle,
// nothing frees the peer to the end of the run, and the reply doesn't name it. So a thread allocates no bridge object
// behind number 65,535 of the managed heap, which the reply to its last one, or to another thread's, tells (`heap.rt`:
// `has_room`); threads that share the heap agree before on how many each of them makes.

ghost use Rattle.std.specs.Prelude.{◌≡◌, ◌<◌, ℕ, map, [], All, IfOk, Ok, slice_index_or, vec_len};
ghost use Rattle.joint_machine.specs.LinkedHistories.{IsLinked};
ghost use Rattle.order_table.specs.Allowed.{Settled};
ghost use Rattle.order_table.specs.Views.{OwnsAll};
ghost use Rattle.joint_history.specs.Callers.{KnowsNothing};
ghost use Rattle.joint_history.specs.Ending.{HasAll, HasEndNumbers, HasIdleDriver};
ghost use Rattle.weak_reads.specs.Racing.{EndsIdle, IsReady};

use crate::callers::{first_caller, with_driver, with_others};
use crate::figures::{Figures, now};
use crate::jobs::run_thread;
use crate::plan::{Race, Setup};
use joint_history::{Caller, Desk, Locks, RunEnd, Shared};
use joint_model::Holding;
use order_table::{Order, OrderName, Seat};
use std::alloc::{AllocError, Global};
use std::marker::Brand;
use std::sync::Wait;
use std::thread::{Threads, map_vec};
use std::time::Clock;

/// A race that is over: what its readers did, how many nanoseconds it took, and the numbers of the finished history.
#[derive(Drop)]
pub(crate) struct Over {
    pub(crate) figures: Figures,
    pub(crate) nanos: u64,
    pub(crate) end: RunEnd,
}

/// Runs a race to its end, and one cycle more. The history is linked, whatever the schedule, and the numbers are those
/// of its last state; none of its entries is kept. Answers `AllocError` where a thread finds no memory.
pub(crate) fn run_race<R: Threads + Wait + Clock + Sync>(
    rt: &R,
    alloc: Global,
    setup: &Setup,
) -> Result<Over, AllocError>
    ensures linked { IfOk result (λ o. IsLinked o.end.history) }
    ensures counted { IfOk result (λ o. HasEndNumbers o.end) }
{
    let (order, seat) = Order::new(alloc, 8)?;
    run::<Brand, R>(rt, alloc, order, seat, setup)
}

// A race by the callers of one order.
fn run<N: OrderName + Send + Sync, R: Threads + Wait + Clock + Sync>(
    rt: &R,
    alloc: Global,
    order: Order,
    seat: Seat,
    setup: &Setup,
) -> Result<Over, AllocError>
    requires order { order ≡ N.order }
    requires run { (N.managed ≡ 8) × (N.peers ≡ 1) }
    requires seat { (seat.order ≡ N.order) × OwnsAll seat.view × KnowsNothing seat.view × Settled seat.view }
    ensures linked { IfOk result (λ o. IsLinked o.end.history) }
    ensures counted { IfOk result (λ o. HasEndNumbers o.end) }
{
    let (shared, mut desk) = Shared::<N, Locks>::new(alloc, order, seat, 8, 1, Holding::Last)?;
    match play(rt, alloc, &shared, &mut desk, setup) {
        Ok((callers, figures, nanos)) => Ok(Over {
            figures,
            nanos,
            end: shared.end(desk, callers),
        }),
        Err(fault) => {
            drop(shared);
            Err(fault)
        }
    }
}

// The callers of all threads once they have ended, what the readers did, and how many nanoseconds it took.
fn play<N: OrderName + Send + Sync, R: Threads + Wait + Clock + Sync>(
    rt: &R,
    alloc: Global,
    shared: &Shared<N, Locks>,
    desk: &mut Desk<N>,
    setup: &Setup,
) -> Result<(Vec<Caller<N>>, Figures, u64), AllocError>
    requires { HasAll desk.old [] }
    ensures all { IfOk result (λ r. HasAll desk.new r.0.items) }
    ensures idle { IfOk result (λ r. All HasIdleDriver r.0.items) }
{
    let one = first_caller(rt, alloc, shared, desk, setup.objects)?;
    // the readers but m1, a peer thread, and where one is left a managed thread that allocates
    let others = if setup.readers < 8 {
        setup.readers + 1
    } else {
        8
    };
    let workers = with_others(desk, one, others)?;
    // the driver's job is the last: where no thread can be made all others have ended before it
    let jobs = with_driver(rt, alloc, shared, desk, workers, setup)?;
    let start = now(rt);
    let race = Race::new(alloc, setup, start, others + 1);
    let ended = run_all(rt, alloc, shared, &race, jobs)?;
    let nanos = now(rt).saturating_sub(start);
    let callers = all_ended(alloc, ended)?;
    Ok((callers, race.into_figures(), nanos))
}

// All jobs at once, each on a thread of its own.
fn run_all<N: OrderName + Send + Sync, R: Threads + Wait + Clock + Sync>(
    rt: &R,
    alloc: Global,
    shared: &Shared<N, Locks>,
    race: &Race,
    jobs: Vec<Caller<N>>,
) -> Result<Vec<Result<Caller<N>, AllocError>>, AllocError>
    requires { All IsReady jobs.items }
    ensures len { IfOk result (λ v. vec_len v ≡ vec_len jobs) }
    ensures each { IfOk result (λ v. (i : ℕ) (d : _) (e : _) → i < vec_len jobs
        → EndsIdle (slice_index_or jobs.items i d) (slice_index_or v.items i e)) }
{
    map_vec(
        rt,
        jobs,
        &|caller: Caller<N>| -> Result<Caller<N>, AllocError>
            requires { IsReady caller }
            ensures { EndsIdle caller result }
        { run_thread(rt, alloc, shared, race, caller) },
    )
}

// The callers with which the threads ended, or `AllocError` where one of them found no memory.
fn all_ended<N: OrderName>(
    alloc: Global,
    ended: Vec<Result<Caller<N>, AllocError>>,
) -> Result<Vec<Caller<N>>, AllocError>
    ensures { IfOk result (λ v. map (λ p. Ok p) v.items ≡ ended.items) }
{
    let mut callers = Vec::new(alloc);
    for end in ended {
        callers.push(end?)?;
    }
    Ok(callers)
}
