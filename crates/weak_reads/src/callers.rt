// The callers of a race, from the desk.

ghost use Rattle.std.specs.Prelude.{◌≤◌, [], All, IfOk};
ghost use Rattle.joint_history.specs.Ending.{HasAll};
ghost use Rattle.weak_reads.specs.Racing.{IsReady};

use crate::heap::make_heap;
use crate::jobs::drive;
use crate::plan::{Race, Setup};
use joint_history::{Caller, Desk, Locks, Shared, thread_at};
use joint_model::Thread;
use order_table::OrderName;
use std::alloc::{AllocError, Global};
use std::sync::Wait;
use std::time::Clock;

/// The caller of m1, which has made the heap. Answers `AllocError` where there is no memory.
pub(crate) fn first_caller<N: OrderName>(
    rt: &impl Wait,
    alloc: Global,
    shared: &Shared<N, Locks>,
    desk: &mut Desk<N>,
    objects: u32,
) -> Result<Vec<Caller<N>>, AllocError>
    requires { HasAll desk.old [] }
    ensures all { IfOk result (λ v. HasAll desk.new v.items) }
    ensures ready { IfOk result (λ v. All IsReady v.items) }
{
    let Some(mut one) = desk.caller(Thread::M(1)) else {
        return Err(AllocError);
    };
    make_heap(rt, shared, &mut one, objects)?;
    let callers = vec![in alloc; one]?;
    Ok(callers)
}

/// The callers that are there, and those of so many other threads: of p1, a peer thread that allocates, and then of m2
/// and the further managed ones. Answers `AllocError` where there is no memory.
pub(crate) fn with_others<N: OrderName>(
    desk: &mut Desk<N>,
    callers: Vec<Caller<N>>,
    others: u8,
) -> Result<Vec<Caller<N>>, AllocError>
    requires all { HasAll desk.old callers.items }
    requires ready { All IsReady callers.items }
    requires others { others ≤ 8 }
    ensures all { IfOk result (λ v. HasAll desk.new v.items) }
    ensures ready { IfOk result (λ v. All IsReady v.items) }
{
    let mut callers = callers;
    for other in 0..others {
        let place = if other == 0 { 9 } else { other + 1 };
        if let Some(caller) = desk.caller(thread_at(place)) {
            callers.push(caller)?;
        }
    }
    Ok(callers)
}

/// The callers that are there, and last that of the driver, whose first cycle has freed what nothing holds. Answers
/// `AllocError` where there is no memory.
pub(crate) fn with_driver<N: OrderName>(
    rt: &(impl Wait + Clock),
    alloc: Global,
    shared: &Shared<N, Locks>,
    desk: &mut Desk<N>,
    callers: Vec<Caller<N>>,
    setup: &Setup,
) -> Result<Vec<Caller<N>>, AllocError>
    requires all { HasAll desk.old callers.items }
    requires ready { All IsReady callers.items }
    ensures all { IfOk result (λ v. HasAll desk.new v.items) }
    ensures ready { IfOk result (λ v. All IsReady v.items) }
{
    let Some(driver) = desk.caller(Thread::C) else {
        return Err(AllocError);
    };
    let nobody = Race::new(alloc, setup, 0, 0);
    let driver = drive(rt, alloc, shared, &nobody, driver)?;
    let mut callers = callers;
    callers.push(driver)?;
    Ok(callers)
}
