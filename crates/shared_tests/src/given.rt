// The callers of the threads of a run.

ghost use Rattle.std.specs.Prelude.{◌≤◌, ◌<◌, [], All, IfOk};
ghost use Rattle.joint_history.specs.Ending.{HasAll};
ghost use Rattle.shared_tests.specs.Starts.{IsStarting, IsStartingPeer, IsWaiting};

use joint_history::{Caller, Desk, thread_at};
use order_table::OrderName;
use std::alloc::{AllocError, Global};

/// The callers that the desk has from that place on: from 0 on the driver's too, and from 9 on those of peer threads
/// alone.
pub(crate) fn callers_from<N: OrderName>(
    alloc: Global,
    desk: &mut Desk<N>,
    first: u8,
) -> Result<Vec<Caller<N>>, AllocError>
    requires { HasAll desk.old [] }
    ensures all { IfOk result (λ v. HasAll desk.new v.items) }
    ensures waiting { IfOk result (λ v. All IsWaiting v.items) }
    ensures starting { 1 ≤ first → IfOk result (λ v. All IsStarting v.items) }
    ensures peers { 9 ≤ first → IfOk result (λ v. All IsStartingPeer v.items) }
{
    let mut callers = Vec::new(alloc);
    for place in first..17u8 {
        if let Some(caller) = desk.caller(thread_at(place)) {
            callers.push(caller)?;
        }
    }
    Ok(callers)
}
