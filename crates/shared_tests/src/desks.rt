// Which callers a desk gives.

ghost use Rattle.std.specs.Prelude.{◌≡◌};
ghost use Rattle.order_table.specs.Allowed.{Settled};
ghost use Rattle.order_table.specs.Views.{OwnsAll};
ghost use Rattle.joint_history.specs.Callers.{KnowsNothing};

use joint_history::{Desk, Locks, Shared};
use joint_model::{Holding, Thread};
use order_table::{Order, OrderName, Seat};
use std::alloc::{AllocError, Global};
use std::marker::Brand;
use std::test::Fail;

// The thread of the caller that the desk gives for a thread; None where it gives none.
fn thread_given<N: OrderName>(desk: &mut Desk<N>, t: Thread) -> Option<Thread> {
    match desk.caller(t) {
        Some(caller) => {
            let thread = caller.thread();
            drop(caller);
            Some(thread)
        }
        None => None,
    }
}

// For each thread in turn, the thread of the caller that the desk gives; None where it gives none.
fn given_by<N: OrderName>(
    alloc: Global,
    desk: &mut Desk<N>,
    threads: &[Thread],
) -> Result<Vec<Option<Thread>>, AllocError> {
    let mut given = Vec::new(alloc);
    for t in threads {
        given.push(thread_given(desk, *t))?;
    }
    Ok(given)
}

// The same of a new desk.
fn given<N: OrderName>(
    alloc: Global,
    order: Order,
    seat: Seat,
    threads: &[Thread],
) -> Result<Vec<Option<Thread>>, AllocError>
    requires order { order ≡ N.order }
    requires run { (N.managed ≡ 1) × (N.peers ≡ 2) }
    requires seat { (seat.order ≡ N.order) × OwnsAll seat.view × KnowsNothing seat.view × Settled seat.view }
{
    let (shared, mut desk) = Shared::<N, Locks>::new(alloc, order, seat, 1, 2, Holding::Every)?;
    let given = given_by(alloc, &mut desk, threads);
    drop(desk);
    drop(shared);
    given
}

#[test]
fn a_desk_gives_each_caller_once(rt: HostRuntime) -> Result<(), Fail> {
    let (order, seat) = Order::new(rt.alloc(), 1)?;
    let (m, p, c) = (Thread::M(1), Thread::P(2), Thread::C);
    let asked = [
        m,
        m,
        Thread::M(2),
        Thread::M(9),
        Thread::M(0),
        p,
        c,
        p,
        c,
        Thread::P(3),
        Thread::P(1),
    ];
    let given = given::<Brand>(rt.alloc(), order, seat, &asked)?;
    let wanted = [
        Some(m),
        None,
        None,
        None,
        None,
        Some(p),
        Some(c),
        None,
        None,
        None,
        Some(Thread::P(1)),
    ];
    assert_eq!(rt; given.as_slice(), wanted.as_slice());
    Ok(())
}
