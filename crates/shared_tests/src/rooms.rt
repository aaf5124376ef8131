// Reads whose thread asks for more room than a list of reads may have: the answer is that there is no memory, what the
// thread has stays, and it goes on.

ghost use Rattle.std.specs.Prelude.{◌≡◌, ◌≤◌, [], All, IfOk, IfSome};
ghost use Rattle.joint_machine.specs.declared.names.Thread.TheVariants.{M};
ghost use Rattle.order_table.specs.Allowed.{Settled};
ghost use Rattle.order_table.specs.Views.{OwnsAll};
ghost use Rattle.joint_history.specs.Callers.{KnowsNothing, last_index, own};
ghost use Rattle.joint_history.specs.Ending.{HasAll, HasIdleDriver};

use crate::runs::{managed, replies_of};
use joint_history::{Alone, Caller, Desk, Shared};
use joint_model::{Act, Cell, HNum, Holding, Kind, MNum, PNum, Reply, Sort, Thread, Var};
use order_table::{Order, OrderName, Seat};
use std::alloc::{AllocError, Global};
use std::marker::Brand;
use std::sync::Wait;
use std::test::Fail;

// How many reads are made, after two lines that make an object and set the cell to it.
const READS: u32 = 4;

// Makes the reads of m1, and answers how many of its requests for too much room were refused and left the room that
// there was.
fn read_all<N: OrderName>(shared: &Shared<N, Alone>, one: &mut Caller<N>) -> Result<u32, AllocError>
    requires thread { one.old.thread ≡ M 1 }
    requires index { last_index (own one.old) ≤ 2 }
    ensures thread { one.new.thread ≡ M 1 }
{
    let mut refused = 0u32;
    for line in 0..READS {
        shared.reserve(one, 1)?;
        shared.read_now(one, line + 3, &Act::Read { k: Cell(0) });
        let spare = shared.spare(one);
        if shared.reserve(one, u32::MAX).is_err() && shared.spare(one) == spare {
            refused = refused.wrapping_add(1);
        }
    }
    Ok(refused)
}

// Makes an object of m1, sets a cell to it, and reads that.
fn set_and_read<N: OrderName>(
    rt: &impl Wait,
    shared: &Shared<N, Alone>,
    one: &mut Caller<N>,
) -> Result<u32, AllocError>
    requires thread { one.old.thread ≡ M 1 }
    requires index { last_index (own one.old) ≤ 1 }
    ensures thread { one.new.thread ≡ M 1 }
{
    let v = Var(0);
    let bridge = Act::Bridge {
        v,
        kind: Kind::LeafBridge,
        fields: 0,
        sort: Sort::User,
        peer_fields: 0,
    };
    managed(rt, shared, one, 1, &bridge)?;
    managed(rt, shared, one, 2, &Act::Weak { k: Cell(0), v })?;
    read_all(shared, one)
}

// How many requests were refused, and the caller of m1; None where the desk has none.
fn play<N: OrderName>(
    rt: &impl Wait,
    alloc: Global,
    shared: &Shared<N, Alone>,
    desk: &mut Desk<N>,
) -> Result<Option<(u32, Vec<Caller<N>>)>, AllocError>
    requires { HasAll desk.old [] }
    ensures all { IfOk result (λ o. IfSome o (λ r. HasAll desk.new r.1.items)) }
    ensures idle { IfOk result (λ o. IfSome o (λ r. All HasIdleDriver r.1.items)) }
{
    let Some(mut one) = desk.caller(Thread::M(1)) else {
        return Ok(None);
    };
    let refused = match set_and_read(rt, shared, &mut one) {
        Ok(refused) => refused,
        Err(failed) => {
            drop(one);
            return Err(failed);
        }
    };
    let callers = vec![in alloc; one]?;
    Ok(Some((refused, callers)))
}

// How many requests were refused, and the replies of all entries; None where the desk has no caller of m1.
fn run<N: OrderName>(
    rt: &impl Wait,
    alloc: Global,
    order: Order,
    seat: Seat,
) -> Result<Option<(u32, Vec<Reply>)>, AllocError>
    requires order { order ≡ N.order }
    requires run { (N.managed ≡ 1) × (N.peers ≡ 0) }
    requires seat { (seat.order ≡ N.order) × OwnsAll seat.view × KnowsNothing seat.view × Settled seat.view }
{
    let (shared, mut desk) = Shared::<N, Alone>::new(alloc, order, seat, 1, 0, Holding::Every)?;
    match play(rt, alloc, &shared, &mut desk) {
        Ok(Some((refused, callers))) => {
            let history = shared.finish(desk, callers).map_err(|_| AllocError)?;
            let made = replies_of(alloc, &history);
            drop(history);
            Ok(Some((refused, made?)))
        }
        Ok(None) => {
            drop(desk);
            drop(shared);
            Ok(None)
        }
        Err(fault) => {
            drop(desk);
            drop(shared);
            Err(fault)
        }
    }
}

// The replies of all entries: no read is lost, and the first one's pin stays.
const MADE: [Reply; 7] = [
    Reply::Made(PNum(1), HNum(1)),
    Reply::M(MNum(1)),
    Reply::Ok,
    Reply::M(MNum(1)),
    Reply::Pinned(MNum(1)),
    Reply::Pinned(MNum(1)),
    Reply::Pinned(MNum(1)),
];

#[test]
fn a_reader_that_is_refused_room_keeps_its_reads_and_goes_on(rt: HostRuntime) -> Result<(), Fail> {
    let (order, seat) = Order::new(rt.alloc(), 1)?;
    let ended = run::<Brand>(&rt, rt.alloc(), order, seat)?;
    assert!(rt; ended.is_some());
    if let Some((refused, made)) = ended {
        assert_eq!(rt; refused, 4);
        assert_eq!(rt; made.as_slice(), MADE.as_slice());
    }
    Ok(())
}
