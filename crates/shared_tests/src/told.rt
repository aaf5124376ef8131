// A managed thread that is told of a cell reads its object without a lock, and then finds its pin filled.

ghost use Rattle.std.specs.Prelude.{◌≡◌, ◌≤◌};
ghost use Rattle.joint_machine.specs.declared.names.Thread.TheVariants.{M};
ghost use Rattle.order_table.specs.Allowed.{Settled};
ghost use Rattle.order_table.specs.Views.{OwnsAll};
ghost use Rattle.joint_history.specs.Callers.{KnowsNothing, last_index, own};

use crate::runs::managed;
use joint_history::{Alone, Caller, Desk, Shared};
use joint_model::{Act, Cell, Holding, Kind, MNum, Reply, Sort, Thread, Var};
use order_table::{Order, OrderName, Seat};
use std::alloc::{AllocError, Global};
use std::marker::Brand;
use std::sync::Wait;
use std::test::Fail;
use weak_wait::reply_of;

// Makes an object of m1 and sets the cell k0 to it.
fn set_cell<N: OrderName>(
    rt: &impl Wait,
    shared: &Shared<N, Alone>,
    one: &mut Caller<N>,
) -> Result<(), AllocError>
    requires thread { one.old.thread ≡ M 1 }
    requires index { last_index (own one.old) ≤ 1 }
{
    let v = Var(0);
    let bridge = Act::Bridge {
        v,
        kind: Kind::LeafBridge,
        fields: 0,
        sort: Sort::User,
        peer_fields: 0,
    };
    managed(rt, shared, one, 1, &bridge)?;
    managed(rt, shared, one, 2, &Act::Weak { k: Cell(0), v })?;
    Ok(())
}

// The answers to two reads of the cell k0 by m2.
fn read_twice<N: OrderName>(
    shared: &Shared<N, Alone>,
    two: &mut Caller<N>,
) -> Result<(Reply, Reply), AllocError>
    requires thread { two.old.thread ≡ M 2 }
    requires index { last_index (own two.old) ≤ 1 }
{
    shared.reserve(two, 2)?;
    let act = Act::Read { k: Cell(0) };
    let first = shared.read_now(two, 1, &act);
    let second = shared.read_now(two, 1, &act);
    Ok((reply_of(first), reply_of(second)))
}

// The same after m1 has set the cell and told m2.
fn tell_and_read<N: OrderName>(
    rt: &impl Wait,
    shared: &Shared<N, Alone>,
    one: &mut Caller<N>,
    two: &mut Caller<N>,
) -> Result<(Reply, Reply), AllocError>
    requires threads { (one.old.thread ≡ M 1) × (two.old.thread ≡ M 2) }
    requires indices { (last_index (own one.old) ≤ 1) × (last_index (own two.old) ≤ 1) }
{
    set_cell(rt, shared, one)?;
    shared.tell(one, two);
    read_twice(shared, two)
}

// The same by the callers of a desk; None where it lacks one of them.
fn read_told<N: OrderName>(
    rt: &impl Wait,
    shared: &Shared<N, Alone>,
    desk: &mut Desk<N>,
) -> Result<Option<(Reply, Reply)>, AllocError> {
    let Some(mut one) = desk.caller(Thread::M(1)) else {
        return Ok(None);
    };
    let Some(mut two) = desk.caller(Thread::M(2)) else {
        drop(one);
        return Ok(None);
    };
    let read = tell_and_read(rt, shared, &mut one, &mut two);
    drop(two);
    drop(one);
    Ok(Some(read?))
}

// The same over a new bridge.
fn run<N: OrderName>(
    rt: &impl Wait,
    alloc: Global,
    order: Order,
    seat: Seat,
) -> Result<Option<(Reply, Reply)>, AllocError>
    requires order { order ≡ N.order }
    requires run { (N.managed ≡ 2) × (N.peers ≡ 0) }
    requires seat { (seat.order ≡ N.order) × OwnsAll seat.view × KnowsNothing seat.view × Settled seat.view }
{
    let (shared, mut desk) = Shared::<N, Alone>::new(alloc, order, seat, 2, 0, Holding::Every)?;
    let read = read_told(rt, &shared, &mut desk);
    drop(desk);
    drop(shared);
    read
}

#[test]
fn who_is_told_of_a_cell_reads_its_object(rt: HostRuntime) -> Result<(), Fail> {
    let (order, seat) = Order::new(rt.alloc(), 2)?;
    let read = run::<Brand>(&rt, rt.alloc(), order, seat)?;
    assert!(rt; read.is_some());
    if let Some((first, second)) = read {
        assert_eq!(rt; first, Reply::M(MNum(1)));
        assert_eq!(rt; second, Reply::Pinned(MNum(1)));
    }
    Ok(())
}
