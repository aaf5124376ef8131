// What a reader answers, as one thread finds it.

use crate::made::made;
use joint_machine::{Act, Cell, Cycle, MNum, Op, Reply, Span, Thread, Var};
use order_table::{Order, Role};
use std::test::Fail;
use weak_wait::{Got, WeakReader};

#[test]
fn a_cell_is_unset_then_read_then_held(rt: HostRuntime) -> Result<(), Fail> {
    let (order, mut owner) = Order::new(rt.alloc(), 2)?;
    let pass = order.hand(&mut owner, Thread::M(2));
    let mut reader = WeakReader::new(rt.alloc(), 2, pass);
    reader.reserve(3)?;
    let act = Act::Read { k: Cell(0) };
    assert!(rt; reader.try_get(&order, 1, &act) == Got::Unset);
    let weak = made(
        Thread::M(1),
        Op::Line(Act::Weak {
            k: Cell(0),
            v: Var(0),
        }),
        Reply::Ok,
    );
    let first = order.append(&mut owner, Role::Managed, &weak, Some(MNum(7)), &[]);
    order.write_cell(&mut owner, Cell(0), 8);
    assert!(rt; first == 1);
    assert!(rt; reader.try_get(&order, 2, &act) == Got::Got(MNum(7)));
    assert!(rt; reader.try_get(&order, 3, &act) == Got::PinHeld { m: MNum(7) });
    Ok(())
}

#[test]
fn a_read_waits_for_the_end_of_a_cycle(rt: HostRuntime) -> Result<(), Fail> {
    let (order, mut owner) = Order::new(rt.alloc(), 2)?;
    let pass = order.hand(&mut owner, Thread::M(2));
    let mut reader = WeakReader::new(rt.alloc(), 2, pass);
    reader.reserve(3)?;
    let act = Act::Await { k: Cell(5) };
    let Ok(()) = order.try_close_gate(&mut owner, Cycle(1)) else {
        panic!(rt; "no reader was inside")
    };
    let _ = order.scan_pins(&mut owner);
    let snap = made(
        Thread::C,
        Op::Snap { cycle: Cycle(1) },
        Reply::Snapped(0, Span { first: 0, count: 0 }),
    );
    let _ = order.append(&mut owner, Role::Managed, &snap, None, &[]);
    assert!(rt; reader.try_get(&order, 1, &act) == Got::Pending { cycle: Cycle(1) });
    let end = made(Thread::C, Op::Abandon { cycle: Cycle(1) }, Reply::Ok);
    let _ = order.append(&mut owner, Role::Managed, &end, None, &[]);
    order.open_gate(&mut owner);
    assert!(rt; reader.get(&rt, &order, 2, &act) == Got::Unset);
    assert!(rt; reader.spare() >= 1);
    Ok(())
}
