// The words of the gate, of a cell and of a pin, as one thread finds them.

use crate::made::made;
use joint_machine::{Act, Cell, Cycle, MNum, Op, Reply, Span, Thread, Var};
use order_table::{Order, Role};
use std::test::Fail;

#[test]
fn the_gate_closes_only_without_readers(rt: HostRuntime) -> Result<(), Fail> {
    let (order, mut owner) = Order::new(rt.alloc(), 8)?;
    let mut reader = order.hand(&mut owner, Thread::M(1));
    let Ok(()) = order.enter(&mut reader, 1) else {
        panic!(rt; "the gate was open")
    };
    let Err(readers) = order.try_close_gate(&mut owner, Cycle(1)) else {
        panic!(rt; "a reader was inside")
    };
    assert!(rt; readers.count == 1);
    order.leave(&mut reader, 1);
    let Ok(()) = order.try_close_gate(&mut owner, Cycle(1)) else {
        panic!(rt; "no reader was inside")
    };
    let Err(pending) = order.enter(&mut reader, 1) else {
        panic!(rt; "the gate was closed")
    };
    assert!(rt; pending.cycle.0 == 1);
    let _ = order.scan_pins(&mut owner);
    let snap = made(
        Thread::C,
        Op::Snap { cycle: Cycle(1) },
        Reply::Snapped(0, Span { first: 0, count: 0 }),
    );
    let first = order.append(&mut owner, Role::Managed, &snap, None, &[]);
    let end = made(Thread::C, Op::Abandon { cycle: Cycle(1) }, Reply::Ok);
    let second = order.append(&mut owner, Role::Managed, &end, None, &[]);
    assert!(rt; first == 0 && second == 1);
    order.open_gate(&mut owner);
    assert!(rt; order.enter(&mut reader, 1).is_ok());
    order.leave(&mut reader, 1);
    Ok(())
}

#[test]
fn a_cell_is_set_and_read(rt: HostRuntime) -> Result<(), Fail> {
    let (order, mut owner) = Order::new(rt.alloc(), 8)?;
    let mut reader = order.hand(&mut owner, Thread::M(1));
    let weak = made(
        Thread::M(2),
        Op::Line(Act::Weak {
            k: Cell(0),
            v: Var(0),
        }),
        Reply::Ok,
    );
    let first = order.append(&mut owner, Role::Managed, &weak, Some(MNum(1)), &[]);
    order.write_cell(&mut owner, Cell(0), 2);
    let Ok(()) = order.enter(&mut reader, 1) else {
        panic!(rt; "the gate was open")
    };
    let word = order.load_cell(&mut reader, Cell(0));
    assert!(rt; first == 0 && word == 2);
    let read = made(
        Thread::M(1),
        Op::Line(Act::Read { k: Cell(0) }),
        Reply::M(MNum(1)),
    );
    let second = order.append(&mut reader, Role::Reader(1), &read, None, &[]);
    order.store_pin(&mut reader, 1, MNum(1));
    assert!(rt; second == 1 && order.load_pin(&mut reader, 1) == 2);
    order.leave(&mut reader, 1);
    Ok(())
}
