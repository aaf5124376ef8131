// A weak read without a lock, step by step, beside a cycle that tries to close the gate: from `enter` to `leave` the
// gate stays open.

ghost use Rattle.std.specs.Prelude.{◌≡◌, None, true};
ghost use Rattle.joint_machine.specs.declared.events.Op.TheVariants as op;
ghost use Rattle.joint_machine.specs.declared.names.Thread.TheVariants.{M};
ghost use Rattle.order_table.specs.Allowed.{Settled};
ghost use Rattle.order_table.specs.Views.{IsNext, Owns, first_view, given, giving, lines_of_caller};

use joint_model::{Act, Cell, Cycle, MNum, Made, Op, Reply, Thread, Var};
use order_table::{Order, Readers, Role, Seat};
use std::test::Fail;

fn made(caller: Thread, act: Act, reply: Reply) -> Made
    ensures { result ≡ record { caller = caller; index = 1; op = op.Line act; reply = reply; cites = None } }
{
    Made {
        caller,
        index: 1,
        op: Op::Line(act),
        reply,
        cites: None,
    }
}

// Sets the cell k0 to m7.
fn set_cell(order: &Order, owner: &mut Seat)
    requires order { owner.old.order ≡ order.now }
    requires owner { owner.old.view ≡ giving (lines_of_caller (M 1)) first_view }
    ensures order { owner.new.order ≡ order.now }
    ensures owner { Owns owner.new.view 0 × (owner.new.view.holds ≡ 0) × IsNext owner.new.view 1 }
{
    let (k, v) = (Cell(0), Var(0));
    let weak = made(Thread::M(2), Act::Weak { k, v }, Reply::Ok);
    let _ = order.append(owner, Role::Managed, &weak, Some(MNum(7)), &[]);
    order.write_cell(owner, k, 8);
}

// Whether a closing is refused by one reader, who is inside.
fn is_open(order: &Order, owner: &mut Seat) -> bool
    requires order { owner.old.order ≡ order.now }
    requires owner { Owns owner.old.view 0 × (owner.old.view.holds ≡ 0) × IsNext owner.old.view 1 }
    ensures order { owner.new.order ≡ order.now }
    ensures owner { result ≡ true → owner.new.view ≡ owner.old.view }
{
    match order.try_close_gate(owner, Cycle(1)) {
        Ok(()) => false,
        Err(readers) => readers == Readers { count: 1 },
    }
}

// Whether a closing succeeds, and the first pin has m7.
fn closes(order: &Order, owner: &mut Seat) -> bool
    requires order { owner.old.order ≡ order.now }
    requires owner { Owns owner.old.view 0 × (owner.old.view.holds ≡ 0) × IsNext owner.old.view 1 }
{
    order.try_close_gate(owner, Cycle(1)).is_ok() && order.load_pin(owner, 1) == 8
}

// Reads the cell by m1, and tries to close the gate behind each step. Answers behind which step the gate wasn't as it
// should be, or the cell; None where all was right, and the pin has the object.
fn read(order: &Order, owner: &mut Seat, reader: &mut Seat) -> Option<u8>
    requires orders { (owner.old.order ≡ order.now) × (reader.old.order ≡ order.now) }
    requires owner { Owns owner.old.view 0 × (owner.old.view.holds ≡ 0) × IsNext owner.old.view 1 }
    requires reader { (reader.old.view ≡ given (lines_of_caller (M 1)) first_view) × Settled reader.old.view }
    ensures order { owner.new.order ≡ order.now }
    ensures owner { result ≡ None → owner.new.view ≡ owner.old.view }
{
    let k = Cell(0);
    let Ok(()) = order.enter(reader, 1) else {
        return Some(0);
    };
    if !is_open(order, owner) {
        return Some(1);
    }
    if order.load_cell(reader, k) != 8 || !is_open(order, owner) {
        return Some(2);
    }
    let read = made(Thread::M(1), Act::Read { k }, Reply::M(MNum(7)));
    let _ = order.append(reader, Role::Reader(1), &read, None, &[]);
    if !is_open(order, owner) {
        return Some(3);
    }
    order.store_pin(reader, 1, MNum(7));
    if !is_open(order, owner) {
        return Some(4);
    }
    order.leave(reader, 1);
    None
}

// The cell k0 is set to m7, and read by m1. Once the read is made its pin has the object.
#[test]
fn the_gate_is_open_at_each_step_of_a_read(rt: HostRuntime) -> Result<(), Fail> {
    let (order, mut owner) = Order::new(rt.alloc(), 1)?;
    let mut reader = order.hand(&mut owner, Thread::M(1));
    set_cell(&order, &mut owner);
    let missed = read(&order, &mut owner, &mut reader);
    let closed = match missed {
        None => closes(&order, &mut owner),
        Some(_) => false,
    };
    drop(reader);
    drop(owner);
    assert_eq!(rt; (missed, closed), (None, true));
    Ok(())
}
