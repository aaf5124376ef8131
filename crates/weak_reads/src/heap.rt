// What stands on the heaps while cells are read: a list of objects that stays, two cells, and what threads allocate and
// let go. A heap makes 65,535 objects and no more, also once some are freed: the words of the program leave room for
// the list and for the object of the second cell, and threads allocate until a heap has made its last object.

ghost use Rattle.std.specs.Prelude.{◌≡◌};
ghost use Rattle.joint_machine.specs.Lines.{IsManagedAct};
ghost use Rattle.weak_reads.specs.Racing.{GoesOn, IsReader, IsWorker};

use joint_history::{Caller, Locks, Shared};
use joint_model::{Act, Cell, Kind, MNum, PNum, Reply, Sort, StaticNo, Thread, Var};
use order_table::OrderName;
use std::alloc::AllocError;
use std::sync::Wait;

/// The line on which all entries stand: a history orders them by their numbers, and needs no more.
pub(crate) const LINE: u32 = 1;

/// A cell whose object was collected.
pub(crate) const GONE: Cell = Cell(0);

/// A cell of an object that stays.
pub(crate) const ALIVE: Cell = Cell(1);

const A: Var = Var(0);

const B: Var = Var(1);

// Makes an operation of a managed thread.
fn operate<N: OrderName>(
    rt: &impl Wait,
    shared: &Shared<N, Locks>,
    caller: &mut Caller<N>,
    act: &Act,
) -> Result<(), AllocError>
    requires caller { IsReader caller.old }
    requires act { IsManagedAct act.now }
    ensures { GoesOn caller.old caller.new }
{
    shared.managed(rt, caller, LINE, act)?;
    Ok(())
}

// Puts a new object before the list that variable b holds.
fn put_before<N: OrderName>(
    rt: &impl Wait,
    shared: &Shared<N, Locks>,
    caller: &mut Caller<N>,
) -> Result<(), AllocError>
    requires { IsReader caller.old }
    ensures { GoesOn caller.old caller.new }
{
    let (kind, fields) = (Kind::Plain, 1);
    operate(rt, shared, caller, &Act::New { v: A, kind, fields })?;
    operate(
        rt,
        shared,
        caller,
        &Act::Set {
            v: A,
            i: 0,
            w: Some(B),
        },
    )?;
    operate(rt, shared, caller, &Act::Copy { v: B, w: A })
}

// Makes a list of so many objects in variable b.
fn make_list<N: OrderName>(
    rt: &impl Wait,
    shared: &Shared<N, Locks>,
    caller: &mut Caller<N>,
    objects: u32,
) -> Result<(), AllocError>
    requires { IsReader caller.old }
    ensures { GoesOn caller.old caller.new }
{
    for _ in 0..objects {
        put_before(rt, shared, caller)?;
    }
    Ok(())
}

/// Makes a list of so many objects, which a static holds, a cell of its first object, and a cell of one that nothing
/// holds.
pub(crate) fn make_heap<N: OrderName>(
    rt: &impl Wait,
    shared: &Shared<N, Locks>,
    caller: &mut Caller<N>,
    objects: u32,
) -> Result<(), AllocError>
    requires { IsReader caller.old }
    ensures { GoesOn caller.old caller.new }
{
    make_list(rt, shared, caller, objects)?;
    let (x, kind, fields) = (StaticNo(0), Kind::Leaf, 0);
    operate(rt, shared, caller, &Act::Store { x, v: Some(B) })?;
    operate(rt, shared, caller, &Act::Weak { k: ALIVE, v: B })?;
    operate(rt, shared, caller, &Act::Drop { v: B })?;
    operate(rt, shared, caller, &Act::New { v: A, kind, fields })?;
    operate(rt, shared, caller, &Act::Weak { k: GONE, v: A })?;
    operate(rt, shared, caller, &Act::Drop { v: A })
}

// An object that a managed thread allocates: it has a peer, and once it is let go the next cycle frees both.
const BRIDGE: Act = Act::Bridge {
    v: A,
    kind: Kind::Bridge,
    fields: 1,
    sort: Sort::User,
    peer_fields: 0,
};

// The number of the last object that a heap makes.
const LAST: u32 = 65_535;

// Whether a heap with whose reply an object was made, or wasn't, may make another one. (A `bridge` on a managed heap
// that has made its last object would leave a peer that nobody can give up.)
fn has_room(reply: Reply) -> bool {
    match reply {
        Reply::M(MNum(m)) => m < LAST,
        Reply::P(PNum(p)) => p < LAST,
        _ => false,
    }
}

/// Makes an object on the heap of the thread, and lets the one go that the thread made before. Answers whether the heap
/// may make another one.
pub(crate) fn allocate<N: OrderName>(
    rt: &impl Wait,
    shared: &Shared<N, Locks>,
    caller: &mut Caller<N>,
) -> Result<bool, AllocError>
    requires { IsWorker caller.old }
    ensures { GoesOn caller.old caller.new }
{
    let receipt = match caller.thread() {
        Thread::M(_) => shared.managed(rt, caller, LINE, &BRIDGE)?,
        Thread::P(_) => shared.peer(rt, caller, LINE, &Act::NewPeer { v: A, fields: 1 })?,
        Thread::C => unreachable!(),
    };
    Ok(has_room(receipt.reply))
}

/// Lets the object go that the thread made last.
pub(crate) fn let_go<N: OrderName>(
    rt: &impl Wait,
    shared: &Shared<N, Locks>,
    caller: &mut Caller<N>,
) -> Result<(), AllocError>
    requires { IsWorker caller.old }
    ensures { GoesOn caller.old caller.new }
{
    match caller.thread() {
        Thread::M(_) => shared.managed(rt, caller, LINE, &Act::Drop { v: A })?,
        Thread::P(_) => shared.peer(rt, caller, LINE, &Act::Drop { v: A })?,
        Thread::C => unreachable!(),
    };
    Ok(())
}
