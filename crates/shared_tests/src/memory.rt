// Operations of two events of which some find no memory: what they made stands, and the caller goes on. The run is one
// of those in which each allocation fails in turn (`rt try --test --fail-alloc 1..`), so it says of a failure no more
// than that there is at most one.

ghost use Rattle.std.specs.Prelude.{◌≡◌, ◌≤◌, [], All, IfOk, IfSome};
ghost use Rattle.joint_machine.specs.Lines.{IsLine};
ghost use Rattle.joint_machine.specs.declared.names.Thread.TheVariants.{M};
ghost use Rattle.order_table.specs.Allowed.{Settled};
ghost use Rattle.order_table.specs.Views.{OwnsAll};
ghost use Rattle.joint_history.specs.Callers.{KnowsNothing, last_index, own};
ghost use Rattle.joint_history.specs.Ending.{HasAll, HasIdleDriver};

use crate::runs::managed;
use joint_history::{Alone, Caller, Desk, Shared};
use joint_model::{Act, Entry, History, Holding, Kind, Op, Reply, Sort, StaticNo, Thread, Var};
use order_table::{Order, OrderName, Seat};
use std::alloc::{AllocError, Global};
use std::marker::Brand;
use std::sync::Wait;
use std::test::Fail;

// How many operations are tried.
const TRIES: u32 = 80;

// The operation of a line: a bridge, a pass of its object, and a surface of that.
fn act_at(line: u32) -> Act
    ensures { IsLine (M 1) result }
{
    let (v, x) = (Var(0), StaticNo(0));
    match line % 3 {
        1 => Act::Bridge {
            v,
            kind: Kind::Bridge,
            fields: 1,
            sort: Sort::User,
            peer_fields: 1,
        },
        2 => Act::Pass { v, x },
        _ => Act::Surface { v: Var(1), x },
    }
}

// How many of the operations of m1 find no memory.
fn try_all<N: OrderName>(rt: &impl Wait, shared: &Shared<N, Alone>, one: &mut Caller<N>) -> u32
    requires thread { one.old.thread ≡ M 1 }
    requires index { last_index (own one.old) ≤ 0 }
    ensures thread { one.new.thread ≡ M 1 }
    ensures few { result ≤ 80 }
{
    let mut refused = 0;
    for line in 0..TRIES {
        if managed(rt, shared, one, line + 1, &act_at(line + 1)).is_err() {
            refused += 1;
        }
    }
    refused
}

// How many operations of m1 found no memory, and its caller; None where the desk has none.
fn play<N: OrderName>(
    rt: &impl Wait,
    alloc: Global,
    shared: &Shared<N, Alone>,
    desk: &mut Desk<N>,
) -> Result<Option<(u32, Vec<Caller<N>>)>, AllocError>
    requires { HasAll desk.old [] }
    ensures all { IfOk result (λ o. IfSome o (λ r. HasAll desk.new r.1.items)) }
    ensures idle { IfOk result (λ o. IfSome o (λ r. All HasIdleDriver r.1.items)) }
{
    let Some(mut one) = desk.caller(Thread::M(1)) else {
        return Ok(None);
    };
    let refused = try_all(rt, shared, &mut one);
    let callers = vec![in alloc; one]?;
    Ok(Some((refused, callers)))
}

// How many operations found no memory, and the history; None where the desk has no caller of m1.
fn run<N: OrderName>(
    rt: &impl Wait,
    alloc: Global,
    order: Order,
    seat: Seat,
) -> Result<Option<(u32, History)>, AllocError>
    requires order { order ≡ N.order }
    requires run { (N.managed ≡ 1) × (N.peers ≡ 0) }
    requires seat { (seat.order ≡ N.order) × OwnsAll seat.view × KnowsNothing seat.view × Settled seat.view }
{
    let (shared, mut desk) = Shared::<N, Alone>::new(alloc, order, seat, 1, 0, Holding::Every)?;
    match play(rt, alloc, &shared, &mut desk) {
        Ok(Some((refused, callers))) => {
            let history = shared.finish(desk, callers).map_err(|_| AllocError)?;
            Ok(Some((refused, history)))
        }
        Ok(None) => {
            drop(desk);
            drop(shared);
            Ok(None)
        }
        Err(fault) => {
            drop(desk);
            drop(shared);
            Err(fault)
        }
    }
}

// Whether a second event of an operation follows this entry.
fn is_first(entry: &Entry) -> bool {
    match entry.made.op {
        Op::Make { .. } => matches!(entry.made.reply, Reply::Made(..)),
        Op::Lend { .. } => matches!(entry.made.reply, Reply::H(_)),
        Op::Grip { .. } => matches!(entry.made.reply, Reply::Gripped(..)),
        _ => false,
    }
}

// How many entries that ask for a second one stand without it: the next entry doesn't cite them.
fn alone(history: &History) -> u32 {
    let mut count = 0u32;
    for i in 0..history.len() {
        if let Some(entry) = history.entry(i) {
            let next = history.entry(i.wrapping_add(1));
            let cited = next.is_some_and(|e| e.made.cites == Some(i));
            if is_first(&entry) && !cited {
                count = count.wrapping_add(1);
            }
        }
    }
    count
}

// How many entries stand alone in a history, and the line of the last one. The history ends then.
fn seen_of(history: History) -> (u32, Option<u32>) {
    let last = match history.entry(history.len().wrapping_sub(1)) {
        Some(entry) => Some(entry.made.index),
        None => None,
    };
    let alone = alone(&history);
    drop(history);
    (alone, last)
}

#[test]
fn a_caller_without_memory_keeps_what_it_made_and_goes_on(rt: HostRuntime) -> Result<(), Fail> {
    let (order, seat) = Order::new(rt.alloc(), 1)?;
    let ended = run::<Brand>(&rt, rt.alloc(), order, seat)?;
    assert!(rt; ended.is_some());
    if let Some((refused, history)) = ended {
        assert!(rt; refused <= 1);
        let (alone, last) = seen_of(history);
        assert!(rt; alone <= refused);
        assert_eq!(rt; last, Some(TRIES));
    }
    Ok(())
}
