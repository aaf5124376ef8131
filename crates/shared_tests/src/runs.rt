// Runs of a managed and a peer thread.

ghost use Rattle.std.specs.Prelude.{◌≡◌, ◌≤◌, [], All, IfOk, IfSome};
ghost use Rattle.joint_machine.specs.Lines.{IsLine};
ghost use Rattle.joint_machine.specs.declared.names.Thread.TheVariants.{M, P};
ghost use Rattle.order_table.specs.Allowed.{Settled};
ghost use Rattle.order_table.specs.Views.{OwnsAll};
ghost use Rattle.joint_history.specs.Callers.{KnowsNothing, last_index, own};
ghost use Rattle.joint_history.specs.Ending.{HasAll, HasIdleDriver};

use joint_history::{Alone, Caller, Desk, Shared};
use joint_model::{
    Act, Cell, GName, HNum, History, Holding, Kind, MNum, PNum, Reply, Sort, StaticNo, Thread, Var,
};
use order_table::{Order, OrderName, Seat};
use std::alloc::{AllocError, Global};
use std::marker::Brand;
use std::sync::Wait;
use std::test::Fail;

// How many lines both threads have.
const LINES: u32 = 33;

/// What m1 does, a line after that of its last entry.
pub(crate) fn managed<N: OrderName>(
    rt: &impl Wait,
    shared: &Shared<N, Alone>,
    caller: &mut Caller<N>,
    index: u32,
    act: &Act,
) -> Result<Reply, AllocError>
    requires thread { caller.old.thread ≡ M 1 }
    requires act { IsLine (M 1) act.now }
    requires index { last_index (own caller.old) ≤ index }
    ensures thread { caller.new.thread ≡ M 1 }
    ensures index { last_index (own caller.new) ≤ index }
{
    Ok(shared.managed(rt, caller, index, act)?.reply)
}

// What p1 does.
fn peer<N: OrderName>(
    rt: &impl Wait,
    shared: &Shared<N, Alone>,
    caller: &mut Caller<N>,
    index: u32,
    act: &Act,
) -> Result<Reply, AllocError>
    requires thread { caller.old.thread ≡ P 1 }
    requires act { IsLine (P 1) act.now }
    requires index { last_index (own caller.old) ≤ index }
    ensures thread { caller.new.thread ≡ P 1 }
    ensures index { last_index (own caller.new) ≤ index }
{
    Ok(shared.peer(rt, caller, index, act)?.reply)
}

// What p1 does on a line; None where the line is m1's.
fn peer_act(line: u32) -> Option<Act>
    ensures { IfSome result (λ a. IsLine (P 1) a) }
{
    let (a, b, c, d) = (Var(0), Var(1), Var(2), Var(3));
    let (g, h, x) = (GName(0), GName(1), StaticNo(0));
    let act = match line {
        2 => Act::NewPeer { v: a, fields: 1 },
        4 => Act::Global { g, v: a },
        8 => Act::Load { v: b, x },
        14 => Act::Store { x, v: None },
        16 => Act::Set {
            v: b,
            i: 1,
            w: Some(a),
        },
        17 => Act::Get { v: c, w: b, i: 1 },
        18 => Act::Copy { v: d, w: c },
        19 => Act::WGlobal { g: h, v: d },
        20 => Act::WRead { v: c, g: h },
        21 => Act::UnGlobal { g },
        22 => Act::WRead { v: c, g },
        23 => Act::Drop { v: a },
        _ => return None,
    };
    Some(act)
}

// What m1 does on a line that isn't p1's. It makes an object with a peer, sets its field to itself and drops it. A
// further object's peer goes to the peer heap, where p1 loads it; m1 meets its own object there, and the handle of the
// meeting is released. It disposes of the object, which has no peer then, and meets its peer anew, as another object.
// The other lines are those of one thread.
fn managed_act(line: u32) -> Act
    ensures { IsLine (M 1) result }
{
    let (a, b, c, d) = (Var(0), Var(1), Var(2), Var(3));
    let (x, k) = (StaticNo(0), Cell(0));
    match line {
        1 => Act::Bridge {
            v: a,
            kind: Kind::Bridge,
            fields: 1,
            sort: Sort::User,
            peer_fields: 0,
        },
        3 => Act::Set {
            v: a,
            i: 0,
            w: Some(a),
        },
        5 => Act::Drop { v: a },
        6 => Act::Bridge {
            v: b,
            kind: Kind::Bridge,
            fields: 1,
            sort: Sort::User,
            peer_fields: 2,
        },
        7 => Act::Pass { v: b, x },
        9 => Act::Surface { v: c, x },
        10 => Act::Dispose { v: c },
        11 | 15 => Act::Surface { v: d, x },
        12 => Act::Pass { v: c, x },
        13 => Act::Take { v: c },
        24 => Act::New {
            v: a,
            kind: Kind::Plain,
            fields: 0,
        },
        25 => Act::Get { v: b, w: d, i: 0 },
        26 => Act::Store { x, v: Some(a) },
        27 => Act::Load { v: b, x },
        28 => Act::Weak { k, v: b },
        29 => Act::Read { k },
        30 => Act::Await { k },
        31 => Act::Take { v: b },
        32 => Act::Handle { v: d },
        _ => Act::Copy { v: a, w: d },
    }
}

// Runs a line of either thread.
fn run_line<N: OrderName>(
    rt: &impl Wait,
    shared: &Shared<N, Alone>,
    one: &mut Caller<N>,
    two: &mut Caller<N>,
    line: u32,
) -> Result<Reply, AllocError>
    requires threads { (one.old.thread ≡ M 1) × (two.old.thread ≡ P 1) }
    requires indices { (last_index (own one.old) ≤ line) × (last_index (own two.old) ≤ line) }
    ensures threads { (one.new.thread ≡ M 1) × (two.new.thread ≡ P 1) }
    ensures indices { (last_index (own one.new) ≤ line) × (last_index (own two.new) ≤ line) }
{
    match peer_act(line) {
        Some(act) => peer(rt, shared, two, line, &act),
        None => managed(rt, shared, one, line, &managed_act(line)),
    }
}

// The replies of all lines.
fn run_lines<N: OrderName>(
    rt: &impl Wait,
    alloc: Global,
    shared: &Shared<N, Alone>,
    one: &mut Caller<N>,
    two: &mut Caller<N>,
) -> Result<Vec<Reply>, AllocError>
    requires threads { (one.old.thread ≡ M 1) × (two.old.thread ≡ P 1) }
    requires indices { (last_index (own one.old) ≤ 0) × (last_index (own two.old) ≤ 0) }
    ensures threads { (one.new.thread ≡ M 1) × (two.new.thread ≡ P 1) }
{
    let mut replies = Vec::new(alloc);
    for line in 0..LINES {
        replies.push(run_line(rt, shared, one, two, line + 1)?)?;
    }
    Ok(replies)
}

/// The replies of all entries.
pub(crate) fn replies_of(alloc: Global, history: &History) -> Result<Vec<Reply>, AllocError> {
    let mut replies = Vec::new(alloc);
    for i in 0..history.len() {
        if let Some(entry) = history.entry(i) {
            replies.push(entry.made.reply)?;
        }
    }
    Ok(replies)
}

// The same of a history that ends then.
fn replies_and_end(alloc: Global, history: History) -> Result<Vec<Reply>, AllocError> {
    let replies = replies_of(alloc, &history);
    drop(history);
    replies
}

// The replies of the operations with those of all entries, if there was memory for these.
fn with_told(
    told: Vec<Reply>,
    made: Result<Vec<Reply>, AllocError>,
) -> Result<Option<(Vec<Reply>, Vec<Reply>)>, AllocError> {
    match made {
        Ok(made) => Ok(Some((told, made))),
        Err(failed) => {
            drop(told);
            Err(failed)
        }
    }
}

// The callers after their operations, and the replies of these; None where the desk gives a thread no caller.
fn play<N: OrderName>(
    rt: &impl Wait,
    alloc: Global,
    shared: &Shared<N, Alone>,
    desk: &mut Desk<N>,
) -> Result<Option<(Vec<Caller<N>>, Vec<Reply>)>, AllocError>
    requires { HasAll desk.old [] }
    ensures all { IfOk result (λ o. IfSome o (λ r. HasAll desk.new r.0.items)) }
    ensures idle { IfOk result (λ o. IfSome o (λ r. All HasIdleDriver r.0.items)) }
{
    let Some(mut one) = desk.caller(Thread::M(1)) else {
        return Ok(None);
    };
    let Some(mut two) = desk.caller(Thread::P(1)) else {
        drop(one);
        return Ok(None);
    };
    let told = match run_lines(rt, alloc, shared, &mut one, &mut two) {
        Ok(told) => told,
        Err(failed) => {
            drop(two);
            drop(one);
            return Err(failed);
        }
    };
    let callers = vec![in alloc; two, one]?;
    Ok(Some((callers, told)))
}

// The replies of the operations, and those of all entries; None where the desk gives a thread no caller.
fn run<N: OrderName>(
    rt: &impl Wait,
    alloc: Global,
    order: Order,
    seat: Seat,
) -> Result<Option<(Vec<Reply>, Vec<Reply>)>, AllocError>
    requires order { order ≡ N.order }
    requires run { (N.managed ≡ 1) × (N.peers ≡ 1) }
    requires seat { (seat.order ≡ N.order) × OwnsAll seat.view × KnowsNothing seat.view × Settled seat.view }
{
    let (shared, mut desk) = Shared::<N, Alone>::new(alloc, order, seat, 1, 1, Holding::Every)?;
    match play(rt, alloc, &shared, &mut desk) {
        Ok(Some((callers, told))) => {
            let made = match shared.finish(desk, callers) {
                Ok(history) => replies_and_end(alloc, history),
                Err(_) => Err(AllocError),
            };
            with_told(told, made)
        }
        Ok(None) => {
            drop(desk);
            drop(shared);
            Ok(None)
        }
        Err(fault) => {
            drop(desk);
            drop(shared);
            Err(fault)
        }
    }
}

// The replies of the operations, line by line.
const TOLD: [Reply; 33] = [
    Reply::M(MNum(1)),
    Reply::P(PNum(2)),
    Reply::Ok,
    Reply::H(HNum(2)),
    Reply::Ok,
    Reply::M(MNum(2)),
    Reply::P(PNum(3)),
    Reply::P(PNum(3)),
    Reply::Twin(MNum(2)),
    Reply::H(HNum(3)),
    Reply::New(MNum(3)),
    Reply::Plain,
    Reply::Empty,
    Reply::Ok,
    Reply::Null,
    Reply::Ok,
    Reply::P(PNum(2)),
    Reply::P(PNum(2)),
    Reply::H(HNum(6)),
    Reply::P(PNum(2)),
    Reply::Ok,
    Reply::Unset,
    Reply::Ok,
    Reply::M(MNum(4)),
    Reply::Null,
    Reply::Ok,
    Reply::M(MNum(4)),
    Reply::Ok,
    Reply::M(MNum(4)),
    Reply::Pinned(MNum(4)),
    Reply::M(MNum(4)),
    Reply::H(HNum(5)),
    Reply::M(MNum(3)),
];

// The replies of their entries.
const MADE: [Reply; 40] = [
    Reply::Made(PNum(1), HNum(1)),
    Reply::M(MNum(1)),
    Reply::P(PNum(2)),
    Reply::Ok,
    Reply::H(HNum(2)),
    Reply::Ok,
    Reply::Made(PNum(3), HNum(3)),
    Reply::M(MNum(2)),
    Reply::H(HNum(3)),
    Reply::P(PNum(3)),
    Reply::P(PNum(3)),
    Reply::Gripped(PNum(3), HNum(4), Sort::User, 2),
    Reply::Twin(MNum(2)),
    Reply::Ok,
    Reply::H(HNum(3)),
    Reply::Ok,
    Reply::Gripped(PNum(3), HNum(5), Sort::User, 2),
    Reply::New(MNum(3)),
    Reply::Plain,
    Reply::Empty,
    Reply::Ok,
    Reply::Null,
    Reply::Ok,
    Reply::P(PNum(2)),
    Reply::P(PNum(2)),
    Reply::H(HNum(6)),
    Reply::P(PNum(2)),
    Reply::Ok,
    Reply::Unset,
    Reply::Ok,
    Reply::M(MNum(4)),
    Reply::Null,
    Reply::Ok,
    Reply::M(MNum(4)),
    Reply::Ok,
    Reply::M(MNum(4)),
    Reply::Pinned(MNum(4)),
    Reply::M(MNum(4)),
    Reply::H(HNum(5)),
    Reply::M(MNum(3)),
];

#[test]
fn a_finished_history_has_the_events_of_both_threads(rt: HostRuntime) -> Result<(), Fail> {
    let (order, seat) = Order::new(rt.alloc(), 1)?;
    let ended = run::<Brand>(&rt, rt.alloc(), order, seat)?;
    assert!(rt; ended.is_some());
    if let Some((told, made)) = ended {
        assert_eq!(rt; told.as_slice(), TOLD.as_slice());
        assert_eq!(rt; made.as_slice(), MADE.as_slice());
    }
    Ok(())
}
