// A long chain of peers is marked in slices of one peer by a thread, while another one moves the chain's end about. So
// the marking meets the end in a field, in another one, or only in a variable, and each write hides it from the
// marking, but for what writes shade.

ghost use Rattle.std.specs.Prelude.{◌≡◌, ◌≤◌, ◌<◌, ℕ, [], All, IfOk, slice_index_or, vec_len};
ghost use Rattle.joint_machine.specs.Lines.{IsPeerAct, IsPeerThread};
ghost use Rattle.order_table.specs.Allowed.{Settled};
ghost use Rattle.order_table.specs.Views.{OwnsAll};
ghost use Rattle.joint_history.specs.Callers.{KnowsNothing, Pass, last_index, own};
ghost use Rattle.joint_history.specs.Ending.{HasAll, HasIdleDriver};
ghost use Rattle.shared_tests.specs.Starts.{IsStartingPeer};

use crate::given::callers_from;
use joint_history::{Caller, Desk, Locks, Shared};
use joint_model::{Act, Entry, History, Holding, Op, Reply, StaticNo, Thread, Var};
use order_table::{Order, OrderName, Seat};
use std::alloc::{AllocError, Global};
use std::marker::Brand;
use std::sync::Wait;
use std::test::Fail;
use std::thread;
use std::thread::Threads;

// How many peers the chain has.
const CHAIN: u32 = 60_000;

// With the peer of the other thread, a marking reaches at most one more.
const SLICES: u32 = CHAIN + 1;

// What is done on a line of p1: four for each peer of the chain, the begin, the slices, and the sweep.
const LINES: u32 = 4 * CHAIN + 1 + SLICES + 1;

// What p1 does: it makes the chain, each peer with a field that holds the one before. The static s1 gets the second
// one, whose field holds the chain's end, and s0 each other one.
fn marking_act(line: u32) -> Act
    ensures { IsPeerAct result }
{
    let (a, b) = (Var(0), Var(1));
    if line > 4 * CHAIN {
        return slicing_act(line - 4 * CHAIN);
    }
    match line % 4 {
        1 => Act::NewPeer { v: a, fields: 1 },
        2 => Act::Set {
            v: a,
            i: 0,
            w: Some(b),
        },
        3 => Act::Copy { v: b, w: a },
        _ => Act::Store {
            x: StaticNo(if line == 8 { 1 } else { 0 }),
            v: Some(b),
        },
    }
}

// And then it marks from the begin to the sweep.
fn slicing_act(step: u32) -> Act
    ensures { IsPeerAct result }
{
    if step == 1 {
        Act::BeginMark
    } else if step <= 1 + SLICES {
        Act::Slice { n: 1 }
    } else {
        Act::SweepMark
    }
}

// What p2 does: it moves the chain's end from its field into one of a peer of its own, and back.
fn moving_act(line: u32) -> Act
    ensures { IsPeerAct result }
{
    let (a, c, d) = (Var(0), Var(2), Var(3));
    if line == 1 {
        return Act::NewPeer { v: a, fields: 1 };
    }
    match line % 9 {
        0 => Act::Load {
            v: c,
            x: StaticNo(1),
        },
        1 => Act::Get { v: d, w: c, i: 0 },
        2 => Act::Set {
            v: c,
            i: 0,
            w: None,
        },
        3 => Act::Set {
            v: a,
            i: 0,
            w: Some(d),
        },
        4 => Act::Drop { v: d },
        5 => Act::Get { v: d, w: a, i: 0 },
        6 => Act::Set {
            v: a,
            i: 0,
            w: None,
        },
        7 => Act::Set {
            v: c,
            i: 0,
            w: Some(d),
        },
        _ => Act::Drop { v: d },
    }
}

// Makes the operation of a line. One that finds no memory is seen in the history.
fn make_line<N: OrderName>(
    rt: &impl Wait,
    shared: &Shared<N, Locks>,
    caller: &mut Caller<N>,
    index: u32,
)
    requires thread { IsPeerThread caller.old.thread }
    requires index { last_index (own caller.old) ≤ index }
    ensures thread { caller.new.thread ≡ caller.old.thread }
    ensures index { last_index (own caller.new) ≤ index }
{
    let _ = match caller.thread() {
        Thread::P(1) => shared.peer(rt, caller, index, &marking_act(index)),
        Thread::P(_) => shared.peer(rt, caller, index, &moving_act(index)),
        _ => unreachable!(),
    };
}

// Makes so many lines of a thread, numbered from 1 on.
fn make_lines<N: OrderName>(
    rt: &impl Wait,
    shared: &Shared<N, Locks>,
    caller: Caller<N>,
    lines: u32,
) -> Caller<N>
    requires { IsStartingPeer caller }
    ensures { result.thread ≡ caller.thread }
{
    let mut caller = caller;
    for line in 0..lines {
        make_line(rt, shared, &mut caller, line + 1);
    }
    caller
}

// All threads at once, to their ends.
fn make_all<N: OrderName + Send + Sync, R: Threads + Wait + Sync>(
    rt: &R,
    shared: &Shared<N, Locks>,
    callers: Vec<Caller<N>>,
    lines: u32,
) -> Result<Vec<Caller<N>>, AllocError>
    requires { All IsStartingPeer callers.items }
    ensures len { IfOk result (λ v. vec_len v ≡ vec_len callers) }
    ensures threads { IfOk result (λ v. (i : ℕ) (d : Pass) → i < vec_len callers
        → (slice_index_or v.items i d).thread ≡ (slice_index_or callers.items i d).thread) }
{
    thread::map_vec(
        rt,
        callers,
        &|caller: Caller<N>| -> Caller<N>
            requires { IsStartingPeer caller }
            ensures { result.thread ≡ caller.thread }
        { make_lines(rt, shared, caller, lines) },
    )
}

// The callers of all peer threads, each after so many lines.
fn play<N: OrderName + Send + Sync, R: Threads + Wait + Sync>(
    rt: &R,
    alloc: Global,
    shared: &Shared<N, Locks>,
    desk: &mut Desk<N>,
    lines: u32,
) -> Result<Vec<Caller<N>>, AllocError>
    requires { HasAll desk.old [] }
    ensures all { IfOk result (λ v. HasAll desk.new v.items) }
    ensures idle { IfOk result (λ v. All HasIdleDriver v.items) }
{
    let callers = callers_from(alloc, desk, 9)?;
    let ended = make_all(rt, shared, callers, lines)?;
    Ok(ended)
}

// A run of p1 and p2, each of so many lines, from the desk to the finished history.
fn run<N: OrderName + Send + Sync, R: Threads + Wait + Sync>(
    rt: &R,
    alloc: Global,
    order: Order,
    seat: Seat,
    lines: u32,
) -> Result<History, AllocError>
    requires order { order ≡ N.order }
    requires run { (N.managed ≡ 1) × (N.peers ≡ 2) }
    requires seat { (seat.order ≡ N.order) × OwnsAll seat.view × KnowsNothing seat.view × Settled seat.view }
{
    let (shared, mut desk) = Shared::<N, Locks>::new(alloc, order, seat, 1, 2, Holding::Every)?;
    match play(rt, alloc, &shared, &mut desk, lines) {
        Ok(callers) => shared.finish(desk, callers).map_err(|_| AllocError),
        Err(fault) => {
            drop(desk);
            drop(shared);
            Err(fault)
        }
    }
}

// What is seen of the marking: how many slices left something to do, and how many didn't; whether the last one didn't;
// and how many sweeps freed nothing.
#[derive(Clone, Copy)]
struct SeenOfSlices {
    more: u32,
    done: u32,
    ended: bool,
    swept: u32,
}

// With one slice more.
fn seen_slice(seen: SeenOfSlices, reply: Reply) -> SeenOfSlices {
    match reply {
        Reply::More => SeenOfSlices {
            more: seen.more.wrapping_add(1),
            ended: false,
            ..seen
        },
        Reply::Done => SeenOfSlices {
            done: seen.done.wrapping_add(1),
            ended: true,
            ..seen
        },
        _ => seen,
    }
}

// Whether a sweep answers that it freed no peer.
fn frees_nothing(reply: Reply) -> bool {
    match reply {
        Reply::Swept(_, span) => span.count == 0,
        _ => false,
    }
}

// With one entry more.
fn seen_after(seen: SeenOfSlices, entry: &Entry) -> SeenOfSlices {
    match entry.made.op {
        Op::Line(Act::Slice { .. }) => seen_slice(seen, entry.made.reply),
        Op::Sweep if frees_nothing(entry.made.reply) => SeenOfSlices {
            swept: seen.swept.wrapping_add(1),
            ..seen
        },
        _ => seen,
    }
}

// What is seen of the marking in a history.
fn seen_in(history: &History) -> SeenOfSlices {
    let mut seen = SeenOfSlices {
        more: 0,
        done: 0,
        ended: false,
        swept: 0,
    };
    for i in 0..history.len() {
        if let Some(entry) = history.entry(i) {
            seen = seen_after(seen, &entry);
        }
    }
    seen
}

// The peer of p2 is one that the marking reaches where it was made before the begin; so the last slice but one leaves
// nothing to do, or the last one.
#[test]
fn a_chain_is_marked_peer_by_peer_while_its_end_moves(rt: HostRuntime) -> Result<(), Fail> {
    let (order, seat) = Order::new(rt.alloc(), 1)?;
    let history = run::<Brand, _>(&rt, rt.alloc(), order, seat, LINES)?;
    assert_eq!(rt; history.len(), 2 * LINES as u64);
    let seen = seen_in(&history);
    assert!(rt; seen.ended && seen.more >= CHAIN - 1 && seen.more <= CHAIN);
    assert!(rt; seen.more.wrapping_add(seen.done) == SLICES && seen.swept == 1);
    Ok(())
}
