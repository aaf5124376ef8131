// Runs of two managed and two peer threads at once, each by a table of operations on variables, statics, cells and
// names of its own. So the replies that are counted are the same whatever the schedule.

ghost use Rattle.std.specs.Prelude.{◌≡◌, ◌≤◌, ◌<◌, ℕ, [], All, IfOk, slice_index_or, vec_len};
ghost use Rattle.joint_machine.specs.Lines.{IsManagedAct, IsPeerAct};
ghost use Rattle.order_table.specs.Allowed.{Settled};
ghost use Rattle.order_table.specs.Views.{OwnsAll};
ghost use Rattle.joint_history.specs.Callers.{KnowsNothing, Pass, last_index, own};
ghost use Rattle.joint_history.specs.Ending.{HasAll, HasIdleDriver};
ghost use Rattle.joint_history.specs.Operations.{IsOwnThread};
ghost use Rattle.shared_tests.specs.Starts.{IsStarting};

use crate::given::callers_from;
use joint_history::{Caller, Desk, Locks, Shared};
use joint_model::{
    Act, Cell, Entry, GName, History, Holding, Kind, Made, Marking, Op, Reply, Sort, StaticNo,
    Thread, Var,
};
use joint_replay::{JointState, Verdict};
use order_table::{Order, OrderName, Seat};
use std::alloc::{AllocError, Global};
use std::marker::Brand;
use std::sync::Wait;
use std::test::Fail;
use std::thread;
use std::thread::Threads;

// After how many operations a thread's table begins anew.
const ROUND: u32 = 20;

// What managed thread `n` does at a place of its table.
fn managed_act(n: u8, place: u32) -> Act
    requires { n ≤ 8 }
    ensures { IsManagedAct result }
{
    let (a, b, c, d) = (Var(0), Var(1), Var(2), Var(3));
    let (x, k) = (StaticNo(n), Cell(n));
    match place {
        1 => Act::New {
            v: a,
            kind: Kind::Plain,
            fields: 1,
        },
        2 => Act::Bridge {
            v: b,
            kind: Kind::Bridge,
            fields: 1,
            sort: Sort::User,
            peer_fields: 2,
        },
        3 => Act::Set {
            v: b,
            i: 0,
            w: Some(a),
        },
        4 => Act::Get { v: c, w: b, i: 0 },
        5 => Act::Handle { v: b },
        6 => Act::Pass { v: b, x },
        7 => Act::Surface { v: c, x },
        8 => Act::Store { x, v: Some(a) },
        9 => Act::Load { v: d, x },
        10 => Act::Weak { k, v: d },
        11 => Act::Read { k },
        12 => Act::Await { k },
        13 => Act::Take { v: d },
        14 => Act::Dispose { v: b },
        15 => Act::Surface { v: c, x },
        16 => Act::Dispose { v: c },
        17 => Act::Copy { v: d, w: c },
        18 => Act::Store { x, v: None },
        19 => Act::Drop { v: c },
        _ => Act::Drop { v: b },
    }
}

// What peer thread `n` does at a place of its table.
fn peer_act(n: u8, place: u32) -> Act
    requires { n ≤ 8 }
    ensures { IsPeerAct result }
{
    let (a, b, c, d) = (Var(0), Var(1), Var(2), Var(3));
    let (x, g, h) = (StaticNo(7 + n), GName(n), GName(16 + n));
    match place {
        1 => Act::NewPeer { v: a, fields: 2 },
        2 => Act::NewPeer { v: b, fields: 1 },
        3 => Act::Set {
            v: a,
            i: 1,
            w: Some(b),
        },
        4 => Act::Get { v: c, w: a, i: 1 },
        5 => Act::Copy { v: d, w: c },
        6 => Act::Global { g, v: a },
        7 => Act::WGlobal { g: h, v: b },
        8 => Act::WRead { v: c, g: h },
        9 => Act::Store { x, v: Some(b) },
        10 => Act::Load { v: d, x },
        11 => Act::Collect,
        12 => Act::UnGlobal { g },
        13 => Act::WRead { v: d, g },
        14 => Act::Store { x, v: None },
        15 => Act::Drop { v: a },
        16 => Act::Drop { v: b },
        17 => Act::Drop { v: c },
        18 => Act::Collect,
        19 => Act::WRead { v: d, g: h },
        _ => Act::UnGlobal { g: h },
    }
}

// Makes the operation of a line. One that finds no memory is seen in the history.
fn make_line<N: OrderName>(
    rt: &impl Wait,
    shared: &Shared<N, Locks>,
    caller: &mut Caller<N>,
    index: u32,
)
    requires thread { IsOwnThread caller.old.thread }
    requires index { last_index (own caller.old) ≤ index }
    ensures thread { caller.new.thread ≡ caller.old.thread }
    ensures index { last_index (own caller.new) ≤ index }
{
    let _ = match caller.thread() {
        Thread::M(n) => shared.managed(rt, caller, index, &managed_act(n, index % ROUND)),
        Thread::P(n) => shared.peer(rt, caller, index, &peer_act(n, index % ROUND)),
        Thread::C => unreachable!(),
    };
}

// Makes so many lines of a thread, numbered from 1 on.
fn make_lines<N: OrderName>(
    rt: &impl Wait,
    shared: &Shared<N, Locks>,
    caller: Caller<N>,
    lines: u32,
) -> Caller<N>
    requires { IsStarting caller }
    ensures { result.thread ≡ caller.thread }
{
    let mut caller = caller;
    for line in 0..lines {
        make_line(rt, shared, &mut caller, line + 1);
    }
    caller
}

// All threads at once, to their ends.
fn make_all<N: OrderName + Send + Sync, R: Threads + Wait + Sync>(
    rt: &R,
    shared: &Shared<N, Locks>,
    callers: Vec<Caller<N>>,
    lines: u32,
) -> Result<Vec<Caller<N>>, AllocError>
    requires { All IsStarting callers.items }
    ensures len { IfOk result (λ v. vec_len v ≡ vec_len callers) }
    ensures threads { IfOk result (λ v. (i : ℕ) (d : Pass) → i < vec_len callers
        → (slice_index_or v.items i d).thread ≡ (slice_index_or callers.items i d).thread) }
{
    thread::map_vec(
        rt,
        callers,
        &|caller: Caller<N>| -> Caller<N>
            requires { IsStarting caller }
            ensures { result.thread ≡ caller.thread }
        { make_lines(rt, shared, caller, lines) },
    )
}

// The callers of all threads but the driver's, each after so many lines.
fn play<N: OrderName + Send + Sync, R: Threads + Wait + Sync>(
    rt: &R,
    alloc: Global,
    shared: &Shared<N, Locks>,
    desk: &mut Desk<N>,
    lines: u32,
) -> Result<Vec<Caller<N>>, AllocError>
    requires { HasAll desk.old [] }
    ensures all { IfOk result (λ v. HasAll desk.new v.items) }
    ensures idle { IfOk result (λ v. All HasIdleDriver v.items) }
{
    let callers = callers_from(alloc, desk, 1)?;
    let ended = make_all(rt, shared, callers, lines)?;
    Ok(ended)
}

// A run of m1, m2, p1 and p2, each of so many lines, from the desk to the finished history.
fn run<N: OrderName + Send + Sync, R: Threads + Wait + Sync>(
    rt: &R,
    alloc: Global,
    order: Order,
    seat: Seat,
    lines: u32,
) -> Result<History, AllocError>
    requires order { order ≡ N.order }
    requires run { (N.managed ≡ 2) × (N.peers ≡ 2) }
    requires seat { (seat.order ≡ N.order) × OwnsAll seat.view × KnowsNothing seat.view × Settled seat.view }
{
    let (shared, mut desk) = Shared::<N, Locks>::new(alloc, order, seat, 2, 2, Holding::Every)?;
    match play(rt, alloc, &shared, &mut desk, lines) {
        Ok(callers) => shared.finish(desk, callers).map_err(|_| AllocError),
        Err(fault) => {
            drop(desk);
            drop(shared);
            Err(fault)
        }
    }
}

// What is seen of a thread in a history: how many entries it has, the line of the last one, and whether its lines rise
// by one.
#[derive(Clone, Copy)]
struct SeenOfThread {
    entries: u32,
    line: u32,
    in_order: bool,
}

// What is seen of the history at all: whether the numbers are those from 0 on, how many collections there are, each a
// begin that gave the next number with its sweep as the next entry of the peer side, and how often some replies were
// given.
#[derive(Clone, Copy)]
struct SeenOfAll {
    numbered: bool,
    collections: u32,
    whole: bool,
    twins: u32,
    anew: u32,
    unset: u32,
    freed: u32,
}

// Whether an entry is one of the peer side's.
fn is_of_peers(entry: &Entry) -> bool {
    match entry.made.op {
        Op::Line(_) => matches!(entry.made.caller, Thread::P(_)),
        Op::Make { .. } | Op::Land { .. } | Op::Grip { .. } | Op::Release { .. } => true,
        Op::Begin | Op::Sweep => true,
        _ => false,
    }
}

// With one entry more of the thread.
fn seen_after(seen: SeenOfThread, t: Thread, entry: &Entry) -> SeenOfThread {
    if entry.made.caller != t {
        return seen;
    }
    let line = entry.made.index;
    SeenOfThread {
        entries: seen.entries.wrapping_add(1),
        line,
        in_order: seen.in_order && (line == seen.line || line == seen.line.wrapping_add(1)),
    }
}

// What is seen of a thread.
fn seen_of(history: &History, t: Thread) -> SeenOfThread {
    let mut seen = SeenOfThread {
        entries: 0,
        line: 0,
        in_order: true,
    };
    for i in 0..history.len() {
        if let Some(entry) = history.entry(i) {
            seen = seen_after(seen, t, &entry);
        }
    }
    seen
}

// With the reply of one entry more, by the marking that the entry before it on the peer side began, and its thread. A
// begin alone is answered by a marking, and a sweep alone by what it freed.
fn told_reply(told: SeenOfAll, open: Option<(Marking, Thread)>, made: &Made) -> SeenOfAll {
    let mut told = told;
    match made.reply {
        Reply::Mark(j) => {
            told.collections = told.collections.wrapping_add(1);
            let next = j == Marking(told.collections) && made.op == Op::Begin;
            told.whole = told.whole && next && open.is_none();
        }
        Reply::Swept(j, span) => {
            let own = open == Some((j, made.caller)) && made.op == Op::Sweep;
            told.whole = told.whole && own && span.first == told.freed;
            told.freed = told.freed.wrapping_add(span.count);
        }
        Reply::Twin(_) => told.twins = told.twins.wrapping_add(1),
        Reply::New(_) => told.anew = told.anew.wrapping_add(1),
        Reply::Unset => told.unset = told.unset.wrapping_add(1),
        _ => {}
    }
    told
}

// With one entry more.
fn told_after(told: SeenOfAll, open: Option<(Marking, Thread)>, entry: &Entry) -> SeenOfAll {
    let mut told = told_reply(told, open, &entry.made);
    if open.is_some() && entry.made.op != Op::Sweep && is_of_peers(entry) {
        told.whole = false;
    }
    told
}

// The marking that is begun after an entry.
fn open_after(open: Option<(Marking, Thread)>, entry: &Entry) -> Option<(Marking, Thread)> {
    match entry.made.op {
        Op::Begin => match entry.made.reply {
            Reply::Mark(j) => Some((j, entry.made.caller)),
            _ => open,
        },
        Op::Sweep => None,
        _ => open,
    }
}

// What is seen of the history at all.
fn told_in(history: &History) -> SeenOfAll {
    let mut told = SeenOfAll {
        numbered: true,
        collections: 0,
        whole: true,
        twins: 0,
        anew: 0,
        unset: 0,
        freed: 0,
    };
    let mut open = None;
    for i in 0..history.len() {
        if let Some(entry) = history.entry(i) {
            told = told_after(told, open, &entry);
            told.numbered = told.numbered && entry.number == i;
            open = open_after(open, &entry);
        }
    }
    told
}

// A round of a managed thread has 27 entries: a bridge, a pass and two disposals have two each, of two surfaces the
// first has three, since the object still holds the peer's handle, and the second two. A round of a peer thread has 22:
// a collect has two.
#[test]
fn four_threads_at_once_make_one_history(rt: HostRuntime) -> Result<(), Fail> {
    let (order, seat) = Order::new(rt.alloc(), 2)?;
    let history = run::<Brand, _>(&rt, rt.alloc(), order, seat, 10_000)?;
    let (managed, peer) = (13_500, 11_000);
    for (t, entries) in [
        (Thread::M(1), managed),
        (Thread::M(2), managed),
        (Thread::P(1), peer),
        (Thread::P(2), peer),
        (Thread::C, 0),
    ] {
        let line = if entries == 0 { 0 } else { 10_000 };
        let seen = seen_of(&history, t);
        assert!(rt; seen.entries == entries && seen.line == line && seen.in_order);
    }
    assert_eq!(rt; history.len(), 49_000);
    let told = told_in(&history);
    assert!(rt; told.numbered && told.whole && told.collections == 2_000);
    assert!(rt; told.twins == 1_000 && told.anew == 1_000 && told.unset == 1_000);
    Ok(())
}

// The first entry that is no step of the joint machine from the entries before it; None where all are steps.
fn first_unlawful(alloc: Global, history: &History) -> Result<Option<u64>, AllocError> {
    let mut state = JointState::new(alloc)?;
    let found = unlawful_for(&mut state, history);
    drop(state);
    found
}

// The same from the first state on.
fn unlawful_for(state: &mut JointState, history: &History) -> Result<Option<u64>, AllocError> {
    for i in 0..history.len() {
        match state.replay_step(history, i)? {
            Verdict::Lawful => {}
            Verdict::Unlawful => return Ok(Some(i)),
        }
    }
    Ok(None)
}

// How many entries a history has, and the first one that is no step. The history ends then.
fn judged(alloc: Global, history: History) -> Result<(u64, Option<u64>), AllocError> {
    let count = history.len();
    let unlawful = first_unlawful(alloc, &history);
    drop(history);
    Ok((count, unlawful?))
}

// Each entry of such a run is a step of the joint machine. It looks at all of both heaps for each collection.
#[test]
fn the_joint_machine_makes_each_step_of_four_threads(rt: HostRuntime) -> Result<(), Fail> {
    let (order, seat) = Order::new(rt.alloc(), 2)?;
    let history = run::<Brand, _>(&rt, rt.alloc(), order, seat, 10_000)?;
    let seen = judged(rt.alloc(), history)?;
    assert_eq!(rt; seen, (49_000, None));
    Ok(())
}
