// Runs of eight managed threads that read weak cells without a lock while the driver's cycles go on. What each thread
// does is a function of its line, so how many reads it makes is the same whatever the schedule.

ghost use Rattle.std.specs.Prelude.{◌≡◌, ◌≤◌, ◌<◌, ℕ, map, [], All, IfOk, Ok, slice_index_or, vec_len};
ghost use Rattle.joint_machine.specs.Lines.{IsDriver, IsManagedAct, IsManagedThread, IsVar};
ghost use Rattle.order_table.specs.Allowed.{Settled};
ghost use Rattle.order_table.specs.Views.{OwnsAll};
ghost use Rattle.joint_history.specs.Callers.{KnowsNothing, last_index, own};
ghost use Rattle.joint_history.specs.Ending.{HasAll, HasIdleDriver};
ghost use Rattle.bridge_cycle.specs.Progress.{line_of};
ghost use Rattle.shared_tests.specs.Starts.{EndsIdle, IsWaiting};

use crate::given::callers_from;
use bridge_cycle::Driver;
use joint_history::{Caller, Desk, Locks, Shared};
use joint_model::{
    Act, Cell, Entry, History, Holding, Kind, Op, Phase, PhaseWord, Reply, Sort, Span, Thread, Var,
};
use joint_replay::{JointState, Verdict};
use order_table::{Order, OrderName, Seat};
use std::alloc::{AllocError, Global};
use std::marker::Brand;
use std::sync::Wait;
use std::test::Fail;
use std::thread;
use std::thread::Threads;

// A managed object with a peer, which a variable names.
fn bridge(v: Var) -> Act
    requires { IsVar v }
    ensures { IsManagedAct result }
{
    Act::Bridge {
        v,
        kind: Kind::LeafBridge,
        fields: 0,
        sort: Sort::User,
        peer_fields: 0,
    }
}

// For how many of its lines a thread is at one of its cells, and how many cycles the driver runs meanwhile.
const STAY: u32 = 200;

const CYCLES: u32 = 400;

// How many runs of each plan are made.
const STAYS: u32 = 6;

const HOLDS: u32 = 2_000;

// What managed thread `n` does at a place of its stay at a cell. It reads the cells that all threads are at, each at
// once and then by waiting.
fn stay_at(n: u8, cell: u8, place: u32) -> Act
    requires { (1 ≤ n) × (n ≤ 8) × (cell < 8) }
    ensures { IsManagedAct result }
{
    let (a, b) = (Var(0), Var(1));
    let k = Cell((place / 4 % 8) as u8 * 8 + cell);
    match place {
        0 => bridge(a),
        1 => Act::Weak {
            k: Cell((n - 1) * 8 + cell),
            v: a,
        },
        100 => Act::Drop { v: a },
        _ => match place % 4 {
            0 => Act::Read { k },
            1 => Act::Await { k },
            2 => Act::Take { v: b },
            _ => Act::Drop { v: b },
        },
    }
}

// What managed thread `n` does on a line where it holds its object by its pin alone until line 60.
fn hold_at(n: u8, line: u32) -> Act
    requires { (1 ≤ n) × (n ≤ 8) }
    ensures { IsManagedAct result }
{
    let (a, b) = (Var(0), Var(1));
    let own = Cell(n - 1);
    let other = Cell(((n as u32 + line / 4) % 8) as u8);
    match line {
        0 => bridge(a),
        1 => Act::Weak { k: own, v: a },
        2 => Act::Await { k: own },
        3 => Act::Drop { v: a },
        _ if line < 60 => Act::Read { k: other },
        _ => match line % 4 {
            0 => Act::Take { v: b },
            1 => Act::Drop { v: b },
            2 => Act::Await { k: other },
            _ => Act::Read { k: other },
        },
    }
}

// What the managed threads of a run do, and how many cycles the driver runs meanwhile.
#[derive(Clone, Copy)]
enum Plan {
    // Each thread sets eight cells, one after another, lets the object of each go while it is read by all, and takes
    // what its reads pin.
    Stays,
    // Each thread sets a cell, reads it, and lets the object go. When it has taken and dropped it, it reads the cells
    // of the others.
    Holds,
}

impl Plan {
    // How many lines each managed thread has.
    fn lines(self) -> u32 {
        match self {
            Plan::Stays => 8 * STAY,
            Plan::Holds => 96,
        }
    }

    fn cycles(self) -> u32 {
        match self {
            Plan::Stays => CYCLES,
            Plan::Holds => 20,
        }
    }

    // What managed thread `n` does on a line, from 0 on.
    fn act_at(self, n: u8, line: u32) -> Act
        requires { (1 ≤ n) × (n ≤ 8) }
        ensures { IsManagedAct result }
    {
        match self {
            Plan::Stays => stay_at(n, (line / STAY % 8) as u8, line % STAY),
            Plan::Holds => hold_at(n, line),
        }
    }
}

// Makes a line of a managed thread: its reads without a lock.
fn make_line<N: OrderName>(
    rt: &impl Wait,
    shared: &Shared<N, Locks>,
    caller: &mut Caller<N>,
    index: u32,
    act: &Act,
) -> Result<(), AllocError>
    requires thread { IsManagedThread caller.old.thread }
    requires act { IsManagedAct act.now }
    requires index { last_index (own caller.old) ≤ index }
    ensures thread { caller.new.thread ≡ caller.old.thread }
    ensures index { last_index (own caller.new) ≤ index }
{
    shared.reserve(caller, 1)?;
    match *act {
        Act::Read { k: _ } => {
            shared.read_now(caller, index, act);
        }
        Act::Await { k: _ } => {
            shared.read_wait(rt, caller, index, act);
        }
        _ => {
            shared.managed(rt, caller, index, act)?;
        }
    }
    Ok(())
}

// Makes all lines of managed thread `n`, numbered from 1 on.
fn make_lines<N: OrderName>(
    rt: &impl Wait,
    shared: &Shared<N, Locks>,
    caller: Caller<N>,
    n: u8,
    plan: Plan,
) -> Result<Caller<N>, AllocError>
    requires thread { IsManagedThread caller.thread × (1 ≤ n) × (n ≤ 8) }
    requires new { KnowsNothing caller.view }
    ensures { IfOk result (λ p. p.thread ≡ caller.thread) }
{
    let mut caller = caller;
    for line in 0..plan.lines() {
        let act = plan.act_at(n, line);
        if make_line(rt, shared, &mut caller, line + 1, &act).is_err() {
            drop(caller);
            return Err(AllocError);
        }
    }
    Ok(caller)
}

// Makes the driver's cycles, each on a line, numbered from 1 on.
fn make_cycles<N: OrderName>(
    rt: &impl Wait,
    alloc: Global,
    shared: &Shared<N, Locks>,
    driver: &mut Driver<N>,
    cycles: u32,
) -> Result<(), AllocError>
    requires { line_of driver.old ≤ 0 }
    ensures { line_of driver.new ≤ cycles }
{
    let act = Act::PhaseLine {
        word: PhaseWord::Cycle,
    };
    for line in 0..cycles {
        driver.line(rt, alloc, shared, line + 1, &act)?;
    }
    Ok(())
}

// The driver's caller after its cycles. A cycle that finds no memory is ended first, since others may wait for its end.
fn drive<N: OrderName>(
    rt: &impl Wait,
    alloc: Global,
    shared: &Shared<N, Locks>,
    caller: Caller<N>,
    cycles: u32,
) -> Result<Caller<N>, AllocError>
    requires thread { IsDriver caller.thread }
    requires new { KnowsNothing caller.view }
    ensures { EndsIdle caller result }
{
    let mut driver = Driver::new(caller);
    let made = make_cycles(rt, alloc, shared, &mut driver, cycles);
    let ended = driver.end(rt, alloc, shared, cycles);
    if made.is_err() || ended.is_err() || driver.phase() != Phase::Idle {
        drop(driver);
        return Err(AllocError);
    }
    Ok(driver.retire())
}

// What a thread of the run does.
fn make_job<N: OrderName>(
    rt: &impl Wait,
    alloc: Global,
    shared: &Shared<N, Locks>,
    caller: Caller<N>,
    plan: Plan,
) -> Result<Caller<N>, AllocError>
    requires { IsWaiting caller }
    ensures { EndsIdle caller result }
{
    match caller.thread() {
        Thread::M(n) => make_lines(rt, shared, caller, n, plan),
        Thread::P(_) => Ok(caller),
        Thread::C => drive(rt, alloc, shared, caller, plan.cycles()),
    }
}

// All threads at once, to their ends.
fn make_jobs<N: OrderName + Send + Sync, R: Threads + Wait + Sync>(
    rt: &R,
    alloc: Global,
    shared: &Shared<N, Locks>,
    jobs: Vec<Caller<N>>,
    plan: Plan,
) -> Result<Vec<Result<Caller<N>, AllocError>>, AllocError>
    requires { All IsWaiting jobs.items }
    ensures len { IfOk result (λ v. vec_len v ≡ vec_len jobs) }
    ensures each { IfOk result (λ v. (i : ℕ) (d : _) (e : _) → i < vec_len jobs
        → EndsIdle (slice_index_or jobs.items i d) (slice_index_or v.items i e)) }
{
    thread::map_vec(
        rt,
        jobs,
        &|caller: Caller<N>| -> Result<Caller<N>, AllocError>
            requires { IsWaiting caller }
            ensures { EndsIdle caller result }
        { make_job(rt, alloc, shared, caller, plan) },
    )
}

// The callers with which the threads ended, or `AllocError` where one of them found no memory.
fn all_ended<N: OrderName>(
    alloc: Global,
    ended: Vec<Result<Caller<N>, AllocError>>,
) -> Result<Vec<Caller<N>>, AllocError>
    ensures { IfOk result (λ v. map (λ p. Ok p) v.items ≡ ended.items) }
{
    let mut callers = Vec::new(alloc);
    for end in ended {
        callers.push(end?)?;
    }
    Ok(callers)
}

// The callers of all threads, each after its lines.
fn play<N: OrderName + Send + Sync, R: Threads + Wait + Sync>(
    rt: &R,
    alloc: Global,
    shared: &Shared<N, Locks>,
    desk: &mut Desk<N>,
    plan: Plan,
) -> Result<Vec<Caller<N>>, AllocError>
    requires { HasAll desk.old [] }
    ensures all { IfOk result (λ v. HasAll desk.new v.items) }
    ensures idle { IfOk result (λ v. All HasIdleDriver v.items) }
{
    let jobs = callers_from(alloc, desk, 0)?;
    let ended = make_jobs(rt, alloc, shared, jobs, plan)?;
    let callers = all_ended(alloc, ended)?;
    Ok(callers)
}

// A run of c and of m1 to m8, from the desk to the finished history.
fn run<N: OrderName + Send + Sync, R: Threads + Wait + Sync>(
    rt: &R,
    alloc: Global,
    order: Order,
    seat: Seat,
    plan: Plan,
) -> Result<History, AllocError>
    requires order { order ≡ N.order }
    requires run { (N.managed ≡ 8) × (N.peers ≡ 0) }
    requires seat { (seat.order ≡ N.order) × OwnsAll seat.view × KnowsNothing seat.view × Settled seat.view }
{
    let (shared, mut desk) = Shared::<N, Locks>::new(alloc, order, seat, 8, 0, Holding::Every)?;
    match play(rt, alloc, &shared, &mut desk, plan) {
        Ok(callers) => shared.finish(desk, callers).map_err(|_| AllocError),
        Err(fault) => {
            drop(desk);
            drop(shared);
            Err(fault)
        }
    }
}

// What is seen of a thread in a history: how many entries it has and how many reads, the cells that it knows as set,
// the last cycle that a read was told of, and how many reads answered what they may not.
#[derive(Clone, Copy)]
struct SeenOfReader {
    entries: u32,
    reads: u32,
    set: u64,
    cycle: u32,
    wrong: u32,
}

// The bit of a cell.
fn bit_of(k: Cell) -> u64 {
    1 << (k.0 % 64)
}

// With one read more. Which object it answers, and that one is gone, is judged by the joint machine. A cell that the
// thread set or read as set is never unset, cycles never come back, and who waits is never told of one.
fn seen_read(seen: SeenOfReader, k: Cell, waits: bool, reply: Reply) -> SeenOfReader {
    let mut seen = seen;
    seen.reads = seen.reads.wrapping_add(1);
    let may = match reply {
        Reply::Pinned(_) => true,
        Reply::M(_) | Reply::Gone => {
            seen.set |= bit_of(k);
            true
        }
        Reply::Unset => seen.set & bit_of(k) == 0,
        Reply::Pending(cycle) => {
            let rises = seen.cycle <= cycle.0 && 1 <= cycle.0 && cycle.0 <= CYCLES;
            seen.cycle = cycle.0;
            rises && !waits
        }
        _ => false,
    };
    if !may {
        seen.wrong = seen.wrong.wrapping_add(1);
    }
    seen
}

// With one entry more.
fn seen_after(seen: SeenOfReader, t: Thread, entry: &Entry) -> SeenOfReader {
    if entry.made.caller != t {
        return seen;
    }
    let mut seen = seen;
    seen.entries = seen.entries.wrapping_add(1);
    match entry.made.op {
        Op::Line(Act::Read { k }) => seen_read(seen, k, false, entry.made.reply),
        Op::Line(Act::Await { k }) => seen_read(seen, k, true, entry.made.reply),
        Op::Line(Act::Weak { k, v: _ }) => {
            seen.set |= bit_of(k);
            seen
        }
        _ => seen,
    }
}

// What is seen of a thread.
fn seen_of(history: &History, t: Thread) -> SeenOfReader {
    let mut seen = SeenOfReader {
        entries: 0,
        reads: 0,
        set: 0,
        cycle: 0,
        wrong: 0,
    };
    for i in 0..history.len() {
        if let Some(entry) = history.entry(i) {
            seen = seen_after(seen, t, &entry);
        }
    }
    seen
}

// Whether an entry is a step of the joint machine: a read that is pending or finds its cell unset is none, and what a
// cycle does between its snapshot and its end is none but for the marking and the restores.
fn is_step(entry: &Entry) -> bool {
    match entry.made.op {
        Op::Line(Act::Read { .. } | Act::Await { .. }) => {
            !matches!(entry.made.reply, Reply::Pending(_) | Reply::Unset)
        }
        Op::Contract { .. } | Op::Mirror { .. } | Op::Weaken { .. } | Op::Clear { .. } => false,
        _ => true,
    }
}

// The first entry that is no step of the joint machine from the entries before it where it has to be one; None where
// there is none.
fn first_unlawful(alloc: Global, history: &History) -> Result<Option<u64>, AllocError> {
    let mut state = JointState::new(alloc)?;
    let found = unlawful_for(&mut state, history);
    drop(state);
    found
}

// The same from the first state on.
fn unlawful_for(state: &mut JointState, history: &History) -> Result<Option<u64>, AllocError> {
    for i in 0..history.len() {
        let judged = state.replay_step(history, i)?;
        let is_due = history.entry(i).is_some_and(|entry| is_step(&entry));
        if is_due != (judged == Verdict::Lawful) {
            return Ok(Some(i));
        }
    }
    Ok(None)
}

// How many entries end a cycle.
fn ends_in(history: &History) -> u32 {
    let mut count = 0u32;
    for i in 0..history.len() {
        if let Some(entry) = history.entry(i) {
            if matches!(entry.made.op, Op::Resolve { .. }) {
                count = count.wrapping_add(1);
            }
        }
    }
    count
}

// How many of the eight threads made all entries and reads of eight stays, and no read that answers what it may not.
fn right_in(history: &History) -> u32 {
    let mut right = 0u32;
    for n in 1..9u8 {
        let seen = seen_of(history, Thread::M(n));
        if seen.entries == 1_608 && seen.reads == 776 && seen.wrong == 0 {
            right = right.wrapping_add(1);
        }
    }
    right
}

// How many threads made all that, how many cycles ended, and the first entry that is no step of the joint machine. The
// history ends then.
fn seen_of_stays(alloc: Global, history: History) -> Result<(u32, u32, Option<u64>), AllocError> {
    let (right, ends) = (right_in(&history), ends_in(&history));
    let unlawful = first_unlawful(alloc, &history);
    drop(history);
    Ok((right, ends, unlawful?))
}

// A stay at a cell has 97 reads, in two of four places but for the first, the second and the hundredth, and one entry
// more than places, since a bridge has two. The joint machine has an object that a pin holds among its roots: so an
// object that was read isn't freed before it is taken.
#[test]
fn eight_threads_read_at_once_while_cycles_go_on(rt: HostRuntime) -> Result<(), Fail> {
    for _ in 0..STAYS {
        let (order, seat) = Order::new(rt.alloc(), 8)?;
        let history = run::<Brand, _>(&rt, rt.alloc(), order, seat, Plan::Stays)?;
        let seen = seen_of_stays(rt.alloc(), history)?;
        assert_eq!(rt; seen, (8, 400, None));
    }
    Ok(())
}

// The objects in the pins of m1 to m8, by the thread's number; 0 where a pin is empty.
type Pins = [u32; 9];

// What the pin of an entry's thread has behind it, where the entry sets it: the object that a read gave, or nothing
// after a `take`.
fn pin_after(entry: &Entry) -> Option<u32> {
    match entry.made.op {
        Op::Line(Act::Read { .. } | Act::Await { .. }) => match entry.made.reply {
            Reply::M(m) => Some(m.0),
            _ => None,
        },
        Op::Line(Act::Take { .. }) => Some(0),
        _ => None,
    }
}

// With one entry more.
fn pins_after(pins: Pins, entry: &Entry) -> Pins {
    let Thread::M(n) = entry.made.caller else {
        return pins;
    };
    let mut pins = pins;
    if let Some(pin) = pin_after(entry) {
        pins[(n % 9) as usize] = pin;
    }
    pins
}

// Which of the freed managed objects an entry freed.
fn freed_by(entry: &Entry) -> Span {
    let none = Span { first: 0, count: 0 };
    match entry.made.op {
        Op::Snap { .. } => match entry.made.reply {
            Reply::Snapped(_, span) => span,
            _ => none,
        },
        Op::Resolve { .. } => match entry.made.reply {
            Reply::Freed(span) => span,
            _ => none,
        },
        _ => none,
    }
}

// How many pins hold that object.
fn holding(pins: &Pins, object: u32) -> u32 {
    let mut count = 0u32;
    for pin in pins {
        if *pin == object {
            count = count.wrapping_add(1);
        }
    }
    count
}

// How many of the objects that an entry freed a pin held then.
fn freed_of(history: &History, pins: &Pins, entry: &Entry) -> u32 {
    let span = freed_by(entry);
    let mut count = 0u32;
    for i in 0..span.count {
        if let Some(object) = history.freed_managed(span.first.wrapping_add(i)) {
            count = count.wrapping_add(holding(pins, object.0));
        }
    }
    count
}

// What is seen of pins in a history: how many objects were freed while a pin held them, and how many pins held one over
// a snapshot.
#[derive(Clone, Copy)]
struct SeenOfPins {
    freed: u32,
    held: u32,
}

fn seen_of_pins(history: &History) -> SeenOfPins {
    let mut seen = SeenOfPins { freed: 0, held: 0 };
    let mut pins: Pins = [0; 9];
    for i in 0..history.len() {
        if let Some(entry) = history.entry(i) {
            seen.freed = seen.freed.wrapping_add(freed_of(history, &pins, &entry));
            if matches!(entry.made.op, Op::Snap { .. }) {
                seen.held = seen.held.wrapping_add(9u32.wrapping_sub(holding(&pins, 0)));
            }
            pins = pins_after(pins, &entry);
        }
    }
    seen
}

// Each run's finished history is gone through entry by entry, without the joint machine: none frees an object that a
// pin holds then, from the read that gave it up to its thread's next `take`. Over all runs together snapshots have to
// have found at least as many filled pins as there are runs.
#[test]
fn what_a_pin_holds_is_never_freed(rt: HostRuntime) -> Result<(), Fail> {
    let mut held = 0u32;
    for _ in 0..HOLDS {
        let (order, seat) = Order::new(rt.alloc(), 8)?;
        let history = run::<Brand, _>(&rt, rt.alloc(), order, seat, Plan::Holds)?;
        let seen = seen_of_pins(&history);
        assert_eq!(rt; seen.freed, 0);
        held = held.wrapping_add(seen.held);
    }
    assert!(rt; held >= HOLDS);
    Ok(())
}
