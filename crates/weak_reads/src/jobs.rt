// What each thread does: some read, some allocate, and the driver runs one cycle after the other.

ghost use Rattle.std.specs.Prelude.{◌≤◌};
ghost use Rattle.joint_machine.specs.Lines.{IsDriver};
ghost use Rattle.bridge_cycle.specs.Progress.{line_of};
ghost use Rattle.weak_reads.specs.Racing.{EndsIdle, GoesOn, IsReader, IsReady, IsWorker};

use crate::figures::{Figures, now};
use crate::heap::{ALIVE, GONE, LINE, allocate, let_go};
use crate::plan::{Race, Way};
use bridge_cycle::Driver;
use joint_history::{Caller, Locks, Shared};
use joint_model::{Act, Phase, PhaseWord, Reply, Thread};
use order_table::OrderName;
use std::alloc::{AllocError, Global};
use std::sync::Wait;
use std::sync::atomic::Ordering;
use std::thread::sleep;
use std::time::{Clock, Duration};
use weak_wait::Got;

// How many objects a thread makes between two rests, and how many milliseconds a rest takes.
const BURST: u32 = 64;

const REST: u64 = 1;

// Reads once, and answers whether a cycle was open. The reads without a lock take no memory: there is room for their
// entry before.
#[inline(always)]
fn read<N: OrderName>(
    rt: &impl Wait,
    shared: &Shared<N, Locks>,
    race: &Race,
    caller: &mut Caller<N>,
) -> Result<bool, AllocError>
    requires { IsReader caller.old }
    ensures { GoesOn caller.old caller.new }
{
    shared.reserve(caller, 1)?;
    let got = match race.way {
        Way::Now => shared.read_now(caller, LINE, &Act::Read { k: GONE }),
        Way::Pinned => shared.read_now(caller, LINE, &Act::Read { k: ALIVE }),
        Way::Wait => shared.read_wait(rt, caller, LINE, &Act::Await { k: GONE }),
        Way::Locked => {
            let receipt = shared.managed(rt, caller, LINE, &Act::Read { k: GONE })?;
            return Ok(matches!(receipt.reply, Reply::Pending(_)));
        }
        Way::Word => {
            race.word.fetch_add(1, Ordering::SeqCst);
            return Ok(false);
        }
    };
    Ok(matches!(got, Got::Pending { .. }))
}

// Reads so many times.
fn read_some<N: OrderName>(
    rt: &impl Wait,
    shared: &Shared<N, Locks>,
    race: &Race,
    caller: &mut Caller<N>,
    did: &mut Figures,
    reads: u8,
) -> Result<(), AllocError>
    requires { IsReader caller.old }
    ensures { GoesOn caller.old caller.new }
{
    for _ in 0..reads {
        did.count(read(rt, shared, race, caller)?);
    }
    Ok(())
}

// Reads so many times between two looks at the clock, until a time. A read that is alone between them is timed.
fn read_until<N: OrderName>(
    rt: &(impl Wait + Clock),
    shared: &Shared<N, Locks>,
    race: &Race,
    caller: &mut Caller<N>,
    did: &mut Figures,
    end: u64,
    reads: u8,
) -> Result<(), AllocError>
    requires { IsReader caller.old }
    ensures { GoesOn caller.old caller.new }
{
    for _ in rt.forever() {
        let start = now(rt);
        if end <= start {
            return Ok(());
        }
        read_some(rt, shared, race, caller, did, reads)?;
        if reads == 1 {
            did.time(now(rt).saturating_sub(start))?;
        }
    }
    unreachable!()
}

// Reads for half of the time without a clock, and then to the end read by read; what it took is added to what others
// took.
fn read_all<N: OrderName>(
    rt: &(impl Wait + Clock),
    alloc: Global,
    shared: &Shared<N, Locks>,
    race: &Race,
    caller: &mut Caller<N>,
) -> Result<(), AllocError>
    requires { IsReader caller.old }
    ensures { GoesOn caller.old caller.new }
{
    let mut did = Figures::new(alloc);
    read_until(rt, shared, race, caller, &mut did, race.half, 100)?;
    did.end_untimed();
    read_until(rt, shared, race, caller, &mut did, race.end, 1)?;
    race.figures.lock(rt).add(did)
}

// Makes objects, where the heap has room, and answers whether it has room for more.
fn allocate_some<N: OrderName>(
    rt: &impl Wait,
    shared: &Shared<N, Locks>,
    caller: &mut Caller<N>,
    has_room: bool,
) -> Result<bool, AllocError>
    requires { IsWorker caller.old }
    ensures { GoesOn caller.old caller.new }
{
    let objects = if has_room { BURST } else { 0 };
    for _ in 0..objects {
        if !allocate(rt, shared, caller)? {
            return Ok(false);
        }
    }
    Ok(has_room)
}

// Makes objects to the end, or until the heap is full, with a rest now and then, and lets all go.
fn allocate_all<N: OrderName>(
    rt: &(impl Wait + Clock),
    shared: &Shared<N, Locks>,
    race: &Race,
    caller: &mut Caller<N>,
) -> Result<(), AllocError>
    requires { IsWorker caller.old }
    ensures { GoesOn caller.old caller.new }
{
    let mut has_room = true;
    for _ in rt.forever() {
        if race.end <= now(rt) {
            return let_go(rt, shared, caller);
        }
        has_room = allocate_some(rt, shared, caller, has_room)?;
        sleep(rt, Duration::from_millis(REST));
    }
    unreachable!()
}

// What a thread does that isn't the driver.
fn work<N: OrderName>(
    rt: &(impl Wait + Clock),
    alloc: Global,
    shared: &Shared<N, Locks>,
    race: &Race,
    caller: &mut Caller<N>,
) -> Result<(), AllocError>
    requires { IsWorker caller.old }
    ensures { GoesOn caller.old caller.new }
{
    match caller.thread() {
        Thread::M(n) if n <= race.readers => read_all(rt, alloc, shared, race, caller),
        _ => allocate_all(rt, shared, race, caller),
    }
}

// Runs one cycle after the other. The last one begins when all other threads have ended, so it frees whatever they let
// go.
fn run_cycles<N: OrderName>(
    rt: &(impl Wait + Clock),
    alloc: Global,
    shared: &Shared<N, Locks>,
    race: &Race,
    driver: &mut Driver<N>,
) -> Result<(), AllocError>
    requires { line_of driver.old ≤ 1 }
    ensures { line_of driver.new ≤ 1 }
{
    let cycle = Act::PhaseLine {
        word: PhaseWord::Cycle,
    };
    for _ in rt.forever() {
        let is_last = race.others_have_ended();
        driver.line(rt, alloc, shared, LINE, &cycle)?;
        if is_last {
            return Ok(());
        }
        sleep(rt, Duration::from_millis(REST));
    }
    unreachable!()
}

/// What the driver does. A cycle that finds no memory is ended first, since others may wait for its end.
pub(crate) fn drive<N: OrderName>(
    rt: &(impl Wait + Clock),
    alloc: Global,
    shared: &Shared<N, Locks>,
    race: &Race,
    caller: Caller<N>,
) -> Result<Caller<N>, AllocError>
    requires thread { IsDriver caller.thread }
    requires ready { IsReady caller }
    ensures { EndsIdle caller result }
{
    let mut driver = Driver::new(caller);
    let made = run_cycles(rt, alloc, shared, race, &mut driver);
    driver.end(rt, alloc, shared, LINE)?;
    made?;
    if driver.phase() != Phase::Idle {
        return Err(AllocError);
    }
    Ok(driver.retire())
}

/// What the thread of a caller does, to its end.
pub(crate) fn run_thread<N: OrderName>(
    rt: &(impl Wait + Clock),
    alloc: Global,
    shared: &Shared<N, Locks>,
    race: &Race,
    caller: Caller<N>,
) -> Result<Caller<N>, AllocError>
    requires { IsReady caller }
    ensures { EndsIdle caller result }
{
    match caller.thread() {
        Thread::C => drive(rt, alloc, shared, race, caller),
        Thread::M(_) | Thread::P(_) => {
            let mut caller = caller;
            let made = work(rt, alloc, shared, race, &mut caller);
            race.one_has_ended();
            made?;
            Ok(caller)
        }
    }
}
