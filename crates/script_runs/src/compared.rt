// The run of a script on one thread with a listing of its cycles: the dead part of each is analysed by the second
// component pass as soon as its snapshot is taken, and its lines go to a sink at once, since the graphs of all cycles
// together may be many.

ghost use Rattle.std.specs.Prelude.{◌≡◌, ℕ, ◌+◌, ◌≤◌, ◌<◌, ◌^◌, [], ◌∷◌, List, All, IfOk, OnOk, OnErr, length};
ghost use Rattle.byte_streams.specs.Faults.{AppendsPart};
ghost use Rattle.joint_machine.specs.Histories.{Finished};
ghost use Rattle.joint_machine.specs.LinkedHistories.{IsLinked};
ghost use Rattle.joint_machine.specs.Lines.{IsLine};
ghost use Rattle.joint_machine.specs.Phases.{phases_of};
ghost use Rattle.joint_machine.specs.declared.names.Phase.TheVariants.{Idle};
ghost use Rattle.joint_machine.specs.declared.names.PhaseWord.TheVariants as word;
ghost use Rattle.joint_machine.specs.declared.names.Thread.TheVariants.{C};
ghost use Rattle.order_table.specs.Allowed.{Settled};
ghost use Rattle.order_table.specs.Views.{OwnsAll};
ghost use Rattle.joint_history.specs.Callers.{KnowsNothing};
ghost use Rattle.joint_history.specs.Desks.{AreAll};
ghost use Rattle.joint_history.specs.Ending.{BeginsHistory, HasAll, HasIdleDriver, HasOwn, IsFinished, IsKnownHistory};
ghost use Rattle.bridge_cycle.specs.Progress.{RunsWords, line_of};
ghost use Rattle.run_laws.specs.Final.{IsRunInOrder};
ghost use Rattle.run_laws.specs.Serial.{AreOthers};
ghost use Rattle.bridge_script.specs.Scripts.{IsScriptLine};
ghost use Rattle.graph_listing.specs.Listing.{Listed, cycles_text};
ghost use Rattle.graph_listing.specs.Numbers.{AreOfNodes, listed_of};
ghost use Rattle.script_runs.specs.Running.{AreUpTo, CanRun, DrivesLine, HasComeThrough};
ghost use Rattle.script_runs.specs.Stations.{AreNewCallers, ComesTo, HasListedAll};
ghost use Rattle.listing_laws.specs.Listings.{IsListedIn};
ghost use Rattle.listing_laws.specs.Writing.{GoesOn, WroteListing};
ghost use Rattle.script_runs.specs.Listed.{AreAllListed, EndsListing, Lists, ListsLine, ListsOne};
ghost use Rattle.script_runs.specs.Listed.{opening_of};

use crate::lines::{drive_left, drive_line};
use crate::places::is_thread;
use crate::serial::{all_retired, new_callers, run_other};
use bridge_cycle::Driver;
use bridge_graph::DeadGraph;
use byte_streams::{Failed, Sink};
use compare_pass::second_pass;
use graph_listing::{write_end, write_listing};
use joint_history::{Alone, Caller, Desk, Shared};
use joint_model::{Act, Cycle, History, Holding, Phase, PhaseWord, Thread};
use order_table::{Order, OrderName, Seat};
use std::alloc::{AllocError, Global};
use std::marker::Brand;
use std::sync::Wait;
use xref_list::Components;

/// A finished run of a script whose cycles were listed: its history, and whether the sink took the whole listing.
#[derive(Drop)]
pub struct Compared {
    pub history: History,
    pub written: Result<(), Failed>,
}

/// How the listing stands: of how many cycles there was something to list, and whether the sink took all of it.
#[derive(Clone, Copy)]
pub(crate) struct Listing {
    pub cycles: u32,
    pub written: Result<(), Failed>,
}

// Whether a line of the driver opens a cycle, and whether it ends it too.
#[derive(Clone, Copy)]
enum Opening {
    Snap,
    Cycle,
    Other,
}

fn opening_by(act: &Act, phase: Phase) -> Opening
    ensures { result ≡ opening_of act.now phase }
{
    match (phase, *act) {
        (
            Phase::Idle,
            Act::PhaseLine {
                word: PhaseWord::Snap,
            },
        ) => Opening::Snap,
        (
            Phase::Idle,
            Act::PhaseLine {
                word: PhaseWord::Cycle,
            },
        ) => Opening::Cycle,
        _ => Opening::Other,
    }
}

// Writes the lines of the next cycle, unless the sink failed before.
fn write_next<O: Sink>(
    graph: &DeadGraph,
    comps: &Components,
    cycle: Cycle,
    written: Result<(), Failed>,
    out: &mut O,
) -> Result<(), Failed>
    requires nodes { AreOfNodes graph.now.nodes comps.now.comps }
    ensures { GoesOn (O.held out.old) (O.held out.new) (O.faults out.old)
        (O.faults out.new) written result (listed_of cycle.0 graph.now comps.now ∷ []) }
{
    match written {
        Ok(()) => write_listing(graph, comps, cycle, out),
        Err(failed) => Err(failed),
    }
}

// Lists the open cycle: the second pass finds the components of its dead part, and the sink gets their lines, unless it
// failed before.
fn list_cycle<N: OrderName, O: Sink>(
    alloc: Global,
    driver: &Driver<N>,
    listing: &mut Listing,
    out: &mut O,
) -> Result<(), AllocError>
    requires busy { ¬ (driver.now.phase ≡ Idle) }
    requires few { listing.old.cycles < u32.MAX }
    ensures { Lists result listing.old listing.new (O.held out.old) (O.held out.new)
        (O.faults out.old) (O.faults out.new) (λ _ cycles. ListsOne driver.now cycles) }
{
    let Some(graph) = driver.graph() else {
        unreachable!()
    };
    let Ok(comps) = second_pass(alloc, graph) else {
        return Err(AllocError);
    };
    let cycle = driver.cycle_number();
    listing.written = write_next(graph, &comps, cycle, listing.written, out);
    listing.cycles += 1;
    Ok(())
}

// Opens a cycle, and lists it.
fn open_listed<N: OrderName, O: Sink>(
    rt: &impl Wait,
    alloc: Global,
    shared: &Shared<N, Alone>,
    driver: &mut Driver<N>,
    index: u32,
    listing: &mut Listing,
    out: &mut O,
) -> Result<(), AllocError>
    requires phase { driver.old.phase ≡ Idle }
    requires index { line_of driver.old ≤ index }
    requires few { listing.old.cycles < u32.MAX }
    ensures index { line_of driver.new ≤ index }
    ensures runs { OnOk result (RunsWords driver.old driver.new index (word.Snap ∷ [])) }
    ensures lists { Lists result listing.old listing.new (O.held out.old) (O.held out.new)
        (O.faults out.old) (O.faults out.new) (λ _ cycles. ListsLine driver.old driver.new cycles) }
{
    let Ok(()) = driver.snap(rt, alloc, shared, index) else {
        return Err(AllocError);
    };
    list_cycle(alloc, driver, listing, out)
}

// Opens a cycle, lists it, and makes its other phases.
fn cycle_listed<N: OrderName, O: Sink>(
    rt: &impl Wait,
    alloc: Global,
    shared: &Shared<N, Alone>,
    driver: &mut Driver<N>,
    index: u32,
    listing: &mut Listing,
    out: &mut O,
) -> Result<(), AllocError>
    requires phase { driver.old.phase ≡ Idle }
    requires index { line_of driver.old ≤ index }
    requires few { listing.old.cycles < u32.MAX }
    ensures index { line_of driver.new ≤ index }
    ensures runs { OnOk result (RunsWords driver.old driver.new index (phases_of word.Cycle)) }
    ensures lists { Lists result listing.old listing.new (O.held out.old) (O.held out.new)
        (O.faults out.old) (O.faults out.new) (λ _ cycles. ListsLine driver.old driver.new cycles) }
{
    let Ok(()) = open_listed(rt, alloc, shared, driver, index, listing, out) else {
        return Err(AllocError);
    };
    driver.end(rt, alloc, shared, index)
}

// Runs a line of the driver, and lists the cycle that it opens, if it opens one.
fn drive_listed<N: OrderName, O: Sink>(
    rt: &impl Wait,
    alloc: Global,
    shared: &Shared<N, Alone>,
    driver: &mut Driver<N>,
    index: u32,
    act: &Act,
    listing: &mut Listing,
    out: &mut O,
) -> Result<(), AllocError>
    requires act { IsLine C act.now }
    requires index { line_of driver.old ≤ index }
    requires few { listing.old.cycles < u32.MAX }
    ensures index { line_of driver.new ≤ index }
    ensures ok { OnOk result (DrivesLine driver.old driver.new index act.now) }
    ensures lists { Lists result listing.old listing.new (O.held out.old) (O.held out.new)
        (O.faults out.old) (O.faults out.new) (λ _ cycles. ListsLine driver.old driver.new cycles) }
{
    match opening_by(act, driver.phase()) {
        Opening::Snap => open_listed(rt, alloc, shared, driver, index, listing, out),
        Opening::Cycle => cycle_listed(rt, alloc, shared, driver, index, listing, out),
        Opening::Other => drive_line(rt, alloc, shared, driver, index, act),
    }
}

// Runs one line, lists the cycle that it opens, if it opens one, and answers the number of the driver's last line.
fn run_next_listed<N: OrderName, O: Sink>(
    rt: &impl Wait,
    alloc: Global,
    shared: &Shared<N, Alone>,
    driver: &mut Driver<N>,
    others: &mut Vec<Caller<N>>,
    last: u32,
    number: u32,
    line: &(Thread, Act),
    listing: &mut Listing,
    out: &mut O,
) -> Result<u32, AllocError>
    requires line { IsScriptLine line.now }
    requires others { AreOthers others.old.items }
    requires up_to { AreUpTo number others.old.items }
    requires driven { (line_of driver.old ≤ last) × (last ≤ number) }
    requires few { listing.old.cycles < u32.MAX }
    ensures { Lists result listing.old listing.new (O.held out.old) (O.held out.new) (O.faults out.old)
        (O.faults out.new) (λ r cycles. ComesTo number last r line.now driver.old driver.new
        others.old.items others.new.items × ListsLine driver.old driver.new cycles) }
{
    let (thread, act) = line;
    if is_thread(Thread::C, *thread) {
        let Ok(()) = drive_listed(rt, alloc, shared, driver, number, act, listing, out) else {
            return Err(AllocError);
        };
        return Ok(number);
    }
    let Ok(()) = run_other(rt, shared, driver, others, number, line) else {
        return Err(AllocError);
    };
    Ok(last)
}

// Runs all lines, one after another, lists each cycle, and answers the number of the driver's last line.
fn run_all_listed<N: OrderName, O: Sink>(
    rt: &impl Wait,
    alloc: Global,
    shared: &Shared<N, Alone>,
    driver: &mut Driver<N>,
    others: &mut Vec<Caller<N>>,
    script: &[(Thread, Act)],
    listing: &mut Listing,
    out: &mut O,
) -> Result<u32, AllocError>
    requires lines { CanRun script.now }
    requires new { AreNewCallers driver.old others.old.items }
    requires none { listing.old.cycles ≡ 0 }
    ensures { Lists result listing.old listing.new (O.held out.old) (O.held out.new)
        (O.faults out.old) (O.faults out.new) (λ last cycles. HasComeThrough script.now last
        driver.new others.new.items × AreAllListed driver.new cycles) }
{
    let mut last = 0;
    let mut number = 0;
    for line in script {
        number += 1;
        let Ok(next) = run_next_listed(
            rt, alloc, shared, driver, others, last, number, line, listing, out,
        ) else {
            return Err(AllocError);
        };
        last = next;
    }
    Ok(last)
}

// Runs all lines, lists each cycle, and makes the phases that the driver's lines have left.
fn compare_script<N: OrderName, O: Sink>(
    rt: &impl Wait,
    alloc: Global,
    shared: &Shared<N, Alone>,
    driver: &mut Driver<N>,
    others: &mut Vec<Caller<N>>,
    script: &[(Thread, Act)],
    listing: &mut Listing,
    out: &mut O,
) -> Result<(), AllocError>
    requires lines { CanRun script.now }
    requires new { AreNewCallers driver.old others.old.items }
    requires none { listing.old.cycles ≡ 0 }
    ensures { Lists result listing.old listing.new (O.held out.old) (O.held out.new) (O.faults out.old)
        (O.faults out.new) (λ _ cycles. HasListedAll script.now driver.new others.new.items cycles) }
{
    let Ok(last) = run_all_listed(rt, alloc, shared, driver, others, script, listing, out) else {
        return Err(AllocError);
    };
    drive_left(rt, alloc, shared, driver, last)
}

// Runs a script by the callers of the desk, lists each cycle, and answers the callers that were given out.
fn compare_by_desk<N: OrderName, O: Sink>(
    rt: &impl Wait,
    alloc: Global,
    shared: &Shared<N, Alone>,
    desk: &mut Desk<N>,
    script: &[(Thread, Act)],
    listing: &mut Listing,
    out: &mut O,
) -> Result<Vec<Caller<N>>, AllocError>
    requires desk { (desk.old.managed ≡ 8) × (desk.old.peers ≡ 8) × AreAll desk.old.callers }
    requires lines { CanRun script.now }
    requires none { listing.old.cycles ≡ 0 }
    ensures all { IfOk result (λ v. HasAll desk.new v.items) }
    ensures idle { IfOk result (λ v. All HasIdleDriver v.items) }
    ensures ran { IfOk result (λ v. (h : Finished) → IsLinked h → IsFinished h → length h.entries < 2 ^ 64
        → All (HasOwn h.entries) v.items → All (BeginsHistory h.entries) v.items → IsRunInOrder script.now h) }
    ensures lists { Lists result listing.old listing.new (O.held out.old) (O.held out.new)
        (O.faults out.old) (O.faults out.new)
        (λ v cycles. (h : Finished) → IsLinked h → All (HasOwn h.entries) v.items
        → IsKnownHistory v.items h → IsListedIn h cycles) }
{
    let Ok((mut driver, mut others)) = new_callers(alloc, desk) else {
        return Err(AllocError);
    };
    let ran = compare_script(
        rt,
        alloc,
        shared,
        &mut driver,
        &mut others,
        script,
        listing,
        out,
    );
    match ran {
        Ok(()) => all_retired(driver, others),
        Err(fault) => {
            drop(others);
            drop(driver);
            Err(fault)
        }
    }
}

// Writes the last line of a listing, unless the sink failed before.
fn write_last<O: Sink>(listing: Listing, out: &mut O) -> Result<(), Failed>
    ensures { EndsListing listing.cycles (O.held out.old) (O.held out.new)
        (O.faults out.old) (O.faults out.new) listing.written result }
{
    match listing.written {
        Ok(()) => write_end(listing.cycles as u64, out),
        Err(failed) => Err(failed),
    }
}

// Runs a script by the callers of one order, for its history, and lists its cycles.
fn compare_named<N: OrderName, O: Sink>(
    rt: &impl Wait,
    alloc: Global,
    order: Order,
    seat: Seat,
    script: &[(Thread, Act)],
    out: &mut O,
) -> Result<Compared, AllocError>
    requires order { order ≡ N.order }
    requires run { (N.managed ≡ 8) × (N.peers ≡ 8) }
    requires seat { (seat.order ≡ N.order) × OwnsAll seat.view × KnowsNothing seat.view × Settled seat.view }
    requires lines { CanRun script.now }
    ensures history { IfOk result (λ c. IsRunInOrder script.now c.history) }
    ensures listing { IfOk result (λ c. WroteListing c.history (O.held out.old)
        (O.held out.new) (O.faults out.old) (O.faults out.new) c.written) }
    ensures memory { OnErr result ((cycles : List Listed)
        × AppendsPart (O.held out.old) (O.held out.new) (cycles_text cycles)) }
{
    let Ok((shared, mut desk)) = Shared::<N, Alone>::new(alloc, order, seat, 8, 8, Holding::Every)
    else {
        return Err(AllocError);
    };
    let mut listing = Listing {
        cycles: 0,
        written: Ok(()),
    };
    let Ok(callers) = compare_by_desk(rt, alloc, &shared, &mut desk, script, &mut listing, out)
    else {
        drop(shared);
        return Err(AllocError);
    };
    let Ok(history) = shared.finish(desk, callers) else {
        return Err(AllocError);
    };
    let written = write_last(listing, out);
    Ok(Compared { history, written })
}

/// Runs the lines of a script as `run_serial` does, and writes the listing of its cycles while they run: of each
/// snapshot the components of the dead part, its heavy classes and its cross-references, and `end` with the number of
/// snapshots. They are found by the second component pass. Where the sink fails the run goes on to its end, and nothing
/// more is written: `written` tells it, and a beginning of the listing stands at the sink. Answers `AllocError` where
/// there is no memory; a beginning of a listing may stand at the sink then too.
pub fn run_compared<O: Sink>(
    rt: &impl Wait,
    alloc: Global,
    script: &[(Thread, Act)],
    out: &mut O,
) -> Result<Compared, AllocError>
    requires lines { CanRun script.now }
    ensures history { IfOk result (λ c. IsRunInOrder script.now c.history) }
    ensures listing { IfOk result (λ c. WroteListing c.history (O.held out.old)
        (O.held out.new) (O.faults out.old) (O.faults out.new) c.written) }
    ensures memory { OnErr result ((cycles : List Listed)
        × AppendsPart (O.held out.old) (O.held out.new) (cycles_text cycles)) }
{
    let Ok((order, seat)) = Order::new(alloc, 8) else {
        return Err(AllocError);
    };
    compare_named::<Brand, O>(rt, alloc, order, seat, script, out)
}
