// The events of the driver, by where it stands.

ghost use Rattle.std.specs.Prelude.{◌≡◌, ◌<◌, ◌↔◌, IsTrue, Some};
ghost use Rattle.caller_turns.specs.Turns.{BeginTurn, ClearTurn, DriverCites, DriverTurn, HasCount, IsContracted};
ghost use Rattle.caller_turns.specs.Turns.{IsIdle, IsRestored, IsResting, IsSnapped, MayAbandon, MirrorCites};
ghost use Rattle.caller_turns.specs.Turns.{ResolveCites, RestoreTurn, SweepTurn, WeakenCites, WeakenTurn, seen_after};
ghost use Rattle.caller_turns.specs.Turns.{stand_after};

use crate::hands::cites_entry;
use crate::stands::{OpenSnap, Part, Stand};
use joint_machine::{Cycle, HNum, Op, Phase};

/// Whether no phase is half done, with so many candidates.
pub(crate) fn is_resting(stand: &Stand, candidates: u32) -> bool
    ensures { IsTrue result ↔ IsResting stand.now candidates }
{
    match *stand {
        Stand::Weakening { count, swept, .. } => (count == 0 || count == candidates) && !swept,
        Stand::Restoring { count, .. } => count == 0,
        _ => true,
    }
}

// Whether the handle is the next one.
fn is_next(part: &Part, h: HNum) -> bool
    ensures { IsTrue result ↔ (part.now.next ≡ Some h) }
{
    match part.next {
        None => false,
        Some(next) => next.0 == h.0,
    }
}

fn weaken_turn(stand: &Stand, part: &Part, h: HNum) -> bool
    ensures { IsTrue result ↔ WeakenTurn stand.now part.now h }
{
    match *stand {
        Stand::Weakening { swept, .. } => !swept && is_next(part, h),
        _ => false,
    }
}

fn begin_turn(stand: &Stand, part: &Part) -> bool
    ensures { IsTrue result ↔ BeginTurn stand.now part.now }
{
    match *stand {
        Stand::Weakening { count, .. } => count == part.candidates && !part.marking,
        _ => false,
    }
}

fn sweep_turn(stand: &Stand, part: &Part) -> bool
    ensures { IsTrue result ↔ SweepTurn stand.now part.now }
{
    match *stand {
        Stand::Weakening { count, swept, .. } => {
            count == part.candidates && !swept && part.marking
        }
        Stand::Marked(_) => true,
        _ => false,
    }
}

fn restore_turn(stand: &Stand, part: &Part, h: HNum) -> bool
    ensures { IsTrue result ↔ RestoreTurn stand.now part.now h }
{
    match *stand {
        Stand::Restoring { .. } => is_next(part, h),
        _ => false,
    }
}

fn clear_turn(stand: &Stand, part: &Part) -> bool
    ensures { IsTrue result ↔ ClearTurn stand.now part.now }
{
    match *stand {
        Stand::Restoring { count, .. } => count == part.candidates,
        _ => false,
    }
}

/// Whether the event is the next one of the phase that is half done, or the first of the phase that comes next, or one
/// that stands between phases.
pub(crate) fn driver_turn(stand: &Stand, part: &Part, op: &Op) -> bool
    ensures { IsTrue result ↔ DriverTurn stand.now part.now op.now }
{
    match op {
        Op::Line(_) | Op::Refused { .. } => is_resting(stand, part.candidates),
        Op::Snap { .. } => matches!(stand, Stand::Idle),
        Op::Contract { .. } => matches!(stand, Stand::Snapped(_)),
        Op::Mirror { .. } => matches!(stand, Stand::Contracted(_)),
        Op::Weaken { h } => weaken_turn(stand, part, *h),
        Op::Begin => begin_turn(stand, part),
        Op::Sweep => sweep_turn(stand, part),
        Op::Restore { h } => restore_turn(stand, part, *h),
        Op::Clear { .. } => clear_turn(stand, part),
        Op::Resolve { .. } => matches!(stand, Stand::Restored { .. }),
        Op::Abandon { .. } => matches!(stand, Stand::Snapped(_) | Stand::Contracted(_)),
        _ => false,
    }
}

fn mirror_cites(stand: &Stand, k: Cycle, cites: Option<u64>) -> bool
    ensures { IsTrue result ↔ MirrorCites stand.now k.0 cites }
{
    match *stand {
        Stand::Contracted(open) => open.cycle.0 == k.0 && cites_entry(cites, open.snap),
        _ => false,
    }
}

fn weaken_cites(stand: &Stand, cites: Option<u64>) -> bool
    ensures { IsTrue result ↔ WeakenCites stand.now cites }
{
    match *stand {
        Stand::Weakening { open, .. } => cites_entry(cites, open.snap),
        _ => false,
    }
}

fn resolve_cites(stand: &Stand, k: Cycle, cites: Option<u64>) -> bool
    ensures { IsTrue result ↔ ResolveCites stand.now k.0 cites }
{
    match *stand {
        Stand::Restored { open, clear } => open.cycle.0 == k.0 && cites_entry(cites, clear),
        _ => false,
    }
}

/// Whether the event cites what it has to.
pub(crate) fn driver_cites(stand: &Stand, op: &Op, cites: Option<u64>) -> bool
    ensures { IsTrue result ↔ DriverCites stand.now op.now cites }
{
    match op {
        Op::Mirror { cycle } => mirror_cites(stand, *cycle, cites),
        Op::Weaken { .. } => weaken_cites(stand, cites),
        Op::Resolve { cycle } => resolve_cites(stand, *cycle, cites),
        _ => cites.is_none(),
    }
}

// Whether it is seen that the driver has come to the weakened phase, behind a refusal in that phase.
fn seen(weakened: bool, phase: Phase) -> bool
    ensures { result ≡ seen_after weakened phase }
{
    match phase {
        Phase::Weakened => true,
        _ => weakened,
    }
}

// Behind an event between two cycles.
fn from_idle(number: u64, op: &Op, _phase: Phase) -> Stand
    ensures { result ≡ stand_after (Stand.Idle) number op.now _phase }
{
    match op {
        Op::Snap { cycle } => Stand::Snapped(OpenSnap {
            cycle: *cycle,
            snap: number,
        }),
        Op::Resolve { .. } | Op::Abandon { .. } => Stand::Idle,
        _ => Stand::Idle,
    }
}

// Behind an event after the snapshot.
fn from_snapped(cycle_open: OpenSnap, number: u64, op: &Op, _phase: Phase) -> Stand
    ensures { result ≡ stand_after (Stand.Snapped cycle_open) number op.now _phase }
{
    match op {
        Op::Snap { cycle } => Stand::Snapped(OpenSnap {
            cycle: *cycle,
            snap: number,
        }),
        Op::Resolve { .. } | Op::Abandon { .. } => Stand::Idle,
        Op::Contract { .. } => Stand::Contracted(cycle_open),
        _ => Stand::Snapped(cycle_open),
    }
}

// Behind an event after the contraction.
fn from_contracted(cycle_open: OpenSnap, number: u64, op: &Op, _phase: Phase) -> Stand
    ensures { result ≡ stand_after (Stand.Contracted cycle_open) number op.now _phase }
{
    match op {
        Op::Snap { cycle } => Stand::Snapped(OpenSnap {
            cycle: *cycle,
            snap: number,
        }),
        Op::Resolve { .. } | Op::Abandon { .. } => Stand::Idle,
        Op::Mirror { .. } => Stand::Weakening {
            open: cycle_open,
            count: 0,
            weakened: false,
            swept: false,
        },
        _ => Stand::Contracted(cycle_open),
    }
}

// Behind an event between the mirror and the own marking.
fn from_weakening(
    cycle_open: OpenSnap,
    count: u32,
    weakened: bool,
    swept: bool,
    number: u64,
    op: &Op,
    phase: Phase,
) -> Stand
    requires { count < u32.MAX }
    ensures { result ≡ stand_after (Stand.Weakening cycle_open count weakened swept) number op.now phase }
{
    match op {
        Op::Snap { cycle } => Stand::Snapped(OpenSnap {
            cycle: *cycle,
            snap: number,
        }),
        Op::Resolve { .. } | Op::Abandon { .. } => Stand::Idle,
        Op::Weaken { .. } => Stand::Weakening {
            open: cycle_open,
            count: count + 1,
            weakened: true,
            swept,
        },
        Op::Sweep => Stand::Weakening {
            open: cycle_open,
            count,
            weakened: true,
            swept: true,
        },
        Op::Begin => Stand::Marked(cycle_open),
        Op::Refused { .. } => Stand::Weakening {
            open: cycle_open,
            count,
            weakened: seen(weakened, phase),
            swept,
        },
        _ => Stand::Weakening {
            open: cycle_open,
            count,
            weakened,
            swept,
        },
    }
}

// Behind an event after the begin of the own marking.
fn from_marked(cycle_open: OpenSnap, number: u64, op: &Op, _phase: Phase) -> Stand
    ensures { result ≡ stand_after (Stand.Marked cycle_open) number op.now _phase }
{
    match op {
        Op::Snap { cycle } => Stand::Snapped(OpenSnap {
            cycle: *cycle,
            snap: number,
        }),
        Op::Resolve { .. } | Op::Abandon { .. } => Stand::Idle,
        Op::Sweep => Stand::Restoring {
            open: cycle_open,
            count: 0,
        },
        _ => Stand::Marked(cycle_open),
    }
}

// Behind an event after the sweep of the own marking.
fn from_restoring(cycle_open: OpenSnap, count: u32, number: u64, op: &Op, _phase: Phase) -> Stand
    requires { count < u32.MAX }
    ensures { result ≡ stand_after (Stand.Restoring cycle_open count) number op.now _phase }
{
    match op {
        Op::Snap { cycle } => Stand::Snapped(OpenSnap {
            cycle: *cycle,
            snap: number,
        }),
        Op::Resolve { .. } | Op::Abandon { .. } => Stand::Idle,
        Op::Restore { .. } => Stand::Restoring {
            open: cycle_open,
            count: count + 1,
        },
        Op::Clear { .. } => Stand::Restored {
            open: cycle_open,
            clear: number,
        },
        _ => Stand::Restoring {
            open: cycle_open,
            count,
        },
    }
}

// Behind an event after the clear.
fn from_restored(cycle_open: OpenSnap, clear: u64, number: u64, op: &Op, _phase: Phase) -> Stand
    ensures { result ≡ stand_after (Stand.Restored cycle_open clear) number op.now _phase }
{
    match op {
        Op::Snap { cycle } => Stand::Snapped(OpenSnap {
            cycle: *cycle,
            snap: number,
        }),
        Op::Resolve { .. } | Op::Abandon { .. } => Stand::Idle,
        _ => Stand::Restored {
            open: cycle_open,
            clear,
        },
    }
}

/// Where the driver stands after its event with that number; a word that was refused was so in that phase.
pub(crate) fn after(stand: &Stand, number: u64, op: &Op, phase: Phase) -> Stand
    requires { HasCount stand.now }
    ensures { result ≡ stand_after stand.now number op.now phase }
{
    match *stand {
        Stand::Idle => from_idle(number, op, phase),
        Stand::Snapped(open) => from_snapped(open, number, op, phase),
        Stand::Contracted(open) => from_contracted(open, number, op, phase),
        Stand::Weakening {
            open,
            count,
            weakened,
            swept,
        } => from_weakening(open, count, weakened, swept, number, op, phase),
        Stand::Marked(open) => from_marked(open, number, op, phase),
        Stand::Restoring { open, count } => from_restoring(open, count, number, op, phase),
        Stand::Restored { open, clear } => from_restored(open, clear, number, op, phase),
    }
}
