// What may be asked of a managed side: the checks that stand before its calls.

ghost use Rattle.std.specs.Prelude.{◌≡◌, ◌↔◌, IfSome, IsTrue, None};
ghost use Rattle.joint_machine.specs.Heaps.{IsLive};
ghost use Rattle.joint_machine.specs.Lines.{IsManagedAct, IsOneEvent};
ghost use Rattle.joint_machine.specs.Phases.{next_phase};
ghost use Rattle.managed_heap.specs.Steps.{CitesRightly, IsManagedStep, IsStepAct};
ghost use Rattle.side_tests.specs.Drives.{NamesNext};

use crate::callers::{is_managed, is_var_or_none};
use joint_model::{Act, Kind, MNum, Op, Phase, PhaseWord, Thread};
use managed_heap::ManagedSide;

/// Whether this is one of the words and phases of the tables, and is refused in that phase.
pub(crate) fn is_refused(word: PhaseWord, phase: Phase) -> bool
    ensures { IsTrue result → next_phase phase word ≡ None }
{
    match phase {
        Phase::Idle => !matches!(word, PhaseWord::Cycle | PhaseWord::Snap),
        Phase::Snapped => !matches!(word, PhaseWord::Contract),
        _ => false,
    }
}

/// Whether a pin may hold this object, or none: it is live, and no cycle is open.
pub(crate) fn may_hold(side: &ManagedSide, pin: Option<MNum>) -> bool
    ensures { IsTrue result → IfSome pin
        (λ m. IsLive side.now.state.managed.heap m.0 × (side.now.state.managed.cycle ≡ None)) }
{
    match pin {
        None => true,
        Some(m) => side.is_live(m) && side.open_cycle().is_none(),
    }
}

/// Whether the driver may be in this phase: it is idle exactly where no cycle is open.
pub(crate) fn stands_in(side: &ManagedSide, phase: Phase) -> bool
    ensures { IsTrue result → (phase ≡ Phase.Idle) ↔ (side.now.state.managed.cycle ≡ None) }
{
    match side.open_cycle() {
        None => phase == Phase::Idle,
        Some(_) => phase != Phase::Idle,
    }
}

// Whether this is a line of a managed thread that a step makes.
fn is_step_act(act: &Act) -> bool
    ensures { IsTrue result → IsManagedAct act.now × IsOneEvent act.now × IsStepAct act.now }
{
    match act {
        Act::New {
            v,
            kind: Kind::Plain,
            fields,
        } => v.0 < 8 && *fields <= 16,
        Act::Copy { v, w } => v.0 < 8 && w.0 < 8,
        Act::Set { v, i, w } => v.0 < 8 && *i <= 255 && is_var_or_none(w),
        Act::Get { v, w, i } => v.0 < 8 && w.0 < 8 && *i <= 255,
        Act::Drop { v } => v.0 < 8,
        Act::Load { v, x } => v.0 < 8 && x.0 < 16,
        Act::Store { x, v } => x.0 < 16 && is_var_or_none(v),
        Act::Handle { v } => v.0 < 8,
        _ => false,
    }
}

/// Whether this is an event of a step, by this caller.
pub(crate) fn is_step(caller: Thread, op: &Op) -> bool
    ensures { IsTrue result → IsManagedStep caller op.now }
{
    match op {
        Op::Line(Act::Finalise { n }) => caller == Thread::C && 1 <= *n && *n <= 65535,
        Op::Line(act) => is_managed(caller) && is_step_act(act),
        Op::Lend { v, x } => is_managed(caller) && v.0 < 8 && x.0 < 16,
        Op::Give { v } => is_managed(caller) && v.0 < 8,
        Op::Adopt {
            v,
            kind: Kind::Bridge,
            fields,
            p: _,
            h: _,
        } => is_managed(caller) && v.0 < 8 && *fields <= 16,
        Op::Meet {
            v,
            p: _,
            h: _,
            sort: _,
            fields,
        } => is_managed(caller) && v.0 < 8 && *fields <= 16,
        _ => false,
    }
}

/// Whether the handle that the event names, if it takes one, has this number.
pub(crate) fn names_next(op: &Op, n: u32) -> bool
    ensures { IsTrue result → NamesNext op.now n }
{
    match op {
        Op::Adopt {
            v: _,
            kind: _,
            fields: _,
            p: _,
            h,
        } => h.0 == n,
        Op::Meet {
            v: _,
            p: _,
            h,
            sort: _,
            fields: _,
        } => h.0 == n,
        _ => true,
    }
}

/// What the event cites: an `adopt` or a `meet` the first entry, another one none.
pub(crate) fn cites_of(op: &Op) -> Option<u64>
    ensures { CitesRightly op.now result }
{
    match op {
        Op::Adopt {
            v: _,
            kind: _,
            fields: _,
            p: _,
            h: _,
        } => Some(0),
        Op::Meet {
            v: _,
            p: _,
            h: _,
            sort: _,
            fields: _,
        } => Some(0),
        _ => None,
    }
}
