// Which callers and events an entry can name.

ghost use Rattle.std.specs.Prelude.{◌≤◌, ◌↔◌, IsTrue};
ghost use Rattle.joint_machine.specs.Lines.{IsAdoptable, IsDriverAct, IsHeapAct, IsLine, IsManagedAct, IsNamed};
ghost use Rattle.joint_machine.specs.Lines.{IsOneEvent, IsPeerAct, IsPlainObject, IsThread, IsVar, IsVarOrNone};

use joint_model::{Act, Kind, Op, Thread, Var};

// Whether a thread is one that a script can have.
fn is_thread(caller: Thread) -> bool
    ensures { IsTrue result ↔ IsThread caller }
{
    match caller {
        Thread::M(n) => 1 <= n && n <= 8,
        Thread::P(n) => 1 <= n && n <= 8,
        Thread::C => true,
    }
}

// Whether a variable, if there is one, is one of a to h.
fn is_var_or_none(v: Option<Var>) -> bool
    ensures { IsTrue result ↔ IsVarOrNone v }
{
    match v {
        None => true,
        Some(v) => v.0 < 8,
    }
}

// Whether an object without a peer can have so many fields.
fn is_plain_object(kind: Kind, fields: u8) -> bool
    ensures { IsTrue result ↔ IsPlainObject kind fields }
{
    match kind {
        Kind::Plain => fields <= 16,
        Kind::Leaf => fields == 0,
        Kind::Bridge | Kind::LeafBridge => false,
    }
}

// Whether a row that takes a peer can have so many fields.
fn is_adoptable(kind: Kind, fields: u8) -> bool
    ensures { IsTrue result ↔ IsAdoptable kind fields }
{
    match kind {
        Kind::LeafBridge => fields == 0,
        _ => fields <= 16,
    }
}

// Whether two variables are ones of a to h.
#[inline(always)]
fn are_vars(v: Var, w: Var) -> bool
    ensures { IsTrue result ↔ (IsVar v × IsVar w) }
{
    v.0 < 8 && w.0 < 8
}

// Whether the operation is one that both heaps have, within its limits.
#[inline(always)]
fn is_common_line(act: Act) -> bool
    ensures { IsTrue result ↔ IsHeapAct act }
{
    match act {
        Act::Copy { v, w } => are_vars(v, w),
        Act::Get { v, w, i: _ } => are_vars(v, w),
        Act::Set { v, i: _, w } => v.0 < 8 && is_var_or_none(w),
        Act::Drop { v } => v.0 < 8,
        Act::Load { v, x } => v.0 < 8 && x.0 < 16,
        Act::Store { x, v } => x.0 < 16 && is_var_or_none(v),
        _ => false,
    }
}

// Whether a managed thread's line can be that one event.
fn is_managed_line(act: Act) -> bool
    ensures { IsTrue result ↔ (IsManagedAct act × IsOneEvent act) }
{
    match act {
        Act::New { v, kind, fields } => v.0 < 8 && is_plain_object(kind, fields),
        Act::Take { v } => v.0 < 8,
        Act::Handle { v } => v.0 < 8,
        Act::Weak { k, v } => k.0 < 64 && v.0 < 8,
        Act::Read { k } => k.0 < 64,
        Act::Await { k } => k.0 < 64,
        _ => is_common_line(act),
    }
}

// Whether a peer thread's line can be that one event.
fn is_peer_line(act: Act) -> bool
    ensures { IsTrue result ↔ (IsPeerAct act × IsOneEvent act) }
{
    match act {
        Act::NewPeer { v, fields } => v.0 < 8 && fields <= 16,
        Act::Global { g, v } => v.0 < 8 && g.0 < 64,
        Act::WGlobal { g, v } => v.0 < 8 && g.0 < 64,
        Act::WRead { v, g } => v.0 < 8 && g.0 < 64,
        Act::UnGlobal { g } => g.0 < 64,
        Act::Slice { n } => 1 <= n && n <= 65_535,
        _ => is_common_line(act),
    }
}

// Whether a line can be that one event of its caller.
fn is_line(caller: Thread, act: Act) -> bool
    ensures { IsTrue result ↔ (IsLine caller act × IsOneEvent act) }
{
    match caller {
        Thread::M(n) => 1 <= n && n <= 8 && is_managed_line(act),
        Thread::P(n) => 1 <= n && n <= 8 && is_peer_line(act),
        Thread::C => match act {
            Act::Finalise { n } => 1 <= n && n <= 65_535,
            _ => false,
        },
    }
}

/// Whether an entry can name that caller and that event, lawful or not.
pub(crate) fn is_named(caller: Thread, op: &Op) -> bool
    ensures { IsTrue result ↔ IsNamed caller op.now }
{
    match *op {
        Op::Line(act) => is_line(caller, act),
        Op::Make { fields, .. } => is_thread(caller) && fields <= 16,
        Op::Adopt {
            v,
            kind,
            fields,
            ..
        } => is_thread(caller) && v.0 < 8 && is_adoptable(kind, fields),
        Op::Lend { v, x } => is_thread(caller) && v.0 < 8 && x.0 < 16,
        Op::Land { x, .. } => is_thread(caller) && x.0 < 16,
        Op::Grip { x } => is_thread(caller) && x.0 < 16,
        Op::Meet { v, fields, .. } => is_thread(caller) && v.0 < 8 && fields <= 16,
        Op::Give { v } => is_thread(caller) && v.0 < 8,
        _ => is_thread(caller),
    }
}
