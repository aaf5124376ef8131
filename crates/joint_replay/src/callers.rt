// Which events a caller can make.

ghost use Rattle.std.specs.Prelude.{◌≡◌, ◌↔◌, ◌<◌, IsTrue, true, false};
ghost use Rattle.std.specs.Option.{ForSome};
ghost use Rattle.joint_machine.specs.Heaps.{place, place_or_none};
ghost use Rattle.joint_machine.specs.Lines.{IsEvent, IsLine, IsOneEvent, IsManagedAct, IsPeerAct, IsDriverAct};
ghost use Rattle.joint_machine.specs.Lines.{IsHeapAct};
ghost use Rattle.joint_machine.specs.Lines.{IsManagedThread, IsPeerThread, IsThread, IsVar, IsVarOrNone, IsPlainObject};
ghost use Rattle.joint_machine.specs.Lines.{IsBridgeObject};
ghost use Rattle.joint_machine.specs.Run.{thread_number, is_joint};
ghost use Rattle.joint_machine.specs.declared.events.Op.TheVariants.{Line};
ghost use Rattle.joint_machine.specs.declared.names.Sort.{Sort};
ghost use Rattle.joint_replay.specs.Operations.{IsBridgeEvent};

use joint_model::{Act, Cell, GName, Kind, Op, StaticNo, Thread, VARS, Var};

/// Whether the caller can make the event, and the event is one of the joint machine.
pub(crate) fn can_make(caller: Thread, op: &Op) -> bool
    ensures { IsTrue result ↔ (IsEvent caller op.now × (is_joint op.now ≡ true)) }
{
    match op {
        Op::Line(act) => is_line(caller, act),
        Op::Snap { cycle: _ }
        | Op::Restore { h: _ }
        | Op::Resolve { cycle: _ }
        | Op::Abandon { cycle: _ } => { matches!(caller, Thread::C) }
        Op::Begin | Op::Sweep => is_peer(caller) || matches!(caller, Thread::C),
        _ => is_managed(caller) && is_bridge_event(op),
    }
}

// Whether the event is one that a managed thread makes on the handles and their objects, within its limits.
fn is_bridge_event(op: &Op) -> bool
    ensures { IsTrue result ↔ IsBridgeEvent op.now }
{
    match op {
        Op::Make { sort: _, fields } => *fields <= 16,
        Op::Adopt {
            v,
            kind,
            fields,
            p: _,
            h: _,
        } => is_var(*v) && is_bridge_object(*kind, *fields),
        Op::Lend { v, x } => is_var_and_static(*v, *x),
        Op::Land { h: _, x } => is_static(*x),
        Op::Grip { x } => is_static(*x),
        Op::Meet {
            v,
            p: _,
            h: _,
            sort: _,
            fields,
        } => is_var(*v) && *fields <= 16,
        Op::Give { v } => is_var(*v),
        Op::Release { h: _ } => true,
        _ => false,
    }
}

// Whether the caller can have a line that is one event of that operation, and the event is one of the joint machine.
fn is_line(caller: Thread, act: &Act) -> bool
    ensures { IsTrue result ↔ ((IsLine caller act.now × IsOneEvent act.now) × (is_joint (Line act.now) ≡ true)) }
{
    match caller {
        Thread::M(_) => is_managed(caller) && is_managed_act(act),
        Thread::P(_) => is_peer(caller) && is_peer_act(act),
        Thread::C => is_driver_act(act),
    }
}

// Whether a managed thread can have the operation, as one event.
fn is_managed_act(act: &Act) -> bool
    ensures { IsTrue result ↔ ((IsManagedAct act.now × IsOneEvent act.now) × (is_joint (Line act.now) ≡ true)) }
{
    match act {
        Act::New { v, kind, fields } => is_var(*v) && is_plain_object(*kind, *fields),
        Act::Weak { k, v } => is_cell(*k) && is_var(*v),
        Act::Read { k } => is_cell(*k),
        Act::Await { k } => is_cell(*k),
        Act::Take { v } => is_var(*v),
        Act::Handle { v } => is_var(*v),
        _ => is_plain_act(act),
    }
}

// Whether a peer thread can have the operation, as one event of the joint machine.
fn is_peer_act(act: &Act) -> bool
    ensures { IsTrue result ↔ ((IsPeerAct act.now × IsOneEvent act.now) × (is_joint (Line act.now) ≡ true)) }
{
    match act {
        Act::NewPeer { v, fields } => is_var(*v) && *fields <= 16,
        Act::Global { g, v } => is_name_and_var(*g, *v),
        Act::WGlobal { g, v } => is_name_and_var(*g, *v),
        Act::UnGlobal { g } => is_name(*g),
        Act::WRead { v, g } => is_var(*v) && is_name(*g),
        _ => is_plain_act(act),
    }
}

// Whether the operation is one that both heaps have, within its limits.
fn is_plain_act(act: &Act) -> bool
    ensures { IsTrue result ↔ IsHeapAct act.now }
{
    match act {
        Act::Copy { v, w } => are_vars(*v, *w),
        Act::Set { v, i, w } => {
            // an index is a byte, so it is within its limit
            let _index = *i;
            is_var(*v) && is_var_or_none(*w)
        }
        Act::Get { v, w, i } => {
            let _index = *i;
            are_vars(*v, *w)
        }
        Act::Drop { v } => is_var(*v),
        Act::Load { v, x } => is_var_and_static(*v, *x),
        Act::Store { x, v } => is_static(*x) && is_var_or_none(*v),
        _ => false,
    }
}

// Whether the driver can have the operation, as one event.
fn is_driver_act(act: &Act) -> bool
    ensures { IsTrue result ↔ ((IsDriverAct act.now × IsOneEvent act.now) × (is_joint (Line act.now) ≡ true)) }
{
    match act {
        Act::Finalise { n } => 1 <= *n && *n <= 65_535,
        _ => false,
    }
}

// Whether the thread is one of m1 to m8.
fn is_managed(caller: Thread) -> bool
    ensures { IsTrue result ↔ IsManagedThread caller }
{
    match caller {
        Thread::M(n) => 1 <= n && n <= 8,
        _ => false,
    }
}

// Whether the thread is one of p1 to p8.
fn is_peer(caller: Thread) -> bool
    ensures { IsTrue result ↔ IsPeerThread caller }
{
    match caller {
        Thread::P(n) => 1 <= n && n <= 8,
        _ => false,
    }
}

fn is_var(v: Var) -> bool
    ensures { IsTrue result ↔ IsVar v }
{
    v.0 < 8
}

fn are_vars(v: Var, w: Var) -> bool
    ensures { IsTrue result ↔ (IsVar v × IsVar w) }
{
    is_var(v) && is_var(w)
}

fn is_var_and_static(v: Var, x: StaticNo) -> bool
    ensures { IsTrue result ↔ (IsVar v × (x.0 < 16)) }
{
    is_var(v) && is_static(x)
}

fn is_name_and_var(g: GName, v: Var) -> bool
    ensures { IsTrue result ↔ ((g.0 < 64) × IsVar v) }
{
    is_name(g) && is_var(v)
}

fn is_var_or_none(w: Option<Var>) -> bool
    ensures { IsTrue result ↔ IsVarOrNone w }
{
    match w {
        None => true,
        Some(v) => is_var(v),
    }
}

fn is_static(x: StaticNo) -> bool
    ensures { IsTrue result ↔ (x.0 < 16) }
{
    x.0 < 16
}

fn is_cell(k: Cell) -> bool
    ensures { IsTrue result ↔ (k.0 < 64) }
{
    k.0 < 64
}

fn is_name(g: GName) -> bool
    ensures { IsTrue result ↔ (g.0 < 64) }
{
    g.0 < 64
}

// Whether there are objects without a peer of that kind with so many fields.
fn is_plain_object(kind: Kind, fields: u8) -> bool
    ensures { IsTrue result ↔ IsPlainObject kind fields }
{
    match kind {
        Kind::Plain => fields <= 16,
        Kind::Leaf => fields == 0,
        Kind::Bridge => false,
        Kind::LeafBridge => false,
    }
}

// Whether there are bridge objects of that kind with so many fields.
fn is_bridge_object(kind: Kind, fields: u8) -> bool
    ensures { IsTrue result ↔ ((s : Sort) × IsBridgeObject kind fields s) }
{
    match kind {
        Kind::Plain => false,
        Kind::Leaf => false,
        Kind::Bridge => fields <= 16,
        Kind::LeafBridge => fields == 0,
    }
}

/// The number of a managed or a peer thread; 0 for the driver's.
pub(crate) fn number(caller: Thread) -> u8
    requires { IsThread caller }
    ensures number { result ≡ thread_number caller }
    ensures within { result < 9 }
{
    match caller {
        Thread::M(n) => n,
        Thread::P(n) => n,
        Thread::C => 0,
    }
}

/// The place of a thread's variable.
pub(crate) fn place_of(caller: Thread, v: Var) -> usize
    requires thread { IsThread caller }
    requires var { IsVar v }
    ensures place { result ≡ place (thread_number caller) v.0 }
    ensures within { result < VARS }
{
    8 * number(caller) as usize + v.0 as usize
}

/// The place of a thread's variable, or none.
pub(crate) fn place_or_none(caller: Thread, w: Option<Var>) -> Option<usize>
    requires thread { IsThread caller }
    requires var { IsVarOrNone w }
    ensures place { result ≡ place_or_none (thread_number caller) w }
    ensures within { ForSome result (λ place. place < VARS) }
{
    match w {
        None => None,
        Some(v) => Some(place_of(caller, v)),
    }
}
