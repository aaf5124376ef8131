// Which events a caller can have, of those that an entry can name.

ghost use Rattle.std.specs.Prelude.{◌≡◌, ◌≤◌, ◌↔◌, IsTrue};
ghost use Rattle.joint_machine.specs.Lines.{IsBridgeObject, IsDriver, IsEvent, IsManagedThread, IsNamed, IsPeerThread};
ghost use Rattle.joint_machine.specs.Lines.{IsThread, IsAdoptable};

use joint_machine::{Kind, Op, Sort, Thread};

/// Whether a managed thread makes the event.
fn is_managed(caller: Thread) -> bool
    requires { IsThread caller }
    ensures { IsTrue result ↔ IsManagedThread caller }
{
    matches!(caller, Thread::M(_))
}

/// Whether the driver makes the event.
fn is_driver(caller: Thread) -> bool
    ensures { IsTrue result ↔ IsDriver caller }
{
    matches!(caller, Thread::C)
}

/// Whether an object of that kind and so many fields can be a bridge object with a peer of that sort.
pub(crate) fn is_bridge_object(kind: Kind, fields: u8, sort: Sort) -> bool
    ensures { IsTrue result ↔ IsBridgeObject kind fields sort }
{
    match kind {
        Kind::Plain | Kind::Leaf => false,
        Kind::Bridge => fields <= 16 && matches!(sort, Sort::User),
        Kind::LeafBridge => fields == 0,
    }
}

/// Whether an event that an entry can name is one that a history can have: the caller may make it at all.
pub(crate) fn is_event(caller: Thread, op: &Op) -> bool
    requires { IsNamed caller op.now }
    ensures { IsTrue result ↔ IsEvent caller op.now }
{
    match op {
        Op::Line(_) => true,
        Op::Make { .. }
        | Op::Lend { .. }
        | Op::Land { .. }
        | Op::Grip { .. }
        | Op::Meet { .. }
        | Op::Give { .. }
        | Op::Release { .. } => is_managed(caller),
        Op::Adopt { kind, .. } => {
            is_managed(caller) && matches!(kind, Kind::Bridge | Kind::LeafBridge)
        }
        Op::Begin | Op::Sweep => !is_managed(caller),
        _ => is_driver(caller),
    }
}
