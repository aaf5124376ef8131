// The places and names of a line, as the heap takes them.

ghost use Rattle.std.specs.Prelude.{◌≡◌, ℕ, ◌<◌, Some, None};
ghost use Rattle.std.specs.Option.{ForSome};
ghost use Rattle.joint_machine.specs.Heaps.{place, place_or_none};
ghost use Rattle.joint_machine.specs.Lines.{IsManagedThread, IsVar, IsVarOrNone};
ghost use Rattle.joint_machine.specs.Managed.{managed_name};
ghost use Rattle.joint_machine.specs.Run.{thread_number};
ghost use Rattle.heap_rules.specs.Done.{say};

use heap_rules::Done;
use joint_model::{MNum, Reply, Thread, VARS, Var};

/// The number of a managed thread.
pub(crate) fn number(caller: Thread) -> usize
    requires thread { IsManagedThread caller }
    ensures at { result ≡ thread_number caller }
    ensures within { result < 9 }
{
    match caller {
        Thread::M(n) => n as usize,
        _ => unreachable!(),
    }
}

/// The place of a thread's variable.
pub(crate) fn place(caller: Thread, v: Var) -> usize
    requires thread { IsManagedThread caller }
    requires var { IsVar v }
    ensures at { result ≡ place (thread_number caller) v.0 }
    ensures within { result < VARS }
{
    8 * number(caller) + v.0 as usize
}

/// The place of a thread's variable, where there is one.
pub(crate) fn place_or_none(caller: Thread, v: Option<Var>) -> Option<usize>
    requires thread { IsManagedThread caller }
    requires var { IsVarOrNone v }
    ensures at { result ≡ place_or_none (thread_number caller) v }
    ensures within { ForSome result (λ p. p < VARS) }
{
    match v {
        None => None,
        Some(w) => Some(place(caller, w)),
    }
}

/// The reply that an operation's answer stands for.
pub(crate) fn reply_of(done: Done) -> Reply
    ensures { result ≡ say managed_name done }
{
    match done {
        Done::Ok => Reply::Ok,
        Done::Empty => Reply::Empty,
        Done::Range => Reply::Range,
        Done::Null => Reply::Null,
        Done::Object(x) => Reply::M(MNum(x)),
    }
}
