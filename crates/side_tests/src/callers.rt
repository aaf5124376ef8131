// What a caller and a variable of a table must be.

ghost use Rattle.std.specs.Prelude.{IsTrue};
ghost use Rattle.joint_machine.specs.Lines.{IsManagedThread, IsVarOrNone};

use joint_model::{Thread, Var};

/// Whether this is one of the threads m1 to m8.
pub(crate) fn is_managed(caller: Thread) -> bool
    ensures { IsTrue result → IsManagedThread caller }
{
    match caller {
        Thread::M(n) => 1 <= n && n <= 8,
        _ => false,
    }
}

/// Whether this is a variable, if one is given.
pub(crate) fn is_var_or_none(v: &Option<Var>) -> bool
    ensures { IsTrue result → IsVarOrNone v.now }
{
    match v {
        None => true,
        Some(w) => w.0 < 8,
    }
}
