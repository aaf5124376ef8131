// Entries of any caller.

ghost use Rattle.std.specs.Prelude.{◌≡◌, None};

use joint_machine::{Made, Op, Reply, Thread};

/// An entry of the first line, which cites none.
pub(crate) fn made(caller: Thread, op: Op, reply: Reply) -> Made
    ensures { result ≡ record { caller = caller; index = 1; op = op; reply = reply; cites = None } }
{
    Made {
        caller,
        index: 1,
        op,
        reply,
        cites: None,
    }
}
