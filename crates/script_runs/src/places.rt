// Threads and the places of their callers.

ghost use Rattle.std.specs.Prelude.{◌≡◌, ◌+◌, ◌<◌};
ghost use Rattle.joint_machine.specs.Control.{caller_place};
ghost use Rattle.joint_machine.specs.PeerReplay.{is_thread};
ghost use Rattle.joint_history.specs.Operations.{IsOwnThread};

use joint_model::Thread;

/// Whether two threads are one.
pub(crate) fn is_thread(t: Thread, u: Thread) -> bool
    ensures { result ≡ is_thread t u }
{
    match (t, u) {
        (Thread::M(a), Thread::M(b)) | (Thread::P(a), Thread::P(b)) => a == b,
        (Thread::C, Thread::C) => true,
        _ => false,
    }
}

/// The place of a thread's caller among those of all threads but the driver's.
pub(crate) fn place_among(t: Thread) -> usize
    requires { IsOwnThread t }
    ensures place { result + 1 ≡ caller_place t }
    ensures few { result < 16 }
{
    match t {
        Thread::M(n) => (n - 1) as usize,
        Thread::P(n) => (n + 7) as usize,
        Thread::C => unreachable!(),
    }
}
