// The cells of the managed part, and the pins that reads fill.

ghost use Rattle.std.specs.Prelude.{◌≡◌, ◌<◌, ◌↔◌, false, IsTrue, Some, None};
ghost use Rattle.joint_machine.specs.Managed.{weakened_to, read_cell, target_read, pin_taken};
ghost use Rattle.joint_replay.specs.Judging.{Decides, Gives};

use crate::managed::{ManagedPart, names_cycle, names_object};
use crate::replies::{Refusal, says_ok};
use crate::state::Verdict;
use joint_model::{Reply, VARS};

impl ManagedPart {
    /// `weak`: cell `k` gets the object of the variable at place `v` as its target, unless it was ever set.
    pub(crate) fn weak(&mut self, k: usize, v: usize, reply: &Reply) -> Verdict
        requires k { k < 64 }
        requires v { v < VARS }
        ensures { Decides (Gives (weakened_to self.old k v) reply.now) result self.old self.new }
    {
        let Some(x) = self.heap.var(v) else {
            return Verdict::of(Refusal::Empty.is_said(reply));
        };
        if let Some(_) = self.cells[k] {
            return Verdict::of(Refusal::Taken.is_said(reply));
        }
        if !says_ok(reply) {
            return Verdict::Unlawful;
        }
        self.cells[k] = Some(x);
        Verdict::Lawful
    }

    /// `read` and `wait`: the pin of thread `t` gets the target of cell `k`, if that isn't freed.
    pub(crate) fn read(&mut self, t: usize, k: usize, reply: &Reply) -> Verdict
        requires t { t < 9 }
        requires k { k < 64 }
        ensures { Decides (Gives (read_cell self.old t k) reply.now) result self.old self.new }
    {
        if let Some(x) = self.pins[t] {
            return Verdict::of(names_pinned(reply, x));
        }
        if let Some(open) = &self.cycle {
            return Verdict::of(names_cycle(reply, open.number()));
        }
        self.pin(t, self.cells[k], reply)
    }

    // The pin of thread `t` gets the target, if that isn't freed.
    fn pin(&mut self, t: usize, target: Option<u32>, reply: &Reply) -> Verdict
        requires { t < 9 }
        ensures { Decides (Gives (target_read self.old t target) reply.now) result self.old self.new }
    {
        let Some(x) = target else {
            return Verdict::of(Refusal::Unset.is_said(reply));
        };
        if self.heap.is_freed(x) {
            return Verdict::of(Refusal::Gone.is_said(reply));
        }
        if !names_object(reply, x) {
            return Verdict::Unlawful;
        }
        self.pins[t] = Some(x);
        Verdict::Lawful
    }

    /// `take`: the variable at place `v` names the object of the pin of thread `t`, which is emptied.
    pub(crate) fn take(&mut self, t: usize, v: usize, reply: &Reply) -> Verdict
        requires t { t < 9 }
        requires v { v < VARS }
        ensures { Decides (Gives (pin_taken self.old t v) reply.now) result self.old self.new }
    {
        let Some(x) = self.pins[t] else {
            return Verdict::of(Refusal::Empty.is_said(reply));
        };
        if !names_object(reply, x) {
            return Verdict::Unlawful;
        }
        self.heap.set_var(v, Some(x));
        self.pins[t] = None;
        Verdict::Lawful
    }
}

// Whether the reply names managed object `x` as what the pin holds already.
fn names_pinned(reply: &Reply, x: u32) -> bool
    ensures { IsTrue result ↔ (reply.now ≡ Reply.Pinned record { 0 = x }) }
{
    match reply {
        Reply::Pinned(m) => m.0 == x,
        _ => false,
    }
}
