// Weak cells by their words, the object of a pin that is given, and the notices.

ghost use Rattle.std.specs.Prelude.{◌≡◌, ℕ, ◌+◌, ◌<◌, ◌≤◌, Some, None, length, min, IfSome, ◌↔◌};
ghost use Rattle.joint_machine.specs.Heaps.{IsLive, answer, slot};
ghost use Rattle.joint_machine.specs.Managed.{cell_set, notices_taken, weakened_to};
ghost use Rattle.joint_machine.specs.PinsTold.{no_pins};
ghost use Rattle.managed_heap.specs.Pinned.{pin_reply, weak_target, with_taken};

use crate::rows::ManagedRows;
use finaliser_queue::Notices;
use joint_model::{MNum, Reply, Span, VARS};

impl ManagedRows {
    /// `weak K V`: the target of cell `k` is V's object, unless the cell was ever set. `word` is the cell's word: 0
    /// exactly where it wasn't.
    pub(crate) fn weak(&mut self, k: usize, v: usize, word: u64) -> Reply
        requires k { k < 64 }
        requires v { v < VARS }
        requires word { (word ≡ 0) ↔ (slot self.old.managed.cells k ≡ None) }
        ensures answer { weakened_to self.old.managed k v ≡ answer result self.new.managed }
        ensures rest { self.new ≡ record self.old { managed = self.new.managed } }
    {
        match self.heap.var(v) {
            None => Reply::Empty,
            Some(x) => self.weak_to(k, x, word),
        }
    }

    // The target of cell `k` is the object, unless the cell was ever set.
    fn weak_to(&mut self, k: usize, x: u32, word: u64) -> Reply
        requires k { k < 64 }
        requires word { (word ≡ 0) ↔ (slot self.old.managed.cells k ≡ None) }
        ensures answer { cell_set self.old.managed k x
            (slot self.old.managed.cells k) ≡ answer result self.new.managed }
        ensures rest { self.new ≡ record self.old { managed = self.new.managed } }
    {
        if word != 0 {
            return Reply::Taken;
        }
        self.cells.set(k, x);
        Reply::Ok
    }

    /// The object to which a `weak` of cell `k` sets it.
    pub(crate) fn target(&self, k: usize, v: usize, word: u64) -> Option<MNum>
        requires k { k < 64 }
        requires v { v < VARS }
        requires word { (word ≡ 0) ↔ (slot self.now.managed.cells k ≡ None) }
        ensures target { weak_target self.now k v ≡ result }
        ensures unset { IfSome result (λ m. slot self.now.managed.cells k ≡ None) }
        ensures live { IfSome result (λ m. IsLive self.now.managed.heap m.0) }
    {
        match self.heap.var(v) {
            Some(x) if word == 0 => Some(MNum(x)),
            _ => None,
        }
    }

    /// The rows have no pins, for the proofs of callers. It does nothing.
    pub(crate) fn recall_unpinned(&self)
        ensures { self.now.managed.pins ≡ no_pins }
    {
        let _ = &self.heap;
    }

    /// `take V`: V names the object of the pin that is given.
    pub(crate) fn take(&mut self, v: usize, pin: Option<MNum>) -> Reply
        requires v { v < VARS }
        requires live { IfSome pin (λ m. IsLive self.old.managed.heap m.0) }
        ensures reply { result ≡ pin_reply pin }
        ensures state { self.new ≡ with_taken self.old v pin }
    {
        match pin {
            None => Reply::Empty,
            Some(m) => {
                self.heap.set_var(v, Some(m.0));
                Reply::M(m)
            }
        }
    }

    /// `finalise N`: the oldest N of the notices that wait are taken, or all.
    pub(crate) fn finalise(&mut self, n: u32) -> Reply
        ensures answer { notices_taken self.old.managed n ≡ answer result self.new.managed }
        ensures rest { self.new ≡ record self.old { managed = self.new.managed } }
    {
        let first = self.notices.taken();
        let count = n.min(self.notices.waiting());
        take_notices(&mut self.notices, count);
        Reply::Took(Span { first, count })
    }
}

// Takes the oldest notices that wait, so many of them.
fn take_notices(notices: &mut Notices, count: u32)
    requires { notices.old.taken + count ≤ length notices.old.queued }
    ensures taken { notices.new.taken ≡ notices.old.taken + count }
    ensures queued { notices.new.queued ≡ notices.old.queued }
    ensures spare { notices.new.spare ≡ notices.old.spare }
{
    for _ in 0..count {
        notices.take();
    }
}
