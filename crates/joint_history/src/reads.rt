// Reads by a caller that take no lock: a managed thread reads a weak cell while both sides go on, and keeps the entry
// itself.

ghost use Rattle.std.specs.Prelude.{◌≡◌, ◌≤◌, ◌+◌, IfOk, OnErr};
ghost use Rattle.joint_machine.specs.declared.names.Cycle.{Cycle};
ghost use Rattle.joint_machine.specs.Lines.{IsManagedThread};
ghost use Rattle.weak_wait.specs.declared.reads.Got.TheVariants as got;
ghost use Rattle.weak_wait.specs.Reads.{IsRead};
ghost use Rattle.joint_history.specs.Callers.{last_index, own};
ghost use Rattle.joint_history.specs.Operations.{ReadsBy};

use crate::callers::Caller;
use crate::keeping::Keeps;
use crate::managed::reader_of;
use crate::shared::Shared;
use joint_model::Act;
use order_table::OrderName;
use std::alloc::AllocError;
use std::sync::Wait;
use weak_wait::{Got, read, read_waiting};

impl<N: OrderName, K: Keeps<N>> Shared<N, K> {
    /// Reads a weak cell for a managed thread, on a script line that isn't below that of the caller's last entry. It
    /// takes no lock and no memory and waits for nobody: there has to be room for the entry. An object that it answers
    /// is pinned: no collection frees it before the thread takes it. Answers `PinHeld` exactly where the thread's pin
    /// still holds an object; else `Pending` only where a cycle held the gate, and never for one that the caller knows
    /// as ended, and `Unset` never where the caller knows the cell as set.
    #[inline(always)]
    pub fn read_now(&self, caller: &mut Caller<N>, index: u32, act: &Act) -> Got
        requires act { IsManagedThread caller.old.thread × IsRead act.now }
        requires index { last_index (own caller.old) ≤ index }
        requires spare { 1 ≤ caller.old.reads.spare }
        ensures thread { caller.new.thread ≡ caller.old.thread }
        ensures index { last_index (own caller.new) ≤ index }
        ensures reads { ReadsBy caller.old caller.new index act.now result }
        ensures spare { caller.new.reads.spare + 1 ≡ caller.old.reads.spare }
    {
        let reader = reader_of(caller.thread);
        let (_, got) = read(
            &self.order,
            &mut caller.seat,
            &mut caller.reads,
            reader,
            index,
            act,
        );
        got
    }

    /// Reads a weak cell as [`Shared::read_now`] does, but tries again while a cycle holds the gate, and never answers
    /// `Pending`. It takes no lock and no memory. That it ever ends is not promised.
    pub fn read_wait(&self, rt: &impl Wait, caller: &mut Caller<N>, index: u32, act: &Act) -> Got
        requires act { IsManagedThread caller.old.thread × IsRead act.now }
        requires index { last_index (own caller.old) ≤ index }
        requires spare { 1 ≤ caller.old.reads.spare }
        ensures thread { caller.new.thread ≡ caller.old.thread }
        ensures index { last_index (own caller.new) ≤ index }
        ensures reads { ReadsBy caller.old caller.new index act.now result }
        ensures answered { (k : Cycle) → result ≡ got.Pending k → ⊥ }
        ensures spare { caller.new.reads.spare + 1 ≡ caller.old.reads.spare }
    {
        let reader = reader_of(caller.thread);
        let (_, got) = read_waiting(
            rt,
            &self.order,
            &mut caller.seat,
            &mut caller.reads,
            reader,
            index,
            act,
        );
        got
    }

    /// For how many more reads of a managed thread's caller there is room.
    pub fn spare(&self, caller: &Caller<N>) -> u32
        ensures { IsManagedThread caller.now.thread → result ≡ caller.now.reads.spare }
    {
        caller.reads.spare()
    }

    /// Makes room for `n` more reads of a managed thread's caller, which knows the same afterwards. Answers
    /// `AllocError` where there is no memory, or where its list would pass its limit.
    pub fn reserve(&self, caller: &mut Caller<N>, n: u32) -> Result<(), AllocError>
        ensures room { IfOk result (λ _. IsManagedThread caller.old.thread → n ≤ caller.new.reads.spare) }
        ensures rest { (caller.new.thread ≡ caller.old.thread) × (caller.new.view ≡ caller.old.view)
            × (caller.new.reads.entries ≡ caller.old.reads.entries) }
        ensures err { OnErr result (caller.new ≡ caller.old) }
    {
        caller.reads.reserve(n)
    }
}
