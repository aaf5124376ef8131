// The finaliser queue: the numbers of managed objects that were freed and whose finaliser hasn't run.
//
// A resolution takes room before anything changes, and queues; the driver takes the oldest:
//
//     notices.reserve(candidates)?;
//     notices.push(m);
//     while let Some(m) = notices.take() { .. }
//
// When a bridge cycle is resolved, each bridge object that it frees owes one notice. The collector must not ask for
// memory at that point, so room is taken beforehand: while a cycle is open there is room for a notice per candidate.
//
// The life of a queue: `Notices::new`, with nothing waiting and no room. `reserve` makes room, at a time when want of
// memory can still be answered; `widen` makes it in a list that was taken at such a time, and takes none itself. `push`
// puts a notice last and uses one place of the room. `take` gives the oldest notice that waits: first in, first out.
// Notices that were given out stay in the list, so `take` moves nothing, `at` and `into_all` can tell every notice that
// there ever was, and `queued` is the list's length.
//
// The queue is a part of the managed side, which alone changes it. What is promised: first in, first out, none lost;
// and a push takes no memory and is never refused, since it needs room beforehand.
#![tactic(auto)]

ghost use Rattle.std.specs.Prelude.{◌≡◌, ◌+◌, ◌≤◌, ◌==◌, [], ◌∷◌, ◌++◌, length, slice_get, MatchOption, is_some};
ghost use Rattle.std.specs.Prelude.{if◌then◌else◌, IfOk, IsOk, OnErr, vec_capacity};
ghost use Rattle.finaliser_queue.specs.Queue.{waiting_in};

use joint_machine::MNum;
use std::alloc::{AllocError, Global};
use std::marker::Model;

// The most notices that are ever queued in one [`Notices`].
const MOST: usize = 4_294_967_295;

/// Notices to finalisers, first in, first out. In all it takes at most 4,294,967,295; a growth past that is
/// refused as a growth.
#[derive(Drop)]
pub struct Notices {
    list: Vec<MNum>,
    taken: usize,
}

impl Model for Notices {
    ghost use Rattle.std.specs.Prelude.{◌-◌, ◌≤◌, vec_len, vec_capacity, min};
    ghost use Rattle.finaliser_queue.specs.Queue.{Queue};
    ghost use Rattle.joint_machine.specs.Numbers.{u32_max};

    ghost Value = { Queue };

    ghost view = { λ s. record {
      queued = s.list.items;
      taken = s.taken;
      spare = min (vec_capacity s.list) u32_max - vec_len s.list;
    } };

    ghost invariant = { λ s. (s.taken ≤ vec_len s.list) × (vec_len s.list ≤ u32_max) };
}

// The notices in a list that has room for them.
fn copied(notices: &[MNum], mut list: Vec<MNum>) -> Vec<MNum>
    requires empty { list.items ≡ [] }
    requires room { length notices.now ≤ vec_capacity list }
    ensures items { result.items ≡ notices.now }
    ensures capacity { vec_capacity result ≡ vec_capacity list }
{
    for m in notices {
        list.push_reserved(*m);
    }
    list
}

impl Notices {
    /// A queue in which nothing waits. It keeps the allocator, and takes no memory.
    pub fn new(alloc: Global) -> Notices
        ensures queued { result.queued ≡ [] }
        ensures taken { result.taken ≡ 0 }
        ensures limit { result.spare ≤ u32.MAX }
    {
        Notices {
            list: Vec::new(alloc),
            taken: 0,
        }
    }

    /// Makes room: afterwards `spare` is at least `n`, and never less than it was. The notices stay.
    ///
    /// Answers `AllocError` only where there was less room: where there is no memory, or where more than 4,294,967,295
    /// notices would have been queued in all; the queue is then as before.
    pub fn reserve(&mut self, n: u32) -> Result<(), AllocError>
        ensures room { IfOk result (λ _. n ≤ self.new.spare) }
        ensures ready { n ≤ self.old.spare → IsOk result }
        ensures kept { self.old.spare ≤ self.new.spare }
        ensures queued { self.new.queued ≡ self.old.queued }
        ensures taken { self.new.taken ≡ self.old.taken }
        ensures limit { length self.new.queued + self.new.spare ≤ u32.MAX }
        ensures err { OnErr result (self.new ≡ self.old) }
    {
        if n as usize > MOST - self.list.len() {
            return Err(AllocError);
        }
        self.list.reserve(n as usize)
    }

    /// Makes room without taking memory: afterwards `spare` is at least `n`. Where there was less, the notices move
    /// into `list`, which is empty and has room for all that were queued and `n` more; else `list` goes unused. The
    /// notices stay.
    pub fn widen(&mut self, n: u32, list: Vec<MNum>)
        requires empty { list.items ≡ [] }
        requires wide { length self.old.queued + n ≤ vec_capacity list }
        requires most { length self.old.queued + n ≤ u32.MAX }
        ensures room { n ≤ self.new.spare }
        ensures queued { self.new.queued ≡ self.old.queued }
        ensures taken { self.new.taken ≡ self.old.taken }
    {
        if n <= self.spare() {
            return;
        }
        self.list = copied(&self.list, list);
    }

    /// Puts a notice last. It takes no memory: it uses one place of the room that `reserve` made.
    pub fn push(&mut self, m: MNum)
        requires { 1 ≤ self.old.spare }
        ensures queued { self.new.queued ≡ self.old.queued ++ m ∷ [] }
        ensures waiting { waiting_in self.new ≡ waiting_in self.old ++ m ∷ [] }
        ensures taken { self.new.taken ≡ self.old.taken }
        ensures spare { self.new.spare + 1 ≡ self.old.spare }
    {
        self.list.push_reserved(m);
    }

    /// Gives the oldest notice that waits, and None exactly where none waits. It moves no other notice, and
    /// takes no memory; the room stays as it was.
    pub fn take(&mut self) -> Option<MNum>
        ensures oldest { MatchOption result (waiting_in self.old ≡ [])
            (λ m. waiting_in self.old ≡ m ∷ waiting_in self.new) }
        ensures place { result ≡ slice_get self.old.queued self.old.taken }
        ensures taken { self.new.taken ≡ (if is_some result then self.old.taken + 1 else self.old.taken) }
        ensures queued { self.new.queued ≡ self.old.queued }
        ensures spare { self.new.spare ≡ self.old.spare }
        ensures within { self.new.taken ≤ length self.new.queued }
    {
        let oldest = self.list.as_slice().get(self.taken).copied()?;
        self.taken += 1;
        Some(oldest)
    }

    /// How many notices wait.
    pub fn waiting(&self) -> u32
        ensures waiting { result ≡ length (waiting_in self.now) }
        ensures sum { result + self.now.taken ≡ length self.now.queued }
    {
        (self.list.len() - self.taken) as u32
    }

    /// Whether no notice waits.
    pub fn is_empty(&self) -> bool
        ensures { result ≡ (length (waiting_in self.now) == 0) }
    {
        self.waiting() == 0
    }

    /// For how many more notices there is room.
    pub fn spare(&self) -> u32
        ensures spare { result ≡ self.now.spare }
        ensures limit { length self.now.queued + result ≤ u32.MAX }
    {
        (self.list.capacity().min(MOST) - self.list.len()) as u32
    }

    /// How many notices were ever pushed.
    pub fn queued(&self) -> u32
        ensures queued { result ≡ length self.now.queued }
        ensures within { self.now.taken ≤ result }
    {
        self.list.len() as u32
    }

    /// How many notices were given out.
    pub fn taken(&self) -> u32
        ensures taken { result ≡ self.now.taken }
        ensures within { result ≤ length self.now.queued }
    {
        self.taken as u32
    }

    /// The notice at place `i`, from 0, of all that were ever pushed; None exactly where `i` isn't below their
    /// number.
    pub fn at(&self, i: u32) -> Option<MNum>
        ensures { result ≡ slice_get self.now.queued i }
    {
        self.list.as_slice().get(i as usize).copied()
    }

    /// All notices that were ever pushed, oldest first.
    pub fn into_all(self) -> Vec<MNum>
        ensures { result.items ≡ self.queued }
    {
        self.list
    }
}
