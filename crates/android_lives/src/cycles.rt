// The bridge's cycles, as a log tells them.

ghost use Rattle.std.specs.Prelude.{◌≡◌, ◌<◌, ◌-◌, OnOk, length, slice_get, slice_set};
ghost use Rattle.android_lives.specs.Cycles.{begun_by, begun_cycle, is_old, none_turned, old_in, restored_by, seen_by};
ghost use Rattle.android_lives.specs.Cycles.{weakened_by, weakened_to, with_candidate, with_restored};

use crate::tallies::{Whole, counted};
use std::alloc::{AllocError, Global};
use std::marker::Model;

/// What a place tells of the state: the line of its mark, how many strong handles are live, and by how much each count
/// is off.
#[derive(Clone, Copy, PartialEq, Eq, Debug)]
pub struct Seen {
    pub line: u64,
    pub held: usize,
    pub off_strong: Whole,
    pub off_weak: Whole,
}

/// A cycle: the lines of its first mark and its last; how many candidates it weakened, and how many of these were made
/// before the cycle before it; how many weak references it let go, and how many candidates it kept; and what its last
/// place told.
#[derive(Clone, Copy, PartialEq, Eq, Debug)]
pub struct Cycle {
    pub first: u64,
    pub last: u64,
    pub candidates: u64,
    pub old: u64,
    pub restored: u64,
    pub kept: u64,
    pub held: usize,
    pub off_strong: Whole,
    pub off_weak: Whole,
}

impl Cycle {
    // One that begins with that line.
    fn begin(line: u64) -> Cycle
        ensures { result ≡ begun_cycle line }
    {
        let none = Whole { up: 0, down: 0 };
        Cycle {
            first: line,
            last: line,
            candidates: 0,
            old: 0,
            restored: 0,
            kept: 0,
            held: 0,
            off_strong: none,
            off_weak: none,
        }
    }

    // The same after a place.
    fn seen_by(self, seen: Seen) -> Cycle
        ensures { result ≡ seen_by seen self }
    {
        let mut cycle = self;
        cycle.last = seen.line;
        cycle.held = seen.held;
        cycle.off_strong = seen.off_strong;
        cycle.off_weak = seen.off_weak;
        cycle
    }

    // The same with one more candidate that may be old.
    fn old_in(self, old: bool) -> Cycle
        ensures { result ≡ old_in old self }
    {
        let mut cycle = self;
        if old {
            cycle.old = counted(self.old);
        }
        cycle
    }

    // The same with one more candidate.
    fn with_candidate(self, seen: Seen, old: bool) -> Cycle
        ensures { result ≡ with_candidate seen old self }
    {
        let mut cycle = self;
        cycle.candidates = counted(self.candidates);
        cycle.old_in(old).seen_by(seen)
    }

    // The same with one more that is kept, or restored.
    fn with_restored(self, seen: Seen, kept: bool) -> Cycle
        ensures { result ≡ with_restored seen kept self }
    {
        let mut cycle = self;
        if kept {
            cycle.kept = counted(self.kept);
        } else {
            cycle.restored = counted(self.restored);
        }
        cycle.seen_by(seen)
    }
}

/// What the last place of a cycle told.
#[derive(Clone, Copy, PartialEq, Eq, Debug)]
pub enum Turn {
    NoTurn,
    Weakens,
    Restores,
}

/// The cycles so far. Clauses see them as `Turned` of `specs/Cycles.antt`.
#[derive(Drop)]
pub struct Cycles {
    list: Vec<Cycle>,
    turn: Turn,
}

impl Model for Cycles {
    ghost use Rattle.android_lives.specs.Cycles.{Turned};

    ghost Value = { Turned };

    ghost view = { λ c. record { cycles = c.list.items; turn = c.turn } };
}

// Whether a candidate of a cycle with that number is old.
fn is_old(begun: u64, number: usize) -> bool
    ensures { result ≡ is_old begun number }
{
    number >= 2 && begun <= (number - 2) as u64
}

impl Cycles {
    /// There was none.
    pub(crate) fn new(alloc: Global) -> Cycles
        ensures { result ≡ none_turned }
    {
        Cycles {
            list: Vec::new(alloc),
            turn: Turn::NoTurn,
        }
    }

    /// All of them.
    pub fn list(&self) -> &[Cycle]
        ensures { result.now ≡ self.now.cycles }
    {
        &self.list
    }

    /// How many there are.
    pub fn len(&self) -> usize
        ensures { result ≡ length self.now.cycles }
    {
        self.list.len()
    }

    // The last one.
    fn last(&self) -> Option<Cycle>
        ensures { result ≡ slice_get self.now.cycles (length self.now.cycles - 1) }
    {
        let n = self.list.len();
        if n == 0 {
            return None;
        }
        Some(self.list[n - 1])
    }

    // The last one is that.
    fn put_last(&mut self, cycle: Cycle)
        ensures { self.new ≡ record self.old { cycles = slice_set self.old.cycles (length self.old.cycles - 1) cycle } }
    {
        let n = self.list.len();
        if n > 0 {
            self.list[n - 1] = cycle;
        }
    }

    // Something is weakened: what comes after something else begins a cycle.
    fn begin(&mut self, line: u64) -> Result<(), AllocError>
        ensures { OnOk result (self.new ≡ begun_by line self.old) }
    {
        match self.turn {
            Turn::Weakens => Ok(()),
            _ => {
                self.list.push(Cycle::begin(line))?;
                self.turn = Turn::Weakens;
                Ok(())
            }
        }
    }

    // The last cycle has one more candidate.
    fn add_candidate(&mut self, seen: Seen, begun: u64)
        ensures { self.new ≡ weakened_to seen begun self.old }
    {
        let old = is_old(begun, self.list.len());
        match self.last() {
            Some(cycle) => self.put_last(cycle.with_candidate(seen, old)),
            None => {}
        }
    }

    /// A candidate is weakened that was made where so many cycles had begun.
    pub(crate) fn weaken(&mut self, seen: Seen, begun: u64) -> Result<(), AllocError>
        ensures { OnOk result (self.new ≡ weakened_by seen begun self.old) }
    {
        self.begin(seen.line)?;
        self.add_candidate(seen, begun);
        Ok(())
    }

    /// One is kept, or a weak reference is let go.
    pub(crate) fn restore(&mut self, seen: Seen, kept: bool)
        ensures { self.new ≡ restored_by seen kept self.old }
    {
        match self.last() {
            Some(cycle) => self.put_last(cycle.with_restored(seen, kept)),
            None => {}
        }
        self.turn = Turn::Restores;
    }
}
