// What readers' entries may answer: the pins, the targets of cells, the counts, and the cycle whose snap a read waits
// for.

ghost use Rattle.std.specs.Prelude.{◌≡◌, ◌<◌, ◌^◌, ◌↔◌, IsTrue, None, OnErr, OnOk, Some, drop, length, replicate};
ghost use Rattle.std.specs.Prelude.{slice_get, slice_set};
ghost use Rattle.joint_machine.specs.Lines.{IsManagedThread, IsNamed, IsThread};
ghost use Rattle.joint_machine.specs.Run.{thread_number};
ghost use Rattle.reader_counts.specs.Counts.{EndsWithin, IsPendingIn, IsUnknownIn, counts_after, opening_counts};

use joint_model::{Cell, Cycle, Entry, MNum, Thread};
use managed_heap::Pins;
use reader_counts::ReadCounts;
use std::alloc::{AllocError, Global};

/// The pins, the cells' targets, the counts of managed entries, and the cycle whose snap a read waits for.
#[derive(Drop)]
pub(crate) struct Readers {
    pins: [Option<MNum>; 9],
    targets: [Option<MNum>; 64],
    counts: ReadCounts,
    owed: Option<Cycle>,
}

impl Readers {
    /// Before the first entry.
    pub(crate) fn new(alloc: Global) -> Readers
        ensures { result ≡ record {
          pins = replicate 9 None;
          targets = replicate 64 None;
          counts = opening_counts;
          owed = None;
        } }
    {
        Readers {
            pins: [None; 9],
            targets: [None; 64],
            counts: ReadCounts::new(alloc),
            owed: None,
        }
    }

    /// The pin of a thread.
    pub(crate) fn pin(&self, caller: Thread) -> Option<MNum>
        requires { IsManagedThread caller }
        ensures { slice_get self.now.pins (thread_number caller) ≡ Some result }
    {
        match caller {
            Thread::M(n) => self.pins[n as usize],
            _ => None,
        }
    }

    /// The pin of a thread comes to hold that, or nothing.
    pub(crate) fn set_pin(&mut self, caller: Thread, pin: Option<MNum>)
        requires { IsManagedThread caller }
        ensures { self.new ≡ record self.old { pins = slice_set self.old.pins (thread_number caller) pin } }
    {
        if let Thread::M(n) = caller {
            self.pins[n as usize] = pin;
        }
    }

    /// All pins.
    pub(crate) fn pins(&self) -> Pins
        requires { length self.now.pins ≡ 9 }
        ensures { result.at ≡ drop 1 self.now.pins }
    {
        let [_, a, b, c, d, e, f, g, h] = self.pins;
        Pins {
            at: [a, b, c, d, e, f, g, h],
        }
    }

    /// The cell's target, if it was set.
    pub(crate) fn target(&self, k: Cell) -> Option<MNum>
        requires { k.0 < 64 }
        ensures { slice_get self.now.targets k.0 ≡ Some result }
    {
        self.targets[k.0 as usize]
    }

    /// The cell's word: 0 exactly where it wasn't set.
    pub(crate) fn word(&self, k: Cell) -> u64
        requires { k.0 < 64 }
        ensures { (result ≡ 0) ↔ (slice_get self.now.targets k.0 ≡ Some None) }
    {
        match self.targets[k.0 as usize] {
            None => 0,
            Some(m) => m.0 as u64 + 1,
        }
    }

    /// The cell comes to have a target.
    pub(crate) fn set_target(&mut self, k: Cell, target: MNum)
        requires { k.0 < 64 }
        ensures { self.new ≡ record self.old { targets = slice_set self.old.targets k.0 (Some target) } }
    {
        self.targets[k.0 as usize] = Some(target);
    }

    /// Whether a thread with an empty pin may answer `pending k`, as far as is known.
    pub(crate) fn may_be_pending(
        &self,
        caller: Thread,
        k: Cycle,
        cycles: u32,
        is_open: bool,
    ) -> bool
        requires caller { IsThread caller }
        requires cycles { length self.now.counts.ended ≡ cycles }
        ensures { IsTrue result ↔ IsPendingIn self.now.counts caller k.0 cycles is_open }
    {
        self.counts.may_be_pending(caller, k, cycles, is_open)
    }

    /// Whether a thread with an empty pin may answer `unset`, where the cell's target, if it has one, is live.
    pub(crate) fn may_be_unset(&self, caller: Thread, k: Cell) -> bool
        requires caller { IsThread caller }
        requires cell { k.0 < 64 }
        ensures { IsTrue result ↔ IsUnknownIn self.now.counts caller k.0 }
    {
        self.counts.knows_nothing(caller, k)
    }

    /// A read waits for the snap of a cycle.
    pub(crate) fn wait_for(&mut self, k: Cycle)
        ensures { self.new ≡ record self.old { owed = Some k } }
    {
        self.owed = Some(k);
    }

    /// The cycle whose snap a read waits for.
    pub(crate) fn owed(&self) -> Option<Cycle>
        ensures { result ≡ self.now.owed }
    {
        self.owed
    }

    /// A cycle is snapped: nobody waits for it any more.
    pub(crate) fn snapped(&mut self)
        ensures { self.new ≡ record self.old { owed = None } }
    {
        self.owed = None;
    }

    /// Counts an entry.
    pub(crate) fn note(&mut self, entry: &Entry) -> Result<(), AllocError>
        requires event { IsNamed entry.now.made.caller entry.now.made.op }
        requires count { self.old.counts.managed < 2 ^ 63 }
        requires ends { EndsWithin self.old.counts entry.now.made.op }
        ensures ok { OnOk result (self.new ≡ record self.old { counts = counts_after self.old.counts entry.now.made }) }
        ensures err { OnErr result (self.new ≡ self.old) }
    {
        self.counts.note(entry)
    }
}
