// The rows of a side: its objects with the handles that they hold, its slots, registry, the targets of its cells, and
// notices. It has no pins.

ghost use Rattle.std.specs.Prelude.{◌≡◌, ℕ, ◌+◌, ◌<◌, ◌≤◌, ◌↔◌, ◌++◌, ◌∷◌, [], Some, None, IfOk, OnOk, OnErr, IsTrue};
ghost use Rattle.std.specs.Prelude.{MatchOption, length, map, false};
ghost use Rattle.std.specs.Option.{ForSome};
ghost use Rattle.joint_machine.specs.Heaps.{IsLive, MOST, answer, copied, dropped, field_got, field_set, is_full};
ghost use Rattle.joint_machine.specs.Heaps.{loaded, next_number, slot, stored};
ghost use Rattle.joint_machine.specs.Histories.{managed_numbers};
ghost use Rattle.joint_machine.specs.Managed.{OpenCycle, made_new, managed_name, on_heap, with_row};
ghost use Rattle.joint_machine.specs.ManagedReplay.{opening_replay, refusal_to};

use crate::lines::reply_of;
use crate::open::OpenParts;
use crate::targets::Cells;
use finaliser_queue::Notices;
use instance_registry::Registry;
use joint_model::{Cycle, Kind, MNum, Phase, PhaseWord, Reply, list_with_room};
use row_heap::{MOST_OBJECTS, RowHeap};
use std::alloc::{AllocError, Global};
use std::marker::Model;

/// What stands beside an object's fields: its kind, the handle that it holds, and the peer with which the registry has
/// it.
#[derive(Clone, Copy)]
pub(crate) struct Header {
    pub(crate) kind: Kind,
    pub(crate) handle: Option<u32>,
    pub(crate) peer: Option<u32>,
}

/// The rows of a side.
#[derive(Drop)]
pub(crate) struct ManagedRows {
    pub(crate) heap: RowHeap<MNum>,
    pub(crate) headers: Vec<Header>,
    pub(crate) registry: Registry,
    pub(crate) cells: Cells,
    pub(crate) notices: Notices,
    pub(crate) cycle: Option<OpenParts>,
    pub(crate) cycles: u32,
    pub(crate) contracted: bool,
}

impl Model for ManagedRows {
    ghost use Rattle.std.specs.Prelude.{false, None, ◌≡◌, []};
    ghost use Rattle.joint_machine.specs.ManagedReplay.{ManagedReplay};
    ghost use Rattle.joint_machine.specs.PinsTold.{no_pins};
    ghost use Rattle.managed_heap.specs.Dues.{AreDues};
    ghost use Rattle.managed_heap.specs.Rows.{rows_of, ArePeers};

    ghost Value = { ManagedReplay };

    ghost view = { λ s. rows_of s.heap.heap s.headers.items s.registry
        s.cells no_pins s.notices s.cycle s.cycles s.contracted };

    ghost invariant = { λ s. ArePeers s.registry s.headers.items × (s.heap.refs ≡ [])
        × (s.heap.follows ≡ false) × AreDues s.cycle s.heap s.notices.spare };
}

impl ManagedRows {
    /// No rows. Answers `AllocError` where there is no memory.
    pub(crate) fn new(alloc: Global) -> Result<ManagedRows, AllocError>
        ensures { IfOk result (λ r. r ≡ opening_replay) }
    {
        let cells = Cells::new(alloc)?;
        Ok(ManagedRows {
            heap: RowHeap::new(alloc),
            headers: list_with_room(alloc, MOST_OBJECTS),
            registry: Registry::new(alloc),
            cells,
            notices: Notices::new(alloc),
            cycle: None,
            cycles: 0,
            contracted: false,
        })
    }

    /// The open cycle; None exactly where none is open.
    pub(crate) fn open_cycle(&self) -> Option<Cycle>
        ensures { MatchOption result (self.now.managed.cycle ≡ None)
            (λ k. (c : OpenCycle) × (self.now.managed.cycle ≡ Some c) × (c.number ≡ k.0)) }
    {
        match &self.cycle {
            None => None,
            Some(open) => Some(Cycle(open.number())),
        }
    }

    /// The reply of a refused phase.
    pub(crate) fn refusal(&self, word: PhaseWord, phase: Phase) -> Reply
        ensures { result ≡ refusal_to self.now.managed phase word }
    {
        match word {
            PhaseWord::Cycle | PhaseWord::Snap => match self.open_cycle() {
                None => Reply::At(Phase::Idle),
                Some(cycle) => Reply::CycleOpen(cycle),
            },
            _ => Reply::At(phase),
        }
    }

    /// `copy V W`: V names the object of W.
    pub(crate) fn copy(&mut self, v: usize, w: usize) -> Reply
        requires v { v < 72 }
        requires w { w < 72 }
        ensures answer { on_heap self.old.managed
            (copied managed_name self.old.managed.heap v w) ≡ answer result self.new.managed }
        ensures rest { self.new ≡ record self.old { managed = self.new.managed } }
    {
        let done = self.heap.copy(v, w);
        reply_of(done)
    }

    /// `set V I W`: field I of V's object holds W's object; with no W it holds nothing.
    pub(crate) fn set(&mut self, v: usize, i: usize, w: Option<usize>) -> Reply
        requires v { v < 72 }
        requires w { ForSome w (λ place. place < 72) }
        ensures answer { on_heap self.old.managed
            (field_set self.old.managed.heap v i w) ≡ answer result self.new.managed }
        ensures rest { self.new ≡ record self.old { managed = self.new.managed } }
    {
        let done = self.heap.set(v, i, w);
        reply_of(done)
    }

    /// `get V W I`: V names the object in field I of W's object.
    pub(crate) fn get(&mut self, v: usize, w: usize, i: usize) -> Reply
        requires v { v < 72 }
        requires w { w < 72 }
        ensures answer { on_heap self.old.managed
            (field_got managed_name self.old.managed.heap v w i) ≡ answer result self.new.managed }
        ensures rest { self.new ≡ record self.old { managed = self.new.managed } }
    {
        let done = self.heap.get(v, w, i);
        reply_of(done)
    }

    /// `drop V`: V names nothing.
    pub(crate) fn drop_var(&mut self, v: usize) -> Reply
        requires { v < 72 }
        ensures answer { on_heap self.old.managed (dropped self.old.managed.heap v) ≡ answer result self.new.managed }
        ensures rest { self.new ≡ record self.old { managed = self.new.managed } }
    {
        let done = self.heap.drop(v);
        reply_of(done)
    }

    /// `load V x`: V names the object of static `s`.
    pub(crate) fn load(&mut self, v: usize, s: usize) -> Reply
        requires v { v < 72 }
        requires number { s < 16 }
        ensures answer { on_heap self.old.managed
            (loaded managed_name self.old.managed.heap v s) ≡ answer result self.new.managed }
        ensures rest { self.new ≡ record self.old { managed = self.new.managed } }
    {
        let done = self.heap.load(v, s);
        reply_of(done)
    }

    /// `store x V`: static `s` holds V's object; with no V it holds nothing.
    pub(crate) fn store(&mut self, s: usize, v: Option<usize>) -> Reply
        requires number { s < 16 }
        requires v { ForSome v (λ place. place < 72) }
        ensures answer { on_heap self.old.managed (stored self.old.managed.heap s v) ≡ answer result self.new.managed }
        ensures rest { self.new ≡ record self.old { managed = self.new.managed } }
    {
        let done = self.heap.store(s, v);
        reply_of(done)
    }
}
