// The managed part of the joint state.

ghost use Rattle.std.specs.Prelude.{◌≡◌, ℕ, ◌<◌, ◌≤◌, ◌↔◌, false, IsTrue, IfOk, OnErr, None, Contains, length};
ghost use Rattle.joint_machine.specs.Heaps.{IsLive, MOST, heap_line};
ghost use Rattle.joint_machine.specs.Histories.{managed_numbers};
ghost use Rattle.joint_machine.specs.Lines.{IsManagedAct, IsManagedThread, IsOneEvent, IsHeapAct};
ghost use Rattle.joint_machine.specs.Managed.{opening_managed, on_heap, managed_name, managed_line, handle_of};
ghost use Rattle.joint_machine.specs.Managed.{IsManagedRoot};
ghost use Rattle.joint_machine.specs.Run.{thread_number, is_that_handle};
ghost use Rattle.joint_replay.specs.Judging.{Decides, Gives};
ghost use Rattle.joint_replay.specs.Snaps.{OwesDead};

use crate::callers::{number, place_of};
use crate::heap::PlainHeap;
use crate::open_cycle::SnappedCycle;
use crate::operations::Naming;
use crate::roots::{as_objects, handle_at, pinned_roots};
use crate::state::Verdict;
use joint_model::{Act, CELLS, Kind, MNum, PINS, Reply, Thread};
use std::alloc::{AllocError, Global};
use std::marker::Model;

/// The managed objects with their kinds and handles, the pins and cells, the notices with how many were taken, and the
/// open cycle.
#[derive(Drop)]
pub(crate) struct ManagedPart {
    pub(crate) heap: PlainHeap,
    pub(crate) kinds: Vec<Kind>,
    pub(crate) held: Vec<Option<u32>>,
    pub(crate) pins: [Option<u32>; PINS],
    pub(crate) cells: [Option<u32>; CELLS],
    pub(crate) notices: Vec<u32>,
    pub(crate) taken: usize,
    pub(crate) cycle: Option<SnappedCycle>,
    pub(crate) cycles: u32,
}

impl Model for ManagedPart {
    ghost use Rattle.std.specs.Prelude.{◌≡◌, length};
    ghost use Rattle.joint_machine.specs.Managed.{Managed};
    ghost use Rattle.joint_replay.specs.Snaps.{OwesDead};

    ghost Value = { Managed };

    ghost invariant = { λ s. OwesDead (length s.heap.fields) s.cycle
        × (length s.held.items ≡ length s.heap.fields) × (length s.pins ≡ 9) × (length s.cells ≡ 64) };

    ghost view = { λ s. record {
      heap = s.heap;
      kinds = s.kinds.items;
      held = s.held.items;
      pins = s.pins;
      cells = s.cells;
      notices = s.notices.items;
      taken = s.taken;
      cycle = s.cycle;
      cycles = s.cycles;
    } };
}

impl ManagedPart {
    /// Nothing is there.
    pub(crate) fn new(alloc: Global) -> ManagedPart
        ensures { result ≡ opening_managed }
    {
        ManagedPart {
            heap: PlainHeap::new(alloc),
            kinds: Vec::new(alloc),
            held: Vec::new(alloc),
            pins: [None; PINS],
            cells: [None; CELLS],
            notices: Vec::new(alloc),
            taken: 0,
            cycle: None,
            cycles: 0,
        }
    }

    /// A line of a managed thread that is one event. Answers `AllocError` where there is no memory; the part is then as
    /// before.
    pub(crate) fn line(
        &mut self,
        caller: Thread,
        act: &Act,
        reply: &Reply,
    ) -> Result<Verdict, AllocError>
        requires thread { IsManagedThread caller }
        requires act { IsManagedAct act.now }
        requires one { IsOneEvent act.now }
        ensures ok { IfOk result (λ d. Decides
            (Gives (managed_line self.old (thread_number caller) act.now) reply.now) d self.old self.new) }
        ensures err { OnErr result (self.new ≡ self.old) }
    {
        match act {
            Act::New { v, kind, fields } => {
                self.make(place_of(caller, *v), *kind, *fields, reply)
            }
            Act::Weak { k, v } => Ok(self.weak(k.0 as usize, place_of(caller, *v), reply)),
            Act::Read { k } | Act::Await { k } => {
                Ok(self.read(number(caller) as usize, k.0 as usize, reply))
            }
            Act::Take { v } => {
                Ok(self.take(number(caller) as usize, place_of(caller, *v), reply))
            }
            Act::Handle { v } => Ok(Verdict::of(self.says_handle(place_of(caller, *v), reply))),
            _ => Ok(self.plain(caller, act, reply)),
        }
    }

    // An operation that both heaps have.
    fn plain(&mut self, caller: Thread, act: &Act, reply: &Reply) -> Verdict
        requires thread { IsManagedThread caller }
        requires act { IsHeapAct act.now }
        ensures { Decides (Gives (on_heap self.old
            (heap_line managed_name self.old.heap (thread_number caller) act.now)) reply.now)
            result self.old self.new }
    {
        self.heap.line(Naming::Objects, caller, act, reply)
    }

    /// The objects' heap.
    pub(crate) fn heap(&self) -> &PlainHeap
        ensures { result.now ≡ self.now.heap }
    {
        &self.heap
    }

    /// How many objects were made; each has a place for the handle that it holds.
    pub(crate) fn rows(&self) -> u32
        ensures rows { result ≡ length self.now.held }
        ensures most { result ≤ MOST }
    {
        self.heap.made()
    }

    /// The live objects that a variable, a static or a pin names. Answers `AllocError` where there is no memory.
    pub(crate) fn roots(&self, alloc: Global) -> Result<Vec<MNum>, AllocError>
        ensures { IfOk result (λ v. (x : ℕ) → Contains (managed_numbers v.items) x
            ↔ (IsLive self.now.heap x × IsManagedRoot self.now x)) }
    {
        let named = pinned_roots(alloc, &self.heap, &self.pins)?;
        as_objects(alloc, &named)
    }

    /// The handle that object `m` holds; a freed one holds none.
    pub(crate) fn handle(&self, m: u32) -> Option<u32>
        ensures { result ≡ handle_of self.now m }
    {
        if self.heap.is_freed(m) {
            None
        } else {
            handle_at(&self.held, m)
        }
    }

    /// Whether object `m` holds handle `h`; a freed one holds none.
    pub(crate) fn gives(&self, m: u32, h: u32) -> bool
        ensures { result ≡ is_that_handle (handle_of self.now m) h }
    {
        match self.handle(m) {
            None => false,
            Some(g) => g == h,
        }
    }
}

/// Whether the reply names managed object `x`.
pub(crate) fn names_object(reply: &Reply, x: u32) -> bool
    ensures { IsTrue result ↔ (reply.now ≡ managed_name x) }
{
    match reply {
        Reply::M(m) => m.0 == x,
        _ => false,
    }
}

/// Whether the reply names the open cycle.
pub(crate) fn names_cycle(reply: &Reply, k: u32) -> bool
    ensures { IsTrue result ↔ (reply.now ≡ Reply.Pending record { 0 = k }) }
{
    match reply {
        Reply::Pending(cycle) => cycle.0 == k,
        _ => false,
    }
}
