// A snapshot, which closes the gate, opens a cycle and makes one entry of the driver, and the call that takes its
// memory.

ghost use Rattle.std.specs.Prelude.{◌≡◌, ◌+◌, List, Option, Some, None, Err, IfOk, IfErr, IfSome, IsOk, OnErr, OnOk};
ghost use Rattle.std.specs.Prelude.{true, false};
ghost use Rattle.std.specs.Option.{IfNone};
ghost use Rattle.joint_machine.specs.declared.names.MNum.{MNum};
ghost use Rattle.joint_machine.specs.declared.names.Thread.TheVariants.{C};
ghost use Rattle.joint_machine.specs.Managed.{OpenCycle};
ghost use Rattle.known_laws.specs.Known.{PinsStand};
ghost use Rattle.managed_heap.specs.Openings.{OpensByClosing, BySnapFault, MayDrawSnap};
ghost use Rattle.managed_heap.specs.Pinned.{pins_given};
ghost use Rattle.managed_heap.specs.Sides.{as_side, ready_after};

use crate::gates::Closes;
use crate::rooms::use_up;
use crate::side::ManagedSide;
use crate::snapping::Snap;
use bridge_graph::DeadGraph;
use joint_model::{Cycle, Draw, MNum, Made, Op, Reply, Span, Thread, enter};
use std::alloc::AllocError;

/// The objects that the pins of threads `m1` to `m8` hold, in that order.
#[derive(Clone, Copy, PartialEq, Eq, Debug)]
pub struct Pins {
    pub at: [Option<MNum>; 8],
}

/// What a snapshot answers: the cycle that it opened, the number of its entry, how many candidates the cycle has, where
/// the objects that it freed stand among all that were freed, and the dead part.
#[derive(Drop)]
pub struct Opened {
    pub cycle: Cycle,
    pub number: u64,
    pub candidates: u32,
    pub freed: Span,
    pub graph: DeadGraph,
}

/// Why no cycle was opened.
#[derive(Clone, Copy, PartialEq, Eq, Debug)]
pub enum SnapFault {
    /// There is no memory.
    OutOfMemory,
    /// A cycle is open: this one.
    CycleOpen { cycle: Cycle },
    /// The gate wasn't closed.
    NotClosed,
}

impl ManagedSide {
    /// Takes all memory that a snapshot of the present rows needs, whatever its pins are: for its entry, its lists and
    /// its graph, and for the entries and notices that its cycle owes. Nothing else changes. The side is ready then,
    /// until a call makes an entry: the next snapshot takes no memory. Answers `AllocError` where there is no memory,
    /// or where the entries would pass their limit; the side is then as before.
    pub fn reserve_snap(&mut self) -> Result<(), AllocError>
        ensures ok { OnOk result (self.new ≡ record self.old { ready = true }) }
        ensures sure { self.old.ready ≡ true → IsOk result }
        ensures err { OnErr result (self.new ≡ self.old) }
    {
        if self.room.is_some() {
            return Ok(());
        }
        self.entries.reserve(3)?;
        let room = self.rows.snap_room()?;
        drop(self.room.replace(room));
        Ok(())
    }

    /// Takes a snapshot and opens the next cycle: frees the rows that neither a slot nor a row with a handle reaches.
    /// The candidates are the rows with a handle that no slot reaches; they and what they reach are the dead part,
    /// which is answered as a graph. The pins that `gate` gives count as slots and are told with the entry. One entry
    /// is drawn from it and put last. Its time goes by the objects that were made and the fields of the live ones.
    ///
    /// It takes all memory first, as `reserve_snap` does, and then closes the gate: from then on nothing fails, so each
    /// closing of the gate has its entry. Answers `CycleOpen` exactly where a cycle is open, `OutOfMemory` where the
    /// side isn't ready and there is no memory, or no room for the entries that the cycle owes, and `NotClosed` where
    /// the gate wasn't closed, which leaves the side ready. The side is else as before, and but for `NotClosed` so is
    /// `gate`. From here on closing the cycle takes no memory.
    pub fn snap<G: Draw + Closes>(&mut self, gate: &mut G, index: u32) -> Result<Opened, SnapFault>
        requires close { self.old.state.managed.cycle ≡ None
            → G.may_close gate.old (self.old.state.managed.cycles + 1) }
        requires stand { (pins : List (Option MNum)) (g : G)
            → G.closed gate.old (self.old.state.managed.cycles + 1) pins g
            → PinsStand self.old.state.managed (pins_given pins) }
        requires may { (pins : List (Option MNum)) (g : G)
            → G.closed gate.old (self.old.state.managed.cycles + 1) pins g → MayDrawSnap G.rules g self.old }
        ensures snaps { IfOk result (λ o. OpensByClosing G.closed G.rules gate.old gate.new
            (as_side self.old) (as_side self.new) index o) }
        ensures busy { (c : OpenCycle) → self.old.state.managed.cycle ≡ Some c
            → result ≡ Err (SnapFault.CycleOpen record { 0 = c.number }) }
        ensures fault { IfErr result (λ e. BySnapFault e self.old.state.managed.cycle
            (gate.new ≡ gate.old) (G.refused gate.old gate.new)) }
        ensures never { self.old.ready ≡ true → result ≡ Err SnapFault.OutOfMemory → ⊥ }
        ensures ready { self.new.ready ≡ ready_after result self.old.ready }
        ensures err { OnErr result (as_side self.new ≡ as_side self.old) }
    {
        if let Some(cycle) = self.open_cycle() {
            return Err(SnapFault::CycleOpen { cycle });
        }
        match self.reserve_snap() {
            Err(_) => Err(SnapFault::OutOfMemory),
            Ok(()) => match self.snap_closed(gate, index) {
                None => Err(SnapFault::NotClosed),
                Some(opened) => Ok(opened),
            },
        }
    }

    // A snapshot of a side that is ready, while no cycle is open. None where the gate wasn't closed.
    fn snap_closed<G: Draw + Closes>(&mut self, gate: &mut G, index: u32) -> Option<Opened>
        requires ready { self.old.ready ≡ true }
        requires closed { self.old.state.managed.cycle ≡ None }
        requires close { G.may_close gate.old (self.old.state.managed.cycles + 1) }
        requires stand { (pins : List (Option MNum)) (g : G)
            → G.closed gate.old (self.old.state.managed.cycles + 1) pins g
            → PinsStand self.old.state.managed (pins_given pins) }
        requires may { (pins : List (Option MNum)) (g : G)
            → G.closed gate.old (self.old.state.managed.cycles + 1) pins g → MayDrawSnap G.rules g self.old }
        ensures snaps { IfSome result (λ o. OpensByClosing G.closed G.rules gate.old gate.new
            (as_side self.old) (as_side self.new) index o) }
        ensures used { IfSome result (λ o. self.new.ready ≡ false) }
        ensures refused { IfNone result ((self.new ≡ self.old) × G.refused gate.old gate.new) }
    {
        // what the list holds and has room for is within its limit
        let _spare = self.entries.spare();
        let Some(pins) = gate.close(Cycle(self.rows.next_cycle())) else {
            return None;
        };
        let room = use_up(&mut self.room);
        let Snap {
            cycle,
            freed,
            first,
            candidates,
            graph,
        } = self.rows.snap(&pins, room);
        let cycle = Cycle(cycle);
        let span = Span {
            first,
            count: freed.len() as u32,
        };
        let made = Made {
            caller: Thread::C,
            index,
            op: Op::Snap { cycle },
            reply: Reply::Snapped(candidates, span),
            cites: None,
        };
        let number = enter(&mut self.entries, gate, made, None, &freed);
        drop(freed);
        Some(Opened {
            cycle,
            number,
            candidates,
            freed: span,
            graph,
        })
    }
}
