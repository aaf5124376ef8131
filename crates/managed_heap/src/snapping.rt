// A snapshot of the rows: what neither a slot, a pin nor a row with a handle reaches is freed, and the next cycle is
// opened.
//
// All memory was taken before, so nothing fails. At the end the slots are marked again, unless there is no candidate,
// from which more was marked: so the live rows without a mark are exactly the dead part, as they stay while the cycle
// is open.

ghost use Rattle.std.specs.Prelude.{◌≡◌, ℕ, ◌+◌, ◌≤◌, ◌<◌, None, length};
ghost use Rattle.joint_machine.specs.Histories.{managed_numbers};
ghost use Rattle.known_laws.specs.Known.{PinsStand};
ghost use Rattle.managed_heap.specs.Pinned.{pins_given};
ghost use Rattle.managed_heap.specs.Rooms.{FitsSnap};
ghost use Rattle.managed_heap.specs.Rows.{RowsInvariant};
ghost use Rattle.managed_heap.specs.Snapping.{TakesSnapshot};

use crate::open::OpenParts;
use crate::opening::Pins;
use crate::rooms::SnapRoom;
use crate::rows::ManagedRows;
use crate::snapshots::{Prepared, SnapshotParts, mark_slots_again, prepare};
use bridge_graph::DeadGraph;
use joint_model::MNum;

/// What a snapshot tells its caller: the number of the cycle that it opened, the rows that it freed, where they stand
/// in the list of freed ones, how many candidates there are, and the dead part.
#[derive(Drop)]
pub(crate) struct Snap {
    pub(crate) cycle: u32,
    pub(crate) freed: Vec<MNum>,
    pub(crate) first: u32,
    pub(crate) candidates: u32,
    pub(crate) graph: DeadGraph,
}

impl ManagedRows {
    /// The number of the next cycle.
    pub(crate) fn next_cycle(&self) -> u32
        requires { self.now.managed.cycles < u32.MAX }
        ensures { result ≡ self.now.managed.cycles + 1 }
    {
        self.cycles + 1
    }

    /// A snapshot, in room that was taken: frees what neither a slot, a pin nor a row with a handle reaches, and opens
    /// the next cycle. It takes no memory.
    pub(crate) fn snap(&mut self, pins: &Pins, room: SnapRoom) -> Snap
        requires kept { RowsInvariant self.old }
        requires closed { self.old.managed.cycle ≡ None }
        requires count { self.old.managed.cycles < u32.MAX }
        requires stand { PinsStand self.old.managed (pins_given pins.now.at) }
        requires fits { FitsSnap room self.old.managed }
        ensures snapshot { TakesSnapshot self.old self.new (pins_given pins.now.at)
            (managed_numbers result.freed.items) result.cycle result.first result.candidates result.graph }
        ensures few { length result.freed.items ≤ 65535 }
    {
        let SnapRoom { rows, notices } = room;
        self.notices.widen(self.heap.made(), notices);
        let first = self.heap.made() - self.heap.live();
        let Prepared { found, graph } = prepare(&mut self.heap, &self.headers, pins, rows);
        let SnapshotParts {
            freed,
            candidates,
            dead,
        } = found;
        self.heap.free(&freed);
        mark_slots_again(&mut self.heap, pins, &candidates);
        self.cycles += 1;
        self.contracted = false;
        let count = candidates.len() as u32;
        let open = OpenParts {
            number: self.cycles,
            candidates,
            dead,
        };
        drop(self.cycle.replace(open));
        Snap {
            cycle: self.cycles,
            freed,
            first,
            candidates: count,
            graph,
        }
    }
}
