// Room for a snapshot of the present rows, whatever pins it is given: it is taken before the gate is closed, so that
// afterwards nothing fails.
//
// Each list that a snapshot makes has at most as many members as rows were made, and the graph of the dead part at most
// an edge for each of their fields. The cycle owes a notice for each candidate: these stand after those that were
// queued, in a list into which the queue moves where its own is too short.

ghost use Rattle.std.specs.Prelude.{◌≡◌, ◌+◌, ◌≤◌, [], IfOk, IsSome, OnOk, None, Some, vec_capacity};
ghost use Rattle.managed_heap.specs.Rooms.{FitsRows, FitsSnap, HasRoomFor, IsNoRoom};

use crate::rows::ManagedRows;
use bridge_graph::GraphBuilder;
use joint_model::MNum;
use row_heap::RowHeap;
use std::alloc::{AllocError, Global};

/// Room for what a snapshot makes of its rows.
#[derive(Drop)]
pub(crate) struct Room {
    pub(crate) freed: Vec<MNum>,
    pub(crate) candidates: Vec<u32>,
    pub(crate) dead: Vec<MNum>,
    pub(crate) places: Vec<u32>,
    pub(crate) graph: GraphBuilder,
}

impl Room {
    /// Room for a snapshot of these rows.
    pub(crate) fn of(alloc: Global, heap: &RowHeap<MNum>) -> Result<Room, AllocError>
        ensures { IfOk result (λ r. FitsRows r heap.now.heap) }
    {
        let mut room = Room::none(alloc);
        match room.take(heap.made(), heap.fields_made()) {
            Ok(()) => Ok(room),
            Err(error) => {
                drop(room);
                Err(error)
            }
        }
    }

    // No room.
    fn none(alloc: Global) -> Room
        ensures { IsNoRoom result }
    {
        Room {
            freed: Vec::new(alloc),
            candidates: Vec::new(alloc),
            dead: Vec::new(alloc),
            places: Vec::new(alloc),
            graph: GraphBuilder::new(alloc),
        }
    }

    // Takes room for so many rows with so many fields together.
    fn take(&mut self, rows: u32, fields: u32) -> Result<(), AllocError>
        requires { IsNoRoom self.old }
        ensures { OnOk result (HasRoomFor self.new rows fields) }
    {
        self.freed.reserve_exact(rows as usize)?;
        self.candidates.reserve_exact(rows as usize)?;
        self.dead.reserve_exact(rows as usize)?;
        self.places.resize(rows as usize + 1, 0)?;
        self.graph.reserve(rows, fields)
    }
}

/// Room for a snapshot: for what it makes of its rows, and for the notices that were queued with one more for each row.
#[derive(Drop)]
pub(crate) struct SnapRoom {
    pub(crate) rows: Room,
    pub(crate) notices: Vec<MNum>,
}

/// Gives room back, if it was taken: one test where it wasn't.
#[inline(always)]
pub(crate) fn give_back(room: &mut Option<SnapRoom>)
    ensures { room.new ≡ None }
{
    if room.is_some() {
        let_go(room);
    }
}

// Gives room back. It is a call, since room is seldom taken: what stands in line in each event needs no place for it.
#[inline(never)]
fn let_go(room: &mut Option<SnapRoom>)
    ensures { room.new ≡ None }
{
    drop(room.take());
}

/// Takes room out that was taken before.
pub(crate) fn use_up(room: &mut Option<SnapRoom>) -> SnapRoom
    requires { IsSome room.old }
    ensures there { room.old ≡ Some result }
    ensures used { room.new ≡ None }
{
    match room.take() {
        None => unreachable!(),
        Some(taken) => taken,
    }
}

// A list with room for so many notices that were queued and so many more. Answers `AllocError` too where a queue can't
// be that long.
fn notices_with_room(alloc: Global, queued: u32, more: u32) -> Result<Vec<MNum>, AllocError>
    ensures empty { IfOk result (λ l. l.items ≡ []) }
    ensures wide { IfOk result (λ l. queued + more ≤ vec_capacity l) }
    ensures most { IfOk result (λ l. queued + more ≤ u32.MAX) }
{
    if more > u32::MAX - queued {
        return Err(AllocError);
    }
    let list = Vec::with_capacity(alloc, (queued + more) as usize)?;
    Ok(list)
}

impl ManagedRows {
    /// Room for a snapshot of these rows. Answers `AllocError` where there is no memory.
    pub(crate) fn snap_room(&self) -> Result<SnapRoom, AllocError>
        ensures { IfOk result (λ r. FitsSnap r self.now.managed) }
    {
        let alloc = *self.headers.allocator();
        let notices = notices_with_room(alloc, self.notices.queued(), self.heap.made())?;
        match Room::of(alloc, &self.heap) {
            Ok(rows) => Ok(SnapRoom { rows, notices }),
            Err(error) => {
                drop(notices);
                Err(error)
            }
        }
    }
}
