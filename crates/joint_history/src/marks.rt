// The driver's marking under the peer lock. A begin of the driver always gives a number: whatever marking a peer thread
// left open is ended in the same hold of the lock, and the memory was reserved before the cycle was mirrored. Its own
// marking goes on in slices, one in each hold.

ghost use Rattle.std.specs.Prelude.{◌≡◌, IsSome, None, Some, true};
ghost use Rattle.joint_machine.specs.declared.names.Thread.TheVariants.{C};
ghost use Rattle.joint_machine.specs.declared.events.Op.TheVariants as op;
ghost use Rattle.joint_machine.specs.declared.events.Reply.TheVariants as says;
ghost use Rattle.joint_machine.specs.Sides.{peer_rules};
ghost use Rattle.joint_machine.specs.Told.{nothing};
ghost use Rattle.order_table.specs.Allowed.{Settled};
ghost use Rattle.peer_heap.specs.Sides.{IsDrivers, is_own, reserve_begun, seen};
ghost use Rattle.joint_history.specs.Driven.{DriverMakesNone, driver_entry};
ghost use Rattle.joint_history.specs.DriverMarks.{DrawsEnd, DrawsMark, MakesMark, MakesSweep};
ghost use Rattle.joint_history.specs.Knowing.{line_known};
ghost use Rattle.joint_history.specs.Locked.{Drew};
ghost use Rattle.seat_calls.specs.Passing.{MayAppend};

use crate::steps::Step;
use joint_model::{Marking, Thread};
use order_table::{Order, Role, Seat};
use peer_heap::{PeerSide, SliceEnd, Swept};
use seat_calls::seat_drawing;

// How many peers the driver blackens in one hold of the peer lock.
const SLICE: u32 = 64;

/// A marking that the driver began, with its entry's number; and the marking that was open before and was ended, with
/// the number of that entry.
#[derive(Drop)]
pub struct Begun {
    pub ended: Option<(u64, Swept)>,
    pub number: u64,
    pub marking: Marking,
}

/// A slice of the driver's own open marking: the side blackens the next peers, at most 64. It answers whether none is
/// left, makes no entry and takes no memory.
#[derive(Drop)]
pub(crate) struct Blackening;

impl Step for Blackening {
    type On = PeerSide;

    type Out = bool;

    ghost asks = { λ t order seat s. IsSome s.state.marking × IsDrivers s.state.marking };

    ghost drew = { λ t order seat seat' s s' done. (seat' ≡ seat) × (s' ≡ record s { colours = s'.colours }) };

    ghost makes = { λ t mine mine' done. DriverMakesNone mine mine' };

    fn draw(self, side: &mut PeerSide, _: &Order, _: &mut Seat) -> bool {
        match side.mark_slice(SLICE) {
            Ok(SliceEnd::Done) => true,
            Ok(SliceEnd::More) => false,
            Err(_) => unreachable!(),
        }
    }
}

/// The sweep of the open marking, which is the driver's own or one that a peer thread left open. It answers the entry's
/// number, the marking, and where the peers that it freed stand among all that were freed. It takes no memory.
#[derive(Drop)]
pub(crate) struct Sweeping {
    pub(crate) index: u32,
}

impl Step for Sweeping {
    type On = PeerSide;

    type Out = (u64, Swept);

    ghost asks = { λ t order seat s. IsSome s.state.marking
        × MayAppend order seat 1 C op.Sweep None × (line_known seat.view 1 ≡ s.entries) };

    ghost drew = { λ t order seat seat' s s' r. DrawsEnd order seat seat' s s' t.index (Some r) };

    ghost makes = { λ t mine mine' r. MakesSweep mine mine' t.index r.0 r.1 };

    fn draw(self, side: &mut PeerSide, order: &Order, seat: &mut Seat) -> (u64, Swept) {
        let mut drawing = seat_drawing!(order, seat, Role::Peer);
        match side.sweep(&mut drawing, Thread::C, self.index) {
            Ok(swept) => (drawing.last, swept),
            Err(_) => unreachable!(),
        }
    }
}

// Ends the open marking, if there is one. It takes no memory.
fn end_open(side: &mut PeerSide, order: &Order, seat: &mut Seat, index: u32) -> Option<(u64, Swept)>
    requires may { MayAppend order.now seat.old 1 C op.Sweep None }
    requires settled { Settled seat.old.view }
    requires entries { line_known seat.old.view 1 ≡ side.old.entries }
    ensures settled { Settled seat.new.view }
    ensures closed { side.new.state.marking ≡ None }
    ensures ends { DrawsEnd order.now seat.old seat.new side.old side.new index result }
{
    match side.marking() {
        None => None,
        Some(_) => Some(Sweeping { index }.draw(side, order, seat)),
    }
}

// The side draws a begin by the seat. No marking is open, and the room for the mirrored cycle's own is reserved: so it
// takes no memory.
fn draw_begin(side: &mut PeerSide, order: &Order, seat: &mut Seat, index: u32) -> (u64, Marking)
    requires closed { side.old.state.marking ≡ None }
    requires reserved { side.old.reserve.marking ≡ true }
    requires may { MayAppend order.now seat.old 1 C op.Begin None }
    requires settled { Settled seat.old.view }
    requires entries { line_known seat.old.view 1 ≡ side.old.entries }
    ensures settled { Settled seat.new.view }
    ensures drew { Drew peer_rules 1 order.now seat.old seat.new (seen side.old)
        (seen side.new) (driver_entry result.0 index op.Begin (says.Mark result.1) None) nothing }
    ensures reserve { side.new.reserve ≡ reserve_begun (is_own C side.old.reserve.marking) side.old.reserve }
    ensures threads { side.new.threads ≡ side.old.threads }
{
    let mut drawing = seat_drawing!(order, seat, Role::Peer);
    match side.mark_begin(&mut drawing, Thread::C, index) {
        Ok(marking) => (drawing.last, marking),
        Err(_) => unreachable!(),
    }
}

/// The begin of the driver's own marking, after the end of one that a peer thread left open: so it always gives a
/// number. It takes no memory.
#[derive(Drop)]
pub(crate) struct Beginning {
    pub(crate) index: u32,
}

impl Step for Beginning {
    type On = PeerSide;

    type Out = Begun;

    ghost asks = { λ t order seat s. (s.reserve.marking ≡ true) × MayAppend order seat 1 C op.Sweep None
        × MayAppend order seat 1 C op.Begin None × (line_known seat.view 1 ≡ s.entries) };

    ghost drew = { λ t order seat seat' s s' begun. DrawsMark order seat seat' s s' t.index begun };

    ghost makes = { λ t mine mine' begun. MakesMark mine mine' t.index begun };

    fn draw(self, side: &mut PeerSide, order: &Order, seat: &mut Seat) -> Begun {
        let ended = end_open(side, order, seat, self.index);
        let (number, marking) = draw_begin(side, order, seat, self.index);
        Begun {
            ended,
            number,
            marking,
        }
    }
}
