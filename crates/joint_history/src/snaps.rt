// The driver's snapshot, a step of the managed side. The side takes all memory that it needs, then has the gate closed,
// and then nothing fails.

ghost use Rattle.std.specs.Prelude.{◌≡◌, ◌^◌, ◌⊎◌, ◌≤◌, ◌∷◌, ℕ, IfErr, IfOk, None, OnErr, Some, slice_get};
ghost use Rattle.joint_machine.specs.declared.names.Thread.TheVariants.{C};
ghost use Rattle.order_table.specs.Replies.{object_of};
ghost use Rattle.view_laws.specs.Knowing.{pins_of};
ghost use Rattle.managed_heap.specs.declared.opening.SnapFault.TheVariants as fault;
ghost use Rattle.managed_heap.specs.Pinned.{pins_given};
ghost use Rattle.managed_heap.specs.Rows.{number_or_none};
ghost use Rattle.managed_heap.specs.Sides.{as_side};
ghost use Rattle.joint_history.specs.Driven.{DriverMakesNone};
ghost use Rattle.joint_history.specs.DriverSnaps.{DrawsSnapshot, MakesSnapshot};
ghost use Rattle.joint_history.specs.Locked.{StaysSeated};
ghost use Rattle.joint_history.specs.Steps.{HasManagedSeat};

use crate::managed::LiveObjects;
use crate::steps::Step;
use joint_model::{Cycle, Draw, MNum, Made};
use managed_heap::{Closes, ManagedSide, Opened, Pins, SnapFault};
use order_table::{Order, Role, Seat};
use seat_calls::{append_paid, close_and_scan, settle_opened};

// The object that a pin's word names.
fn object_of(word: u64) -> Option<MNum>
    requires { word ≤ 2 ^ 32 }
    ensures { number_or_none result ≡ object_of word }
{
    if word == 0 {
        None
    } else {
        Some(MNum((word - 1) as u32))
    }
}

// The pins by their words.
fn pins_of(words: [u64; 8]) -> Pins
    requires { (i w : ℕ) → slice_get words i ≡ Some w → w ≤ 2 ^ 32 }
    ensures { pins_given result.at ≡ pins_of (0 ∷ words) }
{
    let [a, b, c, d, e, f, g, h] = words;
    Pins {
        at: [
            object_of(a),
            object_of(b),
            object_of(c),
            object_of(d),
            object_of(e),
            object_of(f),
            object_of(g),
            object_of(h),
        ],
    }
}

/// The gate, for whoever has the seat that owns the managed list: it is closed for a snapshot, whose entry is drawn by
/// the seat then.
#[derive(Drop)]
pub(crate) struct SeatGate<'a> {
    order: &'a Order,
    seat: &'a mut Seat,
}

impl<'a> Draw for SeatGate<'a> {
    ghost use Rattle.std.specs.Prelude.{◌≡◌};
    ghost use Rattle.order_table.specs.Views.{kept};
    ghost use Rattle.seat_calls.specs.Passing.{Appends, MayAppend, floor_of, left_in};

    ghost rules = { record {
      floor = λ g. floor_of g.seat.now.view;
      left = λ g. left_in g.seat.now.view 0;
      may = λ g t o m. MayAppend g.order.now g.seat.now 0 t o m;
      drew = λ g e m freed g'. (g'.seat.ghost_name ≡ g.seat.ghost_name)
          × Appends g.order.now g'.order.now g.seat.now g'.seat.now 0 (kept g.seat.now.view e.made m freed e.number);
    } };

    fn draw(&mut self, made: &Made, target: Option<MNum>, freed: &[MNum]) -> u64 {
        append_paid(self.order, self.seat, Role::Managed, made, target, freed)
    }
}

impl<'a> Closes for SeatGate<'a> {
    ghost use Rattle.std.specs.Prelude.{◌≡◌};
    ghost use Rattle.order_table.specs.Allowed.{Settled};
    ghost use Rattle.order_table.specs.Views.{IsNext, Owns};
    ghost use Rattle.joint_history.specs.DriverSnaps.{ClosesGate};

    ghost may_close = { λ g k. (g.seat.now.order ≡ g.order.now)
        × Owns g.seat.now.view 0 × Settled g.seat.now.view × IsNext g.seat.now.view k };

    ghost closed = { λ g k pins g'. (g'.seat.ghost_name ≡ g.seat.ghost_name)
        × (g'.order.now ≡ g.order.now) × ClosesGate g.seat.now g'.seat.now k pins };

    ghost refused = { λ g g'. (g'.seat.ghost_name ≡ g.seat.ghost_name) × (g'.seat.now ≡ g.seat.now) };

    fn close(&mut self, cycle: Cycle) -> Option<Pins> {
        match close_and_scan(self.order, self.seat, cycle) {
            Ok(words) => Some(pins_of(words)),
            Err(_) => None,
        }
    }
}

/// The entry of a snapshot that opens the next cycle: no cycle is open, and the gate is closed for it, if no reader is
/// inside; the cells of what it freed say so. It answers the cycle, its entry's number, and its dead part as a graph;
/// `OutOfMemory` where there is no memory, or no room for the entries that the cycle owes, and `NotClosed` where
/// readers were inside, and no entry is made then. It never answers `CycleOpen`.
#[derive(Drop)]
pub(crate) struct Snapping {
    pub(crate) index: u32,
}

impl Step for Snapping {
    type On = ManagedSide;

    type Out = Result<Opened, SnapFault>;

    ghost asks = { λ t order seat s. (s.state.managed.cycle ≡ None) × HasManagedSeat C order seat (as_side s) };

    ghost drew = { λ t order seat seat' s s' result. (s'.threads ≡ s.threads)
        × IfOk result (λ o. DrawsSnapshot order seat seat' (as_side s) (as_side s') t.index o)
        × IfErr result (λ e. (e ≡ fault.OutOfMemory) ⊎ (e ≡ fault.NotClosed))
        × OnErr result (StaysSeated seat seat' × (as_side s' ≡ as_side s)) };

    ghost makes = { λ t mine mine' result. IfOk result (λ o. MakesSnapshot mine mine' t.index o)
        × IfErr result (λ e. (e ≡ fault.OutOfMemory) ⊎ (e ≡ fault.NotClosed))
        × OnErr result (DriverMakesNone mine mine') };

    fn draw(
        self,
        side: &mut ManagedSide,
        order: &Order,
        seat: &mut Seat,
    ) -> Result<Opened, SnapFault> {
        let mut gate = SeatGate { order, seat };
        let opened = side.snap(&mut gate, self.index)?;
        settle_opened(order, seat, &LiveObjects { side });
        Ok(opened)
    }
}
