// The gate's way with a cycle, and a pin's with its thread.

ghost use Rattle.std.specs.Prelude.{◌≡◌, ◌^◌, ◌⊎◌, ℕ, ◌+◌, ◌<◌, ◌≤◌, IfErr, IfOk, MatchOption, OnErr, OnOk, Some};
ghost use Rattle.std.specs.Prelude.{slice_get};
ghost use Rattle.order_table.specs.Allowed.{OwesNone, Settled};
ghost use Rattle.order_table.specs.Owed.{pin, scanned_row};
ghost use Rattle.order_table.specs.Rule.{IsHeld};
ghost use Rattle.order_table.specs.Tells.{StaysAs};
ghost use Rattle.order_table.specs.Views.{IsNext, known, Owns};
ghost use Rattle.seat_calls.specs.Gating.{ClosesFor, HasEnded, HasOpened, IsOutside, OwesClearing};
ghost use Rattle.seat_calls.specs.Paying.{Agrees, OwesFreed, StillAs};

use crate::cells::{Lives, pay_cells};
use joint_model::{Cycle, MNum};
use order_table::{Order, Readers, Seat};

/// Closes the gate for the next cycle, if no reader is inside, and answers the words of the pins.
pub fn close_and_scan(order: &Order, seat: &mut Seat, cycle: Cycle) -> Result<[u64; 8], Readers>
    requires seat { (seat.old.order ≡ order.now) × Owns seat.old.view 0 }
    requires settled { Settled seat.old.view }
    requires next { IsNext seat.old.view cycle.0 }
    ensures order { seat.new.order ≡ order.now }
    ensures closes { OnOk result (ClosesFor seat.old.view seat.new.view cycle.0) }
    ensures scanned { IfOk result (λ ws. seat.new.view.scanned ≡ scanned_row ws) }
    ensures small { IfOk result (λ ws. (i w : ℕ) → slice_get ws i ≡ Some w → w ≤ 2 ^ 32) }
    ensures held { IfOk result (λ ws. (i m : ℕ) → i < 8
        → slice_get ws i ≡ Some (m + 1) → IsHeld (known seat.old.view 0) (i + 1) m) }
    ensures err { OnErr result (seat.new.view ≡ seat.old.view) }
{
    match order.try_close_gate(seat, cycle) {
        Err(readers) => Err(readers),
        Ok(()) => Ok(order.scan_pins(seat)),
    }
}

/// After a snapshot's entry: the cells whose targets it freed say so, and the seat is settled.
pub fn settle_opened<L: Lives>(order: &Order, seat: &mut Seat, side: &L)
    requires seat { (seat.old.order ≡ order.now) × Owns seat.old.view 0 }
    requires agrees { Agrees seat.old.view (L.live side.now) }
    requires freed { OwesFreed seat.old.view }
    requires opened { HasOpened seat.old.view }
    requires outside { IsOutside seat.old.view }
    ensures order { seat.new.order ≡ order.now }
    ensures same { (seat.new.view.owns ≡ seat.old.view.owns) × (seat.new.view.known ≡ seat.old.view.known) }
    ensures settled { Settled seat.new.view }
{
    pay_cells(order, seat, side);
}

/// After the entry that ends a cycle: the cells whose targets it freed say so, the gate is open, and the seat is
/// settled.
pub fn settle_ended<L: Lives>(order: &Order, seat: &mut Seat, side: &L)
    requires seat { (seat.old.order ≡ order.now) × Owns seat.old.view 0 }
    requires agrees { Agrees seat.old.view (L.live side.now) }
    requires freed { OwesFreed seat.old.view }
    requires ended { HasEnded seat.old.view }
    requires outside { IsOutside seat.old.view }
    ensures order { seat.new.order ≡ order.now }
    ensures same { (seat.new.view.owns ≡ seat.old.view.owns) × (seat.new.view.known ≡ seat.old.view.known) }
    ensures settled { Settled seat.new.view }
{
    pay_cells(order, seat, side);
    order.open_gate(seat);
}

/// What the pin of a managed thread holds, to who owns the managed list and has the thread's pass.
pub fn own_pin(order: &Order, seat: &mut Seat, reader: u8) -> Option<MNum>
    requires seat { (seat.old.order ≡ order.now) × Owns seat.old.view 0 }
    requires reader { (0 < reader) × (reader < 9) × Owns seat.old.view (reader + 10) }
    requires settled { Settled seat.old.view }
    ensures order { seat.new.order ≡ order.now }
    ensures stays { StaysAs seat.old.view seat.new.view }
    ensures pin { MatchOption result (pin (known seat.old.view (reader + 10)) ≡ 0)
        (λ m. (pin (known seat.old.view (reader + 10)) ≡ m.0 + 1) × IsHeld (known seat.old.view 0) reader m.0) }
{
    let word = order.load_pin(seat, reader);
    if word == 0 {
        None
    } else {
        Some(MNum((word - 1) as u32))
    }
}

/// After a `take`: the thread's pin is empty, and the seat is settled.
pub fn settle_taken(order: &Order, seat: &mut Seat, reader: u8)
    requires seat { seat.old.order ≡ order.now }
    requires reader { (0 < reader) × (reader < 9) × Owns seat.old.view (reader + 10) }
    requires empty { pin (known seat.old.view (reader + 10)) ≡ 0 }
    requires owes { OwesClearing seat.old.view reader }
    ensures order { seat.new.order ≡ order.now }
    ensures same { (seat.new.view.owns ≡ seat.old.view.owns) × (seat.new.view.known ≡ seat.old.view.known) }
    ensures settled { Settled seat.new.view }
{
    order.clear_pin(seat, reader);
}
