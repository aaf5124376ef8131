// The words of cells, after an entry that sets one or frees the targets of some.

ghost use Rattle.std.specs.Prelude.{◌≡◌, ◌^◌, ◌⊎◌, ℕ, ◌+◌, ◌<◌, ◌≤◌, ◌↔◌, Bool, true, false, IsTrue, MatchBool, Option};
ghost use Rattle.std.specs.Prelude.{None, Some, IfNone, IfSome, length};
ghost use Rattle.joint_machine.specs.declared.names.MNum.{MNum};
ghost use Rattle.joint_machine.specs.HistoryLines.{caller_line};
ghost use Rattle.joint_machine.specs.Lines.{IsThread, is_peer_event};
ghost use Rattle.order_table.specs.Rows.{at};
ghost use Rattle.order_table.specs.Allowed.{MayMake, NoDebt};
ghost use Rattle.order_table.specs.Owed.{is_freed, mark, target, target_told};
ghost use Rattle.order_table.specs.Rule.{IsBelow};
ghost use Rattle.order_table.specs.Tells.{BeginsOneHistory, GrowsByEntry};
ghost use Rattle.order_table.specs.Views.{IsInRole, kept, known, Owns, role_line};
ghost use Rattle.seat_calls.specs.Paying.{Agrees, IsPaid, OwesFreed, StillAs};

use joint_model::{Act, Cell, MNum, Made, Op, Thread};
use order_table::{Order, Role, Seat};

// The cell that an entry sets where it is told an object: that of a managed thread's `weak`.
fn cell_set(made: &Made) -> Option<Cell>
    ensures some { IfSome result (λ k. (m : MNum)
        → mark made.now.op (target_told made.now.caller made.now.op (Some m)) ≡ Some (k.0, m.0)) }
    ensures side { IfSome result (λ _. is_peer_event made.now.caller made.now.op ≡ false) }
    ensures none { IfNone result ((aim : Option MNum)
        → mark made.now.op (target_told made.now.caller made.now.op aim) ≡ None) }
{
    match (made.caller, made.op) {
        (Thread::M(_), Op::Line(Act::Weak { k, v: _ })) => Some(k),
        _ => None,
    }
}

/// Makes an entry in the list of a side's role, as `Order::append` does, and stores the word of the cell that it sets.
/// Answers the entry's number.
#[inline(always)]
pub fn append_paid(
    order: &Order,
    seat: &mut Seat,
    role: Role,
    made: &Made,
    target: Option<MNum>,
    freed: &[MNum],
) -> u64
    requires seat { seat.old.order ≡ order.now }
    requires caller { IsThread made.now.caller }
    requires side { role_line role < 2 }
    requires stands { IsInRole (role_line role) made.now }
    requires may { MayMake seat.old.view (role_line role) made.now target }
    requires role { Owns seat.old.view (role_line role) × Owns seat.old.view (caller_line made.now.caller) }
    requires room { length (known seat.old.view (role_line role)) < u32.MAX }
    ensures order { seat.new.order ≡ order.now }
    ensures grows { GrowsByEntry seat.old.view seat.new.view
        (role_line role) (kept seat.old.view made.now target freed.now result) }
    ensures number { (i : ℕ) → IsBelow result (known seat.old.view i) }
    ensures one_history { BeginsOneHistory seat.new.view }
    ensures paid { IsPaid seat.old.view seat.new.view (role_line role)
        (kept seat.old.view made.now target freed.now result) }
{
    let number = order.append(seat, role, made, target, freed);
    let Some(m) = target else {
        return number;
    };
    let Some(k) = cell_set(made) else {
        return number;
    };
    order.write_cell(seat, k, m.0 as u64 + 1);
    number
}

/// What knows of each managed object whether it is live.
pub trait Lives {
    ghost live: { Self → ℕ → Type 0 };

    fn is_live(&self, m: MNum) -> bool
        ensures { IsTrue result ↔ live self.now m.0 };
}

// Whether a cell's word says that its target is gone, or names an object that isn't live.
fn is_gone<L: Lives>(side: &L, word: u64) -> bool
    requires { word ≤ 2 ^ 32 }
    ensures { MatchBool result ((word ≡ 1) ⊎ ((m : ℕ) × (0 < m) × (word ≡ m + 1) × (L.live side.now m → ⊥)))
        ((word ≡ 0) ⊎ ((m : ℕ) × (0 < m) × (word ≡ m + 1) × L.live side.now m)) }
{
    if word == 1 {
        return true;
    }
    if word == 0 {
        return false;
    }
    !side.is_live(MNum((word - 1) as u32))
}

// Stores 1 into a cell whose target is freed.
fn pay_cell<L: Lives>(order: &Order, seat: &mut Seat, side: &L, cell: Cell)
    requires seat { (seat.old.order ≡ order.now) × Owns seat.old.view 0 }
    requires cell { cell.0 < 64 }
    requires agrees { Agrees seat.old.view (L.live side.now) }
    requires freed { OwesFreed seat.old.view }
    ensures seat { seat.new.order ≡ order.now }
    ensures still { StillAs seat.old.view seat.new.view }
    ensures paid { (c : ℕ) → at false seat.new.view.debts c ≡ true
        → (at false seat.old.view.debts c ≡ true) × (c ≡ cell.0 → ⊥) }
{
    let word = order.load_cell(seat, cell);
    if is_gone(side, word) {
        order.write_cell(seat, cell, 1);
    }
}

/// Stores 1 into the cells whose targets a snapshot or a resolution has just freed: it goes over all cells once.
pub fn pay_cells<L: Lives>(order: &Order, seat: &mut Seat, side: &L)
    requires seat { (seat.old.order ≡ order.now) × Owns seat.old.view 0 }
    requires agrees { Agrees seat.old.view (L.live side.now) }
    requires freed { OwesFreed seat.old.view }
    ensures seat { seat.new.order ≡ order.now }
    ensures still { StillAs seat.old.view seat.new.view }
    ensures paid { NoDebt seat.new.view }
{
    for c in 0..64u8 {
        pay_cell(order, seat, side, Cell(c));
    }
}
