// How a caller's seat is handed to a locked one and back, and how a side draws by a seat.

ghost use Rattle.std.specs.Prelude.{◌≡◌, ℕ};
ghost use mathlib.Core.List.{IsPrefix};
ghost use Rattle.joint_machine.specs.HistoryLines.{caller_line};
ghost use Rattle.joint_machine.specs.Lines.{IsThread};
ghost use Rattle.order_table.specs.Allowed.{Settled};
ghost use Rattle.order_table.specs.Views.{known, Owns};
ghost use Rattle.seat_calls.specs.Passing.{Lends, Returns};

use crate::cells::append_paid;
use joint_model::{Draw, MNum, Made, Thread};
use order_table::{Order, Role, Seat};

/// Hands a caller's pass to a locked seat, with all that the caller knows.
pub fn lend(order: &Order, locked: &mut Seat, mine: &mut Seat, t: Thread)
    requires order { (locked.old.order ≡ order.now) × (mine.old.order ≡ order.now) }
    requires settled { Settled locked.old.view × Settled mine.old.view }
    requires pass { IsThread t × Owns mine.old.view (caller_line t) }
    ensures order { (locked.new.order ≡ order.now) × (mine.new.order ≡ order.now) }
    ensures lent { Lends t locked.old.view mine.old.view locked.new.view mine.new.view }
    ensures settled { Settled locked.new.view × Settled mine.new.view }
{
    let pass = order.hand(mine, t);
    order.learn(locked, pass);
}

/// Hands a caller's pass back from a locked seat, with all that the locked one knows.
pub fn give_back(order: &Order, locked: &mut Seat, mine: &mut Seat, t: Thread)
    requires order { (locked.old.order ≡ order.now) × (mine.old.order ≡ order.now) }
    requires settled { Settled locked.old.view × Settled mine.old.view }
    requires pass { IsThread t × Owns locked.old.view (caller_line t) }
    requires more { (i : ℕ) → IsPrefix (known mine.old.view i) (known locked.old.view i) }
    ensures order { (locked.new.order ≡ order.now) × (mine.new.order ≡ order.now) }
    ensures returned { Returns t locked.old.view mine.old.view locked.new.view mine.new.view }
    ensures settled { Settled locked.new.view × Settled mine.new.view }
{
    let pass = order.hand(locked, t);
    order.learn(mine, pass);
}

/// Draws the numbers of a side's entries by a seat that owns the side's role, and keeps the first one and the last.
#[derive(Drop)]
pub struct SeatDrawing<'a> {
    pub order: &'a Order,
    pub seat: &'a mut Seat,
    pub role: Role,
    pub first: Option<u64>,
    pub last: u64,
}

impl<'a> Draw for SeatDrawing<'a> {
    ghost use Rattle.std.specs.Prelude.{◌≡◌, Some};
    ghost use Rattle.std.specs.Option.{unwrap_or};
    ghost use Rattle.order_table.specs.Views.{kept, role_line};
    ghost use Rattle.seat_calls.specs.Passing.{floor_of, left_in, MayAppend, Appends};

    ghost rules = { record {
      floor = λ d. floor_of d.seat.now.view;
      left = λ d. left_in d.seat.now.view (role_line d.role);
      may = λ d t o m. MayAppend d.order.now d.seat.now (role_line d.role) t o m;
      drew = λ d e m freed d'. (d'.seat.ghost_name ≡ d.seat.ghost_name) × (d'.role ≡ d.role)
          × (d'.last ≡ e.number) × Appends d.order.now d'.order.now d.seat.now d'.seat.now (role_line d.role)
          (kept d.seat.now.view e.made m freed e.number) × (d'.first ≡ Some (unwrap_or d.first e.number));
    } };

    #[inline(always)]
    fn draw(&mut self, made: &Made, target: Option<MNum>, freed: &[MNum]) -> u64 {
        let number = append_paid(self.order, self.seat, self.role, made, target, freed);
        self.first = Some(self.first.unwrap_or(number));
        self.last = number;
        number
    }
}

/// A drawing by a seat for the side of a role, of which no number is drawn yet.
#[macro_export]
macro_rules! seat_drawing {
    ($order:expr, $seat:expr, $role:expr) => {
        $crate::SeatDrawing {
            order: $order,
            seat: $seat,
            role: $role,
            first: None,
            last: 0,
        }
    };
}
