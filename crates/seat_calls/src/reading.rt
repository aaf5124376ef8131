// A read under the managed lock.

ghost use Rattle.std.specs.Prelude.{◌≡◌, ℕ, ◌+◌, ◌<◌, ◌≤◌};
ghost use Rattle.order_table.specs.Allowed.{Settled};
ghost use Rattle.order_table.specs.Facts.{line_entries};
ghost use Rattle.order_table.specs.Views.{known, Owns};
ghost use Rattle.seat_calls.specs.Gating.{ReadsLocked};
ghost use Rattle.weak_wait.specs.Reads.{IsRead};

use crate::seats::{give_back, lend};
use joint_model::{Act, Entries, Thread};
use order_table::{Order, Seat};
use weak_wait::{Got, read};

/// Reads a cell by a locked seat, which owns the managed list, for a caller that lends its lines to it; so the answer
/// is what the managed list says.
pub fn read_locked(
    order: &Order,
    locked: &mut Seat,
    mine: &mut Seat,
    entries: &mut Entries,
    reader: u8,
    index: u32,
    act: &Act,
) -> (u64, Got)
    requires order { (locked.old.order ≡ order.now) × (mine.old.order ≡ order.now) }
    requires settled { Settled locked.old.view × Settled mine.old.view }
    requires reader { (0 < reader) × (reader < 9) }
    requires pass { Owns mine.old.view (1 + reader) × Owns mine.old.view (reader + 10) }
    requires act { IsRead act.now }
    requires entries { line_entries (known mine.old.view (1 + reader)) ≡ entries.old.entries }
    requires spare { 1 ≤ entries.old.spare }
    ensures order { (locked.new.order ≡ order.now) × (mine.new.order ≡ order.now) }
    ensures settled { Settled locked.new.view × Settled mine.new.view }
    ensures reads { ReadsLocked reader index act.now result.0 result.1 locked.old.view
        mine.old.view locked.new.view mine.new.view entries.old entries.new }
{
    let thread = Thread::M(reader);
    lend(order, locked, mine, thread);
    let made = read(order, locked, entries, reader, index, act);
    give_back(order, locked, mine, thread);
    made
}
