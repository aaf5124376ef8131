// A reader: a seat with the list of its entries.

ghost use Rattle.std.specs.Prelude.{◌≡◌, ◌+◌, ◌<◌, ◌≤◌, [], IfOk, OnErr};
ghost use Rattle.joint_machine.specs.declared.names.Cycle.{Cycle};
ghost use Rattle.order_table.specs.Allowed.{Settled};
ghost use Rattle.order_table.specs.Facts.{line_entries};
ghost use Rattle.order_table.specs.Views.{known, Owns};
ghost use Rattle.weak_wait.specs.declared.reads.Got.TheVariants as got;
ghost use Rattle.weak_wait.specs.Reads.{IsRead, MakesRead};

use crate::reads::{Got, read, read_waiting};
use joint_model::{Act, Entries, Holding};
use order_table::{Order, Seat};
use std::alloc::{AllocError, Global};
use std::marker::Model;
use std::sync::Wait;

/// A reader of weak cells: the seat that owns its role and holds its thread's pass, and the list of its entries.
/// Contracts see which reader it is, what the seat knows, and the entries. The seat is settled, and the list is the
/// seat's list of that role.
#[derive(Drop)]
pub struct WeakReader {
    reader: u8,
    seat: Seat,
    entries: Entries,
}

impl Model for WeakReader {
    ghost use Rattle.std.specs.Prelude.{◌≡◌, ◌+◌, ◌<◌};
    ghost use Rattle.order_table.specs.Allowed.{Settled};
    ghost use Rattle.order_table.specs.Facts.{line_entries};
    ghost use Rattle.order_table.specs.Views.{known, Owns};
    ghost use Rattle.weak_wait.specs.Reads.{Reading};

    ghost Value = { Reading };

    ghost view = { λ r. record {
      reader = r.reader;
      order = r.seat.order;
      view = r.seat.view;
      entries = r.entries.entries;
      spare = r.entries.spare;
    } };

    ghost invariant = { λ r. (0 < r.reader) × (r.reader < 9) × Owns r.seat.view (1 + r.reader)
        × Owns r.seat.view (r.reader + 10) × Settled r.seat.view
        × (line_entries (known r.seat.view (1 + r.reader)) ≡ r.entries.entries) };
}

impl WeakReader {
    /// A reader, by a settled seat that owns its role and holds its thread's pass, and that knows no entry of that
    /// role. It takes no memory.
    pub fn new(alloc: Global, reader: u8, seat: Seat) -> WeakReader
        requires reader { (0 < reader) × (reader < 9) }
        requires role { Owns seat.view (1 + reader) × Owns seat.view (reader + 10) }
        requires settled { Settled seat.view }
        requires none { known seat.view (1 + reader) ≡ [] }
        ensures reader { (result.reader ≡ reader) × (result.order ≡ seat.order) × (result.view ≡ seat.view) }
        ensures entries { result.entries ≡ [] }
    {
        WeakReader {
            reader,
            seat,
            entries: Entries::new(alloc, Holding::Every),
        }
    }

    /// The seat and the reader's entries. It takes no memory.
    pub fn into_parts(self) -> (Seat, Entries)
        ensures seat { (result.0.order ≡ self.order) × (result.0.view ≡ self.view) × Settled result.0.view }
        ensures entries { (result.1.entries ≡ self.entries) × (result.1.spare ≡ self.spare) }
        ensures role { Owns result.0.view (1 + self.reader) × Owns result.0.view (self.reader + 10) }
        ensures list { line_entries (known result.0.view (1 + self.reader)) ≡ result.1.entries }
    {
        let WeakReader {
            reader: _,
            seat,
            entries,
        } = self;
        (seat, entries)
    }

    /// Puts a reader's seat and its entries together. It takes no memory.
    pub fn of_parts(reader: u8, seat: Seat, entries: Entries) -> WeakReader
        requires reader { (0 < reader) × (reader < 9) }
        requires role { Owns seat.view (1 + reader) × Owns seat.view (reader + 10) }
        requires settled { Settled seat.view }
        requires list { line_entries (known seat.view (1 + reader)) ≡ entries.entries }
        ensures { result ≡ record {
          reader = reader;
          order = seat.order;
          view = seat.view;
          entries = entries.entries;
          spare = entries.spare;
        } }
    {
        WeakReader {
            reader,
            seat,
            entries,
        }
    }

    /// Makes room for `n` more entries. Answers `AllocError` where there is no memory, or where the list would pass its
    /// limit; the reader is then as before.
    pub fn reserve(&mut self, n: u32) -> Result<(), AllocError>
        ensures room { IfOk result (λ _. n ≤ self.new.spare) }
        ensures rest { self.new ≡ record self.old { spare = self.new.spare } }
        ensures kept { self.old.spare ≤ self.new.spare }
        ensures err { OnErr result (self.new ≡ self.old) }
    {
        self.entries.reserve(n)
    }

    /// For how many more entries there is room.
    pub fn spare(&self) -> u32
        ensures { result ≡ self.now.spare }
    {
        self.entries.spare()
    }

    /// Reads the cell of a `read` or a `wait`, on that line, and makes one entry. It takes no lock and no memory, and
    /// waits for nobody.
    ///
    /// The answers are tested in this order: `PinHeld` exactly where the reader's pin holds that object; `Pending`
    /// where a cycle holds the gate; `Unset`, `Gone` or `Got` by the cell, where `Got` pins the object.
    #[inline(always)]
    pub fn try_get(&mut self, order: &Order, index: u32, act: &Act) -> Got
        requires order { self.old.order ≡ order.now }
        requires act { IsRead act.now }
        requires spare { 1 ≤ self.old.spare }
        ensures makes { MakesRead index act.now result self.old self.new }
    {
        let (_, got) = read(
            order,
            &mut self.seat,
            &mut self.entries,
            self.reader,
            index,
            act,
        );
        got
    }

    /// The same, but it tries again while a cycle holds the gate, and never answers `Pending`. It makes one entry, for
    /// its answer. That it ends is not promised.
    pub fn get<R: Wait>(&mut self, rt: &R, order: &Order, index: u32, act: &Act) -> Got
        requires order { self.old.order ≡ order.now }
        requires act { IsRead act.now }
        requires spare { 1 ≤ self.old.spare }
        ensures makes { MakesRead index act.now result self.old self.new }
        ensures answered { (k : Cycle) → result ≡ got.Pending k → ⊥ }
    {
        let (_, got) = read_waiting(
            rt,
            order,
            &mut self.seat,
            &mut self.entries,
            self.reader,
            index,
            act,
        );
        got
    }
}
