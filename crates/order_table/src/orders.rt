// The order and its calls.

ghost use Rattle.std.specs.Prelude.{◌≡◌, ◌⊎◌, ◌<◌, ◌≤◌, ◌+◌, ◌^◌, ◌==◌, if◌then◌else◌, ℕ, Bool, true, false, [], Some};
ghost use Rattle.std.specs.Prelude.{None, length, slice_get, IfOk, OnOk, IfErr, MatchResult, count_ones};
ghost use Rattle.joint_machine.specs.declared.names.Thread.{Thread};
ghost use Rattle.joint_machine.specs.Lines.{IsThread};
ghost use Rattle.order_table.specs.declared.views.View.{View};
ghost use Rattle.order_table.specs.declared.views.KeptEntry.{KeptEntry};
ghost use Rattle.joint_machine.specs.HistoryLines.{caller_line};
ghost use Rattle.order_table.specs.Rows.{at, put};
ghost use Rattle.order_table.specs.Stages.{IsClosed};
ghost use Rattle.order_table.specs.Owed.{IsLoaded, all_scanned, marked, owes_after, pin, says_word, pin_row};
ghost use Rattle.order_table.specs.Owed.{scanned_row};
ghost use Rattle.order_table.specs.Views.{IsRole, IsInRole, IsNext, IsOpen, IsEnded, role_line, kept, known, Owns};
ghost use Rattle.order_table.specs.Views.{OwnsAll, first_view, appended, giving, given, hearing, learned};
ghost use Rattle.order_table.specs.Views.{lines_of_role, lines_of_caller, lines_of_none, loading, scanning, storing};
ghost use Rattle.order_table.specs.Views.{storing_pin};
ghost use Rattle.order_table.specs.Allowed.{IsQuiet, MayMake, NoDebt, OwesNone, OwesOnly, Settled};
ghost use Rattle.order_table.specs.Rule.{IsBelow, IsHeld, CellIs, Stands, SetsCell, AreLinesOfOneHistory};
ghost use Rattle.order_table.specs.Tells.{GrowsByEntry, Parts, IsOfRole, IsOfCaller, IsOfNone, TakesIn, StaysAs};
ghost use Rattle.order_table.specs.Tells.{BeginsOneHistory};

use crate::finished::Linked;
use crate::plays::{
    Append, Close, Closing, Compare, Cut, Enter, GiveBack, Glue, Leave, Lines, LoadCell, LoadPin,
    NoLine, Open, Saying, Sequence, StoreCell, StorePin,
};
use crate::seats::Seat;
use crate::views::{Role, View};
use atomic_table::Table;
use joint_machine::{Cell, Cycle, MNum, Made, Thread};
use std::alloc::{AllocError, Global};
use std::marker::{Brand, Model};

/// One order for the entries of all threads. Contracts see which one it is.
#[derive(Drop)]
pub struct Order {
    table: Table<(), View, (), Sequence, Global>,
}

impl Model for Order {
    ghost use Rattle.std.specs.Prelude.{◌≡◌};
    ghost use Rattle.order_table.specs.Views.{OrderId};

    ghost Value = { OrderId };

    ghost view = { λ o. o.table.shared.table_id };

    ghost invariant = { λ o. (o.table.shared.table_id.words ≡ 74) × (o.table.shared.table_id.slots ≡ 0) };
}

/// The gate was found held, for this cycle.
#[derive(Clone, Copy, PartialEq, Eq, Debug)]
pub struct Pending {
    pub cycle: Cycle,
}

/// So many readers' bits were found in the gate word.
#[derive(Clone, Copy, PartialEq, Eq, Debug)]
pub struct Readers {
    pub count: u32,
}

// The bit of a reader in the gate word.
#[inline(always)]
fn bit_of(reader: u8) -> u64
    requires { reader < 9 }
    ensures { result ≡ 2 ^ reader }
{
    1u64 << reader
}

impl Order {
    /// An order without entries, and the one seat of it, which owns every role and holds every caller's pass. It has
    /// room for eight readers whatever `readers` is: what isn't handed out isn't used.
    pub fn new(alloc: Global, readers: u8) -> Result<(Order, Seat), AllocError>
        requires readers { readers ≤ 8 }
        ensures seat { IfOk result (λ r. (r.1.order ≡ r.0) × (r.1.view ≡ first_view)) }
        ensures all { IfOk result (λ r. OwnsAll r.1.view) }
        ensures settled { IfOk result (λ r. Settled r.1.view) }
    {
        let _ = readers;
        let (table, inner) = Table::of_words(alloc, &[0; 74], &())?;
        Ok((Order { table }, Seat { inner }))
    }

    // The entry is what `W` says, which the caller picks.
    fn append_as<W: Saying>(
        &self,
        seat: &mut Seat,
        _role: Role,
        _made: &Made,
        _target: Option<MNum>,
        _freed: &[MNum],
    ) -> u64
        requires seat { seat.old.order ≡ self.now }
        requires caller { IsThread W.made.caller }
        requires stands { IsInRole W.role W.made }
        requires may { MayMake seat.old.view W.role W.made W.target }
        requires role { Owns seat.old.view W.role × Owns seat.old.view (caller_line W.made.caller) }
        requires room { length (known seat.old.view W.role) < u32.MAX }
        ensures seat { (seat.new.order ≡ seat.old.order)
            × (seat.new.view ≡ appended seat.old.view W.role (kept seat.old.view W.made W.target W.freed result)) }
        ensures grows { GrowsByEntry seat.old.view seat.new.view W.role
            (kept seat.old.view W.made W.target W.freed result) }
        ensures number { (i : ℕ) → IsBelow result (known seat.old.view i) }
        ensures one_history { BeginsOneHistory seat.new.view }
        ensures settled { ((W.role ≡ 1) ⊎ IsQuiet (kept seat.old.view W.made W.target W.freed result))
            → Settled seat.old.view → Settled seat.new.view }
        ensures paid { marked (kept seat.old.view W.made W.target W.freed result) ≡ None
            → (kept seat.old.view W.made W.target W.freed result).freed ≡ []
            → NoDebt seat.old.view → NoDebt seat.new.view }
        ensures owes_one { (c m : ℕ) → W.role ≡ 0
            → marked (kept seat.old.view W.made W.target W.freed result) ≡ Some (c, m) → OwesOnly seat.new.view c }
        ensures owes { W.role ≡ 0 → (c : ℕ) → at false seat.new.view.debts c ≡ true → (c < 64)
            × (owes_after (known seat.old.view 0) (kept seat.old.view W.made W.target W.freed result) c ≡ true) }
    {
        self.table
            .shared
            .fetch_add::<Append<W>>(&mut seat.inner, 0, 1)
    }

    /// Makes an entry in the list of the role, and answers its number. No other entry has that number, and it is
    /// greater than every number that the seat knew.
    ///
    /// The entry's caller is `c`, one of `m1` to `m8` or one of `p1` to `p8`, and its event belongs in the role's list.
    /// `target` and `freed` are kept beside the entry, for contracts alone. An entry of the managed list is made by a
    /// seat that owes no store: a snapshot while it holds the gate for that cycle and has scanned all pins, and any
    /// other while it doesn't hold the gate or holds it for the open cycle. A reader's reply is one that the seat's own
    /// steps since its last entry allow.
    pub fn append(
        &self,
        seat: &mut Seat,
        role: Role,
        made: &Made,
        target: Option<MNum>,
        freed: &[MNum],
    ) -> u64
        requires seat { seat.old.order ≡ self.now }
        requires caller { IsThread made.now.caller }
        requires stands { IsInRole (role_line role) made.now }
        requires may { MayMake seat.old.view (role_line role) made.now target }
        requires role { Owns seat.old.view (role_line role) × Owns seat.old.view (caller_line made.now.caller) }
        requires room { length (known seat.old.view (role_line role)) < u32.MAX }
        ensures seat { (seat.new.order ≡ seat.old.order)
            × (seat.new.view ≡ appended seat.old.view (role_line role)
            (kept seat.old.view made.now target freed.now result)) }
        ensures grows { GrowsByEntry seat.old.view seat.new.view
            (role_line role) (kept seat.old.view made.now target freed.now result) }
        ensures number { (i : ℕ) → IsBelow result (known seat.old.view i) }
        ensures one_history { BeginsOneHistory seat.new.view }
        ensures settled { ((role_line role ≡ 1) ⊎ IsQuiet (kept seat.old.view made.now target freed.now result))
            → Settled seat.old.view → Settled seat.new.view }
        ensures paid { marked (kept seat.old.view made.now target freed.now result) ≡ None
            → (kept seat.old.view made.now target freed.now result).freed ≡ []
            → NoDebt seat.old.view → NoDebt seat.new.view }
        ensures owes_one { (c m : ℕ) → role_line role ≡ 0
            → marked (kept seat.old.view made.now target freed.now result) ≡ Some (c, m) → OwesOnly seat.new.view c }
        ensures owes { role_line role ≡ 0 → (c : ℕ) → at false seat.new.view.debts c ≡ true → (c < 64)
            × (owes_after (known seat.old.view 0) (kept seat.old.view made.now target freed.now result) c ≡ true) }
    {
        self.append_as::<Brand>(seat, role, made, target, freed)
    }

    // The lines that `W` says are handed over.
    fn cut<W: Lines>(&self, seat: &mut Seat) -> Seat
        requires settled { Settled seat.old.view }
        requires seat { seat.old.order ≡ self.now }
        ensures old { (seat.new.order ≡ seat.old.order) × (seat.new.view ≡ giving W.lines seat.old.view) }
        ensures new { (result.order ≡ seat.old.order) × (result.view ≡ given W.lines seat.old.view) }
        ensures settled { Settled seat.new.view × Settled result.view }
    {
        Seat {
            inner: self.table.shared.split_seat::<Cut<W>>(&mut seat.inner),
        }
    }

    fn cut_role<W: Lines>(&self, seat: &mut Seat, _role: Role) -> Seat
        requires settled { Settled seat.old.view }
        requires seat { seat.old.order ≡ self.now }
        ensures old { (seat.new.order ≡ seat.old.order) × (seat.new.view ≡ giving W.lines seat.old.view) }
        ensures new { (result.order ≡ seat.old.order) × (result.view ≡ given W.lines seat.old.view) }
        ensures settled { Settled seat.new.view × Settled result.view }
    {
        self.cut::<W>(seat)
    }

    fn cut_caller<W: Lines>(&self, seat: &mut Seat, _t: Thread) -> Seat
        requires settled { Settled seat.old.view }
        requires seat { seat.old.order ≡ self.now }
        ensures old { (seat.new.order ≡ seat.old.order) × (seat.new.view ≡ giving W.lines seat.old.view) }
        ensures new { (result.order ≡ seat.old.order) × (result.view ≡ given W.lines seat.old.view) }
        ensures settled { Settled seat.new.view × Settled result.view }
    {
        self.cut::<W>(seat)
    }

    /// A new seat that owns the role, which this one gives away. Both know what this one knew.
    pub fn share(&self, seat: &mut Seat, role: Role) -> Seat
        requires seat { seat.old.order ≡ self.now }
        requires settled { Settled seat.old.view }
        requires role { IsRole role × Owns seat.old.view (role_line role) }
        ensures old { (seat.new.order ≡ seat.old.order) × (seat.new.view ≡ giving (lines_of_role role) seat.old.view) }
        ensures new { (result.order ≡ seat.old.order) × (result.view ≡ given (lines_of_role role) seat.old.view) }
        ensures parts { Parts (IsOfRole role) seat.old.view seat.new.view result.view }
        ensures settled { Settled seat.new.view × Settled result.view }
    {
        self.cut_role::<Brand>(seat, role)
    }

    /// A new seat that holds the caller's pass, which this one gives away; for a managed thread also with the role of
    /// that reader, if this one owned it. Both know what this one knew.
    pub fn hand(&self, seat: &mut Seat, t: Thread) -> Seat
        requires seat { seat.old.order ≡ self.now }
        requires settled { Settled seat.old.view }
        requires pass { IsThread t × Owns seat.old.view (caller_line t) }
        ensures old { (seat.new.order ≡ seat.old.order) × (seat.new.view ≡ giving (lines_of_caller t) seat.old.view) }
        ensures new { (result.order ≡ seat.old.order) × (result.view ≡ given (lines_of_caller t) seat.old.view) }
        ensures parts { Parts (IsOfCaller t) seat.old.view seat.new.view result.view }
        ensures settled { Settled seat.new.view × Settled result.view }
    {
        self.cut_caller::<Brand>(seat, t)
    }

    /// A new seat without roles and passes, which knows what this one knows.
    pub fn note(&self, seat: &mut Seat) -> Seat
        requires seat { seat.old.order ≡ self.now }
        requires settled { Settled seat.old.view }
        ensures old { (seat.new.order ≡ seat.old.order) × (seat.new.view ≡ giving lines_of_none seat.old.view) }
        ensures new { (result.order ≡ seat.old.order) × (result.view ≡ given lines_of_none seat.old.view) }
        ensures parts { Parts IsOfNone seat.old.view seat.new.view result.view }
        ensures settled { Settled seat.new.view × Settled result.view }
    {
        self.cut::<NoLine>(seat)
    }

    /// Takes another seat in. Afterwards this one owns the roles and holds the passes of both, and knows of each line
    /// the longer list, which the other begins; of a line that one of the two owned it knows what that one knew; and
    /// all that it knows is of one history.
    pub fn learn(&self, seat: &mut Seat, other: Seat)
        requires seat { seat.old.order ≡ self.now }
        requires settled { Settled seat.old.view }
        requires other { (other.order ≡ self.now) × Settled other.view }
        ensures seat { (seat.new.order ≡ seat.old.order)
            × (seat.new.view ≡ learned (hearing seat.old.view other.view)) }
        ensures takes { TakesIn seat.old.view other.view seat.new.view }
        ensures one_history { BeginsOneHistory seat.new.view }
        ensures settled { Settled seat.new.view }
    {
        let shared = &self.table.shared;
        let Seat { inner } = other;
        shared.join_seat::<Glue>(&mut seat.inner, inner);
        shared.load::<Compare>(&mut seat.inner, 0);
    }

    /// A reader goes inside, or finds the gate held, with the cycle for which it is.
    ///
    /// Answers `Pending` only where its own step found the gate held, and never where the seat knows that cycle as
    /// ended. To a seat that owns the managed list it comes exactly while that list has an open cycle.
    pub fn enter(&self, seat: &mut Seat, reader: u8) -> Result<(), Pending>
        requires seat { seat.old.order ≡ self.now }
        requires settled { Settled seat.old.view }
        requires reader { (0 < reader) × (reader < 9) × Owns seat.old.view (1 + reader) }
        ensures seat { seat.new.order ≡ seat.old.order }
        ensures ok { OnOk result (seat.new.view ≡ record seat.old.view { inside = 2 ^ reader; loads = [] }) }
        ensures err { IfErr result (λ p. (seat.new.view ≡ record seat.old.view { found = p.cycle.0 })
            × ¬ IsEnded seat.old.view p.cycle.0) }
        ensures cycle { IfErr result (λ p. 0 < p.cycle.0) }
        ensures owner { Owns seat.old.view 0
            → MatchResult result (λ _. (seat.old.view.holds ≡ 0) × IsClosed (known seat.old.view 0))
            (λ p. (p.cycle.0 ≡ seat.old.view.holds) × IsOpen seat.old.view p.cycle.0) }
    {
        let bit = bit_of(reader);
        let found = self.table.shared.fetch_or::<Enter>(&mut seat.inner, 1, bit);
        if found / 512 == 0 {
            return Ok(());
        }
        self.table
            .shared
            .fetch_and::<GiveBack>(&mut seat.inner, 1, u64::MAX - bit);
        Err(Pending {
            cycle: Cycle((found / 512) as u32),
        })
    }

    /// The reader goes outside. It owes no store to its pin.
    pub fn leave(&self, seat: &mut Seat, reader: u8)
        requires seat { seat.old.order ≡ self.now }
        requires reader { reader < 9 }
        requires inside { seat.old.view.inside ≡ 2 ^ reader }
        requires filled { seat.old.view.fill ≡ 0 }
        ensures seat { (seat.new.order ≡ seat.old.order) × (seat.new.view ≡ record seat.old.view { inside = 0 }) }
    {
        let bit = bit_of(reader);
        self.table
            .shared
            .fetch_and::<Leave>(&mut seat.inner, 1, u64::MAX - bit);
    }

    fn close_as<W: Closing>(&self, seat: &mut Seat, cycle: Cycle) -> u64
        requires seat { seat.old.order ≡ self.now }
        requires owner { Owns seat.old.view 0 × (seat.old.view.holds ≡ 0) }
        requires next { (W.cycle ≡ cycle.0) × IsNext seat.old.view cycle.0 }
        ensures seat { seat.new.order ≡ seat.old.order }
        ensures view { seat.new.view ≡ (if result == 0 then
            record seat.old.view { holds = cycle.0; scanned = [] } else seat.old.view) }
        ensures readers { result < 512 }
    {
        self.table
            .shared
            .compare_exchange::<Close<W>>(&mut seat.inner, 1, 0, 512 * cycle.0 as u64)
    }

    /// Closes the gate for the next cycle, if no reader's bit is in the word. Answers `Readers` exactly where this
    /// call's own step found some.
    pub fn try_close_gate(&self, seat: &mut Seat, cycle: Cycle) -> Result<(), Readers>
        requires seat { seat.old.order ≡ self.now }
        requires owner { Owns seat.old.view 0 × (seat.old.view.holds ≡ 0) }
        requires next { IsNext seat.old.view cycle.0 }
        ensures seat { seat.new.order ≡ seat.old.order }
        ensures ok { OnOk result (seat.new.view ≡ record seat.old.view { holds = cycle.0; scanned = [] }) }
        ensures err { IfErr result (λ r. (seat.new.view ≡ seat.old.view)
            × ((word : ℕ) × (0 < word) × (word < 512) × (r.count ≡ count_ones word))) }
    {
        let word = self.close_as::<Brand>(seat, cycle);
        if word == 0 {
            Ok(())
        } else {
            Err(Readers {
                count: word.count_ones(),
            })
        }
    }

    /// Opens the gate again. The cycle that it is held for has ended, and the words of all cells are stored.
    pub fn open_gate(&self, seat: &mut Seat)
        requires seat { seat.old.order ≡ self.now }
        requires owner { Owns seat.old.view 0 × (0 < seat.old.view.holds) }
        requires ended { IsEnded seat.old.view seat.old.view.holds }
        requires paid { NoDebt seat.old.view }
        ensures seat { (seat.new.order ≡ seat.old.order) × (seat.new.view ≡ record seat.old.view { holds = 0 }) }
    {
        self.table.shared.fetch_and::<Open>(&mut seat.inner, 1, 511);
    }

    /// Loads the word of a cell: 0 for unset, 1 for gone, and else the object's number and 1. To a seat that owns the
    /// managed list it is what that list says, or where it is still to be stored what it was before. To any seat that
    /// owes no store it isn't 0 where the seat knows the cell as set.
    pub fn load_cell(&self, seat: &mut Seat, cell: Cell) -> u64
        requires seat { seat.old.order ≡ self.now }
        requires cell { cell.0 < 64 }
        ensures seat { (seat.new.order ≡ seat.old.order) × (seat.new.view ≡ loading cell.0 result seat.old.view) }
        ensures stays { StaysAs seat.old.view seat.new.view }
        ensures loaded { 0 < seat.old.view.inside → OwesNone seat.old.view
            → IsLoaded seat.new.view.loads cell.0 result }
        ensures says { Owns seat.old.view 0 → NoDebt seat.old.view → result ≡ says_word (known seat.old.view 0) cell.0 }
        ensures owner { Owns seat.old.view 0
            → CellIs (known seat.old.view 0) seat.old.view.holds (at false seat.old.view.debts cell.0) cell.0 result }
        ensures small { result ≤ 2 ^ 32 }
        ensures unset { NoDebt seat.old.view → result ≡ 0 → (y : KeptEntry)
            → Stands (known seat.old.view 0) y → SetsCell y cell.0 → ⊥ }
    {
        self.table
            .shared
            .load::<LoadCell>(&mut seat.inner, 2 + cell.0 as usize)
    }

    /// Stores the word of a cell, which is what the seat's managed list says.
    pub fn write_cell(&self, seat: &mut Seat, cell: Cell, word: u64)
        requires seat { seat.old.order ≡ self.now }
        requires cell { cell.0 < 64 }
        requires owner { Owns seat.old.view 0 }
        requires word { word ≡ says_word (known seat.old.view 0) cell.0 }
        ensures seat { (seat.new.order ≡ seat.old.order) × (seat.new.view ≡ storing cell.0 seat.old.view) }
        ensures stored { (at false seat.new.view.debts cell.0 ≡ false)
            × ((c : ℕ) → (c ≡ cell.0 → ⊥) → at false seat.new.view.debts c ≡ at false seat.old.view.debts c) }
        ensures paid { OwesOnly seat.old.view cell.0 → NoDebt seat.new.view }
    {
        self.table
            .shared
            .store::<StoreCell>(&mut seat.inner, 2 + cell.0 as usize, word);
    }

    /// Loads the word of a reader's pin: 0 where it is empty, and else the object's number and 1. To a seat that holds
    /// that thread's pass and owes no store it is what the thread's own entries leave. To a seat that owns the managed
    /// list and owes no clearing the object has been held since some number, at which no cycle was open.
    pub fn load_pin(&self, seat: &mut Seat, reader: u8) -> u64
        requires seat { seat.old.order ≡ self.now }
        requires reader { (0 < reader) × (reader < 9) }
        ensures seat { (seat.new.order ≡ seat.old.order) × (seat.new.view ≡ scanning reader result seat.old.view) }
        ensures stays { StaysAs seat.old.view seat.new.view }
        ensures scans { 0 < seat.old.view.holds → OwesNone seat.old.view
            → seat.new.view.scanned ≡ put None seat.old.view.scanned reader (Some result) }
        ensures own { Owns seat.old.view (reader + 10) → seat.old.view.fill ≡ 0
            → seat.old.view.empty ≡ 0 → result ≡ pin (known seat.old.view (reader + 10)) }
        ensures small { Owns seat.old.view 0 ⊎ Owns seat.old.view (reader + 10)
            → seat.old.view.empty ≡ 0 → result ≤ 2 ^ 32 }
        ensures held { Owns seat.old.view 0 → seat.old.view.empty ≡ 0
            → (m : ℕ) → result ≡ m + 1 → IsHeld (known seat.old.view 0) reader m }
    {
        self.table
            .shared
            .load::<LoadPin>(&mut seat.inner, 65 + reader as usize)
    }

    /// Loads the words of all eight pins, by reader from 1 on, as the next snapshot keeps them. The seat has just
    /// closed the gate, and owes no store.
    pub fn scan_pins(&self, seat: &mut Seat) -> [u64; 8]
        requires seat { seat.old.order ≡ self.now }
        requires owner { Owns seat.old.view 0 × (0 < seat.old.view.holds) × (seat.old.view.scanned ≡ []) }
        requires paid { OwesNone seat.old.view }
        ensures seat { seat.new.order ≡ seat.old.order }
        ensures stays { StaysAs seat.old.view seat.new.view }
        ensures scanned { seat.new.view.scanned ≡ scanned_row result }
        ensures all { all_scanned 8 seat.new.view.scanned ≡ true }
        ensures kept { (i w : ℕ) → slice_get result i ≡ Some w → at 0 (pin_row seat.new.view.scanned) (i + 1) ≡ w }
        ensures small { (i w : ℕ) → slice_get result i ≡ Some w → w ≤ 2 ^ 32 }
        ensures held { (i m : ℕ) → i < 8 → slice_get result i ≡ Some (m + 1)
            → IsHeld (known seat.old.view 0) (i + 1) m }
    {
        let one = self.load_pin(seat, 1);
        let two = self.load_pin(seat, 2);
        let three = self.load_pin(seat, 3);
        let four = self.load_pin(seat, 4);
        let five = self.load_pin(seat, 5);
        let six = self.load_pin(seat, 6);
        let seven = self.load_pin(seat, 7);
        let eight = self.load_pin(seat, 8);
        [one, two, three, four, five, six, seven, eight]
    }

    fn set_pin(&self, seat: &mut Seat, reader: u8, word: u64)
        requires seat { seat.old.order ≡ self.now }
        requires reader { (0 < reader) × (reader < 9) }
        requires pass { Owns seat.old.view (reader + 10) }
        requires word { word ≡ pin (known seat.old.view (reader + 10)) }
        ensures { (seat.new.order ≡ seat.old.order) × (seat.new.view ≡ storing_pin reader seat.old.view) }
    {
        self.table
            .shared
            .store::<StorePin>(&mut seat.inner, 65 + reader as usize, word);
    }

    /// Stores an object into a reader's pin. The seat holds that thread's pass, and the thread's own entries leave the
    /// object in the pin.
    pub fn store_pin(&self, seat: &mut Seat, reader: u8, m: MNum)
        requires seat { seat.old.order ≡ self.now }
        requires reader { (0 < reader) × (reader < 9) }
        requires pass { Owns seat.old.view (reader + 10) }
        requires object { pin (known seat.old.view (reader + 10)) ≡ m.0 + 1 }
        ensures { (seat.new.order ≡ seat.old.order) × (seat.new.view ≡ storing_pin reader seat.old.view) }
    {
        self.set_pin(seat, reader, m.0 as u64 + 1);
    }

    /// Empties a reader's pin. The seat holds that thread's pass, and the thread's own entries leave the pin empty.
    pub fn clear_pin(&self, seat: &mut Seat, reader: u8)
        requires seat { seat.old.order ≡ self.now }
        requires reader { (0 < reader) × (reader < 9) }
        requires pass { Owns seat.old.view (reader + 10) }
        requires empty { pin (known seat.old.view (reader + 10)) ≡ 0 }
        ensures { (seat.new.order ≡ seat.old.order) × (seat.new.view ≡ storing_pin reader seat.old.view) }
    {
        self.set_pin(seat, reader, 0);
    }

    /// Ends the order. The seat owns every role and holds every caller's pass, so what it knows is the whole history:
    /// each role's list and each caller's, with the numbers from 0 on, each once.
    pub fn finish(self, mut seat: Seat) -> Linked
        requires seat { (seat.order ≡ self) × Settled seat.view }
        requires all { OwnsAll seat.view }
        ensures lines { result.known ≡ seat.view.known }
        ensures whole { AreLinesOfOneHistory result.known }
    {
        let note = self.note(&mut seat);
        let Order { table } = self;
        let Seat { inner } = seat;
        table.close_with(inner).free();
        Linked { note }
    }
}
