// A read, by a seat and the list of its reader's entries.

ghost use Rattle.std.specs.Prelude.{◌≡◌, ◌⊎◌, ℕ, ◌+◌, ◌^◌, ◌<◌, ◌≤◌, ◌≢◌, [], ◌∷◌, ◌++◌, None, IfNone, IfSome, length};
ghost use Rattle.joint_machine.specs.declared.names.Cycle.{Cycle};
ghost use Rattle.joint_machine.specs.Draws.{numbered};
ghost use Rattle.order_table.specs.Allowed.{OwesNone, Settled};
ghost use Rattle.order_table.specs.Facts.{line_entries};
ghost use Rattle.order_table.specs.Owed.{pin};
ghost use Rattle.order_table.specs.Rule.{IsBelow};
ghost use Rattle.order_table.specs.Stages.{IsClosed};
ghost use Rattle.order_table.specs.Tells.{BeginsOneHistory, GrowsByEntry};
ghost use Rattle.order_table.specs.Views.{IsEnded, IsOpen, appended, known, Owns};
ghost use Rattle.weak_wait.specs.declared.reads.Got.TheVariants as got;
ghost use Rattle.weak_wait.specs.Reads.{Answers, IsRead, MayAnswer, cell_of, entry_of, got_of, read_made, reply_of};

use joint_model::{Act, Cell, Cycle, Entries, Entry, MNum, Made, Op, Reply, Thread};
use order_table::{Order, Pending, Role, Seat};
use std::sync::Wait;
use std::thread::yield_now;

/// What a read of a weak cell answers.
#[derive(Clone, Copy, PartialEq, Eq, Debug)]
pub enum Got {
    /// The cell's target, which is pinned.
    Got(MNum),
    /// The cell's target is freed.
    Gone,
    /// The cell was never set, as far as the reader can know.
    Unset,
    /// A cycle holds the gate.
    Pending { cycle: Cycle },
    /// The reader's pin still holds that object.
    PinHeld { m: MNum },
}

/// The reply of an entry of a read that answers so.
pub fn reply_of(got: Got) -> Reply
    ensures { result ≡ reply_of got }
{
    match got {
        Got::Got(m) => Reply::M(m),
        Got::Gone => Reply::Gone,
        Got::Unset => Reply::Unset,
        Got::Pending { cycle } => Reply::Pending(cycle),
        Got::PinHeld { m } => Reply::Pinned(m),
    }
}

// The cell of a read.
fn cell_of(act: &Act) -> Cell
    requires { IsRead act.now }
    ensures cell { result.0 ≡ cell_of act.now }
    ensures within { result.0 < 64 }
{
    match *act {
        Act::Read { k } | Act::Await { k } => k,
        _ => unreachable!(),
    }
}

// Makes the entry of a read, and answers its number.
#[inline(always)]
fn note(
    order: &Order,
    seat: &mut Seat,
    entries: &mut Entries,
    reader: u8,
    index: u32,
    act: &Act,
    got: Got,
) -> u64
    requires order { seat.old.order ≡ order.now }
    requires reader { (0 < reader) × (reader < 9) }
    requires role { Owns seat.old.view (1 + reader) × Owns seat.old.view (reader + 10) }
    requires act { IsRead act.now }
    requires owes { OwesNone seat.old.view }
    requires may { MayAnswer seat.old.view reader act.now got }
    requires entries { line_entries (known seat.old.view (1 + reader)) ≡ entries.old.entries }
    requires spare { 1 ≤ entries.old.spare }
    ensures order { seat.new.order ≡ order.now }
    ensures view { seat.new.view ≡ appended seat.old.view (1 + reader) (entry_of reader index act.now got result) }
    ensures grows { GrowsByEntry seat.old.view seat.new.view (1 + reader) (entry_of reader index act.now got result) }
    ensures above { (i : ℕ) → IsBelow result (known seat.old.view i) }
    ensures one_history { BeginsOneHistory seat.new.view }
    ensures entries { entries.new.entries ≡ entries.old.entries ++ numbered result
        (read_made reader index act.now got) ∷ [] }
    ensures spare { entries.new.spare + 1 ≡ entries.old.spare }
{
    // what the list holds and has room for is within its limit
    let _ = entries.spare();
    let made = Made {
        caller: Thread::M(reader),
        index,
        op: Op::Line(*act),
        reply: reply_of(got),
        cites: None,
    };
    let number = order.append(seat, Role::Reader(reader), &made, None, &[]);
    entries.push(Entry { number, made });
    number
}

// The answer by a cell's word.
fn got_of(word: u64) -> Got
    requires { word ≤ 2 ^ 32 }
    ensures { got_of word result }
{
    match word {
        0 => Got::Unset,
        1 => Got::Gone,
        _ => Got::Got(MNum((word - 1) as u32)),
    }
}

// The reader's pin is filled, with the word that was loaded from it.
fn read_held(
    order: &Order,
    seat: &mut Seat,
    entries: &mut Entries,
    reader: u8,
    index: u32,
    act: &Act,
    word: u64,
) -> (u64, Got)
    requires order { seat.old.order ≡ order.now }
    requires reader { (0 < reader) × (reader < 9) }
    requires role { Owns seat.old.view (1 + reader) × Owns seat.old.view (reader + 10) }
    requires act { IsRead act.now }
    requires settled { Settled seat.old.view }
    requires held { (0 < word) × (word ≤ 2 ^ 32) × (word ≡ pin (known seat.old.view (reader + 10))) }
    requires entries { line_entries (known seat.old.view (1 + reader)) ≡ entries.old.entries }
    requires spare { 1 ≤ entries.old.spare }
    ensures order { seat.new.order ≡ order.now }
    ensures answers { Answers reader index act.now result.0
        result.1 seat.old.view seat.new.view entries.old entries.new }
    ensures answered { (k : Cycle) → result.1 ≡ got.Pending k → ⊥ }
    ensures settled { Settled seat.new.view }
{
    let m = MNum((word - 1) as u32);
    let got = Got::PinHeld { m };
    let number = note(order, seat, entries, reader, index, act, got);
    (number, got)
}

// The reader found the gate held, and its pin is empty.
fn read_pending(
    order: &Order,
    seat: &mut Seat,
    entries: &mut Entries,
    reader: u8,
    index: u32,
    act: &Act,
    cycle: Cycle,
) -> (u64, Got)
    requires order { seat.old.order ≡ order.now }
    requires reader { (0 < reader) × (reader < 9) }
    requires role { Owns seat.old.view (1 + reader) × Owns seat.old.view (reader + 10) }
    requires act { IsRead act.now }
    requires settled { Settled seat.old.view }
    requires empty { pin (known seat.old.view (reader + 10)) ≡ 0 }
    requires found { (0 < cycle.0) × (seat.old.view.found ≡ cycle.0) × (IsEnded seat.old.view cycle.0 → ⊥) }
    requires owner { Owns seat.old.view 0 → IsOpen seat.old.view cycle.0 }
    requires entries { line_entries (known seat.old.view (1 + reader)) ≡ entries.old.entries }
    requires spare { 1 ≤ entries.old.spare }
    ensures order { seat.new.order ≡ order.now }
    ensures answers { Answers reader index act.now result.0
        result.1 seat.old.view seat.new.view entries.old entries.new }
    ensures settled { Settled seat.new.view }
{
    let got = Got::Pending { cycle };
    let number = note(order, seat, entries, reader, index, act, got);
    (number, got)
}

// The reader is inside, and its pin is empty. It goes outside again.
#[inline(always)]
fn read_inside(
    order: &Order,
    seat: &mut Seat,
    entries: &mut Entries,
    reader: u8,
    index: u32,
    act: &Act,
) -> (u64, Got)
    requires order { seat.old.order ≡ order.now }
    requires reader { (0 < reader) × (reader < 9) }
    requires role { Owns seat.old.view (1 + reader) × Owns seat.old.view (reader + 10) }
    requires act { IsRead act.now }
    requires inside { (seat.old.view.inside ≡ 2 ^ reader) × (seat.old.view.owes ≡ 0) × OwesNone seat.old.view }
    requires open { Owns seat.old.view 0 → (seat.old.view.holds ≡ 0) × IsClosed (known seat.old.view 0) }
    requires empty { pin (known seat.old.view (reader + 10)) ≡ 0 }
    requires entries { line_entries (known seat.old.view (1 + reader)) ≡ entries.old.entries }
    requires spare { 1 ≤ entries.old.spare }
    ensures order { seat.new.order ≡ order.now }
    ensures answers { Answers reader index act.now result.0
        result.1 seat.old.view seat.new.view entries.old entries.new }
    ensures answered { (k : Cycle) → result.1 ≡ got.Pending k → ⊥ }
    ensures settled { Settled seat.new.view }
{
    let word = order.load_cell(seat, cell_of(act));
    let got = got_of(word);
    let number = note(order, seat, entries, reader, index, act, got);
    if let Got::Got(m) = got {
        order.store_pin(seat, reader, m);
    }
    order.leave(seat, reader);
    (number, got)
}

/// Reads a cell, by a seat that owns the reader's role and holds its thread's pass, and puts the entry last in the
/// reader's list. Answers the entry's number too. It waits for nobody and takes no memory. See
/// [`WeakReader::try_get`](crate::WeakReader::try_get).
#[inline(always)]
pub fn read(
    order: &Order,
    seat: &mut Seat,
    entries: &mut Entries,
    reader: u8,
    index: u32,
    act: &Act,
) -> (u64, Got)
    requires order { seat.old.order ≡ order.now }
    requires reader { (0 < reader) × (reader < 9) }
    requires role { Owns seat.old.view (1 + reader) × Owns seat.old.view (reader + 10) }
    requires act { IsRead act.now }
    requires settled { Settled seat.old.view }
    requires entries { line_entries (known seat.old.view (1 + reader)) ≡ entries.old.entries }
    requires spare { 1 ≤ entries.old.spare }
    ensures order { seat.new.order ≡ order.now }
    ensures answers { Answers reader index act.now result.0
        result.1 seat.old.view seat.new.view entries.old entries.new }
    ensures settled { Settled seat.new.view }
{
    let held = order.load_pin(seat, reader);
    if held != 0 {
        return read_held(order, seat, entries, reader, index, act, held);
    }
    match order.enter(seat, reader) {
        Ok(()) => read_inside(order, seat, entries, reader, index, act),
        Err(Pending { cycle }) => { read_pending(order, seat, entries, reader, index, act, cycle) }
    }
}

// One try of a read that waits: the answer, whose entry is made, or None where a cycle holds the gate, and no entry is
// made.
fn try_read(
    order: &Order,
    seat: &mut Seat,
    entries: &mut Entries,
    reader: u8,
    index: u32,
    act: &Act,
) -> Option<(u64, Got)>
    requires order { seat.old.order ≡ order.now }
    requires reader { (0 < reader) × (reader < 9) }
    requires role { Owns seat.old.view (1 + reader) × Owns seat.old.view (reader + 10) }
    requires act { IsRead act.now }
    requires settled { Settled seat.old.view }
    requires entries { line_entries (known seat.old.view (1 + reader)) ≡ entries.old.entries }
    requires spare { 1 ≤ entries.old.spare }
    ensures order { seat.new.order ≡ order.now }
    ensures answers { IfSome result (λ r. Answers reader index act.now
        r.0 r.1 seat.old.view seat.new.view entries.old entries.new) }
    ensures answered { IfSome result (λ r. (k : Cycle) → r.1 ≡ got.Pending k → ⊥) }
    ensures held { IfNone result ((seat.new.view.known ≡ seat.old.view.known)
        × (seat.new.view.owns ≡ seat.old.view.owns)
        × (seat.new.view.holds ≡ seat.old.view.holds) × (entries.new ≡ entries.old)) }
    ensures settled { Settled seat.new.view }
{
    let held = order.load_pin(seat, reader);
    if held != 0 {
        return Some(read_held(order, seat, entries, reader, index, act, held));
    }
    match order.enter(seat, reader) {
        Ok(()) => Some(read_inside(order, seat, entries, reader, index, act)),
        Err(_) => None,
    }
}

/// Reads a cell as [`read`] does, but tries again while a cycle holds the gate, and never answers `Pending`. It takes
/// no memory. It yields between two tries; that it ever ends is not promised.
pub fn read_waiting<R: Wait>(
    rt: &R,
    order: &Order,
    seat: &mut Seat,
    entries: &mut Entries,
    reader: u8,
    index: u32,
    act: &Act,
) -> (u64, Got)
    requires order { seat.old.order ≡ order.now }
    requires reader { (0 < reader) × (reader < 9) }
    requires role { Owns seat.old.view (1 + reader) × Owns seat.old.view (reader + 10) }
    requires act { IsRead act.now }
    requires settled { Settled seat.old.view }
    requires entries { line_entries (known seat.old.view (1 + reader)) ≡ entries.old.entries }
    requires spare { 1 ≤ entries.old.spare }
    ensures order { seat.new.order ≡ order.now }
    ensures answers { Answers reader index act.now result.0
        result.1 seat.old.view seat.new.view entries.old entries.new }
    ensures answered { (k : Cycle) → result.1 ≡ got.Pending k → ⊥ }
    ensures settled { Settled seat.new.view }
{
    for _ in rt.forever() {
        if let Some(made) = try_read(order, seat, entries, reader, index, act) {
            return made;
        }
        yield_now();
    }
    unreachable!()
}
