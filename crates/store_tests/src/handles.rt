// Tables of calls of a table of handles, with what each answers: how rows are made, cleared, restored and removed, at
// the last place, with many handles of a peer and with many restores.

ghost use Rattle.std.specs.Prelude.{◌≡◌, All};
ghost use Rattle.std.specs.Bool.{OnTrue};
ghost use Rattle.global_handles.specs.Rows.{IsWeakFor};

use global_handles::Hold::{Held, Raw};
use global_handles::Strength::{Strong, Weak};
use global_handles::{Back, HandleFault, HandleRow, HandleTable, Hold, NotLive, Strength};
use joint_model::{HNum, PNum};
use std::alloc::Global;

// A call, with what it answers. `Count` is of the rows that are in the table, of the handles that were made by `make`,
// and the greatest number given.
#[derive(Clone, Copy)]
enum Call {
    Reserve(u32),
    Make(PNum, Hold, Strength, Result<HNum, HandleFault>),
    Weaken(HNum),
    Clear(PNum),
    // what the row comes back as, and its peer
    Restore(HNum, Back, PNum),
    Release(HNum, Result<HandleRow, NotLive>),
    Row(HNum, Option<HandleRow>),
    Target(HNum, Option<PNum>),
    Nth(u32, HandleRow),
    Count(u32, u32, u32),
}

// The second handle's row, once its peer is freed.
const SECOND: HandleRow = HandleRow {
    number: HNum(2),
    peer: PNum(1),
    hold: Raw,
    strength: Weak,
    cleared: true,
};

const CLEARS: [Call; 9] = [
    Call::Make(PNum(1), Held, Strong, Ok(HNum(1))),
    Call::Make(PNum(1), Raw, Weak, Ok(HNum(2))),
    Call::Weaken(HNum(1)),
    Call::Clear(PNum(1)),
    Call::Target(HNum(2), None),
    Call::Restore(HNum(1), Back::Cleared, PNum(1)),
    Call::Release(HNum(1), Err(NotLive { h: HNum(1) })),
    Call::Release(HNum(2), Ok(SECOND)),
    Call::Count(0, 2, 2),
];

const IS_FULL: [Call; 2] = [
    Call::Make(PNum(1), Held, Strong, Err(HandleFault::HandlesFull)),
    Call::Count(65_535, 65_535, 65_535),
];

const ALL_PEERS: [Call; 9] = [
    Call::Make(PNum(0), Held, Weak, Ok(HNum(1))),
    Call::Reserve(2),
    Call::Make(PNum(65_535), Held, Weak, Ok(HNum(2))),
    Call::Make(PNum(300), Held, Weak, Ok(HNum(3))),
    Call::Clear(PNum(65_535)),
    Call::Clear(PNum(301)),
    Call::Target(HNum(2), None),
    Call::Target(HNum(1), Some(PNum(0))),
    Call::Target(HNum(3), Some(PNum(300))),
];

// What the first handle's row is once it is restored.
const RENEWED: HandleRow = HandleRow {
    number: HNum(3),
    peer: PNum(4),
    hold: Held,
    strength: Strong,
    cleared: false,
};

const RESTORES: [Call; 17] = [
    Call::Make(PNum(4), Held, Strong, Ok(HNum(1))),
    Call::Make(PNum(5), Held, Strong, Ok(HNum(2))),
    Call::Weaken(HNum(1)),
    Call::Clear(PNum(6)),
    Call::Restore(HNum(1), Back::Alive { h: HNum(3) }, PNum(4)),
    Call::Target(HNum(1), None),
    Call::Target(HNum(2), Some(PNum(5))),
    Call::Row(HNum(3), Some(RENEWED)),
    Call::Nth(1, RENEWED),
    Call::Count(2, 2, 3),
    Call::Make(PNum(4), Held, Strong, Ok(HNum(4))),
    Call::Release(HNum(3), Ok(RENEWED)),
    Call::Count(2, 3, 4),
    // a strong row comes back too
    Call::Restore(HNum(2), Back::Alive { h: HNum(5) }, PNum(5)),
    Call::Target(HNum(2), None),
    Call::Target(HNum(5), Some(PNum(5))),
    Call::Count(2, 3, 5),
];

// Handles that are made before many restores of the second, and what is there after a million.
const BEFORE_RESTORES: [Call; 3] = [
    Call::Make(PNum(1), Raw, Weak, Ok(HNum(1))),
    Call::Make(PNum(2), Held, Strong, Ok(HNum(2))),
    Call::Make(PNum(2), Raw, Weak, Ok(HNum(3))),
];

const LAST_OF_MANY: HandleRow = HandleRow {
    number: HNum(1_000_003),
    peer: PNum(2),
    hold: Held,
    strength: Strong,
    cleared: false,
};

const AFTER_RESTORES: [Call; 10] = [
    Call::Count(3, 3, 1_000_003),
    Call::Row(HNum(2), None),
    Call::Row(HNum(1_000_002), None),
    Call::Row(HNum(1_000_003), Some(LAST_OF_MANY)),
    Call::Nth(2, LAST_OF_MANY),
    Call::Weaken(HNum(1_000_003)),
    Call::Clear(PNum(2)),
    Call::Target(HNum(3), None),
    Call::Restore(HNum(1_000_003), Back::Cleared, PNum(2)),
    Call::Count(2, 3, 1_000_003),
];

// Handles that are made before the many.
const BEFORE_MANY: [Call; 3] = [
    Call::Make(PNum(9), Raw, Weak, Ok(HNum(1))),
    Call::Make(PNum(8), Raw, Weak, Ok(HNum(2))),
    Call::Make(PNum(9), Raw, Weak, Ok(HNum(3))),
];

// The first handle's row, which is released while its peer is there.
const LOWEST: HandleRow = HandleRow {
    number: HNum(1),
    peer: PNum(9),
    hold: Raw,
    strength: Weak,
    cleared: false,
};

// The third handle's row, once its peer is freed.
const FIRST: HandleRow = HandleRow {
    number: HNum(3),
    peer: PNum(9),
    hold: Raw,
    strength: Weak,
    cleared: true,
};

const AFTER_MANY: [Call; 11] = [
    Call::Make(PNum(9), Held, Weak, Ok(HNum(40_004))),
    Call::Release(HNum(1), Ok(LOWEST)),
    Call::Clear(PNum(9)),
    Call::Make(PNum(9), Held, Weak, Ok(HNum(40_005))),
    Call::Clear(PNum(9)),
    Call::Row(HNum(3), Some(FIRST)),
    Call::Row(HNum(1), None),
    Call::Target(HNum(40_004), None),
    Call::Target(HNum(40_005), None),
    Call::Target(HNum(2), Some(PNum(8))),
    Call::Count(4, 40_005, 40_005),
];

// Makes a strong row weak. Answers whether there is one.
fn weaken(table: &mut HandleTable, h: HNum) -> bool {
    match table.row(h) {
        Some(row) if row.strength == Strong => {
            table.weaken(h);
            true
        }
        _ => false,
    }
}

// What a row comes back as, and its peer; None where there is no row, or no number is left.
fn restore(table: &mut HandleTable, h: HNum) -> Option<(Back, PNum)> {
    match table.row(h) {
        Some(_) if table.last() < u32::MAX => Some(table.restore(h)),
        _ => None,
    }
}

// Whether a peer has no strong row.
fn is_weak(table: &mut HandleTable, p: PNum) -> bool
    ensures weak { OnTrue result (All (IsWeakFor p) table.new.rows) }
    ensures rows { table.new.rows ≡ table.old.rows }
{
    table.settle();
    for i in 0..table.len() {
        let row = table.nth(i);
        if row.peer == p && row.strength != Weak {
            return false;
        }
    }
    true
}

// The row at a place of all rows in rising number.
fn nth(table: &mut HandleTable, i: u32) -> Option<HandleRow> {
    table.settle();
    if i < table.len() {
        Some(table.nth(i))
    } else {
        None
    }
}

// Clears the rows of a peer. Answers whether all were weak.
fn clear(table: &mut HandleTable, p: PNum) -> bool {
    let may = is_weak(table, p);
    if may {
        table.clear_target(p);
    }
    may
}

// Whether the call may be made, and answers so.
fn answers(table: &mut HandleTable, call: &Call) -> bool {
    match *call {
        Call::Reserve(additional) => table.reserve(additional).is_ok(),
        Call::Make(p, hold, strength, wanted) => {
            p.0 <= 65_535 && table.last() < u32::MAX && table.make(p, hold, strength) == wanted
        }
        Call::Weaken(h) => weaken(table, h),
        Call::Clear(p) => clear(table, p),
        Call::Restore(h, wanted, peer) => restore(table, h) == Some((wanted, peer)),
        Call::Release(h, wanted) => table.release(h) == wanted,
        Call::Row(h, wanted) => table.row(h) == wanted,
        Call::Target(h, wanted) => table.target(h) == wanted,
        Call::Nth(i, wanted) => nth(table, i) == Some(wanted),
        Call::Count(len, made, last) => {
            table.len() == len && table.made() == made && table.last() == last
        }
    }
}

// The place of the first call that answers otherwise.
fn miss(table: &mut HandleTable, calls: &[Call]) -> Option<usize> {
    for (i, call) in calls.iter().enumerate() {
        if !answers(table, call) {
            return Some(i);
        }
    }
    None
}

// Makes all handles. Answers whether each has the next number.
fn make_all(table: &mut HandleTable) -> bool {
    for n in 0..65_535u32 {
        if table.last() == u32::MAX || table.make(PNum(n / 7), Held, Strong) != Ok(HNum(n + 1)) {
            return false;
        }
    }
    true
}

// Makes a handle on the peer that has many, if there is a number for it.
fn make_one(table: &mut HandleTable) -> Option<HNum> {
    if table.last() == u32::MAX {
        return None;
    }
    table.make(PNum(9), Raw, Weak).ok()
}

// Makes two handles on a peer and releases both, many times. Answers whether they are made and released.
fn make_and_release(table: &mut HandleTable) -> bool {
    for _ in 0..20_000u32 {
        let Some(middle) = make_one(table) else {
            return false;
        };
        let Some(last) = make_one(table) else {
            return false;
        };
        if table.release(middle).is_err() || table.release(last).is_err() {
            return false;
        }
    }
    true
}

// Restores the second handle a million times. Answers whether each has the next number.
fn restore_many(table: &mut HandleTable) -> bool {
    let mut h = HNum(2);
    for n in 0..1_000_000u32 {
        if !weaken(table, h) {
            return false;
        }
        let next = HNum(n + 4);
        if restore(table, h) != Some((Back::Alive { h: next }, PNum(2))) {
            return false;
        }
        h = next;
    }
    true
}

// The place of the first call that a new table of handles answers otherwise.
fn miss_of(alloc: Global, calls: &[Call]) -> Option<usize> {
    let mut table = HandleTable::new(alloc);
    let missed = miss(&mut table, calls);
    drop(table);
    missed
}

#[test]
fn clears_and_removes_the_rows_of_a_peer(rt: HostRuntime) {
    assert_eq!(rt; miss_of(rt.alloc(), CLEARS.as_slice()), None);
}

#[test]
fn makes_handles_on_the_peers_of_all_numbers(rt: HostRuntime) {
    assert_eq!(rt; miss_of(rt.alloc(), ALL_PEERS.as_slice()), None);
}

#[test]
fn restores_a_row_that_was_not_cleared(rt: HostRuntime) {
    assert_eq!(rt; miss_of(rt.alloc(), RESTORES.as_slice()), None);
}

// What comes first is answered otherwise at a place, whether what is done many times goes right, and the same of what
// comes behind.
type Around = (Option<usize>, bool, Option<usize>);

fn around_restores(table: &mut HandleTable) -> Around {
    let before = miss(table, BEFORE_RESTORES.as_slice());
    let restored = restore_many(table);
    (before, restored, miss(table, AFTER_RESTORES.as_slice()))
}

fn around_many(table: &mut HandleTable) -> Around {
    let before = miss(table, BEFORE_MANY.as_slice());
    let made = make_and_release(table);
    (before, made, miss(table, AFTER_MANY.as_slice()))
}

// Whether all handles can be made, and the place of the first call behind them that is answered otherwise.
fn fills(table: &mut HandleTable) -> (bool, Option<usize>) {
    (make_all(table), miss(table, IS_FULL.as_slice()))
}

#[test]
fn is_full_once_all_were_made(rt: HostRuntime) {
    let mut table = HandleTable::new(rt.alloc());
    let seen = fills(&mut table);
    drop(table);
    assert_eq!(rt; seen, (true, None));
}

#[test]
fn restores_a_million_times(rt: HostRuntime) {
    let mut table = HandleTable::new(rt.alloc());
    let seen = around_restores(&mut table);
    drop(table);
    assert_eq!(rt; seen, (None, true, None));
}

#[test]
fn clears_what_is_left_of_many_handles(rt: HostRuntime) {
    let mut table = HandleTable::new(rt.alloc());
    let seen = around_many(&mut table);
    drop(table);
    assert_eq!(rt; seen, (None, true, None));
}
