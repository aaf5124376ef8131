// The lists of entries and the history by their first calls.

ghost use Rattle.std.specs.Prelude.{◌≡◌, [], ◌∷◌, ◌++◌, List, OnOk};
ghost use Rattle.joint_machine.specs.Shuffles.{IsJoinable};
ghost use Rattle.joint_machine.specs.declared.names.MNum.{MNum};
ghost use Rattle.joint_machine.specs.declared.names.PNum.{PNum};
ghost use Rattle.joint_model.specs.Listed.{entry_lists};

use joint_model::{
    Act, Alive, Cell, Counter, Draw, Entries, Entry, HNum, History, Holding, JoinFault, Made, Op,
    Reply, Thread, Var,
};
use std::alloc::{AllocError, Global};
use std::test::Fail;

const BEGUN: Made = Made {
    caller: Thread::C,
    index: 7,
    op: Op::Begin,
    reply: Reply::Done,
    cites: None,
};

// What stands in a test function itself is little: it makes a list, gives it to a function that has it by reference,
// and lets it go by a call, so that there is one way out.

// A new list has no entry, and room for one after a reserve.
fn is_new(entries: &mut Entries) -> Result<bool, AllocError> {
    entries.reserve(1)?;
    Ok(entries.spare() >= 1 && entries.len() == 0 && entries.is_empty() && entries.at(0).is_none())
}

#[test]
fn new_entries_have_room_after_a_reserve(rt: HostRuntime) -> Result<(), Fail> {
    let mut entries = Entries::new(rt.alloc(), Holding::Every);
    let held = is_new(&mut entries);
    drop(entries);
    assert!(rt; held?);
    Ok(())
}

// Whether two entries that are drawn one after the other are kept, by their numbers.
fn keeps_drawn(entries: &mut Entries) -> Result<bool, AllocError> {
    let mut counter = Counter::new();
    entries.reserve(2)?;
    let number = counter.draw(&BEGUN, None, &[]);
    entries.push(Entry {
        number,
        made: BEGUN,
    });
    let number = counter.draw(&BEGUN, None, &[]);
    entries.push(Entry {
        number,
        made: BEGUN,
    });
    Ok(has_two(entries))
}

fn has_two(entries: &Entries) -> bool {
    let second = match entries.at(1) {
        Some(entry) => entry.number == 1,
        None => false,
    };
    second && entries.len() == 2 && !entries.is_empty() && entries.at(2).is_none()
}

#[test]
fn drawn_entries_are_kept(rt: HostRuntime) -> Result<(), Fail> {
    let mut entries = Entries::new(rt.alloc(), Holding::Every);
    let held = keeps_drawn(&mut entries);
    drop(entries);
    assert!(rt; held?);
    Ok(())
}

// An entry that weakens a handle, of which the snapshot was entry 0.
fn weakened(number: u64, h: u32) -> Entry {
    Entry {
        number,
        made: Made {
            caller: Thread::C,
            index: 7,
            op: Op::Weaken { h: HNum(h) },
            reply: Reply::Ok,
            cites: Some(0),
        },
    }
}

// Adds so many entries of both calls, each with room for it.
fn add_in_turn(entries: &mut Entries, count: u32) -> Result<(), AllocError> {
    for number in 0..count {
        entries.reserve(1)?;
        let entry = weakened(number as u64, number);
        if number % 3 == 0 {
            entries.push(entry);
        } else {
            entries.push_handle(entry);
        }
    }
    Ok(())
}

// Whether a list counts the entries that were added, and has room for more.
fn counts_all(entries: &mut Entries) -> Result<bool, AllocError> {
    add_in_turn(entries, 700)?;
    entries.reserve(5_000)?;
    Ok(entries.spare() >= 5_000 && entries.len() == 700)
}

#[test]
fn a_list_that_holds_the_last_entries_counts_all(rt: HostRuntime) -> Result<(), Fail> {
    let mut entries = Entries::new(rt.alloc(), Holding::Last);
    let held = counts_all(&mut entries);
    drop(entries);
    assert!(rt; held?);
    Ok(())
}

// Whether each entry that was added is found by its place.
fn finds_all(entries: &mut Entries) -> Result<bool, AllocError> {
    add_in_turn(entries, 700)?;
    for i in 0..700u32 {
        match entries.at(i) {
            Some(entry) if entry == weakened(i as u64, i) => {}
            _ => return Ok(false),
        }
    }
    Ok(entries.at(700).is_none())
}

#[test]
fn each_entry_of_both_calls_is_found_by_its_place(rt: HostRuntime) -> Result<(), Fail> {
    let mut entries = Entries::new(rt.alloc(), Holding::Every);
    let held = finds_all(&mut entries);
    drop(entries);
    assert!(rt; held?);
    Ok(())
}

// Whether a value that is pushed is found by its place.
fn has_each(alloc: Global) -> Result<bool, AllocError> {
    let mut alive = Alive::new(alloc, 2)?;
    let empty = alive.is_empty();
    alive.push(Some(HNum(9)));
    alive.push(None);
    let both = (alive.at(0), alive.at(1), alive.at(2)) == (Some(Some(HNum(9))), Some(None), None);
    Ok(empty && both && alive.len() == 2)
}

#[test]
fn alive_has_a_value_for_each_push(rt: HostRuntime) -> Result<(), Fail> {
    assert!(rt; has_each(rt.alloc())?);
    Ok(())
}

// Whether a history has nothing, by all that can be asked.
fn has_nothing(history: &History) -> bool {
    history.len() == 0
        && history.is_empty()
        && history.entry(0).is_none()
        && history.walk().next().is_none()
        && history.freed_managed(0).is_none()
        && history.freed_peer(0).is_none()
        && history.notice(0).is_none()
}

#[test]
fn no_lists_join_to_the_empty_history(rt: HostRuntime) -> Result<(), Fail> {
    let alloc = rt.alloc();
    let history = History::join(
        alloc,
        Vec::new(alloc),
        Vec::new(alloc),
        Vec::new(alloc),
        Vec::new(alloc),
    )?;
    assert!(rt; has_nothing(&history));
    Ok(())
}

// An entry of line 7, which is answered `gone`.
fn gone(number: u64, caller: Thread, op: Op) -> Entry
    ensures { result
        ≡ record {
          number = number;
          made =
              record { caller = caller; index = 7; op = op; reply = Reply.Gone; cites = None };
        } }
{
    Entry {
        number,
        made: Made {
            caller,
            index: 7,
            op,
            reply: Reply::Gone,
            cites: None,
        },
    }
}

// Adds an entry. It is room for more that lets the entry go, where the list holds the last ones alone.
fn add(entries: &mut Entries, entry: Entry) -> Result<(), AllocError>
    ensures { OnOk result (entries.new.entries ≡ entries.old.entries ++ entry ∷ []) }
{
    entries.reserve(1)?;
    entries.push(entry);
    entries.reserve(5_000)
}

// Puts a list without entries behind these lists.
fn put_empty(lists: &mut Vec<Entries>, alloc: Global) -> Result<(), AllocError>
    ensures { OnOk result (entry_lists lists.new.items ≡ entry_lists lists.old.items ++ [] ∷ []) }
{
    lists.push(Entries::new(alloc, Holding::Every))?;
    Ok(())
}

// Puts a list of one entry behind these lists.
fn put(
    lists: &mut Vec<Entries>,
    alloc: Global,
    holding: Holding,
    entry: Entry,
) -> Result<(), AllocError>
    ensures { OnOk result
        (entry_lists lists.new.items ≡ entry_lists lists.old.items ++ (entry ∷ []) ∷ []) }
{
    let mut entries = Entries::new(alloc, holding);
    match add(&mut entries, entry) {
        Ok(()) => {
            lists.push(entries)?;
            Ok(())
        }
        Err(failed) => {
            drop(entries);
            Err(failed)
        }
    }
}

// Puts ten lists there: an entry of each side, and one of two readers each.
fn put_ten(lists: &mut Vec<Entries>, alloc: Global, holding: Holding) -> Result<(), AllocError>
    requires { lists.old.items ≡ [] }
    ensures { OnOk result ((ms : List MNum) (ps : List PNum) (ns : List MNum)
        → IsJoinable (entry_lists lists.new.items) ms ps ns) }
{
    let (dropping, reading) = (Act::Drop { v: Var(0) }, Act::Read { k: Cell(0) });
    let awaiting = Act::Await { k: Cell(1) };
    put(
        lists,
        alloc,
        holding,
        gone(2, Thread::M(1), Op::Line(dropping)),
    )?;
    put(lists, alloc, holding, gone(1, Thread::C, Op::Begin))?;
    put_empty(lists, alloc)?;
    put(
        lists,
        alloc,
        holding,
        gone(3, Thread::M(2), Op::Line(reading)),
    )?;
    put_empty(lists, alloc)?;
    put_empty(lists, alloc)?;
    put_empty(lists, alloc)?;
    put(
        lists,
        alloc,
        holding,
        gone(0, Thread::M(6), Op::Line(awaiting)),
    )?;
    put_empty(lists, alloc)?;
    put_empty(lists, alloc)?;
    Ok(())
}

// Joins ten lists. Answers `AllocError` where there is no memory for the lists.
fn join_ten(alloc: Global, holding: Holding) -> Result<Result<History, JoinFault>, AllocError> {
    let mut lists = Vec::new(alloc);
    match put_ten(&mut lists, alloc, holding) {
        Ok(()) => Ok(History::join(
            alloc,
            lists,
            Vec::new(alloc),
            Vec::new(alloc),
            Vec::new(alloc),
        )),
        Err(failed) => {
            drop(lists);
            Err(failed)
        }
    }
}

// Whether a history has four entries, each at its number.
fn has_four(history: &History) -> bool {
    for i in 0..4u64 {
        match history.entry(i) {
            Some(entry) if entry.number == i => {}
            _ => return false,
        }
    }
    history.len() == 4 && history.entry(4).is_none()
}

#[test]
fn ten_lists_join_to_one_history(rt: HostRuntime) -> Result<(), Fail> {
    let history = join_ten(rt.alloc(), Holding::Every)??;
    assert!(rt; has_four(&history));
    Ok(())
}

#[test]
fn lists_that_let_their_entries_go_are_refused(rt: HostRuntime) -> Result<(), Fail> {
    let refused = match join_ten(rt.alloc(), Holding::Last)? {
        Ok(_) => false,
        Err(fault) => fault == JoinFault::EntriesLetGo,
    };
    assert!(rt; refused);
    Ok(())
}
