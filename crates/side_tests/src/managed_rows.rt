// Tables of a managed side's calls, with what each answers.

use crate::managed::{C, Call, M1, M2, Row, ends_with, start};
use joint_model::Reply::{
    self, CycleOpen, Empty, Full, Gone, H, M, Null, Pending, Plain, Range, Refs, Sccs, Snapped,
    Took, Twin,
};
use joint_model::{Cycle, HNum, MNum, Phase, PhaseWord, Sort, Span};
use std::alloc::{AllocError, Global};
use std::test::Fail;

// What the rows of a table came to: the first one that was answered otherwise than it says, how many objects were made
// and are live at the end, how many entries there are, and whether the lists of freed objects and of notices are as
// they should be.
#[derive(Clone, Copy)]
struct Played {
    miss: Option<usize>,
    made: u32,
    live: u32,
    entries: u32,
    lists: bool,
}

// Makes the calls of a table on a new side, which should end with these freed objects and these notices.
fn play(
    alloc: Global,
    rows: &[Row],
    freed: &[MNum],
    notices: &[MNum],
) -> Result<Played, AllocError> {
    let mut driven = start(alloc)?;
    let miss = driven.first_miss(alloc, rows);
    let (made, live) = (driven.side.made(), driven.side.live());
    let (entries, lists) = ends_with(driven, freed, notices);
    Ok(Played {
        miss: miss?,
        made,
        live,
        entries,
        lists,
    })
}

// Each line's checks in their order, at the last variable, static and field; a thread's variables are its own.
const LINES: [Row; 35] = [
    (M1, Call::Set(1, 1, 2), Empty),
    (M1, Call::Get(1, 2, 1), Empty),
    (M1, Call::Copy(0, 1), Empty),
    (M1, Call::Load(0, 15), Null),
    (M1, Call::Store(15, 0), Empty),
    (M1, Call::Handle(0), Empty),
    (M1, Call::New(0, 1), M(MNum(1))),
    (M1, Call::Handle(0), Plain),
    (M1, Call::Set(0, 1, 2), Range),
    (M1, Call::Set(0, 0, 2), Empty),
    (M1, Call::Unset(0, 1), Range),
    (M1, Call::Unset(0, 0), Reply::Ok),
    (M1, Call::Get(1, 0, 1), Range),
    (M1, Call::Copy(7, 0), M(MNum(1))),
    (M1, Call::Get(7, 0, 0), Null),
    (M1, Call::Copy(6, 7), Empty),
    (M1, Call::New(1, 16), M(MNum(2))),
    (M1, Call::Set(0, 0, 1), Reply::Ok),
    (M1, Call::Get(2, 0, 0), M(MNum(2))),
    (M1, Call::Set(2, 15, 0), Reply::Ok),
    (M1, Call::Set(2, 16, 0), Range),
    (M1, Call::Get(3, 1, 15), M(MNum(1))),
    (M1, Call::Get(3, 1, 16), Range),
    (M1, Call::Store(15, 3), Reply::Ok),
    (M2, Call::Load(7, 15), M(MNum(1))),
    (M2, Call::Copy(0, 1), Empty),
    (M1, Call::Load(4, 15), M(MNum(1))),
    (M1, Call::Clear(15), Reply::Ok),
    (M1, Call::Load(4, 15), Null),
    (M1, Call::Copy(5, 4), Empty),
    (M1, Call::Drop(6), Reply::Ok),
    (M1, Call::Drop(0), Reply::Ok),
    (M1, Call::Copy(0, 0), Empty),
    (M2, Call::Copy(1, 7), M(MNum(1))),
    (C, Call::Finalise(65535), Took(Span { first: 0, count: 0 })),
];

// A `take` gives V the object of the pin that is given, if it holds one. No pin may hold what isn't live.
const TAKES: [Row; 9] = [
    (M1, Call::Take(7, 0), Empty),
    (M1, Call::New(0, 0), M(MNum(1))),
    (M1, Call::Take(7, 1), M(MNum(1))),
    (M2, Call::Take(0, 1), M(MNum(1))),
    (M1, Call::Take(7, 0), Empty),
    (M1, Call::Handle(7), Plain),
    (M2, Call::Handle(0), Plain),
    (M2, Call::Copy(1, 0), M(MNum(1))),
    (M1, Call::Copy(0, 7), M(MNum(1))),
];

// A snapshot frees what no slot and no pin holds.
const SNAPSHOTS: [Row; 25] = [
    (M1, Call::New(0, 1), M(MNum(1))),
    (M1, Call::New(1, 1), M(MNum(2))),
    (M1, Call::New(2, 0), M(MNum(3))),
    (M1, Call::Set(1, 0, 2), Reply::Ok),
    (M1, Call::Store(0, 1), Reply::Ok),
    (M1, Call::New(3, 0), M(MNum(4))),
    (M1, Call::Drop(0), Reply::Ok),
    (M1, Call::Drop(1), Reply::Ok),
    (M1, Call::Drop(2), Reply::Ok),
    (M1, Call::Drop(3), Reply::Ok),
    (
        C,
        Call::SnapWith(4),
        Snapped(0, Span { first: 0, count: 1 }),
    ),
    (C, Call::Nodes, Refs(0)),
    (C, Call::Live(1), Gone),
    (C, Call::Live(2), M(MNum(2))),
    (C, Call::Live(3), M(MNum(3))),
    (C, Call::Live(4), M(MNum(4))),
    (C, Call::Live(5), Gone),
    (C, Call::Abandon, Reply::Ok),
    (M1, Call::Load(0, 0), M(MNum(2))),
    (M1, Call::Unset(0, 0), Reply::Ok),
    (M1, Call::Take(1, 4), M(MNum(4))),
    (M1, Call::Drop(1), Reply::Ok),
    (C, Call::Snap, Snapped(0, Span { first: 1, count: 2 })),
    (C, Call::Abandon, Reply::Ok),
    (C, Call::Live(4), Gone),
];

// A snapshot opens the next cycle unless one is open. Each word is refused where it doesn't come next.
const CYCLES: [Row; 22] = [
    (C, Call::Open, Reply::At(Phase::Idle)),
    (
        C,
        Call::Refuse(PhaseWord::Mirror, Phase::Idle),
        Reply::At(Phase::Idle),
    ),
    (
        C,
        Call::Refuse(PhaseWord::Resolve, Phase::Idle),
        Reply::At(Phase::Idle),
    ),
    (C, Call::Snap, Snapped(0, Span { first: 0, count: 0 })),
    (C, Call::Nodes, Refs(0)),
    (C, Call::Open, CycleOpen(Cycle(1))),
    (C, Call::Snap, CycleOpen(Cycle(1))),
    (
        C,
        Call::Refuse(PhaseWord::Snap, Phase::Snapped),
        CycleOpen(Cycle(1)),
    ),
    (
        C,
        Call::Refuse(PhaseWord::Cycle, Phase::Snapped),
        CycleOpen(Cycle(1)),
    ),
    (
        C,
        Call::Refuse(PhaseWord::Mark, Phase::Snapped),
        Reply::At(Phase::Snapped),
    ),
    (C, Call::Abandon, Reply::Ok),
    (C, Call::Open, Reply::At(Phase::Idle)),
    (C, Call::Snap, Snapped(0, Span { first: 0, count: 0 })),
    (C, Call::Open, CycleOpen(Cycle(2))),
    (C, Call::Resolve(0), Snapped(0, Span { first: 0, count: 0 })),
    (C, Call::Open, Reply::At(Phase::Idle)),
    (C, Call::SnapAndContract, Sccs(0, 0)),
    (C, Call::Open, CycleOpen(Cycle(3))),
    (C, Call::Resolve(0), Snapped(0, Span { first: 0, count: 0 })),
    (C, Call::SnapAndContract, Sccs(0, 0)),
    (C, Call::Abandon, Reply::Ok),
    (C, Call::Open, Reply::At(Phase::Idle)),
];

// A side is ready from when room is taken until an entry is made, and a snapshot uses the room up, also where objects
// and notices came meanwhile.
const READY: [Row; 22] = [
    (C, Call::Ready, Refs(0)),
    (C, Call::Reserve, Reply::Ok),
    (C, Call::Ready, Refs(1)),
    (C, Call::Reserve, Reply::Ok),
    (C, Call::Ready, Refs(1)),
    (M1, Call::New(0, 1), M(MNum(1))),
    (C, Call::Ready, Refs(0)),
    (M1, Call::Adopt(1, 1, 1), M(MNum(2))),
    (M1, Call::Set(1, 0, 1), Reply::Ok),
    (M1, Call::Drop(1), Reply::Ok),
    (C, Call::Reserve, Reply::Ok),
    (C, Call::Ready, Refs(1)),
    (C, Call::Snap, Snapped(1, Span { first: 0, count: 0 })),
    (C, Call::Ready, Refs(0)),
    (C, Call::Nodes, Refs(1)),
    (C, Call::Reserve, Reply::Ok),
    (C, Call::Snap, CycleOpen(Cycle(1))),
    (C, Call::Ready, Refs(1)),
    (C, Call::Resolve(0), Snapped(0, Span { first: 0, count: 1 })),
    (C, Call::Ready, Refs(0)),
    (C, Call::Reserve, Reply::Ok),
    (C, Call::Snap, Snapped(0, Span { first: 1, count: 0 })),
];

// A peer has one twin, until that gives its handle up or is resolved. One that a cycle keeps has another handle then.
const TWINS: [Row; 43] = [
    (M1, Call::Give(0), Empty),
    (M1, Call::Lend(0, 15), Empty),
    (M1, Call::New(0, 0), M(MNum(1))),
    (M1, Call::Give(0), Plain),
    (M1, Call::Lend(0, 15), Plain),
    (C, Call::TwinFor(1), Null),
    (
        M1,
        Call::Meet(0, 1, Sort::Framework, 3),
        Reply::New(MNum(2)),
    ),
    (M1, Call::Get(1, 0, 0), Range),
    (M1, Call::Handle(0), H(HNum(5))),
    (M1, Call::Lend(0, 15), H(HNum(5))),
    (C, Call::TwinFor(1), Twin(MNum(2))),
    (M1, Call::Give(0), H(HNum(5))),
    (M1, Call::Give(0), Plain),
    (M1, Call::Lend(0, 15), Plain),
    (M1, Call::Handle(0), Plain),
    (C, Call::TwinFor(1), Null),
    (M1, Call::Meet(1, 1, Sort::User, 2), Reply::New(MNum(3))),
    (M1, Call::Get(2, 1, 1), Null),
    (M1, Call::Get(2, 1, 2), Range),
    (M2, Call::Meet(0, 1, Sort::User, 2), Twin(MNum(3))),
    (M2, Call::Handle(0), H(HNum(13))),
    (M2, Call::Drop(0), Reply::Ok),
    (M1, Call::Drop(0), Reply::Ok),
    (M1, Call::Drop(1), Reply::Ok),
    (C, Call::Snap, Snapped(1, Span { first: 0, count: 2 })),
    (C, Call::Nodes, Refs(1)),
    (M1, Call::Meet(0, 1, Sort::User, 2), Pending(Cycle(1))),
    (M1, Call::Copy(0, 0), Empty),
    (C, Call::TwinFor(1), Pending(Cycle(1))),
    (C, Call::TwinFor(2), Pending(Cycle(1))),
    (C, Call::Abandon, Reply::Ok),
    (C, Call::TwinFor(1), Twin(MNum(3))),
    (C, Call::Snap, Snapped(1, Span { first: 2, count: 0 })),
    (C, Call::Resolve(1), Snapped(1, Span { first: 2, count: 0 })),
    (C, Call::TwinFor(1), Twin(MNum(3))),
    (M1, Call::Meet(0, 1, Sort::User, 2), Twin(MNum(3))),
    (M1, Call::Handle(0), H(HNum(26))),
    (M1, Call::Drop(0), Reply::Ok),
    (C, Call::Snap, Snapped(1, Span { first: 2, count: 0 })),
    (C, Call::Resolve(0), Snapped(0, Span { first: 2, count: 1 })),
    (C, Call::TwinFor(1), Null),
    (C, Call::Finalise(2), Took(Span { first: 0, count: 1 })),
    (C, Call::Finalise(1), Took(Span { first: 1, count: 0 })),
];

// Notices come in rising number, and each is taken once.
const NOTICES: [Row; 13] = [
    (M1, Call::Adopt(0, 0, 1), M(MNum(1))),
    (M1, Call::Adopt(0, 0, 2), M(MNum(2))),
    (M1, Call::Adopt(0, 0, 3), M(MNum(3))),
    (M1, Call::Adopt(0, 0, 4), M(MNum(4))),
    (M1, Call::Drop(0), Reply::Ok),
    (C, Call::Finalise(1), Took(Span { first: 0, count: 0 })),
    (C, Call::Snap, Snapped(4, Span { first: 0, count: 0 })),
    (
        C,
        Call::Resolve(0b0010),
        Snapped(1, Span { first: 0, count: 3 }),
    ),
    (C, Call::Finalise(2), Took(Span { first: 0, count: 2 })),
    (C, Call::Finalise(2), Took(Span { first: 2, count: 1 })),
    (C, Call::Finalise(65535), Took(Span { first: 3, count: 0 })),
    (C, Call::TwinFor(1), Null),
    (C, Call::TwinFor(2), Twin(MNum(2))),
];

// A kept candidate keeps what it reaches. What isn't kept is freed, with a notice for each object that holds a handle;
// an object that comes while a cycle is open isn't in its dead part.
const KEPT: [Row; 28] = [
    (M1, Call::Adopt(0, 1, 1), M(MNum(1))),
    (M1, Call::Adopt(1, 1, 2), M(MNum(2))),
    (M1, Call::New(2, 1), M(MNum(3))),
    (M1, Call::Set(0, 0, 2), Reply::Ok),
    (M1, Call::Set(2, 0, 1), Reply::Ok),
    (M1, Call::Drop(0), Reply::Ok),
    (M1, Call::Drop(1), Reply::Ok),
    (M1, Call::Drop(2), Reply::Ok),
    (C, Call::Snap, Snapped(2, Span { first: 0, count: 0 })),
    (C, Call::Nodes, Refs(3)),
    (
        C,
        Call::Resolve(0b11),
        Snapped(2, Span { first: 0, count: 0 }),
    ),
    (C, Call::Finalise(9), Took(Span { first: 0, count: 0 })),
    (C, Call::Snap, Snapped(2, Span { first: 0, count: 0 })),
    (M1, Call::Adopt(3, 0, 3), M(MNum(4))),
    (M1, Call::Drop(3), Reply::Ok),
    (
        C,
        Call::Resolve(0b10),
        Snapped(1, Span { first: 0, count: 2 }),
    ),
    (C, Call::Live(1), Gone),
    (C, Call::Live(2), M(MNum(2))),
    (C, Call::Live(3), Gone),
    (C, Call::Live(4), M(MNum(4))),
    (C, Call::TwinFor(2), Twin(MNum(2))),
    (C, Call::Snap, Snapped(2, Span { first: 2, count: 0 })),
    (C, Call::Nodes, Refs(2)),
    (C, Call::Resolve(0), Snapped(0, Span { first: 2, count: 2 })),
    (C, Call::Finalise(1), Took(Span { first: 0, count: 1 })),
    (C, Call::Finalise(1), Took(Span { first: 1, count: 1 })),
    (C, Call::Finalise(1), Took(Span { first: 2, count: 1 })),
    (C, Call::Finalise(1), Took(Span { first: 3, count: 0 })),
];

// The last object, and what comes after it; a full heap stays full when its objects are freed.
const LAST_OBJECT: [Row; 14] = [
    (M1, Call::Fill(0, 65534), M(MNum(65534))),
    (M1, Call::New(0, 1), M(MNum(65535))),
    (M1, Call::New(0, 0), Full),
    (M1, Call::Copy(0, 0), M(MNum(65535))),
    (M1, Call::Adopt(0, 0, 1), Full),
    (M1, Call::Meet(0, 1, Sort::User, 0), Full),
    (M1, Call::Copy(0, 0), M(MNum(65535))),
    (M1, Call::Get(1, 0, 0), Null),
    (C, Call::TwinFor(1), Null),
    (C, Call::Live(65535), M(MNum(65535))),
    (
        C,
        Call::Snap,
        Snapped(
            0,
            Span {
                first: 0,
                count: 65534,
            },
        ),
    ),
    (C, Call::Abandon, Reply::Ok),
    (M1, Call::New(1, 0), Full),
    (M1, Call::Copy(1, 1), Empty),
];

#[test]
fn lines_are_tested_by_their_checks_in_order(rt: HostRuntime) -> Result<(), Fail> {
    let played = play(rt.alloc(), LINES.as_slice(), &[], &[])?;
    assert_eq!(rt; (played.miss, played.lists), (None, true));
    Ok(())
}

#[test]
fn a_take_gives_the_object_of_the_pin(rt: HostRuntime) -> Result<(), Fail> {
    let played = play(rt.alloc(), TAKES.as_slice(), &[], &[])?;
    assert_eq!(rt; (played.miss, played.lists), (None, true));
    Ok(())
}

#[test]
fn a_snapshot_frees_what_nothing_holds(rt: HostRuntime) -> Result<(), Fail> {
    let freed = [MNum(1), MNum(3), MNum(4)];
    let played = play(rt.alloc(), SNAPSHOTS.as_slice(), freed.as_slice(), &[])?;
    assert_eq!(rt;
        (played.miss, played.made, played.live, played.lists),
        (None, 4, 1, true)
    );
    Ok(())
}

#[test]
fn a_cycle_is_opened_once_and_closed_once(rt: HostRuntime) -> Result<(), Fail> {
    let played = play(rt.alloc(), CYCLES.as_slice(), &[], &[])?;
    assert_eq!(rt; (played.miss, played.entries), (None, 15));
    Ok(())
}

#[test]
fn a_side_is_ready_until_an_entry_is_made(rt: HostRuntime) -> Result<(), Fail> {
    let played = play(rt.alloc(), READY.as_slice(), &[MNum(2)], &[MNum(2)])?;
    assert!(rt; played.lists);
    assert_eq!(rt;
        (played.miss, played.made, played.live, played.entries),
        (None, 2, 1, 7)
    );
    Ok(())
}

#[test]
fn a_peer_has_one_twin(rt: HostRuntime) -> Result<(), Fail> {
    let freed = [MNum(1), MNum(2), MNum(3)];
    let notices = [MNum(3)];
    let played = play(
        rt.alloc(),
        TWINS.as_slice(),
        freed.as_slice(),
        notices.as_slice(),
    )?;
    assert_eq!(rt; (played.miss, played.lists), (None, true));
    Ok(())
}

#[test]
fn notices_come_in_rising_number_and_are_taken_once(rt: HostRuntime) -> Result<(), Fail> {
    let numbers = [MNum(1), MNum(3), MNum(4)];
    let played = play(
        rt.alloc(),
        NOTICES.as_slice(),
        numbers.as_slice(),
        numbers.as_slice(),
    )?;
    assert_eq!(rt; (played.miss, played.lists), (None, true));
    Ok(())
}

#[test]
fn a_kept_candidate_keeps_what_it_reaches(rt: HostRuntime) -> Result<(), Fail> {
    let freed = [MNum(1), MNum(3), MNum(2), MNum(4)];
    let notices = [MNum(1), MNum(2), MNum(4)];
    let played = play(
        rt.alloc(),
        KEPT.as_slice(),
        freed.as_slice(),
        notices.as_slice(),
    )?;
    assert_eq!(rt; (played.miss, played.lists), (None, true));
    Ok(())
}

// What was freed is told by the row of its snapshot: the list is too long to stand here.
#[test]
fn the_last_object_is_made_and_then_no_more(rt: HostRuntime) -> Result<(), Fail> {
    let played = play(rt.alloc(), LAST_OBJECT.as_slice(), &[], &[])?;
    assert_eq!(rt; (played.miss, played.made, played.live), (None, 65535, 1));
    Ok(())
}
