// Tables of a peer side's calls, with what each answers.

use crate::peers::{C, Call, M1, NONE, P1, P2, Row, play};
use joint_model::Reply::{
    self, Done, Empty, Full, Gone, Gripped, H, Made, Mark, MarkOpen, More, NoMark, Null, P, Range,
    Swept, Taken, Unset,
};
use joint_model::{HNum, Marking, PNum, Sort, Span};
use std::test::Fail;

// A strong name holds its peer, and a weak one doesn't.
const NAMES: [Row; 10] = [
    (P1, Call::New(0, 1), P(PNum(1))),
    (P1, Call::Global(0, 0), H(HNum(1))),
    (P1, Call::WGlobal(1, 0), H(HNum(2))),
    (P1, Call::Drop(0), Reply::Ok),
    (P1, Call::Collect, Swept(Marking(1), NONE)),
    (P1, Call::UnGlobal(0), Reply::Ok),
    (
        P1,
        Call::Collect,
        Swept(Marking(2), Span { first: 0, count: 1 }),
    ),
    (P1, Call::WRead(1, 1), Gone),
    (P1, Call::UnGlobal(1), Reply::Ok),
    (P1, Call::UnGlobal(1), Unset),
];

// Each line's checks in their order, at the last variable, static, name and field.
const LINES: [Row; 45] = [
    (P1, Call::Set(1, 1, 2), Empty),
    (P1, Call::Get(1, 2, 1), Empty),
    (P1, Call::Copy(0, 1), Empty),
    (P1, Call::Load(0, 15), Null),
    (P1, Call::Store(15, 0), Empty),
    (P1, Call::Global(63, 0), Empty),
    (P1, Call::WGlobal(63, 0), Empty),
    (P1, Call::UnGlobal(63), Unset),
    (P1, Call::WRead(0, 63), Unset),
    (P1, Call::New(0, 1), P(PNum(1))),
    (P1, Call::Set(0, 1, 2), Range),
    (P1, Call::Set(0, 0, 2), Empty),
    (P1, Call::Unset(0, 1), Range),
    (P1, Call::Unset(0, 0), Reply::Ok),
    (P1, Call::Get(1, 0, 1), Range),
    (P1, Call::Copy(7, 0), P(PNum(1))),
    (P1, Call::Get(7, 0, 0), Null),
    (P1, Call::Copy(6, 7), Empty),
    (P1, Call::New(1, 16), P(PNum(2))),
    (P1, Call::Set(0, 0, 1), Reply::Ok),
    (P1, Call::Get(2, 0, 0), P(PNum(2))),
    (P1, Call::Set(2, 15, 0), Reply::Ok),
    (P1, Call::Set(2, 16, 0), Range),
    (P1, Call::Get(3, 1, 15), P(PNum(1))),
    (P1, Call::Get(3, 1, 16), Range),
    (P1, Call::Store(15, 3), Reply::Ok),
    (P1, Call::Load(4, 15), P(PNum(1))),
    (P1, Call::Clear(15), Reply::Ok),
    (P1, Call::Load(4, 15), Null),
    (P1, Call::Copy(5, 4), Empty),
    (P1, Call::WGlobal(63, 1), H(HNum(1))),
    (P1, Call::Global(63, 0), Taken),
    (P1, Call::WGlobal(63, 0), Taken),
    (P1, Call::Global(63, 6), Empty),
    (P1, Call::WRead(5, 63), P(PNum(2))),
    (P1, Call::Copy(5, 5), P(PNum(2))),
    (P1, Call::UnGlobal(63), Reply::Ok),
    (P1, Call::WRead(5, 63), Unset),
    (P1, Call::Copy(5, 5), P(PNum(2))),
    (P1, Call::Global(63, 5), H(HNum(2))),
    (P1, Call::WRead(6, 63), P(PNum(2))),
    (P2, Call::Copy(0, 1), Empty),
    (P1, Call::Drop(7), Reply::Ok),
    (P1, Call::Drop(0), Reply::Ok),
    (P1, Call::Copy(0, 0), Empty),
];

// A marking is opened where none is open, and ended by the thread that opened it or by the driver.
const MARKINGS: [Row; 16] = [
    (C, Call::MarkBegin, Mark(Marking(1))),
    (C, Call::MarkBegin, MarkOpen(Marking(1))),
    (C, Call::MarkSweep, Swept(Marking(1), NONE)),
    (C, Call::MarkSweep, NoMark),
    (P1, Call::Sweep, NoMark),
    (P1, Call::Begin, Mark(Marking(2))),
    (P1, Call::Begin, MarkOpen(Marking(2))),
    (P2, Call::Begin, MarkOpen(Marking(2))),
    (C, Call::MarkBegin, MarkOpen(Marking(2))),
    (P2, Call::Sweep, MarkOpen(Marking(2))),
    (P2, Call::Collect, MarkOpen(Marking(2))),
    (P1, Call::Collect, MarkOpen(Marking(2))),
    (P1, Call::Sweep, Swept(Marking(2), NONE)),
    (P2, Call::Begin, Mark(Marking(3))),
    (C, Call::MarkSweep, Swept(Marking(3), NONE)),
    (P2, Call::Sweep, NoMark),
];

// The driver's marking in slices, where there is nothing to mark.
const NO_PEERS: [Row; 6] = [
    (C, Call::MarkSlice(1), NoMark),
    (C, Call::MarkBegin, Mark(Marking(1))),
    (C, Call::MarkBegin, MarkOpen(Marking(1))),
    (C, Call::MarkSlice(1), Done),
    (C, Call::MarkSweep, Swept(Marking(1), NONE)),
    (C, Call::MarkSweep, NoMark),
];

// The only field that leads to p2 is emptied before the marking has come to it, and so is the variable that had it from
// there; p2 existed at the begin and was reached then. A peer that is made meanwhile, p4, is kept, and so is what a
// weak name gives, p3. The next marking frees all three.
const HIDDEN: [Row; 18] = [
    (P1, Call::New(0, 1), P(PNum(1))),
    (P1, Call::New(1, 0), P(PNum(2))),
    (P1, Call::Set(0, 0, 1), Reply::Ok),
    (P1, Call::New(1, 0), P(PNum(3))),
    (P1, Call::WGlobal(0, 1), H(HNum(1))),
    (P1, Call::Drop(1), Reply::Ok),
    (C, Call::MarkBegin, Mark(Marking(1))),
    (P1, Call::Get(2, 0, 0), P(PNum(2))),
    (P1, Call::Unset(0, 0), Reply::Ok),
    (P1, Call::Drop(2), Reply::Ok),
    (C, Call::MarkSlice(1), More),
    (P1, Call::WRead(1, 0), P(PNum(3))),
    (P1, Call::Drop(1), Reply::Ok),
    (P1, Call::New(3, 0), P(PNum(4))),
    (P1, Call::Drop(3), Reply::Ok),
    (C, Call::MarkSlice(2), Done),
    (C, Call::MarkSweep, Swept(Marking(1), NONE)),
    (
        P1,
        Call::Collect,
        Swept(Marking(2), Span { first: 0, count: 3 }),
    ),
];

// A sweep spares what was made or read by a weak name since its begin, with all that this led to at the begin.
const SPARED: [Row; 21] = [
    (P1, Call::New(0, 1), P(PNum(1))),
    (P1, Call::New(1, 0), P(PNum(2))),
    (P1, Call::Set(0, 0, 1), Reply::Ok),
    (P1, Call::New(2, 0), P(PNum(3))),
    (P1, Call::WGlobal(0, 0), H(HNum(1))),
    (P1, Call::WGlobal(1, 2), H(HNum(2))),
    (P1, Call::Drop(0), Reply::Ok),
    (P1, Call::Drop(1), Reply::Ok),
    (P1, Call::Drop(2), Reply::Ok),
    (P1, Call::Begin, Mark(Marking(1))),
    (P1, Call::WRead(0, 0), P(PNum(1))),
    (P1, Call::Unset(0, 0), Reply::Ok),
    (P1, Call::Drop(0), Reply::Ok),
    (P1, Call::New(3, 0), P(PNum(4))),
    (P1, Call::Drop(3), Reply::Ok),
    (
        P1,
        Call::Sweep,
        Swept(Marking(1), Span { first: 0, count: 1 }),
    ),
    (P1, Call::WRead(0, 1), Gone),
    (P1, Call::WRead(0, 0), P(PNum(1))),
    (P1, Call::Drop(0), Reply::Ok),
    (C, Call::MarkBegin, Mark(Marking(2))),
    (
        C,
        Call::MarkSweep,
        Swept(Marking(2), Span { first: 1, count: 3 }),
    ),
];

// What a managed thread does with handles.
const HANDLES: [Row; 25] = [
    (M1, Call::Grip(0), Null),
    (M1, Call::Land(1, 0), Gone),
    (M1, Call::Make(Sort::User, 2), Made(PNum(1), HNum(1))),
    (P1, Call::Collect, Swept(Marking(1), NONE)),
    (M1, Call::Land(1, 15), P(PNum(1))),
    (P1, Call::Load(0, 15), P(PNum(1))),
    (M1, Call::Grip(15), Gripped(PNum(1), HNum(2), Sort::User, 2)),
    (P1, Call::New(1, 16), P(PNum(2))),
    (P1, Call::Store(0, 1), Reply::Ok),
    (
        M1,
        Call::Grip(0),
        Gripped(PNum(2), HNum(3), Sort::Framework, 16),
    ),
    (P1, Call::New(2, 0), P(PNum(3))),
    (P1, Call::WGlobal(0, 2), H(HNum(4))),
    (P1, Call::Drop(2), Reply::Ok),
    (C, Call::MarkBegin, Mark(Marking(2))),
    (M1, Call::Land(4, 1), P(PNum(3))),
    (P1, Call::Clear(1), Reply::Ok),
    (C, Call::MarkSweep, Swept(Marking(2), NONE)),
    (
        P1,
        Call::Collect,
        Swept(Marking(3), Span { first: 0, count: 1 }),
    ),
    (M1, Call::Land(4, 1), Gone),
    (P1, Call::Load(2, 1), Null),
    (P1, Call::WRead(2, 0), Gone),
    (P1, Call::Target(1), P(PNum(1))),
    (P1, Call::Target(3), P(PNum(2))),
    (P1, Call::Target(4), Gone),
    (P1, Call::Target(5), Gone),
];

// The last peer, and what comes after it; a full heap stays full when its peers are freed.
const LAST_PEER: [Row; 8] = [
    (P1, Call::Fill(0, 65534), P(PNum(65534))),
    (M1, Call::Make(Sort::User, 0), Made(PNum(65535), HNum(1))),
    (M1, Call::Make(Sort::User, 0), Full),
    (P1, Call::New(0, 0), Full),
    (P1, Call::Copy(0, 0), P(PNum(65534))),
    (
        P1,
        Call::Collect,
        Swept(
            Marking(1),
            Span {
                first: 0,
                count: 65533,
            },
        ),
    ),
    (P1, Call::New(1, 0), Full),
    (P1, Call::Copy(1, 1), Empty),
];

// The last handle, and what comes after it.
const LAST_HANDLE: [Row; 12] = [
    (P1, Call::New(0, 0), P(PNum(1))),
    (P1, Call::Store(0, 0), Reply::Ok),
    (P1, Call::Rename(0, 65534), H(HNum(65534))),
    (P1, Call::WGlobal(0, 0), H(HNum(65535))),
    (P1, Call::Global(1, 1), Empty),
    (P1, Call::Global(0, 0), Taken),
    (P1, Call::Global(1, 0), Full),
    (P1, Call::WGlobal(1, 0), Full),
    (M1, Call::Grip(1), Null),
    (M1, Call::Grip(0), Full),
    (M1, Call::Make(Sort::Framework, 0), Full),
    (P1, Call::New(1, 0), P(PNum(2))),
];

#[test]
fn a_strong_name_holds_its_peer_and_a_weak_one_is_cleared(rt: HostRuntime) -> Result<(), Fail> {
    let freed = [PNum(1)];
    let played = play(rt.alloc(), NAMES.as_slice(), freed.as_slice())?;
    // each of the two collects made two
    assert_eq!(rt;
        (played.miss, played.entries, played.freed),
        (None, 12, true)
    );
    Ok(())
}

#[test]
fn lines_are_tested_by_their_checks_in_order(rt: HostRuntime) -> Result<(), Fail> {
    let played = play(rt.alloc(), LINES.as_slice(), &[])?;
    assert_eq!(rt; (played.miss, played.freed), (None, true));
    Ok(())
}

#[test]
fn managed_threads_make_land_and_grip_by_handles(rt: HostRuntime) -> Result<(), Fail> {
    let freed = [PNum(3)];
    let played = play(rt.alloc(), HANDLES.as_slice(), freed.as_slice())?;
    assert_eq!(rt; (played.miss, played.freed), (None, true));
    Ok(())
}

#[test]
fn a_marking_is_ended_by_its_own_thread_or_the_driver(rt: HostRuntime) -> Result<(), Fail> {
    let played = play(rt.alloc(), MARKINGS.as_slice(), &[])?;
    assert_eq!(rt; (played.miss, played.freed), (None, true));
    Ok(())
}

#[test]
fn a_marking_without_peers_is_done_at_once(rt: HostRuntime) -> Result<(), Fail> {
    let played = play(rt.alloc(), NO_PEERS.as_slice(), &[])?;
    assert_eq!(rt; (played.miss, played.freed), (None, true));
    Ok(())
}

#[test]
fn a_write_hides_nothing_from_a_marking_in_slices(rt: HostRuntime) -> Result<(), Fail> {
    let freed = [PNum(2), PNum(3), PNum(4)];
    let played = play(rt.alloc(), HIDDEN.as_slice(), freed.as_slice())?;
    assert_eq!(rt; (played.miss, played.freed), (None, true));
    Ok(())
}

#[test]
fn a_sweep_spares_what_was_made_or_brought_back_since(rt: HostRuntime) -> Result<(), Fail> {
    let freed = [PNum(3), PNum(1), PNum(2), PNum(4)];
    let played = play(rt.alloc(), SPARED.as_slice(), freed.as_slice())?;
    assert_eq!(rt; (played.miss, played.freed), (None, true));
    Ok(())
}

// What was freed is told by the row of its sweep: the list is too long to stand here.
#[test]
fn the_last_peer_is_made_and_then_no_more(rt: HostRuntime) -> Result<(), Fail> {
    let played = play(rt.alloc(), LAST_PEER.as_slice(), &[])?;
    assert_eq!(rt; played.miss, None);
    Ok(())
}

#[test]
fn the_last_handle_is_issued_and_then_no_more(rt: HostRuntime) -> Result<(), Fail> {
    let played = play(rt.alloc(), LAST_HANDLE.as_slice(), &[])?;
    assert_eq!(rt; (played.miss, played.freed), (None, true));
    Ok(())
}
