// Tables of a mirrored cycle's calls on a peer side, with what each answers.

use crate::mirrors::{Call, Row, play};
use joint_model::Reply::{self, Cleared, Mark, MarkOpen, NoMark, P, Refs, Swept};
use joint_model::{HNum, Marking, PNum, Span};
use std::test::Fail;

// No peers, in the list of freed ones.
const NONE: Span = Span { first: 0, count: 0 };

// While one handle is strong, its peer holds the other one over the circle; and while neither is, a peer in a static
// does.
const CIRCLE: [Row; 19] = [
    (Call::References, Refs(0)),
    (Call::Install, Refs(2)),
    (Call::References, Refs(2)),
    (Call::Weaken, Reply::Ok),
    (Call::Collect, Swept(Marking(1), NONE)),
    (Call::Weaken, Reply::Ok),
    (Call::Land, P(PNum(1))),
    (Call::MarkBegin, Mark(Marking(2))),
    (Call::MarkBegin, MarkOpen(Marking(2))),
    (Call::MarkSweep, Swept(Marking(2), NONE)),
    (Call::MarkSweep, NoMark),
    (Call::Restore, Reply::Renewed(HNum(3))),
    (Call::Empty, Reply::Ok),
    (Call::Collect, Swept(Marking(3), NONE)),
    (Call::Restore, Reply::Renewed(HNum(4))),
    (Call::References, Refs(2)),
    (Call::Clear, Reply::Ok),
    (Call::References, Refs(0)),
    (Call::Collect, Swept(Marking(4), NONE)),
];

// Both are weakened and restored at once, with a landing in between that brings both peers back.
const AT_ONCE: [Row; 9] = [
    (Call::Install, Refs(2)),
    (Call::WeakenAll, Reply::Ok),
    (Call::MarkBegin, Mark(Marking(1))),
    (Call::Land, P(PNum(1))),
    (Call::Empty, Reply::Ok),
    (Call::MarkSweep, Swept(Marking(1), NONE)),
    (Call::RestoreAll, Reply::Renewed(HNum(4))),
    (Call::Clear, Reply::Ok),
    (Call::References, Refs(0)),
];

// Nothing holds two peers under weak handles, whatever references stand between them.
const FREED: [Row; 5] = [
    (Call::Install, Refs(2)),
    (Call::WeakenAll, Reply::Ok),
    (
        Call::Collect,
        Swept(Marking(1), Span { first: 0, count: 2 }),
    ),
    (Call::RestoreAll, Cleared),
    (Call::References, Refs(2)),
];

#[test]
fn one_peer_of_a_circle_holds_the_other(rt: HostRuntime) -> Result<(), Fail> {
    let played = play(rt.alloc(), CIRCLE.as_slice(), &[])?;
    assert_eq!(rt; (played.miss, played.freed), (None, true));
    Ok(())
}

#[test]
fn handles_are_weakened_and_restored_at_once(rt: HostRuntime) -> Result<(), Fail> {
    let played = play(rt.alloc(), AT_ONCE.as_slice(), &[])?;
    assert_eq!(rt; (played.miss, played.freed), (None, true));
    Ok(())
}

#[test]
fn a_circle_under_weak_handles_is_freed(rt: HostRuntime) -> Result<(), Fail> {
    let freed = [PNum(1), PNum(2)];
    let played = play(rt.alloc(), FREED.as_slice(), freed.as_slice())?;
    assert_eq!(rt; (played.miss, played.freed), (None, true));
    Ok(())
}
