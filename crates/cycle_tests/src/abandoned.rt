// A cycle whose contraction or mirror finds no memory is abandoned, and the next one has the same candidates and frees
// them. With ample memory no cycle lacks any, and the run is the one of those in which each allocation fails in turn
// (`rt try --test --fail-alloc 1..`): so each case has its report.

ghost use Rattle.std.specs.Prelude.{◌≡◌};
ghost use Rattle.order_table.specs.Allowed.{Settled};
ghost use Rattle.order_table.specs.Views.{OwnsAll};
ghost use Rattle.joint_history.specs.Callers.{KnowsNothing};

use crate::runs::{CycleCall, DrivenBridge, Row, start};
use byte_streams::ByteSink;
use history_report::write_report;
use joint_model::Reply::{self, At, Gone, M, Refs, Sccs, Snapped, Took};
use joint_model::{History, MNum, Phase, PhaseWord, Span};
use order_table::{Order, OrderName, Seat};
use std::alloc::{AllocError, Global};
use std::marker::Brand;
use std::process::Abort;
use std::sync::Wait;
use std::test::Fail;

// A circle of which a cell knows one object, and that is dropped.
const DROPPED: [Row; 7] = [
    (CycleCall::Bridge(0), M(MNum(1))),
    (CycleCall::Bridge(1), M(MNum(2))),
    (CycleCall::Set(0, 1), Reply::Ok),
    (CycleCall::Set(1, 0), Reply::Ok),
    (CycleCall::Weak(0), Reply::Ok),
    (CycleCall::Drop(0), Reply::Ok),
    (CycleCall::Drop(1), Reply::Ok),
];

// The phases of a cycle that take memory, with that circle's candidates.
const TAKES_MEMORY: [Row; 3] = [
    (
        CycleCall::Line(PhaseWord::Snap),
        Snapped(2, Span { first: 0, count: 0 }),
    ),
    (CycleCall::Line(PhaseWord::Contract), Sccs(1, 0)),
    (CycleCall::Line(PhaseWord::Mirror), Refs(2)),
];

// The others, and what is left of the circle.
const GONE: [Row; 6] = [
    (CycleCall::Now, At(Phase::Mirrored)),
    (CycleCall::End, Reply::Ok),
    (CycleCall::Now, At(Phase::Idle)),
    (CycleCall::Read, Gone),
    (CycleCall::Finalise(1), Took(Span { first: 0, count: 1 })),
    (CycleCall::Finalise(9), Took(Span { first: 1, count: 1 })),
];

// The report of the lines before the cycle.
const BEFORE: &[u8] = b"0 m1.1 make user 1 = p1 h1
1 m1.1 adopt a bridge 1 p1 h1 = m1 @0
2 m1.1 make user 1 = p2 h2
3 m1.1 adopt b bridge 1 p2 h2 = m2 @2
4 m1.1 set a 0 b = ok
5 m1.1 set b 0 a = ok
6 m1.1 weak k0 a = ok
7 m1.1 drop a = ok
8 m1.1 drop b = ok
";

// The rest of it where each phase found memory, or the snapshot did when it was tried again.
const AT_ONCE: &[u8] = b"9 c.1 snap 1 = 2 freed -
10 c.1 contract 1 = 1 sccs 0 xrefs
11 c.1 mirror 1 = 2 refs @9
12 c.1 weaken h1 = ok @9
13 c.1 weaken h2 = ok @9
14 c.1 begin = 1
15 c.1 sweep = 1 freed p1 p2
16 c.1 restore h1 = cleared
17 c.1 restore h2 = cleared
18 c.1 clear 1 = ok
19 c.1 resolve 1 = freed m1 m2 @18
20 m1.1 read k0 = gone
21 c.1 finalise 1 = m1
22 c.1 finalise 9 = m2
end 23
";

// The rest of it where the contraction found none.
const WITHOUT_CONTRACTION: &[u8] = b"9 c.1 snap 1 = 2 freed -
10 c.1 abandon 1 = ok
11 c.1 snap 2 = 2 freed -
12 c.1 contract 2 = 1 sccs 0 xrefs
13 c.1 mirror 2 = 2 refs @11
14 c.1 weaken h1 = ok @11
15 c.1 weaken h2 = ok @11
16 c.1 begin = 1
17 c.1 sweep = 1 freed p1 p2
18 c.1 restore h1 = cleared
19 c.1 restore h2 = cleared
20 c.1 clear 2 = ok
21 c.1 resolve 2 = freed m1 m2 @20
22 m1.1 read k0 = gone
23 c.1 finalise 1 = m1
24 c.1 finalise 9 = m2
end 25
";

// The rest of it where the mirror found none.
const WITHOUT_MIRROR: &[u8] = b"9 c.1 snap 1 = 2 freed -
10 c.1 contract 1 = 1 sccs 0 xrefs
11 c.1 abandon 1 = ok
12 c.1 snap 2 = 2 freed -
13 c.1 contract 2 = 1 sccs 0 xrefs
14 c.1 mirror 2 = 2 refs @12
15 c.1 weaken h1 = ok @12
16 c.1 weaken h2 = ok @12
17 c.1 begin = 1
18 c.1 sweep = 1 freed p1 p2
19 c.1 restore h1 = cleared
20 c.1 restore h2 = cleared
21 c.1 clear 2 = ok
22 c.1 resolve 2 = freed m1 m2 @21
23 m1.1 read k0 = gone
24 c.1 finalise 1 = m1
25 c.1 finalise 9 = m2
end 26
";

// Makes the phases that take memory, and again from the first one where one finds none, which leaves the driver idle.
// Answers the place of that phase; None where all found memory at once.
fn open<N: OrderName, R: Wait + Abort>(
    rt: &R,
    alloc: Global,
    driven: &mut DrivenBridge<N>,
) -> Result<Option<usize>, AllocError> {
    for i in 0..TAKES_MEMORY.len() {
        let (call, reply) = TAKES_MEMORY[i];
        let found = driven.answer(rt, alloc, call);
        if found.is_err() {
            assert_eq!(rt; driven.driver.phase(), Phase::Idle);
            let miss = driven.first_miss(rt, alloc, TAKES_MEMORY.as_slice())?;
            assert_eq!(rt; miss, None);
            return Ok(Some(i));
        }
        assert_eq!(rt; found, Ok(Some(reply)));
    }
    Ok(None)
}

// Makes all calls of the run. Answers which phase found no memory at first.
fn play<N: OrderName, R: Wait + Abort>(
    rt: &R,
    alloc: Global,
    driven: &mut DrivenBridge<N>,
) -> Result<Option<usize>, AllocError> {
    assert_eq!(rt; driven.first_miss(rt, alloc, DROPPED.as_slice())?, None);
    let lacking = open(rt, alloc, driven)?;
    assert_eq!(rt; driven.first_miss(rt, alloc, GONE.as_slice())?, None);
    Ok(lacking)
}

// The finished history of the run on a new bridge, and which phase found no memory at first; None where the desk lacks
// a caller.
fn run<N: OrderName, R: Wait + Abort>(
    rt: &R,
    alloc: Global,
    order: Order,
    seat: Seat,
) -> Result<Option<(History, Option<usize>)>, AllocError>
    requires order { order ≡ N.order }
    requires run { (N.managed ≡ 1) × (N.peers ≡ 1) }
    requires seat { (seat.order ≡ N.order) × OwnsAll seat.view × KnowsNothing seat.view × Settled seat.view }
{
    let Some(mut driven) = start::<N>(alloc, order, seat)? else {
        return Ok(None);
    };
    match play(rt, alloc, &mut driven) {
        Ok(lacking) => {
            let history = driven.finish(rt, alloc)?;
            Ok(Some((history, lacking)))
        }
        Err(fault) => {
            drop(driven);
            Err(fault)
        }
    }
}

// The rest of the report where that phase found no memory at first.
fn rest_without(lacking: Option<usize>) -> &'static [u8] {
    match lacking {
        None | Some(0) => AT_ONCE,
        Some(1) => WITHOUT_CONTRACTION,
        Some(_) => WITHOUT_MIRROR,
    }
}

#[test]
fn a_cycle_without_memory_is_made_by_the_next_one(rt: HostRuntime) -> Result<(), Fail> {
    let alloc = rt.alloc();
    let (order, seat) = Order::new(alloc, 1)?;
    let ended = run::<Brand, _>(&rt, alloc, order, seat)?;
    assert!(rt; ended.is_some());
    if let Some((history, lacking)) = ended {
        let mut out = ByteSink::new(alloc, 4096, Vec::new(alloc));
        assert!(rt; write_report(&history, &mut out).is_ok());
        assert_eq!(rt;
            out.bytes().strip_prefix(BEFORE),
            Some(rest_without(lacking))
        );
    }
    Ok(())
}
