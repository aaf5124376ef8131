// Reports of worked histories: the words of each event and reply, and what a sink has of a report at each fault.

ghost use Rattle.joint_machine.specs.Lines.{IsNamed};
ghost use Rattle.joint_machine.specs.Histories.{HasSpans};
ghost use Rattle.script_tests.specs.Freed.{freed_objects, freed_peers};

use crate::comparing::{expect_at, expect_text};
use byte_streams::{ByteSink, CountSink};
use history_report::write_report;
use joint_model::{
    Act, Cell, Cycle, Entries, Entry, GName, HNum, History, Holding, Kind, MNum, Made, Marking, Op,
    PNum, Phase, PhaseWord, Reply, Sort, Span, StaticNo, Thread, Var,
};
use std::alloc::Global;
use std::test::Fail;

// A history without entries that has two objects of each heap in its lists, and a notice.
fn freed(alloc: Global) -> Result<History, Fail> {
    Ok(History::join(
        alloc,
        Vec::new(alloc),
        [MNum(1), MNum(2)].to_vec(alloc)?,
        [PNum(1), PNum(2)].to_vec(alloc)?,
        [MNum(7)].to_vec(alloc)?,
    )?)
}

#[test]
fn the_empty_report_is_written_up_to_the_fault(rt: HostRuntime) -> Result<(), Fail> {
    let h = freed(rt.alloc())?;
    let report = b"end 0\n";
    for call in 1..8usize {
        let mut sink = ByteSink::new(rt.alloc(), 1, [call as u32].to_vec(rt.alloc())?);
        let written = write_report(&h, &mut sink).is_ok() as u64;
        expect_at(&rt, sink.bytes(), written, (call == 7) as u64);
        expect_text(&rt, sink.bytes(), &report[..call - 1]);
    }
    Ok(())
}

const A: Var = Var(0);

const B: Var = Var(1);

// An event, its reply and the entry that is cited, by a caller.
type Event = (Thread, Op, Reply, Option<u64>);

const M1: Thread = Thread::M(1);

const P8: Thread = Thread::P(8);

const C: Thread = Thread::C;

// Two places of a history's lists, and none.
const BOTH: Span = Span { first: 0, count: 2 };

const NONE: Span = Span { first: 1, count: 0 };

// The history of one entry, by which two objects of each heap were freed, with its notices.
fn told(alloc: Global, event: Event, notices: Vec<MNum>) -> Result<History, Fail>
    requires named { IsNamed event.0 event.1 }
    requires spans { HasSpans freed_objects freed_peers notices.items event.2 }
{
    let (caller, op, reply, cites) = event;
    let made = Made {
        caller,
        index: 7,
        op,
        reply,
        cites,
    };
    let mut entries = Entries::new(alloc, Holding::Every);
    entries.reserve(1)?;
    entries.push(Entry { number: 0, made });
    let mut lists = Vec::new(alloc);
    lists.push(entries)?;
    Ok(History::join(
        alloc,
        lists,
        [MNum(1), MNum(2)].to_vec(alloc)?,
        [PNum(1), PNum(2)].to_vec(alloc)?,
        notices,
    )?)
}

// Events with and without lists, each with the report of a history that has it alone.
const EVENTS: [(Event, &[u8]); 16] = [
    (
        (
            M1,
            Op::Make {
                sort: Sort::User,
                fields: 0,
            },
            Reply::Made(PNum(1), HNum(1)),
            None,
        ),
        b"0 m1.7 make user 0 = p1 h1\nend 1\n",
    ),
    (
        (
            M1,
            Op::Adopt {
                v: A,
                kind: Kind::Bridge,
                fields: 1,
                p: PNum(1),
                h: HNum(1),
            },
            Reply::M(MNum(1)),
            Some(0),
        ),
        b"0 m1.7 adopt a bridge 1 p1 h1 = m1 @0\nend 1\n",
    ),
    (
        (
            M1,
            Op::Line(Act::Set {
                v: A,
                i: 0,
                w: Some(B),
            }),
            Reply::Ok,
            None,
        ),
        b"0 m1.7 set a 0 b = ok\nend 1\n",
    ),
    (
        (
            M1,
            Op::Meet {
                v: B,
                p: PNum(2),
                h: HNum(3),
                sort: Sort::Framework,
                fields: 1,
            },
            Reply::New(MNum(4)),
            Some(3),
        ),
        b"0 m1.7 meet b p2 h3 framework 1 = m4 new @3\nend 1\n",
    ),
    (
        (
            M1,
            Op::Grip { x: StaticNo(15) },
            Reply::Gripped(PNum(1), HNum(2), Sort::User, 1),
            None,
        ),
        b"0 m1.7 grip s15 = p1 h2 user 1\nend 1\n",
    ),
    (
        (
            C,
            Op::Refused {
                word: PhaseWord::Mirror,
            },
            Reply::At(Phase::Idle),
            None,
        ),
        b"0 c.7 refused mirror = at idle\nend 1\n",
    ),
    (
        (
            P8,
            Op::Line(Act::Store {
                x: StaticNo(1),
                v: None,
            }),
            Reply::Ok,
            None,
        ),
        b"0 p8.7 store s1 - = ok\nend 1\n",
    ),
    (
        (
            M1,
            Op::Line(Act::Store {
                x: StaticNo(1),
                v: None,
            }),
            Reply::Ok,
            None,
        ),
        b"0 m1.7 store g1 - = ok\nend 1\n",
    ),
    (
        (
            M1,
            Op::Line(Act::Weak { k: Cell(63), v: A }),
            Reply::Pinned(MNum(1)),
            None,
        ),
        b"0 m1.7 weak k63 a = pinned m1\nend 1\n",
    ),
    (
        (
            P8,
            Op::Line(Act::WRead { v: A, g: GName(63) }),
            Reply::MarkOpen(Marking(1)),
            None,
        ),
        b"0 p8.7 wread a G63 = marking 1\nend 1\n",
    ),
    (
        (C, Op::Contract { cycle: Cycle(1) }, Reply::Sccs(2, 1), None),
        b"0 c.7 contract 1 = 2 sccs 1 xrefs\nend 1\n",
    ),
    (
        (
            C,
            Op::Snap { cycle: Cycle(2) },
            Reply::Snapped(2, NONE),
            None,
        ),
        b"0 c.7 snap 2 = 2 freed -\nend 1\n",
    ),
    (
        (C, Op::Sweep, Reply::Swept(Marking(2), BOTH), None),
        b"0 c.7 sweep = 2 freed p1 p2\nend 1\n",
    ),
    (
        (
            C,
            Op::Resolve { cycle: Cycle(2) },
            Reply::Freed(BOTH),
            Some(12),
        ),
        b"0 c.7 resolve 2 = freed m1 m2 @12\nend 1\n",
    ),
    (
        (
            C,
            Op::Line(Act::Finalise { n: 5 }),
            Reply::Took(Span { first: 0, count: 1 }),
            None,
        ),
        b"0 c.7 finalise 5 = m7\nend 1\n",
    ),
    (
        (C, Op::Line(Act::Finalise { n: 5 }), Reply::Took(NONE), None),
        b"0 c.7 finalise 5 = -\nend 1\n",
    ),
];

#[test]
fn entries_have_the_words_of_their_event_and_reply(rt: HostRuntime) -> Result<(), Fail> {
    for (event, report) in &EVENTS {
        let h = told(rt.alloc(), *event, [MNum(7)].to_vec(rt.alloc())?)?;
        let mut sink = ByteSink::new(rt.alloc(), 3, Vec::new(rt.alloc()));
        assert!(rt; write_report(&h, &mut sink).is_ok());
        expect_text(&rt, sink.bytes(), report);
    }
    Ok(())
}

// An entry that takes thirty thousand notices, whose line is longer than what a sink gets at once.
const MANY: Event = (
    C,
    Op::Line(Act::Finalise { n: 30_000 }),
    Reply::Took(Span {
        first: 0,
        count: 30_000,
    }),
    None,
);

#[test]
fn a_sink_gets_what_there_is_no_room_for(rt: HostRuntime) -> Result<(), Fail> {
    let notices = vec![in rt.alloc(); MNum(7); 30_000]?;
    let h = told(rt.alloc(), MANY, notices)?;
    let mut sink = ByteSink::new(rt.alloc(), 100_000, [2].to_vec(rt.alloc())?);
    assert!(rt; write_report(&h, &mut sink).is_err());
    expect_at(&rt, &[], sink.bytes().len() as u64, 15_874);
    let mut counted = CountSink::new();
    assert!(rt; write_report(&h, &mut counted).is_ok());
    expect_at(&rt, &[], counted.count(), 90_029);
    Ok(())
}
