// Cases by the rules of the events: steps from the opening state, and further ones with their verdicts.

use joint_model::{
    Act, Cell, Cycle, GName, HNum, Kind, MNum, Marking, Op, PNum, Reply, Sort, Span, StaticNo,
    Thread, Var,
};
use joint_replay::Verdict;

/// A caller, its event, and the reply.
pub type Said = (Thread, Op, Reply);

/// Steps that are each lawful, from the opening state on, and further ones with their verdicts.
pub type Case = (&'static [Said], &'static [(Said, Verdict)]);

pub const L: Verdict = Verdict::Lawful;

const U: Verdict = Verdict::Unlawful;

const M1: Thread = Thread::M(1);

const P1: Thread = Thread::P(1);

const P2: Thread = Thread::P(2);

const C: Thread = Thread::C;

const A: Var = Var(0);

const B: Var = Var(1);

const X: StaticNo = StaticNo(0);

const NONE: Span = Span { first: 0, count: 0 };

const ONE: Span = Span { first: 0, count: 1 };

const BOTH: Span = Span { first: 0, count: 2 };

const OBJECT_1: Reply = Reply::M(MNum(1));

const PEER_1: Reply = Reply::P(PNum(1));

const GRIPPED: Reply = Reply::Gripped(PNum(1), HNum(2), Sort::User, 0);

const MAKE: Op = Op::Make {
    sort: Sort::User,
    fields: 0,
};

const SET: Op = Op::Line(Act::Set {
    v: A,
    i: 0,
    w: Some(B),
});

const ADOPT_A: Op = Op::Adopt {
    v: A,
    kind: Kind::Bridge,
    fields: 1,
    p: PNum(1),
    h: HNum(1),
};

const ADOPT_B: Op = Op::Adopt {
    v: B,
    kind: Kind::Bridge,
    fields: 1,
    p: PNum(2),
    h: HNum(2),
};

const DROP_A: Op = Op::Line(Act::Drop { v: A });

const DROP_B: Op = Op::Line(Act::Drop { v: B });

const SNAP_1: Op = Op::Snap { cycle: Cycle(1) };

const SNAP_2: Op = Op::Snap { cycle: Cycle(2) };

const RESOLVE_1: Op = Op::Resolve { cycle: Cycle(1) };

const RESOLVE_2: Op = Op::Resolve { cycle: Cycle(2) };

const RESTORE_1: Op = Op::Restore { h: HNum(1) };

const RESTORE_2: Op = Op::Restore { h: HNum(2) };

const ABANDON_1: Op = Op::Abandon { cycle: Cycle(1) };

const NEW_A: Op = Op::Line(Act::New {
    v: A,
    kind: Kind::Plain,
    fields: 2,
});

const NEW_PEER: Op = Op::Line(Act::NewPeer { v: A, fields: 1 });

const COPY: Op = Op::Line(Act::Copy { v: B, w: A });

const GET: Op = Op::Line(Act::Get { v: B, w: A, i: 0 });

const STORE: Op = Op::Line(Act::Store { x: X, v: Some(A) });

const LOAD: Op = Op::Line(Act::Load { v: B, x: X });

const GLOBAL: Op = Op::Line(Act::Global { g: GName(0), v: A });

const WGLOBAL: Op = Op::Line(Act::WGlobal { g: GName(1), v: A });

const UNGLOBAL: Op = Op::Line(Act::UnGlobal { g: GName(0) });

const WREAD: Op = Op::Line(Act::WRead { v: A, g: GName(1) });

const GRIP: Op = Op::Grip { x: X };

const LEND: Op = Op::Lend { v: A, x: X };

const LAND: Op = Op::Land { h: HNum(1), x: X };

const MEET: Op = Op::Meet {
    v: B,
    p: PNum(1),
    h: HNum(2),
    sort: Sort::User,
    fields: 0,
};

const GIVE: Op = Op::Give { v: A };

const RELEASE_1: Op = Op::Release { h: HNum(1) };

const WEAK: Op = Op::Line(Act::Weak { k: Cell(0), v: A });

const READ: Op = Op::Line(Act::Read { k: Cell(0) });

const WAIT: Op = Op::Line(Act::Await { k: Cell(0) });

const TAKE: Op = Op::Line(Act::Take { v: B });

const HANDLE: Op = Op::Line(Act::Handle { v: A });

const FINALISE: Op = Op::Line(Act::Finalise { n: 1 });

// The entries of the example of two linked objects up to its first cycle.
const LINKED: [Said; 6] = [
    (M1, MAKE, Reply::Made(PNum(1), HNum(1))),
    (M1, ADOPT_A, Reply::M(MNum(1))),
    (M1, MAKE, Reply::Made(PNum(2), HNum(2))),
    (M1, ADOPT_B, Reply::M(MNum(2))),
    (M1, SET, Reply::Ok),
    (M1, DROP_B, Reply::Ok),
];

// The same, some of them after other replies, which are unlawful and change nothing.
const LINKED_OTHERWISE: [(Said, Verdict); 10] = [
    ((M1, MAKE, Reply::Made(PNum(1), HNum(2))), U),
    ((M1, MAKE, Reply::Made(PNum(1), HNum(1))), L),
    ((M1, ADOPT_A, Reply::M(MNum(1))), L),
    ((M1, MAKE, Reply::Made(PNum(2), HNum(2))), L),
    ((M1, ADOPT_B, Reply::M(MNum(1))), U),
    ((M1, ADOPT_B, Reply::M(MNum(2))), L),
    ((M1, SET, Reply::Empty), U),
    ((M1, SET, Reply::Ok), L),
    ((M1, DROP_B, Reply::Empty), U),
    ((M1, DROP_B, Reply::Ok), L),
];

// The example's two cycles with the drop between them, some steps after other replies.
const CYCLES: [(Said, Verdict); 27] = [
    ((C, SNAP_1, Reply::Snapped(1, NONE)), U),
    ((C, SNAP_1, Reply::Snapped(0, BOTH)), U),
    ((C, SNAP_1, Reply::Snapped(0, NONE)), L),
    ((C, Op::Begin, Reply::Mark(Marking(2))), U),
    ((C, Op::Begin, Reply::MarkOpen(Marking(1))), U),
    ((C, Op::Begin, Reply::Mark(Marking(1))), L),
    ((C, Op::Sweep, Reply::Swept(Marking(1), ONE)), U),
    ((C, Op::Sweep, Reply::NoMark), U),
    ((C, Op::Sweep, Reply::Swept(Marking(1), NONE)), L),
    ((C, RESOLVE_1, Reply::Freed(ONE)), U),
    ((C, RESOLVE_1, Reply::Freed(NONE)), L),
    ((M1, DROP_A, Reply::Ok), L),
    ((C, SNAP_2, Reply::Snapped(1, NONE)), U),
    ((C, SNAP_2, Reply::Snapped(2, NONE)), L),
    ((C, Op::Begin, Reply::Mark(Marking(2))), L),
    ((C, Op::Sweep, Reply::Swept(Marking(1), BOTH)), U),
    ((C, Op::Sweep, Reply::Swept(Marking(2), BOTH)), L),
    ((C, RESTORE_1, Reply::Renewed(HNum(3))), U),
    ((C, RESTORE_1, Reply::Cleared), L),
    ((C, RESTORE_1, Reply::Cleared), U),
    ((C, RESOLVE_2, Reply::Freed(BOTH)), U),
    ((C, Op::Abandon { cycle: Cycle(2) }, Reply::Ok), U),
    ((M1, RESTORE_2, Reply::Cleared), U),
    ((C, RESTORE_2, Reply::Cleared), L),
    ((C, RESOLVE_2, Reply::Freed(NONE)), U),
    ((C, RESOLVE_2, Reply::Freed(ONE)), U),
    ((C, RESOLVE_2, Reply::Freed(BOTH)), L),
];

// Only an open cycle is closed, by the driver alone; of what a cycle does with handles the restores of its candidates
// alone are steps of the joint machine.
const CLOSING: [(Said, Verdict); 11] = [
    ((C, RESOLVE_1, Reply::Freed(NONE)), U),
    ((C, ABANDON_1, Reply::Ok), U),
    ((C, SNAP_2, Reply::Snapped(0, NONE)), U),
    ((C, SNAP_1, Reply::Snapped(0, NONE)), L),
    ((C, Op::Contract { cycle: Cycle(1) }, Reply::Ok), U),
    ((C, Op::Mirror { cycle: Cycle(1) }, Reply::Ok), U),
    ((C, Op::Weaken { h: HNum(1) }, Reply::Ok), U),
    ((C, RESTORE_1, Reply::Cleared), U),
    ((M1, ABANDON_1, Reply::Ok), U),
    ((C, ABANDON_1, Reply::Ok), L),
    ((C, SNAP_2, Reply::Snapped(0, NONE)), L),
];

// A resolution keeps what has a live peer, which gets a new handle from its restore.
const KEEPING: [(Said, Verdict); 12] = [
    ((M1, DROP_A, Reply::Ok), L),
    ((C, SNAP_1, Reply::Snapped(2, NONE)), L),
    ((C, RESOLVE_1, Reply::Freed(NONE)), U),
    ((C, RESTORE_1, Reply::Cleared), U),
    ((C, RESTORE_1, Reply::Renewed(HNum(2))), U),
    ((C, RESTORE_1, Reply::Renewed(HNum(3))), L),
    ((C, RESTORE_1, Reply::Renewed(HNum(4))), U),
    ((C, ABANDON_1, Reply::Ok), U),
    ((C, RESTORE_2, Reply::Renewed(HNum(4))), L),
    ((C, Op::Restore { h: HNum(3) }, Reply::Renewed(HNum(5))), U),
    ((C, RESOLVE_1, Reply::Freed(BOTH)), U),
    ((C, RESOLVE_1, Reply::Freed(NONE)), L),
];

// A handle that was never made has no restore, so a cycle with its object can't be resolved.
const WITHOUT_PEER: [(Said, Verdict); 8] = [
    ((M1, ADOPT_A, OBJECT_1), L),
    ((M1, DROP_A, Reply::Ok), L),
    ((C, SNAP_1, Reply::Snapped(1, NONE)), L),
    ((C, RESTORE_1, Reply::Cleared), U),
    ((C, RESTORE_1, Reply::Renewed(HNum(1))), U),
    ((C, RESOLVE_1, Reply::Freed(NONE)), U),
    ((C, RESOLVE_1, Reply::Freed(ONE)), U),
    ((C, ABANDON_1, Reply::Ok), L),
];

// A sweep frees nothing that was reached at the begin.
const REACHED_THEN: [(Said, Verdict); 6] = [
    ((C, Op::Begin, Reply::Mark(Marking(1))), L),
    ((M1, DROP_A, Reply::Ok), L),
    ((C, Op::Sweep, Reply::Swept(Marking(1), BOTH)), U),
    ((C, Op::Sweep, Reply::Swept(Marking(1), NONE)), L),
    ((C, Op::Begin, Reply::Mark(Marking(2))), L),
    ((C, Op::Sweep, Reply::Swept(Marking(2), BOTH)), L),
];

// Nor what is reached now: a further object that holds handle 1 brings its peer back, and all that this leads to.
const REACHED_NOW: [(Said, Verdict); 6] = [
    ((M1, DROP_A, Reply::Ok), L),
    ((C, Op::Begin, Reply::Mark(Marking(1))), L),
    ((M1, ADOPT_A, Reply::M(MNum(3))), L),
    ((C, Op::Sweep, Reply::Swept(Marking(1), BOTH)), U),
    ((C, Op::Sweep, Reply::Swept(Marking(1), ONE)), U),
    ((C, Op::Sweep, Reply::Swept(Marking(1), NONE)), L),
];

// It may spare an unreached peer.
const SPARING: [(Said, Verdict); 3] = [
    ((M1, DROP_A, Reply::Ok), L),
    ((C, Op::Begin, Reply::Mark(Marking(1))), L),
    ((C, Op::Sweep, Reply::Swept(Marking(1), ONE)), L),
];

// Peer threads begin and sweep too.
const BY_PEERS: [(Said, Verdict); 14] = [
    ((P1, Op::Sweep, Reply::NoMark), L),
    ((C, Op::Sweep, Reply::NoMark), U),
    ((M1, Op::Begin, Reply::Mark(Marking(1))), U),
    ((P1, Op::Begin, Reply::Mark(Marking(1))), L),
    ((P2, Op::Begin, Reply::Mark(Marking(2))), U),
    ((C, Op::Begin, Reply::MarkOpen(Marking(1))), L),
    ((P2, Op::Sweep, Reply::Swept(Marking(1), NONE)), U),
    ((P2, Op::Sweep, Reply::MarkOpen(Marking(1))), L),
    ((P1, Op::Sweep, Reply::MarkOpen(Marking(1))), U),
    ((P1, Op::Sweep, Reply::Swept(Marking(1), NONE)), L),
    ((C, Op::Begin, Reply::Mark(Marking(2))), L),
    ((P1, Op::Sweep, Reply::MarkOpen(Marking(2))), L),
    ((C, Op::Sweep, Reply::Swept(Marking(2), NONE)), L),
    ((C, Op::Sweep, Reply::Swept(Marking(2), NONE)), U),
];

// The same operations on each heap, whose replies name its own objects.
const PLAIN: [(Said, Verdict); 16] = [
    ((M1, COPY, Reply::Empty), L),
    ((M1, NEW_A, OBJECT_1), L),
    ((P1, NEW_A, OBJECT_1), U),
    ((M1, COPY, OBJECT_1), L),
    ((M1, GET, Reply::Null), L),
    ((M1, GET, Reply::Empty), U),
    ((M1, STORE, Reply::Ok), L),
    ((M1, LOAD, OBJECT_1), L),
    ((P1, LOAD, Reply::Null), L),
    ((P1, NEW_PEER, PEER_1), L),
    ((P1, SET, Reply::Empty), L),
    ((P1, COPY, OBJECT_1), U),
    ((P1, COPY, PEER_1), L),
    ((P1, SET, Reply::Ok), L),
    ((P1, GET, Reply::Null), U),
    ((P1, GET, PEER_1), L),
];

// A strong name keeps its peer, a weak one doesn't.
const RAW: [(Said, Verdict); 17] = [
    ((P1, NEW_PEER, PEER_1), L),
    ((P1, GLOBAL, Reply::H(HNum(1))), L),
    ((P1, GLOBAL, Reply::H(HNum(2))), U),
    ((P1, GLOBAL, Reply::Taken), L),
    ((P1, WGLOBAL, Reply::H(HNum(2))), L),
    ((P1, DROP_A, Reply::Ok), L),
    ((P1, Op::Begin, Reply::Mark(Marking(1))), L),
    ((P1, Op::Sweep, Reply::Swept(Marking(1), ONE)), U),
    ((P1, Op::Sweep, Reply::Swept(Marking(1), NONE)), L),
    ((P1, WREAD, PEER_1), L),
    ((P1, DROP_A, Reply::Ok), L),
    ((P1, UNGLOBAL, Reply::Ok), L),
    ((P1, UNGLOBAL, Reply::Unset), L),
    ((P1, Op::Begin, Reply::Mark(Marking(2))), L),
    ((P1, Op::Sweep, Reply::Swept(Marking(2), ONE)), L),
    ((P1, WREAD, PEER_1), U),
    ((P1, WREAD, Reply::Gone), L),
];

// A peer that was passed is gripped again, and meets its one twin until that gives its handle up.
const ONE_TWIN: [(Said, Verdict); 19] = [
    ((M1, LEND, Reply::Empty), L),
    ((M1, MAKE, Reply::Made(PNum(1), HNum(1))), L),
    ((M1, ADOPT_A, OBJECT_1), L),
    ((M1, HANDLE, Reply::Plain), U),
    ((M1, HANDLE, Reply::H(HNum(1))), L),
    ((M1, GRIP, Reply::Null), L),
    ((M1, LEND, Reply::H(HNum(1))), L),
    ((M1, LAND, PEER_1), L),
    ((M1, GRIP, GRIPPED), L),
    ((M1, MEET, Reply::New(MNum(2))), U),
    ((M1, MEET, Reply::Twin(MNum(1))), L),
    ((M1, GIVE, Reply::H(HNum(1))), L),
    ((M1, GIVE, Reply::Plain), L),
    ((M1, RELEASE_1, Reply::Ok), L),
    ((M1, LAND, Reply::Gone), L),
    ((C, SNAP_1, Reply::Snapped(0, NONE)), L),
    ((M1, MEET, Reply::Pending(Cycle(1))), L),
    ((C, ABANDON_1, Reply::Ok), L),
    ((M1, MEET, Reply::New(MNum(2))), L),
];

// What a pin holds is a root; a read that is pending, or finds its cell unset, is no step; a notice is taken once.
const PINNED: [(Said, Verdict); 25] = [
    ((M1, READ, Reply::Unset), U),
    ((M1, MAKE, Reply::Made(PNum(1), HNum(1))), L),
    ((M1, ADOPT_A, OBJECT_1), L),
    ((M1, WEAK, Reply::Ok), L),
    ((M1, WEAK, Reply::Taken), L),
    ((M1, READ, OBJECT_1), L),
    ((M1, WAIT, Reply::Pinned(MNum(1))), L),
    ((M1, DROP_A, Reply::Ok), L),
    ((C, SNAP_1, Reply::Snapped(1, NONE)), U),
    ((C, SNAP_1, Reply::Snapped(0, NONE)), L),
    ((C, RESOLVE_1, Reply::Freed(NONE)), L),
    ((M1, TAKE, OBJECT_1), L),
    ((M1, TAKE, Reply::Empty), L),
    ((M1, DROP_B, Reply::Ok), L),
    ((C, FINALISE, Reply::Took(NONE)), L),
    ((C, SNAP_2, Reply::Snapped(1, NONE)), L),
    ((M1, READ, Reply::Pending(Cycle(2))), U),
    ((C, Op::Begin, Reply::Mark(Marking(1))), L),
    ((C, Op::Sweep, Reply::Swept(Marking(1), ONE)), L),
    ((C, RESTORE_1, Reply::Cleared), L),
    ((C, RESOLVE_2, Reply::Freed(ONE)), L),
    ((M1, READ, Reply::Gone), L),
    ((C, FINALISE, Reply::Took(NONE)), U),
    ((M1, FINALISE, Reply::Took(ONE)), U),
    ((C, FINALISE, Reply::Took(ONE)), L),
];

pub const CASES: [Case; 13] = [
    (&[], &LINKED_OTHERWISE),
    (&LINKED, &CYCLES),
    (&LINKED, &CLOSING),
    (&LINKED, &KEEPING),
    (&[], &WITHOUT_PEER),
    (&LINKED, &REACHED_THEN),
    (&LINKED, &REACHED_NOW),
    (&LINKED, &SPARING),
    (&[], &BY_PEERS),
    (&[], &PLAIN),
    (&[], &RAW),
    (&[], &ONE_TWIN),
    (&[], &PINNED),
];
