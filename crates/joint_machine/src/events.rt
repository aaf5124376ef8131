// The events of a history, their replies, and the entry that holds one of each.

use crate::lines::Act;
use crate::names::{
    Cycle, HNum, Kind, MNum, Marking, PNum, Phase, PhaseWord, Sort, Span, StaticNo, Thread, Var,
};

/// An event: one atomic step of a thread. An operation that is one event is `Line` of its act; the other
/// events are the steps of the operations that take several.
#[derive(Clone, Copy, PartialEq, Eq, Debug)]
pub enum Op {
    Line(Act),
    Make {
        sort: Sort,
        fields: u8,
    },
    Adopt {
        v: Var,
        kind: Kind,
        fields: u8,
        p: PNum,
        h: HNum,
    },
    Lend {
        v: Var,
        x: StaticNo,
    },
    Land {
        h: HNum,
        x: StaticNo,
    },
    Grip {
        x: StaticNo,
    },
    Meet {
        v: Var,
        sort: Sort,
        fields: u8,
        p: PNum,
        h: HNum,
    },
    Give {
        v: Var,
    },
    Release {
        h: HNum,
    },
    Snap {
        cycle: Cycle,
    },
    Contract {
        cycle: Cycle,
    },
    Mirror {
        cycle: Cycle,
    },
    Weaken {
        h: HNum,
    },
    Begin,
    Sweep,
    Restore {
        h: HNum,
    },
    Clear {
        cycle: Cycle,
    },
    Resolve {
        cycle: Cycle,
    },
    Abandon {
        cycle: Cycle,
    },
    Refused {
        word: PhaseWord,
    },
}

/// What an event answers. docs/SCRIPT.md has the text of each.
#[derive(Clone, Copy, PartialEq, Eq, Debug)]
pub enum Reply {
    Ok,
    Empty,
    Range,
    Null,
    Taken,
    Gone,
    Unset,
    Full,
    Plain,
    NoMark,
    More,
    Done,
    Cleared,
    M(MNum),
    P(PNum),
    H(HNum),
    Renewed(HNum),
    New(MNum),
    Twin(MNum),
    Made(PNum, HNum),
    Gripped(PNum, HNum, Sort, u8),
    Pending(Cycle),
    Pinned(MNum),
    Mark(Marking),
    MarkOpen(Marking),
    CycleOpen(Cycle),
    At(Phase),
    Snapped(u32, Span),
    Sccs(u32, u32),
    Refs(u32),
    Swept(Marking, Span),
    Freed(Span),
    Took(Span),
}

/// An entry before it has its number: who made it on which script line, the event with its reply, and the
/// number of the earlier entry that it cites, if it cites one.
#[derive(Clone, Copy, PartialEq, Eq, Debug)]
pub struct Made {
    pub caller: Thread,
    pub index: u32,
    pub op: Op,
    pub reply: Reply,
    pub cites: Option<u64>,
}

/// One entry of a history. It takes at most 64 bytes.
#[derive(Clone, Copy, PartialEq, Eq, Debug)]
pub struct Entry {
    pub number: u64,
    pub made: Made,
}

const _: () = prove!(size_of::<Entry>() <= 64);
