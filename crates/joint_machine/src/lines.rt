// What one line of a script asks for.

use crate::names::{Cell, GName, Kind, PhaseWord, Sort, StaticNo, Var};

/// An operation of a script line, without its thread. docs/SCRIPT.md has the words of each.
#[derive(Clone, Copy, PartialEq, Eq, Debug)]
pub enum Act {
    New {
        v: Var,
        kind: Kind,
        fields: u8,
    },
    Bridge {
        v: Var,
        kind: Kind,
        fields: u8,
        sort: Sort,
        peer_fields: u8,
    },
    Copy {
        v: Var,
        w: Var,
    },
    Set {
        v: Var,
        i: u8,
        w: Option<Var>,
    },
    Get {
        v: Var,
        w: Var,
        i: u8,
    },
    Drop {
        v: Var,
    },
    Load {
        v: Var,
        x: StaticNo,
    },
    Store {
        x: StaticNo,
        v: Option<Var>,
    },
    Weak {
        k: Cell,
        v: Var,
    },
    Read {
        k: Cell,
    },
    Await {
        k: Cell,
    },
    Take {
        v: Var,
    },
    Pass {
        v: Var,
        x: StaticNo,
    },
    Surface {
        v: Var,
        x: StaticNo,
    },
    Dispose {
        v: Var,
    },
    Handle {
        v: Var,
    },
    NewPeer {
        v: Var,
        fields: u8,
    },
    Global {
        g: GName,
        v: Var,
    },
    WGlobal {
        g: GName,
        v: Var,
    },
    UnGlobal {
        g: GName,
    },
    WRead {
        v: Var,
        g: GName,
    },
    Collect,
    BeginMark,
    Slice {
        n: u32,
    },
    SweepMark,
    PhaseLine {
        word: PhaseWord,
    },
    Finalise {
        n: u32,
    },
}
