// What a managed thread is in the midst of, and where the driver stands.

use joint_machine::{Cycle, HNum, PNum, Sort, StaticNo};

/// The half of an operation that a managed thread has made, with the number and the line of its entry, which the next
/// event cites.
#[derive(Clone, Copy, PartialEq, Eq, Debug)]
pub enum Doing {
    /// None.
    Free,
    /// It has made a pair of a peer and a handle.
    Made {
        number: u64,
        line: u32,
        p: PNum,
        h: HNum,
        sort: Sort,
        fields: u8,
    },
    /// It has lent a handle.
    Lent {
        number: u64,
        line: u32,
        h: HNum,
        x: StaticNo,
    },
    /// It has gripped a peer.
    Gripped {
        number: u64,
        line: u32,
        p: PNum,
        h: HNum,
        sort: Sort,
        fields: u8,
    },
    /// It has given a handle up.
    Given {
        number: u64,
        line: u32,
        h: HNum,
    },
    /// It has met a peer without taking the handle.
    Met {
        number: u64,
        line: u32,
        h: HNum,
    },
}

/// The driver's open cycle, and the number of its snap entry.
#[derive(Clone, Copy, PartialEq, Eq, Debug)]
pub struct OpenSnap {
    pub cycle: Cycle,
    pub snap: u64,
}

/// Where the driver stands: the last phase of which it has made an event, and how many of its events were made.
#[derive(Clone, Copy, PartialEq, Eq, Debug)]
pub enum Stand {
    Idle,
    Snapped(OpenSnap),
    Contracted(OpenSnap),
    /// The mirror stands, and so many handles are weakened; whether it was seen that the driver has come to the
    /// weakened phase, and whether it has swept a peer thread's marking.
    Weakening {
        open: OpenSnap,
        count: u32,
        weakened: bool,
        swept: bool,
    },
    Marked(OpenSnap),
    /// The own marking is swept, and so many handles are restored.
    Restoring {
        open: OpenSnap,
        count: u32,
    },
    /// All are restored, and this is the number of the clear entry.
    Restored {
        open: OpenSnap,
        clear: u64,
    },
}

/// What the two sides have of the open cycle: how many candidates it has, the handle of the one that is next to be
/// weakened or restored, and whether a marking is open.
#[derive(Clone, Copy, PartialEq, Eq, Debug)]
pub struct Part {
    pub candidates: u32,
    pub next: Option<HNum>,
    pub marking: bool,
}
