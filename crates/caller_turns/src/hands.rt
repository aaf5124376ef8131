// The events of managed threads' operations, by the half that was made.

ghost use Rattle.std.specs.Prelude.{◌≡◌, ◌↔◌, IsTrue, Some, None};
ghost use Rattle.caller_turns.specs.Turns.{AdoptCites, AdoptTurn, HandCites, HandTurn, LandCites, LandTurn, MayBegin};
ghost use Rattle.caller_turns.specs.Turns.{MeetCites, MeetTurn, ReleaseCites, ReleaseTurn, hand_after};

use crate::roles::is_bridge_object;
use crate::stands::Doing;
use joint_machine::{Entry, HNum, Kind, Op, PNum, Reply};

/// Whether an entry cites the one with that number.
pub(crate) fn cites_entry(cites: Option<u64>, number: u64) -> bool
    ensures { IsTrue result ↔ (cites ≡ Some number) }
{
    match cites {
        None => false,
        Some(cited) => cited == number,
    }
}

/// Whether an operation may begin: no handle waits for its release.
pub(crate) fn may_begin(doing: &Doing) -> bool
    ensures { IsTrue result ↔ MayBegin doing.now }
{
    !matches!(doing, Doing::Given { .. } | Doing::Met { .. })
}

// The later events of operations, on the line of the one before.
fn adopt_turn(doing: &Doing, index: u32, kind: Kind, fields: u8) -> bool
    ensures { IsTrue result ↔ AdoptTurn doing.now index kind fields }
{
    match *doing {
        Doing::Made {
            line,
            sort,
            fields: peer_fields,
            ..
        } => index == line && is_bridge_object(kind, fields, sort) && peer_fields <= 16,
        _ => false,
    }
}

fn land_turn(doing: &Doing, index: u32) -> bool
    ensures { IsTrue result ↔ LandTurn doing.now index }
{
    match *doing {
        Doing::Lent { line, .. } => index == line,
        _ => false,
    }
}

fn meet_turn(doing: &Doing, index: u32) -> bool
    ensures { IsTrue result ↔ MeetTurn doing.now index }
{
    match *doing {
        Doing::Gripped { line, .. } => index == line,
        _ => false,
    }
}

fn release_turn(doing: &Doing, index: u32) -> bool
    ensures { IsTrue result ↔ ReleaseTurn doing.now index }
{
    match *doing {
        Doing::Given { line, .. } => index == line,
        Doing::Met { line, .. } => index == line,
        _ => false,
    }
}

/// Whether the event is the next one of the operation, or begins one.
pub(crate) fn hand_turn(doing: &Doing, index: u32, op: &Op) -> bool
    ensures { IsTrue result ↔ HandTurn doing.now index op.now }
{
    match op {
        Op::Adopt { kind, fields, .. } => adopt_turn(doing, index, *kind, *fields),
        Op::Land { .. } => land_turn(doing, index),
        Op::Meet { .. } => meet_turn(doing, index),
        Op::Release { .. } => release_turn(doing, index),
        _ => may_begin(doing),
    }
}

// What later events cite, and what the cited entry gave.
fn adopt_cites(doing: &Doing, p: PNum, h: HNum, cites: Option<u64>) -> bool
    ensures { IsTrue result ↔ AdoptCites doing.now p h cites }
{
    match *doing {
        Doing::Made {
            number,
            p: made,
            h: handle,
            ..
        } => cites_entry(cites, number) && p.0 == made.0 && h.0 == handle.0,
        _ => false,
    }
}

fn land_cites(doing: &Doing, op: &Op, cites: Option<u64>) -> bool
    ensures { IsTrue result ↔ LandCites doing.now op.now cites }
{
    let Op::Land { h, x } = *op else {
        return false;
    };
    match *doing {
        Doing::Lent {
            number,
            h: handle,
            x: place,
            ..
        } => cites_entry(cites, number) && h.0 == handle.0 && x.0 == place.0,
        _ => false,
    }
}

fn meet_cites(doing: &Doing, op: &Op, cites: Option<u64>) -> bool
    ensures { IsTrue result ↔ MeetCites doing.now op.now cites }
{
    let Op::Meet {
        sort,
        fields,
        p,
        h,
        ..
    } = *op
    else {
        return false;
    };
    match *doing {
        Doing::Gripped {
            number,
            p: peer,
            h: handle,
            sort: of_sort,
            fields: many,
            ..
        } => {
            cites_entry(cites, number)
                && p.0 == peer.0
                && h.0 == handle.0
                && sort == of_sort
                && fields == many
        }
        _ => false,
    }
}

fn release_cites(doing: &Doing, h: HNum, cites: Option<u64>) -> bool
    ensures { IsTrue result ↔ ReleaseCites doing.now h cites }
{
    match *doing {
        Doing::Given {
            number,
            h: handle,
            ..
        } => cites_entry(cites, number) && h.0 == handle.0,
        Doing::Met {
            number,
            h: handle,
            ..
        } => cites_entry(cites, number) && h.0 == handle.0,
        _ => false,
    }
}

/// Whether the event cites what it has to, with what that gave.
pub(crate) fn hand_cites(doing: &Doing, op: &Op, cites: Option<u64>) -> bool
    ensures { IsTrue result ↔ HandCites doing.now op.now cites }
{
    match op {
        Op::Adopt { p, h, .. } => adopt_cites(doing, *p, *h, cites),
        Op::Land { .. } => land_cites(doing, op, cites),
        Op::Meet { .. } => meet_cites(doing, op, cites),
        Op::Release { h } => release_cites(doing, *h, cites),
        _ => cites.is_none(),
    }
}

/// The half of an operation that is made with the entry.
pub(crate) fn after(entry: &Entry) -> Doing
    ensures { result ≡ hand_after entry.now.number entry.now.made.index entry.now.made.op entry.now.made.reply }
{
    let number = entry.number;
    let line = entry.made.index;
    match entry.made.op {
        Op::Make { sort, fields } => match entry.made.reply {
            Reply::Made(p, h) => Doing::Made {
                number,
                line,
                p,
                h,
                sort,
                fields,
            },
            _ => Doing::Free,
        },
        Op::Lend { x, .. } => match entry.made.reply {
            Reply::H(h) => Doing::Lent { number, line, h, x },
            _ => Doing::Free,
        },
        Op::Grip { .. } => match entry.made.reply {
            Reply::Gripped(p, h, sort, fields) => Doing::Gripped {
                number,
                line,
                p,
                h,
                sort,
                fields,
            },
            _ => Doing::Free,
        },
        Op::Give { .. } => match entry.made.reply {
            Reply::H(h) => Doing::Given { number, line, h },
            _ => Doing::Free,
        },
        Op::Meet { h, .. } => match entry.made.reply {
            Reply::New(_) => Doing::Free,
            _ => Doing::Met { number, line, h },
        },
        _ => Doing::Free,
    }
}
