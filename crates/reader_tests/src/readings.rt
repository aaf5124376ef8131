// Texts of two readings, and where their lists stand.

use crate::comparing::expect_of;
use joint_model::{History, MNum, PNum, Reply};
use report_reader::{ReportError, read_report};
use std::alloc::{AllocError, Global};
use std::test::Fail;

// The history of a text; want of memory where it is refused, or too long for these tables.
fn history(alloc: Global, text: &[u8]) -> Result<History, AllocError> {
    if text.len() > 1000 {
        return Err(AllocError);
    }
    match read_report(alloc, text) {
        Ok(history) => Ok(history),
        Err(_) => Err(AllocError),
    }
}

// Ten times the first place of the reply's list and its length, with a thousand times a digit for the kind of reply.
fn reading(reply: Reply) -> u64 {
    match reply {
        Reply::M(_) => 1000,
        Reply::Took(s) => 2000 + s.first as u64 * 10 + s.count as u64,
        Reply::Snapped(_, s) => 3000 + s.first as u64 * 10 + s.count as u64,
        Reply::Swept(_, s) => 4000 + s.first as u64 * 10 + s.count as u64,
        Reply::Freed(s) => 5000 + s.first as u64 * 10 + s.count as u64,
        _ => 0,
    }
}

// Reports whose last entry has a reply of two readings, or of one, each with how it is read.
const TEXTS: [(u64, &[u8]); 15] = [
    (1000, b"0 m1.1 copy a b = m4\nend 1\n"),
    (2001, b"0 c.1 finalise 1 = m4\nend 1\n"),
    (2002, b"0 m1.1 copy a b = m4 m5\nend 1\n"),
    (2000, b"0 m1.1 copy a b = -\nend 1\n"),
    (
        2021,
        b"0 c.1 finalise 2 = m1 m7\n1 c.2 finalise 1 = m2\nend 2\n",
    ),
    (3000, b"0 c.1 snap 1 = 1 freed -\nend 1\n"),
    (4000, b"0 c.1 sweep = 1 freed -\nend 1\n"),
    (3000, b"0 m1.1 drop a = 1 freed -\nend 1\n"),
    (4002, b"0 m1.1 drop a = 1 freed p1 p2\nend 1\n"),
    (3002, b"0 c.1 sweep = 1 freed m1 m2\nend 1\n"),
    (
        5021,
        b"0 c.1 snap 1 = 1 freed m1 m2\n1 c.1 resolve 1 = freed m3\nend 2\n",
    ),
    (
        4000,
        b"0 c.1 snap 1 = 1 freed m1 m2\n1 c.1 sweep = 1 freed -\nend 2\n",
    ),
    (
        5020,
        b"0 c.1 snap 1 = 1 freed m1 m2\n1 c.1 resolve 1 = freed -\nend 2\n",
    ),
    (
        2001,
        b"0 c.1 snap 1 = 1 freed m1 m2\n1 c.1 finalise 1 = m9\nend 2\n",
    ),
    (0, b"0 m1.1 snap 1 = ok\nend 1\n"),
];

#[test]
fn replies_are_read_by_their_events(rt: HostRuntime) -> Result<(), Fail> {
    let alloc = rt.alloc();
    for (wanted, text) in &TEXTS {
        let history = history(alloc, text)?;
        if let Some(entry) = history.entry(history.len().saturating_sub(1)) {
            expect_of(&rt, text, reading(entry.made.reply), *wanted);
        }
    }
    Ok(())
}

// A report that names numbers of each list, by two entries each.
const LISTS: &[u8] = b"0 c.1 snap 1 = 1 freed m1 m2
1 c.1 sweep = 1 freed p5
2 c.1 finalise 3 = m2 m1
3 c.1 sweep = 2 freed p3 p4
4 c.1 resolve 1 = freed m3 @0
5 c.1 finalise 3 = m3
end 6
";

#[test]
fn lists_are_what_is_named(rt: HostRuntime) -> Result<(), Fail> {
    let history = history(rt.alloc(), LISTS)?;
    for (i, n) in [1, 2, 3].iter().enumerate() {
        assert_eq!(&rt; history.freed_managed(i as u32), Some(MNum(*n)));
    }
    for (i, n) in [5, 3, 4].iter().enumerate() {
        assert_eq!(&rt; history.freed_peer(i as u32), Some(PNum(*n)));
    }
    for (i, n) in [2, 1, 3].iter().enumerate() {
        assert_eq!(&rt; history.notice(i as u32), Some(MNum(*n)));
    }
    assert_eq!(&rt; history.freed_managed(3).is_some(), false);
    assert_eq!(&rt; history.freed_peer(3).is_some(), false);
    assert_eq!(&rt; history.notice(3).is_some(), false);
    Ok(())
}
