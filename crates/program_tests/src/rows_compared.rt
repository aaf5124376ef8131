// Worked scripts with the listings of their cycles, and a sink that fails in the midst of one.

use crate::expecting::{Run, expect_runs};
use std::test::Fail;
use worked_texts::{CYCLES, MANY_LEAVES};

// The command.
const COMPARE: &[&str] = &["compare"];

// A cycle through both heaps, a managed edge one way and a peer edge back: the first script of `CYCLES`.
const CROSSED_LISTING: &[u8] = b"cycle 1
scc 0 m1
scc 1 m2
xref 0 1
end 1
";

// Two plain objects in a ring, which three bridge objects lead into and which lead to twenty: the script of
// `MANY_LEAVES`.
const MEETING_LISTING: &[u8] = b"cycle 1
scc 0 m3
scc 1 m4
scc 2 m5
scc 3 m6
scc 4 m7
scc 5 m8
scc 6 m9
scc 7 m10
scc 8 m11
scc 9 m12
scc 10 m13
scc 11 m14
scc 12 m15
scc 13 m16
scc 14 m17
scc 15 m18
scc 16 m19
scc 17 m20
scc 18 m21
scc 19 m22
scc 20 m23
scc 21 m24
scc 22 m25
scc 23 -
xref 20 23
xref 21 23
xref 22 23
xref 23 0
xref 23 1
xref 23 2
xref 23 3
xref 23 4
xref 23 5
xref 23 6
xref 23 7
xref 23 8
xref 23 9
xref 23 10
xref 23 11
xref 23 12
xref 23 13
xref 23 14
xref 23 15
xref 23 16
xref 23 17
xref 23 18
xref 23 19
end 1
";

// Two cycles phase by phase and in one line: the first is kept by a variable, and has nothing to list.
const TWICE: &[u8] = b"m1 bridge a bridge 1 user 0
m1 bridge b bridge 1 user 0
m1 set a 0 b
m1 drop b
c snap
c contract
c mirror
c weaken
c mark
c sweep
c restore
c resolve
m1 drop a
c cycle
";

const TWICE_LISTING: &[u8] = b"cycle 1
cycle 2
scc 0 m1
scc 1 m2
xref 0 1
end 2
";

const CROSSED_RUN: [Run; 1] = [(COMPARE, CYCLES, 0, 0, 0, CROSSED_LISTING)];

const RUNS: [Run; 7] = [
    (COMPARE, MANY_LEAVES, 0, 0, 0, MEETING_LISTING),
    (COMPARE, b"", 0, 0, 0, b"end 0\n"),
    (COMPARE, TWICE, 0, 0, 0, TWICE_LISTING),
    (COMPARE, TWICE, 1, 0, 2, b""),
    (
        COMPARE,
        b"m1 jump a\n",
        0,
        0,
        3,
        b"line 1: cause 1 unknown\n",
    ),
    (COMPARE, TWICE, 0, 1, 4, b""),
    (COMPARE, TWICE, 0, 9, 4, b"cycle 1\n"),
];

#[test]
fn cycles_are_listed(rt: HostRuntime) -> Result<(), Fail> {
    expect_runs(&rt, rt.alloc(), CROSSED_RUN.as_slice())?;
    expect_runs(&rt, rt.alloc(), RUNS.as_slice())?;
    Ok(())
}
