// Worked scripts with their reference logs, worked logs with what they never release, and logs that are none.

use crate::expecting::{Run, USAGE, expect_runs};
use std::test::Fail;

// The command that writes the log of a script's run.
const GREFS: &[&str] = &["grefs"];

// The command that reads a log.
const LEAKS: &[&str] = &["leaks"];

// A bridge object whose cell is read after a cycle: its handle is replaced.
const REPLACED: &[u8] = b"m1 bridge a bridge 0 user 0
m1 pass a s0
m1 handle a
m1 weak k0 a
m1 drop a
c cycle
m1 read k0
m1 take a
m1 handle a
";

const REPLACED_LOG: &[u8] = b"+g+ h1 p1 grefc 1 gwrefc 0 @0
+w+ h1 p1 grefc 1 gwrefc 1 @10
-g- h1 p1 grefc 0 gwrefc 1 @10
+g+ h2 p1 grefc 1 gwrefc 1 @13
-w- h1 p1 grefc 1 gwrefc 0 @13
end 5
";

const RUNS: [Run; 24] = [
    (GREFS, REPLACED, 0, 0, 0, REPLACED_LOG),
    (LEAKS, REPLACED_LOG, 0, 0, 0, b"strong h2\nweak -\n"),
    // without its last line
    (
        LEAKS,
        b"+g+ h1 p1 grefc 1 gwrefc 0 @0
+w+ h1 p1 grefc 1 gwrefc 1 @10
-g- h1 p1 grefc 0 gwrefc 1 @10
+g+ h2 p1 grefc 1 gwrefc 1 @13
-w- h1 p1 grefc 1 gwrefc 0 @13
",
        0,
        0,
        3,
        b"line 6: cause 13 end\n",
    ),
    // with another count
    (
        LEAKS,
        b"+g+ h1 p1 grefc 1 gwrefc 0 @0
+w+ h1 p1 grefc 1 gwrefc 2 @10
-g- h1 p1 grefc 0 gwrefc 1 @10
+g+ h2 p1 grefc 1 gwrefc 1 @13
-w- h1 p1 grefc 1 gwrefc 0 @13
end 5
",
        0,
        0,
        3,
        b"line 2: cause 12 count\n",
    ),
    (LEAKS, b"end 0\n", 0, 0, 0, b"strong -\nweak -\n"),
    // nothing is made
    (GREFS, b"", 0, 0, 0, b"end 0\n"),
    (GREFS, b"m1 drop a\n", 0, 0, 0, b"end 0\n"),
    // a name's handle goes with its name
    (
        GREFS,
        b"p1 new a 0\np1 global G0 a\np1 wglobal G1 a\np1 unglobal G0\np1 unglobal G1\n",
        0,
        0,
        0,
        b"+g+ h1 p1 grefc 1 gwrefc 0 @1
+w+ h2 p1 grefc 1 gwrefc 1 @2
-g- h1 p1 grefc 0 gwrefc 1 @3
-w- h2 p1 grefc 0 gwrefc 0 @4
end 4
",
    ),
    // what is no script, and what is no log
    (GREFS, b"\n", 0, 0, 3, b"line 1: cause 1 unknown\n"),
    (LEAKS, b"", 0, 0, 3, b"line 1: cause 13 end\n"),
    (LEAKS, b"\n", 0, 0, 3, b"line 1: cause 10 text\n"),
    (LEAKS, b"end 0", 0, 0, 3, b"line 1: cause 10 text\n"),
    (LEAKS, b"end 1\n", 0, 0, 3, b"line 1: cause 13 end\n"),
    (LEAKS, b"end 0\nend 0\n", 0, 0, 3, b"line 2: cause 13 end\n"),
    (
        LEAKS,
        b"-g- h1 p1 grefc 0 gwrefc 0 @0\nend 1\n",
        0,
        0,
        3,
        b"line 1: cause 11 mark\n",
    ),
    // words that are no command
    (&["grefs", "x"], b"", 0, 0, 1, USAGE),
    (&["leaks", "x"], b"", 0, 0, 1, USAGE),
    // faults of the source and of the sink
    (GREFS, REPLACED, 1, 0, 2, b""),
    (LEAKS, REPLACED_LOG, 1, 0, 2, b""),
    (GREFS, REPLACED, 0, 1, 4, b""),
    (GREFS, REPLACED, 0, 9, 4, b"+g+ h1 p"),
    (LEAKS, REPLACED_LOG, 0, 1, 4, b""),
    (LEAKS, REPLACED_LOG, 0, 9, 4, b"strong h"),
    (LEAKS, b"\n", 0, 7, 4, b"line 1"),
];

#[test]
fn logs_are_written_and_judged(rt: HostRuntime) -> Result<(), Fail> {
    expect_runs(&rt, rt.alloc(), RUNS.as_slice())?;
    Ok(())
}
