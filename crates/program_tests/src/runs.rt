// The top call by worked examples: printed reports, and each status.

use crate::expecting::{Run, SERIAL, THREADS, USAGE, expect_runs};
use std::test::Fail;
use worked_texts::{LINKED, LINKED_REPORT};

/// The command that makes a script of four families, one of each shape, and runs its lines in order.
pub const GENERATED: &[&str] = &["gen", "--seed", "0", "--size", "4", "--mode", "serial"];

/// Its summary: of the objects those stay that the statics g1 and s2 hold.
pub const GENERATED_SUMMARY: &[u8] = b"seed 0 size 4 mode serial
lines 27 cycles 1
made managed 7 peers 6 handles 4
live managed 4 peers 2 handles 2
";

const RUNS: [Run; 48] = [
    (SERIAL, LINKED, 0, 0, 0, LINKED_REPORT),
    (SERIAL, b"", 0, 0, 0, b"end 0\n"),
    // words that are no command
    (&[], b"", 0, 0, 1, USAGE),
    (&["serial", "x"], b"", 0, 0, 1, USAGE),
    // faults of the source
    (SERIAL, LINKED, 1, 0, 2, b""),
    (SERIAL, LINKED, 2, 0, 2, b""),
    // faults of the sink
    (SERIAL, LINKED, 0, 1, 4, b""),
    (
        SERIAL,
        LINKED,
        0,
        41,
        4,
        b"0 m1.1 make user 0 = p1 h1\n1 m1.1 adopt ",
    ),
    (SERIAL, b"", 0, 2, 4, b"e"),
    (&["help"], b"", 0, 6, 4, b"usage"),
    (SERIAL, b"\n", 0, 7, 4, b"line 1"),
    // texts that are no script
    (
        SERIAL,
        b"m1 drop a\nm1 drop i\nm1 jump a\n",
        0,
        0,
        3,
        b"line 2: cause 3 name\n",
    ),
    (
        SERIAL,
        b"m1 bridge a bridge 1 framework 0\n",
        0,
        0,
        3,
        b"line 1: cause 6 kind\n",
    ),
    (SERIAL, b"\n", 0, 0, 3, b"line 1: cause 1 unknown\n"),
    (SERIAL, b"m1", 0, 0, 3, b"line 1: cause 1 unknown\n"),
    (SERIAL, b"m1 bridge", 0, 0, 3, b"line 1: cause 2 arity\n"),
    (
        SERIAL,
        b"m1 bridge a bridge 1 user",
        0,
        0,
        3,
        b"line 1: cause 2 arity\n",
    ),
    (
        SERIAL,
        b"m1 bridge a bridge 1 user ",
        0,
        0,
        3,
        b"line 1: cause 4 number\n",
    ),
    (
        SERIAL,
        b"m1 bridge a bridge 1 user 0",
        0,
        0,
        0,
        b"0 m1.1 make user 0 = p1 h1\n1 m1.1 adopt a bridge 1 p1 h1 = m1 @0\nend 2\n",
    ),
    (
        SERIAL,
        b"m1 bridge h bridge 17 user 16\n",
        0,
        0,
        3,
        b"line 1: cause 5 limit\n",
    ),
    (
        SERIAL,
        b"m1 set h 256 h\n",
        0,
        0,
        3,
        b"line 1: cause 5 limit\n",
    ),
    (
        SERIAL,
        b"m9 drop h\n",
        0,
        0,
        3,
        b"line 1: cause 1 unknown\n",
    ),
    // scripts of one line, and places up to their limits
    (
        SERIAL,
        b"m1 bridge a leafbridge 0 framework 3\n",
        0,
        0,
        0,
        b"0 m1.1 make framework 3 = p1 h1\n1 m1.1 adopt a leafbridge 0 p1 h1 = m1 @0\nend 2\n",
    ),
    (
        SERIAL,
        b"m1 bridge h bridge 16 user 16\n",
        0,
        0,
        0,
        b"0 m1.1 make user 16 = p1 h1\n1 m1.1 adopt h bridge 16 p1 h1 = m1 @0\nend 2\n",
    ),
    (
        SERIAL,
        b"m1 drop a",
        0,
        0,
        0,
        b"0 m1.1 drop a = ok\nend 1\n",
    ),
    (
        SERIAL,
        b"m8 drop h\n",
        0,
        0,
        0,
        b"0 m8.1 drop h = ok\nend 1\n",
    ),
    (
        SERIAL,
        b"m1 set h 255 h\n",
        0,
        0,
        0,
        b"0 m1.1 set h 255 h = empty\nend 1\n",
    ),
    (
        SERIAL,
        b"p8 drop h\n",
        0,
        0,
        0,
        b"0 p8.1 drop h = ok\nend 1\n",
    ),
    (
        SERIAL,
        b"p9 drop h\n",
        0,
        0,
        3,
        b"line 1: cause 1 unknown\n",
    ),
    // each thread has its own variables
    (
        SERIAL,
        b"m1 bridge a bridge 1 user 0
m8 bridge a leafbridge 0 user 2
m1 set a 0 b
m8 set a 0 -
m1 set a 0 a
m8 drop a
m2 set a 0 a
c cycle
",
        0,
        0,
        0,
        b"0 m1.1 make user 0 = p1 h1
1 m1.1 adopt a bridge 1 p1 h1 = m1 @0
2 m8.2 make user 2 = p2 h2
3 m8.2 adopt a leafbridge 0 p2 h2 = m2 @2
4 m1.3 set a 0 b = empty
5 m8.4 set a 0 - = range
6 m1.5 set a 0 a = ok
7 m8.6 drop a = ok
8 m2.7 set a 0 a = empty
9 c.8 snap 1 = 1 freed -
10 c.8 contract 1 = 1 sccs 0 xrefs
11 c.8 mirror 1 = 0 refs @9
12 c.8 weaken h2 = ok @9
13 c.8 begin = 1
14 c.8 sweep = 1 freed p2
15 c.8 restore h2 = cleared
16 c.8 clear 1 = ok
17 c.8 resolve 1 = freed m2 @16
end 18
",
    ),
    // scripts of one thread, and what is no script, have one answer on threads too
    (THREADS, b"", 0, 0, 0, b"end 0\n"),
    (
        THREADS,
        b"m1 bridge a leafbridge 0 framework 3\n",
        0,
        0,
        0,
        b"0 m1.1 make framework 3 = p1 h1\n1 m1.1 adopt a leafbridge 0 p1 h1 = m1 @0\nend 2\n",
    ),
    (
        THREADS,
        b"m1 bridge a bridge 1 framework 0\n",
        0,
        0,
        3,
        b"line 1: cause 6 kind\n",
    ),
    (
        THREADS,
        b"m1 new a leaf 1\n",
        0,
        0,
        3,
        b"line 1: cause 6 kind\n",
    ),
    (
        THREADS,
        b"m1 new a plain 0\nm1 jump a\n",
        0,
        0,
        3,
        b"line 2: cause 1 unknown\n",
    ),
    (
        THREADS,
        b"c sweep\n",
        0,
        0,
        0,
        b"0 c.1 refused sweep = at idle\nend 1\n",
    ),
    (&["threads", "x"], b"", 0, 0, 1, USAGE),
    (THREADS, b"p8 drop h\n", 0, 9, 4, b"0 p8.1 d"),
    // generated scripts, for which nothing is read
    (GENERATED, LINKED, 1, 0, 0, GENERATED_SUMMARY),
    (
        &["gen", "--mode", "threads", "--size", "4", "--seed", "0"],
        b"",
        0,
        0,
        0,
        b"seed 0 size 4 mode threads
lines 27 cycles 1
made managed 7 peers 6 handles 4
live managed 4 peers 2 handles 2
",
    ),
    (
        &[
            "gen",
            "--seed",
            "18446744073709551615",
            "--size",
            "0",
            "--mode",
            "threads",
        ],
        b"",
        0,
        0,
        0,
        b"seed 18446744073709551615 size 0 mode threads
lines 0 cycles 1
made managed 0 peers 0 handles 0
live managed 0 peers 0 handles 0
",
    ),
    (GENERATED, b"", 0, 9, 4, b"seed 0 s"),
    (
        &["gen", "--seed=7", "--size", "4", "--mode", "serial"],
        b"",
        0,
        0,
        1,
        USAGE,
    ),
    (&["--help"], b"", 0, 0, 1, USAGE),
    (
        &["gen", "--seed", "7", "--seed", "7", "--mode", "serial"],
        b"",
        0,
        0,
        1,
        USAGE,
    ),
    (
        &["gen", "--seed", "7", "--size", "2801", "--mode", "serial"],
        b"",
        0,
        0,
        1,
        USAGE,
    ),
    (
        &[
            "gen",
            "--seed",
            "18446744073709551616",
            "--size",
            "4",
            "--mode",
            "serial",
        ],
        b"",
        0,
        0,
        1,
        USAGE,
    ),
    (
        &["gen", "--seed", "07", "--size", "4", "--mode", "serial"],
        b"",
        0,
        0,
        1,
        USAGE,
    ),
];

#[test]
fn each_run_has_its_status_and_its_text(rt: HostRuntime) -> Result<(), Fail> {
    expect_runs(&rt, rt.alloc(), RUNS.as_slice())?;
    Ok(())
}
