// Worked reports with what their histories are found to be, and texts that are no reports.

use crate::expecting::{Run, SERIAL, THREADS, USAGE, expect_runs, expect_text, written_at};
use bridge_script::FreeTurn;
use std::test::Fail;
use worked_texts::{LINKED, LINKED_REPORT};

// The command that judges a report.
const CHECK: &[&str] = &["check"];

// The report of a cycle without contraction, mirror and clearing: nobody calls like that.
const UNMIRRORED: &[u8] = b"0 m1.1 make user 0 = p1 h1
1 m1.1 adopt a bridge 1 p1 h1 = m1 @0
2 m1.2 make user 0 = p2 h2
3 m1.2 adopt b bridge 1 p2 h2 = m2 @2
4 m1.3 set a 0 b = ok
5 m1.4 drop b = ok
6 c.5 snap 1 = 0 freed -
7 c.5 begin = 1
8 c.5 sweep = 1 freed -
9 c.5 resolve 1 = freed -
10 m1.6 drop a = ok
11 c.7 snap 2 = 2 freed -
12 c.7 begin = 2
13 c.7 sweep = 2 freed p1 p2
14 c.7 resolve 2 = freed m1 m2
end 15
";

// A ring through both heaps, of which the sweep frees one of two dead peers.
const HALF_SWEPT: &[u8] = b"0 m1.1 make user 1 = p1 h1
1 m1.1 adopt a bridge 1 p1 h1 = m1 @0
2 m1.2 make user 1 = p2 h2
3 m1.2 adopt b bridge 1 p2 h2 = m2 @2
4 m1.3 set a 0 b = ok
5 m1.4 lend a s0 = h1
6 m1.4 land h1 s0 = p1 @5
7 m1.5 lend b s1 = h2
8 m1.5 land h2 s1 = p2 @7
9 p1.6 load a s0 = p1
10 p1.7 load b s1 = p2
11 p1.8 set b 0 a = ok
12 p1.9 drop a = ok
13 p1.10 drop b = ok
14 p1.11 store s0 - = ok
15 p1.12 store s1 - = ok
16 m1.13 drop a = ok
17 m1.14 drop b = ok
18 c.15 snap 1 = 2 freed -
19 c.15 contract 1 = 2 sccs 1 xrefs
20 c.15 mirror 1 = 1 refs @18
21 c.15 weaken h1 = ok @18
22 c.15 weaken h2 = ok @18
23 c.15 begin = 1
24 c.15 sweep = 1 freed p1
25 c.15 restore h1 = cleared
26 c.15 restore h2 = cleared
27 c.15 clear 1 = ok
28 c.15 resolve 1 = freed m1 m2 @27
end 29
";

// A release that cites another entry than the one by which the handle was given.
const CITES_ANOTHER: &[u8] = b"0 m1.1 make user 2 = p1 h1
1 m1.1 adopt a bridge 1 p1 h1 = m1 @0
2 m1.2 lend a s0 = h1
3 m1.2 land h1 s0 = p1 @2
4 m1.3 give a = h1
5 m1.3 release h1 = ok @3
6 m1.4 handle a = plain
7 m1.5 grip s0 = p1 h2 user 2
8 m1.5 meet b p1 h2 user 2 = m2 new @7
9 m1.6 grip s0 = p1 h3 user 2
10 m1.6 meet c p1 h3 user 2 = m2 twin @9
11 m1.6 release h3 = ok @10
12 m1.7 handle b = h2
13 m1.8 grip s9 = null
end 14
";

// The ring again, whose cycle ends after its first restore.
const CUT: &[u8] = b"0 m1.1 make user 1 = p1 h1
1 m1.1 adopt a bridge 1 p1 h1 = m1 @0
2 m1.2 make user 1 = p2 h2
3 m1.2 adopt b bridge 1 p2 h2 = m2 @2
4 m1.3 set a 0 b = ok
5 m1.4 lend a s0 = h1
6 m1.4 land h1 s0 = p1 @5
7 m1.5 lend b s1 = h2
8 m1.5 land h2 s1 = p2 @7
9 p1.6 load a s0 = p1
10 p1.7 load b s1 = p2
11 p1.8 set b 0 a = ok
12 p1.9 drop a = ok
13 p1.10 drop b = ok
14 p1.11 store s0 - = ok
15 p1.12 store s1 - = ok
16 m1.13 drop a = ok
17 m1.14 drop b = ok
18 c.15 snap 1 = 2 freed -
19 c.15 contract 1 = 2 sccs 1 xrefs
20 c.15 mirror 1 = 1 refs @18
21 c.15 weaken h1 = ok @18
22 c.15 weaken h2 = ok @18
23 c.15 begin = 1
24 c.15 sweep = 1 freed p1 p2
25 c.15 restore h1 = cleared
end 26
";

const RUNS: [Run; 19] = [
    (CHECK, b"end 0\n", 0, 0, 0, b"legal 0\n"),
    (CHECK, LINKED_REPORT, 0, 0, 0, b"legal 25\n"),
    (CHECK, UNMIRRORED, 0, 0, 0, b"illegal 7 caller\n"),
    (CHECK, HALF_SWEPT, 0, 0, 0, b"illegal 24 reply\n"),
    (CHECK, CITES_ANOTHER, 0, 0, 0, b"illegal 5 cite\n"),
    (CHECK, CUT, 0, 0, 0, b"illegal end\n"),
    (CHECK, b"end 1\n", 0, 0, 3, b"line 1: cause 15 ending\n"),
    (CHECK, b"", 0, 0, 3, b"line 1: cause 15 ending\n"),
    // what is no report
    (CHECK, b"\n", 0, 0, 3, b"line 1: cause 14 form\n"),
    (CHECK, LINKED, 0, 0, 3, b"line 1: cause 14 form\n"),
    (CHECK, b"end 0", 0, 0, 3, b"line 1: cause 14 form\n"),
    (
        CHECK,
        b"end 0\nend 0\n",
        0,
        0,
        3,
        b"line 2: cause 15 ending\n",
    ),
    // words that are no command
    (&["check", "x"], b"", 0, 0, 1, USAGE),
    (&["check", "serial"], LINKED, 0, 0, 1, USAGE),
    // faults of the source and of the sink
    (CHECK, LINKED_REPORT, 1, 0, 2, b""),
    (CHECK, LINKED_REPORT, 0, 1, 4, b""),
    (CHECK, LINKED_REPORT, 0, 9, 4, b"legal 25"),
    (CHECK, CUT, 0, 5, 4, b"ille"),
    (CHECK, b"\n", 0, 7, 4, b"line 1"),
];

#[test]
fn reports_are_judged(rt: HostRuntime) -> Result<(), Fail> {
    expect_runs(&rt, rt.alloc(), RUNS.as_slice())?;
    Ok(())
}

// What the run of a script writes is the report of a lawful history, whatever the schedule.
#[test]
fn a_runs_own_report_is_legal(rt: HostRuntime) -> Result<(), Fail> {
    for words in [SERIAL, THREADS] {
        let report = written_at(&rt, rt.alloc(), words, LINKED, &FreeTurn)?;
        let out = written_at(&rt, rt.alloc(), CHECK, report.bytes(), &FreeTurn)?;
        expect_text(&rt, out.bytes(), b"legal 25\n");
    }
    Ok(())
}
