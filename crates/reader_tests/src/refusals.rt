// Texts that are no report, each with its first faulty line and the cause.

use crate::comparing::expect_of;
use report_reader::{ReportError, read_report};
use std::alloc::Global;
use std::test::Fail;

// A thousand times the number of a text's first faulty line and the number of its cause; 0 where it is a report, and
// the greatest number where it is too long for this table or memory lacks.
fn fault(alloc: Global, text: &[u8]) -> u64 {
    if text.len() > 1000 {
        return u64::MAX;
    }
    match read_report(alloc, text) {
        Ok(_) => 0,
        Err(ReportError::Refused(fault)) => {
            fault.line as u64 * 1000 + fault.cause.number() as u64
        }
        Err(ReportError::OutOfMemory) => u64::MAX,
    }
}

// Texts, each with that number.
const TEXTS: [(u64, &[u8]); 51] = [
    (0, b"end 0\n"),
    (1015, b""),
    (1015, b"end 1\n"),
    (1015, b"end 18446744073709551615\n"),
    (1014, b"end 18446744073709551616\n"),
    (1014, b"end 00\n"),
    (1014, b"end 0 \n"),
    (1014, b"end\n"),
    (1014, b"end 0"),
    (1014, b"x"),
    (1014, b"\n"),
    (2015, b"end 0\nend 0\n"),
    (2015, b"end 0\n\n"),
    (2015, b"end 0\nx"),
    (2015, b"0 m1.1 drop a = ok\n"),
    (0, b"0 m1.1 drop a = ok\nend 1\n"),
    (2015, b"0 m1.1 drop a = ok\nend 0\n"),
    (2014, b"0 m1.1 drop a = ok\nend 1"),
    (2014, b"0 m1.1 drop a = ok\n0 m1.1 drop a = ok\nend 2\n"),
    (3015, b"0 m1.1 drop a = ok\nend 1\n1 m1.1 drop a = ok\n"),
    (1014, b"1 m1.1 drop a = ok\nend 1\n"),
    (1014, b"00 m1.1 drop a = ok\nend 1\n"),
    (1014, b"0 m1.1 drop a = ok"),
    (1014, b" 0 m1.1 drop a = ok\nend 1\n"),
    (1014, b"0 m1.1 drop a = ok \nend 1\n"),
    (1014, b"0 m1.1 drop  a = ok\nend 1\n"),
    (1014, b"0 m9.1 drop a = ok\nend 1\n"),
    (1014, b"0 c.1 drop a = ok\nend 1\n"),
    (1014, b"0 m1.1 bridge a bridge 1 user 0 = m1\nend 1\n"),
    (0, b"0 m1.70000 drop a = ok\nend 1\n"),
    (0, b"0 m1.4294967295 drop a = ok\nend 1\n"),
    (1014, b"0 m1.4294967296 drop a = ok\nend 1\n"),
    (
        0,
        b"0 p1.1 snap 4294967295 = gone @18446744073709551615\nend 1\n",
    ),
    (
        1014,
        b"0 p1.1 snap 4294967296 = gone @18446744073709551615\nend 1\n",
    ),
    (
        1014,
        b"0 p1.1 snap 4294967295 = gone @18446744073709551616\nend 1\n",
    ),
    (1014, b"0 p1.1 snap 1 = gone @0 @0\nend 1\n"),
    (0, b"0 c.1 resolve 1 = freed m1 m2 @7\nend 1\n"),
    (1014, b"0 c.1 resolve 1 = freed m2 m1 @7\nend 1\n"),
    (1014, b"0 c.1 resolve 1 = freed m1 m1 @7\nend 1\n"),
    (1014, b"0 c.1 resolve 1 = freed p1 p2 @7\nend 1\n"),
    (1014, b"0 c.1 resolve 1 = freed m4294967296\nend 1\n"),
    (0, b"0 c.1 finalise 2 = m2 m1 m1\nend 1\n"),
    (1014, b"0 p1.1 grip s0 = p1 h1 user 256\nend 1\n"),
    (1014, b"0 m1.1 restore h1 = alive\nend 1\n"),
    (
        0,
        b"0 c.0 weaken h1 = ok @0\n1 c.0 restore h1 = alive h2\n2 c.0 restore h2 = cleared\nend 3\n",
    ),
    (
        0,
        b"0 c.0 weaken h4294967295 = ok @18446744073709551615\n1 c.0 restore h2 = cleared\nend 2\n",
    ),
    (
        1014,
        b"0 c.0 weaken h1 = ok @18446744073709551616\n1 c.0 restore h2 = cleared\nend 2\n",
    ),
    (
        1014,
        b"0 c.0 weaken h01 = ok @0\n1 c.0 restore h1 = alive h2\n2 c.0 restore h2 = cleared\nend 3\n",
    ),
    (
        2014,
        b"0 c.0 weaken h1 = ok @0\n0 c.0 restore h1 = alive h2\n2 c.0 restore h2 = cleared\nend 3\n",
    ),
    (
        2014,
        b"0 c.0 weaken h1 = ok @0\n1 c.0 restore h1 = alive h4294967296\n2 c.0 restore h2 = cleared\nend 3\n",
    ),
    (
        2014,
        b"0 c.0 weaken h1 = ok @0\n1 c.0 restore h1 = alive h2 \n2 c.0 restore h2 = cleared\nend 3\n",
    ),
];

#[test]
fn faulty_lines_are_named(rt: HostRuntime) -> Result<(), Fail> {
    let alloc = rt.alloc();
    for (wanted, text) in &TEXTS {
        expect_of(&rt, text, fault(alloc, text), *wanted);
    }
    Ok(())
}
