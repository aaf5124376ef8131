// The top call on scripts of as many lines and cycles as there may be, and of one more.

use crate::expecting::{SERIAL, THREADS, expect};
use byte_streams::ByteSink;
use std::alloc::{AllocError, Global};
use std::test::Fail;

// The words, lines so many times, the status, and how the text that is written ends.
type Repeated = (
    &'static [&'static str],
    &'static [u8],
    usize,
    u8,
    &'static [u8],
);

// One line of each managed and each peer thread, which make twenty entries.
const SIXTEEN: &[u8] = b"m1 bridge a bridge 1 user 1
m2 new a plain 0
m3 bridge a bridge 1 user 1
m4 new a plain 0
m5 bridge a bridge 1 user 1
m6 new a plain 0
m7 bridge a bridge 1 user 1
m8 new a plain 0
p1 new a 1
p2 copy b a
p3 new a 1
p4 copy b a
p5 new a 1
p6 copy b a
p7 new a 1
p8 copy b a
";

const LARGE_RUNS: [Repeated; 5] = [
    (
        SERIAL,
        b"c cycle\n",
        256,
        0,
        b"1791 c.256 resolve 256 = freed - @1790\nend 1792\n",
    ),
    (SERIAL, b"c cycle\n", 257, 3, b"line 257: cause 7 cycles\n"),
    (
        SERIAL,
        b"m1 drop a\n",
        20_000,
        0,
        b"19999 m1.20000 drop a = ok\nend 20000\n",
    ),
    (
        SERIAL,
        b"m1 drop a\n",
        20_001,
        3,
        b"line 20001: cause 8 lines\n",
    ),
    (THREADS, SIXTEEN, 1_250, 0, b"\nend 25000\n"),
];

// Lines so many times.
fn repeated(alloc: Global, lines: &[u8], often: usize) -> Result<Vec<u8>, AllocError> {
    let mut text = Vec::new(alloc);
    for _ in 0..often {
        text.extend_from_slice(lines)?;
    }
    Ok(text)
}

#[test]
fn large_scripts_are_run_to_their_end(rt: HostRuntime) -> Result<(), Fail> {
    for (words, lines, often, status, end) in &LARGE_RUNS {
        let text = repeated(rt.alloc(), lines, *often)?;
        let mut out = ByteSink::new(rt.alloc(), 4096, Vec::new(rt.alloc()));
        expect(&rt, rt.alloc(), words, &text, 0, &mut out, *status)?;
        assert!(rt; out.bytes().ends_with(end));
    }
    Ok(())
}
