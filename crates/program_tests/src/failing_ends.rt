// A source that fails in the midst of a script, and a sink that fails in the midst of a report, a summary or the line
// of a refusal.

ghost use Rattle.std.specs.Prelude.{Some};

use crate::expecting::{SERIAL, status_of};
use crate::runs::{GENERATED, GENERATED_SUMMARY};
use bridge_script::FreeTurn;
use byte_streams::{ByteSink, ByteSource, Failed, Source};
use std::alloc::{AllocError, Global};
use std::process::Abort;
use std::sync::Wait;
use std::test::Fail;
use std::thread::Threads;
use worked_texts::{ACTIVITY, parts_of};

// A source in memory that gives at most a hundred bytes a call.
#[derive(Drop)]
struct Hundreds {
    source: ByteSource,
}

impl Source for Hundreds {
    ghost left = { λ s. Some s.source.left };

    ghost faults = { λ s. s.source.faults };

    fn read(&mut self, buf: &mut [u8]) -> Result<usize, Failed> {
        let most = buf.len().min(100);
        self.source.read(&mut buf[..most])
    }
}

// The number of the source's call that fails and of the sink's, 0 for none; the status, and how many bytes of the text
// that is due are written, the first ones. The source gives a hundred bytes a call, and the sink takes seven.
type Ending = (u32, u32, u8, usize);

// All bytes that are due.
const WHOLE: usize = usize::MAX;

// Of a script of 356 bytes, which are read by four calls, and a fifth one finds their end.
const OF_A_REPORT: [Ending; 9] = [
    (1, 0, 2, 0),
    (2, 0, 2, 0),
    (3, 0, 2, 0),
    (5, 0, 2, 0),
    (6, 0, 0, WHOLE),
    (0, 1, 4, 0),
    (0, 2, 4, 7),
    (0, 10, 4, 63),
    (0, 50, 4, 343),
];

// Of a summary of 110 bytes, for which nothing is read, and which sixteen calls write.
const OF_A_SUMMARY: [Ending; 5] = [
    (1, 0, 0, WHOLE),
    (0, 1, 4, 0),
    (0, 2, 4, 7),
    (0, 10, 4, 63),
    (0, 50, 0, WHOLE),
];

// Of a line of 24 bytes, which four calls write.
const OF_A_REFUSAL: [Ending; 5] = [
    (1, 0, 2, 0),
    (0, 1, 4, 0),
    (0, 2, 4, 7),
    (0, 4, 4, 21),
    (0, 10, 3, WHOLE),
];

// The source of a text. Its call with that number fails, 0 for none.
fn hundreds_of(alloc: Global, text: &[u8], read_fault: u32) -> Result<Hundreds, AllocError> {
    let fails = [read_fault].to_vec(alloc)?;
    let source = ByteSource::new(text.to_vec(alloc)?, fails);
    Ok(Hundreds { source })
}

// Runs the command over the text with each of these ends, and compares the status and what is written.
fn expect_endings<R: Threads + Wait + Sync + Abort>(
    rt: &R,
    alloc: Global,
    words: &[&str],
    text: &[u8],
    due: &[u8],
    endings: &[Ending],
) -> Result<(), AllocError> {
    for (read_fault, write_fault, status, len) in endings {
        let fails = [*write_fault].to_vec(alloc)?;
        let source = hundreds_of(alloc, text, *read_fault)?;
        let mut out = ByteSink::new(alloc, 7, fails);
        let found = status_of(rt, alloc, words, source, &mut out, &FreeTurn)?;
        let wanted = (*len).min(due.len());
        assert_eq!(rt; (found, out.bytes().len()), (*status, wanted));
        assert!(rt; due.starts_with(out.bytes()));
    }
    Ok(())
}

#[test]
fn an_end_that_fails_is_told_by_the_status(rt: HostRuntime) -> Result<(), Fail> {
    let alloc = rt.alloc();
    let report = ACTIVITY.strip_prefix(b"#").and_then(|row| parts_of(row));
    assert!(rt; report.is_some());
    if let Some((_, script, report)) = report {
        expect_endings(&rt, alloc, SERIAL, script, report, OF_A_REPORT.as_slice())?;
    }
    let refused = b"line 1: cause 1 unknown\n";
    expect_endings(
        &rt,
        alloc,
        GENERATED,
        b"",
        GENERATED_SUMMARY,
        OF_A_SUMMARY.as_slice(),
    )?;
    expect_endings(&rt, alloc, SERIAL, b"\n", refused, OF_A_REFUSAL.as_slice())?;
    Ok(())
}
