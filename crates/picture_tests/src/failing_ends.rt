// The top call with ends that fail: a source in the midst of a report, and a sink in the midst of a picture or of the
// line of a refusal; and with no memory, by hand.

ghost use Rattle.std.specs.Prelude.{Some};

use crate::drawn::{HELD, REPORT, source_of, status_of};
use byte_streams::{ByteSink, ByteSource, Failed, Source};
use std::alloc::{AllocError, Global};
use std::process::Abort;
use std::test::Fail;

// A source in memory that gives at most forty bytes a call.
#[derive(Drop)]
struct Forties {
    source: ByteSource,
}

impl Source for Forties {
    ghost left = { λ s. Some s.source.left };

    ghost faults = { λ s. s.source.faults };

    fn read(&mut self, buf: &mut [u8]) -> Result<usize, Failed> {
        let most = buf.len().min(40);
        self.source.read(&mut buf[..most])
    }
}

// The number of the source's call that fails and of the sink's, 0 for none; the status, and how many bytes of the text
// that is due are written, the first ones. The source gives forty bytes a call, and the sink takes seven.
type Ending = (u32, u32, u8, usize);

// All bytes that are due.
const WHOLE: usize = usize::MAX;

// Of a report of 90 bytes, which are read by three calls, and a fourth one finds their end; and of its picture of 364
// bytes.
const OF_A_PICTURE: [Ending; 9] = [
    (1, 0, 2, 0),
    (2, 0, 2, 0),
    (3, 0, 2, 0),
    (4, 0, 2, 0),
    (5, 0, 0, WHOLE),
    (0, 1, 4, 0),
    (0, 2, 4, 7),
    (0, 10, 4, 63),
    (0, 52, 4, 357),
];

// Of a line of 14 bytes, which two calls write.
const OF_A_REFUSAL: [Ending; 4] = [(3, 0, 2, 0), (0, 1, 4, 0), (0, 2, 4, 7), (0, 3, 3, WHOLE)];

// Draws what the word asks for with each of these ends, and compares the status and what is written.
fn expect_endings<R: Abort>(
    rt: &R,
    alloc: Global,
    word: &'static str,
    due: &[u8],
    endings: &[Ending],
) -> Result<(), AllocError> {
    for (read_fault, write_fault, status, len) in endings {
        let fails = [*write_fault].to_vec(alloc)?;
        let source = source_of(alloc, REPORT, *read_fault)?;
        let mut out = ByteSink::new(alloc, 7, fails);
        let found = status_of(alloc, &[word], Forties { source }, &mut out)?;
        let wanted = (*len).min(due.len());
        assert_eq!(rt; (found, out.bytes().len()), (*status, wanted));
        assert!(rt; due.starts_with(out.bytes()));
    }
    Ok(())
}

#[test]
fn an_end_that_fails_is_told_by_the_status(rt: HostRuntime) -> Result<(), Fail> {
    let alloc = rt.alloc();
    expect_endings(&rt, alloc, "1", HELD, OF_A_PICTURE.as_slice())?;
    expect_endings(&rt, alloc, "3", b"no such entry\n", OF_A_REFUSAL.as_slice())?;
    Ok(())
}

// By hand each allocation fails in turn (`rt try --test --fail-alloc 1..`): the picture is whole, or the status is 5
// and nothing is written.
#[test]
fn a_picture_without_memory_is_none(rt: HostRuntime) -> Result<(), Fail> {
    let words = &["0", "1", "--around", "m1", "2"];
    let source = source_of(rt.alloc(), REPORT, 0)?;
    let mut out = ByteSink::new(rt.alloc(), 7, Vec::new(rt.alloc()));
    let found = status_of(rt.alloc(), words, source, &mut out)?;
    if found == 5 {
        assert_eq!(rt; out.bytes(), b"".as_slice());
    } else {
        assert_eq!(rt; found, 0);
        assert!(rt; out.bytes().starts_with(b"digraph heaps {"));
        assert!(rt; out.bytes().ends_with(b"\n}\n"));
    }
    Ok(())
}
