// Reports that a source gives in pieces, however small, and sources that fail in the midst of one.

ghost use Rattle.std.specs.Prelude.{Some};

use crate::comparing::{expect_of, expect_report};
use crate::written_again::cycles;
use byte_streams::{ByteSource, Failed, Source};
use limited_reports::{TakeError, take_report};
use std::alloc::{AllocError, Global};
use std::process::Abort;
use std::test::Fail;

// A source in memory that gives at most a byte and so many more a call.
#[derive(Drop)]
struct Portions {
    source: ByteSource,
    more: u16,
}

impl Source for Portions {
    ghost left = { λ s. Some s.source.left };

    ghost faults = { λ s. s.source.faults };

    fn read(&mut self, buf: &mut [u8]) -> Result<usize, Failed> {
        let most = buf.len().min(1 + self.more as usize);
        self.source.read(&mut buf[..most])
    }
}

// Its lines end behind 27, 50, 76, 100 and 106 bytes.
const REPORT: &[u8] = b"0 m1.1 new a plain 16 = m1
1 m1.2 set a 15 a = ok
2 m1.3 set a 16 - = range
3 m1.4 get b a 0 = null
end 4
";

// The same with a third line of no entry, as long.
const WRONG: &[u8] = b"0 m1.1 new a plain 16 = m1
1 m1.2 set a 15 a = ok
2 m1.3 set a 16 - = ranks
3 m1.4 get b a 0 = null
end 4
";

// The same with bytes behind the last line, and without the last line or its newline.
const LONGER: &[u8] = b"0 m1.1 new a plain 16 = m1
1 m1.2 set a 15 a = ok
2 m1.3 set a 16 - = range
3 m1.4 get b a 0 = null
end 4
end 4
";

const ENDLESS: &[u8] = b"0 m1.1 new a plain 16 = m1
1 m1.2 set a 15 a = ok
2 m1.3 set a 16 - = range
3 m1.4 get b a 0 = null
";

const UNCLOSED: &[u8] = b"0 m1.1 new a plain 16 = m1
1 m1.2 set a 15 a = ok
2 m1.3 set a 16 - = range
3 m1.4 get b a 0 = null
end 4";

// The source of a text. Its call with that number fails, 0 for none.
fn source_of(alloc: Global, text: &[u8], more: u16, fails: u32) -> Result<Portions, AllocError> {
    let mut bytes = Vec::new(alloc);
    bytes.extend_from_slice(text)?;
    let source = ByteSource::new(bytes, vec![in alloc; fails]?);
    Ok(Portions { source, more })
}

// What is answered in place of a report: a thousand times the line that is refused and the number of its cause, a
// thousand times the line that is too long, or 1 where a read failed.
fn number_of(error: TakeError) -> u64 {
    match error {
        TakeError::Refused(fault) => fault.line as u64 * 1000 + fault.cause.number() as u64,
        TakeError::Long { line } => line as u64 * 1000,
        TakeError::ReadFault => 1,
        TakeError::OutOfMemory => u64::MAX,
    }
}

// Takes a report from such a source, and compares that number, which is 0 where the report is read; then it is written
// as it was.
fn expect_taken<R: Abort>(
    rt: &R,
    alloc: Global,
    text: &[u8],
    limit: u16,
    more: u16,
    fails: u32,
    wanted: u64,
) -> Result<(), AllocError> {
    let mut src = source_of(alloc, text, more, fails)?;
    let taken = take_report(alloc, &mut src, limit as usize);
    drop(src);
    match taken {
        Ok(history) => {
            expect_of(rt, text, 0, wanted);
            expect_report(rt, alloc, &history, text)
        }
        Err(TakeError::OutOfMemory) => Err(AllocError),
        Err(error) => {
            expect_of(rt, text, number_of(error), wanted);
            Ok(())
        }
    }
}

// Of each text a limit of bytes and that number.
const LIMITS: [(&[u8], u16, u64); 26] = [
    (REPORT, 0, 1000),
    (REPORT, 26, 1000),
    (REPORT, 27, 2000),
    (REPORT, 49, 2000),
    (REPORT, 50, 3000),
    (REPORT, 75, 3000),
    (REPORT, 76, 4000),
    (REPORT, 99, 4000),
    (REPORT, 100, 5000),
    (REPORT, 105, 5000),
    (REPORT, 106, 0),
    (REPORT, 107, 0),
    (REPORT, 60_000, 0),
    (WRONG, 49, 2000),
    (WRONG, 50, 3000),
    (WRONG, 75, 3000),
    (WRONG, 76, 3014),
    (WRONG, 106, 3014),
    (WRONG, 107, 3014),
    (LONGER, 105, 5000),
    (LONGER, 106, 6000),
    (LONGER, 112, 6015),
    (ENDLESS, 99, 4000),
    (ENDLESS, 100, 5015),
    (UNCLOSED, 104, 5000),
    (UNCLOSED, 105, 5014),
];

#[test]
fn reports_in_small_pieces_are_taken(rt: HostRuntime) -> Result<(), Fail> {
    let alloc = rt.alloc();
    for (text, limit, wanted) in &LIMITS {
        for more in [0, 6, u16::MAX] {
            expect_taken(&rt, alloc, text, *limit, more, 0, *wanted)?;
        }
    }
    Ok(())
}

// How many bytes the source gives a call beside the first one, a limit, the call that fails, and that number. The
// report's 106 bytes are 106 calls by one, and 16 by seven; one more call finds the end.
const FAULTS: [(u16, u16, u32, u64); 16] = [
    (0, 60_000, 1, 1),
    (0, 60_000, 27, 1),
    (0, 60_000, 60, 1),
    (0, 60_000, 106, 1),
    (0, 60_000, 107, 1),
    (0, 60_000, 108, 0),
    (6, 60_000, 1, 1),
    (6, 60_000, 2, 1),
    (6, 60_000, 9, 1),
    (6, 60_000, 16, 1),
    (6, 60_000, 17, 1),
    (6, 60_000, 18, 0),
    // the limit's byte is the last, and a call behind it finds the end
    (6, 106, 17, 1),
    (6, 106, 18, 0),
    // of a hundred bytes by fifteen calls, and the one that takes a byte behind them
    (6, 100, 16, 1),
    (6, 100, 17, 5000),
];

#[test]
fn a_read_that_fails_is_answered(rt: HostRuntime) -> Result<(), Fail> {
    let alloc = rt.alloc();
    for (more, limit, fails, wanted) in &FAULTS {
        expect_taken(&rt, alloc, REPORT, *limit, *more, *fails, *wanted)?;
    }
    Ok(())
}

#[test]
fn a_long_report_is_taken(rt: HostRuntime) -> Result<(), Fail> {
    let alloc = rt.alloc();
    let text = cycles(alloc, 256)?;
    let bytes = text.as_str().as_bytes();
    for more in [0, 6, 255, u16::MAX] {
        expect_taken(&rt, alloc, bytes, 60_000, more, 0, 0)?;
    }
    // its last line, the 1,793rd, has nine bytes
    expect_taken(&rt, alloc, bytes, 55_693, 255, 0, 0)?;
    expect_taken(&rt, alloc, bytes, 55_692, 255, 0, 1_793_000)?;
    Ok(())
}
