// Texts of logs, and texts that are none. What is compared stands in one table, which one loop reads.

use crate::comparing::{expect_at, expect_text};
use byte_streams::ByteSink;
use log_text::{
    Log, LogError, read_log, unreleased, write_log, write_log_refusal, write_unreleased,
};
use std::alloc::{AllocError, Global};
use std::test::Fail;

// In each row what is answered of a text, and the text; a stroke stands for a newline. Of a log it is what was never
// released, else why it is refused.
const ANSWERS: &[u8] =
    b"strong h2/weak -/|+g+ h1 p1 grefc 1 gwrefc 0 @0/+w+ h1 p1 grefc 1 gwrefc 1 @10/-g- h1 p1 grefc 0 gwrefc 1 @10/+g+ h2 p1 grefc 1 gwrefc 1 @13/-w- h1 p1 grefc 1 gwrefc 0 @13/end 5/
line 6: cause 13 end/|+g+ h1 p1 grefc 1 gwrefc 0 @0/+w+ h1 p1 grefc 1 gwrefc 1 @10/-g- h1 p1 grefc 0 gwrefc 1 @10/+g+ h2 p1 grefc 1 gwrefc 1 @13/-w- h1 p1 grefc 1 gwrefc 0 @13/
line 2: cause 12 count/|+g+ h1 p1 grefc 1 gwrefc 0 @0/+w+ h1 p1 grefc 1 gwrefc 2 @10/-g- h1 p1 grefc 0 gwrefc 1 @10/end 3/
strong -/weak -/|end 0/
strong h2/weak -/|+g+ h1 p1 grefc 1 gwrefc 0 @0/+g+ h2 p2 grefc 2 gwrefc 0 @3/+w+ h3 p2 grefc 2 gwrefc 1 @4/+w+ h1 p1 grefc 2 gwrefc 2 @10/-g- h1 p1 grefc 1 gwrefc 2 @10/-w- h1 p1 grefc 1 gwrefc 1 @13/-w- h3 p2 grefc 1 gwrefc 0 @16/end 7/
strong h7 h20/weak h4 h7/|+g+ h7 p1 grefc 1 gwrefc 0 @0/+w+ h7 p1 grefc 1 gwrefc 1 @0/+g+ h3 p2 grefc 2 gwrefc 1 @1/+g+ h20 p3 grefc 3 gwrefc 1 @2/-g- h3 p2 grefc 2 gwrefc 1 @3/+w+ h4 p3 grefc 2 gwrefc 2 @4/end 6/
strong h4294967295/weak -/|+g+ h4294967295 p4294967295 grefc 1 gwrefc 0 @18446744073709551615/end 1/
line 1: cause 13 end/|
line 1: cause 10 text/|end 0
line 1: cause 13 end/|end 1/
line 1: cause 10 text/|end 00/
line 1: cause 10 text/|end/
line 1: cause 10 text/|end 0 /
line 1: cause 10 text/|/
line 2: cause 13 end/|end 0/end 0/
line 2: cause 13 end/|end 0/x
line 2: cause 13 end/|end 0//
line 2: cause 13 end/|+g+ h1 p1 grefc 1 gwrefc 0 @0/
line 2: cause 13 end/|+g+ h1 p1 grefc 1 gwrefc 0 @0/end 2/
line 1: cause 10 text/|+g+ h1 p1 grefc 1 gwrefc 0 @0
line 1: cause 10 text/|+g+  h1 p1 grefc 1 gwrefc 0 @0/
line 1: cause 10 text/|+g+ h01 p1 grefc 1 gwrefc 0 @0/
line 1: cause 10 text/|+g+ h4294967296 p1 grefc 1 gwrefc 0 @0/
line 1: cause 10 text/|+g+ h1 p1 grefc 4294967296 gwrefc 0 @0/
line 1: cause 10 text/|+g+ h1 p1 grefc 1 gwrefc 0 @18446744073709551616/
line 1: cause 11 mark/|-w- h1 p1 grefc 0 gwrefc 0 @0/end 1/
line 2: cause 11 mark/|+g+ h1 p1 grefc 1 gwrefc 0 @0/+g+ h1 p1 grefc 2 gwrefc 0 @1/end 2/
line 2: cause 11 mark/|+g+ h1 p1 grefc 1 gwrefc 0 @0/-g- h1 p2 grefc 0 gwrefc 0 @1/end 2/
line 2: cause 11 mark/|+g+ h1 p1 grefc 1 gwrefc 0 @0/-w- h1 p1 grefc 1 gwrefc 0 @1/end 2/
line 2: cause 12 count/|+g+ h1 p1 grefc 1 gwrefc 0 @0/-g- h1 p1 grefc 1 gwrefc 0 @1/end 2/
line 1: cause 12 count/|+w+ h1 p1 grefc 1 gwrefc 0 @0/end 1/";

// A text with its newlines.
fn unfolded(alloc: Global, text: &[u8]) -> Result<Vec<u8>, AllocError> {
    text.iter()
        .map(|b| if *b == b'/' { b'\n' } else { *b })
        .collect(alloc)
}

fn read(alloc: Global, text: &[u8]) -> Result<Log, LogError> {
    if text.len() >= 4_294_967_295 {
        return Err(LogError::OutOfMemory);
    }
    read_log(alloc, text)
}

// What is answered of a text, in pieces of three bytes.
fn answer(alloc: Global, text: &[u8]) -> Result<ByteSink, AllocError> {
    let mut sink = ByteSink::new(alloc, 3, Vec::new(alloc));
    let _ = match read(alloc, text) {
        Ok(log) => write_unreleased(&unreleased(alloc, &log)?, &mut sink),
        Err(LogError::Refused { line, cause }) => write_log_refusal(line, cause, &mut sink),
        Err(LogError::OutOfMemory) => return Err(AllocError),
    };
    Ok(sink)
}

#[test]
fn each_text_has_its_answer(rt: HostRuntime) -> Result<(), Fail> {
    for row in ANSWERS.split(|b| *b == b'\n') {
        let Some(at) = row.iter().position(|b| *b == b'|') else {
            continue;
        };
        let (wanted, text) = row.split_at(at);
        let Some((_, text)) = text.split_first() else {
            continue;
        };
        let text = unfolded(rt.alloc(), text)?;
        let wanted = unfolded(rt.alloc(), wanted)?;
        let sink = answer(rt.alloc(), &text)?;
        expect_text(&rt, sink.bytes(), &wanted);
    }
    Ok(())
}

const GONE: &[u8] = b"+g+ h5 p9 grefc 1 gwrefc 0 @3\n-g- h5 p9 grefc 0 gwrefc 0 @8\nend 2\n";

#[test]
fn a_log_is_written_up_to_the_fault(rt: HostRuntime) -> Result<(), Fail> {
    let Ok(log) = read(rt.alloc(), GONE) else {
        return Err(Fail::from(AllocError));
    };
    expect_at(&rt, b"lines", log.len(), 2);
    let entry = log.line(1).map_or(0, |line| line.entry);
    expect_at(&rt, b"entry", entry, 8);
    expect_at(&rt, b"past the end", log.line(2).is_none() as u64, 1);
    let mut whole = ByteSink::new(rt.alloc(), 7, Vec::new(rt.alloc()));
    expect_at(
        &rt,
        b"written",
        write_log(&log, &mut whole).is_ok() as u64,
        1,
    );
    expect_text(&rt, whole.bytes(), GONE);
    let mut part = ByteSink::new(rt.alloc(), 7, [3].to_vec(rt.alloc())?);
    expect_at(
        &rt,
        b"failed",
        write_log(&log, &mut part).is_err() as u64,
        1,
    );
    expect_text(&rt, part.bytes(), b"+g+ h5 p9 gref");
    Ok(())
}
