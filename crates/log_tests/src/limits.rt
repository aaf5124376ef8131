// Texts that are longer than a limit: which line is named, and why.

use crate::comparing::expect_at;
use gref_log::long_line;
use log_text::LogError;
use std::alloc::Global;
use std::test::Fail;

// A text, a limit, the number of the line that is named, and its cause: 9 where it holds the first byte behind the
// limit.
const LIMITS: [(&[u8], usize, u32, u32); 8] = [
    (b"xxxx", 3, 1, 9),
    (b"end 0\n", 5, 1, 9),
    (b"end 0\nxxxx", 8, 2, 9),
    (b"end 0\nend 0\nxx", 12, 2, 13),
    (b"x\nxxxx", 4, 1, 10),
    (b"\nx", 1, 1, 10),
    (b"+g+ h1 p1 grefc 1 gwrefc 0 @0\nxxxx", 31, 2, 9),
    (b"-g- h1 p1 grefc 1 gwrefc 0 @0\nxxxx", 31, 1, 11),
];

// The line that is named, and its cause; 0 and 0 where none is.
fn named(alloc: Global, text: &[u8], most: usize) -> (u32, u32) {
    if most >= text.len() || text.len() > 100 {
        return (0, 0);
    }
    match long_line(alloc, text, most) {
        Ok(line) => (line, 9),
        Err(LogError::OutOfMemory) => (0, 0),
        Err(LogError::Refused { line, cause }) => (line, cause.number()),
    }
}

#[test]
fn lines_before_a_limit_are_judged_first(rt: HostRuntime) -> Result<(), Fail> {
    for (text, most, line, cause) in &LIMITS {
        let (found, why) = named(rt.alloc(), text, *most);
        expect_at(&rt, text, found as u64, *line as u64);
        expect_at(&rt, text, why as u64, *cause as u64);
    }
    Ok(())
}
