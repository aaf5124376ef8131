// Comparisons as calls, each of which is proved once.

use byte_streams::ByteSink;
use history_report::write_report;
use joint_model::History;
use std::alloc::{AllocError, Global};
use std::process::Abort;

/// Compares two texts.
pub fn expect_text(rt: &impl Abort, found: &[u8], wanted: &[u8]) {
    assert_eq!(rt; found, wanted);
}

/// Compares two numbers that were found for a text.
pub fn expect_of(rt: &impl Abort, text: &[u8], found: u64, wanted: u64) {
    assert_eq!(rt; found, wanted, "of {text:?}");
}

/// Writes the report of a history, and compares it. Answers `AllocError` where there is no memory for it.
pub fn expect_report<R: Abort>(
    rt: &R,
    alloc: Global,
    history: &History,
    wanted: &[u8],
) -> Result<(), AllocError> {
    let mut out = ByteSink::new(alloc, 4096, Vec::new(alloc));
    if write_report(history, &mut out).is_err() {
        return Err(AllocError);
    }
    expect_text(rt, out.bytes(), wanted);
    Ok(())
}
