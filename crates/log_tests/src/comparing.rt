// Comparisons as calls, each of which is proved once.

use std::process::Abort;

/// Compares two texts.
pub fn expect_text(rt: &impl Abort, found: &[u8], wanted: &[u8]) {
    assert_eq!(rt; found, wanted);
}

/// Compares two numbers that were found at a place of a table.
pub fn expect_at(rt: &impl Abort, place: &[u8], found: u64, wanted: u64) {
    assert_eq!(rt; found, wanted, "at {place:?}");
}
