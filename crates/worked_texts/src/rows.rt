// All rows, and the parts of one.

use crate::rows_cell_read::CELL_READ;
use crate::rows_collected::COLLECTED;
use crate::rows_cycle_limit::CYCLE_LIMIT;
use crate::rows_cycles::CYCLES;
use crate::rows_lines::{ACTIVITY, LINES};
use crate::rows_many_leaves::MANY_LEAVES;
use crate::rows_read_and_dropped::READ_AND_DROPPED;
use crate::rows_read_and_stored::READ_AND_STORED;
use crate::rows_sliced::{BEGUN, SLICED};
use crate::rows_weakly_read::WEAKLY_READ;

/// How many subjects there are.
pub const SUBJECTS: u32 = 12;

/// The rows of a subject, by its number from 0 on, behind one another and each after its `#`; none from `SUBJECTS` on.
pub fn rows_of(subject: u32) -> &'static [u8] {
    match subject {
        0 => CYCLES,
        1 => LINES,
        2 => ACTIVITY,
        3 => CYCLE_LIMIT,
        4 => MANY_LEAVES,
        5 => COLLECTED,
        6 => SLICED,
        7 => BEGUN,
        8 => WEAKLY_READ,
        9 => READ_AND_DROPPED,
        10 => READ_AND_STORED,
        11 => CELL_READ,
        _ => b"",
    }
}

/// The status, the script, and what is written, of a row without its `#`: a space, the status and a newline, the
/// script, `=` and a newline, and what is written. None where the text is no row.
pub fn parts_of(row: &[u8]) -> Option<(u8, &[u8], &[u8])> {
    let at = row.iter().position(|b| *b == b'=')?;
    if at > row.len() {
        return None;
    }
    let [b' ', status, b'\n', script @ ..] = &row[..at] else {
        return None;
    };
    let [_, b'\n', written @ ..] = &row[at..] else {
        return None;
    };
    Some((status.saturating_sub(b'0'), script, written))
}
