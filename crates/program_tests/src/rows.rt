// Worked scripts, each with its status and what is written for it.

use crate::expecting::{SERIAL, expect, expect_text};
use byte_streams::ByteSink;
use std::alloc::{AllocError, Global};
use std::process::Abort;
use std::sync::Wait;
use std::test::Fail;
use std::thread::Threads;
use worked_texts::{SUBJECTS, parts_of, rows_of};

// Runs the script of each row, and compares the status and what is written.
fn expect_rows<R: Threads + Wait + Sync + Abort>(
    rt: &R,
    alloc: Global,
    rows: &[u8],
) -> Result<(), AllocError> {
    for row in rows.split(|b| *b == b'#') {
        let Some((wanted, script, written)) = parts_of(row) else {
            // a worked script that isn't read as one is a failure, and isn't passed over
            assert!(rt; row.is_empty());
            continue;
        };
        let mut out = ByteSink::new(alloc, 4096, Vec::new(alloc));
        expect(rt, alloc, SERIAL, script, 0, &mut out, wanted)?;
        expect_text(rt, out.bytes(), written);
    }
    Ok(())
}

#[test]
fn worked_scripts_are_run(rt: HostRuntime) -> Result<(), Fail> {
    for subject in 0..SUBJECTS {
        expect_rows(&rt, rt.alloc(), rows_of(subject))?;
    }
    Ok(())
}
