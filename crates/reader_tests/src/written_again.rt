// Reports that are read and written again.

ghost use Rattle.std.specs.Prelude.{◌≤◌};

use crate::comparing::expect_report;
use report_reader::{ReportError, read_report};
use std::alloc::{AllocError, Global};
use std::process::Abort;
use std::test::Fail;
use worked_texts::{LINKED_REPORT, SUBJECTS, parts_of, rows_of};

// Reads a report, writes it again, and compares.
fn expect_again<R: Abort>(rt: &R, alloc: Global, report: &[u8]) -> Result<(), AllocError> {
    assert!(rt; report.len() < 100_000);
    match read_report(alloc, report) {
        Ok(history) => expect_report(rt, alloc, &history, report),
        Err(ReportError::OutOfMemory) => Err(AllocError),
        Err(ReportError::Refused(fault)) => {
            assert_eq!(rt; fault.line, 0, "of {report:?}");
            Ok(())
        }
    }
}

// The report of each row that has one, which is where its run ends with 0.
fn expect_each<R: Abort>(rt: &R, alloc: Global, rows: &[u8]) -> Result<(), AllocError> {
    for row in rows.split(|b| *b == b'#') {
        if let Some((0, _, report)) = parts_of(row) {
            expect_again(rt, alloc, report)?;
        }
    }
    Ok(())
}

#[test]
fn worked_reports_are_written_again(rt: HostRuntime) -> Result<(), Fail> {
    for subject in 0..SUBJECTS {
        expect_each(&rt, rt.alloc(), rows_of(subject))?;
    }
    Ok(())
}

// Reports that stand in no row; the last one has lines of handles.
const REPORTS: [&[u8]; 5] = [
    LINKED_REPORT,
    b"end 0\n",
    b"0 m1.1 drop a = ok\nend 1\n",
    b"0 m1.1 make user 1 = p1 h1\n1 m1.1 adopt a bridge 1 p1 h1 = m1 @0\nend 2\n",
    b"0 c.0 weaken h1 = ok @9
1 c.0 weaken h20 = ok @9
2 c.1 restore h1 = alive h30
3 c.1 restore h20 = alive h31
4 c.1 restore h5 = cleared
5 c.1 restore h6 = alive h32
end 6
",
];

#[test]
fn other_reports_are_written_again(rt: HostRuntime) -> Result<(), Fail> {
    for report in &REPORTS {
        expect_again(&rt, rt.alloc(), report)?;
    }
    Ok(())
}

/// The report of so many cycles over nothing.
pub(crate) fn cycles(alloc: Global, count: u64) -> Result<String, AllocError>
    requires { count ≤ 256 }
{
    let mut text = String::new(alloc);
    for i in 0..count {
        let (n, k) = (i * 7, i + 1);
        let lines = format!(in alloc;
            "{n} c.{k} snap {k} = 0 freed -\n{} c.{k} contract {k} = 0 sccs 0 xrefs\n{} c.{k} mirror {k} = 0 refs @{n}\n{} c.{k} begin = {k}\n{} c.{k} sweep = {k} freed -\n{} c.{k} clear {k} = ok\n{} c.{k} resolve {k} = freed - @{}\n",
            n + 1,
            n + 2,
            n + 3,
            n + 4,
            n + 5,
            n + 6,
            n + 5
        )?;
        text.push_str(lines.as_str())?;
    }
    let end = format!(in alloc; "end {}\n", count * 7)?;
    text.push_str(end.as_str())?;
    Ok(text)
}

#[test]
fn a_report_of_many_cycles_is_written_again(rt: HostRuntime) -> Result<(), Fail> {
    let text = cycles(rt.alloc(), 256)?;
    let bytes = text.as_str().as_bytes();
    // so long is the report of the script that has 256 lines of a cycle each
    assert_eq!(&rt; bytes.len(), 55_693);
    expect_again(&rt, rt.alloc(), bytes)?;
    Ok(())
}
