// A table of answers with their lines, and a sink that fails in the midst of one.

ghost use Rattle.std.specs.Prelude.{◌≤◌};

use crate::comparing::expect_text;
use byte_streams::{ByteSink, Failed};
use check_laws::{Finding, Why};
use report_answers::{write_finding, write_report_refusal};
use report_reader::{ReportCause, ReportFault};
use std::alloc::{AllocError, Global};
use std::process::Abort;
use std::test::Fail;

const FINDINGS: [(Finding, u64, &[u8]); 8] = [
    (Finding::Legal, 0, b"legal 0\n"),
    (Finding::Legal, 25, b"legal 25\n"),
    (
        Finding::Illegal {
            entry: 7,
            why: Why::Caller,
        },
        8,
        b"illegal 7 caller\n",
    ),
    (
        Finding::Illegal {
            entry: 24,
            why: Why::Reply,
        },
        28,
        b"illegal 24 reply\n",
    ),
    (
        Finding::Illegal {
            entry: 5,
            why: Why::Cite,
        },
        8,
        b"illegal 5 cite\n",
    ),
    (
        Finding::Illegal {
            entry: 0,
            why: Why::Caller,
        },
        1,
        b"illegal 0 caller\n",
    ),
    (Finding::Unfinished, 26, b"illegal end\n"),
    (
        Finding::Legal,
        18_446_744_073_709_551_615,
        b"legal 18446744073709551615\n",
    ),
];

const FAULTS: [(u32, ReportCause, &[u8]); 3] = [
    (1, ReportCause::Ending, b"line 1: cause 15 ending\n"),
    (12, ReportCause::Form, b"line 12: cause 14 form\n"),
    (
        4_294_967_295,
        ReportCause::Form,
        b"line 4294967295: cause 14 form\n",
    ),
];

fn expect_failed(rt: &impl Abort, answer: Result<(), Failed>) {
    assert!(rt; answer.is_err());
}

fn sink(alloc: Global, most: usize) -> ByteSink
    requires { 1 ≤ most }
{
    ByteSink::new(alloc, most, Vec::new(alloc))
}

#[test]
fn each_finding_has_its_line(rt: HostRuntime) -> Result<(), Fail> {
    for (finding, count, wanted) in FINDINGS {
        let mut out = sink(rt.alloc(), 5);
        let _ = write_finding(finding, count, &mut out);
        expect_text(&rt, out.bytes(), wanted);
    }
    Ok(())
}

#[test]
fn each_fault_has_its_line(rt: HostRuntime) -> Result<(), Fail> {
    for (line, cause, wanted) in FAULTS {
        let mut out = sink(rt.alloc(), 64);
        let _ = write_report_refusal(ReportFault { line, cause }, &mut out);
        expect_text(&rt, out.bytes(), wanted);
    }
    Ok(())
}

#[test]
fn a_line_is_written_up_to_the_fault(rt: HostRuntime) -> Result<(), Fail> {
    let mut part = ByteSink::new(rt.alloc(), 4, [3].to_vec(rt.alloc())?);
    expect_failed(&rt, write_finding(Finding::Unfinished, 26, &mut part));
    expect_text(&rt, part.bytes(), b"illegal ");
    let mut none = ByteSink::new(rt.alloc(), 4, [1].to_vec(rt.alloc())?);
    let fault = ReportFault {
        line: 2,
        cause: ReportCause::Form,
    };
    expect_failed(&rt, write_report_refusal(fault, &mut none));
    expect_text(&rt, none.bytes(), b"");
    Ok(())
}
