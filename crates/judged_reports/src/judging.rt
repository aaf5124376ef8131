// From the source to the finding.

ghost use Rattle.std.specs.Prelude.{◌<◌, ◌-◌, ◌≤◌, IfErr, IfOk};
ghost use Rattle.limited_reports.specs.Answers.{TookNone};
ghost use Rattle.judged_reports.specs.Judging.{JudgedReport};

use byte_streams::Source;
use joint_model::History;
use legal_reports::legal_is_report;
use limited_reports::{TakeError, take_report};
use run_check::{Finding, check};
use std::alloc::Global;

/// What the history of a report was found to be, and how many entries it has.
#[derive(Clone, Copy, PartialEq, Eq, Debug)]
pub struct Judged {
    pub finding: Finding,
    pub count: u64,
}

/// Takes bytes from a source, which may give them in whatever pieces, until its end, or until one byte more than `most`
/// was taken, and no further; and answers what the history that they are the report of is found to be, with the number
/// of its entries.
///
/// `ReadFault` only where the source's count of faults rose. `OutOfMemory` where there is no memory for the bytes, the
/// history or its check. `Refused` and `Long` as [`take_report`] answers them. The time goes by the number of bytes and
/// by what a run of the same entries takes.
pub fn judge_report<S: Source>(alloc: Global, src: &mut S, most: usize) -> Result<Judged, TakeError>
    requires { most < u32.MAX - 1 }
    ensures ok { IfOk result (λ judged. JudgedReport most (S.left src.old) (S.left src.new) judged) }
    ensures err { IfErr result (λ error. TookNone most (S.left src.old)
        (S.left src.new) (S.faults src.old) (S.faults src.new) error) }
    ensures later { S.faults src.old ≤ S.faults src.new }
{
    legal_is_report();
    let history = take_report(alloc, src, most)?;
    let count = history.len();
    match check(alloc, &history) {
        Ok(finding) => Ok(Judged { finding, count }),
        Err(_) => Err(TakeError::OutOfMemory),
    }
}
