// A report whose bytes are at hand.

ghost use Rattle.std.specs.Prelude.{◌<◌, length, IfOk, IfErr};
ghost use Rattle.report_reader.specs.Reading.{IsReadAs};
ghost use Rattle.report_reader.specs.Answers.{IsReportRefusal};

use crate::drafts::Draft;
use crate::faults::ReportError;
use joint_model::History;
use std::alloc::Global;

/// The history that these bytes are the report of: of all that have it the one whose replies are those that their
/// events have, and whose lists are what the text names, in the order of the entries. Its report is these bytes again.
///
/// `OutOfMemory` where there is no memory for the history, which is all that is taken. `Refused` exactly where no
/// history has this report, lawful or not, with the first line that has a cause: see
/// [`ReportCause`](crate::ReportCause). The time goes by the number of bytes.
pub fn read_report(alloc: Global, bytes: &[u8]) -> Result<History, ReportError>
    requires { length bytes.now < u32.MAX }
    ensures ok { IfOk result (λ h. IsReadAs bytes.now h) }
    ensures err { IfErr result (λ error. IsReportRefusal bytes.now error) }
{
    Draft::new(alloc).finish(alloc, bytes)
}
