// The reading, and what is answered of a text that is too long.

ghost use Rattle.std.specs.Prelude.{◌≡◌, ◌+◌, ◌<◌, ◌≤◌, ◌++◌, ℕ, List, length, IfErr, IfOk};
ghost use Rattle.report_reader.specs.Reading.{IsReadAs};
ghost use Rattle.report_reader.specs.Steps.{AreRead};
ghost use Rattle.limited_reports.specs.Limits.{IsNoneWithin};
ghost use Rattle.limited_reports.specs.Answers.{IsLongRefusal};

use joint_model::History;
use report_reader::{Draft, ReportError, ReportFault, read_report};
use std::alloc::{AllocError, Global};
use text_limits::{front_of, newlines};

/// Why there is no report within a limit of bytes.
#[derive(Clone, Copy, PartialEq, Eq, Debug)]
pub enum TakeError {
    OutOfMemory,
    /// A read of the source failed.
    ReadFault,
    /// This line is the first that no report has. Of a text that is longer than the limit it is one before the line
    /// that holds the first byte behind it.
    Refused(ReportFault),
    /// This line, counted from 1, holds the first byte behind the limit, and no line before it is wrong.
    Long { line: u32 },
}

impl From<AllocError> for TakeError {
    ghost use Rattle.limited_reports.specs.declared.limits.TakeError.TheVariants as error;

    ghost from_gives = { λ _ e. e ≡ error.OutOfMemory };

    fn from(_error: AllocError) -> TakeError {
        TakeError::OutOfMemory
    }
}

// What is answered of a fault in the lines before the limit, which are so many: one behind them says that none of them
// is wrong.
fn within(fault: ReportFault, count: u32) -> TakeError
    ensures here { fault.line ≤ count → result ≡ TakeError.Refused fault }
    ensures behind { count < fault.line → result ≡ TakeError.Long fault.line }
{
    if fault.line <= count {
        TakeError::Refused(fault)
    } else {
        TakeError::Long { line: fault.line }
    }
}

// What is answered of a text that is longer than the limit, of which a draft has read the first lines and these bytes
// stand behind them, with so many of them within the limit.
pub(crate) fn refuse_long(alloc: Global, draft: Draft, bytes: &[u8], most: usize) -> TakeError
    requires read { (front : List ℕ) × (AreRead front draft) × (length front + length bytes.now < u32.MAX) }
    requires long { most < length bytes.now }
    ensures { (front : List ℕ) → AreRead front draft → length front + length bytes.now < u32.MAX
        → IsLongRefusal (length front + most) (front ++ bytes.now) result }
{
    let before = draft.len();
    let front = front_of(bytes, most);
    let count = before + newlines(front);
    match draft.finish(alloc, front) {
        Ok(_) => return TakeError::Long { line: count + 1 },
        Err(ReportError::OutOfMemory) => return TakeError::OutOfMemory,
        Err(ReportError::Refused(fault)) => return within(fault, count),
    }
}

/// The history that these bytes are the report of, as [`read_report`] answers it, where there are no more than `most`
/// of them.
///
/// `OutOfMemory` where there is no memory for the history. `Refused` exactly where there are no more bytes than that
/// and no history has this report, with the first line that has a cause, and where there are more and a line before the
/// one that holds the first byte behind the limit has one. `Long` exactly where there are more bytes, and none of those
/// lines has one: then whether one of them is the last line of a report is of no matter.
pub fn read_within(alloc: Global, bytes: &[u8], most: usize) -> Result<History, TakeError>
    requires { length bytes.now < u32.MAX }
    ensures size { IfOk result (λ h. length bytes.now ≤ most) }
    ensures ok { IfOk result (λ h. IsReadAs bytes.now h) }
    ensures err { IfErr result (λ error. IsNoneWithin most bytes.now error) }
{
    if bytes.len() > most {
        return Err(refuse_long(alloc, Draft::new(alloc), bytes, most));
    }
    match read_report(alloc, bytes) {
        Ok(history) => Ok(history),
        Err(ReportError::OutOfMemory) => Err(TakeError::OutOfMemory),
        Err(ReportError::Refused(fault)) => Err(TakeError::Refused(fault)),
    }
}
