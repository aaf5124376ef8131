// Why bytes are no report.

ghost use Rattle.std.specs.Prelude.{◌≡◌, ◌+◌, ◌<◌};
ghost use Rattle.report_reader.specs.Causes.{cause_number, cause_name};

use std::alloc::AllocError;

/// Why a line is no line of a report where it stands. Each cause has a number, behind those of scripts, and a name,
/// which are printed.
#[derive(Clone, Copy, PartialEq, Eq, Debug)]
pub enum ReportCause {
    /// The line is neither an entry's, with the number of the lines before it, nor `end` with a number; or it has no
    /// newline.
    Form,
    /// The line is `end` with another number than that of the lines before it, or stands behind the last line; or it is
    /// the place behind all lines, where no last line stood.
    Ending,
}

impl ReportCause {
    ghost use Rattle.report_reader.specs.Causes.{cause_number, cause_name};

    /// Its number, 14 or 15.
    pub fn number(self) -> u8
        ensures { result ≡ cause_number self }
    {
        match self {
            ReportCause::Form => 14,
            ReportCause::Ending => 15,
        }
    }

    /// Its name, one lowercase word.
    pub fn name(self) -> &'static str
        ensures { result.now ≡ cause_name self }
    {
        match self {
            ReportCause::Form => "form",
            ReportCause::Ending => "ending",
        }
    }
}

/// The first line of a text that no report has, counted from 1, and its cause. Where only the last line is missing, it
/// is the place behind all lines.
#[derive(Clone, Copy, PartialEq, Eq, Debug)]
pub struct ReportFault {
    pub line: u32,
    pub cause: ReportCause,
}

/// Why there is no history: no memory, or bytes that are no report.
#[derive(Clone, Copy, PartialEq, Eq, Debug)]
pub enum ReportError {
    OutOfMemory,
    Refused(ReportFault),
}

impl From<AllocError> for ReportError {
    ghost use Rattle.report_reader.specs.declared.faults.ReportError.TheVariants as error;

    ghost from_gives = { λ _ e. e ≡ error.OutOfMemory };

    fn from(_error: AllocError) -> ReportError {
        ReportError::OutOfMemory
    }
}

/// The refusal of a line behind so many others.
pub(crate) fn refusal(before: u32, cause: ReportCause) -> ReportError
    requires { before < u32.MAX }
    ensures { result ≡ ReportError.Refused (record { line = before + 1; cause = cause }) }
{
    ReportError::Refused(ReportFault {
        line: before + 1,
        cause,
    })
}
