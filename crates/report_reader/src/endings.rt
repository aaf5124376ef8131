// The last line of a report.

ghost use Rattle.std.specs.Prelude.{◌≡◌, ◌-◌, ◌≢◌, ℕ, ◌+◌, ◌<◌, ◌≤◌, ◌^◌, ◌++◌, [], length, codes};
ghost use Rattle.std.specs.Prelude.{decimal, MatchOption, MatchResult};
ghost use Rattle.history_report.specs.Report.{end_text};
ghost use Rattle.report_reader.specs.Steps.{IsEndError, IsMoreError, StopsAt};

use crate::drafts::cut_line;
use crate::faults::{ReportCause, ReportError, refusal};
use text_words::{is_same, number};

// The number behind `end `, where the line is that and no more.
fn end_number(text: &[u8]) -> Option<u64>
    ensures { MatchOption result ((n : ℕ) → n < 2 ^ 64 → codes "end " ++ decimal n ≢ text.now)
        (λ n. (n < 2 ^ 64) × (codes "end " ++ decimal n ≡ text.now)) }
{
    if text.len() < 4 || !is_same(&text[..4], b"end ") {
        return None;
    }
    let n = number(&text[4..])?;
    Some(n)
}

// That nothing stands behind the last line, which is the last of so many.
fn judge_rest(bytes: &[u8], lines: u32) -> Result<(), ReportError>
    requires { lines + length bytes.now ≤ u32.MAX }
    ensures { MatchResult result (λ _. bytes.now ≡ []) (λ error. IsMoreError lines bytes.now error) }
{
    if bytes.is_empty() {
        Ok(())
    } else {
        Err(refusal(lines, ReportCause::Ending))
    }
}

/// That the bytes behind the lines of so many entries are the last line of their report, and no more.
pub(crate) fn judge_end(bytes: &[u8], entries: u32) -> Result<(), ReportError>
    requires stops { StopsAt entries bytes.now }
    requires few { entries + length bytes.now ≤ u32.MAX - 1 }
    ensures { MatchResult result (λ _. bytes.now ≡ end_text entries) (λ error. IsEndError entries bytes.now error) }
{
    if bytes.is_empty() {
        return Err(refusal(entries, ReportCause::Ending));
    }
    if bytes[0] != b'e' {
        return Err(refusal(entries, ReportCause::Form));
    }
    let Some((text, left)) = cut_line(bytes) else {
        return Err(refusal(entries, ReportCause::Form));
    };
    let Some(n) = end_number(text.front(text.len())) else {
        return Err(refusal(entries, ReportCause::Form));
    };
    if n != entries as u64 {
        return Err(refusal(entries, ReportCause::Ending));
    }
    judge_rest(left, entries + 1)
}
