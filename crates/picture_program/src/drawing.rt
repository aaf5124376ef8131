// From the bytes of a report to the text of a picture.

ghost use Rattle.std.specs.Prelude.{◌≡◌, ◌↔◌, ◌<◌, ◌≤◌, IfOk, IsTrue, false, length};
ghost use Rattle.byte_streams.specs.Streams.{Writes};
ghost use Rattle.report_reader.specs.Reading.{IsReadAs};
ghost use Rattle.picture_laws.specs.Seeing.{IsInOrderTo};
ghost use Rattle.picture_program.specs.Drawn.{IsDrawn, IsIllegalBy, IsSheetIn, refusal_line};
ghost use Rattle.picture_program.specs.Words.{AreEntries};

use crate::sheets::{part_of, sheet_of, title_of};
use crate::words::Request;
use bridge_script::{Cause, ScriptFault, write_refusal};
use byte_streams::{Failed, Sink, write_text};
use joint_model::History;
use limited_reports::{TakeError, read_within};
use picture_sheets::Sheet;
use picture_text::dot_text;
use report_answers::{write_finding, write_report_refusal};
use report_reader::ReportFault;
use run_check::{Finding, check};
use std::alloc::{AllocError, Global};

/// Why there is no picture.
#[derive(Clone, Copy, PartialEq, Eq, Debug)]
pub enum Refusal {
    /// A line of the report is wrong.
    Line(ReportFault),
    /// This line holds the first byte behind the limit.
    Long(u32),
    /// The history, which has so many entries, is found illegal at that entry or before it.
    Found(Finding, u64),
    /// There is no such entry.
    NoEntry,
    /// The picture has no such node.
    NoNode,
}

impl Refusal {
    /// Writes the line that says it.
    pub(crate) fn write<K: Sink>(self, out: &mut K) -> Result<(), Failed>
        ensures { Writes (K.held out.old) (K.held out.new)
            (K.faults out.old) (K.faults out.new) result (refusal_line self) }
    {
        match self {
            Refusal::Line(fault) => write_report_refusal(fault, out),
            Refusal::Long(line) => write_long(line, out),
            Refusal::Found(finding, count) => write_finding(finding, count, out),
            Refusal::NoEntry => write_text(out, b"no such entry\n"),
            Refusal::NoNode => write_text(out, b"no such node\n"),
        }
    }
}

// Writes which line holds the first byte behind the limit.
fn write_long<K: Sink>(line: u32, out: &mut K) -> Result<(), Failed>
    ensures { Writes (K.held out.old) (K.held out.new) (K.faults out.old)
        (K.faults out.new) result (refusal_line (Refusal.Long line)) }
{
    let fault = ScriptFault {
        line,
        cause: Cause::Bytes,
    };
    write_refusal(fault, out)
}

/// The text of a picture, or why there is none.
#[derive(Drop)]
pub enum Drawn {
    Picture(Vec<u8>),
    None(Refusal),
}

/// Draws what is asked for of the report that these bytes are.
pub(crate) fn draw(
    alloc: Global,
    bytes: &[u8],
    most: usize,
    request: Request,
) -> Result<Drawn, AllocError>
    requires few { length bytes.now < u32.MAX }
    requires order { AreEntries request.entries }
    ensures { IfOk result (λ d. IsDrawn most bytes.now request d) }
{
    match read_within(alloc, bytes, most) {
        Ok(history) => draw_history(alloc, bytes, most, &history, request),
        Err(TakeError::OutOfMemory) => Err(AllocError),
        Err(TakeError::ReadFault) => unreachable!(),
        Err(TakeError::Refused(fault)) => Ok(Drawn::None(Refusal::Line(fault))),
        Err(TakeError::Long { line }) => Ok(Drawn::None(Refusal::Long(line))),
    }
}

// Whether a finding says that one of the entries up to `n` isn't in order.
fn is_illegal_by(finding: Finding, n: u64) -> bool
    ensures illegal { IsTrue result ↔ IsIllegalBy n finding }
    ensures order { result ≡ false → IsInOrderTo n finding }
{
    match finding {
        Finding::Illegal { entry, .. } => entry <= n,
        Finding::Legal | Finding::Unfinished => false,
    }
}

// Draws what is asked for of a history.
fn draw_history(
    alloc: Global,
    bytes: &[u8],
    _most: usize,
    history: &History,
    request: Request,
) -> Result<Drawn, AllocError>
    requires size { length bytes.now ≤ _most }
    requires reads { IsReadAs bytes.now history.now }
    requires order { AreEntries request.entries }
    ensures { IfOk result (λ d. IsDrawn _most bytes.now request d) }
{
    let last = request.entries.last();
    let finding = check(alloc, history)?;
    if is_illegal_by(finding, last) {
        return Ok(Drawn::None(Refusal::Found(finding, history.len())));
    }
    if last >= history.len() {
        return Ok(Drawn::None(Refusal::NoEntry));
    }
    let sheet = sheet_of(alloc, history, request.entries)?;
    draw_sheet(alloc, bytes, _most, sheet, request)
}

// Draws a sheet, or as much of it as is asked for.
fn draw_sheet(
    alloc: Global,
    bytes: &[u8],
    _most: usize,
    sheet: Sheet,
    request: Request,
) -> Result<Drawn, AllocError>
    requires size { length bytes.now ≤ _most }
    requires drawn { IsSheetIn bytes.now request.entries sheet }
    ensures { IfOk result (λ d. IsDrawn _most bytes.now request d) }
{
    match part_of(alloc, sheet, request.around)? {
        None => Ok(Drawn::None(Refusal::NoNode)),
        Some(part) => {
            let title = title_of(alloc, request.entries, bytes)?;
            let text = dot_text(alloc, title.as_slice(), &part)?;
            Ok(Drawn::Picture(text))
        }
    }
}
