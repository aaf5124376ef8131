// What is put of a report: its finding, or what is wrong with it.

ghost use Rattle.std.specs.Prelude.{◌≡◌, ◌-◌, ◌<◌, ◌≤◌, ◌⊎◌, ℕ, List, Some, length};
ghost use Rattle.std.specs.Io.KnownBytes.{Appends, Keeps};
ghost use Rattle.byte_streams.specs.Faults.{AppendsPart, Rose};
ghost use Rattle.joint_machine.specs.Histories.{Finished};
ghost use Rattle.report_reader.specs.Reading.{IsReadAs};
ghost use Rattle.report_answers.specs.Answers.{finding_text, refusal_text};
ghost use Rattle.bridge_script.specs.declared.faults.Cause.TheVariants.{Bytes};
ghost use Rattle.bridge_script.specs.Causes.{fault_text};
ghost use Rattle.judged_reports.specs.Answering.{FindingPut, RefusalPut};

use crate::judging::{Judged, judge_report};
use bridge_script::{Cause, ScriptFault, write_refusal};
use byte_streams::{Sink, Source};
use limited_reports::TakeError;
use report_answers::{write_finding, write_report_refusal};
use report_reader::ReportFault;
use std::alloc::Global;

/// How the answer to a report ended.
#[derive(Clone, Copy, PartialEq, Eq, Debug)]
pub enum Answered {
    /// The finding was written.
    Found,

    /// The line that names what is wrong was written.
    Refused,

    /// There was no memory, and nothing was written.
    OutOfMemory,

    /// A read of the source failed, and nothing was written.
    ReadFault,

    /// A write failed, and a beginning of the line was written.
    WriteFault,
}

// Writes what was found.
fn put_finding<K: Sink>(judged: Judged, out: &mut K) -> Answered
    ensures found { result ≡ Answered.Found
        → Appends (K.held out.old) (K.held out.new) (finding_text judged.count judged.finding) }
    ensures write { result ≡ Answered.WriteFault → Rose (K.faults out.old) (K.faults out.new) }
    ensures part { result ≡ Answered.WriteFault
        → AppendsPart (K.held out.old) (K.held out.new) (finding_text judged.count judged.finding) }
    ensures ends { (result ≡ Answered.Found) ⊎ (result ≡ Answered.WriteFault) }
{
    match write_finding(judged.finding, judged.count, out) {
        Ok(()) => Answered::Found,
        Err(_) => Answered::WriteFault,
    }
}

// Writes which line is wrong.
fn put_fault<K: Sink>(fault: ReportFault, out: &mut K) -> Answered
    ensures refused { result ≡ Answered.Refused → Appends (K.held out.old) (K.held out.new) (refusal_text fault) }
    ensures write { result ≡ Answered.WriteFault → Rose (K.faults out.old) (K.faults out.new) }
    ensures part { result ≡ Answered.WriteFault → AppendsPart (K.held out.old) (K.held out.new) (refusal_text fault) }
    ensures ends { (result ≡ Answered.Refused) ⊎ (result ≡ Answered.WriteFault) }
{
    match write_report_refusal(fault, out) {
        Ok(()) => Answered::Refused,
        Err(_) => Answered::WriteFault,
    }
}

// Writes which line holds the first byte behind the limit.
fn put_length<K: Sink>(line: u32, out: &mut K) -> Answered
    ensures refused { result ≡ Answered.Refused
        → Appends (K.held out.old) (K.held out.new) (fault_text record { line = line; cause = Bytes }) }
    ensures write { result ≡ Answered.WriteFault → Rose (K.faults out.old) (K.faults out.new) }
    ensures part { result ≡ Answered.WriteFault
        → AppendsPart (K.held out.old) (K.held out.new) (fault_text record { line = line; cause = Bytes }) }
    ensures ends { (result ≡ Answered.Refused) ⊎ (result ≡ Answered.WriteFault) }
{
    let fault = ScriptFault {
        line,
        cause: Cause::Bytes,
    };
    match write_refusal(fault, out) {
        Ok(()) => Answered::Refused,
        Err(_) => Answered::WriteFault,
    }
}

/// Takes a report from a source, as [`judge_report`] does, and writes what its history was found to be, or what is
/// wrong with it.
///
/// `Found` exactly where the source gave a report within the limit, and memory and sink sufficed; `Refused` where it
/// gave none.
pub fn answer_report<S: Source, K: Sink>(
    alloc: Global,
    src: &mut S,
    out: &mut K,
    most: usize,
) -> Answered
    requires { most < u32.MAX - 1 }
    ensures found { result ≡ Answered.Found
        → FindingPut most (S.left src.old) (S.left src.new) (Appends (K.held out.old) (K.held out.new)) }
    ensures refused { result ≡ Answered.Refused
        → RefusalPut most (S.left src.old) (S.left src.new) (Appends (K.held out.old) (K.held out.new)) }
    ensures read { result ≡ Answered.ReadFault → Rose (S.faults src.old) (S.faults src.new)
        × Keeps (K.held out.old) (K.held out.new) }
    ensures write { result ≡ Answered.WriteFault → Rose (K.faults out.old) (K.faults out.new) }
    ensures part { result ≡ Answered.WriteFault
        → FindingPut most (S.left src.old) (S.left src.new) (AppendsPart (K.held out.old) (K.held out.new))
        ⊎ RefusalPut most (S.left src.old) (S.left src.new) (AppendsPart (K.held out.old) (K.held out.new)) }
    ensures memory { result ≡ Answered.OutOfMemory → Keeps (K.held out.old) (K.held out.new) }
    ensures complete { (input : List ℕ) (h : Finished) → S.left src.old ≡ Some input → IsReadAs input h
        → length input ≤ most → (Rose (S.faults src.old) (S.faults src.new) → ⊥)
        → (Rose (K.faults out.old) (K.faults out.new) → ⊥)
        → (result ≡ Answered.Found) ⊎ (result ≡ Answered.OutOfMemory) }
{
    match judge_report(alloc, src, most) {
        Ok(judged) => return put_finding(judged, out),
        Err(TakeError::OutOfMemory) => return Answered::OutOfMemory,
        Err(TakeError::ReadFault) => return Answered::ReadFault,
        Err(TakeError::Refused(fault)) => return put_fault(fault, out),
        Err(TakeError::Long { line }) => return put_length(line, out),
    }
}
