// What the history of a report is found to be.

ghost use Rattle.std.specs.Prelude.{◌≡◌, ◌≤◌, ◌⊎◌, ℕ, List, Some, length};
ghost use Rattle.std.specs.Io.KnownBytes.{Appends, Keeps};
ghost use Rattle.byte_streams.specs.Faults.{AppendsPart, Rose};
ghost use Rattle.joint_machine.specs.Histories.{Finished};
ghost use Rattle.report_reader.specs.Reading.{IsReadAs};
ghost use Rattle.judged_reports.specs.Answering.{FindingPut, RefusalPut as NoReportPut};

use crate::statuses::{DONE, NO_MEMORY, READ_FAULT, REFUSED, WRITE_FAULT};
use byte_streams::{Sink, Source};
use judged_reports::{Answered, answer_report};
use std::alloc::Global;

// The most bytes of a report.
const MOST_BYTES: usize = 268_435_456;

/// Reads a report and writes what its history is found to be, or what is wrong with the report. Answers the program's
/// exit status.
pub fn print_checked<S: Source, K: Sink>(alloc: Global, src: &mut S, out: &mut K) -> u8
    ensures done { result ≡ 0 → FindingPut 268435456 (S.left src.old)
        (S.left src.new) (Appends (K.held out.old) (K.held out.new)) }
    ensures read { result ≡ 2 → Rose (S.faults src.old) (S.faults src.new) × Keeps (K.held out.old) (K.held out.new) }
    ensures refused { result ≡ 3 → NoReportPut 268435456 (S.left src.old)
        (S.left src.new) (Appends (K.held out.old) (K.held out.new)) }
    ensures write { result ≡ 4 → Rose (K.faults out.old) (K.faults out.new) }
    ensures part { result ≡ 4 → FindingPut 268435456 (S.left src.old) (S.left src.new)
        (AppendsPart (K.held out.old) (K.held out.new))
        ⊎ NoReportPut 268435456 (S.left src.old) (S.left src.new) (AppendsPart (K.held out.old) (K.held out.new)) }
    ensures memory { result ≡ 5 → Keeps (K.held out.old) (K.held out.new) }
    ensures complete { (history : Finished) (input : List ℕ) → S.left src.old ≡ Some input
        → IsReadAs input history → length input ≤ 268435456 → (Rose (S.faults src.old) (S.faults src.new) → ⊥)
        → (Rose (K.faults out.old) (K.faults out.new) → ⊥) → (result ≡ 0) ⊎ (result ≡ 5) }
    ensures status { (result ≡ 0) ⊎ ((2 ≤ result) × (result ≤ 5)) }
{
    match answer_report(alloc, src, out, MOST_BYTES) {
        Answered::Found => DONE,
        Answered::Refused => REFUSED,
        Answered::OutOfMemory => NO_MEMORY,
        Answered::ReadFault => READ_FAULT,
        Answered::WriteFault => WRITE_FAULT,
    }
}
