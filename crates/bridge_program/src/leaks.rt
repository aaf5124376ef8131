// What a reference log never releases.

ghost use Rattle.std.specs.Prelude.{◌≡◌, ◌≤◌, ◌<◌, ◌⊎◌, ℕ, List, Some, length};
ghost use Rattle.std.specs.Io.KnownBytes.{Appends, Keeps};
ghost use Rattle.byte_streams.specs.Faults.{AppendsPart, Rose};
ghost use Rattle.log_text.specs.declared.lines.LogLine.{LogLine};
ghost use Rattle.log_text.specs.Answers.{refusal_text};
ghost use Rattle.log_text.specs.Text.{IsLogText};
ghost use Rattle.bridge_script.specs.declared.faults.Cause.TheVariants.{Bytes};
ghost use Rattle.bridge_script.specs.Causes.{fault_text};
ghost use Rattle.bridge_program.specs.Logs.{IsRefusal, LeftOf, LeftPut, LogFaultPut, UnreleasedPut as LeftOfPut};
ghost use Rattle.bridge_program.specs.Logs.{left_text};

use crate::statuses::{DONE, NO_MEMORY, READ_FAULT, REFUSED, WRITE_FAULT};
use bridge_script::{Cause, ScriptFault, write_refusal};
use byte_streams::{ReadError, Sink, Source, read_up_to};
use gref_log::long_line;
use log_text::{
    Log, LogCause, LogError, read_log, unreleased, write_log_refusal, write_unreleased,
};
use std::alloc::Global;

// The most bytes of a log.
const MOST_BYTES: usize = 268_435_456;

/// Reads a log and writes which handles it never releases, or what is wrong with it. Answers the program's exit status.
pub fn print_leaks<S: Source, K: Sink>(alloc: Global, src: &mut S, out: &mut K) -> u8
    ensures done { result ≡ 0 → LeftPut (S.left src.old) (S.left src.new) (Appends (K.held out.old) (K.held out.new)) }
    ensures read { result ≡ 2 → Rose (S.faults src.old) (S.faults src.new) × Keeps (K.held out.old) (K.held out.new) }
    ensures refused { result ≡ 3 → LogFaultPut (S.left src.old)
        (S.left src.new) (Appends (K.held out.old) (K.held out.new)) }
    ensures write { result ≡ 4 → Rose (K.faults out.old) (K.faults out.new) }
    ensures part { result ≡ 4 → LogFaultPut (S.left src.old) (S.left src.new)
        (AppendsPart (K.held out.old) (K.held out.new))
        ⊎ LeftPut (S.left src.old) (S.left src.new) (AppendsPart (K.held out.old) (K.held out.new)) }
    ensures memory { result ≡ 5 → Keeps (K.held out.old) (K.held out.new) }
    ensures complete { (lines : List LogLine) (input : List ℕ) → S.left src.old ≡ Some input
        → IsLogText input lines → length input ≤ 268435456 → (Rose (S.faults src.old) (S.faults src.new) → ⊥)
        → (Rose (K.faults out.old) (K.faults out.new) → ⊥) → (result ≡ 0) ⊎ (result ≡ 5) }
    ensures status { (result ≡ 0) ⊎ ((2 ≤ result) × (result ≤ 5)) }
{
    match read_up_to(alloc, src, MOST_BYTES) {
        Ok(bytes) => judge(alloc, &bytes, out),
        Err(ReadError::OutOfMemory) => NO_MEMORY,
        Err(ReadError::Failed) => READ_FAULT,
    }
}

// Writes what a log never releases, or what is wrong with it.
fn judge<K: Sink>(alloc: Global, bytes: &[u8], out: &mut K) -> u8
    requires { length bytes.now ≤ 268435457 }
    ensures done { result ≡ 0 → (length bytes.now ≤ 268435456)
        × LeftOfPut bytes.now (Appends (K.held out.old) (K.held out.new)) }
    ensures refused { result ≡ 3 → (text : List ℕ) × IsRefusal bytes.now text
        × Appends (K.held out.old) (K.held out.new) text }
    ensures write { result ≡ 4 → Rose (K.faults out.old) (K.faults out.new) }
    ensures part { result ≡ 4 → ((text : List ℕ) × IsRefusal bytes.now text
        × AppendsPart (K.held out.old) (K.held out.new) text)
        ⊎ ((length bytes.now ≤ 268435456) × LeftOfPut bytes.now (AppendsPart (K.held out.old) (K.held out.new))) }
    ensures memory { result ≡ 5 → Keeps (K.held out.old) (K.held out.new) }
    ensures status { (result ≡ 0) ⊎ ((3 ≤ result) × (result ≤ 5)) }
{
    if bytes.len() > MOST_BYTES {
        return refuse_long(alloc, bytes, out);
    }
    match read_log(alloc, bytes) {
        Ok(log) => print_left(alloc, &log, out),
        Err(LogError::OutOfMemory) => NO_MEMORY,
        Err(LogError::Refused { line, cause }) => refuse(line, cause, out),
    }
}

// Writes which handles a log never releases.
fn print_left<K: Sink>(alloc: Global, log: &Log, out: &mut K) -> u8
    ensures done { result ≡ 0 → (left : LeftOf log.now) × Appends (K.held out.old) (K.held out.new) (left_text left) }
    ensures write { result ≡ 4 → Rose (K.faults out.old) (K.faults out.new) }
    ensures part { result ≡ 4 → (left : LeftOf log.now)
        × AppendsPart (K.held out.old) (K.held out.new) (left_text left) }
    ensures memory { result ≡ 5 → Keeps (K.held out.old) (K.held out.new) }
    ensures status { (result ≡ 0) ⊎ (result ≡ 4) ⊎ (result ≡ 5) }
{
    let Ok(left) = unreleased(alloc, log) else {
        return NO_MEMORY;
    };
    match write_unreleased(&left, out) {
        Ok(()) => DONE,
        Err(_) => WRITE_FAULT,
    }
}

// Writes which line is wrong.
fn refuse<K: Sink>(line: u32, cause: LogCause, out: &mut K) -> u8
    ensures refused { result ≡ 3 → Appends (K.held out.old) (K.held out.new) (refusal_text line cause) }
    ensures write { result ≡ 4 → Rose (K.faults out.old) (K.faults out.new) }
    ensures part { result ≡ 4 → AppendsPart (K.held out.old) (K.held out.new) (refusal_text line cause) }
    ensures status { (result ≡ 3) ⊎ (result ≡ 4) }
{
    match write_log_refusal(line, cause, out) {
        Ok(()) => REFUSED,
        Err(_) => WRITE_FAULT,
    }
}

// Writes which line of a text that is too long is wrong, or that the line behind the limit is.
fn refuse_long<K: Sink>(alloc: Global, bytes: &[u8], out: &mut K) -> u8
    requires { length bytes.now ≡ 268435457 }
    ensures refused { result ≡ 3 → (text : List ℕ) × IsRefusal bytes.now text
        × Appends (K.held out.old) (K.held out.new) text }
    ensures write { result ≡ 4 → Rose (K.faults out.old) (K.faults out.new) }
    ensures part { result ≡ 4 → (text : List ℕ) × IsRefusal bytes.now text
        × AppendsPart (K.held out.old) (K.held out.new) text }
    ensures memory { result ≡ 5 → Keeps (K.held out.old) (K.held out.new) }
    ensures status { (result ≡ 3) ⊎ (result ≡ 4) ⊎ (result ≡ 5) }
{
    match long_line(alloc, bytes, MOST_BYTES) {
        Ok(line) => refuse_length(line, out),
        Err(LogError::OutOfMemory) => NO_MEMORY,
        Err(LogError::Refused { line, cause }) => refuse(line, cause, out),
    }
}

// Writes which line holds the first byte behind the limit.
fn refuse_length<K: Sink>(line: u32, out: &mut K) -> u8
    ensures refused { result ≡ 3 → Appends (K.held out.old)
        (K.held out.new) (fault_text record { line = line; cause = Bytes }) }
    ensures write { result ≡ 4 → Rose (K.faults out.old) (K.faults out.new) }
    ensures part { result ≡ 4 → AppendsPart (K.held out.old)
        (K.held out.new) (fault_text record { line = line; cause = Bytes }) }
    ensures status { (result ≡ 3) ⊎ (result ≡ 4) }
{
    let fault = ScriptFault {
        line,
        cause: Cause::Bytes,
    };
    match write_refusal(fault, out) {
        Ok(()) => REFUSED,
        Err(_) => WRITE_FAULT,
    }
}
