// The top call.

ghost use Rattle.std.specs.Prelude.{◌≡◌, ◌≤◌, ◌⊎◌, ℕ, List, Some, IfOk, map, string_bytes};
ghost use Rattle.bridge_script.specs.Scripts.{IsText};
ghost use Rattle.joint_machine.specs.declared.names.Thread.{Thread};
ghost use Rattle.joint_machine.specs.declared.lines.Act.{Act};
ghost use Rattle.std.specs.Io.KnownBytes.{Appends, Keeps};
ghost use Rattle.byte_streams.specs.Faults.{AppendsPart, Rose};
ghost use Rattle.history_report.specs.Report.{report};
ghost use Rattle.joint_machine.specs.Histories.{Finished};
ghost use Rattle.bridge_program.specs.Top.{FaultPut, IsCommand, IsRunIn, LacksMemory, MayAnswer, MayGenerate};
ghost use Rattle.bridge_program.specs.Top.{ReadsInput, RefusalPut, ResultPut, RunPut, TextPut, UsagePut, usage_text};

use crate::checked::print_checked;
use crate::compared::print_compared;
use crate::generated::print_generated;
use crate::leaks::print_leaks;
use crate::logged::print_logged;
use crate::statuses::{DONE, NO_MEMORY, READ_FAULT, REFUSED, USAGE, WRITE_FAULT};
use bridge_script::{Script, ScriptError, Turnstile, read_script, write_refusal};
use byte_streams::{Sink, Source, write_text};
use command_words::{Command, Mode, command_of, words_tell_commands};
use history_report::write_report;
use joint_model::History;
use script_runs::{run_serial, run_threads};
use std::alloc::{AllocError, Global};
use std::sync::Wait;
use std::thread::Threads;

/// Does what the words after the program's name ask for, and answers the program's exit status.
///
/// `serial` and `threads` read a script from `src` to its end, or to one byte past the limit, run its lines in order on
/// one thread, or each script thread's lines in a thread of its own, which passes the turnstile before each of them,
/// and write the report of the run's history to `out`. The order is words, reading, script, run, writing. `compare`
/// reads a script and runs it as `serial` does, and writes a listing of its cycles in place of the report, while the
/// script runs: the components, heavy classes and cross-references of each. `grefs` reads a script and runs it as
/// `serial` does, and writes the reference log of its history. `leaks` reads such a log from `src`, to its end or to
/// one byte past 268,435,456, and writes which handles it never releases. `check` reads a report from `src`, with the
/// same limit, and writes whether it is that of a lawful history, or which entry is the first that is not, and why.
/// `gen` reads nothing: it makes the script of a seed and a size, runs it in its mode and one cycle more once all
/// threads have ended, and writes the summary of that run.
pub fn bridge_main<R: Threads + Wait + Sync, S: Source, K: Sink, T: Turnstile + Sync>(
    rt: &R,
    alloc: Global,
    words: &Vec<String>,
    src: &mut S,
    out: &mut K,
    turn: &T,
) -> u8
    ensures printed { result ≡ 0 → ResultPut (map string_bytes words.now.items)
        (S.left src.old) (S.left src.new) (Appends (K.held out.old) (K.held out.new)) }
    ensures usage { result ≡ 1 → UsagePut (map string_bytes words.now.items)
        (Appends (K.held out.old) (K.held out.new)) }
    ensures no_command { (IsCommand (map string_bytes words.now.items) → ⊥) → (result ≡ 1) ⊎ (result ≡ 4) }
    ensures untouched { (ReadsInput (map string_bytes words.now.items) → ⊥)
        → (S.left src.new ≡ S.left src.old) × (S.faults src.new ≡ S.faults src.old) }
    ensures read { result ≡ 2 → Rose (S.faults src.old) (S.faults src.new) × Keeps (K.held out.old) (K.held out.new) }
    ensures refused { result ≡ 3 → RefusalPut (map string_bytes words.now.items)
        (S.left src.old) (S.left src.new) (Appends (K.held out.old) (K.held out.new)) }
    ensures write { result ≡ 4 → Rose (K.faults out.old) (K.faults out.new) }
    ensures part { result ≡ 4 → TextPut (map string_bytes words.now.items)
        (S.left src.old) (S.left src.new) (AppendsPart (K.held out.old) (K.held out.new)) }
    ensures memory { result ≡ 5 → LacksMemory (map string_bytes words.now.items) (K.held out.old) (K.held out.new) }
    ensures complete { MayAnswer (map string_bytes words.now.items) (S.left src.old) (S.faults src.old)
        (S.faults src.new) (K.faults out.old) (K.faults out.new) → (result ≡ 0) ⊎ (result ≡ 5) }
    ensures generated { MayGenerate (map string_bytes words.now.items) (K.faults out.old) (K.faults out.new)
        → (result ≡ 0) ⊎ (result ≡ 5) }
    ensures status { result ≤ 5 }
{
    words_tell_commands();
    match command_of(words) {
        Some(Command::Run { mode }) => print_script(rt, alloc, mode, src, out, turn),
        Some(Command::Compare) => print_compared(rt, alloc, src, out),
        Some(Command::References) => print_logged(rt, alloc, src, out),
        Some(Command::Leaks) => print_leaks(alloc, src, out),
        Some(Command::Check) => print_checked(alloc, src, out),
        Some(Command::Generate { seed, size, mode }) => {
            print_generated(rt, alloc, seed, size, mode, out, turn)
        }
        None => print_usage(out),
    }
}

// Writes the line that tells how the program is called.
fn print_usage<K: Sink>(out: &mut K) -> u8
    ensures usage { result ≡ 1 → Appends (K.held out.old) (K.held out.new) usage_text }
    ensures write { result ≡ 4 → Rose (K.faults out.old) (K.faults out.new) }
    ensures part { result ≡ 4 → AppendsPart (K.held out.old) (K.held out.new) usage_text }
    ensures status { (result ≡ 1) ⊎ (result ≡ 4) }
{
    match write_text(out, b"usage: bridge_run COMMAND\n") {
        Ok(()) => USAGE,
        Err(_) => WRITE_FAULT,
    }
}

// Reads a script, runs it in that mode and writes the report of its history, or what is wrong with the script.
fn print_script<R: Threads + Wait + Sync, S: Source, K: Sink, T: Turnstile + Sync>(
    rt: &R,
    alloc: Global,
    mode: Mode,
    src: &mut S,
    out: &mut K,
    turn: &T,
) -> u8
    ensures done { result ≡ 0 → RunPut mode (S.left src.old)
        (S.left src.new) (Appends (K.held out.old) (K.held out.new)) }
    ensures read { result ≡ 2 → Rose (S.faults src.old) (S.faults src.new) × Keeps (K.held out.old) (K.held out.new) }
    ensures refused { result ≡ 3 → FaultPut (S.left src.old)
        (S.left src.new) (Appends (K.held out.old) (K.held out.new)) }
    ensures write { result ≡ 4 → Rose (K.faults out.old) (K.faults out.new) }
    ensures part { result ≡ 4 → FaultPut (S.left src.old) (S.left src.new)
        (AppendsPart (K.held out.old) (K.held out.new))
        ⊎ RunPut mode (S.left src.old) (S.left src.new) (AppendsPart (K.held out.old) (K.held out.new)) }
    ensures memory { result ≡ 5 → Keeps (K.held out.old) (K.held out.new) }
    ensures complete { (script : List (Thread × Act)) (input : List ℕ) → S.left src.old ≡ Some input
        → IsText input script → (Rose (S.faults src.old) (S.faults src.new) → ⊥)
        → (Rose (K.faults out.old) (K.faults out.new) → ⊥) → (result ≡ 0) ⊎ (result ≡ 5) }
    ensures status { (result ≡ 0) ⊎ ((2 ≤ result) × (result ≤ 5)) }
{
    match read_script(alloc, src) {
        Ok(script) => print_run(rt, alloc, mode, &script, out, turn),
        Err(ScriptError::OutOfMemory) => NO_MEMORY,
        Err(ScriptError::ReadFault) => READ_FAULT,
        Err(ScriptError::Refused(fault)) => match write_refusal(fault, out) {
            Ok(()) => REFUSED,
            Err(_) => WRITE_FAULT,
        },
    }
}

// Runs the script in that mode and writes the report of its history.
fn print_run<R: Threads + Wait + Sync, K: Sink, T: Turnstile + Sync>(
    rt: &R,
    alloc: Global,
    mode: Mode,
    script: &Script,
    out: &mut K,
    turn: &T,
) -> u8
    ensures done { result ≡ 0 → (h : Finished) × IsRunIn mode script.now h
        × Appends (K.held out.old) (K.held out.new) (report h) }
    ensures write { result ≡ 4 → Rose (K.faults out.old) (K.faults out.new) }
    ensures part { result ≡ 4 → (h : Finished) × IsRunIn mode script.now h
        × AppendsPart (K.held out.old) (K.held out.new) (report h) }
    ensures memory { result ≡ 5 → Keeps (K.held out.old) (K.held out.new) }
    ensures status { (result ≡ 0) ⊎ (result ≡ 4) ⊎ (result ≡ 5) }
{
    let Ok(history) = run(rt, alloc, mode, script, turn) else {
        return NO_MEMORY;
    };
    match write_report(&history, out) {
        Ok(()) => DONE,
        Err(_) => WRITE_FAULT,
    }
}

// Runs the script in that mode. Answers `AllocError` where there is no memory.
#[tactic(auto, using(script_runs::proofs::Runnable::can_run))]
fn run<R: Threads + Wait + Sync, T: Turnstile + Sync>(
    rt: &R,
    alloc: Global,
    mode: Mode,
    script: &Script,
    turn: &T,
) -> Result<History, AllocError>
    ensures { IfOk result (λ h. IsRunIn mode script.now h) }
{
    match mode {
        Mode::Serial => run_serial(rt, alloc, script.lines()),
        Mode::Threads => run_threads(rt, alloc, script.lines(), turn),
    }
}
