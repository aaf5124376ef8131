// The run of a script with the reference log of its history.

ghost use Rattle.std.specs.Prelude.{◌≡◌, ◌≤◌, ◌⊎◌, ℕ, IfOk, List, Some};
ghost use Rattle.bridge_script.specs.Scripts.{IsText};
ghost use Rattle.joint_machine.specs.declared.names.Thread.{Thread};
ghost use Rattle.joint_machine.specs.declared.lines.Act.{Act};
ghost use Rattle.joint_machine.specs.Histories.{Finished};
ghost use Rattle.joint_machine.specs.LinkedHistories.{IsLinked};
ghost use Rattle.std.specs.Io.KnownBytes.{Appends, Keeps};
ghost use Rattle.byte_streams.specs.Faults.{AppendsPart, Rose};
ghost use Rattle.run_laws.specs.Final.{IsRunInOrder};
ghost use Rattle.log_text.specs.Text.{log_text as text_of_log};
ghost use Rattle.log_text.specs.declared.lines.LogLine.{LogLine};
ghost use Rattle.bridge_program.specs.Logs.{IsLogOfRun, LoggedPut};
ghost use Rattle.bridge_program.specs.Top.{FaultPut};

use crate::statuses::{DONE, NO_MEMORY, READ_FAULT, REFUSED, WRITE_FAULT};
use bridge_script::{Script, ScriptError, read_script, write_refusal};
use byte_streams::{Sink, Source};
use gref_log::{WriteFault, write_log_of};
use joint_model::History;
use script_runs::run_serial;
use std::alloc::{AllocError, Global};
use std::sync::Wait;

/// Reads a script, runs it in order and writes the reference log of its history, or what is wrong with the script.
/// Answers the program's exit status.
pub fn print_logged<S: Source, K: Sink>(
    rt: &impl Wait,
    alloc: Global,
    src: &mut S,
    out: &mut K,
) -> u8
    ensures done { result ≡ 0 → LoggedPut (S.left src.old)
        (S.left src.new) (Appends (K.held out.old) (K.held out.new)) }
    ensures read { result ≡ 2 → Rose (S.faults src.old) (S.faults src.new) × Keeps (K.held out.old) (K.held out.new) }
    ensures refused { result ≡ 3 → FaultPut (S.left src.old)
        (S.left src.new) (Appends (K.held out.old) (K.held out.new)) }
    ensures write { result ≡ 4 → Rose (K.faults out.old) (K.faults out.new) }
    ensures part { result ≡ 4 → FaultPut (S.left src.old) (S.left src.new)
        (AppendsPart (K.held out.old) (K.held out.new))
        ⊎ LoggedPut (S.left src.old) (S.left src.new) (AppendsPart (K.held out.old) (K.held out.new)) }
    ensures memory { result ≡ 5 → Keeps (K.held out.old) (K.held out.new) }
    ensures complete { (script : List (Thread × Act)) (input : List ℕ) → S.left src.old ≡ Some input
        → IsText input script → (Rose (S.faults src.old) (S.faults src.new) → ⊥)
        → (Rose (K.faults out.old) (K.faults out.new) → ⊥) → (result ≡ 0) ⊎ (result ≡ 5) }
    ensures status { (result ≡ 0) ⊎ ((2 ≤ result) × (result ≤ 5)) }
{
    match read_script(alloc, src) {
        Ok(script) => log_run(rt, alloc, &script, out),
        Err(ScriptError::OutOfMemory) => NO_MEMORY,
        Err(ScriptError::ReadFault) => READ_FAULT,
        Err(ScriptError::Refused(fault)) => match write_refusal(fault, out) {
            Ok(()) => REFUSED,
            Err(_) => WRITE_FAULT,
        },
    }
}

// Runs the script in order and writes the log of its history.
fn log_run<K: Sink>(rt: &impl Wait, alloc: Global, script: &Script, out: &mut K) -> u8
    ensures done { result ≡ 0 → (h : Finished) × IsRunInOrder script.now h × (lines : List LogLine)
        × IsLogOfRun h lines × Appends (K.held out.old) (K.held out.new) (text_of_log lines) }
    ensures write { result ≡ 4 → Rose (K.faults out.old) (K.faults out.new) }
    ensures part { result ≡ 4 → (h : Finished) × IsRunInOrder script.now h × (lines : List LogLine)
        × IsLogOfRun h lines × AppendsPart (K.held out.old) (K.held out.new) (text_of_log lines) }
    ensures memory { result ≡ 5 → Keeps (K.held out.old) (K.held out.new) }
    ensures status { (result ≡ 0) ⊎ (result ≡ 4) ⊎ (result ≡ 5) }
{
    let Ok(history) = run(rt, alloc, script) else {
        return NO_MEMORY;
    };
    match write_log_of(alloc, &history, out) {
        Ok(()) => DONE,
        Err(WriteFault::OutOfMemory) => NO_MEMORY,
        Err(WriteFault::Failed) => WRITE_FAULT,
    }
}

// Runs the script in order. Answers its history, or `AllocError` where there is no memory.
#[tactic(auto, using(script_runs::proofs::Runnable::can_run))]
fn run(rt: &impl Wait, alloc: Global, script: &Script) -> Result<History, AllocError>
    ensures run { IfOk result (λ h. IsRunInOrder script.now h) }
    ensures linked { IfOk result (λ h. IsLinked h) }
{
    run_serial(rt, alloc, script.lines())
}
