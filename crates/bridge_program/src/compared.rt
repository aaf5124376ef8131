// The run of a script with a listing of its cycles.

ghost use Rattle.std.specs.Prelude.{◌≡◌, ◌≤◌, ◌⊎◌, ℕ, List, Some};
ghost use Rattle.bridge_script.specs.Scripts.{IsText};
ghost use Rattle.joint_machine.specs.declared.names.Thread.{Thread};
ghost use Rattle.joint_machine.specs.declared.lines.Act.{Act};
ghost use Rattle.joint_machine.specs.Histories.{Finished};
ghost use Rattle.std.specs.Io.KnownBytes.{Appends, Keeps};
ghost use Rattle.byte_streams.specs.Faults.{AppendsPart, Rose};
ghost use Rattle.run_laws.specs.Final.{IsRunInOrder};
ghost use Rattle.listing_laws.specs.Listings.{IsListingOf};
ghost use Rattle.bridge_program.specs.Top.{ComparedPut, FaultPut, LinesPut};

use crate::statuses::{DONE, NO_MEMORY, READ_FAULT, REFUSED, WRITE_FAULT};
use bridge_script::{Script, ScriptError, read_script, write_refusal};
use byte_streams::{Sink, Source};
use script_runs::run_compared;
use std::alloc::Global;
use std::sync::Wait;

/// Reads a script, runs it in order and writes the listing of its cycles, or what is wrong with the script. Answers the
/// program's exit status.
pub fn print_compared<S: Source, K: Sink>(
    rt: &impl Wait,
    alloc: Global,
    src: &mut S,
    out: &mut K,
) -> u8
    ensures done { result ≡ 0 → ComparedPut (S.left src.old)
        (S.left src.new) (Appends (K.held out.old) (K.held out.new)) }
    ensures read { result ≡ 2 → Rose (S.faults src.old) (S.faults src.new) × Keeps (K.held out.old) (K.held out.new) }
    ensures refused { result ≡ 3 → FaultPut (S.left src.old)
        (S.left src.new) (Appends (K.held out.old) (K.held out.new)) }
    ensures write { result ≡ 4 → Rose (K.faults out.old) (K.faults out.new) }
    ensures part { result ≡ 4 → FaultPut (S.left src.old) (S.left src.new)
        (AppendsPart (K.held out.old) (K.held out.new))
        ⊎ ComparedPut (S.left src.old) (S.left src.new) (AppendsPart (K.held out.old) (K.held out.new)) }
    ensures memory { result ≡ 5 → LinesPut (K.held out.old) (K.held out.new) }
    ensures complete { (script : List (Thread × Act)) (input : List ℕ) → S.left src.old ≡ Some input
        → IsText input script → (Rose (S.faults src.old) (S.faults src.new) → ⊥)
        → (Rose (K.faults out.old) (K.faults out.new) → ⊥) → (result ≡ 0) ⊎ (result ≡ 5) }
    ensures status { (result ≡ 0) ⊎ ((2 ≤ result) × (result ≤ 5)) }
{
    match read_script(alloc, src) {
        Ok(script) => list_run(rt, alloc, &script, out),
        Err(ScriptError::OutOfMemory) => NO_MEMORY,
        Err(ScriptError::ReadFault) => READ_FAULT,
        Err(ScriptError::Refused(fault)) => match write_refusal(fault, out) {
            Ok(()) => REFUSED,
            Err(_) => WRITE_FAULT,
        },
    }
}

// Runs the script in order and writes the listing of its cycles.
#[tactic(auto, using(script_runs::proofs::Runnable::can_run))]
fn list_run<K: Sink>(rt: &impl Wait, alloc: Global, script: &Script, out: &mut K) -> u8
    ensures done { result ≡ 0 → (h : Finished) × IsRunInOrder script.now h × (text : List ℕ)
        × IsListingOf h text × Appends (K.held out.old) (K.held out.new) text }
    ensures write { result ≡ 4 → Rose (K.faults out.old) (K.faults out.new) }
    ensures part { result ≡ 4 → (h : Finished) × IsRunInOrder script.now h × (text : List ℕ)
        × IsListingOf h text × AppendsPart (K.held out.old) (K.held out.new) text }
    ensures memory { result ≡ 5 → LinesPut (K.held out.old) (K.held out.new) }
    ensures status { (result ≡ 0) ⊎ (result ≡ 4) ⊎ (result ≡ 5) }
{
    let Ok(compared) = run_compared(rt, alloc, script.lines(), out) else {
        return NO_MEMORY;
    };
    match compared.written {
        Ok(()) => DONE,
        Err(_) => WRITE_FAULT,
    }
}
