// The run of a generated script, and its summary.

ghost use Rattle.std.specs.Prelude.{◌≡◌, ◌≤◌, ◌⊎◌, IfOk, length};
ghost use Rattle.std.specs.Io.KnownBytes.{Appends, Keeps};
ghost use Rattle.generated_laws.specs.Counts.{generated_tally};
ghost use Rattle.bridge_program.specs.Top.{IsGeneratedRunIn, IsGeneratedRunOf};
ghost use Rattle.byte_streams.specs.Faults.{AppendsPart, Rose};
ghost use Rattle.joint_history.specs.Ending.{HasEndNumbers};
ghost use Rattle.joint_machine.specs.Histories.{Finished};
ghost use Rattle.run_laws.specs.LastCycle.{DrivesCycles};
ghost use Rattle.run_summary.specs.Summary.{summary_text};
ghost use Rattle.run_summary.specs.Tallies.{tally_of};
ghost use Rattle.script_generator.specs.Generated.{generated};

use crate::statuses::{DONE, NO_MEMORY, WRITE_FAULT};
use bridge_script::{Script, Turnstile};
use byte_streams::Sink;
use command_words::Mode;
use joint_history::RunEnd;
use run_summary::{Objects, Tally, write_summary};
use script_generator::generate;
use script_runs::{run_serial_then_cycle, run_threads_then_cycle};
use std::alloc::{AllocError, Global};
use std::sync::Wait;
use std::thread::Threads;
use summary_laws::tallies_are_of_states;

/// Makes the script of a seed and a size, runs it in that mode and one cycle more once all threads have ended, and
/// writes the summary of that run's last state. Answers the program's exit status: 0, 4 where the sink failed, or 5
/// where there was no memory, and nothing is written then.
#[tactic(auto, using(crate::proofs::Alike::all_of_last, crate::proofs::Alike::part_of_last))]
pub fn print_generated<R: Threads + Wait + Sync, K: Sink, T: Turnstile + Sync>(
    rt: &R,
    alloc: Global,
    seed: u64,
    size: u32,
    mode: Mode,
    out: &mut K,
    turn: &T,
) -> u8
    requires { size ≤ 2800 }
    ensures done { result ≡ 0 → (h : Finished) × IsGeneratedRunOf mode seed size h
        × Appends (K.held out.old) (K.held out.new)
        (summary_text seed size mode (length (generated seed size)) (generated_tally seed size)) }
    ensures write { result ≡ 4 → Rose (K.faults out.old) (K.faults out.new) }
    ensures part { result ≡ 4 → (h : Finished) × IsGeneratedRunOf mode seed size h
        × AppendsPart (K.held out.old) (K.held out.new)
        (summary_text seed size mode (length (generated seed size)) (generated_tally seed size)) }
    ensures memory { result ≡ 5 → Keeps (K.held out.old) (K.held out.new) }
    ensures status { (result ≡ 0) ⊎ (result ≡ 4) ⊎ (result ≡ 5) }
{
    let Ok(script) = generate(alloc, seed, size) else {
        return NO_MEMORY;
    };
    let lines = script.len();
    let Ok(end) = run(rt, alloc, mode, script, turn) else {
        return NO_MEMORY;
    };
    match write_summary(seed, size, mode, lines, &tally(&end), out) {
        Ok(()) => DONE,
        Err(_) => WRITE_FAULT,
    }
}

// Runs the script in that mode and one cycle more. Answers `AllocError` where there is no memory.
#[tactic(auto, using(script_runs::proofs::Runnable::can_run))]
fn run<R: Threads + Wait + Sync, T: Turnstile + Sync>(
    rt: &R,
    alloc: Global,
    mode: Mode,
    script: Script,
    turn: &T,
) -> Result<RunEnd, AllocError>
    requires { DrivesCycles script }
    ensures run { IfOk result (λ e. IsGeneratedRunIn mode script e.history) }
    ensures counted { IfOk result HasEndNumbers }
{
    match mode {
        Mode::Serial => run_serial_then_cycle(rt, alloc, script.into_lines()),
        Mode::Threads => run_threads_then_cycle(rt, alloc, script.lines(), turn),
    }
}

// The tally of a run's entries, which is that of its last state.
fn tally(end: &RunEnd) -> Tally
    requires { HasEndNumbers end.now }
    ensures { result ≡ tally_of end.now.history.entries }
{
    tallies_are_of_states();
    Tally {
        cycles: end.cycles as u64,
        made: Objects {
            managed: end.managed.all as u64,
            peers: end.peers.all as u64,
            handles: end.handles.all as u64,
        },
        left: Objects {
            managed: end.managed.left as u64,
            peers: end.peers.left as u64,
            handles: end.handles.left as u64,
        },
    }
}
