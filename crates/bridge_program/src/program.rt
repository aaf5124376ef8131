// The program around the top call: the words that it was given, and the exit code with which the process ends.

ghost use Rattle.std.specs.Prelude.{◌≡◌, ◌≢◌, ◌⊎◌, IfErr};
ghost use Rattle.std.specs.IoError.{error_kind};
ghost use Rattle.std.specs.Process.{exit_status};
ghost use Rattle.bridge_program.specs.Ends.{Ends};
ghost use Rattle.std_streams.specs.Words.{words_told};

use crate::statuses::NO_MEMORY;
use crate::top::bridge_main;
use bridge_script::Turnstile;
use byte_streams::{Sink, Source};
use std::alloc::Global;
use std::env::Args;
use std::io;
use std::io::ErrorKind;
use std::process::ExitCode;
use std::sync::Wait;
use std::thread::Threads;
use std_streams::words_of;

/// Makes the top call for the words after the program's name, and answers the exit code of the process, which is the
/// status of that call.
///
/// Arguments that aren't text are no command: they are answered as no words are. Where there is no memory for the
/// words the exit code is 5, and nothing is read or written.
pub fn run_program<R: Threads + Wait + Sync, S: Source, K: Sink, T: Turnstile + Sync>(
    rt: &R,
    alloc: Global,
    args: io::Result<Args>,
    src: &mut S,
    out: &mut K,
    turn: &T,
) -> ExitCode
    ensures ends { Ends (words_told args) (S.left src.old) (S.left src.new) (S.faults src.old) (S.faults src.new)
        (K.held out.old) (K.held out.new) (K.faults out.old) (K.faults out.new) (exit_status result) }
    ensures memory { IfErr args (λ e. error_kind e ≡ ErrorKind.OutOfMemory → exit_status result ≡ 5) }
    ensures no_text { IfErr args (λ e. error_kind e ≢ ErrorKind.OutOfMemory
        → (exit_status result ≡ 1) ⊎ (exit_status result ≡ 4)) }
{
    match words_of(alloc, args) {
        Ok(words) => ExitCode::from(bridge_main(rt, alloc, &words, src, out, turn)),
        Err(_) => ExitCode::from(NO_MEMORY),
    }
}
