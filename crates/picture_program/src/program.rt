// The program around the top call: the words that it was given, and the exit code with which the process ends.

ghost use Rattle.std.specs.Process.{exit_status};
ghost use Rattle.picture_program.specs.Top.{Ends};
ghost use Rattle.std_streams.specs.Words.{words_told};

use crate::statuses::NO_MEMORY;
use crate::top::picture_main;
use byte_streams::{Sink, Source};
use std::alloc::Global;
use std::env::Args;
use std::io;
use std::process::ExitCode;
use std_streams::words_of;

/// Makes the top call for the words after the program's name, and answers the exit code of the process, which is the
/// status of that call.
///
/// Arguments that aren't text ask for no picture: they are answered as no words are. Where there is no memory for the
/// words the exit code is 5, and nothing is read or written.
pub fn run_program<S: Source, K: Sink>(
    alloc: Global,
    args: io::Result<Args>,
    src: &mut S,
    out: &mut K,
) -> ExitCode
    ensures ends { Ends (words_told args) (S.left src.old) (S.left src.new) (S.faults src.old) (S.faults src.new)
        (K.held out.old) (K.held out.new) (K.faults out.old) (K.faults out.new) (exit_status result) }
{
    match words_of(alloc, args) {
        Ok(words) => ExitCode::from(picture_main(alloc, &words, src, out)),
        Err(_) => ExitCode::from(NO_MEMORY),
    }
}
