// The words of the command line: which lists of words are a command of `bridge_run`, and which one.
//
// A program calls `command_of` once, with the words behind its own name, before it reads anything. What it gets is a
// plain value, which keeps nothing of the words:
//
//     serial                                     Command::Run { mode: Mode::Serial }
//     leaks                                      Command::Leaks
//     check                                      Command::Check
//     gen --size 8 --mode threads --seed 7       Command::Generate { seed: 7, size: 8, mode: Mode::Threads }
//     serial serial                              no command
//
// What is promised: words give a command exactly where `specs/Commands.antt` has them as that command's, one word, or
// `gen` with three pairs of words in any order; any other list gives none. No list of words is that of two commands
// (`words_tell_commands`). Nothing takes memory or waits, and no other thread has a part in it.
#![tactic(auto)]

mod commands;
mod laws;
mod reading;

pub use commands::{Command, Mode};
pub use laws::words_tell_commands;
pub use reading::command_of;
