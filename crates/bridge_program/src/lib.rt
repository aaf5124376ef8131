// The program `bridge_run` as a library: the bridge between two heaps, run over a script that is read, or over one that
// is made.
//
// A run of the program is one top call, `bridge_main`:
//
//     words behind the program's name        serial, threads, compare, grefs, leaks, check or gen with its three pairs,
//                                                else the usage line
//       source, read to its end              a script, else the line of its first fault; `gen` makes its script and
//                                                reads nothing, `leaks` reads a log and `check` a report
//         the run, by `script_runs`          one history of all that both heaps and the driver did
//           sink                             the report of the history, for `gen` its summary, for `compare` the
//                                                listing of its cycles, for `grefs` its reference log; or for `leaks`
//                                                what the log that was read never releases, for `check` what the report
//                                                is
//
// and the answer is the exit status. `run_program` makes that call for the words of a process.
//
// Who runs: with `serial` this thread alone. With `threads` each script thread has a thread of its own while the script
// runs; all have ended before anything is written. Nobody else has the source, the sink or the heaps.
//
// What is promised, for every script and every schedule: the report is that of one linked history of the script's
// lines, which is a run of the one machine whose graph joins both heaps, sound and complete; and each other status says
// what is wrong, and what was written then. `specs/Top.antt` and `specs/Ends.antt` have it word by word, and
// docs/PROVED.md tells it promise by promise. That the program returns, or goes on, is not promised.
//
// It is a crate of its own, apart from `main`, so that the tests of whole runs stand in another one (`program_tests`):
// a crate with tests is proved twice.
#![tactic(auto)]

mod checked;
mod compared;
mod generated;
mod leaks;
mod logged;
mod program;
mod statuses;
mod top;

pub use program::run_program;
pub use top::bridge_main;
