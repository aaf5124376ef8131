// The run of a script over the shared bridge, line after line or by a thread of its own for each of its threads.
//
//     let history = run_serial(rt, alloc, &script)?;
//     let history = run_threads(rt, alloc, &script, &FreeTurn)?;
//
// A run makes an order, both heaps (behind their locks where there are threads), and the desk with a caller for each
// thread; it runs each line by its thread's caller, the lines of `c` by the driver, makes the phases that the driver's
// lines have left, gives all callers back, and answers the finished history.
//
// - `run_serial` runs the lines one after another. The driver is told of each line's entries, and tells the next line's
//   caller all that it knows, so that a later line's entries have greater numbers. Each read has the one machine's
//   reply, and the history is the only one of these lines in their order of which that is so.
// - `run_threads` runs each thread's lines in a job of its own, the driver's in the first one, each line after its turn
//   at the turnstile. Its history holds each thread's lines in their order, and what came between is told by the
//   entries' numbers. Managed threads read cells without a lock, and no wait answers `pending`.
// - `run_compared` runs a script as `run_serial` does, and writes what the second component pass finds in each cycle's
//   dead part.
// - `run_serial_then_cycle` and `run_threads_then_cycle` run one cycle more once all threads have ended; its entries
//   stand behind all others.
//
// Every history is linked, with all notices that were queued; it is a run of the one machine whose graph joins both
// heaps, sound and complete, in which each cycle ends. Where a call finds no memory the run ends without a history,
// after all jobs have ended.
//
// `specs/Running.antt` says which lines can be run and what each makes; what the history is then stands in `run_laws`.
#![tactic(auto)]

mod compared;
mod last_cycle;
mod lines;
mod places;
mod serial;
mod threads;
mod workers;

pub use compared::{Compared, run_compared};
pub use last_cycle::{run_serial_then_cycle, run_threads_then_cycle};
pub use serial::run_serial;
pub use threads::run_threads;
