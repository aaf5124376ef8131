// What the lines of a global reference log leave behind: which references are live, the life of each, cycles and faults.
//
//     let mut log = Log::new(alloc, None, 2)?;
//     log.read_line(line)?;
//     ..
//     let live = log.strong().len();
//
// A reference's life goes on over a cycle, where it becomes weak and strong again: it has the site that made it first. So
// what is left at the end is told by the place that made it, and not by the bridge that restored it last.
//
// Nothing is refused. A value that is made where it is live, used or released where it isn't, is a fault; a mark whose
// counts aren't those by the lines is counted, and the first is told.
//
// What is promised: behind each line stands `after_line` of `specs/Lines.antt`, a function of the state before and the
// line. Memory goes by the lives and not by the bytes. Where there is none for a line, the log is of no use any more.
#![tactic(auto)]

mod cycles;
mod holding;
mod lines;
mod lives;
mod logs;
mod places;
mod tallies;
mod threads;

pub use cycles::{Cycle, Cycles, Seen, Turn};
pub use holding::Strength;
pub use lives::{Life, Stage};
pub use logs::{Counts, Differ, Difference, Fault, Form, Log, What};
pub use tallies::{Change, Tally, Whole};
pub use threads::{Pending, Threads};
