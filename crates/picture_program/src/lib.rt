// The program `heap_picture` as a library: a picture of both heaps at an entry of a report, or of what came and went
// between two, as a whole or as much of it as lies around a node.
//
// A run of the program is one top call, `picture_main`, which `run_program` makes for the words of a process.
#![tactic(auto)]

mod drawing;
mod lines;
mod program;
mod sheets;
mod statuses;
mod top;
mod words;

pub use program::run_program;
pub use top::picture_main;
