// The joint machine of a garbage collector bridge: the types that all other crates share, and the definitions of the
// one machine whose graph joins the managed heap, the peer heap and the handles.
//
// A history is a list of entries. Each entry is one atomic step of a thread, with its reply. `specs/` says which
// histories are lawful, and what the joint machine does at each entry. This is what a reader has to believe: nothing of
// how histories are made or kept appears here.
#![tactic(auto)]

mod events;
mod lines;
mod names;

pub use events::{Entry, Made, Op, Reply};
pub use lines::Act;
pub use names::{
    CELLS, Cell, Cycle, GName, HNum, Kind, MNum, Marking, NAMES, PINS, PNum, Phase, PhaseWord,
    STATICS, Sort, Span, StaticNo, Thread, VARS, Var,
};
