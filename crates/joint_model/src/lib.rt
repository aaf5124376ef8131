// Lists of entries and the histories that they make, over the definitions of `joint_machine`, whose types are handed
// on.
//
// A [`Draw`] gives an entry its number; a side puts its entries into [`Entries`], for which it took room; and a run's
// end joins the lists into one [`History`], which is only read. The functions promise that these hold just what was put
// in, in its order. How an entry is packed in a list is seen by nobody else.
//
//     entries.reserve(1)?;
//     let number = enter(&mut entries, &mut draw, made, target, &freed);
#![tactic(auto)]

mod draws;
mod finished;
mod joins;
mod kept;
mod leaders;
mod lists;
mod marks;
mod packed;
mod past;
mod sides;

pub use draws::{Counter, Draw, counted_in_turn, drawn_in_turn};
pub use finished::{History, JoinFault, Walk};
pub use joint_machine::{
    Act, CELLS, Cell, Cycle, Entry, GName, HNum, Kind, MNum, Made, Marking, NAMES, Op, PINS, PNum,
    Phase, PhaseWord, Reply, STATICS, Sort, Span, StaticNo, Thread, VARS, Var,
};
pub use leaders::Step;
pub use lists::{Alive, Entries, Holding, list_with_room};
pub use packed::{EntryParts, PackedEntry};
pub use past::PastHistory;
pub use sides::{enter, enter_handle, replays_go_on};
