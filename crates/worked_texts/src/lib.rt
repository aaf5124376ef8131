// Worked scripts, each with its status and what is written for it, as constants: rows behind one another, by subject in
// files of their own, and one script with its report by itself.
//
//     for row in rows_of(subject).split(|b| *b == b'#') {
//         if let Some((status, script, written)) = parts_of(row) {
//             // `bridge_run serial` over the script ends with that status, and writes that text
//         }
//     }
//
// They were worked out by hand from the rules, and no program wrote them: to whoever compares with them they are facts
// from outside. Nothing is proved of them, and nothing but tests stands on this crate: those of scripts that are run,
// of reports that are read again, and of histories that are judged. `.ci/built` takes the rows out of these files too.
//
// `rows_of` and `parts_of` promise nothing, take no memory and can't fail: what isn't written as a row has no parts.
#![tactic(auto)]

mod linked;
mod rows;
mod rows_cell_read;
mod rows_collected;
mod rows_cycle_limit;
mod rows_cycles;
mod rows_lines;
mod rows_many_leaves;
mod rows_read_and_dropped;
mod rows_read_and_stored;
mod rows_sliced;
mod rows_weakly_read;

pub use linked::{LINKED, LINKED_REPORT};
pub use rows::{SUBJECTS, parts_of, rows_of};
pub use rows_cycles::CYCLES;
pub use rows_lines::ACTIVITY;
pub use rows_many_leaves::MANY_LEAVES;
