// What is drawn on one sheet: the picture of one state, or of two with what came and what went between them, as a whole
// or as much of it as lies around a node.
//
//     let sheet = compared(alloc, &before, &after)?;
//     let part = around(alloc, &sheet, Side::Managed, 7, 3)?;
//
// A [`Sheet`] is three pictures: what stays, what came and what went. A sheet of one picture has all of it staying.
//
// A sheet is its maker's own. What is promised: what came is what the later picture has and the earlier one hasn't, by
// the nodes' names and by the arrows (`specs/Sheets.antt`); what lies around a node is what one comes to over at most
// so many of the arrows drawn, either way, with the arrows between (`specs/Around.antt`).
//
// Work grows with what is drawn, by look-ups in the order of keys (`specs/Keys.antt`): nothing scans a list for one
// node or arrow, and what lies around a node is looked for from the newest ends alone.
#![tactic(auto)]

mod comparing;
mod keys;
mod links;
mod near;
mod parts;
mod sheets;
mod surroundings;

pub use comparing::compared;
pub use sheets::{Sheet, alone};
pub use surroundings::around;
