// A picture of both heaps, as a plain value.
//
//     let picture = picture_of(alloc, &view)?;
//
// A [`Picture`] has a node for each unfreed object of either heap, arrows, and what the open cycle has found dead. An
// arrow begins at a node or at a box: a variable, a static, a pin, a global name, or a handle that no managed object
// holds.
//
// An arrow of a field, of a box, and of a handle that a managed object holds counts: over these the joint machine
// reaches what it reaches. A weak global reference and the references that a cycle adds are drawn, and don't count.
//
// A picture is its maker's own. What is promised: it is `drawing_of` of `specs/Drawing.antt`, a function of what there
// is to see; `picture_laws` says what is so of it.
#![tactic(auto)]

mod drawing;
mod flags;
mod handles;
mod pictures;
mod slots;

pub use drawing::picture_of;
pub use pictures::{Arrow, ObjectNode, PeerNode, Picture, Side, Slots, Spot, Style};
