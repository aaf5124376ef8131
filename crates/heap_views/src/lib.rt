// What there is to see of both heaps after an entry of a history.
//
//     match view_after(alloc, &history, n)? {
//         Some(view) => ..,
//         None => ..,
//     }
//
// A [`HeapView`] is the joint machine's state after the entries so far, with which handles cycles made weak and which
// references the open cycle added between peers. It goes from entry to entry: steps of the joint machine are made by
// `joint_replay`, which judges each one.
//
// A view is its caller's own. What is promised: a view is answered exactly where the entries are steps of the joint
// machine, and it is what `specs/Views.antt` says of them.
#![tactic(auto)]

mod mirrored;
mod views;

pub use mirrored::{MirrorEnd, mirrored_refs};
pub use views::{HeapView, view_after};
