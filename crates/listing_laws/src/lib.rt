// What the listing of a history is, and laws of it, over the definitions alone.
//
// A listing has for each snapshot of a history, in order, the components, heavy classes and cross-references of the
// dead part that it leaves: the contraction that the definition has. Whoever runs a script and lists its cycles does it
// piece by piece; the laws say
//
// - that the snapshots of a linked history are the driver's, so that the driver's own entries tell them all;
// - that a line of the driver makes no snapshot, unless it is `snap` or `cycle` and no cycle is open, and that the
//   phases which are left make none;
// - that what is listed of snapshots stays so as more of the managed list is known.
//
// `specs/` read alone tells what is true: Listings first, then Writing and Laws. No value is made and nothing runs.
#![tactic(auto)]

mod laws;

pub use laws::{listings_grow, snapshots_are_the_drivers, what_was_seen_is_listed};
