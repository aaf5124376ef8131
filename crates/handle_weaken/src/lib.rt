// Weakening and restoring the handles of a bridge cycle.
//
// Between the mirroring and the clear of a cycle, with a peer collection in between:
//
//     weaken_all(side, draw, index, snap, &graph);
//     ..
//     restore_all(side, draw, index, &graph, &mut alive);
//
// The bridge asks the peer heap which of its dead part's peers live. Once the cycle's references stand, it makes the
// handles of the dead part weak, one by one (`weaken_one`) or all (`weaken_all`), lets the peer heap mark and sweep,
// and restores them in the same order (`restore_one`, `restore_all`). Each handle is removed then, and one whose peer
// is left is replaced by a strong one with a new number; `Alive` has the answers, one for each bridge node in order.
//
// Each handle that is weakened or restored is one entry of the driver on the peer side: `peer_heap` makes it and keeps
// what the definitions say of it. So what is promised of all of them is that these entries were made one after another,
// each lawful, and nothing else. No call takes memory, and none makes, frees or changes a peer.
//
// A call has the peer side in hand by `&mut`, so nobody comes between the handles of one call; between two calls others
// may have made entries.
#![tactic(auto)]

mod restoring;
mod weakening;

pub use restoring::{restore_all, restore_one};
pub use weakening::{weaken_all, weaken_one};
