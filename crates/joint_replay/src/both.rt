// Both parts as one graph, with clean heaps.

ghost use Rattle.joint_replay.specs.Graphs.{clean_graph, parts_graph};

use crate::managed::ManagedPart;
use crate::peers::PeerPart;
use joint_marking::JointWalked;
use joint_model::{MNum, PNum};

/// The managed objects and the peers, as they stand.
#[derive(Drop)]
pub(crate) struct BothParts<'a> {
    pub(crate) managed: &'a ManagedPart,
    pub(crate) peers: &'a PeerPart,
    pub(crate) removed: &'a [bool],
}

impl<'a> JointWalked for BothParts<'a> {
    ghost graph = { λ b. clean_graph (parts_graph b.managed.now b.peers.now b.removed.now) };

    fn objects(&self) -> u32 {
        self.managed.heap().clean_made()
    }

    fn peers(&self) -> u32 {
        self.peers.heap().clean_made()
    }

    fn is_live_object(&self, x: MNum) -> bool {
        self.managed.heap().clean_live(x.0)
    }

    fn is_live_peer(&self, p: PNum) -> bool {
        self.peers.heap().clean_live(p.0)
    }

    fn object_fields(&self, x: MNum) -> usize {
        self.managed.heap().clean_len(x.0)
    }

    fn object_field(&self, x: MNum, i: usize) -> Option<MNum> {
        match self.managed.heap().clean_field(x.0, i) {
            None => None,
            Some(y) => Some(MNum(y)),
        }
    }

    fn peer_fields(&self, p: PNum) -> usize {
        self.peers.heap().clean_len(p.0)
    }

    fn peer_field(&self, p: PNum, i: usize) -> Option<PNum> {
        match self.peers.heap().clean_field(p.0, i) {
            None => None,
            Some(q) => Some(PNum(q)),
        }
    }

    fn twin(&self, x: MNum) -> Option<PNum> {
        let Some(h) = self.managed.handle(x.0) else {
            return None;
        };
        let Some(p) = self.peers.peer_of(h) else {
            return None;
        };
        if self.peers.heap().is_live(p) {
            Some(PNum(p))
        } else {
            None
        }
    }
}
