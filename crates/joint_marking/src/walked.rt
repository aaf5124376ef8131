// What the joint marking sees of both heaps.

ghost use Rattle.std.specs.Prelude.{◌≡◌, ℕ, ◌<◌, ◌≤◌, ◌↔◌, Some, IfSome, IsTrue, length};
ghost use Rattle.std.specs.Option.{option_map};
ghost use Rattle.joint_machine.specs.Heaps.{MOST, IsLive, fields_of, slot};
ghost use Rattle.joint_machine.specs.Joint.{Graph, IsJoined};

use joint_machine::{MNum, PNum};

/// Both heaps and the handles between them, as one graph that can be read.
pub trait JointWalked {
    ghost graph: { Self → Graph };

    /// How many managed objects were made: the number of the last one.
    fn objects(&self) -> u32
        ensures made { result ≡ length (graph self.now).managed.heap.fields }
        ensures most { result ≤ MOST };

    /// How many peers were made: the number of the last one.
    fn peers(&self) -> u32
        ensures made { result ≡ length (graph self.now).peers.heap.fields }
        ensures most { result ≤ MOST };

    /// Whether the managed object was made and isn't freed.
    fn is_live_object(&self, x: MNum) -> bool
        ensures { IsTrue result ↔ IsLive (graph self.now).managed.heap x.0 };

    /// Whether the peer was made and isn't freed.
    fn is_live_peer(&self, p: PNum) -> bool
        ensures { IsTrue result ↔ IsLive (graph self.now).peers.heap p.0 };

    /// How many fields a live object has.
    fn object_fields(&self, x: MNum) -> usize
        requires { IsLive (graph self.now).managed.heap x.0 }
        ensures { result ≡ length (fields_of (graph self.now).managed.heap x.0) };

    /// What field `i` of a live object holds, a live object or nothing.
    fn object_field(&self, x: MNum, i: usize) -> Option<MNum>
        requires live { IsLive (graph self.now).managed.heap x.0 }
        requires index { i < length (fields_of (graph self.now).managed.heap x.0) }
        ensures value { slot (fields_of (graph self.now).managed.heap x.0) i ≡ option_map (λ y. y.0) result }
        ensures live { IfSome result (λ y. IsLive (graph self.now).managed.heap y.0) };

    /// How many fields a live peer has.
    fn peer_fields(&self, p: PNum) -> usize
        requires { IsLive (graph self.now).peers.heap p.0 }
        ensures { result ≡ length (fields_of (graph self.now).peers.heap p.0) };

    /// What field `i` of a live peer holds, a live peer or nothing.
    fn peer_field(&self, p: PNum, i: usize) -> Option<PNum>
        requires live { IsLive (graph self.now).peers.heap p.0 }
        requires index { i < length (fields_of (graph self.now).peers.heap p.0) }
        ensures value { slot (fields_of (graph self.now).peers.heap p.0) i ≡ option_map (λ q. q.0) result }
        ensures live { IfSome result (λ q. IsLive (graph self.now).peers.heap q.0) };

    /// The twin of a live object: the peer of the handle that it holds, where it holds one and the peer is live.
    fn twin(&self, x: MNum) -> Option<PNum>
        requires { IsLive (graph self.now).managed.heap x.0 }
        ensures { (p : ℕ) → (option_map (λ q. q.0) result ≡ Some p) ↔ IsJoined (graph self.now) x.0 p };
}
