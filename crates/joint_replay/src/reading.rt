// What is read of a joint state, for those that show it.

ghost use Rattle.std.specs.Prelude.{◌≡◌, All, length};
ghost use Rattle.std.specs.Option.{option_map};
ghost use Rattle.joint_machine.specs.Components.{Rises};
ghost use Rattle.joint_machine.specs.Heaps.{IsMade, numbered_at};
ghost use Rattle.joint_machine.specs.Managed.{candidates_of, handle_of};
ghost use Rattle.joint_machine.specs.Peers.{sort_of};
ghost use Rattle.joint_replay.specs.Plain.{dead_of, issued_as};

use crate::heap::PlainHeap;
use crate::peers::Handle;
use crate::state::JointState;
use joint_model::{Kind, Sort};

impl JointState {
    /// The heap of the managed objects. Each of them has a place for the handle that it holds.
    pub fn objects(&self) -> &PlainHeap
        ensures heap { result.now ≡ self.now.graph.managed.heap }
        ensures places { length self.now.graph.managed.held ≡ length self.now.graph.managed.heap.fields }
    {
        &self.managed.heap
    }

    /// The heap of the peers.
    pub fn peers(&self) -> &PlainHeap
        ensures { result.now ≡ self.now.graph.peers.heap }
    {
        self.peers.heap()
    }

    /// The kind of managed object `m`; None where there is no such object.
    pub fn kind(&self, m: u32) -> Option<Kind>
        ensures { numbered_at self.now.graph.managed.kinds m ≡ result }
    {
        if m == 0 || m as usize > self.managed.kinds.len() {
            return None;
        }
        Some(self.managed.kinds[m as usize - 1])
    }

    /// The sort of peer `p`; `Framework` where there is no such peer.
    pub fn sort(&self, p: u32) -> Sort
        ensures { result ≡ sort_of self.now.graph.peers p }
    {
        self.peers.sort(p)
    }

    /// The handle that managed object `m` holds; a freed one holds none.
    pub fn object_handle(&self, m: u32) -> Option<u32>
        ensures { result ≡ handle_of self.now.graph.managed m }
    {
        self.managed.handle(m)
    }

    /// The pins; a managed thread's stands at its number.
    pub fn pins(&self) -> &[Option<u32>]
        ensures slots { result.now ≡ self.now.graph.managed.pins }
        ensures count { length result.now ≡ 9 }
    {
        &self.managed.pins
    }

    /// The handle of each global name.
    pub fn names(&self) -> &[Option<u32>]
        ensures handles { result.now ≡ self.now.graph.peers.names }
        ensures count { length result.now ≡ 64 }
    {
        self.peers.names()
    }

    /// How many handles were issued: the number of the last one.
    pub fn handles(&self) -> u32
        ensures { result ≡ length self.now.graph.peers.issued }
    {
        self.peers.handles()
    }

    /// Handle `h` as it was issued; None where none was issued with that number.
    pub fn handle(&self, h: u32) -> Option<Handle>
        ensures { numbered_at self.now.graph.peers.issued h ≡ option_map issued_as result }
    {
        self.peers.handle(h)
    }

    /// Whether handle `h` was removed; None where none was issued with that number.
    pub fn is_removed(&self, h: u32) -> Option<bool>
        ensures { numbered_at self.now.graph.removed h ≡ result }
    {
        if h == 0 || h as usize > self.removed.len() {
            return None;
        }
        Some(self.removed[h as usize - 1])
    }

    /// The candidates of the open cycle; none where no cycle is open.
    pub fn candidates(&self) -> &[u32]
        ensures { result.now ≡ candidates_of self.now.graph.managed }
    {
        match &self.managed.cycle {
            None => &[],
            Some(open) => open.candidates(),
        }
    }

    /// The dead part of the open cycle, by rising number; none where no cycle is open.
    pub fn dead(&self) -> &[u32]
        ensures rows { result.now ≡ dead_of self.now.graph.managed }
        ensures rise { Rises result.now }
        ensures made { All (IsMade self.now.graph.managed.heap) result.now }
    {
        match &self.managed.cycle {
            None => &[],
            Some(open) => open.dead(),
        }
    }
}
