// The begin of a marking: what slots and strong handles name is grey. And its slices: grey peers are made black, so
// many at a time.
//
// No list of roots is made: each filled slot is visited, and each row of the table, so a begin takes no memory, and
// neither does a slice.

ghost use Rattle.std.specs.Prelude.{◌≡◌, ℕ, ◌<◌, ◌≤◌, [], ◌∷◌, List, Contains, length, true};
ghost use Rattle.joint_machine.specs.Heaps.{IsLive};
ghost use Rattle.joint_machine.specs.PeerReplay.{strong_peers};
ghost use Rattle.row_marking.specs.Traces.{BlackensTo, Chained, Greyed, IsGreyList};
ghost use Rattle.row_heap.specs.Marks.{AreEndsLive, EdgeOf};
ghost use Rattle.peer_heap.specs.Marking.{AreRootsGrey, IsRoot, strong_in};

use crate::rows::PeerRows;
use global_handles::{HandleRow, HandleTable, Strength};
use joint_model::PNum;
use row_heap::RowHeap;
use row_marking::visit;

impl PeerRows {
    /// Begins a marking: what slots and strong handles name is grey, and nothing else has a mark. Answers where the
    /// list of grey peers begins. It takes no memory.
    pub(crate) fn mark(&mut self) -> u32
        requires strong_ones { (p : ℕ) → Contains (strong_peers self.old.issued self.old.table) p
            → IsLive self.old.rows.heap p }
        requires ends { AreEndsLive self.old.rows }
        ensures grey { AreRootsGrey (IsRoot self.old.rows.heap (strong_peers self.old.issued self.old.table))
            self.new.rows.marks self.new.rows.links result }
        ensures rest { self.new ≡ record self.old {
          rows = record self.old.rows {
            follows = true;
            marks = self.new.rows.marks;
            links = self.new.rows.links;
          };
        } }
    {
        self.table.settle();
        mark_roots(&mut self.heap, &self.table)
    }

    /// Makes at most so many grey peers black: what each leads to now is shaded. Answers how many; where these are
    /// fewer, none is grey. It takes no memory.
    pub(crate) fn blacken(&mut self, grey: &mut u32, most: u32) -> u32
        requires { IsGreyList self.old.rows.marks self.old.rows.links grey.old }
        ensures steps { (greys : List ℕ) → Chained self.old.rows.marks self.old.rows.links grey.old greys
            → BlackensTo (EdgeOf self.old.rows) result self.old.rows.marks
            greys self.new.rows.marks self.new.rows.links grey.new }
        ensures most { result ≤ most }
        ensures few { result ≤ 65536 }
        ensures made { length self.old.rows.heap.fields ≤ 65535 }
        ensures end { result < most → grey.new ≡ 0 }
        ensures rest { self.new ≡ record self.old
            { rows = record self.old.rows { marks = self.new.rows.marks; links = self.new.rows.links } } }
    {
        self.heap.recall_marks_len();
        self.heap.recall_tidy();
        self.heap.mark_some(grey, most)
    }
}

// Greys what slots and strong handles name; nothing else has a mark. Answers where the list of grey peers begins. It
// takes no memory.
fn mark_roots(heap: &mut RowHeap<PNum>, table: &HandleTable) -> u32
    requires settled { table.now.holes ≡ 0 }
    requires live { (p : ℕ) → Contains (strong_in table.now.rows) p → IsLive heap.old.heap p }
    requires ends { AreEndsLive heap.old }
    ensures grey { AreRootsGrey (IsRoot heap.old.heap (strong_in table.now.rows)) heap.new.marks heap.new.links result }
    ensures rest { heap.new ≡ record heap.old { follows = true; marks = heap.new.marks; links = heap.new.links } }
{
    let mut grey = 0;
    heap.begin_marking(true);
    heap.visit_slots(&mut grey);
    visit_strong(heap, table, &mut grey);
    grey
}

// Marks what strong handles name.
fn visit_strong(heap: &mut RowHeap<PNum>, table: &HandleTable, grey: &mut u32)
    requires settled { table.now.holes ≡ 0 }
    requires live { (p : ℕ) → Contains (strong_in table.now.rows) p → IsLive heap.old.heap p }
    ensures greyed { Greyed (Contains (strong_in table.now.rows)) heap.old.marks
        heap.old.links grey.old heap.new.marks heap.new.links grey.new }
    ensures rest { heap.new ≡ record heap.old { marks = heap.new.marks; links = heap.new.links } }
{
    for i in 0..table.len() {
        visit_row(heap, table.nth(i), grey);
    }
}

// Marks the peer of a handle, if that is strong.
fn visit_row(heap: &mut RowHeap<PNum>, row: HandleRow, grey: &mut u32)
    requires live { row.strength ≡ Strength.Strong → IsLive heap.old.heap row.peer.0 }
    ensures greyed { Greyed (Contains (strong_in (row ∷ []))) heap.old.marks
        heap.old.links grey.old heap.new.marks heap.new.links grey.new }
    ensures rest { heap.new ≡ record heap.old { marks = heap.new.marks; links = heap.new.links } }
{
    if let Strength::Strong = row.strength {
        visit(heap, row.peer.0, grey);
    }
}
