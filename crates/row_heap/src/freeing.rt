// Freeing: rows are removed and give their memory back, and their numbers come last in the list of freed objects, which
// has room for each.

ghost use Rattle.std.specs.Prelude.{◌≡◌, ℕ, ◌+◌, ◌≤◌, ◌↔◌, ◌++◌, List, map, All, Contains, length, vec_capacity};
ghost use Rattle.joint_machine.specs.Components.{Rises};
ghost use Rattle.joint_machine.specs.Heaps.{with_freed};
ghost use Rattle.heap_rules.specs.Flags.{IsUp, up_count};
ghost use Rattle.heap_rules.specs.Tidy.{CanFree};
ghost use Rattle.reachability.specs.Marks.{HasMark};
ghost use Rattle.row_heap.specs.Rows.{NoneRefers, RowsFreed, stands_in};

use crate::heap::RowHeap;
use crate::places::Rows;
use heap_rules::Number;

impl<N: Number> RowHeap<N> {
    /// Frees the objects of a list, which have no mark from then on. It takes no memory, and its time goes by the list
    /// alone.
    pub fn free(&mut self, xs: &[N])
        requires can { CanFree self.old.heap (map N.number xs.now) }
        requires ends { NoneRefers self.old (map N.number xs.now) }
        ensures heap { self.new.heap ≡ with_freed self.old.heap (map N.number xs.now) }
        ensures marks { (x : ℕ) → HasMark self.new.marks x
            ↔ (HasMark self.old.marks x × (Contains (map N.number xs.now) x → ⊥)) }
        ensures rest { self.new ≡ record self.old
            { heap = self.new.heap; marks = self.new.marks; links = self.new.links } }
    {
        self.rows.recall_marked_stand();
        free_rows(xs, &mut self.rows, &mut self.freed);
        self.rows.recall_marked_stand();
    }
}

// Removes the rows of a list, and puts their numbers on the list of freed ones.
fn free_rows<N: Number>(xs: &[N], rows: &mut Rows, freed: &mut Vec<N>)
    requires up { All (IsUp (stands_in rows.old)) (map N.number xs.now) }
    requires rises { Rises (map N.number xs.now) }
    requires room { length freed.old.items + up_count (stands_in rows.old) ≤ vec_capacity freed.old }
    ensures rows { RowsFreed (map N.number xs.now) rows.old rows.new }
    ensures freed { freed.new.items ≡ freed.old.items ++ xs.now }
    ensures capacity { vec_capacity freed.new ≡ vec_capacity freed.old }
{
    for x in xs {
        rows.free(x.get() as usize);
        freed.push_reserved(*x);
    }
}
