// Sweeping: the live rows without a mark are removed, in rising order, and their numbers come last in the list of freed
// objects.

ghost use Rattle.std.specs.Prelude.{◌≡◌, ℕ, ◌+◌, ◌≤◌, ◌++◌, [], ◌∷◌, true, if◌then◌else◌, map, length, drop};
ghost use Rattle.std.specs.Prelude.{vec_capacity};
ghost use Rattle.joint_machine.specs.Heaps.{InSlot, MOST, numbered_set, with_freed};
ghost use Rattle.heap_rules.specs.Flags.{up_count};
ghost use Rattle.reachability.specs.Marks.{IsClosed, HasMark};
ghost use Rattle.row_heap.specs.Marks.{AreWhite, EdgeOf};
ghost use Rattle.row_heap.specs.Places.{gone, is_white, row_at};
ghost use Rattle.row_heap.specs.Rows.{RowsSwept, stands_in};

use crate::heap::RowHeap;
use crate::places::Rows;
use heap_rules::Number;

impl<N: Number> RowHeap<N> {
    /// Frees each live object without a mark, by one pass over the numbers from the oldest live object on, and puts
    /// them last on the list of freed ones, in rising order. It takes no memory. What slots name and what marked
    /// objects lead to has to be marked, as it is once a marking has come to its end.
    pub fn sweep(&mut self)
        requires slots { (x : ℕ) → InSlot self.old.heap x → HasMark self.old.marks x }
        requires shut { IsClosed (EdgeOf self.old) self.old.marks }
        ensures white { AreWhite self.old (drop (length self.old.heap.freed) self.new.heap.freed) }
        ensures heap { self.new.heap ≡ with_freed self.old.heap
            (drop (length self.old.heap.freed) self.new.heap.freed) }
        ensures rest { self.new ≡ record self.old { heap = self.new.heap; links = self.new.links } }
    {
        sweep_rows(self.gone as usize, &mut self.rows, &mut self.freed);
    }
}

// Removes each row that stands without a mark, and puts its number on the list of freed ones. None of the first rows up
// to a number does.
fn sweep_rows<N: Number>(from: usize, rows: &mut Rows, freed: &mut Vec<N>)
    requires from { from ≤ length rows.old }
    requires before { (x : ℕ) → x ≤ from → is_white (row_at rows.old x) ≡ true → ⊥ }
    requires most { length rows.old ≤ MOST }
    requires room { length freed.old.items + up_count (stands_in rows.old) ≤ vec_capacity freed.old }
    ensures swept { RowsSwept (length rows.old) rows.old rows.new
        (map N.number freed.old.items) (map N.number freed.new.items) }
    ensures capacity { vec_capacity freed.new ≡ vec_capacity freed.old }
{
    for i in from..rows.made() {
        sweep_row(i + 1, rows, freed);
    }
}

// Removes row `x`, if it stands without a mark, and puts its number on the list of freed ones.
fn sweep_row<N: Number>(x: usize, rows: &mut Rows, freed: &mut Vec<N>)
    requires row { (1 ≤ x) × (x ≤ length rows.old) }
    requires number { x ≤ MOST }
    requires room { is_white (row_at rows.old x) ≡ true → length freed.old.items + 1 ≤ vec_capacity freed.old }
    ensures rows { rows.new ≡ (if is_white (row_at rows.old x) then numbered_set rows.old x
        (gone (row_at rows.old x).fields) else rows.old) }
    ensures freed { map N.number freed.new.items
        ≡ (if is_white (row_at rows.old x) then map N.number
        freed.old.items ++ x ∷ [] else map N.number freed.old.items) }
    ensures capacity { vec_capacity freed.new ≡ vec_capacity freed.old }
{
    if rows.is_white(x) {
        rows.free(x);
        freed.push_reserved(N::of(x as u32));
    }
}
