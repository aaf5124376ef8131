// The end of a marking: peers without a mark are freed, and the handles on them are cleared.

ghost use Rattle.std.specs.Prelude.{◌≡◌, All, List, map, length, drop};
ghost use Rattle.joint_machine.specs.Heaps.{with_freed};
ghost use Rattle.joint_machine.specs.Histories.{peer_numbers};
ghost use Rattle.joint_machine.specs.PeerReplay.{cleared_rows};
ghost use Rattle.global_handles.specs.Rows.{IsRising, IsWeakFor};
ghost use Rattle.row_heap.specs.Marks.{AreWhite};
ghost use Rattle.peer_heap.specs.Marking.{IsWholeMarking, cleared_on};
ghost use Rattle.peer_heap.specs.Rows.{AreRowsIssued, issued_as, table_to};
ghost use Rattle.peer_heap.specs.declared.issues.Issue.{Issue};

use crate::rows::PeerRows;
use global_handles::HandleTable;
use joint_model::PNum;

impl PeerRows {
    /// Frees the live peers without a mark, which come last in the list of freed ones, in rising order, and clears the
    /// handles on them. It takes no memory. The marking has to be at its end.
    pub(crate) fn sweep(&mut self)
        requires { IsWholeMarking self.old }
        ensures white { AreWhite self.old.rows (drop (length self.old.rows.heap.freed) self.new.rows.heap.freed) }
        ensures rest { let freed = drop (length self.old.rows.heap.freed) self.new.rows.heap.freed in
            self.new ≡ record self.old {
              rows = record self.old.rows
                  { heap = with_freed self.old.rows.heap freed; links = self.new.rows.links };
              table = cleared_rows freed self.old.issued self.old.table;
            } }
    {
        let before = self.heap.freed().len();
        self.heap.sweep();
        clear_freed(&mut self.table, &self.heap.freed()[before..]);
    }
}

// Clears the handles on peers that were freed, which are weak. It takes no memory, and visits no handle but those that
// it clears.
fn clear_freed(table: &mut HandleTable, freed: &[PNum])
    requires { All (λ p. All (IsWeakFor p) table.old.rows) freed.now }
    ensures rows { table.new.rows ≡ map (cleared_on (peer_numbers freed.now)) table.old.rows }
    ensures made { table.new.made ≡ table.old.made }
    ensures last { table.new.last ≡ table.old.last }
    ensures rising { IsRising table.new }
    ensures cleared { (issued : List Issue) → table.old.last ≡ length issued
        → AreRowsIssued table.old.rows issued
        → table_to table.new.rows table.new.last ≡ cleared_rows (peer_numbers freed.now)
        (map issued_as issued) (table_to table.old.rows table.old.last) }
{
    for p in freed {
        table.clear_target(*p);
    }
    let _last = table.last();
}
