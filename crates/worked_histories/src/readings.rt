// Reads that readers make as entries of their own.

ghost use Rattle.worked_histories.specs.Readings.{PendingReadings, PinnedReadings, PendingEnds, OwnCellIsSet};

/// Two reads while a cycle is open are pending, and the one after it finds the object gone.
pub fn pending_reads_by_readers()
    ensures { PendingReadings }
{}

/// A read fills the reader's pin, a second one finds it filled, and a cell that was never set is unset.
pub fn pinned_reads_by_readers()
    ensures { PinnedReadings }
{}

/// A read may be pending after the end of the cycle while its reader can't know of it, and not once it does.
pub fn pending_reads_end()
    ensures { PendingEnds }
{}

/// A read of a cell that its reader set can't find it unset.
pub fn own_cell_is_set()
    ensures { OwnCellIsSet }
{}
