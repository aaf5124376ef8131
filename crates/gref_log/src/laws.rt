// The laws, the contracts of functions that do nothing.

ghost use Rattle.gref_log.specs.Laws.{CountsAreTheTables, EntriesLeaveTheTable, LeftAreTheRows, LiveAreTheRows};
ghost use Rattle.gref_log.specs.Laws.{LogsAreLogs};

/// After the last line of each entry of a linked history what is live is what the handle table says: `grefc` is the
/// number of its strong rows, `gwrefc` that of its weak rows, cleared ones among them, and the live handles of each
/// strength are exactly those rows.
pub fn counts_are_the_tables()
    ensures counts { CountsAreTheTables }
    ensures rows { LiveAreTheRows }
    ensures entries { EntriesLeaveTheTable }
    ensures left { LeftAreTheRows }
{}

/// Each line of a history's log may stand where it stands: a handle that goes is live in that strength, on that peer,
/// and one that comes isn't.
pub fn logs_are_logs()
    ensures { LogsAreLogs }
{}
