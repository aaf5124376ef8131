// What follows from the order's rule.

ghost use Rattle.std.specs.Prelude.{List};
ghost use Rattle.order_table.specs.declared.views.KeptEntry.{KeptEntry};
ghost use Rattle.order_table.specs.Rule.{AreLinesOfOneHistory};
ghost use Rattle.order_table.specs.Facts.{RuleKeepsLists, RolesDiffer, CallersDiffer, EntriesTellLines};
ghost use Rattle.order_table.specs.Replies.{KeptPinsAreRight, PinsAreReplayed, ReadsAreGated, RepliesAreRight};

/// Between any two steps, whatever seats were dropped: each line has a whole list, of which each seat knows a beginning
/// and its one owner all; the numbers in the roles' lists are those below the sequencer word, each once; and a caller's
/// list has just that caller's entries.
pub fn rule_keeps_lists()
    ensures law { RuleKeepsLists }
{}

/// No two roles and no two callers have the same line.
pub fn lines_differ()
    ensures roles { RolesDiffer }
    ensures callers { CallersDiffer }
{}

/// The entries of the one history, by their events and callers alone, tell in which lines they stand.
pub fn entries_tell_lines()
    ensures law { EntriesTellLines }
{}

/// The replies of the readers in a finished order are those that linked histories allow.
pub fn replies_are_right()
    ensures law { (lines : List (List KeptEntry)) (w : AreLinesOfOneHistory lines) → RepliesAreRight w.whole }
{}

/// The reads of a finished order are such as the gate lets in.
pub fn reads_are_gated()
    ensures law { (lines : List (List KeptEntry)) (w : AreLinesOfOneHistory lines) → ReadsAreGated w.whole }
{}

/// The replay of a finished order's entries has, before each entry, the pins that the lines leave.
pub fn pins_are_replayed()
    ensures law { (lines : List (List KeptEntry)) (w : AreLinesOfOneHistory lines) → PinsAreReplayed w.whole }
{}

/// In a finished order the pins that are kept with a snapshot and with a `take` are those that the lines before it
/// leave.
pub fn kept_pins_are_right()
    ensures law { (lines : List (List KeptEntry)) (w : AreLinesOfOneHistory lines) → KeptPinsAreRight w.whole }
{}
