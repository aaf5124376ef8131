// Laws on the linked histories of scripts, each the contract of a function that does nothing.

ghost use Rattle.script_laws.specs.Asides.{ExactAsidesAreReplies};
ghost use Rattle.script_laws.specs.EndingLaws.{HeldCyclesEnd, HeldThreadCyclesEnd, LinkedCyclesEnd, ThreadHistoryEnds};
ghost use Rattle.script_laws.specs.Growing.{EachThreadIsAll, HeldLinesEnd, HeldLinesGrow, IdleLeavesNothing};
ghost use Rattle.script_laws.specs.Growing.{LinesOfGoOn, NumbersGoOn, RisingEntriesAreOne};
ghost use Rattle.script_laws.specs.Laws.{HasOneHistory, HasOneText, LineOrderGivesThreadOrder};

/// A script has at most one history in line order: two linked histories that hold its lines are the same in their
/// entries, in what was freed and in the notices that were taken, and in the notices that were only queued where each
/// has them all. So it is of histories in which each read answers as the one machine does at its number.
pub fn one_history_for_a_script()
    ensures { HasOneHistory }
{}

/// Where each read that answers `pending` or `unset` answers so by the managed list before it, each read of a linked
/// history answers as the one machine does.
pub fn exact_asides_are_replies()
    ensures { ExactAsidesAreReplies }
{}

/// Lines come to be held one after another: a further line's entries stand behind all others, and at the end the phases
/// left open. What was listed so, as it was made, is the history, since lists of the same entries with rising numbers
/// are one. What is held of each thread that a script can have is held of all.
pub fn held_lines_grow()
    ensures grow { HeldLinesGrow }
    ensures end { HeldLinesEnd }
    ensures idle { IdleLeavesNothing }
    ensures numbers { NumbersGoOn }
    ensures lines_of { LinesOfGoOn }
    ensures one { RisingEntriesAreOne }
    ensures each_thread { EachThreadIsAll }
{}

/// A history that holds a script's lines in line order holds them thread by thread.
pub fn line_order_gives_thread_order()
    ensures { LineOrderGivesThreadOrder }
{}

/// A history that holds the lines of a script abandons no cycle, and resolves each that it opens before it opens
/// another; the driver's entries do so too where the lines are held thread by thread, and in a linked history all
/// entries then do, since no other caller opens or ends a cycle. In a linked history each snap's resolve is its
/// cycle's.
pub fn held_cycles_end()
    ensures in_order { HeldCyclesEnd }
    ensures per_thread { HeldThreadCyclesEnd }
    ensures threads { ThreadHistoryEnds }
    ensures own { LinkedCyclesEnd }
{}

/// A text is the report of at most one history: two linked histories that have the same report are the same in their
/// entries, in what was freed and in the notices that were taken, and in the notices that were only queued where each
/// has them all.
pub fn texts_tell_histories()
    ensures { HasOneText }
{}
