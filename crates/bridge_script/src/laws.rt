// Laws on the texts of scripts, each the contract of a function that does nothing.

ghost use Rattle.bridge_script.specs.Laws.{HasOneScript, HasFullText, HasAtMostOneMore, FaultExcludesScript};
ghost use Rattle.bridge_script.specs.Laws.{HasOneFault, ScriptHasNoCause, LinesFitTable};

/// A text is a text of one script, and a script has one text in which each line has its newline, and at most
/// one more, which is the same without the last. Bytes with a faulty line are a text of no script, and their
/// first faulty line and its first cause are one. A line of a script has no cause.
pub fn texts_tell_scripts()
    ensures one_script { HasOneScript }
    ensures full_text { HasFullText }
    ensures one_more { HasAtMostOneMore }
    ensures fault { FaultExcludesScript }
    ensures one_fault { HasOneFault }
    ensures no_cause { ScriptHasNoCause }
{}

/// Each line that a script can ever have fits the table of operations: its thread has the operation, and its words
/// have no cause at the operation's places.
pub fn lines_fit_table()
    ensures { LinesFitTable }
{}
