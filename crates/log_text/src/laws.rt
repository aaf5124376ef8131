// The laws, the contract of a function that does nothing.

ghost use Rattle.log_text.specs.Laws.{FaultsAreRefused, OneLog};

/// Bytes are the text of at most one log, so what is read from the text of a log is that log; and bytes with a line
/// that is wrong are the text of none.
pub fn logs_are_read()
    ensures one { OneLog }
    ensures fault { FaultsAreRefused }
{}
