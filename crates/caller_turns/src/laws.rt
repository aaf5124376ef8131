// The laws of turns: they are the first two tests of an entry in the state of a linked history, and go on as that state
// does.

ghost use Rattle.caller_turns.specs.Shapes.{CallersGoOn, CitesAreTested, TurnsAreTested, WholeIsTested};

/// Whether it is a caller's turn, by what is kept, is whether it is in the state of a linked history.
pub fn turns_are_tested()
    ensures { TurnsAreTested }
{}

/// Whether an event cites what it has to, by what is kept, is whether it does in the state of a linked history.
pub fn cites_are_tested()
    ensures { CitesAreTested }
{}

/// What is kept after an entry is what the state has after it.
pub fn callers_go_on()
    ensures { CallersGoOn }
{}

/// Whether nothing has to follow, by what is kept, is whether nothing has to in the state of a linked history.
pub fn whole_is_tested()
    ensures { WholeIsTested }
{}
