// What is told of reference logs.

ghost use Rattle.worked_answers.specs.Logs.{KeysAreTold, LogFaultsAreTold};

/// A list of the live handles has each once, in their order, and no other.
pub fn keys_are_told()
    ensures { KeysAreTold }
{}

/// A line that no log has is the one fault of its bytes, and so is the missing line where there is none.
pub fn log_faults_are_told()
    ensures { LogFaultsAreTold }
{}
