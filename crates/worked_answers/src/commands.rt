// What is told of commands.

ghost use Rattle.worked_answers.specs.Commands.{CommandsAreTold, WantsAreTold};

/// Which words are a command and which of these read their input; and that a command whose text is due has to be
/// answered, unless a count of faults rose.
pub fn commands_are_told()
    ensures { CommandsAreTold }
{}

/// Where memory is wanting nothing was written; of a listing no other text than its beginning was.
pub fn wants_are_told()
    ensures { WantsAreTold }
{}
