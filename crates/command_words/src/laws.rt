// A law on words, the contract of a function that does nothing.

ghost use Rattle.command_words.specs.Laws.{WordsTellCommands};

/// Words give at most one command.
pub fn words_tell_commands()
    ensures { WordsTellCommands }
{}
