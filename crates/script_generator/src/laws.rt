// Laws on generated scripts, each the contract of a function that does nothing.

ghost use Rattle.script_generator.specs.Laws.{HasLines, HasCycles, HasKnownLengths, HasKnownTexts, AreScripts};
ghost use Rattle.script_generator.specs.Laws.{WritesAreApart};

/// How many lines and how many cycles a generated script has. One of at most 2,800 families is a script.
pub fn generated_scripts_fit()
    ensures lines { HasLines }
    ensures cycles { HasCycles }
    ensures known { HasKnownLengths }
    ensures scripts { AreScripts }
{}

/// Each static is written by one thread alone.
pub fn statics_have_one_writer()
    ensures { WritesAreApart }
{}

/// Three scripts and parts of scripts, word for word.
pub fn known_scripts()
    ensures { HasKnownTexts }
{}
