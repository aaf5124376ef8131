// The law, the contract of a function that does nothing.

ghost use Rattle.generated_laws.specs.Laws.{GeneratedRunsAreAlike};

/// How many cycles a run of a generated script opens, how many objects and handles it makes, and how many of them are
/// left behind a last cycle, is a function of the seed and the size.
pub fn generated_runs_are_alike()
    ensures { GeneratedRunsAreAlike }
{}
