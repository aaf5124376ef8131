// What the program can be asked for.

/// How the lines of a script are run: in order on one thread, or each thread's lines in a thread of its own.
#[derive(Clone, Copy, PartialEq, Eq, Debug)]
pub enum Mode {
    Serial,
    Threads,
}

/// What the words of the command line ask for: to run the script that is read, in order or in threads; to run it in
/// order and list the components of each cycle by the second component pass; to run it in order and write its reference
/// log; to read such a log and list what it never releases; to read the report of a run and judge whether it is one; or
/// to make a script of a seed and a size, of at most 2,800 families, and to run that.
#[derive(Clone, Copy, PartialEq, Eq, Debug)]
pub enum Command {
    Run { mode: Mode },
    Compare,
    References,
    Leaks,
    Check,
    Generate { seed: u64, size: u32, mode: Mode },
}
