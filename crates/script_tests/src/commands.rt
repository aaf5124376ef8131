// A table of command lines, with the commands that their words are.

use command_words::{Command, Mode, command_of};
use std::alloc::{AllocError, Global};
use std::test::Fail;

const SEVEN: Command = Command::Generate {
    seed: 7,
    size: 2000,
    mode: Mode::Threads,
};

const LONGEST: Command = Command::Generate {
    seed: 18_446_744_073_709_551_615,
    size: 2800,
    mode: Mode::Serial,
};

const LINES: [(&str, Option<Command>); 22] = [
    ("serial", Some(Command::Run { mode: Mode::Serial })),
    (
        "threads",
        Some(Command::Run {
            mode: Mode::Threads,
        }),
    ),
    ("compare", Some(Command::Compare)),
    ("compare serial", None),
    ("grefs", Some(Command::References)),
    ("grefs leaks", None),
    ("leaks", Some(Command::Leaks)),
    ("leaks --all", None),
    ("check", Some(Command::Check)),
    ("check check", None),
    ("checks", None),
    ("", None),
    ("--help", None),
    ("serial x", None),
    ("gen --seed 7 --size 2000 --mode threads", Some(SEVEN)),
    (
        "gen --mode serial --size 2800 --seed 18446744073709551615",
        Some(LONGEST),
    ),
    ("gen --seed=7 --size 4 --mode serial", None),
    ("gen --seed 7 --seed 7 --mode serial", None),
    ("gen --seed 7 --size 2801 --mode serial", None),
    ("gen --seed 07 --size 4 --mode serial", None),
    (
        "gen --seed 18446744073709551616 --size 4 --mode serial",
        None,
    ),
    ("gen --seed 7 --size 4 --mode fast", None),
];

// The command that the words of a line give.
fn command(alloc: Global, line: &str) -> Result<Option<Command>, AllocError> {
    let mut words = Vec::new(alloc);
    for word in line.split_whitespace() {
        words.push(String::from_str(alloc, word)?)?;
    }
    Ok(command_of(&words))
}

// The place of the first line that gives another one.
fn miss(alloc: Global) -> Result<Option<usize>, AllocError> {
    for (i, (line, wanted)) in LINES.as_slice().iter().enumerate() {
        if command(alloc, line)? != *wanted {
            return Ok(Some(i));
        }
    }
    Ok(None)
}

#[test]
fn words_are_the_commands_of_the_table(rt: HostRuntime) -> Result<(), Fail> {
    assert_eq!(rt; miss(rt.alloc())?, None);
    Ok(())
}
