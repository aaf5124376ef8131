// The reading of the words, by their places.

ghost use Rattle.std.specs.Prelude.{◌≡◌, ◌≢◌, ℕ, ◌<◌, ◌≤◌, map, length, string_bytes, MatchOption, MatchBool, bytes_eq};
ghost use Rattle.std.specs.Prelude.{codes, decimal, Some, None};
ghost use Rattle.command_words.specs.Commands.{AreWordsOf, mode_text};
ghost use Rattle.command_words.specs.Values.{word_at, value_of};
ghost use Rattle.command_words.specs.declared.commands.Mode.{Mode as TheMode};
ghost use Rattle.command_words.specs.declared.commands.Command.{Command as TheCommand};

use crate::commands::{Command, Mode};
use itoa::Buffer;

// The most families of a generated script.
const MOST_FAMILIES: u64 = 2800;

/// The command that the words give; None exactly where they give none. It takes no memory.
pub fn command_of(words: &Vec<String>) -> Option<Command>
    ensures { MatchOption result ((c : TheCommand) → AreWordsOf (map string_bytes words.now.items) c → ⊥)
        (λ c. AreWordsOf (map string_bytes words.now.items) c) }
{
    match words.len() {
        1 => one_word(words),
        7 => seven_words(words),
        _ => None,
    }
}

// The command that one word gives.
fn one_word(words: &[String]) -> Option<Command>
    requires { length words.now ≡ 1 }
    ensures { MatchOption result ((c : TheCommand) → AreWordsOf (map string_bytes words.now) c → ⊥)
        (λ c. AreWordsOf (map string_bytes words.now) c) }
{
    if is_same(word(words, 0), "compare") {
        return Some(Command::Compare);
    }
    if is_same(word(words, 0), "grefs") {
        return Some(Command::References);
    }
    if is_same(word(words, 0), "leaks") {
        return Some(Command::Leaks);
    }
    if is_same(word(words, 0), "check") {
        return Some(Command::Check);
    }
    match mode_of(word(words, 0)) {
        Some(mode) => Some(Command::Run { mode }),
        None => None,
    }
}

// The command that seven words give.
fn seven_words(words: &[String]) -> Option<Command>
    requires { length words.now ≡ 7 }
    ensures { MatchOption result ((c : TheCommand) → AreWordsOf (map string_bytes words.now) c → ⊥)
        (λ c. AreWordsOf (map string_bytes words.now) c) }
{
    if !is_at(words, 0, "gen") {
        return None;
    }
    let Some(seed) = number_of(words, "--seed", u64::MAX) else {
        return None;
    };
    let Some(size) = number_of(words, "--size", MOST_FAMILIES) else {
        return None;
    };
    let Some(mode) = asked_mode(words) else {
        return None;
    };
    Some(Command::Generate {
        seed,
        size: size as u32,
        mode,
    })
}

// The number of at most `most` behind a name.
fn number_of(words: &[String], name: &str, most: u64) -> Option<u64>
    requires { length words.now ≡ 7 }
    ensures { MatchOption result ((n : ℕ) → n ≤ most
        → value_of (map string_bytes words.now) name.now ≢ Some (decimal n))
        (λ n. (n ≤ most) × (value_of (map string_bytes words.now) name.now ≡ Some (decimal n))) }
{
    match value(words, name) {
        Some(value) => number(value, most),
        None => None,
    }
}

// The mode behind its name.
fn asked_mode(words: &[String]) -> Option<Mode>
    requires { length words.now ≡ 7 }
    ensures { MatchOption result ((m : TheMode)
        → value_of (map string_bytes words.now) (codes "--mode") ≢ Some (mode_text m))
        (λ m. value_of (map string_bytes words.now) (codes "--mode") ≡ Some (mode_text m)) }
{
    match value(words, "--mode") {
        Some(value) => mode_of(value),
        None => None,
    }
}

// Whether the word at a place is this text.
fn is_at(words: &[String], i: usize, text: &str) -> bool
    requires { i < length words.now }
    ensures { result ≡ bytes_eq (word_at (map string_bytes words.now) i) text.now }
{
    words[i].as_str() == text
}

// The word at a place.
fn word(words: &[String], i: usize) -> &str
    requires { i < length words.now }
    ensures { result.now ≡ word_at (map string_bytes words.now) i }
{
    words[i].as_str()
}

// The word behind a name, where the name stands first in one of the three pairs.
fn value<'a>(words: &'a [String], name: &str) -> Option<&'a str>
    requires { length words.now ≡ 7 }
    ensures { MatchOption result (value_of (map string_bytes words.now) name.now ≡ None)
        (λ v. value_of (map string_bytes words.now) name.now ≡ Some v.now) }
{
    if is_at(words, 1, name) {
        Some(word(words, 2))
    } else if is_at(words, 3, name) {
        Some(word(words, 4))
    } else if is_at(words, 5, name) {
        Some(word(words, 6))
    } else {
        None
    }
}

// The mode that a word names.
fn mode_of(word: &str) -> Option<Mode>
    ensures { MatchOption result ((m : TheMode) → mode_text m ≢ word.now) (λ m. mode_text m ≡ word.now) }
{
    if word == "serial" {
        return Some(Mode::Serial);
    }
    if word == "threads" {
        return Some(Mode::Threads);
    }
    None
}

// The number of at most `most` that a word writes, in decimal digits without a needless zero.
fn number(word: &str, most: u64) -> Option<u64>
    ensures { MatchOption result ((n : ℕ) → n ≤ most → decimal n ≢ word.now)
        (λ n. (n ≤ most) × (decimal n ≡ word.now)) }
{
    let Ok(n) = word.parse::<u64>() else {
        return None;
    };
    if n > most {
        return None;
    }
    if is_same(Buffer::new().format(n), word) {
        Some(n)
    } else {
        None
    }
}

// Whether two texts are the same.
fn is_same(a: &str, b: &str) -> bool
    ensures { MatchBool result (a.now ≡ b.now) (a.now ≢ b.now) }
{
    a == b
}
