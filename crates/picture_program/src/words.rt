// The words of the command line.

ghost use Rattle.std.specs.Prelude.{◌≡◌, ◌≢◌, ◌<◌, ◌≤◌, ◌+◌, ◌^◌, ℕ, MatchBool, MatchOption, codes, decimal};
ghost use Rattle.std.specs.Prelude.{length, map, string_bytes};
ghost use Rattle.heap_pictures.specs.declared.pictures.Side.{Side as TheSide};
ghost use Rattle.picture_program.specs.declared.words.Around.{Around as TheAround};
ghost use Rattle.picture_program.specs.declared.words.Request.{Request as TheRequest};
ghost use Rattle.picture_program.specs.Words.{Asks, HasAround, HasTwo, NamesNoNode, last_entry, node_word, word_at};

use heap_pictures::Side;
use text_words::{is_same, lettered, number};

// A node's number is below this.
const NODES: u64 = 4_294_967_296;

/// The state after which entry is drawn; or which two are compared.
#[derive(Clone, Copy, PartialEq, Eq, Debug)]
pub enum Entries {
    One(u64),
    Two(u64, u64),
}

impl Entries {
    /// The later one.
    pub(crate) fn last(self) -> u64
        ensures { result ≡ last_entry self }
    {
        match self {
            Entries::One(n) => n,
            Entries::Two(_, m) => m,
        }
    }
}

/// Around which node it is drawn, and over how many arrows.
#[derive(Clone, Copy, PartialEq, Eq, Debug)]
pub struct Around {
    pub side: Side,
    pub number: u32,
    pub steps: u64,
}

/// What is to be drawn.
#[derive(Clone, Copy, PartialEq, Eq, Debug)]
pub struct Request {
    pub entries: Entries,
    pub around: Option<Around>,
}

// The word at a place.
fn word(words: &[String], i: usize) -> &[u8]
    requires { i < length words.now }
    ensures { result.now ≡ word_at (map string_bytes words.now) i }
{
    words[i].as_str().as_bytes()
}

// The number that the word at a place writes.
fn number_at(words: &[String], i: usize) -> Option<u64>
    requires { i < length words.now }
    ensures { MatchOption result ((n : ℕ) → n < 2 ^ 64 → decimal n ≢ word_at (map string_bytes words.now) i)
        (λ n. (n < 2 ^ 64) × (decimal n ≡ word_at (map string_bytes words.now) i)) }
{
    number(word(words, i))
}

// The object of the managed heap that a word names.
fn object_of(word: &[u8]) -> Option<u32>
    ensures { MatchOption result ((n : ℕ) → n < 2 ^ 32 → node_word TheSide.Managed n ≢ word.now)
        (λ n. node_word TheSide.Managed n ≡ word.now) }
{
    match lettered(word, b'm', NODES) {
        Some(m) => Some(m as u32),
        None => None,
    }
}

// The peer that a word names.
fn peer_of(word: &[u8]) -> Option<u32>
    ensures { MatchOption result ((n : ℕ) → n < 2 ^ 32 → node_word TheSide.Peers n ≢ word.now)
        (λ n. node_word TheSide.Peers n ≡ word.now) }
{
    match lettered(word, b'p', NODES) {
        Some(p) => Some(p as u32),
        None => None,
    }
}

// The node that a word names.
fn node_of(word: &[u8]) -> Option<(Side, u32)>
    ensures { MatchOption result (NamesNoNode word.now) (λ q. node_word q.0 q.1 ≡ word.now) }
{
    if let Some(m) = object_of(word) {
        return Some((Side::Managed, m));
    }
    match peer_of(word) {
        Some(p) => Some((Side::Peers, p)),
        None => None,
    }
}

// The two entries that the first words name, an earlier and a later one.
fn two_entries(words: &[String]) -> Option<(u64, u64)>
    requires { 2 ≤ length words.now }
    ensures { MatchOption result ((n m : ℕ) → HasTwo (map string_bytes words.now) n m → ⊥)
        (λ e. HasTwo (map string_bytes words.now) e.0 e.1) }
{
    let Some(n) = number_at(words, 0) else {
        return None;
    };
    let Some(m) = number_at(words, 1) else {
        return None;
    };
    if n < m { Some((n, m)) } else { None }
}

// Around which node, by three words from that place on.
fn around_at(words: &[String], i: usize) -> Option<Around>
    requires { i + 3 ≤ length words.now }
    ensures { MatchOption result ((a : TheAround) → HasAround (map string_bytes words.now) i a → ⊥)
        (λ a. HasAround (map string_bytes words.now) i a) }
{
    if !is_same(word(words, i), b"--around") {
        return None;
    }
    let Some((side, number)) = node_of(word(words, i + 1)) else {
        return None;
    };
    let Some(steps) = number_at(words, i + 2) else {
        return None;
    };
    Some(Around {
        side,
        number,
        steps,
    })
}

// What one word asks for.
fn one_word(words: &[String]) -> Option<Request>
    requires { length words.now ≡ 1 }
    ensures { MatchOption result ((r : TheRequest) → Asks (map string_bytes words.now) r → ⊥)
        (λ r. Asks (map string_bytes words.now) r) }
{
    let Some(n) = number_at(words, 0) else {
        return None;
    };
    Some(Request {
        entries: Entries::One(n),
        around: None,
    })
}

// What two words ask for.
fn two_words(words: &[String]) -> Option<Request>
    requires { length words.now ≡ 2 }
    ensures { MatchOption result ((r : TheRequest) → Asks (map string_bytes words.now) r → ⊥)
        (λ r. Asks (map string_bytes words.now) r) }
{
    let Some((n, m)) = two_entries(words) else {
        return None;
    };
    Some(Request {
        entries: Entries::Two(n, m),
        around: None,
    })
}

// What four words ask for.
fn four_words(words: &[String]) -> Option<Request>
    requires { length words.now ≡ 4 }
    ensures { MatchOption result ((r : TheRequest) → Asks (map string_bytes words.now) r → ⊥)
        (λ r. Asks (map string_bytes words.now) r) }
{
    let Some(n) = number_at(words, 0) else {
        return None;
    };
    let Some(around) = around_at(words, 1) else {
        return None;
    };
    Some(Request {
        entries: Entries::One(n),
        around: Some(around),
    })
}

// What five words ask for.
fn five_words(words: &[String]) -> Option<Request>
    requires { length words.now ≡ 5 }
    ensures { MatchOption result ((r : TheRequest) → Asks (map string_bytes words.now) r → ⊥)
        (λ r. Asks (map string_bytes words.now) r) }
{
    let Some((n, m)) = two_entries(words) else {
        return None;
    };
    let Some(around) = around_at(words, 2) else {
        return None;
    };
    Some(Request {
        entries: Entries::Two(n, m),
        around: Some(around),
    })
}

/// What the words ask for; None exactly where they ask for nothing that can be drawn.
pub(crate) fn request_of(words: &Vec<String>) -> Option<Request>
    ensures { MatchOption result ((r : TheRequest) → Asks (map string_bytes words.now.items) r → ⊥)
        (λ r. Asks (map string_bytes words.now.items) r) }
{
    match words.len() {
        1 => one_word(words),
        2 => two_words(words),
        4 => four_words(words),
        5 => five_words(words),
        _ => None,
    }
}
