// The number that a word writes.

ghost use Rattle.std.specs.Prelude.{◌≡◌, ◌≢◌, ℕ, ◌<◌, ◌≤◌, ◌^◌, [], ◌∷◌, length, MatchOption, decimal};

use crate::words::is_same;
use itoa::Buffer;

// The most digits of which each number that they write is below 2^64.
const FEW: usize = 19;

/// The number that a word writes, in decimal digits without a needless zero and below 2^64.
#[inline(always)]
pub fn number(word: &[u8]) -> Option<u64>
    ensures { MatchOption result ((n : ℕ) → n < 2 ^ 64 → decimal n ≢ word.now)
        (λ n. (n < 2 ^ 64) × (decimal n ≡ word.now)) }
{
    if word.len() == 1 {
        return digit(word[0]);
    }
    if word.is_empty() || word.len() > FEW {
        return long_number(word);
    }
    short_number(word)
}

// The number that a word of this one byte writes.
#[inline(always)]
fn digit(byte: u8) -> Option<u64>
    ensures { MatchOption result ((n : ℕ) → n < 2 ^ 64 → decimal n ≢ byte ∷ [])
        (λ n. (n < 2 ^ 64) × (decimal n ≡ byte ∷ [])) }
{
    if byte < b'0' || byte > b'9' {
        return None;
    }
    Some((byte - b'0') as u64)
}

// The number that a word of two to nineteen bytes writes: a further digit makes ten times as much, and that digit.
fn short_number(word: &[u8]) -> Option<u64>
    requires some { 1 < length word.now }
    requires few { length word.now ≤ 19 }
    ensures { MatchOption result ((n : ℕ) → n < 2 ^ 64 → decimal n ≢ word.now)
        (λ n. (n < 2 ^ 64) × (decimal n ≡ word.now)) }
{
    if word[0] < b'1' || word[0] > b'9' {
        return None;
    }
    let mut n = (word[0] - b'0') as u64;
    for i in 1..word.len() {
        let byte = word[i];
        if byte < b'0' || byte > b'9' {
            return None;
        }
        n = n * 10 + (byte - b'0') as u64;
    }
    Some(n)
}

// The number that a word of any length writes.
fn long_number(word: &[u8]) -> Option<u64>
    ensures { MatchOption result ((n : ℕ) → n < 2 ^ 64 → decimal n ≢ word.now)
        (λ n. (n < 2 ^ 64) × (decimal n ≡ word.now)) }
{
    let Ok(text) = str::from_utf8(word) else {
        return None;
    };
    let Ok(n) = text.parse::<u64>() else {
        return None;
    };
    if is_same(Buffer::new().format(n).as_bytes(), word) {
        Some(n)
    } else {
        None
    }
}

/// The number behind a letter, below a limit: `g15`, where the letter is `g` and the limit at least 16.
pub fn lettered(word: &[u8], letter: u8, below: u64) -> Option<u64>
    ensures { MatchOption result ((n : ℕ) → n < below → letter ∷ decimal n ≢ word.now)
        (λ n. (n < below) × (letter ∷ decimal n ≡ word.now)) }
{
    if word.is_empty() || word[0] != letter {
        return None;
    }
    let n = number(&word[1..])?;
    if n < below { Some(n) } else { None }
}
