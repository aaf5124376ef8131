// What a text begins with: a word, a number, digits, spaces.

ghost use Rattle.std.specs.Prelude.{◌≡◌, ◌<◌, ◌≤◌, ◌^◌, None, Some, MatchOption, length};
ghost use Rattle.std.specs.List.{prefix_len};
ghost use Rattle.android_log.specs.Parts.{after, decimal_at, decimal_behind, decimal_of, has_word, hex_at, hex_behind};
ghost use Rattle.android_log.specs.Parts.{hex_of, hex_value, is_digit, is_hex, is_space};

// Behind a number that is at least this another hexadecimal digit doesn't fit.
const HEX_END: u64 = 1 << 60;

// Each number is below this.
const DECIMAL_END: u64 = 1 << 32;

// A number has at most so many hexadecimal digits.
const HEX_DIGITS: usize = 16;

/// What stands behind a word, where the text begins with it.
#[inline(always)]
pub fn after<'a>(text: &'a [u8], word: &[u8]) -> Option<&'a [u8]>
    ensures { MatchOption result (after word.now text.now ≡ None) (λ r. after word.now text.now ≡ Some r.now) }
{
    if text.starts_with(word) {
        return Some(&text[word.len()..]);
    }
    None
}

/// Whether a byte is a decimal digit.
#[inline(always)]
pub fn is_digit(c: u8) -> bool
    ensures { result ≡ is_digit c }
{
    c >= b'0' && c <= b'9'
}

// Whether a byte is a hexadecimal digit.
fn is_hex(c: u8) -> bool
    ensures { result ≡ is_hex c }
{
    is_digit(c) || (c >= b'A' && c <= b'F') || (c >= b'a' && c <= b'f')
}

/// How many bytes at the front are decimal digits.
pub fn digits(text: &[u8]) -> usize
    ensures is { result ≡ prefix_len is_digit text.now }
    ensures within { result ≤ length text.now }
{
    for (n, c) in text.iter().enumerate() {
        if !is_digit(*c) {
            return n;
        }
    }
    text.len()
}

// How many are hexadecimal ones.
fn hex_digits(text: &[u8]) -> usize
    ensures is { result ≡ prefix_len is_hex text.now }
    ensures within { result ≤ length text.now }
{
    for (n, c) in text.iter().enumerate() {
        if !is_hex(*c) {
            return n;
        }
    }
    text.len()
}

/// How many are spaces.
#[inline(always)]
pub fn spaces(text: &[u8]) -> usize
    ensures is { result ≡ prefix_len is_space text.now }
    ensures within { result ≤ length text.now }
{
    for (n, c) in text.iter().enumerate() {
        if *c != b' ' {
            return n;
        }
    }
    text.len()
}

// The number that decimal digits make.
fn decimal_value(digits: &[u8]) -> Option<u32>
    ensures { result ≡ decimal_behind 0 digits.now }
{
    let mut n: u64 = 0;
    for d in digits {
        n = n * 10 + d.saturating_sub(b'0') as u64;
        if n >= DECIMAL_END {
            return None;
        }
    }
    Some(n as u32)
}

/// The number below 2^32 that decimal digits are, without a needless zero.
pub fn decimal_of(digits: &[u8]) -> Option<u32>
    ensures { result ≡ decimal_of digits.now }
{
    if digits.is_empty() || (digits.len() > 1 && digits[0] == b'0') {
        return None;
    }
    decimal_value(digits)
}

// What a hexadecimal digit is worth.
fn hex_value(c: u8) -> u64
    ensures is { result ≡ hex_value c }
    ensures small { result < 16 }
{
    if c <= b'9' {
        return c.saturating_sub(b'0') as u64;
    }
    if c <= b'F' {
        return c.saturating_sub(55) as u64;
    }
    if c <= b'f' {
        return c.saturating_sub(87) as u64;
    }
    0
}

// The number that hexadecimal digits make.
fn hex_number(digits: &[u8]) -> Option<u64>
    ensures { result ≡ hex_behind 0 digits.now }
{
    let mut n: u64 = 0;
    for d in digits {
        if n >= HEX_END {
            return None;
        }
        n = n * 16 + hex_value(*d);
    }
    Some(n)
}

// The number that hexadecimal digits are.
fn hex_of(digits: &[u8]) -> Option<u64>
    ensures { result ≡ hex_of digits.now }
{
    if digits.len() > HEX_DIGITS || digits.len() == 0 {
        return None;
    }
    hex_number(digits)
}

/// The decimal number below 2^32 at the front, and what stands behind its digits.
pub fn decimal_at(text: &[u8]) -> Option<(u32, &[u8])>
    ensures { MatchOption result (decimal_at text.now ≡ None) (λ r. decimal_at text.now ≡ Some (r.0, r.1.now)) }
{
    let count = digits(text);
    match decimal_of(&text[..count]) {
        Some(n) => Some((n, &text[count..])),
        None => None,
    }
}

/// The hexadecimal number below 2^64 at the front, and what stands behind its digits.
pub fn hex_at(text: &[u8]) -> Option<(u64, &[u8])>
    ensures { MatchOption result (hex_at text.now ≡ None) (λ r. hex_at text.now ≡ Some (r.0, r.1.now)) }
{
    let count = hex_digits(text);
    match hex_of(&text[..count]) {
        Some(n) => Some((n, &text[count..])),
        None => None,
    }
}

/// Whether a word stands somewhere in the text.
pub fn has_word(text: &[u8], word: &[u8]) -> bool
    ensures { result ≡ has_word word.now text.now }
{
    for at in 0..text.len() {
        if text[at..].starts_with(word) {
            return true;
        }
    }
    text[text.len()..].starts_with(word)
}
