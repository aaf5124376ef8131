// Numbers with the words before them, as their bytes are put into a buffer.

ghost use Rattle.std.specs.Prelude.{◌≡◌, ◌+◌, ◌*◌, ◌/◌, ◌%◌, ◌<◌, ◌≤◌, ◌++◌, [], ◌∷◌, IfSome, IsTrue, decimal, length};
ghost use Rattle.std.specs.Prelude.{take};

use crate::counts::Count;
use crate::drafts::pair_of;
use std::marker::Model;
use std::simd::prelude::*;

// How many bytes of a part are copied at once: all of them.
const LANES: usize = 32;

/// A word of a line with the digits of a number behind it but for the last two: most numbers differ from that of the
/// line before in no others. So a number is put by one copy of fixed size, and two digits.
#[derive(Drop)]
pub struct Part {
    bytes: [u8; 32],
    // How many bytes the word has, and how many the word with the digits.
    word: usize,
    len: usize,
    // The number whose last two digits are zero.
    base: u64,
}

impl Model for Part {
    ghost use Rattle.std.specs.Prelude.{◌≡◌, ◌*◌, ◌/◌, ◌≤◌, ◌++◌, decimal, take};
    ghost use Rattle.byte_streams.specs.Parts.{Parted};

    ghost Value = { Parted };

    ghost view = { λ p. record { word = take p.word p.bytes; base = p.base } };

    ghost invariant = { λ p. (p.word ≤ 23)
        × ((p.len ≤ 32) × ((100 ≤ p.base) × ((p.base ≡ p.base / 100 * 100)
        × (take p.len p.bytes ≡ take p.word p.bytes ++ decimal (p.base / 100))))) };
}

impl Part {
    /// A word, and the digits of 1.
    pub fn of(word: &[u8]) -> Part
        requires { length word.now ≤ 23 }
        ensures { result.word ≡ word.now }
    {
        let mut bytes = [0; 32];
        bytes[..word.len()].copy_from_slice(word);
        bytes[word.len()] = b'1';
        Part {
            bytes,
            word: word.len(),
            len: word.len() + 1,
            base: 100,
        }
    }

    // The last two digits of a number, where the others are those at hand.
    #[inline(always)]
    fn low(&self, n: u64) -> Option<usize>
        ensures { IfSome result (λ low. (low < 100) × (n ≡ self.now.base + low)) }
    {
        match n.checked_sub(self.base) {
            Some(low) if low < 100 => Some(low as usize),
            _ => None,
        }
    }

    // Goes to the digits of a number but for the last two, where there are some and there is room for them, and answers
    // whether that is so.
    fn go_to(&mut self, hundreds: u64) -> bool
        requires { hundreds ≤ 184467440737095516 }
        ensures word { self.new.word ≡ self.old.word }
        ensures base { IsTrue result → self.new.base ≡ hundreds * 100 }
    {
        let count = Count::of(hundreds);
        let (digits, len) = count.digits();
        if hundreds == 0 || len > 8 {
            return false;
        }
        let word = self.word;
        self.bytes[word..word + len].copy_from_slice(&digits[..len]);
        self.len = word + len;
        self.base = hundreds * 100;
        true
    }
}

// Puts the tens and the ones of a number below 100, and answers where they end.
#[inline(always)]
fn put_pair(bytes: &mut [u8; 16_384], at: usize, n: usize) -> usize
    requires digits { n < 100 }
    requires room { at + 2 ≤ 16384 }
    ensures text { take result bytes.new ≡ take at bytes.old ++ (48 + n / 10) ∷ (48 + n % 10) ∷ [] }
    ensures end { result ≡ at + 2 }
{
    bytes[at..at + 2].copy_from_slice(&pair_of(n as u64));
    at + 2
}

// Puts the word of a part, of whose bytes so many are wanted.
#[inline(always)]
fn put_bytes(bytes: &mut [u8; 16_384], at: usize, part: &[u8; 32], len: usize) -> usize
    requires few { len ≤ 32 }
    requires room { at + 32 ≤ 16384 }
    ensures text { take result bytes.new ≡ take at bytes.old ++ take len part.now }
    ensures end { result ≡ at + len }
{
    u8x32::from_slice(part).copy_to_slice(&mut bytes[at..at + LANES]);
    at + len
}

// Puts a number in decimal, whatever it is.
fn put_any(bytes: &mut [u8; 16_384], at: usize, n: u64) -> usize
    requires { at + 32 ≤ 16384 }
    ensures text { take result bytes.new ≡ take at bytes.old ++ decimal n }
    ensures end { result ≤ at + 20 }
{
    if n < 10 {
        bytes[at] = b'0' + n as u8;
        return at + 1;
    }
    if n < 100 {
        return put_pair(bytes, at, n as usize);
    }
    let count = Count::of(n);
    let (digits, len) = count.digits();
    bytes[at..at + len].copy_from_slice(&digits[..len]);
    at + len
}

// Puts a part's word with a number behind it whose digits but for the last two are those at hand.
#[inline(always)]
fn put_near(bytes: &mut [u8; 16_384], at: usize, part: &Part, low: usize) -> usize
    requires digits { low < 100 }
    requires fits { part.now.base + low < 18446744073709551616 }
    requires room { at + 56 ≤ 16384 }
    ensures text { take result bytes.new ≡ take at bytes.old ++ (part.now.word ++ decimal (part.now.base + low)) }
    ensures end { result ≤ at + 34 }
{
    let at = put_bytes(bytes, at, &part.bytes, part.len);
    put_pair(bytes, at, low)
}

// Puts a part's word with a number behind it whose digits are not at hand. It is a call, since it is seldom made.
#[inline(never)]
fn put_far(bytes: &mut [u8; 16_384], at: usize, part: &mut Part, n: u64) -> usize
    requires { at + 56 ≤ 16384 }
    ensures text { take result bytes.new ≡ take at bytes.old ++ (part.old.word ++ decimal n) }
    ensures word { part.new.word ≡ part.old.word }
    ensures end { result ≤ at + 43 }
{
    let hundreds = n / 100;
    if part.go_to(hundreds) {
        return put_near(bytes, at, part, (n - hundreds * 100) as usize);
    }
    let at = put_bytes(bytes, at, &part.bytes, part.word);
    put_any(bytes, at, n)
}

/// Puts a part's word with a number behind it, in decimal, and answers where they end.
#[inline(always)]
pub fn put_number(bytes: &mut [u8; 16_384], at: usize, part: &mut Part, n: u64) -> usize
    requires { at + 56 ≤ 16384 }
    ensures text { take result bytes.new ≡ take at bytes.old ++ (part.old.word ++ decimal n) }
    ensures word { part.new.word ≡ part.old.word }
    ensures end { result ≤ at + 43 }
{
    match part.low(n) {
        Some(low) => put_near(bytes, at, part, low),
        None => put_far(bytes, at, part, n),
    }
}
