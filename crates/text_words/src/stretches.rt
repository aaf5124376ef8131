// A stretch of bytes, as the line of a script, that is searched with the bytes behind it.

ghost use Rattle.std.specs.Prelude.{◌≡◌, ◌≢◌, ℕ, ◌+◌, ◌<◌, ◌≤◌, length, take, drop, slice_index, IsTrue};

use crate::searches::first_place;
use std::marker::Model;
use std::simd::prelude::*;

// How many bytes are compared at once.
const LANES: usize = 16;

// So many bytes are compared with others at once.
const SHORT: usize = 32;

// Odd numbers without a pattern in their bits: the high bits of their products are spread.
const SPREADS: [u64; 3] = [
    0x9e37_79b9_7f4a_7c15,
    0xff51_afd7_ed55_8ccd,
    0xc4ce_b9fe_1a85_ec53,
];

/// The first bytes of a text. A search looks at more of them at once than the stretch may have, since it knows what
/// stands behind it.
#[derive(Drop)]
pub struct Stretch<'a> {
    text: &'a [u8],
    len: usize,
}

impl<'a> Model for Stretch<'a> {
    ghost use Rattle.std.specs.Prelude.{ℕ, ◌≤◌, List, length, take};

    ghost Value = { List ℕ };

    ghost view = { λ s. take s.len s.text.now };

    ghost invariant = { λ s. s.len ≤ length s.text.now };
}

impl<'a> Stretch<'a> {
    /// The first bytes of a text, so many.
    pub fn of(text: &'a [u8], len: usize) -> Stretch<'a>
        requires { len ≤ length text.now }
        ensures { result ≡ take len text.now }
    {
        Stretch { text, len }
    }

    /// How many bytes it has.
    pub fn len(&self) -> usize
        ensures { result ≡ length self.now }
    {
        self.len
    }

    /// Its first bytes, so many.
    pub fn front(&self, n: usize) -> &'a [u8]
        requires { n ≤ length self.now }
        ensures { result.now ≡ take n self.now }
    {
        &self.text[..n]
    }

    /// What stands behind its first bytes, so many.
    pub fn behind(&self, n: usize) -> Stretch<'a>
        requires { n ≤ length self.now }
        ensures { result ≡ drop n self.now }
    {
        Stretch {
            text: &self.text[n..],
            len: self.len - n,
        }
    }

    /// The place of the first such byte, or the length where there is none. The first 16 bytes are compared at once.
    #[inline(always)]
    pub fn place(&self, byte: u8) -> usize
        ensures within { result ≤ length self.now }
        ensures before { (k : ℕ) → k < result → slice_index self.now k ≢ byte }
        ensures found { result < length self.now → slice_index self.now result ≡ byte }
    {
        if self.text.len() < LANES {
            return first_place(&self.text[..self.len], byte);
        }
        let run = run_before(self.text, byte);
        if run < LANES {
            return run.min(self.len);
        }
        first_place(&self.text[..self.len], byte)
    }

    /// Whether it is seen at once to have the same bytes as another one. Where it is not seen they may still be the
    /// same: it is seen where they have at most 64 bytes, and both texts go on to 32.
    #[inline(always)]
    pub fn is_seen_same(&self, other: &Stretch) -> bool
        ensures { IsTrue result → self.now ≡ other.now }
    {
        if self.len != other.len || self.text.len() < SHORT || other.text.len() < SHORT {
            return false;
        }
        if self.len <= SHORT {
            return same_run(self.text, other.text) >= self.len;
        }
        self.len <= 2 * SHORT && same_ends(self.text, other.text, self.len)
    }

    /// A number below 512 that stretches of the same bytes share, and others seldom: it is drawn from the first eight
    /// bytes, the last eight and eight in the middle.
    #[inline(always)]
    pub fn mark(&self) -> usize
        ensures { result < 512 }
    {
        if self.len < 8 {
            return self.len;
        }
        let text = self.front(self.len);
        let behind = self.len - 8;
        let first = eight_at(text, 0).wrapping_mul(SPREADS[0]);
        let middle = eight_at(text, behind / 2).wrapping_mul(SPREADS[1]);
        let drawn = first
            .wrapping_add(middle)
            .wrapping_add(eight_at(text, behind));
        (drawn.wrapping_mul(SPREADS[2]) >> 55) as usize
    }
}

// Eight bytes of a text as a number.
#[inline(always)]
fn eight_at(text: &[u8], at: usize) -> u64
    requires { at + 8 ≤ length text.now }
{
    u64::from_le_bytes([
        text[at],
        text[at + 1],
        text[at + 2],
        text[at + 3],
        text[at + 4],
        text[at + 5],
        text[at + 6],
        text[at + 7],
    ])
}

// Whether two texts have the same first bytes, so many, from 32 to 64: the first 32 are compared at once, and the last
// 32.
#[inline(always)]
fn same_ends(a: &[u8], b: &[u8], len: usize) -> bool
    requires a { len ≤ length a.now }
    requires b { len ≤ length b.now }
    requires many { 32 ≤ len }
    requires few { len ≤ 64 }
    ensures { IsTrue result → take len a.now ≡ take len b.now }
{
    if same_run(a, b) < SHORT {
        return false;
    }
    let behind = len - SHORT;
    if same_run(&a[behind..], &b[behind..]) < SHORT {
        return false;
    }
    true
}

// How many of the first bytes of two texts are the same, of 32: more than that where all of them are.
#[inline(always)]
fn same_run(a: &[u8], b: &[u8]) -> usize
    requires a { 32 ≤ length a.now }
    requires b { 32 ≤ length b.now }
    ensures same { (n : ℕ) → n ≤ result → n ≤ 32 → take n a.now ≡ take n b.now }
{
    let differ = u8x32::from_slice(a)
        .simd_ne(u8x32::from_slice(b))
        .to_bitmask();
    differ.trailing_zeros() as usize
}

// How many of the first 16 bytes come before the first such byte: 16 where none of them is one.
#[inline(always)]
fn run_before(bytes: &[u8], byte: u8) -> usize
    requires { 16 ≤ length bytes.now }
    ensures within { result ≤ 16 }
    ensures before { (k : ℕ) → k < result → slice_index bytes.now k ≢ byte }
    ensures found { result < 16 → slice_index bytes.now result ≡ byte }
{
    let found = u8x16::from_slice(bytes)
        .simd_eq(u8x16::splat(byte))
        .to_bitmask();
    if found == 0 {
        LANES
    } else {
        found.trailing_zeros() as usize
    }
}
