// The first place of a byte in a text.

ghost use Rattle.std.specs.Prelude.{◌≡◌, ◌≢◌, ℕ, ◌<◌, ◌≤◌, length, slice_index};

use std::simd::prelude::*;

// How many bytes of a long text are compared at once.
const LANES: usize = 32;

/// The place of the first such byte, or the length where there is none.
pub fn first_place(bytes: &[u8], byte: u8) -> usize
    ensures within { result ≤ length bytes.now }
    ensures before { (k : ℕ) → k < result → slice_index bytes.now k ≢ byte }
    ensures found { result < length bytes.now → slice_index bytes.now result ≡ byte }
{
    for (i, b) in bytes.iter().enumerate() {
        if *b == byte {
            return i;
        }
    }
    bytes.len()
}

/// The same, for a text that is mostly longer than 32 bytes, as what is left of a script: its first 32 are compared at
/// once.
pub fn first_place_far(bytes: &[u8], byte: u8) -> usize
    ensures within { result ≤ length bytes.now }
    ensures before { (k : ℕ) → k < result → slice_index bytes.now k ≢ byte }
    ensures found { result < length bytes.now → slice_index bytes.now result ≡ byte }
{
    if bytes.len() < LANES {
        return first_place(bytes, byte);
    }
    let run = run_before(bytes, byte);
    if run < LANES {
        return run;
    }
    LANES + first_place(&bytes[LANES..], byte)
}

// How many of the first 32 bytes come before the first such byte: 32 where none of them is one.
#[inline(always)]
fn run_before(bytes: &[u8], byte: u8) -> usize
    requires { 32 ≤ length bytes.now }
    ensures within { result ≤ 32 }
    ensures before { (k : ℕ) → k < result → slice_index bytes.now k ≢ byte }
    ensures found { result < 32 → slice_index bytes.now result ≡ byte }
{
    let found = u8x32::from_slice(bytes)
        .simd_eq(u8x32::splat(byte))
        .to_bitmask();
    if found == 0 {
        LANES
    } else {
        found.trailing_zeros() as usize
    }
}
