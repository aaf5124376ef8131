// Numbers in decimal that are counted up: from one to the next mostly a digit changes.

ghost use Rattle.std.specs.Prelude.{◌≡◌, ◌≤◌, length, decimal, take, IsTrue};
ghost use Rattle.byte_streams.specs.Counts.{CountsUp};

use itoa::Buffer;
use std::marker::Model;

/// A number with its decimal text, which is cheap to have for the number after it.
#[derive(Drop)]
pub struct Count {
    value: u64,
    bytes: [u8; 32],
    len: usize,
}

impl Model for Count {
    ghost use Rattle.std.specs.Prelude.{◌≡◌, ◌≤◌, ℕ, decimal, take};

    ghost Value = { ℕ };

    ghost view = { λ c. c.value };

    ghost invariant = { λ c. (c.len ≤ 20) × (take c.len c.bytes ≡ decimal c.value) };
}

impl Count {
    /// The count that stands at a number.
    pub fn of(n: u64) -> Count
        ensures { result ≡ n }
    {
        let mut bytes = [0u8; 32];
        let len = write_digits(n, &mut bytes);
        Count {
            value: n,
            bytes,
            len,
        }
    }

    /// The bytes of its buffer, and how many of them are the number's decimal text.
    #[inline(always)]
    pub fn digits(&self) -> (&[u8; 32], usize)
        ensures size { length result.0.now ≡ 32 }
        ensures len { result.1 ≤ 20 }
        ensures text { take result.1 result.0.now ≡ decimal self.now }
    {
        (&self.bytes, self.len)
    }

    /// Goes to a number.
    #[inline(always)]
    pub fn go_to(&mut self, n: u64)
        ensures { self.new ≡ n }
    {
        if n == self.value {
            return;
        }
        if self.value.checked_add(1) == Some(n) && count_up(&mut self.bytes[..self.len]) {
            self.value = n;
            return;
        }
        self.len = write_digits(n, &mut self.bytes);
        self.value = n;
    }
}

// Writes the decimal text of a number to the front of a buffer, and answers how many bytes it has. It is a call, since
// it is seldom made.
#[inline(never)]
fn write_digits(n: u64, bytes: &mut [u8; 32]) -> usize
    ensures len { result ≤ 20 }
    ensures text { take result bytes.new ≡ decimal n }
{
    let mut buffer = Buffer::new();
    let text = buffer.format(n).as_bytes();
    bytes[..text.len()].copy_from_slice(text);
    text.len()
}

// Makes the decimal text of a number that of the number after it, where this has as many digits, and answers whether it
// has.
#[inline(always)]
fn count_up(digits: &mut [u8]) -> bool
    ensures next { IsTrue result → CountsUp digits.old digits.new }
    ensures len { length digits.new ≡ length digits.old }
{
    let mut i = digits.len();
    while i > 0 {
        i -= 1;
        if digits[i] < b'9' {
            digits[i] += 1;
            return true;
        }
        digits[i] = b'0';
    }
    false
}
