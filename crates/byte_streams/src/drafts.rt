// A text that is put together for a sink in a fixed buffer: it takes no memory. A sink gets what was put together where
// there is no room for more.

ghost use Rattle.std.specs.Prelude.{◌≡◌, ◌+◌, ◌++◌, ◌/◌, ◌%◌, ◌<◌, ◌≤◌, [], ◌∷◌, length, decimal, OnOk};
ghost use Rattle.byte_streams.specs.Streams.{Writes};
ghost use Rattle.byte_streams.specs.Sending.{Sends};
ghost use Rattle.byte_streams.specs.Drafts.{AddsText};

use crate::counts::Count;
use crate::parts::{Part, put_number};
use crate::streams::{Failed, Sink, write_text};
use itoa::Buffer;
use std::marker::Model;
use std::simd::prelude::*;

// The two digits of each number below 100.
static PAIRS: [u8; 200] =
    *b"00010203040506070809101112131415161718192021222324252627282930313233343536373839404142434445464748495051525354555657585960616263646566676869707172737475767778798081828384858687888990919293949596979899";

// The bytes of the buffer.
const SIZE: usize = 16_384;

// How many bytes a count's text is copied in, at once.
const LANES: usize = 32;

// For so many bytes [`Line::make_room`] sees that there is room.
const LEAST: usize = 512;

/// A text that is put together: one line or many, of at most 16,384 bytes in all. A call that puts something behind it
/// asks for the room.
#[derive(Drop)]
pub struct Line {
    bytes: [u8; 16_384],
    len: usize,
}

impl Model for Line {
    ghost use Rattle.std.specs.Prelude.{◌-◌, ◌≤◌, take};
    ghost use Rattle.byte_streams.specs.Drafts.{Draft};

    ghost Value = { Draft };

    ghost view = { λ l. record { text = take l.len l.bytes; room = 16384 - l.len } };

    ghost invariant = { λ l. l.len ≤ 16384 };
}

impl Line {
    /// The empty line.
    pub fn new() -> Line
        ensures text { result.text ≡ [] }
        ensures room { result.room ≡ 16384 }
    {
        Line {
            bytes: [0; SIZE],
            len: 0,
        }
    }

    /// Its text so far.
    pub fn bytes(&self) -> &[u8]
        ensures text { result.now ≡ self.now.text }
        ensures short { length result.now ≤ 16384 }
    {
        &self.bytes[..self.len]
    }

    /// Empties it.
    #[inline(always)]
    pub fn clear(&mut self)
        ensures text { self.new.text ≡ [] }
        ensures room { self.new.room ≡ 16384 }
    {
        self.len = 0;
    }

    /// Sees that there is room for 512 bytes more: where there isn't, the sink gets the text, and the line is empty.
    /// [`Failed`] only where the sink's count of faults rose; then it got a beginning of the text.
    #[inline(always)]
    pub fn make_room<K: Sink>(&mut self, out: &mut K) -> Result<(), Failed>
        ensures sent { Sends (K.held out.old) (K.held out.new) self.old.text self.new.text
            (K.faults out.old) (K.faults out.new) result [] }
        ensures room { OnOk result (512 ≤ self.new.room) }
    {
        if SIZE - self.len >= LEAST {
            return Ok(());
        }
        self.flush(out)
    }

    /// Gives the sink the text and empties the line. [`Failed`] only where the sink's count of faults rose; then it got
    /// a beginning of the text.
    pub fn flush<K: Sink>(&mut self, out: &mut K) -> Result<(), Failed>
        ensures written { Writes (K.held out.old) (K.held out.new)
            (K.faults out.old) (K.faults out.new) result self.old.text }
        ensures text { OnOk result (self.new.text ≡ []) }
        ensures room { OnOk result (self.new.room ≡ 16384) }
    {
        write_text(out, &self.bytes[..self.len])?;
        self.len = 0;
        Ok(())
    }

    // Puts a byte behind it.
    #[inline(always)]
    fn byte(&mut self, byte: u8)
        requires { 1 ≤ self.old.room }
        ensures { AddsText self.old self.new (byte ∷ []) 1 }
    {
        let at = self.len;
        self.bytes[at] = byte;
        self.len = at + 1;
    }

    // Puts a number of one digit behind it.
    #[inline(always)]
    fn digit(&mut self, n: u64)
        requires digit { n < 10 }
        requires room { 1 ≤ self.old.room }
        ensures { AddsText self.old self.new (decimal n) 1 }
    {
        self.byte(b'0' + n as u8);
    }

    // Puts the tens and the ones of a number below 100 behind it, both also where there are no tens.
    #[inline(always)]
    fn pair(&mut self, n: u64)
        requires digits { n < 100 }
        requires room { 2 ≤ self.old.room }
        ensures { AddsText self.old self.new ((48 + n / 10) ∷ (48 + n % 10) ∷ []) 2 }
    {
        self.text(&pair_of(n));
    }

    // Puts a number of two digits behind it.
    #[inline(always)]
    fn two_digits(&mut self, n: u64)
        requires digits { (10 ≤ n) × (n < 100) }
        requires room { 2 ≤ self.old.room }
        ensures { AddsText self.old self.new (decimal n) 2 }
    {
        self.pair(n);
    }

    // Puts a number of one or two digits behind it.
    #[inline(always)]
    fn two_at_most(&mut self, n: u64)
        requires digits { n < 100 }
        requires room { 2 ≤ self.old.room }
        ensures { AddsText self.old self.new (decimal n) 2 }
    {
        if n < 10 {
            self.digit(n);
        } else {
            self.two_digits(n);
        }
    }

    // Puts a number of three or four digits behind it. The last two are what its hundredth part leaves, so that one
    // division does, here and below.
    #[inline(always)]
    fn four_digits(&mut self, n: u64)
        requires digits { (100 ≤ n) × (n < 10000) }
        requires room { 4 ≤ self.old.room }
        ensures { AddsText self.old self.new (decimal n) 4 }
    {
        let high = n / 100;
        self.two_at_most(high);
        self.pair(n - high * 100);
    }

    // Puts a number of five or six digits behind it.
    #[inline(always)]
    fn six_digits(&mut self, n: u64)
        requires digits { (10000 ≤ n) × (n < 1000000) }
        requires room { 6 ≤ self.old.room }
        ensures { AddsText self.old self.new (decimal n) 6 }
    {
        let high = n / 100;
        self.four_digits(high);
        self.pair(n - high * 100);
    }

    // Puts a number of seven or eight digits behind it.
    #[inline(always)]
    fn eight_digits(&mut self, n: u64)
        requires digits { (1000000 ≤ n) × (n < 100000000) }
        requires room { 8 ≤ self.old.room }
        ensures { AddsText self.old self.new (decimal n) 8 }
    {
        let high = n / 100;
        self.six_digits(high);
        self.pair(n - high * 100);
    }

    /// Puts a text behind it.
    #[inline(always)]
    pub fn text(&mut self, piece: &[u8])
        requires { length piece.now ≤ self.old.room }
        ensures { AddsText self.old self.new piece.now (length piece.now) }
    {
        let at = self.len;
        self.bytes[at..at + piece.len()].copy_from_slice(piece);
        self.len = at + piece.len();
    }

    /// Puts a number behind it, in decimal.
    #[inline(always)]
    pub fn number(&mut self, n: u64)
        requires { 20 ≤ self.old.room }
        ensures { AddsText self.old self.new (decimal n) 20 }
    {
        if n < 10 {
            self.digit(n);
        } else {
            self.long_number(n);
        }
    }

    // Puts a number of two digits or more behind it, in decimal.
    #[inline(always)]
    fn long_number(&mut self, n: u64)
        requires long { 10 ≤ n }
        requires room { 20 ≤ self.old.room }
        ensures { AddsText self.old self.new (decimal n) 20 }
    {
        if n < 100 {
            self.two_digits(n);
        } else if n < 10_000 {
            self.four_digits(n);
        } else {
            self.longer_number(n);
        }
    }

    // Puts a number of five digits or more behind it, in decimal. It is a call, so that the code for the short ones is
    // small enough to stand at each place where a number is put.
    #[inline(never)]
    fn longer_number(&mut self, n: u64)
        requires long { 10000 ≤ n }
        requires room { 20 ≤ self.old.room }
        ensures { AddsText self.old self.new (decimal n) 20 }
    {
        if n < 1_000_000 {
            self.six_digits(n);
        } else if n < 100_000_000 {
            self.eight_digits(n);
        } else {
            self.any_number(n);
        }
    }

    // Puts a number behind it, in decimal, by a buffer of its own. It is a call, so that those of fewer digits need no
    // room for that buffer.
    #[inline(never)]
    fn any_number(&mut self, n: u64)
        requires { 20 ≤ self.old.room }
        ensures { AddsText self.old self.new (decimal n) 20 }
    {
        self.text(Buffer::new().format(n).as_bytes());
    }

    /// Puts a number behind it whose decimal text is at hand. All 32 bytes of the count's buffer are copied at once, so
    /// it asks for room for these.
    #[inline(always)]
    pub fn count(&mut self, count: &Count)
        requires { 32 ≤ self.old.room }
        ensures { AddsText self.old self.new (decimal count.now) 20 }
    {
        let at = self.len;
        let (digits, len) = count.digits();
        u8x32::from_slice(digits).copy_to_slice(&mut self.bytes[at..at + LANES]);
        self.len = at + len;
    }

    /// Puts a part's word and a number behind it. The part's digits are the number's afterwards, where it can have
    /// them.
    #[inline(always)]
    pub fn part(&mut self, part: &mut Part, n: u64)
        requires { 56 ≤ self.old.room }
        ensures text { AddsText self.old self.new (part.old.word ++ decimal n) 43 }
        ensures word { part.new.word ≡ part.old.word }
    {
        self.len = put_number(&mut self.bytes, self.len, part, n);
    }

    /// Puts a word behind it, with a space before the word. The word is taken as an array, since its length is then
    /// known where it is put.
    #[inline(always)]
    pub fn word<const N: usize>(&mut self, word: [u8; N])
        requires { N + 1 ≤ self.old.room }
        ensures { AddsText self.old self.new (32 ∷ word.entry) (N + 1) }
    {
        let at = self.len;
        self.bytes[at] = b' ';
        self.bytes[at + 1..at + 1 + N].copy_from_slice(&word);
        self.len = at + 1 + N;
    }

    /// Puts a number behind it, with a space before it.
    #[inline(always)]
    pub fn decimal(&mut self, n: u64)
        requires { 21 ≤ self.old.room }
        ensures { AddsText self.old self.new (32 ∷ decimal n) 21 }
    {
        if n < 10 {
            self.text(&[b' ', b'0' + n as u8]);
        } else {
            self.text(b" ");
            self.long_number(n);
        }
    }

    /// Puts a letter and a number behind it, with a space before them.
    #[inline(always)]
    pub fn lettered(&mut self, letter: u8, n: u64)
        requires { 22 ≤ self.old.room }
        ensures { AddsText self.old self.new (32 ∷ letter ∷ decimal n) 22 }
    {
        if n < 10 {
            self.text(&[b' ', letter, b'0' + n as u8]);
        } else {
            self.text(&[b' ', letter]);
            self.long_number(n);
        }
    }

    /// Puts a letter, a number and a last byte behind it, with a space before them.
    #[inline(always)]
    pub fn lettered_before(&mut self, letter: u8, n: u64, last: u8)
        requires { 23 ≤ self.old.room }
        ensures { AddsText self.old self.new (32 ∷ letter ∷ (decimal n ++ last ∷ [])) 23 }
    {
        if n < 10 {
            self.text(&[b' ', letter, b'0' + n as u8, last]);
        } else {
            self.lettered(letter, n);
            self.byte(last);
        }
    }
}

/// The tens and the ones of a number below 100, as digits: both, also where there are no tens.
#[inline(always)]
pub fn pair_of(n: u64) -> [u8; 2]
    requires { n < 100 }
    ensures { result ≡ (48 + n / 10) ∷ (48 + n % 10) ∷ [] }
{
    let at = n as usize * 2;
    [PAIRS[at], PAIRS[at + 1]]
}
